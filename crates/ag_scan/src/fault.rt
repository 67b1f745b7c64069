//! The faults of scanning a sentence.

ghost use Rattle.std.specs.Prelude.{◌≡◌};
ghost use Rattle.ag_scan.specs.declared.fault.ScanFault.TheVariants as scan_fault;

use ag_value::OutOfMemory;
use thiserror::Error;

/// Why scanning a sentence fails. (It succeeds for an empty sentence, with no tokens.) Offsets are
/// in bytes from the beginning of the sentence.
#[derive(Clone, Copy, Debug, PartialEq, Eq, Error)]
pub enum ScanFault {
    /// S1: the sentence is not UTF-8; the offset of the first invalid byte.
    BadUtf8(usize),
    /// S2: the character at this offset is not a separator, and no word begins there.
    NoToken(usize),
    /// S3: the text of the token at this offset has more than 65,535 bytes.
    LongToken(usize),
    /// S4: the sentence has more than 1,048,576 bytes.
    TooLong,
    /// An allocation failed.
    NoMemory,
}

impl<M: OutOfMemory> From<M> for ScanFault {
    ghost from_gives = { λ _ e. e ≡ scan_fault.NoMemory };

    fn from(_error: M) -> ScanFault {
        ScanFault::NoMemory
    }
}
