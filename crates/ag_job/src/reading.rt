//! Reads a limited number of bytes from a reader.

ghost use Rattle.std.specs.Prelude.{IfOk, IfSome, ◌≡◌, take};

use std::alloc::Global;
use std::io::{self, ErrorKind, Read};
use thiserror::Error;

/// Why bytes can't be read.
#[derive(Clone, Copy, Debug, PartialEq, Eq, Error)]
pub enum ReadFault {
    /// The reader failed.
    #[error("read: the reader failed")]
    Read,
    /// A request for memory was refused.
    #[error("NoMemory a request for memory was refused")]
    NoMemory,
}

/// Returns the first bytes of a reader: all up to its end, but at most `most` bytes. Fails with
/// `Read` if the reader fails, and with `NoMemory` if a request for memory is refused, in this call
/// or in the reader. `R.remaining reader` has the bytes that the reader still contains, if a
/// contract can name them.
pub fn read_prefix<R: Read + Drop>(
    alloc: Global,
    reader: R,
    most: u64,
) -> Result<Vec<u8>, ReadFault>
    ensures { IfOk result (λ bytes. IfSome (R.remaining reader)
        (λ left. bytes.items ≡ take most left)) }
{
    let mut bytes = Vec::new(alloc);
    match reader.take(most).read_to_end(&mut bytes) {
        Ok(_) => Ok(bytes),
        Err(error) => Err(read_fault_of(&error)),
    }
}

/// Returns `NoMemory` if the error is a refused request for memory, otherwise `Read`.
fn read_fault_of(error: &io::Error) -> ReadFault {
    if error.kind() == ErrorKind::OutOfMemory {
        ReadFault::NoMemory
    } else {
        ReadFault::Read
    }
}
