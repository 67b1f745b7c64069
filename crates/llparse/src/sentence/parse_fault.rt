//! The reasons why a parse fails.
ghost use Rattle.std.specs.Prelude.{◌≡◌};
ghost use Rattle.llparse.specs.sentence.Refusals.{parse_fault_of};
ghost use Rattle.llparse.specs.declared.sentence.parse_fault.ParseFault.TheVariants as parse_fault;

use ag_value::NoMemory;
use thiserror::Error;
use treefile::DeviceFault;

/// The reasons why a parse fails.
#[derive(Clone, Copy, Debug, PartialEq, Eq, Error)]
pub enum ParseFault {
    /// P1: no tree has these tokens. Carries the offset, in bytes from the beginning of the
    /// sentence, of the token that can't be taken. If the sentence ends too early, the offset is
    /// that of the last token, or 0 if there is none. P2 or P3 comes instead if the parser reaches
    /// a limit first.
    Unexpected(u32),
    /// P2: each tree with these tokens is deeper than the limit. There may be no such tree (see
    /// P1).
    TooDeep,
    /// P3: each tree with these tokens has more nodes than the limit. A literal has no node. There
    /// may be no such tree (see P1).
    TooManyNodes,
    /// D1: a call of the device failed.
    Device,
    /// The allocator refused memory.
    NoMemory,
}

impl From<NoMemory> for ParseFault {
    ghost from_gives = { λ _ e. e ≡ parse_fault.NoMemory };

    fn from(_error: NoMemory) -> ParseFault {
        ParseFault::NoMemory
    }
}

impl From<DeviceFault> for ParseFault {
    ghost from_gives = { λ fault e. e ≡ parse_fault_of fault };

    fn from(fault: DeviceFault) -> ParseFault {
        match fault {
            DeviceFault::Failed => ParseFault::Device,
            DeviceFault::NoMemory => ParseFault::NoMemory,
        }
    }
}
