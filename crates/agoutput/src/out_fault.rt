//! The reasons why no text can be read from the file of the last pass.

ghost use Rattle.std.specs.Prelude.{◌≡◌};
ghost use Rattle.agoutput.specs.OutFaults.{out_fault_of};

use ag_value::Value;
use thiserror::Error;
use treefile::FrameFault;

/// The reasons why no text can be read from the file of the last pass.
#[derive(Debug, Drop, Error)]
pub enum OutFault {
    /// O1: the translation is this value, which is not a text.
    #[error("O1 the translation is not a text")]
    NoText(Value),
    /// B1: there are fewer than 6 bytes, or the first four are not `AGT2`.
    #[error("B1 the device does not contain a tree file")]
    NotATreeFile,
    /// B2: no frame with a root's record ends at this offset in bytes, which is the end of the
    /// file. Such a record has a value for each attribute of the start symbol, and copies of the
    /// children's synthesized values.
    #[error("B2 at {0}: no frame with a root's record ends here")]
    Damaged(u64),
    /// D1: a call of the device failed.
    #[error("D1 a call of the device failed")]
    Device,
    /// The allocator refused memory.
    #[error("NoMemory a request for memory was refused")]
    NoMemory,
}

impl From<FrameFault> for OutFault {
    ghost from_gives = { λ fault e. e ≡ out_fault_of fault };

    fn from(fault: FrameFault) -> OutFault {
        match fault {
            FrameFault::NotATreeFile => OutFault::NotATreeFile,
            FrameFault::Damaged(at) => OutFault::Damaged(at),
            FrameFault::Device => OutFault::Device,
            FrameFault::NoMemory => OutFault::NoMemory,
        }
    }
}
