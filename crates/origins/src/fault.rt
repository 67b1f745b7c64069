//! Why a record was not read.

ghost use Rattle.std.specs.Prelude.{◌≡◌};
ghost use Rattle.origins.specs.Faults.{record_fault_of};

use ag_value::ValueFault;
use thiserror::Error;

/// Why a record was not read.
#[derive(Clone, Copy, Debug, PartialEq, Eq, Error)]
pub enum DecodeFault {
    /// The body is not a record of the expected item, as far as `record_of` checks the body.
    #[error("damaged: the body is not a record of the expected item")]
    Damaged,
    /// Memory was refused.
    #[error("NoMemory a request for memory was refused")]
    NoMemory,
}

impl From<ValueFault> for DecodeFault {
    ghost from_gives = { λ fault e. e ≡ record_fault_of fault };

    fn from(fault: ValueFault) -> DecodeFault {
        match fault {
            ValueFault::Malformed => DecodeFault::Damaged,
            ValueFault::NoMemory => DecodeFault::NoMemory,
        }
    }
}
