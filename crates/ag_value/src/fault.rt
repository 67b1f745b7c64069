//! The faults of calls on values, and conversions from faults of memory.
ghost use Rattle.std.specs.Prelude.{◌≡◌};
ghost use Rattle.ag_value.specs.declared.fault.NoMemory.{NoMemory};
ghost use Rattle.ag_value.specs.declared.fault.NoMemory.TheVariants as no_memory;
ghost use Rattle.ag_value.specs.declared.fault.ValueFault.TheVariants as value_fault;

use std::alloc::{AllocError, AllocFailed};
use thiserror::Error;

/// The fault of a call that can only run out of memory: the allocator refused memory, or a count
/// would exceed 2^64 - 1, namely a number of bytes or the number of owners of a shared value.
#[derive(Clone, Copy, Debug, PartialEq, Eq, Error)]
pub enum NoMemory {
    #[error("NoMemory a request for memory was refused")]
    NoMemory,
}

/// Marks the faults that have no other causes than those of [`NoMemory`]: `AllocError` and
/// `AllocFailed` of std, and `NoMemory`. A crate converts all three to its own fault by one
/// `impl From`.
pub trait OutOfMemory: Drop {}

impl OutOfMemory for AllocError {}

impl<T: Drop> OutOfMemory for AllocFailed<T> {}

impl OutOfMemory for NoMemory {}

impl From<AllocError> for NoMemory {
    ghost from_gives = { λ _ e. e ≡ no_memory.NoMemory };

    fn from(_error: AllocError) -> NoMemory {
        NoMemory::NoMemory
    }
}

impl<T: Drop> From<AllocFailed<T>> for NoMemory {
    ghost from_gives = { λ _ e. e ≡ no_memory.NoMemory };

    fn from(_error: AllocFailed<T>) -> NoMemory {
        NoMemory::NoMemory
    }
}

/// The reasons why `decode` fails.
#[derive(Clone, Copy, Debug, PartialEq, Eq, Error)]
pub enum ValueFault {
    /// V1: no prefix of the bytes is the spelling of a well value.
    #[error("V1 the bytes do not begin with the spelling of a well value")]
    Malformed,
    /// Memory ran out, with the causes of [`NoMemory`].
    #[error("NoMemory a request for memory was refused")]
    NoMemory,
}

impl<M: OutOfMemory> From<M> for ValueFault {
    ghost from_gives = { λ _ e. e ≡ value_fault.NoMemory };

    fn from(_error: M) -> ValueFault {
        ValueFault::NoMemory
    }
}
