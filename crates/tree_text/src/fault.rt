//! Why a tree file was not printed.

ghost use Rattle.std.specs.Prelude.{◌≡◌};
ghost use Rattle.tree_text.specs.declared.fault.ShowFault.TheVariants as show_fault;

use ag_value::NoMemory;
use std::alloc::AllocError;
use thiserror::Error;
use tree_index::TreeFault;

/// Why a tree file was not printed.
#[derive(Clone, Copy, Debug, PartialEq, Eq, Error)]
pub enum ShowFault {
    /// The file, or a record of it, was not read. The fault can be that memory was refused.
    #[error(transparent)]
    Tree(TreeFault),
    /// O2: the output failed.
    #[error("O2 the output could not be written completely")]
    Write,
    /// Memory was refused to a call that does not return a `TreeFault`.
    #[error("NoMemory a request for memory was refused")]
    NoMemory,
}

impl From<TreeFault> for ShowFault {
    ghost from_gives = { λ fault e. e ≡ show_fault.Tree fault };

    fn from(fault: TreeFault) -> ShowFault {
        ShowFault::Tree(fault)
    }
}

impl From<NoMemory> for ShowFault {
    ghost from_gives = { λ _ e. e ≡ show_fault.NoMemory };

    fn from(_error: NoMemory) -> ShowFault {
        ShowFault::NoMemory
    }
}

impl From<AllocError> for ShowFault {
    ghost from_gives = { λ _ e. e ≡ show_fault.NoMemory };

    fn from(_error: AllocError) -> ShowFault {
        ShowFault::NoMemory
    }
}
