//! Why a tree file, or a record of one, was not read.

ghost use Rattle.std.specs.Prelude.{◌≡◌};
ghost use Rattle.tree_index.specs.Faults.{record_fault_of, tree_fault_of};
ghost use Rattle.tree_index.specs.declared.fault.ShapeFault.TheVariants as record_fault;
ghost use Rattle.tree_index.specs.declared.fault.TreeFault.TheVariants as tree_fault;

use ag_value::{NoMemory, ValueFault};
use thiserror::Error;
use treefile::FrameFault;

/// Why a record was not read.
#[derive(Clone, Copy, Debug, PartialEq, Eq)]
pub(crate) enum ShapeFault {
    /// The body is not a record of the expected item.
    Damaged,
    /// Memory was refused.
    NoMemory,
}

impl From<ValueFault> for ShapeFault {
    ghost from_gives = { λ fault e. e ≡ record_fault_of fault };

    fn from(fault: ValueFault) -> ShapeFault {
        match fault {
            ValueFault::Malformed => ShapeFault::Damaged,
            ValueFault::NoMemory => ShapeFault::NoMemory,
        }
    }
}

impl From<NoMemory> for ShapeFault {
    ghost from_gives = { λ _ e. e ≡ record_fault.NoMemory };

    fn from(_error: NoMemory) -> ShapeFault {
        ShapeFault::NoMemory
    }
}

/// Why a tree file, or a record of one, was not read.
#[derive(Clone, Copy, Debug, PartialEq, Eq, Error)]
pub enum TreeFault {
    /// R1: no tree of the grammar has this file by the plan. The offset in bytes is 0 if the file
    /// does not begin as a tree file of version 2, and 4 if the plan does not have the file's pass.
    /// Otherwise the record that ends at the offset is wrong, missing or one too many. It is the
    /// first such record in the order in which the file is read from its end. A call that reads
    /// only one record returns the offset at which this record should end.
    #[error("R1 at {0}: the file is damaged here")]
    Damaged(u64),
    /// P2: no tree of at most `MAX_DEPTH` levels has this file.
    #[error("P2 the tree is too deep")]
    TooDeep,
    /// P3: no tree of at most `MAX_NODES` nodes has this file.
    #[error("P3 the tree has too many nodes")]
    TooManyNodes,
    /// D1: a call of the device failed.
    #[error("D1 a call of the device failed")]
    Device,
    /// Memory was refused.
    #[error("NoMemory a request for memory was refused")]
    NoMemory,
}

impl From<FrameFault> for TreeFault {
    ghost from_gives = { λ fault e. e ≡ tree_fault_of fault };

    fn from(fault: FrameFault) -> TreeFault {
        match fault {
            FrameFault::NotATreeFile => TreeFault::Damaged(0),
            FrameFault::Damaged(at) => TreeFault::Damaged(at),
            FrameFault::Device => TreeFault::Device,
            FrameFault::NoMemory => TreeFault::NoMemory,
        }
    }
}

impl From<NoMemory> for TreeFault {
    ghost from_gives = { λ _ e. e ≡ tree_fault.NoMemory };

    fn from(_error: NoMemory) -> TreeFault {
        TreeFault::NoMemory
    }
}
