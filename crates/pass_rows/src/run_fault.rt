//! The reasons for which a pass or an upgrade fails.

ghost use Rattle.std.specs.Prelude.{◌≡◌};
ghost use Rattle.pass_rows.specs.Faults.{run_fault_of_device, run_fault_of_frame, run_fault_of_turn};
ghost use Rattle.pass_rows.specs.declared.run_fault.RunFault.TheVariants as run_fault;

use ag_value::NoMemory;
use backreader::TurnFault;
use thiserror::Error;
use treefile::{DeviceFault, FrameFault};

/// The reason why a pass, all passes or an upgrade (`upgrade` of `tree_upgrade`) failed. Each call
/// documents what its devices contain after a failure.
#[derive(Clone, Copy, Debug, PartialEq, Eq, Error)]
pub enum RunFault {
    /// R1: the content that is read is not the file of a tree of the grammar. A pass k, and a run
    /// of all passes from k on, expects a file of pass k - 1. `upgrade` expects one of version 1
    /// and pass 0. The offset in bytes is 0 if the content does not begin as a tree file of the
    /// expected version, and 4 if it begins as the file of another pass. Otherwise it is the end of
    /// the frame that shows the damage, or the offset at which a frame should end.
    Damaged(u64),
    /// P2: the file encodes no tree of at most `MAX_DEPTH` levels (`MAX_REVERSED_LEVELS` for
    /// `upgrade`): the node of the next record would have a greater level.
    TooDeep,
    /// P3: the file encodes no tree of at most `MAX_NODES` nodes (`MAX_REVERSED_RECORDS` for
    /// `upgrade`): that many records were read, and another one is expected.
    TooManyNodes,
    /// D1: a call of one of the devices failed.
    Device,
    /// Memory could not be allocated.
    NoMemory,
}

impl From<FrameFault> for RunFault {
    ghost from_gives = { λ fault e. e ≡ run_fault_of_frame fault };

    fn from(fault: FrameFault) -> RunFault {
        match fault {
            FrameFault::NotATreeFile => RunFault::Damaged(0),
            FrameFault::Damaged(at) => RunFault::Damaged(at),
            FrameFault::Device => RunFault::Device,
            FrameFault::NoMemory => RunFault::NoMemory,
        }
    }
}

impl From<DeviceFault> for RunFault {
    ghost from_gives = { λ fault e. e ≡ run_fault_of_device fault };

    fn from(fault: DeviceFault) -> RunFault {
        match fault {
            DeviceFault::Failed => RunFault::Device,
            DeviceFault::NoMemory => RunFault::NoMemory,
        }
    }
}

impl From<TurnFault> for RunFault {
    ghost from_gives = { λ fault e. e ≡ run_fault_of_turn fault };

    fn from(fault: TurnFault) -> RunFault {
        match fault {
            TurnFault::NotATreeFile => RunFault::Damaged(0),
            TurnFault::Damaged(at) | TurnFault::NotATree(at) => RunFault::Damaged(at),
            TurnFault::TooLarge => RunFault::TooDeep,
            TurnFault::Device => RunFault::Device,
            TurnFault::NoMemory => RunFault::NoMemory,
        }
    }
}

impl From<NoMemory> for RunFault {
    ghost from_gives = { λ _ e. e ≡ run_fault.NoMemory };

    fn from(_error: NoMemory) -> RunFault {
        RunFault::NoMemory
    }
}
