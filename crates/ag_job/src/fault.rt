//! Why a job can't be read.

ghost use Rattle.std.specs.Prelude.{◌≡◌};
ghost use Rattle.ag_job.specs.Jobs.{job_fault_of};

use crate::reading::ReadFault;
use thiserror::Error;

/// Why a job can't be read.
#[derive(Clone, Copy, Debug, PartialEq, Eq, Error)]
pub enum JobFault {
    /// J1: no line is exactly `%%`.
    NoSeparator,
    /// J2: the reader failed.
    Read,
    /// J3: the job has more than 2,097,156 bytes.
    TooLong,
    /// A request for memory was refused.
    NoMemory,
}

impl From<ReadFault> for JobFault {
    ghost from_gives = { λ fault e. e ≡ job_fault_of fault };

    fn from(fault: ReadFault) -> JobFault {
        match fault {
            ReadFault::Read => JobFault::Read,
            ReadFault::NoMemory => JobFault::NoMemory,
        }
    }
}
