//! How a call of the library ends.

use ag_job::JobFault;
use aggen::Fault;
use std::alloc::{AllocError, Global};

/// How a call ends. The rows distinguish no more cases.
#[derive(Clone, Copy, Debug)]
pub enum Ending {
    /// With success.
    Done,
    /// With F1.
    File,
    /// With B1.
    NotATreeFile,
    /// With B2, and its offset in bytes.
    Damaged(u64),
    /// With D1.
    Device,
    /// With J2.
    Read,
    /// With O2.
    Write,
    /// With another fault.
    Other,
}

impl Ending {
    /// Returns the ending of a result.
    pub fn of<T: Drop>(answer: Result<T, Fault>) -> Ending {
        match answer {
            Ok(_) => Ending::Done,
            Err(Fault::File) => Ending::File,
            Err(Fault::NotATreeFile) => Ending::NotATreeFile,
            Err(Fault::Damaged(at)) => Ending::Damaged(at),
            Err(Fault::Device) => Ending::Device,
            Err(Fault::Job(JobFault::Read)) => Ending::Read,
            Err(Fault::Write) => Ending::Write,
            Err(_) => Ending::Other,
        }
    }

    /// Returns how a call ended, and in quotes what it wrote. If the bytes that it wrote are not
    /// UTF-8, a fixed text takes their place.
    pub fn answer(self, alloc: Global, written: &[u8]) -> Result<String, AllocError> {
        let written = str::from_utf8(written).unwrap_or("bytes that are not UTF-8");
        format!(in alloc; "{self:?} {written:?}")
    }
}
