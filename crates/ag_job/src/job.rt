//! Reads a job from a reader.

ghost use Rattle.std.specs.Prelude.{◌≡◌, IfErr, IfOk, IfSome};
ghost use Rattle.ag_job.specs.Jobs.{IsJob, IsJobFault};

use crate::cutting::{Cut, cut_of};
use crate::fault::JobFault;
use crate::reading::read_prefix;
use ag_grammar::limits::MAX_TEXT_BYTES;
use std::alloc::Global;
use std::io::Read;
use std::marker::Model;

/// The maximal number of bytes of a job: the maximal text of a grammar, a sentence of as many
/// bytes, and 4 bytes for the line `%%` with a CR and an LF. The parts of a job have no limits of
/// their own here.
pub const MAX_JOB_BYTES: usize = 2 * MAX_TEXT_BYTES + 4;

/// A job that was read. Contracts see a record of its two texts, `JobTexts`.
#[derive(Drop)]
pub struct Job {
    bytes: Vec<u8>,
    cut: Cut,
}

impl Model for Job {
    ghost use Rattle.std.specs.Prelude.{◌≤◌, length, take, drop};
    ghost use Rattle.ag_job.specs.Jobs.{JobTexts};

    ghost Value = { JobTexts };

    ghost view = { λ job. record {
      grammar = take job.cut.text job.bytes.items;
      sentence = drop job.cut.sentence job.bytes.items;
    } };

    ghost invariant = { λ job. (job.cut.text ≤ length job.bytes.items)
        × (job.cut.sentence ≤ length job.bytes.items) };
}

impl Job {
    /// Reads a job: a grammar, the first line that is exactly `%%`, and a sentence, which ends at
    /// the reader's end. A CR directly before the LF of that line is ignored. At the end of a job,
    /// `%%` needs no LF, but `%%` with a CR and without an LF doesn't count.
    ///
    /// Reads up to the reader's end, but at most 2,097,157 bytes: one more than a job may have.
    /// Fails with J2 `Read` if the reader fails meanwhile, with J3 `TooLong` if it returns all
    /// 2,097,157 bytes, and with J1 `NoSeparator` if no line is exactly `%%`. Fails with `NoMemory`
    /// if a request for memory is refused, in this call or in the reader.
    ///
    /// `R.remaining reader` has the bytes that the reader still contains, if a contract can name
    /// them.
    pub fn read<R: Read + Drop>(alloc: Global, reader: R) -> Result<Job, JobFault>
        ensures job { IfOk result (λ job. IfSome (R.remaining reader)
            (λ bytes. IsJob bytes job.grammar job.sentence)) }
        ensures refused { IfErr result (λ e. IsJobFault (R.remaining reader) e) }
    {
        let bytes = read_prefix(alloc, reader, MAX_JOB_BYTES as u64 + 1)?;
        if MAX_JOB_BYTES < bytes.len() {
            return Err(JobFault::TooLong);
        }
        match cut_of(bytes.as_slice()) {
            Some(cut) => Ok(Job { bytes, cut }),
            None => Err(JobFault::NoSeparator),
        }
    }

    /// Returns the text of the grammar.
    pub fn grammar(&self) -> &[u8]
        ensures { result.now ≡ self.now.grammar }
    {
        &self.bytes[..self.cut.text]
    }

    /// Returns the sentence.
    pub fn sentence(&self) -> &[u8]
        ensures { result.now ≡ self.now.sentence }
    {
        &self.bytes[self.cut.sentence..]
    }
}
