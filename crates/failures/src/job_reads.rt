//! Jobs from a reader that fails from one of its reads on: first from read 1, then from read 2, and
//! so on, until the job makes too few reads to reach the failing ones.

use crate::endings::Ending;
use crate::fractions::FRACTIONS;
use aggen::run_job;
use rows::words::{Mistake, first_word, number};
use std::alloc::Global;
use std::io::{self, Read};
use treefile::MemDevice;

/// A reader that returns at most `step` bytes in a read. At first `reads_left` is the number, from
/// 1, of the first read that fails (0 is as 1). All later reads fail too.
#[derive(Drop)]
struct FalteringReader<'a> {
    bytes: &'a [u8],
    step: usize,
    reads_left: u64,
}

impl Read for FalteringReader<'_> {
    fn read(&mut self, buf: &mut [u8]) -> io::Result<usize> {
        self.reads_left = self.reads_left.saturating_sub(1);
        if self.reads_left == 0 {
            return Err(io::Error::from(io::ErrorKind::Other));
        }
        let count = self.step.min(self.bytes.len()).min(buf.len());
        let (prefix, rest) = self.bytes.split_at(count);
        buf[..count].copy_from_slice(prefix);
        self.bytes = rest;
        Ok(count)
    }
}

/// Runs a job from a reader and returns how the call ends.
fn ending_of_job(alloc: Global, reader: FalteringReader<'_>, out: &mut Vec<u8>) -> Ending {
    let mut a = MemDevice::new(alloc);
    let mut b = MemDevice::new(alloc);
    Ending::of(run_job(alloc, reader, out, &mut a, &mut b))
}

/// Runs a job from a reader that returns at most `step` bytes in a read, and fails from read number
/// `read` on, counted from 1. Returns how the call ends, and what was written.
fn job_ending(alloc: Global, bytes: &[u8], step: usize, read: u64) -> Result<String, Mistake> {
    let reader = FalteringReader {
        bytes,
        step,
        reads_left: read,
    };
    let mut out = Vec::new(alloc);
    let ending = ending_of_job(alloc, reader, &mut out);
    Ok(ending.answer(alloc, out.as_slice())?)
}

/// Returns whether a job succeeds if its reader fails from read number `read` on. If it doesn't
/// succeed, it must fail with J2 and write nothing. Fails with `Unfit` in all other cases.
fn is_done(alloc: Global, job: &[u8], step: usize, read: u64) -> Result<bool, Mistake> {
    let answer = job_ending(alloc, job, step, read)?;
    match answer.as_str() {
        "Read \"\"" => Ok(false),
        "Done \"868352\"" => Ok(true),
        _ => Err(Mistake::Unfit),
    }
}

/// Returns one more than the number of reads that a job makes: the least number of a failing read
/// with which the job succeeds. Fails with `Unfit` as `is_done` does, or if the job makes 999 reads
/// or more, which no job of the rows does.
fn first_unmade_read(alloc: Global, job: &[u8], step: usize) -> Result<u64, Mistake> {
    for read in 1..1000 {
        if is_done(alloc, job, step, read)? {
            return Ok(read);
        }
    }
    Err(Mistake::Unfit)
}

/// Returns whether a job of binary fractions makes at least the row's number of reads. Fails with
/// `Misspelt` if the row doesn't have two numbers, and with `Unfit` as `first_unmade_read` does.
pub fn job_reads_answer(alloc: Global, spelled: &str) -> Result<String, Mistake> {
    let (step, least) = first_word(spelled);
    let step = number(step)? as usize;
    let least = number(least)? as u64;
    let job = format!(in alloc; "{FRACTIONS}%%\n1101.01")?;
    let reads = first_unmade_read(alloc, job.as_bytes(), step)?;
    Ok(format!(in alloc; "{}", least < reads)?)
}
