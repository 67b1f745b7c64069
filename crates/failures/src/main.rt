//! Runs the rows about devices, readers, writers and files that fail or return wrong results.
//! `tests/README.md` lists the verbs.
#![tactic(auto)]

mod beginnings;
mod endings;
mod failing;
mod fault_texts;
mod fractions;
mod job_reads;
mod lying;
mod narrow;
mod questions;
mod shared_fuse;
mod sharing;
mod showing;
mod sources;
mod translating;

use questions::Failures;
use rows::sheet::try_rows;
use std::io;

fn main(rt: HostRuntime) -> io::Result<()> {
    try_rows(&rt, rt.alloc(), &mut Failures { rt: &rt })
}
