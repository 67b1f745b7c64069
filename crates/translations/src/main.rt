//! Runs the rows about the translator: translations, jobs, trees, faults, files, and reads and
//! writes by blocks. `tests/README.md` lists the verbs.
#![tactic(auto)]

mod blocks;
mod counting;
mod faults;
mod files;
mod questions;
mod reports;
mod translators;

use questions::Translations;
use rows::sheet::try_rows;
use std::io;

fn main(rt: HostRuntime) -> io::Result<()> {
    try_rows(&rt, rt.alloc(), &mut Translations {})
}
