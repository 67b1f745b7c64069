//! Reads jobs. A job is a text with a grammar, a line `%%` (the first such line) and a sentence.
//! `read_prefix` reads a limited number of bytes from a reader.
#![tactic(auto)]

mod cutting;
mod display;
mod fault;
mod job;
pub mod laws;
mod reading;

pub use fault::JobFault;
pub use job::{Job, MAX_JOB_BYTES};
pub use reading::{ReadFault, read_prefix};
