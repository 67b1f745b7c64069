//! The commands that translate: `run` of one sentence or of many, `eval`, and jobs. Also the cause
//! of an error in the message of O1, if the root's `out` is an error.
#![tactic(auto)]

mod batch;
mod cause;
mod evaluations;
mod translations;

pub use batch::run_sentences;
pub use evaluations::evaluate;
pub use translations::{run_input, run_sentence};
