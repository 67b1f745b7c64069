//! The faults of the program and its library, how each is printed, and the exit status of the
//! program.
#![tactic(auto)]

mod build_fault;
mod display;
mod fault;
mod stuck_grammar;

pub use build_fault::BuildFault;
pub use fault::{Fault, status};
pub use stuck_grammar::StuckGrammar;
