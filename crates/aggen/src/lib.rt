//! Translators from attribute grammars. A translator is built from a grammar's text. It parses a
//! sentence into the file of its one tree, translates sentences and such files, and converts tree
//! files of version 1. `run_job` translates a job: a grammar and a sentence in one text.
//!
//! The crate also prints the counts of a grammar, its plan and the plan's code, and evaluates
//! expressions by way of a tree file. `certify_plan` returns the least assignment of passes with
//! strikes, which show that it is the least one. `source_of` and `bytes_of` read a file and a
//! reader into memory.
//!
//! Every call that allocates memory can also fail with NoMemory. Some comments do not mention it.
#![tactic(auto)]

mod certified;
mod checking;
pub mod laws;
mod listing;
mod source;
mod translations;
mod translator;
mod values;

pub use ag_fault::{BuildFault, Fault, StuckGrammar, status};
pub use certified::{CertifiedPlan, certify_plan};
pub use checking::{grammar_of, print_counts};
pub use listing::{print_code, print_plan};
pub use source::{bytes_of, fault_or, source_of};
pub use translations::job::run_job;
pub use translations::report::Report;
pub use translator::Translator;
pub use values::value::show_value;
