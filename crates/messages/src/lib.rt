//! Messages about faults: `FaultReport` has a fault, its location by file, line and column, what
//! was expected, what was found, and what to do. It prints as one line.
//!
//! Each kind of input has a function that makes the report of a fault: `of_expression`,
//! `of_grammar`, `of_sentence`, `of_tree`, `of_old_tree`. `of_file` makes the report of a fault of
//! a file or of its content. `new` makes a report that has only the fault. All but `new` may take
//! memory. If memory is refused, the report leaves out what needs it. Control characters, white
//! space other than the plain space, and some invisible characters are written as escapes, such as
//! `\u{1b}`.
#![tactic(auto)]

mod display;
mod pieces;
mod refusals;
mod report;

pub use message_parts::{Position, Source};
pub use refusals::{ConvertedPaths, offset_of_fault};
pub use report::FaultReport;
