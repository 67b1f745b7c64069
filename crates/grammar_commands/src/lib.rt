//! The commands about a grammar, which need no sentence and no tree: `check`, `plan`, `code` and
//! `why`. Also `value`, which evaluates an expression.
#![tactic(auto)]

mod faults;
mod found;
mod listings;
mod why;

pub use faults::list_all;
pub use listings::{Part, print_part, print_value};
pub use why::explain_plan;
