//! The cause of an error: the rule in which the error arises, at the end of the chain of rules that
//! passed the error on.
//!
//! `find_cause` follows the chain along the index of the tree file of the last pass, and reads only
//! the records on it.
#![tactic(auto)]

mod chain;
pub mod laws;
mod next_rule;
mod tokens;

pub use chain::{Cause, ChainStart, find_cause};
pub use next_rule::rule_for;
pub use tokens::tokens_before;
