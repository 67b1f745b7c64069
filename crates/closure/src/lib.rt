//! Computes the numbers that follow from Horn clauses over numbers and from given numbers, the
//! seeds: the least set that contains the seeds and, for each clause whose body it contains, the
//! clause's head.
#![tactic(auto)]

mod addition;
mod clause;
mod clauses;
mod edges;
pub mod samples;
mod search;
mod waiting;

pub use addition::{Addition, FoundNumbers, Reason};
pub use clause::Clause;
pub use clauses::Clauses;
pub use edges::Edge;
