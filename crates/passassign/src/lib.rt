//! The least assignment of passes to the attributes of a grammar, or a certificate that there is
//! none.
//!
//! A pass visits the nodes of a tree depth first: odd passes visit the children of a node from
//! right to left, even ones from left to right. An assignment gives each attribute the pass that
//! computes it. It is legal if the arguments of each rule are computed before the rule is
//! evaluated. The least assignment is computed pass by pass. A pass strikes each attribute that it
//! can't compute, with the rule and the argument that are the reason. The other attributes without
//! a pass get this pass.
//!
//! A function that returns a `Result<_, NoMemory>` fails only if memory is refused.
#![tactic(auto)]

mod assigning;
mod assignment;
mod chain;
mod dependency;
pub mod laws;
pub mod samples;
mod search;
mod stuck;
mod table;

pub use assigning::{AssignFault, assign, assign_with_strikes};
pub use assignment::Assignment;
pub use search::is_same_or_later;
pub use stuck::{Strike, Strikes, Stuck};
