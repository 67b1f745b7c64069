//! Checks of plans and of certificates. A plan is a legal assignment of passes and code that agrees
//! with it, both of the grammar's shape. One kind of certificate shows that an assignment is the
//! least one, the other that a grammar has no legal assignment.
#![tactic(auto)]

mod certificate;
mod following;
pub mod laws;
mod least;
mod legality;
mod marks;
mod plan;
mod shape;
mod striking;

pub use certificate::check_stuck;
pub use least::check_least;
pub use plan::{Plan, PlanFault, check_plan};
