//! Lists of attribute values as persistent balanced trees: versions of a list share nodes.
//! Contracts see the list of the values.
#![tactic(auto)]

mod balancing;
mod items;
mod list;

pub use list::ListTree;
