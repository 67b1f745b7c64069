//! Tables of attribute values as persistent balanced trees: versions of a table share nodes.
//! Contracts see a table as the list of its pairs.
#![tactic(auto)]

mod balancing;
mod comparing;
mod encoding;
mod entry;
mod flat;
mod lookup;
mod matching;
mod putting;
mod totals;
mod tree;

pub use entry::Entry;
pub use putting::PutFault;
pub use tree::TableTree;
