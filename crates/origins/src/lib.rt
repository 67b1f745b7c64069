//! Finds where the error of a rule comes from, with the values of a record that the last pass wrote:
//! whether it arises in the rule, or which of the rule's arguments passes it on.
#![tactic(auto)]

mod arising;
mod fault;
pub mod laws;
mod lending;
mod record;
mod row;
mod slots;

pub use fault::DecodeFault;
pub use record::{LastRecord, record_of};
pub use row::Row;
