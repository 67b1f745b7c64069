//! Faults of a grammar as JSON objects, one in each line, for editors and other programs. FORMATS
//! has their fields.
#![tactic(auto)]

mod details;
mod objects;

pub use details::FaultDetails;
pub use objects::{object_line, rest_line};
