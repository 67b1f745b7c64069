//! Writes texts and the listings of plans and code to a writer, and makes lines of values and of
//! counts.
#![tactic(auto)]

mod code_listing;
mod fault;
mod lines;
mod naming;
mod out_fault;
mod plan_listing;
pub mod samples;
mod writing;

pub use code_listing::write_code;
pub use fault::{ListingFault, TextOutFault};
pub use lines::{counts_line, nodes_line, value_line};
pub use out_fault::OutFault;
pub use plan_listing::write_plan;
pub use writing::{write_bytes, write_text};
