//! Bytes with several owners: a tree of pieces. Contracts see the list of all bytes.
#![tactic(auto)]

mod comparing;
mod copying;
mod joining;
mod rope;

pub use rope::Rope;
