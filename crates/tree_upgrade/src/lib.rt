//! Converts tree files of version 1 to version 2.
#![tactic(auto)]

mod upgrading;

pub use upgrading::upgrade;
