//! Reading the translation from the tree file of the last pass.
#![tactic(auto)]

mod root;

pub use agoutput::OutFault;
pub use root::root_text;
