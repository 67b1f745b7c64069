//! One pass over a tree file, step by step.

pub mod copying;
pub mod ends;
pub mod evaluating;
pub mod machine;
pub mod open_nodes;
pub mod pass;
pub mod putting;
pub mod run;
