//! Faults of tree files.

pub mod damage;
pub mod frames;
