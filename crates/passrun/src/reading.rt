//! Reading the records of a tree file.

pub mod fetching;
