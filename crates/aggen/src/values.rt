//! The value of an expression, by way of a tree file.

pub mod value;
pub mod value_file;
