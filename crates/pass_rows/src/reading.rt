//! Reading the records of a tree file into rows.

pub mod lent;
pub mod record;
