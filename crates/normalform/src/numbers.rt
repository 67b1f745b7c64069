//! The numbered grammar of a raw one.

pub mod declared;
pub mod moving;
pub mod names;
pub mod numbering;
