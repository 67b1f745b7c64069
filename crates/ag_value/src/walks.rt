//! Walks over the whole of a value.

pub mod comparing;
pub mod copying;
pub mod measuring;
pub mod wellness;
