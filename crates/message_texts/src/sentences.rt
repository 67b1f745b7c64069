//! Faults of sentences.

pub mod parsing;
pub mod scanning;
