//! Writing and reading the spelling of a value (its encoding in bytes), and writing a value as
//! text.

pub mod decoding;
pub mod encoding;
pub mod showing;
