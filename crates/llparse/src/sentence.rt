//! Parsing a sentence by tables, and the look-aheads expected where a sentence is refused.

pub mod expected;
pub mod language;
pub mod parse_fault;
pub mod parser;
pub mod parsing;
pub mod tokens;
