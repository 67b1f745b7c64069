//! The classes of tokens, by their names.

use ag_grammar::limits::{NAME, NUMBER};

/// Returns the name of a class of tokens: TEXT for each number that is not that of NAME or NUMBER.
pub fn class_name(number: u16) -> &'static str {
    match number {
        NAME => "NAME",
        NUMBER => "NUMBER",
        _ => "TEXT",
    }
}
