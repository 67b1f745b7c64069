//! Texts of several lines for a terminal.

use std::fmt;

/// A text in which each control character, except line feeds, prints as an escape with its code
/// point in hexadecimal, such as `\u{1b}`. So a word in a message can't control the terminal.
#[derive(Clone, Copy)]
pub struct PlainLines<'a>(pub &'a str);

impl fmt::Display for PlainLines<'_> {
    fn fmt<W: fmt::Write>(&self, f: &mut fmt::Formatter<W>) -> fmt::Result {
        for character in self.0.chars() {
            if character == '\n' || !character.is_control() {
                write!(f, "{character}")?;
            } else {
                write!(f, "{}", character.escape_unicode())?;
            }
        }
        Ok(())
    }
}
