//! How numbers and parts of texts are printed in a message.

ghost use Rattle.std.specs.Prelude.{◌≡◌, IsUtf8};

use std::fmt;

/// How a message names the end of a text, also of a sentence.
pub const END: &str = "the end of the text";

/// The greatest number of names in a message's list of terminals, of symbols, or of occurrences
/// (attributes with their places, such as `$1.sum`). The rest of such a list is only counted or
/// mentioned. Lists of other things have other limits, or none.
pub const MAX_NAMED: usize = 12;

/// The greatest number of characters that `FoundText` prints.
const MAX_SHOWN: usize = 24;

/// A number that prints in groups of three digits, as in `1,048,576`. It prints with at most two
/// commas: above 999,999,999 the first group has more than three digits.
#[derive(Clone, Copy)]
pub struct GroupedNumber(pub usize);

impl fmt::Display for GroupedNumber {
    fn fmt<W: fmt::Write>(&self, f: &mut fmt::Formatter<W>) -> fmt::Result {
        let (thousands, rest) = (self.0 / 1_000, self.0 % 1_000);
        if thousands == 0 {
            return write!(f, "{rest}");
        }
        if thousands < 1_000 {
            return write!(f, "{thousands},{rest:03}");
        }
        write!(
            f,
            "{},{:03},{rest:03}",
            thousands / 1_000,
            thousands % 1_000
        )
    }
}

/// A text that prints in one line. Each control character, each white space but the plain space,
/// and each character of `is_unseen` prints as an escape with its code point in hexadecimal, such
/// as `\u{1b}`.
#[derive(Clone, Copy)]
pub struct PlainText<'a>(pub &'a str);

impl fmt::Display for PlainText<'_> {
    fn fmt<W: fmt::Write>(&self, f: &mut fmt::Formatter<W>) -> fmt::Result {
        for character in self.0.chars() {
            write_character(f, character)?;
        }
        Ok(())
    }
}

/// The text of a literal, which prints as a grammar writes it: in quotes, with a backslash before
/// each quote and each backslash. The other characters print as by `PlainText`.
#[derive(Clone, Copy)]
pub struct QuotedText<'a>(pub &'a str);

impl fmt::Display for QuotedText<'_> {
    fn fmt<W: fmt::Write>(&self, f: &mut fmt::Formatter<W>) -> fmt::Result {
        f.write_str("\"")?;
        for character in self.0.chars() {
            if matches!(character, '"' | '\\') {
                f.write_str("\\")?;
            }
            write_character(f, character)?;
        }
        f.write_str("\"")
    }
}

/// What was found, such as a token or a value. It prints in backquotes, as by `PlainText`. If it
/// has more than `MAX_SHOWN` characters, only the first `MAX_SHOWN` print, and `..` after them.
/// None means that the text ended there, and prints as `END`, without backquotes.
#[derive(Clone, Copy)]
pub struct FoundText<'a>(pub Option<&'a str>);

impl fmt::Display for FoundText<'_> {
    fn fmt<W: fmt::Write>(&self, f: &mut fmt::Formatter<W>) -> fmt::Result {
        let Some(found) = self.0 else {
            return f.write_str(END);
        };
        write!(f, "`")?;
        let mut shown = 0usize;
        for character in found.chars() {
            if shown == MAX_SHOWN {
                write!(f, "..")?;
                break;
            }
            write_character(f, character)?;
            shown = shown.saturating_add(1);
        }
        write!(f, "`")
    }
}

/// Returns whether a character is in a fixed list of characters that have no shape, or that change
/// the direction of the text beside them. The list has the byte order mark, other characters of
/// Unicode's category Cf (but not all), and unassigned ones in the same ranges.
fn is_unseen(character: char) -> bool {
    matches!(
        character,
        '\u{ad}' | '\u{61c}' | '\u{180e}' | '\u{200b}'..='\u{200f}' | '\u{202a}'..='\u{202e}'
            | '\u{2060}'..='\u{206f}' | '\u{feff}' | '\u{e0000}'..='\u{e007f}'
    )
}

/// Writes a character: as an escape if it is a control character, white space other than the plain
/// space, or one of `is_unseen`.
fn write_character<W: fmt::Write>(f: &mut fmt::Formatter<W>, character: char) -> fmt::Result {
    let is_plain = character == ' ' || !character.is_whitespace();
    if is_plain && !character.is_control() && !is_unseen(character) {
        return write!(f, "{character}");
    }
    for part in character.escape_unicode() {
        write!(f, "{part}")?;
    }
    Ok(())
}

/// Returns the longest prefix of bytes that is UTF-8.
pub fn utf8_prefix(bytes: &[u8]) -> &str
    ensures { IsUtf8 bytes.now → result.now ≡ bytes.now }
{
    let fault = match str::from_utf8(bytes) {
        Ok(text) => return text,
        Err(fault) => fault,
    };
    match bytes.get(..fault.valid_up_to()) {
        Some(prefix) => str::from_utf8(prefix).unwrap_or(""),
        None => "",
    }
}
