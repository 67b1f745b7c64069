//! Positions in texts, and the files that contain the texts.

ghost use Rattle.std.specs.Prelude.{◌≡◌, ◌+◌, ◌<◌, ◌^◌, IsUtf8};
ghost use Rattle.message_parts.specs.Positions.{after_byte, in_file, is_continuation, position_at, position_in};

use crate::display::{PlainText, utf8_prefix};
use std::fmt;

/// The word that names standard input in place of a file.
const STANDARD_INPUT: &str = "-";

/// A line of a text, or of the file that contains the text, and a column in characters. Both count
/// from 1.
#[derive(Clone, Copy)]
pub struct Position {
    pub line: usize,
    pub column: usize,
}

impl Position {
    /// Returns the position in a text of an offset in bytes. For an offset inside of a character
    /// this is the position of the next character, and for an offset beyond the text it is the
    /// position of the text's end.
    pub fn of(text: &str, at: usize) -> Position
        ensures { result ≡ position_at text.now at }
    {
        let bytes = text.as_bytes();
        let before = bytes.get(..at).unwrap_or(bytes);
        let mut position = Position { line: 1, column: 1 };
        for byte in before {
            position = position.after(*byte);
        }
        position
    }

    /// Returns the position after a byte at this one.
    fn after(self, byte: u8) -> Position
        requires line { self.line + 1 < 2 ^ 64 }
        requires column { self.column + 1 < 2 ^ 64 }
        ensures { result ≡ after_byte self byte }
    {
        if byte == b'\n' {
            return Position {
                line: self.line + 1,
                column: 1,
            };
        }
        if is_continuation(byte) {
            return self;
        }
        Position {
            line: self.line,
            column: self.column + 1,
        }
    }
}

/// Returns whether a byte of UTF-8 is not the first one of its character.
fn is_continuation(byte: u8) -> bool
    ensures { result ≡ is_continuation byte }
{
    128 <= byte && byte < 192
}

/// Prints the position in a text that has no file: `(line 4, column 47)`.
impl fmt::Display for Position {
    ghost use Rattle.std.specs.Prelude.{Some};
    ghost use Rattle.message_parts.specs.Printed.{position_text};

    ghost output = { λ position. Some (position_text position) };

    fn fmt<W: fmt::Write>(&self, f: &mut fmt::Formatter<W>) -> fmt::Result {
        write!(f, "(line {}, column {})", self.line, self.column)
    }
}

/// A text that a message is about, and the file that contains it.
#[derive(Clone, Copy)]
pub struct Source<'a> {
    /// The name of the file as it was given, `-` for standard input.
    pub name: &'a str,
    /// The bytes of the text.
    pub bytes: &'a [u8],
    /// The line of the file in which the text begins, from 1.
    first_line: usize,
}

impl<'a> Source<'a> {
    /// Returns the text that is the whole file of this name.
    pub fn new(name: &'a str, bytes: &'a [u8]) -> Source<'a>
        ensures name { result.name.now ≡ name.now }
        ensures bytes { result.bytes.now ≡ bytes.now }
        ensures line { result.first_line ≡ 1 }
    {
        Source {
            name,
            bytes,
            first_line: 1,
        }
    }

    /// Returns the grammar and the sentence of a job on standard input. The caller has split the
    /// job at the line `%%`: `grammar` ends with the line break before this line, or is empty, and
    /// `sentence` begins in the line after this line.
    pub fn of_job(grammar: &'a [u8], sentence: &'a [u8]) -> (Source<'a>, Source<'a>)
        ensures grammar { result.0.bytes.now ≡ grammar.now }
        ensures sentence { result.1.bytes.now ≡ sentence.now }
    {
        let breaks = grammar.iter().filter(|byte| **byte == b'\n').count();
        let grammar = Source::new(STANDARD_INPUT, grammar);
        let sentence = Source {
            name: STANDARD_INPUT,
            bytes: sentence,
            first_line: breaks.saturating_add(2),
        };
        (grammar, sentence)
    }

    /// Returns the longest prefix of the text that is UTF-8. So a text that is not UTF-8 has
    /// positions too, for the message that refuses it.
    pub fn text(&self) -> &'a str
        ensures { IsUtf8 self.now.bytes.now → result.now ≡ self.now.bytes.now }
    {
        utf8_prefix(self.bytes)
    }

    /// Returns the position of an offset in bytes from the beginning of the text, with the line in
    /// the file. If the offset is beyond the longest prefix that is UTF-8, this is the position of
    /// the prefix's end.
    pub fn position(&self, at: usize) -> Position
        ensures { IsUtf8 self.now.bytes.now → (position_in self.now at).line < 2 ^ 64
            → result ≡ position_in self.now at }
    {
        self.position_in(self.text(), at)
    }

    /// Returns the position of an offset in bytes from the beginning of `text`, which is what
    /// `Source::text` returns, with the line in the file. `position` finds `text` anew each time.
    pub fn position_in(&self, text: &str, at: usize) -> Position
        ensures { (in_file self.now (position_at text.now at)).line < 2 ^ 64
            → result ≡ in_file self.now (position_at text.now at) }
    {
        let position = Position::of(text, at);
        Position {
            line: position
                .line
                .saturating_add(self.first_line.saturating_sub(1)),
            column: position.column,
        }
    }

    /// Returns the place of an offset in bytes from the beginning of the text. A place prints with
    /// the name of the file.
    pub fn place(&self, at: usize) -> Place<'a> {
        Place {
            name: self.name,
            position: self.position(at),
        }
    }
}

/// A position in a file. It prints as editors read it: `(grammar.ag:4:47)`.
#[derive(Clone, Copy)]
pub struct Place<'a> {
    name: &'a str,
    position: Position,
}

impl fmt::Display for Place<'_> {
    fn fmt<W: fmt::Write>(&self, f: &mut fmt::Formatter<W>) -> fmt::Result {
        let Position { line, column } = self.position;
        write!(f, "({}:{line}:{column})", PlainText(self.name))
    }
}
