//! The lines of a text, so that a position is found without reading the text from its beginning.

use ag_value::NoMemory;
use message_parts::Position;
use std::alloc::Global;

/// The offsets in bytes at which the lines of a text begin.
#[derive(Drop)]
pub(crate) struct Lines {
    starts: Vec<usize>,
}

impl Lines {
    /// Returns the lines of a text. Fails if memory is refused.
    pub(crate) fn new(alloc: Global, text: &str) -> Result<Lines, NoMemory> {
        let mut starts = Vec::new(alloc);
        starts.push(0)?;
        for (offset, byte) in text.as_bytes().iter().enumerate() {
            if *byte == b'\n' {
                starts.push(offset.saturating_add(1))?;
            }
        }
        Ok(Lines { starts })
    }

    /// Returns the position of an offset in bytes, from 0, in the text: line and column from 1, the
    /// column in characters. The column is 1 if the offset is inside a character or after the text.
    pub(crate) fn position(&self, text: &str, at: usize) -> Position {
        let mut line = 0usize;
        let mut begin = 0usize;
        for start in self.starts.as_slice() {
            if *start > at {
                break;
            }
            line = line.saturating_add(1);
            begin = *start;
        }
        let column = match text.get(begin..at) {
            Some(before) => before.chars().count().saturating_add(1),
            None => 1,
        };
        Position { line, column }
    }
}
