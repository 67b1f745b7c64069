//! Positions of many offsets in one text. `Source::position` counts from the text's beginning each
//! time, which is slow for a long list of faults.

use message_parts::{Position, Source};
use std::alloc::{AllocError, Global};

/// The number of bytes from a mark to the next one, or up to three fewer: each mark is at the first
/// byte of a character.
const STEP: usize = 1_024;

/// An offset in bytes, and its position.
#[derive(Clone, Copy)]
struct Mark {
    at: usize,
    position: Position,
}

/// Positions at regular offsets of a text. Other positions are found from the mark before them.
#[derive(Drop)]
pub struct PositionMarks {
    marks: Vec<Mark>,
}

impl PositionMarks {
    /// Returns no marks.
    pub fn none(alloc: Global) -> PositionMarks {
        PositionMarks {
            marks: Vec::new(alloc),
        }
    }

    /// Returns the marks of the text of a source (`Source::text`). Fails if memory is refused.
    pub fn of(alloc: Global, source: &Source<'_>, text: &str) -> Result<PositionMarks, AllocError> {
        let mut marks = Vec::new(alloc);
        let mut mark = Mark {
            at: 0,
            position: source.position_in("", 0),
        };
        for _ in 0..=text.len() / (STEP - 3) {
            marks.push(mark)?;
            let next = text.floor_char_boundary(mark.at.saturating_add(STEP));
            mark = Mark {
                at: next,
                position: position_from(mark, text, next),
            };
        }
        Ok(PositionMarks { marks })
    }

    /// Returns the position of an offset in bytes. `source` and `text` are those of `of`.
    pub fn position(&self, source: &Source<'_>, text: &str, at: usize) -> Position {
        let marks = self.marks.as_slice();
        let after = marks.partition_point(|mark| mark.at <= at);
        match marks.get(after.saturating_sub(1)) {
            Some(mark) => position_from(*mark, text, at),
            None => source.position_in(text, at),
        }
    }
}

/// Returns the position of an offset in bytes at or after a mark.
fn position_from(mark: Mark, text: &str, at: usize) -> Position {
    let rest = text.get(mark.at..).unwrap_or("");
    let within = Position::of(rest, at.saturating_sub(mark.at));
    let Position { line, column } = mark.position;
    if within.line == 1 {
        return Position {
            line,
            column: column.saturating_add(within.column.saturating_sub(1)),
        };
    }
    Position {
        line: line.saturating_add(within.line.saturating_sub(1)),
        column: within.column,
    }
}
