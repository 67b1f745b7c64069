//! A grammar's text, read again for a message: the message prints names, and most faults have only
//! offsets and numbers.

use crate::found::found_at;
use crate::positions::PositionMarks;
use ag_grammar::{Grammar, RawGrammar};
use ag_text::{part_starts, read_grammar};
use message_parts::{Location, Position, Source};
use normalform::{FaultList, NormalFault, check, faults_of, is_readable};
use std::alloc::Global;

/// A part of a grammar's text.
#[derive(Clone, Copy)]
pub struct Span {
    /// The offset in bytes of its first byte.
    pub at: usize,
    /// The offset in bytes after its last byte.
    pub end: usize,
    /// The position of `at`.
    pub first: Position,
    /// The position of `end`.
    pub last: Position,
}

/// A grammar's text that is read again.
#[derive(Drop)]
pub struct GrammarText<'a> {
    /// The allocator of what is read.
    pub alloc: Global,
    /// The text, and its file.
    pub source: Source<'a>,
    /// The longest prefix of the source's bytes that is UTF-8.
    pub text: &'a str,
    /// The grammar that the text reads as. None if the text is not a grammar, or memory is refused.
    pub raw: Option<RawGrammar>,
    /// The faults N1 to N10 of this grammar. None if there is no grammar, or memory is refused.
    pub faults: Option<FaultList>,
    /// The same grammar with numbers in place of names. None if it has faults N1 to N10.
    pub numbered: Option<Grammar>,
    /// Whether all faults are printed, so that no message says how many others there are.
    pub lists_all: bool,
    /// If all faults are printed: where rules and declarations can begin, so that messages about
    /// faults after the first one can say what was expected. Empty if memory is refused.
    parts: Vec<usize>,
    /// If all faults are printed: positions from which others are found. None if memory is refused.
    marks: PositionMarks,
}

impl<'a> GrammarText<'a> {
    /// Reads a text again, for a message about one fault. Takes memory.
    pub fn new(alloc: Global, source: Source<'a>) -> GrammarText<'a> {
        let raw = read_grammar(alloc, source.bytes).ok();
        let faults = match &raw {
            Some(raw) => faults_of(alloc, raw).ok(),
            None => None,
        };
        GrammarText::of_read(alloc, source, raw, faults, false)
    }

    /// Returns the text of which `raw` and `faults` were read. Messages are about each fault if
    /// `lists_all`, and otherwise about one. Takes memory.
    pub fn of_read(
        alloc: Global,
        source: Source<'a>,
        raw: Option<RawGrammar>,
        faults: Option<FaultList>,
        lists_all: bool,
    ) -> GrammarText<'a> {
        let numbered = match &faults {
            Some(faults) if faults.as_slice().is_empty() => numbered_of(alloc, source.bytes),
            _ => None,
        };
        let text = source.text();
        let parts = if lists_all && raw.is_none() {
            part_starts(alloc, text).unwrap_or(Vec::new(alloc))
        } else {
            Vec::new(alloc)
        };
        let marks = if lists_all {
            PositionMarks::of(alloc, &source, text).unwrap_or(PositionMarks::none(alloc))
        } else {
            PositionMarks::none(alloc)
        };
        GrammarText {
            alloc,
            source,
            text,
            raw,
            faults,
            numbered,
            lists_all,
            parts,
            marks,
        }
    }

    /// Returns the offset in bytes of the rule or declaration that begins last at or before an
    /// offset. None if there is none, and if only one fault is printed.
    pub fn part_with(&self, at: Option<usize>) -> Option<usize> {
        let at = at?;
        let parts = self.parts.as_slice();
        let after = parts.partition_point(|start| *start <= at);
        parts.get(after.checked_sub(1)?).copied()
    }

    /// Returns the faults N1 to N10 of the grammar; none if it was not read, or memory was refused.
    pub fn faults(&self) -> &[NormalFault] {
        match &self.faults {
            Some(faults) => faults.as_slice(),
            None => &[],
        }
    }

    /// Returns the location of an offset in bytes.
    pub fn location(&self, at: usize) -> Location {
        Location::At(self.position(at))
    }

    /// Returns the position of an offset in bytes.
    fn position(&self, at: usize) -> Position {
        self.marks.position(&self.source, self.text, at)
    }

    /// Returns the part of the text between two offsets in bytes.
    pub fn span(&self, at: usize, end: usize) -> Span {
        Span {
            at,
            end,
            first: self.position(at),
            last: self.position(end),
        }
    }

    /// Returns the token that begins at an offset in bytes (`found_at`): an empty part if there is
    /// none.
    pub fn token_at(&self, at: usize) -> Span {
        let length = match found_at(self.text, at) {
            Some(found) => found.len(),
            None => 0,
        };
        self.span(at, at.saturating_add(length))
    }
}

/// Reads a text once more (since `check` consumes what was read), and returns the grammar with
/// numbers in place of names. None if the text is not an accepted grammar, or memory is refused.
fn numbered_of(alloc: Global, text: &[u8]) -> Option<Grammar> {
    let raw = read_grammar(alloc, text).ok()?;
    // Every grammar that was read from a text is readable: its literals are not empty and have no
    // space, tab, CR or LF, and its classes exist. `check` requires this, so it is tested here.
    if !is_readable(&raw) {
        return None;
    }
    check(alloc, raw).ok()
}
