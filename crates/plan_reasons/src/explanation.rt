//! The grammar and the text that an explanation is about.

use crate::attributes::AttributeName;
use crate::lines::Lines;
use ag_grammar::{Grammar, RawGrammar};
use ag_text::read_grammar;
use ag_value::NoMemory;
use message_parts::{Attribute, Position, Source};
use passassign::Strike;
use std::alloc::Global;

/// The greatest number of lines of a paragraph after its heading. If there are more lines, the
/// number of those left out follows.
pub(crate) const MAX_LINES: usize = 40;

/// A grammar with its text. Has a method for each output that explains the grammar's passes.
#[derive(Drop)]
pub struct Explanation<'a> {
    /// The allocator of what is written.
    pub(crate) alloc: Global,
    /// The text, with the name of its file.
    pub(crate) source: Source<'a>,
    /// The numbered grammar.
    pub(crate) grammar: &'a Grammar,
    /// The grammar as the text has it, with the offsets of its rules.
    raw: RawGrammar,
    /// The offsets of the text's lines.
    lines: Lines,
}

impl<'a> Explanation<'a> {
    /// Returns the explanation of a grammar, whose text is `source`. Reads the text again, for the
    /// positions of the rules. Fails with NoMemory if memory is refused, and also if the text can't
    /// be read as a grammar. The text of `grammar` always can.
    pub fn new(
        alloc: Global,
        source: Source<'a>,
        grammar: &'a Grammar,
    ) -> Result<Explanation<'a>, NoMemory> {
        // the text of `grammar` reads as a grammar unless memory is refused
        let Ok(raw) = read_grammar(alloc, source.bytes) else {
            return Err(NoMemory::NoMemory);
        };
        Ok(Explanation {
            alloc,
            source,
            grammar,
            raw,
            lines: Lines::new(alloc, source.text())?,
        })
    }

    /// Returns the position of the rule that a strike names: that of the rule's target. Returns the
    /// beginning of the text if the text has no such rule.
    pub(crate) fn position_of(&self, strike: Strike) -> Position {
        let at = self.offset_of(strike).unwrap_or(0);
        self.lines.position(self.source.text(), at)
    }

    /// Returns the offset in bytes, from 0, of the rule that a strike names, if the text has the
    /// rule.
    fn offset_of(&self, strike: Strike) -> Option<usize> {
        let productions = self.raw.productions.as_slice();
        let production = productions.get(usize::from(strike.production))?;
        let rule = production.rules.as_slice().get(usize::from(strike.rule))?;
        Some(rule.target.at)
    }

    /// Returns an attribute as a value that prints as its name.
    pub(crate) fn name_of(&self, attribute: Attribute) -> AttributeName<'a> {
        AttributeName {
            grammar: self.grammar,
            attribute,
        }
    }
}

/// Writes the number of lines that a paragraph leaves out, if there are any. `count` is the number
/// of all lines of the paragraph, without its heading.
pub(crate) fn write_others(out: &mut String, count: usize) -> Result<(), NoMemory> {
    match count.saturating_sub(MAX_LINES) {
        0 => Ok(()),
        others => Ok(writeln!(out, "  and {others} more")?),
    }
}
