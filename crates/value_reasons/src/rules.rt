//! Rules as in the grammar, their positions, and the values of their arguments.

use crate::explained::ExplainedTree;
use ag_carried::Carried;
use ag_grammar::{Production, Target};
use ag_value::NoMemory;
use message_parts::display::PlainText;
use std::fmt;
use tree_index::NodeRecord;

/// An attribute at a place of a production: 0 is the left side, 1 the first item of the right side
/// that is not a literal. It prints as the occurrence in a rule, such as `$1.sum`.
#[derive(Clone, Copy)]
pub(crate) struct OccurrenceText<'a> {
    place: u16,
    name: &'a str,
}

impl fmt::Display for OccurrenceText<'_> {
    fn fmt<W: fmt::Write>(&self, f: &mut fmt::Formatter<W>) -> fmt::Result {
        write!(f, "${}.{}", self.place, PlainText(self.name))
    }
}

impl<'a> ExplainedTree<'a> {
    /// Returns an attribute at a place of a production, which prints as in a rule. Returns `None`
    /// if the production does not have the place, or the item there does not have the attribute.
    pub(crate) fn occurrence(
        &self,
        production: &Production,
        target: Target,
    ) -> Option<OccurrenceText<'a>> {
        let item = production.item_at(target.place)?;
        Some(OccurrenceText {
            place: target.place,
            name: self.format.attribute_name(item, target.attr)?,
        })
    }

    /// Returns the value of an attribute at a place of a production, from the record of a node of
    /// this production: at place 0 the node's own value, otherwise the copy of the child's
    /// synthesized attribute. Returns `None` if the record does not have the value.
    pub(crate) fn value_of<'r>(
        &self,
        record: &'r NodeRecord,
        production: &Production,
        target: Target,
    ) -> Option<&'r Carried> {
        if target.place == 0 {
            let item = production.item_at(0)?;
            return self.format.own_value(record, item, target.attr);
        }
        self.format
            .copied_value(record, production, target.place, target.attr)
    }

    /// Returns the offset in bytes at which a rule begins in the grammar's text. The production and
    /// its rule are given by their numbers from 0. Returns `None` if the rule does not exist.
    pub(crate) fn offset_of(&self, production: u16, rule: u16) -> Option<usize> {
        let productions = self.raw.productions.as_slice();
        let production = productions.get(usize::from(production))?;
        let rule = production.rules.as_slice().get(usize::from(rule))?;
        Some(rule.target.at)
    }

    /// Writes a space and the position of a rule: ` (grammar.ag:4:47)`. Writes nothing if the rule
    /// does not exist.
    pub(crate) fn write_position(
        &self,
        out: &mut String,
        production: u16,
        rule: u16,
    ) -> Result<(), NoMemory> {
        match self.offset_of(production, rule) {
            Some(at) => Ok(write!(out, " {}", self.source.place(at))?),
            None => Ok(()),
        }
    }

    /// Writes a rule as it is in the grammar's text, without its `;`. Writes the rule in one line:
    /// leaves out empty lines of the text, and the white space at both ends of each line, and
    /// writes a space between two lines. Writes nothing if the rule does not exist.
    pub(crate) fn write_rule(
        &self,
        out: &mut String,
        production: u16,
        rule: u16,
    ) -> Result<(), NoMemory> {
        let Some(at) = self.offset_of(production, rule) else {
            return Ok(());
        };
        let rest = self.source.text().get(at..).unwrap_or("");
        let text = rest.get(..rule_length(rest)).unwrap_or("");
        for (number, line) in text.lines().enumerate() {
            let line = line.trim();
            if number != 0 && !line.is_empty() {
                out.push_str(" ")?;
            }
            write!(out, "{}", PlainText(line))?;
        }
        Ok(())
    }
}

/// Returns the length in bytes of the rule with which a text begins, without its `;`. The rule ends
/// at the first `;` that is not in quotes, or with the text if there is none.
fn rule_length(text: &str) -> usize {
    let mut is_quoted = false;
    let mut is_escaped = false;
    for (offset, character) in text.char_indices() {
        match character {
            ';' if !is_quoted => return offset,
            '"' if !is_escaped => is_quoted = !is_quoted,
            _ => {}
        }
        is_escaped = character == '\\' && !is_escaped;
    }
    text.len()
}
