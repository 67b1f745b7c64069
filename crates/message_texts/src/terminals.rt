//! The terminals of a grammar, by their names.

use crate::expected::separator_before;
use ag_grammar::{Grammar, Terminal};
use llparse::Ahead;
use message_parts::classes::class_name;
use message_parts::display::{END, MAX_NAMED, PlainText};
use std::alloc::AllocError;

/// Writes a terminal (a literal by its text, a class by its name) or the end of the sentence.
/// Writes nothing for a literal that the grammar doesn't have.
pub fn write_ahead(out: &mut String, grammar: &Grammar, ahead: Ahead) -> Result<(), AllocError> {
    match ahead {
        Ahead::Terminal(Terminal::Literal(number)) => {
            match grammar.literals().get(usize::from(number)) {
                Some(text) => write!(out, "`{}`", PlainText(text.as_str())),
                None => Ok(()),
            }
        }
        Ahead::Terminal(Terminal::Class(number)) => write!(out, "a {}", class_name(number)),
        Ahead::End => out.push_str(END),
    }
}

/// Writes a list of look-aheads, such as "`0`, `1` or the end of the text". If there are more than
/// twelve, writes the first twelve and the number of the others, such as "one of 5 more".
pub fn write_aheads(
    out: &mut String,
    grammar: &Grammar,
    aheads: &[Ahead],
) -> Result<(), AllocError> {
    let mut following = entry_count(aheads.len());
    for ahead in aheads.iter().take(MAX_NAMED) {
        write_ahead(out, grammar, *ahead)?;
        following = following.saturating_sub(1);
        out.push_str(separator_before(following))?;
    }
    write_rest(out, aheads.len().saturating_sub(MAX_NAMED))
}

/// Returns the number of entries that are written for a list of `count` items: those that are
/// named, and one entry for all others, if there are any.
pub(crate) fn entry_count(count: usize) -> usize {
    count.min(MAX_NAMED + 1)
}

/// Writes the number of items of a list that are not named, if there are any.
fn write_rest(out: &mut String, remaining: usize) -> Result<(), AllocError> {
    match remaining {
        0 => Ok(()),
        1 => out.push_str("one more"),
        _ => write!(out, "one of {remaining} more"),
    }
}

/// Returns the number of terminals of a grammar: of its literals and of the classes that it uses.
pub fn terminal_count(grammar: &Grammar) -> usize {
    grammar
        .literals()
        .len()
        .saturating_add(grammar.classes().len())
}

/// Writes the terminals of a grammar, at most the first twelve, and the number of the others.
pub fn write_terminals(out: &mut String, grammar: &Grammar) -> Result<(), AllocError> {
    let count = terminal_count(grammar);
    let mut following = entry_count(count);
    for index in 0..count.min(MAX_NAMED) {
        if let Some(terminal) = terminal_at(grammar, index) {
            write_ahead(out, grammar, Ahead::Terminal(terminal))?;
        }
        following = following.saturating_sub(1);
        out.push_str(separator_before(following))?;
    }
    write_rest(out, count.saturating_sub(MAX_NAMED))
}

/// Returns the terminal with this index, from 0: the literals come first, and then the classes that
/// the grammar uses. None if the index is too large.
fn terminal_at(grammar: &Grammar, index: usize) -> Option<Terminal> {
    match index.checked_sub(grammar.literals().len()) {
        Some(among) => Some(Terminal::Class(*grammar.classes().get(among)?)),
        None => Some(Terminal::Literal(index as u16)),
    }
}
