//! Sentences that have no tree.

use crate::terminals::write_aheads;
use ag_grammar::limits::{MAX_DEPTH, MAX_NODES};
use ag_grammar::{Grammar, Terminal};
use ag_scan::{Sentence, Token, scan};
use llparse::{ParseFault, StuckPlace, Tables, expected_at};
use message_parts::classes::class_name;
use message_parts::display::FoundText;
use message_parts::{Location, Parts, Source};
use std::alloc::{AllocError, Global};

/// The subject of the messages of P2 and P3: what has no tree within the limit.
const SENTENCE: &str = "the sentence";

/// Returns the location of P1: the token at which the parser stops. If the sentence ends too early,
/// this is the last token, or offset 0 if there is none. Returns `Whole` for any other fault.
pub fn locate_in_sentence(fault: ParseFault, sentence: &Source<'_>) -> Location {
    match fault {
        ParseFault::Unexpected(at) => Location::At(sentence.position(at as usize)),
        _ => Location::Whole,
    }
}

/// A sentence, and the grammar and the look-ahead tables by which it was parsed.
#[derive(Clone, Copy)]
pub struct ParsedSentence<'a> {
    pub grammar: &'a Grammar,
    pub tables: &'a Tables,
    pub source: Source<'a>,
}

/// Describes P1 to P3 of a sentence. For P1 the sentence is scanned again. Writes nothing if that
/// scan fails.
pub fn describe_parse(
    alloc: Global,
    parts: &mut Parts,
    fault: ParseFault,
    sentence: &ParsedSentence<'_>,
) -> Result<(), AllocError> {
    match fault {
        ParseFault::Unexpected(_) => {
            match scan(alloc, sentence.grammar, sentence.source.bytes) {
                Ok(tokens) => describe_unexpected(alloc, parts, sentence, &tokens),
                Err(_) => Ok(()),
            }
        }
        ParseFault::TooDeep => {
            parts.add_tree_limit(MAX_DEPTH, "levels", SENTENCE, "nest it less")
        }
        ParseFault::TooManyNodes => {
            parts.add_tree_limit(MAX_NODES as usize, "nodes", SENTENCE, "split it")
        }
        ParseFault::Device | ParseFault::NoMemory => Ok(()),
    }
}

/// Describes the token at which the parser stops, and the tokens that could come in its place.
/// Writes nothing if memory for finding them is refused.
fn describe_unexpected(
    alloc: Global,
    parts: &mut Parts,
    sentence: &ParsedSentence<'_>,
    tokens: &Sentence<'_>,
) -> Result<(), AllocError> {
    match expected_at(alloc, sentence.grammar, sentence.tables, tokens) {
        Ok(stuck) => describe_stuck(parts, sentence, &stuck),
        Err(_) => Ok(()),
    }
}

/// Describes what was found where a parse is stuck, and what was expected. Writes nothing if
/// `expected_at` returned no look-ahead. It returns none if `parse` does not fail with P1 for this
/// sentence, which means that the fault is of another sentence or grammar.
fn describe_stuck(
    parts: &mut Parts,
    sentence: &ParsedSentence<'_>,
    stuck: &StuckPlace<'_>,
) -> Result<(), AllocError> {
    if stuck.expected.is_empty() {
        return Ok(());
    }
    let found = match stuck.found {
        Some(token) => text_of(sentence.source.text(), token),
        None => None,
    };
    write!(parts.found, "found {}", FoundText(found))?;
    parts.expected.push_str("expected ")?;
    write_aheads(
        &mut parts.expected,
        sentence.grammar,
        stuck.expected.as_slice(),
    )
}

/// Returns a token as it is written in the text of a sentence: a TEXT with its two quotes, which
/// `lex` does not have. None if the text does not have the token's bytes.
fn text_of<'a>(text: &'a str, token: Token<'_>) -> Option<&'a str> {
    let length = match token.kind {
        Terminal::Class(number) if class_name(number) == "TEXT" => {
            token.lex.len().saturating_add(2)
        }
        _ => token.lex.len(),
    };
    let at = token.at as usize;
    text.get(at..at.saturating_add(length))
}
