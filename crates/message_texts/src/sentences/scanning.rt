//! Sentences that cannot be cut into tokens, or are too long.

use crate::found::begins_with;
use crate::hints::{BYTE_ORDER_MARK, MARK};
use crate::terminals::{terminal_count, write_terminals};
use ag_grammar::Grammar;
use ag_grammar::limits::{MAX_TEXT_BYTES, MAX_TOKEN_BYTES, TEXT};
use ag_scan::ScanFault;
use message_parts::display::FoundText;
use message_parts::position::Place;
use message_parts::{Location, Parts, Source};
use std::alloc::AllocError;

/// What to do about a token or a sentence that is too large.
const SPLIT: &str = "split it";

/// What is wrong with a token of the class TEXT that does not end.
const NO_SECOND_QUOTE: &str = "this TEXT has no second quote in the same line";

/// What to do about a TEXT that does not end.
const ADD_QUOTE: &str = "add the quote (a TEXT has no escapes)";

/// What helps at a single quote if the grammar uses TEXT.
const DOUBLE_QUOTES: &str = "a TEXT is written in double quotes";

/// What is wrong with a character of a sentence if the grammar has no terminals.
const NO_TERMINALS: &str = ", but the grammar has no literal and no class";

/// Returns the location at which a sentence can't be cut into tokens, or `Whole` if it is too long
/// or memory was refused.
pub fn locate_token(fault: ScanFault, sentence: &Source<'_>) -> Location {
    match fault {
        ScanFault::BadUtf8(at) | ScanFault::NoToken(at) | ScanFault::LongToken(at) => {
            Location::At(sentence.position(at))
        }
        ScanFault::TooLong | ScanFault::NoMemory => Location::Whole,
    }
}

/// Describes S1 to S4 of a sentence.
pub fn describe_scan(
    parts: &mut Parts,
    fault: ScanFault,
    grammar: &Grammar,
    sentence: &Source<'_>,
) -> Result<(), AllocError> {
    match fault {
        ScanFault::BadUtf8(_) => parts.add(
            "the bytes here are not UTF-8",
            "save the file as UTF-8",
        ),
        ScanFault::NoToken(at) => {
            let found = first_character(sentence.text(), at);
            if begins_with(found, '"') && grammar.classes().contains(&TEXT) {
                describe_quote(parts, quote_before(sentence, at))
            } else {
                describe_no_token(parts, grammar, found)
            }
        }
        ScanFault::LongToken(_) => {
            parts.add_size_limit("the token here", MAX_TOKEN_BYTES, SPLIT)
        }
        ScanFault::TooLong => parts.add_size_limit("the sentence", MAX_TEXT_BYTES, SPLIT),
        ScanFault::NoMemory => Ok(()),
    }
}

/// Describes S2 at a quote that begins no TEXT. `before` is the position of the previous quote if
/// that is in another line: the fault may be there.
fn describe_quote(parts: &mut Parts, before: Option<Place<'_>>) -> Result<(), AllocError> {
    parts.add(NO_SECOND_QUOTE, ADD_QUOTE)?;
    match before {
        Some(place) => write!(
            parts.help,
            ", or see the quote before it, in another line {place}"
        ),
        None => Ok(()),
    }
}

/// Describes S2 at a character that begins no token: the character, and the terminals of the
/// grammar.
fn describe_no_token(
    parts: &mut Parts,
    grammar: &Grammar,
    found: Option<&str>,
) -> Result<(), AllocError> {
    write!(parts.found, "found {}", FoundText(found))?;
    if terminal_count(grammar) == 0 {
        return parts.found.push_str(NO_TERMINALS);
    }
    if begins_with(found, BYTE_ORDER_MARK) {
        parts.help.push_str(MARK)?;
    } else if begins_with(found, '\'') && grammar.classes().contains(&TEXT) {
        parts.help.push_str(DOUBLE_QUOTES)?;
    }
    parts.expected.push_str("expected a token (")?;
    write_terminals(&mut parts.expected, grammar)?;
    parts.expected.push_str(")")
}

/// Returns the position in the file of the last quote before an offset, if a line break is between
/// them.
fn quote_before<'a>(sentence: &Source<'a>, at: usize) -> Option<Place<'a>> {
    let before = sentence.text().get(..at)?;
    let quote = before.rfind('"')?;
    if before.get(quote..)?.contains('\n') {
        Some(sentence.place(quote))
    } else {
        None
    }
}

/// Returns the character at an offset in bytes. None at the text's end, after it, or inside a
/// character.
fn first_character(text: &str, at: usize) -> Option<&str> {
    let rest = text.get(at..)?;
    match rest.char_indices().nth(1) {
        Some((end, _)) => rest.get(..end),
        None if rest.is_empty() => None,
        None => Some(rest),
    }
}
