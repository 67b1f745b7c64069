//! Translations that are not texts.

use ag_value::{ErrorCode, MAX_WEIGHT, Value, show};
use message_parts::Parts;
use message_parts::display::{FoundText, GroupedNumber};
use std::alloc::{AllocError, Global};

/// The greatest number of bytes of a text that is a value. The encoding of a value in a tree file
/// has at most `MAX_WEIGHT` bytes. That of a text has 5 bytes more than the text: one for the kind
/// of value, and four for the length.
const MAX_BYTES_OF_TEXT: usize = MAX_WEIGHT as usize - 5;

/// What to do about a value that is an error.
const CORRECT_RULE: &str =
    "correct the rule that computes the error, or replace an error by another value with `orelse(v, w)`";

/// What to do about a value that is neither a text nor an error.
const MAKE_TEXT: &str = "make it a text, as `text(..)` does with a number";

/// Describes O1: the value of the root's `out`, and what to do. Writes nothing if memory for the
/// value's text is refused.
pub fn describe_value(alloc: Global, parts: &mut Parts, value: &Value) -> Result<(), AllocError> {
    match show(alloc, value) {
        Ok(shown) => describe_shown(parts, value, shown.as_str()),
        Err(_) => Ok(()),
    }
}

/// Describes a value of the root's `out` that is not a text. `shown` is the value as `show` prints
/// it.
fn describe_shown(parts: &mut Parts, value: &Value, shown: &str) -> Result<(), AllocError> {
    write!(
        parts.found,
        "the root's `out` is {}",
        FoundText(Some(shown))
    )?;
    match value {
        Value::Fault(ErrorCode::Big) => {
            write_size(&mut parts.found)?;
            parts.help.push_str("split the sentence")
        }
        Value::Fault(_) => parts.help.push_str(CORRECT_RULE),
        _ => parts.help.push_str(MAKE_TEXT),
    }
}

/// Writes the limit of the size of a value. The error `big` means that a value exceeds this limit.
fn write_size(out: &mut String) -> Result<(), AllocError> {
    let (most, max_of_text) = (
        GroupedNumber(MAX_WEIGHT as usize),
        GroupedNumber(MAX_BYTES_OF_TEXT),
    );
    write!(
        out,
        ", since the translation or a value that it is computed from has more than {most} bytes (a text: {max_of_text})"
    )
}
