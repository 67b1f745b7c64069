//! Which part of a text is at an offset, and whether it begins with a token.

use ag_expr::{Cursor, ExprFault, refusal};

/// Returns the token at an offset in bytes. White space at the offset is returned with the token
/// after it. If there is no token, returns what looks like a number or an occurrence (an attribute
/// such as `$1.sum`), for example a number that is too large. If nothing there looks so, returns
/// the characters up to the next separator, at least one. None at the text's end, and if the offset
/// is inside a character or after the text.
pub fn found_at(text: &str, at: usize) -> Option<&str> {
    let rest = text.get(at..)?;
    let mut cursor = Cursor::new(rest);
    if cursor.peek().is_none() {
        return match leading_number(rest) {
            Some(number) => Some(number),
            None => first_word(rest),
        };
    }
    // the cursor is then at the next token, after the white space that is cut off below
    cursor.bump();
    Some(rest.get(..cursor.offset()).unwrap_or(rest).trim_end())
}

/// Returns the digits with which a text begins; if it begins with a `$`, returns the `$` with the
/// letters, digits, `.` and `_` after it. None if there is no digit among these.
fn leading_number(text: &str) -> Option<&str> {
    let is_occurrence = text.starts_with('$');
    let mut has_digits = false;
    for (offset, character) in text.char_indices() {
        if character.is_ascii_digit() {
            has_digits = true;
        } else if !is_occurrence || !is_part_of_occurrence(character, offset) {
            return if has_digits { text.get(..offset) } else { None };
        }
    }
    if has_digits { Some(text) } else { None }
}

/// Returns whether a character may be in an occurrence (`$1.size`) at an offset in bytes from its
/// beginning. A `$` may be at offset 0 only.
fn is_part_of_occurrence(character: char, offset: usize) -> bool {
    match character {
        '$' => offset == 0,
        '.' | '_' => true,
        _ => character.is_alphanumeric(),
    }
}

/// Returns the characters before the first separator, at least one. None for an empty text.
fn first_word(text: &str) -> Option<&str> {
    for (offset, character) in text.char_indices() {
        if 0 < offset && is_separator(character) {
            return text.get(..offset);
        }
    }
    if text.is_empty() { None } else { Some(text) }
}

/// Returns whether a character is a space, tab, CR or LF. Only these separate tokens.
fn is_separator(character: char) -> bool {
    matches!(character, ' ' | '\t' | '\r' | '\n')
}

/// Returns why the text that was found does not begin with a token. None if it begins with one.
pub fn token_fault(found: &str) -> Option<ExprFault> {
    let cursor = Cursor::new(found);
    match cursor.peek() {
        Some(_) => None,
        None => Some(refusal(&cursor)),
    }
}

/// Returns whether the text that was found begins with this character. False if there is no such
/// text.
pub fn begins_with(found: Option<&str>, character: char) -> bool {
    match found {
        Some(found) => found.starts_with(character),
        None => false,
    }
}
