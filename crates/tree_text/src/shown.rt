//! Values as text, whole or only their first characters.

use ag_carried::Carried;
use ag_value::{NoMemory, Text, Value, show};
use message_parts::display::PlainText;
use std::alloc::Global;

/// Writes the first `width` characters of a value as text, and `..` after them if there are more.
/// Writes the whole text if `width` is 0 or the value is a number. Counts the characters of the
/// text that `show` returns: the quotes count, and an LF counts as two, since `show` writes `\n`. A
/// character that is written as an escape such as `\u{1b}` counts as one. Fails if memory is
/// refused.
pub fn write_value(
    alloc: Global,
    out: &mut String,
    value: &Carried,
    width: usize,
) -> Result<(), NoMemory> {
    if let Some(number) = value.as_number() {
        return Ok(write!(out, "{number}")?);
    }
    match value.as_value() {
        Some(value) => write_flat(alloc, out, value, width),
        // an error, or a text, table or list that is stored in another form (a rope or a tree)
        None => write_flat(alloc, out, &value.to_value(alloc)?, width),
    }
}

/// Writes a value as `write_value` does. The value is not a number.
fn write_flat(
    alloc: Global,
    out: &mut String,
    value: &Value,
    width: usize,
) -> Result<(), NoMemory> {
    if let Value::Text(text) = value {
        return write_text(alloc, out, text.as_str(), width);
    }
    let shown = show(alloc, value)?;
    write_first(out, shown.as_str(), width)
}

/// Writes a text value as `write_value` does. If `width` is 0, converts the whole text. Otherwise
/// converts at most its first `width + 1` characters. Of a longer text the result of the conversion
/// has more than `width` characters, so the output ends with `..`, as that of the whole text would.
fn write_text(alloc: Global, out: &mut String, text: &str, width: usize) -> Result<(), NoMemory> {
    let needed = if width == 0 {
        // the length in bytes, which is at least the number of characters
        text.len()
    } else {
        width.saturating_add(1)
    };
    let value = Value::Text(Text::from_str(alloc, first_characters(text, needed))?);
    let shown = show(alloc, &value)?;
    write_first(out, shown.as_str(), width)
}

/// Returns the first `count` characters of a text.
fn first_characters(text: &str, count: usize) -> &str {
    match text.char_indices().nth(count) {
        Some((end, _)) => text.get(..end).unwrap_or(text),
        None => text,
    }
}

/// Writes the first `width` characters of a text, and `..` after them if there are more; the whole
/// text if `width` is 0.
fn write_first(out: &mut String, text: &str, width: usize) -> Result<(), NoMemory> {
    if width == 0 {
        return Ok(write!(out, "{}", PlainText(text))?);
    }
    let first = first_characters(text, width);
    write!(out, "{}", PlainText(first))?;
    if first.len() < text.len() {
        out.push_str("..")?;
    }
    Ok(())
}
