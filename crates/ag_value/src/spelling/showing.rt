//! The text of a value, as `aggen value` prints it.
ghost use Rattle.std.specs.Prelude.{◌≡◌, ◌++◌, codes, string_bytes, map, IfOk, OnOk};
ghost use Rattle.std.specs.Fmt.{signed_decimal};
ghost use Rattle.std.specs.List.{flat_map};
ghost use Rattle.std.specs.Str.{chars};
ghost use Rattle.ag_value.specs.Shown.{escaped, name_of, quoted, separated};
ghost use Rattle.ag_value.specs.Shown.{shown_of, shown_of_pair};

use crate::fault::NoMemory;
use crate::text::Text;
use crate::value::{ErrorCode, Value};
use itoa::Buffer;
use std::alloc::Global;

/// Returns the text of a value:
///
/// - of a number: its decimal digits, after a `-` if it is negative;
/// - of a text: its characters in double quotes. `"` and `\` have a backslash before them, and line
///   feed, tab and carriage return are written as `\n`, `\t` and `\r`;
/// - of a list: `[a, b]`;
/// - of a table: `{"k": v, "l": w}`;
/// - of an error: `error` and its name, such as `error overflow`.
///
/// Fails with NoMemory.
pub fn show(alloc: Global, value: &Value) -> Result<String, NoMemory>
    ensures { IfOk result (λ text. string_bytes text ≡ shown_of value.now) }
{
    let mut out = String::new(alloc);
    show_value(&mut out, value)?;
    Ok(out)
}

/// Appends the text of a value. Fails with NoMemory, and then may have appended a part of the text;
/// this is also true of the functions below that return a `Result`.
#[cycle(showing)]
#[tactic(auto, using(crate::proofs::Layers::shown))]
fn show_value(out: &mut String, value: &Value) -> Result<(), NoMemory>
    ensures { OnOk result (string_bytes out.new ≡ string_bytes out.old ++ shown_of value.now) }
{
    match value {
        Value::Num(n) => show_number(out, *n)?,
        Value::Text(text) => show_text(out, text.as_str())?,
        Value::List(items) => show_list(out, items.as_slice())?,
        Value::Table(pairs) => show_table(out, pairs.as_slice())?,
        Value::Fault(code) => show_error(out, *code)?,
    }
    Ok(())
}

/// Appends the text of a list: `[a, b]`.
#[cycle(showing)]
fn show_list(out: &mut String, items: &[Value]) -> Result<(), NoMemory>
    ensures { OnOk result (string_bytes out.new ≡ string_bytes out.old
        ++ (codes "[" ++ separated (map shown_of items.now) ++ codes "]")) }
{
    out.push_str("[")?;
    show_items(out, items)?;
    out.push_str("]")?;
    Ok(())
}

/// Appends the texts of the items of a list, with a comma and a space between neighbours.
#[cycle(showing)]
fn show_items(out: &mut String, items: &[Value]) -> Result<(), NoMemory>
    ensures { OnOk result (string_bytes out.new ≡ string_bytes out.old
        ++ separated (map shown_of items.now)) }
{
    let [first, rest @ ..] = items else {
        return Ok(());
    };
    show_value(out, first)?;
    for item in rest {
        out.push_str(", ")?;
        show_value(out, item)?;
    }
    Ok(())
}

/// Appends the text of a table: `{"k": v, "l": w}`.
#[cycle(showing)]
fn show_table(out: &mut String, pairs: &[(Text, Value)]) -> Result<(), NoMemory>
    ensures { OnOk result (string_bytes out.new ≡ string_bytes out.old
        ++ (codes "{" ++ separated (map shown_of_pair pairs.now) ++ codes "}")) }
{
    out.push_str("{")?;
    show_pairs(out, pairs)?;
    out.push_str("}")?;
    Ok(())
}

/// Appends the texts of the pairs of a table, with a comma and a space between neighbours.
#[cycle(showing)]
fn show_pairs(out: &mut String, pairs: &[(Text, Value)]) -> Result<(), NoMemory>
    ensures { OnOk result (string_bytes out.new ≡ string_bytes out.old
        ++ separated (map shown_of_pair pairs.now)) }
{
    let [first, rest @ ..] = pairs else {
        return Ok(());
    };
    show_key(out, first.0.as_str())?;
    show_value(out, &first.1)?;
    for pair in rest {
        out.push_str(", ")?;
        show_key(out, pair.0.as_str())?;
        show_value(out, &pair.1)?;
    }
    Ok(())
}

/// Appends a key in double quotes, a colon and a space.
fn show_key(out: &mut String, key: &str) -> Result<(), NoMemory>
    ensures { OnOk result (string_bytes out.new ≡ string_bytes out.old
        ++ (quoted key.now ++ codes ": ")) }
{
    show_text(out, key)?;
    out.push_str(": ")?;
    Ok(())
}

/// Appends a number in decimal.
fn show_number(out: &mut String, n: i64) -> Result<(), NoMemory>
    ensures { OnOk result (string_bytes out.new ≡ string_bytes out.old ++ signed_decimal n) }
{
    let mut buffer = Buffer::new();
    out.push_str(buffer.format(n))?;
    Ok(())
}

/// Appends a text in double quotes, with its characters escaped as `show` says.
fn show_text(out: &mut String, text: &str) -> Result<(), NoMemory>
    ensures { OnOk result (string_bytes out.new ≡ string_bytes out.old ++ quoted text.now) }
{
    out.push_str("\"")?;
    show_characters(out, text)?;
    out.push_str("\"")?;
    Ok(())
}

/// Appends the characters of a text, escaped.
fn show_characters(out: &mut String, text: &str) -> Result<(), NoMemory>
    ensures { OnOk result (string_bytes out.new ≡ string_bytes out.old
        ++ flat_map escaped (chars text.now)) }
{
    for character in text.chars() {
        show_character(out, character)?;
    }
    Ok(())
}

/// Appends one character, escaped.
fn show_character(out: &mut String, character: char) -> Result<(), NoMemory>
    ensures { OnOk result (string_bytes out.new ≡ string_bytes out.old ++ escaped character) }
{
    match character {
        '"' => out.push_str("\\\"")?,
        '\\' => out.push_str("\\\\")?,
        '\n' => out.push_str("\\n")?,
        '\r' => out.push_str("\\r")?,
        '\t' => out.push_str("\\t")?,
        _ => out.push(character)?,
    }
    Ok(())
}

/// Appends `error`, a space, and the name of an error.
fn show_error(out: &mut String, code: ErrorCode) -> Result<(), NoMemory>
    ensures { OnOk result (string_bytes out.new ≡ string_bytes out.old
        ++ (codes "error " ++ name_of code)) }
{
    out.push_str("error ")?;
    out.push_str(name(code))?;
    Ok(())
}

/// Returns the name of an error.
fn name(code: ErrorCode) -> &'static str
    ensures { result.now ≡ name_of code }
{
    match code {
        ErrorCode::Overflow => "overflow",
        ErrorCode::Divide => "divide",
        ErrorCode::Kind => "kind",
        ErrorCode::Index => "index",
        ErrorCode::Key => "key",
        ErrorCode::Number => "number",
        ErrorCode::Big => "big",
        ErrorCode::Deep => "deep",
    }
}
