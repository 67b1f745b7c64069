//! The part of a message that lists what a text could go on with.

use ag_expr::ExpectedPart as Part;
use ag_text::Expected;
use message_parts::display::END;
use std::alloc::AllocError;

/// Returns the separator between an item of a list and the next item. `remaining` is the number of
/// items from the next one on. If it is 0, the separator is empty.
pub fn separator_before(remaining: usize) -> &'static str {
    match remaining {
        0 => "",
        1 => " or ",
        _ => ", ",
    }
}

/// Writes the word `expected`, and the list of what a text could go on with. Writes nothing if the
/// list is empty: then it is not known what the text could go on with.
pub fn write_expected(out: &mut String, expected: &[Expected]) -> Result<(), AllocError> {
    if expected.is_empty() {
        return Ok(());
    }
    out.push_str("expected ")?;
    let mut remaining = expected.len();
    for item in expected {
        remaining = remaining.saturating_sub(1);
        write_item(out, *item, separator_before(remaining))?;
    }
    Ok(())
}

/// Writes one thing that a text could go on with, and the separator after it.
fn write_item(out: &mut String, expected: Expected, separator: &str) -> Result<(), AllocError> {
    let quote = match expected {
        Expected::Sign(_) | Expected::Part(Part::Sign(_)) => "`",
        _ => "",
    };
    let name = name_of(expected);
    write!(out, "{quote}{name}{quote}{separator}")
}

/// Returns the name of a thing that a text could go on with.
fn name_of(expected: Expected) -> &'static str {
    match expected {
        Expected::Name => "a name",
        Expected::Item => "an item (a name, literal or class)",
        Expected::Rule => "a rule",
        Expected::Part(part) => name_of_part(part),
        Expected::Sign(sign) => sign,
        Expected::End => END,
    }
}

/// Returns the name of a part that an expression could go on with.
fn name_of_part(part: Part) -> &'static str {
    match part {
        Part::Expression => "an expression",
        Part::Operand => "an operand",
        Part::BoundName => "a bound name",
        Part::NewName => "a name to bind",
        Part::Operator => "an operator",
        Part::TighterOperator => "an operator other than `==` and `<`",
        Part::Sign(sign) => sign,
        Part::End => END,
    }
}
