//! The parts of a record.

ghost use Rattle.std.specs.Prelude.{IfSome};
ghost use Rattle.tree_index.specs.Reading.{BeginsRecord};

use crate::fault::ShapeFault;
use ag_carried::Carried;
use ag_grammar::limits::MAX_TOKEN_BYTES;
use ag_grammar::{Grammar, Item, Terminal};
use ag_value::{NoMemory, Value};
use std::alloc::Global;
use treefile::{Kind, split_body};

/// Returns the number in a record of an item, and the bytes after this number, which should be the
/// spellings of the record's values. The number is that of a production if the item is a symbol,
/// and that of the class if the item is a class. Returns `None` if the body does not begin with a
/// kind and a number, or if no record of the item has this kind and number. The bytes after the
/// number are not checked.
pub(crate) fn split_record<'b>(
    grammar: &Grammar,
    item: Item,
    body: &'b [u8],
) -> Option<(u16, &'b [u8])>
    ensures { IfSome result (λ parts. BeginsRecord grammar.now item body.now parts.0) }
{
    match (item, split_body(body)?) {
        (Item::Symbol(symbol), (Kind::Node, number, spellings)) => {
            let production = grammar.productions().get(usize::from(number))?;
            if production.left == symbol {
                Some((number, spellings))
            } else {
                None
            }
        }
        (Item::Terminal(Terminal::Class(class)), (Kind::Token, number, spelling)) => {
            if class == number {
                Some((number, spelling))
            } else {
                None
            }
        }
        _ => None,
    }
}

/// Reads `count` values from the beginning of `bytes`, appends them to a row, and returns the bytes
/// after them. Fails with `Damaged` if the bytes do not begin with that number of values, and with
/// `NoMemory` if memory is refused.
pub(crate) fn read_values<'b>(
    alloc: Global,
    count: usize,
    bytes: &'b [u8],
    row: &mut Vec<Carried>,
) -> Result<&'b [u8], ShapeFault> {
    let mut rest = bytes;
    for _ in 0..count {
        let (value, length) = Carried::read(alloc, rest)?;
        let Ok(()) = row.push(value) else {
            return Err(ShapeFault::NoMemory);
        };
        rest = &rest[length..];
    }
    Ok(rest)
}

/// Reads the text of a token, and appends it to a row. Fails with `Damaged` if the bytes are not
/// the spelling of a text of at most `MAX_TOKEN_BYTES`, and with `NoMemory` if memory is refused.
pub(crate) fn read_text(
    alloc: Global,
    spelling: &[u8],
    row: &mut Vec<Carried>,
) -> Result<(), ShapeFault> {
    let (value, length) = Carried::read(alloc, spelling)?;
    if length != spelling.len() || !is_token_text(alloc, &value)? {
        return Err(ShapeFault::Damaged);
    }
    let Ok(()) = row.push(value) else {
        return Err(ShapeFault::NoMemory);
    };
    Ok(())
}

/// Returns whether a value is a text of at most `MAX_TOKEN_BYTES`. Fails if memory is refused.
fn is_token_text(alloc: Global, value: &Carried) -> Result<bool, NoMemory> {
    match (value.as_number(), value.as_value()) {
        (Some(_), _) => Ok(false),
        (None, Some(value)) => Ok(is_short_text(value)),
        // an error, or a text, table or list that is not stored as a `Value`
        (None, None) => Ok(is_short_text(&value.to_value(alloc)?)),
    }
}

/// Returns whether a value is a text of at most `MAX_TOKEN_BYTES`.
fn is_short_text(value: &Value) -> bool {
    match value {
        Value::Text(text) => text.as_str().len() <= MAX_TOKEN_BYTES,
        _ => false,
    }
}
