//! Answers questions about the current value, and about encodings of values. A value is well if it
//! is within the limits of depth and weight, its tables have keys in strictly rising order, and no
//! error is in a list or table.

use crate::expressions::value_of;
use ag_value::{Items, Text, Value, copy, decode, depth, encode, is_well, same, show, weight};
use rows::words::{Mistake, number, printed, shown_bytes};
use std::alloc::{AllocError, Global};

/// Returns the new current value: that of an expression (`given`), a text of N letters (`letters`),
/// the current value in N nested lists (`wrap`), or a table with a key twice (`doubled`).
pub fn new_value(alloc: Global, verb: &str, rest: &str, value: &Value) -> Result<Value, Mistake> {
    match verb {
        "given" => value_of(alloc, rest, value),
        "letters" => Ok(letters(alloc, number(rest)?)?),
        "wrap" => Ok(in_lists(alloc, copy(alloc, value)?, number(rest)?)?),
        _ => doubled(alloc, rest, value),
    }
}

/// Returns a text of `count` letters.
fn letters(alloc: Global, count: u32) -> Result<Value, AllocError> {
    let letters = "a".repeat(alloc, count as usize)?;
    Ok(Value::Text(Text::from_string(letters)))
}

/// Wraps a value in `levels` nested lists.
fn in_lists(alloc: Global, value: Value, levels: u32) -> Result<Value, AllocError> {
    let mut outer = value;
    for _ in 0..levels {
        outer = Value::List(Items::from_vec(vec![in alloc; outer]?));
    }
    Ok(outer)
}

/// Returns a pair of a key and a copy of a value.
fn entry(alloc: Global, key: &str, value: &Value) -> Result<(Text, Value), Mistake> {
    Ok((Text::from_str(alloc, key)?, copy(alloc, value)?))
}

/// Returns a table that has a key twice, each time with a copy of a value.
fn doubled(alloc: Global, key: &str, value: &Value) -> Result<Value, Mistake> {
    let mut pairs = Vec::new(alloc);
    for _ in 0..2 {
        pairs.push(entry(alloc, key, value)?)?;
    }
    Ok(Value::Table(Items::from_vec(pairs)))
}

/// Returns the encoding of a value. Fails with `Unfit` if the value is not well.
pub fn spell_answer(alloc: Global, value: &Value) -> Result<String, Mistake> {
    if !is_well(value) {
        return Err(Mistake::Unfit);
    }
    let mut bytes = Vec::new(alloc);
    encode(value, &mut bytes)?;
    Ok(shown_bytes(alloc, bytes.as_slice())?)
}

/// Returns the weight or the depth of a value, whether it is well, or its copy.
pub fn property_answer(alloc: Global, verb: &str, value: &Value) -> Result<String, Mistake> {
    match verb {
        "weight" => Ok(weight(value).to_string(alloc)?),
        "depth" => Ok(depth(value).to_string(alloc)?),
        "well" => Ok(format!(in alloc; "{}", is_well(value))?),
        _ => copy_answer(alloc, value),
    }
}

/// Copies a value and shows the copy.
fn copy_answer(alloc: Global, value: &Value) -> Result<String, Mistake> {
    let copied = copy(alloc, value)?;
    Ok(show(alloc, &copied)?)
}

/// Returns whether the value of a text equals the current value.
pub fn same_answer(alloc: Global, text: &str, value: &Value) -> Result<String, Mistake> {
    let other = value_of(alloc, text, value)?;
    Ok(format!(in alloc; "{}", same(&other, value))?)
}

/// Decodes a value. Returns it and the length of its encoding in bytes, or the fault.
pub fn decode_answer(alloc: Global, bytes: &[u8]) -> Result<String, Mistake> {
    match decode(alloc, bytes) {
        Ok((value, length)) => decoded_answer(alloc, &value, length),
        Err(fault) => printed(alloc, &fault),
    }
}

/// Returns a value as it is shown, and the length of its encoding in bytes.
fn decoded_answer(alloc: Global, value: &Value, length: usize) -> Result<String, Mistake> {
    let shown = show(alloc, value)?;
    Ok(format!(in alloc; "{shown} of {length} bytes")?)
}
