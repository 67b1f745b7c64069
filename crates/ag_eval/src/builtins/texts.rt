//! Operations on texts.

ghost use Rattle.std.specs.Prelude.{◌≡◌, ◌++◌, ◌-◌, ◌^◌, length, min, string_bytes, IfOk};
ghost use Rattle.std.specs.List.{join_by, list_all};
ghost use Rattle.ag_value.specs.operations.Fitting.{fit};
ghost use Rattle.ag_value.specs.operations.Lists.{concatenation};
ghost use Rattle.ag_value.specs.operations.Texts.{bytes_of, is_text, join_result, joined_texts};
ghost use Rattle.ag_value.specs.declared.value.Value.TheVariants as value;

use crate::measured::Measured;
use ag_value::{ErrorCode, MAX_WEIGHT, NoMemory, Text, Value};
use std::alloc::Global;

/// Computes `join(l, s)`. Takes memory for the text, if it is within the limits.
pub fn join(alloc: Global, list: &Value, separator: &Value) -> Result<Measured, NoMemory>
    ensures { IfOk result (λ m. m ≡ join_result list.now separator.now) }
{
    match (list, separator) {
        (Value::List(items), Value::Text(separator)) => {
            join_items(alloc, items.as_slice(), separator.as_str())
        }
        _ => Ok(Measured::new(Value::Fault(ErrorCode::Kind))),
    }
}

/// Concatenates items that are texts, with the separator between neighbours. The value is the error
/// `kind` if an item is not a text, and `big` if the result is beyond the limits. The weight of a
/// text is 5 more than the number of its bytes.
#[tactic(auto, using(ag_value::proofs::Layers::items, ag_value::proofs::Utf8::utf8))]
fn join_items(alloc: Global, items: &[Value], separator: &str) -> Result<Measured, NoMemory>
    ensures { IfOk result (λ m. m ≡ joined_texts items.now separator.now) }
{
    if !are_texts(items) {
        return Ok(Measured::new(Value::Fault(ErrorCode::Kind)));
    }
    let weight = 5u64.saturating_add(joined_length(items, separator));
    if weight > MAX_WEIGHT {
        return Ok(Measured::new(Value::Fault(ErrorCode::Big)));
    }
    let text = Text::from_string(joined(alloc, items, separator)?);
    // the contract of `as_str` shows the prover that the text is UTF-8
    let _utf8 = text.as_str();
    Ok(Measured::fit(Value::Text(text), weight, 0))
}

/// Returns whether all items are texts.
fn are_texts(items: &[Value]) -> bool
    ensures { result ≡ list_all is_text items.now }
{
    for item in items {
        if !matches!(item, Value::Text(_)) {
            return false;
        }
    }
    true
}

/// Lends a text, or an empty one for a value of another kind.
pub fn bytes_of(value: &Value) -> &str
    ensures { result.now ≡ bytes_of value.now }
{
    match value {
        Value::Text(text) => text.as_str(),
        _ => "",
    }
}

/// Returns the number of bytes of the texts with the separator between neighbours, saturated at
/// `u64::MAX`.
fn joined_length(items: &[Value], separator: &str) -> u64
    ensures { result ≡ min (length (join_by bytes_of separator.now items.now)) (2 ^ 64 - 1) }
{
    let [first, rest @ ..] = items else {
        return 0;
    };
    let mut total = bytes_of(first).len() as u64;
    for item in rest {
        total = total.saturating_add(separator.len() as u64);
        total = total.saturating_add(bytes_of(item).len() as u64);
    }
    total
}

/// Concatenates the texts with the separator between neighbours.
fn joined(alloc: Global, items: &[Value], separator: &str) -> Result<String, NoMemory>
    ensures { IfOk result (λ text. string_bytes text
        ≡ join_by bytes_of separator.now items.now) }
{
    let mut text = String::new(alloc);
    let [first, rest @ ..] = items else {
        return Ok(text);
    };
    text.push_str(bytes_of(first))?;
    for item in rest {
        text.push_str(separator)?;
        text.push_str(bytes_of(item))?;
    }
    Ok(text)
}

/// Computes `a ++ b` for a text b: extends the left argument by b, or returns the error `kind` if
/// the left argument is not a text. Takes memory for the growth.
pub fn extend_text(alloc: Global, left: Measured, right: &str) -> Result<Measured, NoMemory>
    ensures { IfOk result (λ m. m ≡ concatenation left (value.Text right.now)) }
{
    match left.into_value() {
        Value::Text(text) => extended(alloc, text, right),
        _ => Ok(Measured::new(Value::Fault(ErrorCode::Kind))),
    }
}

/// Concatenates two texts. The weight of a text is 5 more than the number of its bytes.
#[tactic(auto, using(ag_value::proofs::Layers::items, ag_value::proofs::Utf8::utf8))]
fn extended(alloc: Global, left: Text, right: &str) -> Result<Measured, NoMemory>
    ensures { IfOk result (λ m. m ≡ fit (value.Text (left ++ right.now))) }
{
    let mut string = left.into_string(alloc)?;
    string.push_str(right)?;
    let text = Text::from_string(string);
    // the contract of `as_str` also shows the prover that the text is UTF-8
    let weight = 5u64.saturating_add(text.as_str().len() as u64);
    Ok(Measured::fit(Value::Text(text), weight, 0))
}
