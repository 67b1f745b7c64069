//! The weight and the depth of a value.
ghost use Rattle.std.specs.Prelude.{◌≡◌, ◌-◌, ◌^◌, map, min, sum};
ghost use Rattle.ag_value.specs.Measure.{depth_of, greatest, weight_of, weight_of_pair};

use crate::text::Text;
use crate::value::Value;

/// Returns the weight of a value, well or not: the length of its spelling in bytes, saturated at
/// `u64::MAX`. Takes no memory.
///
/// Each spelling begins with one byte for the kind. A number has 8 more bytes, and an error 1. A
/// text, list or table has 4 more for its length or count, and then its contents.
#[cycle(weighing)]
#[tactic(auto, using(crate::proofs::Layers::weights))]
pub fn weight(value: &Value) -> u64
    ensures { result ≡ min (weight_of value.now) (2 ^ 64 - 1) }
{
    match value {
        Value::Num(_) => 9,
        Value::Text(text) => 5u64.saturating_add(text.as_str().len() as u64),
        Value::List(items) => 5u64.saturating_add(weight_of_items(items.as_slice())),
        Value::Table(pairs) => 5u64.saturating_add(weight_of_pairs(pairs.as_slice())),
        Value::Fault(_) => 2,
    }
}

/// Returns the sum of the weights of values, saturated at `u64::MAX`.
#[cycle(weighing)]
fn weight_of_items(items: &[Value]) -> u64
    ensures { result ≡ min (sum (map weight_of items.now)) (2 ^ 64 - 1) }
{
    let mut total = 0u64;
    for item in items {
        total = total.saturating_add(weight(item));
    }
    total
}

/// Returns the sum of the weights of pairs, saturated at `u64::MAX`. The weight of a pair is the
/// sum of 4 (the bytes of the key's length), the number of the key's bytes, and the value's weight.
#[cycle(weighing)]
fn weight_of_pairs(pairs: &[(Text, Value)]) -> u64
    ensures { result ≡ min (sum (map weight_of_pair pairs.now)) (2 ^ 64 - 1) }
{
    let mut total = 0u64;
    for pair in pairs {
        let key = 4u64.saturating_add(pair.0.as_str().len() as u64);
        total = total.saturating_add(key.saturating_add(weight(&pair.1)));
    }
    total
}

/// Returns the depth of a value, well or not: 0 for a number, a text and an error, 1 for an empty
/// list or table, else one more than that of the deepest value in it. The result is saturated at
/// `u32::MAX`. Takes no memory.
#[cycle(measuring_depth)]
#[tactic(auto, using(crate::proofs::Layers::depths))]
pub fn depth(value: &Value) -> u32
    ensures { result ≡ min (depth_of value.now) (2 ^ 32 - 1) }
{
    match value {
        Value::List(items) => depth_of_items(items.as_slice()).saturating_add(1),
        Value::Table(pairs) => depth_of_pairs(pairs.as_slice()).saturating_add(1),
        Value::Num(_) => 0,
        Value::Text(_) => 0,
        Value::Fault(_) => 0,
    }
}

/// Returns the greatest of the depths of values, saturated at `u32::MAX`. Returns 0 if there are no
/// values.
#[cycle(measuring_depth)]
fn depth_of_items(items: &[Value]) -> u32
    ensures { result ≡ min (greatest (map depth_of items.now)) (2 ^ 32 - 1) }
{
    let mut deepest = 0u32;
    for item in items {
        deepest = deepest.max(depth(item));
    }
    deepest
}

/// Returns the greatest of the depths of the values in pairs, saturated at `u32::MAX`. Returns 0 if
/// there are no pairs.
#[cycle(measuring_depth)]
fn depth_of_pairs(pairs: &[(Text, Value)]) -> u32
    ensures { result ≡ min (greatest (map (λ p. depth_of p.1) pairs.now)) (2 ^ 32 - 1) }
{
    let mut deepest = 0u32;
    for pair in pairs {
        deepest = deepest.max(depth(&pair.1));
    }
    deepest
}
