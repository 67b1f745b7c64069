//! The test of well values: those that `encode` requires and `decode` returns.
ghost use Rattle.std.specs.Prelude.{◌≡◌, ◌↔◌, ◌&&◌, IsTrue, map};
ghost use Rattle.ag_value.specs.Well.{IsWell, all_true, are_keys, is_item, is_item_pair, key_of};

use crate::limits::{MAX_VALUE_DEPTH, MAX_WEIGHT};
use crate::text::Text;
use crate::value::Value;
use crate::walks::measuring::{depth, weight};

/// Returns whether a value is well: at most [`MAX_VALUE_DEPTH`] deep and [`MAX_WEIGHT`] heavy, with
/// keys that rise strictly by their bytes in every table, and with no error inside a list or table.
/// That numbers are of 64 bits and texts are UTF-8 follows from their types. Takes no memory.
#[inline(always)]
pub fn is_well(value: &Value) -> bool
    ensures { IsTrue result ↔ IsWell value.now }
{
    match value {
        // Numbers come first, since most values are numbers. `_in_range` is for the proof: the
        // prover knows that a number is in the range of i64 once the code has read the number.
        Value::Num(n) => {
            let _in_range = *n;
            true
        }
        Value::Fault(_) => true,
        _ => is_item(value) && depth(value) <= MAX_VALUE_DEPTH && weight(value) <= MAX_WEIGHT,
    }
}

/// Returns whether a list or table may contain this value: at every level, keys rise strictly and
/// no value is an error. Doesn't test the weight and the depth.
#[cycle(items)]
#[tactic(auto, using(crate::proofs::Layers::items, crate::proofs::Utf8::utf8))]
fn is_item(value: &Value) -> bool
    ensures { result ≡ is_item value.now }
{
    match value {
        // `_in_range` is for the proof, as in `is_well`.
        Value::Num(n) => {
            let _in_range = *n;
            true
        }
        // `_utf8` is for the proof: of a `&str`, the prover knows that it is UTF-8.
        Value::Text(text) => {
            let _utf8 = text.as_str();
            true
        }
        Value::List(items) => are_items(items.as_slice()),
        Value::Table(pairs) => has_ascending_keys(pairs.as_slice())
            && are_item_pairs(pairs.as_slice()),
        Value::Fault(_) => false,
    }
}

/// Returns whether a list may contain each of these values.
#[cycle(items)]
fn are_items(items: &[Value]) -> bool
    ensures { result ≡ all_true (map is_item items.now) }
{
    for item in items {
        if !is_item(item) {
            return false;
        }
    }
    true
}

/// Returns whether a list or table may contain the value of each pair. The keys are not tested.
#[cycle(items)]
fn are_item_pairs(pairs: &[(Text, Value)]) -> bool
    ensures { result ≡ all_true (map is_item_pair pairs.now) }
{
    for pair in pairs {
        if !is_item(&pair.1) {
            return false;
        }
    }
    true
}

/// Returns whether each key comes before the next, compared by their bytes. That the keys are UTF-8
/// follows from their type.
#[tactic(auto, using(crate::proofs::Keys::keys))]
pub fn has_ascending_keys(pairs: &[(Text, Value)]) -> bool
    ensures { result ≡ are_keys (map key_of pairs.now) }
{
    if pairs.is_empty() {
        return true;
    }
    let mut before = pairs[0].0.as_str();
    for pair in &pairs[1..] {
        let key = pair.0.as_str();
        if before >= key {
            return false;
        }
        before = key;
    }
    true
}
