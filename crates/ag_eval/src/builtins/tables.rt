//! Operations on tables.

ghost use Rattle.std.specs.Prelude.{◌≡◌, ◌<◌, ◌≤◌, ℕ, List, length, map, option_copied, insert};
ghost use Rattle.std.specs.Prelude.{slice_get, slice_set, true, None, Some};
ghost use Rattle.std.specs.Prelude.{IfOk};
ghost use Rattle.ag_value.specs.Measure.{depth_of, max_weight, weight_of};
ghost use Rattle.ag_value.specs.Well.{IsWell, is_item, is_ascending, key_of};
ghost use Rattle.ag_value.specs.declared.value.Value.TheVariants as value;
ghost use Rattle.ag_eval.specs.Operands.{held_value};
ghost use Rattle.ag_value.specs.operations.Arguments.{fault_of};
ghost use Rattle.ag_value.specs.operations.Fitting.{fit};
ghost use Rattle.ag_value.specs.operations.Tables.{IsIndex, get_result, has_result, has_key, keys_of};
ghost use Rattle.ag_value.specs.operations.Tables.{pair_with, put_result, with_pair};

use crate::builtins::comparing::truth;
use crate::builtins::table_trees;
use crate::measured::Measured;
use crate::operand::Held;
use ag_carried::MAX_FLAT_TABLE;
use ag_value::{ErrorCode, Items, NoMemory, Text, Value};
use std::alloc::Global;
use table_tree::TableTree;

/// Returns the number of keys that come before this key: the index of the key in the table, or the
/// index at which it has to be inserted.
fn index_of(pairs: &[(Text, Value)], key: &str) -> usize
    requires { is_ascending (map key_of pairs.now) ≡ true }
    ensures within { result ≤ length pairs.now }
    ensures index { IsIndex key.now pairs.now result }
{
    pairs.partition_point(|pair| pair.0.as_str() < key)
}

/// Returns the pair with a key, if there is one.
fn pair_with<'a>(pairs: &'a [(Text, Value)], key: &str) -> Option<&'a (Text, Value)>
    requires { is_ascending (map key_of pairs.now) ≡ true }
    ensures { option_copied result ≡ pair_with key.now pairs.now }
{
    let index = index_of(pairs, key);
    match pairs.get(index) {
        Some(pair) if pair.0.as_str() == key => Some(pair),
        _ => None,
    }
}

/// Computes `get(t, k)`: the key's value, lent; the error `key` if the table doesn't have the key.
pub fn get<'a>(table: &'a Value, key: &Value) -> Held<'a>
    requires { IsWell table.now }
    ensures { held_value result ≡ get_result table.now key.now }
{
    match (table, key) {
        (Value::Table(pairs), Value::Text(key)) => {
            match pair_with(pairs.as_slice(), key.as_str()) {
                Some(pair) => Held::from_lent(&pair.1),
                None => Held::fault(ErrorCode::Key),
            }
        }
        _ => Held::fault(ErrorCode::Kind),
    }
}

/// Computes `has(t, k)`.
pub fn has(table: &Value, key: &Value) -> Value
    requires { IsWell table.now }
    ensures value { result ≡ has_result table.now key.now }
    ensures well { IsWell result }
{
    match (table, key) {
        (Value::Table(pairs), Value::Text(key)) => {
            match pair_with(pairs.as_slice(), key.as_str()) {
                Some(_) => truth(true),
                None => truth(false),
            }
        }
        _ => Value::Fault(ErrorCode::Kind),
    }
}

/// Computes `put(t, k, v)`: adds the pair, or replaces the value of the key. A table that has more
/// than `MAX_FLAT_TABLE` pairs before the call becomes a tree. Takes memory for the growth, or for
/// the tree.
pub fn put<'a>(
    alloc: Global,
    table: Measured,
    key: &Value,
    value: Measured,
) -> Result<Held<'a>, NoMemory>
    requires key { IsWell key.now }
    requires no_fault { fault_of value ≡ None }
    ensures { IfOk result (λ h. held_value h ≡ put_result table key.now value) }
{
    if pair_count(table.get()) <= MAX_FLAT_TABLE {
        return Ok(Held::Owned(put_flat(alloc, table, key, value)?));
    }
    match table.into_value() {
        Value::Table(pairs) => {
            let tree = TableTree::from_table(alloc, pairs)?;
            table_trees::put(alloc, &tree, key, value)
        }
        _ => Ok(Held::fault(ErrorCode::Kind)),
    }
}

/// Returns the number of pairs of a table, and 0 for a value of another kind.
fn pair_count(value: &Value) -> usize {
    match value {
        Value::Table(pairs) => pairs.as_slice().len(),
        _ => 0,
    }
}

/// Computes `put(t, k, v)` for a table that stays flat.
#[tactic(auto, using(ag_value::proofs::operations::Wells::short))]
fn put_flat(
    alloc: Global,
    table: Measured,
    key: &Value,
    value: Measured,
) -> Result<Measured, NoMemory>
    requires key { IsWell key.now }
    requires no_fault { fault_of value ≡ None }
    ensures { IfOk result (λ m. m ≡ put_result table key.now value) }
{
    let weight = table.weight();
    let depth = table.depth();
    match (table.into_value(), key) {
        (Value::Table(pairs), Value::Text(key)) => {
            let table = MeasuredPairs {
                pairs,
                weight,
                depth,
            };
            put_pair(alloc, table, key.as_str(), value)
        }
        _ => Ok(Measured::new(Value::Fault(ErrorCode::Kind))),
    }
}

/// Returns whether the pair at an index has the key.
fn has_at(pairs: &[(Text, Value)], index: usize, key: &str) -> bool
    ensures { result ≡ has_key key.now (slice_get pairs.now index) }
{
    match pairs.get(index) {
        Some(pair) => pair.0.as_str() == key,
        None => false,
    }
}

/// The pairs of a table, with its weight and its depth.
#[derive(Drop)]
struct MeasuredPairs {
    pairs: Items<(Text, Value)>,
    weight: u64,
    depth: u32,
}

/// Adds a pair to a table, or replaces the value of its key. The weight of a pair is the sum of 4
/// (the bytes that encode the key's length), the number of the key's bytes, and the value's weight.
fn put_pair(
    alloc: Global,
    table: MeasuredPairs,
    key: &str,
    item: Measured,
) -> Result<Measured, NoMemory>
    requires table { IsWell (value.Table table.pairs) }
    requires short { length key.now ≤ max_weight }
    requires no_fault { fault_of item ≡ None }
    requires weighed { table.weight ≡ weight_of (value.Table table.pairs) }
    requires depth_exact { table.depth ≡ depth_of (value.Table table.pairs) }
    ensures { IfOk result (λ m. m ≡ fit (value.Table (with_pair key.now item table.pairs))) }
{
    let MeasuredPairs {
        pairs,
        weight,
        depth,
    } = table;
    let index = index_of(pairs.as_slice(), key);
    if has_at(pairs.as_slice(), index, key) {
        return Ok(replaced(pairs, index, item.into_value()));
    }
    let weight = weight + 4 + key.len() as u64 + item.weight();
    let depth = depth.max(item.depth() + 1);
    let pairs = inserted(alloc, pairs, index, key, item.into_value())?;
    Ok(Measured::fit(Value::Table(pairs), weight, depth))
}

/// Replaces the value at an index of a table, and measures the whole table again, since the weight
/// and the depth of the old value are not stored. In the contract, `key` is the key at the index.
fn replaced(pairs: Items<(Text, Value)>, index: usize, item: Value) -> Measured
    requires table { IsWell (value.Table pairs) }
    requires item { is_item item ≡ true }
    requires within { index < length pairs }
    ensures { (key : List ℕ) → IsIndex key pairs index
        → has_key key (slice_get pairs index) ≡ true
        → result ≡ fit (value.Table (with_pair key item pairs)) }
{
    let mut pairs = pairs.into_vec();
    set_value(&mut pairs, index, item);
    Measured::weighed(Value::Table(Items::from_vec(pairs)))
}

/// Sets the value of the pair at an index.
fn set_value(pairs: &mut Vec<(Text, Value)>, index: usize, item: Value)
    requires { index < length pairs.old.items }
    ensures { (p : _) → slice_get pairs.old.items index ≡ Some p
        → pairs.new.items ≡ slice_set pairs.old.items index (p.0, item) }
{
    pairs[index].1 = item;
}

/// Inserts a pair at an index.
fn inserted(
    alloc: Global,
    pairs: Items<(Text, Value)>,
    index: usize,
    key: &str,
    item: Value,
) -> Result<Items<(Text, Value)>, NoMemory>
    requires { index ≤ length pairs }
    ensures { IfOk result (λ growth_result. growth_result ≡ insert pairs index (key.now, item)) }
{
    let mut pairs = pairs.into_vec();
    pairs.insert(index, (Text::from_str(alloc, key)?, item))?;
    Ok(Items::from_vec(pairs))
}

/// Computes `keys(t)`. Takes memory for the list.
pub fn keys(alloc: Global, table: &Value) -> Result<Value, NoMemory>
    requires { IsWell table.now }
    ensures value { IfOk result (λ v. v ≡ keys_of table.now) }
    ensures well { IfOk result (λ v. IsWell v) }
{
    match table {
        Value::Table(pairs) => Ok(Value::List(key_texts(alloc, pairs.as_slice())?)),
        _ => Ok(Value::Fault(ErrorCode::Kind)),
    }
}

/// Returns the keys of pairs as texts.
fn key_texts(alloc: Global, pairs: &[(Text, Value)]) -> Result<Items<Value>, NoMemory>
    ensures { IfOk result (λ keys. keys ≡ map (λ p. value.Text p.0) pairs.now) }
{
    let mut keys = Vec::with_capacity(alloc, pairs.len())?;
    for pair in pairs {
        keys.push(Value::Text(Text::from_str(alloc, pair.0.as_str())?))?;
    }
    Ok(Items::from_vec(keys))
}
