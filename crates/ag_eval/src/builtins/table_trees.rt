//! Operations on tables that are balanced trees.

ghost use Rattle.std.specs.Prelude.{◌≡◌, IfOk, None};
ghost use Rattle.ag_value.specs.Well.{IsWell};
ghost use Rattle.ag_value.specs.declared.value.Value.TheVariants as value;
ghost use Rattle.ag_value.specs.operations.Arguments.{fault_of};
ghost use Rattle.ag_value.specs.operations.Lists.{length_of};
ghost use Rattle.ag_value.specs.operations.Tables.{get_result, has_result, keys_of, put_result};
ghost use Rattle.ag_eval.specs.Operands.{held_value};

use crate::builtins::comparing::truth;
use crate::builtins::lists::count;
use crate::measured::Measured;
use crate::operand::Held;
use ag_value::{ErrorCode, NoMemory, Value};
use std::alloc::Global;
use table_tree::{PutFault, TableTree};

/// Computes `len(t)`.
#[tactic(auto, using(ag_value::proofs::operations::Wells::short))]
pub fn length(table: &TableTree) -> Value
    ensures value { result ≡ length_of (value.Table table.now) }
    ensures well { IsWell result }
{
    // the contract of `weight` shows the prover that the table is within the limits
    let _weight = table.weight();
    count(table.len())
}

/// Computes `get(t, k)`: the key's value, lent; the error `key` if the table doesn't have the key.
#[tactic(auto, using(crate::proofs::Trees::got))]
pub fn get<'a>(table: &'a TableTree, key: &Value) -> Held<'a>
    ensures { held_value result ≡ get_result (value.Table table.now) key.now }
{
    let Value::Text(key) = key else {
        return Held::fault(ErrorCode::Kind);
    };
    match table.get(key.as_str()) {
        Some(item) => Held::from_lent(item),
        None => Held::fault(ErrorCode::Key),
    }
}

/// Computes `has(t, k)`.
pub fn has(table: &TableTree, key: &Value) -> Value
    ensures value { result ≡ has_result (value.Table table.now) key.now }
    ensures well { IsWell result }
{
    match key {
        Value::Text(key) => truth(table.has(key.as_str())),
        _ => Value::Fault(ErrorCode::Kind),
    }
}

/// Computes `keys(t)`. Takes memory for the list.
pub fn keys(alloc: Global, table: &TableTree) -> Result<Value, NoMemory>
    ensures value { IfOk result (λ v. v ≡ keys_of (value.Table table.now)) }
    ensures well { IfOk result (λ v. IsWell v) }
{
    // the contract of `weight` shows the prover that the table is within the limits
    let _weight = table.weight();
    Ok(Value::List(table.keys(alloc)?))
}

/// Computes `put(t, k, v)`: a tree that shares nodes with t. Takes memory for the nodes on the way
/// from the root to the key.
#[tactic(auto, using(ag_value::proofs::operations::Wells::short, ag_value::proofs::operations::Growing::item_of))]
pub fn put<'a>(
    alloc: Global,
    table: &TableTree,
    key: &Value,
    item: Measured,
) -> Result<Held<'a>, NoMemory>
    requires key { IsWell key.now }
    requires no_fault { fault_of item ≡ None }
    ensures { IfOk result (λ h. held_value h ≡ put_result (value.Table table.now) key.now item) }
{
    let Value::Text(key) = key else {
        return Ok(Held::fault(ErrorCode::Kind));
    };
    match table.put(alloc, key.as_str(), item.into_value()) {
        Ok(table) => Ok(Held::Table(table)),
        Err(PutFault::TooDeep) => Ok(Held::fault(ErrorCode::Deep)),
        Err(PutFault::TooHeavy) => Ok(Held::fault(ErrorCode::Big)),
        Err(PutFault::NoMemory) => Err(NoMemory::NoMemory),
    }
}
