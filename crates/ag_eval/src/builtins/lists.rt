//! Operations on lists, and those that texts, lists and tables share.

ghost use Rattle.std.specs.Prelude.{◌≡◌, ◌+◌, ◌++◌, ◌≤◌, ◌∷◌, [], max, option_copied, pos};
ghost use Rattle.std.specs.Prelude.{false, true, IfOk, None};
ghost use Rattle.ag_value.specs.Measure.{depth_of, max_weight, weight_of};
ghost use Rattle.ag_value.specs.Well.{IsWell};
ghost use Rattle.ag_value.specs.declared.value.Value.TheVariants as value;
ghost use Rattle.ag_value.specs.operations.Arguments.{fault_of};
ghost use Rattle.ag_value.specs.operations.Fitting.{fit};
ghost use Rattle.ag_value.specs.operations.Texts.{is_text};
ghost use Rattle.ag_eval.specs.Operands.{held_value};
ghost use Rattle.ag_value.specs.operations.Lists.{append_result, concatenation, item_at, length_of, nth_of};

use crate::measured::Measured;
use crate::operand::Held;
use ag_value::{ErrorCode, Items, NoMemory, Value};

/// Computes `len(a)`.
#[tactic(auto, using(ag_value::proofs::operations::Wells::short))]
pub fn length(value: &Value) -> Value
    requires { IsWell value.now }
    ensures value { result ≡ length_of value.now }
    ensures well { IsWell result }
{
    match value {
        Value::Text(text) => count(text.as_str().len()),
        Value::List(items) => count(items.as_slice().len()),
        Value::Table(pairs) => count(pairs.as_slice().len()),
        _ => Value::Fault(ErrorCode::Kind),
    }
}

/// Returns a length as a number.
pub fn count(length: usize) -> Value
    requires { length ≤ max_weight }
    ensures value { result ≡ value.Num (pos length) }
    ensures well { IsWell result }
{
    Value::Num(length as i64)
}

/// Computes `a ++ b` for two values that are not both texts: the left list is extended by the items
/// of the right one. The value is the error `kind` if one of them is not a list. Takes memory for
/// the growth.
pub fn extend_list(left: Measured, right: Measured) -> Result<Measured, NoMemory>
    requires { is_text left ≡ true → is_text right ≡ false }
    ensures { IfOk result (λ m. m ≡ concatenation left right) }
{
    let weight = left.weight() + right.weight();
    let depth = left.depth().max(right.depth());
    match (left.into_value(), right.into_value()) {
        (Value::List(items), Value::List(more)) => extended(items, more, weight, depth),
        _ => Ok(Measured::new(Value::Fault(ErrorCode::Kind))),
    }
}

/// Concatenates two lists, given the sum of their weights and the greater of their depths. The sum
/// counts the weight of an empty list, 5, twice.
fn extended(
    items: Items<Value>,
    more: Items<Value>,
    weight: u64,
    depth: u32,
) -> Result<Measured, NoMemory>
    requires left { IsWell (value.List items) }
    requires right { IsWell (value.List more) }
    requires weighed { weight ≡ weight_of (value.List items) + weight_of (value.List more) }
    requires depth_exact { depth ≡ max (depth_of (value.List items)) (depth_of (value.List more)) }
    ensures { IfOk result (λ m. m ≡ fit (value.List (items ++ more))) }
{
    let mut items = items.into_vec();
    items.append(&mut more.into_vec())?;
    Ok(Measured::fit(Value::List(Items::from_vec(items)), weight - 5, depth))
}

/// Computes `append(l, v)`: the list is extended by the item. Takes memory for the growth.
pub fn append(list: Measured, item: Measured) -> Result<Measured, NoMemory>
    requires { fault_of item ≡ None }
    ensures { IfOk result (λ m. m ≡ append_result list item) }
{
    let weight = list.weight() + item.weight();
    let depth = list.depth().max(item.depth() + 1);
    match list.into_value() {
        Value::List(items) => pushed(items, item.into_value(), weight, depth),
        _ => Ok(Measured::new(Value::Fault(ErrorCode::Kind))),
    }
}

/// Appends an item to a list, given the sum of their weights and the depth of the result.
fn pushed(items: Items<Value>, item: Value, weight: u64, depth: u32) -> Result<Measured, NoMemory>
    requires list { IsWell (value.List items) }
    requires item { IsWell item }
    requires no_fault { fault_of item ≡ None }
    requires weighed { weight ≡ weight_of (value.List items) + weight_of item }
    requires depth_exact { depth ≡ max (depth_of (value.List items)) (1 + depth_of item) }
    ensures { IfOk result (λ m. m ≡ fit (value.List (items ++ item ∷ []))) }
{
    let mut items = items.into_vec();
    items.push(item)?;
    Ok(Measured::fit(Value::List(Items::from_vec(items)), weight, depth))
}

/// Computes `nth(l, i)`: the item with the index i, from 0, lent; the error `index` if there is
/// none.
pub fn nth<'a>(list: &'a Value, index: &Value) -> Held<'a>
    requires { IsWell list.now }
    ensures { held_value result ≡ nth_of list.now index.now }
{
    match (list, index) {
        (Value::List(items), Value::Num(index)) => {
            match item_at(items.as_slice(), *index) {
                Some(item) => Held::from_lent(item),
                None => Held::fault(ErrorCode::Index),
            }
        }
        _ => Held::fault(ErrorCode::Kind),
    }
}

/// Returns the item with an index from 0, if there is one.
fn item_at(items: &[Value], index: i64) -> Option<&Value>
    ensures { option_copied result ≡ item_at items.now index }
{
    if index < 0 {
        return None;
    }
    items.get(index as usize)
}
