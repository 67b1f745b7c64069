//! Comparisons of values.

ghost use Rattle.std.specs.Prelude.{◌≡◌, ◌↔◌, IfOk, IsTrue};
ghost use Rattle.ag_value.specs.Well.{IsWell};
ghost use Rattle.ag_value.specs.declared.value.Value.TheVariants as value;
ghost use Rattle.ag_value.specs.operations.Arguments.{truth};
ghost use Rattle.ag_grammar.specs.values.Operators.{comparison_result, order_result};
ghost use Rattle.ag_eval.specs.Operands.{ref_value};

use crate::value_ref::ValueRef;
use ag_carried::SharedText;
use ag_value::{ErrorCode, NoMemory, Value, same};
use std::alloc::Global;

/// Returns the value of a test: 1 if it holds, else 0.
pub fn truth(holds: bool) -> Value
    ensures value { result ≡ truth holds }
    ensures well { IsWell result }
{
    if holds { Value::Num(1) } else { Value::Num(0) }
}

/// Computes `a == b`.
pub fn equal(left: &Value, right: &Value) -> Value
    requires left { IsWell left.now }
    requires right { IsWell right.now }
    ensures value { result ≡ comparison_result left.now right.now }
    ensures well { IsWell result }
{
    truth(same(left, right))
}

/// Computes `a == b`, where a text may be a shared one, and a table or list may be a tree. Takes
/// memory, for a copy, only to compare a shared text with a plain text of the same length.
pub fn equal_shared(
    alloc: Global,
    left: ValueRef<'_>,
    right: ValueRef<'_>,
) -> Result<Value, NoMemory>
    requires left { IsWell (ref_value left) }
    requires right { IsWell (ref_value right) }
    ensures value { IfOk result
        (λ v. v ≡ comparison_result (ref_value left.entry) (ref_value right.entry)) }
    ensures well { IfOk result (λ v. IsWell v) }
{
    let same = same_values(alloc, left, right)?;
    Ok(truth(same))
}

/// Returns whether two values are equal.
fn same_values(alloc: Global, left: ValueRef<'_>, right: ValueRef<'_>) -> Result<bool, NoMemory>
    ensures { IfOk result (λ same. IsTrue same ↔ (ref_value left.entry ≡ ref_value right.entry)) }
{
    match (left, right) {
        (ValueRef::Plain(one), ValueRef::Plain(other)) => Ok(same(one, other)),
        (ValueRef::Shared(one), ValueRef::Shared(other)) => Ok(one.same(other)),
        (ValueRef::Shared(text), ValueRef::Plain(plain)) => has_bytes(alloc, plain, text),
        (ValueRef::Plain(plain), ValueRef::Shared(text)) => has_bytes(alloc, plain, text),
        (ValueRef::Table(one), ValueRef::Table(other)) => Ok(one.same(other)),
        (ValueRef::Table(table), ValueRef::Plain(plain)) => Ok(table.is_value(plain)),
        (ValueRef::Plain(plain), ValueRef::Table(table)) => Ok(table.is_value(plain)),
        (ValueRef::List(one), ValueRef::List(other)) => Ok(one.same(other)),
        (ValueRef::List(list), ValueRef::Plain(plain)) => Ok(list.is_value(plain)),
        (ValueRef::Plain(plain), ValueRef::List(list)) => Ok(list.is_value(plain)),
        (ValueRef::Table(_), ValueRef::Shared(_) | ValueRef::List(_)) => Ok(false),
        (ValueRef::Shared(_), ValueRef::Table(_) | ValueRef::List(_)) => Ok(false),
        (ValueRef::List(_), ValueRef::Table(_) | ValueRef::Shared(_)) => Ok(false),
    }
}

/// Returns whether a plain value is a text with the bytes of a shared text. Lengths are compared
/// first.
fn has_bytes(alloc: Global, plain: &Value, shared: &SharedText) -> Result<bool, NoMemory>
    ensures { IfOk result (λ same. IsTrue same ↔ (plain.now ≡ value.Text shared.now)) }
{
    let Value::Text(text) = plain else {
        return Ok(false);
    };
    if text.as_str().len() != shared.len() {
        return Ok(false);
    }
    let copied = shared.to_text(alloc)?;
    Ok(text.as_str() == copied.as_str())
}

/// Computes `a < b`.
pub fn less(left: &Value, right: &Value) -> Value
    ensures value { result ≡ order_result left.now right.now }
    ensures well { IsWell result }
{
    match (left, right) {
        (Value::Num(m), Value::Num(n)) => truth(*m < *n),
        (Value::Text(s), Value::Text(t)) => truth(s.as_str() < t.as_str()),
        _ => Value::Fault(ErrorCode::Kind),
    }
}
