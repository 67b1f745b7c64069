//! Applies operators and calls to operands. A value that is a part of a lent operand is lent too.
//! The functions that return a `Result` fail with `NoMemory` if memory is refused.

ghost use Rattle.std.specs.Prelude.{◌≡◌, ◌≢◌, ◌∷◌, [], IfOk, IfSome, None};
ghost use Rattle.ag_value.specs.Well.{IsWell};
ghost use Rattle.ag_value.specs.declared.value.Value.TheVariants as value;
ghost use Rattle.ag_eval.specs.declared.operand.Held.{Held as HeldValue};
ghost use Rattle.ag_eval.specs.Operands.{Gives, IsIn, held_value, operand_value, ref_value, scalar_value};
ghost use Rattle.ag_value.specs.operations.Arguments.{fault_of, leftmost};
ghost use Rattle.ag_grammar.specs.values.Calls.{unary_call_result, binary_call_result, put};
ghost use Rattle.ag_grammar.specs.values.Operators.{operation_result};

use crate::bindings::Bindings;
use crate::builtins::comparing::{equal, equal_shared, less, truth};
use crate::builtins::faults::{fault_of, fault_of_three, fault_of_two};
use crate::builtins::lists::{append, length, nth};
use crate::builtins::numbers::{
    decimal, difference, difference_of, number, product, product_of, quotient, quotient_of,
    remainder, remainder_of, sum, sum_of,
};
use crate::builtins::tables::{get, has, keys};
use crate::builtins::texts::join;
use crate::builtins::{list_trees, table_trees, tables};
use crate::concatenation::concatenate;
use crate::measured::Measured;
use crate::operand::{Held, Operand};
use crate::scalar::Scalar;
use crate::value_ref::{ValueRef, copied_list, copied_text};
use ag_carried::{MAX_FLAT_LIST, SharedText};
use ag_grammar::{BinaryCall, Operator, UnaryCall};
use ag_value::{ErrorCode, NoMemory, Value};
use list_tree::ListTree;
use std::alloc::Global;
use table_tree::TableTree;

/// Makes an operand of an owned value.
fn owned_operand<'e>(value: Value) -> Operand<'e>
    requires { IsWell value }
    ensures { result ≡ Operand.Held (HeldValue.Owned value) }
{
    Operand::owned(Measured::new(value))
}

/// Makes an operand of an error.
pub fn fault<'e>(code: ErrorCode) -> Operand<'e>
    ensures { result ≡ Operand.Held (HeldValue.Owned (value.Fault code)) }
{
    Operand::Held(Held::fault(code))
}

/// Computes the value of an operator for two operands. Takes memory for what `++` makes, and for a
/// plain copy of a shared text or of a tree.
pub fn apply<'e>(
    alloc: Global,
    operator: Operator,
    left: Operand<'e>,
    right: Operand<'e>,
    bindings: &Bindings<'e>,
) -> Result<Operand<'e>, NoMemory>
    requires left { IsIn bindings.now left }
    requires right { IsIn bindings.now right }
    ensures value { IfOk result (Gives bindings.now (operation_result operator) left.entry right.entry) }
    ensures within { IfOk result (λ o. IsIn bindings.now o) }
{
    if operator == Operator::Join {
        return concatenate(alloc, left, right, bindings);
    }
    let value = operation(alloc, operator, left.get(&*bindings), right.get(&*bindings))?;
    Ok(owned_operand(value))
}

/// Computes the value of an operator other than `++` for two values.
fn operation(
    alloc: Global,
    operator: Operator,
    left: ValueRef<'_>,
    right: ValueRef<'_>,
) -> Result<Value, NoMemory>
    requires no_join { operator ≢ Operator.Join }
    requires left { IsWell (ref_value left) }
    requires right { IsWell (ref_value right) }
    ensures value { IfOk result
        (λ v. v ≡ operation_result operator (ref_value left.entry) (ref_value right.entry)) }
    ensures well { IfOk result (λ v. IsWell v) }
{
    if let Some(code) = fault_of_two(left, right) {
        return Ok(Value::Fault(code));
    }
    if let (ValueRef::Plain(one), ValueRef::Plain(other)) = (left, right) {
        return Ok(calculate(operator, one, other));
    }
    if operator == Operator::Equal {
        return equal_shared(alloc, left, right);
    }
    let one = left.to_plain(alloc)?;
    let other = right.to_plain(alloc)?;
    Ok(calculate(operator, one.get(), other.get()))
}

/// Computes the value of an operator other than `++` for two plain values that are not errors.
fn calculate(operator: Operator, left: &Value, right: &Value) -> Value
    requires no_join { operator ≢ Operator.Join }
    requires no_fault { leftmost (left.now ∷ right.now ∷ []) ≡ None }
    requires left { IsWell left.now }
    requires right { IsWell right.now }
    ensures value { result ≡ operation_result operator left.now right.now }
    ensures well { IsWell result }
{
    match operator {
        Operator::Equal => equal(left, right),
        Operator::Less => less(left, right),
        // `++` is not computed here
        Operator::Join => Value::Fault(ErrorCode::Kind),
        Operator::Add => sum(left, right),
        Operator::Subtract => difference(left, right),
        Operator::Multiply => product(left, right),
        Operator::Divide => quotient(left, right),
        Operator::Remainder => remainder(left, right),
    }
}

/// Computes the value of an operator for two scalars: the leftmost error, if one is an error.
/// Returns `None` for `++` of two numbers: this rare case, whose value is the error `kind`, is left
/// to `concatenate`.
#[inline(always)]
pub fn apply_to_scalars(operator: Operator, left: Scalar, right: Scalar) -> Option<Scalar>
    ensures { IfSome result
        (λ s. scalar_value s ≡ operation_result operator (scalar_value left) (scalar_value right)) }
{
    match left {
        Scalar::Number(m) => apply_to_number(operator, m, right),
        Scalar::Fault(code) => Some(Scalar::Fault(code)),
    }
}

/// Computes the value of an operator for a number and a scalar, as `apply_to_scalars` does.
#[inline(always)]
fn apply_to_number(operator: Operator, m: i64, right: Scalar) -> Option<Scalar>
    ensures { IfSome result
        (λ s. scalar_value s ≡ operation_result operator (value.Num m) (scalar_value right)) }
{
    match right {
        Scalar::Number(n) => apply_to_numbers(operator, m, n),
        Scalar::Fault(code) => Some(Scalar::Fault(code)),
    }
}

/// Computes `m == n`. Not inlined: it stores both numbers as values in memory, which the other
/// operators don't need.
#[tactic(auto, unfolding(ag_value::specs::operations::Arguments::leftmost))]
#[inline(never)]
fn equal_numbers(m: i64, n: i64) -> Option<Scalar>
    ensures { IfSome result
        (λ s. scalar_value s ≡ operation_result Operator.Equal (value.Num m) (value.Num n)) }
{
    Scalar::from_value(&equal(&Value::Num(m), &Value::Num(n)))
}

/// Computes the value of an operator for two numbers. Returns `None` for `++`.
#[tactic(auto, unfolding(ag_value::specs::operations::Arguments::leftmost))]
#[inline(always)]
fn apply_to_numbers(operator: Operator, m: i64, n: i64) -> Option<Scalar>
    ensures { IfSome result (λ s. scalar_value s ≡ operation_result operator (value.Num m) (value.Num n)) }
{
    match operator {
        Operator::Equal => equal_numbers(m, n),
        Operator::Less => Scalar::from_value(&truth(m < n)),
        Operator::Join => None,
        Operator::Add => Some(sum_of(m, n)),
        Operator::Subtract => Some(difference_of(m, n)),
        Operator::Multiply => Some(product_of(m, n)),
        Operator::Divide => Some(quotient_of(m, n)),
        Operator::Remainder => Some(remainder_of(m, n)),
    }
}

/// Computes the value of a call of one operand. Takes memory for a value that it makes. The call
/// `number` also takes memory for a copy of a shared text.
pub fn call_unary<'e>(
    alloc: Global,
    call: UnaryCall,
    argument: Operand<'e>,
    bindings: &Bindings<'e>,
) -> Result<Operand<'e>, NoMemory>
    requires { IsIn bindings.now argument }
    ensures { IfOk result (λ o. o
        ≡ Operand.Held (HeldValue.Owned (unary_call_result call (operand_value bindings.now argument.entry)))) }
{
    Ok(Operand::owned(unary_value(alloc, call, argument.get(&*bindings))?))
}

/// Computes the value of a call of one argument from the argument's value.
#[tactic(auto, unfolding(ag_value::specs::operations::Arguments::leftmost))]
fn unary_value(alloc: Global, call: UnaryCall, argument: ValueRef<'_>) -> Result<Measured, NoMemory>
    requires { IsWell (ref_value argument) }
    ensures { IfOk result (λ m. m ≡ unary_call_result call (ref_value argument.entry)) }
{
    if call == UnaryCall::IsError {
        return Ok(Measured::new(truth(fault_of(argument).is_some())));
    }
    if let Some(code) = fault_of(argument) {
        return Ok(Measured::new(Value::Fault(code)));
    }
    match argument {
        ValueRef::Plain(value) => call_with_plain(alloc, call, value),
        ValueRef::Shared(text) => call_with_shared(alloc, call, text),
        ValueRef::Table(table) => call_with_table(alloc, call, table),
        ValueRef::List(list) => Ok(Measured::new(call_with_list(call, list))),
    }
}

/// Computes the value of a call of one argument other than `iserr` for a plain value that is not an
/// error.
#[tactic(auto, unfolding(ag_value::specs::operations::Arguments::leftmost))]
fn call_with_plain(alloc: Global, call: UnaryCall, argument: &Value) -> Result<Measured, NoMemory>
    requires no_iserr { call ≢ UnaryCall.IsError }
    requires no_fault { fault_of argument.now ≡ None }
    requires well { IsWell argument.now }
    ensures { IfOk result (λ m. m ≡ unary_call_result call argument.now) }
{
    let value = match call {
        UnaryCall::Len => length(argument),
        UnaryCall::Text => decimal(alloc, argument)?,
        UnaryCall::Number => number(argument),
        UnaryCall::Keys => keys(alloc, argument)?,
        // the argument is not an error here
        UnaryCall::IsError => truth(false),
    };
    Ok(Measured::new(value))
}

/// Computes the value of a call of one argument for a shared text. Only `number` takes memory, for
/// a copy.
#[tactic(auto, unfolding(ag_value::specs::operations::Arguments::leftmost))]
fn call_with_shared(
    alloc: Global,
    call: UnaryCall,
    argument: &SharedText,
) -> Result<Measured, NoMemory>
    ensures { IfOk result (λ m. m ≡ unary_call_result call (value.Text argument.now)) }
{
    let value = match call {
        UnaryCall::Len => Value::Num(argument.len() as i64),
        UnaryCall::Number => number(copied_text(alloc, argument)?.get()),
        UnaryCall::IsError => truth(false),
        UnaryCall::Text | UnaryCall::Keys => Value::Fault(ErrorCode::Kind),
    };
    Ok(Measured::new(value))
}

/// Computes the value of a call of one argument for a table that is a tree. Only `keys` takes
/// memory.
#[tactic(auto, unfolding(ag_value::specs::operations::Arguments::leftmost))]
fn call_with_table(
    alloc: Global,
    call: UnaryCall,
    argument: &TableTree,
) -> Result<Measured, NoMemory>
    ensures { IfOk result (λ m. m ≡ unary_call_result call (value.Table argument.now)) }
{
    let value = match call {
        UnaryCall::Len => table_trees::length(argument),
        UnaryCall::Keys => table_trees::keys(alloc, argument)?,
        UnaryCall::IsError => truth(false),
        UnaryCall::Text | UnaryCall::Number => Value::Fault(ErrorCode::Kind),
    };
    Ok(Measured::new(value))
}

/// Computes the value of a call of one argument for a list that is a tree.
#[tactic(auto, unfolding(ag_value::specs::operations::Arguments::leftmost))]
fn call_with_list(call: UnaryCall, argument: &ListTree) -> Value
    ensures value { result ≡ unary_call_result call (value.List argument.now) }
    ensures well { IsWell result }
{
    match call {
        UnaryCall::Len => list_trees::length(argument),
        UnaryCall::IsError => truth(false),
        UnaryCall::Text | UnaryCall::Number | UnaryCall::Keys => Value::Fault(ErrorCode::Kind),
    }
}

/// Computes the value of a call of two operands. Takes memory for a value that it makes, and for a
/// plain copy of a shared text or of a tree.
pub fn call_binary<'e>(
    alloc: Global,
    call: BinaryCall,
    first: Operand<'e>,
    second: Operand<'e>,
    bindings: &Bindings<'e>,
) -> Result<Operand<'e>, NoMemory>
    requires first { IsIn bindings.now first }
    requires second { IsIn bindings.now second }
    ensures value { IfOk result (Gives bindings.now (binary_call_result call) first.entry second.entry) }
    ensures within { IfOk result (λ o. IsIn bindings.now o) }
{
    match call {
        BinaryCall::Append => call_append(alloc, first, second, bindings),
        BinaryCall::OrElse => Ok(or_else(first, second, bindings)),
        _ => call_reading(alloc, call, &first, second.get(&*bindings), bindings),
    }
}

/// Computes `append(l, v)`. A tree shares its nodes with the result. A flat list is extended, or
/// becomes a tree if it has `MAX_FLAT_LIST` items or more. In both cases it is copied first if it
/// is lent or bound. The item is moved, or copied if it is lent, bound, shared or a tree.
#[tactic(auto, using(crate::proofs::Arguments::no_faults))]
fn call_append<'e>(
    alloc: Global,
    list: Operand<'e>,
    item: Operand<'e>,
    bindings: &Bindings<'e>,
) -> Result<Operand<'e>, NoMemory>
    requires list { IsIn bindings.now list }
    requires item { IsIn bindings.now item }
    ensures value { IfOk result (Gives bindings.now (binary_call_result BinaryCall.Append) list.entry item.entry) }
    ensures within { IfOk result (λ o. IsIn bindings.now o) }
{
    if let Some(code) = fault_of_two(list.get(&*bindings), item.get(&*bindings)) {
        return Ok(fault(code));
    }
    let item = item.into_owned(alloc, &*bindings)?;
    if let Some(count) = list.get(&*bindings).list_len() {
        if count >= MAX_FLAT_LIST {
            let list = list.into_list(alloc, &*bindings)?;
            return Ok(Operand::Held(list_trees::append(alloc, &list, item)?));
        }
    }
    let list = list.into_owned(alloc, &*bindings)?;
    Ok(Operand::owned(append(list, item)?))
}

/// Computes the value of a call that only reads its operands (`nth`, `join`, `get`, `has`). The
/// value of `nth` and `get` is a part of the first operand. This part is lent if the environment or
/// the expression lends the operand; otherwise it is copied.
fn call_reading<'e>(
    alloc: Global,
    call: BinaryCall,
    first: &Operand<'e>,
    second: ValueRef<'_>,
    bindings: &Bindings<'e>,
) -> Result<Operand<'e>, NoMemory>
    requires no_append { call ≢ BinaryCall.Append }
    requires no_orelse { call ≢ BinaryCall.OrElse }
    requires within { IsIn bindings.now first.now }
    requires second { IsWell (ref_value second) }
    ensures value { IfOk result (λ o. operand_value bindings.now o
        ≡ binary_call_result call (operand_value bindings.now first.now) (ref_value second.entry)) }
    ensures within { IfOk result (λ o. IsIn bindings.now o) }
{
    if let Some(code) = fault_of_two(first.get(&*bindings), second) {
        return Ok(fault(code));
    }
    let second = second.to_plain(alloc)?;
    if let Some(outside) = first.from_outside(&*bindings) {
        return Ok(Operand::Held(reading_result(alloc, call, outside, second.get())?));
    }
    let held = reading_result(alloc, call, first.get(&*bindings), second.get())?;
    Ok(Operand::owned(held.into_owned(alloc)?))
}

/// Computes the value of a call that only reads its arguments, for arguments that are not errors.
/// If the value is a part of the first argument, it is lent.
fn reading_result<'a>(
    alloc: Global,
    call: BinaryCall,
    first: ValueRef<'a>,
    second: &Value,
) -> Result<Held<'a>, NoMemory>
    requires no_append { call ≢ BinaryCall.Append }
    requires no_orelse { call ≢ BinaryCall.OrElse }
    requires no_fault { leftmost (ref_value first ∷ second.now ∷ []) ≡ None }
    requires first { IsWell (ref_value first) }
    ensures { IfOk result (λ h. held_value h
        ≡ binary_call_result call (ref_value first.entry) second.now) }
{
    match first {
        ValueRef::Plain(value) => read_plain(alloc, call, value, second),
        ValueRef::Table(table) => Ok(read_table(call, table, second)),
        ValueRef::List(list) => read_list(alloc, call, list, second),
        // no call reads a part of a text
        ValueRef::Shared(_) => Ok(Held::fault(ErrorCode::Kind)),
    }
}

/// Computes the value of `nth`, `join`, `get` or `has`, whose first argument is a table that is a
/// tree.
fn read_table<'a>(call: BinaryCall, table: &'a TableTree, second: &Value) -> Held<'a>
    requires no_append { call ≢ BinaryCall.Append }
    requires no_orelse { call ≢ BinaryCall.OrElse }
    requires no_fault { leftmost (value.Table table.now ∷ second.now ∷ []) ≡ None }
    ensures { held_value result ≡ binary_call_result call (value.Table table.now) second.now }
{
    match call {
        BinaryCall::Get => table_trees::get(table, second),
        BinaryCall::Has => Held::Owned(Measured::new(table_trees::has(table, second))),
        // `nth` and `join` take lists, and the other calls are not computed here
        _ => Held::fault(ErrorCode::Kind),
    }
}

/// Computes the value of `nth`, `join`, `get` or `has`, whose first argument is a list that is a
/// tree. Only `join` takes memory.
fn read_list<'a>(
    alloc: Global,
    call: BinaryCall,
    list: &'a ListTree,
    second: &Value,
) -> Result<Held<'a>, NoMemory>
    requires no_append { call ≢ BinaryCall.Append }
    requires no_orelse { call ≢ BinaryCall.OrElse }
    requires no_fault { leftmost (value.List list.now ∷ second.now ∷ []) ≡ None }
    ensures { IfOk result (λ h. held_value h ≡ binary_call_result call (value.List list.now) second.now) }
{
    match call {
        BinaryCall::Nth => Ok(list_trees::nth(list, second)),
        BinaryCall::Join => {
            let copied = copied_list(alloc, list)?;
            Ok(Held::Owned(join(alloc, copied.get(), second)?))
        }
        // `get` and `has` take tables, and the other calls are not computed here
        _ => Ok(Held::fault(ErrorCode::Kind)),
    }
}

/// Computes the value of `nth`, `join`, `get` or `has`, whose first argument is a plain value.
/// Only `join` takes memory.
fn read_plain<'a>(
    alloc: Global,
    call: BinaryCall,
    first: &'a Value,
    second: &Value,
) -> Result<Held<'a>, NoMemory>
    requires no_append { call ≢ BinaryCall.Append }
    requires no_orelse { call ≢ BinaryCall.OrElse }
    requires no_fault { leftmost (first.now ∷ second.now ∷ []) ≡ None }
    requires first { IsWell first.now }
    ensures { IfOk result (λ h. held_value h ≡ binary_call_result call first.now second.now) }
{
    match call {
        BinaryCall::Nth => Ok(nth(first, second)),
        BinaryCall::Join => Ok(Held::Owned(join(alloc, first, second)?)),
        BinaryCall::Get => Ok(get(first, second)),
        BinaryCall::Has => Ok(Held::Owned(Measured::new(has(first, second)))),
        // these calls are not computed here
        BinaryCall::Append | BinaryCall::OrElse => Ok(Held::fault(ErrorCode::Kind)),
    }
}

/// Computes `orelse(v, w)`.
fn or_else<'e>(value: Operand<'e>, other: Operand<'e>, bindings: &Bindings<'e>) -> Operand<'e>
    requires value { IsIn bindings.now value }
    requires other { IsIn bindings.now other }
    ensures value { Gives bindings.now (binary_call_result BinaryCall.OrElse) value.entry other.entry result }
    ensures within { IsIn bindings.now result }
{
    match value.fault(&*bindings) {
        Some(_) => other,
        None => value,
    }
}

/// Computes `put(t, k, v)`. A tree shares its nodes with the result. A flat table gets the pair, or
/// becomes a tree if it has more than `MAX_FLAT_TABLE` pairs. In both cases it is copied first if
/// it is lent or bound. The value is moved, or copied if it is lent, bound, shared or a tree.
#[tactic(auto, using(crate::proofs::Arguments::no_faults))]
pub fn call_put<'e>(
    alloc: Global,
    table: Operand<'e>,
    key: &Operand<'e>,
    item: Operand<'e>,
    bindings: &Bindings<'e>,
) -> Result<Operand<'e>, NoMemory>
    requires table { IsIn bindings.now table }
    requires key { IsIn bindings.now key.now }
    requires item { IsIn bindings.now item }
    ensures value { IfOk result (λ o. operand_value bindings.now o
        ≡ put (operand_value bindings.now table.entry) (operand_value bindings.now key.now)
        (operand_value bindings.now item.entry)) }
    ensures within { IfOk result (λ o. IsIn bindings.now o) }
{
    let key = key.get(&*bindings);
    if let Some(code) = fault_of_three(table.get(&*bindings), key, item.get(&*bindings)) {
        return Ok(fault(code));
    }
    let key = key.to_plain(alloc)?;
    let item = item.into_owned(alloc, &*bindings)?;
    if let ValueRef::Table(tree) = table.get(&*bindings) {
        return Ok(Operand::Held(table_trees::put(alloc, tree, key.get(), item)?));
    }
    let table = table.into_owned(alloc, &*bindings)?;
    Ok(Operand::Held(tables::put(alloc, table, key.get(), item)?))
}
