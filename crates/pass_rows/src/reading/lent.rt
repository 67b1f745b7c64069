//! Reads a record from a body that a device lends, in which large values may be shared.

ghost use Rattle.std.specs.Prelude.{◌<◌, ◌≤◌, ◌-◌, [], IfOk, IfSome, IsErrOf, IsTrue, take};
ghost use Rattle.ag_grammar.specs.declared.grammar.Item.TheVariants as item;
ghost use Rattle.pass_rows.specs.layouts.Contexts.{CanRun, setting};
ghost use Rattle.pass_rows.specs.reading.Reading.{AreTaken, IsBodyOf, IsNodeRead, IsNoRecord, IsRead, IsTaken};
ghost use Rattle.pass_rows.specs.reading.Reading.{PrependsTo};

use crate::layouts::context::PassContext;
use crate::layouts::hints::ChildLocation;
use crate::reading::record::{RecordFault, node_in, read_record};
use ag_carried::Carried;
use ag_grammar::{Grammar, Item};
use ag_value::NoMemory;
use shared_bytes::Body;
use std::alloc::Global;

/// The number of bytes of a body before its values: one for the kind, and two for the number.
const HEAD_BYTES: u64 = 3;

/// Appends the value of an attribute of pass `pass` to the values, in pass k. If `pass` is before
/// k, takes the value from the beginning of the body. If `pass` is k, appends 0 as a placeholder.
/// If `pass` is later, appends nothing. Returns the rest of the body. Returns `None` if the value
/// can't be read without a copy of the body. Fails with `NoMemory` if memory cannot be allocated.
fn take_value<'b>(
    alloc: Global,
    pass: u16,
    k: u16,
    body: Body<'b>,
    values: &mut Vec<Carried>,
) -> Result<Option<Body<'b>>, NoMemory>
    requires { 1 ≤ k }
    ensures taken { IfOk result (λ found. IfSome found (λ rest.
        IsTaken (k - 1) k pass body.entry rest values.old.items values.new.items)) }
    ensures prefix { PrependsTo values.old.items values.new.items }
{
    if pass > k {
        return Ok(Some(body));
    }
    if pass == k {
        values.push(Carried::number(0))?;
        return Ok(Some(body));
    }
    let Some((value, rest)) = body.take(alloc)? else {
        return Ok(None);
    };
    values.push(value)?;
    Ok(Some(rest))
}

/// Takes the values of a row, of attributes with these passes, as `take_value` does. Returns
/// whether all of them were taken and no bytes of the body are left. If not, some values may have
/// been appended. Fails with `NoMemory` if memory cannot be allocated.
fn take_row(
    alloc: Global,
    passes: &[u16],
    k: u16,
    body: Body<'_>,
    values: &mut Vec<Carried>,
) -> Result<bool, NoMemory>
    requires { 1 ≤ k }
    ensures taken { IfOk result (λ all. IsTrue all → AreTaken (k - 1) k passes.now body.entry []
        values.old.items values.new.items) }
    ensures prefix { PrependsTo values.old.items values.new.items }
{
    let mut rest = body;
    for pass in passes {
        let Some(after) = take_value(alloc, *pass, k, rest, values)? else {
            return Ok(false);
        };
        rest = after;
    }
    Ok(rest.len() == 0)
}

/// Returns the number of the production of a symbol's node in a body, and the rest of the body
/// after the number. Returns `None` if the body does not begin with the kind of a node and the
/// number of a production of the symbol, or if these bytes cannot be lent as a slice.
fn node_of<'b>(grammar: &Grammar, symbol: u16, body: Body<'b>) -> Option<(u16, Body<'b>)>
    ensures { IfSome result (λ found. IsBodyOf grammar.now symbol found.0 found.1 body.entry) }
{
    let (head, rest) = body.cut(HEAD_BYTES, 0)?;
    let (number, spellings) = node_in(grammar, symbol, head.as_slice()?)?;
    // never true, since the head has only the kind and the number; the contract needs it
    if !spellings.is_empty() {
        return None;
    }
    Some((number, rest))
}

/// Reads the body of a node of a symbol and appends its row to the values. Returns the number of
/// the node's production. Returns `None` if the record can't be read without a copy of the body;
/// some values may have been appended then. Fails with `NoMemory` if memory cannot be allocated.
fn read_node(
    context: &PassContext<'_>,
    symbol: u16,
    body: Body<'_>,
    values: &mut Vec<Carried>,
) -> Result<Option<u16>, NoMemory>
    requires { CanRun context.now }
    ensures read { IfOk result (λ found. IfSome found (λ p. IsNodeRead (setting context.now) symbol p
        body.entry values.old.items values.new.items)) }
    ensures prefix { PrependsTo values.old.items values.new.items }
{
    let Some((number, rest)) = node_of(context.setting.grammar, symbol, body) else {
        return Ok(None);
    };
    let row = context.row(number);
    if take_row(
        context.alloc,
        row.passes.as_slice(),
        context.setting.pass,
        rest,
        values,
    )? {
        return Ok(Some(number));
    }
    Ok(None)
}

/// Reads the record of an item from a copy of a body, as `read_record` does, and fails as it does.
fn read_copy(
    context: &PassContext<'_>,
    item: Item,
    location: ChildLocation,
    body: &Body<'_>,
    values: &mut Vec<Carried>,
) -> Result<u16, RecordFault>
    requires { CanRun context.now }
    ensures read { IfOk result (λ p. IsRead (setting context.now) item p
        body.now values.old.items values.new.items) }
    ensures none { IsErrOf result RecordFault.Damaged → IsNoRecord (setting context.now) item body.now }
{
    let mut bytes = Vec::new(context.alloc);
    let Ok(()) = body.append_to(&mut bytes) else {
        return Err(RecordFault::NoMemory);
    };
    read_record(context, item, location, bytes.as_slice(), values)
}

/// Reads the body of a node of a symbol in which values are shared, as `read_record` does, and
/// fails as it does.
fn read_shared_node(
    context: &PassContext<'_>,
    symbol: u16,
    location: ChildLocation,
    body: Body<'_>,
    values: &mut Vec<Carried>,
) -> Result<u16, RecordFault>
    requires { CanRun context.now }
    ensures read { IfOk result (λ p. IsRead (setting context.now) (item.Symbol symbol) p
        body.entry values.old.items values.new.items) }
    ensures none { IsErrOf result RecordFault.Damaged
        → IsNoRecord (setting context.now) (item.Symbol symbol) body.entry }
{
    let start = values.len();
    let Ok(found) = read_node(context, symbol, body.again(), values) else {
        return Err(RecordFault::NoMemory);
    };
    if let Some(number) = found {
        return Ok(number);
    }
    values.truncate(start);
    read_copy(context, Item::Symbol(symbol), location, &body, values)
}

/// Reads a body in which values are shared, as `read_record` does, and fails as it does.
fn read_shared(
    context: &PassContext<'_>,
    item: Item,
    location: ChildLocation,
    body: Body<'_>,
    values: &mut Vec<Carried>,
) -> Result<u16, RecordFault>
    requires { CanRun context.now }
    ensures read { IfOk result (λ p. IsRead (setting context.now) item p
        body.entry values.old.items values.new.items) }
    ensures none { IsErrOf result RecordFault.Damaged
        → IsNoRecord (setting context.now) item body.entry }
{
    match item {
        Item::Symbol(symbol) => read_shared_node(context, symbol, location, body, values),
        Item::Terminal(_) => read_copy(context, item, location, &body, values),
    }
}

/// Reads the record of an item from a body that a device lends, as `read_record` does from bytes,
/// and fails as it does.
#[inline(never)]
pub fn read_lent(
    context: &PassContext<'_>,
    item: Item,
    location: ChildLocation,
    body: Body<'_>,
    values: &mut Vec<Carried>,
) -> Result<u16, RecordFault>
    requires { CanRun context.now }
    ensures read { IfOk result (λ p. IsRead (setting context.now) item p
        body.entry values.old.items values.new.items) }
    ensures none { IsErrOf result RecordFault.Damaged
        → IsNoRecord (setting context.now) item body.entry }
{
    match body.as_slice() {
        Some(bytes) => read_record(context, item, location, bytes, values),
        None => read_shared(context, item, location, body, values),
    }
}
