//! Reads the body of a record: the values of a node, or the text of a token.

ghost use Rattle.std.specs.Prelude.{◌≡◌, ◌<◌, ◌≤◌, ◌-◌, ◌++◌, [], IfOk, IfSome, IsErrOf, None, OnOk};
ghost use Rattle.std.specs.Prelude.{List, MatchResult, ◌+◌, length, take, vec_capacity, vec_len, ℕ};
ghost use Rattle.ag_value.specs.Spelling.{spelling_of};
ghost use Rattle.ag_value.specs.Well.{IsWell};
ghost use Rattle.ag_value.specs.declared.value.Value.{Value as AttributeValue, Num};
ghost use Rattle.pass_rows.specs.layouts.Contexts.{CanRun, setting};
ghost use Rattle.pass_rows.specs.reading.Reading.{AreTaken, IsNoNodeBody, IsNoRow, IsNodeBody};
ghost use Rattle.pass_rows.specs.reading.Reading.{IsTaken, IsUntaken, IsNodeRead, IsNoNode, PrependsTo};
ghost use Rattle.pass_rows.specs.reading.Reading.{IsTextOf, IsTokenRead, IsNoToken, IsRead, IsNoRecord};
ghost use Rattle.pass_rows.specs.Faults.{record_fault_of};
ghost use Rattle.pass_rows.specs.Settings.{pass_setting};

use crate::layouts::context::PassContext;
use crate::layouts::hints::{ChildLocation, Hints, RowLocation};
use crate::layouts::rows::row_passes;
use crate::setting::Setting;
use ag_carried::Carried;
use ag_grammar::limits::MAX_TOKEN_BYTES;
use ag_grammar::{Grammar, Item, Terminal};
use ag_value::{Value, ValueFault, decode};
use std::alloc::Global;
use thiserror::Error;
use treefile::{Kind, split_body};

/// The reason why a record was not read.
#[derive(Clone, Copy, Debug, PartialEq, Eq, Error)]
pub enum RecordFault {
    /// The body is not a record of the expected item.
    #[error("damaged: the body is not a record of the expected item")]
    Damaged,
    /// Memory could not be allocated.
    #[error("NoMemory a request for memory was refused")]
    NoMemory,
}

impl From<ValueFault> for RecordFault {
    ghost from_gives = { λ fault e. e ≡ record_fault_of fault };

    fn from(fault: ValueFault) -> RecordFault {
        match fault {
            ValueFault::Malformed => RecordFault::Damaged,
            ValueFault::NoMemory => RecordFault::NoMemory,
        }
    }
}

/// Returns the number that is encoded at the beginning of some bytes, and the bytes after it;
/// `None` if they do not begin with the encoding of a number.
#[inline(always)]
fn number_in(bytes: &[u8]) -> Option<(i64, &[u8])>
    ensures spelled { IfSome result
        (λ found. bytes.now ≡ spelling_of (Num found.0) ++ found.1.now) }
    ensures well { IfSome result (λ found. IsWell (Num found.0)) }
{
    let [tag, following @ ..] = bytes else {
        return None;
    };
    if *tag != 0 || following.len() < 8 {
        return None;
    }
    let (prefix, rest) = following.split_at(8);
    let number = u64::from_be_bytes([
        prefix[0], prefix[1], prefix[2], prefix[3], prefix[4], prefix[5], prefix[6], prefix[7],
    ]);
    Some((number.cast_signed(), rest))
}

/// Reads a value as `Carried::read` does, fails as it does, and returns the value with the length
/// of its encoding in bytes. The candidate is a stored value that may be equal to the one that is
/// read. If the candidate is equal and can have several owners, the result shares it, and nothing
/// is decoded.
fn read_beside(
    alloc: Global,
    candidate: Option<&Carried>,
    input: &[u8],
) -> Result<(Carried, usize), ValueFault>
    ensures well { IfOk result (λ found. IsWell found.0) }
    ensures within { IfOk result (λ found. found.1 ≤ length input.now) }
    ensures spelled { IfOk result (λ found. take found.1 input.now ≡ spelling_of found.0) }
    ensures read { (value : AttributeValue) (rest : List ℕ) → IsWell value
        → input.now ≡ spelling_of value ++ rest
        → MatchResult result
        (λ found. found ≡ (value, length (spelling_of value)))
        (λ e. e ≡ ValueFault.NoMemory) }
{
    match candidate {
        Some(candidate) => candidate.read_beside(alloc, input),
        None => Carried::read(alloc, input),
    }
}

/// Takes the value of an attribute as `take_value` (below) does, in pass k, without allocating
/// memory. `pass` is the pass of the attribute. Requires reserved room for one more value. If the
/// value has to be read and the bytes do not begin with a number, returns `None` and leaves the
/// values unchanged.
#[inline(always)]
fn take_number<'b>(
    pass: u16,
    k: u16,
    bytes: &'b [u8],
    values: &mut Vec<Carried>,
) -> Option<&'b [u8]>
    requires writes { 1 ≤ k }
    requires room { vec_len values.old < vec_capacity values.old }
    ensures taken { IfSome result (λ rest. IsTaken (k - 1) k pass bytes.now rest.now
        values.old.items values.new.items) }
    ensures none { result ≡ None → (pass < k) × (values.new.items ≡ values.old.items) }
    ensures prefix { PrependsTo values.old.items values.new.items }
    ensures len { vec_len values.new ≤ vec_len values.old + 1 }
    ensures capacity { vec_capacity values.new ≡ vec_capacity values.old }
{
    if pass < k {
        let Some((number, rest)) = number_in(bytes) else {
            return None;
        };
        values.push_reserved(Carried::number(number));
        return Some(rest);
    }
    if pass == k {
        values.push_reserved(Carried::number(0));
        return Some(bytes);
    }
    Some(bytes)
}

/// Returns whether some bytes begin as the encoding of an error does. An error is never shared.
fn is_error(bytes: &[u8]) -> bool {
    matches!(bytes, [4, ..])
}

/// Takes the value of an attribute of an earlier pass from the bytes, and appends it to the values.
/// `row` is the row to which the value belongs. Returns the rest of the bytes. Fails with `Damaged`
/// if the bytes do not begin with a value, and with `NoMemory` if memory cannot be allocated.
fn read_value<'b>(
    alloc: Global,
    pass: u16,
    bytes: &'b [u8],
    values: &mut Vec<Carried>,
    row: &RowLocation<'_>,
) -> Result<&'b [u8], RecordFault>
    requires known { pass < row.now.pass }
    ensures taken { IfOk result (λ rest. IsTaken (row.now.pass - 1) row.now.pass pass
        bytes.now rest.now values.old.items values.new.items) }
    ensures untaken { IsErrOf result RecordFault.Damaged
        → IsUntaken (row.now.pass - 1) pass bytes.now }
    ensures prefix { PrependsTo values.old.items values.new.items }
{
    let candidate = if is_error(bytes) {
        None
    } else {
        row.candidate(values.as_slice())
    };
    let (value, length) = read_beside(alloc, candidate, bytes)?;
    let Ok(()) = values.push(value) else {
        return Err(RecordFault::NoMemory);
    };
    Ok(&bytes[length..])
}

/// Appends the value of an attribute of pass `pass` to the values, in pass k (`row.pass`). If
/// `pass` is before k, takes the value from the beginning of the bytes. If `pass` is k, appends 0
/// as a placeholder. If `pass` is later, appends nothing. Returns the rest of the bytes. Fails as
/// `read_value` does.
fn take_value<'b>(
    alloc: Global,
    pass: u16,
    bytes: &'b [u8],
    values: &mut Vec<Carried>,
    row: &RowLocation<'_>,
) -> Result<&'b [u8], RecordFault>
    requires { 1 ≤ row.now.pass }
    ensures taken { IfOk result (λ rest. IsTaken (row.now.pass - 1) row.now.pass pass
        bytes.now rest.now values.old.items values.new.items) }
    ensures untaken { IsErrOf result RecordFault.Damaged
        → IsUntaken (row.now.pass - 1) pass bytes.now }
    ensures prefix { PrependsTo values.old.items values.new.items }
{
    let Ok(()) = values.reserve(1) else {
        return Err(RecordFault::NoMemory);
    };
    match take_number(pass, row.pass, bytes, values) {
        Some(rest) => Ok(rest),
        None => read_value(alloc, pass, bytes, values, row),
    }
}

/// Fails with `Damaged` if bytes are left after the last value of a row.
#[inline(always)]
fn check_end(rest: &[u8]) -> Result<(), RecordFault>
    ensures end { OnOk result (rest.now ≡ []) }
    ensures left { IsErrOf result RecordFault.Damaged → length rest.now ≡ 0 → ⊥ }
{
    if !rest.is_empty() {
        return Err(RecordFault::Damaged);
    }
    Ok(())
}

/// Takes the last values of a row, of attributes with these passes, from the bytes, as `take_value`
/// does. Fails as `take_value` does, and with `Damaged` if bytes are left after the values.
#[inline(never)]
fn take_values(
    alloc: Global,
    passes: &[u16],
    bytes: &[u8],
    values: &mut Vec<Carried>,
    row: RowLocation<'_>,
) -> Result<(), RecordFault>
    requires { 1 ≤ row.pass }
    ensures taken { OnOk result (AreTaken (row.entry.pass - 1) row.entry.pass passes.now bytes.now []
        values.old.items values.new.items) }
    ensures none { IsErrOf result RecordFault.Damaged
        → IsNoRow (row.entry.pass - 1) passes.now bytes.now }
    ensures prefix { PrependsTo values.old.items values.new.items }
{
    let mut rest = bytes;
    for pass in passes {
        rest = take_value(alloc, *pass, rest, values, &row)?;
    }
    check_end(rest)
}

/// Takes the values of a row as `take_values` does, and fails as it does. `take_number`, which is
/// faster, takes the values before the first one that has to be read and is not a number.
#[inline(always)]
fn take_row(
    alloc: Global,
    passes: &[u16],
    bytes: &[u8],
    values: &mut Vec<Carried>,
    row: RowLocation<'_>,
) -> Result<(), RecordFault>
    requires { 1 ≤ row.pass }
    ensures taken { OnOk result (AreTaken (row.entry.pass - 1) row.entry.pass passes.now bytes.now []
        values.old.items values.new.items) }
    ensures none { IsErrOf result RecordFault.Damaged
        → IsNoRow (row.entry.pass - 1) passes.now bytes.now }
    ensures prefix { PrependsTo values.old.items values.new.items }
{
    let Ok(()) = values.reserve(passes.len()) else {
        return Err(RecordFault::NoMemory);
    };
    let mut rest = bytes;
    for (index, pass) in passes.iter().enumerate() {
        let Some(after) = take_number(*pass, row.pass, rest, values) else {
            return take_values(alloc, &passes[index..], rest, values, row);
        };
        rest = after;
    }
    check_end(rest)
}

/// Returns the number of the production in the body of a symbol's node, and the bytes after this
/// number. (In a record, they encode the values.) Returns `None` if the body does not begin with
/// the kind of a node and the number of a production of the symbol.
#[inline(always)]
pub fn node_in<'b>(grammar: &Grammar, symbol: u16, body: &'b [u8]) -> Option<(u16, &'b [u8])>
    ensures some { IfSome result (λ found.
        IsNodeBody grammar.now symbol found.0 found.1.now body.now) }
    ensures none { result ≡ None → IsNoNodeBody grammar.now symbol body.now }
    // The type `Grammar` contains only such grammars; `read_node` needs this fact.
    ensures few { length grammar.now.productions ≤ 65536 }
{
    let productions = grammar.productions();
    let Some((Kind::Node, number, spellings)) = split_body(body) else {
        return None;
    };
    let production = productions.get(number as usize)?;
    if production.left != symbol {
        return None;
    }
    Some((number, spellings))
}

/// Reads the body of a node of a symbol from the file of pass k - 1, where k is the setting's pass,
/// and appends its row to the values: first the node's own values, then the copies of its children.
/// For each own value and each copy of pass k, the row has 0 as a placeholder. Returns the number
/// of the node's production.
///
/// Fails with `Damaged` if the body is not the record of a node of the symbol in a file of pass
/// k - 1. Such a record has a production of the symbol, a well value for each own attribute and
/// each copy of a pass before k, and no bytes after them. Fails with `NoMemory` if memory cannot be
/// allocated. After a failure the old values are unchanged, and others may follow them. Allocates
/// memory for the values read, and for the passes of the production's values.
pub fn read_node(
    alloc: Global,
    setting: &Setting<'_>,
    symbol: u16,
    body: &[u8],
    values: &mut Vec<Carried>,
) -> Result<u16, RecordFault>
    requires { 1 ≤ setting.now.pass }
    ensures read { IfOk result (λ p. IsNodeRead (pass_setting setting.now) symbol p
        body.now values.old.items values.new.items) }
    ensures none { IsErrOf result RecordFault.Damaged →
        IsNoNode (pass_setting setting.now) symbol body.now }
    ensures prefix { PrependsTo values.old.items values.new.items }
{
    let Some((number, spellings)) = node_in(setting.grammar, symbol, body) else {
        return Err(RecordFault::Damaged);
    };
    let production = &setting.grammar.productions()[number as usize];
    let Ok(passes) = row_passes(alloc, setting, production) else {
        return Err(RecordFault::NoMemory);
    };
    let hints = Hints::none(alloc);
    let row = RowLocation {
        hints: &&hints,
        pass: setting.pass,
        production: number,
        parent: ChildLocation::default(),
        start: values.len(),
    };
    take_row(alloc, passes.as_slice(), spellings, values, row)?;
    Ok(number)
}

/// Reads the body of a node as `read_node` does, and fails as it does. Takes the passes of the
/// values from the layout of the node's production, and uses hints. `location` has the production
/// of the node's parent and the node's place there.
#[inline(always)]
fn read_node_by_layout(
    context: &PassContext<'_>,
    symbol: u16,
    location: ChildLocation,
    body: &[u8],
    values: &mut Vec<Carried>,
) -> Result<u16, RecordFault>
    requires { CanRun context.now }
    ensures read { IfOk result (λ p. IsNodeRead (setting context.now) symbol p
        body.now values.old.items values.new.items) }
    ensures none { IsErrOf result RecordFault.Damaged → IsNoNode (setting context.now) symbol body.now }
{
    let Some((number, spellings)) = node_in(context.setting.grammar, symbol, body) else {
        return Err(RecordFault::Damaged);
    };
    let layout = context.row(number);
    let row = RowLocation {
        hints: &context.hints,
        pass: context.setting.pass,
        production: number,
        parent: location,
        start: values.len(),
    };
    take_row(
        context.alloc,
        layout.passes.as_slice(),
        spellings,
        values,
        row,
    )?;
    Ok(number)
}

/// Returns the text in the body of a token of a class. Fails with `Damaged` if the body is not that
/// of a token of the class, or if the text has more than `MAX_TOKEN_BYTES` bytes. Fails with
/// `NoMemory` if memory cannot be allocated.
#[inline(always)]
pub fn text_in(alloc: Global, class: u16, body: &[u8]) -> Result<Value, RecordFault>
    ensures text { IfOk result (λ v. IsTextOf class body.now v) }
    ensures none { IsErrOf result RecordFault.Damaged → IsNoToken class body.now }
{
    let Some((Kind::Token, number, spelling)) = split_body(body) else {
        return Err(RecordFault::Damaged);
    };
    let (value, length) = decode(alloc, spelling)?;
    if number != class || length != spelling.len() {
        return Err(RecordFault::Damaged);
    }
    let Value::Text(text) = value else {
        return Err(RecordFault::Damaged);
    };
    if text.as_str().len() > MAX_TOKEN_BYTES {
        return Err(RecordFault::Damaged);
    }
    Ok(Value::Text(text))
}

/// Reads the body of a token of a class, and appends its text to the values. Fails as `text_in`
/// does.
#[inline(always)]
fn read_token(
    alloc: Global,
    class: u16,
    body: &[u8],
    values: &mut Vec<Carried>,
) -> Result<(), RecordFault>
    ensures read { OnOk result (IsTokenRead class body.now values.old.items values.new.items) }
    ensures none { IsErrOf result RecordFault.Damaged → IsNoToken class body.now }
{
    let text = text_in(alloc, class, body)?;
    let Ok(text) = Carried::new(alloc, text) else {
        return Err(RecordFault::NoMemory);
    };
    let Ok(()) = values.push(text) else {
        return Err(RecordFault::NoMemory);
    };
    Ok(())
}

/// Reads the record of an item, and appends its row to the values. `location` says where the item
/// is, for the hints. Returns the number in the record: that of the production, or that of the
/// token's class. Fails with `Damaged` if the body is not a record of the item; a literal has no
/// record. Fails with `NoMemory` if memory cannot be allocated.
#[inline(always)]
pub fn read_record(
    context: &PassContext<'_>,
    item: Item,
    location: ChildLocation,
    body: &[u8],
    values: &mut Vec<Carried>,
) -> Result<u16, RecordFault>
    requires { CanRun context.now }
    ensures read { IfOk result (λ p. IsRead (setting context.now) item p
        body.now values.old.items values.new.items) }
    ensures none { IsErrOf result RecordFault.Damaged → IsNoRecord (setting context.now) item body.now }
{
    match item {
        Item::Symbol(symbol) => read_node_by_layout(context, symbol, location, body, values),
        Item::Terminal(Terminal::Class(class)) => {
            read_token(context.alloc, class, body, values)?;
            Ok(class)
        }
        Item::Terminal(Terminal::Literal(_)) => Err(RecordFault::Damaged),
    }
}
