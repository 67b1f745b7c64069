//! Values that are passed from node to node.

ghost use Rattle.std.specs.Prelude.{◌≡◌, ◌++◌, ◌↔◌, ◌≤◌, ℤ, length, take, IfOk, IfSome, IsTrue, List};
ghost use Rattle.std.specs.Prelude.{MatchOption, MatchResult, OnErr, OnOk, ℕ};
ghost use Rattle.ag_value.specs.Measure.{weight_of};
ghost use Rattle.ag_value.specs.Spelling.{spelling_of};
ghost use Rattle.ag_value.specs.Well.{IsWell};
ghost use Rattle.ag_value.specs.declared.value.ErrorCode.{ErrorCode};
ghost use Rattle.ag_value.specs.declared.value.Value.{Value as AttributeValue, Fault, Num};
ghost use Rattle.ag_value.specs.declared.value.Value.{List as ListValue, Table as TableValue};
ghost use Rattle.ag_value.specs.declared.value.Value.{Text as TextValue};
ghost use Rattle.ag_carried.specs.Prefixes.{IsPrefix};

use crate::encoded::Encoded;
use crate::shared_text::{SharedText, prefix_of_text};
use crate::spelled::Spelled;
use crate::trees::{prefix_of_list, prefix_of_table};
use ag_value::{ErrorCode, NoMemory, Value, ValueFault, copy, decode, encode, same, weight};
use list_tree::ListTree;
use std::alloc::Global;
use std::marker::Model;
use std::mem::replace;
use std::rc::Rc;
use table_tree::TableTree;

/// The greatest weight, in bytes, of a `Value` that is stored without its encoding. A heavier one
/// takes one more allocation, for its encoding.
const MAX_SMALL_WEIGHT: u64 = 24;

/// The greatest length in bytes of a text that is stored without being weighed. The weight of such
/// a text is its length plus five, so at most 21.
const MAX_SMALL_TEXT: usize = 16;

/// How a value is stored.
#[derive(Drop)]
enum Form {
    /// A number.
    Number(i64),
    /// An error.
    Fault(ErrorCode),
    /// A small value: it weighs at most `MAX_SMALL_WEIGHT`, and is neither a number nor an error.
    /// No invariant says so.
    Small(Rc<Value>),
    /// A large value beside its encoding.
    Spelled(Rc<Spelled>),
    /// A shared text, whose pieces other texts may share.
    Text(SharedText),
    /// A table that is a tree, whose nodes other tables may share.
    Table(TableTree),
    /// A list that is a tree, whose nodes other lists may share.
    List(ListTree),
}

/// A value that is passed from node to node. Contracts see the value. Numbers and errors are stored
/// inline, and every other value is shared by its owners: `share` neither copies nor walks it. A
/// large value is stored beside its encoding, which `encode` copies. A `Carried` has 24 bytes.
///
/// No invariant says that the value is well: a `Form::Small` can store any `Value`. So `encode`
/// requires a well value.
#[derive(Drop)]
pub struct Carried {
    form: Form,
}

impl Model for Carried {
    ghost use Rattle.std.specs.Coded.{codes};
    ghost use Rattle.ag_value.specs.declared.value.Value.{Value as AttributeValue};
    // what the prover knows of the Rust type `Value`; only `coded` uses it
    ghost use Rattle.ag_value.specs.contracts.value.Value as value_row;

    ghost Value = { AttributeValue };

    ghost coded = { Prim.hlevel (codes, value_row.the_row.coded) };

    ghost use Rattle.ag_carried.specs.Carried.{form_value};

    ghost view = { λ c. form_value c.form };
}

/// Returns whether a value need not be weighed, since it surely weighs at most `MAX_SMALL_WEIGHT`:
/// a number, an error, a text of at most `MAX_SMALL_TEXT` bytes, an empty list or table.
fn is_light(value: &Value) -> bool {
    match value {
        Value::Num(_) => true,
        Value::Fault(_) => true,
        Value::Text(text) => text.as_str().len() <= MAX_SMALL_TEXT,
        Value::List(items) => items.as_slice().is_empty(),
        Value::Table(pairs) => pairs.as_slice().is_empty(),
    }
}

/// Returns the number that a value is, or `None` for a value of another kind.
fn number_in(value: &Value) -> Option<i64>
    ensures { MatchOption result ((n : ℤ) → value.now ≡ Num n → ⊥) (λ n. value.now ≡ Num n) }
{
    match value {
        Value::Num(number) => Some(*number),
        _ => None,
    }
}

/// Returns the error that a value is, or `None` for a value of another kind.
fn fault_in(value: &Value) -> Option<ErrorCode>
    ensures { MatchOption result ((e : ErrorCode) → value.now ≡ Fault e → ⊥) (λ e. value.now ≡ Fault e) }
{
    match value {
        Value::Fault(code) => Some(*code),
        _ => None,
    }
}

/// Stores a value without its encoding: a number or an error inline, and another value in shared
/// memory. Fails with NoMemory.
#[inline(always)]
fn small_value(alloc: Global, value: Value) -> Result<Carried, NoMemory>
    ensures { IfOk result (λ c. c ≡ value) }
{
    match value {
        Value::Num(number) => Ok(Carried::number(number)),
        Value::Fault(code) => Ok(Carried::fault(code)),
        other => in_shared_memory(alloc, other),
    }
}

/// Moves a value into shared memory. Fails with NoMemory. A function of its own, so that
/// `small_value`, which is inlined, is short.
#[inline(never)]
fn in_shared_memory(alloc: Global, value: Value) -> Result<Carried, NoMemory>
    ensures { IfOk result (λ c. c ≡ value) }
{
    let shared = Rc::new(alloc, value)?;
    Ok(Carried {
        form: Form::Small(shared),
    })
}

/// Moves a value and its encoding into shared memory. Fails with NoMemory.
fn shared_value(alloc: Global, spelled: Spelled) -> Result<Carried, NoMemory>
    ensures { IfOk result (λ c. c ≡ spelled) }
{
    let shared = Rc::new(alloc, spelled)?;
    Ok(Carried {
        form: Form::Spelled(shared),
    })
}

/// Returns a value as a carried one, as `Carried::new` does. Fails with NoMemory. A function of its
/// own, so that `Carried::new`, which is inlined, is short.
#[inline(never)]
fn store(alloc: Global, value: Value) -> Result<Carried, NoMemory>
    requires { IsWell value }
    ensures { IfOk result (λ c. c ≡ value) }
{
    if is_light(&value) {
        return small_value(alloc, value);
    }
    let weight = weight(&value);
    store_by_weight(alloc, value, weight)
}

/// Returns a value as a carried one, stored beside its encoding if `weight` exceeds
/// `MAX_SMALL_WEIGHT`. Fails with NoMemory.
fn store_by_weight(alloc: Global, value: Value, weight: u64) -> Result<Carried, NoMemory>
    requires { IsWell value }
    ensures { IfOk result (λ c. c ≡ value) }
{
    if weight <= MAX_SMALL_WEIGHT {
        return small_value(alloc, value);
    }
    shared_value(alloc, Spelled::new(alloc, value, weight)?)
}

/// Drops a value. A function of its own, so that its callers, which are inlined, are short.
#[inline(never)]
fn drop_form(form: Form) {
    drop(form);
}

impl Carried {
    /// Returns a number. Takes no memory.
    #[inline(always)]
    pub fn number(number: i64) -> Carried
        ensures { result ≡ Num number }
    {
        Carried {
            form: Form::Number(number),
        }
    }

    /// Returns an error. Takes no memory.
    #[inline(always)]
    pub fn fault(code: ErrorCode) -> Carried
        ensures { result ≡ Fault code }
    {
        Carried {
            form: Form::Fault(code),
        }
    }

    /// Returns a well value as a carried one. Takes memory unless it is a number or an error, and
    /// encodes a large one. Fails with NoMemory.
    #[inline(always)]
    pub fn new(alloc: Global, value: Value) -> Result<Carried, NoMemory>
        requires { IsWell value }
        ensures { IfOk result (λ c. c ≡ value) }
    {
        match value {
            Value::Num(number) => Ok(Carried::number(number)),
            Value::Fault(code) => Ok(Carried::fault(code)),
            other => store(alloc, other),
        }
    }

    /// Returns a well value as a carried one, as `new` does, but does not weigh it: `weight` is its
    /// weight in bytes. Fails with NoMemory.
    pub fn with_weight(alloc: Global, value: Value, weight: u64) -> Result<Carried, NoMemory>
        requires well { IsWell value }
        requires weight { weight ≡ weight_of value }
        ensures { IfOk result (λ c. c ≡ value) }
    {
        store_by_weight(alloc, value, weight)
    }

    /// Returns a shared text as a carried value. Takes no memory.
    pub fn from_text(text: SharedText) -> Carried
        ensures { result ≡ TextValue text }
    {
        Carried {
            form: Form::Text(text),
        }
    }

    /// Returns a table that is a tree as a carried value. Takes no memory.
    pub fn from_table(table: TableTree) -> Carried
        ensures { result ≡ TableValue table }
    {
        Carried {
            form: Form::Table(table),
        }
    }

    /// Returns a list that is a tree as a carried value. Takes no memory.
    pub fn from_list(list: ListTree) -> Carried
        ensures { result ≡ ListValue list }
    {
        Carried {
            form: Form::List(list),
        }
    }

    /// Returns the shared text, or `None` if the value is stored otherwise.
    #[inline(always)]
    pub fn as_text(&self) -> Option<&SharedText>
        ensures { IfSome result (λ t. self.now ≡ TextValue t.now) }
    {
        match &self.form {
            Form::Text(text) => Some(text),
            _ => None,
        }
    }

    /// Returns the table as a tree, or `None` if the value is stored otherwise.
    #[inline(always)]
    pub fn as_table(&self) -> Option<&TableTree>
        ensures { IfSome result (λ t. self.now ≡ TableValue t.now) }
    {
        match &self.form {
            Form::Table(table) => Some(table),
            _ => None,
        }
    }

    /// Returns the list as a tree, or `None` if the value is stored otherwise.
    #[inline(always)]
    pub fn as_list(&self) -> Option<&ListTree>
        ensures { IfSome result (λ l. self.now ≡ ListValue l.now) }
    {
        match &self.form {
            Form::List(list) => Some(list),
            _ => None,
        }
    }

    /// Returns the value, or `None` if it is a number, an error, a shared text or a tree, which are
    /// not stored as a `Value`; `to_value` returns those.
    #[inline(always)]
    pub fn as_value(&self) -> Option<&Value>
        ensures { IfSome result (λ v. v.now ≡ self.now) }
    {
        match &self.form {
            Form::Small(value) => Some(&**value),
            Form::Spelled(spelled) => Some(spelled.value()),
            Form::Number(_) | Form::Fault(_) => None,
            Form::Text(_) | Form::Table(_) | Form::List(_) => None,
        }
    }

    /// Returns the number, or `None` for a value of another kind. Looks also at a stored `Value`:
    /// no invariant says that a number is always stored as `Form::Number`.
    #[inline(always)]
    pub fn as_number(&self) -> Option<i64>
        ensures { MatchOption result ((n : ℤ) → self.now ≡ Num n → ⊥) (λ n. self.now ≡ Num n) }
    {
        match &self.form {
            Form::Number(number) => Some(*number),
            _ => self.number_in_value(),
        }
    }

    /// Returns the number, as `as_number` does. A function of its own, so that `as_number`, which
    /// is inlined, is short.
    #[inline(never)]
    fn number_in_value(&self) -> Option<i64>
        ensures { MatchOption result ((n : ℤ) → self.now ≡ Num n → ⊥) (λ n. self.now ≡ Num n) }
    {
        match &self.form {
            Form::Number(number) => Some(*number),
            Form::Small(value) => number_in(&**value),
            Form::Spelled(spelled) => number_in(spelled.value()),
            Form::Fault(_) | Form::Text(_) | Form::Table(_) | Form::List(_) => None,
        }
    }

    /// Returns the error, or `None` for a value of another kind. Looks also at a stored `Value`, as
    /// `as_number` does.
    #[inline(always)]
    pub fn as_fault(&self) -> Option<ErrorCode>
        ensures { MatchOption result ((e : ErrorCode) → self.now ≡ Fault e → ⊥) (λ e. self.now ≡ Fault e) }
    {
        match &self.form {
            Form::Fault(code) => Some(*code),
            Form::Small(value) => fault_in(&**value),
            Form::Spelled(spelled) => fault_in(spelled.value()),
            Form::Number(_) | Form::Text(_) | Form::Table(_) | Form::List(_) => None,
        }
    }

    /// Replaces the value by a number. Overwrites the old value if it is a number, and drops it
    /// otherwise.
    #[inline(always)]
    pub fn set_number(&mut self, number: i64)
        ensures { self.new ≡ Num number }
    {
        match &mut self.form {
            Form::Number(old) => *old = number,
            other => drop_form(replace(other, Form::Number(number))),
        }
    }

    /// Drops the value, as `drop` does. For a number or an error, which owns no memory, it calls
    /// nothing.
    #[inline(always)]
    pub fn release(self) {
        let Carried { form } = self;
        match form {
            Form::Number(_) | Form::Fault(_) => {}
            other => drop_form(other),
        }
    }

    /// Returns the same value for one more owner. Takes no memory: the allocator is not used. Fails
    /// with NoMemory if the value has 2^64 - 1 owners.
    #[inline(always)]
    pub fn share(&self, _alloc: Global) -> Result<Carried, NoMemory>
        ensures { IfOk result (λ c. c ≡ self.now) }
    {
        match &self.form {
            Form::Number(number) => Ok(Carried::number(*number)),
            Form::Fault(code) => Ok(Carried::fault(*code)),
            _ => self.share_any(),
        }
    }

    /// Returns the same value for one more owner, as `share` does. A function of its own, so that
    /// `share`, which is inlined, is short.
    #[inline(never)]
    fn share_any(&self) -> Result<Carried, NoMemory>
        ensures { IfOk result (λ c. c ≡ self.now) }
    {
        let form = match &self.form {
            Form::Number(number) => Form::Number(*number),
            Form::Fault(code) => Form::Fault(*code),
            Form::Small(value) => Form::Small(value.clone()?),
            Form::Spelled(spelled) => Form::Spelled(spelled.clone()?),
            Form::Text(text) => Form::Text(text.share()?),
            Form::Table(table) => Form::Table(table.share()?),
            Form::List(list) => Form::List(list.share()?),
        };
        Ok(Carried { form })
    }

    /// Returns a value beside its encoding as a carried one.
    pub(crate) fn of_spelled(spelled: Rc<Spelled>) -> Carried
        ensures { result ≡ spelled.value }
    {
        Carried {
            form: Form::Spelled(spelled),
        }
    }

    /// Returns whether the value is a large one, a shared text or a tree. If it is, `encoded`
    /// returns the encoding. (A small value can have several owners too, but `encoded` returns
    /// `None` for it.)
    #[inline(always)]
    pub fn is_shared(&self) -> bool {
        matches!(
            &self.form,
            Form::Spelled(_) | Form::Text(_) | Form::Table(_) | Form::List(_)
        )
    }

    /// Returns the encoding of a large value, of a shared text or of a tree, for one more owner, or
    /// `None` for another value. Takes no memory, and fails with NoMemory if the value has 2^64 - 1
    /// owners.
    #[inline(always)]
    pub fn encoded(&self) -> Result<Option<Encoded>, NoMemory>
        ensures { IfOk result (λ found. IfSome found (λ e. e ≡ spelling_of self.now)) }
    {
        match &self.form {
            Form::Spelled(spelled) => Ok(Some(Encoded::of(spelled.clone()?))),
            Form::Text(text) => Ok(Some(Encoded::of_text(text.share()?))),
            Form::Table(table) => Ok(Some(Encoded::of_table(table.share()?))),
            Form::List(list) => Ok(Some(Encoded::of_list(list.share()?))),
            Form::Number(_) | Form::Fault(_) | Form::Small(_) => Ok(None),
        }
    }

    /// Returns a copy of the value. Fails with NoMemory.
    pub fn to_value(&self, alloc: Global) -> Result<Value, NoMemory>
        ensures { IfOk result (λ v. v ≡ self.now) }
    {
        match &self.form {
            Form::Number(number) => Ok(Value::Num(*number)),
            Form::Fault(code) => Ok(Value::Fault(*code)),
            Form::Small(value) => copy(alloc, &**value),
            Form::Spelled(spelled) => copy(alloc, spelled.value()),
            Form::Text(text) => Ok(Value::Text(text.to_text(alloc)?)),
            Form::Table(table) => Ok(Value::Table(table.to_table(alloc)?)),
            Form::List(list) => Ok(Value::List(list.to_list(alloc)?)),
        }
    }

    /// Returns the value. Takes memory, for a copy, only if the value has other owners, is a shared
    /// text or is a tree. Fails with NoMemory.
    pub fn into_value(self, alloc: Global) -> Result<Value, NoMemory>
        ensures { IfOk result (λ v. v ≡ self) }
    {
        let Carried { form } = self;
        match form {
            Form::Number(number) => Ok(Value::Num(number)),
            Form::Fault(code) => Ok(Value::Fault(code)),
            Form::Small(shared) => match Rc::try_unwrap(shared) {
                Ok(value) => Ok(value),
                Err(shared) => copy(alloc, &*shared),
            },
            Form::Spelled(shared) => match Rc::try_unwrap(shared) {
                Ok(spelled) => Ok(spelled.into_value()),
                Err(shared) => copy(alloc, shared.value()),
            },
            Form::Text(text) => Ok(Value::Text(text.to_text(alloc)?)),
            Form::Table(table) => Ok(Value::Table(table.to_table(alloc)?)),
            Form::List(list) => Ok(Value::List(list.to_list(alloc)?)),
        }
    }

    /// Returns whether two values are equal. Takes no memory.
    #[inline(always)]
    pub fn same(&self, other: &Carried) -> bool
        ensures { IsTrue result ↔ (self.now ≡ other.now) }
    {
        if let (Form::Number(one), Form::Number(another)) = (&self.form, &other.form) {
            return *one == *another;
        }
        self.same_of_any_kind(other)
    }

    /// Returns whether two values are equal, as `same` does. A function of its own, so that `same`,
    /// which is inlined, is short.
    #[inline(never)]
    fn same_of_any_kind(&self, other: &Carried) -> bool
        ensures { IsTrue result ↔ (self.now ≡ other.now) }
    {
        match (&self.form, &other.form) {
            (Form::Spelled(one), Form::Spelled(another)) => one.same(another),
            (Form::Number(number), _) => other.is_number(*number),
            (_, Form::Number(number)) => self.is_number(*number),
            (Form::Fault(code), _) => other.is_fault(*code),
            (_, Form::Fault(code)) => self.is_fault(*code),
            (Form::Small(one), Form::Small(another)) => same(&**one, &**another),
            (Form::Small(one), Form::Spelled(another)) => same(&**one, another.value()),
            (Form::Spelled(one), Form::Small(another)) => same(one.value(), &**another),
            (Form::Text(one), Form::Text(another)) => one.same(another),
            (Form::Text(text), Form::Small(value)) => text.is_value(&**value),
            (Form::Text(text), Form::Spelled(spelled)) => text.is_value(spelled.value()),
            (Form::Small(value), Form::Text(text)) => text.is_value(&**value),
            (Form::Spelled(spelled), Form::Text(text)) => text.is_value(spelled.value()),
            (Form::Table(one), Form::Table(another)) => one.same(another),
            (Form::Table(table), Form::Small(value)) => table.is_value(&**value),
            (Form::Table(table), Form::Spelled(spelled)) => table.is_value(spelled.value()),
            (Form::Small(value), Form::Table(table)) => table.is_value(&**value),
            (Form::Spelled(spelled), Form::Table(table)) => table.is_value(spelled.value()),
            (Form::List(one), Form::List(another)) => one.same(another),
            (Form::List(list), Form::Small(value)) => list.is_value(&**value),
            (Form::List(list), Form::Spelled(spelled)) => list.is_value(spelled.value()),
            (Form::Small(value), Form::List(list)) => list.is_value(&**value),
            (Form::Spelled(spelled), Form::List(list)) => list.is_value(spelled.value()),
            (Form::Table(_), Form::Text(_)) | (Form::Text(_), Form::Table(_)) => false,
            (Form::Table(_), Form::List(_)) | (Form::List(_), Form::Table(_)) => false,
            (Form::Text(_), Form::List(_)) | (Form::List(_), Form::Text(_)) => false,
        }
    }

    /// Returns whether the value is the number `number`.
    fn is_number(&self, number: i64) -> bool
        ensures { IsTrue result ↔ (self.now ≡ Num number) }
    {
        match self.as_number() {
            Some(own) => own == number,
            None => false,
        }
    }

    /// Returns whether the value is the error `code`.
    fn is_fault(&self, code: ErrorCode) -> bool
        ensures { IsTrue result ↔ (self.now ≡ Fault code) }
    {
        match self.as_fault() {
            Some(own) => own == code,
            None => false,
        }
    }

    /// Appends the encoding of the value, which must be well. For a large value this copies the
    /// bytes that are stored beside it. Fails with NoMemory; `out` is then unchanged.
    #[inline(always)]
    pub fn encode(&self, out: &mut Vec<u8>) -> Result<(), NoMemory>
        requires { IsWell self.now }
        ensures ok { OnOk result (out.new.items ≡ out.old.items ++ spelling_of self.now) }
        ensures err { OnErr result (out.new.items ≡ out.old.items) }
    {
        match &self.form {
            Form::Number(number) => encode(&Value::Num(*number), out),
            Form::Fault(code) => encode(&Value::Fault(*code), out),
            Form::Small(value) => encode(&**value, out),
            Form::Spelled(spelled) => {
                out.extend_from_slice(spelled.bytes())?;
                Ok(())
            }
            Form::Text(text) => Ok(text.append_encoding(out)?),
            Form::Table(table) => table.append_encoding(out),
            Form::List(list) => list.append_encoding(out),
        }
    }

    /// Reads the value whose encoding is a prefix of the input, and returns it with the length of
    /// that prefix in bytes. A large value keeps a copy of these bytes. Fails with Malformed (V1)
    /// if no prefix is the encoding of a well value, and with NoMemory.
    #[inline(always)]
    pub fn read(alloc: Global, input: &[u8]) -> Result<(Carried, usize), ValueFault>
        ensures well { IfOk result (λ found. IsWell found.0) }
        ensures within { IfOk result (λ found. found.1 ≤ length input.now) }
        ensures spelled { IfOk result (λ found. take found.1 input.now ≡ spelling_of found.0) }
        ensures read { (value : AttributeValue) (rest : List ℕ) → IsWell value
            → input.now ≡ spelling_of value ++ rest
            → MatchResult result
            (λ found. found ≡ (value, length (spelling_of value)))
            (λ e. e ≡ ValueFault.NoMemory) }
    {
        let (value, len) = decode(alloc, input)?;
        Ok((with_encoding(alloc, value, &input[..len])?, len))
    }

    /// Reads a value as `read` does. If the input begins with the encoding of `self`, and `self` is
    /// a large value, a tree or a text of any form, returns `self` for one more owner, and decodes
    /// nothing.
    #[tactic(auto, using(crate::proofs::Encodings::encodings))]
    pub fn read_beside(&self, alloc: Global, input: &[u8]) -> Result<(Carried, usize), ValueFault>
        ensures well { IfOk result (λ found. IsWell found.0) }
        ensures within { IfOk result (λ found. found.1 ≤ length input.now) }
        ensures spelled { IfOk result (λ found. take found.1 input.now ≡ spelling_of found.0) }
        ensures read { (value : AttributeValue) (rest : List ℕ) → IsWell value
            → input.now ≡ spelling_of value ++ rest
            → MatchResult result
            (λ found. found ≡ (value, length (spelling_of value)))
            (λ e. e ≡ ValueFault.NoMemory) }
    {
        match self.prefix_of(input) {
            Some(len) => Ok((self.share_any()?, len)),
            None => Carried::read(alloc, input),
        }
    }

    /// Returns the length of the encoding in bytes, if the value is a large one, a tree or a text
    /// of any form, and the input begins with its encoding, and otherwise `None`. Takes no memory.
    fn prefix_of(&self, input: &[u8]) -> Option<usize>
        ensures { IfSome result (IsPrefix self.now input.now) }
    {
        match &self.form {
            Form::Spelled(spelled) => spelled.prefix_of(input),
            Form::Text(text) => text.prefix_of(input),
            Form::Table(table) => prefix_of_table(table, input),
            Form::List(list) => prefix_of_list(list, input),
            Form::Small(value) => prefix_of_small(&**value, input),
            Form::Number(_) | Form::Fault(_) => None,
        }
    }
}

/// Returns the length in bytes of the encoding of a value, if it is a text of at most
/// `MAX_FLAT_TEXT` bytes and the input begins with its encoding, and otherwise `None`. Takes no
/// memory. A small text has at most 19 bytes, but no invariant says so. The limit is here for the
/// proof: the contract says that the text is well.
fn prefix_of_small(value: &Value, input: &[u8]) -> Option<usize>
    ensures { IfSome result (IsPrefix value.now input.now) }
{
    match value {
        Value::Text(text) => prefix_of_text(text.as_str(), input),
        _ => None,
    }
}

/// Returns a value as a carried one. `encoding` has the bytes that the value was decoded from.
/// Fails with NoMemory.
#[inline(always)]
fn with_encoding(alloc: Global, value: Value, encoding: &[u8]) -> Result<Carried, NoMemory>
    requires well { IsWell value }
    requires encoding { encoding.now ≡ spelling_of value }
    ensures { IfOk result (λ c. c ≡ value) }
{
    if encoding.len() as u64 <= MAX_SMALL_WEIGHT {
        return small_value(alloc, value);
    }
    shared_value(alloc, Spelled::from_encoding(alloc, value, encoding)?)
}
