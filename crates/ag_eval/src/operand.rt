//! The value of a part of an expression, lent or shared if possible. The functions that return a
//! `Result` fail with `NoMemory` if memory is refused.

ghost use Rattle.std.specs.Prelude.{◌≡◌, IfOk, IfSome, is_some, true};
ghost use Rattle.ag_value.specs.Well.{IsWell};
ghost use Rattle.ag_value.specs.declared.value.Value.TheVariants as value;
ghost use Rattle.ag_value.specs.operations.Arguments.{fault_of};
ghost use Rattle.ag_value.specs.operations.Texts.{is_text};
ghost use Rattle.ag_eval.specs.declared.operand.Held.{Held as HeldValue};
ghost use Rattle.ag_eval.specs.Lists.{is_list};
ghost use Rattle.ag_eval.specs.Operands.{IsIn, held_value, is_lent, operand_value, ref_value};

use crate::bindings::Bindings;
use crate::builtins::faults::fault_of;
use crate::measured::Measured;
use crate::value_ref::{ValueRef, copied_list, copied_table, copied_text};
use ag_carried::{Carried, SharedText};
use ag_value::{ErrorCode, NoMemory, Value, copy};
use list_tree::ListTree;
use std::alloc::Global;
use std::marker::Model;
use table_tree::TableTree;

/// A well value that is lent, with the carried value that stores it, if there is one. In an operand
/// of the evaluation, the environment or the expression lends the value. While a call such as `nth`
/// reads its arguments, the lender may also be an operand.
#[derive(Drop)]
pub struct Lent<'e> {
    value: &'e Value,
    carried: Option<&'e Carried>,
}

impl<'e> Model for Lent<'e> {
    ghost use Rattle.std.specs.Coded.{codes};
    ghost use Rattle.ag_value.specs.declared.value.Value.{Value as AttributeValue};
    // what the prover knows of the Rust type `Value`; only `coded` uses it
    ghost use Rattle.ag_value.specs.contracts.value.Value as value_row;
    ghost use Rattle.std.specs.Prelude.{◌≡◌, IfSome};
    ghost use Rattle.ag_value.specs.Well.{IsWell};

    ghost Value = { AttributeValue };

    ghost coded = { Prim.hlevel (codes, value_row.the_row.coded) };

    ghost view = { λ l. l.value.now };

    ghost invariant = { λ l. IsWell l.value.now × IfSome l.carried (λ c. c.now ≡ l.value.now) };
}

impl<'e> Lent<'e> {
    /// Makes a lent value of a well one.
    pub fn new(value: &'e Value) -> Lent<'e>
        requires { IsWell value.now }
        ensures { result ≡ value.entry.now }
    {
        Lent {
            value,
            carried: None,
        }
    }

    /// Makes a second loan of the same value.
    pub fn again(&self) -> Lent<'e>
        ensures { result ≡ self.now }
    {
        Lent {
            value: self.value,
            carried: self.carried,
        }
    }

    /// Returns the value as a carried one. Shares the value of the field `carried` if there is one,
    /// and copies the lent value otherwise.
    pub fn into_carried(self, alloc: Global) -> Result<Carried, NoMemory>
        ensures value { IfOk result (λ c. c ≡ self.entry) }
        ensures well { IfOk result (λ c. IsWell c) }
    {
        match self.carried {
            Some(carried) => carried.share(alloc),
            None => Carried::new(alloc, copy(alloc, self.value)?),
        }
    }

    /// Returns the reference to the value, with the lifetime of the loan.
    pub fn get(&self) -> &'e Value
        ensures value { result.now ≡ self.now }
        ensures well { IsWell result.now }
    {
        self.value
    }
}

/// A well value, in one of these forms.
#[derive(Drop)]
pub enum Held<'e> {
    /// A plain value (one that is stored as a `Value`) that the environment or the expression
    /// lends.
    Lent(Lent<'e>),
    /// A plain value that the evaluation owns.
    Owned(Measured),
    /// A shared text. The evaluation is one of its owners.
    Shared(SharedText),
    /// A table that is a tree, which the environment lends.
    LentTable(&'e TableTree),
    /// A table that is a tree. The evaluation is one of its owners.
    Table(TableTree),
    /// A list that is a tree, which the environment lends.
    LentList(&'e ListTree),
    /// A list that is a tree. The evaluation is one of its owners.
    List(ListTree),
}

impl<'e> Held<'e> {
    /// Makes a held error.
    pub fn fault(code: ErrorCode) -> Held<'e>
        ensures { result ≡ Held.Owned (value.Fault code) }
    {
        Held::Owned(Measured::new(Value::Fault(code)))
    }

    /// Makes a held value of a lent one.
    pub fn from_lent(value: &'e Value) -> Held<'e>
        requires { IsWell value.now }
        ensures { result ≡ Held.Lent value.entry.now }
    {
        Held::Lent(Lent::new(value))
    }

    /// Makes a held value of a carried one. A shared text is shared, a number or an error that is
    /// not stored as a `Value` is copied, and every other value is lent.
    #[inline(always)]
    pub fn from_carried(alloc: Global, carried: &'e Carried) -> Result<Held<'e>, NoMemory>
        requires { IsWell carried.now }
        ensures { IfOk result (λ h. held_value h ≡ carried.entry.now) }
    {
        if let Some(value) = carried.as_value() {
            return Ok(Held::Lent(Lent {
                value,
                carried: Some(carried),
            }));
        }
        if let Some(number) = carried.as_number() {
            return Ok(Held::Owned(Measured::new(Value::Num(number))));
        }
        if let Some(text) = carried.as_text() {
            return Ok(Held::Shared(text.share()?));
        }
        if let Some(table) = carried.as_table() {
            return Ok(Held::LentTable(table));
        }
        if let Some(list) = carried.as_list() {
            return Ok(Held::LentList(list));
        }
        // only an error comes here, but no clause of `as_value` says so
        Ok(Held::Owned(Measured::new(carried.to_value(alloc)?)))
    }

    /// Lends the value.
    pub fn get(&self) -> ValueRef<'_>
        ensures value { ref_value result ≡ held_value self.now }
        ensures well { IsWell (ref_value result) }
    {
        match self {
            Held::Lent(lent) => ValueRef::Plain(lent.get()),
            Held::Owned(owned) => ValueRef::Plain(owned.get()),
            Held::Shared(text) => ValueRef::from_text(text),
            Held::LentTable(table) => ValueRef::from_table(*table),
            Held::Table(table) => ValueRef::from_table(table),
            Held::LentList(list) => ValueRef::from_list(*list),
            Held::List(list) => ValueRef::from_list(list),
        }
    }

    /// Returns the value if it is lent, with the lifetime of the loan.
    pub fn lent(&self) -> Option<ValueRef<'e>>
        ensures lends { is_some result ≡ is_lent self.now }
        ensures value { IfSome result (λ v. ref_value v ≡ held_value self.now) }
        ensures well { IfSome result (λ v. IsWell (ref_value v)) }
    {
        match self {
            Held::Lent(lent) => Some(ValueRef::Plain(lent.get())),
            Held::LentTable(table) => Some(ValueRef::from_table(*table)),
            Held::LentList(list) => Some(ValueRef::from_list(*list)),
            Held::Owned(_) | Held::Shared(_) | Held::Table(_) | Held::List(_) => None,
        }
    }

    /// Returns the value a second time: lent if it is lent, shared if it is a shared text or a
    /// tree, else a copy.
    pub fn again(&self, alloc: Global) -> Result<Held<'e>, NoMemory>
        ensures { IfOk result (λ h. held_value h ≡ held_value self.now) }
    {
        match self {
            Held::Lent(lent) => Ok(Held::Lent(lent.again())),
            Held::Owned(owned) => Ok(Held::Owned(Measured::new(copy(alloc, owned.get())?))),
            Held::Shared(text) => Ok(Held::Shared(text.share()?)),
            Held::LentTable(table) => Ok(Held::LentTable(*table)),
            Held::Table(table) => Ok(Held::Table(table.share()?)),
            Held::LentList(list) => Ok(Held::LentList(*list)),
            Held::List(list) => Ok(Held::List(list.share()?)),
        }
    }

    /// Returns the value as an owned one: a copy if it is lent, shared or a tree.
    pub fn into_owned(self, alloc: Global) -> Result<Measured, NoMemory>
        ensures { IfOk result (λ m. m ≡ held_value self.entry) }
    {
        match self {
            Held::Lent(lent) => Ok(Measured::new(copy(alloc, lent.get())?)),
            Held::Owned(owned) => Ok(owned),
            Held::Shared(text) => copied_text(alloc, &text),
            Held::LentTable(table) => copied_table(alloc, table),
            Held::Table(table) => copied_table(alloc, &table),
            Held::LentList(list) => copied_list(alloc, list),
            Held::List(list) => copied_list(alloc, &list),
        }
    }

    /// Returns a text as a shared one. A text that is not shared yet is moved into the shared one,
    /// or copied if it is lent.
    pub fn into_shared(self, alloc: Global) -> Result<SharedText, NoMemory>
        requires { is_text (held_value self) ≡ true }
        ensures { IfOk result (λ text. held_value self.entry ≡ value.Text text) }
    {
        let held = match self {
            Held::Shared(text) => return Ok(text),
            held => held,
        };
        let Value::Text(text) = held.into_owned(alloc)?.into_value() else {
            // the caller has to pass a text
            unreachable!()
        };
        SharedText::new(alloc, text)
    }

    /// Returns a list as a tree. A flat list is copied if it is lent, and its items are moved into
    /// the tree.
    pub fn into_list(self, alloc: Global) -> Result<ListTree, NoMemory>
        requires { is_list (held_value self) ≡ true }
        ensures { IfOk result (λ list. held_value self.entry ≡ value.List list) }
    {
        let held = match self {
            Held::List(list) => return Ok(list),
            Held::LentList(list) => return list.share(),
            held => held,
        };
        let Value::List(items) = held.into_owned(alloc)?.into_value() else {
            // the caller has to pass a list
            unreachable!()
        };
        ListTree::from_list(alloc, items)
    }

    /// Returns the value as a carried one. If a carried value lends it, shares that carried value.
    pub fn into_carried(self, alloc: Global) -> Result<Carried, NoMemory>
        ensures value { IfOk result (λ c. c ≡ held_value self.entry) }
        ensures well { IfOk result (λ c. IsWell c) }
    {
        match self {
            Held::Lent(lent) => lent.into_carried(alloc),
            Held::Owned(owned) => {
                let weight = owned.weight();
                Carried::with_weight(alloc, owned.into_value(), weight)
            }
            Held::Shared(text) => {
                // the contract of `len` shows the prover that the text is within the limits
                let _len = text.len();
                Ok(Carried::from_text(text))
            }
            Held::LentTable(table) => Ok(carried_table(table.share()?)),
            Held::Table(table) => Ok(carried_table(table)),
            Held::LentList(list) => Ok(carried_list(list.share()?)),
            Held::List(list) => Ok(carried_list(list)),
        }
    }
}

/// Returns a table that is a tree as a carried value.
fn carried_table(table: TableTree) -> Carried
    ensures value { result ≡ value.Table table }
    ensures well { IsWell result }
{
    // the contract of `weight` shows the prover that the table is within the limits
    let _weight = table.weight();
    Carried::from_table(table)
}

/// Returns a list that is a tree as a carried value.
fn carried_list(list: ListTree) -> Carried
    ensures value { result ≡ value.List list }
    ensures well { IsWell result }
{
    // the contract of `weight` shows the prover that the list is within the limits
    let _weight = list.weight();
    Carried::from_list(list)
}

/// The value of a part of an expression: a held value, or the number of the binding that has the
/// value. The outermost binding has the number 0.
#[derive(Drop)]
pub enum Operand<'e> {
    Held(Held<'e>),
    Bound(usize),
}

impl<'e> Operand<'e> {
    /// Makes an operand of an owned value.
    pub fn owned(value: Measured) -> Operand<'e>
        ensures { result ≡ Operand.Held (Held.Owned value) }
    {
        Operand::Held(Held::Owned(value))
    }

    /// Drops the operand, and returns another one.
    pub fn replaced(self, other: Operand<'e>) -> Operand<'e>
        ensures { result ≡ other.entry }
    {
        other
    }

    /// Lends the value. The value of a bound operand is lent by `bindings`.
    pub fn get<'a>(&'a self, bindings: &'a Bindings<'e>) -> ValueRef<'a>
        requires { IsIn bindings.now self.now }
        ensures value { ref_value result ≡ operand_value bindings.now self.now }
        ensures well { IsWell (ref_value result) }
    {
        match self {
            Operand::Held(held) => held.get(),
            Operand::Bound(k) => bindings.get(*k).get(),
        }
    }

    /// Returns the code of the value if the value is an error, else `None`.
    pub fn fault(&self, bindings: &Bindings<'e>) -> Option<ErrorCode>
        requires { IsIn bindings.now self.now }
        ensures { result ≡ fault_of (operand_value bindings.now self.now) }
    {
        fault_of(self.get(bindings))
    }

    /// Returns the value if the environment or the expression lends it, also through a binding,
    /// with the lifetime of that loan.
    pub fn from_outside(&self, bindings: &Bindings<'e>) -> Option<ValueRef<'e>>
        requires { IsIn bindings.now self.now }
        ensures lends { (held : HeldValue) → self.now ≡ Operand.Held held → is_some result ≡ is_lent held }
        ensures value { IfSome result (λ v. ref_value v ≡ operand_value bindings.now self.now) }
        ensures well { IfSome result (λ v. IsWell (ref_value v)) }
    {
        match self {
            Operand::Held(held) => held.lent(),
            Operand::Bound(k) => bindings.get(*k).lent(),
        }
    }

    /// Returns the value as a held one. The binding of a bound operand keeps its value, which is
    /// returned a second time, as by `Held::again`.
    pub fn into_held(self, alloc: Global, bindings: &Bindings<'e>) -> Result<Held<'e>, NoMemory>
        requires { IsIn bindings.now self }
        ensures { IfOk result (λ h. held_value h ≡ operand_value bindings.now self.entry) }
    {
        match self {
            Operand::Held(held) => Ok(held),
            Operand::Bound(k) => bindings.get(k).again(alloc),
        }
    }

    /// Returns the value as an owned one: a copy if it is lent, bound, shared or a tree.
    pub fn into_owned(self, alloc: Global, bindings: &Bindings<'e>) -> Result<Measured, NoMemory>
        requires { IsIn bindings.now self }
        ensures { IfOk result (λ m. m ≡ operand_value bindings.now self.entry) }
    {
        self.into_held(alloc, bindings)?.into_owned(alloc)
    }

    /// Returns a text as a shared one. A text that is not shared yet is copied if it is lent, or if
    /// a binding has it, and moved otherwise.
    pub fn into_shared(self, alloc: Global, bindings: &Bindings<'e>) -> Result<SharedText, NoMemory>
        requires within { IsIn bindings.now self }
        requires text { is_text (operand_value bindings.now self) ≡ true }
        ensures { IfOk result (λ text. operand_value bindings.now self.entry ≡ value.Text text) }
    {
        self.into_held(alloc, bindings)?.into_shared(alloc)
    }

    /// Returns a list as a tree, as `Held::into_list` does.
    pub fn into_list(self, alloc: Global, bindings: &Bindings<'e>) -> Result<ListTree, NoMemory>
        requires within { IsIn bindings.now self }
        requires list { is_list (operand_value bindings.now self) ≡ true }
        ensures { IfOk result (λ list. operand_value bindings.now self.entry ≡ value.List list) }
    {
        self.into_held(alloc, bindings)?.into_list(alloc)
    }

    /// Returns the value as a carried one. If a carried value lends it, shares that carried value.
    pub fn into_carried(self, alloc: Global, bindings: &Bindings<'e>) -> Result<Carried, NoMemory>
        requires { IsIn bindings.now self }
        ensures value { IfOk result (λ c. c ≡ operand_value bindings.now self.entry) }
        ensures well { IfOk result (λ c. IsWell c) }
    {
        self.into_held(alloc, bindings)?.into_carried(alloc)
    }
}
