//! Values that are read: plain ones, which are stored as a `Value`, shared texts, and tables and
//! lists that are trees. The functions that return a `Result` fail with `NoMemory` if memory is
//! refused.

ghost use Rattle.std.specs.Prelude.{◌≡◌, ◌≤◌, IfOk, IfSome, MatchOption, length, false, true};
ghost use Rattle.ag_value.specs.Measure.{max_weight};
ghost use Rattle.ag_value.specs.Well.{IsWell};
ghost use Rattle.ag_value.specs.declared.value.Value.TheVariants as value;
ghost use Rattle.ag_value.specs.operations.Texts.{bytes_of, is_text};
ghost use Rattle.ag_eval.specs.Lists.{is_list};
ghost use Rattle.ag_eval.specs.Operands.{plain_value, ref_value};

use crate::measured::Measured;
use crate::operand::Lent;
use ag_carried::SharedText;
use ag_value::{NoMemory, Value};
use list_tree::ListTree;
use std::alloc::Global;
use table_tree::TableTree;

/// A value that is read: a plain one, a shared text, or a table or list that is a tree.
#[derive(Clone, Copy)]
pub enum ValueRef<'a> {
    Plain(&'a Value),
    Shared(&'a SharedText),
    Table(&'a TableTree),
    List(&'a ListTree),
}

impl<'a> ValueRef<'a> {
    /// Lends a shared text.
    pub fn from_text(text: &'a SharedText) -> ValueRef<'a>
        ensures value { ref_value result ≡ value.Text text.entry.now }
        ensures well { IsWell (ref_value result) }
    {
        // the contract of `len` shows the prover that the text is within the limits
        let _len = text.len();
        ValueRef::Shared(text)
    }

    /// Lends a table that is a tree.
    pub fn from_table(table: &'a TableTree) -> ValueRef<'a>
        ensures value { ref_value result ≡ value.Table table.entry.now }
        ensures well { IsWell (ref_value result) }
    {
        // the contract of `weight` shows the prover that the table is within the limits
        let _weight = table.weight();
        ValueRef::Table(table)
    }

    /// Lends a list that is a tree.
    pub fn from_list(list: &'a ListTree) -> ValueRef<'a>
        ensures value { ref_value result ≡ value.List list.entry.now }
        ensures well { IsWell (ref_value result) }
    {
        // the contract of `weight` shows the prover that the list is within the limits
        let _weight = list.weight();
        ValueRef::List(list)
    }

    /// Returns the value if it is a plain one.
    #[inline(always)]
    pub fn as_value(self) -> Option<&'a Value>
        ensures { IfSome result (λ v. v.now ≡ ref_value self.entry) }
    {
        match self {
            ValueRef::Plain(value) => Some(value),
            ValueRef::Shared(_) | ValueRef::Table(_) | ValueRef::List(_) => None,
        }
    }

    /// Returns the number of bytes of a text, or `None` for a value of another kind.
    #[tactic(auto, using(ag_value::proofs::operations::Wells::short))]
    pub fn text_len(self) -> Option<usize>
        requires { IsWell (ref_value self) }
        ensures text { MatchOption result (is_text (ref_value self.entry) ≡ false)
            (λ _. is_text (ref_value self.entry) ≡ true) }
        ensures len { IfSome result (λ n. n ≡ length (bytes_of (ref_value self.entry))) }
        ensures light { IfSome result (λ n. n ≤ max_weight) }
    {
        match self {
            ValueRef::Plain(Value::Text(text)) => Some(text.as_str().len()),
            ValueRef::Plain(_) => None,
            ValueRef::Shared(text) => Some(text.len()),
            ValueRef::Table(_) | ValueRef::List(_) => None,
        }
    }

    /// Returns the number of items of a list, or `None` for a value of another kind.
    #[tactic(auto, using(ag_value::proofs::operations::Wells::short))]
    pub fn list_len(self) -> Option<usize>
        requires { IsWell (ref_value self) }
        ensures list { IfSome result (λ _. is_list (ref_value self.entry) ≡ true) }
        ensures few { IfSome result (λ n. n ≤ max_weight) }
    {
        match self {
            ValueRef::Plain(Value::List(items)) => Some(items.as_slice().len()),
            ValueRef::Plain(_) => None,
            ValueRef::List(list) => Some(list.len()),
            ValueRef::Shared(_) | ValueRef::Table(_) => None,
        }
    }

    /// Returns the value as a plain one. Takes memory for a copy of a shared text or of a tree.
    pub fn to_plain(self, alloc: Global) -> Result<Plain<'a>, NoMemory>
        requires { IsWell (ref_value self) }
        ensures { IfOk result (λ p. plain_value p ≡ ref_value self.entry) }
    {
        match self {
            ValueRef::Plain(value) => Ok(Plain::Lent(Lent::new(value))),
            ValueRef::Shared(text) => Ok(Plain::Copied(copied_text(alloc, text)?)),
            ValueRef::Table(table) => Ok(Plain::Copied(copied_table(alloc, table)?)),
            ValueRef::List(list) => Ok(Plain::Copied(copied_list(alloc, list)?)),
        }
    }
}

/// A plain well value: lent, or a copy of a shared text or of a tree.
#[derive(Drop)]
pub enum Plain<'a> {
    Lent(Lent<'a>),
    Copied(Measured),
}

impl<'a> Plain<'a> {
    /// Lends the value.
    pub fn get(&self) -> &Value
        ensures value { result.now ≡ plain_value self.now }
        ensures well { IsWell result.now }
    {
        match self {
            Plain::Lent(lent) => lent.get(),
            Plain::Copied(copied) => copied.get(),
        }
    }
}

/// Copies a shared text into a plain value.
pub fn copied_text(alloc: Global, text: &SharedText) -> Result<Measured, NoMemory>
    ensures { IfOk result (λ m. m ≡ value.Text text.now) }
{
    // the contract of `len` shows the prover that the text is within the limits
    let _len = text.len();
    Ok(Measured::new(Value::Text(text.to_text(alloc)?)))
}

/// Copies a table that is a tree into a plain value.
pub fn copied_table(alloc: Global, table: &TableTree) -> Result<Measured, NoMemory>
    ensures { IfOk result (λ m. m ≡ value.Table table.now) }
{
    // the contract of `weight` shows the prover that the table is within the limits
    let _weight = table.weight();
    Ok(Measured::new(Value::Table(table.to_table(alloc)?)))
}

/// Copies a list that is a tree into a plain value.
pub fn copied_list(alloc: Global, list: &ListTree) -> Result<Measured, NoMemory>
    ensures { IfOk result (λ m. m ≡ value.List list.now) }
{
    // the contract of `weight` shows the prover that the list is within the limits
    let _weight = list.weight();
    Ok(Measured::new(Value::List(list.to_list(alloc)?)))
}
