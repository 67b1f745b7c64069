//! Conversions between trees and flat tables.

ghost use Rattle.std.specs.Prelude.{◌≡◌, ◌++◌, ◌≤◌, length, map, IfOk, OnOk};
ghost use Rattle.ag_value.specs.Well.{IsWell};
ghost use Rattle.ag_value.specs.declared.value.Value.TheVariants as v;

use crate::entry::Entry;
use crate::tree::TableTree;
use ag_value::{Items, NoMemory, Text, Value, copy};
use std::alloc::Global;
use std::rc::Rc;

impl TableTree {
    /// Moves the pairs of a well table into a tree. Fails with NoMemory; the pairs are then
    /// dropped.
    pub fn from_table(alloc: Global, pairs: Items<(Text, Value)>) -> Result<TableTree, NoMemory>
        requires { IsWell (v.Table pairs) }
        ensures { IfOk result (λ table. table ≡ pairs) }
    {
        let mut pairs = pairs.into_vec();
        let count = pairs.len();
        take_last(alloc, &mut pairs, count)
    }

    /// Returns a copy of the pairs as a flat table. Fails with NoMemory.
    pub fn to_table(&self, alloc: Global) -> Result<Items<(Text, Value)>, NoMemory>
        ensures { IfOk result (λ pairs. pairs ≡ self.now) }
    {
        let mut pairs = Vec::with_capacity(alloc, self.len())?;
        self.push_pairs(alloc, &mut pairs)?;
        Ok(Items::from_vec(pairs))
    }

    /// Returns the keys in ascending order as texts. Fails with NoMemory.
    pub fn keys(&self, alloc: Global) -> Result<Items<Value>, NoMemory>
        ensures { IfOk result (λ keys. keys ≡ map (λ p. v.Text p.0) self.now) }
    {
        let mut keys = Vec::with_capacity(alloc, self.len())?;
        self.push_keys(alloc, &mut keys)?;
        Ok(Items::from_vec(keys))
    }

    /// Appends a copy of the pairs. Fails with NoMemory, and may then have appended some of them.
    fn push_pairs(&self, alloc: Global, out: &mut Vec<(Text, Value)>) -> Result<(), NoMemory>
        ensures { OnOk result (out.new.items ≡ out.old.items ++ self.now) }
    {
        let Some(root) = self.root() else {
            return Ok(());
        };
        root.left.push_pairs(alloc, out)?;
        let key = Text::from_str(alloc, root.entry.key())?;
        out.push((key, copy(alloc, root.entry.value())?))?;
        root.right.push_pairs(alloc, out)
    }

    /// Appends the keys as texts. Fails with NoMemory, and may then have appended some of them.
    fn push_keys(&self, alloc: Global, out: &mut Vec<Value>) -> Result<(), NoMemory>
        ensures { OnOk result
            (out.new.items ≡ out.old.items ++ map (λ p. v.Text p.0) self.now) }
    {
        let Some(root) = self.root() else {
            return Ok(());
        };
        root.left.push_keys(alloc, out)?;
        out.push(Value::Text(Text::from_str(alloc, root.entry.key())?))?;
        root.right.push_keys(alloc, out)
    }
}

/// Removes the last `count` pairs and returns the tree of them, with the middle pair in the root.
/// Fails with NoMemory, and may then have removed some of them.
fn take_last(
    alloc: Global,
    pairs: &mut Vec<(Text, Value)>,
    count: usize,
) -> Result<TableTree, NoMemory>
    requires within { count ≤ length pairs.old.items }
    requires well { IsWell (v.Table pairs.old.items) }
    ensures parts { IfOk result (λ table. pairs.old.items ≡ pairs.new.items ++ table) }
    ensures count { IfOk result (λ table. length table ≡ count) }
{
    if count == 0 {
        return Ok(TableTree::new());
    }
    let before = count / 2;
    let right = take_last(alloc, pairs, count - before - 1)?;
    let Some((key, value)) = pairs.pop() else {
        unreachable!()
    };
    let entry = Rc::new(alloc, Entry::new(alloc, key, value)?)?;
    let left = take_last(alloc, pairs, before)?;
    TableTree::fork(alloc, left, entry, right)
}
