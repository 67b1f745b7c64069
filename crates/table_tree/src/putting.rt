//! Tables with one more pair, or with another value for a key.

ghost use Rattle.std.specs.Prelude.{◌≡◌, ◌≤◌, length, true, IfOk};
ghost use Rattle.ag_value.specs.operations.Fitting.{fit};
ghost use Rattle.ag_value.specs.operations.Tables.{with_pair};
ghost use Rattle.ag_value.specs.Measure.{max_weight};
ghost use Rattle.ag_value.specs.Well.{IsWell, is_item};
ghost use Rattle.ag_value.specs.declared.value.Value.TheVariants as v;
ghost use Rattle.table_tree.specs.Putting.{IsFaultOf, IsLimitFault, IsPut};
ghost use Rattle.table_tree.specs.Totals.{AreTotals};
ghost use Rattle.table_tree.specs.declared.putting.PutFault.TheVariants as put_fault;

use crate::balancing::balanced;
use crate::entry::Entry;
use crate::totals::Totals;
use crate::tree::TableTree;
use ag_value::{MAX_VALUE_DEPTH, MAX_WEIGHT, NoMemory, OutOfMemory, Text, Value};
use std::alloc::Global;
use std::cmp::Ordering;
use std::rc::Rc;
use thiserror::Error;

/// The reasons why a pair can't be put into a table.
#[derive(Clone, Copy, Debug, PartialEq, Eq, Error)]
pub enum PutFault {
    /// The depth of the table would exceed 64.
    #[error("depth: the table would have a depth above 64")]
    TooDeep,
    /// The weight of the table would exceed 1,048,576.
    #[error("weight: the table would have a weight above 1,048,576")]
    TooHeavy,
    /// The allocator refused memory, or a node or a pair has 2^64 - 1 owners.
    #[error("NoMemory a request for memory was refused")]
    NoMemory,
}

impl<M: OutOfMemory> From<M> for PutFault {
    ghost from_gives = { λ _ e. e ≡ put_fault.NoMemory };

    fn from(_error: M) -> PutFault {
        PutFault::NoMemory
    }
}

impl TableTree {
    /// Returns the table in which a key has a value, and all other pairs are those of this table.
    /// The nodes that are not on the way to the key are shared: time and memory grow with the
    /// logarithm of the number of pairs, and with the size of the new pair. Time also grows with
    /// the lengths of the keys on the way, which are compared with the new one. The key must have
    /// at most 1,048,576 bytes, and the value must be well and not an error. Fails with TooDeep if
    /// the depth of the new table would exceed 64. Otherwise fails with TooHeavy if its weight
    /// would exceed 1,048,576. May also fail with NoMemory.
    pub fn put(&self, alloc: Global, key: &str, value: Value) -> Result<TableTree, PutFault>
        requires short { length key.now ≤ max_weight }
        requires well { IsWell value }
        requires item { is_item value ≡ true }
        ensures { IsPut (fit (v.Table (with_pair key.now value self.now))) result }
    {
        let entry = Entry::new(alloc, Text::from_str(alloc, key)?, value)?;
        let entry = Rc::new(alloc, entry)?;
        if let Some(fault) = self.fault_with(entry.as_ref()) {
            return Err(fault);
        }
        let table = self.with_entry(alloc, entry)?;
        Ok(table)
    }

    /// Returns the fault of the table in which the entry's key has the entry's value: TooDeep if
    /// its depth exceeds 64, otherwise TooHeavy if its weight exceeds 1,048,576, and otherwise
    /// `None`. Takes constant time if all pairs of this table and the entry together are within
    /// these limits. Otherwise visits the nodes on the way to the key: if one of them has the key,
    /// the entry replaces its pair, and the new table may be within the limits.
    fn fault_with(&self, entry: &Entry) -> Option<PutFault>
        ensures fault { IsFaultOf (with_pair entry.now.0 entry.now.1 self.now) result }
        ensures well { IsWell (v.Table self.now) }
    {
        let most = Totals::joined(Totals::none(), entry.totals(), self.totals());
        match limit_fault(most) {
            None => None,
            Some(_) => limit_fault(self.totals_with(entry)),
        }
    }

    /// Returns the totals of the table in which the entry's key has the entry's value.
    fn totals_with(&self, entry: &Entry) -> Totals
        ensures totals { AreTotals (with_pair entry.now.0 entry.now.1 self.now) result }
        ensures well { IsWell (v.Table self.now) }
    {
        let added = entry.totals();
        let Some(root) = self.root() else {
            return added;
        };
        let (left, own, right) = (root.left, root.entry.totals(), root.right);
        match entry.key().cmp(root.entry.key()) {
            Ordering::Less => Totals::joined(left.totals_with(entry), own, right.totals()),
            Ordering::Equal => Totals::joined(left.totals(), added, right.totals()),
            Ordering::Greater => Totals::joined(left.totals(), own, right.totals_with(entry)),
        }
    }

    /// Returns the table in which the entry's key has the entry's value. Fails with NoMemory.
    fn with_entry(&self, alloc: Global, entry: Rc<Entry>) -> Result<TableTree, NoMemory>
        requires { IsWell (v.Table (with_pair entry.value.0 entry.value.1 self.now)) }
        ensures { IfOk result (λ table. table ≡ with_pair entry.value.0 entry.value.1 self.now) }
    {
        let Some(root) = self.root() else {
            return TableTree::fork(alloc, TableTree::new(), entry, TableTree::new());
        };
        match entry.key().cmp(root.entry.key()) {
            Ordering::Less => {
                let left = root.left.with_entry(alloc, entry)?;
                balanced(alloc, left, root.entry.clone()?, root.right.share()?)
            }
            Ordering::Equal => TableTree::fork(
                alloc,
                root.left.share()?,
                entry,
                root.right.share()?,
            ),
            Ordering::Greater => {
                let right = root.right.with_entry(alloc, entry)?;
                balanced(alloc, root.left.share()?, root.entry.clone()?, right)
            }
        }
    }
}

/// Returns the fault of a table whose pairs have these totals: TooDeep if its depth, one more than
/// that of its deepest value, exceeds 64; otherwise TooHeavy if its weight, five bytes more than
/// that of its pairs, exceeds 1,048,576; and otherwise `None`.
fn limit_fault(totals: Totals) -> Option<PutFault>
    ensures { IsLimitFault totals result }
{
    if totals.depth >= MAX_VALUE_DEPTH {
        return Some(PutFault::TooDeep);
    }
    if totals.bytes as u64 > MAX_WEIGHT - 5 {
        return Some(PutFault::TooHeavy);
    }
    None
}
