//! Keeping a tree balanced: the heights of the two sides of a node differ by at most one. No
//! contract depends on the balance.

ghost use Rattle.std.specs.Prelude.{◌≡◌, ◌∷◌, ◌++◌, IfOk};
ghost use Rattle.ag_value.specs.Well.{IsWell};
ghost use Rattle.ag_value.specs.declared.value.Value.TheVariants as v;

use crate::entry::Entry;
use crate::tree::TableTree;
use ag_value::NoMemory;
use std::alloc::Global;
use std::rc::Rc;

/// Returns the table of the pairs of `left`, the pair of `entry` and the pairs of `right`. If the
/// heights of `left` and `right` differ by at most one, the root has `entry`. Otherwise a single or
/// double rotation takes the root from the higher side. Fails with NoMemory.
pub(crate) fn balanced(
    alloc: Global,
    left: TableTree,
    entry: Rc<Entry>,
    right: TableTree,
) -> Result<TableTree, NoMemory>
    requires { IsWell (v.Table (left ++ entry.value ∷ right)) }
    ensures { IfOk result (λ table. table ≡ left ++ entry.value ∷ right) }
{
    if left.height() > right.height().saturating_add(1) {
        let left = with_high_left(alloc, left)?;
        return turned_right(alloc, left, entry, right);
    }
    if right.height() > left.height().saturating_add(1) {
        let right = with_high_right(alloc, right)?;
        return turned_left(alloc, left, entry, right);
    }
    TableTree::fork(alloc, left, entry, right)
}

/// Returns a table with the same pairs: if the right side of `table` is higher than the left one,
/// `table` rotated to the left, and otherwise `table` itself. This is the first half of a double
/// rotation, before `turned_right`. Fails with NoMemory.
fn with_high_left(alloc: Global, table: TableTree) -> Result<TableTree, NoMemory>
    ensures { IfOk result (λ same. same ≡ table) }
{
    let Some(root) = table.root() else {
        return Ok(table);
    };
    if root.left.height() >= root.right.height() {
        return Ok(table);
    }
    turned_left(
        alloc,
        root.left.share()?,
        root.entry.clone()?,
        root.right.share()?,
    )
}

/// Returns a table with the same pairs: if the left side of `table` is higher than the right one,
/// `table` rotated to the right, and otherwise `table` itself. This is the first half of a double
/// rotation, before `turned_left`. Fails with NoMemory.
fn with_high_right(alloc: Global, table: TableTree) -> Result<TableTree, NoMemory>
    ensures { IfOk result (λ same. same ≡ table) }
{
    let Some(root) = table.root() else {
        return Ok(table);
    };
    if root.right.height() >= root.left.height() {
        return Ok(table);
    }
    turned_right(
        alloc,
        root.left.share()?,
        root.entry.clone()?,
        root.right.share()?,
    )
}

/// Returns the table of the pairs of `left`, the pair of `entry` and the pairs of `right`, rotated
/// to the right: its root has the pair of the root of `left`, or that of `entry` if `left` is
/// empty. Fails with NoMemory.
fn turned_right(
    alloc: Global,
    left: TableTree,
    entry: Rc<Entry>,
    right: TableTree,
) -> Result<TableTree, NoMemory>
    requires { IsWell (v.Table (left ++ entry.value ∷ right)) }
    ensures { IfOk result (λ table. table ≡ left ++ entry.value ∷ right) }
{
    let Some(root) = left.root() else {
        return TableTree::fork(alloc, left, entry, right);
    };
    let lower = TableTree::fork(alloc, root.right.share()?, entry, right)?;
    TableTree::fork(alloc, root.left.share()?, root.entry.clone()?, lower)
}

/// Returns the table of the pairs of `left`, the pair of `entry` and the pairs of `right`, rotated
/// to the left: its root has the pair of the root of `right`, or that of `entry` if `right` is
/// empty. Fails with NoMemory.
fn turned_left(
    alloc: Global,
    left: TableTree,
    entry: Rc<Entry>,
    right: TableTree,
) -> Result<TableTree, NoMemory>
    requires { IsWell (v.Table (left ++ entry.value ∷ right)) }
    ensures { IfOk result (λ table. table ≡ left ++ entry.value ∷ right) }
{
    let Some(root) = right.root() else {
        return TableTree::fork(alloc, left, entry, right);
    };
    let lower = TableTree::fork(alloc, left, entry, root.left.share()?)?;
    TableTree::fork(alloc, lower, root.entry.clone()?, root.right.share()?)
}
