//! Joining two trees into a balanced tree: the heights of the two sides of each node differ by at
//! most one. No contract depends on the balance. Each function of this module may fail with
//! NoMemory.

ghost use Rattle.std.specs.Prelude.{◌≡◌, ◌++◌, ◌+◌, ◌<◌, ◌^◌, length, IfOk};

use crate::items::ItemTree;
use ag_value::NoMemory;
use std::alloc::Global;

impl ItemTree {
    /// Returns the tree of the items of `left` and then those of `right`. Takes memory for new
    /// nodes; their number grows with the difference of the heights.
    pub fn join(alloc: Global, left: &ItemTree, right: &ItemTree) -> Result<ItemTree, NoMemory>
        requires { length left.now + length right.now < 2 ^ 64 }
        ensures { IfOk result (λ tree. tree ≡ left.now ++ right.now) }
    {
        if left.height() > right.height() {
            left.with_after(alloc, right)
        } else {
            right.with_before(alloc, left)
        }
    }

    /// Returns the tree of these items and then those of `after`. Callers pass a tree `after` that
    /// is not higher than this tree; otherwise the result could be unbalanced.
    fn with_after(&self, alloc: Global, after: &ItemTree) -> Result<ItemTree, NoMemory>
        requires { length self.now + length after.now < 2 ^ 64 }
        ensures { IfOk result (λ tree. tree ≡ self.now ++ after.now) }
    {
        if self.height() > after.height().saturating_add(1) {
            if let Some(sides) = self.sides() {
                let right = sides.right.with_after(alloc, after)?;
                return balanced(alloc, sides.left.share()?, right);
            }
        }
        ItemTree::pair(alloc, self.share()?, after.share()?)
    }

    /// Returns the tree of the items of `before` and then these. Callers pass a tree `before` that
    /// is not higher than this tree; otherwise the result could be unbalanced.
    fn with_before(&self, alloc: Global, before: &ItemTree) -> Result<ItemTree, NoMemory>
        requires { length before.now + length self.now < 2 ^ 64 }
        ensures { IfOk result (λ tree. tree ≡ before.now ++ self.now) }
    {
        if self.height() > before.height().saturating_add(1) {
            if let Some(sides) = self.sides() {
                let left = sides.left.with_before(alloc, before)?;
                return balanced(alloc, left, sides.right.share()?);
            }
        }
        ItemTree::pair(alloc, before.share()?, self.share()?)
    }
}

/// Returns the tree of the items of `left` and then those of `right`. Rotates if one of the two is
/// higher than the other by at least two levels.
fn balanced(alloc: Global, left: ItemTree, right: ItemTree) -> Result<ItemTree, NoMemory>
    requires { length left + length right < 2 ^ 64 }
    ensures { IfOk result (λ tree. tree ≡ left ++ right) }
{
    if left.height() > right.height().saturating_add(1) {
        return turned_right(alloc, with_high_left(alloc, left)?, right);
    }
    if right.height() > left.height().saturating_add(1) {
        return turned_left(alloc, left, with_high_right(alloc, right)?);
    }
    ItemTree::pair(alloc, left, right)
}

/// Returns a tree with the same items. Rotates `tree` to the left if its right side is higher than
/// its left side; otherwise returns `tree` itself. This is the first half of a double rotation,
/// before `turned_right`.
fn with_high_left(alloc: Global, tree: ItemTree) -> Result<ItemTree, NoMemory>
    requires { length tree < 2 ^ 64 }
    ensures { IfOk result (λ same. same ≡ tree) }
{
    match tree.sides() {
        Some(sides) if sides.left.height() < sides.right.height() => {
            turned_left(alloc, sides.left.share()?, sides.right.share()?)
        }
        _ => Ok(tree),
    }
}

/// Returns a tree with the same items. Rotates `tree` to the right if its left side is higher than
/// its right side; otherwise returns `tree` itself. This is the first half of a double rotation,
/// before `turned_left`.
fn with_high_right(alloc: Global, tree: ItemTree) -> Result<ItemTree, NoMemory>
    requires { length tree < 2 ^ 64 }
    ensures { IfOk result (λ same. same ≡ tree) }
{
    match tree.sides() {
        Some(sides) if sides.right.height() < sides.left.height() => {
            turned_right(alloc, sides.left.share()?, sides.right.share()?)
        }
        _ => Ok(tree),
    }
}

/// Returns the tree of the items of `left` and then those of `right`, rotated to the right: its
/// left side is the left side of `left`, and its right side has all other items. If `left` has
/// fewer than two items, it has no sides, and the result is the `pair` of the two trees.
fn turned_right(alloc: Global, left: ItemTree, right: ItemTree) -> Result<ItemTree, NoMemory>
    requires { length left + length right < 2 ^ 64 }
    ensures { IfOk result (λ tree. tree ≡ left ++ right) }
{
    let Some(sides) = left.sides() else {
        return ItemTree::pair(alloc, left, right);
    };
    let lower = ItemTree::pair(alloc, sides.right.share()?, right)?;
    ItemTree::pair(alloc, sides.left.share()?, lower)
}

/// Returns the tree of the items of `left` and then those of `right`, rotated to the left: its
/// right side is the right side of `right`, and its left side has all other items. If `right` has
/// fewer than two items, it has no sides, and the result is the `pair` of the two trees.
fn turned_left(alloc: Global, left: ItemTree, right: ItemTree) -> Result<ItemTree, NoMemory>
    requires { length left + length right < 2 ^ 64 }
    ensures { IfOk result (λ tree. tree ≡ left ++ right) }
{
    let Some(sides) = right.sides() else {
        return ItemTree::pair(alloc, left, right);
    };
    let lower = ItemTree::pair(alloc, left, sides.left.share()?)?;
    ItemTree::pair(alloc, lower, sides.right.share()?)
}
