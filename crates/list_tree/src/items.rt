//! The items of a list as a tree.

ghost use Rattle.std.specs.Prelude.{◌≡◌, ◌↔◌, ◌++◌, ◌∷◌, ◌+◌, ◌<◌, ◌^◌, ◌≤◌, [], length, option_copied};
ghost use Rattle.std.specs.Prelude.{slice_get, IfOk, IfSome, IsTrue, OnOk};
ghost use Rattle.list_tree.specs.Nodes.{IsCut};

use ag_value::{NoMemory, Value, copy, same};
use std::alloc::Global;
use std::marker::Model;
use std::rc::Rc;

/// The items of a list, as a balanced tree whose nodes may have several owners. Contracts see the
/// list.
#[cycle(items)]
#[derive(Drop)]
pub(crate) struct ItemTree {
    node: ItemNode,
}

/// The root of a tree, by the number of items: none, one, or more.
#[cycle(items)]
#[derive(Drop)]
enum ItemNode {
    Empty,
    Item(Rc<Value>),
    Fork(Rc<ItemBranch>),
}

/// A node with two sides: the tree of the first items, and the tree of the items after them.
/// Neither side is empty.
#[cycle(items)]
#[derive(Drop)]
struct ItemBranch {
    left: ItemTree,
    right: ItemTree,
    /// The number of items of both sides.
    len: usize,
    /// The number of levels from this node down, including its own; 255 if there are more.
    height: u8,
}

impl Model for ItemTree {
    ghost use Rattle.std.specs.Prelude.{List, length};
    ghost use Rattle.std.specs.Coded.{codes};
    ghost use Rattle.ag_value.specs.declared.value.Value.{Value as AttributeValue};
    // what the prover knows of the Rust type `Value`; only `coded` uses it
    ghost use Rattle.ag_value.specs.contracts.value.Value as value_row;

    ghost Value = { List AttributeValue };

    ghost coded = { Prim.hlevel (codes, value_row.the_row.coded) };

    ghost use Rattle.list_tree.specs.Nodes.{IsNode, items_of};

    ghost view = { λ t. items_of t.node };

    ghost invariant = { λ t. IsNode t.node };

    ghost size = { length };

    ghost use Rattle.std.proofs.Common.{arith, length-append};

    ghost size_decreases = { λ t h. Prim.grind (arith, length-append) };
}

/// The two sides of a tree of at least two items.
#[derive(Clone, Copy)]
pub(crate) struct Sides<'a> {
    pub left: &'a ItemTree,
    pub right: &'a ItemTree,
}

impl ItemTree {
    /// Returns the tree of no items.
    pub fn empty() -> ItemTree
        ensures { result ≡ [] }
    {
        ItemTree {
            node: ItemNode::Empty,
        }
    }

    /// Returns the tree of one item. Fails with NoMemory.
    pub fn single(alloc: Global, item: Value) -> Result<ItemTree, NoMemory>
        ensures { IfOk result (λ tree. tree ≡ item ∷ []) }
    {
        let item = Rc::new(alloc, item)?;
        Ok(ItemTree {
            node: ItemNode::Item(item),
        })
    }

    /// Removes the last `count` items from a vector and returns the tree of them. Each node has
    /// half of its items on each side, and one more on the left if their number is odd. So the tree
    /// is balanced. Fails with NoMemory, and may then have removed some of the items.
    pub fn take_last(
        alloc: Global,
        items: &mut Vec<Value>,
        count: usize,
    ) -> Result<ItemTree, NoMemory>
        requires { count ≤ length items.old.items }
        ensures parts { IfOk result (λ tree. items.old.items ≡ items.new.items ++ tree) }
        ensures count { IfOk result (λ tree. length tree ≡ count) }
    {
        if count == 0 {
            return Ok(ItemTree::empty());
        }
        if count == 1 {
            let Some(item) = items.pop() else {
                unreachable!()
            };
            return ItemTree::single(alloc, item);
        }
        let right = ItemTree::take_last(alloc, items, count / 2)?;
        let left = ItemTree::take_last(alloc, items, count - count / 2)?;
        ItemTree::pair(alloc, left, right)
    }

    /// Returns the same items for one more owner. Takes no memory. Fails with NoMemory if the root
    /// has 2^64 - 1 owners.
    pub fn share(&self) -> Result<ItemTree, NoMemory>
        ensures { IfOk result (λ tree. tree ≡ self.now) }
    {
        let node = match &self.node {
            ItemNode::Empty => ItemNode::Empty,
            ItemNode::Item(item) => ItemNode::Item(item.clone()?),
            ItemNode::Fork(branch) => ItemNode::Fork(branch.clone()?),
        };
        Ok(ItemTree { node })
    }

    /// Returns the number of items. Takes constant time.
    pub fn len(&self) -> usize
        ensures { result ≡ length self.now }
    {
        match &self.node {
            ItemNode::Empty => 0,
            ItemNode::Item(_) => 1,
            ItemNode::Fork(branch) => branch.as_ref().len,
        }
    }

    /// Returns the number of levels: 0 for no items, 1 for one item, and at most 255. No contract
    /// depends on this number.
    pub fn height(&self) -> u8 {
        match &self.node {
            ItemNode::Empty => 0,
            ItemNode::Item(_) => 1,
            ItemNode::Fork(branch) => branch.as_ref().height,
        }
    }

    /// Returns the two sides, or `None` if there are fewer than two items.
    pub fn sides(&self) -> Option<Sides<'_>>
        ensures { IfSome result (λ sides. IsCut self.now sides.left.now sides.right.now) }
    {
        match &self.node {
            ItemNode::Fork(branch) => {
                let branch = branch.as_ref();
                Some(Sides {
                    left: &branch.left,
                    right: &branch.right,
                })
            }
            _ => None,
        }
    }

    /// Returns the tree of the items of `left` and then those of `right`: a node that has these
    /// trees as its sides. If one of the trees is empty, returns the other one, and takes no
    /// memory. Fails with NoMemory.
    pub fn pair(alloc: Global, left: ItemTree, right: ItemTree) -> Result<ItemTree, NoMemory>
        requires { length left + length right < 2 ^ 64 }
        ensures { IfOk result (λ tree. tree ≡ left ++ right) }
    {
        if left.len() == 0 {
            return Ok(right);
        }
        if right.len() == 0 {
            return Ok(left);
        }
        let len = left.len() + right.len();
        let height = left.height().max(right.height()).saturating_add(1);
        let branch = Rc::new(
            alloc,
            ItemBranch {
                left,
                right,
                len,
                height,
            },
        )?;
        Ok(ItemTree {
            node: ItemNode::Fork(branch),
        })
    }

    /// Returns the item at an index from 0, or `None` if there are at most `index` items. Takes
    /// time that grows with the number of levels.
    pub fn get(&self, index: usize) -> Option<&Value>
        ensures { option_copied result ≡ slice_get self.now index }
    {
        match &self.node {
            ItemNode::Empty => None,
            ItemNode::Item(item) => { if index == 0 { Some(&**item) } else { None } }
            ItemNode::Fork(branch) => {
                let branch = branch.as_ref();
                let before = branch.left.len();
                if index < before {
                    branch.left.get(index)
                } else {
                    branch.right.get(index - before)
                }
            }
        }
    }

    /// Appends a copy of each item to `out`. Fails with NoMemory, and may then have appended some
    /// of the copies.
    pub fn push_items(&self, alloc: Global, out: &mut Vec<Value>) -> Result<(), NoMemory>
        ensures { OnOk result (out.new.items ≡ out.old.items ++ self.now) }
    {
        match &self.node {
            ItemNode::Empty => Ok(()),
            ItemNode::Item(item) => {
                out.push(copy(alloc, &**item)?)?;
                Ok(())
            }
            ItemNode::Fork(branch) => {
                let branch = branch.as_ref();
                branch.left.push_items(alloc, out)?;
                branch.right.push_items(alloc, out)
            }
        }
    }

    /// Returns whether `items` are the items of this tree. Takes no memory.
    pub fn has_items(&self, items: &[Value]) -> bool
        ensures { IsTrue result ↔ (self.now ≡ items.now) }
    {
        if self.len() != items.len() {
            return false;
        }
        match &self.node {
            ItemNode::Empty => true,
            ItemNode::Item(item) => same(&**item, &items[0]),
            ItemNode::Fork(branch) => {
                let branch = branch.as_ref();
                let (before, after) = items.split_at(branch.left.len());
                branch.left.has_items(before) && branch.right.has_items(after)
            }
        }
    }
}
