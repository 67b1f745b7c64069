//! Tables as persistent balanced trees.

ghost use Rattle.std.specs.Prelude.{◌≡◌, ◌∷◌, ◌++◌, [], length, map, IfOk, IfSome, MatchOption};
ghost use Rattle.ag_value.specs.Measure.{depth_of, weight_of};
ghost use Rattle.ag_value.specs.Spelling.{joined, spelling_of_pair};
ghost use Rattle.ag_value.specs.Well.{IsWell};
ghost use Rattle.ag_value.specs.declared.value.Value.TheVariants as v;
ghost use Rattle.table_tree.specs.Splits.{IsSplit};
ghost use Rattle.table_tree.specs.Totals.{AreBytes, AreSmall, AreTotals};

use crate::entry::Entry;
use crate::totals::Totals;
use ag_value::{Items, NoMemory};
use std::alloc::Global;
use std::fmt;
use std::marker::Model;
use std::rc::Rc;

/// The least number of bytes of a long block. A *block* is the list of the encodings of all pairs
/// of a subtree, one after the other. The root of a subtree stores the block if the block has the
/// length of a long or of a short one. The limits only influence time and memory: `append_encoding`
/// copies blocks in place of single pairs, but `put` makes the blocks of the nodes on the way to
/// its key anew.
const MIN_BLOCK: usize = 768;

/// The greatest number of bytes of a long block.
const MAX_BLOCK: usize = 2048;

/// The least number of bytes of a short block. A new long block is copied from the largest blocks
/// below it, long or short, and from single pairs elsewhere. Copying a block is cheaper than
/// copying its pairs, and short blocks leave fewer single pairs.
const MIN_SHORT_BLOCK: usize = 192;

/// The greatest number of bytes of a short block.
const MAX_SHORT_BLOCK: usize = 512;

/// A well table: its pairs in the order of their keys, as a balanced tree whose nodes may have
/// several owners. Contracts see the list of the pairs. The table that `put` returns has new nodes
/// on the way to the key, and shares all others with the old table.
#[cycle(tree)]
#[derive(Drop)]
pub struct TableTree {
    node: TableNode,
}

/// The root of a tree, or `Leaf` if the tree is empty.
#[cycle(tree)]
#[derive(Drop)]
enum TableNode {
    Leaf,
    Fork(Rc<TableBranch>),
}

/// A node: a pair, the tree of the pairs before it, and the tree of the pairs after it.
#[cycle(tree)]
#[derive(Drop)]
struct TableBranch {
    left: TableTree,
    entry: Rc<Entry>,
    right: TableTree,
    /// The totals of all these pairs.
    totals: Totals,
    /// The number of nodes on the longest way down, from this node on, or 255 if the number is
    /// greater.
    height: u8,
    /// The block of all these pairs, if it has the length of a long or a short one.
    block: Option<Items<u8>>,
}

impl Model for TableTree {
    ghost use Rattle.std.specs.Prelude.{ℕ, List, length};
    ghost use Rattle.std.specs.Coded.{codes};
    ghost use Rattle.ag_value.specs.declared.value.Value.{Value as AttributeValue};
    // what the prover knows of the Rust type `Value`; only `coded` uses it
    ghost use Rattle.ag_value.specs.contracts.value.Value as value_row;

    ghost Value = { List (List ℕ × AttributeValue) };

    ghost coded = { Prim.hlevel (codes, value_row.the_row.coded) };

    ghost use Rattle.table_tree.specs.Nodes.{IsNode, pairs_of};

    ghost view = { λ t. pairs_of t.node };

    ghost invariant = { λ t. IsNode t.node };

    ghost size = { length };

    ghost use Rattle.std.proofs.Common.{arith, length-append};

    ghost size_decreases = { λ t h. Prim.grind (arith, length-append) };
}

impl fmt::Debug for TableTree {
    fn fmt<W: fmt::Write>(&self, f: &mut fmt::Formatter<W>) -> fmt::Result {
        f.debug_struct("TableTree")
            .field("len", &self.len())
            .finish()
    }
}

/// The root of a tree that is not empty: a pair, and the trees of the pairs before and after it.
#[derive(Clone, Copy)]
pub(crate) struct Root<'a> {
    pub left: &'a TableTree,
    pub entry: &'a Rc<Entry>,
    pub right: &'a TableTree,
}

impl TableTree {
    /// Returns the empty table. Takes no memory.
    pub fn new() -> TableTree
        ensures { result ≡ [] }
    {
        TableTree {
            node: TableNode::Leaf,
        }
    }

    /// Returns the same table for one more owner, in constant time. Takes no memory. Fails with
    /// NoMemory if its root has 2^64 - 1 owners.
    pub fn share(&self) -> Result<TableTree, NoMemory>
        ensures { IfOk result (λ table. table ≡ self.now) }
    {
        match &self.node {
            TableNode::Leaf => Ok(TableTree::new()),
            TableNode::Fork(branch) => Ok(TableTree {
                node: TableNode::Fork(branch.clone()?),
            }),
        }
    }

    /// Returns the number of pairs. Takes constant time.
    pub fn len(&self) -> usize
        ensures { result ≡ length self.now }
    {
        self.totals().pairs as usize
    }

    /// Returns the weight of the table, which is the length of its encoding in bytes: five bytes
    /// before the pairs, and the bytes of the pairs. Takes constant time.
    pub fn weight(&self) -> u64
        ensures weight { result ≡ weight_of (v.Table self.now) }
        ensures well { IsWell (v.Table self.now) }
    {
        5 + self.totals().bytes as u64
    }

    /// Returns the depth of the table, which is one more than that of its deepest value, and 1 if
    /// it is empty. Takes constant time.
    pub fn depth(&self) -> u32
        ensures { result ≡ depth_of (v.Table self.now) }
    {
        1 + self.totals().depth
    }

    /// Returns the totals of all pairs. The clauses `small`, `well` and `bytes` state what callers
    /// need of the table: it is within the limits, and its encoding consists of bytes.
    #[inline(always)]
    pub(crate) fn totals(&self) -> Totals
        ensures totals { AreTotals self.now result }
        ensures small { AreSmall result }
        ensures well { IsWell (v.Table self.now) }
        ensures bytes { AreBytes (joined (map spelling_of_pair self.now)) }
    {
        match &self.node {
            TableNode::Leaf => Totals::none(),
            TableNode::Fork(branch) => branch.as_ref().totals,
        }
    }

    /// Returns the number of levels, or 255 if there are more. That it is at most
    /// 1.45 · log2(n + 2) for n pairs is tested, and not proved. The functions that make and
    /// balance nodes call it, and so do tests.
    pub fn height(&self) -> u8 {
        match &self.node {
            TableNode::Leaf => 0,
            TableNode::Fork(branch) => branch.as_ref().height,
        }
    }

    /// Returns the block (the encodings of all pairs, one after the other), if the root stores it.
    #[inline(always)]
    pub(crate) fn block(&self) -> Option<&[u8]>
        ensures bytes { IfSome result (λ bytes. bytes.now ≡ joined (map spelling_of_pair self.now)) }
        ensures well { IfSome result (λ _. IsWell (v.Table self.now)) }
    {
        match &self.node {
            TableNode::Leaf => None,
            TableNode::Fork(branch) => match &branch.as_ref().block {
                Some(block) => Some(block.as_slice()),
                None => None,
            },
        }
    }

    /// Returns the root, or `None` if the table is empty.
    #[inline(always)]
    pub(crate) fn root(&self) -> Option<Root<'_>>
        ensures { MatchOption result (self.now ≡ []) (λ root.
            IsSplit self.now root.left.now root.entry.now.value root.right.now) }
    {
        match &self.node {
            TableNode::Leaf => None,
            TableNode::Fork(branch) => {
                let branch = branch.as_ref();
                Some(Root {
                    left: &branch.left,
                    entry: &branch.entry,
                    right: &branch.right,
                })
            }
        }
    }

    /// Returns the table of the pairs of `left`, the pair of `entry` and the pairs of `right`, with
    /// `entry` in its root. Takes memory for one node and for its block, if it has one. Fails with
    /// NoMemory.
    pub(crate) fn fork(
        alloc: Global,
        left: TableTree,
        entry: Rc<Entry>,
        right: TableTree,
    ) -> Result<TableTree, NoMemory>
        requires { IsWell (v.Table (left ++ entry.value ∷ right)) }
        ensures { IfOk result (λ table. table ≡ left ++ entry.value ∷ right) }
    {
        let totals = Totals::joined(left.totals(), entry.as_ref().totals(), right.totals());
        let height = left.height().max(right.height()).saturating_add(1);
        let block = block_of(alloc, &left, entry.as_ref(), &right, totals)?;
        let branch = Rc::new(
            alloc,
            TableBranch {
                left,
                entry,
                right,
                totals,
                height,
                block,
            },
        )?;
        Ok(TableTree {
            node: TableNode::Fork(branch),
        })
    }
}

/// Returns whether a number of bytes is the length of a long or a short block.
#[inline(always)]
fn is_block_length(len: usize) -> bool {
    (MIN_BLOCK <= len && len <= MAX_BLOCK) || (MIN_SHORT_BLOCK <= len && len <= MAX_SHORT_BLOCK)
}

/// Returns the block of the pairs of `left`, the pair of `entry` and the pairs of `right`, if
/// `totals.bytes` is the length of a long or a short block, and otherwise `None`. `totals` are
/// those of all these pairs. Takes memory for the block. Fails with NoMemory.
fn block_of(
    alloc: Global,
    left: &TableTree,
    entry: &Entry,
    right: &TableTree,
    totals: Totals,
) -> Result<Option<Items<u8>>, NoMemory>
    ensures { IfOk result (λ block. IfSome block (λ bytes.
        bytes ≡ joined (map spelling_of_pair (left.now ++ entry.now ∷ right.now)))) }
{
    let len = totals.bytes as usize;
    if !is_block_length(len) {
        return Ok(None);
    }
    let mut bytes = Vec::with_capacity(alloc, len)?;
    left.append_pairs(&mut bytes)?;
    bytes.extend_from_slice(entry.bytes())?;
    right.append_pairs(&mut bytes)?;
    Ok(Some(Items::from_vec(bytes)))
}
