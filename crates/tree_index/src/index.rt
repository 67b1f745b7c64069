//! The index of a tree file.

ghost use Rattle.std.specs.Prelude.{◌≡◌, ◌-◌, ◌^◌, ◌<◌, ◌≤◌, IfNone, IfOk, IfSome, OnOk, [], length};
ghost use Rattle.ag_grammar.specs.declared.grammar.Production.{Production as TheProduction};
ghost use Rattle.ag_grammar.specs.grammars.Accepted.{IsAccepted};
ghost use Rattle.ag_grammar.specs.grammars.AttributeGrammar.{IsProduction, stored_items};
ghost use Rattle.ag_grammar.specs.grammars.Passes.{nth};
ghost use Rattle.tree_index.specs.Nodes.{HasChild, HasCount, HasItem, HasLater, HasNoChild, HasNoLater, HasNoNodeAt, HasNodeAt, end_of, kind_in, size_of};
ghost use Rattle.tree_index.specs.Reading.{HasAdded, HasClosed, in_four_bytes};

use ag_grammar::{Direction, Grammar, Item, Terminal};
use ag_value::NoMemory;
use std::alloc::Global;

/// What a node is.
#[derive(Clone, Copy, PartialEq, Eq)]
pub enum NodeKind {
    /// A node of the production of this number.
    Node(u16),
    /// A token of the class of this number.
    Token(u16),
}

/// For each node of a tree file what it is, where its record ends, and the number of nodes of its
/// subtree. Nodes are numbered from 0 in the order in which a file is read from its end: each node
/// before its children.
#[derive(Drop)]
pub struct TreeIndex {
    pass: u16,
    ends: Vec<u64>,
    kinds: Vec<NodeKind>,
    sizes: Vec<u32>,
}

impl TreeIndex {
    /// Returns the index of no nodes, of the file of a pass.
    pub(crate) fn new(alloc: Global, pass: u16) -> TreeIndex
        ensures pass { result.pass ≡ pass }
        ensures ends { result.ends.items ≡ [] }
        ensures kinds { result.kinds.items ≡ [] }
        ensures sizes { result.sizes.items ≡ [] }
    {
        TreeIndex {
            pass,
            ends: Vec::new(alloc),
            kinds: Vec::new(alloc),
            sizes: Vec::new(alloc),
        }
    }

    /// Adds the node whose record ends at offset `end`, in bytes, and returns its number. The size
    /// of its subtree is 1 until `close` sets it. Fails if memory is refused.
    pub(crate) fn add(&mut self, end: u64, kind: NodeKind) -> Result<u32, NoMemory>
        ensures added { OnOk result (HasAdded end kind self.old self.new) }
        ensures number { IfOk result (λ number. number ≡ in_four_bytes (length self.old.ends.items)) }
    {
        let number = number_of(self.ends.len());
        self.ends.push(end)?;
        self.kinds.push(kind)?;
        self.sizes.push(1)?;
        Ok(number)
    }

    /// Sets the size of a node's subtree to the number of nodes from this node to the end of the
    /// index. Has to be called when exactly the other nodes of the subtree were added after the
    /// node. Does nothing if the index does not have the node.
    pub(crate) fn close(&mut self, node: u32)
        ensures { HasClosed node self.old self.new }
    {
        let count = number_of(self.sizes.len().saturating_sub(node as usize));
        if let Some(size) = self.sizes.get_mut(node as usize) {
            *size = count;
        }
    }

    /// Returns the number of the pass that wrote the file; 0 for the parser.
    pub fn pass(&self) -> u16 {
        self.pass
    }

    /// Returns the number of nodes of the index, at most 4,294,967,295.
    pub fn node_count(&self) -> u32
        ensures { result ≡ in_four_bytes (length self.now.ends.items) }
    {
        number_of(self.ends.len())
    }

    /// Returns the offset in bytes at which the record of a node ends; `None` if the index does not
    /// have the node.
    pub fn end(&self, node: u32) -> Option<u64>
        ensures { result ≡ end_of self.now node }
    {
        self.ends.get(node as usize).copied()
    }

    /// Returns what a node is; `None` if the index does not have the node.
    pub fn kind(&self, node: u32) -> Option<NodeKind>
        ensures { result ≡ kind_in self.now node }
    {
        self.kinds.get(node as usize).copied()
    }

    /// Returns the number of nodes of the subtree of a node; `None` if the index does not have the
    /// node.
    pub fn size(&self, node: u32) -> Option<u32>
        ensures { result ≡ size_of self.now node }
    {
        self.sizes.get(node as usize).copied()
    }

    /// Returns the symbol or the class of a node, as an item of a right side. Returns `None` if the
    /// index does not have the node, or the grammar does not have its production.
    pub fn item(&self, grammar: &Grammar, node: u32) -> Option<Item>
        ensures { IfSome result (HasItem grammar.now self.now node) }
    {
        match self.kind(node)? {
            NodeKind::Node(number) => {
                let production = grammar.productions().get(usize::from(number))?;
                Some(Item::Symbol(production.left))
            }
            NodeKind::Token(class) => Some(Item::Terminal(Terminal::Class(class))),
        }
    }

    /// Returns the number of children of a node, which is 0 for a token. Returns 0 also if the
    /// index does not have the node, or if the grammar does not have its production.
    pub fn child_count(&self, grammar: &Grammar, node: u32) -> u16
        ensures { HasCount grammar.now (kind_in self.now node) result }
    {
        match self.kind(node) {
            Some(NodeKind::Node(number)) => child_count(grammar, number),
            _ => 0,
        }
    }

    /// Returns the number, in the index, of a node's child at `place`, which counts from 1. Returns
    /// `None` if the node has no such child.
    pub fn child(&self, grammar: &Grammar, node: u32, place: u16) -> Option<u32>
        ensures child { IfSome result (HasChild grammar.now self.now node place) }
        ensures complete { IfNone result (HasNoChild grammar.now self.now node place) }
    {
        let count = self.child_count(grammar, node);
        if place == 0 || count < place {
            return None;
        }
        // an odd pass writes children from right to left, so they come from left to right if its
        // file is read from the end
        let direction = Direction::of_pass(self.pass).turned();
        self.child_after(node, others_before(direction, count, place))
    }

    /// Returns the number of the child of a node that comes after exactly `before` other children
    /// of the node in the order of the index. If the node has no such child, a returned number has
    /// no meaning. Returns `None` if the index lacks one of the other children, or if a number
    /// would exceed 4,294,967,295.
    fn child_after(&self, node: u32, before: u16) -> Option<u32>
        ensures later { IfSome result (HasLater self.now node before) }
        ensures complete { IfNone result (HasNoLater self.now node before) }
    {
        let mut child = node.checked_add(1)?;
        for _ in 0..before {
            child = child.checked_add(self.size(child)?)?;
        }
        Some(child)
    }

    /// Returns the number of the node at the end of a path. `places` are the places of children on
    /// the path from the root, each from 1. Returns `None` if there is no such node.
    pub fn find(&self, grammar: &Grammar, places: &[u16]) -> Option<u32>
        ensures node { IfSome result (HasNodeAt grammar.now self.now places.now) }
        ensures complete { IfNone result (HasNoNodeAt grammar.now self.now places.now) }
    {
        let mut node = 0u32;
        for place in places {
            node = self.child(grammar, node, *place)?;
        }
        Some(node)
    }
}

/// Returns the number of children that come before the child at `place` (from 1) in a direction, if
/// a node has `count` children.
fn others_before(direction: Direction, count: u16, place: u16) -> u16
    requires from_one { 0 < place }
    requires within { place ≤ count }
    ensures nth { nth direction count result ≡ place - 1 }
    ensures less { result < count }
{
    match direction {
        Direction::LeftToRight => place - 1,
        Direction::RightToLeft => count - place,
    }
}

/// Returns a count of nodes as a `u32`, or 4,294,967,295 if the count is greater.
fn number_of(count: usize) -> u32
    ensures { result ≡ in_four_bytes count }
{
    count.min(u32::MAX as usize) as u32
}

/// Returns the number of children of a node of a production; 0 if the grammar does not have the
/// production.
pub(crate) fn child_count(grammar: &Grammar, production: u16) -> u16
    ensures count { (q : TheProduction) → IsProduction grammar.now production q
        → result ≡ length (stored_items q.items) }
    ensures accepted { IsAccepted grammar.now }
{
    match grammar.productions().get(usize::from(production)) {
        Some(production) => stored_among(production.items.as_slice()),
        None => 0,
    }
}

/// Returns the number of items that are children: symbols and classes, which are nodes of a tree.
fn stored_among(items: &[Item]) -> u16
    requires { length items.now < 2 ^ 16 }
    ensures { result ≡ length (stored_items items.now) }
{
    let mut count = 0;
    for item in items {
        if item.is_stored_child() {
            count += 1;
        }
    }
    count
}
