//! The tokens of a tree in the order of the sentence.

use crate::index::{NodeKind, TreeIndex};
use ag_grammar::limits::MAX_NODES;
use ag_grammar::{Grammar, Item, Terminal};
use ag_value::NoMemory;
use std::alloc::Global;

/// A bound on the number of turns of the loop in `next` for one token, in a tree of `MAX_NODES`
/// nodes: one turn to enter each node, one to leave it, and one at which no node is open.
const MAX_TURNS: u32 = 2 * MAX_NODES + 1;

/// A token of a tree.
#[derive(Clone, Copy, PartialEq, Eq)]
pub enum TreeToken {
    /// The literal of this number.
    Literal(u16),
    /// The token of a class: the node with this number in the index.
    Word(u32),
}

/// An open node: the walk is visiting the tokens of its subtree.
#[derive(Clone, Copy)]
struct OpenRecord {
    /// The number of the node in the index.
    node: u32,
    /// The index, from 0, of the next item of the node's production.
    item: usize,
    /// The number of children before that item.
    children: u16,
}

/// What follows in the order of the sentence.
#[derive(Clone, Copy)]
enum Next {
    /// A token.
    Token(TreeToken),
    /// The tokens of the subtree of this child.
    Below(u32),
    /// No more tokens of the open node.
    Nothing,
}

/// A walk over the tokens of a tree in the order of the sentence.
#[derive(Drop)]
pub struct TokenWalk<'a> {
    grammar: &'a Grammar,
    index: &'a TreeIndex,
    /// The open nodes, from the root down.
    nodes: Vec<OpenRecord>,
}

impl<'a> TokenWalk<'a> {
    /// Returns a walk over all tokens of a tree. Fails if memory is refused.
    pub fn new(
        alloc: Global,
        grammar: &'a Grammar,
        index: &'a TreeIndex,
    ) -> Result<TokenWalk<'a>, NoMemory> {
        let mut walk = TokenWalk {
            grammar,
            index,
            nodes: Vec::new(alloc),
        };
        walk.open(0)?;
        Ok(walk)
    }

    /// Returns the next token; `None` after the last one. Fails if memory is refused.
    pub fn next(&mut self) -> Result<Option<TreeToken>, NoMemory> {
        for _turn in 0..MAX_TURNS {
            // the innermost open node; `pass` or `go_on` puts it back, unless it has no more items
            let Some(open) = self.nodes.pop() else {
                return Ok(None);
            };
            match self.next_of(open) {
                Next::Token(token) => {
                    self.pass(open, token)?;
                    return Ok(Some(token));
                }
                Next::Below(child) => {
                    self.go_on(open, 1)?;
                    self.open(child)?;
                }
                Next::Nothing => {}
            }
        }
        Ok(None)
    }

    /// Adds a node, of which nothing was visited, to the open nodes.
    fn open(&mut self, node: u32) -> Result<(), NoMemory> {
        Ok(
            self.nodes.push(OpenRecord {
                node,
                item: 0,
                children: 0,
            })?,
        )
    }

    /// Puts an open node back on the list, with its next item visited. This item is `token`.
    fn pass(&mut self, open: OpenRecord, token: TreeToken) -> Result<(), NoMemory> {
        match token {
            TreeToken::Literal(_) => self.go_on(open, 0),
            TreeToken::Word(_) => self.go_on(open, 1),
        }
    }

    /// Puts an open node back on the list, with its next item visited. `children` is 1 if this item
    /// is a child, and 0 if it is a literal.
    fn go_on(&mut self, open: OpenRecord, children: u16) -> Result<(), NoMemory> {
        Ok(
            self.nodes.push(OpenRecord {
                node: open.node,
                item: open.item.saturating_add(1),
                children: open.children.saturating_add(children),
            })?,
        )
    }

    /// Returns what the next item of an open node is. Returns `Nothing` after the last item, and
    /// also if the grammar does not have the node's production, or the index does not have the
    /// child.
    fn next_of(&self, open: OpenRecord) -> Next {
        let Some(NodeKind::Node(number)) = self.index.kind(open.node) else {
            return Next::Nothing;
        };
        let Some(production) = self.grammar.productions().get(usize::from(number)) else {
            return Next::Nothing;
        };
        let place = open.children.saturating_add(1);
        let child = self.index.child(self.grammar, open.node, place);
        match (production.items.as_slice().get(open.item), child) {
            (Some(Item::Terminal(Terminal::Literal(literal))), _) => {
                Next::Token(TreeToken::Literal(*literal))
            }
            (Some(Item::Terminal(Terminal::Class(_))), Some(child)) => {
                Next::Token(TreeToken::Word(child))
            }
            (Some(Item::Symbol(_)), Some(child)) => Next::Below(child),
            _ => Next::Nothing,
        }
    }
}
