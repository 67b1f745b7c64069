//! The tokens of a sentence before the subtree of a node.

use ag_grammar::{Direction, Grammar, Item, Production, Terminal};
use tree_index::{NodeKind, TokenCounts, TreeIndex};

/// Returns the number of literals of a production before the child at a place. Places count from 1.
fn literals_before(production: &Production, place: u16) -> u32 {
    let mut literals = 0u32;
    let mut places = 0u16;
    for item in production.items.as_slice() {
        match item {
            Item::Terminal(Terminal::Literal(_)) => literals = literals.saturating_add(1),
            _ => places = places.saturating_add(1),
        }
        if places == place {
            return literals;
        }
    }
    literals
}

/// Returns the number of tokens of the sentence before the subtree at the end of a path of places.
/// Returns `None` if no node is there. `grammar` has to be the grammar of the tree, and `counts`
/// has to be made from this index: otherwise the result may be `None` or a wrong number.
pub fn tokens_before(
    grammar: &Grammar,
    index: &TreeIndex,
    counts: &TokenCounts,
    places: &[u16],
) -> Option<u32> {
    let mut node = 0u32;
    let mut tokens = 0u32;
    for place in places {
        let NodeKind::Node(number) = index.kind(node)? else {
            return None;
        };
        let production = grammar.productions().get(usize::from(number))?;
        let child = index.child(grammar, node, *place)?;
        tokens = tokens.saturating_add(literals_before(production, *place));
        tokens = tokens.saturating_add(tokens_between(index, counts, node, child)?);
        node = child;
    }
    Some(tokens)
}

/// Returns the number of tokens in the subtrees of those children of `node` that come before the
/// child `child` in the sentence. Returns `None` if the index or the counts lack one of the two
/// nodes.
fn tokens_between(index: &TreeIndex, counts: &TokenCounts, node: u32, child: u32) -> Option<u32> {
    // The index numbers nodes from the end of the file on. In the file of an odd pass, the numbers
    // of a node's children rise from left to right, so the subtrees left of `child` have the
    // numbers between those of `node` and `child`. In the file of an even pass they have the
    // numbers after the subtree of `child`, up to the last number of the subtree of `node`.
    match Direction::of_pass(index.pass()).turned() {
        Direction::LeftToRight => counts.between(node.checked_add(1)?, child),
        Direction::RightToLeft => counts.between(end_of(index, child)?, end_of(index, node)?),
    }
}

/// Returns the number that the index gives to the first node after a node's subtree: one more than
/// the last number in the subtree.
fn end_of(index: &TreeIndex, node: u32) -> Option<u32> {
    node.checked_add(index.size(node)?)
}
