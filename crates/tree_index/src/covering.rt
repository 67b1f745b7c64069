//! The deepest node of a production whose subtree has given tokens of the sentence.

ghost use Rattle.std.specs.Prelude.{IfOk, IfSome};
ghost use Rattle.tree_index.specs.Nodes.{HasChild, LeadsToNode};

use crate::index::{NodeKind, TreeIndex};
use crate::tokens::TokenCounts;
use ag_grammar::limits::MAX_DEPTH;
use ag_grammar::{Grammar, Item, Terminal};
use ag_value::NoMemory;
use std::alloc::Global;

/// A range of the tokens of a node's subtree. These tokens are numbered from 0, in the order of the
/// sentence.
#[derive(Clone, Copy, PartialEq, Eq)]
pub struct TokenRange {
    /// The number of the first token of the range.
    pub first: u32,
    /// The number of the last token of the range; not less than `first`.
    pub last: u32,
}

/// A child whose subtree has all tokens of a range.
#[derive(Clone, Copy)]
struct Step {
    /// The child's number in the index.
    node: u32,
    /// The child's place, from 1.
    place: u16,
    /// The range among the tokens of the child's subtree.
    range: TokenRange,
}

impl TokenRange {
    /// Returns whether the range is within the first `count` tokens.
    fn is_within(self, count: u32) -> bool {
        self.last < count
    }

    /// Returns the range of the same tokens, numbered without the first `count` tokens: reduces
    /// both numbers by `count`. Returns `None` if the range begins before token `count`.
    fn after(self, count: u32) -> Option<TokenRange> {
        Some(TokenRange {
            first: self.first.checked_sub(count)?,
            last: self.last.checked_sub(count)?,
        })
    }
}

impl TreeIndex {
    /// Returns the places from the root to the deepest node of a production whose subtree has all
    /// tokens of a range. The range is one of the root's subtree, so its tokens are numbered in the
    /// whole sentence. `counts` are the counts of this index. Returns the empty list, the path of
    /// the root, if the tree does not have all tokens of the range. Fails if memory is refused.
    pub fn find_covering(
        &self,
        alloc: Global,
        grammar: &Grammar,
        counts: &TokenCounts,
        range: TokenRange,
    ) -> Result<Vec<u16>, NoMemory>
        ensures node { IfOk result (λ places. LeadsToNode grammar.now self.now places.items) }
    {
        let mut places = Vec::new(alloc);
        let mut node = 0u32;
        let mut range = range;
        // a tree that was read has at most `MAX_DEPTH` levels
        for _level in 0..MAX_DEPTH {
            let Some(step) = self.covering_child(grammar, counts, node, range) else {
                return Ok(places);
            };
            places.push(step.place)?;
            node = step.node;
            range = step.range;
        }
        Ok(places)
    }

    /// Returns the child, other than a token, whose subtree has all tokens of a range, if `node`
    /// has such a child. The range is one of the tokens of the subtree of `node`.
    fn covering_child(
        &self,
        grammar: &Grammar,
        counts: &TokenCounts,
        node: u32,
        range: TokenRange,
    ) -> Option<Step>
        ensures child { IfSome result (λ step. HasChild grammar.now self.now node step.place step.node) }
    {
        let NodeKind::Node(number) = self.kind(node)? else {
            return None;
        };
        let production = grammar.productions().get(usize::from(number))?;
        let mut range = range;
        let mut place = 0u16;
        for item in production.items.as_slice() {
            let count = match item {
                Item::Terminal(Terminal::Literal(_)) => 1,
                Item::Terminal(Terminal::Class(_)) => {
                    place = place.saturating_add(1);
                    1
                }
                Item::Symbol(_) => {
                    place = place.saturating_add(1);
                    let child = self.child(grammar, node, place)?;
                    let count = counts.of_subtree(self, child)?;
                    if range.is_within(count) {
                        return Some(Step {
                            node: child,
                            place,
                            range,
                        });
                    }
                    count
                }
            };
            range = range.after(count)?;
        }
        None
    }
}
