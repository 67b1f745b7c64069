//! The numbers of tokens in the subtrees of a tree.

ghost use Rattle.std.specs.Prelude.{◌≡◌, ◌^◌, ◌<◌, IfNone, IfOk, IfSome, length};
ghost use Rattle.tree_index.specs.Nodes.{kind_in};
ghost use Rattle.tree_index.specs.Tokens.{AreCounts, HasNoTokens, HasTokens, literal_count, own_count};

use crate::index::{NodeKind, TreeIndex};
use ag_grammar::{Grammar, Item, Production, Terminal};
use ag_value::NoMemory;
use std::alloc::Global;

/// The numbers of tokens in the subtrees of a tree. Literals count as tokens.
#[derive(Drop)]
pub struct TokenCounts {
    /// The sums of the nodes' own tokens, which `own_tokens` counts: element i is the sum for the
    /// nodes before node i of the index, and the last element that for all nodes.
    before: Vec<u32>,
}

impl TokenCounts {
    /// Counts the tokens of a tree. Takes memory for 4 bytes a node. Fails with `NoMemory` if
    /// memory is refused, and also if there are more than 4,294,967,295 tokens.
    pub fn new(alloc: Global, grammar: &Grammar, index: &TreeIndex) -> Result<TokenCounts, NoMemory>
        ensures { IfOk result (AreCounts grammar.now index.now) }
    {
        let mut before = Vec::new(alloc);
        let mut count = 0u32;
        before.push(count)?;
        for node in 0..index.node_count() {
            let Some(sum) = count.checked_add(own_tokens(grammar, index, node)) else {
                return Err(NoMemory::NoMemory);
            };
            count = sum;
            before.push(count)?;
        }
        Ok(TokenCounts { before })
    }

    /// Returns the number of own tokens of the nodes from `first` to `after` - 1, all together. A
    /// node's own tokens are the token that it is, or the literals of its production. Those of the
    /// nodes below it are not counted. Returns `None` if `first` or `after` is greater than the
    /// number of nodes, or if the nodes before `after` have fewer tokens than those before `first`.
    pub fn between(&self, first: u32, after: u32) -> Option<u32> {
        let before_first = *self.before.get(first as usize)?;
        self.before.get(after as usize)?.checked_sub(before_first)
    }

    /// Returns the number of tokens of the subtree of a node. `index` is the index from which the
    /// counts were made. Returns `None` if the index does not have the node. (With another index, a
    /// result has no meaning.)
    pub fn of_subtree(&self, index: &TreeIndex, node: u32) -> Option<u32>
        ensures count { IfSome result (HasTokens index.now self.now node) }
        ensures complete { IfNone result (HasNoTokens index.now self.now node) }
    {
        let end = node.checked_add(index.size(node)?)?;
        let first = *self.before.get(node as usize)?;
        self.before.get(end as usize)?.checked_sub(first)
    }
}

/// Returns the number of a node's own tokens: 1 for a token of a class, and the number of literals
/// of its production for another node. Returns 0 if the index does not have the node, or if the
/// grammar does not have the production.
fn own_tokens(grammar: &Grammar, index: &TreeIndex, node: u32) -> u32
    ensures { result ≡ own_count grammar.now (kind_in index.now node) }
{
    match index.kind(node) {
        Some(NodeKind::Token(_)) => 1,
        Some(NodeKind::Node(number)) => match grammar.productions().get(usize::from(number)) {
            Some(production) => literals_of(production),
            None => 0,
        },
        None => 0,
    }
}

/// Returns the number of literals of a production.
fn literals_of(production: &Production) -> u32
    requires { length production.now.items < 2 ^ 16 }
    ensures { result ≡ literal_count production.now.items }
{
    let mut literals = 0u32;
    for item in production.items.as_slice() {
        if let Item::Terminal(Terminal::Literal(_)) = item {
            literals = literals.saturating_add(1);
        }
    }
    literals
}
