//! The first tokens of a node.

ghost use Rattle.std.specs.Prelude.{IsErrOf};
ghost use Rattle.treefile.specs.devices.Device.{LeavesContent, Persists};

use crate::explained::ExplainedTree;
use ag_grammar::limits::MAX_NODES;
use ag_grammar::{Item, Terminal};
use ag_value::{NoMemory, Value};
use message_parts::display::PlainText;
use tree_index::{NodeKind, TreeFault};
use treefile::Device;

/// The greatest number of tokens that are written.
const MAX_TOKENS: usize = 3;

/// The greatest number of characters of a token that are written.
const MAX_CHARACTERS: usize = 24;

/// A node that was entered, by its number in the index of the tree file. The items of its
/// production before the index `item` were visited.
#[derive(Clone, Copy)]
struct OpenNode {
    node: u32,
    /// The index of the next item of its production.
    item: usize,
    /// The number of children before that item. A literal is not a child.
    children: u16,
}

/// What the next item of a node is.
#[derive(Clone, Copy)]
enum NextToken {
    /// The literal of this number in the grammar.
    Literal(u16),
    /// A token of a class: the node of this number in the index.
    Token(u32),
    /// A symbol: the node of this number. The tokens below it come next.
    Below(u32),
    /// Nothing: all items were visited, or the index or the grammar does not have the next one.
    Nothing,
}

impl<'a> ExplainedTree<'a> {
    /// Writes the first tokens below a node of a symbol, at most `MAX_TOKENS`, with a space
    /// between. Writes nothing if the node has no tokens. Fails with R1 if the record of a token is
    /// damaged, with D1 if a call of the device fails, and if memory is refused.
    pub(crate) fn write_first_tokens<D: Device>(
        &self,
        out: &mut String,
        node: u32,
        device: &mut D,
    ) -> Result<(), TreeFault>
        ensures content { LeavesContent (D.is_honest device.new)
            (D.content device.old) (D.content device.new) }
        ensures persists { Persists (D.is_honest device.old) (D.is_honest device.new)
            (D.failures device.old) (D.failures device.new) (IsErrOf result TreeFault.Device) }
    {
        let mut nodes = Vec::new(self.alloc);
        push(&mut nodes, node)?;
        let mut count = 0usize;
        // The prover needs a bound. This is more turns than a tree within the limits takes: at most
        // two for each node (when it is found, and at the end of its items), and one for each
        // literal written, of which there are at most `MAX_TOKENS`.
        for _turn in 0..16 * MAX_NODES {
            if MAX_TOKENS <= count {
                return Ok(());
            }
            let Some(open) = nodes.pop() else {
                return Ok(());
            };
            let next = self.next_token(open);
            if let NextToken::Nothing = next {
                continue;
            }
            push_next(&mut nodes, open, next)?;
            if self.write_token(out, next, count, device)? {
                count = count.saturating_add(1);
            }
        }
        Ok(())
    }

    /// Returns what the next item of a node is.
    fn next_token(&self, open: OpenNode) -> NextToken {
        let Some(NodeKind::Node(number)) = self.index.kind(open.node) else {
            return NextToken::Nothing;
        };
        let Some(production) = self.format.production(number) else {
            return NextToken::Nothing;
        };
        let place = open.children.saturating_add(1);
        let child = self.index.child(self.format.grammar, open.node, place);
        match (production.items.as_slice().get(open.item), child) {
            (Some(Item::Terminal(Terminal::Literal(literal))), _) => NextToken::Literal(*literal),
            (Some(Item::Terminal(Terminal::Class(_))), Some(child)) => NextToken::Token(child),
            (Some(Item::Symbol(_)), Some(child)) => NextToken::Below(child),
            _ => NextToken::Nothing,
        }
    }

    /// Writes the next item if it is a token. `before` is the number of tokens already written. If
    /// it is not 0, writes a space first. Returns whether the item counts as a token: a literal
    /// does, and a token of a class whose record has its text; a symbol does not. Fails as
    /// `read_node` does.
    fn write_token<D: Device>(
        &self,
        out: &mut String,
        next: NextToken,
        before: usize,
        device: &mut D,
    ) -> Result<bool, TreeFault>
        ensures content { LeavesContent (D.is_honest device.new)
            (D.content device.old) (D.content device.new) }
        ensures persists { Persists (D.is_honest device.old) (D.is_honest device.new)
            (D.failures device.old) (D.failures device.new) (IsErrOf result TreeFault.Device) }
    {
        match next {
            NextToken::Literal(number) => {
                let literals = self.format.grammar.literals();
                let text = match literals.get(usize::from(number)) {
                    Some(literal) => literal.as_str(),
                    None => "",
                };
                write_shortened(out, text, before)?;
                Ok(true)
            }
            NextToken::Token(node) => {
                let Some(record) = self.read_node(node, device)? else {
                    return Ok(false);
                };
                let Some(item) = self.index.item(self.format.grammar, node) else {
                    return Ok(false);
                };
                match self.format.own_value(&record, item, 0) {
                    Some(value) => {
                        if let Value::Text(text) = value.to_value(self.alloc)? {
                            write_shortened(out, text.as_str(), before)?;
                        }
                        Ok(true)
                    }
                    None => Ok(false),
                }
            }
            NextToken::Below(_) | NextToken::Nothing => Ok(false),
        }
    }
}

/// Adds a node to the list. None of its items was visited.
fn push(nodes: &mut Vec<OpenNode>, node: u32) -> Result<(), NoMemory> {
    Ok(nodes.push(OpenNode {
        node,
        item: 0,
        children: 0,
    })?)
}

/// Puts a node back on the list, with its next item marked as visited. If this item is a symbol,
/// also adds the child there. The list's last node is visited first, so the child's items come
/// before the other items of the node.
fn push_next(nodes: &mut Vec<OpenNode>, open: OpenNode, next: NextToken) -> Result<(), NoMemory> {
    let is_child = !matches!(next, NextToken::Literal(_));
    let children = if is_child {
        open.children.saturating_add(1)
    } else {
        open.children
    };
    nodes.push(OpenNode {
        node: open.node,
        item: open.item.saturating_add(1),
        children,
    })?;
    match next {
        NextToken::Below(child) => push(nodes, child),
        _ => Ok(()),
    }
}

/// Writes the first `MAX_CHARACTERS` characters of a token, and `..` if there are more. Writes a
/// space before them if `before` is not 0. A character that is written as an escape counts as one.
fn write_shortened(out: &mut String, text: &str, before: usize) -> Result<(), NoMemory> {
    if before != 0 {
        out.push_str(" ")?;
    }
    let first = match text.char_indices().nth(MAX_CHARACTERS) {
        Some((end, _)) => text.get(..end).unwrap_or(text),
        None => text,
    };
    write!(out, "{}", PlainText(first))?;
    if first.len() < text.len() {
        out.push_str("..")?;
    }
    Ok(())
}
