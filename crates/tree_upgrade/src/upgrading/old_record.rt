//! Records of version 1 and pass 0: a node has only its production, and a token its class and its text.

ghost use Rattle.std.specs.Prelude.{◌≡◌, IfOk, IsErrOf};
ghost use Rattle.tree_upgrade.specs.upgrading.Upgrading.{IsOf, body_in};
ghost use Rattle.tree_upgrade.specs.declared.upgrading.old_record.OldRecord.{OldRecord as TheOldRecord};

use ag_grammar::{Grammar, Item, Terminal};
use ag_value::Value;
use passrun::{RecordFault, node_in, text_in};
use std::alloc::Global;

/// A record of version 1 and pass 0.
#[derive(Drop)]
pub(crate) enum OldRecord {
    /// A node, by the number of its production.
    Node(u16),
    /// A token, by the number of its class, with its text.
    Token(u16, Value),
}

/// Reads a body as the record of an item.
///
/// Fails with `Damaged` if the body is not a record of the item. The record of a symbol has the
/// number of one of the symbol's productions, and nothing after it. The record of a class is that
/// of a token of the class. A literal has no record. Fails with `NoMemory` if memory cannot be
/// allocated.
pub(crate) fn old_record(
    alloc: Global,
    grammar: &Grammar,
    item: Item,
    body: &[u8],
) -> Result<OldRecord, RecordFault>
    ensures is { IfOk result (λ r. IsOf grammar.now item r) }
    ensures same { IfOk result (λ r. body.now ≡ body_in r) }
    ensures none { IsErrOf result RecordFault.Damaged → (r : TheOldRecord)
        → IsOf grammar.now item r → body.now ≡ body_in r → ⊥ }
{
    match item {
        Item::Symbol(symbol) => {
            let Some((production, [])) = node_in(grammar, symbol, body) else {
                return Err(RecordFault::Damaged);
            };
            Ok(OldRecord::Node(production))
        }
        Item::Terminal(Terminal::Class(class)) => {
            let text = text_in(alloc, class, body)?;
            Ok(OldRecord::Token(class, text))
        }
        Item::Terminal(Terminal::Literal(_)) => Err(RecordFault::Damaged),
    }
}
