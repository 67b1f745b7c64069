//! Reads the body of a record of the file of the last pass: a token, or a node with all its values.

ghost use Rattle.std.specs.Prelude.{◌≡◌, All, IfOk, IsErrOf};
ghost use Rattle.std.specs.List.{flat_map};
ghost use Rattle.ag_value.specs.Spelling.{spelling_of};
ghost use Rattle.ag_value.specs.Well.{IsWell};
ghost use Rattle.origins.specs.Records.{AreNoValues, IsNoRecord, IsRecord};

use crate::fault::DecodeFault;
use ag_grammar::{Grammar, Item, Terminal};
use ag_value::{Items, Value, decode};
use std::alloc::Global;
use treefile::{Kind, MAX_VALUES, split_body};

/// A record of the file of the last pass.
#[derive(Drop)]
pub enum LastRecord {
    /// A node: the number of its production, and its values.
    Node(u16, Items<Value>),
    /// A token. Its text is not read: the record of the token's parent has it too.
    Token,
}

/// Reads values from their spellings, which follow one another to the end of the bytes.
///
/// Fails with Damaged if the bytes are not such spellings, or are those of more values than a
/// record may have (`MAX_VALUES`). Fails with NoMemory if memory is refused.
fn values_in(alloc: Global, bytes: &[u8]) -> Result<Items<Value>, DecodeFault>
    ensures well { IfOk result (λ values. All IsWell values) }
    ensures spelled { IfOk result (λ values. bytes.now ≡ flat_map spelling_of values) }
    ensures damaged { IsErrOf result DecodeFault.Damaged → AreNoValues bytes.now }
{
    let mut values = Vec::new(alloc);
    let mut rest = bytes;
    // one turn for each value, and one that finds the end of the bytes
    for _value in 0..MAX_VALUES + 1 {
        if rest.is_empty() {
            return Ok(Items::from_vec(values));
        }
        let (value, length) = decode(alloc, rest)?;
        let Ok(()) = values.push(value) else {
            return Err(DecodeFault::NoMemory);
        };
        rest = &rest[length..];
    }
    Err(DecodeFault::Damaged)
}

/// Reads a body as the record of an item.
///
/// For a symbol the body has to have the number of a production of the symbol, and then at most
/// `MAX_VALUES` spellings of well values. For a class the body has to be that of a token of the
/// class. It is not checked that the number of values is the one that the production needs, or that
/// the text of a token is valid.
///
/// Fails with Damaged exactly if the body is not such a record, or the item is a literal. Fails with
/// NoMemory if memory is refused.
pub fn record_of(
    alloc: Global,
    grammar: &Grammar,
    item: Item,
    body: &[u8],
) -> Result<LastRecord, DecodeFault>
    ensures found { IfOk result (λ found. IsRecord grammar.now item body.now found) }
    ensures damaged { IsErrOf result DecodeFault.Damaged → IsNoRecord grammar.now item body.now }
{
    let Some((kind, number, spellings)) = split_body(body) else {
        return Err(DecodeFault::Damaged);
    };
    match item {
        Item::Symbol(symbol) => {
            if kind != Kind::Node {
                return Err(DecodeFault::Damaged);
            }
            let Some(production) = grammar.productions().get(number as usize) else {
                return Err(DecodeFault::Damaged);
            };
            if production.left != symbol {
                return Err(DecodeFault::Damaged);
            }
            let values = values_in(alloc, spellings)?;
            Ok(LastRecord::Node(number, values))
        }
        Item::Terminal(Terminal::Class(class)) => {
            if kind != Kind::Token || number != class {
                return Err(DecodeFault::Damaged);
            }
            Ok(LastRecord::Token)
        }
        Item::Terminal(Terminal::Literal(_)) => Err(DecodeFault::Damaged),
    }
}
