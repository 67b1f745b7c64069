//! The indices of a rule's arguments in a node's record in the file of the last pass.

ghost use Rattle.std.specs.Prelude.{◌≡◌, ◌+◌, ◌*◌, ◌≤◌, length};
ghost use Rattle.ag_grammar.specs.grammars.Accepted.{max_attributes, max_items};
ghost use Rattle.ag_grammar.specs.grammars.AttributeGrammar.{stored_items};
ghost use Rattle.treefile.specs.records.Records.{synthesized_count};
ghost use Rattle.std.specs.Prelude.{slice_get};
ghost use Rattle.origins.specs.Rows.{attribute_count, copied, copies_before, slot, start};

use ag_grammar::{Grammar, Item, Production, Target, Terminal};

/// Returns the number of a symbol's attributes; 0 if the grammar does not have it.
fn attribute_count(grammar: &Grammar, symbol: u16) -> usize
    ensures count { result ≡ attribute_count grammar.now symbol }
    ensures room { result ≤ max_attributes }
{
    match grammar.symbols().get(symbol as usize) {
        Some(symbol) => symbol.attribute_count(),
        None => 0,
    }
}

/// Returns the number of a symbol's synthesized attributes; 0 if the grammar does not have it.
fn synthesized_count(grammar: &Grammar, symbol: u16) -> usize
    ensures count { result ≡ synthesized_count (slice_get grammar.now.symbols symbol) }
    ensures room { result ≤ max_attributes }
{
    match grammar.symbols().get(symbol as usize) {
        Some(symbol) => symbol.syn.as_slice().len(),
        None => 0,
    }
}

/// Returns the number of values that a node's record copies from the child at an item: those of a
/// symbol's synthesized attributes, the text of a token, and none for a literal.
fn copied(grammar: &Grammar, item: Item) -> usize
    ensures count { result ≡ copied grammar.now item }
    ensures room { result ≤ max_attributes }
{
    match item {
        Item::Symbol(symbol) => synthesized_count(grammar, symbol),
        Item::Terminal(Terminal::Class(_)) => 1,
        Item::Terminal(Terminal::Literal(_)) => 0,
    }
}

/// Returns the number of values that a node's record copies from the first `children` children of a
/// right side. Literals are not children.
fn copies_before(grammar: &Grammar, items: &[Item], children: u16) -> usize
    requires { length items.now ≤ max_items }
    ensures count { result ≡ copies_before grammar.now (stored_items items.now) children }
    ensures room { result ≤ max_attributes * length items.now }
{
    match items {
        [] => 0,
        [item, others @ ..] => {
            if !item.is_stored_child() {
                return copies_before(grammar, others, children);
            }
            if children == 0 {
                return 0;
            }
            copied(grammar, *item) + copies_before(grammar, others, children - 1)
        }
    }
}

/// Returns the index, from 0, of the first value of a place among the values of a node's record.
/// Place 0 is the node itself; 1, 2, .. are its children.
fn start_of(grammar: &Grammar, production: &Production, place: u16) -> usize
    requires { length production.now.items ≤ max_items }
    ensures start { result ≡ start grammar.now production.now place }
    ensures room { result ≤ max_attributes + max_attributes * max_items }
{
    if place == 0 {
        return 0;
    }
    let own = attribute_count(grammar, production.left);
    own + copies_before(grammar, production.items.as_slice(), place - 1)
}

/// Returns the index, from 0, of the value of an argument among the values of a node's record.
pub(crate) fn slot_of(grammar: &Grammar, production: &Production, argument: Target) -> usize
    requires { length production.now.items ≤ max_items }
    ensures { result ≡ slot grammar.now production.now argument }
{
    start_of(grammar, production, argument.place) + argument.attr as usize
}
