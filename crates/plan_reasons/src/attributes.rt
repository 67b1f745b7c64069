//! Attributes of symbols: how they print, and the list of all.

ghost use Rattle.std.specs.Prelude.{◌≤◌, length};
ghost use Rattle.ag_grammar.specs.grammars.Accepted.{max_symbols};

use ag_grammar::limits::MAX_ATTRIBUTES;
use ag_grammar::{Grammar, Symbol};
use ag_value::NoMemory;
use message_parts::Attribute;
use message_parts::display::PlainText;
use std::alloc::Global;
use std::fmt;

/// An attribute of a grammar. It prints as the names of its symbol and of itself: `L.p`. It prints
/// as nothing if the grammar has no such attribute.
#[derive(Clone, Copy)]
pub(crate) struct AttributeName<'a> {
    pub grammar: &'a Grammar,
    pub attribute: Attribute,
}

impl fmt::Display for AttributeName<'_> {
    fn fmt<W: fmt::Write>(&self, f: &mut fmt::Formatter<W>) -> fmt::Result {
        let Some(symbol) = self.grammar.symbols().get(usize::from(self.attribute.0)) else {
            return Ok(());
        };
        match symbol.attribute_name(self.attribute.1) {
            Some(name) => write!(f, "{}.{}", PlainText(symbol.name.as_str()), PlainText(name)),
            None => Ok(()),
        }
    }
}

/// An attribute at a place of a production. It prints as rules name it: `$1.p`. It prints as
/// nothing if the grammar has no such attribute.
#[derive(Clone, Copy)]
pub(crate) struct OccurrenceName<'a> {
    pub grammar: &'a Grammar,
    pub place: u16,
    pub attribute: Attribute,
}

impl fmt::Display for OccurrenceName<'_> {
    fn fmt<W: fmt::Write>(&self, f: &mut fmt::Formatter<W>) -> fmt::Result {
        let Some(symbol) = self.grammar.symbols().get(usize::from(self.attribute.0)) else {
            return Ok(());
        };
        match symbol.attribute_name(self.attribute.1) {
            Some(name) => write!(f, "${}.{}", self.place, PlainText(name)),
            None => Ok(()),
        }
    }
}

/// Returns the attributes of the symbols of a grammar, symbol by symbol in declared order. Those of
/// a symbol are in the order of their numbers: the synthesized ones, then the inherited ones.
/// Requires at most 256 symbols, so that the number of each symbol fits in 16 bits.
pub(crate) fn attributes_of(alloc: Global, symbols: &[Symbol]) -> Result<Vec<Attribute>, NoMemory>
    requires { length symbols.now ≤ max_symbols }
{
    let mut attributes = Vec::new(alloc);
    for (number, symbol) in symbols.iter().enumerate() {
        append_attributes(&mut attributes, number as u16, symbol)?;
    }
    Ok(attributes)
}

/// Appends the attributes of the symbol of this number.
fn append_attributes(
    attributes: &mut Vec<Attribute>,
    number: u16,
    symbol: &Symbol,
) -> Result<(), NoMemory> {
    for attr in 0..MAX_ATTRIBUTES {
        if symbol.attribute_name(attr as u16).is_some() {
            attributes.push((number, attr as u16))?;
        }
    }
    Ok(())
}
