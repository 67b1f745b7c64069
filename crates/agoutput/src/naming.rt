//! Appends numbers to listings, and finds the names of attributes that listings show.

ghost use Rattle.std.specs.Prelude.{◌≡◌, ◌++◌, [], OnOk, decimal, slice_get, slice_index_or};
ghost use Rattle.std.specs.Prelude.{string_bytes};
ghost use Rattle.ag_grammar.specs.grammars.AttributeGrammar.{symbol_names};
ghost use Rattle.agoutput.specs.Listings.{attribute_name as name_at};

use ag_grammar::{Grammar, Item, Production, Symbol, Terminal};
use itoa::Buffer;
use std::alloc::AllocError;

/// Appends a number in decimal. Fails if memory is refused.
pub(crate) fn show_number(out: &mut String, number: usize) -> Result<(), AllocError>
    ensures { OnOk result (string_bytes out.new ≡ string_bytes out.old ++ decimal number) }
{
    let mut buffer = Buffer::new();
    out.push_str(buffer.format(number))
}

/// Returns the name of attribute `attr` of symbol `symbol`, both numbered from 0, or an empty text
/// if the symbol or the attribute does not exist.
fn symbol_attribute(symbols: &[Symbol], symbol: u16, attr: u16) -> &str
    ensures { result.now ≡ slice_index_or (symbol_names (slice_get symbols.now symbol)) attr [] }
{
    if symbol as usize >= symbols.len() {
        return "";
    }
    match symbols[symbol as usize].attribute_name(attr) {
        Some(name) => name,
        None => "",
    }
}

/// Returns the name of attribute `attr`, numbered from 0, of the symbol or class at a place of a
/// production. Place 0 is the left side, and the children have places from 1 on. A class has only
/// attribute 0, `lex`. Returns an empty text if the place or the attribute does not exist.
pub(crate) fn attribute_name<'a>(
    grammar: &'a Grammar,
    production: &Production,
    place: u16,
    attr: u16,
) -> &'a str
    ensures { result.now ≡ name_at grammar.now production.now place attr }
{
    match production.item_at(place) {
        Some(Item::Symbol(symbol)) => symbol_attribute(grammar.symbols(), symbol, attr),
        Some(Item::Terminal(Terminal::Class(_))) => if attr == 0 { "lex" } else { "" },
        Some(Item::Terminal(Terminal::Literal(_))) => "",
        None => "",
    }
}
