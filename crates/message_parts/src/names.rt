//! Attributes of symbols, by their names.

ghost use Rattle.std.specs.Prelude.{◌≡◌, ◌≤◌, IfOk, IfSome, IsTrue, Some, length, slice_get};
ghost use Rattle.ag_grammar.specs.grammars.Accepted.{max_symbols};
ghost use Rattle.ag_grammar.specs.grammars.AttributeGrammar.{attribute_names};
ghost use Rattle.message_parts.specs.Names.{IsAttributeNamed, IsSymbolNamed};

use crate::display::{MAX_NAMED, PlainText};
use crate::parts::Parts;
use ag_grammar::limits::MAX_ATTRIBUTES;
use ag_grammar::{Grammar, Symbol};
use ag_value::Text;
use std::alloc::AllocError;
use thiserror::Error;

/// The numbers of an attribute, from 0: the number of its symbol, and its own number in the symbol.
/// The synthesized attributes of a symbol come first, then the inherited ones.
pub type Attribute = (u16, u16);

/// Why a text is not the name of an attribute.
#[derive(Clone, Copy, Debug, Error)]
pub enum NameFault<'a> {
    /// The text has no dot.
    #[error("name: there is no dot")]
    NoDot,
    /// The grammar has no symbol of this name, which is the text before the first dot.
    #[error("name: the grammar has no such symbol")]
    NoSymbol(&'a str),
    /// The symbol of this number has no attribute of this name, which is the text after the first
    /// dot.
    #[error("name: symbol {0} has no such attribute")]
    NoAttribute(u16, &'a str),
}

/// Returns the attribute of a name such as `L.p`. Fails with the first fault that applies, in the
/// order of `NameFault`.
pub fn attribute_named<'a>(grammar: &Grammar, name: &'a str) -> Result<Attribute, NameFault<'a>>
    ensures { IfOk result (λ x. IsAttributeNamed grammar.now name.now x.0 x.1) }
{
    let Some((symbol_name, attribute_name)) = name.split_once('.') else {
        return Err(NameFault::NoDot);
    };
    let symbols = grammar.symbols();
    let Some(number) = symbol_number(symbols, symbol_name) else {
        return Err(NameFault::NoSymbol(symbol_name));
    };
    match attribute_number(&symbols[number as usize], attribute_name) {
        Some(attr) => Ok((number, attr)),
        None => Err(NameFault::NoAttribute(number, attribute_name)),
    }
}

/// Returns the number of the symbol of this name, if there is one. (The symbols of an accepted
/// grammar have different names.)
fn symbol_number(symbols: &[Symbol], name: &str) -> Option<u16>
    requires { length symbols.now ≤ max_symbols }
    ensures { IfSome result (λ s. IsSymbolNamed symbols.now s name.now) }
{
    for (number, symbol) in symbols.iter().enumerate() {
        if symbol.name.as_str() == name {
            return Some(number as u16);
        }
    }
    None
}

/// Returns whether a symbol's attribute of this number has this name.
fn has_name(symbol: &Symbol, attr: u16, name: &str) -> bool
    ensures { IsTrue result → slice_get (attribute_names symbol.now) attr ≡ Some name.now }
{
    match symbol.attribute_name(attr) {
        Some(own) => own == name,
        None => false,
    }
}

/// Returns the number of a symbol's attribute of this name, if there is one. A symbol of an
/// accepted grammar has at most `MAX_ATTRIBUTES` attributes, and these have different names.
fn attribute_number(symbol: &Symbol, name: &str) -> Option<u16>
    ensures { IfSome result (λ a. slice_get (attribute_names symbol.now) a ≡ Some name.now) }
{
    for attr in 0..MAX_ATTRIBUTES {
        if has_name(symbol, attr as u16, name) {
            return Some(attr as u16);
        }
    }
    None
}

impl NameFault<'_> {
    /// Appends the fault of the text `name` to the part `found`. For `NoSymbol` it also appends the
    /// names of the grammar's symbols (at most `MAX_NAMED`). For `NoAttribute` it also appends the
    /// names of the symbol's attributes. Fails if memory is refused.
    pub fn describe(
        &self,
        parts: &mut Parts,
        grammar: &Grammar,
        name: &str,
    ) -> Result<(), AllocError> {
        match self {
            NameFault::NoDot => write!(
                parts.found,
                "expected an attribute such as `S.out`, found `{}`",
                PlainText(name)
            ),
            NameFault::NoSymbol(symbol) => {
                write!(
                    parts.found,
                    "the grammar has no symbol `{}`, its symbols are",
                    PlainText(symbol)
                )?;
                write_symbols(&mut parts.found, grammar.symbols())
            }
            NameFault::NoAttribute(symbol, attribute) => {
                write_attributes(&mut parts.found, grammar, *symbol, attribute)
            }
        }
    }
}

/// Writes the names of the first `MAX_NAMED` symbols, with a space before each, and the number of
/// the others if there are any.
fn write_symbols(out: &mut String, symbols: &[Symbol]) -> Result<(), AllocError> {
    for symbol in symbols.iter().take(MAX_NAMED) {
        write!(out, " {}", PlainText(symbol.name.as_str()))?;
    }
    match symbols.len().saturating_sub(MAX_NAMED) {
        0 => Ok(()),
        others => write!(out, " and {others} more"),
    }
}

/// Writes that a symbol has no attribute of this name, and then the names of the symbol's
/// attributes, or `none` if it has no attribute. Writes nothing if the grammar has no symbol of
/// this number.
fn write_attributes(
    out: &mut String,
    grammar: &Grammar,
    number: u16,
    name: &str,
) -> Result<(), AllocError> {
    let Some(symbol) = grammar.symbols().get(usize::from(number)) else {
        return Ok(());
    };
    let (owner, missing) = (PlainText(symbol.name.as_str()), PlainText(name));
    write!(
        out,
        "the symbol {owner} has no attribute `{missing}`, it has"
    )?;
    if symbol.syn.as_slice().is_empty() && symbol.inh.as_slice().is_empty() {
        return out.push_str(" none");
    }
    write_names(out, symbol.syn.as_slice())?;
    write_names(out, symbol.inh.as_slice())
}

/// Writes names, with a space before each.
fn write_names(out: &mut String, names: &[Text]) -> Result<(), AllocError> {
    for name in names {
        write!(out, " {}", PlainText(name.as_str()))?;
    }
    Ok(())
}
