//! Finds names, occurrences and the symbols of places in a grammar as it is written. An occurrence
//! is an attribute as a rule writes it, such as `$1.sum`, with its place in the production, here 1:
//! place 0 is the left side, and places 1, 2, .. are the symbols and classes of the right side.
//! Offsets are in bytes from the beginning of the grammar's text. A function returns None if what
//! it looks for does not exist.

use ag_grammar::{Named, Occ, RawGrammar, RawItem, RawProduction, RawRule, RawSymbol, occurrences};
use normalform::NormalFault;
use std::fmt;

/// An occurrence, which prints as it is written.
#[derive(Clone, Copy)]
pub struct AsWritten<'a>(pub &'a Occ);

impl fmt::Display for AsWritten<'_> {
    fn fmt<W: fmt::Write>(&self, f: &mut fmt::Formatter<W>) -> fmt::Result {
        write!(f, "${}.{}", self.0.place, self.0.attr.as_str())
    }
}

/// An occurrence in a production: the target of a rule, or an argument of one.
#[derive(Clone, Copy)]
pub struct PlacedOccurrence<'a> {
    pub production: &'a RawProduction,
    pub occurrence: &'a Occ,
}

/// The symbol or class at a place of a production.
#[derive(Clone, Copy)]
pub enum AtPlace<'a> {
    /// A declared symbol.
    Symbol(&'a RawSymbol),
    /// A token of a class.
    Class,
}

/// Returns the first declaration of a symbol of this name.
pub fn symbol_named<'a>(raw: &'a RawGrammar, name: &str) -> Option<&'a RawSymbol> {
    for symbol in raw.symbols.as_slice() {
        if symbol.name.name.as_str() == name {
            return Some(symbol);
        }
    }
    None
}

/// Returns whether a symbol of this name has a production.
pub fn has_production(raw: &RawGrammar, name: &str) -> bool {
    for production in raw.productions.as_slice() {
        if production.left.name.as_str() == name {
            return true;
        }
    }
    false
}

/// Returns the symbol whose declaration has its name, or that of an attribute, at this offset in
/// bytes of the text.
pub fn symbol_with(raw: &RawGrammar, at: usize) -> Option<&RawSymbol> {
    for symbol in raw.symbols.as_slice() {
        if symbol.name.at == at || attribute_at(symbol, at).is_some() {
            return Some(symbol);
        }
    }
    None
}

/// Returns the attribute of a symbol whose name is at this offset.
pub fn attribute_at(symbol: &RawSymbol, at: usize) -> Option<&Named> {
    name_among(symbol.syn.as_slice(), at).or(name_among(symbol.inh.as_slice(), at))
}

/// Returns the name at this offset among some names.
fn name_among(names: &[Named], at: usize) -> Option<&Named> {
    for name in names {
        if name.at == at {
            return Some(name);
        }
    }
    None
}

/// Returns the last production that begins at or before this offset. (Productions are in the order
/// of their offsets.)
fn production_with(raw: &RawGrammar, at: usize) -> Option<&RawProduction> {
    let productions = raw.productions.as_slice();
    let after = productions.partition_point(|production| production.left.at <= at);
    productions.get(after.checked_sub(1)?)
}

/// Returns the symbol's name at this offset in a production.
pub fn name_at(raw: &RawGrammar, at: usize) -> Option<&Named> {
    let production = production_with(raw, at)?;
    if production.left.at == at {
        return Some(&production.left);
    }
    item_at(production, at)
}

/// Returns the symbol's name at this offset on a right side.
fn item_at(production: &RawProduction, at: usize) -> Option<&Named> {
    for item in production.items.as_slice() {
        match item {
            RawItem::Name(name) if name.at == at => return Some(name),
            _ => {}
        }
    }
    None
}

/// Returns the occurrence at this offset, with its production.
pub fn placed_at(raw: &RawGrammar, at: usize) -> Option<PlacedOccurrence<'_>> {
    let production = production_with(raw, at)?;
    Some(PlacedOccurrence {
        production,
        occurrence: occurrence_at(production, at)?,
    })
}

/// Returns the occurrence at this offset in a production.
fn occurrence_at(production: &RawProduction, at: usize) -> Option<&Occ> {
    for rule in production.rules.as_slice() {
        if let Some(occurrence) = occurrence_in(rule, at) {
            return Some(occurrence);
        }
    }
    None
}

/// Returns the occurrence at this offset in a rule.
fn occurrence_in(rule: &RawRule, at: usize) -> Option<&Occ> {
    if rule.target.at == at {
        return Some(&rule.target);
    }
    for occurrence in occurrences(&rule.expr) {
        if occurrence.at == at {
            return Some(occurrence);
        }
    }
    None
}

/// Returns the symbol or class at a place of a production. None if the production has no such
/// place, or if the symbol is not declared.
pub fn at_place<'a>(
    raw: &'a RawGrammar,
    production: &RawProduction,
    place: usize,
) -> Option<AtPlace<'a>> {
    if place == 0 {
        return Some(AtPlace::Symbol(symbol_named(raw, production.left.name.as_str())?));
    }
    match production.item_at(place)? {
        RawItem::Name(name) => Some(AtPlace::Symbol(symbol_named(raw, name.name.as_str())?)),
        RawItem::Literal(_) => None,
        RawItem::Class(_) => Some(AtPlace::Class),
    }
}

/// A rule that a production lacks: that for an attribute of the symbol at a place.
#[derive(Clone, Copy)]
pub struct MissingRule<'a> {
    pub place: usize,
    pub symbol: &'a RawSymbol,
    /// The number of the attribute in the symbol (`RawSymbol::attribute_name`).
    pub attribute: usize,
}

/// Returns the rule that is missing, if a fault is N6 of the production `number`.
pub fn missing_in<'a>(
    raw: &'a RawGrammar,
    fault: &NormalFault,
    number: usize,
) -> Option<MissingRule<'a>> {
    let NormalFault::RuleMissing(of, place, attribute) = fault else {
        return None;
    };
    if *of != number {
        return None;
    }
    let production = raw.productions.as_slice().get(number)?;
    match at_place(raw, production, *place)? {
        AtPlace::Symbol(symbol) => Some(MissingRule {
            place: *place,
            symbol,
            attribute: *attribute,
        }),
        AtPlace::Class => None,
    }
}
