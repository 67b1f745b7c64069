//! The declared symbols. Their names, and the names of their attributes, are looked up by hash.
ghost use Rattle.std.specs.Prelude.{◌≡◌, ◌++◌, map, length, bytes_eq, IfOk, OnOk, IfSome};
ghost use Rattle.std.specs.Prelude.{List, Some, None};
ghost use Rattle.std.specs.Prelude.{slice_get, [], ◌∷◌, ◌≤◌, ◌-◌};
ghost use Rattle.std.specs.List.{list_any, range_with_len};
ghost use Rattle.ag_grammar.specs.declared.grammar.Item.TheVariants as Item;
ghost use Rattle.ag_grammar.specs.declared.grammar.Symbol.{Symbol};
ghost use Rattle.ag_grammar.specs.grammars.AttributeGrammar.{attribute_names, lex_name};
ghost use Rattle.ag_grammar.specs.grammars.AttributeGrammar.{symbol_names as attributes_of};
ghost use Rattle.ag_grammar.specs.grammars.AttributeGrammar.{Synthesized};
ghost use Rattle.ag_grammar.specs.grammars.Raw.{texts_of};
ghost use Rattle.normalform.specs.faults.Faults as spec;
ghost use Rattle.normalform.specs.faults.Faults.{defined_at};
ghost use Rattle.normalform.specs.faults.Resolved.{item_placed, item_role, kind_at, role_of};
ghost use Rattle.normalform.specs.faults.Resolved.{symbol_role};
ghost use Rattle.normalform.specs.numbers.Numbers.{number_in, symbol_of, declared_names};
ghost use Rattle.normalform.specs.numbers.Numbers.{target_of};

use crate::faults::resolved::{PlacedItem, Role};
use crate::numbers::names::Names;
use ag_grammar::{Named, Occ, RawSymbol};
use ag_value::NoMemory;
use std::alloc::Global;
use std::marker::Model;

/// Appends the texts of declared names.
fn push_names<'t>(names: &mut Names<'t>, added: &'t [Named]) -> Result<(), NoMemory>
    ensures { OnOk result (names.new ≡ names.old ++ texts_of added.now) }
{
    for name in added {
        names.push(name.name.as_str())?;
    }
    Ok(())
}

/// Returns the names of a symbol's attributes, the synthesized ones first.
fn attributes_of<'t>(alloc: Global, symbol: &'t RawSymbol) -> Result<Names<'t>, NoMemory>
    ensures { IfOk result (λ names. names ≡ attribute_names (symbol_of symbol.now)) }
{
    let mut names = Names::new(alloc);
    push_names(&mut names, symbol.syn.as_slice())?;
    push_names(&mut names, symbol.inh.as_slice())?;
    Ok(names)
}

/// Returns the names of symbols.
fn names_of<'t>(alloc: Global, symbols: &'t [RawSymbol]) -> Result<Names<'t>, NoMemory>
    ensures { IfOk result (λ names. names ≡ declared_names (map symbol_of symbols.now)) }
{
    let mut names = Names::new(alloc);
    for symbol in symbols {
        names.push(symbol.name.name.as_str())?;
    }
    Ok(names)
}

/// Returns the names of each symbol's attributes.
fn attributes<'t>(alloc: Global, symbols: &'t [RawSymbol]) -> Result<Vec<Names<'t>>, NoMemory>
    ensures { IfOk result (λ names. names.items
        ≡ map attribute_names (map symbol_of symbols.now)) }
{
    let mut names = Vec::new(alloc);
    for symbol in symbols {
        names.push(attributes_of(alloc, symbol)?)?;
    }
    Ok(names)
}

/// The declared symbols, with their names (`names`) and the names of their attributes
/// (`attributes`). Contracts see the list of the symbols. Where a method takes `items`, these are
/// the items at the places of one production (`places_of`).
#[derive(Drop)]
pub struct Declared<'t> {
    symbols: &'t [RawSymbol],
    names: Names<'t>,
    attributes: Vec<Names<'t>>,
}

impl<'t> Model for Declared<'t> {
    ghost use Rattle.std.specs.Prelude.{◌≡◌, List, map};
    ghost use Rattle.ag_grammar.specs.declared.grammar.Symbol.{Symbol};
    ghost use Rattle.ag_grammar.specs.grammars.AttributeGrammar.{attribute_names, lex_name};
    ghost use Rattle.normalform.specs.numbers.Numbers.{symbol_of, declared_names};

    ghost Value = { List Symbol };

    ghost view = { λ d. map symbol_of d.symbols.now };

    ghost invariant = { λ d. (d.names ≡ declared_names (map symbol_of d.symbols.now))
        × (d.attributes.items ≡ map attribute_names (map symbol_of d.symbols.now)) };
}

/// Returns the number of a token's attribute: 0 for `lex`, the only one, and 1, the count of a
/// token's attributes, for every other name.
fn lex_number(name: &str) -> usize
    ensures { result ≡ number_in (lex_name ∷ []) name.now }
{
    if name == "lex" { 0 } else { 1 }
}

/// Returns the role of attribute `attr` at a place, of a symbol with `synthesized` synthesized and
/// `inherited` inherited attributes.
fn role_at(synthesized: usize, inherited: usize, attr: usize, place: usize) -> Role
    ensures { result ≡ role_of (kind_at synthesized inherited attr) place }
{
    if attr < synthesized {
        if place == 0 {
            Role::Defined
        } else {
            Role::Used
        }
    } else if attr - synthesized < inherited {
        if place == 0 {
            Role::Used
        } else {
            Role::Defined
        }
    } else {
        Role::Unknown
    }
}

/// Returns the role of attribute `attr` of a token at a place. The only attribute of a token is
/// `lex`, of number 0, which counts as synthesized.
fn token_role(attr: usize, place: usize) -> Role
    ensures { result ≡ role_of (slice_get (Synthesized ∷ []) attr) place }
{
    if attr > 0 {
        Role::Unknown
    } else if place == 0 {
        Role::Defined
    } else {
        Role::Used
    }
}

impl<'t> Declared<'t> {
    /// Makes the tables of the names of symbols and attributes.
    pub fn new(alloc: Global, symbols: &'t [RawSymbol]) -> Result<Declared<'t>, NoMemory>
        ensures { IfOk result (λ d. d ≡ map symbol_of symbols.now) }
    {
        let names = names_of(alloc, symbols)?;
        let attributes = attributes(alloc, symbols)?;
        Ok(Declared {
            symbols,
            names,
            attributes,
        })
    }

    /// Returns the number of a symbol, or the count of declared symbols if it is not declared.
    pub fn number(&self, name: &str) -> usize
        ensures { result ≡ number_in (declared_names self.now) name.now }
    {
        self.names.number(name)
    }

    /// Returns the number of declared symbols.
    pub fn count(&self) -> usize
        ensures { result ≡ length self.now }
    {
        self.symbols.len()
    }

    /// Returns the number of the attribute `name` of the symbol with number `symbol`, or the count
    /// of its attributes if it has no such attribute. Returns 0 if no symbol has the number.
    fn attribute_of(&self, symbol: usize, name: &str) -> usize
        ensures { result ≡ number_in (attributes_of (slice_get self.now symbol)) name.now }
    {
        match self.attributes.get(symbol) {
            Some(names) => names.number(name),
            None => 0,
        }
    }

    /// Returns whether the symbol with number `symbol` exists, and has an attribute of this name.
    fn has_attribute_of(&self, symbol: usize, name: &str) -> bool
        ensures { result
            ≡ list_any (bytes_eq name.now) (attributes_of (slice_get self.now symbol)) }
    {
        match self.attributes.get(symbol) {
            Some(names) => names.has(name),
            None => false,
        }
    }

    /// Returns the number of the attribute that an occurrence names, or the count of attributes at
    /// its place if none of them has the name.
    pub fn attribute(&self, items: &[PlacedItem], occurrence: &Occ) -> usize
        ensures { result ≡ (target_of self.now (map item_placed items.now) occurrence.now).attr }
    {
        let name = occurrence.attr.as_str();
        match items.get(occurrence.place as usize) {
            Some(PlacedItem::Symbol(symbol, _)) => self.attribute_of(*symbol, name),
            Some(PlacedItem::Class(_)) => lex_number(name),
            None => 0,
        }
    }

    /// Returns the symbol with this number, if there is one.
    fn symbol(&self, number: usize) -> Option<&RawSymbol>
        ensures there { IfSome result (λ s. slice_get self.now number ≡ Some (symbol_of s.now)) }
        ensures none { result ≡ None → slice_get self.now number ≡ None }
    {
        self.symbols.get(number)
    }

    /// Returns the role of attribute `attr` of the symbol with number `symbol` at a place.
    fn symbol_role(&self, symbol: usize, attr: usize, place: usize) -> Role
        ensures { result ≡ symbol_role (slice_get self.now symbol) attr place }
    {
        match self.symbol(symbol) {
            Some(raw) => role_at(
                raw.syn.as_slice().len(),
                raw.inh.as_slice().len(),
                attr,
                place,
            ),
            None => Role::Hidden,
        }
    }

    /// Returns the role of attribute `attr` of the item at a place.
    pub fn role(&self, items: &[PlacedItem], attr: usize, place: usize) -> Role
        ensures { result
            ≡ item_role self.now (slice_get (map item_placed items.now) place) attr place }
    {
        match items.get(place) {
            Some(PlacedItem::Symbol(symbol, _)) => self.symbol_role(*symbol, attr, place),
            Some(PlacedItem::Class(_)) => token_role(attr, place),
            None => Role::Unknown,
        }
    }

    /// Returns the numbers of the attributes that the rules of a production define at a place, as a
    /// range whose end is exclusive. `symbol` is the number of the symbol at the place. The range
    /// is empty if no symbol has this number.
    pub fn defined_here(&self, place: usize, symbol: usize) -> (usize, usize)
        ensures ordered { result.0 ≤ result.1 }
        ensures numbers { range_with_len result.0 (result.1 - result.0)
            ≡ defined_at self.now place (Item.Symbol symbol) }
    {
        let Some(raw) = self.symbol(symbol) else {
            return (0, 0);
        };
        let count = raw.syn.as_slice().len();
        if place == 0 {
            (0, count)
        } else {
            (count, count + raw.inh.as_slice().len())
        }
    }

    /// Returns whether the symbol with number `symbol` exists, has no inherited attribute, and has
    /// a synthesized attribute `out`.
    pub fn is_start(&self, symbol: usize) -> bool
        ensures { result ≡ spec.is_start (slice_get self.now symbol) }
    {
        match self.symbol(symbol) {
            Some(raw) => { raw.inh.as_slice().is_empty() && self.has_attribute_of(symbol, "out") }
            None => false,
        }
    }
}
