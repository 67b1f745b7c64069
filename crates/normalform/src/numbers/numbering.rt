//! Numbering a raw grammar that is within the limits, so that numbers have 16 bits. The functions
//! that allocate fail with `NoMemory` if memory is refused.
ghost use Rattle.std.specs.Prelude.{◌≡◌, ◌<◌, map, filter, All, IfOk};
ghost use Rattle.std.specs.List.{list_any};
ghost use Rattle.normalform.specs.faults.Faults.{IsSmall, IsListed, AreListedIn};
ghost use Rattle.normalform.specs.numbers.Numbers as spec;
ghost use Rattle.normalform.specs.numbers.Numbers.{declared_names, symbol_of};
ghost use Rattle.normalform.specs.faults.Resolved.{item_placed};

use crate::faults::limits::literals_of;
use crate::faults::resolved::PlacedItem;
use crate::faults::resolving::places_of;
use crate::numbers::declared::Declared;
use crate::numbers::names::Names;
use ag_grammar::{
    Item, Occ, Production, RawItem, RawProduction, RawRule, RawSymbol, Rule, Target, Terminal,
    occurrences,
};
use ag_value::{Items, NoMemory, Text};
use std::alloc::Global;

/// Converts a number to 16 bits.
fn to_u16(number: usize) -> u16
    requires { number < 65536 }
    ensures { result ≡ number }
{
    number as u16
}

/// The numbers of a grammar's symbols, of their attributes and of its literals, looked up by name.
/// The symbols, attributes and literals are within the limits, so that their numbers have 16 bits.
#[derive(Drop)]
pub struct Numbering<'t> {
    declared: Declared<'t>,
    literals: Names<'t>,
    ghost small: { IsSmall declared literals },
}

impl<'t> Numbering<'t> {
    /// Makes the numbering of declared symbols and of the texts of literals.
    pub fn new(
        alloc: Global,
        symbols: &'t [RawSymbol],
        literals: &'t [Text],
    ) -> Result<Numbering<'t>, NoMemory>
        requires { IsSmall (map symbol_of symbols.now) literals.now }
        ensures declared { IfOk result (λ n. n.declared ≡ map symbol_of symbols.now) }
        ensures literals { IfOk result (λ n. n.literals ≡ literals.now) }
    {
        let declared = Declared::new(alloc, symbols)?;
        let literals = names_of(alloc, literals)?;
        Ok(Numbering { declared, literals })
    }

    /// Returns an item with numbers in place of names and literals.
    fn item_of(&self, item: &RawItem) -> Item
        ensures { result ≡ spec.item_of (declared_names self.now.declared) self.now.literals item.now }
    {
        match item {
            RawItem::Name(name) => Item::Symbol(to_u16(self.declared.number(name.name.as_str()))),
            RawItem::Literal(text) => {
                Item::Terminal(Terminal::Literal(to_u16(self.literals.number(text.as_str()))))
            }
            RawItem::Class(class) => Item::Terminal(Terminal::Class(*class)),
        }
    }

    /// Returns items with numbers in place of names and literals.
    fn items_of(&self, alloc: Global, items: &[RawItem]) -> Result<Items<Item>, NoMemory>
        ensures { IfOk result (λ xs. xs
            ≡ map (spec.item_of (declared_names self.now.declared) self.now.literals) items.now) }
    {
        let mut numbered = Vec::new(alloc);
        for item in items {
            numbered.push(self.item_of(item))?;
        }
        Ok(Items::from_vec(numbered))
    }

    /// Returns the place and the number of the attribute that an occurrence names.
    fn target_of(&self, items: &[PlacedItem], occurrence: &Occ) -> Target
        ensures { result
            ≡ spec.target_of self.now.declared (map item_placed items.now) occurrence.now }
    {
        Target {
            place: occurrence.place,
            attr: to_u16(self.declared.attribute(items, occurrence)),
        }
    }

    /// Returns the places and the numbers of the attributes that occurrences name.
    fn targets_of(
        &self,
        alloc: Global,
        items: &[PlacedItem],
        occurrences: &[Occ],
    ) -> Result<Items<Target>, NoMemory>
        ensures { IfOk result (λ ts. ts ≡ map
            (spec.target_of self.now.declared (map item_placed items.now)) occurrences.now) }
    {
        let mut targets = Vec::new(alloc);
        for occurrence in occurrences {
            targets.push(self.target_of(items, occurrence))?;
        }
        Ok(Items::from_vec(targets))
    }

    /// Returns a rule whose target and arguments have numbers in place of names. Moves the
    /// expression.
    fn rule_of(&self, alloc: Global, items: &[PlacedItem], rule: RawRule) -> Result<Rule, NoMemory>
        ensures numbered { IfOk result (λ r. r
            ≡ spec.rule_of self.now.declared (map item_placed items.now) rule) }
        ensures listed { IfOk result (λ r. IsListed r) }
    {
        let RawRule { target, expr } = rule;
        let args = self.targets_of(alloc, items, occurrences(&expr))?;
        let target = self.target_of(items, &target);
        Ok(Rule { target, expr, args })
    }

    /// Returns rules whose targets and arguments have numbers in place of names. Moves the
    /// expressions.
    fn rules_of(
        &self,
        alloc: Global,
        items: &[PlacedItem],
        rules: Items<RawRule>,
    ) -> Result<Items<Rule>, NoMemory>
        ensures numbered { IfOk result (λ rs. rs
            ≡ map (spec.rule_of self.now.declared (map item_placed items.now)) rules) }
        ensures listed { IfOk result (λ rs. All IsListed rs) }
    {
        let mut numbered = Vec::new(alloc);
        for rule in rules.into_vec() {
            numbered.push(self.rule_of(alloc, items, rule)?)?;
        }
        Ok(Items::from_vec(numbered))
    }

    /// Returns a production with numbers in place of names and literals. Moves the expressions.
    fn production_of(
        &self,
        alloc: Global,
        production: RawProduction,
    ) -> Result<Production, NoMemory>
        ensures numbered { IfOk result (λ q. q
            ≡ spec.production_of self.now.declared self.now.literals production) }
        ensures listed { IfOk result (λ q. AreListedIn q) }
    {
        let places = places_of(alloc, &self.declared, &production)?;
        let RawProduction { left, items, rules } = production;
        let left = to_u16(self.declared.number(left.name.as_str()));
        let items = self.items_of(alloc, items.as_slice())?;
        let rules = self.rules_of(alloc, places.as_slice(), rules)?;
        Ok(Production { left, items, rules })
    }

    /// Returns productions with numbers in place of names and literals. Moves the expressions.
    pub fn productions_of(
        &self,
        alloc: Global,
        productions: Items<RawProduction>,
    ) -> Result<Items<Production>, NoMemory>
        ensures numbered { IfOk result (λ qs. qs
            ≡ map (spec.production_of self.now.declared self.now.literals) productions) }
        ensures listed { IfOk result (λ qs. All AreListedIn qs) }
    {
        let mut numbered = Vec::new(alloc);
        for production in productions.into_vec() {
            numbered.push(self.production_of(alloc, production)?)?;
        }
        Ok(Items::from_vec(numbered))
    }

    /// Returns the number of the start symbol.
    pub fn start_of(&self, name: &str) -> u16
        ensures { result ≡ spec.number_in (declared_names self.now.declared) name.now }
    {
        to_u16(self.declared.number(name))
    }
}

/// Returns the literals of productions as owned texts, each once, in the order of first appearance.
pub fn literal_texts(alloc: Global, productions: &[RawProduction]) -> Result<Items<Text>, NoMemory>
    ensures { IfOk result (λ texts. texts ≡ spec.literals_of productions.now) }
{
    let literals = literals_of(alloc, productions)?;
    let mut texts = Vec::new(alloc);
    for (text, _) in literals.listed() {
        texts.push(Text::from_string(String::from_str(alloc, text)?))?;
    }
    Ok(Items::from_vec(texts))
}

/// Returns texts as `Names`, which finds the number of a text by hash.
fn names_of<'t>(alloc: Global, texts: &'t [Text]) -> Result<Names<'t>, NoMemory>
    ensures { IfOk result (λ names. names ≡ texts.now) }
{
    let mut names = Names::new(alloc);
    for text in texts {
        names.push(text.as_str())?;
    }
    Ok(names)
}

/// Returns whether an item is a token of the class.
fn is_class(item: &RawItem, class: u16) -> bool
    ensures { result ≡ spec.is_class class item.now }
{
    match item {
        RawItem::Class(other) => *other == class,
        _ => false,
    }
}

/// Returns whether a right side has a token of the class.
fn has_class(production: &RawProduction, class: u16) -> bool
    ensures { result ≡ list_any (spec.is_class class) production.now.items }
{
    production
        .items
        .as_slice()
        .iter()
        .any(|item| is_class(item, class))
}

/// Returns whether a right side of one of the productions has a token of the class.
fn uses_class(productions: &[RawProduction], class: u16) -> bool
    ensures { result ≡ list_any (λ q. list_any (spec.is_class class) q.items) productions.now }
{
    productions.iter().any(|q| has_class(q, class))
}

/// Returns those classes of `known` that a right side of the productions has.
fn classes_among(
    alloc: Global,
    productions: &[RawProduction],
    known: &[u16],
) -> Result<Items<u16>, NoMemory>
    ensures { IfOk result (λ classes. classes ≡ filter (λ c. list_any (λ q. list_any
        (spec.is_class c) q.items) productions.now) known.now) }
{
    let mut classes = Vec::new(alloc);
    for class in known {
        if uses_class(productions, *class) {
            classes.push(*class)?;
        }
    }
    Ok(Items::from_vec(classes))
}

/// Returns the classes on the right sides of productions, ascending: 0 is NAME, 1 is NUMBER, 2 is
/// TEXT.
pub fn classes_of(alloc: Global, productions: &[RawProduction]) -> Result<Items<u16>, NoMemory>
    ensures { IfOk result (λ classes. classes ≡ spec.classes_of productions.now) }
{
    classes_among(alloc, productions, &[0, 1, 2])
}
