//! Checks the limits of a grammar (N10).
ghost use Rattle.std.specs.Prelude.{◌≡◌, ◌+◌, fold, map, IfOk, OnOk};
ghost use Rattle.std.specs.List.{list_all};
ghost use Rattle.normalform.specs.faults.FaultList.{after_checks};
ghost use Rattle.normalform.specs.faults.Faults.{limit_checks, few_attributes, few_items};
ghost use Rattle.normalform.specs.faults.Faults.{few_children, is_short, symbol_limits};
ghost use Rattle.normalform.specs.faults.Faults.{production_limits, literal_limits};
ghost use Rattle.normalform.specs.faults.Resolved.{resolved_productions};
ghost use Rattle.normalform.specs.numbers.Numbers as spec;
ghost use Rattle.normalform.specs.numbers.Numbers.{symbol_of, with_item};

use crate::fault::{LimitKind, NormalFault};
use crate::faults::fault_list::FaultList;
use crate::faults::resolved::ResolvedProduction;
use crate::numbers::names::Names;
use ag_grammar::limits::{
    MAX_ATTRIBUTES, MAX_CHILDREN, MAX_ITEMS, MAX_LITERAL_BYTES, MAX_LITERALS, MAX_PRODUCTIONS,
    MAX_SYMBOLS,
};
use ag_grammar::{RawGrammar, RawItem, RawProduction, RawSymbol};
use ag_value::NoMemory;
use std::alloc::Global;

/// Appends to `texts` each literal of a right side that `texts` does not have yet.
fn list_literals<'t>(texts: &mut Names<'t>, items: &'t [RawItem]) -> Result<(), NoMemory>
    ensures { OnOk result (texts.new ≡ fold with_item texts.old items.now) }
{
    for item in items {
        if let RawItem::Literal(text) = item {
            texts.insert(text.as_str())?;
        }
    }
    Ok(())
}

/// Returns the literals of productions, each once, in the order of first appearance. Fails with
/// `NoMemory` if memory is refused.
pub fn literals_of<'t>(
    alloc: Global,
    productions: &'t [RawProduction],
) -> Result<Names<'t>, NoMemory>
    ensures { IfOk result (λ texts. texts ≡ spec.literals_of productions.now) }
{
    let mut texts = Names::new(alloc);
    for production in productions {
        list_literals(&mut texts, production.items.as_slice())?;
    }
    Ok(texts)
}

/// Returns whether a symbol has at most `MAX_ATTRIBUTES` attributes.
fn has_few_attributes(symbol: &RawSymbol) -> bool
    ensures { result ≡ few_attributes (symbol_of symbol.now) }
{
    symbol.syn.as_slice().len() + symbol.inh.as_slice().len() <= MAX_ATTRIBUTES
}

/// Returns whether each symbol has at most `MAX_ATTRIBUTES` attributes.
fn all_have_few_attributes(symbols: &[RawSymbol]) -> bool
    ensures { result ≡ list_all few_attributes (map symbol_of symbols.now) }
{
    for symbol in symbols {
        if !has_few_attributes(symbol) {
            return false;
        }
    }
    true
}

/// Returns whether a right side has at most `MAX_ITEMS` items.
fn has_few_items(production: &RawProduction) -> bool
    ensures { result ≡ few_items production.now }
{
    production.items.as_slice().len() <= MAX_ITEMS
}

/// Returns whether each right side has at most `MAX_ITEMS` items.
fn all_have_few_items(productions: &[RawProduction]) -> bool
    ensures { result ≡ list_all few_items productions.now }
{
    productions
        .iter()
        .all(|production| has_few_items(production))
}

/// Returns whether a right side has at most `MAX_CHILDREN` symbols and classes. A production has a
/// place for each of them, and place 0 for its left side.
fn has_few_children(production: &ResolvedProduction) -> bool
    ensures { result ≡ few_children production.now }
{
    production.places.as_slice().len() <= 1 + MAX_CHILDREN
}

/// Returns whether each right side has at most `MAX_CHILDREN` symbols and classes.
fn all_have_few_children(productions: &[ResolvedProduction]) -> bool
    ensures { result ≡ list_all few_children productions.now }
{
    productions
        .iter()
        .all(|production| has_few_children(production))
}

/// Returns whether each literal has at most `MAX_LITERAL_BYTES` bytes.
fn all_are_short(texts: &Names<'_>) -> bool
    ensures { result ≡ list_all is_short texts.now }
{
    for (text, _) in texts.listed() {
        if text.len() > MAX_LITERAL_BYTES {
            return false;
        }
    }
    true
}

/// Appends N10 for each limit that the symbols exceed.
#[tactic(auto, using(crate::proofs::Listing::after_both))]
fn push_symbol_limits(faults: &mut FaultList, symbols: &[RawSymbol]) -> Result<(), NoMemory>
    ensures { OnOk result (faults.new ≡ after_checks faults.old
        (symbol_limits (map symbol_of symbols.now))) }
{
    faults.push_unless(
        symbols.len() <= MAX_SYMBOLS,
        NormalFault::Limit(LimitKind::Symbols),
    )?;
    faults.push_unless(
        all_have_few_attributes(symbols),
        NormalFault::Limit(LimitKind::Attributes),
    )
}

/// Appends N10 for each limit that the productions exceed.
#[tactic(auto, using(crate::proofs::Listing::after_both))]
fn push_production_limits(
    faults: &mut FaultList,
    productions: &[RawProduction],
    resolved: &[ResolvedProduction],
) -> Result<(), NoMemory>
    ensures { OnOk result (faults.new ≡ after_checks faults.old
        (production_limits productions.now resolved.now)) }
{
    faults.push_unless(
        productions.len() <= MAX_PRODUCTIONS,
        NormalFault::Limit(LimitKind::Productions),
    )?;
    faults.push_unless(
        all_have_few_items(productions),
        NormalFault::Limit(LimitKind::Items),
    )?;
    faults.push_unless(
        all_have_few_children(resolved),
        NormalFault::Limit(LimitKind::Stored),
    )
}

/// Appends N10 for each limit that the literals exceed.
#[tactic(auto, using(crate::proofs::Listing::after_both))]
fn push_literal_limits(faults: &mut FaultList, literals: &Names<'_>) -> Result<(), NoMemory>
    ensures { OnOk result (faults.new ≡ after_checks faults.old (literal_limits literals.now)) }
{
    faults.push_unless(
        all_are_short(literals),
        NormalFault::Limit(LimitKind::LiteralLength),
    )?;
    faults.push_unless(
        literals.count() <= MAX_LITERALS,
        NormalFault::Limit(LimitKind::Literals),
    )
}

/// Appends N10 for each limit that is exceeded, in the order of `LimitKind`. `resolved` has the
/// resolved productions. Fails with `NoMemory` if memory is refused.
#[tactic(auto, using(crate::proofs::Listing::after_full, crate::proofs::Listing::after_both))]
pub fn push_limits(
    alloc: Global,
    faults: &mut FaultList,
    raw: &RawGrammar,
    resolved: &[ResolvedProduction],
) -> Result<(), NoMemory>
    requires { resolved.now ≡ resolved_productions raw.now }
    ensures { OnOk result (faults.new ≡ after_checks faults.old (limit_checks raw.now)) }
{
    if faults.is_full() {
        return Ok(());
    }
    let productions = raw.productions.as_slice();
    push_symbol_limits(faults, raw.symbols.as_slice())?;
    push_production_limits(faults, productions, resolved)?;
    let literals = literals_of(alloc, productions)?;
    push_literal_limits(faults, &literals)?;
    Ok(())
}
