//! The faults N1 and N2: names that are not declared, places that do not exist, and names that are
//! declared twice.
ghost use Rattle.std.specs.Prelude.{◌≡◌, ◌++◌, [], fold, OnOk, flat_map};
ghost use Rattle.normalform.specs.faults.FaultList.{after_checks};
ghost use Rattle.normalform.specs.faults.Faults as spec;
ghost use Rattle.normalform.specs.faults.Faults.{new_check, place_checks, unknown_in};
ghost use Rattle.normalform.specs.faults.Faults.{symbol_checks, with_name, with_symbol};
ghost use Rattle.normalform.specs.numbers.Numbers.{with_text};

use crate::fault::NormalFault;
use crate::faults::fault_list::FaultList;
use crate::faults::reference_checks::{RuleCheck, push_among};
use crate::faults::resolved::{PlacedItem, ResolvedProduction};
use crate::numbers::declared::Declared;
use crate::numbers::names::Names;
use ag_grammar::{Named, RawSymbol};
use ag_value::NoMemory;
use std::alloc::Global;

/// Appends N1 if an item is an undeclared symbol.
#[tactic(auto, using(crate::proofs::Listing::after_none))]
fn push_unknown_item(
    faults: &mut FaultList,
    declared: &Declared<'_>,
    item: PlacedItem,
) -> Result<(), NoMemory>
    ensures { OnOk result (faults.new ≡ after_checks faults.old (place_checks declared.now item)) }
{
    match item {
        PlacedItem::Symbol(symbol, at) => {
            faults.push_unless(symbol < declared.count(), NormalFault::UnknownName(at))
        }
        PlacedItem::Class(_) => Ok(()),
    }
}

/// Appends N1 for each undeclared symbol among the items at places.
#[tactic(auto, using(crate::proofs::Listing::after_none, crate::proofs::Listing::after_both))]
fn push_unknown_items(
    faults: &mut FaultList,
    declared: &Declared<'_>,
    items: &[PlacedItem],
) -> Result<(), NoMemory>
    ensures { OnOk result (faults.new ≡ after_checks faults.old
        (flat_map (place_checks declared.now) items.now)) }
{
    for item in items {
        push_unknown_item(faults, declared, *item)?;
    }
    Ok(())
}

/// Appends the faults N1 of a production: of its left side and its items, then of its rules.
fn push_unknown_in(
    faults: &mut FaultList,
    declared: &Declared<'_>,
    production: &ResolvedProduction,
) -> Result<(), NoMemory>
    ensures { OnOk result (faults.new ≡ after_checks faults.old
        (unknown_in declared.now production.now)) }
{
    push_unknown_items(faults, declared, production.places.as_slice())?;
    push_among(RuleCheck::Known, faults, production.references.as_slice())?;
    Ok(())
}

/// Appends each fault N1: an undeclared symbol of a production, or a target or an argument of a
/// rule whose place or attribute does not exist.
#[tactic(auto, using(crate::proofs::Listing::after_none))]
pub fn push_unknown(
    faults: &mut FaultList,
    declared: &Declared<'_>,
    productions: &[ResolvedProduction],
) -> Result<(), NoMemory>
    ensures { OnOk result (faults.new ≡ after_checks faults.old
        (spec.unknown_checks declared.now productions.now)) }
{
    for production in productions {
        push_unknown_in(faults, declared, production)?;
    }
    Ok(())
}

/// Appends N2 if a name is one of the earlier names, which are `seen`. Otherwise adds it to `seen`.
fn push_doubled_name<'t>(
    faults: &mut FaultList,
    seen: &mut Names<'t>,
    name: &'t Named,
) -> Result<(), NoMemory>
    ensures faults { OnOk result (faults.new ≡ after_checks faults.old
        (new_check seen.old name.now)) }
    ensures seen { OnOk result (seen.new ≡ with_text seen.old name.now.name) }
{
    let is_new = seen.insert(name.name.as_str())?;
    faults.push_unless(is_new, NormalFault::DoubledName(name.at))
}

/// Appends N2 for each name of `names` that is in `seen` or repeats an earlier name of `names`.
/// Adds the names to `seen`.
#[tactic(auto, using(crate::proofs::Listing::after_none))]
fn push_doubled_names<'t>(
    faults: &mut FaultList,
    seen: &mut Names<'t>,
    names: &'t [Named],
) -> Result<(), NoMemory>
    ensures faults { OnOk result (faults.new ≡ after_checks faults.old
        (spec.doubled_names seen.old names.now)) }
    ensures seen { OnOk result (seen.new ≡ fold with_name seen.old names.now) }
{
    for name in names {
        push_doubled_name(faults, seen, name)?;
    }
    Ok(())
}

/// Appends N2 for each attribute that is declared again in its symbol.
#[tactic(auto, using(crate::proofs::Listing::after_full))]
fn push_doubled_attributes(
    alloc: Global,
    faults: &mut FaultList,
    symbol: &RawSymbol,
) -> Result<(), NoMemory>
    ensures { OnOk result (faults.new ≡ after_checks faults.old
        (spec.doubled_names [] (symbol.now.syn ++ symbol.now.inh))) }
{
    if faults.is_full() {
        return Ok(());
    }
    let mut seen = Names::new(alloc);
    push_doubled_names(faults, &mut seen, symbol.syn.as_slice())?;
    push_doubled_names(faults, &mut seen, symbol.inh.as_slice())?;
    Ok(())
}

/// Appends the faults N2 of a symbol. `seen` has the names of the symbols before it. Adds the
/// symbol's name to `seen`, unless it is there already.
#[tactic(auto, using(crate::proofs::Listing::after_both))]
fn push_doubled_in<'t>(
    alloc: Global,
    faults: &mut FaultList,
    seen: &mut Names<'t>,
    symbol: &'t RawSymbol,
) -> Result<(), NoMemory>
    ensures faults { OnOk result (faults.new ≡ after_checks faults.old
        (symbol_checks seen.old symbol.now)) }
    ensures seen { OnOk result (seen.new ≡ with_symbol seen.old symbol.now) }
{
    push_doubled_name(faults, seen, &symbol.name)?;
    push_doubled_attributes(alloc, faults, symbol)?;
    Ok(())
}

/// Appends each fault N2: a symbol that is declared again, or an attribute that is declared again
/// in its symbol.
#[tactic(auto, using(crate::proofs::Listing::after_none, crate::proofs::Listing::after_full))]
pub fn push_doubled<'t>(
    alloc: Global,
    faults: &mut FaultList,
    symbols: &'t [RawSymbol],
) -> Result<(), NoMemory>
    ensures { OnOk result (faults.new ≡ after_checks faults.old
        (spec.doubled_checks symbols.now)) }
{
    if faults.is_full() {
        return Ok(());
    }
    let mut seen = Names::new(alloc);
    for symbol in symbols {
        push_doubled_in(alloc, faults, &mut seen, symbol)?;
    }
    Ok(())
}
