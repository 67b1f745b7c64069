//! The faults N6 and N7: rules that are missing or duplicate.
ghost use Rattle.std.specs.Prelude.{◌≡◌, [], map, IfOk, OnOk};
ghost use Rattle.normalform.specs.faults.FaultList.{after_checks};
ghost use Rattle.normalform.specs.faults.Faults as spec;
ghost use Rattle.normalform.specs.faults.Faults.{checks_along, next_index, with_reference};
ghost use Rattle.normalform.specs.faults.Faults.{is_fresh, new_target};
ghost use Rattle.normalform.specs.faults.Resolved.{item_placed};

use crate::fault::NormalFault;
use crate::faults::fault_list::FaultList;
use crate::faults::resolved::{PlacedItem, Reference, ResolvedProduction, Role};
use crate::faults::targets::Targets;
use crate::numbers::declared::Declared;
use ag_value::NoMemory;
use std::alloc::Global;

/// Adds a target to `targets`, unless it is there already. Adds no argument. Returns whether the
/// reference was not a target in `targets`.
fn add_reference(targets: &mut Targets, reference: &Reference) -> Result<bool, NoMemory>
    ensures added { OnOk result (targets.new ≡ with_reference targets.old reference.now) }
    ensures fresh { IfOk result (λ b. b ≡ is_fresh targets.old reference.now) }
{
    if !reference.is_target {
        return Ok(true);
    }
    targets.add(reference.place, reference.attr)
}

/// Returns whether the attribute of a reference exists.
fn is_there(reference: &Reference) -> bool
    ensures { result ≡ spec.is_there reference.now.role }
{
    reference.role == Role::Defined || reference.role == Role::Used
}

/// Returns the different targets among references.
fn targets_of(alloc: Global, references: &[Reference]) -> Result<Targets, NoMemory>
    ensures { IfOk result (λ t. t ≡ spec.targets_of references.now) }
{
    let mut targets = Targets::new(alloc);
    for reference in references {
        add_reference(&mut targets, reference)?;
    }
    Ok(targets)
}

/// Appends N6 for each attribute at `place` that needs a rule and has none. `production` is the
/// number of a production, `item` the item at the place, and `targets` has the targets of all rules
/// of the production. The attribute of a token needs no rule.
#[tactic(auto, using(crate::proofs::Listing::after_none))]
fn push_missing_at(
    faults: &mut FaultList,
    declared: &Declared<'_>,
    targets: &Targets,
    production: usize,
    place: usize,
    item: PlacedItem,
) -> Result<(), NoMemory>
    ensures { OnOk result (faults.new ≡ after_checks faults.old
        (spec.missing_at declared.now targets.now production place (item_placed item))) }
{
    let PlacedItem::Symbol(symbol, _) = item else {
        return Ok(());
    };
    let (first, end) = declared.defined_here(place, symbol);
    for attr in first..end {
        faults.push_unless(
            targets.has(place, attr),
            NormalFault::RuleMissing(production, place, attr),
        )?;
    }
    Ok(())
}

/// Appends the faults N6 of a production, by place and then by attribute. `production` is the
/// production's number, and `items` has the item at each of its places.
#[tactic(auto, using(crate::proofs::Listing::after_none))]
fn push_missing_among(
    faults: &mut FaultList,
    declared: &Declared<'_>,
    targets: &Targets,
    production: usize,
    items: &[PlacedItem],
) -> Result<(), NoMemory>
    ensures { OnOk result (faults.new ≡ after_checks faults.old
        (checks_along (spec.missing_at declared.now targets.now production) next_index 0
        (map item_placed items.now))) }
{
    for place in 0..items.len() {
        push_missing_at(faults, declared, targets, production, place, items[place])?;
    }
    Ok(())
}

/// Appends the faults N6 of a production. `number` is the production's number.
#[tactic(auto, using(crate::proofs::Listing::after_full))]
fn push_missing_in(
    alloc: Global,
    faults: &mut FaultList,
    declared: &Declared<'_>,
    number: usize,
    production: &ResolvedProduction,
) -> Result<(), NoMemory>
    ensures { OnOk result (faults.new ≡ after_checks faults.old
        (spec.missing_in declared.now number production.now)) }
{
    if faults.is_full() {
        return Ok(());
    }
    let targets = targets_of(alloc, production.references.as_slice())?;
    let items = production.places.as_slice();
    push_missing_among(faults, declared, &targets, number, items)
}

/// Appends each fault N6: an attribute that needs a rule and has none, by production, then place,
/// then attribute.
#[tactic(auto, using(crate::proofs::Listing::after_none))]
pub fn push_missing(
    alloc: Global,
    faults: &mut FaultList,
    declared: &Declared<'_>,
    productions: &[ResolvedProduction],
) -> Result<(), NoMemory>
    ensures { OnOk result (faults.new ≡ after_checks faults.old
        (spec.missing_checks declared.now productions.now)) }
{
    for (number, production) in productions.iter().enumerate() {
        push_missing_in(alloc, faults, declared, number, production)?;
    }
    Ok(())
}

/// Appends N7 if a reference is a target that exists and is in `targets`, which has the targets of
/// the earlier rules of the production. Adds the target to `targets`, unless it is there already.
fn push_doubled_rule(
    faults: &mut FaultList,
    targets: &mut Targets,
    reference: &Reference,
) -> Result<(), NoMemory>
    ensures faults { OnOk result (faults.new ≡ after_checks faults.old
        (new_target targets.old reference.now)) }
    ensures added { OnOk result (targets.new ≡ with_reference targets.old reference.now) }
{
    let is_fresh = add_reference(targets, reference)?;
    let holds = is_fresh || !is_there(reference);
    faults.push_unless(holds, NormalFault::RuleDoubled(reference.at))
}

/// Appends N7 for each rule of a production with the same target as an earlier rule.
#[tactic(auto, using(crate::proofs::Listing::after_none, crate::proofs::Listing::after_full))]
fn push_doubled_in(
    alloc: Global,
    faults: &mut FaultList,
    references: &[Reference],
) -> Result<(), NoMemory>
    ensures { OnOk result (faults.new ≡ after_checks faults.old
        (checks_along new_target with_reference [] references.now)) }
{
    if faults.is_full() {
        return Ok(());
    }
    let mut targets = Targets::new(alloc);
    for reference in references {
        push_doubled_rule(faults, &mut targets, reference)?;
    }
    Ok(())
}

/// Appends each fault N7: a second rule for a target of a production.
#[tactic(auto, using(crate::proofs::Listing::after_none))]
pub fn push_doubled_rules(
    alloc: Global,
    faults: &mut FaultList,
    productions: &[ResolvedProduction],
) -> Result<(), NoMemory>
    ensures { OnOk result (faults.new ≡ after_checks faults.old
        (spec.doubled_rules productions.now)) }
{
    for production in productions {
        push_doubled_in(alloc, faults, production.references.as_slice())?;
    }
    Ok(())
}
