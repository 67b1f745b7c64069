//! Resolving the names of productions. The functions that allocate fail with `NoMemory` if memory
//! is refused. Where a function takes `items`, these are the items at the places of one production.
ghost use Rattle.std.specs.Prelude.{◌≡◌, ◌++◌, false, map, flat_map, IfOk, OnOk};
ghost use Rattle.normalform.specs.faults.Resolved as spec;
ghost use Rattle.normalform.specs.faults.Resolved.{item_placed, place_of, resolved_production};
ghost use Rattle.normalform.specs.numbers.Numbers.{declared_names, placed};

use crate::faults::resolved::{PlacedItem, Reference, ResolvedProduction};
use crate::numbers::declared::Declared;
use ag_grammar::{Occ, RawItem, RawProduction, RawRule, occurrences};
use ag_value::{Items, NoMemory};
use std::alloc::Global;

/// Appends an item, unless it is a literal, which has no place.
fn place_item(
    items: &mut Vec<PlacedItem>,
    declared: &Declared<'_>,
    item: &RawItem,
) -> Result<(), NoMemory>
    ensures { OnOk result (items.new.items
        ≡ items.old.items ++ place_of (declared_names declared.now) item.now) }
{
    match item {
        RawItem::Name(name) => items.push(PlacedItem::Symbol(
            declared.number(name.name.as_str()),
            name.at,
        ))?,
        RawItem::Literal(_) => (),
        RawItem::Class(class) => items.push(PlacedItem::Class(*class))?,
    }
    Ok(())
}

/// Returns the items at the places of a production, the left side first.
pub fn places_of(
    alloc: Global,
    declared: &Declared<'_>,
    production: &RawProduction,
) -> Result<Vec<PlacedItem>, NoMemory>
    ensures places { IfOk result (λ items. items.items
        ≡ spec.places_of declared.now production.now) }
    ensures items { IfOk result (λ items. map item_placed items.items
        ≡ placed declared.now production.now) }
{
    let mut items = Vec::new(alloc);
    items.push(PlacedItem::Symbol(
        declared.number(production.left.name.as_str()),
        production.left.at,
    ))?;
    for item in production.items.as_slice() {
        place_item(&mut items, declared, item)?;
    }
    Ok(items)
}

/// Returns an occurrence with the number and the role of the attribute that it names.
fn reference_of(
    declared: &Declared<'_>,
    items: &[PlacedItem],
    is_target: bool,
    occurrence: &Occ,
) -> Reference
    ensures { result ≡ spec.reference_of declared.now (map item_placed items.now) is_target
        occurrence.now }
{
    let place = occurrence.place as usize;
    let attr = declared.attribute(items, occurrence);
    Reference {
        at: occurrence.at,
        place,
        attr,
        role: declared.role(items, attr, place),
        is_target,
    }
}

/// Appends the references of arguments.
fn push_arguments(
    references: &mut Vec<Reference>,
    declared: &Declared<'_>,
    items: &[PlacedItem],
    occurrences: &[Occ],
) -> Result<(), NoMemory>
    ensures { OnOk result (references.new.items ≡ references.old.items
        ++ map (spec.reference_of declared.now (map item_placed items.now) false) occurrences.now) }
{
    for occurrence in occurrences {
        references.push(reference_of(declared, items, false, occurrence))?;
    }
    Ok(())
}

/// Appends the references of a rule: its target, and then its arguments.
fn push_references(
    references: &mut Vec<Reference>,
    declared: &Declared<'_>,
    items: &[PlacedItem],
    rule: &RawRule,
) -> Result<(), NoMemory>
    ensures { OnOk result (references.new.items ≡ references.old.items
        ++ spec.references_of declared.now (map item_placed items.now) rule.now) }
{
    references.push(reference_of(declared, items, true, &rule.target))?;
    push_arguments(references, declared, items, occurrences(&rule.expr))
}

/// Returns the references of rules.
fn references_of(
    alloc: Global,
    declared: &Declared<'_>,
    items: &[PlacedItem],
    rules: &[RawRule],
) -> Result<Vec<Reference>, NoMemory>
    ensures { IfOk result (λ references. references.items
        ≡ flat_map (spec.references_of declared.now (map item_placed items.now)) rules.now) }
{
    let mut references = Vec::new(alloc);
    for rule in rules {
        push_references(&mut references, declared, items, rule)?;
    }
    Ok(references)
}

/// Returns a resolved production.
fn production_of(
    alloc: Global,
    declared: &Declared<'_>,
    production: &RawProduction,
) -> Result<ResolvedProduction, NoMemory>
    ensures { IfOk result (λ q. q ≡ resolved_production declared.now production.now) }
{
    let places = places_of(alloc, declared, production)?;
    let rules = production.rules.as_slice();
    let references = references_of(alloc, declared, places.as_slice(), rules)?;
    Ok(ResolvedProduction {
        places: Items::from_vec(places),
        references: Items::from_vec(references),
    })
}

/// Returns resolved productions.
pub fn productions_of(
    alloc: Global,
    declared: &Declared<'_>,
    productions: &[RawProduction],
) -> Result<Vec<ResolvedProduction>, NoMemory>
    ensures { IfOk result (λ qs. qs.items
        ≡ map (resolved_production declared.now) productions.now) }
{
    let mut resolved = Vec::new(alloc);
    for production in productions {
        resolved.push(production_of(alloc, declared, production)?)?;
    }
    Ok(resolved)
}
