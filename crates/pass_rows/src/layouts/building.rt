//! Computes the layout of each production in a pass: its instructions, the number of values in the
//! row of each of its nodes, the passes of these and of later values, its places, and the slots of
//! its rules.

ghost use Rattle.std.specs.Prelude.{◌≡◌, ◌+◌, ◌-◌, ◌≤◌, ◌<◌, [], IfOk, length, map};
ghost use Rattle.std.specs.Prelude.{slice_index_or};
ghost use Rattle.ag_grammar.specs.Lists.{Each};
ghost use Rattle.ag_grammar.specs.declared.grammar.Target.{Target as TheTarget};
ghost use Rattle.ag_grammar.specs.grammars.Accepted.{IsAccepted, max_children};
ghost use Rattle.ag_grammar.specs.grammars.AttributeGrammar.{places_of};
ghost use Rattle.passassign.specs.Rows.{passes_of};
ghost use Rattle.passcode.specs.Rows.{row_of};
ghost use Rattle.pass_rows.specs.Settings.{pass_setting};
ghost use Rattle.pass_rows.specs.layouts.BuiltLayouts.{AreWithin, argument_slot_by, layout_of, place_rows};
ghost use Rattle.pass_rows.specs.layouts.BuiltLayouts.{production_row, rule_slots_by, start_in, target_slot_by};
ghost use Rattle.pass_rows.specs.layouts.Slots.{stored_width};
ghost use Rattle.pass_rows.specs.layouts.Starts.{AreLow, AreSmall, max_width};
ghost use Rattle.planchecker.specs.Plans.{IsPlan};
ghost use Rattle.passcode.specs.Settings.{list_at};

use crate::layouts::hints::Hints;
use crate::layouts::rows::{copied_width, known_width, passes_at, rank_of, row_length, row_passes};
use crate::setting::Setting;
use ag_grammar::{Item, Production, Rule, Target};
use ag_value::{Items, NoMemory};
use passcode::Instr;
use std::alloc::Global;

/// The slots of a rule: indices among the stored values, counted from the first value of the node's
/// own row. A slot beyond that row is in the row of the child whose record was read last.
#[derive(Drop)]
pub struct RuleSlots {
    /// The slot of the target.
    pub target: u16,
    /// The slots of the arguments, in their order.
    pub args: Items<u16>,
}

/// The item at a place of a production, and the range of its copies in the row of a node.
#[derive(Clone, Copy)]
pub struct PlaceRow {
    pub item: Item,
    /// The index of the first copy.
    pub start: u16,
    /// The number of copies.
    pub width: u16,
    /// The number of known copies: those that the file of the previous pass has.
    pub known: u16,
}

/// The layout of a production in a pass.
#[derive(Drop)]
pub struct ProductionRow {
    /// The instructions of the pass for the production; empty if there are none.
    pub list: Items<Instr>,
    /// The number of values in the row of a node: its own, and the copies of its children's.
    pub width: u16,
    /// The passes of these values, and of those that only later passes compute.
    pub passes: Items<u16>,
    /// The places: that of the left side (0), and one for each child.
    pub places: Items<PlaceRow>,
    /// The slots of its rules, by the rule's number.
    pub rules: Items<RuleSlots>,
}

/// The layout of each production, by its number, and the hints for reading.
#[derive(Drop)]
pub struct Layout {
    pub productions: Items<ProductionRow>,
    pub hints: Hints,
}

/// Returns a `PlaceRow` for each place of a production in a pass, and the number of values in the
/// row of each of its nodes. Fails with `NoMemory` if memory cannot be allocated.
fn rows_of_places(
    alloc: Global,
    setting: &Setting<'_>,
    production: &Production,
) -> Result<(Items<PlaceRow>, u16), NoMemory>
    requires first { 1 ≤ setting.now.pass }
    requires small { AreSmall (passes_of setting.now.plan.now.assignment) }
    requires few { length (places_of production.now) ≤ max_children + 1 }
    ensures rows { IfOk result (λ found. found.0
        ≡ place_rows (pass_setting setting.now) production.now) }
    ensures width { IfOk result (λ found. found.1
        ≡ stored_width (pass_setting setting.now) production.now) }
    ensures room { IfOk result (λ found. found.1 ≤ max_width) }
{
    let places = production.places(alloc)?;
    let mut rows = Vec::new(alloc);
    let left = Item::Symbol(production.left);
    rows.push(PlaceRow {
        item: left,
        start: 0,
        width: 0,
        known: 0,
    })?;
    let mut start = row_length(passes_at(setting.plan, production.left), setting.pass) as u16;
    for item in &places.as_slice()[1..] {
        let width = copied_width(setting, *item) as u16;
        rows.push(PlaceRow {
            item: *item,
            start,
            width,
            known: known_width(setting, *item) as u16,
        })?;
        start += width;
    }
    Ok((Items::from_vec(rows), start))
}

/// Returns the slot of an argument in a pass: among the node's own values, or among the copies.
#[tactic(auto, using(crate::proofs::places::Found::item_found, crate::proofs::places::Found::start_found))]
fn argument_slot(setting: &Setting<'_>, places: &[PlaceRow], argument: Target) -> u16
    requires small { AreSmall (passes_of setting.now.plan.now.assignment) }
    requires starts { start_in places.now argument.place ≤ max_width }
    requires place { argument.place < length places.now }
    ensures { result ≡ argument_slot_by (passes_of setting.now.plan.now.assignment) setting.now.pass
        places.now argument }
{
    let row = places[argument.place as usize];
    row.start + rank_of(setting, row.item, argument.attr)
}

/// Returns the slot of a target in a pass. The row of a node has `width` values; the row of a child
/// begins after them.
#[tactic(auto, using(crate::proofs::places::Found::item_found))]
fn target_slot(setting: &Setting<'_>, width: u16, places: &[PlaceRow], target: Target) -> u16
    requires small { AreSmall (passes_of setting.now.plan.now.assignment) }
    requires width { width ≤ max_width }
    requires place { target.place < length places.now }
    ensures { result ≡ target_slot_by (passes_of setting.now.plan.now.assignment) setting.now.pass width
        places.now target }
{
    let rank = rank_of(setting, places[target.place as usize].item, target.attr);
    if target.place == 0 {
        return rank;
    }
    width + rank
}

/// Returns the slots of a rule's arguments. Fails with `NoMemory` if memory cannot be allocated.
fn argument_slots(
    alloc: Global,
    setting: &Setting<'_>,
    places: &[PlaceRow],
    arguments: &[Target],
) -> Result<Items<u16>, NoMemory>
    requires small { AreSmall (passes_of setting.now.plan.now.assignment) }
    requires starts { AreLow places.now }
    requires within { Each (λ (o : TheTarget). o.place < length places.now) arguments.now }
    ensures { IfOk result (λ slots. slots
        ≡ map (argument_slot_by (passes_of setting.now.plan.now.assignment) setting.now.pass places.now)
        arguments.now) }
{
    let mut slots = Vec::new(alloc);
    for argument in arguments {
        slots.push(argument_slot(setting, places, *argument))?;
    }
    Ok(Items::from_vec(slots))
}

/// Returns the slots of each rule. Fails with `NoMemory` if memory cannot be allocated.
fn slots_of_rules(
    alloc: Global,
    setting: &Setting<'_>,
    width: u16,
    places: &[PlaceRow],
    rules: &[Rule],
) -> Result<Items<RuleSlots>, NoMemory>
    requires small { AreSmall (passes_of setting.now.plan.now.assignment) }
    requires width { width ≤ max_width }
    requires starts { AreLow places.now }
    requires within { AreWithin (length places.now) rules.now }
    ensures { IfOk result (λ slots. slots
        ≡ map (rule_slots_by (passes_of setting.now.plan.now.assignment) setting.now.pass width places.now)
        rules.now) }
{
    let mut slots = Vec::new(alloc);
    for rule in rules {
        let target = target_slot(setting, width, places, rule.target);
        let args = argument_slots(alloc, setting, places, rule.args.as_slice())?;
        slots.push(RuleSlots { target, args })?;
    }
    Ok(Items::from_vec(slots))
}

/// Returns the instructions of pass k for a production; empty if there are none. `row` has the
/// production's instructions by pass: those of pass k are at index k - 1.
fn list_of_row(row: &[Vec<Instr>], k: u16) -> &[Instr]
    requires { 1 ≤ k }
    ensures { result.now ≡ slice_index_or (row_of row.now) (k - 1) [] }
{
    let index = k as usize - 1;
    if index < row.len() {
        return row[index].as_slice();
    }
    &[]
}

/// Returns the instructions of a pass for a production; empty if there are none.
fn list_of<'r>(setting: &'r Setting<'_>, production: usize) -> &'r [Instr]
    requires { 1 ≤ setting.now.pass }
    ensures { result.now ≡ list_at (pass_setting setting.now) production }
{
    let rows = setting.plan.code().rows();
    if production < rows.len() {
        return list_of_row(rows[production].as_slice(), setting.pass);
    }
    &[]
}

/// Returns the layout of the production with this number. Fails with `NoMemory` if memory cannot be
/// allocated.
fn row_of_production(
    alloc: Global,
    setting: &Setting<'_>,
    number: usize,
    production: &Production,
) -> Result<ProductionRow, NoMemory>
    requires first { 1 ≤ setting.now.pass }
    requires small { AreSmall (passes_of setting.now.plan.now.assignment) }
    requires few { length (places_of production.now) ≤ max_children + 1 }
    requires within { AreWithin (length (places_of production.now)) production.now.rules }
    ensures { IfOk result (λ row. row
        ≡ production_row (pass_setting setting.now) number production.now) }
{
    let passes = row_passes(alloc, setting, production)?;
    let (places, width) = rows_of_places(alloc, setting, production)?;
    let rules = slots_of_rules(
        alloc,
        setting,
        width,
        places.as_slice(),
        production.rules.as_slice(),
    )?;
    Ok(ProductionRow {
        list: Items::from_vec(list_of(setting, number).to_vec(alloc)?),
        width,
        passes,
        places,
        rules,
    })
}

/// Returns the layout of each production of a grammar in a pass of a plan, and the hints.
///
/// Fails with `NoMemory` if memory cannot be allocated. The call reads the attributes of a symbol
/// (at most 16) a few times for each place of a production, and once for each target and each
/// argument of a rule. For the hints, it reads for each rule of an earlier pass at most the whole
/// expression, and the slots of one row.
pub fn build_layout(alloc: Global, setting: &Setting<'_>) -> Result<Layout, NoMemory>
    requires plan { IsPlan setting.now.grammar.now setting.now.plan.now.assignment setting.now.plan.now.code }
    requires first { 1 ≤ setting.now.pass }
    ensures layouts { IfOk result (λ l. l.productions ≡ layout_of (pass_setting setting.now)) }
    ensures accepted { IsAccepted setting.now.grammar.now }
{
    let mut rows = Vec::new(alloc);
    for (number, production) in setting.grammar.productions().iter().enumerate() {
        rows.push(row_of_production(alloc, setting, number, production)?)?;
    }
    let hints = Hints::new(alloc, setting, rows.as_slice())?;
    Ok(Layout {
        productions: Items::from_vec(rows),
        hints,
    })
}
