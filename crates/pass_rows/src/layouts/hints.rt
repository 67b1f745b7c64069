//! Hints for reading: where the value that a pass reads next may be stored already.
//!
//! Many values that a pass reads are equal to others that it has read before. The row of a node has
//! the values of the node's own attributes, synthesized ones before inherited ones, and then copies
//! of its children's synthesized attributes. While the record of the child at place j is read, the
//! row of its parent is stored, and so are the values of the child's row before the one that is
//! read next. In this table a to d are attributes, and i and m are places. Rules and places are
//! those of the parent's production in the first two lines, and of the child's own production in
//! the others:
//!
//! | Value | Candidate | Equal |
//! |---|---|---|
//! | own synthesized `a` | in the parent's row: the copy of `$j.a` | always |
//! | own inherited `a` | in the parent's row: `$i.b`, if the rule of `$j.a` is `$i.b` | always |
//! | other own inherited `a` | in its own row: `b`, if a rule is `$0.b = $0.a` | always |
//! | copy of `$i.b` | in its own row: `a`, if a rule is `$0.a = $i.b` | always |
//! | other copy of `$i.b` | earlier in its own row: `$m.d`, if a rule is `$i.c = $m.d` | maybe |
//!
//! "Always" means: in each file that the earlier passes wrote. In a damaged file the values may
//! differ. "Maybe" means: the values are equal if rules in the subtree of `$i` copy `c` to `b`. A
//! rule also counts as `$i.b` if its expression is a `let`, an `if` or an `orelse` that may return
//! an occurrence, and `$i.b` is the first such occurrence. Then the values are equal if the
//! expression does return `$i.b`. Only rules of passes before k count: their values are in the
//! file.
//!
//! No contract mentions hints. `Carried::read_beside` compares the candidate with the bytes that
//! are read. So a wrong hint costs a comparison and changes nothing. Numbers and errors are read
//! without hints.

use crate::layouts::building::{PlaceRow, ProductionRow, RuleSlots};
use crate::layouts::rows::{passes_at, row_length};
use crate::setting::Setting;
use ag_carried::Carried;
use ag_grammar::{BinaryCall, Item, Node, Production, Rule, Target};
use ag_value::NoMemory;
use std::alloc::Global;

/// The hints for the records of a production's nodes, and for those of their children. Slots count
/// from the first value of a row.
#[derive(Drop)]
pub struct RowHints {
    /// For each slot of the row, another slot of the row, or none.
    own: Vec<Option<usize>>,
    /// For each place, and for each slot of the row of the child there, a slot of the parent's row,
    /// or none.
    children: Vec<Vec<Option<usize>>>,
}

impl RowHints {
    /// Returns the hints for a production in a pass. Fails with `NoMemory` if memory cannot be
    /// allocated.
    pub fn new(
        alloc: Global,
        setting: &Setting<'_>,
        production: &Production,
        row: &ProductionRow,
    ) -> Result<RowHints, NoMemory> {
        let mut own = Vec::new(alloc);
        for _ in 0..row.width {
            own.push(None)?;
        }
        let mut children = Vec::new(alloc);
        for place in row.places.as_slice() {
            children.push(hints_of_copies(alloc, setting, *place)?)?;
        }
        let mut hints = RowHints { own, children };
        for (rule, slots) in production
            .rules
            .as_slice()
            .iter()
            .zip(row.rules.as_slice().iter())
        {
            if is_earlier(setting, row, rule.target) {
                hints.add_rule(rule, slots, row);
            }
        }
        Ok(hints)
    }

    /// Adds the hints of a rule of an earlier pass, if the rule's value may be that of an
    /// occurrence.
    fn add_rule(&mut self, rule: &Rule, slots: &RuleSlots, row: &ProductionRow) {
        let Some(place) = row.places.as_slice().get(rule.target.place as usize) else {
            return;
        };
        let Some(occurrence) = returned_occurrence(rule.expr.tree()) else {
            return;
        };
        let Some(slot) = slots.args.as_slice().get(occurrence) else {
            return;
        };
        let slot = *slot as usize;
        let target = slots.target as usize;
        if rule.target.place == 0 {
            set(&mut self.own, slot, target);
            return;
        }
        let Some(child) = self.children.get_mut(rule.target.place as usize) else {
            return;
        };
        let Some(target) = target.checked_sub(row.width as usize) else {
            return;
        };
        set(child, target, slot);
        self.add_returned(*place, slot);
    }

    /// Makes `slot` the hint for those copies at a place that come after this slot and have no
    /// hint.
    fn add_returned(&mut self, place: PlaceRow, slot: usize) {
        let start = place.start as usize;
        for (copy, hint) in self.own.iter_mut().enumerate() {
            if copy >= start
                && copy - start < place.width as usize
                && copy > slot
                && hint.is_none()
            {
                *hint = Some(slot);
            }
        }
    }
}

/// The hints for the records of all nodes, by the number of the node's production.
#[derive(Drop)]
pub struct Hints {
    rows: Vec<RowHints>,
}

impl Hints {
    /// Returns hints without an entry: no value has a hint.
    pub fn none(alloc: Global) -> Hints {
        Hints {
            rows: Vec::new(alloc),
        }
    }

    /// Returns the hints for each production of a grammar in a pass. `rows` has the layouts of the
    /// productions. Fails with `NoMemory` if memory cannot be allocated.
    pub fn new(
        alloc: Global,
        setting: &Setting<'_>,
        rows: &[ProductionRow],
    ) -> Result<Hints, NoMemory> {
        let mut hints = Vec::new(alloc);
        for (production, row) in setting.grammar.productions().iter().zip(rows.iter()) {
            hints.push(RowHints::new(alloc, setting, production, row)?)?;
        }
        Ok(Hints { rows: hints })
    }

    /// Returns the hints for the row of a production's nodes, by slot: slots of the same row.
    fn own(&self, production: u16) -> &[Option<usize>] {
        match self.rows.get(production as usize) {
            Some(row) => row.own.as_slice(),
            None => &[],
        }
    }

    /// Returns the hints for the row of the child at a location, by slot: slots of the parent's
    /// row.
    fn child(&self, location: ChildLocation) -> &[Option<usize>] {
        let Some(row) = self.rows.get(location.production as usize) else {
            return &[];
        };
        match row.children.get(location.place as usize) {
            Some(hints) => hints.as_slice(),
            None => &[],
        }
    }
}

/// Returns the hints for the slots of the row of the child at a place: the slots of its copies in
/// the parent's row, and none for values without a copy. A token has no hints. Fails with
/// `NoMemory` if memory cannot be allocated.
fn hints_of_copies(
    alloc: Global,
    setting: &Setting<'_>,
    place: PlaceRow,
) -> Result<Vec<Option<usize>>, NoMemory> {
    let mut hints = Vec::new(alloc);
    let Item::Symbol(symbol) = place.item else {
        return Ok(hints);
    };
    for slot in 0..row_length(passes_at(setting.plan, symbol), setting.pass) {
        if slot < place.width as usize {
            hints.push((place.start as usize).checked_add(slot))?;
        } else {
            hints.push(None)?;
        }
    }
    Ok(hints)
}

/// Returns whether the target of a rule is an attribute of an earlier pass.
fn is_earlier(setting: &Setting<'_>, row: &ProductionRow, target: Target) -> bool {
    let Some(place) = row.places.as_slice().get(target.place as usize) else {
        return false;
    };
    let Item::Symbol(symbol) = place.item else {
        return false;
    };
    match passes_at(setting.plan, symbol).get(target.attr as usize) {
        Some(pass) => *pass < setting.pass,
        None => false,
    }
}

/// Returns the number of the first occurrence whose value an expression may return unchanged.
/// Returns `None` if it finds no such occurrence.
fn returned_occurrence(node: &Node) -> Option<usize> {
    match node {
        Node::Occurrence(k) => Some(*k),
        Node::Let(_, body) => returned_occurrence(body.get()),
        Node::If(_, one, other) => {
            let Some(k) = returned_occurrence(one.get()) else {
                return returned_occurrence(other.get());
            };
            Some(k)
        }
        Node::Binary(BinaryCall::OrElse, one, other) => {
            let Some(k) = returned_occurrence(one.get()) else {
                return returned_occurrence(other.get());
            };
            Some(k)
        }
        _ => None,
    }
}

/// Sets the hint for a slot, if there is such a slot.
fn set(hints: &mut Vec<Option<usize>>, slot: usize, hint: usize) {
    if let Some(place) = hints.get_mut(slot) {
        *place = Some(hint);
    }
}

/// Where a record is read: at a place of an open node of a production. The root has no parent, and
/// no row is stored before its own. The root's location is place 0 of production 0, since no slot
/// of place 0 has a hint.
#[derive(Clone, Copy, Default)]
pub struct ChildLocation {
    pub production: u16,
    pub place: u16,
}

/// The row into which a pass reads the record of a node. `production` is the number of the node's
/// production, and `parent` the location at which the record is read. The row begins at index
/// `start` of all stored values. The row of the parent, if it is stored, comes directly before it.
#[derive(Clone, Copy)]
pub struct RowLocation<'a> {
    /// A reference to the field that has the address of the hints: so this address is read only
    /// where a hint is looked up.
    pub hints: &'a &'a Hints,
    /// The number of the pass.
    pub pass: u16,
    pub production: u16,
    pub parent: ChildLocation,
    pub start: usize,
}

impl RowLocation<'_> {
    /// Returns the stored value that the next value of the row may be equal to, if there is a hint.
    /// `values` are the stored values. They end with the values that this row has so far.
    pub fn candidate<'v>(&self, values: &'v [Carried]) -> Option<&'v Carried> {
        let slot = values.len().checked_sub(self.start)?;
        if let Some(Some(hint)) = self.hints.child(self.parent).get(slot) {
            let parent_width = self.hints.own(self.parent.production).len();
            let parent_start = self.start.checked_sub(parent_width)?;
            return values.get(parent_start.checked_add(*hint)?);
        }
        let hint = (*self.hints.own(self.production).get(slot)?)?;
        values.get(self.start.checked_add(hint)?)
    }
}
