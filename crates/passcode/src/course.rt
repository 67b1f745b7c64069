//! The list of instructions for one production in one pass.

ghost use Rattle.std.specs.Prelude.{◌≡◌, ◌≤◌, ◌++◌, ◌↔◌, [], IfOk, IsTrue, OnOk, length};
ghost use Rattle.ag_grammar.specs.grammars.Accepted.{max_rules};
ghost use Rattle.ag_grammar.specs.grammars.AttributeGrammar.{item_at};
ghost use Rattle.ag_grammar.specs.grammars.Counts.{pass_at};
ghost use Rattle.ag_grammar.specs.grammars.Passes.{HasPass};
ghost use Rattle.passassign.specs.Rows.{passes_of};
ghost use Rattle.passcode.specs.Agreement.{set_or_def};
ghost use Rattle.passcode.specs.Course.{arity};
ghost use Rattle.passcode.specs.Limits.{IsPlanned};
ghost use Rattle.passcode.specs.Listing.{is_same, remaining_at, remaining_for, generated_list, rule_for, visit};

use crate::instr::Instr;
use ag_grammar::{Direction, Item, Production, Target};
use ag_value::NoMemory;
use passassign::Assignment;
use std::alloc::Global;

/// Returns the instruction that computes an attribute at a place by the rule with number `rule`: a
/// `Def` for place 0, the left side, and otherwise a `Set`. Does not allocate.
pub fn instruction(place: u16, attr: u16, rule: u16) -> Instr
    ensures { result ≡ set_or_def place attr rule }
{
    if place == 0 {
        Instr::Def { attr, rule }
    } else {
        Instr::Set { place, attr, rule }
    }
}

/// Returns the number of children of a production's node, which is the number of symbols and token
/// classes on its right side. A literal is not a child. Does not allocate.
pub fn arity(production: &Production) -> usize
    ensures { result ≡ arity production.now }
{
    let mut count = 0;
    for item in production.items.as_slice() {
        if item.is_stored_child() {
            count += 1;
        }
    }
    count
}

/// Returns whether two attributes at places have the same place and number. Does not allocate.
pub fn is_same(one: Target, other: Target) -> bool
    ensures { result ≡ is_same one other }
{
    one.place == other.place && one.attr == other.attr
}

/// The assignment, the production and the pass that a list of instructions is for.
///
/// In its methods a `Target` is an attribute at a place of the production, whether a rule computes
/// it or uses it as an argument.
#[derive(Clone, Copy)]
pub struct ListContext<'a> {
    /// The pass of each attribute.
    pub assignment: &'a Assignment,
    /// The production of the node.
    pub production: &'a Production,
    /// The number of the pass, from 1.
    pub pass: u16,
}

impl<'a> ListContext<'a> {
    /// Returns the pass of an attribute at a place. Returns `None` if there is no such attribute,
    /// or if the assignment has no pass for it. Does not allocate.
    pub fn pass_of(&self, target: Target) -> Option<u16>
        ensures { result ≡ pass_at (passes_of self.now.assignment.now) self.now.production.now target }
    {
        self.assignment.pass_at(self.production, target)
    }

    /// Returns whether an attribute at a place has the context's pass. Does not allocate.
    pub fn has_pass(&self, target: Target) -> bool
        ensures { IsTrue result ↔ HasPass (passes_of self.now.assignment.now)
            self.now.production.now target self.now.pass }
    {
        self.pass_of(target) == Some(self.pass)
    }

    /// Returns the number, from 0, of the rule that computes an attribute at a place, if there is
    /// one.
    fn rule_for(&self, target: Target) -> Option<u16>
        requires { length self.now.production.now.rules ≤ max_rules }
        ensures { result ≡ rule_for self.now.production.now target }
    {
        for (number, rule) in self.production.rules.as_slice().iter().enumerate() {
            if is_same(rule.target, target) {
                return Some(number as u16);
            }
        }
        None
    }

    /// Appends the instruction that computes an attribute at a place, if the attribute has this
    /// pass and the production has a rule for it. A production has no rule for the inherited
    /// attributes of its left side, nor for the synthesized attributes of its children: other
    /// productions compute these. In the contracts of these methods `[]` means that no rule was run
    /// before. Fails with NoMemory if memory is refused.
    fn append_instruction(&self, list: &mut Vec<Instr>, target: Target) -> Result<(), NoMemory>
        requires { length self.now.production.now.rules ≤ max_rules }
        ensures { OnOk result (list.new.items ≡ list.old.items ++ remaining_for
            (passes_of self.now.assignment.now) self.now.production.now self.now.pass [] target) }
    {
        if self.pass_of(target) == Some(self.pass) {
            if let Some(rule) = self.rule_for(target) {
                list.push(instruction(target.place, target.attr, rule))?;
            }
        }
        Ok(())
    }

    /// Appends the instructions by which this production computes attributes at a place in this
    /// pass, in the order of the attributes' numbers. Fails with NoMemory if memory is refused.
    fn append_instructions(&self, list: &mut Vec<Instr>, place: u16) -> Result<(), NoMemory>
        requires { IsPlanned (passes_of self.now.assignment.now) self.now.production.now }
        ensures { OnOk result (list.new.items ≡ list.old.items ++ remaining_at
            (passes_of self.now.assignment.now) self.now.production.now self.now.pass [] place) }
    {
        for attr in 0..self.assignment.passes_at(self.production, place).len() {
            self.append_instruction(
                list,
                Target {
                    place,
                    attr: attr as u16,
                },
            )?;
        }
        Ok(())
    }

    /// Appends the instructions for a place of the right side: `Get`, the `Set`s, `Go` and `Put`
    /// for a symbol, `Get` and `Put` for a token. Fails with NoMemory if memory is refused.
    fn append_visit(&self, list: &mut Vec<Instr>, place: u16) -> Result<(), NoMemory>
        requires { IsPlanned (passes_of self.now.assignment.now) self.now.production.now }
        ensures { OnOk result (list.new.items ≡ list.old.items ++ visit
            (passes_of self.now.assignment.now) self.now.production.now self.now.pass [] place
            (item_at self.now.production.now place)) }
    {
        match self.production.item_at(place) {
            Some(Item::Symbol(_)) => {
                list.push(Instr::Get(place))?;
                self.append_instructions(list, place)?;
                list.push(Instr::Go(place))?;
                list.push(Instr::Put(place))?;
            }
            Some(Item::Terminal(_)) => {
                list.push(Instr::Get(place))?;
                list.push(Instr::Put(place))?;
            }
            None => {}
        }
        Ok(())
    }

    /// Returns the list for the production in the pass. `children` is the production's `arity`,
    /// which the caller computes once for all passes. Fails with NoMemory if memory is refused.
    pub(crate) fn list(&self, alloc: Global, children: usize) -> Result<Vec<Instr>, NoMemory>
        requires planned { IsPlanned (passes_of self.now.assignment.now) self.now.production.now }
        requires children { children ≡ arity self.now.production.now }
        ensures { IfOk result (λ list. list.items ≡ generated_list (passes_of self.now.assignment.now)
            self.now.production.now self.now.pass) }
    {
        let direction = Direction::of_pass(self.pass);
        let mut list = Vec::new(alloc);
        for turn in 0..children {
            self.append_visit(&mut list, 1 + direction.nth(children, turn) as u16)?;
        }
        self.append_instructions(&mut list, 0)?;
        list.push(Instr::End)?;
        Ok(list)
    }
}
