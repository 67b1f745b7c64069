//! Computes the state of a node before each instruction of a list (`Course.antt` of `passcode`),
//! and finds the first instruction that may not come next in this state.

ghost use Rattle.std.specs.Prelude.{ℕ, ◌≡◌, ◌<◌, ◌≤◌, ◌↔◌, IsTrue, Some, length};
ghost use Rattle.ag_grammar.specs.Lists.{Has};
ghost use Rattle.ag_grammar.specs.declared.grammar.Target.{Target as TheTarget};
ghost use Rattle.ag_grammar.specs.grammars.Accepted.{max_passes};
ghost use Rattle.ag_grammar.specs.grammars.Passes.{HasPass};
ghost use Rattle.passassign.specs.Rows.{passes_of};
ghost use Rattle.passcode.specs.Course.{AreDone, IsAvailable, IsTurnOf, IsVisited, MayCompute};
ghost use Rattle.passcode.specs.Course.{MayRun, after, arity, place_of, run_count};
ghost use Rattle.passcode.specs.Limits.{IsPlanned};
ghost use Rattle.passcode.specs.Rows.{row_of};
ghost use Rattle.passcode.specs.declared.instr.Instr.TheVariants as instr;
ghost use Rattle.planchecker.specs.Agreeing.{IsListWrongOrNone, IsWrongOrNone};
ghost use Rattle.planchecker.specs.Following.{IsOnPath, RunsRule, state_of};

use ag_grammar::{Direction, Item, Production, Target};
use passassign::Assignment;
use passcode::{Instr, ListContext, Phase, arity, is_same};

/// The state of a node that has run the instructions of a list before an index.
#[derive(Clone, Copy)]
pub(crate) struct NodeState<'a> {
    /// The assignment, the production and the pass of the list.
    pub context: ListContext<'a>,
    /// The number of children of the production's node.
    pub children: usize,
    /// The list.
    pub list: &'a [Instr],
    /// The index of the next instruction, from 0.
    pub index: usize,
    /// The phase of the node before this instruction.
    pub phase: Phase,
    /// The number of complete children before this instruction. A child is complete after its
    /// `Put`.
    pub turn: usize,
}

/// Returns whether an instruction runs the rule with number `number`.
fn runs_rule(one: Instr, number: u16) -> bool
    ensures { IsTrue result ↔ RunsRule one number }
{
    match one {
        Instr::Set {
            place: _,
            attr: _,
            rule,
        } => rule == number,
        Instr::Def { attr: _, rule } => rule == number,
        Instr::Get(_) => false,
        Instr::Go(_) => false,
        Instr::Put(_) => false,
        Instr::End => false,
    }
}

impl NodeState<'_> {
    /// Returns the place, from 1, of the child that the pass visits after `turn` others.
    fn place(&self, turn: usize) -> u16
        requires state { IsOnPath self.now }
        requires within { turn < self.now.children }
        ensures { result ≡ place_of self.now.context.production.now self.now.context.pass turn }
    {
        1 + Direction::of_pass(self.context.pass).nth(self.children, turn) as u16
    }

    /// Returns whether the node is in this phase, and the child at this place is the first, in the
    /// pass's direction, that is not complete.
    fn is_turn_of(&self, phase: Phase, place: u16) -> bool
        requires { IsOnPath self.now }
        ensures { IsTrue result ↔ IsTurnOf self.now.context.production.now self.now.context.pass
            (state_of self.now) phase place }
    {
        self.phase == phase && self.turn < self.children && place == self.place(self.turn)
    }

    /// Returns whether the rule with this number was run.
    fn was_run(&self, number: u16) -> bool
        requires { IsOnPath self.now }
        ensures { IsTrue result ↔ Has (state_of self.now).done number }
    {
        for index in 0..self.index {
            if runs_rule(self.list[index], number) {
                return true;
            }
        }
        false
    }

    /// Returns the number of children in which the pass has run. A token counts after its `Get`.
    fn run_count(&self) -> usize
        requires { IsOnPath self.now }
        ensures count { result ≡ run_count self.now.phase self.now.turn }
        ensures within { result ≤ self.now.children }
    {
        match self.phase {
            Phase::Gone => self.turn + 1,
            Phase::Between => self.turn,
            Phase::Got => self.turn,
            Phase::Ended => self.turn,
        }
    }

    /// Returns whether the pass has run in the child at a place.
    fn is_visited(&self, place: u16) -> bool
        requires { IsOnPath self.now }
        ensures { IsTrue result ↔ IsVisited self.now.context.production.now self.now.context.pass
            (run_count self.now.phase self.now.turn) place }
    {
        for turn in 0..self.run_count() {
            if self.place(turn) == place {
                return true;
            }
        }
        false
    }

    /// Returns whether an attribute at a place is available: it has an earlier pass; or it has this
    /// pass, and is on the left side or at a child in which the pass has run.
    fn is_available(&self, target: Target) -> bool
        requires { IsOnPath self.now }
        ensures { IsTrue result ↔ IsAvailable (passes_of self.now.context.assignment.now)
            self.now.context.production.now self.now.context.pass (state_of self.now) target }
    {
        let Some(pass) = self.context.pass_of(target) else {
            return false;
        };
        if pass < self.context.pass {
            return true;
        }
        pass == self.context.pass && (target.place == 0 || self.is_visited(target.place))
    }

    /// Returns whether all arguments of a rule are available.
    fn are_available(&self, arguments: &[Target]) -> bool
        requires { IsOnPath self.now }
        ensures { IsTrue result ↔ ((o : TheTarget) → Has arguments.now o → IsAvailable
            (passes_of self.now.context.assignment.now) self.now.context.production.now
            self.now.context.pass (state_of self.now) o) }
    {
        for argument in arguments {
            if !self.is_available(*argument) {
                return false;
            }
        }
        true
    }

    /// Returns whether the rule with this number may compute an attribute at a place now: the
    /// production has such a rule, the rule is for this attribute, the attribute has this pass, the
    /// rule's arguments are available, and the rule was not run.
    fn may_compute(&self, target: Target, number: u16) -> bool
        requires { IsOnPath self.now }
        ensures { IsTrue result ↔ MayCompute (passes_of self.now.context.assignment.now)
            self.now.context.production.now self.now.context.pass (state_of self.now)
            target.place target.attr number }
    {
        let rules = self.context.production.rules.as_slice();
        if number as usize >= rules.len() || self.was_run(number) {
            return false;
        }
        let rule = &rules[number as usize];
        if !is_same(rule.target, target) || !self.context.has_pass(rule.target) {
            return false;
        }
        self.are_available(rule.args.as_slice())
    }

    /// Returns whether the rule with this number and target is done: the rule was run, or the
    /// target does not have this pass.
    fn is_done(&self, number: u16, target: Target) -> bool
        requires { IsOnPath self.now }
        ensures { IsTrue result ↔ (HasPass (passes_of self.now.context.assignment.now)
            self.now.context.production.now target self.now.context.pass
            → Has (state_of self.now).done number) }
    {
        !self.context.has_pass(target) || self.was_run(number)
    }

    /// Returns whether each rule with a target at this place and of this pass was run.
    fn are_done(&self, place: u16) -> bool
        requires { IsOnPath self.now }
        ensures { IsTrue result ↔ AreDone (passes_of self.now.context.assignment.now)
            self.now.context.production.now self.now.context.pass (state_of self.now) place }
    {
        for (number, rule) in self.context.production.rules.as_slice().iter().enumerate() {
            if rule.target.place == place && !self.is_done(number as u16, rule.target) {
                return false;
            }
        }
        true
    }

    /// Returns whether each rule with a target of this pass was run.
    fn are_all_done(&self) -> bool
        requires { IsOnPath self.now }
        ensures { IsTrue result ↔ ((j : ℕ) → AreDone (passes_of self.now.context.assignment.now)
            self.now.context.production.now self.now.context.pass (state_of self.now) j) }
    {
        for (number, rule) in self.context.production.rules.as_slice().iter().enumerate() {
            if !self.is_done(number as u16, rule.target) {
                return false;
            }
        }
        true
    }

    /// Returns whether `End` may come next.
    fn may_end(&self) -> bool
        requires { IsOnPath self.now }
        ensures { IsTrue result ↔ MayRun (passes_of self.now.context.assignment.now)
            self.now.context.production.now self.now.context.pass (state_of self.now) instr.End }
    {
        match self.phase {
            Phase::Between => self.turn == self.children && self.are_all_done(),
            Phase::Got => false,
            Phase::Gone => false,
            Phase::Ended => false,
        }
    }

    /// Returns whether an instruction may come next.
    fn may_run(&self, one: Instr) -> bool
        requires { IsOnPath self.now }
        ensures { IsTrue result ↔ MayRun (passes_of self.now.context.assignment.now)
            self.now.context.production.now self.now.context.pass (state_of self.now) one }
    {
        match one {
            Instr::Get(place) => self.is_turn_of(Phase::Between, place),
            Instr::Set { place, attr, rule } => {
                self.is_turn_of(Phase::Got, place) && self.may_compute(Target { place, attr }, rule)
            }
            Instr::Go(place) => self.is_turn_of(Phase::Got, place) && self.are_done(place),
            Instr::Put(place) => self.is_turn_of(Phase::Gone, place),
            Instr::Def { attr, rule } => {
                self.phase != Phase::Ended && self.may_compute(Target { place: 0, attr }, rule)
            }
            Instr::End => self.may_end(),
        }
    }

    /// Returns the phase after an instruction that may come next.
    fn phase_after(&self, one: Instr) -> Phase
        requires { IsOnPath self.now }
        ensures { result ≡ (after self.now.context.production.now (state_of self.now) one).phase }
    {
        match one {
            Instr::Get(place) => match self.context.production.item_at(place) {
                Some(Item::Symbol(_)) => Phase::Got,
                Some(Item::Terminal(_)) => Phase::Gone,
                None => Phase::Gone,
            },
            Instr::Go(_) => Phase::Gone,
            Instr::Put(_) => Phase::Between,
            Instr::End => Phase::Ended,
            Instr::Set {
                place: _,
                attr: _,
                rule: _,
            } => self.phase,
            Instr::Def { attr: _, rule: _ } => self.phase,
        }
    }

    /// Returns the number of complete children after an instruction that may come next.
    fn turn_after(&self, one: Instr) -> usize
        requires { IsOnPath self.now }
        ensures { result ≡ (after self.now.context.production.now (state_of self.now) one).turn }
    {
        match one {
            Instr::Put(_) => self.turn + 1,
            Instr::Get(_) => self.turn,
            Instr::Go(_) => self.turn,
            Instr::End => self.turn,
            Instr::Set {
                place: _,
                attr: _,
                rule: _,
            } => self.turn,
            Instr::Def { attr: _, rule: _ } => self.turn,
        }
    }
}

/// Returns the first wrong index of a list: some list that agrees begins with the instructions
/// before the index, but none begins with these and the instruction at the index. Returns the
/// length of the list if the list ends too early, and `None` if the list agrees.
fn first_wrong_index(context: &ListContext, list: &[Instr]) -> Option<usize>
    requires planned { IsPlanned (passes_of context.now.assignment.now) context.now.production.now }
    requires pass { 1 ≤ context.now.pass }
    ensures { IsWrongOrNone (passes_of context.now.assignment.now) context.now.production.now
        context.now.pass list.now result }
{
    let children = arity(context.production);
    let mut phase = Phase::Between;
    let mut turn = 0;
    for index in 0..list.len() {
        let node = NodeState {
            context: *context,
            children,
            list,
            index,
            phase,
            turn,
        };
        if !node.may_run(list[index]) {
            return Some(index);
        }
        phase = node.phase_after(list[index]);
        turn = node.turn_after(list[index]);
    }
    match phase {
        Phase::Ended => None,
        _ => Some(list.len()),
    }
}

/// Returns the pass of the first list of a production that does not agree, and the list's first
/// wrong index. Returns `None` if all lists agree. `lists` are those of the production, the first
/// for pass 1.
pub(crate) fn first_wrong_list(
    assignment: &Assignment,
    production: &Production,
    lists: &[Vec<Instr>],
) -> Option<(u16, usize)>
    requires planned { IsPlanned (passes_of assignment.now) production.now }
    requires few { length lists.now ≤ max_passes }
    ensures { IsListWrongOrNone (passes_of assignment.now) production.now (row_of lists.now) result }
{
    for (index, list) in lists.iter().enumerate() {
        let pass = index as u16 + 1;
        let context = ListContext {
            assignment,
            production,
            pass,
        };
        if let Some(at) = first_wrong_index(&context, list.as_slice()) {
            return Some((pass, at));
        }
    }
    None
}
