//! The state of a running pass, and the execution of its instructions, which "Listings" in
//! docs/FORMATS.md describes. `Set` and `Def` have one function (`run_rule`), and `Get`, `Go`,
//! `Put` and `End` one each. `Machine::step` calls them. The `measure`
//! (`specs/passing/Working.antt`) bounds the work that remains: the clauses `less` say that it
//! falls, and the clauses `most` that it doesn't rise.

ghost use Rattle.std.specs.Prelude.{◌≡◌, ◌+◌, ◌^◌, ◌<◌, ◌≤◌, ◌∷◌, ◌++◌, [], Some, IfErr, IfOk};
ghost use Rattle.std.specs.Prelude.{IsErrOf, OnOk, reverse, slice_get};
ghost use Rattle.passcode.specs.declared.instr.Instr.TheVariants as instr;
ghost use Rattle.passrun.specs.passing.RunInvariant.{IsConsistent, ContinuesAs};
ghost use Rattle.passrun.specs.passing.Ahead.{IsRunFault, IsResourceFault};
ghost use Rattle.pass_rows.specs.layouts.Contexts.{CanRun, setting};
ghost use Rattle.pass_rows.specs.Nodes.{left_at};
ghost use Rattle.passrun.specs.passing.Putting.{AddsFrames, LeavesFrames};
ghost use Rattle.passrun.specs.passing.Running.{Preserves, Runs, RunsRuleNext, RunsWith, between};
ghost use Rattle.passrun.specs.passing.Running.{unknown_world, with_first_device, with_meter, with_second_device};
ghost use Rattle.passrun.specs.passing.Working.{measure};
ghost use Rattle.passcode.specs.Settings.{list_at};
ghost use Rattle.treefile.specs.devices.Device.{LeavesContent, Persists, WhenHonest};
ghost use Rattle.treefile.specs.devices.Several.{BothPersist};

use crate::passing::copying::{following, matches_copy, move_copies, single_value, truncate_row};
use crate::passing::evaluating::{NodeRule, put_rule_value};
use crate::passing::open_nodes::OpenNodes;
use crate::passing::putting::put_record;
use crate::reading::fetching::{ExpectedRecord, fetch};
use ag_carried::Carried;
use ag_eval::Meter;
use ag_grammar::Item;
use ag_value::NoMemory;
use backreader::Back;
use pass_rows::layouts::context::PassContext;
use pass_rows::layouts::hints::ChildLocation;
use pass_rows::open_node::OpenNode;
use pass_rows::run_fault::RunFault;
use passcode::Instr;
use treefile::{Device, Kind, Writer};

/// The state of a running pass.
#[derive(Drop)]
pub(crate) struct Machine {
    /// The reader of the first device, which reads the file from its end.
    pub(crate) back: Back,
    /// The writer to the second device.
    pub(crate) writer: Writer,
    /// The rows of all open nodes, the outermost first. The root's row stays after its last
    /// instruction. After these rows there is the row of the child whose record was read last, if
    /// the child is a node of a symbol that the pass has not entered yet. The row of a token is
    /// removed in the step that reads it, since its text is among the copies.
    pub(crate) values: Vec<Carried>,
    /// The open nodes without the innermost one.
    pub(crate) waiting: OpenNodes,
    /// The meter's count when the pass began. Only contracts use this number, to count the
    /// evaluations of the pass.
    pub(crate) begun: u64,
}

/// Where a step is done: at the innermost open node, in the context of the pass.
#[derive(Clone, Copy)]
pub(crate) struct StepAt<'c, 'g> {
    pub(crate) context: &'c PassContext<'g>,
    pub(crate) node: OpenNode,
}

/// Enters the child of `node` at a place: the record that was read last is this child's. Returns
/// the child's node, which becomes the innermost open node. Pushes `node` on `waiting`, with the
/// child's place and with the instruction after its `Go` as the next one. Fails with `NoMemory` if
/// memory cannot be allocated.
pub(crate) fn open_child(
    context: &PassContext<'_>,
    node: OpenNode,
    place: u16,
    values: &[Carried],
    waiting: &mut OpenNodes,
) -> Result<OpenNode, NoMemory>
    requires context { CanRun context.now }
    requires room { node.at + 1 < 2 ^ 64 }
    requires next { slice_get (list_at (setting context.now) node.production) node.at
        ≡ Some (instr.Go place) }
    requires passing { IsConsistent (setting context.now) waiting.old.root
        (node ∷ reverse waiting.old.nodes) values.now }
    ensures goes { IfOk result (λ child. ContinuesAs (setting context.now) waiting.old.root
        (node ∷ reverse waiting.old.nodes) values.now
        (child ∷ reverse waiting.new.nodes) values.now) }
    ensures child { IfOk result (λ child. (child.production ≡ node.child) × (child.at ≡ 0)) }
    ensures pushed { OnOk result (waiting.new ≡ record waiting.old {
      nodes = waiting.old.nodes ++ left_at node place ∷ [];
    }) }
{
    let width = context.width(node.child);
    waiting.push(node.left_at(place))?;
    Ok(OpenNode::begun(node.child, values.len() - width))
}

impl Machine {
    /// Executes a `Get`: reads the record of the child at a place, and returns the node after the
    /// instruction. Fails as `fetch` does, and with R1 and the end of the record's frame if the
    /// child's values differ from the known copies in the node's row.
    #[inline(always)]
    pub(crate) fn get<D: Device>(
        &mut self,
        context: &PassContext<'_>,
        node: OpenNode,
        place: u16,
        from: &mut D,
    ) -> Result<OpenNode, RunFault>
        requires context { CanRun context.now }
        requires runs { RunsWith (setting context.now)
            (with_first_device (D.is_honest from.old) (D.content from.old)) self.old (Some node) }
        requires next { slice_get (list_at (setting context.now) node.production) node.at
            ≡ Some (instr.Get place) }
        requires room { node.at + 1 < 2 ^ 64 }
        ensures runs { IfOk result (λ next. Preserves (setting context.now)
            (with_first_device (D.is_honest from.old) (D.content from.old))
            (with_first_device (D.is_honest from.new) (D.content from.new))
            self.old self.new (Some node) (Some next)) }
        ensures production { IfOk result (λ next. next.production ≡ node.production) }
        ensures refused { IfErr result (λ f. WhenHonest (D.is_honest from.new)
            (IsRunFault (setting context.now) (D.content from.old) f)) }
        ensures less { IfOk result (λ next.
            measure (setting context.now) self.new (Some next)
            < measure (setting context.now) self.old (Some node)) }
        ensures begun { self.new.begun ≡ self.old.begun }
        ensures content { LeavesContent (D.is_honest from.new)
            (D.content from.old) (D.content from.new) }
        ensures persists { Persists (D.is_honest from.old) (D.is_honest from.new)
            (D.failures from.old) (D.failures from.new) (IsErrOf result RunFault.Device) }
    {
        let layout = context.row(node.production);
        let row = context.place(layout, node, place);
        let open_count = self.waiting.len() + 1;
        let end = self.back.end();
        let start = self.values.len();
        let location = ChildLocation {
            production: node.production,
            place,
        };
        let expected = ExpectedRecord {
            item: row.item,
            location,
            open_count,
        };
        let number = fetch(context, expected, &mut self.back, &mut self.values, from)?;
        let copied = node.base + row.start as usize;
        if !matches_copy(context, row, self.values.as_slice(), copied, start) {
            return Err(RunFault::Damaged(end));
        }
        truncate_row(row.item, &mut self.values, start);
        Ok(node.after_step(number))
    }

    /// Executes a `Put`: writes the record of the token at a place, whose text is among the copies,
    /// and returns the node after the instruction. Writes nothing for a child that is a node:
    /// `finish_node` has written its record. Fails with D1 if the device fails, and with `NoMemory`
    /// if memory cannot be allocated.
    #[inline(always)]
    pub(crate) fn put<E: Device>(
        &mut self,
        context: &PassContext<'_>,
        node: OpenNode,
        place: u16,
        to: &mut E,
    ) -> Result<OpenNode, RunFault>
        requires context { CanRun context.now }
        requires runs { RunsWith (setting context.now) unknown_world self.old (Some node) }
        requires next { slice_get (list_at (setting context.now) node.production) node.at
            ≡ Some (instr.Put place) }
        requires room { node.at + 1 < 2 ^ 64 }
        ensures runs { IfOk result (λ next. Preserves (setting context.now)
            (with_second_device (E.is_honest to.old) (E.content to.old))
            (with_second_device (E.is_honest to.new) (E.content to.new))
            self.old self.new (Some node) (Some next)) }
        ensures added { OnOk result (AddsFrames (E.is_honest to.new)
            (E.content to.old) (E.content to.new)) }
        ensures left { IfErr result (LeavesFrames (E.is_honest to.new)
            (E.content to.old) (E.content to.new)) }
        ensures resource { IfErr result IsResourceFault }
        ensures less { IfOk result (λ next.
            measure (setting context.now) self.new (Some next)
            < measure (setting context.now) self.old (Some node)) }
        ensures begun { self.new.begun ≡ self.old.begun }
        ensures persists { Persists (E.is_honest to.old) (E.is_honest to.new)
            (E.failures to.old) (E.failures to.new) (IsErrOf result RunFault.Device) }
    {
        let layout = context.row(node.production);
        let row = context.place(layout, node, place);
        let Item::Terminal(_) = row.item else {
            return Ok(node.after_step(node.child));
        };
        let text = node.base + row.start as usize;
        let values = single_value(self.values.as_slice(), text);
        put_record(Kind::Token, node.child, values, &mut self.writer, to)?;
        Ok(node.after_step(node.child))
    }

    /// Executes a `Set` or a `Def`: runs the production's rule with number `rule`, puts its value
    /// into the slot of its target, and returns the node after the instruction. Fails with
    /// `NoMemory` if memory cannot be allocated.
    #[inline(always)]
    pub(crate) fn run_rule(
        &mut self,
        context: &PassContext<'_>,
        node: OpenNode,
        rule: u16,
        meter: &mut Meter,
    ) -> Result<OpenNode, NoMemory>
        requires context { CanRun context.now }
        requires runs { RunsWith (setting context.now) (with_meter meter.old) self.old (Some node) }
        requires next { RunsRuleNext (setting context.now) node rule }
        requires room { node.at + 1 < 2 ^ 64 }
        ensures runs { IfOk result (λ next. Preserves (setting context.now)
            (with_meter meter.old) (with_meter meter.new) self.old self.new (Some node) (Some next)) }
        ensures production { IfOk result (λ next. next.production ≡ node.production) }
        ensures rises { meter.old ≤ meter.new }
        ensures less { IfOk result (λ next.
            measure (setting context.now) self.new (Some next)
            < measure (setting context.now) self.old (Some node)) }
        ensures begun { self.new.begun ≡ self.old.begun }
    {
        let layout = context.row(node.production);
        let production = &context.setting.grammar.productions()[node.production as usize];
        let semantic = &production.rules.as_slice()[rule as usize];
        let slots = &layout.rules.as_slice()[rule as usize];
        let at = NodeRule {
            rule: semantic,
            slots,
            base: node.base,
        };
        put_rule_value(context.alloc, &at, &mut self.values, meter)?;
        Ok(node.after_step(node.child))
    }

    /// Executes a `Go`: enters the child whose record was read last, and returns the child's node.
    /// Fails with `NoMemory` if memory cannot be allocated.
    #[inline(always)]
    pub(crate) fn enter_child(
        &mut self,
        context: &PassContext<'_>,
        node: OpenNode,
        place: u16,
    ) -> Result<OpenNode, NoMemory>
        requires context { CanRun context.now }
        requires runs { RunsWith (setting context.now) unknown_world self.old (Some node) }
        requires next { slice_get (list_at (setting context.now) node.production) node.at
            ≡ Some (instr.Go place) }
        requires room { node.at + 1 < 2 ^ 64 }
        ensures runs { IfOk result (λ next. Preserves (setting context.now) unknown_world unknown_world
            self.old self.new (Some node) (Some next)) }
        ensures less { IfOk result (λ next.
            measure (setting context.now) self.new (Some next)
            < measure (setting context.now) self.old (Some node)) }
        ensures begun { self.new.begun ≡ self.old.begun }
    {
        let values = self.values.as_slice();
        let waiting = &mut self.waiting;
        let child = open_child(context, node, place, values, waiting)?;
        Ok(child)
    }

    /// Enters the child whose record was read last and returns its node, if the next instruction is
    /// a `Go`. Otherwise returns the same node. Fails with `NoMemory` if memory cannot be
    /// allocated.
    #[inline(always)]
    pub(crate) fn enter_if_next(
        &mut self,
        context: &PassContext<'_>,
        node: OpenNode,
    ) -> Result<OpenNode, NoMemory>
        requires context { CanRun context.now }
        requires runs { RunsWith (setting context.now) unknown_world self.old (Some node) }
        ensures runs { IfOk result (λ next. Preserves (setting context.now) unknown_world unknown_world
            self.old self.new (Some node) (Some next)) }
        ensures most { IfOk result (λ next.
            measure (setting context.now) self.new (Some next)
            ≤ measure (setting context.now) self.old (Some node)) }
        ensures begun { self.new.begun ≡ self.old.begun }
    {
        let layout = context.row(node.production);
        let Instr::Go(place) = context.instruction(layout, node) else {
            return Ok(node);
        };
        let child = self.enter_child(context, node, place)?;
        Ok(child)
    }

    /// Executes an `End`. If the node is not the root, writes its record, moves the values of its
    /// synthesized attributes to their copies in the parent's row, removes the node's row, and
    /// returns the parent. For the root, returns `None`: `finish` writes the root's record. Fails
    /// with D1 if the device fails, and with `NoMemory` if memory cannot be allocated.
    #[inline(always)]
    pub(crate) fn finish_node<E: Device>(
        &mut self,
        context: &PassContext<'_>,
        node: OpenNode,
        to: &mut E,
    ) -> Result<Option<OpenNode>, RunFault>
        requires context { CanRun context.now }
        requires runs { RunsWith (setting context.now) unknown_world self.old (Some node) }
        requires next { slice_get (list_at (setting context.now) node.production) node.at
            ≡ Some instr.End }
        ensures runs { IfOk result (λ next. Preserves (setting context.now)
            (with_second_device (E.is_honest to.old) (E.content to.old))
            (with_second_device (E.is_honest to.new) (E.content to.new))
            self.old self.new (Some node) next) }
        ensures added { OnOk result (AddsFrames (E.is_honest to.new)
            (E.content to.old) (E.content to.new)) }
        ensures left { IfErr result (LeavesFrames (E.is_honest to.new)
            (E.content to.old) (E.content to.new)) }
        ensures resource { IfErr result IsResourceFault }
        ensures less { IfOk result (λ next.
            measure (setting context.now) self.new next
            < measure (setting context.now) self.old (Some node)) }
        ensures begun { self.new.begun ≡ self.old.begun }
        ensures persists { Persists (E.is_honest to.old) (E.is_honest to.new)
            (E.failures to.old) (E.failures to.new) (IsErrOf result RunFault.Device) }
    {
        let Some(outer) = self.waiting.pop() else {
            return Ok(None);
        };
        let values = following(self.values.as_slice(), node.base);
        put_record(Kind::Node, node.production, values, &mut self.writer, to)?;
        let layout = context.row(outer.production);
        let row = context.place(layout, outer, outer.place);
        let copied = outer.base + row.start as usize;
        move_copies(&mut self.values, node.base, copied, row.width as usize);
        Ok(Some(outer))
    }

    /// Skips a `Put` that would write nothing: returns the node after its next instruction, if this
    /// is the `Put` of a child that is a node. Otherwise returns the same node.
    #[inline(always)]
    pub(crate) fn skip_put(&self, context: &PassContext<'_>, node: OpenNode) -> OpenNode
        requires context { CanRun context.now }
        requires runs { RunsWith (setting context.now) unknown_world self.now (Some node) }
        ensures runs { Preserves (setting context.now) unknown_world unknown_world
            self.now self.now (Some node) (Some result) }
        ensures most { measure (setting context.now) self.now (Some result)
            ≤ measure (setting context.now) self.now (Some node) }
    {
        let layout = context.row(node.production);
        let Instr::Put(place) = context.instruction(layout, node) else {
            return node;
        };
        let row = context.place(layout, node, place);
        let Item::Symbol(_) = row.item else {
            return node;
        };
        node.after_step(node.child)
    }

    /// Ends a node if its next instruction is an `End`, and then calls `skip_put` for the parent.
    /// Returns the node that continues, or `None` if the root is done. Fails as `finish_node` does.
    #[inline(always)]
    pub(crate) fn finish_if_ended<E: Device>(
        &mut self,
        context: &PassContext<'_>,
        node: OpenNode,
        to: &mut E,
    ) -> Result<Option<OpenNode>, RunFault>
        requires context { CanRun context.now }
        requires runs { RunsWith (setting context.now)
            (with_second_device (E.is_honest to.old) (E.content to.old)) self.old (Some node) }
        ensures runs { IfOk result (λ next. Preserves (setting context.now)
            (with_second_device (E.is_honest to.old) (E.content to.old))
            (with_second_device (E.is_honest to.new) (E.content to.new))
            self.old self.new (Some node) next) }
        ensures added { OnOk result (AddsFrames (E.is_honest to.new)
            (E.content to.old) (E.content to.new)) }
        ensures left { IfErr result (LeavesFrames (E.is_honest to.new)
            (E.content to.old) (E.content to.new)) }
        ensures resource { IfErr result IsResourceFault }
        ensures most { IfOk result (λ next.
            measure (setting context.now) self.new next
            ≤ measure (setting context.now) self.old (Some node)) }
        ensures less { slice_get (list_at (setting context.now) node.production) node.at
            ≡ Some instr.End → IfOk result (λ next.
            measure (setting context.now) self.new next
            < measure (setting context.now) self.old (Some node)) }
        ensures begun { self.new.begun ≡ self.old.begun }
        ensures persists { Persists (E.is_honest to.old) (E.is_honest to.new)
            (E.failures to.old) (E.failures to.new) (IsErrOf result RunFault.Device) }
    {
        let layout = context.row(node.production);
        let Instr::End = context.instruction(layout, node) else {
            return Ok(Some(node));
        };
        let Some(outer) = self.finish_node(context, node, to)? else {
            return Ok(None);
        };
        Ok(Some(self.skip_put(context, outer)))
    }

    /// Executes the next instruction of the innermost open node. The same step also executes a `Go`
    /// directly after a `Get`, and an `End` directly after a rule. After an `End` the step skips
    /// the parent's `Put` of the ended node, if this `Put` is next. Returns the node that
    /// continues, or `None` if the root is done. Fails as `get`, `run_rule`, `enter_child`, `put`
    /// and `finish_node` do.
    #[inline(always)]
    pub(crate) fn step<D: Device, E: Device>(
        &mut self,
        at: &StepAt<'_, '_>,
        from: &mut D,
        to: &mut E,
        meter: &mut Meter,
    ) -> Result<Option<OpenNode>, RunFault>
        requires context { CanRun at.now.context.now }
        requires runs { Runs (setting at.now.context.now)
            (between (D.is_honest from.old) (D.content from.old)
            (E.is_honest to.old) (E.content to.old) meter.old) self.old (Some at.now.node) }
        ensures runs { IfOk result (λ next. Runs (setting at.now.context.now)
            (between (D.is_honest from.new) (D.content from.new)
            (E.is_honest to.new) (E.content to.new) meter.new) self.new next) }
        ensures added { OnOk result (AddsFrames (E.is_honest to.new)
            (E.content to.old) (E.content to.new)) }
        ensures left { IfErr result (LeavesFrames (E.is_honest to.new)
            (E.content to.old) (E.content to.new)) }
        ensures refused { IfErr result (λ f. WhenHonest (D.is_honest from.new)
            (IsRunFault (setting at.now.context.now) (D.content from.old) f)) }
        // each step lowers the measure, so the loop of a pass ends
        ensures less { IfOk result (λ next.
            measure (setting at.now.context.now) self.new next
            < measure (setting at.now.context.now) self.old (Some at.now.node)) }
        ensures begun { self.new.begun ≡ self.old.begun }
        ensures rises { meter.old ≤ meter.new }
        ensures content { LeavesContent (D.is_honest from.new)
            (D.content from.old) (D.content from.new) }
        // D1 only if the number of failures rose on one of the two
        ensures devices { BothPersist D.is_honest D.failures from.old from.new
            E.is_honest E.failures to.old to.new (IsErrOf result RunFault.Device) }
    {
        let StepAt { context, node } = *at;
        let layout = context.row(node.production);
        let ended = match context.instruction(layout, node) {
            Instr::Get(place) => {
                let after_step = self.get(context, node, place, from)?;
                return Ok(Some(self.enter_if_next(context, after_step)?));
            }
            Instr::Set { rule, .. } | Instr::Def { rule, .. } => {
                self.run_rule(context, node, rule, meter)?
            }
            Instr::Go(place) => return Ok(Some(self.enter_child(context, node, place)?)),
            Instr::Put(place) => return Ok(Some(self.put(context, node, place, to)?)),
            Instr::End => node,
        };
        self.finish_if_ended(context, ended, to)
    }
}
