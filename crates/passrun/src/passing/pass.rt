//! One pass over a tree file.

ghost use Rattle.std.specs.Prelude.{◌≡◌, ◌+◌, ◌-◌, ◌^◌, ◌≤◌, ℕ, IfErr, IfOk, IsErrOf};
ghost use Rattle.std.specs.Prelude.{OnErr, OnOk};
ghost use Rattle.ag_grammar.specs.grammars.Tree.{max_nodes};
ghost use Rattle.passassign.specs.Rows.{IsGreatest, passes_of};
ghost use Rattle.passrun.specs.passing.Ahead.{IsRunFault};
ghost use Rattle.pass_rows.specs.layouts.Contexts.{CanRun, setting};
ghost use Rattle.passrun.specs.Laws.{CountsPass};
ghost use Rattle.passrun.specs.Passed.{IsPassed};
ghost use Rattle.passcode.specs.Settings.{setting_of};
ghost use Rattle.planchecker.specs.Plans.{IsPlan};
ghost use Rattle.treefile.specs.framing.Beginning.{BeginsFile, LeavesBeginning};
ghost use Rattle.treefile.specs.devices.Device.{LeavesContent, WhenHonest};
ghost use Rattle.treefile.specs.Runs.{RunsPass};
ghost use Rattle.treefile.specs.devices.Several.{BothPersist};
ghost use Rattle.treefile.specs.records.TreeFile.{version_two};

use crate::passing::ends::{Passed, begin, finish};
use crate::passing::run::run;
use ag_eval::Meter;
use ag_grammar::Grammar;
use pass_rows::layouts::building::build_layout;
use pass_rows::layouts::context::PassContext;
use pass_rows::run_fault::RunFault;
use pass_rows::setting::Setting;
use planchecker::Plan;
use std::alloc::Global;
use treefile::Device;

/// Runs the pass of a context: reads the file of the previous pass backward, and writes the file of
/// the pass. Fails as `run_pass` does.
pub(crate) fn run_in_context<D: Device, E: Device>(
    context: &PassContext<'_>,
    from: &mut D,
    to: &mut E,
    meter: &mut Meter,
) -> Result<Passed, RunFault>
    requires context { CanRun context.now }
    requires meter { meter.old ≤ 2 ^ 63 }
    ensures passed { WhenHonest (D.is_honest from.new) (WhenHonest (E.is_honest to.new)
        (IfOk result (λ p. IsPassed (setting context.now) (D.content from.old) (E.content to.new)
        p.nodes (meter.new - meter.old)))) }
    // R1, P2 and P3 only if they are true of the file
    ensures refused { IfErr result (λ f. WhenHonest (D.is_honest from.new)
        (IsRunFault (setting context.now) (D.content from.old) f)) }
    // on failure: the content of the second device is unchanged, or a prefix of a file of the pass
    ensures left { OnErr result (WhenHonest (E.is_honest to.new)
        (LeavesBeginning (setting context.now).write (E.content to.old) (E.content to.new))) }
    // for any first device, honest or not
    ensures begins { OnOk result (WhenHonest (E.is_honest to.new)
        (BeginsFile (setting context.now).write (E.content to.new))) }
    ensures counts { IfOk result (λ p. (p.read ≡ p.nodes) × (p.written ≡ p.nodes)) }
    // for any devices, honest or not
    ensures few { IfOk result (λ p. p.nodes ≤ max_nodes) }
    // for any devices, honest or not
    ensures rises { meter.old ≤ meter.new }
    ensures meter { OnOk result (meter.new ≤ meter.old + 2 ^ 36) }
    ensures content { LeavesContent (D.is_honest from.new)
        (D.content from.old) (D.content from.new) }
    // D1 only if the number of failures rose on one of the two
    ensures devices { BothPersist D.is_honest D.failures from.old from.new
        E.is_honest E.failures to.old to.new (IsErrOf result RunFault.Device) }
{
    let mut machine = begin(context, from, to, &*meter)?;
    run(context, &mut machine, from, to, meter)?;
    finish(context, &mut machine, from, to)
}

/// Runs a pass of a plan for a grammar. `pass` is a number from 1 to the greatest pass of the plan.
/// Reads the file of the previous pass backward (for pass 1, that of the parser), and replaces the
/// content of the second device with the file of the pass. Evaluates each rule of the pass once at
/// each node of its production. The meter counts these evaluations, and may be at most 2^63 before
/// the call.
///
/// Fails with R1 (`Damaged`) only if the first file is that of no tree of the grammar after the
/// previous pass. The offset is 0 if the file does not begin as a tree file of version 2, and 4 if
/// its header has the number of another pass. Otherwise the offset is the end of the frame that
/// shows the damage, or where a frame should end. If a limit is exceeded before any damage, fails
/// with P2 or P3 instead: with P2 (`TooDeep`) before a record one level deeper than `MAX_DEPTH` is
/// read, and with P3 (`TooManyNodes`) before one record more than `MAX_NODES` is read. With P2 the
/// file encodes no tree of at most `MAX_DEPTH` levels, with P3 none of at most `MAX_NODES` nodes.
/// It may encode no tree at all. These claims about the file hold if the first device returns the
/// bytes that were written to it. Fails with D1 (`Device`) if a call of one of the devices failed,
/// and with `NoMemory` if memory cannot be allocated.
///
/// Only reads the first device. After a failure the second device has its old content, or a prefix
/// of a tree file. Allocates memory for the layouts of the productions and the hints, for a buffer
/// of 4,096 bytes or of the largest frame, for the open nodes with their rows, for the row of the
/// child that was read last, and for one frame at a time.
pub fn run_pass<D: Device, E: Device>(
    alloc: Global,
    grammar: &Grammar,
    plan: &Plan,
    pass: u16,
    from: &mut D,
    to: &mut E,
    meter: &mut Meter,
) -> Result<Passed, RunFault>
    requires plan { IsPlan grammar.now plan.now.assignment plan.now.code }
    requires first { 1 ≤ pass }
    requires last { (passes : ℕ) × IsGreatest passes plan.now.assignment × (pass ≤ passes) }
    requires meter { meter.old ≤ 2 ^ 63 }
    ensures passed { WhenHonest (D.is_honest from.new) (WhenHonest (E.is_honest to.new)
        (IfOk result (λ p. IsPassed (setting_of grammar.now plan.now pass) (D.content from.old)
        (E.content to.new) p.nodes (meter.new - meter.old)))) }
    // the same for every tree and all values that the first file encodes (there is only one tree)
    ensures exact { WhenHonest (D.is_honest from.new) (WhenHonest (E.is_honest to.new)
        (IfOk result (λ p. RunsPass version_two grammar.now (passes_of plan.now.assignment) (pass - 1)
        (D.content from.old) (E.content to.new)
        × CountsPass grammar.now (passes_of plan.now.assignment) (pass - 1) (D.content from.old)
        p.nodes (meter.new - meter.old)))) }
    // R1, P2 and P3 only if they are true of the file
    ensures refused { IfErr result (λ f. WhenHonest (D.is_honest from.new)
        (IsRunFault (setting_of grammar.now plan.now pass) (D.content from.old) f)) }
    // on failure: the content of the second device is unchanged, or a prefix of a file of the pass
    ensures left { OnErr result (WhenHonest (E.is_honest to.new)
        (LeavesBeginning pass (E.content to.old) (E.content to.new))) }
    // for any first device, honest or not
    ensures begins { OnOk result (WhenHonest (E.is_honest to.new)
        (BeginsFile pass (E.content to.new))) }
    ensures counts { IfOk result (λ p. (p.read ≡ p.nodes) × (p.written ≡ p.nodes)) }
    // for any devices, honest or not
    ensures few { IfOk result (λ p. p.nodes ≤ max_nodes) }
    // for any devices, honest or not: there are at most 2^20 nodes, each with fewer than 2^16 rules
    ensures rises { meter.old ≤ meter.new }
    ensures meter { OnOk result (meter.new ≤ meter.old + 2 ^ 36) }
    ensures content { LeavesContent (D.is_honest from.new)
        (D.content from.old) (D.content from.new) }
    // D1 only if the number of failures rose on one of the two
    ensures devices { BothPersist D.is_honest D.failures from.old from.new
        E.is_honest E.failures to.old to.new (IsErrOf result RunFault.Device) }
{
    let setting = Setting {
        grammar,
        plan,
        pass,
    };
    let layout = build_layout(alloc, &setting)?;
    let context = PassContext {
        alloc,
        setting,
        rows: layout.productions.as_slice(),
        hints: &layout.hints,
    };
    run_in_context(&context, from, to, meter)
}
