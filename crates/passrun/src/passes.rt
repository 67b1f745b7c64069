//! All passes over a tree file in sequence, alternating between two devices.

ghost use Rattle.std.specs.Prelude.{◌≡◌, ◌+◌, ◌-◌, ◌^◌, ◌<◌, ◌≤◌, ℕ, IfErr, IfOk, IsErrOf};
ghost use Rattle.std.specs.Prelude.{OnErr, OnOk};
ghost use Rattle.ag_grammar.specs.grammars.Tree.{max_nodes};
ghost use Rattle.passassign.specs.Rows.{IsGreatest, passes_of};
ghost use Rattle.pass_rows.specs.Settings.{pass_setting};
ghost use Rattle.passrun.specs.passing.Ahead.{IsRunFault};
ghost use Rattle.passrun.specs.Rounds.{HasRunAll, IsPassedOn, LeavesAfterFailure, LeavesSolutions};
ghost use Rattle.passrun.specs.Rounds.{LeavesSomeFile, last_after, last_content, other_content};
ghost use Rattle.passrun.specs.Rounds.{one_more as added};
ghost use Rattle.planchecker.specs.Plans.{IsPlan};
ghost use Rattle.passcode.specs.Settings.{setting_of};
ghost use Rattle.treefile.specs.framing.Beginning.{LeavesBeginning};
ghost use Rattle.treefile.specs.devices.Device.{WhenHonest};
ghost use Rattle.treefile.specs.devices.Several.{BothPersist};

use crate::last::Last;
use crate::passing::ends::Passed;
use crate::passing::pass::run_pass;
use ag_eval::Meter;
use ag_grammar::Grammar;
use pass_rows::run_fault::RunFault;
use pass_rows::setting::Setting;
use planchecker::Plan;
use std::alloc::Global;
use treefile::Device;

/// Returns the number of the last pass of a plan.
fn last_pass(plan: &Plan) -> u16
    ensures { IsGreatest result plan.now.assignment }
{
    plan.assignment().passes()
}

/// What the next pass runs with: the allocator, the setting of the pass, and the device that has
/// the last file.
#[derive(Clone, Copy)]
struct NextPass<'a> {
    alloc: Global,
    setting: Setting<'a>,
    last: Last,
}

/// Runs the next pass, from the device with the last file to the other one. Fails as `run_pass`
/// does.
fn next_pass<D: Device>(
    next: &NextPass<'_>,
    a: &mut D,
    b: &mut D,
    meter: &mut Meter,
) -> Result<Passed, RunFault>
    requires plan { IsPlan next.now.setting.grammar.now next.now.setting.plan.now.assignment
        next.now.setting.plan.now.code }
    requires first { 1 ≤ next.now.setting.pass }
    requires last { (passes : ℕ) × IsGreatest passes next.now.setting.plan.now.assignment
        × (next.now.setting.pass ≤ passes) }
    requires meter { meter.old ≤ 2 ^ 63 }
    ensures passed { WhenHonest (D.is_honest a.new) (WhenHonest (D.is_honest b.new)
        (IfOk result (λ p. IsPassedOn (pass_setting next.now.setting) next.now.last
        (D.content a.old) (D.content b.old) (D.content a.new) (D.content b.new)
        p.nodes (meter.new - meter.old)))) }
    ensures refused { IfErr result (λ f. WhenHonest (D.is_honest a.new)
        (WhenHonest (D.is_honest b.new) (IsRunFault (pass_setting next.now.setting)
        (last_content next.now.last (D.content a.old) (D.content b.old)) f))) }
    ensures kept { WhenHonest (D.is_honest a.new) (WhenHonest (D.is_honest b.new)
        (last_content next.now.last (D.content a.new) (D.content b.new)
        ≡ last_content next.now.last (D.content a.old) (D.content b.old))) }
    ensures left { OnErr result (WhenHonest (D.is_honest a.new) (WhenHonest (D.is_honest b.new)
        (LeavesBeginning next.now.setting.pass (other_content next.now.last (D.content a.old) (D.content b.old))
        (other_content next.now.last (D.content a.new) (D.content b.new))))) }
    ensures a_left { WhenHonest (D.is_honest a.new)
        (LeavesSomeFile (D.content a.old) (D.content a.new)) }
    ensures b_left { WhenHonest (D.is_honest b.new)
        (LeavesSomeFile (D.content b.old) (D.content b.new)) }
    ensures counts { IfOk result (λ p. (p.read ≡ p.nodes) × (p.written ≡ p.nodes)) }
    ensures few { IfOk result (λ p. p.nodes ≤ max_nodes) }
    ensures rises { meter.old ≤ meter.new }
    ensures meter { OnOk result (meter.new ≤ meter.old + 2 ^ 36) }
    // D1 only if the number of failures rose on one of the two
    ensures devices { BothPersist D.is_honest D.failures a.old a.new
        D.is_honest D.failures b.old b.new (IsErrOf result RunFault.Device) }
{
    let NextPass {
        alloc,
        setting,
        last,
    } = *next;
    let Setting {
        grammar,
        plan,
        pass,
    } = setting;
    match last {
        Last::A => run_pass(alloc, grammar, plan, pass, a, b, meter),
        Last::B => run_pass(alloc, grammar, plan, pass, b, a, meter),
    }
}

/// Returns the counts after one more pass: the number of nodes of this pass, and the numbers of
/// records read and written in all passes. `sum` has the counts of the earlier passes, and `passed`
/// those of this pass.
fn one_more(sum: Passed, passed: Passed) -> Passed
    requires read { sum.read + passed.read < 2 ^ 64 }
    requires written { sum.written + passed.written < 2 ^ 64 }
    ensures { result ≡ added sum passed }
{
    Passed {
        nodes: passed.nodes,
        read: sum.read + passed.read,
        written: sum.written + passed.written,
    }
}

/// Runs the passes of a plan for a grammar from pass `first` to the greatest, in sequence. `first`
/// is a number from 1 to one more than the greatest pass. The passes alternate between two devices:
/// pass `first` reads the file of pass `first` - 1 from `a` and writes its own file to `b`. The
/// next pass reads this file and writes to `a`, and so on. Evaluates each rule of these passes once
/// at each node of its production. The meter counts these evaluations, and may be at most 2^62
/// before the call.
///
/// Returns the device that has the file of the last pass (`Last::after`), with the number of nodes of the
/// tree, and the numbers of records read and written in all passes together. If `first` is one more
/// than the greatest pass, runs, reads and writes nothing, and returns `Last::A` with three zeros.
///
/// Stops at the first pass that fails, and returns its fault, as `run_pass` does. Fails with R1
/// (`Damaged`) and an offset only if the file on `a` is that of no tree of the grammar after pass
/// `first` - 1. If a limit is exceeded before any damage, fails with P2 (`TooDeep`) or P3
/// (`TooManyNodes`) instead: with P2 the file encodes no tree of at most `MAX_DEPTH` levels, with
/// P3 none of at most `MAX_NODES` nodes. It may encode no tree at all. These claims about the file
/// hold if both devices return the bytes that were written to them. Fails with D1 (`Device`) if a
/// call of one of the devices failed, and with `NoMemory` if memory cannot be allocated.
///
/// Pass `first` overwrites the content of `b`, and the next pass the file on `a`, which is kept if
/// at most one pass runs. After a failure the device that the failed pass was to read still has its
/// content: what `a` had if pass `first` failed, and otherwise the file that the pass before the
/// failed one wrote. The other device has the content from before the failed pass, or a prefix of a
/// tree file. Uses the memory of one pass at a time.
pub fn run_all<D: Device>(
    alloc: Global,
    grammar: &Grammar,
    plan: &Plan,
    first: u16,
    a: &mut D,
    b: &mut D,
    meter: &mut Meter,
) -> Result<(Last, Passed), RunFault>
    requires plan { IsPlan grammar.now plan.now.assignment plan.now.code }
    requires first { 1 ≤ first }
    requires last { (passes : ℕ) × IsGreatest passes plan.now.assignment × (first ≤ passes + 1) }
    requires meter { meter.old ≤ 2 ^ 62 }
    ensures passed { (passes : ℕ) → IsGreatest passes plan.now.assignment →
        WhenHonest (D.is_honest a.new) (WhenHonest (D.is_honest b.new)
        (IfOk result (λ r. HasRunAll grammar.now (passes_of plan.now.assignment) (first - 1) passes
        (D.content a.old) r.0 (D.content a.new) (D.content b.new) (meter.new - meter.old) r.1))) }
    // if `first` is 1: the values in the last file, and in the file of the pass before it, are the
    // only ones that satisfy all equations
    ensures solution { first ≡ 1 → (passes : ℕ) → IsGreatest passes plan.now.assignment →
        WhenHonest (D.is_honest a.new) (WhenHonest (D.is_honest b.new)
        (IfOk result (λ r. LeavesSolutions grammar.now (passes_of plan.now.assignment) passes
        (D.content a.old) (last_content r.0 (D.content a.new) (D.content b.new))
        (other_content r.0 (D.content a.new) (D.content b.new))))) }
    // whatever the devices return
    ensures which { (passes : ℕ) → IsGreatest passes plan.now.assignment →
        IfOk result (λ r. r.0 ≡ last_after (passes - (first - 1))) }
    // R1, P2 and P3 only if they are true of the first file
    ensures refused { IfErr result (λ f. WhenHonest (D.is_honest a.new)
        (WhenHonest (D.is_honest b.new)
        (IsRunFault (setting_of grammar.now plan.now first) (D.content a.old) f))) }
    // the input of the failed pass is kept; the other device has its content from before that pass,
    // or a prefix of a file of that pass
    ensures left { OnErr result (WhenHonest (D.is_honest a.new) (WhenHonest (D.is_honest b.new)
        (LeavesAfterFailure grammar.now (passes_of plan.now.assignment) (first - 1) (D.content a.old)
        (D.content b.old) (D.content a.new) (D.content b.new)))) }
    // each honest device has its old content, or a prefix of a tree file, also on success, and
    // whatever the other device does
    ensures a_left { WhenHonest (D.is_honest a.new)
        (LeavesSomeFile (D.content a.old) (D.content a.new)) }
    ensures b_left { WhenHonest (D.is_honest b.new)
        (LeavesSomeFile (D.content b.old) (D.content b.new)) }
    // for any devices, honest or not: there are fewer than 2^16 passes, and each reads and writes
    // at most 2^20 records
    ensures few { IfOk result (λ r. (r.1.nodes ≤ max_nodes)
        × (r.1.read ≤ 2 ^ 36) × (r.1.written ≤ 2 ^ 36)) }
    // for any devices, honest or not: each pass evaluates at most 2^36 rules (see `run_pass`)
    ensures rises { meter.old ≤ meter.new }
    ensures meter { OnOk result (meter.new ≤ meter.old + 2 ^ 52) }
    // D1 only if the number of failures rose on one of the two
    ensures devices { BothPersist D.is_honest D.failures a.old a.new
        D.is_honest D.failures b.old b.new (IsErrOf result RunFault.Device) }
{
    // called only for its contract, which says that the grammar is accepted
    let _start = grammar.start();
    let passes = last_pass(plan);
    let mut last = Last::A;
    let mut sum = Passed {
        nodes: 0,
        read: 0,
        written: 0,
    };
    for done in first - 1..passes {
        let setting = Setting {
            grammar,
            plan,
            pass: done + 1,
        };
        let next = NextPass {
            alloc,
            setting,
            last,
        };
        let passed = next_pass(&next, a, b, meter)?;
        last = last.other();
        sum = one_more(sum, passed);
    }
    Ok((last, sum))
}
