//! The beginning and the end of a pass.

ghost use Rattle.std.specs.Prelude.{◌≡◌, ◌-◌, ◌^◌, ◌≤◌, ℕ, None, Some, IfErr, IfOk, IsErrOf};
ghost use Rattle.std.specs.Prelude.{OnErr, OnOk};
ghost use Rattle.ag_grammar.specs.grammars.Tree.{max_nodes};
ghost use Rattle.passrun.specs.passing.Ahead.{IsRunFault};
ghost use Rattle.pass_rows.specs.Nodes.{first_at};
ghost use Rattle.pass_rows.specs.layouts.Contexts.{CanRun, setting};
ghost use Rattle.passrun.specs.Passed.{IsPassed};
ghost use Rattle.passrun.specs.passing.Putting.{AddsFrames, LeavesFrames};
ghost use Rattle.passrun.specs.passing.Running.{Runs, RunsWith, between};
ghost use Rattle.treefile.specs.framing.Beginning.{LeavesBeginning};
ghost use Rattle.treefile.specs.devices.Device.{LeavesContent, WhenHonest};
ghost use Rattle.treefile.specs.devices.Several.{BothPersist};
ghost use Rattle.treefile.specs.records.TreeFile.{header, version_two};

use crate::passing::machine::Machine;
use crate::passing::open_nodes::OpenNodes;
use crate::passing::putting::put_record;
use crate::reading::fetching::{ExpectedRecord, fetch};
use ag_eval::Meter;
use ag_grammar::Item;
use backreader::Back;
use pass_rows::layouts::context::PassContext;
use pass_rows::layouts::hints::ChildLocation;
use pass_rows::run_fault::RunFault;
use treefile::{Device, Kind, Writer};

/// The offset of the pass number in a header, in bytes.
const PASS_OFFSET: u64 = 4;

/// The counts of one pass, or of several passes over one tree.
#[derive(Clone, Copy, PartialEq, Eq)]
pub struct Passed {
    /// The number of nodes of the tree, from 1 to `MAX_NODES`; 0 if no pass ran.
    pub nodes: u32,
    /// The number of records read: one for each node in each pass.
    pub read: u64,
    /// The number of records written: one for each node in each pass.
    pub written: u64,
}

/// Begins a pass: checks the header of the first device, replaces the content of the second one
/// with a header, and reads the root's record. Fails with R1 at 0 if the first device has no header
/// of version 2, and with R1 at 4 if the header has the number of another pass. Fails with D1 if a
/// device fails, with `NoMemory` if memory cannot be allocated, and as `fetch` does.
pub(crate) fn begin<D: Device, E: Device>(
    context: &PassContext<'_>,
    from: &mut D,
    to: &mut E,
    meter: &Meter,
) -> Result<Machine, RunFault>
    requires context { CanRun context.now }
    requires meter { meter.now ≤ 2 ^ 63 }
    ensures runs { IfOk result (λ m. Runs (setting context.now)
        (between (D.is_honest from.new) (D.content from.new)
        (E.is_honest to.new) (E.content to.new) meter.now) m (Some (first_at m.waiting.root 0))) }
    ensures header { OnOk result (WhenHonest (E.is_honest to.new)
        (E.content to.new ≡ header version_two (setting context.now).write)) }
    // on failure: the content of the second device is unchanged, or a prefix of a file of the pass
    ensures left { OnErr result (WhenHonest (E.is_honest to.new)
        (LeavesBeginning (setting context.now).write (E.content to.old) (E.content to.new))) }
    ensures refused { IfErr result (λ f. WhenHonest (D.is_honest from.new)
        (IsRunFault (setting context.now) (D.content from.old) f)) }
    ensures begun { IfOk result (λ m. m.begun ≡ meter.now) }
    ensures content { LeavesContent (D.is_honest from.new)
        (D.content from.old) (D.content from.new) }
    // D1 only if the number of failures rose on one of the two
    ensures devices { BothPersist D.is_honest D.failures from.old from.new
        E.is_honest E.failures to.old to.new (IsErrOf result RunFault.Device) }
{
    let mut back = Back::start(context.alloc, from)?;
    if back.pass() != context.file_pass() {
        return Err(RunFault::Damaged(PASS_OFFSET));
    }
    let writer = Writer::begin(context.alloc, to, context.setting.pass)?;
    let mut values = Vec::new(context.alloc);
    let start = Item::Symbol(context.setting.grammar.start());
    let expected = ExpectedRecord {
        item: start,
        location: ChildLocation::default(),
        open_count: 0,
    };
    let root = fetch(context, expected, &mut back, &mut values, from)?;
    Ok(Machine {
        back,
        writer,
        values,
        waiting: OpenNodes::new(context.alloc, root),
        begun: meter.count(),
    })
}

/// Ends a pass whose root is done: writes the root's record, checks that the first file was read
/// back to its header, and returns the counts. If the header does not end at the offset that
/// reading has reached, fails with R1 at this offset. Fails with D1 if a device fails, and with
/// `NoMemory` if memory cannot be allocated.
pub(crate) fn finish<D: Device, E: Device>(
    context: &PassContext<'_>,
    machine: &mut Machine,
    from: &mut D,
    to: &mut E,
) -> Result<Passed, RunFault>
    requires context { CanRun context.now }
    requires runs { RunsWith (setting context.now)
        (between (D.is_honest from.old) (D.content from.old)
        (E.is_honest to.old) (E.content to.old)) machine.old None }
    // for every count of the meter with which the machine runs: `finish` doesn't take the meter
    ensures passed { (meter : ℕ) → Runs (setting context.now)
        (between (D.is_honest from.old) (D.content from.old)
        (E.is_honest to.old) (E.content to.old) meter) machine.old None →
        WhenHonest (D.is_honest from.new) (WhenHonest (E.is_honest to.new)
        (IfOk result (λ p. IsPassed (setting context.now) (D.content from.old) (E.content to.new)
        p.nodes (meter - machine.old.begun)))) }
    ensures added { OnOk result (AddsFrames (E.is_honest to.new)
        (E.content to.old) (E.content to.new)) }
    ensures left { IfErr result (LeavesFrames (E.is_honest to.new)
        (E.content to.old) (E.content to.new)) }
    ensures refused { IfErr result (λ f. WhenHonest (D.is_honest from.new)
        (IsRunFault (setting context.now) (D.content from.old) f)) }
    ensures counts { IfOk result (λ p. (p.read ≡ p.nodes) × (p.written ≡ p.nodes)) }
    // for any devices, honest or not
    ensures few { IfOk result (λ p. p.nodes ≤ max_nodes) }
    ensures content { LeavesContent (D.is_honest from.new)
        (D.content from.old) (D.content from.new) }
    // D1 only if the number of failures rose on one of the two
    ensures devices { BothPersist D.is_honest D.failures from.old from.new
        E.is_honest E.failures to.old to.new (IsErrOf result RunFault.Device) }
{
    let values = machine.values.as_slice();
    put_record(
        Kind::Node,
        machine.waiting.root(),
        values,
        &mut machine.writer,
        to,
    )?;
    let end = machine.back.end();
    if machine.back.back(from)?.is_some() {
        return Err(RunFault::Damaged(end));
    }
    Ok(Passed {
        nodes: machine.back.records() as u32,
        read: machine.back.records(),
        written: machine.writer.written(),
    })
}
