//! The loop of a pass over a tree file, with an explicit stack.

ghost use Rattle.std.specs.Prelude.{◌≡◌, ◌≤◌, None, Some, IfErr, IsErrOf, OnOk};
ghost use Rattle.passrun.specs.passing.Ahead.{IsRunFault};
ghost use Rattle.pass_rows.specs.layouts.Contexts.{CanRun, setting};
ghost use Rattle.pass_rows.specs.Nodes.{first_at};
ghost use Rattle.passrun.specs.passing.Putting.{AddsFrames, LeavesFrames};
ghost use Rattle.passrun.specs.passing.Running.{Runs, between};
ghost use Rattle.treefile.specs.devices.Device.{LeavesContent, WhenHonest};
ghost use Rattle.treefile.specs.devices.Several.{BothPersist};

use crate::passing::machine::{Machine, StepAt};
use ag_eval::Meter;
use pass_rows::layouts::context::PassContext;
use pass_rows::open_node::OpenNode;
use pass_rows::run_fault::RunFault;
use treefile::Device;

/// Runs a pass from its root, whose record was read, until the root is done. Fails as
/// `Machine::step` does.
pub(crate) fn run<D: Device, E: Device>(
    context: &PassContext<'_>,
    machine: &mut Machine,
    from: &mut D,
    to: &mut E,
    meter: &mut Meter,
) -> Result<(), RunFault>
    requires context { CanRun context.now }
    requires runs { Runs (setting context.now)
        (between (D.is_honest from.old) (D.content from.old)
        (E.is_honest to.old) (E.content to.old) meter.old)
        machine.old (Some (first_at machine.old.waiting.root 0)) }
    ensures runs { OnOk result (Runs (setting context.now)
        (between (D.is_honest from.new) (D.content from.new)
        (E.is_honest to.new) (E.content to.new) meter.new) machine.new None) }
    ensures added { OnOk result (AddsFrames (E.is_honest to.new)
        (E.content to.old) (E.content to.new)) }
    ensures left { IfErr result (LeavesFrames (E.is_honest to.new)
        (E.content to.old) (E.content to.new)) }
    ensures refused { IfErr result (λ f. WhenHonest (D.is_honest from.new)
        (IsRunFault (setting context.now) (D.content from.old) f)) }
    ensures begun { OnOk result (machine.new.begun ≡ machine.old.begun) }
    ensures rises { meter.old ≤ meter.new }
    ensures content { LeavesContent (D.is_honest from.new)
        (D.content from.old) (D.content from.new) }
    // D1 only if the number of failures rose on one of the two
    ensures devices { BothPersist D.is_honest D.failures from.old from.new
        E.is_honest E.failures to.old to.new (IsErrOf result RunFault.Device) }
{
    let root = OpenNode::first(machine.waiting.root());
    let mut next = Some(root);
    while let Some(node) = next {
        let at = StepAt {
            context: &*context,
            node,
        };
        next = machine.step(&at, from, to, meter)?;
    }
    Ok(())
}
