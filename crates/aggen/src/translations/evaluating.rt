//! Running all passes over the tree in a file: pass 1 reads that file, and the others alternate
//! between two other devices.

ghost use Rattle.std.specs.Prelude.{◌≡◌, IfErr, IfOk, IsErrOf};
ghost use Rattle.aggen.specs.Building.{IsLeastPlan};
ghost use Rattle.aggen.specs.Evaluating.{IsTreeFaultBeforeText, LeavesFilesOfTree};
ghost use Rattle.passrun.specs.Rounds.{LeavesSomeFile};
ghost use Rattle.treefile.specs.devices.Device.{LeavesContent, WhenHonest};
ghost use Rattle.treefile.specs.devices.Several.{ThreePersist};

use crate::translations::report::Report;
use crate::translator::Translator;
use ag_eval::Meter;
use ag_fault::Fault;
use passrun::{run_all, run_pass};
use planchecker::Plan;
use treefile::Device;

impl Translator {
    /// Runs all passes of the plan over the tree whose file is on the device `tree`. Pass 1 reads
    /// `tree` and writes `b`, pass 2 reads `b` and writes `a`, and so on. Returns the report. Fails
    /// as `run_pass` and `run_all` do.
    pub(crate) fn run_tree<T: Device, D: Device>(
        &self,
        plan: &Plan,
        tree: &mut T,
        a: &mut D,
        b: &mut D,
    ) -> Result<Report, Fault>
        requires least { IsLeastPlan self.now plan.now.assignment plan.now.code }
        ensures left { IfOk result (λ report. LeavesFilesOfTree self.now plan.now.assignment
            (T.is_honest tree.new) (D.is_honest a.new) (D.is_honest b.new) (T.content tree.old)
            (D.content a.new) (D.content b.new) report) }
        ensures refused { IfErr result (λ e. IsTreeFaultBeforeText self.now (T.is_honest tree.new)
            (D.is_honest a.new) (D.is_honest b.new) (T.content tree.old) e) }
        ensures content { LeavesContent (T.is_honest tree.new)
            (T.content tree.old) (T.content tree.new) }
        ensures a_left { WhenHonest (D.is_honest a.new)
            (LeavesSomeFile (D.content a.old) (D.content a.new)) }
        ensures b_left { WhenHonest (D.is_honest b.new)
            (LeavesSomeFile (D.content b.old) (D.content b.new)) }
        ensures devices { ThreePersist T.is_honest T.failures tree.old tree.new
            D.is_honest D.failures a.old a.new D.is_honest D.failures b.old b.new
            (IsErrOf result Fault.Device) }
    {
        let alloc = self.alloc();
        let grammar = self.grammar();
        let mut meter = Meter::new();
        let first = run_pass(alloc, grammar, plan, 1, tree, b, &mut meter)?;
        // Pass 2 reads `b`, so `b` is the first device of `run_all`, and its `Last::A` means `b`.
        // If the plan has one pass, `run_all` runs none, and returns `Last::A`.
        let (last, others) = run_all(alloc, grammar, plan, 2, b, a, &mut meter)?;
        Ok(Report {
            nodes: first.nodes,
            passes: plan.assignment().passes(),
            evals: meter.count(),
            read: first.read + others.read,
            written: first.written + others.written,
            last: last.other(),
        })
    }
}
