//! Translating a sentence: its tree is written to a file, all passes run over it, and the text of
//! the root is read from the last file.

ghost use Rattle.std.specs.Prelude.{◌≡◌, IfErr, IfOk, IsErrOf};
ghost use Rattle.aggen.specs.Building.{IsLeastPlan};
ghost use Rattle.aggen.specs.Sentences.{IsParseFault, IsScanFault};
ghost use Rattle.aggen.specs.Translating.{IsFaultBeforeText, IsRefusedSentence, LeavesFiles};
ghost use Rattle.passrun.specs.Rounds.{LeavesSomeFile, last_content};
ghost use Rattle.planchecker.specs.Plans.{IsPlan};
ghost use Rattle.roottext.specs.Roots.{IsWellText, MatchesRoot};
ghost use Rattle.treefile.specs.framing.Beginning.{BeginsFile};
ghost use Rattle.treefile.specs.devices.Device.{LeavesContent, WhenHonest};
ghost use Rattle.treefile.specs.devices.Several.{BothPersist};

use crate::translations::report::Report;
use crate::translator::Translator;
use ag_eval::Meter;
use ag_fault::Fault;
use ag_value::Text;
use passrun::{Last, run_all};
use planchecker::Plan;
use roottext::{OutFault, root_text};
use treefile::Device;

impl Translator {
    /// Writes the file of pass 0 of a sentence's tree to `a`, and runs all passes of the plan over
    /// it. Returns the report. Fails as `Translator::parse_tree` and `run_all` do.
    pub(crate) fn leave_files<D: Device>(
        &self,
        plan: &Plan,
        sentence: &[u8],
        a: &mut D,
        b: &mut D,
    ) -> Result<Report, Fault>
        requires least { IsLeastPlan self.now plan.now.assignment plan.now.code }
        ensures left { IfOk result (λ report. LeavesFiles self.now sentence.now plan.now.assignment
            (D.is_honest a.new) (D.is_honest b.new) (D.content a.new) (D.content b.new) report) }
        ensures refused { IfErr result (λ e. IsFaultBeforeText self.now sentence.now
            (D.is_honest a.new) (D.is_honest b.new) e) }
        ensures untouched { IfErr result (λ e. IsScanFault e → a.new ≡ a.old) }
        ensures b_untouched { IfErr result (λ e. IsRefusedSentence e → b.new ≡ b.old) }
        ensures a_left { WhenHonest (D.is_honest a.new)
            (LeavesSomeFile (D.content a.old) (D.content a.new)) }
        ensures b_left { WhenHonest (D.is_honest b.new)
            (LeavesSomeFile (D.content b.old) (D.content b.new)) }
        ensures parsed { IfErr result (λ e. IsParseFault e →
            WhenHonest (D.is_honest a.new) (BeginsFile 0 (D.content a.new))) }
        ensures devices { BothPersist D.is_honest D.failures a.old a.new
            D.is_honest D.failures b.old b.new (IsErrOf result Fault.Device) }
    {
        let nodes = self.parse_tree(sentence, a)?;
        let mut meter = Meter::new();
        let (last, passed) = run_all(self.alloc(), self.grammar(), plan, 1, a, b, &mut meter)?;
        Ok(Report {
            nodes,
            passes: plan.assignment().passes(),
            evals: meter.count(),
            read: passed.read,
            written: passed.written,
            last,
        })
    }

    /// Returns the text of the root's `out` from the file of the last pass, which is on the device
    /// that `last` names. Fails as `root_text` does.
    pub(crate) fn last_text<D: Device>(
        &self,
        plan: &Plan,
        last: Last,
        a: &mut D,
        b: &mut D,
    ) -> Result<Text, OutFault>
        requires plan { IsPlan self.now plan.now.assignment plan.now.code }
        ensures root { WhenHonest (D.is_honest a.new) (WhenHonest (D.is_honest b.new)
            (MatchesRoot self.now plan.now.assignment
            (last_content last (D.content a.old) (D.content b.old)) result)) }
        ensures well { IfOk result IsWellText }
        ensures a_content { LeavesContent (D.is_honest a.new) (D.content a.old) (D.content a.new) }
        ensures b_content { LeavesContent (D.is_honest b.new) (D.content b.old) (D.content b.new) }
        ensures devices { BothPersist D.is_honest D.failures a.old a.new
            D.is_honest D.failures b.old b.new (IsErrOf result OutFault.Device) }
    {
        let alloc = self.alloc();
        let grammar = self.grammar();
        match last {
            Last::A => root_text(alloc, grammar, plan, a),
            Last::B => root_text(alloc, grammar, plan, b),
        }
    }
}
