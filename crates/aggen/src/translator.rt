//! Translators, which are built once from a grammar's text, and then used for any number of
//! sentences.

ghost use Rattle.std.specs.Prelude.{◌≡◌, ◌≢◌, ◌≤◌, IfErr, IfOk, IsErrOf, OnOk};
ghost use Rattle.std.specs.Prelude.{OnErr, length};
ghost use Rattle.ag_grammar.specs.grammars.Accepted.{IsAccepted as IsAcceptedGrammar};
ghost use Rattle.ag_grammar.specs.grammars.Tree.{node_count, IsWithinLimits, Tree};
ghost use Rattle.ag_grammar.specs.grammars.Tree.{max_depth, max_nodes};
ghost use Rattle.llparse.specs.Ahead.{HasNoConflict};
ghost use Rattle.llparse.specs.table.Tables.{FitsGrammar};
ghost use Rattle.treefile.specs.framing.Beginning.{BeginsFile, LeavesBeginning};
ghost use Rattle.treefile.specs.devices.Device.{LeavesContent, Persists, WhenHonest};
ghost use Rattle.treefile.specs.records.FirstFile.{IsFirstFile};
ghost use Rattle.treefile.specs.devices.Several.{BothPersist, ThreePersist};
ghost use Rattle.treefile.specs.records.TreeFile.{version_two};
ghost use Rattle.passassign.specs.Least.{IsAlternating, IsLeast};
ghost use Rattle.passassign.specs.Rows.{passes_of, AreWithinMaxPasses};
ghost use Rattle.aggen.specs.Building.{IsBuildFault, IsLeastPlan};
ghost use Rattle.aggen.specs.Checking.{IsGrammarOf};
ghost use Rattle.aggen.specs.Evaluating.{EvaluatesTree, IsEvaluationFault, LeavesLastFilesOfTree};
ghost use Rattle.aggen.specs.Sentences.{IsParseFault, IsScanFault, IsSentenceFault};
ghost use Rattle.aggen.specs.Sentences.{IsTreeOfSentence};
ghost use Rattle.aggen.specs.Translating.{IsAfterPasses, IsRefusedSentence, IsTranslationFault};
ghost use Rattle.aggen.specs.Translating.{LeavesLastFiles, TranslatesSentence};
ghost use Rattle.aggen.specs.Translation.{BeginsText, WritesText};
ghost use Rattle.aggen.specs.Upgrading.{IsOldFileFault};
ghost use Rattle.passrun.specs.Rounds.{LeavesSomeFile};
ghost use Rattle.tree_upgrade.specs.upgrading.Upgrading.{IsUpgraded};

use crate::checking::grammar_of;
use crate::translations::report::Report;
use ag_fault::{BuildFault, Fault, StuckGrammar};
use ag_grammar::Grammar;
use ag_scan::scan;
use ag_value::NoMemory;
use agoutput::write_text;
use llparse::{Tables, parse, tables};
use passassign::{AssignFault, Assignment, assign};
use passcode::generate;
use planchecker::{Plan, check_plan};
use std::alloc::Global;
use std::io::Write;
use std::marker::Model;
use tree_upgrade::upgrade;
use treefile::{Device, Writer};

/// A grammar with its look-ahead tables and its plan, and the allocator from which the calls take
/// memory. The invariant: the grammar is accepted, the tables have exactly the grammar's
/// predictions, and the plan is the grammar's least one. Contracts see the grammar in place of a
/// translator.
#[derive(Drop)]
pub struct Translator {
    grammar: Grammar,
    tables: Tables,
    plan: Plan,
    alloc: Global,
}

impl Model for Translator {
    ghost use Rattle.std.specs.Coded.{codes};
    ghost use Rattle.ag_grammar.specs.contracts.syntax.node.Node as node_row;
    ghost use Rattle.ag_grammar.specs.grammars.Accepted.{IsAccepted};
    ghost use Rattle.ag_grammar.specs.grammars.AttributeGrammar.{Grammar as Plain};
    ghost use Rattle.llparse.specs.table.Tables.{FitsGrammar};
    ghost use Rattle.aggen.specs.Building.{IsLeastPlan};

    ghost Value = { Plain };

    ghost coded = { Prim.hlevel (codes, node_row.the_row.coded) };

    ghost view = { λ t. t.grammar };

    ghost invariant = { λ t. IsAccepted t.grammar × FitsGrammar t.grammar t.tables
        × IsLeastPlan t.grammar t.plan.assignment t.plan.code };
}

impl Translator {
    /// Builds the translator of a grammar's text.
    ///
    /// Fails with the first of these faults that applies, and with NoMemory if memory is refused:
    ///
    /// - G1 to G4: the text does not read as a grammar.
    /// - N1 to N10: the grammar is not accepted. The fault is the grammar's first one.
    /// - L1: the grammar has a conflict. The fault contains the least one.
    /// - A1: no assignment of passes is legal.
    pub fn build(alloc: Global, text: &[u8]) -> Result<Translator, BuildFault>
        ensures grammar { IfOk result (λ t. IsGrammarOf text.now t) }
        ensures free { IfOk result (λ t. HasNoConflict t) }
        ensures alternating { IfOk result (λ t. IsAlternating t) }
        ensures refused { IfErr result (λ e. IsBuildFault text.now e) }
    {
        let grammar = grammar_of(alloc, text)?;
        let tables = tables(alloc, &grammar)?;
        let assignment = match assign(alloc, &grammar) {
            Ok(assignment) => assignment,
            Err(AssignFault::Stuck(stuck)) => {
                return Err(BuildFault::Assign(StuckGrammar { stuck, grammar }));
            }
            Err(AssignFault::NoMemory) => return Err(BuildFault::NoMemory),
        };
        let plan = plan_of(alloc, &grammar, assignment)?;
        Ok(Translator {
            grammar,
            tables,
            plan,
            alloc,
        })
    }

    /// Returns the grammar. Takes no memory.
    pub fn grammar(&self) -> &Grammar
        ensures grammar { result.now ≡ self.now }
        ensures accepted { IsAcceptedGrammar self.now }
    {
        &self.grammar
    }

    /// Returns the look-ahead tables of the grammar. Takes no memory.
    pub fn tables(&self) -> &Tables
        ensures { FitsGrammar self.now result.now }
    {
        &self.tables
    }

    /// Returns the plan of the passes: the least assignment, and its code. Takes no memory.
    pub fn plan(&self) -> &Plan
        ensures { IsLeastPlan self.now result.now.assignment result.now.code }
    {
        &self.plan
    }

    /// Returns the allocator that the translator was built with.
    pub(crate) fn alloc(&self) -> Global {
        self.alloc
    }

    /// Clears the device, and writes the file of pass 0 of the sentence's one tree to it. Returns
    /// the number of the tree's nodes.
    ///
    /// Fails with S1 to S4, before the device is used, if the sentence is too long, is not UTF-8 or
    /// can't be cut into tokens. Fails with P2 or P3 if the tokens have a tree beyond a limit. If
    /// they have no tree, fails with P1, or with P2 or P3 if the parser reaches a limit first.
    /// Fails with D1 if a call of the device failed, and with NoMemory if memory is refused.
    ///
    /// After a fault the device has its old content, or a prefix of a file of pass 0. Such a file
    /// is a header and frames: bodies of any allowed length, each followed by its length. It need
    /// not encode a tree.
    pub fn parse_tree<D: Device>(&self, sentence: &[u8], device: &mut D) -> Result<u32, Fault>
        // Ok: there is a tree, it is within the limits, and its file is written. After any result
        // there is at most one (`one`).
        ensures tree { IfOk result (λ _. (t : Tree) × IsTreeOfSentence self.now sentence.now t) }
        ensures one { (t u : Tree) → IsTreeOfSentence self.now sentence.now t
            → IsTreeOfSentence self.now sentence.now u → t ≡ u }
        ensures limits { (t : Tree) → IsTreeOfSentence self.now sentence.now t
            → OnOk result (IsWithinLimits max_depth max_nodes t) }
        ensures count { (t : Tree) → IsTreeOfSentence self.now sentence.now t
            → IfOk result (λ count. count ≡ node_count t) }
        ensures file { (t : Tree) → IsTreeOfSentence self.now sentence.now t
            → OnOk result (WhenHonest (D.is_honest device.new)
            (IsFirstFile version_two self.now t (D.content device.new))) }

        // Err: the fault is true of the sentence. After S the device is unchanged.
        ensures refused { IfErr result (λ e. IsSentenceFault self.now sentence.now e) }
        ensures untouched { IfErr result (λ e. IsScanFault e → device.new ≡ device.old) }
        // The old content of the device, or a prefix of a file of pass 0
        ensures left { OnErr result (WhenHonest (D.is_honest device.new)
            (LeavesBeginning 0 (D.content device.old) (D.content device.new))) }
        // Ok and P: a prefix of a file of pass 0
        ensures begins { OnOk result (WhenHonest (D.is_honest device.new)
            (BeginsFile 0 (D.content device.new))) }
        ensures parsed { IfErr result (λ e. IsParseFault e →
            WhenHonest (D.is_honest device.new) (BeginsFile 0 (D.content device.new))) }
        // D1 only if the device's number of failures rose
        ensures persists { Persists (D.is_honest device.old) (D.is_honest device.new)
            (D.failures device.old) (D.failures device.new) (IsErrOf result Fault.Device) }
    {
        let tokens = scan(self.alloc, &self.grammar, sentence)?;
        let mut writer = Writer::begin(self.alloc, device, 0)?;
        let count = parse(
            self.alloc,
            &self.grammar,
            &self.tables,
            &tokens,
            device,
            &mut writer,
        )?;
        Ok(count)
    }

    /// Translates a sentence: writes the file of its one tree to `a`, runs all passes alternately
    /// between `a` and `b`, reads the text of the root's `out` from the file of the last pass, and
    /// writes it to `out`. Nothing is written to `out` before the last pass has ended.
    ///
    /// Fails with S1 to S4 before a device is used, and with P1 to P3 before `b` is, as
    /// `parse_tree` does. Fails with O1 NoText if the translation is not a text, with O2 Write if a
    /// write failed or took no byte, with D1 Device if a call of a device failed, and with NoMemory
    /// if memory is refused. R1, B1, B2, and P2 or P3 of a tree file, are possible only on a device
    /// that does not return the bytes that were written. After every fault except O2 `out` is
    /// unchanged.
    ///
    /// After O1 and O2 the devices have the last two tree files. After P `a` has a prefix of a file
    /// of pass 0. After D1 and NoMemory each device has its old content, or a prefix of a file of
    /// some pass. A file of a pass here is any header with any frames after it, as with
    /// `parse_tree`. The next call can use the devices in any state, since it clears each device
    /// before it writes to it. What is said here of contents holds if the devices return the bytes
    /// that were written to them.
    #[tactic(auto, using(crate::proofs::Begun::begun))]
    pub fn translate<D: Device, W: Write>(
        &self,
        sentence: &[u8],
        a: &mut D,
        b: &mut D,
        out: &mut W,
    ) -> Result<Report, Fault>
        // the translation theorem
        ensures translates { IfOk result (λ report. TranslatesSentence self.now sentence.now
            (D.is_honest a.new) (D.is_honest b.new) (D.content a.new) (D.content b.new)
            (W.contents out.old) (W.contents out.new) report) }
        // Ok, on any devices, honest or not: some text was written.
        ensures text { OnOk result (WritesText (W.contents out.old) (W.contents out.new)) }

        // Err: the fault is true of the sentence, as far as `IsTranslationFault` says.
        ensures refused { IfErr result (λ e. IsTranslationFault self.now sentence.now
            (D.is_honest a.new) (D.is_honest b.new)
            (W.contents out.old) (W.contents out.new) e) }
        ensures kept { IfErr result (λ e. e ≢ Fault.Write → out.new ≡ out.old) }
        // O2, on any devices
        ensures begins { IsErrOf result Fault.Write →
            BeginsText (W.contents out.old) (W.contents out.new) }
        ensures untouched { IfErr result (λ e. IsScanFault e → a.new ≡ a.old) }
        ensures b_untouched { IfErr result (λ e. IsRefusedSentence e → b.new ≡ b.old) }
        // An honest device has its old content, or a prefix of a tree file, even if the other one
        // is not honest.
        ensures a_left { WhenHonest (D.is_honest a.new)
            (LeavesSomeFile (D.content a.old) (D.content a.new)) }
        ensures b_left { WhenHonest (D.is_honest b.new)
            (LeavesSomeFile (D.content b.old) (D.content b.new)) }
        // P: a prefix of a file of pass 0; O1 and O2: the last two files
        ensures parsed { IfErr result (λ e. IsParseFault e →
            WhenHonest (D.is_honest a.new) (BeginsFile 0 (D.content a.new))) }
        ensures files { IfErr result (λ e. IsAfterPasses e →
            LeavesLastFiles self.now sentence.now (D.is_honest a.new) (D.is_honest b.new)
            (D.content a.new) (D.content b.new)) }
        // D1 only if the number of failures rose on one of the two
        ensures devices { BothPersist D.is_honest D.failures a.old a.new
            D.is_honest D.failures b.old b.new (IsErrOf result Fault.Device) }
    {
        let plan = self.plan();
        let report = self.leave_files(plan, sentence, a, b)?;
        let text = self.last_text(plan, report.last, a, b)?;
        write_text(out, text.as_str())?;
        Ok(report)
    }

    /// Translates the tree whose file of pass 0 is on the device `tree`. Pass 1 reads `tree` and
    /// writes `b`, and the later passes alternate between `b` and `a`. Then reads the text of the
    /// root's `out` from the file of the last pass, and writes it to `out`. Nothing is written to
    /// `out` before the last pass has ended, and `tree` is only read. The report names the device
    /// with the file of the last pass, `a` or `b`. The other of these two has the file of the pass
    /// before the last. If there is only one pass, the file of pass 0 is the one on `tree`.
    ///
    /// Fails with R1 only if the content of `tree` is not the file of pass 0 of any tree of the
    /// grammar. The content is read from its end: if a limit is exceeded before damage is met,
    /// fails with P2 or P3 instead. Then the content is not the file of any tree of at most
    /// `MAX_DEPTH` levels (65,536; P2) or `MAX_NODES` nodes (1,048,576; P3). Fails with O1 NoText
    /// if the translation is not a text, with O2 Write if a write failed or took no byte, with D1
    /// Device if a call of a device failed, and with NoMemory if memory is refused. B1, B2, and R1,
    /// P2 and P3 of a file that a pass wrote, are possible only on a device that does not return
    /// the bytes that were written.
    ///
    /// After every fault except O2 `out` is unchanged. After O1 and O2 the last two tree files are
    /// where they are after success. After each other fault each of `a` and `b` has its old
    /// content, or a prefix of a file of some pass, as with `translate`. Claims on contents hold if
    /// the devices return the bytes that were written to them.
    #[tactic(auto, using(crate::proofs::Begun::begun))]
    pub fn evaluate_tree<T: Device, D: Device, W: Write>(
        &self,
        tree: &mut T,
        a: &mut D,
        b: &mut D,
        out: &mut W,
    ) -> Result<Report, Fault>
        // the translation theorem, for the tree whose file is on the device `tree`
        ensures evaluates { IfOk result (λ report. EvaluatesTree self.now
            (T.is_honest tree.new) (D.is_honest a.new) (D.is_honest b.new)
            (T.content tree.old) (D.content a.new) (D.content b.new)
            (W.contents out.old) (W.contents out.new) report) }

        // Err: the fault is true of the content.
        ensures refused { IfErr result (λ e. IsEvaluationFault self.now
            (T.is_honest tree.new) (D.is_honest a.new) (D.is_honest b.new)
            (T.content tree.old) (W.contents out.old) (W.contents out.new) e) }
        ensures kept { IfErr result (λ e. e ≢ Fault.Write → out.new ≡ out.old) }
        // O2, on any devices
        ensures begins { IsErrOf result Fault.Write →
            BeginsText (W.contents out.old) (W.contents out.new) }
        ensures content { LeavesContent (T.is_honest tree.new)
            (T.content tree.old) (T.content tree.new) }
        // An honest device has its old content, or a prefix of a tree file, even if the others
        // are not honest.
        ensures a_left { WhenHonest (D.is_honest a.new)
            (LeavesSomeFile (D.content a.old) (D.content a.new)) }
        ensures b_left { WhenHonest (D.is_honest b.new)
            (LeavesSomeFile (D.content b.old) (D.content b.new)) }
        // O1 and O2: the last two files
        ensures files { IfErr result (λ e. IsAfterPasses e →
            LeavesLastFilesOfTree self.now (T.is_honest tree.new) (D.is_honest a.new)
            (D.is_honest b.new) (T.content tree.old) (D.content a.new) (D.content b.new)) }
        // D1 only if the number of failures rose on one of the three
        ensures devices { ThreePersist T.is_honest T.failures tree.old tree.new
            D.is_honest D.failures a.old a.new D.is_honest D.failures b.old b.new
            (IsErrOf result Fault.Device) }
    {
        let plan = self.plan();
        let report = self.run_tree(plan, tree, a, b)?;
        let text = self.last_text(plan, report.last, a, b)?;
        write_text(out, text.as_str())?;
        Ok(report)
    }

    /// Converts an old tree file. Reads from `old` the file of version 1 and pass 0 of a tree of
    /// the grammar, and writes to `to` the file of version 2 and pass 0 of the same tree. That is
    /// the file that `parse_tree` writes for a sentence with this tree. The old file is read from
    /// its end, so the new records are first written to `mid`, with children from right to left.
    /// Then this file is reversed to `to`. `old` is only read. Returns the number of nodes.
    ///
    /// Fails with R1 only if the content of `old` is not the file of version 1 and pass 0 of any
    /// tree of the grammar. If a limit is exceeded before damage is met, fails with P2 or P3
    /// instead. Then the content is not the file of any tree of at most 256 levels
    /// (`MAX_REVERSED_DEPTH`; P2) or 65,536 nodes (`MAX_REVERSED_NODES`; P3). Fails with D1 if a
    /// call of a device failed, and with NoMemory if memory is refused. R1 with an offset in `mid`,
    /// and P2 for the content of `mid`, are possible only if `mid` does not return the bytes that
    /// were written.
    ///
    /// After a fault `mid` has its old content or a prefix of a file with the pass number 1, and
    /// `to` has its old content or a prefix of a file of pass 0. Claims on contents hold if the
    /// devices return the bytes that were written to them.
    pub fn upgrade<D: Device, E: Device, F: Device>(
        &self,
        old: &mut D,
        mid: &mut E,
        to: &mut F,
    ) -> Result<u32, Fault>
        // Ok: the one tree of the old file is converted.
        ensures upgraded { IfOk result (λ count. WhenHonest (D.is_honest old.new)
            (WhenHonest (E.is_honest mid.new) (IsUpgraded self.now (D.content old.old)
            (E.content mid.new) (F.is_honest to.new) (F.content to.new) count))) }
        // Err: the fault is true of the old content.
        ensures refused { IfErr result (λ e. IsOldFileFault self.now
            (D.is_honest old.new) (E.is_honest mid.new) (D.content old.old) e) }
        // `to` has its old content, or a prefix of a file of pass 0.
        ensures left { OnErr result (WhenHonest (F.is_honest to.new)
            (LeavesBeginning 0 (F.content to.old) (F.content to.new))) }
        // `mid` has its old content, or a prefix of a file with the pass number 1, also after Ok.
        ensures mid_left { WhenHonest (E.is_honest mid.new)
            (LeavesBeginning 1 (E.content mid.old) (E.content mid.new)) }
        ensures content { LeavesContent (D.is_honest old.new)
            (D.content old.old) (D.content old.new) }
        // D1 only if the number of failures rose on one of the three
        ensures devices { ThreePersist D.is_honest D.failures old.old old.new
            E.is_honest E.failures mid.old mid.new F.is_honest F.failures to.old to.new
            (IsErrOf result Fault.Device) }
    {
        let nodes = upgrade(self.alloc, self.grammar(), old, mid, to)?;
        Ok(nodes)
    }
}

/// Returns the plan of a grammar: its least assignment, and the code that `generate` returns for
/// this. `check_plan` checks the two and makes the plan of them. Fails with NoMemory.
#[tactic(auto, using(planchecker::proofs::Taken::made_is_accepted, crate::proofs::Building::least_plan))]
fn plan_of(alloc: Global, grammar: &Grammar, assignment: Assignment) -> Result<Plan, NoMemory>
    requires least { IsLeast grammar.now (passes_of assignment) }
    requires few { AreWithinMaxPasses assignment }
    requires rows { length assignment ≤ length grammar.now.symbols }
    ensures { IfOk result (λ p. IsLeastPlan grammar.now p.assignment p.code) }
{
    let code = generate(alloc, grammar, &assignment)?;
    match check_plan(grammar, assignment, code) {
        Ok(plan) => Ok(plan),
        // never here: the check accepts a least assignment with the code of `generate`
        Err(_) => unreachable!(),
    }
}
