//! The command that translates the tree in a tree file: `eval`.

ghost use Rattle.std.specs.Prelude.{◌≡◌, ◌≢◌, [], IfErr, IfOk, OnOk, Some};
ghost use Rattle.aggen.specs.Evaluating.{EvaluatesTree, IsEvaluationFault};
ghost use Rattle.aggen.specs.declared.translations.report.Report.{Report};
ghost use Rattle.program_io.specs.Sessions.{path_of};
ghost use Rattle.treefile.specs.devices.Device.{LeavesContent};
ghost use Rattle.treefile.specs.devices.Several.{Lasts};
ghost use Rattle.translation_commands.specs.Evaluations.{Evaluated, EvaluatesFile, HasEvaluated, IsRefusedEvaluation};
ghost use Rattle.translation_commands.specs.Evaluations.{IsUnevaluated, IsUnevaluatedFile};
ghost use Rattle.translation_commands.specs.Runs.{opened};

use crate::cause::CauseFinder;
use aggen::{Fault, Translator};
use aggen_files::{Silent, Watch, WorkDevice, WorkFiles};
use command_line::{EvalPaths, InputPath};
use messages::{FaultReport, Source};
use program_io::{CheckedInput, INPUT_IS_WRITTEN, Session, TREE_IS_WRITTEN, build_translator};
use std::alloc::Global;
use std::rt::{Clock, Files};
use treefile::{Device, MemDevice};

/// Translates the tree in a tree file, and prints the translation or writes it to a file. The tree
/// file keeps its content. The grammar is read first.
///
/// Fails before the grammar is read:
/// - if the tree file or the grammar is one of the tree files of `--work` (`usage`);
/// - if the translation's file is an input or one of these tree files, or if the translation is
///   printed and standard output is one of these tree files (`usage`);
/// - if one of these tree files is a folder or a pipe (F1).
///
/// Also fails if the file of the tree is a folder or a pipe (F1; standard input may be a pipe), if
/// an input can't be read, if the grammar, the tree or the translation is refused, if a tree file
/// or the output fails, and if memory is refused.
pub fn evaluate<R: Files + Input + Print + Eprint + Clock>(
    session: &mut Session<'_, R>,
    paths: &EvalPaths<'_>,
) -> Result<(), FaultReport>
    ensures ran { OnOk result (EvaluatesFile paths.now.grammar paths.now.tree
        (path_of paths.now.output) (path_of paths.now.work) session.old session.new) }
    ensures refused { IfErr result (λ report. IsRefusedEvaluation paths.now.grammar paths.now.tree
        (path_of paths.now.output) (path_of paths.now.work) session.old session.new
        report.fault) }
{
    let inputs = [
        CheckedInput(paths.tree, TREE_IS_WRITTEN),
        CheckedInput(paths.grammar, INPUT_IS_WRITTEN),
    ];
    session.check_files(&inputs, paths.output, paths.work)?;
    let text = session.read(paths.grammar)?;
    let grammar = Source::new(paths.grammar.name(), text.as_slice());
    let translator = build_translator(session.alloc, grammar)?;
    let run = EvaluationRun {
        translator: &translator,
        grammar,
        tree: paths.tree,
        work: paths.work,
    };
    run.deliver(session, paths.output)
}

/// What an evaluation needs.
#[derive(Clone, Copy)]
struct EvaluationRun<'a> {
    translator: &'a Translator,
    /// The grammar's text.
    grammar: Source<'a>,
    /// The tree file to translate.
    tree: InputPath<'a>,
    /// The folder for the tree files of the passes. If there is none, they are kept in memory.
    work: Option<&'a str>,
}

impl EvaluationRun<'_> {
    /// Translates the tree, and writes the translation to the file at the path `output` or, if there
    /// is none, to standard output. Fails as `translate` and `Session::write` do.
    fn deliver<R: Files + Input + Print + Eprint + Clock>(
        self,
        session: &mut Session<'_, R>,
        output: Option<&str>,
    ) -> Result<(), FaultReport>
        ensures ran { OnOk result (HasEvaluated self.entry.translator.now (path_of self.entry.work)
            self.entry.tree (path_of output.entry) session.old.events session.new) }
        ensures refused { IfErr result (λ report. IsUnevaluatedFile self.entry.translator.now
            (path_of self.entry.work) self.entry.tree (path_of output.entry) session.old.events
            session.new report.fault) }
    {
        match self.tree {
            InputPath::File(path) => {
                let mut tree = session.open_tree(path)?;
                let translated = self.translate(session, &mut tree);
                session.close_tree(tree);
                let text = translated?;
                session.write(output, text.as_slice())
            }
            InputPath::Standard => {
                let bytes = session.read_standard(u64::MAX)?;
                let text = self.translate(session, &mut MemDevice::from_bytes(bytes))?;
                session.write(output, text.as_slice())
            }
        }
    }

    /// Returns the translation of the tree on a device. Shows the progress meanwhile, but not while
    /// pass 1 reads the device. Fails as `WorkFiles::open` and `WorkFiles::evaluate` do.
    fn translate<R: Files + Eprint + Clock, T: Device>(
        self,
        session: &mut Session<'_, R>,
        tree: &mut T,
    ) -> Result<Vec<u8>, FaultReport>
        ensures opened { OnOk result
            (session.new.events ≡ opened (path_of self.entry.work) session.old.events) }
        ensures evaluated { IfOk result (λ text. Evaluated self.entry.translator.now
            (path_of self.entry.work) (T.is_honest tree.new) (T.content tree.old) session.new
            text.items) }
        ensures refused { IfErr result (λ report. IsUnevaluated self.entry.translator.now
            (path_of self.entry.work) (T.is_honest tree.new) (T.content tree.old)
            session.old.events session.new report.fault) }
        ensures content { LeavesContent (T.is_honest tree.new)
            (T.content tree.old) (T.content tree.new) }
    {
        // the first tree file that is written is that of pass 1
        match session.progress(self.translator, 1) {
            Some(progress) => self.translate_watched(session, tree, &progress),
            None => self.translate_watched(session, tree, &Silent),
        }
    }

    /// Does what `translate` does, but shows what `watch` shows.
    fn translate_watched<R: Files, T: Device, W: Watch>(
        self,
        session: &mut Session<'_, R>,
        tree: &mut T,
        watch: &W,
    ) -> Result<Vec<u8>, FaultReport>
        ensures opened { OnOk result
            (session.new.events ≡ opened (path_of self.entry.work) session.old.events) }
        ensures evaluated { IfOk result (λ text. Evaluated self.entry.translator.now
            (path_of self.entry.work) (T.is_honest tree.new) (T.content tree.old) session.new
            text.items) }
        ensures refused { IfErr result (λ report. IsUnevaluated self.entry.translator.now
            (path_of self.entry.work) (T.is_honest tree.new) (T.content tree.old)
            session.old.events session.new report.fault) }
        ensures content { LeavesContent (T.is_honest tree.new)
            (T.content tree.old) (T.content tree.new) }
    {
        let alloc = session.alloc;
        let Some(folder) = self.work else {
            let mut files = WorkFiles::in_memory(alloc).watched(watch);
            return self.translate_with(alloc, tree, &mut files, watch);
        };
        match session.open_work(folder, watch) {
            Ok(mut files) => {
                let translated = self.translate_with(alloc, tree, &mut files, watch);
                session.close_work(files);
                translated
            }
            Err(fault) => Err(self.report_of(alloc, fault, tree)),
        }
    }

    /// Returns the translation of the tree on a device, made with the tree files `files`. Fails as
    /// `WorkFiles::evaluate` does.
    fn translate_with<T: Device, D: WorkDevice, W: Watch>(
        self,
        alloc: Global,
        tree: &mut T,
        files: &mut WorkFiles<D>,
        watch: &W,
    ) -> Result<Vec<u8>, FaultReport>
        ensures evaluates { IfOk result (λ text. (report : Report) × EvaluatesTree
            self.entry.translator.now (T.is_honest tree.new)
            (D.is_honest files.new.a) (D.is_honest files.new.b) (T.content tree.old)
            (D.stored files.new.a) (D.stored files.new.b) (Some []) (Some text.items) report) }
        ensures refused { IfErr result (λ report. IsEvaluationFault self.entry.translator.now
            (T.is_honest tree.new) (D.is_honest files.new.a) (D.is_honest files.new.b)
            (T.content tree.old) (Some []) (Some []) report.fault) }
        ensures other { IfErr result (λ report. report.fault ≢ Fault.Write) }
        ensures content { LeavesContent (T.is_honest tree.new)
            (T.content tree.old) (T.content tree.new) }
    {
        let translated = files.evaluate(alloc, self.translator, tree);
        watch.end();
        match translated {
            Ok(made) => Ok(made.text),
            Err(fault) => {
                let report = self.report_of(alloc, fault, tree);
                let finder = CauseFinder {
                    translator: self.translator,
                    grammar: self.grammar,
                    sentence: None,
                };
                Err(finder.with_cause(alloc, report, files))
            }
        }
    }

    /// Returns the report of a fault. With `--work`, the report names the folder of the tree files:
    /// - after F1, since the file of `tree` was opened before;
    /// - after D1, if `tree` can still return its length.
    ///
    /// In all other cases returns the report of `FaultReport::of_tree`, which names the file of
    /// `tree` after D1, R1, P2 and P3.
    fn report_of<T: Device>(self, alloc: Global, fault: Fault, tree: &mut T) -> FaultReport
        ensures fault { result.fault ≡ fault }
        ensures content { LeavesContent (T.is_honest tree.new)
            (T.content tree.old) (T.content tree.new) }
        ensures device { Lasts T.is_honest T.failures tree.old tree.new }
    {
        let is_of_folder = match fault {
            Fault::File => true,
            Fault::Device => tree.len().is_ok(),
            _ => false,
        };
        match self.work {
            Some(folder) if is_of_folder => FaultReport::of_file(alloc, fault, folder),
            _ => FaultReport::of_tree(
                alloc,
                fault,
                self.translator.grammar(),
                tree,
                self.tree.name(),
            ),
        }
    }
}
