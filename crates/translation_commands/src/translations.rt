//! The commands that translate one sentence: `run`, and the job on standard input.

ghost use Rattle.std.specs.Prelude.{◌≡◌, ◌≢◌, [], IfErr, IfOk, None, OnOk, Some};
ghost use Rattle.aggen.specs.Translating.{IsTranslationFault, TranslatesSentence};
ghost use Rattle.program_io.specs.Sessions.{path_of};
ghost use Rattle.translation_commands.specs.Runs.{Delivers, IsRefusedJob, IsRefusedRun, IsUndelivered, IsUntranslated};
ghost use Rattle.translation_commands.specs.Runs.{DeliversJob, IsUndeliveredJob, RunsJob, RunsSentence};
ghost use Rattle.translation_commands.specs.Runs.{Translated, opened};
ghost use Rattle.aggen.specs.declared.translations.report.Report.{Report};

use crate::cause::CauseFinder;
use ag_job::{Job, MAX_JOB_BYTES};
use aggen::{Fault, Translator};
use aggen_files::{Silent, Watch, WorkDevice, WorkFiles};
use command_line::{InputPath, RunPaths};
use messages::{FaultReport, Source};
use program_io::{CheckedInput, INPUT_IS_WRITTEN, Session, build_translator, report_of_sentence};
use std::alloc::Global;
use std::rt::{Clock, Files};

/// Translates a sentence, and prints the translation or writes it to a file. Reads the grammar,
/// then the sentence, then creates the tree files of `--work`, and at last writes the translation.
///
/// Fails before the grammar is read:
/// - if an input is one of the tree files of `--work` (`usage`);
/// - if the translation's file is an input or one of these tree files, or if the translation is
///   printed and standard output is one of these tree files (`usage`);
/// - if one of these tree files is a folder or a pipe (F1).
///
/// Also fails if an input can't be read, if the grammar, the sentence or the translation is
/// refused, if a tree file or the output fails, and if memory is refused.
pub fn run_sentence<R: Files + Input + Print + Eprint + Clock>(
    session: &mut Session<'_, R>,
    paths: &RunPaths<'_>,
) -> Result<(), FaultReport>
    ensures ran { OnOk result (RunsSentence paths.now.grammar paths.now.sentence
        (path_of paths.now.output) (path_of paths.now.work) session.old session.new) }
    ensures refused { IfErr result (λ report. IsRefusedRun paths.now.grammar paths.now.sentence
        (path_of paths.now.output) (path_of paths.now.work) session.old session.new
        report.fault) }
{
    let inputs = [
        CheckedInput(paths.grammar, INPUT_IS_WRITTEN),
        CheckedInput(paths.sentence, INPUT_IS_WRITTEN),
    ];
    session.check_files(&inputs, paths.output, paths.work)?;
    let text = session.read(paths.grammar)?;
    let grammar = Source::new(paths.grammar.name(), text.as_slice());
    let translator = build_translator(session.alloc, grammar)?;
    let run = TranslationRun {
        translator: &translator,
        grammar,
        work: paths.work,
    };
    run.deliver(session, paths.sentence, paths.output)
}

/// Translates the job on standard input, with its tree files in memory, and prints the translation.
/// Fails if the job can't be read or split (`Job::read`), if its grammar, its sentence or the
/// translation is refused, if the output fails, and if memory is refused.
pub fn run_input<R: Files + Input + Print + Eprint + Clock>(
    session: &mut Session<'_, R>,
) -> Result<(), FaultReport>
    ensures ran { OnOk result (RunsJob session.old session.new) }
    ensures refused { IfErr result (λ report. IsRefusedJob session.old session.new report.fault) }
{
    let bytes = session.read_standard(MAX_JOB_BYTES as u64 + 1)?;
    match Job::read(session.alloc, bytes.as_slice()) {
        Ok(job) => translate_job(session, &job),
        Err(fault) => Err(FaultReport::new(session.alloc, Fault::from(fault))),
    }
}

/// A translator with the text of its grammar, and where its tree files are kept.
#[derive(Clone, Copy)]
pub struct TranslationRun<'a> {
    /// The translator.
    pub translator: &'a Translator,
    /// The grammar's text.
    pub grammar: Source<'a>,
    /// The folder for the tree files. If there is none, they are kept in memory.
    pub work: Option<&'a str>,
}

impl<'a> TranslationRun<'a> {
    /// Returns a run that keeps its tree files in memory.
    fn in_memory(translator: &'a Translator, grammar: Source<'a>) -> TranslationRun<'a>
        ensures translator { result.translator.now ≡ translator.now }
        ensures work { result.work ≡ None }
    {
        TranslationRun {
            translator,
            grammar,
            work: None,
        }
    }
}

impl TranslationRun<'_> {
    /// Reads a sentence, translates it, and writes the translation to the file at the path `output`
    /// or, if there is none, to standard output. Fails as `Session::read`, `translate` and
    /// `Session::write` do.
    pub fn deliver<R: Files + Input + Print + Eprint + Clock>(
        self,
        session: &mut Session<'_, R>,
        from: InputPath<'_>,
        output: Option<&str>,
    ) -> Result<(), FaultReport>
        ensures ran { OnOk result (Delivers self.entry.translator.now (path_of self.entry.work)
            from.entry (path_of output.entry) session.old.events session.new) }
        ensures refused { IfErr result (λ report. IsUndelivered self.entry.translator.now
            (path_of self.entry.work) from.entry (path_of output.entry) session.old.events session.new
            report.fault) }
    {
        let bytes = session.read(from)?;
        let text = self.translate(session, Source::new(from.name(), bytes.as_slice()))?;
        session.write(output, text.as_slice())
    }

    /// Returns the translation of a sentence. Shows the progress meanwhile. Fails as
    /// `WorkFiles::open` and `WorkFiles::translate` do.
    fn translate<R: Files + Eprint + Clock>(
        self,
        session: &mut Session<'_, R>,
        sentence: Source<'_>,
    ) -> Result<Vec<u8>, FaultReport>
        ensures opened { OnOk result
            (session.new.events ≡ opened (path_of self.entry.work) session.old.events) }
        ensures translated { IfOk result (λ text. Translated self.entry.translator.now
            (path_of self.entry.work) sentence.entry.bytes.now session.new text.items) }
        ensures refused { IfErr result (λ report. IsUntranslated self.entry.translator.now
            (path_of self.entry.work) sentence.entry.bytes.now session.old.events session.new
            report.fault) }
    {
        // the first tree file is that of pass 0, which the parser writes
        match session.progress(self.translator, 0) {
            Some(progress) => self.translate_watched(session, sentence, &progress),
            None => self.translate_watched(session, sentence, &Silent),
        }
    }

    /// Does what `translate` does, but shows what `watch` shows.
    fn translate_watched<R: Files, W: Watch>(
        self,
        session: &mut Session<'_, R>,
        sentence: Source<'_>,
        watch: &W,
    ) -> Result<Vec<u8>, FaultReport>
        ensures opened { OnOk result
            (session.new.events ≡ opened (path_of self.entry.work) session.old.events) }
        ensures translated { IfOk result (λ text. Translated self.entry.translator.now
            (path_of self.entry.work) sentence.entry.bytes.now session.new text.items) }
        ensures refused { IfErr result (λ report. IsUntranslated self.entry.translator.now
            (path_of self.entry.work) sentence.entry.bytes.now session.old.events session.new
            report.fault) }
    {
        let alloc = session.alloc;
        let Some(folder) = self.work else {
            let mut files = WorkFiles::in_memory(alloc).watched(watch);
            return self.translate_with(alloc, sentence, &mut files, watch);
        };
        match session.open_work(folder, watch) {
            Ok(mut files) => {
                let translated = self.translate_with(alloc, sentence, &mut files, watch);
                session.close_work(files);
                translated
            }
            Err(fault) => Err(self.report_of(alloc, fault, sentence)),
        }
    }

    /// Returns the translation of a sentence, made with the tree files `files`. Fails as
    /// `WorkFiles::translate` does.
    fn translate_with<D: WorkDevice, W: Watch>(
        self,
        alloc: Global,
        sentence: Source<'_>,
        files: &mut WorkFiles<D>,
        watch: &W,
    ) -> Result<Vec<u8>, FaultReport>
        ensures translates { IfOk result (λ text. (report : Report) × TranslatesSentence
            self.entry.translator.now sentence.entry.bytes.now
            (D.is_honest files.new.a) (D.is_honest files.new.b)
            (D.stored files.new.a) (D.stored files.new.b) (Some []) (Some text.items) report) }
        ensures refused { IfErr result (λ report. IsTranslationFault self.entry.translator.now
            sentence.entry.bytes.now (D.is_honest files.new.a) (D.is_honest files.new.b)
            (Some []) (Some []) report.fault) }
        ensures other { IfErr result (λ report. report.fault ≢ Fault.Write) }
    {
        let translated = files.translate(alloc, self.translator, sentence.bytes);
        watch.end();
        match translated {
            Ok(made) => Ok(made.text),
            Err(fault) => {
                let report = self.report_of(alloc, fault, sentence);
                let finder = CauseFinder {
                    translator: self.translator,
                    grammar: self.grammar,
                    sentence: Some(sentence),
                };
                Err(finder.with_cause(alloc, report, files))
            }
        }
    }

    /// Returns the report of a fault. With `--work`, the report names the folder of the tree files
    /// after F1 and D1. In all other cases returns the report of `report_of_sentence`.
    fn report_of(self, alloc: Global, fault: Fault, sentence: Source<'_>) -> FaultReport
        ensures { result.fault ≡ fault }
    {
        match (fault, self.work) {
            (fault @ (Fault::File | Fault::Device), Some(folder)) => {
                FaultReport::of_file(alloc, fault, folder)
            }
            (fault, _) => report_of_sentence(alloc, fault, self.translator, sentence),
        }
    }
}

/// Translates a job, with its tree files in memory, and prints the translation. Fails if the
/// grammar, the sentence or the translation is refused, if the output fails, and if memory is
/// refused.
fn translate_job<R: Files + Print + Eprint + Clock>(
    session: &mut Session<'_, R>,
    job: &Job,
) -> Result<(), FaultReport>
    ensures ran { OnOk result (DeliversJob job.now session.old.events session.new) }
    ensures refused { IfErr result (λ report.
        IsUndeliveredJob job.now session.old.events session.new report.fault) }
{
    let (grammar, sentence) = Source::of_job(job.grammar(), job.sentence());
    let translator = build_translator(session.alloc, grammar)?;
    let text = TranslationRun::in_memory(&translator, grammar).translate(session, sentence)?;
    session.write(None, text.as_slice())
}
