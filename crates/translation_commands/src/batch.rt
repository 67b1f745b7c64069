//! The command that translates several sentences: `run` with a folder for the translations.

ghost use Rattle.std.specs.Prelude.{◌≡◌, IfErr, IfOk, None, map};
ghost use Rattle.std.specs.Process.{exit_status};
ghost use Rattle.program_io.specs.Sessions.{IsInputFault, path_of};
ghost use Rattle.translation_commands.specs.Batches.{AreDone, IsDone, IsRefusedBatch, RunsBatch};
ghost use Rattle.translation_commands.specs.Batches.{sooner, status_of_first};

use crate::translations::TranslationRun;
use aggen::{Fault, status};
use command_line::{BatchPaths, InputPath, file_name_of};
use message_parts::display::PlainText;
use messages::{FaultReport, Source};
use program_io::{CheckedInput, FileId, INPUT_IS_WRITTEN, Session, build_translator, path_in};
use std::alloc::{AllocError, Global};
use std::process::ExitCode;
use std::rt::{Clock, Files};

/// Translates each sentence, and writes its translation to a file of its own. The grammar is read
/// once, before the sentences. If a sentence can't be read or translated, or its translation can't
/// be written, prints a message and continues with the next sentence. Returns the status of the
/// first sentence that failed in one of these ways; 0 if none did.
///
/// Fails only before a sentence is read:
/// - if a translation's file is one of the inputs (`usage`);
/// - if an input or a translation's file is one of the tree files of `--work` (`usage`);
/// - if one of these tree files is a folder or a pipe (F1);
/// - if the folder for the translations is missing, can't be examined or is not a folder (F1);
/// - if the grammar can't be read or is refused;
/// - if memory is refused.
pub fn run_sentences<R: Files + Input + Print + Eprint + Clock>(
    session: &mut Session<'_, R>,
    paths: &BatchPaths<'_>,
) -> Result<ExitCode, FaultReport>
    ensures ran { IfOk result (λ code.
        RunsBatch paths.now session.old session.new (exit_status code)) }
    ensures refused { IfErr result (λ report.
        IsRefusedBatch paths.now session.old session.new report.fault) }
{
    let alloc = session.alloc;
    let Ok(tasks) = tasks_of(alloc, paths) else {
        return Err(FaultReport::new(alloc, Fault::NoMemory));
    };
    check_batch(session, paths, tasks.as_slice())?;
    let text = session.read(paths.grammar)?;
    let grammar = Source::new(paths.grammar.name(), text.as_slice());
    let translator = build_translator(alloc, grammar)?;
    let run = TranslationRun {
        translator: &translator,
        grammar,
        work: paths.work,
    };
    let first = translate_each(session, run, tasks.as_slice());
    Ok(ExitCode::from(first.unwrap_or(0)))
}

/// A sentence of a batch: the path of its file, and that of its translation.
#[derive(Drop)]
struct Task<'a> {
    sentence: &'a str,
    output: String,
}

/// Returns the sentences with the paths of their translations: DIR/NAME.out for the sentence at
/// PATH/NAME, where DIR is the folder for the translations. Fails if memory is refused.
fn tasks_of<'a>(alloc: Global, paths: &BatchPaths<'a>) -> Result<Vec<Task<'a>>, AllocError>
    ensures { IfOk result (λ tasks.
        map (λ task. task.sentence) tasks.items ≡ paths.now.sentences.items) }
{
    let mut tasks = Vec::new(alloc);
    for sentence in paths.sentences.iter() {
        let name = format!(in alloc; "{}.out", file_name_of(sentence))?;
        let output = path_in(alloc, paths.folder, name.as_str())?;
        tasks.push(Task {
            sentence: *sentence,
            output,
        })?;
    }
    Ok(tasks)
}

/// Translates each sentence, and prints a message for each that fails. Returns the status of the
/// first sentence that failed, if one did.
fn translate_each<R: Files + Input + Print + Eprint + Clock>(
    session: &mut Session<'_, R>,
    run: TranslationRun<'_>,
    tasks: &[Task<'_>],
) -> Option<u8>
    ensures { AreDone run.entry.translator.now (path_of run.entry.work) tasks.now session.old
        session.new None result }
{
    let mut first = None;
    for task in tasks {
        first = sooner(first, translate(session, run, task));
    }
    first
}

/// Returns the status of the first sentence that failed, from that of the first of the sentences
/// before and that of the last one.
fn sooner(first: Option<u8>, last: Option<u8>) -> Option<u8>
    ensures { result ≡ sooner first last }
{
    match first {
        Some(status) => Some(status),
        None => last,
    }
}

/// Translates a sentence, and writes the translation to its file. Prints a message if that fails,
/// and returns the status. The message names the sentence, with two exceptions: one about refused
/// memory, and one for which memory for the name is refused.
fn translate<R: Files + Input + Print + Eprint + Clock>(
    session: &mut Session<'_, R>,
    run: TranslationRun<'_>,
    task: &Task<'_>,
) -> Option<u8>
    ensures { IsDone run.entry.translator.now (path_of run.entry.work) task.now session.old
        session.new result }
{
    let path = task.sentence;
    match run.deliver(session, InputPath::File(path), Some(task.output.as_str())) {
        Ok(()) => None,
        Err(report) => {
            let report = with_sentence(session.alloc, report, path);
            session.report(&report);
            Some(status(&report.fault))
        }
    }
}

/// Fails as `run_sentences` does before it reads the grammar.
fn check_batch<R: Files>(
    session: &Session<'_, R>,
    paths: &BatchPaths<'_>,
    tasks: &[Task<'_>],
) -> Result<(), FaultReport>
    ensures { IfErr result (λ report. IsInputFault report.fault) }
{
    let inputs = session.granted(inputs_of(session.alloc, paths))?;
    let ids = session.check_inputs(inputs.as_slice(), paths.work)?;
    for task in tasks {
        session.check_output(Some(task.output.as_str()), ids.as_slice(), paths.work)?;
    }
    match session.granted(FileId::of_folder(session.rt, paths.folder))? {
        Some(_) => Ok(()),
        None => Err(FaultReport::of_file(session.alloc, Fault::File, paths.folder)),
    }
}

/// Returns the grammar and the sentences, in this order. Fails if memory is refused.
fn inputs_of<'a>(
    alloc: Global,
    paths: &BatchPaths<'a>,
) -> Result<Vec<CheckedInput<'a>>, AllocError> {
    let mut inputs = Vec::new(alloc);
    inputs.push(CheckedInput(paths.grammar, INPUT_IS_WRITTEN))?;
    for sentence in paths.sentences.iter() {
        inputs.push(CheckedInput(InputPath::File(*sentence), INPUT_IS_WRITTEN))?;
    }
    Ok(inputs)
}

/// Returns a report with the path of the sentence. If the report has no file, the path becomes its
/// file. If it has one, and its fault is F1, D1 or O2, it names the file that failed: if that is
/// not the sentence, then appends the path to the part `found`. Returns any other report, and one
/// of NoMemory, unchanged.
fn with_sentence(alloc: Global, mut report: FaultReport, path: &str) -> FaultReport
    ensures { result.fault ≡ report.fault }
{
    if matches!(report.fault, Fault::NoMemory) {
        return report;
    }
    if report.file.is_none() {
        return report.with_file(alloc, path);
    }
    if is_named(alloc, &report.file, path) {
        return report;
    }
    if matches!(report.fault, Fault::File | Fault::Device | Fault::Write) {
        let written = write!(report.parts.found, "for the sentence {}", PlainText(path));
        return report.or_bare(written);
    }
    report
}

/// Says whether the file of a report is the one at `path`; false if memory is refused.
fn is_named(alloc: Global, file: &Option<String>, path: &str) -> bool {
    match (file, PlainText(path).to_string(alloc)) {
        (Some(file), Ok(name)) => file.as_str() == name.as_str(),
        _ => false,
    }
}
