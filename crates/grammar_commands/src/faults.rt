//! The commands `check --all` and `plan --all`, which list all faults of a grammar.

ghost use Rattle.std.specs.Prelude.{◌≡◌, ◌<◌, ◌≤◌, ◌⊎◌, [], IfErr, IfOk, None, OnOk, length, string_bytes, true};
ghost use Rattle.std.specs.Process.{exit_status};
ghost use Rattle.grammar_commands.specs.FaultLists.{AreListed, AreObjects, AreObjectsOf, ArePrinted, AreShown};
ghost use Rattle.grammar_commands.specs.FaultLists.{IsNoList, IsNotPrinted, IsObjectLine, IsObjectOf, IsUnshown};
ghost use Rattle.grammar_commands.specs.FaultLists.{PrintsFaultless};
ghost use Rattle.grammar_commands.specs.FaultLists.{AreReported, HasNoneListed, HasNotPrinted, IsNotListed};
ghost use Rattle.grammar_commands.specs.FaultLists.{IsRefusedList, ListsAll, ListsOrAccepts, PrintsObject};
ghost use Rattle.grammar_commands.specs.FaultLists.{total_line};
ghost use Rattle.grammar_commands.specs.Listings.{IsPartFault, IsPartOf};
ghost use Rattle.ag_fault.specs.Status.{status_of};
ghost use Rattle.program_io.specs.Sessions.{IsOutputFault, after};
ghost use Rattle.run_record.specs.Events.{report_event};

use crate::found::{FoundFaults, faults_in};
use crate::listings::{Part, text_of_part};
use aggen::{Fault, status};
use command_line::FaultWords;
use fault_objects::{FaultDetails, object_line, rest_line};
use message_texts::grammar_text::GrammarText;
use messages::{FaultReport, Source};
use program_io::Session;
use std::alloc::{AllocError, Global};
use std::process::ExitCode;
use std::rt::Files;

/// Reads a grammar. If it has faults (G, or else N, or else L and A if `part` is the passes), gives
/// the messages of the first `words.most` to the screen, and then the number of all, if there are
/// two or more. Faults N6 of one production have one message, and count as one. Returns the status
/// of the first fault.
///
/// Otherwise prints what `part` selects, as `print_part` does, and returns the status 0. Fails as
/// this does.
///
/// If `words.is_json`, prints an object in one line for each fault instead, on standard output, and
/// nothing for an accepted grammar. A failure for which `print_part` fails, other than O2, is then
/// also printed as an object, and its status returned.
pub fn list_all<R: Files + Input + Print + Eprint>(
    session: &mut Session<'_, R>,
    words: FaultWords<'_>,
    part: Part,
) -> Result<ExitCode, FaultReport>
    ensures listed { IfOk result (λ code.
        ListsAll part words.entry session.old session.new (exit_status code)) }
    ensures refused { IfErr result (λ report.
        IsRefusedList part words.entry session.old.events session.new.events report.fault) }
    // G and N are listed, and no reasons to fail
    ensures other { IfErr result (λ report. IsNotListed report.fault) }
{
    match list_faults(session, words, part) {
        Err(report) if words.is_json && !matches!(report.fault, Fault::Write) => {
            print_refusal(session, &report)
        }
        listed => listed,
    }
}

/// Lists the faults as `list_all` does, but prints no object of a failure.
#[tactic(auto, using(crate::proofs::Unshown::unshown))]
fn list_faults<R: Files + Input + Print + Eprint>(
    session: &mut Session<'_, R>,
    words: FaultWords<'_>,
    part: Part,
) -> Result<ExitCode, FaultReport>
    ensures listed { IfOk result (λ code.
        ListsOrAccepts part words.entry session.old session.new (exit_status code)) }
    ensures refused { IfErr result (λ report.
        IsNoList part words.entry session.old.events session.new.events report.fault) }
    ensures other { IfErr result (λ report. IsNotListed report.fault) }
{
    let bytes = session.read(words.grammar)?;
    let source = Source::new(words.grammar.name(), bytes.as_slice());
    let found = session.granted(faults_in(session.alloc, source.bytes, part))?;
    let Some(first) = found.lines.as_slice().first() else {
        print_faultless(session, source, words, part)?;
        return Ok(ExitCode::from(0));
    };
    let code = status(first);
    show_faults(session, source, found, words)?;
    Ok(ExitCode::from(code))
}

/// Prints the objects of faults, or gives their messages to the screen. Fails as `print_objects` and
/// `report_faults` do.
fn show_faults<R: Files + Print + Eprint>(
    session: &mut Session<'_, R>,
    source: Source<'_>,
    found: FoundFaults,
    words: FaultWords<'_>,
) -> Result<(), FaultReport>
    ensures shown { OnOk result
        (AreShown words.entry.is_json words.entry.most found.lines.items session.old session.new) }
    ensures refused { IfErr result (λ report. IsUnshown words.entry.is_json session.old.events
        session.new.events report.fault) }
{
    if words.is_json {
        print_objects(session, source, found, words.most)
    } else {
        report_faults(session, source, found, words.most)
    }
}

/// Prints what `part` selects about a grammar without faults; nothing if `words.is_json`. Fails as
/// `text_of_part` and `Session::write` do.
fn print_faultless<R: Files + Print>(
    session: &mut Session<'_, R>,
    source: Source<'_>,
    words: FaultWords<'_>,
    part: Part,
) -> Result<(), FaultReport>
    requires none { HasNoneListed source.bytes.now }
    ensures printed { OnOk result (PrintsFaultless part words.entry.is_json source.entry.bytes.now
        session.old.events session.new.events) }
    ensures refused { IfErr result (λ report. IsNotPrinted part source.entry.bytes.now
        session.old.events session.new.events report.fault) }
    ensures other { IfErr result (λ report. IsNotListed report.fault) }
{
    match text_if_faultless(session.alloc, source.bytes, part) {
        Ok(text) if !words.is_json => session.write(None, text.as_slice()),
        Ok(_) => Ok(()),
        Err(fault) => Err(FaultReport::of_grammar(session.alloc, fault, source)),
    }
}

/// Returns the lines that `part` selects about the grammar in a text. Fails as `text_of_part` does.
fn text_if_faultless(alloc: Global, text: &[u8], part: Part) -> Result<Vec<u8>, Fault>
    requires none { HasNoneListed text.now }
    ensures lines { IfOk result (λ lines. IsPartOf part text.now lines.items) }
    ensures refused { IfErr result (λ e. IsPartFault part text.now e) }
    ensures other { IfErr result (λ e. IsNotListed e) }
{
    text_of_part(alloc, text, part)
}

/// Gives the messages of the first `most` faults to the screen, and then the number of all if there
/// are two or more. Fails with NoMemory, before any message.
fn report_faults<R: Eprint>(
    session: &mut Session<'_, R>,
    source: Source<'_>,
    found: FoundFaults,
    most: usize,
) -> Result<(), FaultReport>
    ensures listed { OnOk result (AreListed most found.lines.items session.old session.new) }
    ensures refused { IfErr result (λ report.
        (report.fault ≡ Fault.NoMemory) × (session.new ≡ session.old)) }
{
    let FoundFaults { lines, raw, normal } = found;
    let count = lines.len();
    let mut shown = lines;
    shown.truncate(most);
    let total = session.granted(total_line(session.alloc, count, shown.len()))?;
    let text = GrammarText::of_read(session.alloc, source, raw, normal, true);
    report_each(session, &text, shown);
    report_total(session, total.as_str(), count);
    Ok(())
}

/// Gives the last line to the screen if there are two lines of faults or more.
fn report_total<R: Eprint>(session: &mut Session<'_, R>, total: &str, count: usize)
    ensures several { 1 < count → session.new ≡ after (report_event true total.now) session.old }
    ensures single { count ≤ 1 → session.new ≡ session.old }
{
    if count > 1 {
        session.report_line(total);
    }
}

/// Returns the line with the number of faults and the number of shown ones.
fn total_line(alloc: Global, count: usize, shown: usize) -> Result<String, AllocError>
    ensures { IfOk result (λ line. string_bytes line ≡ total_line count shown) }
{
    let mut line = String::new(alloc);
    write!(line, "{count} faults, {shown} shown")?;
    Ok(line)
}

/// Gives the message of each fault to the screen.
fn report_each<R: Eprint>(session: &mut Session<'_, R>, text: &GrammarText<'_>, faults: Vec<Fault>)
    ensures { AreReported faults.items session.old session.new }
{
    for fault in faults {
        let report = FaultReport::of_read_grammar(session.alloc, fault, text);
        session.report(&report);
    }
}

/// Prints the objects of the first `most` faults, and then one with the number of the others, if
/// there are any. Fails with NoMemory before anything is printed, and as `Session::write` does.
fn print_objects<R: Files + Print>(
    session: &mut Session<'_, R>,
    source: Source<'_>,
    found: FoundFaults,
    most: usize,
) -> Result<(), FaultReport>
    ensures printed { OnOk result (ArePrinted most found.lines.items session.old session.new) }
    ensures refused { IfErr result (λ report. IsOutputFault report.fault
        × HasNotPrinted session.old.events session.new.events) }
{
    let FoundFaults { lines, raw, normal } = found;
    let text = GrammarText::of_read(session.alloc, source, raw, normal, true);
    let objects = session.granted(objects_of(session.alloc, &text, lines, most))?;
    session.write(None, objects.as_bytes())
}

/// Returns the lines with the objects of the first `most` faults, and one with the number of the
/// others, if there are any.
fn objects_of(
    alloc: Global,
    text: &GrammarText<'_>,
    faults: Vec<Fault>,
    most: usize,
) -> Result<String, AllocError>
    ensures { IfOk result (λ lines. AreObjects most faults.items (string_bytes lines)) }
{
    let others = faults.len().saturating_sub(most);
    let mut shown = faults;
    shown.truncate(most);
    let mut lines = lines_of_objects(alloc, text, shown)?;
    if others > 0 {
        lines.push_str(rest_line(alloc, others as u64)?.as_str())?;
    }
    Ok(lines)
}

/// Returns the lines with the objects of faults.
fn lines_of_objects(
    alloc: Global,
    text: &GrammarText<'_>,
    faults: Vec<Fault>,
) -> Result<String, AllocError>
    ensures { IfOk result (λ lines. AreObjectsOf faults.items (string_bytes lines)) }
{
    let mut lines = String::new(alloc);
    for fault in faults {
        let line = line_of_fault(alloc, text, fault)?;
        lines.push_str(line.as_str())?;
    }
    Ok(lines)
}

/// Returns the line with the object of a fault.
fn line_of_fault(alloc: Global, text: &GrammarText<'_>, fault: Fault) -> Result<String, AllocError>
    ensures { IfOk result (λ line. IsObjectOf fault (string_bytes line)) }
{
    let report = FaultReport::of_read_grammar(alloc, fault, text);
    let details = FaultDetails::of(alloc, &report.fault, text)?;
    object_line(alloc, &report, &details)
}

/// Returns the line with the object of a failure.
fn line_of_refusal(alloc: Global, report: &FaultReport) -> Result<String, AllocError>
    ensures { IfOk result (λ line. IsObjectLine report.now (string_bytes line)) }
{
    let details = FaultDetails::none(alloc);
    object_line(alloc, report, &details)
}

/// Prints the object of a failure, and returns its status.
fn print_refusal<R: Files + Print>(
    session: &mut Session<'_, R>,
    report: &FaultReport,
) -> Result<ExitCode, FaultReport>
    ensures printed { IfOk result (λ code. PrintsObject report.now session.old session.new
        × (exit_status code ≡ status_of report.now.fault)) }
    ensures refused { IfErr result (λ e. IsOutputFault e.fault
        × HasNotPrinted session.old.events session.new.events) }
{
    let line = session.granted(line_of_refusal(session.alloc, report))?;
    session.write(None, line.as_bytes())?;
    Ok(ExitCode::from(status(&report.fault)))
}
