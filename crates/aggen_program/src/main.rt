//! `aggen`: translators from attribute grammars.
//!
//! - `run G S` translates the sentence in the file S by the grammar in the file G, and prints the
//!   translation.
//! - `eval G TREE` translates the tree in a tree file.
//! - Without arguments the program translates the job on standard input.
//! - `check G` checks a grammar, and prints its numbers of symbols and productions. `check --all G`
//!   lists all faults.
//! - `plan G` prints the passes of a grammar, and `code G` prints their instructions. `plan --all G`
//!   lists all faults for which it has none.
//! - `why G` prints why the passes are needed, and `why G SYMBOL.attribute` prints why no earlier
//!   pass can compute the attribute.
//! - `parse G S TREE` parses a sentence, and writes its tree to a tree file.
//! - `upgrade G OLD TREE` converts a tree file of version 1 to version 2.
//! - `show G TREE` prints the tree in a tree file.
//! - `explain G TREE` prints how values of a node were computed.
//! - `value EXPR` evaluates an expression, writes its value to a tree file in memory, and prints
//!   the value that it reads back.
#![tactic(auto)]

ghost use Rattle.std.specs.Prelude.{◌≡◌, Err, IfErr, IfOk, OnOk};
ghost use Rattle.std.specs.Result.{IsOkAnd};
ghost use Rattle.std.specs.Process.{exit_status};
ghost use Rattle.ag_fault.specs.Status.{status_of};
ghost use Rattle.aggen_program.specs.Requests.{HasRun, IsRefusedRequest, Performs, fault_of};
ghost use Rattle.program_io.specs.Sessions.{HasReported};

use aggen::{Fault, fault_or, status};
use command_line::{CommandLine, CommandLineFault, Request};
use grammar_commands::{Part, explain_plan, list_all, print_part, print_value};
use messages::FaultReport;
use program_io::Session;
use screen::Screen;
use std::alloc::AllocError;
use std::fs;
use std::io::IsTerminal;
use std::process::ExitCode;
use std::rt::{Clock, Env, Files};
use translation_commands::{evaluate, run_input, run_sentence, run_sentences};
use tree_commands::{convert_file, explain_tree, parse_file, show_tree};

/// A path that can be opened, but whose file can be neither read nor written.
const FOLDER: &str = "/";

/// Runs the program.
///
/// If a standard stream is closed, the system gives its file descriptor to the file that is opened
/// next. So the folder `/` is opened three times first, and kept open while the program runs.
/// Reading from a closed stream, or printing to one, then fails, and doesn't read or write a file
/// that the program opens later, such as a tree file.
fn main(rt: HostRuntime) -> ExitCode {
    let _input = fs::open(&rt, FOLDER);
    let _output = fs::open(&rt, FOLDER);
    let _errors = fs::open(&rt, FOLDER);
    exit_code(&rt, rt.stderr().is_terminal())
}

/// Runs the command of the command line, and returns the status. `is_terminal` says whether
/// standard error is a terminal. If the command line can't be read or parsed, messages are printed
/// without colour (`Screen::plain`).
fn exit_code<R: Env + Files + Input + Print + Eprint + Clock + AllocGlobal>(
    rt: &R,
    is_terminal: bool,
) -> ExitCode {
    let alloc = rt.alloc();
    let mut plain = Session::new(rt, alloc, Screen::plain());
    let words = match words_of(rt) {
        Ok(words) => words,
        Err(fault) => return fail(&mut plain, &FaultReport::new(alloc, fault)),
    };
    match CommandLine::from_words(rt, alloc, words.as_slice()) {
        Ok(CommandLine { request, messages }) => {
            let screen = Screen::new(rt, messages, is_terminal);
            run(&mut Session::new(rt, alloc, screen), &request)
        }
        // `from_words` has printed what is wrong with the words
        Err(CommandLineFault::Usage) => ExitCode::from(status(&Fault::Usage)),
        Err(fault) => fail(&mut plain, &FaultReport::new(alloc, fault_of(fault))),
    }
}

/// Runs the command of a request, and returns the status. On failure gives the message to the
/// screen, and returns the status of the fault.
fn run<R: Files + Input + Print + Eprint + Clock>(
    session: &mut Session<'_, R>,
    request: &Request<'_>,
) -> ExitCode
    ensures { HasRun request.now session.old session.new (exit_status result) }
{
    match perform(session, request) {
        Ok(code) => code,
        Err(report) => fail(session, &report),
    }
}

/// Gives the message of a failure to the screen, and returns the status of its fault.
fn fail<R: Eprint>(session: &mut Session<'_, R>, report: &FaultReport) -> ExitCode
    ensures reported { HasReported report.now session.old session.new }
    ensures status { exit_status result ≡ status_of report.now.fault }
{
    session.report(report);
    ExitCode::from(status(&report.fault))
}

/// Returns the program's fault for a fault of the command line.
fn fault_of(fault: CommandLineFault) -> Fault
    ensures { result ≡ fault_of fault }
{
    match fault {
        CommandLineFault::Usage => Fault::Usage,
        CommandLineFault::Write => Fault::Write,
        CommandLineFault::NoMemory => Fault::NoMemory,
    }
}

/// Runs the command of a request. Returns the status 0, with two exceptions. `run` with `--out-dir`
/// prints the messages of sentences that failed, and `--all` those of a grammar's faults: the status
/// is then that of the first. On any other failure returns the report of the failure.
fn perform<R: Files + Input + Print + Eprint + Clock>(
    session: &mut Session<'_, R>,
    request: &Request<'_>,
) -> Result<ExitCode, FaultReport>
    ensures performed { IfOk result (λ code.
        Performs request.now session.old session.new (exit_status code)) }
    ensures refused { IfErr result (λ report.
        IsRefusedRequest request.now session.old session.new report.fault) }
{
    match request {
        Request::Nothing => done(Ok(())),
        Request::Job => done(run_input(session)),
        Request::Run(paths) => done(run_sentence(session, paths)),
        Request::RunAll(paths) => run_sentences(session, paths),
        Request::Eval(paths) => done(evaluate(session, paths)),
        Request::Value(text) => done(print_value(session, text)),
        Request::Check(grammar) => done(print_part(session, *grammar, Part::Counts)),
        Request::CheckAll(words) => list_all(session, *words, Part::Counts),
        Request::Plan(grammar) => done(print_part(session, *grammar, Part::Plan)),
        Request::PlanAll(words) => list_all(session, *words, Part::Plan),
        Request::Why(words) => done(explain_plan(session, *words)),
        Request::Code(grammar) => done(print_part(session, *grammar, Part::Code)),
        Request::Parse(paths) => done(parse_file(session, paths)),
        Request::Show(words) => done(show_tree(session, words)),
        Request::Explain(words) => done(explain_tree(session, words)),
        Request::Upgrade(paths) => done(convert_file(session, paths)),
    }
}

/// Returns the status 0 for a command that succeeded.
fn done(performed: Result<(), FaultReport>) -> Result<ExitCode, FaultReport>
    ensures ok { OnOk performed (IsOkAnd result (λ code. exit_status code ≡ 0)) }
    ensures err { IfErr performed (λ report. result ≡ Err report) }
{
    match performed {
        Ok(()) => Ok(ExitCode::from(0)),
        Err(report) => Err(report),
    }
}

/// Returns the words of the command line; the first is the program's name. Fails with `Usage` if
/// one of them is not UTF-8, and with NoMemory if memory is refused.
fn words_of<R: Env + AllocGlobal>(rt: &R) -> Result<Vec<String>, Fault> {
    let words = match std::env::args(rt) {
        Ok(words) => words,
        Err(error) => return Err(fault_or(&error, Fault::Usage)),
    };
    let collected: Result<Vec<String>, AllocError> = words.collect(rt.alloc());
    Ok(collected?)
}
