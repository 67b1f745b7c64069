//! The request that a command line makes.

ghost use Rattle.std.specs.Prelude.{◌≡◌, ◌≢◌, ◌⊎◌, IfErr, IsErrOf};
ghost use Rattle.clap.specs.Values.{kind_of};

use crate::commands::{
    ALL, ATTRIBUTE, COLOR, EXPRESSION, GRAMMAR, MOST, OLD, OUT_DIR, OUTPUT, QUIET, SENTENCE, TREE,
    WORK, misuse_of, program,
};
use crate::fault::CommandLineFault;
use crate::input::{InputPath, STANDARD};
use crate::misuse::{check_once, check_sentences, check_tree};
use crate::plain::PlainLines;
use crate::tree_options::JSON;
use crate::tree_requests::{ExplainWords, ShowWords, explain_words, show_words};
use crate::values::{input_of, number_of, value_of, values_of};
use clap::error::ErrorKind;
use clap::{ArgMatches, Error};
use std::alloc::Global;

/// The greatest number of faults that `--all` lists, if `--most` is missing.
const DEFAULT_LISTED: u32 = 100;

/// The greatest value of `--most`.
const MAX_LISTED: u32 = 10_000;

/// A command line: its request, and how messages are printed.
#[derive(Drop)]
pub struct CommandLine<'a> {
    /// The request: what the program has to do.
    pub request: Request<'a>,
    /// How messages are printed.
    pub messages: Messages,
}

/// How the messages of refusals are printed.
#[derive(Clone, Copy)]
pub struct Messages {
    /// When the fault's number and the place are marked with colour.
    pub color: Color,
    /// Whether the progress and the messages of refusals are hidden. Messages about a wrong command
    /// line are printed all the same.
    pub is_quiet: bool,
}

/// When the number and the place of a message are marked with colour.
#[derive(Clone, Copy)]
pub enum Color {
    /// If standard error is a terminal, `TERM` is set and not `dumb`, and `NO_COLOR` is missing or
    /// empty. (A variable that is not UTF-8 counts as missing.) The program tests this, not this
    /// crate.
    Auto,
    /// Always.
    Always,
    /// Never.
    Never,
}

/// The request that a command line makes.
#[derive(Drop)]
pub enum Request<'a> {
    /// Nothing: help or the version has been printed.
    Nothing,
    /// The translation of the job on standard input: a grammar, the line `%%`, and a sentence.
    Job,
    /// The translation of a sentence.
    Run(RunPaths<'a>),
    /// The translation of several sentences, each to a file of its own.
    RunAll(BatchPaths<'a>),
    /// The translation of the tree in a tree file.
    Eval(EvalPaths<'a>),
    /// The value of this expression.
    Value(&'a str),
    /// The check of a grammar.
    Check(InputPath<'a>),
    /// The check of a grammar, with a list of all its faults.
    CheckAll(FaultWords<'a>),
    /// The passes of a grammar.
    Plan(InputPath<'a>),
    /// The passes of a grammar, or a list of all its faults.
    PlanAll(FaultWords<'a>),
    /// Why the passes of a grammar are needed, or why no earlier pass can compute an attribute.
    Why(WhyWords<'a>),
    /// The code of the passes of a grammar.
    Code(InputPath<'a>),
    /// The tree file of a sentence.
    Parse(ParsePaths<'a>),
    /// The tree in a tree file as text or JSON.
    Show(ShowWords<'a>),
    /// The rules that computed the values of a node in a tree file, or those in which errors arise.
    Explain(ExplainWords<'a>),
    /// The conversion of a tree file of version 1 to version 2.
    Upgrade(UpgradePaths<'a>),
}

/// The words that `run` takes for one sentence.
#[derive(Clone, Copy)]
pub struct RunPaths<'a> {
    /// The grammar.
    pub grammar: InputPath<'a>,
    /// The sentence.
    pub sentence: InputPath<'a>,
    /// The file for the translation, or `None` if the translation is printed.
    pub output: Option<&'a str>,
    /// The folder for the tree files, or `None` if they are kept in memory.
    pub work: Option<&'a str>,
}

/// The words that `run` takes with `--out-dir`: several sentences, or one.
#[derive(Drop)]
pub struct BatchPaths<'a> {
    /// The grammar.
    pub grammar: InputPath<'a>,
    /// The paths of the sentences' files, at least one. No two have the same `file_name_of`, and
    /// none is standard input.
    pub sentences: Vec<&'a str>,
    /// The folder for the translations.
    pub folder: &'a str,
    /// The folder for the tree files, or `None` if they are kept in memory.
    pub work: Option<&'a str>,
}

/// The words that `eval` takes.
#[derive(Clone, Copy)]
pub struct EvalPaths<'a> {
    /// The grammar.
    pub grammar: InputPath<'a>,
    /// The tree file.
    pub tree: InputPath<'a>,
    /// The file for the translation, or `None` if the translation is printed.
    pub output: Option<&'a str>,
    /// The folder for the tree files that are written, or `None` if they are kept in memory.
    pub work: Option<&'a str>,
}

/// The words that `check --all` and `plan --all` take.
#[derive(Clone, Copy)]
pub struct FaultWords<'a> {
    /// The grammar.
    pub grammar: InputPath<'a>,
    /// The greatest number of faults that are listed, from 1 to 10,000.
    pub most: usize,
    /// Whether each fault is printed as a JSON object.
    pub is_json: bool,
}

/// The words that `why` takes.
#[derive(Clone, Copy)]
pub struct WhyWords<'a> {
    /// The grammar.
    pub grammar: InputPath<'a>,
    /// The name of an attribute, or `None` if the whole grammar is explained.
    pub attribute: Option<&'a str>,
}

/// The words that `parse` takes.
#[derive(Clone, Copy)]
pub struct ParsePaths<'a> {
    /// The grammar.
    pub grammar: InputPath<'a>,
    /// The sentence.
    pub sentence: InputPath<'a>,
    /// The tree file that is written.
    pub tree: &'a str,
}

/// The words that `upgrade` takes.
#[derive(Clone, Copy)]
pub struct UpgradePaths<'a> {
    /// The grammar.
    pub grammar: InputPath<'a>,
    /// The tree file of version 1.
    pub old: &'a str,
    /// The tree file that is written.
    pub tree: &'a str,
}

impl<'a> CommandLine<'a> {
    /// Returns the command line of these words. The first word is the program's name. If help or
    /// the version is requested, prints this text on standard output, and fails with `Write` if it
    /// can't be printed. If the words are wrong, prints what is wrong on standard error, and fails
    /// with `Usage` even if that can't be printed. Fails with `NoMemory` if memory is refused.
    pub fn from_words<R: Print + Eprint>(
        rt: &R,
        alloc: Global,
        words: &'a [String],
    ) -> Result<CommandLine<'a>, CommandLineFault> {
        match parse(alloc, words) {
            Ok(line) => Ok(line),
            Err(error) => print_error(rt, alloc, &error),
        }
    }

    /// Returns the command line after help or the version was printed: there is nothing more to do.
    fn nothing() -> CommandLine<'a> {
        CommandLine {
            request: Request::Nothing,
            messages: Messages {
                color: Color::Auto,
                is_quiet: false,
            },
        }
    }
}

/// Parses the words of a command line. Fails with an error of clap: help, the version, what is
/// wrong, or refused memory.
fn parse<'a>(alloc: Global, words: &'a [String]) -> Result<CommandLine<'a>, Error> {
    let matches = program(alloc)?.try_get_matches_from(words)?;
    command_line_of(alloc, &matches)
}

/// Returns the command line that clap has parsed. Fails as `request_of` does.
fn command_line_of<'a>(alloc: Global, matches: &ArgMatches<'a>) -> Result<CommandLine<'a>, Error> {
    let Some((name, matches)) = matches.subcommand() else {
        return Ok(CommandLine {
            request: Request::Job,
            messages: messages_of(matches),
        });
    };
    let request = request_of(alloc, name, matches)?;
    Ok(CommandLine {
        request,
        messages: messages_of(matches),
    })
}

/// Returns how messages are printed.
fn messages_of(matches: &ArgMatches<'_>) -> Messages {
    let color = match matches.get_str(COLOR) {
        Some("always") => Color::Always,
        Some("never") => Color::Never,
        _ => Color::Auto,
    };
    Messages {
        color,
        is_quiet: matches.get_flag(QUIET),
    }
}

/// Returns the request that a command makes. `name` is the command's name, and `matches` are its
/// arguments as clap has parsed them. Fails with the error that clap prints if the words are wrong
/// although clap accepts them, or with the error of refused memory.
fn request_of<'a>(
    alloc: Global,
    name: &str,
    matches: &ArgMatches<'a>,
) -> Result<Request<'a>, Error> {
    match name {
        "run" => run_request(alloc, matches),
        "eval" => eval_request(alloc, matches),
        "value" => Ok(Request::Value(value_of(matches, EXPRESSION))),
        "check" => check_request(alloc, matches),
        "plan" => plan_request(alloc, matches),
        "parse" => parse_request(alloc, matches),
        "show" => show_request(alloc, matches),
        "explain" => explain_request(alloc, matches),
        "upgrade" => upgrade_request(alloc, matches),
        _ => Ok(grammar_request(name, matches)),
    }
}

/// Returns the request that a command about a grammar alone makes.
fn grammar_request<'a>(name: &str, matches: &ArgMatches<'a>) -> Request<'a> {
    let grammar = input_of(matches, GRAMMAR);
    match name {
        "why" => Request::Why(WhyWords {
            grammar,
            attribute: matches.get_str(ATTRIBUTE),
        }),
        "code" => Request::Code(grammar),
        // clap accepts no other command
        _ => Request::Job,
    }
}

/// Returns the request that `check` makes. Fails as `fault_words` does.
fn check_request<'a>(alloc: Global, matches: &ArgMatches<'a>) -> Result<Request<'a>, Error> {
    if !matches.get_flag(ALL) {
        return Ok(Request::Check(input_of(matches, GRAMMAR)));
    }
    Ok(Request::CheckAll(fault_words(alloc, "check", matches)?))
}

/// Returns the request that `plan` makes. Fails as `fault_words` does.
fn plan_request<'a>(alloc: Global, matches: &ArgMatches<'a>) -> Result<Request<'a>, Error> {
    if !matches.get_flag(ALL) {
        return Ok(Request::Plan(input_of(matches, GRAMMAR)));
    }
    Ok(Request::PlanAll(fault_words(alloc, "plan", matches)?))
}

/// Returns the words that the command `name` takes with `--all`. Fails with the error that clap
/// prints if the value of `--most` is not a number from 1 to `MAX_LISTED`.
fn fault_words<'a>(
    alloc: Global,
    name: &str,
    matches: &ArgMatches<'a>,
) -> Result<FaultWords<'a>, Error> {
    match number_of(matches, MOST, DEFAULT_LISTED) {
        Some(most @ 1..=MAX_LISTED) => Ok(FaultWords {
            grammar: input_of(matches, GRAMMAR),
            most: most as usize,
            is_json: matches.get_flag(JSON),
        }),
        _ => Err(misuse_of(alloc, name, "'--most <N>' needs a number from 1 to 10000")),
    }
}

/// Returns the request that `run` makes. Fails as `request_of` does.
fn run_request<'a>(alloc: Global, matches: &ArgMatches<'a>) -> Result<Request<'a>, Error> {
    match matches.get_str(OUT_DIR) {
        Some(folder) => Ok(Request::RunAll(batch_paths(alloc, matches, folder)?)),
        None => Ok(Request::Run(run_paths(alloc, matches)?)),
    }
}

/// Returns the words that `run` takes with `--out-dir`, whose value is `folder`. Fails as
/// `request_of` does.
fn batch_paths<'a>(
    alloc: Global,
    matches: &ArgMatches<'a>,
    folder: &'a str,
) -> Result<BatchPaths<'a>, Error> {
    let sentences = values_of(alloc, matches, SENTENCE)?;
    check_sentences(alloc, sentences.as_slice())?;
    Ok(BatchPaths {
        grammar: input_of(matches, GRAMMAR),
        sentences,
        folder,
        work: matches.get_str(WORK),
    })
}

/// Returns the words that `run` takes for one sentence. Fails as `request_of` does.
fn run_paths<'a>(alloc: Global, matches: &ArgMatches<'a>) -> Result<RunPaths<'a>, Error> {
    check_single(alloc, matches)?;
    let grammar = input_of(matches, GRAMMAR);
    let sentence = input_of(matches, SENTENCE);
    check_once(alloc, "run", [grammar, sentence])?;
    Ok(RunPaths {
        grammar,
        sentence,
        output: output_of(matches),
        work: matches.get_str(WORK),
    })
}

/// Fails if `run` has several sentences.
fn check_single(alloc: Global, matches: &ArgMatches<'_>) -> Result<(), Error> {
    if 1 < matches.get_strs(SENTENCE).unwrap_or(&[]).len() {
        return Err(misuse_of(alloc, "run", "several sentences need '--out-dir <DIR>'"));
    }
    Ok(())
}

/// Returns the request that `show` makes. Fails as `request_of` does.
fn show_request<'a>(alloc: Global, matches: &ArgMatches<'a>) -> Result<Request<'a>, Error> {
    Ok(Request::Show(show_words(alloc, matches)?))
}

/// Returns the request that `explain` makes. Fails as `request_of` does.
fn explain_request<'a>(alloc: Global, matches: &ArgMatches<'a>) -> Result<Request<'a>, Error> {
    Ok(Request::Explain(explain_words(alloc, matches)?))
}

/// Returns the request that `eval` makes. Fails as `request_of` does.
fn eval_request<'a>(alloc: Global, matches: &ArgMatches<'a>) -> Result<Request<'a>, Error> {
    let grammar = input_of(matches, GRAMMAR);
    let tree = input_of(matches, TREE);
    check_once(alloc, "eval", [grammar, tree])?;
    Ok(Request::Eval(EvalPaths {
        grammar,
        tree,
        output: output_of(matches),
        work: matches.get_str(WORK),
    }))
}

/// Returns the request that `parse` makes. Fails as `request_of` does.
fn parse_request<'a>(alloc: Global, matches: &ArgMatches<'a>) -> Result<Request<'a>, Error> {
    let grammar = input_of(matches, GRAMMAR);
    let sentence = input_of(matches, SENTENCE);
    let tree = value_of(matches, TREE);
    check_once(alloc, "parse", [grammar, sentence])?;
    check_tree(alloc, "parse", tree)?;
    Ok(Request::Parse(ParsePaths {
        grammar,
        sentence,
        tree,
    }))
}

/// Returns the request that `upgrade` makes. Fails as `request_of` does.
fn upgrade_request<'a>(alloc: Global, matches: &ArgMatches<'a>) -> Result<Request<'a>, Error> {
    let old = value_of(matches, OLD);
    let tree = value_of(matches, TREE);
    check_tree(alloc, "upgrade", old)?;
    check_tree(alloc, "upgrade", tree)?;
    Ok(Request::Upgrade(UpgradePaths {
        grammar: input_of(matches, GRAMMAR),
        old,
        tree,
    }))
}

/// Returns the file for the translation. None if the translation is printed: no file is named, or
/// the word is `-`.
fn output_of<'a>(matches: &ArgMatches<'a>) -> Option<&'a str> {
    match matches.get_str(OUTPUT) {
        Some(path) if path != STANDARD => Some(path),
        _ => None,
    }
}

/// Prints help, the version, or what is wrong with the words. Returns a command line whose request
/// is `Nothing` if help or the version was printed. Fails with `Write` if help or the version can't
/// be printed, with `Usage` if something is wrong with the words, and with `NoMemory` if the error
/// is that of refused memory.
fn print_error<'a, R: Print + Eprint>(
    rt: &R,
    alloc: Global,
    error: &Error,
) -> Result<CommandLine<'a>, CommandLineFault>
    ensures memory { kind_of error.now ≡ ErrorKind.OutOfMemory → IsErrOf result CommandLineFault.NoMemory }
    ensures help { (kind_of error.now ≡ ErrorKind.DisplayHelp) ⊎ (kind_of error.now ≡ ErrorKind.DisplayVersion)
        → IfErr result (λ e. e ≡ CommandLineFault.Write) }
    ensures usage { kind_of error.now ≢ ErrorKind.OutOfMemory → kind_of error.now ≢ ErrorKind.DisplayHelp
        → kind_of error.now ≢ ErrorKind.DisplayVersion → IsErrOf result CommandLineFault.Usage }
{
    if error.kind() == ErrorKind::OutOfMemory {
        return Err(CommandLineFault::NoMemory);
    }
    if error.exit_code() != 0 {
        print_misuse(rt, alloc, error);
        return Err(CommandLineFault::Usage);
    }
    if error.print(rt).is_err() {
        return Err(CommandLineFault::Write);
    }
    Ok(CommandLine::nothing())
}

/// Prints on standard error what is wrong with the words of a command line. Control characters,
/// except line feeds, are printed as escapes.
fn print_misuse<R: Eprint>(rt: &R, alloc: Global, error: &Error) {
    // if the message can't be printed, the exit status says enough
    if let Ok(text) = error.to_string(alloc) {
        let _ = rt.eprint(&PlainLines(text.as_str()));
    }
}
