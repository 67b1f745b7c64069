//! How messages are printed.

use crate::progress::Progress;
use aggen::{Fault, Translator};
use command_line::{Color, Messages};
use message_parts::Location;
use messages::{FaultReport, Position};
use std::alloc::Global;
use std::rt::{Clock, Env};

/// The control characters before the fault's number: what follows is bold and red.
const NUMBER: &str = "\u{1b}[1;31m";

/// The control characters before the place (a file with line and column, or a file alone): what
/// follows is bold.
const PLACE: &str = "\u{1b}[1m";

/// The control characters after a marked part.
const END: &str = "\u{1b}[0m";

/// How messages are printed, and whether the progress of a translation is shown.
#[derive(Clone, Copy)]
pub struct Screen {
    /// Whether only messages about a misused command line are printed.
    is_quiet: bool,
    /// Whether messages are marked: the fault's number is bold and red, and the place is bold.
    is_marked: bool,
    /// Whether the progress of translations is shown.
    shows_progress: bool,
}

impl Screen {
    /// Returns the screen for messages before the command line is parsed, and for a command line
    /// that can't be parsed. All messages are printed, and none is marked. No progress is shown.
    pub fn plain() -> Screen {
        Screen {
            is_quiet: false,
            is_marked: false,
            shows_progress: false,
        }
    }

    /// Returns the screen for a command line's `messages`. `is_terminal` says whether standard
    /// error is a terminal.
    ///
    /// With `Color::Always` messages are marked, and with `Color::Never` they are not. With
    /// `Color::Auto` they are marked if standard error is a terminal that isn't dumb (`is_dumb`)
    /// and the environment variable `NO_COLOR` allows it (`allows_colors`). Progress is shown if
    /// standard error is a terminal that isn't dumb and messages aren't quiet.
    pub fn new<R: Env + AllocGlobal>(rt: &R, messages: Messages, is_terminal: bool) -> Screen {
        let is_marked = match messages.color {
            Color::Always => true,
            Color::Never => false,
            Color::Auto => is_terminal && allows_colors(rt) && !is_dumb(rt),
        };
        Screen {
            is_quiet: messages.is_quiet,
            is_marked,
            shows_progress: is_terminal && !messages.is_quiet && !is_dumb(rt),
        }
    }

    /// Returns the progress of a translation that begins now. The first tree file that is written
    /// is that of pass `first`: 0 if a sentence is parsed, and 1 if the tree is read from a file.
    /// (With 1, nothing is shown while pass 1 runs: the pass reads a device that is not watched.)
    /// Returns `None` if no progress is shown, or the clock can't be read.
    pub fn progress<'a, R: Clock + Eprint>(
        self,
        rt: &'a R,
        translator: &Translator,
        first: u16,
    ) -> Option<Progress<'a, R>> {
        if !self.shows_progress {
            return None;
        }
        let began = rt.monotonic().ok()?;
        let passes = translator.plan().assignment().passes();
        Some(Progress::new(rt, began, passes, first))
    }

    /// Prints a message on standard error: `line`, the line of the report. If messages are quiet,
    /// prints it only if it is about a misused command line. Without `line`, since memory for it was
    /// refused, prints the report part by part; so too if memory for the marks is refused, but then
    /// without marks. A failure to print is ignored: the exit status still depends on the fault.
    pub fn print<R: Eprint>(self, rt: &R, alloc: Global, report: &FaultReport, line: Option<&str>) {
        if self.is_quiet && !matches!(report.fault, Fault::Usage) {
            return;
        }
        let marked = match line {
            Some(line) if self.is_marked => marked_line(alloc, report, line),
            _ => None,
        };
        let _ = match marked {
            Some(line) => rt.eprintln(&line),
            None => rt.eprintln(report),
        };
    }

    /// Prints a line about a refusal on standard error, unless messages are quiet. A failure to
    /// print is ignored.
    pub fn print_line<R: Eprint>(self, rt: &R, line: &str) {
        if !self.is_quiet {
            let _ = rt.eprintln(&line);
        }
    }
}

/// Returns whether the environment allows colours: `NO_COLOR` is missing or empty, or can't be
/// read.
fn allows_colors<R: Env + AllocGlobal>(rt: &R) -> bool {
    std::env::var(rt, "NO_COLOR").map_or(true, |value| value.is_empty())
}

/// Returns whether the terminal is dumb, which means that it shows text alone: `TERM` is `dumb` or
/// missing, or can't be read.
fn is_dumb<R: Env + AllocGlobal>(rt: &R) -> bool {
    std::env::var(rt, "TERM").map_or(true, |value| value.as_str() == "dumb")
}

/// Returns `line`, the line of a report, with the fault's number and the place marked; `None` if
/// memory is refused. The number is the part before the first space, without the colon in
/// `usage: ..`. The place is a file with line and column, which comes before the parts, or a file
/// alone, at the end of the line. A position without a file is not marked.
fn marked_line(alloc: Global, report: &FaultReport, line: &str) -> Option<String> {
    let word = line.split(' ').next()?;
    let (number, rest) = line.split_at_checked(word.trim_end_matches(':').len())?;
    let file = match &report.file {
        Some(file) if !file.is_empty() => file.as_str(),
        _ => return format!(in alloc; "{NUMBER}{number}{END}{rest}").ok(),
    };
    let place = match report.location {
        Location::At(Position { line, column }) => format!(in alloc; "{file}:{line}:{column}"),
        Location::Whole | Location::InFault => String::from_str(alloc, file),
    };
    let place = place.ok()?;
    let (before, after) = match report.location {
        Location::At(_) => rest.split_once(place.as_str())?,
        Location::Whole | Location::InFault => rest.rsplit_once(place.as_str())?,
    };
    format!(in alloc; "{NUMBER}{number}{END}{before}{PLACE}{place}{END}{after}").ok()
}
