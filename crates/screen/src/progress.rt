//! The progress of a translation, shown on a terminal.

use crate::progress_lines::ProgressLine;
use aggen_files::Watch;
use std::cell::Cell;
use std::rt::Clock;
use std::time::Duration;

/// The time from the beginning of a translation until its first line is due, in milliseconds.
const DELAY: u64 = 2_000;

/// The time from a line until the next one is due, in milliseconds.
const INTERVAL: u64 = 200;

/// The progress of a translation. After two seconds, calls of the devices show a line on standard
/// error. The line says that the sentence is being parsed or, in a pass, the number of the pass and
/// the percentage of its input file that has been read. Failed writes of the line are ignored.
#[derive(Drop)]
pub struct Progress<'a, R> {
    rt: &'a R,
    /// The number of passes.
    passes: u16,
    /// The time of the monotonic clock from which on the next line is due.
    next: Cell<Duration>,
    /// Whether a line is shown.
    is_shown: Cell<bool>,
    /// The pass of the first tree file that is written: 0 if a sentence is parsed first.
    first: u16,
    /// The number of tree files that were begun so far: one by the parser, if a sentence is parsed,
    /// and one by each pass.
    written: Cell<u16>,
    /// The number of calls that appended, modulo 256.
    appends: Cell<u8>,
}

impl<'a, R: Clock + Eprint> Progress<'a, R> {
    /// Returns the progress of a translation that began at a time of the clock, and needs `passes`
    /// passes. The first tree file that is written is that of pass `first`.
    pub fn new(rt: &'a R, began: Duration, passes: u16, first: u16) -> Progress<'a, R> {
        Progress {
            rt,
            passes,
            next: Cell::new(began.saturating_add(Duration::from_millis(DELAY))),
            is_shown: Cell::new(false),
            first,
            written: Cell::new(0),
            appends: Cell::new(0),
        }
    }

    /// Returns the number of the pass whose tree file was begun last. Returns 0 while the sentence
    /// is parsed, and before the first tree file is begun.
    fn pass(&self) -> u16 {
        self.first
            .saturating_add(self.written.get())
            .saturating_sub(1)
    }

    /// Shows that the sentence is being parsed, if it is, and if a line is due.
    #[cold]
    #[inline(never)]
    fn show_parsing(&self) {
        if self.pass() == 0 && self.is_due() {
            let _ = self.rt.eprint(&ProgressLine::Parsing);
        }
    }

    /// Returns whether a line is due. If so, records that a line is shown now: the next line is due
    /// after `INTERVAL`. Returns false if the clock can't be read.
    fn is_due(&self) -> bool {
        let Ok(now) = self.rt.monotonic() else {
            return false;
        };
        if now < self.next.get() {
            return false;
        }
        self.next
            .set(now.saturating_add(Duration::from_millis(INTERVAL)));
        self.is_shown.set(true);
        true
    }
}

/// What is shown at the calls of the devices.
impl<R: Clock + Eprint> Watch for Progress<'_, R> {
    /// Counts a tree file that is begun.
    fn begin_file(&self) {
        self.written.set(self.written.get().saturating_add(1));
    }

    /// Counts a call that appends. While the sentence is parsed, each 256th call shows a line if one
    /// is due. In a pass only the calls that read show lines.
    #[inline(always)]
    fn append(&self) {
        let appends = self.appends.get().wrapping_add(1);
        self.appends.set(appends);
        if appends == 0 {
            self.show_parsing();
        }
    }

    /// Shows a line if one is due. A pass reads its input file, of `length` bytes, from the end.
    /// The bytes from offset `at` on count as read.
    fn read(&self, at: u64, length: u64) {
        if self.is_due() {
            let line = ProgressLine::Reading {
                pass: self.pass(),
                passes: self.passes,
                percent: percent_of(length.saturating_sub(at), length),
            };
            let _ = self.rt.eprint(&line);
        }
    }

    /// Erases the line, if one is shown. No line is due any more.
    fn end(&self) {
        self.next.set(Duration::MAX);
        if self.is_shown.replace(false) {
            let _ = self.rt.eprint(&ProgressLine::Nothing);
        }
    }
}

/// Returns how many hundredths of the whole a part is, rounded down; 100 if the whole is 0.
fn percent_of(part: u64, whole: u64) -> u64 {
    part.saturating_mul(100).checked_div(whole).unwrap_or(100)
}
