//! The lines that show the progress of a translation.

use std::fmt;

/// The control characters that move the cursor of a terminal to the beginning of the line, and
/// erase the line.
const ERASE: &str = "\r\u{1b}[K";

/// A line that replaces the current one on a terminal.
#[derive(Clone, Copy)]
pub enum ProgressLine {
    /// An empty line: the current one is only erased.
    Nothing,
    /// The sentence is parsed.
    Parsing,
    /// A pass reads a tree file.
    Reading {
        /// The pass, from 1.
        pass: u16,
        /// The number of passes.
        passes: u16,
        /// The part of the tree file that has been read, in hundredths.
        percent: u64,
    },
}

impl fmt::Display for ProgressLine {
    fn fmt<W: fmt::Write>(&self, f: &mut fmt::Formatter<W>) -> fmt::Result {
        match self {
            ProgressLine::Nothing => write!(f, "{ERASE}"),
            ProgressLine::Parsing => write!(f, "{ERASE}parsing"),
            ProgressLine::Reading {
                pass,
                passes,
                percent,
            } => write!(f, "{ERASE}pass {pass} of {passes}, {percent}% read"),
        }
    }
}
