//! How a report is printed.

ghost use Rattle.std.specs.Prelude.{◌≡◌};
ghost use Rattle.std.specs.Fmt.{WritesOnOk};
ghost use Rattle.messages.specs.Printed.{file_text, first_separator, location_text, next_separator};
ghost use Rattle.messages.specs.Printed.{part_text, parts_text, place_text};

use crate::report::FaultReport;
use message_parts::{Location, Parts, Position};
use std::fmt;

/// Prints `N8 at 95 (grammar.ag:4:47): ..`: the fault, the position, and after a colon what was
/// expected, what was found and what to do, with commas between. Empty parts are left out. A report
/// without a position ends with a colon and its file, if it has one. For a fault in the whole of
/// its input, the colon before the parts is left out.
impl fmt::Display for FaultReport {
    ghost use Rattle.std.specs.Prelude.{Some};
    ghost use Rattle.messages.specs.Printed.{line_of};

    ghost output = { λ report. Some (line_of report) };

    fn fmt<W: fmt::Write>(&self, f: &mut fmt::Formatter<W>) -> fmt::Result {
        write!(f, "{}", self.fault)?;
        self.write_location(f)?;
        write_parts(f, self.first_separator(), &self.parts)?;
        self.write_file(f)
    }
}

impl FaultReport {
    /// Writes the position, if there is one.
    fn write_location<W: fmt::Write>(&self, f: &mut fmt::Formatter<W>) -> fmt::Result
        ensures { WritesOnOk W.write_str_gives f.old result
            (location_text self.now.location self.now.file) f.new }
    {
        match self.location {
            Location::At(position) => write_place(f, &self.file, position),
            Location::Whole | Location::InFault => Ok(()),
        }
    }

    /// Returns the separator before the first part.
    fn first_separator(&self) -> &'static str
        ensures { result.now ≡ first_separator self.now.location }
    {
        match self.location {
            Location::Whole => " ",
            Location::InFault | Location::At(_) => ": ",
        }
    }

    /// Writes the file at the end of a line without a position.
    fn write_file<W: fmt::Write>(&self, f: &mut fmt::Formatter<W>) -> fmt::Result
        ensures { WritesOnOk W.write_str_gives f.old result
            (file_text self.now.location self.now.file) f.new }
    {
        match (self.location, &self.file) {
            (Location::Whole | Location::InFault, Some(path)) => {
                write!(f, ": {}", path.as_str())
            }
            _ => Ok(()),
        }
    }
}

/// Writes a position. With a file it is as editors read it: ` (grammar.ag:4:47)`. Without a file it
/// is ` (line 4, column 47)`.
fn write_place<W: fmt::Write>(
    f: &mut fmt::Formatter<W>,
    file: &Option<String>,
    position: Position,
) -> fmt::Result
    ensures { WritesOnOk W.write_str_gives f.old result (place_text file.now position) f.new }
{
    let Position { line, column } = position;
    match file {
        Some(path) => write!(f, " ({}:{line}:{column})", path.as_str()),
        None => write!(f, " {position}"),
    }
}

/// Writes the parts that are not empty: the first one after the separator `first`, the others after
/// commas.
fn write_parts<W: fmt::Write>(f: &mut fmt::Formatter<W>, first: &str, parts: &Parts) -> fmt::Result
    ensures { WritesOnOk W.write_str_gives f.old result (parts_text first.now parts.now) f.new }
{
    let (expected, found) = (parts.expected.as_str(), parts.found.as_str());
    let second = next_separator(first, expected);
    let third = next_separator(second, found);
    write_part(f, first, expected)?;
    write_part(f, second, found)?;
    write_part(f, third, parts.help.as_str())
}

/// Writes a part after its separator, unless it is empty.
fn write_part<W: fmt::Write>(f: &mut fmt::Formatter<W>, separator: &str, part: &str) -> fmt::Result
    ensures { WritesOnOk W.write_str_gives f.old result (part_text separator.now part.now) f.new }
{
    if part.is_empty() {
        return Ok(());
    }
    write!(f, "{separator}{part}")
}

/// Returns the separator before the part that comes after `part`: a comma and a space. If `part` is
/// empty, it isn't printed, and the result is `separator`, the one before `part`.
pub(crate) fn next_separator<'a>(separator: &'a str, part: &str) -> &'a str
    ensures { result.now ≡ next_separator separator.now part.now }
{
    if part.is_empty() { separator } else { ", " }
}
