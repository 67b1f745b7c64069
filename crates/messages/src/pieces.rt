//! The number and the message of a report, each apart, for readers that are programs.

ghost use Rattle.std.specs.Prelude.{◌≡◌, IfOk, OnOk, ◌++◌, string_bytes};
ghost use Rattle.messages.specs.Pieces.{has_words, message_of, number_in, number_of, words_in, words_of};
ghost use Rattle.messages.specs.Printed.{file_text, next_separator, part_text};

use crate::display::next_separator;
use crate::report::FaultReport;
use ag_fault::Fault;
use message_parts::Location;
use std::alloc::{AllocError, Global};

impl FaultReport {
    /// Returns the fault's number, such as `N8`, or `NoMemory`: the word with which the line of the
    /// report begins. Fails if memory is refused.
    pub fn number(&self, alloc: Global) -> Result<String, AllocError>
        ensures { IfOk result (λ number. string_bytes number ≡ number_of self.now.fault) }
    {
        let printed = self.fault.to_string(alloc)?;
        String::from_str(alloc, split_number(printed.as_str()).0)
    }

    /// Returns the message: the line of the report without the number, the offset, the position and
    /// what to do. Fails if memory is refused.
    pub fn message(&self, alloc: Global) -> Result<String, AllocError>
        ensures { IfOk result (λ message. string_bytes message ≡ message_of self.now) }
    {
        let printed = self.fault.to_string(alloc)?;
        let words = words_of(&self.fault, printed.as_str());
        let first = if words.is_empty() { "" } else { ": " };
        let expected = self.parts.expected.as_str();
        let second = next_separator(first, expected);
        let mut message = String::from_str(alloc, words)?;
        push_part(&mut message, first, expected)?;
        push_part(&mut message, second, self.parts.found.as_str())?;
        self.push_file(&mut message)?;
        Ok(message)
    }

    /// Appends the file, if the report has one and no position.
    fn push_file(&self, out: &mut String) -> Result<(), AllocError>
        ensures { OnOk result (string_bytes out.new ≡ string_bytes out.old ++ file_text self.now.location self.now.file) }
    {
        match (self.location, &self.file) {
            (Location::Whole | Location::InFault, Some(path)) => {
                out.push_str(": ")?;
                out.push_str(path.as_str())
            }
            _ => Ok(()),
        }
    }
}

/// Returns the number with which a printed fault begins, and what follows the space after it.
fn split_number(printed: &str) -> (&str, &str)
    ensures number { result.0.now ≡ number_in printed.now }
    ensures words { result.1.now ≡ words_in printed.now }
{
    printed.split_once(' ').unwrap_or((printed, ""))
}

/// Returns the words of a printed fault after its number. They are empty if an offset is there, or
/// nothing.
fn words_of<'a>(fault: &Fault, printed: &'a str) -> &'a str
    ensures { result.now ≡ words_of fault.now printed.now }
{
    if has_words(fault) {
        split_number(printed).1
    } else {
        ""
    }
}

/// Returns whether a fault prints words after its number: what is wrong, or the attributes of A1.
fn has_words(fault: &Fault) -> bool
    ensures { result ≡ has_words fault.now }
{
    match fault {
        Fault::Expr(_)
        | Fault::Text(_)
        | Fault::Normal(_)
        | Fault::Table(_)
        | Fault::Scan(_)
        | Fault::Parse(_)
        | Fault::Run(_)
        | Fault::Job(_)
        | Fault::Damaged(_) => false,
        Fault::Usage
        | Fault::File
        | Fault::Assign(_)
        | Fault::NoText(_)
        | Fault::NotATreeFile
        | Fault::Device
        | Fault::Write
        | Fault::NoMemory => true,
    }
}

/// Appends a part after its separator, unless it is empty.
fn push_part(out: &mut String, separator: &str, part: &str) -> Result<(), AllocError>
    ensures { OnOk result (string_bytes out.new
        ≡ string_bytes out.old ++ part_text separator.now part.now) }
{
    if part.is_empty() {
        return Ok(());
    }
    out.push_str(separator)?;
    out.push_str(part)
}
