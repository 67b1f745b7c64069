//! The report of a fault, which prints as one line.

ghost use Rattle.std.specs.Prelude.{◌≡◌, None, OnOk};

use ag_fault::Fault;
use message_parts::display::PlainText;
use message_parts::{Location, Parts};
use std::alloc::{AllocError, Global};

/// The report of a fault.
#[derive(Drop)]
pub struct FaultReport {
    /// The fault, which prints with its number first, as in `N8 at 95`.
    pub fault: Fault,
    /// Where the fault is.
    pub location: Location,
    /// The name of the file: the one that contains the location, or the one that the fault is
    /// about.
    pub file: Option<String>,
    /// What was expected, what was found, and what to do.
    pub parts: Parts,
}

impl FaultReport {
    /// Returns a report that prints as the fault alone. Takes no memory.
    pub fn new(alloc: Global, fault: Fault) -> FaultReport
        ensures fault { result.fault ≡ fault }
        ensures location { result.location ≡ Location.InFault }
        ensures file { result.file ≡ None }
    {
        FaultReport {
            fault,
            location: Location::InFault,
            file: None,
            parts: Parts::new(alloc),
        }
    }

    /// Returns the report with the name of its file, in which characters such as control characters
    /// are escaped. Takes memory; if that is refused, the name is left out.
    pub fn with_file(mut self, alloc: Global, path: &str) -> FaultReport
        ensures fault { result.fault ≡ self.fault }
        ensures location { result.location ≡ self.location }
        ensures parts { result.parts ≡ self.parts }
    {
        self.file = PlainText(path).to_string(alloc).ok();
        self
    }

    /// Returns the report with its location in a text, and with the name of the file if the
    /// location is a position. (A fault of the whole text, such as P2 of a sentence, is printed
    /// without the name.) Takes memory for the name; if that is refused, the name is left out.
    pub fn with_location(mut self, alloc: Global, location: Location, name: &str) -> FaultReport
        ensures fault { result.fault ≡ self.fault }
        ensures location { result.location ≡ location }
        ensures parts { result.parts ≡ self.parts }
    {
        self.location = location;
        match location {
            Location::At(_) => self.with_file(alloc, name),
            Location::Whole | Location::InFault => self,
        }
    }

    /// Returns the report with its parts, or without them if memory for writing them was refused.
    /// `written` is the result of writing them.
    pub fn or_bare(mut self, written: Result<(), AllocError>) -> FaultReport
        ensures fault { result.fault ≡ self.fault }
        ensures location { result.location ≡ self.location }
        ensures file { result.file ≡ self.file }
        ensures parts { OnOk written (result.parts ≡ self.parts) }
    {
        if written.is_err() {
            self.parts.clear();
        }
        self
    }
}
