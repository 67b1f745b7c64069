//! Refusals of calls, as C gets them.

ghost use Rattle.std.specs.Prelude.{◌≡◌};
ghost use Rattle.aggen_c.specs.Answers.{HasMessage};
ghost use Rattle.aggen_c.specs.Refusals.{no_fields, numbers, numbers_of};

use crate::buffers::copy_prefix;
use crate::number::{NO_OFFSET, number_of, offset_of};
use ag_fault::{Fault, status};
use message_parts::{Location, Position};
use messages::FaultReport;
use std::alloc::Global;

/// The status of a call on a handle without a translator.
const NO_TRANSLATOR: u8 = 1;

/// The fields of a refusal, in the caller's memory. `include/aggen.h` has the same struct.
#[repr(C)]
#[derive(Clone, Copy)]
pub struct RefusalFields {
    /// The letter of the refusal's number in ASCII, as `N` of N10; 0 if it has no number.
    pub letter: u8,
    /// The rest of the number, as 10 of N10; 0 if the refusal has no number.
    pub index: u8,
    /// The offset in the input of the call, in bytes from 0, or `NO_OFFSET`.
    pub offset: u64,
    /// The line in the input, from 1; 0 if there is none.
    pub line: usize,
    /// The column in characters, from 1; 0 if there is none.
    pub column: usize,
    /// The number of bytes of the whole message. The caller's buffer may have only a prefix of it.
    pub message_length: usize,
}

impl RefusalFields {
    /// Returns the fields of a call that was not refused.
    pub fn none() -> RefusalFields
        ensures { result ≡ no_fields }
    {
        RefusalFields {
            letter: 0,
            index: 0,
            offset: NO_OFFSET,
            line: 0,
            column: 0,
            message_length: 0,
        }
    }
}

/// Why a call was refused.
#[derive(Drop)]
pub struct Refusal {
    /// The status that the call returns.
    pub status: u8,
    /// The fields for the caller. The length of the message is 0 here: `write` computes it.
    pub fields: RefusalFields,
    /// The message. `None` if memory for it was refused, if the handle has no translator, and
    /// before `with_report`.
    message: Option<String>,
}

impl Refusal {
    /// Returns the refusal by a handle that has no translator.
    pub fn without_translator() -> Refusal
        ensures { numbers result.status result.fields ≡ numbers 1 no_fields }
    {
        Refusal {
            status: NO_TRANSLATOR,
            fields: RefusalFields::none(),
            message: None,
        }
    }

    /// Returns the refusal for a fault, with its offset, but without a line, a column and a
    /// message.
    pub fn of_fault(fault: &Fault) -> Refusal
        ensures { numbers result.status result.fields ≡ numbers_of fault.now }
    {
        let number = number_of(fault);
        let fields = RefusalFields {
            letter: number.letter,
            index: number.index,
            offset: offset_of(fault),
            line: 0,
            column: 0,
            message_length: 0,
        };
        Refusal {
            status: status(fault),
            fields,
            message: None,
        }
    }

    /// Returns the refusal with the line, the column and the message of a report. Takes memory; if
    /// that is refused, the message is left out. `write` sets the message's length.
    pub fn with_report(self, alloc: Global, report: &FaultReport) -> Refusal
        ensures { numbers result.status result.fields ≡ numbers self.status self.fields }
    {
        let message = report.to_string(alloc).ok();
        let (line, column) = match report.location {
            Location::At(Position { line, column }) => (line, column),
            Location::Whole | Location::InFault => (0, 0),
        };
        let fields = RefusalFields {
            letter: self.fields.letter,
            index: self.fields.index,
            offset: self.fields.offset,
            line,
            column,
            message_length: 0,
        };
        Refusal {
            status: self.status,
            fields,
            message,
        }
    }

    /// Writes the message and the fields to the caller's memory, and returns the status.
    pub fn write(self, message: &mut [u8], fields: &mut RefusalFields) -> u8
        ensures numbers { numbers result fields.new ≡ numbers self.status self.fields }
        ensures message { HasMessage message.old message.new fields.new.message_length }
    {
        let length = copy_message(&self.message, message);
        *fields = RefusalFields {
            letter: self.fields.letter,
            index: self.fields.index,
            offset: self.fields.offset,
            line: self.fields.line,
            column: self.fields.column,
            message_length: length,
        };
        self.status
    }
}

/// Copies as many of the first bytes of a message as a buffer has room for. Returns the number of
/// all bytes of the message. No message counts as an empty one.
fn copy_message(message: &Option<String>, buffer: &mut [u8]) -> usize
    ensures { HasMessage buffer.old buffer.new result }
{
    match message {
        Some(text) => copy_prefix(text.as_str().as_bytes(), buffer),
        None => copy_prefix(&[], buffer),
    }
}
