//! The parts of a message, and the location of the fault that the message is about.

use crate::display::GroupedNumber;
use crate::position::Position;
use std::alloc::{AllocError, Global};

/// Where a fault is.
#[derive(Clone, Copy)]
pub enum Location {
    /// In the whole of a text or a file. The message prints no position. Only a space comes before
    /// the first part.
    Whole,
    /// The fault itself prints an offset or names after its number, or it is about no place in a
    /// text (such as F1), or the place is not known. The message prints no position. A colon and a
    /// space come before the first part.
    InFault,
    /// At a line and a column. The message prints these, and the name of the file if the message
    /// has it. A colon and a space come before the first part.
    At(Position),
}

/// What a message says after the fault's number and its location. Empty parts are not printed.
#[derive(Drop)]
pub struct Parts {
    /// What was expected.
    pub expected: String,
    /// What was found, or is wrong.
    pub found: String,
    /// What to do.
    pub help: String,
}

impl Parts {
    /// Returns empty parts. Takes no memory.
    pub fn new(alloc: Global) -> Parts {
        Parts {
            expected: String::new(alloc),
            found: String::new(alloc),
            help: String::new(alloc),
        }
    }

    /// Empties the parts.
    pub fn clear(&mut self) {
        self.expected.clear();
        self.found.clear();
        self.help.clear();
    }

    /// Appends the text `found` to the part `found`, and the text `help` to the part `help`. Fails
    /// if memory is refused.
    pub fn add(&mut self, found: &str, help: &str) -> Result<(), AllocError> {
        self.found.push_str(found)?;
        self.help.push_str(help)
    }

    /// Appends to the part `found` that `subject` has more than `bytes` bytes, and the text `help`
    /// to the part `help`. Fails if memory is refused.
    pub fn add_size_limit(
        &mut self,
        subject: &str,
        bytes: usize,
        help: &str,
    ) -> Result<(), AllocError> {
        let most = GroupedNumber(bytes);
        write!(self.found, "{subject} has more than {most} bytes")?;
        self.help.push_str(help)
    }

    /// Appends to the part `found` that `subject` (a sentence or a file) has no tree of at most
    /// `limit` levels or nodes; `unit` is the word `levels` or `nodes`. Appends the text `help` to
    /// the part `help`. Fails if memory is refused.
    pub fn add_tree_limit(
        &mut self,
        limit: usize,
        unit: &str,
        subject: &str,
        help: &str,
    ) -> Result<(), AllocError> {
        let most = GroupedNumber(limit);
        write!(self.found, "{subject} has no tree of at most {most} {unit}")?;
        self.help.push_str(help)
    }
}
