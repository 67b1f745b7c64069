//! The parts of messages that do not depend on the kind of fault: what a message consists of,
//! positions in texts and their files, how numbers and texts print, the names of classes of tokens,
//! and attributes by their names. `message_texts` has the texts for each kind of fault.
//!
//! The functions that write to a `String` fail if memory is refused. The types `PlainText`,
//! `QuotedText` and `FoundText` print some characters as escapes, such as `\u{1b}`: control
//! characters, white space other than the plain space, and some invisible characters.
#![tactic(auto)]

pub mod classes;
pub mod display;
mod names;
pub mod parts;
pub mod position;

pub use names::{Attribute, NameFault, attribute_named};
pub use parts::{Location, Parts};
pub use position::{Position, Source};
