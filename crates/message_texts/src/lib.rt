//! The texts of messages: where a fault is, what was expected, what was found there, and what to
//! do, with the names of the grammar. The crate `messages` makes reports of them.
//!
//! A function `describe_..` writes the parts of the message of a fault. There are such functions
//! for the faults whose numbers begin with X, G, N, L, A, S or P, for R1 and for O1. Faults of
//! expressions and sentences have a function that locates them (`locate_..`), and those of grammars
//! one that returns their offset (`offset_..`).
//!
//! If memory is refused, a function that returns a `Result` fails, unless its comment says that it
//! writes less or nothing. Most names of symbols and attributes are written as they are. Other
//! parts of the input are written by `PlainText`, `QuotedText` and `FoundText` of `message_parts`.
//! These write escapes, such as `\u{1b}`, for control characters, for white space other than the
//! plain space, and for the characters in the list of `is_unseen`. That list doesn't have all
//! invisible characters.
#![tactic(auto)]

pub mod expected;
pub mod expressions;
pub mod found;
pub mod grammar_text;
pub mod grammars;
pub mod hints;
pub mod positions;
pub mod sentences;
pub mod terminals;
pub mod trees;
pub mod values;
