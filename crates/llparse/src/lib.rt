//! Parsing sentences with one token of look-ahead: FIRST and FOLLOW, the tables that are made of
//! them, the proof that a grammar without conflicts has at most one tree of a sentence, and the
//! parser, which writes that tree's file.
//!
//! A function whose error is the type `NoMemory` fails only if memory is refused; no contract says
//! so.
#![tactic(auto)]

mod ahead;
mod display;
mod laws;
mod sentence;
mod table;

pub use ahead::Ahead;
pub use laws::{
    empty_if_free, head_is_least, indices_are_in_order, left_recursion_conflicts,
    left_recursion_is_a_choice, left_recursion_is_least, left_recursion_is_listed,
    left_trees_are_beyond_the_limit, one_list_of_conflicts, one_tree, sample_is_free,
    small_tables_are_read, texts_are_given,
};
pub use sentence::expected::{StuckPlace, expected_at};
pub use sentence::parse_fault::ParseFault;
pub use sentence::parsing::parse;
pub use table::building::tables;
pub use table::conflicts::conflicts;
pub use table::fault::TableFault;
pub use table::lookup::Tables;
