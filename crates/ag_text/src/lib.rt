//! The grammar language: the definition of the texts of grammars, and their parser.
#![tactic(auto)]

mod declaration;
mod display;
mod expected;
mod fault;
mod faults;
mod grammar;
pub mod laws;
mod parser;
mod reader;
mod resuming;
mod stop;
mod tokens;

pub use expected::{Expected, expected_at, expected_in_part};
pub use fault::TextFault;
pub use faults::text_faults;
pub use grammar::read_grammar;
pub use resuming::part_starts;
