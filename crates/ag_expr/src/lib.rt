//! The parser of expressions: those of a grammar's rules, and that of `aggen value`.
#![tactic(auto)]

mod display;
mod expected;
mod expression;
mod fault;
pub mod laws;
mod names;
mod occurrence_table;
mod parser;
mod reader;

// for callers that use the parser's results and tokens
pub use ag_grammar::occurrences;
pub use ag_tokens::{Cursor, GrammarToken, Punctuation, unescaped};
pub use expected::{ExpectedPart, expected_at};
pub use expression::{read_ended, read_expr, read_until};
pub use fault::ExprFault;
pub use reader::refusal;
