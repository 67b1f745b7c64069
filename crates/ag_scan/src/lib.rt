//! The scanner: the tokens of a sentence, by longest match over the literals and the token classes
//! of a grammar. A word is a part of the sentence that is the text of a literal, or has the form of
//! a class that the grammar uses. From left to right, separators are skipped, and the longest word
//! that begins after them becomes a token, with its terminal (its literal or class).
#![tactic(auto)]

mod cutting;
mod display;
mod fault;
pub mod laws;
mod literals;
mod prefix;
mod sentence;
mod starts;
mod token;
mod tokens;
mod vocabulary;

pub use ag_grammar::Terminal;
pub use fault::ScanFault;
pub use sentence::{Sentence, scan};
pub use token::Token;
pub use tokens::Tokens;
