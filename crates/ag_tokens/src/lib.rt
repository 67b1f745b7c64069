//! The tokens of expressions and of grammars: a lexer, and a cursor over the tokens of a text.
#![tactic(auto)]

mod cursor;
mod fault;
pub mod laws;
mod lexer;
mod signs;
mod token;

pub use cursor::Cursor;
pub use fault::TokenFault;
pub use lexer::{Class, first, skip_separators, split_after, starts_name, unescaped};
pub use signs::{is_mark, is_word};
pub use token::{GrammarToken, Punctuation};
