//! The tokens of a sentence.

use ag_grammar::Terminal;

/// A token of a sentence.
#[derive(Clone, Copy)]
pub struct Token<'t> {
    /// The literal or class to which its word belongs.
    pub kind: Terminal,
    /// The offset of its word in bytes from the beginning of the sentence.
    pub at: u32,
    /// The text of the token: for a TEXT what is between its quotes, else the word.
    pub lex: &'t str,
}
