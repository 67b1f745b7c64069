//! The look-ahead of a parser.

use ag_grammar::Terminal;

/// The terminal of the next token of a sentence, or the end of the sentence (the textbook's
/// look-ahead of one token).
#[derive(Clone, Copy, Debug, PartialEq, Eq)]
pub enum Ahead {
    /// A terminal.
    Terminal(Terminal),
    /// The end of the sentence.
    End,
}
