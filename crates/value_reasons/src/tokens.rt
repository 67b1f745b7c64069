//! Positions of tokens in a sentence.

use ag_grammar::Grammar;
use ag_scan::{Tokens, scan};
use message_parts::Source;
use message_parts::position::Place;
use std::alloc::Global;
use std::fmt;

/// Where a token of a sentence is. Prints with a space first, such as ` at (s.txt:1:1)`.
#[derive(Clone, Copy)]
pub enum TokenPosition<'a> {
    /// The token begins at this position.
    At(Place<'a>),
    /// The token does not exist: the sentence ends before it.
    End,
}

impl fmt::Display for TokenPosition<'_> {
    fn fmt<W: fmt::Write>(&self, f: &mut fmt::Formatter<W>) -> fmt::Result {
        match self {
            TokenPosition::At(place) => write!(f, " at {place}"),
            TokenPosition::End => f.write_str(" at the sentence's end"),
        }
    }
}

/// Returns where the token is that follows the first `before` tokens of a sentence: `End` if the
/// sentence has exactly `before` tokens. Returns `None` if the sentence has fewer, or if `scan`
/// fails.
pub fn position_of_token<'a>(
    alloc: Global,
    grammar: &Grammar,
    sentence: Source<'a>,
    before: u32,
) -> Option<TokenPosition<'a>> {
    let scanned = scan(alloc, grammar, sentence.bytes).ok()?;
    let mut tokens = scanned.tokens();
    for _ in 0..before {
        if !skip_token(&mut tokens) {
            return None;
        }
    }
    match tokens.ahead() {
        Some(token) => Some(TokenPosition::At(sentence.place(token.at as usize))),
        None => Some(TokenPosition::End),
    }
}

/// Skips the next token. Returns whether there was one.
#[tactic(auto, using(std::proofs::lemmas::Option::slice_get_within))]
fn skip_token(tokens: &mut Tokens<'_>) -> bool {
    let Some(_token) = tokens.ahead() else {
        return false;
    };
    tokens.advance();
    true
}
