//! Tests whether a token is a given punctuation or a given name, such as a reserved word.

ghost use Rattle.std.specs.Prelude.{◌≡◌};
ghost use Rattle.ag_tokens.specs.Lexing.{token_of};
ghost use Rattle.ag_tokens.specs.Parsing.{is_sign};
ghost use Rattle.ag_tokens.specs.GrammarToken as sign;

use crate::token::{GrammarToken, Punctuation};

/// Returns whether a token is this punctuation.
pub fn is_mark(mark: Punctuation, token: GrammarToken<'_>) -> bool
    ensures { result ≡ is_sign (sign.mark mark) (token_of token.entry) }
{
    match token {
        GrammarToken::Punctuation(other) => other == mark,
        _ => false,
    }
}

/// Returns whether a token is this name.
pub fn is_word(word: &str, token: GrammarToken<'_>) -> bool
    ensures { result ≡ is_sign (sign.word word.now) (token_of token.entry) }
{
    match token {
        GrammarToken::Name(name) => name == word,
        _ => false,
    }
}
