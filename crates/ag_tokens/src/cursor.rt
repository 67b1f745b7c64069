//! A cursor over the tokens of a text.

ghost use Rattle.std.specs.Prelude.{◌≡◌, ℕ, chars, drop, option_map};
ghost use Rattle.std.specs.Str.{IsCharBoundary};
ghost use Rattle.ag_tokens.specs.Lexing.{token_of};
ghost use Rattle.ag_tokens.specs.Remaining.{ending_by};
ghost use Rattle.ag_tokens.specs.Parsing.{ending_fault, fault_of, next_token, is_end, next, offset};
ghost use Rattle.ag_tokens.specs.Tokens.{Lexes};

use crate::fault::TokenFault;
use crate::lexer::{leading_token, quick_token, skip_separators};
use crate::token::GrammarToken;
use std::marker::Model;

/// A cursor over the tokens of a text. It is positioned before a token, or where the tokens end.
/// The next token is read in advance and stored, so `peek` only returns it. Offsets are in bytes
/// from the beginning of the text. Contracts see the tokens from the next one on, with their
/// offsets, and the ending after them.
#[derive(Drop)]
pub struct Cursor<'t> {
    /// The whole text.
    text: &'t str,
    /// The rest of the text, from the next token on, or from where the tokens end.
    rest: &'t str,
    /// The next token and the text after it, or the reason why there is none.
    leading: Result<(GrammarToken<'t>, &'t str), TokenFault>,
}

impl<'t> Model for Cursor<'t> {
    ghost use Rattle.std.specs.Prelude.{length, chars};
    ghost use Rattle.ag_tokens.specs.Remaining.{IsReady, input};
    ghost use Rattle.ag_tokens.specs.PlacedToken.{Input};

    ghost Value = { Input };

    ghost view = { λ c. input (length c.text.now) (chars c.rest.now) };

    ghost invariant = { λ c. IsReady c.text.now c.rest.now c.leading };
}

/// Returns why no token can be read at the beginning of `rest`, or `None` if `rest` is empty.
/// `fault` is the fault with which `leading_token` failed for `rest`. The clause holds for every
/// offset `at`, since the result contains no offset.
#[tactic(auto, using(crate::proofs::States::no_width, crate::proofs::Lexed::wide))]
fn fault_before(fault: TokenFault, rest: &str) -> Option<TokenFault>
    ensures { (at : ℕ) → result ≡ ending_fault (ending_by fault at (chars rest.now)) }
{
    match fault {
        TokenFault::Nothing if rest.is_empty() => None,
        TokenFault::Nothing => Some(TokenFault::Nothing),
        TokenFault::TooLarge => Some(TokenFault::TooLarge),
    }
}

impl<'t> Cursor<'t> {
    /// Returns a cursor at the first token of a text.
    pub fn new(text: &'t str) -> Cursor<'t>
        ensures { Lexes 0 (chars text.now) result }
    {
        let rest = skip_separators(text);
        Cursor {
            text,
            rest,
            leading: leading_token(rest),
        }
    }

    /// Returns a cursor at the first token at or after the byte offset `from`, which must be at the
    /// beginning of a character or the end of the text. The cursor's offsets count from the
    /// beginning of the text, not from `from`.
    pub fn at(text: &'t str, from: usize) -> Cursor<'t>
        requires { IsCharBoundary text.now from }
        ensures { Lexes from (chars (drop from text.now)) result }
    {
        let (_, following) = text.split_at(from);
        let rest = skip_separators(following);
        Cursor {
            text,
            rest,
            leading: leading_token(rest),
        }
    }

    /// Returns the next token, or `None` if the text ends here, or if no token begins here, or if
    /// the number or place of the token here is above its limit.
    pub fn peek(&self) -> Option<GrammarToken<'t>>
        ensures { option_map token_of result ≡ next_token self.now }
    {
        match self.leading {
            Ok((token, _)) => Some(token),
            Err(_) => None,
        }
    }

    /// Returns the byte offset of the next token, or the byte offset where the tokens end.
    #[tactic(auto, using(crate::proofs::States::offset_is))]
    pub fn offset(&self) -> usize
        ensures { result ≡ offset self.now }
    {
        self.text.len() - self.rest.len()
    }

    /// Returns whether the text ends here.
    #[tactic(auto, using(crate::proofs::States::ends_here))]
    pub fn is_at_end(&self) -> bool
        ensures { result ≡ is_end self.now.ending self.now.left }
    {
        self.rest.is_empty()
    }

    /// Returns why no token can be read here, or `None` if there is a next token or the text ends
    /// here.
    pub fn fault(&self) -> Option<TokenFault>
        ensures { result ≡ fault_of self.now.ending self.now.left }
    {
        match self.leading {
            Ok(_) => None,
            Err(fault) => fault_before(fault, self.rest),
        }
    }

    /// Advances past the next token; does nothing if `peek` returns `None`.
    pub fn bump(&mut self)
        ensures { self.new ≡ next self.old }
    {
        if let Ok((_, following)) = self.leading {
            self.rest = skip_separators(following);
            // only for speed: `quick_token` is inlined, and reads punctuation and short numbers;
            // `leading_token` is not inlined, and reads tokens of every kind
            match quick_token(self.rest) {
                Some(cut) => self.leading = Ok(cut),
                None => self.leading = leading_token(self.rest),
            }
        }
    }
}
