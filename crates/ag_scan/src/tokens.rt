//! A reader of the tokens of a sentence, which computes one token at a time.

ghost use Rattle.std.specs.Prelude.{◌≡◌, ◌+◌, ◌<◌, ◌≤◌, None, length, option_map, slice_get};
ghost use Rattle.ag_scan.specs.Cutting.{leading_word_of, tokens_in};
ghost use Rattle.ag_scan.specs.TokenReader.{IsScannable, IsNextWordFrom, reader_at, offset_at, token_of};

use crate::prefix::LeadingWord;
use crate::token::Token;
use crate::vocabulary::Vocabulary;
use ag_tokens::skip_separators;
use std::marker::Model;

/// A reader of the tokens of a sentence. It stores the sentence's text and vocabulary, the number
/// of tokens already taken, the word of the next one (`None` at the end) and an offset. Contracts
/// see the list of all tokens and the number of those taken.
#[derive(Drop)]
pub struct Tokens<'t> {
    vocabulary: &'t Vocabulary<'t>,
    text: &'t str,
    taken: usize,
    next: Option<LeadingWord<'t>>,
    /// The offset of the next token, in bytes from the beginning of the sentence. At the end: the
    /// offset of the last token, or 0 for a sentence without tokens.
    at: u32,
}

impl<'t> Model for Tokens<'t> {
    ghost use Rattle.std.specs.Prelude.{option_map};
    ghost use Rattle.ag_scan.specs.Cutting.{leading_word_of, tokens_in};
    ghost use Rattle.ag_scan.specs.TokenReader.{TokenReader, IsReaderState, reader_at};

    ghost Value = { TokenReader };

    ghost view = { λ t. reader_at (tokens_in t.vocabulary.now t.text.now) t.taken };

    ghost invariant = { λ t. IsReaderState t.vocabulary.now t.text.now t.taken
        (option_map (λ f. leading_word_of f) t.next) t.at };
}

/// Skips the separators at the beginning of `following`, a suffix of `text`. Returns the word after
/// them, and the offset of this word in `text`, in bytes. At the end of the text returns no word
/// and the offset `before`.
#[inline(always)]
fn next_word<'t>(
    vocabulary: &Vocabulary<'_>,
    text: &str,
    following: &'t str,
    before: u32,
) -> (Option<LeadingWord<'t>>, u32)
    requires has { IsScannable vocabulary.now text.now }
    requires within { length following.now ≤ length text.now }
    ensures next { IsNextWordFrom vocabulary.now text.now following.now
        (option_map (λ f. leading_word_of f) result.0) result.1 }
    ensures end { result.0 ≡ None → result.1 ≡ before }
{
    let left = skip_separators(following);
    match vocabulary.leading_word(left) {
        Some(next) => (Some(next), (text.len() - left.len()) as u32),
        None => (None, before),
    }
}

impl<'t> Tokens<'t> {
    /// Returns a reader at the first token of a text that consists of tokens and separators.
    pub(crate) fn new(vocabulary: &'t Vocabulary<'t>, text: &'t str) -> Tokens<'t>
        requires { IsScannable vocabulary.now text.now }
        ensures { result ≡ reader_at (tokens_in vocabulary.now text.now) 0 }
    {
        let (next, at) = next_word(vocabulary, text, text, 0);
        Tokens {
            vocabulary,
            text,
            taken: 0,
            next,
            at,
        }
    }

    /// Returns the next token, or `None` at the end.
    #[inline(always)]
    pub fn ahead(&self) -> Option<Token<'t>>
        ensures { option_map (λ t. token_of t) result ≡ slice_get self.now.list self.now.taken }
    {
        match self.next {
            Some(next) => Some(Token {
                kind: next.kind,
                at: self.at,
                lex: next.lex,
            }),
            None => None,
        }
    }

    /// Returns the number of tokens taken.
    pub fn taken(&self) -> usize
        ensures { result ≡ self.now.taken }
    {
        self.taken
    }

    /// Returns the offset of the next token, in bytes from the beginning of the sentence. At the
    /// end returns the offset of the last token, or 0 for a sentence without tokens.
    pub fn at(&self) -> u32
        ensures { result ≡ offset_at self.now.list self.now.taken }
    {
        self.at
    }

    /// Advances past the next token, which must exist.
    #[inline(always)]
    pub fn advance(&mut self)
        requires { self.old.taken < length self.old.list }
        ensures { self.new ≡ reader_at self.old.list (self.old.taken + 1) }
    {
        if let Some(next) = self.next {
            // this call shows the prover that `next.rest` is UTF-8; its result isn't needed
            let _utf8 = next.rest.as_bytes();
            let (next, at) = next_word(self.vocabulary, self.text, next.rest, self.at);
            self.next = next;
            self.at = at;
            self.taken += 1;
        }
    }
}
