//! The words of a grammar, and the first token of a text over them.

ghost use Rattle.std.specs.Prelude.{◌≡◌, ◌≤◌, chars, length, IfErr, IfOk, MatchOption};
ghost use Rattle.ag_grammar.specs.grammars.Accepted.{max_literals};
ghost use Rattle.ag_scan.specs.Cutting.{leading_word_of, IsLeadingToken};
ghost use Rattle.ag_scan.specs.Tokens.{IsStopped, TakesToken, Token};
ghost use Rattle.ag_scan.specs.Words.{BeginsNone, HasNoEmpty, IsAnyWord, vocabulary};

use crate::cutting::{leading_literal, longer_of};
use crate::fault::ScanFault;
use crate::literals::Literals;
use crate::prefix::{LeadingWord, leading_class};
use ag_grammar::limits::MAX_TOKEN_BYTES;
use ag_value::{NoMemory, Text};
use std::alloc::Global;
use std::marker::Model;

/// The words of a grammar: the table of its literals, and the numbers of the token classes
/// in use. Contracts see the numbers of the classes, and the texts of the literals.
#[derive(Drop)]
pub struct Vocabulary<'g> {
    literals: Literals<'g>,
    classes: &'g [u16],
}

impl<'g> Model for Vocabulary<'g> {
    ghost use Rattle.ag_scan.specs.Words.{Vocabulary as Plain, vocabulary};

    ghost Value = { Plain };

    ghost view = { λ v. vocabulary v.literals v.classes.now };
}

impl<'g> Vocabulary<'g> {
    /// Makes a vocabulary. `literals` has the texts of the literals, indexed by their numbers, and
    /// `classes` the token classes in use. Fails with `NoMemory` if the table of the literals
    /// cannot be allocated.
    pub fn new(
        alloc: Global,
        literals: &'g [Text],
        classes: &'g [u16],
    ) -> Result<Vocabulary<'g>, NoMemory>
        requires many { length literals.now ≤ max_literals }
        requires not_empty { HasNoEmpty literals.now }
        ensures { IfOk result (λ v. v ≡ vocabulary literals.now classes.now) }
    {
        let literals = Literals::new(alloc, literals)?;
        Ok(Vocabulary { literals, classes })
    }

    /// Returns the longest word at the beginning of a text, or `None`. If a literal and a word
    /// of a class are equally long, returns the literal.
    #[inline(always)]
    pub fn leading_word<'t>(&self, text: &'t str) -> Option<LeadingWord<'t>>
        ensures { MatchOption result
            (BeginsNone (IsAnyWord self.now) (chars text.now))
            (λ f. IsLeadingToken self.now (chars text.now) (leading_word_of f)) }
    {
        let literal = leading_literal(&self.literals, text);
        longer_of(literal, leading_class(self.classes, text))
    }

    /// Returns the rest of `text` after the token with which it begins. Skips no separators. `at`
    /// is the offset of `text` in the sentence, in bytes. Fails with S2 at `at` if no word begins
    /// there, and with S3 at `at` if the text of the token has more than 65,535 bytes.
    #[inline(always)]
    pub fn after_token<'t>(&self, text: &'t str, at: usize) -> Result<&'t str, ScanFault>
        ensures took { IfOk result (λ rest.
            (t : Token) × TakesToken self.now (chars text.now) at t (chars rest.now)) }
        ensures stopped { IfErr result (λ e. IsStopped self.now (chars text.now) at e) }
    {
        let Some(word) = self.leading_word(text) else {
            return Err(ScanFault::NoToken(at));
        };
        let LeadingWord { lex, rest, .. } = word;
        if lex.len() > MAX_TOKEN_BYTES {
            return Err(ScanFault::LongToken(at));
        }
        // this call shows the prover that `lex` is UTF-8; its result isn't needed
        let _utf8 = lex.as_bytes();
        Ok(rest)
    }
}
