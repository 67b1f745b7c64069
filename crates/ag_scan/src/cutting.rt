//! The longest literal at the beginning of a text, and the longer of two words.

ghost use Rattle.std.specs.Prelude.{◌≡◌, ◌++◌, nat_lt, chars, encode_utf8_all};
ghost use Rattle.std.specs.Prelude.{option_map, MatchOption};
ghost use Rattle.ag_tokens.specs.Tokens.{width};
ghost use Rattle.ag_scan.specs.Cutting.{leading_word_of, longer_of, IsLeadingLiteral};
ghost use Rattle.ag_scan.specs.Table.{IsPrefix};
ghost use Rattle.ag_scan.specs.Words.{BeginsNone, IsLiteral};

use crate::literals::Literals;
use crate::prefix::LeadingWord;
use ag_grammar::Terminal;

/// Splits a text after the word with which it begins; returns the word and the rest.
#[inline(always)]
fn split_word<'t>(text: &'t str, word: &str) -> (&'t str, &'t str)
    requires { IsPrefix word.now text.now }
    ensures word { chars result.0.now ≡ chars word.now }
    ensures text { result.0.now ≡ word.now }
    ensures split { chars text.now ≡ chars word.now ++ chars result.1.now }
    ensures encoded { encode_utf8_all (chars word.now) ≡ word.now }
{
    text.split_at(word.len())
}

/// Returns the longest literal at the beginning of a text, or `None`.
#[inline(always)]
pub(crate) fn leading_literal<'t>(literals: &Literals<'_>, text: &'t str) -> Option<LeadingWord<'t>>
    ensures { MatchOption (option_map (λ f. leading_word_of f) result)
        (BeginsNone (IsLiteral literals.now) (chars text.now))
        (λ f. IsLeadingLiteral literals.now (chars text.now) f) }
{
    let Some(word) = literals.longest(text) else {
        return None;
    };
    let (lex, rest) = split_word(text, word.text);
    Some(LeadingWord {
        kind: Terminal::Literal(word.number),
        lex,
        rest,
    })
}

/// Returns whether a text has fewer bytes than another one.
#[inline(always)]
fn is_shorter(text: &str, other: &str) -> bool
    ensures { result ≡ nat_lt (width (chars text.now)) (width (chars other.now)) }
{
    text.len() < other.len()
}

/// Returns the longer of two words at the beginning of the same text: a literal and a word of a
/// class. If they have the same length, returns the literal. If one is `None`, returns the other.
/// The longer word is the one with the shorter rest.
#[inline(always)]
pub(crate) fn longer_of<'t>(
    literal: Option<LeadingWord<'t>>,
    class: Option<LeadingWord<'t>>,
) -> Option<LeadingWord<'t>>
    ensures { option_map (λ f. leading_word_of f) result ≡ longer_of
        (option_map (λ f. leading_word_of f) literal.entry) (option_map (λ f. leading_word_of f) class.entry) }
{
    let Some(literal) = literal else {
        return class;
    };
    match class {
        Some(class) if is_shorter(class.rest, literal.rest) => Some(class),
        _ => Some(literal),
    }
}
