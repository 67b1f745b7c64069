//! The word of a token class at the beginning of a text.

ghost use Rattle.std.specs.Prelude.{◌≡◌, ◌∷◌, chars, option_map};
ghost use Rattle.ag_tokens.specs.Lexing as lexing;
ghost use Rattle.ag_scan.specs.Cutting as cutting;

use ag_grammar::Terminal;
use ag_grammar::limits::{NAME, NUMBER, TEXT};
use ag_tokens::{Class, first, split_after, starts_name};

/// A word at the beginning of a text.
#[derive(Clone, Copy)]
pub struct LeadingWord<'t> {
    /// The literal or class to which the word belongs.
    pub kind: Terminal,
    /// The text of the word: for a TEXT what is between its quotes, else the word itself.
    pub lex: &'t str,
    /// The text after the word.
    pub rest: &'t str,
}

/// Returns the word of the token class `class` at the beginning of a text: the longest prefix whose
/// characters all belong to `span`, a class of characters. The caller has checked that the first
/// character can begin such a word.
fn leading_span(span: Class, class: u16, text: &str) -> LeadingWord<'_>
    ensures { cutting.leading_word_of result
        ≡ cutting.span_from (lexing.is_in span) class (chars text.now) }
{
    let (lex, rest) = split_after(span, text);
    LeadingWord {
        kind: Terminal::Class(class),
        lex,
        rest,
    }
}

/// Returns the TEXT whose opening quote is directly before `text`, or `None` if its closing quote
/// is missing on the same line.
fn leading_text(text: &str) -> Option<LeadingWord<'_>>
    ensures { option_map (λ f. cutting.leading_word_of f) result ≡ cutting.text_from (chars text.now) }
{
    let (lex, following) = split_after(Class::Quotable, text);
    match first(following) {
        Some(('"', rest)) => Some(LeadingWord {
            kind: Terminal::Class(TEXT),
            lex,
            rest,
        }),
        _ => None,
    }
}

/// Returns the word of one of these classes at the beginning of `text`, or `None` if there is none.
/// `c` is the first character of `text`, and `following` is the text after that character. Words of
/// different classes begin with different characters, so only one class can match.
#[inline(never)]
#[tactic(auto, unfolding(crate::specs::Cutting::class_from))]
fn class_begun<'t>(
    classes: &[u16],
    c: char,
    following: &'t str,
    text: &'t str,
) -> Option<LeadingWord<'t>>
    requires { chars text.now ≡ c ∷ chars following.now }
    ensures { option_map (λ f. cutting.leading_word_of f) result
        ≡ cutting.class_from classes.now (chars text.now) }
{
    if starts_name(c) {
        if !classes.contains(&NAME) {
            return None;
        }
        return Some(leading_span(Class::NamePart, NAME, text));
    }
    if c.is_ascii_digit() {
        if !classes.contains(&NUMBER) {
            return None;
        }
        return Some(leading_span(Class::Digit, NUMBER, text));
    }
    if c == '"' && classes.contains(&TEXT) {
        return leading_text(following);
    }
    None
}

/// Returns the word of one of these classes at the beginning of a text, or `None`. `leading_class`
/// calls this function only if a class is in use. The function is separate from `leading_class`, so
/// that the stack slot of its result is initialized only then.
#[inline(always)]
#[tactic(auto, unfolding(crate::specs::Cutting::class_from))]
fn class_among<'t>(classes: &[u16], text: &'t str) -> Option<LeadingWord<'t>>
    ensures { option_map (λ f. cutting.leading_word_of f) result
        ≡ cutting.class_from classes.now (chars text.now) }
{
    let (c, following) = first(text)?;
    class_begun(classes, c, following, text)
}

/// Returns the word of a class in use at the beginning of a text, or `None`.
#[inline(always)]
#[tactic(auto, unfolding(crate::specs::Cutting::class_from))]
pub fn leading_class<'t>(classes: &[u16], text: &'t str) -> Option<LeadingWord<'t>>
    ensures { option_map (λ f. cutting.leading_word_of f) result
        ≡ cutting.class_from classes.now (chars text.now) }
{
    if classes.is_empty() {
        return None;
    }
    class_among(classes, text)
}
