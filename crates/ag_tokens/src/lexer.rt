//! The lexer: reads the first token of a text.

ghost use Rattle.std.specs.Prelude.{◌≡◌, ◌∷◌, [], None, pos, true, false, length, chars, is_some};
ghost use Rattle.std.specs.Prelude.{option_map};
ghost use Rattle.std.specs.Prelude.{IfOk, IfSome, MatchOption, encode_utf8_all};
ghost use Rattle.std.specs.Char.{is_ascii_digit};
ghost use Rattle.std.specs.Str.Parse.{digits_value};
ghost use Rattle.ag_tokens.specs.Remaining.{after_separators};
ghost use Rattle.ag_tokens.specs.Lexing as lexing;
ghost use Rattle.ag_tokens.specs.Lexing.{AgreesOnToken, IsPast, rest_in, prefix_in};
ghost use Rattle.ag_tokens.specs.declared.lexer.Class.TheVariants as class;
ghost use Rattle.ag_tokens.specs.GrammarToken as token;
ghost use Rattle.ag_tokens.specs.Tokens as tokens_spec;
ghost use Rattle.ag_tokens.specs.Tokens.{IsDigits};

use crate::fault::TokenFault;
use crate::token::{GrammarToken, Punctuation};
use ag_value::{NoMemory, Text};
use std::alloc::Global;

/// A class of characters.
#[derive(Clone, Copy, PartialEq, Eq)]
pub enum Class {
    /// Separators: space, tab, CR and LF.
    Separator,
    /// `0` to `9`.
    Digit,
    /// Characters of a name after the first one: those of Unicode's class XID_Continue.
    NamePart,
    /// All characters but a double quote and LF: those allowed between the quotes of a token of the
    /// class TEXT in a sentence. Only the scanner of sentences uses this class.
    Quotable,
}

/// Returns whether a character belongs to a class.
fn is_in(class: Class, c: char) -> bool
    ensures { result ≡ lexing.is_in class c }
{
    match class {
        Class::Separator => c == ' ' || c == '\t' || c == '\r' || c == '\n',
        Class::Digit => c.is_ascii_digit(),
        Class::NamePart => unicode_ident::is_xid_continue(c),
        Class::Quotable => c != '"' && c != '\n',
    }
}

/// Returns whether a name can start with the character.
pub fn starts_name(c: char) -> bool
    ensures { result ≡ tokens_spec.starts_name c }
{
    unicode_ident::is_xid_start(c) || c == '_'
}

/// Returns the first character and the text after it, or `None` if the text is empty.
pub fn first(text: &str) -> Option<(char, &str)>
    ensures { MatchOption result (chars text.now ≡ []) (λ x. lexing.IsSplit text.now x.0 x.1.now) }
{
    let mut characters = text.chars();
    match characters.next() {
        Some(c) => Some((c, characters.as_str())),
        None => None,
    }
}

/// Returns the text after the first character if this character belongs to the class, and otherwise
/// `None`.
fn after_one(class: Class, text: &str) -> Option<&str>
    ensures { lexing.IsAfterOne class text.now result }
{
    match first(text) {
        Some((c, rest)) if is_in(class, c) => Some(rest),
        _ => None,
    }
}

/// Splits a text after its longest prefix of characters of the class; returns the prefix and the
/// rest.
pub fn split_after(class: Class, text: &str) -> (&str, &str)
    ensures prefix { result.0.now ≡ encode_utf8_all (prefix_in class (chars text.now)) }
    ensures rest { chars result.1.now ≡ rest_in class (chars text.now) }
{
    let mut rest = text;
    while let Some(after) = after_one(class, rest) {
        rest = after;
    }
    text.split_at(text.len() - rest.len())
}

/// Returns the text after its leading separators.
pub fn skip_separators(text: &str) -> &str
    ensures { chars result.now ≡ after_separators (chars text.now) }
{
    let mut rest = text;
    while let Some(following) = after_one(Class::Separator, rest) {
        rest = following;
    }
    rest
}

/// Returns the leading digits and the text after them, or `None` if the text does not begin with a
/// digit.
#[tactic(auto, using(crate::proofs::Numerals::no_digits_cut, crate::proofs::Numerals::digits_cut, crate::proofs::Numerals::digits_are))]
fn leading_digits(text: &str) -> Option<(&str, &str)>
    ensures value { lexing.AgreesOnDigits result (lexing.digits_from (chars text.now)) }
    ensures digits { IfSome result (λ x. IsDigits x.0.now) }
{
    let (digits, rest) = split_after(Class::Digit, text);
    if digits.is_empty() {
        return None;
    }
    Some((digits, rest))
}

/// Returns the name at the beginning of the text and the text after it, or `None` if no name begins
/// there. (`split_after` takes the first character of a name too: each character that can begin a
/// name is in the class `NamePart`.)
#[inline(never)]
fn leading_name(text: &str) -> Option<(&str, &str)>
    ensures { lexing.AgreesOnName result (lexing.name_from (chars text.now)) }
{
    match first(text) {
        Some((c, _)) if starts_name(c) => Some(split_after(Class::NamePart, text)),
        _ => None,
    }
}

/// Returns the punctuation that consists of this character alone, if no punctuation of two
/// characters begins with it, and otherwise `None`. By the clause `unnamed`, such a character
/// begins no name, so punctuation can be tried before names.
#[inline(always)]
#[tactic(auto, using(crate::proofs::TokenLaws::no_start))]
fn single_punctuation(c: char) -> Option<Punctuation>
    ensures value { result ≡ lexing.single_punctuation c }
    ensures unnamed { IfSome result (λ _. tokens_spec.starts_name c ≡ false) }
{
    match c {
        '-' => Some(Punctuation::Minus),
        '*' => Some(Punctuation::Times),
        '<' => Some(Punctuation::Less),
        '(' => Some(Punctuation::Open),
        ')' => Some(Punctuation::Close),
        '[' => Some(Punctuation::OpenList),
        ']' => Some(Punctuation::CloseList),
        '{' => Some(Punctuation::OpenTable),
        '}' => Some(Punctuation::CloseTable),
        ',' => Some(Punctuation::Comma),
        ';' => Some(Punctuation::Semicolon),
        _ => None,
    }
}

/// Reads `++`, `==`, `+` or `=`, whose first character, `twice`, has been read. If `text` begins
/// with `twice`, returns `two` and the text after that character, and otherwise `one` and `text`.
#[inline(always)]
fn double_mark(twice: char, two: Punctuation, one: Punctuation, text: &str) -> (Punctuation, &str)
    ensures { (result.0, chars result.1.now) ≡ lexing.double_mark twice two one (chars text.now) }
{
    match first(text) {
        Some((c, rest)) if c == twice => (two, rest),
        _ => (one, text),
    }
}

/// Returns the punctuation that begins with the character `c`, and the text after it, or `None` if
/// none begins with `c`. `rest` is the text after `c`. By the clause `unnamed`, a character that
/// begins punctuation begins no name.
#[inline(always)]
#[tactic(auto, using(crate::proofs::TokenLaws::no_start))]
fn punctuation_of(c: char, rest: &str) -> Option<(Punctuation, &str)>
    ensures value { option_map (λ x. (x.0, chars x.1.now)) result
        ≡ lexing.punctuation_from (c ∷ chars rest.now) }
    ensures unnamed { IfSome result (λ _. tokens_spec.starts_name c ≡ false) }
{
    match c {
        '+' => Some(double_mark('+', Punctuation::Join, Punctuation::Plus, rest)),
        '=' => Some(double_mark('=', Punctuation::EqualEqual, Punctuation::Equal, rest)),
        _ => Some((single_punctuation(c)?, rest)),
    }
}

/// Returns the character that a backslash followed by `c` denotes, or `None` if this is not an
/// escape.
fn escape(c: char) -> Option<char>
    ensures { result ≡ tokens_spec.escaped c }
{
    match c {
        '"' => Some('"'),
        '\\' => Some('\\'),
        'n' => Some('\n'),
        't' => Some('\t'),
        'r' => Some('\r'),
        _ => None,
    }
}

/// Returns whether a backslash followed by the character is an escape.
fn is_escape(c: char) -> bool
    ensures { result ≡ is_some (tokens_spec.escaped c) }
{
    escape(c).is_some()
}

/// Returns the text after the escape whose backslash has been read, or `None` if this is not an
/// escape.
fn past_escape(text: &str) -> Option<&str>
    ensures { lexing.IsAfterEscape text.now result }
{
    match first(text) {
        Some((c, rest)) if is_escape(c) => Some(rest),
        _ => None,
    }
}

/// Returns the text after the first character, or escape, of the body of a text literal. Returns
/// `None` at a quote, at a backslash that does not begin an escape, and at the end of the text.
#[tactic(auto, using(crate::proofs::TextTurns::past))]
fn past_character(text: &str) -> Option<&str>
    ensures { MatchOption result (lexing.character_from (chars text.now) ≡ None)
        (λ rest. IsPast text.now rest.now) }
{
    match first(text)? {
        ('"', _) => None,
        ('\\', rest) => past_escape(rest),
        (_, rest) => Some(rest),
    }
}

/// Returns the text after a closing quote, or `None` if the text does not begin with one.
fn after_quote(text: &str) -> Option<&str>
    ensures { option_map (λ x. chars x.now) result ≡ lexing.after_quote (chars text.now) }
{
    match first(text) {
        Some(('"', rest)) => Some(rest),
        _ => None,
    }
}

/// Returns the text after a dot, or `None` if the text does not begin with one.
fn after_dot(text: &str) -> Option<&str>
    ensures { option_map (λ x. chars x.now) result ≡ lexing.after_dot (chars text.now) }
{
    match first(text) {
        Some(('.', rest)) => Some(rest),
        _ => None,
    }
}

/// Returns the character that the beginning of the body of a text literal denotes, and the text
/// after it. An escape denotes one character, and any other character denotes itself, also a quote.
/// (The body of a token has quotes only in escapes, but `unescaped` accepts any text.) Returns
/// `None` at the end and at a backslash that does not begin an escape.
fn character(text: &str) -> Option<(char, &str)>
    ensures { option_map (λ x. (x.0, chars x.1.now)) result
        ≡ lexing.piece_from (chars text.now) }
{
    match first(text)? {
        ('\\', rest) => {
            let (c, rest) = first(rest)?;
            Some((escape(c)?, rest))
        }
        (c, rest) => Some((c, rest)),
    }
}

/// Returns the text that a text literal denotes, given its body between the quotes. If a backslash
/// begins no escape, returns what the body before it denotes (the body of a token has no such
/// backslash). Fails with `NoMemory` if the text cannot be allocated.
#[tactic(auto, using(crate::proofs::TextTurns::piece_some, crate::proofs::TextTurns::piece_none,))]
pub fn unescaped(alloc: Global, body: &str) -> Result<Text, NoMemory>
    ensures { IfOk result (λ text. text ≡ lexing.unescaped (chars body.now)) }
{
    let mut text = String::new(alloc);
    let mut rest = body;
    while let Some((c, following)) = character(rest) {
        text.push(c)?;
        rest = following;
    }
    Ok(Text::from_string(text))
}

/// Returns the body of the text literal whose opening quote has been read, and the text after its
/// closing quote, or `None` if the literal has a wrong escape or no closing quote.
#[inline(never)]
fn leading_quoted(text: &str) -> Option<(&str, &str)>
    ensures { option_map (λ x. (token.Text (lexing.unescaped (chars x.0.now)), chars x.1.now)) result
        ≡ lexing.text_from (length (chars text.now)) [] (chars text.now) }
{
    let mut rest = text;
    while let Some(after) = past_character(rest) {
        rest = after;
    }
    match after_quote(rest) {
        Some(following) => {
            let (body, _) = text.split_at(text.len() - rest.len());
            Some((body, following))
        }
        None => None,
    }
}

/// Reads the text literal whose opening quote has been read. Fails with `Nothing` if the literal
/// has a wrong escape or no closing quote.
#[inline(always)]
fn text_literal(text: &str) -> Result<(GrammarToken<'_>, &str), TokenFault>
    ensures { AgreesOnToken result (lexing.text_from (length (chars text.now)) [] (chars text.now)) }
{
    match leading_quoted(text) {
        Some((body, rest)) => Ok((GrammarToken::Text(body), rest)),
        None => Err(TokenFault::Nothing),
    }
}

/// Makes the number literal of these digits; `rest` is the text after them. Fails with `TooLarge`
/// if the number does not fit in an `i64`.
#[inline(always)]
fn number_literal<'t>(
    digits: &str,
    rest: &'t str,
) -> Result<(GrammarToken<'t>, &'t str), TokenFault>
    requires { IsDigits digits.now }
    ensures { AgreesOnToken result
        (Some (token.Number (pos (digits_value 10 digits.now)), chars rest.now)) }
{
    match digits.parse::<i64>() {
        Ok(number) => Ok((GrammarToken::Number(number), rest)),
        Err(_) => Err(TokenFault::TooLarge),
    }
}

/// Reads the number literal at the beginning of the text, with any number of digits. Fails with
/// `TooLarge` if the number does not fit in an `i64`, and with `Nothing` if the text does not begin
/// with a digit.
#[inline(always)]
fn long_number(text: &str) -> Result<(GrammarToken<'_>, &str), TokenFault>
    ensures { AgreesOnToken result (lexing.number_from (chars text.now)) }
{
    match leading_digits(text) {
        Some((digits, rest)) => number_literal(digits, rest),
        None => Err(TokenFault::Nothing),
    }
}

/// Returns the digit at the beginning of the text and the text after it, or `None` if the text does
/// not begin with a digit.
fn leading_digit(text: &str) -> Option<(char, &str)>
    ensures { lexing.IsAfterDigit text.now result }
{
    match first(text) {
        Some((c, rest)) if c.is_ascii_digit() => Some((c, rest)),
        _ => None,
    }
}

/// Returns the number whose digits are `digit` and the digits at the beginning of `text`, and the
/// text after these; or `None` if the number is 10^18 or more. Below 10^18 no step can overflow, so
/// no step is checked; `long_number` reads greater numbers.
fn short_number(digit: char, text: &str) -> Option<(i64, &str)>
    requires { is_ascii_digit digit ≡ true }
    ensures value { IfSome result (λ x. x.0
        ≡ pos (digits_value 10 (prefix_in class.Digit (digit ∷ chars text.now)))) }
    ensures rest { IfSome result (λ x. chars x.1.now
        ≡ rest_in class.Digit (digit ∷ chars text.now)) }
{
    // 48 is the code of `0`
    let mut number = digit as u64 - 48;
    let mut rest = text;
    while let Some((c, following)) = leading_digit(rest) {
        // with one more digit, a number from 10^17 on is 10^18 or more
        if number > 99_999_999_999_999_999 {
            return None;
        }
        number = number * 10 + (c as u64 - 48);
        rest = following;
    }
    Some((number as i64, rest))
}

/// Reads the number literal at the beginning of `text`. `digit` is the first character of `text`,
/// and `rest` the text after it. Fails with `TooLarge` if the number does not fit in an `i64`.
#[inline(always)]
fn number<'t>(
    digit: char,
    rest: &'t str,
    text: &'t str,
) -> Result<(GrammarToken<'t>, &'t str), TokenFault>
    requires digit { is_ascii_digit digit ≡ true }
    requires split { lexing.IsSplit text.now digit rest.now }
    ensures { AgreesOnToken result (lexing.number_from (chars text.now)) }
{
    match short_number(digit, rest) {
        Some((number, following)) => Ok((GrammarToken::Number(number), following)),
        None => long_number(text),
    }
}

/// Returns the digits and the name of the occurrence whose `$` has been read, and the text after
/// it, or `None` if this is not an occurrence.
#[inline(never)]
fn leading_occurrence(text: &str) -> Option<(&str, &str, &str)>
    ensures value { option_map (λ x. (token.Occurrence (digits_value 10 x.0.now) x.1.now, chars x.2.now)) result
        ≡ lexing.occurrence_from (chars text.now) }
    ensures digits { IfSome result (λ x. IsDigits x.0.now) }
{
    let (digits, rest) = leading_digits(text)?;
    let (attr, rest) = leading_name(after_dot(rest)?)?;
    Some((digits, attr, rest))
}

/// Makes the occurrence of these digits and this name; `rest` is the text after it. Fails with
/// `TooLarge` if the place is above 65,535.
#[inline(always)]
fn occurrence_of<'t>(
    digits: &str,
    attr: &'t str,
    rest: &'t str,
) -> Result<(GrammarToken<'t>, &'t str), TokenFault>
    requires { IsDigits digits.now }
    ensures { AgreesOnToken result
        (Some (token.Occurrence (digits_value 10 digits.now) attr.now, chars rest.now)) }
{
    match digits.parse::<u16>() {
        Ok(place) => Ok((GrammarToken::Occurrence(place, attr), rest)),
        Err(_) => Err(TokenFault::TooLarge),
    }
}

/// Reads the occurrence whose `$` has been read. Fails with `Nothing` if this is not an occurrence,
/// and with `TooLarge` if its place is above 65,535.
#[inline(always)]
fn occurrence(text: &str) -> Result<(GrammarToken<'_>, &str), TokenFault>
    ensures { AgreesOnToken result (lexing.occurrence_from (chars text.now)) }
{
    match leading_occurrence(text) {
        Some((digits, attr, rest)) => occurrence_of(digits, attr, rest),
        None => Err(TokenFault::Nothing),
    }
}

/// Reads the name or punctuation at the beginning of `text`. `c` is the first character of `text`,
/// not a digit, and `rest` the text after it. Fails with `Nothing` if neither begins there.
#[inline(always)]
#[tactic(auto, using(crate::proofs::Numerals::no_digit))]
fn plain_token<'t>(
    c: char,
    rest: &'t str,
    text: &'t str,
) -> Result<(GrammarToken<'t>, &'t str), TokenFault>
    requires digit { is_ascii_digit c ≡ false }
    requires split { lexing.IsSplit text.now c rest.now }
    ensures { AgreesOnToken result (lexing.plain_from (chars text.now)) }
{
    if let Some((mark, following)) = punctuation_of(c, rest) {
        return Ok((GrammarToken::Punctuation(mark), following));
    }
    match leading_name(text) {
        Some((name, following)) => Ok((GrammarToken::Name(name), following)),
        None => Err(TokenFault::Nothing),
    }
}

/// Reads the first token of a text; returns it and the text after it. Fails with `Nothing` if no
/// token begins there, and with `TooLarge` if the number or place of the token is above its limit.
///
/// For speed, the functions that read a name, a quoted text or an occurrence are not inlined and
/// return only the parts of a token. So this function assembles the token in registers.
#[inline(never)]
#[tactic(auto, using(crate::proofs::Numerals::some_digit), unfolding(crate::specs::Lexing::token_from))]
pub fn leading_token(text: &str) -> Result<(GrammarToken<'_>, &str), TokenFault>
    ensures { AgreesOnToken result (lexing.token_from (chars text.now)) }
{
    match first(text) {
        Some(('"', rest)) => text_literal(rest),
        Some(('$', rest)) => occurrence(rest),
        Some((c, rest)) if c.is_ascii_digit() => number(c, rest, text),
        Some((c, rest)) => plain_token(c, rest, text),
        None => Err(TokenFault::Nothing),
    }
}

/// Reads the first token of a text, as `leading_token` does, if it is punctuation or a number below
/// 10^18. Otherwise returns `None`.
#[inline(always)]
#[tactic(auto, using(crate::proofs::TokenLaws::marked_token, crate::proofs::Numerals::numbered_token))]
pub fn quick_token(text: &str) -> Option<(GrammarToken<'_>, &str)>
    ensures { IfSome result (λ x. lexing.IsSameToken x (lexing.token_from (chars text.now))) }
{
    match first(text)? {
        (c, rest) if c.is_ascii_digit() => {
            let (number, following) = short_number(c, rest)?;
            Some((GrammarToken::Number(number), following))
        }
        (c, rest) => {
            let (mark, following) = punctuation_of(c, rest)?;
            Some((GrammarToken::Punctuation(mark), following))
        }
    }
}
