//! Tests and parsers for one token of a grammar's text.

ghost use Rattle.std.specs.List.{list_any};
ghost use Rattle.std.specs.Prelude.{◌≡◌, IfOk, chars};
ghost use Rattle.ag_tokens.specs.Lexing.{token_of, unescaped as unescaped_bytes};
ghost use Rattle.ag_tokens.specs.Parsing.{offset, sees};
ghost use Rattle.ag_tokens.specs.GrammarToken as token;
ghost use Rattle.ag_tokens.specs.Tokens.{is_separator};
ghost use Rattle.ag_text.specs.ParserContract.{Reads};
ghost use Rattle.ag_text.specs.Reading as reading;
ghost use Rattle.ag_text.specs.Resuming as resuming;
ghost use Rattle.ag_text.specs.Meanings as meanings;
ghost use Rattle.ag_text.specs.declared.stop.Stop.TheVariants as stop;

use crate::stop::Stop;
use ag_grammar::limits::{NAME, NUMBER, TEXT};
use ag_grammar::{Named, Occ, RawItem};
use ag_tokens::{Cursor, GrammarToken, Punctuation, is_mark, is_word, unescaped};
use ag_value::{NoMemory, Text};
use std::alloc::Global;

/// Returns whether a name is reserved in a grammar's text.
pub fn is_reserved(name: &str) -> bool
    ensures { result ≡ meanings.is_reserved name.now }
{
    name == "start"
        || name == "symbol"
        || name == "syn"
        || name == "inh"
        || name == "NAME"
        || name == "NUMBER"
        || name == "TEXT"
}

/// Returns `WrongAt` with the byte offset of the next token, or with the offset where the tokens
/// end.
pub fn refusal(cursor: &Cursor<'_>) -> Stop
    ensures { result ≡ stop.WrongAt (offset cursor.now) }
{
    Stop::WrongAt(cursor.offset())
}

/// Returns whether the next token is this punctuation.
pub fn sees_mark(cursor: &Cursor<'_>, mark: Punctuation) -> bool
    ensures { result ≡ sees (meanings.is_mark mark) cursor.now }
{
    match cursor.peek() {
        Some(token) => is_mark(mark, token),
        None => false,
    }
}

/// Returns whether the next token is this reserved name.
pub fn sees_word(cursor: &Cursor<'_>, word: &str) -> bool
    ensures { result ≡ sees (meanings.is_word word.now) cursor.now }
{
    match cursor.peek() {
        Some(token) => is_word(word, token),
        None => false,
    }
}

/// Returns whether there is a next token other than this punctuation.
pub fn sees_other(cursor: &Cursor<'_>, mark: Punctuation) -> bool
    ensures { result ≡ sees (reading.is_other_than mark) cursor.now }
{
    match cursor.peek() {
        Some(token) => !is_mark(mark, token),
        None => false,
    }
}

/// Returns whether there is a next token.
pub fn sees_any(cursor: &Cursor<'_>) -> bool
    ensures { result ≡ sees reading.is_any cursor.now }
{
    cursor.peek().is_some()
}

/// Returns whether the next token is an occurrence.
pub fn sees_occurrence(cursor: &Cursor<'_>) -> bool
    ensures { result ≡ sees resuming.is_occurrence cursor.now }
{
    matches!(cursor.peek(), Some(GrammarToken::Occurrence(_, _)))
}

/// Reads this punctuation. Fails with `WrongAt` if the next token is not this punctuation, or if
/// there is no next token.
pub fn expect(cursor: &mut Cursor<'_>, mark: Punctuation) -> Result<(), Stop>
    ensures { Reads (reading.expect mark) cursor.old result cursor.new }
{
    match cursor.peek() {
        Some(token) if is_mark(mark, token) => {
            cursor.bump();
            Ok(())
        }
        _ => Err(refusal(cursor)),
    }
}

/// Reads this reserved name. Fails with `WrongAt` if the next token is not this name, or if there
/// is no next token.
pub fn expect_word(cursor: &mut Cursor<'_>, word: &str) -> Result<(), Stop>
    ensures { Reads (reading.expect_word word.now) cursor.old result cursor.new }
{
    match cursor.peek() {
        Some(token) if is_word(word, token) => {
            cursor.bump();
            Ok(())
        }
        _ => Err(refusal(cursor)),
    }
}

/// Returns a copy of a text. Fails with `NoMemory` if memory runs out.
fn copy_of(alloc: Global, text: &str) -> Result<Text, NoMemory>
    ensures { IfOk result (λ copy. copy ≡ text.now) }
{
    Ok(Text::from_string(String::from_str(alloc, text)?))
}

/// Reads a name that is not reserved, and returns it with its offset in bytes. Fails with `WrongAt`
/// if the next token is not such a name, or if there is no next token. Fails with `NoMemory` if
/// memory runs out.
pub fn name(alloc: Global, cursor: &mut Cursor<'_>) -> Result<Named, Stop>
    ensures { Reads (reading.one_from meanings.name_in) cursor.old result cursor.new }
{
    match cursor.peek() {
        Some(GrammarToken::Name(name)) if !is_reserved(name) => {
            let at = cursor.offset();
            let name = copy_of(alloc, name)?;
            cursor.bump();
            Ok(Named { name, at })
        }
        _ => Err(refusal(cursor)),
    }
}

/// Returns the number of the token class with this reserved name, or `None`.
fn class(name: &str) -> Option<u16>
    ensures { result ≡ meanings.class_of name.now }
{
    if name == "NAME" {
        Some(NAME)
    } else if name == "NUMBER" {
        Some(NUMBER)
    } else if name == "TEXT" {
        Some(TEXT)
    } else {
        None
    }
}

/// Returns whether the bytes contain a separator.
fn has_separator(bytes: &[u8]) -> bool
    ensures { result ≡ list_any is_separator bytes.now }
{
    for byte in bytes {
        let c = *byte;
        if c == b' ' || c == b'\t' || c == b'\r' || c == b'\n' {
            return true;
        }
    }
    false
}

/// Returns whether a text can be a literal: it is not empty and contains no separator.
fn is_literal(text: &str) -> bool
    ensures { result ≡ meanings.is_literal text.now }
{
    !text.is_empty() && !has_separator(text.as_bytes())
}

/// Returns the item for a text literal in a right side, or `None` if the text is empty or contains
/// a separator. `body` is the text between the quotes, with its escapes. Fails with `NoMemory` if
/// memory runs out.
fn literal(alloc: Global, body: &str) -> Result<Option<RawItem>, NoMemory>
    ensures { IfOk result (λ found. found
        ≡ meanings.literal_of (unescaped_bytes (chars body.now))) }
{
    let text = unescaped(alloc, body)?;
    if is_literal(text.as_str()) {
        return Ok(Some(RawItem::Literal(text)));
    }
    Ok(None)
}

/// Returns the item for a name at the byte offset `at`: a class or a symbol's name; `None` for
/// another reserved name. Fails with `NoMemory` if memory runs out.
fn named_item(alloc: Global, name: &str, at: usize) -> Result<Option<RawItem>, NoMemory>
    ensures { IfOk result (λ found. found ≡ meanings.item_in at (token.Name name.now)) }
{
    if let Some(class) = class(name) {
        return Ok(Some(RawItem::Class(class)));
    }
    if is_reserved(name) {
        return Ok(None);
    }
    let name = copy_of(alloc, name)?;
    Ok(Some(RawItem::Name(Named { name, at })))
}

/// Returns the item of a right side for a token at the byte offset `at`, or `None` if the token
/// cannot be one. Fails with `NoMemory` if memory runs out.
fn item_of(alloc: Global, token: GrammarToken<'_>, at: usize) -> Result<Option<RawItem>, NoMemory>
    ensures { IfOk result (λ found. found ≡ meanings.item_in at (token_of token.entry)) }
{
    match token {
        GrammarToken::Name(name) => named_item(alloc, name, at),
        GrammarToken::Text(body) => literal(alloc, body),
        _ => Ok(None),
    }
}

/// Reads an item of a right side: a class, a name or a literal. Fails with `WrongAt` if the next
/// token is not an item, or if there is no next token. Fails with `NoMemory` if memory runs out.
pub fn item(alloc: Global, cursor: &mut Cursor<'_>) -> Result<RawItem, Stop>
    ensures { Reads (reading.one_from meanings.item_in) cursor.old result cursor.new }
{
    let at = cursor.offset();
    if let Some(token) = cursor.peek() {
        if let Some(item) = item_of(alloc, token, at)? {
            cursor.bump();
            return Ok(item);
        }
    }
    Err(refusal(cursor))
}

/// Reads the target of a rule, which is an occurrence such as `$1.value`, and returns it with its
/// offset in bytes. Fails with `WrongAt` if the next token is not an occurrence, or if there is no
/// next token. Fails with `NoMemory` if memory runs out.
pub fn target(alloc: Global, cursor: &mut Cursor<'_>) -> Result<Occ, Stop>
    ensures { Reads (reading.one_from meanings.target_in) cursor.old result cursor.new }
{
    match cursor.peek() {
        Some(GrammarToken::Occurrence(place, attr)) => {
            let at = cursor.offset();
            let attr = copy_of(alloc, attr)?;
            cursor.bump();
            Ok(Occ { place, attr, at })
        }
        _ => Err(refusal(cursor)),
    }
}

/// Checks that the text ends here. Fails with `WrongAt` if it does not.
pub fn expect_end(cursor: &mut Cursor<'_>) -> Result<(), Stop>
    ensures { Reads reading.at_end cursor.old result cursor.new }
{
    if !cursor.is_at_end() {
        return Err(refusal(cursor));
    }
    Ok(())
}
