//! Finds all faults of the tokens of a grammar's text: after each fault the parser resumes at the
//! next *part*, which is a rule or a declaration.

ghost use Rattle.std.specs.Prelude.{◌≡◌, ◌≢◌, ◌++◌, ◌∷◌, [], IfOk, OnOk, chars, drop, option_map, true};
ghost use Rattle.std.specs.Str.{IsCharBoundary};
ghost use Rattle.ag_tokens.specs.Lexing.{token_of};
ghost use Rattle.ag_tokens.specs.Parsing.{next_satisfies, sees};
ghost use Rattle.ag_tokens.specs.PlacedToken.{Input};
ghost use Rattle.ag_tokens.specs.Tokens.{Lexes};
ghost use Rattle.ag_tokens.specs.declared.token.Punctuation.TheVariants as punctuation;
ghost use Rattle.ag_text.specs.Meanings as meanings;
ghost use Rattle.ag_text.specs.Places.{IsNoted, IsPlace};
ghost use Rattle.ag_text.specs.Reading.{grammar_of, is_any};
ghost use Rattle.ag_text.specs.Resuming as resuming;
ghost use Rattle.ag_text.specs.declared.stop.Stop.TheVariants as stop;

use crate::parser::{rest_of_text, whole_grammar};
use crate::stop::Stop;
use crate::tokens::is_reserved;
use ag_expr::ExprFault;
use ag_tokens::{Cursor, GrammarToken, Punctuation, is_mark};
use ag_value::NoMemory;
use std::alloc::Global;

/// Returns whether a part can end with the token: it is `;` or `mark`.
fn can_end(mark: Punctuation, token: GrammarToken<'_>) -> bool
    ensures { result ≡ resuming.can_end mark (token_of token.entry) }
{
    is_mark(Punctuation::Semicolon, token) || is_mark(mark, token)
}

/// Returns whether there is a token and it is `=`.
fn is_equal(token: Option<GrammarToken<'_>>) -> bool
    ensures { result
        ≡ next_satisfies (meanings.is_mark punctuation.Equal) (option_map token_of token.entry) }
{
    match token {
        Some(token) => is_mark(Punctuation::Equal, token),
        None => false,
    }
}

/// Returns whether a part can begin with a token. `before` and `after` are the tokens around it. A
/// declaration begins after a `;` or `}`, with `symbol` or with a name and `=`. A rule begins after
/// a `;` or `{`, with an occurrence and `=`.
fn can_begin(
    before: GrammarToken<'_>,
    token: GrammarToken<'_>,
    after: Option<GrammarToken<'_>>,
) -> bool
    ensures { result
        ≡ resuming.can_begin (token_of before.entry) (token_of token.entry)
        (option_map token_of after.entry) }
{
    match token {
        GrammarToken::Name(name) => {
            can_end(Punctuation::CloseTable, before)
                && (name == "symbol" || !is_reserved(name) && is_equal(after))
        }
        GrammarToken::Occurrence(_, _) => can_end(Punctuation::OpenTable, before)
            && is_equal(after),
        _ => false,
    }
}

/// Returns the byte offset of a fault of an expression; 0 for `NoMemory`.
fn offset_in_expr(fault: ExprFault) -> usize
    ensures { result ≡ resuming.expr_offset fault }
{
    match fault {
        ExprFault::NoToken(at) => at,
        ExprFault::Unexpected(at) => at,
        ExprFault::NumberTooLarge(at) => at,
        ExprFault::TooDeep(at) => at,
        ExprFault::NoMemory => 0,
    }
}

/// Returns the byte offset of a fault of the parser; 0 for `NoMemory`.
pub fn offset_of(fault: Stop) -> usize
    ensures { result ≡ resuming.stop_offset fault }
{
    match fault {
        Stop::WrongAt(at) => at,
        Stop::InExpr(fault) => offset_in_expr(fault),
        Stop::NoMemory => 0,
    }
}

/// Returns the byte offset of the first token that is at the byte offset `at` or later, and with
/// which a part can begin. The tokens begin at the byte offset `from`; the first of them is not
/// looked at. Returns `None` if there is no such token.
fn next_part(text: &str, from: usize, at: usize) -> Option<usize>
    requires { IsCharBoundary text.now from }
    ensures { (i : Input) → Lexes from (chars (drop from text.now)) i
        → IsPlace text.now (resuming.next_part at i) result }
{
    let mut cursor = Cursor::at(text, from);
    let Some(mut before) = cursor.peek() else {
        return None;
    };
    cursor.bump();
    while let Some(token) = cursor.peek() {
        let here = cursor.offset();
        cursor.bump();
        if here >= at && can_begin(before, token, cursor.peek()) {
            return Some(here);
        }
        before = token;
    }
    None
}

/// Returns the byte offsets of all tokens of a text with which a rule or a declaration can begin, in
/// their order. Fails with `NoMemory`.
pub fn part_starts(alloc: Global, text: &str) -> Result<Vec<usize>, NoMemory> {
    let mut starts = Vec::new(alloc);
    let mut cursor = Cursor::new(text);
    let Some(mut before) = cursor.peek() else {
        return Ok(starts);
    };
    cursor.bump();
    // a text has at most as many tokens as bytes
    for _ in 0..text.len() {
        let Some(token) = cursor.peek() else {
            break;
        };
        let here = cursor.offset();
        cursor.bump();
        if can_begin(before, token, cursor.peek()) {
            starts.push(here)?;
        }
        before = token;
    }
    Ok(starts)
}

/// Adds a fault to `faults`, and returns the byte offset of the next part after it. The tokens in
/// which the parser found the fault begin at the byte offset `from`. Fails with `NoMemory` if the
/// list cannot grow or if this is the fault.
fn push_fault(
    text: &str,
    from: usize,
    fault: Stop,
    faults: &mut Vec<Stop>,
) -> Result<Option<usize>, NoMemory>
    requires { IsCharBoundary text.now from }
    ensures known { OnOk result (fault ≢ stop.NoMemory) }
    ensures pushed { OnOk result (faults.new.items ≡ faults.old.items ++ fault ∷ []) }
    ensures next { IfOk result (λ next. (i : Input) → Lexes from (chars (drop from text.now)) i
        → IsPlace text.now (resuming.resumed fault i) next) }
{
    if let Stop::NoMemory = fault {
        return Err(NoMemory::NoMemory);
    }
    faults.push(fault)?;
    Ok(next_part(text, from, offset_of(fault)))
}

/// Parses a text as a grammar. If it has a fault, adds the fault to `faults`, and returns the byte
/// offset of the next part, if there is one. Fails with `NoMemory`.
fn read_first(alloc: Global, text: &str, faults: &mut Vec<Stop>) -> Result<Option<usize>, NoMemory>
    ensures { IfOk result (λ next. (i : Input) → Lexes 0 (chars text.now) i
        → IsNoted text.now i (grammar_of i) faults.old.items faults.new.items next) }
{
    let mut cursor = Cursor::new(text);
    match whole_grammar(alloc, &mut cursor) {
        Ok(_) => Ok(None),
        Err(fault) => push_fault(text, 0, fault, faults),
    }
}

/// Parses a text from the part at the byte offset `from` on. If it has a fault, adds the fault to
/// `faults`, and returns the byte offset of the next part, if there is one. Fails with `NoMemory`.
fn read_further(
    alloc: Global,
    text: &str,
    from: usize,
    faults: &mut Vec<Stop>,
) -> Result<Option<usize>, NoMemory>
    requires { IsCharBoundary text.now from }
    ensures { IfOk result (λ next. (i : Input) → Lexes from (chars (drop from text.now)) i
        → IsNoted text.now i (resuming.rest_from i) faults.old.items faults.new.items next) }
{
    let mut cursor = Cursor::at(text, from);
    match rest_of_text(alloc, &mut cursor) {
        Ok(()) => Ok(None),
        Err(fault) => push_fault(text, from, fault, faults),
    }
}

/// Returns all faults of the tokens of a text, in the order in which the parser finds them. Fails
/// with `NoMemory`.
pub fn all_faults(alloc: Global, text: &str) -> Result<Vec<Stop>, NoMemory>
    ensures { IfOk result (λ faults. (i : Input) → Lexes 0 (chars text.now) i
        → faults.items ≡ resuming.all_faults i) }
{
    let mut faults = Vec::new(alloc);
    let mut next = read_first(alloc, text, &mut faults)?;
    while let Some(from) = next {
        next = read_further(alloc, text, from, &mut faults)?;
    }
    Ok(faults)
}
