//! What the parser would accept where it rejects the text of a grammar. Messages list this. To find
//! it, the text before the offset is parsed once for each candidate, with the candidate after it.

use crate::fault::TextFault;
use crate::grammar::read_grammar;
use ag_expr::ExprFault;
use ag_tokens::{Cursor, GrammarToken, Punctuation};
use ag_value::NoMemory;
use std::alloc::Global;

/// Something that could be at an offset of a grammar's text.
#[derive(Clone, Copy, Debug, PartialEq, Eq)]
pub enum Expected {
    /// A name that is not reserved: of a symbol or of an attribute.
    Name,
    /// An item of a right side: the name of a symbol, a literal, or a class.
    Item,
    /// A rule, which begins with its target.
    Rule,
    /// This part of an expression. Never `End`: an expression ends with the sign `;`.
    Part(ag_expr::ExpectedPart),
    /// This punctuation or reserved name.
    Sign(&'static str),
    /// The end of the text.
    End,
}

/// The signs and reserved names that `gather_outside` tries, besides names, items and rules: those
/// that can be outside of expressions.
const SIGNS: [&str; 9] = ["=", "{", "}", ",", ";", "start", "symbol", "syn", "inh"];

/// Returns what could be at the offset of this fault instead of the token there. The fault is G2,
/// or G3 with X2. For another fault returns an empty list. Parses the text before the offset once
/// without anything after it, and once for each candidate with the candidate after it: up to 13
/// times for G2, and up to 14 times for G3. For G3 the parsed text begins with the expression of
/// the rule. If an expression at the offset would be of level 65, the result contains no expression
/// or operand. It can still contain a `]`, since no expression is needed between `[` and `]`. Fails
/// with `NoMemory` if memory runs out.
pub fn expected_at(alloc: Global, text: &str, fault: TextFault) -> Result<Vec<Expected>, NoMemory> {
    match fault {
        TextFault::Unexpected(_, at) => expected_outside(alloc, text, at),
        TextFault::Expr(ExprFault::Unexpected(at)) => expected_inside(alloc, text, at),
        _ => Ok(Vec::new(alloc)),
    }
}

/// Returns what `expected_at` returns, but parses only the text from the byte offset `from` on, at
/// which a rule or a declaration begins (`part_starts`). So it also serves a fault that comes after
/// others. Fails with `NoMemory` if memory runs out.
pub fn expected_in_part(
    alloc: Global,
    text: &str,
    from: usize,
    fault: TextFault,
) -> Result<Vec<Expected>, NoMemory> {
    let part = text.get(from..).unwrap_or("");
    match fault {
        TextFault::Unexpected(_, at) => {
            let before = part.get(..at.saturating_sub(from)).unwrap_or("");
            // a text that the part can follow
            let lead = if part.starts_with('$') {
                "start S; S = {"
            } else {
                "start S;"
            };
            let before = format!(in alloc; "{lead} {before}")?;
            let mut found = Vec::new(alloc);
            gather_outside(alloc, before.as_str(), &mut found)?;
            Ok(found)
        }
        TextFault::Expr(ExprFault::Unexpected(at)) => {
            expected_inside(alloc, part, at.saturating_sub(from))
        }
        _ => Ok(Vec::new(alloc)),
    }
}

/// Returns what could be at a byte offset outside of expressions; an empty list if the offset is
/// not on a character boundary. Fails with `NoMemory`.
fn expected_outside(alloc: Global, text: &str, at: usize) -> Result<Vec<Expected>, NoMemory> {
    let mut found = Vec::new(alloc);
    if let Some(before) = text.get(..at) {
        gather_outside(alloc, before, &mut found)?;
    }
    Ok(found)
}

/// Collects in `found` what could follow `before`, which ends outside of expressions. The literal
/// `"a"` is tried for any item, and `$0._` for any rule. `_` is tried for any name, unless an item
/// could follow: names are items too. Fails with `NoMemory`.
fn gather_outside(alloc: Global, before: &str, found: &mut Vec<Expected>) -> Result<(), NoMemory> {
    if can_follow(alloc, before, "\"a\"")? {
        found.push(Expected::Item)?;
    } else if can_follow(alloc, before, "_")? {
        found.push(Expected::Name)?;
    }
    if can_follow(alloc, before, "$0._")? {
        found.push(Expected::Rule)?;
    }
    for sign in SIGNS {
        if can_follow(alloc, before, sign)? {
            found.push(Expected::Sign(sign))?;
        }
    }
    if refused_at(alloc, before)?.is_none() {
        found.push(Expected::End)?;
    }
    Ok(())
}

/// Returns what could be at a byte offset inside an expression; an empty list if the offset is not
/// on a character boundary. Fails with `NoMemory`.
fn expected_inside(alloc: Global, text: &str, at: usize) -> Result<Vec<Expected>, NoMemory> {
    let mut found = Vec::new(alloc);
    let from = expression_start(text, at);
    let Some(expression) = text.get(from..) else {
        return Ok(found);
    };
    let parts = ag_expr::expected_at(alloc, expression, at.saturating_sub(from))?;
    for part in &parts {
        match part {
            ag_expr::ExpectedPart::End => found.push(Expected::Sign(";"))?,
            other => found.push(Expected::Part(*other))?,
        }
    }
    Ok(found)
}

/// Returns the byte offset at which the expression around the offset `at` begins: the offset of the
/// token after the `=` of the rule. This `=` is the last one before `at` that comes directly after
/// an occurrence. (In the part of an expression before its fault, a `=` comes only after a name, in
/// a `let`.) Returns 0 if there is no such `=`.
fn expression_start(text: &str, at: usize) -> usize {
    let mut cursor = Cursor::new(text);
    let mut start = 0usize;
    let mut after_occurrence = false;
    // a text has at most as many tokens as bytes
    for _ in 0..text.len() {
        if cursor.offset() >= at {
            break;
        }
        let Some(token) = cursor.peek() else {
            break;
        };
        cursor.bump();
        if after_occurrence && token == GrammarToken::Punctuation(Punctuation::Equal) {
            start = cursor.offset();
        }
        after_occurrence = matches!(token, GrammarToken::Occurrence(..));
    }
    start
}

/// Returns whether `token` could follow `before`: whether `before`, a space and `token` are a
/// grammar, or are rejected only after the offset of `token`. Fails with `NoMemory`.
fn can_follow(alloc: Global, before: &str, token: &str) -> Result<bool, NoMemory> {
    let tried = format!(in alloc; "{before} {token}")?;
    match refused_at(alloc, tried.as_str())? {
        Some(at) => Ok(at > before.len().saturating_add(1)),
        None => Ok(true),
    }
}

/// Returns the byte offset at which the text is rejected with G2 or with G3 and X2. Returns `None`
/// if the text is a grammar. Returns 0 for another fault, so that no candidate counts as possible.
/// Fails with `NoMemory`.
fn refused_at(alloc: Global, text: &str) -> Result<Option<usize>, NoMemory> {
    match read_grammar(alloc, text.as_bytes()) {
        Ok(_) => Ok(None),
        Err(TextFault::NoMemory) | Err(TextFault::Expr(ExprFault::NoMemory)) => Err(
            NoMemory::NoMemory,
        ),
        // G3 with X2: the text ends after the `=` of a rule, where its expression could begin
        Err(TextFault::Unexpected(_, at) | TextFault::Expr(ExprFault::Unexpected(at))) => Ok(Some(
            at,
        )),
        Err(_) => Ok(Some(0)),
    }
}
