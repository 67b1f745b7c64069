//! What the parser would accept at the offset where it rejects a text. Messages list this. To find
//! it, the text before the offset is parsed once for each candidate, with the candidate after it.

use crate::expression::read_expr;
use crate::fault::ExprFault;
use crate::names::is_reserved;
use ag_tokens::{Cursor, GrammarToken};
use ag_value::NoMemory;
use std::alloc::Global;

/// Something that could be at an offset of a text.
#[derive(Clone, Copy, Debug, PartialEq, Eq)]
pub enum ExpectedPart {
    /// An expression, which may be a `let` or an `if`.
    Expression,
    /// An expression other than a `let` or an `if`.
    Operand,
    /// A name that is bound there. The token at the offset is then a name that is neither reserved
    /// nor bound.
    BoundName,
    /// A new name for a binding: one that is not reserved.
    NewName,
    /// An operator.
    Operator,
    /// An operator other than `==` and `<`: the chain already has one of these.
    TighterOperator,
    /// This punctuation or reserved name.
    Sign(&'static str),
    /// The end of the text.
    End,
}

/// The signs, other than operators, that `gather_signs` tries. `[` and `{` are not among them: they
/// only begin an operand, and where an operand can follow, the result says so.
const SIGNS: [&str; 9] = ["=", "(", ")", "]", "}", ",", "in", "then", "else"];

/// Returns what could be at the byte offset `at` instead of the token there, for a text that is
/// refused there with X2. Tries each candidate after the text before the offset, so this text is
/// parsed up to 14 times. If an expression at the offset would be of level 65, the result contains
/// no expression or operand. It can still contain a `]`, since no expression is needed between `[`
/// and `]`. The result is empty if `at` is not a character boundary of the text. Fails with
/// `NoMemory` if memory runs out.
pub fn expected_at(alloc: Global, text: &str, at: usize) -> Result<Vec<ExpectedPart>, NoMemory> {
    let mut found = Vec::new(alloc);
    if let Some(before) = text.get(..at) {
        gather(alloc, text, before, &mut found)?;
    }
    Ok(found)
}

/// Collects in `found` what could follow `before`, which is a prefix of `text`. `1` is tried for
/// any operand, `_` for any new name, `==` for any operator, and `*` for the operators other than
/// `==` and `<`. Fails with `NoMemory`.
fn gather(
    alloc: Global,
    text: &str,
    before: &str,
    found: &mut Vec<ExpectedPart>,
) -> Result<(), NoMemory> {
    let operand = can_follow(alloc, before, "1")?;
    if operand {
        found.push(operand_at(alloc, text, before)?)?;
    } else {
        note(alloc, before, "_", ExpectedPart::NewName, found)?;
    }
    if !note(alloc, before, "==", ExpectedPart::Operator, found)? {
        note(alloc, before, "*", ExpectedPart::TighterOperator, found)?;
    }
    gather_signs(alloc, before, operand, found)?;
    if refused_at(alloc, before)?.is_none() {
        found.push(ExpectedPart::End)?;
    }
    Ok(())
}

/// Collects in `found` the signs that could follow `before`. Omits `(` if `operand` is true: then
/// an operand could follow, and `(` begins one. Fails with `NoMemory`.
fn gather_signs(
    alloc: Global,
    before: &str,
    operand: bool,
    found: &mut Vec<ExpectedPart>,
) -> Result<(), NoMemory> {
    for sign in SIGNS {
        if !(operand && sign == "(") {
            note(alloc, before, sign, ExpectedPart::Sign(sign), found)?;
        }
    }
    Ok(())
}

/// Appends `expected` to `found` if `token` could follow `before`, and returns whether it could.
/// Fails with `NoMemory`.
fn note(
    alloc: Global,
    before: &str,
    token: &str,
    expected: ExpectedPart,
    found: &mut Vec<ExpectedPart>,
) -> Result<bool, NoMemory> {
    let occurs = can_follow(alloc, before, token)?;
    if occurs {
        found.push(expected)?;
    }
    Ok(occurs)
}

/// Describes the operand that could follow `before`, a prefix of `text`. Returns `BoundName` if the
/// token after `before` in `text` is a name that is not reserved. Otherwise returns `Expression` if
/// `if` could follow, and `Operand` if not. Fails with `NoMemory`.
fn operand_at(alloc: Global, text: &str, before: &str) -> Result<ExpectedPart, NoMemory> {
    if let Some(rest) = text.get(before.len()..) {
        if let Some(GrammarToken::Name(name)) = Cursor::new(rest).peek() {
            if !is_reserved(name) {
                return Ok(ExpectedPart::BoundName);
            }
        }
    }
    if can_follow(alloc, before, "if")? {
        return Ok(ExpectedPart::Expression);
    }
    Ok(ExpectedPart::Operand)
}

/// Returns whether `token` could follow `before`: whether `before`, a space and `token` are an
/// expression, or are rejected only after the offset of `token`. Fails with `NoMemory`.
fn can_follow(alloc: Global, before: &str, token: &str) -> Result<bool, NoMemory> {
    let tried = format!(in alloc; "{before} {token}")?;
    match refused_at(alloc, tried.as_str())? {
        Some(at) => Ok(at > before.len().saturating_add(1)),
        None => Ok(true),
    }
}

/// Returns the byte offset at which the text is refused, or `None` if it is an expression. Fails
/// with `NoMemory`.
fn refused_at(alloc: Global, text: &str) -> Result<Option<usize>, NoMemory> {
    match read_expr(alloc, text) {
        Ok(_) => Ok(None),
        Err(ExprFault::NoMemory) => Err(NoMemory::NoMemory),
        Err(
            ExprFault::NoToken(at)
            | ExprFault::Unexpected(at)
            | ExprFault::NumberTooLarge(at)
            | ExprFault::TooDeep(at),
        ) => Ok(Some(at)),
    }
}
