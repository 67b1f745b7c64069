//! Parses a text as an expression.

ghost use Rattle.std.specs.Prelude.{◌≡◌, [], chars, drop, length, true, Ok, Err, IfOk, IfErr};
ghost use Rattle.ag_grammar.specs.expressions.Trees.{is_below};
ghost use Rattle.ag_expr.specs.language.Expression.{ReadsAsExpr, IsRefused, IsFaultOf, IsFaultFrom};
ghost use Rattle.std.specs.Str.{IsCharBoundary};
ghost use Rattle.ag_tokens.specs.Parsing.{next, offset};
ghost use Rattle.ag_expr.specs.language.State.{IsReadEnded, IsReadToEnd, start};
ghost use Rattle.ag_expr.specs.language.Offsets.{IsFirstOf, IsRead};
ghost use Rattle.ag_expr.specs.language.Until.{IsFirstUntil, IsReadUntil, IsRefusedUntil};
ghost use Rattle.ag_expr.specs.language.Until.{ReadsUntil};

use crate::fault::ExprFault;
use crate::reader::Reader;
use ag_grammar::limits::MAX_EXPR_LEVELS;
use ag_grammar::{Expr, Node};
use ag_tokens::Cursor;
use std::alloc::Global;

/// Parses a text as an expression, and returns its tree with the distinct occurrences in it.
///
/// Fails at the first offset where parsing can't continue, with the first of these faults that
/// fits:
///
/// - X1: no token begins there.
/// - X3: the number or the place of the token there is above the limit.
/// - X2: no expression continues with the token there, or the text ends there.
/// - X4: the token there begins an expression of level 65.
///
/// So a number above the limit results in X3, also where no number may be. Fails with `NoMemory` if
/// memory runs out. Every fault but `NoMemory` means that the text is not an expression.
pub fn read_expr(alloc: Global, text: &str) -> Result<Expr, ExprFault>
    ensures exact { IsRead text.now result }
    ensures first { IfErr result (λ e. IsFirstOf text.now e) }
    ensures reads { IfOk result (λ e. ReadsAsExpr text.now e) }
    ensures refuses { IfErr result (λ e. IsRefused text.now e) }
    ensures offsets { IfErr result (λ e. IsFaultOf text.now e) }
{
    whole(Reader::new(alloc, Cursor::new(text), false))
}

/// Parses the expression from the byte offset `from` up to the first `;`, and returns it with the
/// offset of the `;`. A `;` in a text literal doesn't count. Offsets are those of the whole text.
/// `from` must be a character boundary of the text.
///
/// Fails as `read_expr` does for the text from `from` up to the first `;`. If there is no `;`,
/// fails as `read_expr` does for the text from `from` on. If there is no `;` and this text is an
/// expression, fails with X2 at the end of the text. Every fault but `NoMemory` means that no
/// expression followed by a `;` begins at `from`.
pub fn read_until(alloc: Global, text: &str, from: usize) -> Result<(Expr, usize), ExprFault>
    requires { IsCharBoundary text.now from }
    ensures exact { IsReadUntil text.now from result }
    ensures first { IfErr result (λ e. IsFirstUntil text.now from e) }
    ensures reads { IfOk result (λ x. ReadsUntil text.now from x) }
    ensures refuses { IfErr result (λ e. IsRefusedUntil text.now from e) }
    ensures offsets { IfErr result (λ e. IsFaultFrom from (chars (drop from text.now)) e) }
{
    let mut cursor = Cursor::at(text, from);
    read_ended(alloc, &mut cursor)
}

/// Parses the expression at a cursor, advances the cursor past it and past the `;` after it, and
/// returns the expression with the offset of the `;`. Fails as `read_until` does. The cursor is
/// moved into a reader, and moved back only on success: after a failure its state is unspecified.
pub fn read_ended<'t>(alloc: Global, cursor: &mut Cursor<'t>) -> Result<(Expr, usize), ExprFault>
    ensures { IsReadEnded cursor.old result cursor.new }
{
    let tokens = std::mem::replace(cursor, Cursor::new(""));
    let mut reader = Reader::new(alloc, tokens, true);
    let tree = statement(&mut reader)?;
    let (occurrences, rest) = reader.into_parts();
    let at = rest.offset();
    *cursor = rest;
    cursor.bump();
    Ok((Expr::new(tree, occurrences), at))
}

/// Parses the expression at a reader that has read nothing yet, up to its `;`, which is not read.
/// Fails as `read_until` does.
fn statement(reader: &mut Reader<'_>) -> Result<Node, ExprFault>
    requires { reader.old ≡ start true reader.old.tokens }
    ensures read { IfOk result (λ tree. IsReadEnded reader.old.tokens
        (Ok (record { tree = tree; occurrences = reader.new.listed }, offset reader.new.tokens))
        (next reader.new.tokens)) }
    ensures below { IfOk result (λ tree. is_below (length reader.new.listed) tree ≡ true) }
    ensures refused { IfErr result (λ e.
        IsReadEnded reader.old.tokens (Err e) reader.new.tokens) }
{
    let tree = reader.expression(MAX_EXPR_LEVELS)?;
    if !reader.sees_semicolon() {
        return Err(reader.refusal());
    }
    Ok(tree)
}

/// Parses all remaining tokens as an expression. Fails as `read_expr` does.
fn whole(mut reader: Reader<'_>) -> Result<Expr, ExprFault>
    requires { reader.scope ≡ [] }
    ensures { IsReadToEnd reader.entry result }
{
    let tree = tree_to_end(&mut reader)?;
    let (occurrences, _) = reader.into_parts();
    Ok(Expr::new(tree, occurrences))
}

/// Parses all remaining tokens as an expression, and returns its tree. Fails as `read_expr` does.
fn tree_to_end(reader: &mut Reader<'_>) -> Result<Node, ExprFault>
    requires { reader.old.scope ≡ [] }
    ensures read { IfOk result (λ tree. IsReadToEnd reader.old
        (Ok (record { tree = tree; occurrences = reader.new.listed }))) }
    ensures below { IfOk result (λ tree. is_below (length reader.new.listed) tree ≡ true) }
    ensures refused { IfErr result (λ e. IsReadToEnd reader.old (Err e)) }
{
    let tree = reader.expression(MAX_EXPR_LEVELS)?;
    if !reader.is_at_end() {
        return Err(reader.refusal());
    }
    Ok(tree)
}
