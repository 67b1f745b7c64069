//! The parser of the expression of a rule.

ghost use Rattle.ag_text.specs.ParserContract.{Reads};
ghost use Rattle.ag_text.specs.Reading.{ended_expr_from};

use crate::stop::{Stop, in_expr};
use ag_expr::read_ended;
use ag_grammar::Expr;
use ag_tokens::Cursor;
use std::alloc::Global;

/// Parses an expression and the `;` after it. Fails with `InExpr` and the fault of the expression,
/// or with `NoMemory`.
#[tactic(auto, using(crate::proofs::Expressions::read_refused), unfolding(crate::specs::Reading::ended_expr_from))]
pub fn ended_expr(alloc: Global, cursor: &mut Cursor<'_>) -> Result<Expr, Stop>
    ensures { Reads ended_expr_from cursor.old result cursor.new }
{
    match read_ended(alloc, cursor) {
        Ok((expr, _)) => Ok(expr),
        Err(fault) => Err(in_expr(fault)),
    }
}
