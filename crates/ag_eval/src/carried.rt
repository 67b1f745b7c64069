//! The value of an expression whose environment lends carried values.

ghost use Rattle.std.specs.Prelude.{◌≡◌, ◌+◌, ◌-◌, ◌^◌, ◌<◌, ◌≤◌, length, IfOk, IfSome, None};
ghost use Rattle.ag_value.specs.Well.{IsWell};
ghost use Rattle.ag_eval.specs.Operands.{scalar_value};
ghost use Rattle.ag_grammar.specs.expressions.Evaluation.{AreWell, value_of};

use crate::environment::{ByCarried, CarriedEnvironment};
use crate::evaluation::Evaluation;
use crate::meter::Meter;
use crate::scalar::Scalar;
use ag_carried::Carried;
use ag_grammar::Expr;
use ag_value::NoMemory;
use std::alloc::Global;

/// Computes the value of an expression as `eval` does, for an `env` that lends carried values.
/// Raises the meter by one evaluation, also if memory is refused. Fails with `NoMemory` if memory
/// is refused.
///
/// The result is shared and not copied if it is a shared text, a tree, or the value of an
/// occurrence (`$0.env`, also as chosen by `if`, `let` or `orelse`). A number or an error is stored
/// in the `Carried` itself. Every other result is stored in memory that its owners share. If its
/// encoding has more than 24 bytes, the encoding is stored beside it. The call takes memory for
/// this, and otherwise as `eval` does.
#[inline(always)]
pub fn eval_carried<C: CarriedEnvironment>(
    alloc: Global,
    expr: &Expr,
    env: &C,
    meter: &mut Meter,
) -> Result<Carried, NoMemory>
    requires lends { length expr.now.occurrences ≤ C.count env.now }
    requires well { AreWell (length expr.now.occurrences) (C.lent env.now) }
    requires not_full { meter.old < 2 ^ 64 - 1 }
    ensures value { IfOk result (λ v. v ≡ value_of expr.now.tree (C.lent env.now)) }
    ensures well { IfOk result (λ v. IsWell v) }
    ensures counted { meter.new ≡ meter.old + 1 }
{
    meter.count_one();
    let lender = ByCarried { env };
    Evaluation::new(alloc, expr, &lender).carried()
}

/// Returns the value of an expression that is a literal, an occurrence or a chain of these, if each
/// of them is a number or an error. Then raises the meter by one evaluation, as `eval_carried`
/// does. Returns `None` for any other expression, for literals and occurrences of another kind, and
/// for `++` of two numbers. Then leaves the meter unchanged. No contract says for which expressions
/// a value is returned. Takes no memory.
#[inline(always)]
pub fn eval_scalar<C: CarriedEnvironment>(
    alloc: Global,
    expr: &Expr,
    env: &C,
    meter: &mut Meter,
) -> Option<Scalar>
    requires lends { length expr.now.occurrences ≤ C.count env.now }
    requires well { AreWell (length expr.now.occurrences) (C.lent env.now) }
    requires not_full { meter.old < 2 ^ 64 - 1 }
    ensures value { IfSome result (λ s. scalar_value s ≡ value_of expr.now.tree (C.lent env.now)) }
    ensures counted { IfSome result (λ _. meter.new ≡ meter.old + 1) }
    ensures kept { result ≡ None → meter.new ≡ meter.old }
{
    let lender = ByCarried { env };
    let scalar = Evaluation::new(alloc, expr, &lender).flat_scalar()?;
    meter.count_one();
    Some(scalar)
}
