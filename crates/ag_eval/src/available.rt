//! Values that are available without making an operand: literals, occurrences, bound names, and
//! chains of these with scalar values.

ghost use Rattle.std.specs.Prelude.{ℕ, ℤ, ◌≡◌, ◌+◌, ◌-◌, ◌^◌, ◌<◌, length, true, IfOk, IfSome};
ghost use Rattle.std.specs.Prelude.{MatchOption, None};
ghost use Rattle.ag_value.specs.Well.{IsWell, is_item};
ghost use Rattle.ag_value.specs.declared.value.Value.{Value as AttributeValue};
ghost use Rattle.ag_value.specs.declared.value.Value.TheVariants as value;
ghost use Rattle.ag_grammar.specs.expressions.Evaluation.{value_in, value_of};
ghost use Rattle.ag_grammar.specs.declared.syntax.node.Node.TheVariants as node;
ghost use Rattle.ag_grammar.specs.expressions.Trees.{is_within};
ghost use Rattle.ag_value.specs.operations.Fitting.{fit};
ghost use Rattle.ag_grammar.specs.values.Operators.{operation_result};
ghost use Rattle.ag_eval.specs.Operands.{IsIn, held_value, operand_value, scalar_value};

use crate::bindings::Bindings;
use crate::calls::apply_to_scalars;
use crate::environment::Lender;
use crate::evaluation::Evaluation;
use crate::measured::Measured;
use crate::meter::Meter;
use crate::operand::{Held, Operand};
use crate::scalar::Scalar;
use ag_grammar::{Expr, Literal, Node, Operator};
use ag_value::{ErrorCode, MAX_VALUE_DEPTH, MAX_WEIGHT, NoMemory, Value, copy, depth, weight};
use std::alloc::Global;

impl<'e, V: Lender> Evaluation<'e, V> {
    /// Computes the next step of a chain. `other` has an operator and its right operand, and
    /// `so_far` is the left operand. Returns `None` if the left operand is not a scalar, if
    /// `leaf_scalar` returns `None` for the right operand, and for `++` of two numbers.
    #[inline(always)]
    pub fn next_scalar(
        &self,
        so_far: &Operand<'e>,
        other: &(Operator, Node),
        bindings: &Bindings<'e>,
    ) -> Option<Operand<'e>>
        requires first { IsIn bindings.now so_far.now }
        requires below { is_within (length self.now.expr.now.occurrences) other.now.1 (length bindings.now) ≡ true }
        ensures value { IfSome result (λ o. operand_value bindings.now o
            ≡ operation_result other.now.0 (operand_value bindings.now so_far.now)
            (value_in other.now.1 (V.lent self.now.env.now) bindings.now)) }
        ensures within { IfSome result (λ o. IsIn bindings.now o) }
    {
        let right = self.leaf_scalar(&other.1, bindings)?;
        let left = Scalar::from_value(so_far.get(bindings).as_value()?)?;
        let scalar = apply_to_scalars(other.0, left, right)?;
        Some(Operand::owned(Measured::new(scalar.into_value())))
    }

    /// Computes the value of a literal, an occurrence, a bound name or a chain, without making an
    /// `Operand`. An operand of the chain may be a chain too. Returns `None` for any other node, if
    /// `leaf_scalar` returns `None` for the node or for an operand of a chain, and for `++` of two
    /// numbers. Takes no memory.
    #[cycle(scalars)]
    #[inline(always)]
    pub fn scalar(&self, node: &Node, bindings: &Bindings<'_>) -> Option<Scalar>
        requires { is_within (length self.now.expr.now.occurrences) node.now (length bindings.now) ≡ true }
        ensures { IfSome result (λ s. scalar_value s
            ≡ value_in node.now (V.lent self.now.env.now) bindings.now) }
    {
        if let Node::Chain(_, _) = node {
            return self.scalar_of_chain(node, bindings);
        }
        self.leaf_scalar(node, bindings)
    }

    /// Computes the value of a chain, as `scalar` does. Returns `None` for another node.
    #[cycle(scalars)]
    #[tactic(auto, using(ag_grammar::proofs::expressions::Trees::parts))]
    fn scalar_of_chain(&self, node: &Node, bindings: &Bindings<'_>) -> Option<Scalar>
        requires { is_within (length self.now.expr.now.occurrences) node.now (length bindings.now) ≡ true }
        ensures { IfSome result (λ s. scalar_value s
            ≡ value_in node.now (V.lent self.now.env.now) bindings.now) }
    {
        let Node::Chain(first, others) = node else {
            return None;
        };
        let mut so_far = self.scalar(first.get(), bindings)?;
        for other in others.as_slice() {
            let right = self.scalar(&other.1, bindings)?;
            so_far = apply_to_scalars(other.0, so_far, right)?;
        }
        Some(so_far)
    }

    /// Returns the value of a literal, an occurrence or a bound name, if it is a scalar. Returns
    /// `None` also for a literal beyond the limits, whose value is an error.
    #[inline(always)]
    fn leaf_scalar(&self, node: &Node, bindings: &Bindings<'_>) -> Option<Scalar>
        requires below { is_within (length self.now.expr.now.occurrences) node.now (length bindings.now) ≡ true }
        ensures { IfSome result (λ s. scalar_value s
            ≡ value_in node.now (V.lent self.now.env.now) bindings.now) }
    {
        match node {
            Node::Literal(literal) => Scalar::from_value(within_limits(literal.value())?),
            Node::Occurrence(k) => self.scalar_occurrence(*k),
            Node::Bound(k) => Scalar::from_value(bindings.get(*k).get().as_value()?),
            _ => None,
        }
    }

    /// Lends the value of an expression that is an occurrence, or a literal within the limits.
    /// Returns `None` for other expressions, and for an occurrence whose value is not stored as a
    /// `Value`.
    #[inline(always)]
    pub fn lent_value(&self) -> Option<&'e Value>
        ensures value { IfSome result (λ v. v.now
            ≡ value_of self.now.expr.now.tree (V.lent self.now.env.now)) }
        ensures well { IfSome result (λ v. IsWell v.now) }
    {
        match self.tree() {
            Node::Literal(literal) => literal_value(literal).lent()?.as_value(),
            Node::Occurrence(k) => self.occurrence(*k),
            _ => None,
        }
    }
}

/// Returns the value of an expression that is a number literal, and raises the meter by one
/// evaluation. Needs no environment. Returns `None` for any other expression, and then leaves the
/// meter unchanged. Takes no memory.
#[inline(always)]
pub fn eval_number(expr: &Expr, meter: &mut Meter) -> Option<i64>
    requires not_full { meter.old < 2 ^ 64 - 1 }
    ensures value { IfSome result (λ n. (lent : ℕ → AttributeValue)
        → value.Num n ≡ value_of expr.now.tree lent) }
    ensures counted { IfSome result (λ _. meter.new ≡ meter.old + 1) }
    ensures none { result ≡ None → (n : ℤ) → expr.now.tree ≡ node.Literal (value.Num n) → ⊥ }
    ensures kept { result ≡ None → meter.new ≡ meter.old }
{
    let Node::Literal(literal) = expr.tree() else {
        return None;
    };
    let Value::Num(value) = literal.value() else {
        return None;
    };
    meter.count_one();
    Some(*value)
}

/// Returns a value if it is within the limits. The value must be one that a list or table may
/// contain, as a literal is.
#[inline(always)]
fn within_limits(item: &Value) -> Option<&Value>
    requires { is_item item.now ≡ true }
    ensures { IfSome result (λ v. (v.now ≡ fit item.now) × IsWell v.now) }
{
    match limit_error(item) {
        None => Some(item),
        Some(_) => None,
    }
}

/// Lends the value of a literal that is within the limits. For any other literal, returns the error
/// `deep` or `big`.
pub fn literal_value<'e>(literal: &'e Literal) -> Held<'e>
    ensures { held_value result ≡ fit literal.now }
{
    match limit_error(literal.value()) {
        None => Held::from_lent(literal.value()),
        Some(code) => Held::fault(code),
    }
}

/// Returns the error `deep` or `big` for a value beyond the limits, or `None` for one within them.
/// The value must be one that a list or table may contain, as a literal is.
#[inline(always)]
fn limit_error(item: &Value) -> Option<ErrorCode>
    requires { is_item item.now ≡ true }
    ensures { MatchOption result (IsWell item.now × (fit item.now ≡ item.now))
        (λ code. fit item.now ≡ value.Fault code) }
{
    if let Value::Num(_) = item {
        return None;
    }
    if depth(item) > MAX_VALUE_DEPTH {
        return Some(ErrorCode::Deep);
    }
    if weight(item) > MAX_WEIGHT {
        return Some(ErrorCode::Big);
    }
    None
}

/// Returns a copy of a value; a number is copied in one step. Fails with `NoMemory` if memory is
/// refused.
#[inline(always)]
pub fn copied(alloc: Global, value: &Value) -> Result<Value, NoMemory>
    requires { IsWell value.now }
    ensures value { IfOk result (λ copied. copied ≡ value.now) }
    ensures well { IfOk result (λ copied. IsWell copied) }
{
    match value {
        Value::Num(number) => Ok(Value::Num(*number)),
        _ => copy(alloc, value),
    }
}
