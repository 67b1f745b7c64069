//! Evaluates the rules at a node.

ghost use Rattle.std.specs.Prelude.{◌≡◌, ◌+◌, ◌-◌, ◌^◌, ◌<◌, All, IfOk, IfSome, None, OnOk, drop};
ghost use Rattle.std.specs.Prelude.{get_or, length, pos, set, slice_index};
ghost use Rattle.ag_eval.specs.Operands.{scalar_value};
ghost use Rattle.ag_grammar.specs.expressions.Evaluation.{value_of};
ghost use Rattle.ag_value.specs.Well.{IsWell};
ghost use Rattle.ag_value.specs.declared.value.Value.{Num};

use crate::passing::copying::{following, put_scalar, put_value};
use ag_carried::Carried;
use ag_eval::{CarriedEnvironment, Meter, Scalar, eval_carried, eval_number, eval_scalar};
use ag_grammar::{Expr, Rule};
use ag_value::NoMemory;
use pass_rows::layouts::building::RuleSlots;
use std::alloc::Global;
use std::marker::Model;

/// The values of a rule's arguments, which are numbered from 0. Argument k is occurrence k of the
/// rule's expression (an attribute at a place, such as `$1.value`). Its value is in slot `slots[k]`
/// of `values`. No slot is out of range.
#[derive(Drop)]
struct Lender<'a> {
    values: &'a [Carried],
    slots: &'a [u16],
}

impl<'a> Model for Lender<'a> {
    ghost use Rattle.std.specs.Prelude.{◌<◌, All, List, ℕ, length};
    ghost use Rattle.std.specs.Coded.{codes};
    ghost use Rattle.ag_value.specs.declared.value.Value.{Value as AttributeValue};
    ghost use Rattle.ag_value.specs.contracts.value.Value as value_row;

    ghost Value = { List AttributeValue × List ℕ };

    ghost coded = { Prim.hlevel (codes, value_row.the_row.coded) };

    ghost view = { λ l. (l.values.now, l.slots.now) };

    ghost invariant = { λ l. All (λ slot. slot < length l.values.now) l.slots.now };
}

impl<'a> CarriedEnvironment for Lender<'a> {
    ghost use Rattle.std.specs.Prelude.{get_or, length, pos, slice_index};
    ghost use Rattle.ag_value.specs.declared.value.Value.{Num};

    ghost count = { λ l. length l.1 };

    ghost lent = { λ l k. get_or l.0 (slice_index l.1 k) (Num (pos 0)) };

    #[inline(always)]
    fn lend(&self, k: usize) -> &Carried {
        value_in_slot(self.values, self.slots, k)
    }
}

/// Returns the value of argument k (from 0), which is in slot `slots[k]`.
#[inline(always)]
fn value_in_slot<'a>(values: &'a [Carried], slots: &[u16], k: usize) -> &'a Carried
    requires number { k < length slots.now }
    requires within { All (λ slot. slot < length values.now) slots.now }
    ensures { result.now ≡ get_or values.now (slice_index slots.now k) (Num (pos 0)) }
{
    &values[slots[k] as usize]
}

/// The rule that is run at a node.
#[derive(Clone, Copy)]
pub(crate) struct NodeRule<'a> {
    pub(crate) rule: &'a Rule,
    /// Its slots, which count from the first value of the node's row.
    pub(crate) slots: &'a RuleSlots,
    /// The index at which the node's row begins.
    pub(crate) base: usize,
}

/// Computes the value of a rule and puts it into the slot of its target. The meter counts one
/// evaluation, also on failure. Fails with `NoMemory` if memory cannot be allocated.
#[inline(always)]
pub(crate) fn put_rule_value(
    alloc: Global,
    at: &NodeRule<'_>,
    values: &mut Vec<Carried>,
    meter: &mut Meter,
) -> Result<(), NoMemory>
    requires slots { length at.now.slots.now.args ≡ length at.now.rule.now.expr.occurrences }
    requires well { All IsWell values.old.items }
    requires target { at.now.base + at.now.slots.now.target < length values.old.items }
    requires arguments { All (λ slot. slot < length (drop at.now.base values.old.items)) at.now.slots.now.args }
    requires not_full { meter.old < 2 ^ 64 - 1 }
    ensures value { OnOk result (values.new.items
        ≡ set values.old.items (at.now.base + at.now.slots.now.target)
        (value_of at.now.rule.now.expr.tree (λ k. get_or (drop at.now.base values.old.items)
        (slice_index at.now.slots.now.args k) (Num (pos 0))))) }
    ensures well { OnOk result (IsWell
        (value_of at.now.rule.now.expr.tree (λ k. get_or (drop at.now.base values.old.items)
        (slice_index at.now.slots.now.args k) (Num (pos 0))))) }
    ensures counted { meter.new ≡ meter.old + 1 }
{
    let NodeRule { rule, slots, base } = *at;
    // The faster ways come first: `eval_number` for a number literal, then `eval_scalar` for a
    // value that is a number or an error. If one of them returns `None`, the meter is unchanged.
    // `eval_carried` evaluates every expression.
    if let Some(number) = eval_number(&rule.expr, meter) {
        put_scalar(values, base + slots.target as usize, Scalar::Number(number));
        return Ok(());
    }
    let target = base + slots.target as usize;
    let row = following(values.as_slice(), base);
    if let Some(scalar) = evaluate_scalar(alloc, &rule.expr, slots.args.as_slice(), row, meter) {
        put_scalar(values, target, scalar);
        return Ok(());
    }
    let value = evaluate_over(alloc, &rule.expr, slots.args.as_slice(), row, meter)?;
    put_value(values, target, value);
    Ok(())
}

/// Returns the value of an expression if `eval_scalar` can compute it, and `None` otherwise.
/// Occurrence k of the expression has the value in slot `slots[k]` of `values`. The meter counts
/// the evaluation if a value is returned.
#[tactic(auto, using(crate::proofs::steps::Lending::are_well))]
#[inline(always)]
fn evaluate_scalar(
    alloc: Global,
    expr: &Expr,
    slots: &[u16],
    values: &[Carried],
    meter: &mut Meter,
) -> Option<Scalar>
    requires slots { length slots.now ≡ length expr.now.occurrences }
    requires within { All (λ slot. slot < length values.now) slots.now }
    requires well { All IsWell values.now }
    requires not_full { meter.old < 2 ^ 64 - 1 }
    ensures value { IfSome result (λ s. scalar_value s ≡ value_of expr.now.tree
        (λ k. get_or values.now (slice_index slots.now k) (Num (pos 0)))) }
    ensures counted { IfSome result (λ _. meter.new ≡ meter.old + 1) }
    ensures kept { result ≡ None → meter.new ≡ meter.old }
{
    let env = Lender { values, slots };
    eval_scalar(alloc, expr, &env, meter)
}

/// Returns the value of an expression. Occurrence k of the expression has the value in slot
/// `slots[k]` of `values`. Fails with `NoMemory` if memory cannot be allocated.
#[tactic(auto, using(crate::proofs::steps::Lending::are_well))]
#[inline(always)]
fn evaluate_over(
    alloc: Global,
    expr: &Expr,
    slots: &[u16],
    values: &[Carried],
    meter: &mut Meter,
) -> Result<Carried, NoMemory>
    requires slots { length slots.now ≡ length expr.now.occurrences }
    requires within { All (λ slot. slot < length values.now) slots.now }
    requires well { All IsWell values.now }
    requires not_full { meter.old < 2 ^ 64 - 1 }
    ensures value { IfOk result (λ v. v ≡ value_of expr.now.tree
        (λ k. get_or values.now (slice_index slots.now k) (Num (pos 0)))) }
    ensures well { IfOk result (λ v. IsWell v) }
    ensures counted { meter.new ≡ meter.old + 1 }
{
    let env = Lender { values, slots };
    eval_carried(alloc, expr, &env, meter)
}
