//! What a rule does with an error: it passes on the error of an argument, or the error arises in
//! the rule.

ghost use Rattle.std.specs.Prelude.{ℕ, ◌≡◌, ◌<◌, All, IfNone, IfOk, IfSome, Some, length, slice_get};
ghost use Rattle.ag_grammar.specs.Lists.{DifferIn, Each};
ghost use Rattle.ag_grammar.specs.declared.grammar.Rule.{Rule as TheRule};
ghost use Rattle.ag_grammar.specs.grammars.Accepted.{IsAccepted};
ghost use Rattle.ag_value.specs.Well.{IsWell};
ghost use Rattle.origins.specs.Rows.{table_of};
ghost use Rattle.causes.specs.Chains.{DoesNext, DoesNextAt, HasNoError, HasNoErrorAt, IsNumberFor};

use ag_grammar::{Grammar, Rule, Target};
use ag_value::{NoMemory, Value};
use origins::Row;
use std::alloc::Global;

/// What a rule does with an error.
#[derive(Clone, Copy)]
pub(crate) enum Next {
    /// The rule passes on the error of this argument.
    Passes(Target),
    /// The error arises in the rule with this number, from 0, in its production.
    Arises(u16),
}

/// Returns the number, from 0, of the first rule for a target. Returns `None` if none of the first
/// 65,536 rules has that target.
pub fn rule_for(rules: &[Rule], target: Target) -> Option<u16>
    ensures number { IfSome result (IsNumberFor rules.now target) }
    ensures none { IfNone result ((number : ℕ) → (rule : TheRule) → number < 65536
        → slice_get rules.now number ≡ Some rule → rule.target ≡ target → ⊥) }
{
    for (number, rule) in rules.iter().enumerate() {
        if rule.target == target {
            return u16::try_from(number).ok();
        }
    }
    None
}

/// Returns what the rule for a target does at a node. Returns `None` if the node has no such rule,
/// or the rule's value is not an error. Fails with NoMemory if memory is refused.
///
/// Requires that each rule has as many arguments as its expression has different occurrences, such
/// as `$1.lex`. Also requires that no two rules have the same target. Both hold in an accepted
/// grammar.
fn next_in(alloc: Global, row: &Row<'_>, target: Target) -> Result<Option<Next>, NoMemory>
    requires arguments { Each (λ (r : TheRule). length r.args ≡ length r.expr.occurrences)
        row.now.production.now.rules }
    requires single { DifferIn (λ (r : TheRule). r.target) row.now.production.now.rules }
    ensures next { IfOk result (λ next. IfSome next (DoesNext row.now.production.now.rules
        (table_of row.now.grammar.now row.now.production.now row.now.values.now) target)) }
    ensures none { IfOk result (λ next. IfNone next (HasNoError row.now.production.now.rules
        (table_of row.now.grammar.now row.now.production.now row.now.values.now) target)) }
{
    let rules = row.production.rules.as_slice();
    let Some(number) = rule_for(rules, target) else {
        return Ok(None);
    };
    let Some(rule) = rules.get(usize::from(number)) else {
        return Ok(None);
    };
    if let Some(argument) = row.source_of(alloc, rule)? {
        return Ok(Some(Next::Passes(argument)));
    }
    if row.is_arising(alloc, rule)? {
        return Ok(Some(Next::Arises(number)));
    }
    Ok(None)
}

/// Returns what the rule for a target does at a node of the production `number`, with the values of
/// the node's record. Returns `None` as `next_in` does, and if the grammar has no such production.
/// (The caller has the number from `record_of`, which excludes that.) Fails with NoMemory if memory
/// is refused. The clause `accepted` is an invariant of `Grammar`, for the proofs of callers.
pub(crate) fn next_at(
    alloc: Global,
    grammar: &Grammar,
    number: u16,
    values: &[Value],
    target: Target,
) -> Result<Option<Next>, NoMemory>
    requires well { All IsWell values.now }
    ensures next { IfOk result (λ next. IfSome next
        (DoesNextAt grammar.now number values.now target)) }
    ensures none { IfOk result (λ next. IfNone next
        (HasNoErrorAt grammar.now number values.now target)) }
    ensures accepted { IsAccepted grammar.now }
{
    if grammar.productions().len() <= number as usize {
        return Ok(None);
    }
    let production = &grammar.productions()[number as usize];
    let row = Row {
        grammar,
        production,
        values,
    };
    next_in(alloc, &row, target)
}
