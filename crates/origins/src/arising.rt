//! Whether an error arises in a rule, and which argument passes its error on.

ghost use Rattle.std.specs.Prelude.{◌≡◌, ◌+◌, ◌-◌, ◌^◌, ◌<◌, IfOk, Some, length, true};
ghost use Rattle.ag_grammar.specs.expressions.Evaluation.{value_of};
ghost use Rattle.ag_value.specs.operations.Arguments.{fault_of, has_fault};
ghost use Rattle.origins.specs.Arising.{environment, exchanged, is_arising};
ghost use Rattle.origins.specs.Causes.{AnswersSource, exchanged_below, is_still};
ghost use Rattle.origins.specs.Rows.{table_of};

use crate::lending::{Arguments, ExchangedErrors, FirstExchanged, error_of, is_same_error};
use crate::row::Row;
use ag_eval::{Env, Meter, eval};
use ag_grammar::{Node, Rule, Target};
use ag_value::{ErrorCode, NoMemory, Value};
use std::alloc::Global;

impl<'a> Row<'a> {
    /// Evaluates a rule at the node. An argument that the record lacks has the value 0. Fails with
    /// NoMemory if memory is refused.
    fn evaluate(&self, alloc: Global, rule: &Rule) -> Result<Value, NoMemory>
        requires arguments { length rule.now.args ≡ length rule.now.expr.occurrences }
        ensures { IfOk result (λ v. v ≡ value_of rule.now.expr.tree (environment rule.now
            (table_of self.now.grammar.now self.now.production.now self.now.values.now))) }
    {
        let spare = Value::Num(0);
        let arguments = Arguments {
            row: self,
            arguments: rule.args.as_slice(),
            spare: &spare,
        };
        let mut meter = Meter::new();
        eval(alloc, &rule.expr, &arguments, &mut meter)
    }

    /// Evaluates a rule with each error among its arguments exchanged, as by `ExchangedErrors`.
    /// Fails as `evaluate` does.
    fn evaluate_exchanged(&self, alloc: Global, rule: &Rule) -> Result<Value, NoMemory>
        requires arguments { length rule.now.args ≡ length rule.now.expr.occurrences }
        ensures { IfOk result (λ v. v ≡ value_of rule.now.expr.tree (λ k. exchanged (environment rule.now
            (table_of self.now.grammar.now self.now.production.now self.now.values.now) k))) }
    {
        let spare = Value::Num(0);
        let arguments = Arguments {
            row: self,
            arguments: rule.args.as_slice(),
            spare: &spare,
        };
        let divide = Value::Fault(ErrorCode::Divide);
        let overflow = Value::Fault(ErrorCode::Overflow);
        let exchanged = ExchangedErrors {
            arguments: &arguments,
            divide: &divide,
            overflow: &overflow,
        };
        let mut meter = Meter::new();
        eval(alloc, &rule.expr, &exchanged, &mut meter)
    }

    /// Evaluates a rule with each error among its first `count` arguments exchanged. Fails as
    /// `evaluate` does.
    fn evaluate_first_exchanged(
        &self,
        alloc: Global,
        rule: &Rule,
        count: usize,
    ) -> Result<Value, NoMemory>
        requires arguments { length rule.now.args ≡ length rule.now.expr.occurrences }
        ensures { IfOk result (λ v. v ≡ value_of rule.now.expr.tree (exchanged_below count (environment rule.now
            (table_of self.now.grammar.now self.now.production.now self.now.values.now)))) }
    {
        let spare = Value::Num(0);
        let arguments = Arguments {
            row: self,
            arguments: rule.args.as_slice(),
            spare: &spare,
        };
        let divide = Value::Fault(ErrorCode::Divide);
        let overflow = Value::Fault(ErrorCode::Overflow);
        let exchanged = ExchangedErrors {
            arguments: &arguments,
            divide: &divide,
            overflow: &overflow,
        };
        let first = FirstExchanged {
            exchanged: &exchanged,
            count,
        };
        let mut meter = Meter::new();
        eval(alloc, &rule.expr, &first, &mut meter)
    }

    /// Returns whether an error arises in a rule at the node: the rule's value is an error, and
    /// is the same error with every error among the rule's arguments exchanged (divide in place of
    /// overflow, and overflow in place of every other error).
    ///
    /// Evaluates the rule, and a second time if its value is an error. A rule that only copies an
    /// argument is not evaluated. Requires an argument for each different occurrence of the rule's
    /// expression. Fails with NoMemory if memory is refused.
    pub fn is_arising(&self, alloc: Global, rule: &Rule) -> Result<bool, NoMemory>
        requires arguments { length rule.now.args ≡ length rule.now.expr.occurrences }
        ensures { IfOk result (λ arises. arises ≡ is_arising
            (table_of self.now.grammar.now self.now.production.now self.now.values.now) rule.now) }
    {
        // no error arises in a rule that only copies an argument
        if let Node::Occurrence(_) = rule.expr.tree() {
            return Ok(false);
        }
        let value = self.evaluate(alloc, rule)?;
        let Some(code) = error_of(&value) else {
            return Ok(false);
        };
        let other = self.evaluate_exchanged(alloc, rule)?;
        Ok(is_same_error(Some(code), error_of(&other)))
    }

    /// Returns whether the value of the argument with this number, from 0, is an error.
    fn is_error_at(&self, rule: &Rule, number: usize) -> bool
        requires { number < length rule.now.args }
        ensures { result ≡ has_fault (fault_of (environment rule.now
            (table_of self.now.grammar.now self.now.production.now self.now.values.now) number)) }
    {
        let spare = Value::Num(0);
        let arguments = Arguments {
            row: self,
            arguments: rule.args.as_slice(),
            spare: &spare,
        };
        error_of(arguments.lend(number)).is_some()
    }

    /// Evaluates a rule, and returns its value's error code; `None` if the value is not an error.
    /// Fails as `evaluate` does.
    fn error_in(&self, alloc: Global, rule: &Rule) -> Result<Option<ErrorCode>, NoMemory>
        requires arguments { length rule.now.args ≡ length rule.now.expr.occurrences }
        ensures { IfOk result (λ code. code ≡ fault_of (value_of rule.now.expr.tree (environment rule.now
            (table_of self.now.grammar.now self.now.production.now self.now.values.now)))) }
    {
        let value = self.evaluate(alloc, rule)?;
        Ok(error_of(&value))
    }

    /// Returns whether a rule, whose value is the error `code`, still has this error if the errors
    /// among its first `number + 1` arguments are exchanged. Requires that the rule still has the
    /// error if those among the first `number` arguments are exchanged. Evaluates the rule only if
    /// the argument `number`, from 0, is an error: otherwise one more exchange changes nothing.
    /// Fails as `evaluate` does.
    #[tactic(auto, using(crate::proofs::Sources::still_clean), unfolding(crate::specs::Causes::is_still))]
    fn is_still(
        &self,
        alloc: Global,
        rule: &Rule,
        code: ErrorCode,
        number: usize,
    ) -> Result<bool, NoMemory>
        requires arguments { length rule.now.args ≡ length rule.now.expr.occurrences }
        requires error { fault_of (value_of rule.now.expr.tree (environment rule.now (table_of
            self.now.grammar.now self.now.production.now self.now.values.now))) ≡ Some code }
        requires within { number < length rule.now.args }
        requires room { number < 2 ^ 64 - 1 }
        requires before { is_still rule.now (table_of self.now.grammar.now
            self.now.production.now self.now.values.now) number ≡ true }
        ensures { IfOk result (λ still. still ≡ is_still rule.now (table_of self.now.grammar.now
            self.now.production.now self.now.values.now) (number + 1)) }
    {
        if !self.is_error_at(rule, number) {
            return Ok(true);
        }
        let other = self.evaluate_first_exchanged(alloc, rule, number + 1)?;
        Ok(is_same_error(Some(code), error_of(&other)))
    }

    /// Returns the argument that passes its error on to a rule. Returns `None` if the rule's value
    /// is not an error, or the error arises in the rule. Requires an argument for each different
    /// occurrence of the rule's expression. Fails with NoMemory if memory is refused.
    ///
    /// Evaluates the rule and, if its value is an error, once more for each argument that is an
    /// error, up to the one that passes its error on.
    #[tactic(auto, using(crate::proofs::Caused::still_none, crate::proofs::Caused::arises_here))]
    pub fn source_of(&self, alloc: Global, rule: &Rule) -> Result<Option<Target>, NoMemory>
        requires arguments { length rule.now.args ≡ length rule.now.expr.occurrences }
        ensures { IfOk result (AnswersSource rule.now
            (table_of self.now.grammar.now self.now.production.now self.now.values.now)) }
    {
        let Some(code) = self.error_in(alloc, rule)? else {
            return Ok(None);
        };
        for (number, argument) in rule.args.as_slice().iter().enumerate() {
            if !self.is_still(alloc, rule, code, number)? {
                return Ok(Some(*argument));
            }
        }
        Ok(None)
    }
}
