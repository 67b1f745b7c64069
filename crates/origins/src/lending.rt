//! Environments over the values in a node's record. From an environment an evaluation gets the
//! values of a rule's arguments.

ghost use Rattle.std.specs.Prelude.{◌≡◌};
ghost use Rattle.ag_value.specs.Spelling.{number_of};
ghost use Rattle.ag_value.specs.operations.Arguments.{fault_of};
ghost use Rattle.origins.specs.Arising.{is_same_error};

use crate::row::Row;
use crate::slots::slot_of;
use ag_eval::Env;
use ag_grammar::Target;
use ag_value::{ErrorCode, Value};

/// Lends the values of a rule's arguments from the record of a node. Lends `spare` for an argument
/// that the record does not have.
#[derive(Drop)]
pub(crate) struct Arguments<'a> {
    /// The values of the record.
    pub(crate) row: &'a Row<'a>,
    /// The rule's arguments: `lend(k)` lends the value of argument k, from 0.
    pub(crate) arguments: &'a [Target],
    /// The value of an argument that the record lacks.
    pub(crate) spare: &'a Value,
}

impl<'a> Env for Arguments<'a> {
    ghost use Rattle.std.specs.Prelude.{length, slice_get};
    ghost use Rattle.origins.specs.Rows.{argument};

    ghost count = { λ l. length l.arguments.now };

    ghost lent = { λ l k. argument l.row.now.grammar.now l.row.now.production.now
        l.row.now.values.now l.spare.now (slice_get l.arguments.now k) };

    fn lend(&self, k: usize) -> &Value {
        let slot = slot_of(self.row.grammar, self.row.production, self.arguments[k]);
        match self.row.values.get(slot) {
            Some(value) => value,
            None => self.spare,
        }
    }
}

/// Lends the values that `arguments` lends, with another error in place of each error: `divide` in
/// place of the error overflow, and `overflow` in place of any other error.
#[derive(Drop)]
pub(crate) struct ExchangedErrors<'a> {
    pub(crate) arguments: &'a Arguments<'a>,
    pub(crate) divide: &'a Value,
    pub(crate) overflow: &'a Value,
}

impl<'a> Env for ExchangedErrors<'a> {
    ghost use Rattle.std.specs.Prelude.{length, slice_get};
    ghost use Rattle.ag_value.specs.operations.Arguments.{fault_of};
    ghost use Rattle.origins.specs.Arising.{exchanged_to};
    ghost use Rattle.origins.specs.Rows.{argument};

    ghost count = { λ l. length l.arguments.now.arguments.now };

    ghost lent = { λ l k. let v = argument l.arguments.now.row.now.grammar.now
        l.arguments.now.row.now.production.now l.arguments.now.row.now.values.now
        l.arguments.now.spare.now (slice_get l.arguments.now.arguments.now k) in
        exchanged_to l.divide.now l.overflow.now (fault_of v) v };

    fn lend(&self, k: usize) -> &Value {
        let value = self.arguments.lend(k);
        match error_of(value) {
            None => value,
            // 1 is the number of the error overflow
            Some(code) => if number_of(code) == 1 {
                self.divide
            } else {
                self.overflow
            },
        }
    }
}

/// Lends the values of the first `count` arguments as `exchanged` does, with another error in place
/// of each error, and the values of the other arguments unchanged.
#[derive(Drop)]
pub(crate) struct FirstExchanged<'a> {
    pub(crate) exchanged: &'a ExchangedErrors<'a>,
    pub(crate) count: usize,
}

impl<'a> Env for FirstExchanged<'a> {
    ghost use Rattle.std.specs.Prelude.{length, nat_lt, slice_get, if◌then◌else◌};
    ghost use Rattle.ag_value.specs.operations.Arguments.{fault_of};
    ghost use Rattle.origins.specs.Arising.{exchanged_to};
    ghost use Rattle.origins.specs.Rows.{argument};

    ghost count = { λ l. length l.exchanged.now.arguments.now.arguments.now };

    ghost lent = { λ l k. let v = argument l.exchanged.now.arguments.now.row.now.grammar.now
        l.exchanged.now.arguments.now.row.now.production.now
        l.exchanged.now.arguments.now.row.now.values.now
        l.exchanged.now.arguments.now.spare.now
        (slice_get l.exchanged.now.arguments.now.arguments.now k) in
        (if nat_lt k l.count then exchanged_to l.exchanged.now.divide.now
        l.exchanged.now.overflow.now (fault_of v) v else v) };

    fn lend(&self, k: usize) -> &Value {
        if k < self.count {
            return self.exchanged.lend(k);
        }
        self.exchanged.arguments.lend(k)
    }
}

/// Returns the code of an error value. Returns `None` if the value is not an error.
pub(crate) fn error_of(value: &Value) -> Option<ErrorCode>
    ensures { result ≡ fault_of value.now }
{
    match value {
        Value::Fault(code) => Some(*code),
        _ => None,
    }
}

/// Returns the number, from 1 to 8, by which the spelling of an error value encodes the error.
fn number_of(code: ErrorCode) -> u8
    ensures { result ≡ number_of code }
{
    match code {
        ErrorCode::Overflow => 1,
        ErrorCode::Divide => 2,
        ErrorCode::Kind => 3,
        ErrorCode::Index => 4,
        ErrorCode::Key => 5,
        ErrorCode::Number => 6,
        ErrorCode::Big => 7,
        ErrorCode::Deep => 8,
    }
}

/// Returns whether both are the code of the same error. `None` stands for a value that is not an
/// error.
pub(crate) fn is_same_error(one: Option<ErrorCode>, other: Option<ErrorCode>) -> bool
    ensures { result ≡ is_same_error one other }
{
    match (one, other) {
        (Some(code), Some(another)) => number_of(code) == number_of(another),
        (_, _) => false,
    }
}
