//! Finds the leftmost error among arguments. If there is one, it is the value of every operator,
//! and of every call except `iserr` and `orelse`.

ghost use Rattle.std.specs.Prelude.{◌≡◌, ◌∷◌, []};
ghost use Rattle.ag_value.specs.operations.Arguments.{fault_of, leftmost};
ghost use Rattle.ag_eval.specs.Operands.{ref_value};

use crate::value_ref::ValueRef;
use ag_value::{ErrorCode, Value};

/// Returns the code of a value if the value is an error, else `None`.
#[inline(always)]
pub fn fault_of(value: ValueRef<'_>) -> Option<ErrorCode>
    ensures { result ≡ fault_of (ref_value value.entry) }
{
    match value {
        ValueRef::Plain(Value::Fault(code)) => Some(*code),
        _ => None,
    }
}

/// Returns the code of the leftmost error among two arguments, if one is an error.
#[tactic(auto, unfolding(ag_value::specs::operations::Arguments::leftmost))]
pub fn fault_of_two(first: ValueRef<'_>, second: ValueRef<'_>) -> Option<ErrorCode>
    ensures { result ≡ leftmost (ref_value first.entry ∷ ref_value second.entry ∷ []) }
{
    match fault_of(first) {
        Some(code) => Some(code),
        None => fault_of(second),
    }
}

/// Returns the code of the leftmost error among three arguments, if one is an error.
#[tactic(auto, unfolding(ag_value::specs::operations::Arguments::leftmost))]
pub fn fault_of_three(
    first: ValueRef<'_>,
    second: ValueRef<'_>,
    third: ValueRef<'_>,
) -> Option<ErrorCode>
    ensures { result ≡ leftmost (ref_value first.entry ∷ ref_value second.entry
        ∷ ref_value third.entry ∷ []) }
{
    match fault_of_two(first, second) {
        Some(code) => Some(code),
        None => fault_of(third),
    }
}
