//! The faults of parsing a text as an expression.

ghost use Rattle.std.specs.Prelude.{◌≡◌};
ghost use Rattle.ag_expr.specs.declared.fault.ExprFault.TheVariants as expr_fault;

use ag_value::OutOfMemory;
use thiserror::Error;

/// Why parsing a text as an expression fails. Offsets are in bytes from the beginning of the text.
#[derive(Clone, Copy, Debug, PartialEq, Eq, Error)]
pub enum ExprFault {
    /// X1: the character at this offset is not a separator, and no token begins with it.
    NoToken(usize),
    /// X2: no expression continues with the token at this offset. Or the text ends here, in an
    /// expression or where a `;` has to follow.
    Unexpected(usize),
    /// X3: at this offset there is a number above 9223372036854775807, or an occurrence with a
    /// place above 65535.
    NumberTooLarge(usize),
    /// X4: an expression of level 65 begins at this offset.
    TooDeep(usize),
    /// An allocation failed.
    NoMemory,
}

impl<M: OutOfMemory> From<M> for ExprFault {
    ghost from_gives = { λ _ e. e ≡ expr_fault.NoMemory };

    fn from(_error: M) -> ExprFault {
        ExprFault::NoMemory
    }
}
