//! Formatting of faults.

use crate::fault::ExprFault;
use std::fmt;

/// Writes the number of the fault and, if it has one, the offset: `X2 at 13`.
impl fmt::Display for ExprFault {
    ghost use Rattle.std.specs.Prelude.{Some};
    ghost use Rattle.ag_expr.specs.Printed.{printed};

    ghost output = { λ fault. Some (printed fault) };

    fn fmt<W: fmt::Write>(&self, f: &mut fmt::Formatter<W>) -> fmt::Result {
        match self {
            ExprFault::NoToken(at) => write!(f, "X1 at {at}"),
            ExprFault::Unexpected(at) => write!(f, "X2 at {at}"),
            ExprFault::NumberTooLarge(at) => write!(f, "X3 at {at}"),
            ExprFault::TooDeep(at) => write!(f, "X4 at {at}"),
            ExprFault::NoMemory => write!(f, "NoMemory"),
        }
    }
}
