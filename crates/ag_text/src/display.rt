//! Formatting of faults.

use crate::fault::TextFault;
use std::fmt;

/// Writes the number of the fault, and its offset if it has one: `G2 at 6`, `G3 X2 at 46`, `G4`.
/// `NoMemory` has no number, and is written as this name.
impl fmt::Display for TextFault {
    ghost use Rattle.std.specs.Prelude.{Some};
    ghost use Rattle.ag_text.specs.Printed.{printed};

    ghost output = { λ fault. Some (printed fault) };

    fn fmt<W: fmt::Write>(&self, f: &mut fmt::Formatter<W>) -> fmt::Result {
        match self {
            TextFault::BadUtf8(at) => write!(f, "G1 at {at}"),
            TextFault::Unexpected(_, at) => write!(f, "G2 at {at}"),
            TextFault::Expr(fault) => write!(f, "G3 {fault}"),
            TextFault::TooLong => write!(f, "G4"),
            TextFault::NoMemory => write!(f, "NoMemory"),
        }
    }
}
