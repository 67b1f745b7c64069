//! Printing the faults of raw grammars.

use crate::fault::NormalFault;
use std::fmt;

/// Prints the number of the fault, and its offset in bytes if it has one: `N9 at 100`, `N6`. N4 and
/// N5 have the offset of the symbol's name in its declaration. `NoMemory` has no number, and prints
/// as this name.
impl fmt::Display for NormalFault {
    ghost use Rattle.std.specs.Prelude.{Some};
    ghost use Rattle.normalform.specs.Printed.{printed};

    ghost output = { λ fault. Some (printed fault) };

    fn fmt<W: fmt::Write>(&self, f: &mut fmt::Formatter<W>) -> fmt::Result {
        match self {
            NormalFault::UnknownName(at) => write!(f, "N1 at {at}"),
            NormalFault::DoubledName(at) => write!(f, "N2 at {at}"),
            NormalFault::BadStart => write!(f, "N3"),
            NormalFault::Unproductive(symbol) => write!(f, "N4 at {}", symbol.at),
            NormalFault::Unreachable(symbol) => write!(f, "N5 at {}", symbol.at),
            NormalFault::RuleMissing(_, _, _) => write!(f, "N6"),
            NormalFault::RuleDoubled(at) => write!(f, "N7 at {at}"),
            NormalFault::NotDefinedHere(at) => write!(f, "N8 at {at}"),
            NormalFault::NotNormal(at) => write!(f, "N9 at {at}"),
            NormalFault::Limit(_) => write!(f, "N10"),
            NormalFault::NoMemory => write!(f, "NoMemory"),
        }
    }
}
