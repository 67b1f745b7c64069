//! The printed forms of the faults of a pass.

use crate::run_fault::RunFault;
use std::fmt;

/// Prints the number of the fault, and its offset if it has one: `R1 at 20`, `P2`. The fault
/// `NoMemory`, which has no number, is printed as `NoMemory`.
impl fmt::Display for RunFault {
    ghost use Rattle.std.specs.Prelude.{Some};
    ghost use Rattle.pass_rows.specs.Printed.{printed};

    ghost output = { λ fault. Some (printed fault) };

    fn fmt<W: fmt::Write>(&self, f: &mut fmt::Formatter<W>) -> fmt::Result {
        match self {
            RunFault::Damaged(at) => write!(f, "R1 at {at}"),
            RunFault::TooDeep => write!(f, "P2"),
            RunFault::TooManyNodes => write!(f, "P3"),
            RunFault::Device => write!(f, "D1"),
            RunFault::NoMemory => write!(f, "NoMemory"),
        }
    }
}
