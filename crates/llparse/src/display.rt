//! Printing the faults of grammars and of sentences.

use crate::sentence::parse_fault::ParseFault;
use crate::table::fault::TableFault;
use std::fmt;

/// Prints the number of the fault, `L1`, or `NoMemory`.
impl fmt::Display for TableFault {
    ghost use Rattle.std.specs.Prelude.{Some};
    ghost use Rattle.llparse.specs.Printed.{printed_table};

    ghost output = { λ fault. Some (printed_table fault) };

    fn fmt<W: fmt::Write>(&self, f: &mut fmt::Formatter<W>) -> fmt::Result {
        match self {
            TableFault::Conflict { .. } => f.write_str("L1"),
            TableFault::NoMemory => f.write_str("NoMemory"),
        }
    }
}

/// Prints the number of the fault, or `NoMemory`, and its offset in bytes if it has one: `P1 at 1`,
/// `P2`.
impl fmt::Display for ParseFault {
    ghost use Rattle.std.specs.Prelude.{Some};
    ghost use Rattle.llparse.specs.Printed.{printed};

    ghost output = { λ fault. Some (printed fault) };

    fn fmt<W: fmt::Write>(&self, f: &mut fmt::Formatter<W>) -> fmt::Result {
        match self {
            ParseFault::Unexpected(at) => write!(f, "P1 at {at}"),
            ParseFault::TooDeep => f.write_str("P2"),
            ParseFault::TooManyNodes => f.write_str("P3"),
            ParseFault::Device => f.write_str("D1"),
            ParseFault::NoMemory => f.write_str("NoMemory"),
        }
    }
}
