//! Formatting of faults.

use crate::fault::ScanFault;
use std::fmt;

/// Writes the number of the fault and, if it has one, the offset: `S2 at 1`, `S4`.
impl fmt::Display for ScanFault {
    ghost use Rattle.std.specs.Prelude.{Some};
    ghost use Rattle.ag_scan.specs.Printed.{printed};

    ghost output = { λ fault. Some (printed fault) };

    fn fmt<W: fmt::Write>(&self, f: &mut fmt::Formatter<W>) -> fmt::Result {
        match self {
            ScanFault::BadUtf8(at) => write!(f, "S1 at {at}"),
            ScanFault::NoToken(at) => write!(f, "S2 at {at}"),
            ScanFault::LongToken(at) => write!(f, "S3 at {at}"),
            ScanFault::TooLong => write!(f, "S4"),
            ScanFault::NoMemory => write!(f, "NoMemory"),
        }
    }
}
