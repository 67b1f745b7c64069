//! Prints the faults of a job.

use crate::fault::JobFault;
use std::fmt;

/// Prints a line such as `J2 standard input can't be read`: the fault's number or `NoMemory`, what
/// is wrong, and for J1 and J3 what to do. The lines are for the program, which reads jobs from
/// standard input.
impl fmt::Display for JobFault {
    ghost use Rattle.std.specs.Prelude.{Some};
    ghost use Rattle.ag_job.specs.Printed.{printed};

    ghost output = { λ fault. Some (printed fault) };

    fn fmt<W: fmt::Write>(&self, f: &mut fmt::Formatter<W>) -> fmt::Result {
        match self {
            JobFault::NoSeparator => write!(
                f,
                "J1 no line is exactly `%%`, write one between the grammar and the sentence"
            ),
            JobFault::Read => write!(f, "J2 standard input can't be read"),
            JobFault::TooLong => write!(
                f,
                "J3 the job has more than 2,097,156 bytes, put the grammar and the sentence into files and use `aggen run`"
            ),
            JobFault::NoMemory => write!(f, "NoMemory a request for memory was refused"),
        }
    }
}
