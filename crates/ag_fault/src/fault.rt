//! The program's faults, their exit statuses, and the conversions from the faults of other crates.

ghost use Rattle.std.specs.Prelude.{◌≡◌, ◌≢◌, ◌⊎◌};
ghost use Rattle.ag_fault.specs.Faults.{build_fault_of, device_fault_of, expr_fault_of};
ghost use Rattle.ag_fault.specs.Faults.{fault_in_memory, frame_fault_of, job_fault_of, listing_fault_of, out_fault_of};
ghost use Rattle.ag_fault.specs.Faults.{parse_fault_of, run_fault_of, scan_fault_of};
ghost use Rattle.ag_fault.specs.Status.{status_of};
ghost use Rattle.ag_fault.specs.declared.fault.Fault.TheVariants as program_fault;

use crate::build_fault::BuildFault;
use crate::stuck_grammar::StuckGrammar;
use ag_expr::ExprFault;
use ag_job::JobFault;
use ag_scan::ScanFault;
use ag_text::TextFault;
use ag_value::{NoMemory, Value};
use agoutput::{ListingFault, OutFault, TextOutFault};
use llparse::{ParseFault, TableFault};
use normalform::NormalFault;
use pass_rows::RunFault;
use std::alloc::AllocError;
use thiserror::Error;
use treefile::{DeviceFault, FileFault, FrameFault};

/// Why the program, or a call of its library, failed. Each fault except `Usage` and `NoMemory` has
/// a number such as D1, which is printed first. Calls of the crate `aggen` return refused memory
/// only as `NoMemory` and a failed device only as `Device`, never inside another variant.
#[derive(Debug, Drop, Error)]
pub enum Fault {
    /// The command line is wrong.
    Usage,
    /// F1: a file can't be opened, read or created.
    File,
    /// X1 to X4: the text is not an expression. Or X2: the expression has an occurrence of an
    /// attribute (`$1.a`), which has no value without a tree.
    Expr(ExprFault),
    /// G1 to G4: the text can't be read as a grammar.
    Text(TextFault),
    /// N1 to N10: the grammar is not accepted.
    Normal(NormalFault),
    /// L1: one token of look-ahead doesn't determine the next production.
    Table(TableFault),
    /// A1: no assignment of passes to the grammar's attributes is legal.
    Assign(StuckGrammar),
    /// S1 to S4: the sentence can't be split into tokens.
    Scan(ScanFault),
    /// P1 to P3: the sentence has no tree within the limits.
    Parse(ParseFault),
    /// R1, P2 or P3: a tree file that a pass or a conversion read encodes no tree of the grammar,
    /// or none within the limits.
    Run(RunFault),
    /// J1 to J3: the bytes of a reader are not a job, or the reader failed.
    Job(JobFault),
    /// O1: the translation is this value, which is not a text.
    NoText(Value),
    /// B1: a device does not contain a tree file.
    NotATreeFile,
    /// B2: no record ends at this offset (in bytes from 0), or another record than the expected
    /// one. At the end of the last tree file, the root's record is expected.
    Damaged(u64),
    /// D1: a call of a device failed.
    Device,
    /// O2: a write of the output failed, or took no byte. A prefix of the output may have been
    /// written.
    Write,
    /// A request for memory was refused.
    NoMemory,
}

impl Fault {
    /// Returns the fault of a call that writes to a buffer in memory: NoMemory in place of O2, since
    /// such a write fails only if memory is refused, and any other fault as it is.
    pub fn in_memory(self) -> Fault
        ensures exact { result ≡ fault_in_memory self }
        ensures same { (result ≡ self) ⊎ (result ≡ Fault.NoMemory) }
        ensures other { result ≢ Fault.Write }
    {
        match self {
            Fault::Write => Fault::NoMemory,
            fault => fault,
        }
    }
}

/// Returns the exit status of the program for a fault. A letter alone means all its numbers:
///
/// - 2 for usage, J1 and J3;
/// - 3 for X, G, N, L and A;
/// - 4 for S, and for P of a sentence;
/// - 5 for B1, B2 and R1, and for P2 and P3 of a tree file;
/// - 6 for O1;
/// - 7 for NoMemory, also if another fault contains it;
/// - 8 for F1, J2, O2 and D1; for D1 also if another fault contains it.
pub fn status(fault: &Fault) -> u8
    ensures { result ≡ status_of fault.now }
{
    match fault {
        Fault::Job(JobFault::NoMemory) | Fault::Expr(ExprFault::NoMemory) => 7,
        Fault::Text(TextFault::NoMemory | TextFault::Expr(ExprFault::NoMemory)) => 7,
        Fault::Normal(NormalFault::NoMemory) | Fault::Table(TableFault::NoMemory) => 7,
        Fault::Scan(ScanFault::NoMemory) | Fault::Parse(ParseFault::NoMemory) => 7,
        Fault::Run(RunFault::NoMemory) => 7,
        Fault::Job(JobFault::Read) => 8,
        Fault::Parse(ParseFault::Device) | Fault::Run(RunFault::Device) => 8,
        Fault::Usage | Fault::Job(_) => 2,
        Fault::Expr(_) | Fault::Text(_) => 3,
        Fault::Normal(_) | Fault::Table(_) | Fault::Assign(_) => 3,
        Fault::Scan(_) | Fault::Parse(_) => 4,
        Fault::Run(_) | Fault::NotATreeFile | Fault::Damaged(_) => 5,
        Fault::NoText(_) => 6,
        Fault::NoMemory => 7,
        Fault::File | Fault::Device | Fault::Write => 8,
    }
}

impl From<ExprFault> for Fault {
    ghost from_gives = { λ fault e. e ≡ expr_fault_of fault };

    fn from(fault: ExprFault) -> Fault {
        match fault {
            ExprFault::NoMemory => Fault::NoMemory,
            _ => Fault::Expr(fault),
        }
    }
}

impl From<BuildFault> for Fault {
    ghost from_gives = { λ fault e. e ≡ build_fault_of fault };

    fn from(fault: BuildFault) -> Fault {
        match fault {
            BuildFault::Text(fault) => Fault::Text(fault),
            BuildFault::Normal(fault) => Fault::Normal(fault),
            BuildFault::Table(fault) => Fault::Table(fault),
            BuildFault::Assign(stuck) => Fault::Assign(stuck),
            BuildFault::NoMemory => Fault::NoMemory,
        }
    }
}

impl From<JobFault> for Fault {
    ghost from_gives = { λ fault e. e ≡ job_fault_of fault };

    fn from(fault: JobFault) -> Fault {
        match fault {
            JobFault::NoMemory => Fault::NoMemory,
            _ => Fault::Job(fault),
        }
    }
}

impl From<FileFault> for Fault {
    ghost from_gives = { λ _ e. e ≡ program_fault.File };

    fn from(_fault: FileFault) -> Fault {
        Fault::File
    }
}

impl From<DeviceFault> for Fault {
    ghost from_gives = { λ fault e. e ≡ device_fault_of fault };

    fn from(fault: DeviceFault) -> Fault {
        match fault {
            DeviceFault::Failed => Fault::Device,
            DeviceFault::NoMemory => Fault::NoMemory,
        }
    }
}

impl From<ScanFault> for Fault {
    ghost from_gives = { λ fault e. e ≡ scan_fault_of fault };

    fn from(fault: ScanFault) -> Fault {
        match fault {
            ScanFault::NoMemory => Fault::NoMemory,
            _ => Fault::Scan(fault),
        }
    }
}

impl From<ParseFault> for Fault {
    ghost from_gives = { λ fault e. e ≡ parse_fault_of fault };

    fn from(fault: ParseFault) -> Fault {
        match fault {
            ParseFault::Device => Fault::Device,
            ParseFault::NoMemory => Fault::NoMemory,
            _ => Fault::Parse(fault),
        }
    }
}

impl From<RunFault> for Fault {
    ghost from_gives = { λ fault e. e ≡ run_fault_of fault };

    fn from(fault: RunFault) -> Fault {
        match fault {
            RunFault::Device => Fault::Device,
            RunFault::NoMemory => Fault::NoMemory,
            _ => Fault::Run(fault),
        }
    }
}

impl From<OutFault> for Fault {
    ghost from_gives = { λ fault e. e ≡ out_fault_of fault };

    fn from(fault: OutFault) -> Fault {
        match fault {
            OutFault::NoText(value) => Fault::NoText(value),
            OutFault::NotATreeFile => Fault::NotATreeFile,
            OutFault::Damaged(at) => Fault::Damaged(at),
            OutFault::Device => Fault::Device,
            OutFault::NoMemory => Fault::NoMemory,
        }
    }
}

impl From<FrameFault> for Fault {
    ghost from_gives = { λ fault e. e ≡ frame_fault_of fault };

    fn from(fault: FrameFault) -> Fault {
        match fault {
            FrameFault::NotATreeFile => Fault::NotATreeFile,
            FrameFault::Damaged(at) => Fault::Damaged(at),
            FrameFault::Device => Fault::Device,
            FrameFault::NoMemory => Fault::NoMemory,
        }
    }
}

impl From<TextOutFault> for Fault {
    ghost from_gives = { λ _ e. e ≡ program_fault.Write };

    fn from(_fault: TextOutFault) -> Fault {
        Fault::Write
    }
}

impl From<ListingFault> for Fault {
    ghost from_gives = { λ fault e. e ≡ listing_fault_of fault };

    fn from(fault: ListingFault) -> Fault {
        match fault {
            ListingFault::Write => Fault::Write,
            ListingFault::NoMemory => Fault::NoMemory,
        }
    }
}

impl From<NoMemory> for Fault {
    ghost from_gives = { λ _ e. e ≡ program_fault.NoMemory };

    fn from(_error: NoMemory) -> Fault {
        Fault::NoMemory
    }
}

impl From<AllocError> for Fault {
    ghost from_gives = { λ _ e. e ≡ program_fault.NoMemory };

    fn from(_error: AllocError) -> Fault {
        Fault::NoMemory
    }
}
