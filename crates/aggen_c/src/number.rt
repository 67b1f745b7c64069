//! The numbers of refusals, and their offsets.

ghost use Rattle.std.specs.Prelude.{◌≡◌};
ghost use Rattle.aggen_c.specs.Numbers.{expr_number, job_number, normal_number, number_of};
ghost use Rattle.aggen_c.specs.Numbers.{expr_offset, normal_offset, offset_of, parse_number};
ghost use Rattle.aggen_c.specs.Numbers.{run_number, scan_number, scan_offset, table_number};
ghost use Rattle.aggen_c.specs.Numbers.{text_number, text_offset};

use ag_expr::ExprFault;
use ag_fault::Fault;
use ag_job::JobFault;
use ag_scan::ScanFault;
use ag_text::TextFault;
use llparse::{ParseFault, TableFault};
use normalform::NormalFault;
use passrun::RunFault;

/// The field `offset` of a refusal that has no offset. No input is that long.
pub const NO_OFFSET: u64 = u64::MAX;

/// The number of a refusal: `N` and 10 of N10. A refusal that has no number has 0 and 0.
#[derive(Clone, Copy)]
pub struct Number {
    pub letter: u8,
    pub index: u8,
}

/// The number of a fault without one: NoMemory, or a misused command line.
const NONE: Number = Number {
    letter: 0,
    index: 0,
};

/// Returns the number of a fault, or `NONE` if the fault has none.
pub fn number_of(fault: &Fault) -> Number
    ensures { result ≡ number_of fault.now }
{
    let (letter, index) = match fault {
        Fault::Expr(fault) => return expr_number(*fault),
        Fault::Text(fault) => return text_number(*fault),
        Fault::Normal(fault) => return normal_number(fault),
        Fault::Table(fault) => return table_number(*fault),
        Fault::Scan(fault) => return scan_number(*fault),
        Fault::Parse(fault) => return parse_number(*fault),
        Fault::Run(fault) => return run_number(*fault),
        Fault::Job(fault) => return job_number(*fault),
        Fault::Usage | Fault::NoMemory => return NONE,
        Fault::File => (b'F', 1),
        Fault::Assign(_) => (b'A', 1),
        Fault::NoText(_) => (b'O', 1),
        Fault::NotATreeFile => (b'B', 1),
        Fault::Damaged(_) => (b'B', 2),
        Fault::Device => (b'D', 1),
        Fault::Write => (b'O', 2),
    };
    Number { letter, index }
}

/// Returns the number of a fault of an expression.
fn expr_number(fault: ExprFault) -> Number
    ensures { result ≡ expr_number fault }
{
    let index = match fault {
        ExprFault::NoToken(_) => 1,
        ExprFault::Unexpected(_) => 2,
        ExprFault::NumberTooLarge(_) => 3,
        ExprFault::TooDeep(_) => 4,
        ExprFault::NoMemory => return NONE,
    };
    Number {
        letter: b'X',
        index,
    }
}

/// Returns the number of a fault of a grammar's text. A fault of a rule's expression has the number
/// G3. In a message, the number of the expression's fault comes after it.
fn text_number(fault: TextFault) -> Number
    ensures { result ≡ text_number fault }
{
    let index = match fault {
        TextFault::BadUtf8(_) => 1,
        TextFault::Unexpected(_, _) => 2,
        TextFault::Expr(_) => 3,
        TextFault::TooLong => 4,
        TextFault::NoMemory => return NONE,
    };
    Number {
        letter: b'G',
        index,
    }
}

/// Returns the number of a fault of a grammar.
fn normal_number(fault: &NormalFault) -> Number
    ensures { result ≡ normal_number fault.now }
{
    let index = match fault {
        NormalFault::UnknownName(_) => 1,
        NormalFault::DoubledName(_) => 2,
        NormalFault::BadStart => 3,
        NormalFault::Unproductive(_) => 4,
        NormalFault::Unreachable(_) => 5,
        NormalFault::RuleMissing(_, _, _) => 6,
        NormalFault::RuleDoubled(_) => 7,
        NormalFault::NotDefinedHere(_) => 8,
        NormalFault::NotNormal(_) => 9,
        NormalFault::Limit(_) => 10,
        NormalFault::NoMemory => return NONE,
    };
    Number {
        letter: b'N',
        index,
    }
}

/// Returns the number of a fault of a grammar's look-ahead.
fn table_number(fault: TableFault) -> Number
    ensures { result ≡ table_number fault }
{
    match fault {
        TableFault::Conflict { .. } => Number {
            letter: b'L',
            index: 1,
        },
        TableFault::NoMemory => NONE,
    }
}

/// Returns the number of a fault of a sentence's tokens.
fn scan_number(fault: ScanFault) -> Number
    ensures { result ≡ scan_number fault }
{
    let index = match fault {
        ScanFault::BadUtf8(_) => 1,
        ScanFault::NoToken(_) => 2,
        ScanFault::LongToken(_) => 3,
        ScanFault::TooLong => 4,
        ScanFault::NoMemory => return NONE,
    };
    Number {
        letter: b'S',
        index,
    }
}

/// Returns the number of a fault of a sentence's tree: P1 to P3, or D1 if a device failed.
fn parse_number(fault: ParseFault) -> Number
    ensures { result ≡ parse_number fault }
{
    let (letter, index) = match fault {
        ParseFault::Unexpected(_) => (b'P', 1),
        ParseFault::TooDeep => (b'P', 2),
        ParseFault::TooManyNodes => (b'P', 3),
        ParseFault::Device => (b'D', 1),
        ParseFault::NoMemory => return NONE,
    };
    Number { letter, index }
}

/// Returns the number of a fault of a tree file: R1, P2 or P3, or D1 if a device failed.
fn run_number(fault: RunFault) -> Number
    ensures { result ≡ run_number fault }
{
    let (letter, index) = match fault {
        RunFault::Damaged(_) => (b'R', 1),
        RunFault::TooDeep => (b'P', 2),
        RunFault::TooManyNodes => (b'P', 3),
        RunFault::Device => (b'D', 1),
        RunFault::NoMemory => return NONE,
    };
    Number { letter, index }
}

/// Returns the number of a fault of a job.
fn job_number(fault: JobFault) -> Number
    ensures { result ≡ job_number fault }
{
    let index = match fault {
        JobFault::NoSeparator => 1,
        JobFault::Read => 2,
        JobFault::TooLong => 3,
        JobFault::NoMemory => return NONE,
    };
    Number {
        letter: b'J',
        index,
    }
}

/// Returns the offset of a fault in the input, in bytes from 0, or `NO_OFFSET` if the fault has
/// none.
pub fn offset_of(fault: &Fault) -> u64
    ensures { result ≡ offset_of fault.now }
{
    match fault {
        Fault::Expr(fault) => expr_offset(*fault),
        Fault::Text(fault) => text_offset(*fault),
        Fault::Normal(fault) => normal_offset(fault),
        Fault::Scan(fault) => scan_offset(*fault),
        Fault::Parse(ParseFault::Unexpected(at)) => u64::from(*at),
        Fault::Run(RunFault::Damaged(at)) => *at,
        Fault::Damaged(at) => *at,
        _ => NO_OFFSET,
    }
}

/// Returns the offset of a fault of an expression.
fn expr_offset(fault: ExprFault) -> u64
    ensures { result ≡ expr_offset fault }
{
    match fault {
        ExprFault::NoToken(at)
        | ExprFault::Unexpected(at)
        | ExprFault::NumberTooLarge(at)
        | ExprFault::TooDeep(at) => at as u64,
        ExprFault::NoMemory => NO_OFFSET,
    }
}

/// Returns the offset of a fault of a grammar's text.
fn text_offset(fault: TextFault) -> u64
    ensures { result ≡ text_offset fault }
{
    match fault {
        TextFault::BadUtf8(at) | TextFault::Unexpected(_, at) => at as u64,
        TextFault::Expr(fault) => expr_offset(fault),
        TextFault::TooLong | TextFault::NoMemory => NO_OFFSET,
    }
}

/// Returns the offset of a fault of a grammar.
fn normal_offset(fault: &NormalFault) -> u64
    ensures { result ≡ normal_offset fault.now }
{
    match fault {
        NormalFault::UnknownName(at)
        | NormalFault::DoubledName(at)
        | NormalFault::RuleDoubled(at)
        | NormalFault::NotDefinedHere(at)
        | NormalFault::NotNormal(at) => *at as u64,
        NormalFault::Unproductive(symbol) | NormalFault::Unreachable(symbol) => symbol.at as u64,
        _ => NO_OFFSET,
    }
}

/// Returns the offset of a fault of a sentence's tokens.
fn scan_offset(fault: ScanFault) -> u64
    ensures { result ≡ scan_offset fault }
{
    match fault {
        ScanFault::BadUtf8(at) | ScanFault::NoToken(at) | ScanFault::LongToken(at) => at as u64,
        ScanFault::TooLong | ScanFault::NoMemory => NO_OFFSET,
    }
}
