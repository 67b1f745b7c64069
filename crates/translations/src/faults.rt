//! Answers questions about the program's faults.

use ag_expr::ExprFault;
use ag_text::TextFault;
use ag_value::Value;
use aggen::{Fault, status};
use normalform::NormalFault;
use passrun::RunFault;
use rows::words::{Mistake, first_word, number};
use std::alloc::Global;

/// Returns the fault that the first word of a text names. `tests/README.md` lists these names. Some
/// names need a number after them: for `no-text` it is the value of the root's `out`, and for the
/// others it is an offset in bytes. Fails with `Misspelt` if there is no such name or number.
fn fault(text: &str) -> Result<Fault, Mistake> {
    let (name, rest) = first_word(text);
    match name {
        "usage" => Ok(Fault::Usage),
        "file" => Ok(Fault::File),
        "expression" => Ok(Fault::Expr(ExprFault::Unexpected(number(rest)? as usize))),
        "text" => Ok(Fault::Text(TextFault::TooLong)),
        "grammar" => Ok(Fault::Normal(NormalFault::BadStart)),
        "pass" => Ok(Fault::Run(RunFault::Damaged(number(rest)? as u64))),
        "deep-file" => Ok(Fault::Run(RunFault::TooDeep)),
        "no-text" => Ok(Fault::NoText(Value::Num(i64::from(number(rest)?)))),
        "no-tree-file" => Ok(Fault::NotATreeFile),
        "damaged" => Ok(Fault::Damaged(number(rest)? as u64)),
        "device" => Ok(Fault::Device),
        "write" => Ok(Fault::Write),
        "memory" => Ok(Fault::NoMemory),
        _ => Err(Mistake::Misspelt),
    }
}

/// Returns the exit status of a fault.
pub fn status_answer(alloc: Global, text: &str) -> Result<String, Mistake> {
    Ok(status(&fault(text)?).to_string(alloc)?)
}

/// Returns a fault as it prints.
pub fn message(alloc: Global, fault: &Fault) -> Result<String, Mistake> {
    Ok(fault.to_string(alloc)?)
}

/// Returns the fault that a text names, as it prints.
pub fn message_answer(alloc: Global, text: &str) -> Result<String, Mistake> {
    message(alloc, &fault(text)?)
}
