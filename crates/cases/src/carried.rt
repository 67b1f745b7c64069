//! Answers questions about `Carried`, a value that is passed from node to node. A large value is
//! shared by its owners.

ghost use Rattle.std.specs.Prelude.{IfOk};
ghost use Rattle.ag_value.specs.Well.{IsWell};

use crate::expressions::value_of;
use ag_carried::Carried;
use ag_value::{Value, copy, is_well, show, weight};
use rows::words::{Mistake, first_word, printed, shown_bytes};
use std::alloc::Global;

/// Copies the current value into a `Carried`, makes the call that the first word of `rest` names,
/// and returns the result of the call as text.
pub fn carried_answer(alloc: Global, rest: &str, value: &Value) -> Result<String, Mistake> {
    let (call, other) = first_word(rest);
    let carried = carried_of(alloc, value)?;
    match call {
        "number" => printed(alloc, &carried.as_number()),
        "weighed" => weighed_answer(alloc, value),
        "copy" => Ok(show(alloc, &carried.to_value(alloc)?)?),
        "share" => shared_answer(alloc, &carried),
        "last" => last_answer(alloc, carried),
        "set" => set_answer(alloc, carried),
        "same" => same_answer(alloc, &carried, &value_of(alloc, other, value)?),
        _ => encoding_answer(alloc, call, &carried),
    }
}

/// Copies a value into a `Carried`. Fails with `Unfit` if the value is not well.
fn carried_of(alloc: Global, value: &Value) -> Result<Carried, Mistake>
    ensures { IfOk result (λ c. IsWell c) }
{
    let copied = copy(alloc, value)?;
    if !is_well(&copied) {
        return Err(Mistake::Unfit);
    }
    Ok(Carried::new(alloc, copied)?)
}

/// Makes a `Carried` of a value and its weight (`Carried::with_weight`), and shows its value. Fails
/// with `Unfit` if the value is not well.
fn weighed_answer(alloc: Global, value: &Value) -> Result<String, Mistake> {
    let copied = copy(alloc, value)?;
    if !is_well(&copied) {
        return Err(Mistake::Unfit);
    }
    let weight = weight(&copied);
    lent_answer(alloc, &Carried::with_weight(alloc, copied, weight)?)
}

/// Shows the number, the error or the value that a `Carried` returns. Fails with `Unfit` unless it
/// returns exactly one of them.
fn lent_answer(alloc: Global, carried: &Carried) -> Result<String, Mistake> {
    match (carried.as_number(), carried.as_fault(), carried.as_value()) {
        (Some(number), None, None) => Ok(show(alloc, &Value::Num(number))?),
        (None, Some(code), None) => Ok(show(alloc, &Value::Fault(code))?),
        (None, None, Some(value)) => Ok(show(alloc, value)?),
        _ => Err(Mistake::Unfit),
    }
}

/// Shares the value, and shows what the new owner returns while the first one exists.
fn shared_answer(alloc: Global, carried: &Carried) -> Result<String, Mistake> {
    let shared = carried.share(alloc)?;
    Ok(show(alloc, &shared.into_value(alloc)?)?)
}

/// Shares the value, drops the first owner, and shows what the second one returns.
fn last_answer(alloc: Global, carried: Carried) -> Result<String, Mistake> {
    let shared = carried.share(alloc)?;
    carried.release();
    Ok(show(alloc, &shared.into_value(alloc)?)?)
}

/// Replaces the value by the number 7, and shows it.
fn set_answer(alloc: Global, carried: Carried) -> Result<String, Mistake> {
    let mut set = carried;
    set.set_number(7);
    lent_answer(alloc, &set)
}

/// Returns whether the value equals `other`, and whether it equals itself shared.
fn same_answer(alloc: Global, carried: &Carried, other: &Value) -> Result<String, Mistake> {
    let other = carried_of(alloc, other)?;
    let shared = carried.share(alloc)?;
    Ok(format!(in alloc; "{} {}", carried.same(&other), carried.same(&shared))?)
}

/// Returns the encoding of the value (`encode`), or the value that is read from its encoding. The
/// call reads with `Carried::read` (`read`), with `read_beside` of the value (`beside`) or with
/// `read_beside` of 7 (`apart`). A zero byte follows the encoding, and must not be read. Fails with
/// `Misspelt` if `call` is another word.
fn encoding_answer(alloc: Global, call: &str, carried: &Carried) -> Result<String, Mistake>
    requires { IsWell carried.now }
{
    let mut bytes = Vec::new(alloc);
    carried.encode(&mut bytes)?;
    if call == "encode" {
        return Ok(shown_bytes(alloc, bytes.as_slice())?);
    }
    bytes.push(0)?;
    let found = match call {
        "read" => Carried::read(alloc, bytes.as_slice()),
        "beside" => carried.read_beside(alloc, bytes.as_slice()),
        "apart" => Carried::number(7).read_beside(alloc, bytes.as_slice()),
        _ => return Err(Mistake::Misspelt),
    };
    match found {
        Ok((read, len)) => read_answer(alloc, &read, len),
        Err(fault) => printed(alloc, &fault),
    }
}

/// Returns a value that was read, and the length of its encoding in bytes.
fn read_answer(alloc: Global, read: &Carried, len: usize) -> Result<String, Mistake> {
    let shown = lent_answer(alloc, read)?;
    Ok(format!(in alloc; "{shown} of {len} bytes")?)
}
