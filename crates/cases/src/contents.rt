//! Answers questions about contents of devices: files that are written, read backward and reversed.

use ag_value::Value;
use backreader::{Arity, Back, turn};
use rows::words::{
    Mistake, bytes_of, first_word, halves, number, parts, printed, short_number, shown_bytes,
};
use std::alloc::{AllocError, Global};
use treefile::{Device, DeviceFault, Kind, MemDevice, Writer, last_body, split_body};

/// The number of children of each node in trees of binary fractions, by the number of its
/// production in the grammar `examples/binary-fractions.ag`.
struct Fractions {}

impl Arity for Fractions {
    ghost use Rattle.backreader.specs.turning.Worked.{children_in_fractions};

    ghost children_of = { λ _. children_in_fractions };

    fn children(&self, kind: Kind, number: u16) -> Option<u32> {
        match (kind, number) {
            (Kind::Node, 0 | 3 | 5) => Some(2),
            (Kind::Node, 2) => Some(1),
            (Kind::Node, 1 | 4 | 6 | 7) => Some(0),
            _ => None,
        }
    }
}

/// Returns a device that already has 3 bytes, which a writer has to clear.
fn used_device(alloc: Global) -> Result<MemDevice, AllocError> {
    Ok(MemDevice::from_bytes(vec![in alloc; 1, 2, 3]?))
}

/// Returns the last body of a content, or why it has none.
pub fn last_answer(alloc: Global, bytes: Vec<u8>) -> Result<String, Mistake> {
    match last_body(alloc, &mut MemDevice::from_bytes(bytes)) {
        Ok(body) => Ok(shown_bytes(alloc, body.as_slice())?),
        Err(fault) => printed(alloc, &fault),
    }
}

/// Returns the kind, the number and the encoded values of a body.
pub fn split_answer(alloc: Global, body: &[u8]) -> Result<String, Mistake> {
    match split_body(body) {
        Some((kind, number, spellings)) => {
            let spellings = shown_bytes(alloc, spellings)?;
            Ok(format!(in alloc; "{kind:?} {number} [{spellings}]")?)
        }
        None => Ok(String::from_str(alloc, "no body")?),
    }
}

/// Returns the pass of a content, its bodies from the last to the first, how reading ends (`end` or
/// a fault), whether the next call returns the same, and the number of bodies read. If reading
/// can't begin, returns only the fault.
pub fn back_answer(alloc: Global, bytes: Vec<u8>) -> Result<String, Mistake> {
    bodies_answer(alloc, &mut MemDevice::from_bytes(bytes))
}

/// The greatest number of calls that read the bodies of a file: more than any row needs. It bounds
/// the loop of `bodies_answer`.
const MAX_READS: u32 = 1000;

/// Returns what `back_answer` returns. Fails with `Unfit` if reading doesn't end within `MAX_READS`
/// calls.
fn bodies_answer<D: Device>(alloc: Global, device: &mut D) -> Result<String, Mistake> {
    let mut back = match Back::start(alloc, device) {
        Ok(back) => back,
        Err(fault) => return printed(alloc, &fault),
    };
    let mut answer = format!(in alloc; "pass {}:", back.pass())?;
    for _turn in 0..MAX_READS {
        let fault = match back.back(device) {
            Ok(Some(body)) => {
                write!(answer, " {}", shown_bytes(alloc, body)?)?;
                continue;
            }
            Ok(None) => {
                let again = back.back(device) == Ok(None);
                write!(answer, " end {again}, {} bodies", back.records())?;
                return Ok(answer);
            }
            Err(fault) => fault,
        };
        let again = back.back(device) == Err(fault);
        write!(answer, " {fault:?} {again}, {} bodies", back.records())?;
        return Ok(answer);
    }
    Err(Mistake::Unfit)
}

/// Reverses a content into the file of a pass, and returns that file with its number of records, or
/// the fault. The content is read as a tree of binary fractions (`Fractions`).
pub fn turn_answer(alloc: Global, pass: u16, bytes: Vec<u8>) -> Result<String, Mistake> {
    let mut from = MemDevice::from_bytes(bytes);
    let mut to = used_device(alloc)?;
    match turn(alloc, &mut from, &mut to, pass, &Fractions {}) {
        Ok(count) => file_answer(alloc, u64::from(count), to.bytes()),
        Err(fault) => printed(alloc, &fault),
    }
}

/// Returns a number of records, and the bytes of the file with them.
fn file_answer(alloc: Global, count: u64, file: &[u8]) -> Result<String, Mistake> {
    let file = shown_bytes(alloc, file)?;
    Ok(format!(in alloc; "{count} records, {file}")?)
}

/// Writes the file of a pass with the records of a text, and returns the file. The records are
/// separated by `;`. A record is spelled by its kind, its number and its values, as `node 4 1` or
/// `token 0 14`, or by its bytes, as `body 090807`. The values are none, one or three numbers; no
/// row needs another number of values.
pub fn write_answer(alloc: Global, text: &str) -> Result<String, Mistake> {
    let (pass, records) = halves(text, " : ")?;
    let mut device = used_device(alloc)?;
    let count = put_all(alloc, short_number(pass)?, &mut device, records)?;
    file_answer(alloc, count, device.bytes())
}

/// Writes the file of a pass with the records of a text. Returns their number.
fn put_all(
    alloc: Global,
    pass: u16,
    device: &mut MemDevice,
    records: &str,
) -> Result<u64, Mistake> {
    let Ok(mut writer) = Writer::begin(alloc, device, pass) else {
        return Err(Mistake::NoMemory);
    };
    put_records(alloc, &mut writer, device, records)?;
    Ok(writer.written())
}

/// Writes the records of a text.
fn put_records(
    alloc: Global,
    writer: &mut Writer,
    device: &mut MemDevice,
    records: &str,
) -> Result<(), Mistake> {
    for record in parts(alloc, records, " ; ")?.as_slice() {
        put_record(alloc, writer, device, record)?;
    }
    Ok(())
}

/// Writes the record that a text spells. Fails with `Misspelt` if it spells none.
fn put_record(
    alloc: Global,
    writer: &mut Writer,
    device: &mut MemDevice,
    record: &str,
) -> Result<(), Mistake> {
    let (kind, rest) = first_word(record);
    match kind {
        "node" => put_values(alloc, writer, device, Kind::Node, rest),
        "token" => put_values(alloc, writer, device, Kind::Token, rest),
        "body" => put_bytes(writer, device, bytes_of(alloc, rest)?.as_slice()),
        _ => Err(Mistake::Misspelt),
    }
}

/// Converts the result of a write to a device in memory, which fails only if memory is refused.
fn put_result(put: Result<(), DeviceFault>) -> Result<(), Mistake> {
    put.map_err(|_| Mistake::NoMemory)
}

/// Writes the bytes of a body as they are. Fails with `Unfit` if there are fewer than 3, or more
/// than 16,777,219, or if the writer can count no further record. (A body of version 1 has at most
/// 16,777,219 bytes, and `put_body` allows 285,212,675. No row needs more.)
fn put_bytes(writer: &mut Writer, device: &mut MemDevice, body: &[u8]) -> Result<(), Mistake> {
    if writer.written() == u64::MAX || body.len() < 3 || body.len() > 16_777_219 {
        return Err(Mistake::Unfit);
    }
    put_result(writer.put_body(device, body))
}

/// Writes a record with its number and its values, which are zero, one or three numbers. Fails with
/// `Misspelt` if a word isn't such a number, and as `put_numbers` does.
fn put_values(
    alloc: Global,
    writer: &mut Writer,
    device: &mut MemDevice,
    kind: Kind,
    rest: &str,
) -> Result<(), Mistake> {
    let (number_word, values) = first_word(rest);
    let number = short_number(number_word)?;
    put_numbers(
        writer,
        device,
        kind,
        number,
        numbers(alloc, values)?.as_slice(),
    )
}

/// Writes a record with zero, one or three numbers. Fails with `Misspelt` if there is another
/// number of them, and with `Unfit` if the writer can count no further record.
fn put_numbers(
    writer: &mut Writer,
    device: &mut MemDevice,
    kind: Kind,
    number: u16,
    numbers: &[i64],
) -> Result<(), Mistake> {
    if writer.written() == u64::MAX {
        return Err(Mistake::Unfit);
    }
    match numbers {
        [] => put_result(writer.put(device, kind, number, &[])),
        [one] => put_result(writer.put(device, kind, number, &[Value::Num(*one)])),
        [one, two, three] => {
            let values = [Value::Num(*one), Value::Num(*two), Value::Num(*three)];
            put_result(writer.put(device, kind, number, &values))
        }
        _ => Err(Mistake::Misspelt),
    }
}

/// Returns the numbers of a text. Fails with `Misspelt` if a word isn't a `u32`.
fn numbers(alloc: Global, text: &str) -> Result<Vec<i64>, Mistake> {
    let mut numbers = Vec::new(alloc);
    for word in text.split_whitespace() {
        numbers.push(number(word)? as i64)?;
    }
    Ok(numbers)
}
