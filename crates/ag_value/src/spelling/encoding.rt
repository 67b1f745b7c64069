//! Encoding a value in bytes. The first byte is the kind: 0 for a number, 1 for a text, 2 for a
//! list, 3 for a table, 4 for an error.
ghost use Rattle.std.specs.Prelude.{◌≡◌, ◌++◌, ◌∷◌, ◌+◌, ◌<◌, ◌^◌, length, map, sum};
ghost use Rattle.std.specs.Prelude.{OnOk, OnErr};
ghost use Rattle.std.specs.Int.{w32, w64, to_be_bytes, cast_unsigned};
ghost use Rattle.ag_value.specs.Measure.{weight_of, weight_of_pair};
ghost use Rattle.ag_value.specs.Spelling.{Extends, counted, joined, number_of, spelling_of};
ghost use Rattle.ag_value.specs.Spelling.{spelling_of_pair};
ghost use Rattle.ag_value.specs.Well.{IsWell};

use crate::fault::NoMemory;
use crate::text::Text;
use crate::value::{ErrorCode, Value};

/// Appends the spelling of a well value to `out`. Takes memory from the allocator of `out`.
/// Fails with NoMemory, and then leaves the bytes of `out` unchanged.
pub fn encode(value: &Value, out: &mut Vec<u8>) -> Result<(), NoMemory>
    requires { IsWell value.now }
    ensures ok { OnOk result (out.new.items ≡ out.old.items ++ spelling_of value.now) }
    ensures err { OnErr result (out.new.items ≡ out.old.items) }
{
    let start = out.len();
    match append_value(out, value) {
        Ok(()) => Ok(()),
        Err(error) => {
            out.truncate(start);
            Err(error)
        }
    }
}

/// Appends the spelling of a value. Fails with NoMemory, and then may have appended a part of the
/// spelling; this is also true of the functions below that return a `Result`. The weight is below
/// 2^32, so each count and length fits in four bytes.
#[cycle(encoding)]
#[tactic(auto, using(crate::proofs::Extending::appending))]
fn append_value(out: &mut Vec<u8>, value: &Value) -> Result<(), NoMemory>
    requires { weight_of value.now < 2 ^ 32 }
    ensures ok { OnOk result (out.new.items ≡ out.old.items ++ spelling_of value.now) }
    ensures extends { Extends out.old.items out.new.items }
{
    match value {
        Value::Num(n) => append_number(out, *n)?,
        Value::Text(text) => append_tagged_text(out, text.as_str())?,
        Value::List(items) => append_list(out, items.as_slice())?,
        Value::Table(pairs) => append_table(out, pairs.as_slice())?,
        Value::Fault(code) => append_bytes(out, &[4, number(*code)])?,
    }
    Ok(())
}

/// Appends the spelling of a list.
#[cycle(encoding)]
#[tactic(auto, using(crate::proofs::Extending::extending, crate::proofs::Weights::few))]
fn append_list(out: &mut Vec<u8>, items: &[Value]) -> Result<(), NoMemory>
    requires { sum (map weight_of items.now) < 2 ^ 32 }
    ensures ok { OnOk result (out.new.items ≡ out.old.items
        ++ 2 ∷ (to_be_bytes w32 (length items.now) ++ joined (map spelling_of items.now))) }
    ensures extends { Extends out.old.items out.new.items }
{
    out.push(2)?;
    append_count(out, items.len())?;
    for item in items {
        append_value(out, item)?;
    }
    Ok(())
}

/// Appends the spelling of a table.
#[cycle(encoding)]
#[tactic(auto, using(crate::proofs::Extending::extending, crate::proofs::Weights::few))]
fn append_table(out: &mut Vec<u8>, pairs: &[(Text, Value)]) -> Result<(), NoMemory>
    requires { sum (map weight_of_pair pairs.now) < 2 ^ 32 }
    ensures ok { OnOk result (out.new.items ≡ out.old.items
        ++ 3 ∷ (to_be_bytes w32 (length pairs.now) ++ joined (map spelling_of_pair pairs.now))) }
    ensures extends { Extends out.old.items out.new.items }
{
    out.push(3)?;
    append_count(out, pairs.len())?;
    for pair in pairs {
        append_text(out, pair.0.as_str())?;
        append_value(out, &pair.1)?;
    }
    Ok(())
}

/// Appends the spelling of a number.
#[tactic(auto, using(crate::proofs::Extending::extending))]
fn append_number(out: &mut Vec<u8>, n: i64) -> Result<(), NoMemory>
    ensures ok { OnOk result
        (out.new.items ≡ out.old.items ++ 0 ∷ to_be_bytes w64 (cast_unsigned w64 n)) }
    ensures extends { Extends out.old.items out.new.items }
{
    out.push(0)?;
    append_bytes(out, &n.to_be_bytes())?;
    Ok(())
}

/// Appends the spelling of a text.
#[tactic(auto, using(crate::proofs::Extending::extending))]
fn append_tagged_text(out: &mut Vec<u8>, text: &str) -> Result<(), NoMemory>
    requires { length text.now < 2 ^ 32 }
    ensures ok { OnOk result (out.new.items ≡ out.old.items ++ 1 ∷ counted text.now) }
    ensures extends { Extends out.old.items out.new.items }
{
    out.push(1)?;
    append_text(out, text)?;
    Ok(())
}

/// Appends the length of a text in four bytes, and the text.
#[tactic(auto, using(crate::proofs::Extending::extending))]
fn append_text(out: &mut Vec<u8>, text: &str) -> Result<(), NoMemory>
    requires { length text.now < 2 ^ 32 }
    ensures ok { OnOk result (out.new.items ≡ out.old.items ++ counted text.now) }
    ensures extends { Extends out.old.items out.new.items }
{
    append_count(out, text.len())?;
    append_bytes(out, text.as_bytes())?;
    Ok(())
}

/// Appends a count in four bytes, big-endian.
#[tactic(auto, using(crate::proofs::Extending::extending))]
fn append_count(out: &mut Vec<u8>, count: usize) -> Result<(), NoMemory>
    requires { count < 2 ^ 32 }
    ensures ok { OnOk result (out.new.items ≡ out.old.items ++ to_be_bytes w32 count) }
    ensures extends { Extends out.old.items out.new.items }
{
    append_bytes(out, &(count as u32).to_be_bytes())
}

/// Appends bytes.
#[tactic(auto, using(crate::proofs::Extending::extending))]
fn append_bytes(out: &mut Vec<u8>, bytes: &[u8]) -> Result<(), NoMemory>
    ensures ok { OnOk result (out.new.items ≡ out.old.items ++ bytes.now) }
    ensures extends { Extends out.old.items out.new.items }
{
    out.extend_from_slice(bytes)?;
    Ok(())
}

/// Returns the number by which the spelling of an error names it, from 1 to 8.
fn number(code: ErrorCode) -> u8
    ensures { result ≡ number_of code }
{
    match code {
        ErrorCode::Overflow => 1,
        ErrorCode::Divide => 2,
        ErrorCode::Kind => 3,
        ErrorCode::Index => 4,
        ErrorCode::Key => 5,
        ErrorCode::Number => 6,
        ErrorCode::Big => 7,
        ErrorCode::Deep => 8,
    }
}
