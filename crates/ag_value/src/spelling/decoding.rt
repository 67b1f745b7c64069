//! Reading a value from the bytes of its spelling. The first byte is the kind: 0 for a number, 1
//! for a text, 2 for a list, 3 for a table, 4 for an error.
ghost use Rattle.std.specs.Prelude.{◌≡◌, ◌++◌, ◌≤◌, ℕ, List, [], true, false, length, take};
ghost use Rattle.std.specs.Prelude.{IfOk, IfSome, IfNone, MatchResult};
ghost use Rattle.std.specs.Int.{w32, w64};
ghost use Rattle.std.specs.Str.{is_utf8};
ghost use Rattle.ag_value.specs.Reading.{Agrees, all_at, code_at, fault_at, item_at, number_at};
ghost use Rattle.ag_value.specs.Reading.{pair_at, text_at, value_at};
ghost use Rattle.ag_value.specs.Spelling.{spelling_of};
ghost use Rattle.ag_value.specs.Well.{IsWell};
ghost use Rattle.ag_value.specs.declared.value.Value.{Value};

use crate::fault::ValueFault;
use crate::items::Items;
use crate::limits::{MAX_VALUE_DEPTH, MAX_WEIGHT};
use crate::text::Text;
use crate::value::{ErrorCode, Value};
use crate::walks::wellness::has_ascending_keys;
use std::alloc::Global;
use std::str::from_utf8;

/// The length of the shortest spelling of an item (an empty text, list or table), in bytes. The
/// spelling of an error is shorter, but an error is never an item. Spellings of pairs are longer.
const MIN_ITEM_LENGTH: usize = 5;

/// The greatest number of items or pairs for which room is reserved before the first of them is
/// read.
const MAX_RESERVED: usize = 1024;

/// Decodes the value whose spelling is a prefix of the input. Returns it and the length of that
/// prefix in bytes. More bytes may follow.
///
/// Fails with NoMemory if memory runs out, and otherwise with Malformed (V1) exactly if no prefix
/// of the input is the spelling of a well value. A returned value is well, and the prefix is its
/// spelling.
#[inline(always)]
pub fn decode(alloc: Global, input: &[u8]) -> Result<(Value, usize), ValueFault>
    ensures well { IfOk result (λ found. IsWell found.0) }
    ensures within { IfOk result (λ found. found.1 ≤ length input.now) }
    ensures spelled { IfOk result (λ found. take found.1 input.now ≡ spelling_of found.0) }
    ensures read { (value : Value) (rest : List ℕ) → IsWell value
        → input.now ≡ spelling_of value ++ rest
        → MatchResult result
        (λ found. found ≡ (value, length (spelling_of value)))
        (λ e. e ≡ ValueFault.NoMemory) }
{
    let (value, rest) = leading_value(alloc, MAX_VALUE_DEPTH as usize, input)?;
    // The weight of the value is the length of its spelling.
    let len = input.len() - rest.len();
    if len as u64 > MAX_WEIGHT {
        return Err(ValueFault::Malformed);
    }
    Ok((value, len))
}

/// Reads a value at the beginning of the bytes. Returns the value and the bytes after it. Fails
/// with V1 if the bytes don't begin with the spelling of a value, if the value is deeper than
/// `levels`, if a list or table contains an error, or if the keys of a table are not strictly
/// ascending. Can also fail with NoMemory.
///
/// Errors are read here, since `item_of` rejects them. Numbers are read here to save a call.
#[inline(always)]
#[tactic(auto, unfolding(crate::specs::Reading::value_at, crate::specs::Reading::item_at))]
fn leading_value(alloc: Global, levels: usize, bytes: &[u8]) -> Result<(Value, &[u8]), ValueFault>
    ensures { Agrees (λ x. (x.0, x.1.now)) result (value_at levels bytes.now) }
{
    match bytes {
        [0, rest @ ..] => {
            let (n, rest) = u64_of(rest)?;
            Ok((Value::Num(n.cast_signed()), rest))
        }
        [4, rest @ ..] => fault_of(rest),
        _ => item_of(alloc, levels, bytes),
    }
}

/// Reads a value at the beginning of the bytes. Returns the value and the bytes after it. Fails
/// with V1 if the bytes don't begin with the spelling of a value, if the value is deeper than
/// `levels`, if it is an error or contains an error, or if the keys of a table are not strictly
/// ascending. Can also fail with NoMemory.
#[cycle(reading)]
#[tactic(auto, unfolding(crate::specs::Reading::item_at))]
fn item_of(alloc: Global, levels: usize, bytes: &[u8]) -> Result<(Value, &[u8]), ValueFault>
    ensures { Agrees (λ x. (x.0, x.1.now)) result (item_at levels bytes.now) }
{
    match bytes {
        [] => Err(ValueFault::Malformed),
        [0, rest @ ..] => {
            let (n, rest) = u64_of(rest)?;
            Ok((Value::Num(n.cast_signed()), rest))
        }
        [1, rest @ ..] => {
            let (text, rest) = text_of(alloc, rest)?;
            Ok((Value::Text(text), rest))
        }
        [2, rest @ ..] => {
            if levels == 0 {
                return Err(ValueFault::Malformed);
            }
            let (count, rest) = u32_of(rest)?;
            let (items, rest) = items_of(alloc, levels - 1, count, rest)?;
            Ok((Value::List(items), rest))
        }
        [3, rest @ ..] => {
            if levels == 0 {
                return Err(ValueFault::Malformed);
            }
            let (count, rest) = u32_of(rest)?;
            let (pairs, rest) = pairs_of(alloc, levels - 1, count, rest)?;
            if !has_ascending_keys(pairs.as_slice()) {
                return Err(ValueFault::Malformed);
            }
            Ok((Value::Table(pairs), rest))
        }
        [_, ..] => Err(ValueFault::Malformed),
    }
}

/// Reads `count` values, each as `item_of` does, of a depth of at most `levels`. Fails as `item_of`
/// does.
#[cycle(reading)]
#[tactic(auto, using(crate::proofs::Turns::goes_on), unfolding(crate::specs::Reading::all_at))]
fn items_of(
    alloc: Global,
    levels: usize,
    count: u32,
    bytes: &[u8],
) -> Result<(Items<Value>, &[u8]), ValueFault>
    ensures { Agrees (λ x. (x.0, x.1.now)) result (all_at (item_at levels) count [] bytes.now) }
{
    let mut items = Vec::with_capacity(alloc, room_for(count, bytes))?;
    let mut rest = bytes;
    for _ in 0..count {
        let (item, after) = item_of(alloc, levels, rest)?;
        items.push(item)?;
        rest = after;
    }
    Ok((Items::from_vec(items), rest))
}

/// Reads `count` pairs, as `pair_of` does. Does not compare their keys. Fails as `pair_of` does.
#[cycle(reading)]
#[tactic(auto, using(crate::proofs::Turns::goes_on), unfolding(crate::specs::Reading::all_at))]
fn pairs_of(
    alloc: Global,
    levels: usize,
    count: u32,
    bytes: &[u8],
) -> Result<(Items<(Text, Value)>, &[u8]), ValueFault>
    ensures { Agrees (λ x. (x.0, x.1.now)) result
        (all_at (pair_at (item_at levels)) count [] bytes.now) }
{
    let mut pairs = Vec::with_capacity(alloc, room_for(count, bytes))?;
    let mut rest = bytes;
    for _ in 0..count {
        let (pair, after) = pair_of(alloc, levels, rest)?;
        pairs.push(pair)?;
        rest = after;
    }
    Ok((Items::from_vec(pairs), rest))
}

/// Reads a key, and then a value as `item_of` does, of a depth of at most `levels`. Fails as
/// `text_of` and `item_of` do.
#[cycle(reading)]
#[tactic(auto, unfolding(crate::specs::Reading::pair_at))]
fn pair_of(alloc: Global, levels: usize, bytes: &[u8]) -> Result<((Text, Value), &[u8]), ValueFault>
    ensures { Agrees (λ x. (x.0, x.1.now)) result (pair_at (item_at levels) bytes.now) }
{
    let (key, rest) = text_of(alloc, bytes)?;
    let (value, rest) = item_of(alloc, levels, rest)?;
    Ok(((key, value), rest))
}

/// Returns the number of items or pairs to reserve room for: the least of `count`,
/// [`MAX_RESERVED`], and the number of bytes divided by [`MIN_ITEM_LENGTH`]. So a wrong count takes
/// little memory.
fn room_for(count: u32, bytes: &[u8]) -> usize {
    (count as usize)
        .min(bytes.len() / MIN_ITEM_LENGTH)
        .min(MAX_RESERVED)
}

/// Reads an error by its number, one byte from 1 to 8. Fails with V1 if the bytes begin
/// with another byte, or are empty.
#[tactic(auto, unfolding(crate::specs::Reading::fault_at))]
fn fault_of(bytes: &[u8]) -> Result<(Value, &[u8]), ValueFault>
    ensures { Agrees (λ x. (x.0, x.1.now)) result (fault_at bytes.now) }
{
    match bytes {
        [] => Err(ValueFault::Malformed),
        [number, rest @ ..] => match code_of(*number) {
            Some(code) => Ok((Value::Fault(code), rest)),
            None => Err(ValueFault::Malformed),
        },
    }
}

/// Returns the code of the error with this number, or `None` if there is none.
fn code_of(number: u8) -> Option<ErrorCode>
    ensures { result ≡ code_at number }
{
    match number {
        1 => Some(ErrorCode::Overflow),
        2 => Some(ErrorCode::Divide),
        3 => Some(ErrorCode::Kind),
        4 => Some(ErrorCode::Index),
        5 => Some(ErrorCode::Key),
        6 => Some(ErrorCode::Number),
        7 => Some(ErrorCode::Big),
        8 => Some(ErrorCode::Deep),
        _ => None,
    }
}

/// Reads a length in four bytes, and a text of that length in bytes. Returns the text and the bytes
/// after it. Fails with V1 if the bytes end before the text does, or if the text is not UTF-8. Can
/// also fail with NoMemory.
#[tactic(auto, unfolding(crate::specs::Reading::text_at))]
fn text_of(alloc: Global, bytes: &[u8]) -> Result<(Text, &[u8]), ValueFault>
    ensures { Agrees (λ x. (x.0, x.1.now)) result (text_at bytes.now) }
{
    let (len, rest) = u32_of(bytes)?;
    let len = len as usize;
    if rest.len() < len {
        return Err(ValueFault::Malformed);
    }
    let (prefix, rest) = rest.split_at(len);
    let Some(text) = utf8_of(prefix) else {
        return Err(ValueFault::Malformed);
    };
    Ok((Text::from_str(alloc, text)?, rest))
}

/// Returns the bytes as text, or `None` if they are not UTF-8.
#[tactic(auto, using(crate::proofs::Utf8::utf8))]
fn utf8_of(bytes: &[u8]) -> Option<&str>
    ensures text { IfSome result (λ text. text.now ≡ bytes.now) }
    ensures utf8 { IfSome result (λ _. is_utf8 bytes.now ≡ true) }
    ensures none { IfNone result (is_utf8 bytes.now ≡ false) }
{
    match from_utf8(bytes) {
        Ok(text) => Some(text),
        Err(_) => None,
    }
}

/// Reads a big-endian number of four bytes. Returns it and the bytes after it. Fails with V1 if
/// there are fewer than four bytes.
fn u32_of(bytes: &[u8]) -> Result<(u32, &[u8]), ValueFault>
    ensures { Agrees (λ x. (x.0, x.1.now)) result (number_at w32 bytes.now) }
{
    if bytes.len() < 4 {
        return Err(ValueFault::Malformed);
    }
    let (prefix, rest) = bytes.split_at(4);
    let number = u32::from_be_bytes([prefix[0], prefix[1], prefix[2], prefix[3]]);
    Ok((number, rest))
}

/// Reads a big-endian number of eight bytes. Returns it and the bytes after it. Fails with V1 if
/// there are fewer than eight bytes.
#[inline(always)]
fn u64_of(bytes: &[u8]) -> Result<(u64, &[u8]), ValueFault>
    ensures { Agrees (λ x. (x.0, x.1.now)) result (number_at w64 bytes.now) }
{
    if bytes.len() < 8 {
        return Err(ValueFault::Malformed);
    }
    let (prefix, rest) = bytes.split_at(8);
    let number = u64::from_be_bytes([
        prefix[0], prefix[1], prefix[2], prefix[3], prefix[4], prefix[5], prefix[6], prefix[7],
    ]);
    Ok((number, rest))
}
