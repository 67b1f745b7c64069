//! Borrowed parts of a list of own and shared bytes.

ghost use Rattle.std.specs.Prelude.{◌≡◌, ◌++◌, ◌+◌, ◌-◌, ◌≤◌, ℕ, List, drop, length, take};
ghost use Rattle.std.specs.Prelude.{slice_range, IfOk, IfSome, IsTrue, OnErr, OnOk};
ghost use Rattle.ag_value.specs.Spelling.{Extends, spelling_of};
ghost use Rattle.ag_value.specs.Well.{IsWell};
ghost use Rattle.shared_bytes.specs.Spliced.{AreSplices, CutAt, IsBeforeSplice, spliced};

use crate::copying::{copy_own, copy_shared};
use crate::splice::Splice;
use ag_carried::{Carried, Encoded};
use ag_value::{NoMemory, ValueFault};
use std::alloc::{AllocError, Global};
use std::marker::Model;

/// Any borrowed part of a `SharedBytes`: own bytes, and between them the encodings of shared
/// values. Contracts see the list of its bytes. The name is that of its main use, the body of a
/// frame of a tree file, but it may be any other part.
#[derive(Drop)]
pub struct Body<'a> {
    /// The own bytes of this part.
    own: &'a [u8],
    /// The splices of this part. Their fields `own` and `at` count from the beginning of the whole
    /// list.
    splices: &'a [Splice],
    /// The number of own bytes of the whole list before this part.
    base: usize,
    /// The offset in the whole list at which this part begins.
    at: u64,
    /// The offset in the whole list at which this part ends: that after its last byte.
    end: u64,
}

impl<'a> Model for Body<'a> {
    ghost use Rattle.std.specs.Prelude.{List, ℕ, ◌+◌, ◌^◌, ◌<◌, length};
    ghost use Rattle.shared_bytes.specs.Spliced.{AreSplices, spliced};

    ghost Value = { List ℕ };

    ghost view = { λ b. spliced b.base b.own.now b.splices.now };

    // The splices are in order, and the offsets in them and `end` are right.
    ghost invariant = { λ b. AreSplices b.base b.at (b.base + length b.own.now) b.end b.splices.now
        × (b.base + length b.own.now < 2 ^ 64) };
}

/// Returns the number of own bytes of the whole list before `offset`, given that `from` of them are
/// before the offset `start`: adds the number of bytes from `start` to `offset`. This is right if
/// no splice is between the two offsets, which the callers check. Returns `None` if `offset` is
/// before `start`, or if the number would exceed `end`.
fn own_from(from: usize, start: u64, end: usize, offset: u64) -> Option<usize>
    ensures following { IfSome result (λ own. from ≤ own) }
    ensures at { IfSome result (λ own. offset ≡ start + (own - from)) }
    ensures within { IfSome result (λ own. own ≤ end) }
{
    if offset < start {
        return None;
    }
    let own = from.checked_add((offset - start) as usize)?;
    if end < own {
        return None;
    }
    Some(own)
}

/// Returns whether at least `own` own bytes come before the splice with index `count` (from 0).
/// Returns true if there is no such splice.
fn is_before(splices: &[Splice], count: usize, own: usize) -> bool
    ensures { IsTrue result → IsBeforeSplice splices.now count own }
{
    if count < splices.len() {
        let splice = &splices[count];
        return own <= splice.own;
    }
    true
}

/// Where a part of a list of bytes begins.
#[derive(Clone, Copy)]
struct Start {
    /// The number of own bytes of the whole list before the part.
    base: usize,
    /// The offset in the whole list at which the part begins.
    at: u64,
}

/// Returns the number of own bytes of the whole list before `offset`, if no splice of the part
/// comes before it. `end` is the number of own bytes of the whole list up to the end of the part.
/// Returns `None` if a splice comes before the offset, or if the offset is inside a splice or
/// outside the part.
fn first_own(splices: &[Splice], start: Start, end: usize, offset: u64) -> Option<usize>
    ensures cut { IfSome result (λ own. CutAt start.base start.at splices.now 0 own offset) }
    ensures within { IfSome result (λ own. own ≤ end) }
{
    let own = own_from(start.base, start.at, end, offset)?;
    if !is_before(splices, 0, own) {
        return None;
    }
    Some(own)
}

/// Returns the number of own bytes of the whole list before `offset`, if exactly `count` splices of
/// the part come before it. `end` is the same as for `first_own`. Returns `None` if another number
/// of splices comes before the offset, or if the offset is inside a splice or outside the part.
fn next_own(
    splices: &[Splice],
    start: Start,
    end: usize,
    offset: u64,
    count: usize,
) -> Option<usize>
    requires some { 1 ≤ count }
    requires few { count ≤ length splices.now }
    ensures cut { IfSome result (λ own. CutAt start.base start.at splices.now count own offset) }
    ensures within { IfSome result (λ own. own ≤ end) }
{
    let splice = &splices[count - 1];
    let after = splice.at.checked_add(splice.bytes.len() as u64)?;
    let own = own_from(splice.own, after, end, offset)?;
    if !is_before(splices, count, own) {
        return None;
    }
    Some(own)
}

/// Returns the result of `first_own` if `count` is 0, `None` if `count` exceeds the number of
/// splices, and otherwise the result of `next_own`.
fn own_at(splices: &[Splice], start: Start, end: usize, offset: u64, count: usize) -> Option<usize>
    ensures cut { IfSome result (λ own. CutAt start.base start.at splices.now count own offset) }
    ensures within { IfSome result (λ own. own ≤ end) }
    ensures few { IfSome result (λ _. count ≤ length splices.now) }
{
    if count == 0 {
        return first_own(splices, start, end, offset);
    }
    if splices.len() < count {
        return None;
    }
    next_own(splices, start, end, offset, count)
}

impl<'a> Body<'a> {
    /// Returns a body of all bytes of a list; `end` is their number.
    pub(crate) fn whole(own: &'a [u8], splices: &'a [Splice], end: u64) -> Body<'a>
        requires { AreSplices 0 0 (length own.now) end splices.now }
        ensures { result ≡ spliced 0 own.entry.now splices.entry.now }
    {
        Body {
            own,
            splices,
            base: 0,
            at: 0,
            end,
        }
    }

    /// Returns the number of bytes.
    pub fn len(&self) -> u64
        ensures { result ≡ length self.now }
    {
        self.end - self.at
    }

    /// Lends the bytes as a slice, if none of them are shared. Takes no memory.
    #[inline(always)]
    pub fn as_slice(&self) -> Option<&'a [u8]>
        ensures { IfSome result (λ bytes. bytes.now ≡ self.now) }
    {
        if !self.splices.is_empty() {
            return None;
        }
        Some(self.own)
    }

    /// Returns the number of shared values of this part that begin before an offset, in bytes from
    /// the first byte of the part, for calls of `cut`. No clause states the result. The clauses of
    /// `cut` hold for every number.
    pub fn splices_before(&self, offset: u64) -> usize {
        let place = self.at.saturating_add(offset);
        self.splices.partition_point(|splice| splice.at < place)
    }

    /// Splits the body at an offset, in bytes from its first byte. `count` is the number of its
    /// shared values before the offset. `splices_before` finds this number for callers that do not
    /// know it. Returns `None` if the offset is inside a shared value or greater than the length,
    /// or if another number of shared values comes before it. No clause says when the result is
    /// `None`. Takes no memory.
    pub fn cut(self, offset: u64, count: usize) -> Option<(Body<'a>, Body<'a>)>
        ensures parts { IfSome result (λ p. self.entry ≡ p.0 ++ p.1) }
        ensures size { IfSome result (λ p. length p.0 ≡ offset) }
    {
        let Body {
            own,
            splices,
            base,
            at,
            end,
        } = self;
        let place = at.checked_add(offset)?;
        let middle = own_at(splices, Start { base, at }, base + own.len(), place, count)?;
        let (own, own_after) = own.split_at(middle - base);
        let (splices, splices_after) = splices.split_at(count);
        let prefix = Body {
            own,
            splices,
            base,
            at,
            end: place,
        };
        let rest = Body {
            own: own_after,
            splices: splices_after,
            base: middle,
            at: place,
            end,
        };
        Some((prefix, rest))
    }

    /// Lends the encoding of the shared value with which the body begins, if it begins with one.
    pub fn shared_prefix(&self) -> Option<&'a Encoded>
        ensures { IfSome result (λ bytes. take (length bytes.now) self.now ≡ bytes.now) }
    {
        match self.splices {
            [splice, ..] if splice.own == self.base => Some(&splice.bytes),
            _ => None,
        }
    }

    /// Lends the own bytes with which the body begins, up to its first shared value.
    pub fn own_prefix(&self) -> &'a [u8]
        ensures { take (length result.now) self.now ≡ result.now }
    {
        match self.splices {
            [] => self.own,
            [splice, ..] => &self.own[..splice.own - self.base],
        }
    }

    /// Returns a second borrow of the same bytes.
    pub fn again(&self) -> Body<'a>
        ensures { result ≡ self.now }
    {
        Body {
            own: self.own,
            splices: self.splices,
            base: self.base,
            at: self.at,
            end: self.end,
        }
    }

    /// Fills `out` with the bytes from an offset on (in bytes, from 0). `offset` plus the length of
    /// `out` must not exceed the length of the body. Takes no memory. Begins with the last shared
    /// value before the offset, so that those before it are not visited one by one.
    pub fn read_at(&self, offset: u64, out: &mut [u8])
        requires { offset + length out.old ≤ length self.now }
        ensures { out.new ≡ slice_range self.now offset (offset + length out.old) }
    {
        match self.from_last_shared(offset) {
            Some((start, rest)) => rest.copy_from(offset - start, out),
            None => self.copy_from(offset, out),
        }
    }

    /// Returns where the last shared value before `offset` begins, and the bytes from that offset
    /// on. Returns `None` if no shared value begins before `offset`. Both offsets are in bytes from
    /// the body's first byte.
    fn from_last_shared(&self, offset: u64) -> Option<(u64, Body<'a>)>
        ensures before { IfSome result (λ p. p.0 ≤ offset) }
        ensures rest { IfSome result (λ p. p.1 ≡ drop p.0 self.now) }
    {
        let count = self.splices_before(offset).checked_sub(1)?;
        let start = self.splices.get(count)?.at.checked_sub(self.at)?;
        // `offset < start` is never true, but no clause of `splices_before` says so
        if offset < start {
            return None;
        }
        let (_before, rest) = self.again().cut(start, count)?;
        Some((start, rest))
    }

    /// Fills `out` with the bytes from an offset on. Visits the shared values from the first one
    /// on.
    fn copy_from(&self, offset: u64, out: &mut [u8])
        requires { offset + length out.old ≤ length self.now }
        ensures { out.new ≡ slice_range self.now offset (offset + length out.old) }
    {
        let (own, splices, base, at) = (self.own, self.splices, self.base, self.at);
        let mut from = 0;
        let mut place = 0;
        let mut done = 0;
        for splice in splices {
            if done == out.len() {
                return;
            }
            let next = splice.own - base;
            let start = splice.at - at;
            done = copy_own(&own[from..next], place, offset, done, out);
            done = copy_shared(&splice.bytes, start, offset, done, out);
            place = start + splice.bytes.len() as u64;
            from = next;
        }
        copy_own(&own[from..], place, offset, done, out);
    }

    /// Appends a copy of all bytes to a vector. Fails with AllocError if memory runs out; the
    /// vector's bytes are then unchanged.
    pub fn append_to(&self, out: &mut Vec<u8>) -> Result<(), AllocError>
        ensures ok { OnOk result (out.new.items ≡ out.old.items ++ self.now) }
        ensures err { OnErr result (out.new.items ≡ out.old.items) }
    {
        let start = out.len();
        let Ok(()) = append_all(self.own, self.base, self.splices, out) else {
            out.truncate(start);
            return Err(AllocError);
        };
        Ok(())
    }

    /// Returns the value whose encoding is a prefix of the body, and the rest of the body. A shared
    /// value gets one more owner, and a value of own bytes is read as `Carried::read` does. Returns
    /// `None` if the body begins neither with a shared value nor with a value of own bytes alone.
    /// It may still begin with a value then, of whose encoding only a part is own bytes. A copy of
    /// all bytes (`append_to`) shows whether it does. Fails with NoMemory.
    pub fn take(&self, alloc: Global) -> Result<Option<(Carried, Body<'a>)>, NoMemory>
        ensures well { IfOk result (λ found. IfSome found (λ p. IsWell p.0)) }
        ensures encoded { IfOk result
            (λ found. IfSome found (λ p. self.now ≡ spelling_of p.0 ++ p.1)) }
    {
        match self.shared_prefix() {
            Some(bytes) => self.take_shared(bytes),
            None => self.take_own(alloc),
        }
    }

    /// Returns the shared value with which the body begins, for one more owner, and the rest of the
    /// body; `bytes` is its encoding. Fails with NoMemory if the value has 2^64 - 1 owners.
    fn take_shared(&self, bytes: &Encoded) -> Result<Option<(Carried, Body<'a>)>, NoMemory>
        requires { take (length bytes.now) self.now ≡ bytes.now }
        ensures well { IfOk result (λ found. IfSome found (λ p. IsWell p.0)) }
        ensures encoded { IfOk result
            (λ found. IfSome found (λ p. self.now ≡ spelling_of p.0 ++ p.1)) }
    {
        let Some((_, rest)) = self.again().cut(bytes.len() as u64, 1) else {
            return Ok(None);
        };
        Ok(Some((bytes.value()?, rest)))
    }

    /// Returns the value whose encoding is a prefix of the own bytes with which the body begins,
    /// and the rest of the body. Returns `None` if these own bytes begin with no encoding of a
    /// value. Fails with NoMemory.
    fn take_own(&self, alloc: Global) -> Result<Option<(Carried, Body<'a>)>, NoMemory>
        ensures well { IfOk result (λ found. IfSome found (λ p. IsWell p.0)) }
        ensures encoded { IfOk result
            (λ found. IfSome found (λ p. self.now ≡ spelling_of p.0 ++ p.1)) }
    {
        let (value, length) = match Carried::read(alloc, self.own_prefix()) {
            Ok(found) => found,
            Err(ValueFault::Malformed) => return Ok(None),
            Err(ValueFault::NoMemory) => return Err(NoMemory::NoMemory),
        };
        let Some((_, rest)) = self.again().cut(length as u64, 0) else {
            return Ok(None);
        };
        Ok(Some((value, rest)))
    }
}

/// Appends a copy of the own bytes of a part and of the encodings between them. `base` is the
/// number of own bytes of the whole list before the part. Fails with AllocError if memory runs out,
/// and may then have appended a part of these bytes.
#[tactic(auto, using(ag_value::proofs::Extending::extending))]
fn append_all(
    own: &[u8],
    base: usize,
    splices: &[Splice],
    out: &mut Vec<u8>,
) -> Result<(), AllocError>
    requires { (at : ℕ) × (total : ℕ) × AreSplices base at (base + length own.now) total splices.now }
    ensures ok { OnOk result (out.new.items ≡ out.old.items ++ spliced base own.now splices.now) }
    ensures extends { Extends out.old.items out.new.items }
{
    let mut from = 0;
    for splice in splices {
        let next = splice.own - base;
        out.extend_from_slice(&own[from..next])?;
        splice.bytes.append_to(out)?;
        from = next;
    }
    out.extend_from_slice(&own[from..])
}
