//! Writing a tree file: its header, and then the frames of its records. The private functions that
//! fill a buffer or `parts`, or append to one of them, fail only if memory is refused, or if a
//! shared value has 2^64 - 1 owners. The buffer or `parts` has arbitrary bytes then. A record
//! without values needs no buffer, nor does one whose values are one, two or three numbers. For
//! these records there are functions that return the frame. The last four bytes of a frame are the
//! length of its body: 3 bytes, and 9 more for each number.

ghost use Rattle.std.specs.Prelude.{◌≡◌, ◌++◌, ◌∷◌, ◌+◌, ◌-◌, ◌<◌, ◌≤◌, ◌^◌, ◌⊎◌, [], length};
ghost use Rattle.std.specs.Prelude.{true, false, All, IfOk, IfSome, IsErrOf, Ok, OnOk};
ghost use Rattle.std.specs.List.{flat_map};
ghost use Rattle.ag_value.specs.Spelling.{spelling_of};
ghost use Rattle.ag_value.specs.Well.{IsWell};
ghost use Rattle.treefile.specs.devices.Device.{Appends, AppendsPrefix, LeavesContent, Persists};
ghost use Rattle.treefile.specs.devices.Device.{WhenHonest};
ghost use Rattle.treefile.specs.framing.Ending.{IsBody};
ghost use Rattle.treefile.specs.framing.Puts.{PutEffect};
ghost use Rattle.treefile.specs.records.TreeFile.{body_of, frame, header, version_two};

use crate::body::Kind;
use crate::device::{Device, DeviceFault};
use crate::layout::header_of;
use ag_carried::Carried;
use ag_value::{NoMemory, Value, encode};
use shared_bytes::SharedBytes;
use std::alloc::{AllocError, Global};
use std::marker::Model;

/// Why a call of a [`Writer`] fails: for the reasons of its device.
pub type WriteFault = DeviceFault;

/// Writes the records of a tree file, each as one frame at the end of a device. The writer holds no
/// device: each call takes the device that the writer was begun on. Contracts see the number of
/// frames that were appended, and whether the writer is broken. A frame is put together in `buffer`
/// or `parts`, whose memory is used again for the next frame.
#[derive(Drop)]
pub struct Writer {
    buffer: Vec<u8>,
    parts: SharedBytes,
    written: u64,
    is_broken: bool,
}

impl Model for Writer {
    ghost use Rattle.treefile.specs.framing.Writing.{Progress};

    ghost Value = { Progress };

    ghost view = { λ w. record { written = w.written; is_broken = w.is_broken } };
}

impl Writer {
    /// Begins a file of a pass: clears the device, and appends the header.
    ///
    /// Fails with D1 Failed if the device failed: the device has its old content, or a prefix of
    /// the header. Takes memory for the header if the device does. After NoMemory the device is
    /// empty.
    pub fn begin<D: Device>(alloc: Global, device: &mut D, pass: u16) -> Result<Writer, WriteFault>
        ensures header { OnOk result
            (WhenHonest (D.is_honest device.new)
            (D.content device.new ≡ header version_two pass)) }
        ensures fresh { IfOk result (λ writer. writer ≡ record { written = 0; is_broken = false }) }
        // D1: the old content of the device, or a prefix of the header
        ensures device { IsErrOf result DeviceFault.Failed → WhenHonest (D.is_honest device.new)
            ((D.content device.new ≡ D.content device.old)
            ⊎ AppendsPrefix (header version_two pass) [] (D.content device.new)) }
        ensures memory { IsErrOf result DeviceFault.NoMemory →
            WhenHonest (D.is_honest device.new) (D.content device.new ≡ []) }
        ensures persists { Persists (D.is_honest device.old) (D.is_honest device.new)
            (D.failures device.old) (D.failures device.new) (IsErrOf result DeviceFault.Failed) }
    {
        device.clear()?;
        device.append(&header_of(pass))?;
        Ok(Writer {
            buffer: Vec::new(alloc),
            parts: SharedBytes::new(alloc),
            written: 0,
            is_broken: false,
        })
    }

    /// Appends the frame of a record by one call of the device. Takes memory for a buffer with the
    /// frame, unless there are at most three values and all are numbers. The device may take memory
    /// too.
    ///
    /// Requires at most 272 values, each of them well, and fewer than u64::MAX frames appended
    /// before.
    ///
    /// Fails with D1 Failed if the device failed: then a prefix of the frame was appended, and the
    /// writer is broken. A broken writer always fails with D1, and doesn't touch the device.
    /// After NoMemory nothing has changed.
    #[inline(always)]
    pub fn put<D: Device>(
        &mut self,
        device: &mut D,
        kind: Kind,
        number: u16,
        values: &[Value],
    ) -> Result<(), WriteFault>
        requires few { length values.now ≤ version_two.max_values }
        requires well { All IsWell values.now }
        requires room { self.old.written < 2 ^ 64 - 1 }
        ensures frame { OnOk result
            (WhenHonest (D.is_honest device.new)
            (D.content device.new
            ≡ D.content device.old ++ frame (body_of kind number values.now))) }
        ensures counted { OnOk result
            (self.new ≡ record self.old { written = self.old.written + 1 }) }

        // D1: a prefix of the frame, and a broken writer
        ensures device { IsErrOf result DeviceFault.Failed → WhenHonest (D.is_honest device.new)
            (AppendsPrefix (frame (body_of kind number values.now))
            (D.content device.old) (D.content device.new)) }
        ensures breaks { IsErrOf result DeviceFault.Failed →
            self.new ≡ record self.old { is_broken = true } }
        ensures broken { self.old.is_broken ≡ true →
            IsErrOf result DeviceFault.Failed × (device.new ≡ device.old) }

        // NoMemory: nothing changes
        ensures memory { IsErrOf result DeviceFault.NoMemory →
            LeavesContent (D.is_honest device.new) (D.content device.old) (D.content device.new) }
        ensures unchanged { IsErrOf result DeviceFault.NoMemory → self.new ≡ self.old }

        ensures persists { Persists (D.is_honest device.old) (D.is_honest device.new)
            (D.failures device.old) (D.failures device.new)
            (IsErrOf result DeviceFault.Failed × (self.old.is_broken ≡ false)) }
    {
        // A broken writer doesn't touch the device.
        if self.is_broken {
            return Err(DeviceFault::Failed);
        }
        if values.is_empty() {
            let answer = device.append(&bare_frame(kind, number));
            return self.finish_call(answer);
        }
        if let [Value::Num(only)] = values {
            let answer = device.append(&number_frame(kind, number, *only));
            return self.finish_call(answer);
        }
        if let Some(frame) = pair_frame(kind, number, values) {
            let answer = device.append(&frame);
            return self.finish_call(answer);
        }
        if let Some(frame) = triple_frame(kind, number, values) {
            let answer = device.append(&frame);
            return self.finish_call(answer);
        }
        fill_frame(&mut self.buffer, kind, number, values)?;
        let answer = device.append(self.buffer.as_slice());
        self.finish_call(answer)
    }

    /// Appends the frame of a record of carried values, as `put` does with values. Carried values
    /// are those of `ag_carried`: several owners may share one. The device may become one more
    /// owner of such a value (`Device::append_parts`). Requires what `put` requires, and fails as
    /// `put` does.
    #[inline(always)]
    pub fn put_carried<D: Device>(
        &mut self,
        device: &mut D,
        kind: Kind,
        number: u16,
        values: &[Carried],
    ) -> Result<(), WriteFault>
        requires few { length values.now ≤ version_two.max_values }
        requires well { All IsWell values.now }
        requires room { self.old.written < 2 ^ 64 - 1 }
        ensures frame { OnOk result
            (WhenHonest (D.is_honest device.new)
            (D.content device.new
            ≡ D.content device.old ++ frame (body_of kind number values.now))) }
        ensures counted { OnOk result
            (self.new ≡ record self.old { written = self.old.written + 1 }) }

        // D1: a prefix of the frame, and a broken writer
        ensures device { IsErrOf result DeviceFault.Failed → WhenHonest (D.is_honest device.new)
            (AppendsPrefix (frame (body_of kind number values.now))
            (D.content device.old) (D.content device.new)) }
        ensures breaks { IsErrOf result DeviceFault.Failed →
            self.new ≡ record self.old { is_broken = true } }
        ensures broken { self.old.is_broken ≡ true →
            IsErrOf result DeviceFault.Failed × (device.new ≡ device.old) }

        // NoMemory: nothing changes
        ensures memory { IsErrOf result DeviceFault.NoMemory →
            LeavesContent (D.is_honest device.new) (D.content device.old) (D.content device.new) }
        ensures unchanged { IsErrOf result DeviceFault.NoMemory → self.new ≡ self.old }

        ensures persists { Persists (D.is_honest device.old) (D.is_honest device.new)
            (D.failures device.old) (D.failures device.new)
            (IsErrOf result DeviceFault.Failed × (self.old.is_broken ≡ false)) }
    {
        if self.is_broken {
            return Err(DeviceFault::Failed);
        }
        if values.is_empty() {
            let answer = device.append(&bare_frame(kind, number));
            return self.finish_call(answer);
        }
        if let Some(frame) = carried_number(kind, number, values) {
            let answer = device.append(&frame);
            return self.finish_call(answer);
        }
        if let Some(frame) = carried_pair(kind, number, values) {
            let answer = device.append(&frame);
            return self.finish_call(answer);
        }
        if let Some(frame) = carried_triple(kind, number, values) {
            let answer = device.append(&frame);
            return self.finish_call(answer);
        }
        let answer = self.append_record(device, kind, number, values);
        self.finish_call(answer)
    }

    /// Appends the frame of a record of carried values by one call of the device: `append_parts` if
    /// some of the values are shared, else `append`. Does not count the frame. Fails with NoMemory,
    /// before any call of the device, if memory to fill the buffer or `parts` is refused. Otherwise
    /// fails as the device does.
    #[inline(always)]
    fn append_record<D: Device>(
        &mut self,
        device: &mut D,
        kind: Kind,
        number: u16,
        values: &[Carried],
    ) -> Result<(), WriteFault>
        requires few { length values.now ≤ version_two.max_values }
        requires well { All IsWell values.now }
        ensures writer { self.new ≡ self.old }
        ensures content { WhenHonest (D.is_honest device.new)
            (Appends (frame (body_of kind number values.now))
            (D.content device.old) (D.content device.new) result) }
        ensures persists { Persists (D.is_honest device.old) (D.is_honest device.new)
            (D.failures device.old) (D.failures device.new) (IsErrOf result DeviceFault.Failed) }
    {
        if values.iter().any(|value| value.is_shared()) {
            fill_parts(&mut self.parts, &mut self.buffer, kind, number, values)?;
            return device.append_parts(&self.parts, &mut self.buffer);
        }
        fill_carried(&mut self.buffer, kind, number, values)?;
        device.append(self.buffer.as_slice())
    }

    /// Appends the frame of a given body by one call of the device. Takes memory for a buffer with
    /// the frame.
    ///
    /// Requires a body of 3 to 285,212,675 bytes, and fewer than u64::MAX frames appended before.
    ///
    /// Fails as `put` does.
    pub fn put_body<D: Device>(&mut self, device: &mut D, body: &[u8]) -> Result<(), WriteFault>
        requires body { IsBody version_two body.now }
        requires room { self.old.written < 2 ^ 64 - 1 }
        ensures frame { OnOk result (WhenHonest (D.is_honest device.new)
            (D.content device.new ≡ D.content device.old ++ frame body.now)) }
        ensures writer { PutEffect device.old device.new self.old self.new result }

        // D1: a prefix of the frame
        ensures device { IsErrOf result DeviceFault.Failed → WhenHonest (D.is_honest device.new)
            (AppendsPrefix (frame body.now) (D.content device.old) (D.content device.new)) }

        // NoMemory: nothing changes
        ensures memory { IsErrOf result DeviceFault.NoMemory →
            LeavesContent (D.is_honest device.new) (D.content device.old) (D.content device.new) }
        ensures persists { Persists (D.is_honest device.old) (D.is_honest device.new)
            (D.failures device.old) (D.failures device.new)
            (IsErrOf result DeviceFault.Failed × (self.old.is_broken ≡ false)) }
    {
        if self.is_broken {
            return Err(DeviceFault::Failed);
        }
        self.buffer.clear();
        self.buffer.extend_from_slice(body)?;
        close_frame(&mut self.buffer)?;
        let answer = device.append(self.buffer.as_slice());
        self.finish_call(answer)
    }

    /// Updates the writer for the result of appending a frame: counts the frame, or marks the
    /// writer as broken after `Failed`. Returns the result.
    #[inline(always)]
    fn finish_call(&mut self, answer: Result<(), DeviceFault>) -> Result<(), DeviceFault>
        requires { self.old.written < 2 ^ 64 - 1 }
        ensures same { result ≡ answer }
        ensures counted { OnOk result (self.new ≡ record self.old { written = self.old.written + 1 }) }
        ensures breaks { IsErrOf result DeviceFault.Failed →
            self.new ≡ record self.old { is_broken = true } }
        ensures unchanged { IsErrOf result DeviceFault.NoMemory → self.new ≡ self.old }
    {
        match answer {
            Ok(()) => self.written += 1,
            Err(DeviceFault::Failed) => self.is_broken = true,
            Err(DeviceFault::NoMemory) => {}
        }
        answer
    }

    /// Returns the number of frames that were appended.
    pub fn written(&self) -> u64
        ensures { result ≡ self.now.written }
    {
        self.written
    }
}

/// Returns the frame of a record without values.
fn bare_frame(kind: Kind, number: u16) -> [u8; 7]
    ensures { result ≡ frame (body_of kind number []) }
{
    let [high, low] = number.to_be_bytes();
    [kind.byte(), high, low, 0, 0, 0, 3]
}

/// Returns the frame of a record whose one value is a number.
#[tactic(auto, using(ag_value::proofs::Layers::spellings))]
fn number_frame(kind: Kind, number: u16, only: i64) -> [u8; 16]
    ensures { result ≡ frame (body_of kind number (Value.Num only ∷ [])) }
{
    let kind = kind.byte();
    let [high, low] = number.to_be_bytes();
    let [tag, a, b, c, d, e, f, g, h] = number_spelling(only);
    [kind, high, low, tag, a, b, c, d, e, f, g, h, 0, 0, 0, 12]
}

/// Returns the frame of a record whose two values are numbers, or `None` for other values.
#[inline(always)]
fn pair_frame(kind: Kind, number: u16, values: &[Value]) -> Option<[u8; 25]>
    ensures { IfSome result (λ it. it ≡ frame (body_of kind number values.now)) }
{
    match values {
        [Value::Num(first), Value::Num(second)] => {
            Some(frame_of_pair(kind, number, *first, *second))
        }
        _ => None,
    }
}

/// Returns the frame of a record with these two numbers.
#[tactic(auto, using(ag_value::proofs::Layers::spellings))]
#[inline(always)]
fn frame_of_pair(kind: Kind, number: u16, first: i64, second: i64) -> [u8; 25]
    ensures { result ≡ frame (body_of kind number (Value.Num first ∷ Value.Num second ∷ [])) }
{
    let kind = kind.byte();
    let [high, low] = number.to_be_bytes();
    let [tag, a, b, c, d, e, f, g, h] = number_spelling(first);
    let [other, i, j, k, l, m, n, o, p] = number_spelling(second);
    [
        kind, high, low, tag, a, b, c, d, e, f, g, h, other, i, j, k, l, m, n, o, p, 0, 0, 0, 21,
    ]
}

/// Returns the frame of a record whose three values are numbers, or `None` for other values.
#[inline(always)]
fn triple_frame(kind: Kind, number: u16, values: &[Value]) -> Option<[u8; 34]>
    ensures { IfSome result (λ it. it ≡ frame (body_of kind number values.now)) }
{
    match values {
        [Value::Num(first), Value::Num(second), Value::Num(third)] => {
            Some(frame_of_triple(kind, number, *first, *second, *third))
        }
        _ => None,
    }
}

/// Returns the frame of a record with these three numbers.
#[tactic(auto, using(ag_value::proofs::Layers::spellings))]
#[inline(always)]
fn frame_of_triple(kind: Kind, number: u16, first: i64, second: i64, third: i64) -> [u8; 34]
    ensures { result ≡ frame (body_of kind number
        (Value.Num first ∷ Value.Num second ∷ Value.Num third ∷ [])) }
{
    let kind = kind.byte();
    let [high, low] = number.to_be_bytes();
    let [tag, a, b, c, d, e, f, g, h] = number_spelling(first);
    let [other, i, j, k, l, m, n, o, p] = number_spelling(second);
    let [last, q, r, s, t, u, v, w, x] = number_spelling(third);
    [
        kind, high, low, tag, a, b, c, d, e, f, g, h, other, i, j, k, l, m, n, o, p, last, q, r, s,
        t, u, v, w, x, 0, 0, 0, 30,
    ]
}

/// Returns the spelling of a number: the tag 0, and the number in 8 bytes, big-endian.
#[tactic(auto, using(ag_value::proofs::Layers::spellings))]
fn number_spelling(n: i64) -> [u8; 9]
    ensures { result ≡ spelling_of (Value.Num n) }
{
    let [a, b, c, d, e, f, g, h] = n.to_be_bytes();
    [0, a, b, c, d, e, f, g, h]
}

/// Fills the buffer with the frame of a record.
fn fill_frame(
    buffer: &mut Vec<u8>,
    kind: Kind,
    number: u16,
    values: &[Value],
) -> Result<(), NoMemory>
    requires few { length values.now ≤ version_two.max_values }
    requires well { All IsWell values.now }
    ensures { OnOk result (buffer.new.items ≡ frame (body_of kind number values.now)) }
{
    fill_body(buffer, kind, number, values)?;
    close_frame(buffer)?;
    Ok(())
}

/// Completes the body in the buffer to its frame: appends its length.
fn close_frame(buffer: &mut Vec<u8>) -> Result<(), AllocError>
    requires { IsBody version_two buffer.old.items }
    ensures { OnOk result (buffer.new.items ≡ frame buffer.old.items) }
{
    let length = buffer.len() as u32;
    buffer.extend_from_slice(&length.to_be_bytes())?;
    Ok(())
}

/// Fills the buffer with the body of a record.
fn fill_body(
    buffer: &mut Vec<u8>,
    kind: Kind,
    number: u16,
    values: &[Value],
) -> Result<(), NoMemory>
    requires { All IsWell values.now }
    ensures { OnOk result (buffer.new.items ≡ body_of kind number values.now) }
{
    let [high, low] = number.to_be_bytes();
    buffer.clear();
    buffer.extend_from_slice(&[kind.byte(), high, low])?;
    append_values(buffer, values)
}

/// Appends the spellings of values.
fn append_values(buffer: &mut Vec<u8>, values: &[Value]) -> Result<(), NoMemory>
    requires { All IsWell values.now }
    ensures { OnOk result (buffer.new.items ≡ buffer.old.items ++ flat_map spelling_of values.now) }
{
    for value in values {
        append_value(buffer, value)?;
    }
    Ok(())
}

/// Appends the spelling of a value.
fn append_value(buffer: &mut Vec<u8>, value: &Value) -> Result<(), NoMemory>
    requires { IsWell value.now }
    ensures { OnOk result (buffer.new.items ≡ buffer.old.items ++ spelling_of value.now) }
{
    let Value::Num(n) = value else {
        return encode(value, buffer);
    };
    buffer.extend_from_slice(&number_spelling(*n))?;
    Ok(())
}

/// Returns the frame of a record whose one value is a number, or `None` for other values.
#[inline(always)]
fn carried_number(kind: Kind, number: u16, values: &[Carried]) -> Option<[u8; 16]>
    ensures { IfSome result (λ it. it ≡ frame (body_of kind number values.now)) }
{
    let [only] = values else {
        return None;
    };
    let only = only.as_number()?;
    Some(number_frame(kind, number, only))
}

/// Returns the frame of a record whose two values are numbers, or `None` for other values.
#[inline(always)]
fn carried_pair(kind: Kind, number: u16, values: &[Carried]) -> Option<[u8; 25]>
    ensures { IfSome result (λ it. it ≡ frame (body_of kind number values.now)) }
{
    let [first, second] = values else {
        return None;
    };
    let first = first.as_number()?;
    let second = second.as_number()?;
    Some(frame_of_pair(kind, number, first, second))
}

/// Returns the frame of a record whose three values are numbers, or `None` for other values.
#[inline(always)]
fn carried_triple(kind: Kind, number: u16, values: &[Carried]) -> Option<[u8; 34]>
    ensures { IfSome result (λ it. it ≡ frame (body_of kind number values.now)) }
{
    let [first, second, third] = values else {
        return None;
    };
    let first = first.as_number()?;
    let second = second.as_number()?;
    let third = third.as_number()?;
    Some(frame_of_triple(kind, number, first, second, third))
}

/// Fills the buffer with the frame of a record of carried values.
fn fill_carried(
    buffer: &mut Vec<u8>,
    kind: Kind,
    number: u16,
    values: &[Carried],
) -> Result<(), NoMemory>
    requires few { length values.now ≤ version_two.max_values }
    requires well { All IsWell values.now }
    ensures { OnOk result (buffer.new.items ≡ frame (body_of kind number values.now)) }
{
    fill_carried_body(buffer, kind, number, values)?;
    close_frame(buffer)?;
    Ok(())
}

/// Fills the buffer with the body of a record of carried values.
fn fill_carried_body(
    buffer: &mut Vec<u8>,
    kind: Kind,
    number: u16,
    values: &[Carried],
) -> Result<(), NoMemory>
    requires { All IsWell values.now }
    ensures { OnOk result (buffer.new.items ≡ body_of kind number values.now) }
{
    let [high, low] = number.to_be_bytes();
    buffer.clear();
    buffer.extend_from_slice(&[kind.byte(), high, low])?;
    append_carried_values(buffer, values)
}

/// Appends the spellings of carried values.
fn append_carried_values(buffer: &mut Vec<u8>, values: &[Carried]) -> Result<(), NoMemory>
    requires { All IsWell values.now }
    ensures { OnOk result (buffer.new.items ≡ buffer.old.items ++ flat_map spelling_of values.now) }
{
    for value in values {
        append_carried(buffer, value)?;
    }
    Ok(())
}

/// Appends the spelling of a carried value.
#[inline(always)]
fn append_carried(buffer: &mut Vec<u8>, value: &Carried) -> Result<(), NoMemory>
    requires { IsWell value.now }
    ensures { OnOk result (buffer.new.items ≡ buffer.old.items ++ spelling_of value.now) }
{
    let Some(n) = value.as_number() else {
        return value.encode(buffer);
    };
    buffer.extend_from_slice(&number_spelling(n))?;
    Ok(())
}

/// Fills `parts` with the frame of a record of carried values. Shared values are not copied:
/// `parts` becomes one more owner of each. The other values are spelled in `buffer` first.
fn fill_parts(
    parts: &mut SharedBytes,
    buffer: &mut Vec<u8>,
    kind: Kind,
    number: u16,
    values: &[Carried],
) -> Result<(), NoMemory>
    requires few { length values.now ≤ version_two.max_values }
    requires well { All IsWell values.now }
    ensures { OnOk result (parts.new ≡ frame (body_of kind number values.now)) }
{
    fill_parts_of_body(parts, buffer, kind, number, values)?;
    close_parts(parts)
}

/// Completes the body in `parts` to its frame: appends its length.
fn close_parts(parts: &mut SharedBytes) -> Result<(), NoMemory>
    requires { IsBody version_two parts.old }
    ensures { OnOk result (parts.new ≡ frame parts.old) }
{
    let length = parts.len() as u32;
    parts.append(&length.to_be_bytes())
}

/// Fills `parts` with the body of a record of carried values.
fn fill_parts_of_body(
    parts: &mut SharedBytes,
    buffer: &mut Vec<u8>,
    kind: Kind,
    number: u16,
    values: &[Carried],
) -> Result<(), NoMemory>
    requires { All IsWell values.now }
    ensures { OnOk result (parts.new ≡ body_of kind number values.now) }
{
    let [high, low] = number.to_be_bytes();
    parts.clear();
    parts.append(&[kind.byte(), high, low])?;
    append_values_to_parts(parts, buffer, values)
}

/// Appends the spellings of carried values. Shared values are not copied, as in `fill_parts`.
fn append_values_to_parts(
    parts: &mut SharedBytes,
    buffer: &mut Vec<u8>,
    values: &[Carried],
) -> Result<(), NoMemory>
    requires { All IsWell values.now }
    ensures { OnOk result (parts.new ≡ parts.old ++ flat_map spelling_of values.now) }
{
    for value in values {
        append_to_parts(parts, buffer, value)?;
    }
    Ok(())
}

/// Appends the spelling of a carried value. A shared value is not copied, as in `fill_parts`.
fn append_to_parts(
    parts: &mut SharedBytes,
    buffer: &mut Vec<u8>,
    value: &Carried,
) -> Result<(), NoMemory>
    requires { IsWell value.now }
    ensures { OnOk result (parts.new ≡ parts.old ++ spelling_of value.now) }
{
    match value.encoded()? {
        Some(bytes) => parts.append_encoded(&bytes),
        None => {
            buffer.clear();
            append_carried(buffer, value)?;
            parts.append(buffer.as_slice())
        }
    }
}
