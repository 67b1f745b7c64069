//! The bytes of a device before an offset, read in blocks, the last block first.

ghost use Rattle.std.specs.Prelude.{◌≡◌, ◌≤◌, ◌<◌, ◌+◌, ◌-◌, ℕ, List, [], Ok, Err, length, min, vec_len};
ghost use Rattle.std.specs.Prelude.{drop, slice_range, IfNone, IfOk, IfSome, IsErrOf, IsTrue, OnErr, OnOk};
ghost use Rattle.std.specs.Option.{option_map};
ghost use Rattle.backreader.specs.BackState.{IsLarge, EndsAt, buffer_bytes};
ghost use Rattle.treefile.specs.framing.Backward.{next_before};
ghost use Rattle.treefile.specs.devices.Device.{LeavesContent, Persists, TakesNoMemory, WhenHonest};
ghost use Rattle.treefile.specs.framing.Ending.{IsBytes, ReadsAs, body_before, greatest_body, header_bytes};
ghost use Rattle.treefile.specs.framing.Ending.{least_body, length_bytes, number_before};
ghost use Rattle.treefile.specs.records.TreeFile.{version_of, version_two};
ghost use Rattle.treefile.specs.declared.reading.FrameFault.TheVariants.{Damaged};

use std::alloc::{AllocError, Global};
use treefile::{
    Device, DeviceFault, FileVersion, FrameFault, HEADER_BYTES, LEAST_BODY, LENGTH_BYTES,
    fits_before,
};

/// The initial number of bytes of a buffer.
const BUFFER: usize = 4096;

/// The number of bytes of the length after a body, as a `usize`.
const LENGTH: usize = LENGTH_BYTES as usize;

/// The least number of bytes of a body, as a `usize`.
const LEAST: usize = LEAST_BODY as usize;

/// The bytes of a device before the offset `at`, as far as they are in the buffer. From index
/// `from` to index `to` the buffer has bytes that were read from the device and not taken yet:
/// they are *unread* by the caller. Before `from` the buffer is free. After `take` the bytes of the
/// frame that was taken begin at `to`. The buffer has at least 4,096 bytes, and at most as many as
/// the greatest frame of the version. All unread bytes are after the header (`following`).
#[derive(Drop)]
pub(crate) struct Window {
    version: FileVersion,
    buffer: Vec<u8>,
    from: usize,
    to: usize,
    at: u64,
    ghost ordered: { from ≤ to },
    ghost within: { to ≤ vec_len buffer },
    ghost roomy: { buffer_bytes ≤ vec_len buffer },
    ghost narrow: { vec_len buffer ≤ greatest_body (version_of version) + length_bytes },
    ghost following: { to - from + header_bytes ≤ at },
}

impl Window {
    ghost use Rattle.backreader.specs.Windows.{Keeps, taken, unread};

    /// Makes a window at offset `at`, with no bytes read yet and a buffer of 4,096 bytes. Takes
    /// memory for the buffer, and fails if it is refused.
    #[tactic(auto, using(crate::proofs::EndingAt::buffer_is_small))]
    pub(crate) fn new(alloc: Global, version: FileVersion, at: u64) -> Result<Window, AllocError>
        requires { header_bytes ≤ at }
        ensures version { IfOk result (λ window. window.version ≡ version) }
        ensures at { IfOk result (λ window. window.at ≡ at) }
        ensures unread { IfOk result (λ window. unread window ≡ []) }
    {
        let buffer = vec![in alloc; 0; BUFFER]?;
        let to = buffer.len();
        Ok(Window {
            version,
            buffer,
            from: to,
            to,
            at,
        })
    }

    /// Returns the offset in the file (in bytes) where the next frame is expected to end.
    pub(crate) fn at(&self) -> u64
        ensures { result ≡ self.now.at }
    {
        self.at
    }

    /// Returns whether the file is of version 2.
    #[inline(always)]
    pub(crate) fn is_second(&self) -> bool
        ensures { IsTrue result → version_of self.now.version ≡ version_two }
    {
        self.version == FileVersion::Two
    }

    /// Skips the frame that ends at the offset, whose body has `length` bytes, without reading it:
    /// the device has lent it. Drops the unread bytes of the buffer.
    #[inline(always)]
    pub(crate) fn pass_over(&mut self, length: usize)
        requires { header_bytes + length + length_bytes ≤ self.old.at }
        ensures at { self.new.at + length + length_bytes ≡ self.old.at }
        ensures unread { unread self.new ≡ [] }
        ensures version { self.new.version ≡ self.old.version }
    {
        self.from = self.to;
        self.at -= (length + LENGTH) as u64;
    }

    /// Takes the bytes of the frame that ends at the offset, and returns the length of its body.
    /// Returns `None` if the header ends there.
    ///
    /// Fails with B2 Damaged if no frame ends there, and with D1 Device if a call of the device
    /// failed. Takes memory for a frame that has more bytes than the buffer, and fails with
    /// NoMemory if it is refused. After NoMemory the offset and the unread bytes are as before, so
    /// the call can be repeated.
    #[inline(always)]
    #[tactic(auto, unfolding(treefile::specs::framing::Backward::next_before))]
    pub(crate) fn next<D: Device>(&mut self, device: &mut D) -> Result<Option<usize>, FrameFault>
        requires { WhenHonest (D.is_honest device.old)
            (EndsAt (D.content device.old) self.old.at (unread self.old)) }
        ensures exact { WhenHonest (D.is_honest device.new) (ReadsAs (option_map (taken self.new)) result
            (next_before (version_of self.old.version) (D.content device.old) self.old.at)) }
        ensures memory { WhenHonest (D.is_honest device.new)
            (IsErrOf result FrameFault.NoMemory →
            IsLarge (next_before (version_of self.old.version) (D.content device.old) self.old.at)) }
        ensures occur { WhenHonest (D.is_honest device.new)
            (EndsAt (D.content device.old) self.new.at (unread self.new)) }
        ensures moved { IfOk result (λ found. IfSome found
            (λ count. self.new.at + count + length_bytes ≡ self.old.at)) }
        ensures none { IfOk result (λ found. IfNone found (self.new.at ≡ self.old.at)) }
        ensures kept { OnErr result (self.new.at ≡ self.old.at) }
        ensures version { self.new.version ≡ self.old.version }
        ensures resource { IsErrOf result FrameFault.NoMemory → unread self.new ≡ unread self.old }
        ensures within { IfOk result (λ found. IfSome found
            (λ count. self.new.to + count ≤ vec_len self.new.buffer)) }
        ensures least { IfOk result (λ found. IfSome found (λ count. least_body ≤ count)) }
        ensures greatest { IfOk result (λ found. IfSome found
            (λ count. count ≤ greatest_body (version_of self.old.version))) }
        ensures file { IsErrOf result FrameFault.NotATreeFile → ⊥ }
        ensures content { LeavesContent (D.is_honest device.new)
            (D.content device.old) (D.content device.new) }
        ensures persists { Persists (D.is_honest device.old) (D.is_honest device.new)
            (D.failures device.old) (D.failures device.new) (IsErrOf result FrameFault.Device) }
    {
        if self.at == HEADER_BYTES {
            return Ok(None);
        }
        if let Some(length) = self.buffered_length() {
            self.take(length);
            return Ok(Some(length));
        }
        let unread = self.to - self.from;
        let Some(length) = self.length_before(device)? else {
            return Err(FrameFault::Damaged(self.at));
        };
        if self.grow(length + LENGTH).is_err() {
            // drops the bytes that `length_before` read from the device; the next call reads them
            // again
            self.from = self.to - unread;
            return Err(FrameFault::NoMemory);
        }
        self.ensure_loaded(device, length + LENGTH)?;
        self.take(length);
        Ok(Some(length))
    }

    /// Lends the first `count` of the bytes that were taken last.
    pub(crate) fn taken(&self, count: usize) -> &[u8]
        requires { self.now.to + count ≤ vec_len self.now.buffer }
        ensures { result.now ≡ taken self.now count }
    {
        &self.buffer[self.to..self.to + count]
    }

    /// Returns the length of the body whose frame ends at the offset, if all of that frame is among
    /// the unread bytes, and otherwise `None`. Unread bytes are after the header, and there are at
    /// most as many as the greatest frame has. So the length needs no other check of its limits
    /// than `LEAST`.
    #[inline(always)]
    #[tactic(auto, using(crate::proofs::EndingAt::body_at_hand))]
    fn buffered_length(&self) -> Option<usize>
        ensures found { (content : List ℕ) → EndsAt content self.now.at (unread self.now) →
            IfSome result (λ count. body_before (version_of self.now.version) content self.now.at
            ≡ Ok (slice_range content
            (self.now.at - length_bytes - count) (self.now.at - length_bytes))) }
        ensures read { IfSome result
            (λ count. count + length_bytes ≤ self.now.to - self.now.from) }
        ensures least { IfSome result (λ count. least_body ≤ count) }
        ensures greatest { IfSome result (λ count. count ≤ greatest_body (version_of self.now.version)) }
    {
        let count = self.to - self.from;
        if count < LENGTH {
            return None;
        }
        let length = self.number() as usize;
        if length < LEAST || count - LENGTH < length {
            return None;
        }
        Some(length)
    }

    /// Returns the length of the body whose frame ends at the offset, or `None` if no frame ends
    /// there. Reads the length from the device if it is not in the buffer. Fails with D1 if the
    /// device fails.
    #[cold]
    #[inline(never)]
    #[tactic(auto, unfolding(treefile::specs::framing::Ending::body_before))]
    fn length_before<D: Device>(&mut self, device: &mut D) -> Result<Option<usize>, DeviceFault>
        requires { WhenHonest (D.is_honest device.old)
            (EndsAt (D.content device.old) self.old.at (unread self.old)) }
        ensures found { WhenHonest (D.is_honest device.new)
            (IfOk result (λ found. IfSome found
            (λ count. body_before (version_of self.old.version) (D.content device.old) self.old.at
            ≡ Ok (slice_range (D.content device.old)
            (self.old.at - length_bytes - count) (self.old.at - length_bytes))))) }
        ensures none { WhenHonest (D.is_honest device.new)
            (IfOk result (λ found. IfNone found
            (body_before (version_of self.old.version) (D.content device.old) self.old.at
            ≡ Err (Damaged self.old.at)))) }
        ensures room { IfOk result (λ found. IfSome found
            (λ count. header_bytes + count + length_bytes ≤ self.old.at)) }
        ensures least { IfOk result (λ found. IfSome found (λ count. least_body ≤ count)) }
        ensures greatest { IfOk result (λ found. IfSome found
            (λ count. count ≤ greatest_body (version_of self.old.version))) }
        ensures occur { WhenHonest (D.is_honest device.new)
            (EndsAt (D.content device.old) self.new.at (unread self.new)) }
        ensures kept { Keeps self.old self.new }
        ensures at { self.new.at ≡ self.old.at }
        ensures version { self.new.version ≡ self.old.version }
        ensures memory { TakesNoMemory result }
        ensures content { LeavesContent (D.is_honest device.new)
            (D.content device.old) (D.content device.new) }
        ensures persists { Persists (D.is_honest device.old) (D.is_honest device.new)
            (D.failures device.old) (D.failures device.new) (IsErrOf result DeviceFault.Failed) }
    {
        if self.at < HEADER_BYTES + LENGTH_BYTES {
            return Ok(None);
        }
        self.ensure_loaded(device, LENGTH)?;
        let length = self.number();
        if fits_before(self.version, self.at, u64::from(length)) {
            Ok(Some(length as usize))
        } else {
            Ok(None)
        }
    }

    /// Returns the big-endian number in the four bytes before the offset, which the buffer has.
    fn number(&self) -> u32
        requires { length_bytes ≤ self.now.to - self.now.from }
        ensures { (content : List ℕ) → EndsAt content self.now.at (unread self.now) →
            result ≡ number_before content self.now.at }
    {
        let mut number = [0; 4];
        number.copy_from_slice(&self.buffer[self.to - LENGTH..self.to]);
        u32::from_be_bytes(number)
    }

    /// Takes the frame that ends at the offset, and whose body has `length` bytes, from the unread
    /// bytes: moves the offset and `to` before it.
    fn take(&mut self, length: usize)
        requires { length + length_bytes ≤ self.old.to - self.old.from }
        ensures body { (content : List ℕ) →
            EndsAt content self.old.at (unread self.old) → taken self.new length
            ≡ slice_range content
            (self.old.at - length_bytes - length) (self.old.at - length_bytes) }
        ensures occur { (content : List ℕ) →
            EndsAt content self.old.at (unread self.old) →
            EndsAt content self.new.at (unread self.new) }
        ensures buffer { self.new.buffer ≡ self.old.buffer }
        ensures to { self.new.to + length + length_bytes ≡ self.old.to }
        ensures at { self.new.at + length + length_bytes ≡ self.old.at }
        ensures version { self.new.version ≡ self.old.version }
    {
        self.to -= length + LENGTH;
        self.at -= (length + LENGTH) as u64;
    }

    /// Grows the buffer to at least `count` bytes, which must not be more than the greatest frame
    /// has. Takes memory only if the buffer has fewer bytes, and fails if memory is refused. So a
    /// failure is possible only for a `count` above 4,096. The window is unchanged then.
    fn grow(&mut self, count: usize) -> Result<(), AllocError>
        requires { count ≤ greatest_body (version_of self.old.version) + length_bytes }
        ensures room { OnOk result (count ≤ vec_len self.new.buffer) }
        ensures large { OnErr result (buffer_bytes < count) }
        ensures same { OnErr result (self.new.buffer.items ≡ self.old.buffer.items) }
        ensures unread { unread self.new ≡ unread self.old }
        ensures from { self.new.from ≡ self.old.from }
        ensures to { self.new.to ≡ self.old.to }
        ensures at { self.new.at ≡ self.old.at }
        ensures version { self.new.version ≡ self.old.version }
    {
        if self.buffer.len() < count {
            self.buffer.resize(count, 0)?;
        }
        Ok(())
    }

    /// Reads more bytes if fewer than `count` are unread. Requires room for `count` bytes in the
    /// buffer, and `count` bytes between the header and the offset. Fails with `Failed` if the
    /// device fails; no bytes were added then.
    fn ensure_loaded<D: Device>(&mut self, device: &mut D, count: usize) -> Result<(), DeviceFault>
        requires room { count ≤ vec_len self.old.buffer }
        requires following { header_bytes + count ≤ self.old.at }
        requires occur { WhenHonest (D.is_honest device.old)
            (EndsAt (D.content device.old) self.old.at (unread self.old)) }
        ensures enough { OnOk result (count ≤ self.new.to - self.new.from) }
        ensures occur { WhenHonest (D.is_honest device.new)
            (EndsAt (D.content device.old) self.new.at (unread self.new)) }
        ensures kept { Keeps self.old self.new }
        ensures at { self.new.at ≡ self.old.at }
        ensures version { self.new.version ≡ self.old.version }
        ensures memory { TakesNoMemory result }
        ensures content { LeavesContent (D.is_honest device.new)
            (D.content device.old) (D.content device.new) }
        ensures persists { Persists (D.is_honest device.old) (D.is_honest device.new)
            (D.failures device.old) (D.failures device.new) (IsErrOf result DeviceFault.Failed) }
    {
        if count <= self.to - self.from {
            return Ok(());
        }
        self.fill(device)
    }

    /// Moves the unread bytes to the end of the buffer, and reads the bytes of the file before
    /// them: as many as the buffer has room for, or all after the header. Fails with `Failed` if
    /// the device fails; no bytes were added then.
    #[cold]
    #[inline(never)]
    fn fill<D: Device>(&mut self, device: &mut D) -> Result<(), DeviceFault>
        requires { WhenHonest (D.is_honest device.old)
            (EndsAt (D.content device.old) self.old.at (unread self.old)) }
        ensures full { OnOk result (self.new.to - self.new.from
            ≡ min (vec_len self.old.buffer) (self.old.at - header_bytes)) }
        ensures occur { WhenHonest (D.is_honest device.new)
            (EndsAt (D.content device.old) self.new.at (unread self.new)) }
        ensures kept { Keeps self.old self.new }
        ensures at { self.new.at ≡ self.old.at }
        ensures version { self.new.version ≡ self.old.version }
        ensures memory { TakesNoMemory result }
        ensures content { LeavesContent (D.is_honest device.new)
            (D.content device.old) (D.content device.new) }
        ensures persists { Persists (D.is_honest device.old) (D.is_honest device.new)
            (D.failures device.old) (D.failures device.new) (IsErrOf result DeviceFault.Failed) }
    {
        self.move_to_end();
        let (from, count) = (self.from, self.to - self.from);
        let ahead = self.at - HEADER_BYTES - count as u64;
        let free = ahead.min(from as u64) as usize;
        let start = self.at - (count + free) as u64;
        read_part(device, start, self.buffer.as_mut_slice(), from - free, from)?;
        self.from = from - free;
        Ok(())
    }

    /// Moves the unread bytes to the end of the buffer.
    fn move_to_end(&mut self)
        ensures unread { unread self.new ≡ unread self.old }
        ensures room { vec_len self.new.buffer ≡ vec_len self.old.buffer }
        ensures end { self.new.to ≡ vec_len self.old.buffer }
        ensures count { self.new.to - self.new.from ≡ self.old.to - self.old.from }
        ensures at { self.new.at ≡ self.old.at }
        ensures version { self.new.version ≡ self.old.version }
    {
        let end = self.buffer.len();
        let from = end - (self.to - self.from);
        self.buffer.copy_within(self.from..self.to, from);
        self.from = from;
        self.to = end;
    }
}

/// Reads the bytes of a device from offset `at` on into the part of a buffer from index `from` to
/// index `to`. Fails with `Failed` if the device fails; that part has arbitrary bytes then.
fn read_part<D: Device>(
    device: &mut D,
    at: u64,
    buffer: &mut [u8],
    from: usize,
    to: usize,
) -> Result<(), DeviceFault>
    requires ordered { from ≤ to }
    requires within { to ≤ length buffer.old }
    requires there { WhenHonest (D.is_honest device.old)
        (at + (to - from) ≤ length (D.content device.old)) }
    ensures read { WhenHonest (D.is_honest device.new) (OnOk result (slice_range buffer.new from to
        ≡ slice_range (D.content device.old) at (at + (to - from)))) }
    ensures following { drop to buffer.new ≡ drop to buffer.old }
    ensures bytes { IsBytes buffer.new }
    ensures length { length buffer.new ≡ length buffer.old }
    ensures memory { TakesNoMemory result }
    ensures content { LeavesContent (D.is_honest device.new)
        (D.content device.old) (D.content device.new) }
    ensures persists { Persists (D.is_honest device.old) (D.is_honest device.new)
        (D.failures device.old) (D.failures device.new) (IsErrOf result DeviceFault.Failed) }
{
    device.read_at(at, &mut buffer[from..to])
}
