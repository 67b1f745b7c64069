//! A device in memory that shares large values.

ghost use Rattle.std.specs.Prelude.{◌≡◌, ◌↔◌, ◌+◌, ◌-◌, ◌<◌, ◌≤◌, [], Ok, IfSome, IsTrue, drop, length};
ghost use Rattle.std.specs.Int.{w32, from_be_bytes};
ghost use Rattle.treefile.specs.framing.Ending.{IsBytes, body_before, length_bytes};
ghost use Rattle.treefile.specs.records.TreeFile.{version_two};

use crate::device::{Device, DeviceFault};
use crate::layout::{FileVersion, HEADER_BYTES, LENGTH_BYTES};
use crate::reading::fits_before;
use shared_bytes::{Body, SharedBytes};
use std::alloc::Global;
use std::marker::Model;

/// A device in memory that becomes one more owner of each shared value that `append_parts` appends.
/// A device with shared values lends bodies without copying them. `append` and `read_at` copy
/// bytes. Contracts see the bytes. The device is honest, and never fails with `Failed`.
#[derive(Drop)]
pub struct SharedDevice {
    bytes: SharedBytes,
}

impl Model for SharedDevice {
    ghost use Rattle.std.specs.Prelude.{List, ℕ};

    ghost Value = { List ℕ };

    ghost view = { λ d. d.bytes };
}

impl SharedDevice {
    /// Makes an empty device, which takes memory from `alloc` when it grows. Takes no memory
    /// itself.
    pub fn new(alloc: Global) -> SharedDevice
        ensures { result ≡ [] }
    {
        SharedDevice {
            bytes: SharedBytes::new(alloc),
        }
    }
}

/// Returns whether there are `count` bytes from offset `at` on.
fn has_part(bytes: &SharedBytes, at: u64, count: usize) -> bool
    ensures { IsTrue result ↔ (at + count ≤ length bytes.now) }
{
    let len = bytes.len();
    at <= len && count as u64 <= len - at
}

impl Device for SharedDevice {
    ghost use Rattle.std.specs.Prelude.{true};

    ghost content = { λ bytes. bytes };

    ghost is_honest = { λ _. true };

    ghost failures = { λ _. 0 };

    fn len(&mut self) -> Result<u64, DeviceFault> {
        Ok(self.bytes.len())
    }

    #[inline(always)]
    fn append(&mut self, bytes: &[u8]) -> Result<(), DeviceFault> {
        match self.bytes.append(bytes) {
            Ok(()) => Ok(()),
            Err(_) => Err(DeviceFault::NoMemory),
        }
    }

    fn read_at(&mut self, at: u64, out: &mut [u8]) -> Result<(), DeviceFault> {
        if !has_part(&self.bytes, at, out.len()) {
            return Ok(());
        }
        self.bytes.read_at(at, out);
        Ok(())
    }

    fn clear(&mut self) -> Result<(), DeviceFault> {
        self.bytes.clear();
        Ok(())
    }

    fn append_parts(
        &mut self,
        parts: &SharedBytes,
        _buffer: &mut Vec<u8>,
    ) -> Result<(), DeviceFault> {
        match self.bytes.append_all(parts) {
            Ok(()) => Ok(()),
            Err(_) => Err(DeviceFault::NoMemory),
        }
    }

    #[inline(always)]
    fn lend_before(&self, at: u64) -> Option<Body<'_>> {
        if self.bytes.as_slice().is_some() {
            // without shared values, bodies are read in blocks, which is faster
            return None;
        }
        body_before(&self.bytes, at)
    }
}

/// Lends the body of the frame that ends at offset `at` of a content. Returns `None` if no frame
/// ends there, or if the body or its length can't be cut from the shared bytes.
///
/// The type `Body` is any borrowed part of shared bytes; here only the result is the body of a
/// frame. The variable `frame` has all bytes of the content before offset `at`. `last` has the last
/// four of them, and `rest` the others. A *splice* is the encoding of a shared value. `cut` splits
/// a part at an offset; its second argument is the number of splices before the offset. The first
/// two cuts are at the end and at the beginning of the four bytes of the length. These bytes
/// contain no splice, so the number is the same for both cuts.
#[inline(never)]
fn body_before(bytes: &SharedBytes, at: u64) -> Option<Body<'_>>
    ensures body { IfSome result (λ body. body_before version_two bytes.now at ≡ Ok body) }
    ensures bytes { IfSome result
        (λ body. IsBytes (drop (at - length_bytes - length body) bytes.now)) }
{
    // unused at run time: the clause `bytes` of `len` shows the prover that each of `bytes` is
    // below 256
    let _count = bytes.len();
    if at < HEADER_BYTES + LENGTH_BYTES {
        return None;
    }
    let whole = bytes.lend();
    let count = whole.splices_before(at);
    let (frame, _after) = whole.cut(at, count)?;
    let (rest, last) = frame.cut(at - LENGTH_BYTES, count)?;
    let length = number_of(&last)?;
    if !fits_before(FileVersion::Two, at, u64::from(length)) {
        return None;
    }
    let start = at - LENGTH_BYTES - u64::from(length);
    let count = rest.splices_before(start);
    let (_before, body) = rest.cut(start, count)?;
    Some(body)
}

/// Returns the big-endian number in the four bytes of a part, or `None` if the part has another
/// length or contains shared bytes.
fn number_of(part: &Body<'_>) -> Option<u32>
    ensures { IfSome result (λ n. n ≡ from_be_bytes w32 part.now) }
{
    match part.own_prefix() {
        [a, b, c, d] if part.len() == 4 => Some(u32::from_be_bytes([*a, *b, *c, *d])),
        _ => None,
    }
}
