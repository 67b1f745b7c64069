//! A growing list of bytes, of which some are shared.

ghost use Rattle.std.specs.Prelude.{◌≡◌, ◌++◌, ◌+◌, ◌<◌, ◌≤◌, ◌^◌, ℕ, [], length, map, slice_range};
ghost use Rattle.std.specs.Prelude.{slice_index, IfOk, IfSome, IsTrue, OnErr, OnOk};
ghost use Rattle.shared_bytes.specs.Spliced.{shift};

use crate::body::Body;
use crate::splice::Splice;
use ag_carried::Encoded;
use ag_value::NoMemory;
use std::alloc::{AllocError, Global};
use std::marker::Model;

/// A growing list of bytes: own ones in one vector, and between them the encodings of shared values
/// (those of more than 24 bytes, and those of shared texts and trees), which are not copied.
/// Contracts see the list of all bytes.
#[derive(Drop)]
pub struct SharedBytes {
    alloc: Global,
    /// The own bytes.
    own: Vec<u8>,
    /// The encodings of the shared values between the own bytes, in their order.
    splices: Vec<Splice>,
    /// The number of all bytes.
    len: u64,
}

impl Model for SharedBytes {
    ghost use Rattle.std.specs.Prelude.{List, ℕ};

    ghost Value = { List ℕ };

    ghost use Rattle.std.specs.Prelude.{length};
    ghost use Rattle.shared_bytes.specs.Spliced.{AreSplices, spliced};

    ghost view = { λ m. spliced 0 m.own.items m.splices.items };

    ghost use Rattle.std.specs.Prelude.{◌<◌, slice_index};

    // The splices are in order, the offset in each splice and `len` are right, and each number in
    // the list is below 256.
    ghost invariant = { λ m. AreSplices 0 0 (length m.own.items) m.len m.splices.items
        × ((i : ℕ) → slice_index (spliced 0 m.own.items m.splices.items) i < 256) };
}

impl SharedBytes {
    /// Returns an empty list of bytes, which will use this allocator. Takes no memory.
    pub fn new(alloc: Global) -> SharedBytes
        ensures { result ≡ [] }
    {
        SharedBytes {
            alloc,
            own: Vec::new(alloc),
            splices: Vec::new(alloc),
            len: 0,
        }
    }

    /// Returns the number of bytes. Takes no memory.
    pub fn len(&self) -> u64
        ensures len { result ≡ length self.now }
        ensures bytes { (i : ℕ) → slice_index self.now i < 256 }
    {
        self.len
    }

    /// Returns whether the number of bytes is below 2^64 after `count` more are appended.
    fn has_room(&self, count: u64) -> bool
        ensures { IsTrue result → length self.now + count < 2 ^ 64 }
    {
        self.len().checked_add(count).is_some()
    }

    /// Appends a copy of bytes. Fails with NoMemory; then nothing changes.
    #[inline(always)]
    pub fn append(&mut self, bytes: &[u8]) -> Result<(), NoMemory>
        ensures ok { OnOk result (self.new ≡ self.old ++ bytes.now) }
        ensures err { OnErr result (self.new ≡ self.old) }
    {
        if !self.has_room(bytes.len() as u64) {
            return Err(NoMemory::NoMemory);
        }
        self.append_own(bytes)?;
        Ok(())
    }

    /// Appends a copy of bytes. The caller guarantees that the number of all bytes is then below
    /// 2^64. Fails with AllocError; then nothing changes.
    #[inline(always)]
    fn append_own(&mut self, bytes: &[u8]) -> Result<(), AllocError>
        requires { length self.old + length bytes.now < 2 ^ 64 }
        ensures ok { OnOk result (self.new ≡ self.old ++ bytes.now) }
        ensures err { OnErr result (self.new ≡ self.old) }
    {
        self.own.extend_from_slice(bytes)?;
        self.len += bytes.len() as u64;
        Ok(())
    }

    /// Appends the encoding of a shared value: the list becomes one more owner of the value. Fails
    /// with NoMemory; then nothing changes.
    pub fn append_encoded(&mut self, bytes: &Encoded) -> Result<(), NoMemory>
        ensures ok { OnOk result (self.new ≡ self.old ++ bytes.now) }
        ensures err { OnErr result (self.new ≡ self.old) }
    {
        if !self.has_room(bytes.len() as u64) {
            return Err(NoMemory::NoMemory);
        }
        self.append_shared(bytes)?;
        Ok(())
    }

    /// Appends an encoding: the list becomes one more owner of its value. The caller guarantees
    /// that the number of all bytes is then below 2^64. Fails with AllocError; then nothing
    /// changes.
    fn append_shared(&mut self, bytes: &Encoded) -> Result<(), AllocError>
        requires { length self.old + length bytes.now < 2 ^ 64 }
        ensures ok { OnOk result (self.new ≡ self.old ++ bytes.now) }
        ensures err { OnErr result (self.new ≡ self.old) }
    {
        let splice = Splice {
            own: self.own.len(),
            at: self.len,
            bytes: bytes.share()?,
        };
        let Ok(()) = self.splices.push(splice) else {
            return Err(AllocError);
        };
        self.len += bytes.len() as u64;
        Ok(())
    }

    /// Removes all bytes. Takes no memory.
    pub fn clear(&mut self)
        ensures { self.new ≡ [] }
    {
        self.own.clear();
        self.splices.clear();
        self.len = 0;
    }

    /// Appends all bytes of `other`. Copies the own bytes of `other`, and becomes one more owner of
    /// each of its shared values. Fails with NoMemory; then nothing changes.
    pub fn append_all(&mut self, other: &SharedBytes) -> Result<(), NoMemory>
        ensures ok { OnOk result (self.new ≡ self.old ++ other.now) }
        ensures err { OnErr result (self.new ≡ self.old) }
    {
        if !self.has_room(other.len()) {
            return Err(NoMemory::NoMemory);
        }
        self.append_counted(other)?;
        Ok(())
    }

    /// Appends all bytes of `other`. The caller guarantees that the number of all bytes is then
    /// below 2^64. Fails with AllocError; then nothing changes.
    fn append_counted(&mut self, other: &SharedBytes) -> Result<(), AllocError>
        requires { length self.old + length other.now < 2 ^ 64 }
        ensures ok { OnOk result (self.new ≡ self.old ++ other.now) }
        ensures err { OnErr result (self.new ≡ self.old) }
    {
        let count = self.own.len();
        let mut moved = shifted(self.alloc, other.splices.as_slice(), count, self.len)?;
        self.own.extend_from_slice(other.own.as_slice())?;
        let Ok(()) = self.splices.append(&mut moved) else {
            self.own.truncate(count);
            return Err(AllocError);
        };
        self.len += other.len;
        Ok(())
    }

    /// Fills `out` with the bytes from offset `at` on (in bytes, from 0). `at` plus the length of
    /// `out` must not exceed the number of bytes. Takes no memory.
    pub fn read_at(&self, at: u64, out: &mut [u8])
        requires { at + length out.old ≤ length self.now }
        ensures { out.new ≡ slice_range self.now at (at + length out.old) }
    {
        self.lend().read_at(at, out);
    }

    /// Lends the bytes as a slice, if none of them are shared. Takes no memory.
    #[inline(always)]
    pub fn as_slice(&self) -> Option<&[u8]>
        ensures { IfSome result (λ bytes. bytes.now ≡ self.now) }
    {
        if self.splices.is_empty() {
            Some(self.own.as_slice())
        } else {
            None
        }
    }

    /// Lends all bytes. Takes no memory.
    pub fn lend(&self) -> Body<'_>
        ensures { result ≡ self.now }
    {
        Body::whole(self.own.as_slice(), self.splices.as_slice(), self.len)
    }

    /// Appends a copy of all bytes to a vector. Fails with AllocError if memory runs out; the
    /// vector's bytes are then unchanged.
    pub fn append_to(&self, out: &mut Vec<u8>) -> Result<(), AllocError>
        ensures ok { OnOk result (out.new.items ≡ out.old.items ++ self.now) }
        ensures err { OnErr result (out.new.items ≡ out.old.items) }
    {
        self.lend().append_to(out)
    }
}

/// Returns each splice of a list as `Splice::shifted` does, for a list that is appended to another
/// one, which has `own` own bytes and `at` bytes in all. Fails with AllocError.
fn shifted(
    alloc: Global,
    splices: &[Splice],
    own: usize,
    at: u64,
) -> Result<Vec<Splice>, AllocError>
    ensures { IfOk result (λ moved. moved.items ≡ map (shift own at) splices.now) }
{
    let mut moved = Vec::with_capacity(alloc, splices.len())?;
    for splice in splices {
        let splice = splice.shifted(own, at)?;
        let Ok(()) = moved.push(splice) else {
            return Err(AllocError);
        };
    }
    Ok(moved)
}
