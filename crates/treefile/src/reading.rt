//! Reading a tree file: the pass in its header, the record before an offset, and the last record.
//! The length of a body comes after it, so that reading can begin at the end of the file.

ghost use Rattle.std.specs.Prelude.{◌≡◌, ◌+◌, ◌<◌, ◌≤◌, ◌⊎◌, ◌^◌, length, take, IfErr, IfOk};
ghost use Rattle.std.specs.Prelude.{IsErrOf, IsTrue, OnOk, nat_eq, slice_range};
ghost use Rattle.std.specs.List.{starts_with};
ghost use Rattle.treefile.specs.framing.Backward.{pass_in};
ghost use Rattle.treefile.specs.devices.Device.{LeavesContent, Persists, WhenHonest};
ghost use Rattle.treefile.specs.framing.Ending.{IsBody, IsBytes, ReadsAs, body_before, fits_before, greatest_body};
ghost use Rattle.treefile.specs.framing.Ending.{header_bytes, last_body_of, least_body};
ghost use Rattle.treefile.specs.framing.Ending.{length_bytes, number_before};
ghost use Rattle.treefile.specs.devices.Faults.{frame_fault_of};
ghost use Rattle.treefile.specs.records.TreeFile.{version_of, version_two};
ghost use Rattle.treefile.specs.declared.reading.FrameFault.TheVariants as frame_fault;

use crate::device::{Device, DeviceFault};
use crate::layout::{FileVersion, HEADER_BYTES, LEAST_BODY, LENGTH_BYTES};
use std::alloc::{AllocError, Global};
use thiserror::Error;

/// The reasons why a tree file can't be read.
#[derive(Clone, Copy, Debug, PartialEq, Eq, Error)]
pub enum FrameFault {
    /// B1: there are fewer than 6 bytes, or the first four are not the magic of the expected
    /// version, `AGT1` or `AGT2`.
    #[error("B1 the device does not contain a tree file")]
    NotATreeFile,
    /// B2: no frame ends at this offset (in bytes), where one is expected.
    #[error("B2 at {0}: no frame ends here")]
    Damaged(u64),
    /// D1: a call of the device failed.
    #[error("D1 a call of the device failed")]
    Device,
    /// The allocator refused memory.
    #[error("NoMemory a request for memory was refused")]
    NoMemory,
}

impl From<DeviceFault> for FrameFault {
    ghost from_gives = { λ fault e. e ≡ frame_fault_of fault };

    fn from(fault: DeviceFault) -> FrameFault {
        match fault {
            DeviceFault::Failed => FrameFault::Device,
            DeviceFault::NoMemory => FrameFault::NoMemory,
        }
    }
}

impl From<AllocError> for FrameFault {
    ghost from_gives = { λ _ e. e ≡ frame_fault.NoMemory };

    fn from(_error: AllocError) -> FrameFault {
        FrameFault::NoMemory
    }
}

/// Returns the number of the pass in the header of a tree file of a version. `end` is the number of
/// bytes of the device. Takes no memory.
///
/// Fails with B1 NotATreeFile if there are fewer than 6 bytes or the first four are not the
/// version's, and with D1 Device if the call of the device failed.
#[tactic(auto, unfolding(crate::specs::framing::Ending::is_tree_file))]
pub fn pass_in<D: Device>(version: FileVersion, device: &mut D, end: u64) -> Result<u16, FrameFault>
    requires { WhenHonest (D.is_honest device.old) (end ≡ length (D.content device.old)) }
    // The number and B1 agree with the content.
    ensures exact { WhenHonest (D.is_honest device.new)
        (ReadsAs (λ pass. pass) result (pass_in (version_of version) (D.content device.old))) }
    ensures bytes { WhenHonest (D.is_honest device.new)
        (OnOk result (IsBytes (take header_bytes (D.content device.old)))) }
    ensures room { OnOk result (header_bytes ≤ end) }
    ensures memory { IsErrOf result FrameFault.NoMemory → ⊥ }
    ensures content { LeavesContent (D.is_honest device.new)
        (D.content device.old) (D.content device.new) }
    ensures persists { Persists (D.is_honest device.old) (D.is_honest device.new)
        (D.failures device.old) (D.failures device.new) (IsErrOf result FrameFault.Device) }
{
    if end < HEADER_BYTES {
        return Err(FrameFault::NotATreeFile);
    }
    let mut header = [0; HEADER_BYTES as usize];
    device.read_at(0, &mut header)?;
    if !has_magic(version, &header) {
        return Err(FrameFault::NotATreeFile);
    }
    let [_, _, _, _, high, low] = header;
    Ok(u16::from_be_bytes([high, low]))
}

/// Returns whether bytes begin with the magic (the first four bytes) of a version.
fn has_magic(version: FileVersion, bytes: &[u8]) -> bool
    ensures found { result ≡ starts_with nat_eq bytes.now (version_of version).magic }
    // A slice of `u8` has only bytes: `pass_in` claims this of the header.
    ensures bytes { IsBytes bytes.now }
{
    bytes.starts_with(&version.magic())
}

/// Reads the big-endian number in the four bytes before offset `at`. Fails with D1 if the device
/// fails.
fn number_before<D: Device>(device: &mut D, at: u64) -> Result<u32, DeviceFault>
    requires room { length_bytes ≤ at }
    requires within { WhenHonest (D.is_honest device.old) (at ≤ length (D.content device.old)) }
    ensures found { WhenHonest (D.is_honest device.new)
        (IfOk result (λ found. found ≡ number_before (D.content device.old) at)) }
    ensures content { LeavesContent (D.is_honest device.new)
        (D.content device.old) (D.content device.new) }
    ensures persists { Persists (D.is_honest device.old) (D.is_honest device.new)
        (D.failures device.old) (D.failures device.new) (IsErrOf result DeviceFault.Failed) }
{
    let mut bytes = [0; 4];
    device.read_at(at - LENGTH_BYTES, &mut bytes)?;
    Ok(u32::from_be_bytes(bytes))
}

/// Returns whether a frame with a body of `length` bytes may end at offset `at` in a file of a
/// version. Takes no memory.
///
/// Requires a length below 2^32.
#[tactic(auto, unfolding(crate::specs::framing::Ending::fits_before))]
pub fn fits_before(version: FileVersion, at: u64, length: u64) -> bool
    requires { length < 2 ^ 32 }
    ensures exact { result ≡ fits_before (version_of version) at length }
    ensures least { IsTrue result → least_body ≤ length }
    ensures greatest { IsTrue result → length ≤ greatest_body (version_of version) }
    ensures room { IsTrue result → header_bytes + length + length_bytes ≤ at }
{
    LEAST_BODY <= length
        && length <= version.greatest_body()
        && HEADER_BYTES + length + LENGTH_BYTES <= at
}

/// Fills a vector with `count` bytes of a device from offset `at` on. The old content of the vector
/// is dropped. Fails with D1 if the device fails, and with NoMemory if memory is refused.
#[tactic(auto, using(std::proofs::lemmas::List::take_at))]
fn fill_from<D: Device>(
    device: &mut D,
    at: u64,
    count: usize,
    bytes: &mut Vec<u8>,
) -> Result<(), FrameFault>
    requires { WhenHonest (D.is_honest device.old) (at + count ≤ length (D.content device.old)) }
    ensures found { WhenHonest (D.is_honest device.new) (OnOk result
        (bytes.new.items ≡ slice_range (D.content device.old) at (at + count))) }
    ensures count { OnOk result (length bytes.new.items ≡ count) }
    ensures memory { IfErr result
        (λ fault. (fault ≡ FrameFault.Device) ⊎ (fault ≡ FrameFault.NoMemory)) }
    ensures content { LeavesContent (D.is_honest device.new)
        (D.content device.old) (D.content device.new) }
    ensures persists { Persists (D.is_honest device.old) (D.is_honest device.new)
        (D.failures device.old) (D.failures device.new) (IsErrOf result FrameFault.Device) }
{
    bytes.resize(count, 0)?;
    device.read_at(at, bytes.as_mut_slice())?;
    Ok(())
}

/// Reads the body of the frame of version 2 that ends at offset `at` into `body`, and drops the old
/// content of `body`. The header of the file is not read.
///
/// Requires an offset within the device's content, if the device is honest.
///
/// Fails with B2 Damaged and that offset if no frame ends there. That is so if fewer than 4 bytes
/// are between the header and the offset. It is so too if the number in the four bytes before the
/// offset is below 3, above 285,212,675, or greater than the number of bytes between the header and
/// those four. Fails with D1 Device if a call of the device failed. Fails with NoMemory if `body`
/// has no room for the body and memory is refused. After a failure `body` has arbitrary bytes.
#[tactic(auto, unfolding(crate::specs::framing::Ending::body_before))]
pub fn read_body<D: Device>(device: &mut D, at: u64, body: &mut Vec<u8>) -> Result<(), FrameFault>
    requires { WhenHonest (D.is_honest device.old) (at ≤ length (D.content device.old)) }
    // The body and B2 agree with the content.
    ensures exact { WhenHonest (D.is_honest device.new)
        (ReadsAs (λ _. body.new.items) result (body_before version_two (D.content device.old) at)) }
    // On any device: the length of the body is within the limits of version 2, and its frame fits
    // before the offset.
    ensures body { OnOk result (IsBody version_two body.new.items) }
    ensures room { OnOk result (header_bytes + length body.new.items + length_bytes ≤ at) }
    ensures content { LeavesContent (D.is_honest device.new)
        (D.content device.old) (D.content device.new) }
    // D1 only if the number of failures rose
    ensures persists { Persists (D.is_honest device.old) (D.is_honest device.new)
        (D.failures device.old) (D.failures device.new) (IsErrOf result FrameFault.Device) }
{
    if at < HEADER_BYTES + LENGTH_BYTES {
        return Err(FrameFault::Damaged(at));
    }
    let length = u64::from(number_before(device, at)?);
    if !fits_before(FileVersion::Two, at, length) {
        return Err(FrameFault::Damaged(at));
    }
    fill_from(device, at - LENGTH_BYTES - length, length as usize, body)
}

/// Reads the body of the last frame of the tree file on a device: the one that ends at the end of
/// the file.
///
/// Fails with B1 NotATreeFile if there are fewer than 6 bytes or the first four are not `AGT2`.
/// Fails with B2 Damaged if no frame ends at the end of the file, in the cases of `read_body`; the
/// offset of B2 is the number of bytes of the file. Fails with D1 Device if a call of the device
/// failed, and with NoMemory if memory for the body is refused.
#[tactic(auto, unfolding(crate::specs::framing::Ending::last_body_of))]
pub fn last_body<D: Device>(alloc: Global, device: &mut D) -> Result<Vec<u8>, FrameFault>
    // The body, B1 and B2 agree with the content.
    ensures exact { WhenHonest (D.is_honest device.new)
        (ReadsAs (λ body. body.items) result (last_body_of version_two (D.content device.old))) }
    ensures content { LeavesContent (D.is_honest device.new)
        (D.content device.old) (D.content device.new) }
    // D1 only if the number of failures rose
    ensures persists { Persists (D.is_honest device.old) (D.is_honest device.new)
        (D.failures device.old) (D.failures device.new) (IsErrOf result FrameFault.Device) }
{
    let end = device.len()?;
    pass_in(FileVersion::Two, device, end)?;
    let mut body = Vec::new(alloc);
    read_body(device, end, &mut body)?;
    Ok(body)
}
