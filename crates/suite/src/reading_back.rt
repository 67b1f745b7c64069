//! Tests of reading a file from its end, on devices that fail or return wrong bytes.

ghost use Rattle.std.specs.Prelude.{[], false, IfOk, length, map};
ghost use Rattle.treefile.specs.framing.Backward.{ReadsBack};
ghost use Rattle.treefile.specs.devices.Device.{WhenHonest};
ghost use Rattle.treefile.specs.records.TreeFile.{version_two};

use crate::checking::check_equal;
use backreader::Back;
use std::alloc::{AllocError, Global};
use std::process::Abort;
use std::test::Fail;
use treefile::{Device, DeviceFault, FrameFault, FuseDevice, MemDevice};

/// A device that keeps no bytes. It returns 2^63 as its length, and sets the first four bytes of
/// each read to `AGT2`.
#[derive(Drop)]
struct LyingDevice {}

impl Device for LyingDevice {
    ghost content = { λ _. [] };

    ghost is_honest = { λ _. false };

    ghost failures = { λ _. 0 };

    fn len(&mut self) -> Result<u64, DeviceFault> {
        Ok(1 << 63)
    }

    fn append(&mut self, _bytes: &[u8]) -> Result<(), DeviceFault> {
        Ok(())
    }

    fn read_at(&mut self, _at: u64, out: &mut [u8]) -> Result<(), DeviceFault> {
        for (byte, letter) in out.iter_mut().zip(*b"AGT2") {
            *byte = letter;
        }
        Ok(())
    }

    fn clear(&mut self) -> Result<(), DeviceFault> {
        Ok(())
    }
}

/// Returns the bodies of a tree file, from the last to the first. The contract claims nothing of
/// a device that is not honest.
fn bodies_back<D: Device>(alloc: Global, device: &mut D) -> Result<Vec<Vec<u8>>, Fail>
    ensures { WhenHonest (D.is_honest device.new)
        (IfOk result (λ found. ReadsBack version_two (D.content device.old)
        (length (D.content device.old)) (map (λ body. body.items) found.items))) }
{
    let mut back = Back::start(alloc, device)?;
    let mut found = Vec::new(alloc);
    while let Some(body) = back.back(device)? {
        let body = Vec::from_slice(alloc, body)?;
        found.push(body)?;
    }
    Ok(found)
}

/// Returns the file of pass 0 with the records of nodes of these productions, without values: each
/// body has 3 bytes.
pub(crate) fn file_of(alloc: Global, productions: &[u8]) -> Result<Vec<u8>, AllocError> {
    let mut bytes = Vec::from_slice(alloc, b"AGT2\0\0")?;
    for production in productions {
        bytes.extend_from_slice(&[0, 0, *production, 0, 0, 0, 3])?;
    }
    Ok(bytes)
}

/// Reads bodies until a call of the reader fails. Returns this first fault, then the fault of the
/// next call if that fails too, and the number of bodies that were lent. If the reader does not
/// start, there is no next call. Returns `None` if the reader lends all bodies, or 100 of them,
/// without a fault. Fails the test if the first fault is NoMemory.
fn refusal_of<D: Device>(
    alloc: Global,
    device: &mut D,
) -> Result<Option<(FrameFault, Option<FrameFault>, u64)>, Fail> {
    let mut back = match Back::start(alloc, device) {
        Ok(back) => back,
        Err(FrameFault::NoMemory) => return Ok(Err(FrameFault::NoMemory)?),
        Err(fault) => return Ok(Some((fault, None, 0))),
    };
    for _turn in 0..100 {
        let fault = match back.back(device) {
            Ok(Some(_)) => continue,
            Ok(None) => return Ok(None),
            Err(FrameFault::NoMemory) => return Ok(Err(FrameFault::NoMemory)?),
            Err(fault) => fault,
        };
        let again = back.back(device).err();
        return Ok(Some((fault, again, back.records())));
    }
    Ok(None)
}

/// Reads a device that contains three bodies and may fail at one call. Returns whether no call
/// failed. Checks that after a failure a new reader lends all three bodies.
fn reads_all<D: Device>(rt: &impl Abort, alloc: Global, device: &mut D) -> Result<bool, Fail> {
    let Some((fault, again, records)) = refusal_of(alloc, device)? else {
        return Ok(true);
    };
    check_equal(rt, "fault", fault, FrameFault::Device);
    assert!(rt; again.is_none() || again == Some(fault));
    assert!(rt; records < 3);
    check_equal(
        rt,
        "number of bodies of a new reader",
        bodies_back(alloc, device)?.len(),
        3,
    );
    Ok(false)
}

/// Lets the device fail at call 1, then at call 2, and so on, until the reader makes too few calls
/// to reach the failing one.
#[test]
fn a_device_that_fails_at_each_call(rt: HostRuntime) -> Result<(), Fail> {
    for call in 1..100 {
        let bytes = file_of(rt.alloc(), &[1, 2, 3])?;
        let mut device = FuseDevice::new(MemDevice::from_bytes(bytes), call);
        if reads_all(&rt, rt.alloc(), &mut device)? {
            assert!(rt; call > 1);
            return Ok(());
        }
    }
    assert!(rt; false);
    Ok(())
}

#[test]
fn a_device_that_lies(rt: HostRuntime) -> Result<(), Fail> {
    let mut device = LyingDevice {};
    let mut back = Back::start(rt.alloc(), &mut device)?;
    for _turn in 0..2 {
        check_equal(
            &rt,
            "fault",
            back.back(&mut device),
            Err(FrameFault::Damaged(1 << 63)),
        );
    }
    check_equal(&rt, "number of records", back.records(), 0);
    Ok(())
}
