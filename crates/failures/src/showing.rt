//! Values shown over devices that fail or lie.

ghost use Rattle.std.specs.Prelude.{false};

use crate::endings::Ending;
use aggen::show_value;
use rows::words::{Mistake, number};
use std::alloc::Global;
use treefile::{Device, DeviceFault, FuseDevice, MemDevice};

/// Shows the value of a text over a device. Returns how the call ends, and what was written.
fn shown_over<D: Device>(alloc: Global, text: &str, device: &mut D) -> Result<String, Mistake> {
    let mut out = Vec::new(alloc);
    let ending = Ending::of(show_value(alloc, text, device, &mut out));
    Ok(ending.answer(alloc, out.as_slice())?)
}

/// Shows the value 14 over a device that fails at the row's call, counted from 1. Returns how
/// `show_value` ends, and what was written. If no call fails, `show_value` makes eight calls of the
/// device: it clears the device, appends a header and a frame, and reads the frame and the length.
/// Fails with `Misspelt` if the row is not a number.
pub fn show_without_answer(alloc: Global, call: &str) -> Result<String, Mistake> {
    let call = number(call)? as u64;
    let mut device = FuseDevice::new(MemDevice::new(alloc), call);
    shown_over(alloc, "14", &mut device)
}

/// A device that ignores what is written, and returns the bytes of another file. So it isn't
/// honest.
#[derive(Drop)]
struct OtherFileDevice {
    file: MemDevice,
}

impl Device for OtherFileDevice {
    ghost content = { λ d. d.file };

    ghost is_honest = { λ _. false };

    ghost failures = { λ _. 0 };

    fn len(&mut self) -> Result<u64, DeviceFault> {
        self.file.len()
    }

    fn append(&mut self, _bytes: &[u8]) -> Result<(), DeviceFault> {
        Ok(())
    }

    fn read_at(&mut self, at: u64, out: &mut [u8]) -> Result<(), DeviceFault> {
        self.file.read_at(at, out)
    }

    fn clear(&mut self) -> Result<(), DeviceFault> {
        Ok(())
    }
}

/// Shows the value 1 over a device that returns these bytes. Returns how the call ends, and what
/// was written.
pub fn show_of_answer(alloc: Global, file: Vec<u8>) -> Result<String, Mistake> {
    let mut device = OtherFileDevice {
        file: MemDevice::from_bytes(file),
    };
    shown_over(alloc, "1", &mut device)
}
