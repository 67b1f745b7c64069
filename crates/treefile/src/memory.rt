//! A device in memory.

ghost use Rattle.std.specs.Prelude.{◌≡◌, [], true};

use crate::device::{Device, DeviceFault};
use std::alloc::Global;
use std::marker::Model;

/// A device in memory. Contracts see its bytes. It is honest, and never fails with `Failed`.
#[derive(Drop)]
pub struct MemDevice {
    bytes: Vec<u8>,
}

impl Model for MemDevice {
    ghost use Rattle.std.specs.Prelude.{List, ℕ};

    ghost Value = { List ℕ };

    ghost view = { λ d. d.bytes.items };
}

impl MemDevice {
    /// Makes an empty device, which takes memory from `alloc` when it grows. Takes no memory
    /// itself.
    pub fn new(alloc: Global) -> MemDevice
        ensures { result ≡ [] }
    {
        MemDevice {
            bytes: Vec::new(alloc),
        }
    }

    /// Makes a device that has these bytes. Takes no memory.
    pub fn from_bytes(bytes: Vec<u8>) -> MemDevice
        ensures { result ≡ bytes.items }
    {
        MemDevice { bytes }
    }

    /// Lends the bytes of the device.
    pub fn bytes(&self) -> &[u8]
        ensures { result.now ≡ self.now }
    {
        self.bytes.as_slice()
    }
}

impl Device for MemDevice {
    ghost content = { λ bytes. bytes };

    ghost is_honest = { λ _. true };

    ghost failures = { λ _. 0 };

    fn len(&mut self) -> Result<u64, DeviceFault> {
        Ok(self.bytes.len() as u64)
    }

    fn append(&mut self, bytes: &[u8]) -> Result<(), DeviceFault> {
        match self.bytes.extend_from_slice(bytes) {
            Ok(()) => Ok(()),
            Err(_) => Err(DeviceFault::NoMemory),
        }
    }

    fn read_at(&mut self, at: u64, out: &mut [u8]) -> Result<(), DeviceFault> {
        if let Some(rest) = self.bytes.as_slice().get(at as usize..) {
            if let Some(part) = rest.get(..out.len()) {
                out.copy_from_slice(part);
            }
        }
        Ok(())
    }

    fn clear(&mut self) -> Result<(), DeviceFault> {
        self.bytes.clear();
        Ok(())
    }
}
