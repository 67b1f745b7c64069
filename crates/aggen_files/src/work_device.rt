//! Devices that can write out the bytes that they have buffered.

ghost use Rattle.std.specs.Prelude.{◌≡◌, ℕ, List, IsErrOf, OnErr, OnOk};

use std::fs::OpenFile;
use std::io::{Read, Seek, Write};
use treefile::{Device, DeviceFault, FileDevice, SharedDevice};

/// A device that may buffer bytes, and can write them out: to its file, if it is a device over a
/// file. A device in memory buffers nothing.
pub trait WorkDevice: Device {
    ghost use Rattle.treefile.specs.devices.Device.{LeavesContent, Persists};
    ghost use Rattle.aggen_files.specs.Stored.{StoresPrefix};

    /// The bytes that are written out. Bytes that are only buffered are not among them.
    ghost stored: { Self → List ℕ };

    /// Writes out the buffered bytes. Fails with `Failed` (D1) if that write or an earlier one
    /// failed.
    fn finish(&mut self) -> Result<(), DeviceFault>
        // all bytes are written out
        ensures whole { OnOk result (stored self.new ≡ Self.content self.new) }
        // also on failure: a prefix of the content is written out
        ensures prefix { StoresPrefix (stored self.new) (Self.content self.new) }
        ensures content { LeavesContent (Self.is_honest self.new)
            (Self.content self.old) (Self.content self.new) }
        ensures failed { OnErr result (IsErrOf result DeviceFault.Failed) }
        ensures persists { Persists (Self.is_honest self.old) (Self.is_honest self.new)
            (Self.failures self.old) (Self.failures self.new)
            (IsErrOf result DeviceFault.Failed) };
}

impl WorkDevice for SharedDevice {
    ghost stored = { λ bytes. bytes };

    #[tactic(auto, using(crate::proofs::Stored::all_stored))]
    fn finish(&mut self) -> Result<(), DeviceFault> {
        Ok(())
    }
}

impl<F: Read + Write + Seek + OpenFile> WorkDevice for FileDevice<F> {
    ghost use Rattle.aggen_files.specs.Stored.{stored_of};

    ghost stored = { stored_of };

    #[tactic(auto, using(crate::proofs::Stored::nothing_buffered))]
    fn finish(&mut self) -> Result<(), DeviceFault> {
        FileDevice::finish(self)
    }
}
