//! Devices whose calls are watched, such as by a line that shows the progress.

ghost use Rattle.std.specs.Prelude.{◌≡◌};

use crate::work_device::WorkDevice;
use shared_bytes::{Body, SharedBytes};
use treefile::{Device, DeviceFault};

/// What is done at the calls of a device. A device has its content, its honesty and its failures
/// whatever is done.
pub trait Watch {
    /// Called before a tree file is begun: the parser and each pass begin one by clearing its
    /// device.
    fn begin_file(&self);

    /// Called before bytes are appended.
    fn append(&self);

    /// Called before bytes are read from offset `at` on, or before this offset, of a file of
    /// `length` bytes.
    fn read(&self, at: u64, length: u64);

    /// Called after the last call of a translation.
    fn end(&self);
}

/// Nothing is done at the calls.
#[derive(Clone, Copy)]
pub struct Silent;

impl Watch for Silent {
    fn begin_file(&self) {}

    fn append(&self) {}

    fn read(&self, _at: u64, _length: u64) {}

    fn end(&self) {}
}

/// A device whose calls are watched. It has the content, the honesty and the failures of the inner
/// device, to which it forwards each call.
#[derive(Drop)]
pub struct Watched<'a, D, W> {
    inner: D,
    /// The length in bytes that the last call of `len` returned; 0 if it failed, or before the
    /// first call. A reader calls `len` before it reads a file.
    length: u64,
    watch: &'a W,
}

impl<'a, D, W> Watched<'a, D, W> {
    /// Returns a device that forwards its calls to `inner`. Takes no memory.
    pub fn new(inner: D, watch: &'a W) -> Watched<'a, D, W>
        ensures { result.inner ≡ inner }
    {
        Watched {
            inner,
            length: 0,
            watch,
        }
    }

    /// Returns the inner device.
    pub fn into_inner(self) -> D
        ensures { result ≡ self.entry.inner }
    {
        self.inner
    }
}

impl<D: Device, W: Watch> Device for Watched<'_, D, W> {
    ghost content = { λ d. D.content d.inner };

    ghost is_honest = { λ d. D.is_honest d.inner };

    ghost failures = { λ d. D.failures d.inner };

    fn len(&mut self) -> Result<u64, DeviceFault> {
        let answer = self.inner.len();
        self.length = answer.unwrap_or(0);
        answer
    }

    #[inline(always)]
    fn append(&mut self, bytes: &[u8]) -> Result<(), DeviceFault> {
        self.watch.append();
        self.inner.append(bytes)
    }

    fn read_at(&mut self, at: u64, out: &mut [u8]) -> Result<(), DeviceFault> {
        self.watch.read(at, self.length);
        self.inner.read_at(at, out)
    }

    fn clear(&mut self) -> Result<(), DeviceFault> {
        self.watch.begin_file();
        self.inner.clear()
    }

    fn append_parts(
        &mut self,
        parts: &SharedBytes,
        buffer: &mut Vec<u8>,
    ) -> Result<(), DeviceFault> {
        self.watch.append();
        self.inner.append_parts(parts, buffer)
    }

    #[inline(always)]
    fn lend_before(&self, at: u64) -> Option<Body<'_>> {
        self.watch.read(at, self.length);
        self.inner.lend_before(at)
    }
}

impl<D: WorkDevice, W: Watch> WorkDevice for Watched<'_, D, W> {
    ghost stored = { λ d. D.stored d.inner };

    fn finish(&mut self) -> Result<(), DeviceFault> {
        self.inner.finish()
    }
}
