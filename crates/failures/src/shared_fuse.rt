//! A device in memory that shares values, and fails at one of its calls.

ghost use Rattle.std.specs.Prelude.{◌≡◌, ◌≤◌, IsFalse, IsTrue};
ghost use Rattle.treefile.specs.devices.Device.{HasRisen, max_failures};

use shared_bytes::{Body, SharedBytes};
use std::alloc::Global;
use treefile::{Device, DeviceFault, SharedDevice};

/// A device that forwards its calls to a `SharedDevice`, except one, which fails and does nothing.
/// Unlike `FuseDevice` it forwards `append_parts` and `lend_before` too, so that large values stay
/// shared. Calls of `lend_before` are not counted, and none of them fails.
#[derive(Drop)]
pub struct SharedFuse {
    inner: SharedDevice,
    /// The number of calls up to the one that fails, including it; 0 if no further call fails.
    calls_left: u64,
    /// The number of calls that failed.
    failed: u64,
    /// The number of calls of `append_parts` that were forwarded.
    shared: u64,
}

impl SharedFuse {
    /// Returns an empty device whose call number `k`, counted from 1, fails, or none if `k` is 0.
    pub fn new(alloc: Global, k: u64) -> SharedFuse {
        SharedFuse {
            inner: SharedDevice::new(alloc),
            calls_left: k,
            failed: 0,
            shared: 0,
        }
    }

    /// Returns the number of calls of `append_parts` that were forwarded.
    pub fn shared(&self) -> u64 {
        self.shared
    }

    /// Counts a call, and returns whether it is the one that fails.
    fn count_call(&mut self) -> bool
        ensures inner { self.new.inner ≡ self.old.inner }
        ensures kept { IsFalse result → self.new.failed ≡ self.old.failed }
        ensures counts { self.old.failed ≤ self.new.failed }
        ensures bounded { self.old.failed ≤ max_failures → self.new.failed ≤ max_failures }
        ensures risen { IsTrue result → HasRisen self.old.failed self.new.failed }
    {
        let is_failing = self.calls_left == 1;
        self.calls_left = self.calls_left.saturating_sub(1);
        if is_failing {
            self.failed = self.failed.saturating_add(1);
        }
        is_failing
    }
}

impl Device for SharedFuse {
    ghost use Rattle.std.specs.Prelude.{true};

    ghost content = { λ d. d.inner };

    ghost is_honest = { λ _. true };

    ghost failures = { λ d. d.failed };

    fn len(&mut self) -> Result<u64, DeviceFault> {
        if self.count_call() {
            return Err(DeviceFault::Failed);
        }
        self.inner.len()
    }

    fn append(&mut self, bytes: &[u8]) -> Result<(), DeviceFault> {
        if self.count_call() {
            return Err(DeviceFault::Failed);
        }
        self.inner.append(bytes)
    }

    fn read_at(&mut self, at: u64, out: &mut [u8]) -> Result<(), DeviceFault> {
        if self.count_call() {
            return Err(DeviceFault::Failed);
        }
        self.inner.read_at(at, out)
    }

    fn clear(&mut self) -> Result<(), DeviceFault> {
        if self.count_call() {
            return Err(DeviceFault::Failed);
        }
        self.inner.clear()
    }

    fn append_parts(
        &mut self,
        parts: &SharedBytes,
        buffer: &mut Vec<u8>,
    ) -> Result<(), DeviceFault> {
        if self.count_call() {
            return Err(DeviceFault::Failed);
        }
        self.shared = self.shared.saturating_add(1);
        self.inner.append_parts(parts, buffer)
    }

    fn lend_before(&self, at: u64) -> Option<Body<'_>> {
        self.inner.lend_before(at)
    }
}
