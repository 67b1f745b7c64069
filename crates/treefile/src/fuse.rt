//! A device that fails at one chosen call, to test the effects of a failure.

ghost use Rattle.std.specs.Prelude.{◌≡◌, ◌≤◌, ◌+◌, ◌-◌, ◌↔◌, length, slice_range, IfOk, IsErrOf};
ghost use Rattle.std.specs.Prelude.{IsTrue, IsFalse, OnOk};
ghost use Rattle.treefile.specs.devices.Device.{Appends, Clears, HasRisen, LeavesContent, TakesNoMemory};
ghost use Rattle.treefile.specs.devices.Device.{WhenHonest, max_failures};
ghost use Rattle.treefile.specs.devices.Fuse.{FuseEffect, Fuse, FusePersists, failures_of};

use crate::device::{Device, DeviceFault};
use std::marker::Model;

/// A device that forwards the calls of `len`, `append`, `read_at` and `clear` to the device
/// `inner`. One of these calls fails instead, and does nothing. Only these four methods count.
/// `append_parts` copies the parts and calls `append` of this device. `lend_before` always returns
/// `None`. The device is honest if `inner` is. `left` is the number of calls up to the failing one
/// (1: the next call fails; 0: none will fail). `failed` is the number of failed calls that were
/// not forwarded.
#[derive(Drop)]
pub struct FuseDevice<D> {
    inner: D,
    left: u64,
    failed: u64,
}

impl<D> Model for FuseDevice<D> {
    ghost use Rattle.treefile.specs.devices.Fuse.{Fuse};

    ghost Value = { Fuse D };

    ghost view = { λ d. record { inner = d.inner; left = d.left; failed = d.failed } };
}

impl<D: Device> FuseDevice<D> {
    /// Makes a device whose k-th counted call from now on fails. If k is 1, the next one fails; if
    /// k is 0, none does. Content, honesty and the number of failures are those of `inner`. Takes
    /// no memory.
    pub fn new(inner: D, k: u64) -> FuseDevice<D>
        ensures inner { result.inner ≡ inner }
        ensures left { result.left ≡ k }
        ensures failures { D.failures inner ≤ max_failures →
            failures_of D.failures result ≡ D.failures inner }
    {
        FuseDevice {
            inner,
            left: k,
            failed: 0,
        }
    }

    /// Lends the device to which the calls are forwarded.
    pub fn inner(&self) -> &D
        ensures { result.now ≡ self.now.inner }
    {
        &self.inner
    }

    /// Counts a call: `left` falls by one, unless it is 0. Returns whether this call is the one
    /// that fails. If so, counts the failure too.
    fn count_call(&mut self) -> bool
        ensures inner { self.new.inner ≡ self.old.inner }
        ensures left { self.new.left ≡ self.old.left - 1 }
        ensures failing { IsTrue result ↔ (self.old.left ≡ 1) }
        ensures kept { IsFalse result → self.new.failed ≡ self.old.failed }
        ensures counts { self.old.failed ≤ self.new.failed }
        ensures risen { IsTrue result → HasRisen self.old.failed self.new.failed }
    {
        let is_failing = self.left == 1;
        self.left = self.left.saturating_sub(1);
        if is_failing {
            self.failed = self.failed.saturating_add(1);
        }
        is_failing
    }
}

impl<D: Device> Device for FuseDevice<D> {
    ghost use Rattle.treefile.specs.devices.Fuse.{failures_of};

    ghost content = { λ d. D.content d.inner };

    ghost is_honest = { λ d. D.is_honest d.inner };

    ghost failures = { λ d. failures_of D.failures d };

    fn len(&mut self) -> Result<u64, DeviceFault>
        ensures length { WhenHonest (D.is_honest self.new.inner)
            (IfOk result (λ n. n ≡ length (D.content self.old.inner))) }
        ensures content { LeavesContent (D.is_honest self.new.inner) (D.content self.old.inner)
            (D.content self.new.inner) }
        ensures persists { FusePersists D.is_honest D.failures self.old self.new
            (IsErrOf result DeviceFault.Failed) }
        ensures memory { TakesNoMemory result }
        ensures fuse { FuseEffect D.failures self.old self.new (IsErrOf result DeviceFault.Failed) }
    {
        if self.count_call() {
            return Err(DeviceFault::Failed);
        }
        self.inner.len()
    }

    fn append(&mut self, bytes: &[u8]) -> Result<(), DeviceFault>
        ensures content { WhenHonest (D.is_honest self.new.inner)
            (Appends bytes.now (D.content self.old.inner) (D.content self.new.inner) result) }
        ensures persists { FusePersists D.is_honest D.failures self.old self.new
            (IsErrOf result DeviceFault.Failed) }
        ensures fuse { FuseEffect D.failures self.old self.new (IsErrOf result DeviceFault.Failed) }
    {
        if self.count_call() {
            return Err(DeviceFault::Failed);
        }
        self.inner.append(bytes)
    }

    fn read_at(&mut self, at: u64, out: &mut [u8]) -> Result<(), DeviceFault>
        ensures bytes { WhenHonest (D.is_honest self.new.inner)
            (at + length out.old ≤ length (D.content self.old.inner) →
            OnOk result
            (out.new
            ≡ slice_range (D.content self.old.inner) at (at + length out.old))) }
        ensures content { LeavesContent (D.is_honest self.new.inner) (D.content self.old.inner)
            (D.content self.new.inner) }
        ensures persists { FusePersists D.is_honest D.failures self.old self.new
            (IsErrOf result DeviceFault.Failed) }
        ensures memory { TakesNoMemory result }
        ensures fuse { FuseEffect D.failures self.old self.new (IsErrOf result DeviceFault.Failed) }
    {
        if self.count_call() {
            return Err(DeviceFault::Failed);
        }
        self.inner.read_at(at, out)
    }

    fn clear(&mut self) -> Result<(), DeviceFault>
        ensures content { WhenHonest (D.is_honest self.new.inner)
            (Clears (D.content self.old.inner) (D.content self.new.inner) result) }
        ensures persists { FusePersists D.is_honest D.failures self.old self.new
            (IsErrOf result DeviceFault.Failed) }
        ensures memory { TakesNoMemory result }
        ensures fuse { FuseEffect D.failures self.old self.new (IsErrOf result DeviceFault.Failed) }
    {
        if self.count_call() {
            return Err(DeviceFault::Failed);
        }
        self.inner.clear()
    }
}
