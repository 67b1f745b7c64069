//! A reader of tree files that goes from the end to the header.

ghost use Rattle.std.specs.Prelude.{◌≡◌, ◌≢◌, ◌≤◌, ◌+◌, None, Some, Ok, Err, IfNone, IfOk};
ghost use Rattle.std.specs.Prelude.{IfSome, IsErrOf, length};
ghost use Rattle.std.specs.Option.{option_map};
ghost use Rattle.backreader.specs.BackState.{HasRead, IsLarge, IsOver, IsStarted, Progress};
ghost use Rattle.backreader.specs.BackState.{lent_body, progress_after};
ghost use Rattle.treefile.specs.framing.Backward.{next_before, pass_in};
ghost use Rattle.treefile.specs.devices.Device.{LeavesContent, Persists, WhenHonest};
ghost use Rattle.treefile.specs.framing.Ending.{IsBody, ReadsAs, length_bytes};
ghost use Rattle.treefile.specs.records.TreeFile.{version_of, version_one, version_two};

use crate::window::Window;
use shared_bytes::Body;
use std::alloc::Global;
use std::marker::Model;
use treefile::{Device, FileVersion, FrameFault, fits_before, pass_in};

/// Reads the bodies of a tree file from the last to the first. The reader holds no device: each
/// call takes the device that the reader was started on. Contracts see its progress, and the bytes
/// before its offset that it has read and not lent yet.
#[derive(Drop)]
pub struct Back {
    window: Window,
    pass: u16,
    records: u64,
    fault: Option<FrameFault>,
    can_lend: bool,
}

impl Model for Back {
    ghost use Rattle.std.specs.Prelude.{◌<◌, ◌+◌, ◌^◌};
    ghost use Rattle.backreader.specs.BackState.{BackState};
    ghost use Rattle.backreader.specs.Windows.{unread};
    ghost use Rattle.treefile.specs.records.TreeFile.{version_of};

    ghost Value = { BackState };

    ghost view = { λ b. record {
      window = unread b.window;
      progress = record {
        version = version_of b.window.version;
        pass = b.pass;
        at = b.window.at;
        records = b.records;
        fault = b.fault;
      };
    } };

    // Each call that lends a body raises the count by 1 and lowers the offset by at least 7: the
    // least body has 3 bytes, and its length has 4. So the count does not overflow.
    ghost invariant = { λ b. b.records + b.window.at < 2 ^ 64 };
}

impl Back {
    ghost use Rattle.std.specs.Borrow.{sem, follows_so};
    ghost use Rattle.std.specs.Prelude.{⊤};
    ghost use Rattle.backreader.specs.contracts.back.Back.{the_row};
    ghost use mathlib.Core.Option.{none};

    /// Starts a reader at the end of the tree file on a device.
    ///
    /// Fails with B1 NotATreeFile if there are fewer than 6 bytes or the first four are not `AGT2`,
    /// with D1 Device if a call of the device failed, and with NoMemory if memory for a buffer of
    /// 4,096 bytes is refused.
    pub fn start<D: Device>(alloc: Global, device: &mut D) -> Result<Back, FrameFault>
        // The number of the pass and B1 agree with the content.
        ensures exact { WhenHonest (D.is_honest device.new) (ReadsAs (λ back. back.progress.pass) result
            (pass_in version_two (D.content device.old))) }
        ensures started { IfOk result (IsStarted version_two (D.is_honest device.new)
            (D.content device.old)) }
        ensures content { LeavesContent (D.is_honest device.new)
            (D.content device.old) (D.content device.new) }
        // D1 only if the number of failures rose
        ensures persists { Persists (D.is_honest device.old) (D.is_honest device.new)
            (D.failures device.old) (D.failures device.new) (IsErrOf result FrameFault.Device) }
    {
        Back::start_version(alloc, FileVersion::Two, device)
    }

    /// Starts a reader at the end of a tree file of version 1, whose bodies have at most 16,777,219
    /// bytes. Fails as `start` does, but with `AGT1` in place of `AGT2`.
    pub fn start_old<D: Device>(alloc: Global, device: &mut D) -> Result<Back, FrameFault>
        // The number of the pass and B1 agree with the content.
        ensures exact { WhenHonest (D.is_honest device.new) (ReadsAs (λ back. back.progress.pass) result
            (pass_in version_one (D.content device.old))) }
        ensures started { IfOk result (IsStarted version_one (D.is_honest device.new)
            (D.content device.old)) }
        ensures content { LeavesContent (D.is_honest device.new)
            (D.content device.old) (D.content device.new) }
        // D1 only if the number of failures rose
        ensures persists { Persists (D.is_honest device.old) (D.is_honest device.new)
            (D.failures device.old) (D.failures device.new) (IsErrOf result FrameFault.Device) }
    {
        Back::start_version(alloc, FileVersion::One, device)
    }

    /// Starts a reader at the end of a tree file of this version. Fails as `start` does for version
    /// 2, and as `start_old` does for version 1.
    fn start_version<D: Device>(
        alloc: Global,
        version: FileVersion,
        device: &mut D,
    ) -> Result<Back, FrameFault>
        // The number of the pass and B1 agree with the content.
        ensures exact { WhenHonest (D.is_honest device.new) (ReadsAs (λ back. back.progress.pass) result
            (pass_in (version_of version) (D.content device.old))) }
        ensures started { IfOk result (IsStarted (version_of version) (D.is_honest device.new)
            (D.content device.old)) }
        ensures content { LeavesContent (D.is_honest device.new)
            (D.content device.old) (D.content device.new) }
        // D1 only if the number of failures rose
        ensures persists { Persists (D.is_honest device.old) (D.is_honest device.new)
            (D.failures device.old) (D.failures device.new) (IsErrOf result FrameFault.Device) }
    {
        let end = device.len()?;
        let pass = pass_in(version, device, end)?;
        let window = Window::new(alloc, version, end)?;
        Ok(Back {
            window,
            pass,
            records: 0,
            fault: None,
            can_lend: device.lend_before(end).is_some(),
        })
    }

    /// Lends the body of the frame before the one that was lent last, or of the last frame at the
    /// first call. Returns `None` if the header ends at the reader's offset. Requires the device
    /// that the reader was started on, with the same content if it is honest.
    ///
    /// Fails with B2 Damaged, and the reader's offset (`end`), if no frame ends there. Fails with
    /// D1 Device if a call of the device failed. After B2 and D1 every later call of `back` fails
    /// with the same fault and does not use the device. Takes memory only for a frame of more than
    /// 4,096 bytes, and fails with NoMemory if this memory is refused. Then nothing has changed,
    /// and the call can be repeated.
    #[inline(always)]
    pub fn back<D: Device>(&mut self, device: &mut D) -> Result<Option<&[u8]>, FrameFault>
        requires { WhenHonest (D.is_honest device.old) (IsOver (D.content device.old) self.old) }
        // The progress of the reader, which still reads the same content.
        ensures* after { sem 𝓛 (follows_so the_row the_row self.entry.ghost_name none (λ _ _. ⊤)
            (λ state. HasRead (D.is_honest device.new) (D.content device.old) self.old
            (lent_body (λ body. body.now) result) state)) }
        // The body, None and B2 agree with the content.
        ensures exact { self.old.progress.fault ≡ None → WhenHonest (D.is_honest device.new)
            (ReadsAs (option_map (λ body. body.now)) result
            (next_before self.old.progress.version (D.content device.old) self.old.progress.at)) }
        // NoMemory only if the frame has more bytes than the buffer of `start`
        ensures memory { self.old.progress.fault ≡ None → WhenHonest (D.is_honest device.new)
            (IsErrOf result FrameFault.NoMemory →
            IsLarge (next_before self.old.progress.version (D.content device.old) self.old.progress.at)) }
        // On any device: the body's length is within the limits, and its frame fits before the
        // offset.
        ensures body { IfOk result (λ found. IfSome found
            (λ body. IsBody self.old.progress.version body.now)) }
        ensures room { IfOk result (λ found. IfSome found
            (λ body. length body.now + length_bytes ≤ self.old.progress.at)) }
        // An unbroken reader never fails with B1.
        ensures file { IsErrOf result FrameFault.NotATreeFile → self.old.progress.fault ≢ None }
        ensures broken { IfSome self.old.progress.fault
            (λ fault. (result ≡ Err fault) × (device.new ≡ device.old)) }
        ensures content { LeavesContent (D.is_honest device.new)
            (D.content device.old) (D.content device.new) }
        // D1 only if the number of failures rose, or the reader was broken before
        ensures persists { Persists (D.is_honest device.old) (D.is_honest device.new)
            (D.failures device.old) (D.failures device.new)
            (IsErrOf result FrameFault.Device × (self.old.progress.fault ≡ None)) }
    {
        if let Some(fault) = self.fault {
            return Err(fault);
        }
        match self.window.next(device) {
            Ok(None) => Ok(None),
            Ok(Some(length)) => {
                self.records += 1;
                Ok(Some(self.window.taken(length)))
            }
            Err(fault) => {
                self.fault = permanent_fault(fault);
                Err(fault)
            }
        }
    }

    /// Returns whether the device lent the last body of the file when the reader was started. If
    /// not, `lend_back` need not be called: a `SharedDevice` lends every body if it has a shared
    /// value, and none otherwise.
    #[inline(always)]
    pub fn can_lend(&self) -> bool {
        self.can_lend
    }

    /// Lends the same body as the next call of `back` would, but from the memory of the device.
    /// Requires the device that the reader was started on, with the same content if it is honest.
    /// Takes no memory.
    ///
    /// Returns `None`, and changes nothing, if `back` has to be called instead:
    /// - if the device doesn't lend the body (`Device::lend_before`);
    /// - if the header, or no frame, ends at the offset;
    /// - in a file of version 1;
    /// - after B2 or D1.
    #[inline(always)]
    pub fn lend_back<'d, D: Device>(&mut self, device: &'d D) -> Option<Body<'d>>
        requires { WhenHonest (D.is_honest device.now) (IsOver (D.content device.now) self.old) }
        // The progress of the reader, which still reads the same content.
        ensures after { IfSome result (λ body. HasRead (D.is_honest device.now)
            (D.content device.now) self.old (Ok (Some body)) self.new) }
        // The body agrees with the content.
        ensures exact { IfSome result (λ body. WhenHonest (D.is_honest device.now)
            (next_before self.old.progress.version (D.content device.now) self.old.progress.at
            ≡ Ok (Some body))) }
        // On any device: the body's length is within the limits, and its frame fits before the
        // offset.
        ensures body { IfSome result (λ body. IsBody self.old.progress.version body) }
        ensures room { IfSome result
            (λ body. length body + length_bytes ≤ self.old.progress.at) }
        ensures none { IfNone result (self.new ≡ self.old) }
    {
        let at = self.window.at();
        let body = device.lend_before(at)?;
        if self.fault.is_some() || !self.window.is_second() {
            return None;
        }
        let length = body.len();
        // A device that is not honest may lend any bytes. `fits_before` requires a length below
        // 2^32.
        if length > u64::from(u32::MAX) || !fits_before(FileVersion::Two, at, length) {
            return None;
        }
        self.window.pass_over(length as usize);
        self.records += 1;
        Some(body)
    }

    /// Returns the number of the pass in the header.
    pub fn pass(&self) -> u16
        ensures { result ≡ self.now.progress.pass }
    {
        self.pass
    }

    /// Returns the offset where the next frame is expected to end.
    pub fn end(&self) -> u64
        ensures { result ≡ self.now.progress.at }
    {
        self.window.at()
    }

    /// Returns the number of bodies that were lent.
    pub fn records(&self) -> u64
        ensures { result ≡ self.now.progress.records }
    {
        self.records
    }
}

/// Returns the fault if each later call of `back` has to return it too, and `None` for NoMemory.
fn permanent_fault(fault: FrameFault) -> Option<FrameFault>
    ensures { (old : Progress) → old.fault ≡ None →
        record old { fault = result } ≡ progress_after old (Err fault) }
{
    match fault {
        FrameFault::NoMemory => None,
        FrameFault::NotATreeFile | FrameFault::Damaged(_) | FrameFault::Device => Some(fault),
    }
}
