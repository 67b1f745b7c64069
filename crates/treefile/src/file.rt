//! A device over a file, which buffers appended bytes.

ghost use Rattle.std.specs.Prelude.{◌≡◌, ◌<◌, ◌≤◌, ◌+◌, ◌^◌, ◌++◌, ◌⊎◌, [], length, slice_range};
ghost use Rattle.std.specs.Prelude.{Ok, Err, IfErr, IfOk, IsErrOf, OnErr, OnOk};
ghost use Rattle.std.specs.Io.KnownBytes.{Keeps};
ghost use Rattle.treefile.specs.devices.Appending.{AppendsToFile};
ghost use Rattle.treefile.specs.devices.Device.{Appends as DeviceAppends, Clears, HasRisen, LeavesContent};
ghost use Rattle.treefile.specs.devices.Device.{TakesNoMemory, WhenHonest, max_failures};
ghost use Rattle.treefile.specs.devices.Files.{FilePersists, IsNew, StaysBroken, content_of, is_honest_of, taken};

use crate::device::{Device, DeviceFault};
use noted_file::{CallRecord, NotedFile};
use shared_bytes::SharedBytes;
use std::alloc::Global;
use std::fs::{OpenFile, OpenOptions};
use std::io::{self, Read, Seek, Write};
use std::marker::Model;
use std::rt::Files;
use thiserror::Error;

/// The greatest number of bytes that are buffered before they are written to the file.
const MAX_BUFFERED_BYTES: usize = 65_536;

/// The reason why a device over a file can't be made.
#[derive(Clone, Copy, Debug, PartialEq, Eq, Error)]
pub enum FileFault {
    /// F1: the file can't be created or opened.
    #[error("F1 the file can't be opened or created")]
    File,
}

/// The access that a device has to its file. The crate doesn't export it, but contracts of other
/// crates name it.
#[derive(Clone, Copy, PartialEq, Eq)]
pub enum Access {
    /// The file is only read.
    Reading,
    /// The file is read, and appended to.
    Writing,
    /// None: a write to the file failed.
    Broken,
}

/// A device over a file. It buffers appended bytes in memory, at most 65,536 of them. It writes
/// them to the file before it appends bytes for which the buffer has no room, before `len` and
/// `read_at` use the file, and in `finish`. A successful `clear` drops the buffered bytes too. A
/// device that is dropped without `finish` loses the bytes that it has buffered. After a failed
/// write every call fails with `Failed`, except `lend_before`, which always returns `None`.
///
/// A record, which occupies no memory, has each call on the file with its result. The model derives
/// the content of the file and its honesty from that record: the file is honest if each length and
/// each byte that it returned agrees with the bytes that were written to it.
#[derive(Drop)]
pub struct FileDevice<F> {
    file: NotedFile<F>,
    buffered: Vec<u8>,
    access: Access,
    failed: u64,
}

impl<F> Model for FileDevice<F> {
    ghost use Rattle.treefile.specs.devices.Files.{FileDeviceState};

    ghost Value = { FileDeviceState F };

    ghost view = { λ d. record {
      file = d.file.file;
      events = d.file.events;
      access = d.access;
      failures = d.failed;
      buffered = d.buffered.items;
    } };
}

impl<F> FileDevice<F> {
    /// Makes a device over an open file. Takes no memory.
    fn over(alloc: Global, file: NotedFile<F>, access: Access) -> FileDevice<F>
        ensures file { result.file ≡ file.file }
        ensures events { result.events ≡ file.events }
        ensures access { result.access ≡ access }
        ensures buffered { result.buffered ≡ [] }
        ensures failures { result.failures ≡ 0 }
    {
        FileDevice {
            file,
            buffered: Vec::new(alloc),
            access,
            failed: 0,
        }
    }

    /// Counts a failed call and returns `Failed`.
    fn fail(&mut self) -> DeviceFault
        ensures fault { result ≡ DeviceFault.Failed }
        ensures rest { self.new ≡ record self.old { failures = self.new.failures } }
        ensures kept { self.old.failures ≤ self.new.failures }
        ensures bounded { self.new.failures ≤ max_failures }
        ensures risen { HasRisen self.old.failures self.new.failures }
    {
        self.failed = self.failed.saturating_add(1);
        DeviceFault::Failed
    }
}

impl<F: Read + Write + Seek + OpenFile> FileDevice<F> {
    /// Converts the result of a write to the file. Fails with `Failed` if the write failed. The
    /// failure is counted and breaks the device: every later call but `lend_before` fails.
    fn check_write(&mut self, written: io::Result<()>) -> Result<(), DeviceFault>
        ensures ok { OnOk written ((result ≡ Ok tt) × (self.new ≡ self.old)) }
        ensures err { OnErr written (IsErrOf result DeviceFault.Failed) }
        ensures breaks { OnErr written (self.new
            ≡ record self.old { access = Access.Broken; failures = self.new.failures }) }
        ensures persists { FilePersists self.old self.new (IsErrOf result DeviceFault.Failed) }
    {
        match written {
            Ok(()) => Ok(()),
            Err(_) => {
                self.access = Access::Broken;
                Err(self.fail())
            }
        }
    }

    /// Writes the buffered bytes to the file, so that the file has the whole content of the device.
    /// Fails with `Failed` (D1) if that write or an earlier one failed. Takes no memory.
    pub fn finish(&mut self) -> Result<(), DeviceFault>
        ensures taken { OnOk result
            (Keeps (taken F.contents self.old) (taken F.contents self.new)) }
        ensures buffered { OnOk result (self.new.buffered ≡ []) }
        ensures access { OnOk result (self.new.access ≡ self.old.access) }
        ensures breaks { OnErr result (self.new.access ≡ Access.Broken) }
        ensures broken { StaysBroken self.old self.new (IsErrOf result DeviceFault.Failed) }
        ensures content { LeavesContent (is_honest_of self.new) (content_of self.old)
            (content_of self.new) }
        ensures persists { FilePersists self.old self.new (IsErrOf result DeviceFault.Failed) }
        ensures memory { TakesNoMemory result }
    {
        if self.access == Access::Broken {
            return Err(self.fail());
        }
        if self.buffered.is_empty() {
            return Ok(());
        }
        let written = self.file.append(self.buffered.as_slice());
        self.check_write(written)?;
        self.buffered.clear();
        Ok(())
    }

    /// Appends bytes to the buffer, even beyond its limit. Fails with NoMemory if memory for them
    /// is refused; nothing has changed then.
    fn buffer_bytes(&mut self, bytes: &[u8]) -> Result<(), DeviceFault>
        ensures ok { OnOk result (self.new
            ≡ record self.old { buffered = self.old.buffered ++ bytes.now }) }
        ensures err { OnErr result (self.new ≡ self.old) }
        ensures memory { IfErr result (λ e. e ≡ DeviceFault.NoMemory) }
    {
        match self.buffered.extend_from_slice(bytes) {
            Ok(()) => Ok(()),
            Err(_) => Err(DeviceFault::NoMemory),
        }
    }

    /// Appends the bytes of `parts` to the buffer, and fails, as `buffer_bytes` does. Requires that
    /// the buffer then has fewer than 2^64 bytes.
    fn buffer_parts(&mut self, parts: &SharedBytes) -> Result<(), DeviceFault>
        requires { length self.old.buffered + length parts.now < 2 ^ 64 }
        ensures ok { OnOk result (self.new
            ≡ record self.old { buffered = self.old.buffered ++ parts.now }) }
        ensures err { OnErr result (self.new ≡ self.old) }
        ensures memory { IfErr result (λ e. e ≡ DeviceFault.NoMemory) }
    {
        match parts.append_to(&mut self.buffered) {
            Ok(()) => Ok(()),
            Err(_) => Err(DeviceFault::NoMemory),
        }
    }

    /// Appends bytes in the cases that `append` leaves to this function: the access is not
    /// `Writing`, the bytes fill the buffer, or they do not fit in it. If they do not fit, first
    /// writes the buffered bytes to the file. Writes 65,536 bytes or more to the file without
    /// buffering them. Fails with `Failed` if the file is only read, or if this write or an earlier
    /// one failed. Fails with `NoMemory` if memory is refused.
    #[cold]
    #[inline(never)]
    fn append_slowly(&mut self, bytes: &[u8]) -> Result<(), DeviceFault>
        ensures content { WhenHonest (is_honest_of self.new)
            (DeviceAppends bytes.now (content_of self.old) (content_of self.new) result) }
        ensures persists { FilePersists self.old self.new (IsErrOf result DeviceFault.Failed) }
        ensures file { AppendsToFile F.contents bytes.now self.old self.new result }
    {
        if self.access != Access::Writing {
            return Err(self.fail());
        }
        if MAX_BUFFERED_BYTES.saturating_sub(self.buffered.len()) < bytes.len() {
            self.finish()?;
        }
        if MAX_BUFFERED_BYTES <= bytes.len() {
            let written = self.file.append(bytes);
            return self.check_write(written);
        }
        self.buffer_bytes(bytes)
    }
}

impl<F: Read + Write + Seek + OpenFile> FileDevice<F> {
    /// Opens the file at `path` for reading and appending, and creates it if there is none. An
    /// existing content stays until `clear`, unlike with std's `File::create`, which empties the
    /// file. `before` is the record of calls that the device continues: `CallRecord::new()` for a
    /// new one. Fails with F1 if the file can't be opened or created. Takes no memory.
    pub fn create<Rt: Files<File = F>>(
        rt: &Rt,
        alloc: Global,
        path: &str,
        before: CallRecord,
    ) -> Result<FileDevice<F>, FileFault>
        ensures { IfOk result (IsNew Access.Writing path.now before.events) }
    {
        let mut how = OpenOptions::new();
        how.read(true).append(true).create(true);
        match NotedFile::open(rt, &how, path, before) {
            Ok(file) => Ok(FileDevice::over(alloc, file, Access::Writing)),
            Err(_) => Err(FileFault::File),
        }
    }

    /// Opens the existing file at `path` for reading only: `append`, `append_parts` and `clear`
    /// fail with `Failed`. `before` is the record of calls that the device continues:
    /// `CallRecord::new()` for a new one. Fails with F1 if the file can't be opened. Takes no
    /// memory.
    pub fn existing<Rt: Files<File = F>>(
        rt: &Rt,
        alloc: Global,
        path: &str,
        before: CallRecord,
    ) -> Result<FileDevice<F>, FileFault>
        ensures { IfOk result (IsNew Access.Reading path.now before.events) }
    {
        let mut how = OpenOptions::new();
        how.read(true);
        match NotedFile::open(rt, &how, path, before) {
            Ok(file) => Ok(FileDevice::over(alloc, file, Access::Reading)),
            Err(_) => Err(FileFault::File),
        }
    }
}

impl<F: Drop> FileDevice<F> {
    /// Closes the file, and returns the record of its calls. Loses the bytes that are buffered.
    pub fn into_calls(self) -> CallRecord
        ensures { result.events ≡ self.events }
    {
        self.file.into_calls()
    }
}

impl<F: Read + Write + Seek + OpenFile> Device for FileDevice<F> {
    ghost content = { content_of };

    ghost is_honest = { is_honest_of };

    ghost failures = { λ d. d.failures };

    fn len(&mut self) -> Result<u64, DeviceFault>
        ensures length { WhenHonest (is_honest_of self.new)
            (IfOk result (λ n. n ≡ length (content_of self.old))) }
        ensures content { LeavesContent (is_honest_of self.new) (content_of self.old)
            (content_of self.new) }
        ensures persists { FilePersists self.old self.new (IsErrOf result DeviceFault.Failed) }
        ensures memory { TakesNoMemory result }
        ensures taken { OnOk result
            (Keeps (taken F.contents self.old) (taken F.contents self.new)) }
        ensures buffered { OnOk result (self.new.buffered ≡ []) }
        ensures access { OnOk result (self.new.access ≡ self.old.access) }
        ensures breaks { OnErr result
            ((self.new.buffered ≡ []) ⊎ (self.new.access ≡ Access.Broken)) }
        ensures broken { StaysBroken self.old self.new (IsErrOf result DeviceFault.Failed) }
    {
        self.finish()?;
        match self.file.len() {
            Ok(len) => Ok(len),
            Err(_) => Err(self.fail()),
        }
    }

    fn append(&mut self, bytes: &[u8]) -> Result<(), DeviceFault>
        ensures content { WhenHonest (is_honest_of self.new)
            (DeviceAppends bytes.now (content_of self.old) (content_of self.new) result) }
        ensures persists { FilePersists self.old self.new (IsErrOf result DeviceFault.Failed) }
        ensures file { AppendsToFile F.contents bytes.now self.old self.new result }
    {
        let room = MAX_BUFFERED_BYTES.saturating_sub(self.buffered.len());
        if self.access != Access::Writing || room <= bytes.len() {
            return self.append_slowly(bytes);
        }
        self.buffer_bytes(bytes)
    }

    fn append_parts(&mut self, parts: &SharedBytes, buffer: &mut Vec<u8>) -> Result<(), DeviceFault>
        ensures content { WhenHonest (is_honest_of self.new)
            (DeviceAppends parts.now (content_of self.old) (content_of self.new) result) }
        ensures persists { FilePersists self.old self.new (IsErrOf result DeviceFault.Failed) }
        ensures file { AppendsToFile F.contents parts.now self.old self.new result }
    {
        if self.access != Access::Writing {
            return Err(self.fail());
        }
        let room = MAX_BUFFERED_BYTES.saturating_sub(self.buffered.len());
        if parts.len() < room as u64 {
            // copies the bytes once; the lines below copy them twice
            return self.buffer_parts(parts);
        }
        buffer.clear();
        let Ok(()) = parts.append_to(buffer) else {
            return Err(DeviceFault::NoMemory);
        };
        self.append(buffer.as_slice())
    }

    fn read_at(&mut self, at: u64, out: &mut [u8]) -> Result<(), DeviceFault>
        ensures bytes { WhenHonest (is_honest_of self.new)
            (at + length out.old ≤ length (content_of self.old) →
            OnOk result (out.new ≡ slice_range (content_of self.old) at (at + length out.old))) }
        ensures content { LeavesContent (is_honest_of self.new) (content_of self.old)
            (content_of self.new) }
        ensures persists { FilePersists self.old self.new (IsErrOf result DeviceFault.Failed) }
        ensures memory { TakesNoMemory result }
        ensures buffered { OnOk result (self.new.buffered ≡ []) }
        ensures access { OnOk result (self.new.access ≡ self.old.access) }
        ensures breaks { OnErr result
            ((self.new.buffered ≡ []) ⊎ (self.new.access ≡ Access.Broken)) }
        ensures broken { StaysBroken self.old self.new (IsErrOf result DeviceFault.Failed) }
    {
        self.finish()?;
        match self.file.read_at(at, out) {
            Ok(()) => Ok(()),
            Err(_) => Err(self.fail()),
        }
    }

    fn clear(&mut self) -> Result<(), DeviceFault>
        ensures content { WhenHonest (is_honest_of self.new)
            (Clears (content_of self.old) (content_of self.new) result) }
        ensures persists { FilePersists self.old self.new (IsErrOf result DeviceFault.Failed) }
        ensures memory { TakesNoMemory result }
        ensures buffered { OnOk result (self.new.buffered ≡ []) }
        ensures kept { OnErr result (self.new.buffered ≡ self.old.buffered) }
        ensures reading { self.old.access ≡ Access.Reading → IsErrOf result DeviceFault.Failed }
        ensures access { OnOk result (self.new.access ≡ self.old.access) }
        ensures broken { StaysBroken self.old self.new (IsErrOf result DeviceFault.Failed) }
    {
        if self.access != Access::Writing {
            return Err(self.fail());
        }
        if self.file.truncate().is_err() {
            return Err(self.fail());
        }
        self.buffered.clear();
        Ok(())
    }
}
