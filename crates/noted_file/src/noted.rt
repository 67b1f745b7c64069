//! A file that records the calls made on it. Each method of `NotedFile` performs one operation on
//! the file by calls of the standard library (`read_at` by two: it moves the position in the file,
//! and reads), and then adds one entry with the result to the record. An `open` that fails records
//! nothing. One clause says what the file itself received: `taken` of `append`, where a contract
//! can name the file's bytes. No other clause can say that an operation was performed as recorded:
//! a reviewer has to compare the operation and the entry in each body.
ghost use Rattle.std.specs.Prelude.{◌≡◌, ◌∷◌, true, false, is_ok, IfOk, MatchResult, OnOk};
ghost use Rattle.std.specs.Io.KnownBytes.{Appends};
ghost use Rattle.noted_file.specs.Calls.{append_event, length_event, open_event, read_event};
ghost use Rattle.noted_file.specs.Calls.{truncate_event};

use crate::record::CallRecord;
use std::fs::{OpenFile, OpenOptions};
use std::io::{self, Read, Seek, SeekFrom, Write};
use std::marker::Model;
use std::rt::Files;

// the kinds of calls from 1 to 5, as in `specs/Calls.antt`, where the kind 0 is the initial content
// of the file
const OPEN: u64 = 1;

const LENGTH: u64 = 2;

const APPEND: u64 = 3;

const READ: u64 = 4;

const TRUNCATE: u64 = 5;

/// An open file with the record of its calls. Contracts see both. An entry of the record has a
/// kind, an offset or a length in bytes, a flag that says whether the call succeeded, and bytes.
#[derive(Drop)]
pub struct NotedFile<F> {
    file: F,
    calls: CallRecord,
}

impl<F> Model for NotedFile<F> {
    ghost use Rattle.noted_file.specs.Noted.{Noted};

    ghost Value = { Noted F };

    ghost view = { λ n. record { file = n.file; events = n.calls.events } };
}

/// Fills `out` with the bytes of a file from offset `at` on. Fails with `UnexpectedEof` if the file
/// ends before `out` is full, and with the system's error if a call fails. After a failure `out`
/// has arbitrary bytes.
fn fill_from<F: Read + Seek>(file: &mut F, at: u64, out: &mut [u8]) -> io::Result<()> {
    file.seek(SeekFrom::Start(at))?;
    file.read_exact(out)
}

impl<F: Drop> NotedFile<F> {
    /// Closes the file, and returns the record of its calls.
    pub fn into_calls(self) -> CallRecord
        ensures { result.events ≡ self.events }
    {
        self.calls
    }
}

impl<F: Read + Write + Seek + OpenFile> NotedFile<F> {
    /// Opens the file at `path` with the options `how`. The file's record is `before` with an entry
    /// for this call. `rt` is the runtime, which provides files. Fails with the system's error if
    /// the file can't be opened; nothing is recorded then.
    pub fn open<Rt: Files<File = F>>(
        rt: &Rt,
        how: &OpenOptions,
        path: &str,
        before: CallRecord,
    ) -> io::Result<NotedFile<F>>
        ensures { IfOk result (λ noted. noted.events ≡ open_event path.now ∷ before.events) }
    {
        let file = how.open(rt, path)?;
        let mut calls = before;
        calls.note(&[OPEN, 0, 1], path.as_bytes());
        Ok(NotedFile { file, calls })
    }

    /// Returns the length of the file in bytes. Fails with the system's error; a failure is
    /// recorded too.
    pub fn len(&mut self) -> io::Result<u64>
        ensures noted { MatchResult result
            (λ n. self.new.events ≡ length_event true n ∷ self.old.events)
            (λ _. self.new.events ≡ length_event false 0 ∷ self.old.events) }
        ensures file { self.new.file ≡ self.old.file }
    {
        match self.file.metadata() {
            Ok(metadata) => {
                let len = metadata.len();
                self.calls.note(&[LENGTH, len, 1], &[]);
                Ok(len)
            }
            Err(error) => {
                self.calls.note(&[LENGTH, 0, 0], &[]);
                Err(error)
            }
        }
    }

    /// Appends bytes to the file, which has to be open for appending (`OpenOptions::append`). No
    /// clause requires this. A file that is not open for appending would get the bytes at its
    /// current position, which `read_at` moves. Fails with `WriteZero` if a write takes no byte,
    /// and with the system's error if a write fails. A failure is recorded too. The file may then
    /// have a prefix of the bytes, though a replay of the record adds none of them.
    pub fn append(&mut self, bytes: &[u8]) -> io::Result<()>
        ensures noted { self.new.events
            ≡ append_event (is_ok result) bytes.now ∷ self.old.events }
        ensures taken { OnOk result
            (Appends (F.contents self.old.file) (F.contents self.new.file) bytes.now) }
    {
        let answer = self.file.write_all(bytes);
        self.calls
            .note(&[APPEND, 0, u64::from(answer.is_ok())], bytes);
        answer
    }

    /// Fills `out` with the bytes of the file from offset `at` on. Fails with `UnexpectedEof` if
    /// the file ends before `out` is full, and with the system's error if a call fails. After a
    /// failure `out` has arbitrary bytes. A failure is recorded too, with these bytes.
    pub fn read_at(&mut self, at: u64, out: &mut [u8]) -> io::Result<()>
        ensures noted { self.new.events
            ≡ read_event at (is_ok result) out.new ∷ self.old.events }
    {
        let answer = fill_from(&mut self.file, at, out);
        self.calls.note(&[READ, at, u64::from(answer.is_ok())], out);
        answer
    }

    /// Truncates the file to length 0. Fails with the system's error; a failure is recorded too.
    pub fn truncate(&mut self) -> io::Result<()>
        ensures noted { self.new.events ≡ truncate_event (is_ok result) ∷ self.old.events }
    {
        let answer = self.file.set_len(0);
        self.calls
            .note(&[TRUNCATE, 0, u64::from(answer.is_ok())], &[]);
        answer
    }
}
