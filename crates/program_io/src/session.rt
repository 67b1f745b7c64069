//! A run of the program: what it reads, writes and reports, with the record of that.

ghost use Rattle.std.specs.Prelude.{◌≡◌, ◌⊎◌, [], IfErr, IfOk, Ok, OnOk, is_ok, true, false};
ghost use Rattle.aggen_files.specs.Opening.{IsOpeningFault};
ghost use Rattle.program_io.specs.Commands.{IsNoGrammar, OfGrammar};
ghost use Rattle.program_io.specs.Sessions.{HasReported, IsInputFault, IsOutputFault, after, path_of};
ghost use Rattle.program_io.specs.Sessions.{read_event};
ghost use Rattle.run_record.specs.Events.{open_event, report_event, standard_event, write_event};

use crate::files::build_translator;
use crate::tree_paths::open_tree;
use ag_grammar::limits::MAX_TEXT_BYTES;
use ag_job::{JobFault, ReadFault, read_prefix};
use aggen::{Fault, Translator, source_of};
use aggen_files::{Watch, Watched, WorkFiles};
use command_line::InputPath;
use messages::{FaultReport, Source};
use noted_file::CallRecord;
use run_record::RunRecord;
use screen::{Progress, Screen};
use std::alloc::Global;
use std::marker::Model;
use std::rt::{Clock, Files};
use treefile::FileDevice;

// the kinds of events, as in the specifications of `run_record`
const STANDARD: u64 = 0;

const FILE: u64 = 1;

const OPENED: u64 = 2;

const PRINTED: u64 = 3;

const WRITTEN: u64 = 4;

const REPORTED: u64 = 5;

/// A run of the program. It has the record of what was read, written and reported so far, and the
/// records of the calls on the tree files that were closed last. Only contracts see these records:
/// they occupy no memory.
#[derive(Drop)]
pub struct Session<'a, R> {
    /// The runtime.
    pub rt: &'a R,
    /// The allocator.
    pub alloc: Global,
    /// How messages are printed, and whether the progress is shown.
    screen: Screen,
    noted: RunRecord,
    tree: CallRecord,
    a: CallRecord,
    b: CallRecord,
}

impl<'a, R> Model for Session<'a, R> {
    ghost use Rattle.program_io.specs.Sessions.{State};

    ghost Value = { State };

    ghost view = { λ s. record {
      events = s.noted.events;
      tree = s.tree.events;
      a = s.a.events;
      b = s.b.events;
    } };
}

impl<'a, R> Session<'a, R> {
    /// Begins a run that has done nothing yet.
    pub fn new(rt: &'a R, alloc: Global, screen: Screen) -> Session<'a, R>
        ensures { result.events ≡ [] }
    {
        Session {
            rt,
            alloc,
            screen,
            noted: RunRecord::new(),
            tree: CallRecord::new(),
            a: CallRecord::new(),
            b: CallRecord::new(),
        }
    }
}

impl<'a, R: Clock + Eprint> Session<'a, R> {
    /// Returns the progress of a translation that begins now (`Screen::progress`). Returns `None`
    /// if no progress is shown, or the clock can't be read.
    pub fn progress(&self, translator: &Translator, first: u16) -> Option<Progress<'a, R>> {
        self.screen.progress(self.rt, translator, first)
    }
}

impl<R> Session<'_, R> {
    /// Returns what a call returned, or the report of refused memory if it failed.
    pub fn granted<T, E: Drop>(&self, given: Result<T, E>) -> Result<T, FaultReport>
        ensures granted { IfOk given (λ value. result ≡ Ok value) }
        ensures returned { IfOk result (λ value. given ≡ Ok value) }
        ensures refused { IfErr result (λ report. report.fault ≡ Fault.NoMemory) }
    {
        match given {
            Ok(value) => Ok(value),
            Err(_) => Err(FaultReport::new(self.alloc, Fault::NoMemory)),
        }
    }
}

impl<R: Files + Input> Session<'_, R> {
    /// Reads a grammar or a sentence: the bytes that its reader returns until it returns none, but
    /// at most the first 1,048,577. That is one more than a grammar or a sentence may have, so a
    /// text that is too long stays too long. Of a file that something changes meanwhile, these are
    /// the bytes that the calls returned.
    ///
    /// Fails with F1 if a file can't be opened, or a call that reads it fails, with J2 if reading
    /// standard input fails, and with NoMemory if memory is refused. Nothing is recorded then.
    pub fn read(&mut self, input: InputPath<'_>) -> Result<Vec<u8>, FaultReport>
        ensures read { IfOk result (λ bytes.
            self.new ≡ after (read_event input.entry bytes.items) self.old) }
        ensures refused { IfErr result (λ report. IsInputFault report.fault × (self.new ≡ self.old)) }
    {
        let path = match input {
            InputPath::Standard => return self.read_standard(MAX_TEXT_BYTES as u64 + 1),
            InputPath::File(path) => path,
        };
        match source_of(self.rt, self.alloc, path) {
            Ok(bytes) => {
                self.noted
                    .note(&[FILE, 1], path.as_bytes(), bytes.as_slice());
                Ok(bytes)
            }
            Err(fault) => Err(FaultReport::of_file(self.alloc, fault, path)),
        }
    }
}

impl<R: Files + Input> Session<'_, R> {
    /// Reads a grammar, and returns its translator. Fails as `read` and `build_translator` do.
    pub fn read_translator(&mut self, grammar: InputPath<'_>) -> Result<Translator, FaultReport>
        ensures built { IfOk result (λ translator. OfGrammar grammar.entry self.old.events
            (λ g events. (translator ≡ g) × (self.new ≡ record self.old { events = events }))) }
        ensures refused { IfErr result (λ report.
            ((self.new ≡ self.old) × IsInputFault report.fault)
            ⊎ IsNoGrammar grammar.entry self.old.events self.new report.fault) }
    {
        let bytes = self.read(grammar)?;
        build_translator(self.alloc, Source::new(grammar.name(), bytes.as_slice()))
    }
}

impl<R> Session<'_, R> {
    /// Records that an output was written, or that writing it failed.
    fn note_written(&mut self, is_ok: bool, output: Option<&str>, bytes: &[u8])
        ensures { self.new ≡ after (write_event is_ok (path_of output.entry) bytes.now) self.old }
    {
        let is_ok = u64::from(is_ok);
        match output {
            None => self.noted.note(&[PRINTED, is_ok], &[], bytes),
            Some(path) => self.noted.note(&[WRITTEN, is_ok], path.as_bytes(), bytes),
        }
    }
}

impl<R: Files + Print> Session<'_, R> {
    /// Writes an output: to the file at the path `output` (`write_file`), or to standard output if
    /// there is none (`print`). Fails as these do. The report of a fault of a file names it.
    pub fn write(&mut self, output: Option<&str>, bytes: &[u8]) -> Result<(), FaultReport>
        ensures written { self.new
            ≡ after (write_event (is_ok result) (path_of output.entry) bytes.now) self.old }
        ensures refused { IfErr result (λ report. IsOutputFault report.fault) }
    {
        let written = match output {
            Some(path) => self.write_file(path, bytes),
            None => self.print(bytes),
        };
        self.note_written(written.is_ok(), output, bytes);
        match (written, output) {
            (Ok(()), _) => Ok(()),
            (Err(fault @ (Fault::File | Fault::Write)), Some(path)) => {
                Err(FaultReport::new(self.alloc, fault).with_file(self.alloc, path))
            }
            (Err(fault), _) => Err(FaultReport::new(self.alloc, fault)),
        }
    }
}

impl<R: Eprint> Session<'_, R> {
    /// Gives the line of a report to the screen (`Screen::print`). If memory for the line is
    /// refused, the screen gets the parts of the report.
    pub fn report(&mut self, report: &FaultReport)
        ensures { HasReported report.now self.old self.new }
    {
        match report.to_string(self.alloc) {
            Ok(line) => {
                let line = line.as_str();
                self.noted.note(&[REPORTED, 1], &[], line.as_bytes());
                self.screen.print(self.rt, self.alloc, report, Some(line));
            }
            Err(_) => {
                self.noted.note(&[REPORTED, 0], &[], &[]);
                self.screen.print(self.rt, self.alloc, report, None);
            }
        }
    }

    /// Gives a line about a refusal that is not the line of a report to the screen
    /// (`Screen::print_line`).
    pub fn report_line(&mut self, line: &str)
        ensures { self.new ≡ after (report_event true line.now) self.old }
    {
        self.noted.note(&[REPORTED, 1], &[], line.as_bytes());
        self.screen.print_line(self.rt, line);
    }
}

impl<R: Files> Session<'_, R> {
    /// Opens the tree files a.agt and b.agt in a folder (`WorkFiles::open`), for a translation that
    /// is watched.
    pub fn open_work<'w, W>(
        &mut self,
        folder: &str,
        watch: &'w W,
    ) -> Result<WorkFiles<Watched<'w, FileDevice<R::File>, W>>, Fault>
        ensures opened { OnOk result (self.new ≡ after (open_event folder.now) self.old) }
        ensures refused { IfErr result (λ e. IsOpeningFault e × (self.new ≡ self.old)) }
    {
        let (first, second) = (CallRecord::new(), CallRecord::new());
        let files = WorkFiles::open(self.rt, self.alloc, folder, first, second)?;
        self.noted.note(&[OPENED, 1], folder.as_bytes(), &[]);
        Ok(files.watched(watch))
    }

    /// Opens the tree file at `path` to read it (`open_tree`).
    pub fn open_tree(&mut self, path: &str) -> Result<FileDevice<R::File>, FaultReport>
        ensures opened { OnOk result (self.new ≡ after (open_event path.now) self.old) }
        ensures refused { IfErr result (λ report. IsInputFault report.fault × (self.new ≡ self.old)) }
    {
        let tree = open_tree(self.rt, self.alloc, path)?;
        self.noted.note(&[OPENED, 1], path.as_bytes(), &[]);
        Ok(tree)
    }

    /// Opens the tree file at `path` to write it, and creates it if it is missing
    /// (`FileDevice::create`). Fails with F1.
    pub fn create_tree(&mut self, path: &str) -> Result<FileDevice<R::File>, Fault>
        ensures opened { OnOk result (self.new ≡ after (open_event path.now) self.old) }
        ensures refused { IfErr result (λ e. (e ≡ Fault.File) × (self.new ≡ self.old)) }
    {
        let tree = FileDevice::create(self.rt, self.alloc, path, CallRecord::new())?;
        self.noted.note(&[OPENED, 1], path.as_bytes(), &[]);
        Ok(tree)
    }
}

impl<R> Session<'_, R> {
    /// Closes the tree files of a translation, and keeps the records of their calls.
    pub fn close_work<F: Drop, W>(&mut self, files: WorkFiles<Watched<'_, FileDevice<F>, W>>)
        ensures { self.new ≡ record self.old {
          a = files.entry.a.inner.events;
          b = files.entry.b.inner.events;
        } }
    {
        self.a = files.a.into_inner().into_calls();
        self.b = files.b.into_inner().into_calls();
    }

    /// Closes an old tree file that was converted, and keeps the record of its calls as that of `a`.
    pub fn close_old_tree<F: Drop>(&mut self, tree: FileDevice<F>)
        ensures { self.new ≡ record self.old { a = tree.events } }
    {
        self.a = tree.into_calls();
    }

    /// Closes a tree file, and keeps the record of its calls.
    pub fn close_tree<F: Drop>(&mut self, tree: FileDevice<F>)
        ensures { self.new ≡ record self.old { tree = tree.events } }
    {
        self.tree = tree.into_calls();
    }
}

impl<R: Input> Session<'_, R> {
    /// Reads standard input to its end, but at most `most` bytes. Fails with J2 if reading fails,
    /// and with NoMemory if memory is refused. Nothing is recorded then.
    pub fn read_standard(&mut self, most: u64) -> Result<Vec<u8>, FaultReport>
        ensures read { IfOk result (λ bytes. self.new ≡ after (standard_event bytes.items) self.old) }
        ensures refused { IfErr result (λ report. IsInputFault report.fault × (self.new ≡ self.old)) }
    {
        match read_prefix(self.alloc, self.rt.reader(), most) {
            Ok(bytes) => {
                self.noted.note(&[STANDARD, 1], &[], bytes.as_slice());
                Ok(bytes)
            }
            Err(ReadFault::Read) => Err(FaultReport::new(self.alloc, Fault::Job(JobFault::Read))),
            Err(ReadFault::NoMemory) => Err(FaultReport::new(self.alloc, Fault::NoMemory)),
        }
    }
}
