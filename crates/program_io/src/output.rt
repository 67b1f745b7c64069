//! The files that translations are written to.

ghost use Rattle.std.specs.Prelude.{IfErr};
ghost use Rattle.program_io.specs.Sessions.{IsOutputFault};

use crate::paths::{folder_of, path_in};
use crate::same_file::FileId;
use crate::session::Session;
use aggen::{Fault, fault_or};
use agoutput::write_bytes;
use std::fs::{self, OpenFile, OpenOptions, Permissions};
use std::io::{self, ErrorKind};
use std::rt::Files;

/// The greatest number of links that are followed from a path, as on Linux.
const MAX_LINKS: usize = 40;

/// The greatest number of names that are tried for a new file. Another run may be using a name.
const MAX_NAMES: u32 = 1_000;

impl<R: Files + Print> Session<'_, R> {
    /// Writes a translation to the file at `path`:
    ///
    /// - prints it if the file is a regular one and also standard output. A new file in its place
    ///   would not be standard output;
    /// - appends it to a file that is not a regular one, and to any existing file whose path begins
    ///   with /dev/ (but not /dev/shm/) or /proc/;
    /// - replaces any other file by a new one with the same mode, and creates a missing file, in
    ///   both cases with the whole translation or not at all.
    ///
    /// Fails with F1 if the file can't be examined, opened or created, if its mode can't be set, or
    /// if its links can't be followed. Fails with O2 if a write fails or takes no byte, or if the
    /// new file can't be renamed. Fails with NoMemory if memory is refused.
    pub(crate) fn write_file(&self, path: &str, bytes: &[u8]) -> Result<(), Fault>
        ensures { IfErr result IsOutputFault }
    {
        let standard = FileId::of_standard_output(self.rt)?;
        match fs::metadata(self.rt, path) {
            Ok(found) if standard == Some(FileId::of(&found)) => self.print(bytes),
            Ok(found) if found.is_file() && !is_of_system(path) => {
                // only to fail if the file can't be written: a rename would replace it all the same
                self.open_to_append(path)?;
                self.replace(path, bytes, Some(found.permissions()))
            }
            Ok(_) => {
                let mut file = self.open_to_append(path)?;
                write_bytes(&mut file, bytes).map_err(Fault::from)
            }
            Err(error) if error.kind() == ErrorKind::NotFound => self.replace(path, bytes, None),
            Err(error) => Err(fault_or(&error, Fault::File)),
        }
    }
}

impl<R: Print> Session<'_, R> {
    /// Prints bytes on standard output. Fails with O2 if a write fails or takes no byte.
    pub(crate) fn print(&self, bytes: &[u8]) -> Result<(), Fault>
        ensures { IfErr result IsOutputFault }
    {
        write_bytes(&mut io::writer(self.rt), bytes).map_err(Fault::from)
    }
}

impl<R: Files> Session<'_, R> {
    /// Opens the existing file at `path` to write at its end. Fails with F1 if it can't be opened,
    /// and with NoMemory if memory is refused.
    fn open_to_append(&self, path: &str) -> Result<R::File, Fault>
        ensures { IfErr result IsOutputFault }
    {
        let mut how = OpenOptions::new();
        how.append(true);
        how.open(self.rt, path)
            .map_err(|error| fault_or(&error, Fault::File))
    }

    /// Writes bytes to a new file, with the mode `mode` if there is one. Once the new file has all
    /// bytes, renames it to the path that the links at `path` lead to, so that symbolic links stay.
    /// If a step after its creation fails, removes the new file. Fails as `target_of`,
    /// `create_beside` and `fill` do, and with O2 if the new file can't be renamed.
    fn replace(&self, path: &str, bytes: &[u8], mode: Option<Permissions>) -> Result<(), Fault>
        ensures { IfErr result IsOutputFault }
    {
        let path = self.target_of(path)?;
        let (new, file) = self.create_beside(path.as_str())?;
        let replaced = match fill(file, bytes, mode) {
            Ok(()) => fs::rename(self.rt, new.as_str(), path.as_str()).map_err(|error| fault_or(
                &error,
                Fault::Write,
            )),
            Err(fault) => Err(fault),
        };
        if replaced.is_err() {
            // the new file is of no use; nothing more can be done if it can't be removed
            let _ = fs::remove_file(self.rt, new.as_str());
        }
        replaced
    }

    /// Returns the path that the links at `path` lead to. No file need exist there. Fails with F1
    /// if there are more than `MAX_LINKS` links, or if a link can't be read, and with NoMemory if
    /// memory is refused.
    fn target_of(&self, path: &str) -> Result<String, Fault>
        ensures { IfErr result IsOutputFault }
    {
        let mut target = String::from_str(self.alloc, path)?;
        // the last iteration only finds out whether there is another link after `MAX_LINKS` links
        for _ in 0..=MAX_LINKS {
            match fs::symlink_metadata(self.rt, target.as_str()) {
                Ok(found) if found.is_symlink() => target = self.link_at(target.as_str())?,
                Ok(_) => return Ok(target),
                Err(error) => match fault_or(&error, Fault::File) {
                    Fault::NoMemory => return Err(Fault::NoMemory),
                    // `create_beside` fails later if a file can't be created there
                    _ => return Ok(target),
                },
            }
        }
        Err(Fault::File)
    }

    /// Returns the path that the link at `path` leads to. Fails with F1 if the link can't be read,
    /// and with NoMemory if memory is refused.
    fn link_at(&self, path: &str) -> Result<String, Fault>
        ensures { IfErr result IsOutputFault }
    {
        let link = match self.rt.read_link(self.alloc, path) {
            Ok(link) => link,
            Err(error) => return Err(fault_or(&error, Fault::File)),
        };
        let link = link.as_str();
        if link.starts_with('/') {
            return Ok(String::from_str(self.alloc, link)?);
        }
        Ok(path_in(self.alloc, folder_of(path), link)?)
    }

    /// Creates a new file in the folder of `path`, and returns its path and the file. Fails with F1
    /// if the file can't be created, or if all `MAX_NAMES` names are in use, and with NoMemory if
    /// memory is refused.
    fn create_beside(&self, path: &str) -> Result<(String, R::File), Fault>
        ensures { IfErr result IsOutputFault }
    {
        let mut how = OpenOptions::new();
        how.write(true).create_new(true);
        for number in 0..MAX_NAMES {
            let name = format!(in self.alloc; ".aggen-{number}.part")?;
            let new = path_in(self.alloc, folder_of(path), name.as_str())?;
            match how.open(self.rt, new.as_str()) {
                Ok(file) => return Ok((new, file)),
                Err(error) if error.kind() == ErrorKind::AlreadyExists => {}
                Err(error) => return Err(fault_or(&error, Fault::File)),
            }
        }
        Err(Fault::File)
    }
}

/// Returns whether a path begins with /dev/ or /proc/, where the system has devices and open files.
/// (A path such as /dev/fd/3 means an open file. A new file in its place would not be the open
/// one.) Links are not followed. Returns false for /dev/shm/, where programs make files.
fn is_of_system(path: &str) -> bool {
    let is_device = path.starts_with("/dev/") && !path.starts_with("/dev/shm/");
    is_device || path.starts_with("/proc/")
}

/// Sets the mode of a new file to `mode`, if there is one, and writes bytes to the file. Fails with
/// F1 if the mode can't be set, or with NoMemory if memory is refused then. Fails with O2 if a
/// write fails or takes no byte.
fn fill<F: io::Write + OpenFile + Drop>(
    mut file: F,
    bytes: &[u8],
    mode: Option<Permissions>,
) -> Result<(), Fault>
    ensures { IfErr result IsOutputFault }
{
    if let Some(mode) = mode {
        file.set_permissions(mode)
            .map_err(|error| fault_or(&error, Fault::File))?;
    }
    write_bytes(&mut file, bytes).map_err(Fault::from)
}
