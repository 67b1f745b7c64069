//! Whether two paths lead to one file.

use ag_value::NoMemory;
use aggen::{Fault, fault_or};
use command_line::InputPath;
use std::fs::{self, Metadata};
use std::os::unix::fs::MetadataExt;
use std::rt::Files;

/// The path of standard input.
const STANDARD_INPUT: &str = "/dev/stdin";

/// The path of standard output.
const STANDARD_OUTPUT: &str = "/dev/stdout";

/// The identity of a file. While the file exists, no other file has the same identity.
#[derive(Clone, Copy, PartialEq, Eq, PartialOrd, Ord)]
pub struct FileId {
    /// The number of the device that the file is on.
    device: u64,
    /// The number of the file's inode there.
    number: u64,
}

impl FileId {
    /// Returns the identity of the file with this metadata.
    pub fn of(metadata: &Metadata) -> FileId {
        FileId {
            device: metadata.dev(),
            number: metadata.ino(),
        }
    }

    /// Returns the identity of the regular file at `path`, through links. Returns `None` if no
    /// regular file is there, or if the system's call fails. Fails if memory is refused.
    pub fn at<R: Files>(rt: &R, path: &str) -> Result<Option<FileId>, NoMemory> {
        match found_at(rt, path)? {
            Some(found) if found.is_file() => Ok(Some(FileId::of(&found))),
            _ => Ok(None),
        }
    }

    /// Returns the identity of the folder at `path`, through links. Returns `None` if no folder is
    /// there, or if the system's call fails. Fails if memory is refused.
    pub fn of_folder<R: Files>(rt: &R, path: &str) -> Result<Option<FileId>, NoMemory> {
        match found_at(rt, path)? {
            Some(found) if found.is_dir() => Ok(Some(FileId::of(&found))),
            _ => Ok(None),
        }
    }

    /// Returns the identity of an input if it is a regular file, else `None`. Fails if memory is
    /// refused.
    pub fn of_input<R: Files>(rt: &R, input: InputPath<'_>) -> Result<Option<FileId>, NoMemory> {
        match input {
            InputPath::Standard => FileId::at(rt, STANDARD_INPUT),
            InputPath::File(path) => FileId::at(rt, path),
        }
    }

    /// Returns the identity of standard output if it is a regular file, else `None`. Fails if
    /// memory is refused.
    pub fn of_standard_output<R: Files>(rt: &R) -> Result<Option<FileId>, NoMemory> {
        FileId::at(rt, STANDARD_OUTPUT)
    }
}

/// Returns the metadata of the file at `path`, through links. Returns `None` if nothing is there, or
/// if the system's call fails. Fails if memory is refused.
pub fn found_at<R: Files>(rt: &R, path: &str) -> Result<Option<Metadata>, NoMemory> {
    match fs::metadata(rt, path) {
        Ok(found) => Ok(Some(found)),
        Err(error) if matches!(fault_or(&error, Fault::File), Fault::NoMemory) => {
            Err(NoMemory::NoMemory)
        }
        Err(_) => Ok(None),
    }
}
