//! The paths of tree files. A tree file can be neither a folder nor a pipe: passes read it from its
//! end, which a pipe does not allow.

ghost use Rattle.std.specs.Prelude.{◌≡◌, IfErr};
ghost use Rattle.program_io.specs.Sessions.{IsInputFault};

use crate::same_file::found_at;
use aggen::Fault;
use messages::FaultReport;
use noted_file::CallRecord;
use std::alloc::Global;
use std::os::unix::fs::FileTypeExt;
use std::rt::Files;
use treefile::FileDevice;

/// What the message says of a folder.
const FOLDER: &str = "a tree file can't be a folder";

/// What to do about a folder.
const NAME_IN_FOLDER: &str = "name a file in it";

/// What the message says of a pipe.
const PIPE: &str = "a tree file can't be a pipe";

/// What to do about a pipe.
const NAME_REGULAR: &str = "name a regular file";

/// Opens the tree file at `path` to read it. Fails as `check_tree_path` does, with F1 if the file
/// can't be opened, and with NoMemory if memory is refused. The report of F1 names the file.
pub fn open_tree<R: Files>(
    rt: &R,
    alloc: Global,
    path: &str,
) -> Result<FileDevice<R::File>, FaultReport>
    ensures { IfErr result (λ report. IsInputFault report.fault) }
{
    check_tree_path(rt, alloc, path)?;
    match FileDevice::existing(rt, alloc, path, CallRecord::new()) {
        Ok(tree) => Ok(tree),
        Err(fault) => Err(FaultReport::of_file(alloc, Fault::from(fault), path)),
    }
}

/// Fails with F1 if `path` leads to a folder or a pipe, through links, and with NoMemory if memory
/// is refused. The report of F1 names the file. Does not fail if nothing is there.
pub fn check_tree_path<R: Files>(rt: &R, alloc: Global, path: &str) -> Result<(), FaultReport>
    ensures { IfErr result (λ report. IsInputFault report.fault) }
{
    match found_at(rt, path) {
        Ok(Some(found)) if found.is_dir() => Err(misfit(alloc, path, FOLDER, NAME_IN_FOLDER)),
        Ok(Some(found)) if found.file_type().is_fifo() => {
            Err(misfit(alloc, path, PIPE, NAME_REGULAR))
        }
        // if nothing is there, or the call failed, the call that opens the file later fails too
        Ok(_) => Ok(()),
        Err(_) => Err(FaultReport::new(alloc, Fault::NoMemory)),
    }
}

/// Returns the report of F1 of the file at `path`. `found` says why it can't be a tree file, and
/// `help` what to do.
fn misfit(alloc: Global, path: &str, found: &str, help: &str) -> FaultReport
    ensures { result.fault ≡ Fault.File }
{
    let mut report = FaultReport::of_file(alloc, Fault::File, path);
    let written = report.parts.add(found, help);
    report.or_bare(written)
}
