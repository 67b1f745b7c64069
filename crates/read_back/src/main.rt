//! `read_back [--old] PATH` reads a tree file from its end and prints the number of its records.
//! With `--old` the file is one of version 1. `benches/run` measures the program.
//! `tests/refused-memory` runs it once for each request for memory that it makes, and refuses this
//! request. If memory for a call of the reader is refused, the program names the call on standard
//! error, and makes the call a second time. This tests that a call can be repeated after NoMemory.
#![tactic(auto)]

ghost use Rattle.std.specs.Prelude.{IfOk};
ghost use Rattle.backreader.specs.BackState.{IsOver};
ghost use Rattle.treefile.specs.devices.Device.{WhenHonest};

use backreader::Back;
use noted_file::CallRecord;
use std::alloc::{AllocError, Global};
use std::process::ExitCode;
use std::rt::{Env, Files};
use treefile::{Device, FileDevice, FileVersion, FrameFault};

/// The word of the command line before the path of a tree file of version 1.
const OLD: &str = "--old";

/// Prints the number of records, or the fault on standard error. Returns 0 after the number, 1 if
/// the number can't be printed, and the status of the fault (`status`) after a fault.
fn main(rt: HostRuntime) -> ExitCode {
    match run(&rt, rt.alloc()) {
        Ok(records) => match println!(rt; "{records} nodes") {
            Ok(()) => ExitCode::SUCCESS,
            Err(_) => ExitCode::from(1),
        },
        Err(fault) => {
            // A message that can't be printed is lost; the status says what failed.
            let _answer = eprintln!(rt; "{fault:?}");
            ExitCode::from(status(fault))
        }
    }
}

/// Returns the exit status after a fault.
fn status(fault: FrameFault) -> u8 {
    match fault {
        FrameFault::NotATreeFile | FrameFault::Damaged(_) => 5,
        FrameFault::NoMemory => 7,
        FrameFault::Device => 8,
    }
}

/// Returns the number of records of the file that the command line names. Fails with D1 (`Device`)
/// if the command line names no file or the file can't be opened. Fails with NoMemory if memory for
/// the words of the command line is refused, or if one of them is not UTF-8. Otherwise fails as
/// `records` does.
fn run<R: Env + Eprint + Files + AllocGlobal>(rt: &R, alloc: Global) -> Result<u64, FrameFault> {
    let words = match std::env::args(rt) {
        Ok(words) => words,
        Err(_) => return Err(FrameFault::NoMemory),
    };
    let collected: Result<Vec<String>, AllocError> = words.collect(alloc);
    let words = match collected {
        Ok(words) => words,
        Err(_) => return Err(FrameFault::NoMemory),
    };
    let words = words.as_slice();
    let is_old = words.len() == 3 && words[1].as_str() == OLD;
    let version = if is_old {
        FileVersion::One
    } else {
        FileVersion::Two
    };
    let Some(path) = words.get(if is_old { 2 } else { 1 }) else {
        return Err(FrameFault::Device);
    };
    match FileDevice::existing(rt, alloc, path.as_str(), CallRecord::new()) {
        Ok(mut device) => records(rt, alloc, version, &mut device),
        Err(_) => Err(FrameFault::Device),
    }
}

/// Returns the number of records of the tree file of a device. Makes a call of the reader a second
/// time if memory for it was refused. Fails as `start_twice` does, or as `Back::back` does. The
/// fault of a second call ends the reading, NoMemory too.
fn records<R: Eprint, D: Device>(
    rt: &R,
    alloc: Global,
    version: FileVersion,
    device: &mut D,
) -> Result<u64, FrameFault> {
    let mut back = start_twice(rt, alloc, version, device)?;
    loop {
        match back.back(device) {
            Ok(Some(_)) => {}
            Ok(None) => return Ok(back.records()),
            Err(FrameFault::NoMemory) => {
                let _answer = eprintln!(rt; "NoMemory in back");
                if back.back(device)?.is_none() {
                    return Ok(back.records());
                }
            }
            Err(fault) => return Err(fault),
        }
    }
}

/// Starts a reader, and tries a second time if memory was refused. Fails as `start` does. The
/// clause `over` states what `Back::back` requires of its caller.
fn start_twice<R: Eprint, D: Device>(
    rt: &R,
    alloc: Global,
    version: FileVersion,
    device: &mut D,
) -> Result<Back, FrameFault>
    ensures over { IfOk result (λ back. WhenHonest (D.is_honest device.new)
        (IsOver (D.content device.new) back)) }
{
    match start(alloc, version, device) {
        Err(FrameFault::NoMemory) => {
            let _answer = eprintln!(rt; "NoMemory in start");
            start(alloc, version, device)
        }
        started => started,
    }
}

/// Starts a reader of the tree file of a version. Fails as `Back::start` does, or for version 1 as
/// `Back::start_old` does.
fn start<D: Device>(alloc: Global, version: FileVersion, device: &mut D) -> Result<Back, FrameFault>
    ensures over { IfOk result (λ back. WhenHonest (D.is_honest device.new)
        (IsOver (D.content device.new) back)) }
{
    match version {
        FileVersion::One => Back::start_old(alloc, device),
        FileVersion::Two => Back::start(alloc, device),
    }
}
