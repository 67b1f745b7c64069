//! Tests of a reader of tree files (`Back`): which bodies it lends, small and large ones, how often
//! it reads the device, and which files it rejects. A test writes a line for each file that it
//! reads, and compares the lines with the expected ones.

ghost use Rattle.std.specs.Prelude.{[], false};

use crate::checking::check_equal;
use backreader::Back;
use std::alloc::{AllocError, Global};
use std::test::Fail;
use treefile::{Device, DeviceFault, FileVersion, FrameFault, MemDevice};

/// The greatest number of bytes of a body whose frame fits into the initial buffer of a reader.
const FITS: usize = 4092;

/// A device in memory that counts the calls of `read_at`. It returns what was written to it, but
/// for its contracts it is not honest and has no content. So it needs no proof, and nothing is
/// proved of the bytes that are read from it.
#[derive(Drop)]
struct CountingDevice {
    memory: MemDevice,
    reads: u64,
}

impl Device for CountingDevice {
    ghost content = { λ _. [] };

    ghost is_honest = { λ _. false };

    ghost failures = { λ _. 0 };

    fn len(&mut self) -> Result<u64, DeviceFault> {
        self.memory.len()
    }

    fn append(&mut self, bytes: &[u8]) -> Result<(), DeviceFault> {
        self.memory.append(bytes)
    }

    fn read_at(&mut self, at: u64, out: &mut [u8]) -> Result<(), DeviceFault> {
        self.reads = self.reads.saturating_add(1);
        self.memory.read_at(at, out)
    }

    fn clear(&mut self) -> Result<(), DeviceFault> {
        self.memory.clear()
    }
}

/// Returns a device with these bytes, and 0 reads.
fn device_of(bytes: Vec<u8>) -> CountingDevice {
    CountingDevice {
        memory: MemDevice::from_bytes(bytes),
        reads: 0,
    }
}

/// Returns a header and two frames: the record of a name with this number of letters, and a node
/// without values. (It is not the file of a tree, since the node has no copy of the name. A reader
/// of frames doesn't look at that.)
fn file_of_name(alloc: Global, letters: u32) -> Result<Vec<u8>, AllocError> {
    let mut bytes = Vec::from_slice(alloc, b"AGT2\0\0\x01\0\0\x01")?;
    bytes.extend_from_slice(&letters.to_be_bytes())?;
    bytes.resize(bytes.len().saturating_add(letters as usize), b'a')?;
    bytes.extend_from_slice(&letters.saturating_add(8).to_be_bytes())?;
    bytes.extend_from_slice(b"\0\0\0\0\0\0\x03")?;
    Ok(bytes)
}

/// Returns a file of a version and pass 0, with bodies of these lengths in bytes. Each byte of a
/// body is the body's number in the file, from 0, modulo 256.
pub(crate) fn file_of_lengths(
    alloc: Global,
    version: FileVersion,
    lengths: &[u32],
) -> Result<Vec<u8>, AllocError> {
    let header = match version {
        FileVersion::One => b"AGT1\0\0",
        FileVersion::Two => b"AGT2\0\0",
    };
    let mut bytes = Vec::from_slice(alloc, header)?;
    for (number, length) in lengths.iter().enumerate() {
        let end = bytes.len().saturating_add(*length as usize);
        bytes.resize(end, (number % 256) as u8)?;
        bytes.extend_from_slice(&length.to_be_bytes())?;
    }
    Ok(bytes)
}

/// Returns the bytes of `prefix`, and after them this number of frames of 7 bytes.
fn file_of_frames(alloc: Global, prefix: &[u8], frames: u32) -> Result<Vec<u8>, AllocError> {
    let mut bytes = Vec::from_slice(alloc, prefix)?;
    for _frame in 0..frames {
        bytes.extend_from_slice(&[0, 0, 7, 0, 0, 0, 3])?;
    }
    Ok(bytes)
}

/// Returns the length in bytes of the next body that a reader lends, or `None` at the header.
/// Returns 0 if the body is not that of the frame that ends at offset `at` of the device.
fn lent(
    back: &mut Back,
    device: &mut CountingDevice,
    at: usize,
) -> Result<Option<usize>, FrameFault> {
    let Some(body) = back.back(device)? else {
        return Ok(None);
    };
    let end = at.saturating_sub(4);
    let there = device
        .memory
        .bytes()
        .get(end.saturating_sub(body.len())..end);
    Ok(Some(if there == Some(body) { body.len() } else { 0 }))
}

/// Calls `lent`, and returns its result. If the result is NoMemory (the system refused memory),
/// calls `lent` once more, as a caller of `back` may, and returns the second result. But if the
/// second result is a body of at most `FITS` bytes, returns NoMemory: a reader needs no memory for
/// such a body, so the first call should not have failed.
fn lent_at_last(
    back: &mut Back,
    device: &mut CountingDevice,
    at: usize,
) -> Result<Option<usize>, FrameFault> {
    match lent(back, device, at) {
        Err(FrameFault::NoMemory) => match lent(back, device, at) {
            Ok(Some(length)) if length <= FITS => Err(FrameFault::NoMemory),
            answer => answer,
        },
        answer => answer,
    }
}

/// Writes a line with the lengths of the bodies that a reader of a file lends, and the first result
/// that is not a body.
fn write_bodies_of_file(
    alloc: Global,
    version: FileVersion,
    bytes: Vec<u8>,
    lines: &mut String,
) -> Result<(), Fail> {
    let mut device = device_of(bytes);
    let started = match version {
        FileVersion::One => Back::start_old(alloc, &mut device),
        FileVersion::Two => Back::start(alloc, &mut device),
    };
    write_bodies(&mut started?, &mut device, lines)
}

/// Writes a line with the lengths of the bodies that a reader lends, and the first result that is
/// not a body. Writes at most 10 results; if these are all bodies, the line has no end.
fn write_bodies(
    back: &mut Back,
    device: &mut CountingDevice,
    lines: &mut String,
) -> Result<(), Fail> {
    let mut at = device.memory.bytes().len();
    for _call in 0..10 {
        match lent_at_last(back, device, at) {
            Ok(Some(length)) => {
                at = at.saturating_sub(length.saturating_add(4));
                write!(lines, "{length} ")?;
            }
            answer => {
                writeln!(lines, "{answer:?}")?;
                return Ok(());
            }
        }
    }
    Ok(())
}

/// Writes a line with the number of bodies that a reader lends, the first result that is not a body
/// of 3 bytes, and the number of reads of the device.
fn write_frames(alloc: Global, bytes: Vec<u8>, lines: &mut String) -> Result<(), Fail> {
    let mut device = device_of(bytes);
    let mut back = Back::start(alloc, &mut device)?;
    let answer = last_answer(&mut back, &mut device);
    let (records, reads) = (back.records(), device.reads);
    writeln!(lines, "{records} {answer:?} {reads}")?;
    Ok(())
}

/// Returns the first result of a reader that is not a body of 3 bytes, or the last one of 100,000.
fn last_answer(back: &mut Back, device: &mut CountingDevice) -> Result<Option<usize>, FrameFault> {
    let mut at = device.memory.bytes().len();
    let mut answer = Ok(Some(3));
    for _call in 0..100_000 {
        if answer != Ok(Some(3)) {
            break;
        }
        answer = lent(back, device, at);
        at = at.saturating_sub(7);
    }
    answer
}

/// Reads frames around the size of the buffer: the frame of a name of 4,084 letters has 4,096
/// bytes.
#[test]
fn names_of_many_letters(rt: HostRuntime) -> Result<(), Fail> {
    let alloc = rt.alloc();
    let mut lines = String::new(alloc);
    for letters in [4, 4084, 4085, 65_535] {
        let bytes = file_of_name(alloc, letters)?;
        write_bodies_of_file(alloc, FileVersion::Two, bytes, &mut lines)?;
    }
    check_equal(
        &rt,
        "lengths of bodies",
        lines.as_str(),
        "3 12 Ok(None)\n3 4092 Ok(None)\n3 4093 Ok(None)\n3 65543 Ok(None)\n",
    );
    Ok(())
}

/// Reads frames that begin at the start of the buffer of 4,096 bytes, or some bytes before or after
/// it: the last frame has 2,000 bytes, and the frame of a body of 2,092 bytes the other 2,096.
#[test]
fn frames_at_the_start_of_the_buffer(rt: HostRuntime) -> Result<(), Fail> {
    let alloc = rt.alloc();
    let mut lines = String::new(alloc);
    for length in [2087, 2088, 2091, 2092, 2093, 2096, 2097] {
        let bytes = file_of_lengths(alloc, FileVersion::Two, &[10, length, 1996])?;
        write_bodies_of_file(alloc, FileVersion::Two, bytes, &mut lines)?;
    }
    check_equal(
        &rt,
        "lengths of bodies",
        lines.as_str(),
        "1996 2087 10 Ok(None)\n1996 2088 10 Ok(None)\n1996 2091 10 Ok(None)\n\
         1996 2092 10 Ok(None)\n1996 2093 10 Ok(None)\n1996 2096 10 Ok(None)\n\
         1996 2097 10 Ok(None)\n",
    );
    Ok(())
}

/// Reads frames that fit into the buffer of 4,096 bytes, and larger ones, in several orders.
#[test]
fn bodies_of_many_lengths(rt: HostRuntime) -> Result<(), Fail> {
    let alloc = rt.alloc();
    let mut lines = String::new(alloc);
    let rows = [
        [3, 4092, 4092].as_slice(),
        &[4091, 4092, 3],
        &[4093, 4092, 4093],
        &[65_543, 8000, 12_000],
        &[3, 16_777_220],
    ];
    for lengths in rows {
        let bytes = file_of_lengths(alloc, FileVersion::Two, lengths)?;
        write_bodies_of_file(alloc, FileVersion::Two, bytes, &mut lines)?;
    }
    check_equal(
        &rt,
        "lengths of bodies",
        lines.as_str(),
        "4092 4092 3 Ok(None)\n3 4092 4091 Ok(None)\n4093 4092 4093 Ok(None)\n\
         12000 8000 65543 Ok(None)\n16777220 3 Ok(None)\n",
    );
    Ok(())
}

/// Checks that a body of version 1 has at most 16,777,219 bytes, and that a reader of one version
/// rejects a file of the other.
#[test]
fn files_of_version_1(rt: HostRuntime) -> Result<(), Fail> {
    let alloc = rt.alloc();
    let mut lines = String::new(alloc);
    for lengths in [[3, 4092, 4093, 16_777_219].as_slice(), &[3, 16_777_220]] {
        let bytes = file_of_lengths(alloc, FileVersion::One, lengths)?;
        write_bodies_of_file(alloc, FileVersion::One, bytes, &mut lines)?;
    }
    check_equal(
        &rt,
        "lengths of bodies",
        lines.as_str(),
        "16777219 4093 4092 3 Ok(None)\nErr(Damaged(16777237))\n",
    );
    // a reader of version 2 on a file of version 1, and vice versa
    let mut old = device_of(file_of_lengths(alloc, FileVersion::One, &[3])?);
    let started = Back::start(alloc, &mut old);
    assert!(rt; matches!(started, Err(FrameFault::NotATreeFile)));
    let mut new = device_of(file_of_lengths(alloc, FileVersion::Two, &[3])?);
    let started = Back::start_old(alloc, &mut new);
    assert!(rt; matches!(started, Err(FrameFault::NotATreeFile)));
    Ok(())
}

/// Counts the reads: one of the header, and one for each block of 4,096 bytes, in which there are
/// 585 frames of 7 bytes. The last file has one byte more between its header and its first frame,
/// so no frame ends at offset 7.
#[test]
fn one_read_for_a_block(rt: HostRuntime) -> Result<(), Fail> {
    let alloc = rt.alloc();
    let mut lines = String::new(alloc);
    for frames in [0, 1, 584, 585, 586, 1170, 1171, 65_536] {
        let bytes = file_of_frames(alloc, b"AGT2\0\0", frames)?;
        write_frames(alloc, bytes, &mut lines)?;
    }
    let odd = file_of_frames(alloc, b"AGT2\0\0\x07", 2000)?;
    write_frames(alloc, odd, &mut lines)?;
    check_equal(
        &rt,
        "records and reads",
        lines.as_str(),
        "0 Ok(None) 1\n1 Ok(None) 2\n584 Ok(None) 2\n585 Ok(None) 2\n586 Ok(None) 3\n\
         1170 Ok(None) 3\n1171 Ok(None) 4\n65536 Ok(None) 114\n2000 Err(Damaged(7)) 5\n",
    );
    Ok(())
}
