//! Reading a file into memory.

ghost use Rattle.std.specs.Prelude.{◌≡◌, ◌+◌, ◌⊎◌, IfErr, IfOk, IfSome, take};
ghost use Rattle.ag_grammar.specs.grammars.Accepted.{max_text_bytes};
ghost use Rattle.aggen.specs.Status.{IsSourceFault};

use ag_fault::Fault;
use ag_grammar::limits::MAX_TEXT_BYTES;
use ag_job::{ReadFault, read_prefix};
use std::alloc::Global;
use std::fs;
use std::io::{Error, ErrorKind, Read};
use std::rt::Files;

/// The greatest number of bytes that are read: one more than the text of a grammar, or a sentence,
/// may have. So a text that is too long is still too long after reading.
const MAX_SOURCE_BYTES: u64 = MAX_TEXT_BYTES as u64 + 1;

/// Returns the bytes of a file, at most the first 1,048,577. Fails with F1 File if the file can't
/// be opened or read, and with NoMemory if memory is refused.
pub fn source_of<R: Files>(rt: &R, alloc: Global, path: &str) -> Result<Vec<u8>, Fault>
    ensures { IfErr result IsSourceFault }
{
    match fs::open(rt, path) {
        Ok(file) => bytes_of(alloc, file),
        Err(error) => Err(fault_or(&error, Fault::File)),
    }
}

/// Returns the bytes of a reader, at most the first 1,048,577. Fails with F1 File if the reader
/// fails, and with NoMemory if memory is refused.
pub fn bytes_of<R: Read + Drop>(alloc: Global, reader: R) -> Result<Vec<u8>, Fault>
    ensures read { IfOk result (λ bytes. IfSome (R.remaining reader)
        (λ left. bytes.items ≡ take (max_text_bytes + 1) left)) }
    ensures refused { IfErr result IsSourceFault }
{
    match read_prefix(alloc, reader, MAX_SOURCE_BYTES) {
        Ok(bytes) => Ok(bytes),
        Err(ReadFault::Read) => Err(Fault::File),
        Err(ReadFault::NoMemory) => Err(Fault::NoMemory),
    }
}

/// Returns the fault of a failed call of the file system: NoMemory if the call failed since memory
/// was refused, else `other`.
pub fn fault_or(error: &Error, other: Fault) -> Fault
    ensures { (result ≡ other) ⊎ (result ≡ Fault.NoMemory) }
{
    if error.kind() == ErrorKind::OutOfMemory {
        Fault::NoMemory
    } else {
        other
    }
}
