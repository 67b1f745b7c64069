//! Answers questions about the file that `show_value` writes, and about `bytes_of`, which reads at
//! most 1,048,577 bytes from a reader: one more than the text of a grammar or a sentence may have,
//! so that a text that is too long can be noticed.

use aggen::{bytes_of, show_value};
use rows::words::{Mistake, shown_bytes};
use std::alloc::{AllocError, Global};
use treefile::MemDevice;

/// Returns the bytes of a file, and then the printed text as Rust prints a `Result` for debugging:
/// `Ok("14\n")`.
fn file_text(alloc: Global, file: &MemDevice, out: &[u8]) -> Result<String, AllocError> {
    let file = shown_bytes(alloc, file.bytes())?;
    format!(in alloc; "{file} {:?}", str::from_utf8(out))
}

/// Returns the file that `show_value` writes for an expression, then the line that it prints. Fails
/// with `Unfit` if `show_value` fails.
pub fn file_answer(alloc: Global, text: &str) -> Result<String, Mistake> {
    let mut device = MemDevice::new(alloc);
    let mut out = Vec::new(alloc);
    match show_value(alloc, text, &mut device, &mut out) {
        Ok(()) => Ok(file_text(alloc, &device, out.as_slice())?),
        Err(_) => Err(Mistake::Unfit),
    }
}

/// Returns the number of bytes that `bytes_of` reads from a reader of the text. Fails with `Unfit`
/// if `bytes_of` fails.
pub fn source_answer(alloc: Global, text: &str) -> Result<String, Mistake> {
    match bytes_of(alloc, text.as_bytes()) {
        Ok(bytes) => Ok(format!(in alloc; "{} bytes", bytes.len())?),
        Err(_) => Err(Mistake::Unfit),
    }
}
