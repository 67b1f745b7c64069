//! Answers questions about reading files.

use crate::endings::Ending;
use aggen::source_of;
use rows::words::{Mistake, bytes_of, printed};
use std::alloc::Global;
use std::rt::Files;

/// Reads the file whose path is spelled with two hexadecimal digits for each byte, and returns how
/// `source_of` ends. Fails with `Misspelt` if the path is not spelled as `bytes_of` of `rows`
/// expects, and with `Unfit` if it is not UTF-8.
pub fn source_of_answer<R: Files>(rt: &R, alloc: Global, spelled: &str) -> Result<String, Mistake> {
    let path = bytes_of(alloc, spelled)?;
    match str::from_utf8(path.as_slice()) {
        Ok(path) => printed(alloc, &Ending::of(source_of(rt, alloc, path))),
        Err(_) => Err(Mistake::Unfit),
    }
}
