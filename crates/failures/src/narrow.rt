//! A writer that accepts a limited number of bytes.

use std::alloc::{AllocError, Global};
use std::io::{self, Write};

/// A writer that accepts `room` bytes, one in each call. After them it accepts no byte, or each
/// write fails.
#[derive(Drop)]
pub struct NarrowWriter {
    /// The bytes that were written.
    pub taken: Vec<u8>,
    /// The number of bytes that are accepted in all.
    room: usize,
    /// Whether a write after these bytes fails, instead of accepting no byte.
    fails: bool,
}

impl Write for NarrowWriter {
    fn write(&mut self, buf: &[u8]) -> io::Result<usize> {
        if self.taken.len() < self.room && !buf.is_empty() {
            self.taken.push(buf[0])?;
            return Ok(1);
        }
        if self.fails {
            return Err(io::Error::from(io::ErrorKind::Other));
        }
        Ok(0)
    }

    fn flush(&mut self) -> io::Result<()> {
        Ok(())
    }
}

/// Returns a writer that accepts `room` bytes, and allocates the memory for them.
pub fn with_room(alloc: Global, room: usize, fails: bool) -> Result<NarrowWriter, AllocError> {
    Ok(NarrowWriter {
        taken: Vec::with_capacity(alloc, room)?,
        room,
        fails,
    })
}
