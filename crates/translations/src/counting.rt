//! Devices that count their reads and the bodies that they lend, and share a count of their
//! appends.

ghost use Rattle.std.specs.Prelude.{◌≡◌};

use shared_bytes::{Body, SharedBytes};
use std::cell::Cell;
use treefile::{Device, DeviceFault};

/// Counts for the file that is being read. They are reset when a header is read, since a pass reads
/// the header of its file first.
#[derive(Clone, Copy)]
struct Reading {
    /// The number of reads after the header.
    reads: u64,
    /// The number of appends before the last read, to all devices that share the count.
    puts: u64,
    /// The number of appends between the last two reads, or `u64::MAX` before the second read.
    last_gap: u64,
    /// The least number of appends between two successive reads before the last one, or `u64::MAX`
    /// before the third read.
    least_gap: u64,
}

impl Reading {
    /// Returns the counts of a file of which only the header was read.
    fn begun() -> Reading {
        Reading {
            reads: 0,
            puts: 0,
            last_gap: u64::MAX,
            least_gap: u64::MAX,
        }
    }

    /// Returns the counts after one more read, before which there were `puts` appends.
    fn with_read(self, puts: u64) -> Reading {
        Reading {
            reads: self.reads.saturating_add(1),
            puts,
            last_gap: if self.reads == 0 {
                u64::MAX
            } else {
                puts.saturating_sub(self.puts)
            },
            least_gap: self.least_gap.min(self.last_gap),
        }
    }
}

/// A device that forwards each call to another device, and counts reads, lent bodies and appends.
/// It has the content, the honesty and the failures of the other device.
#[derive(Drop)]
pub struct CountingDevice<'a, D> {
    inner: D,
    /// The number of appends to this device and to the others that share the count.
    puts: &'a Cell<u64>,
    /// The number of bytes that were read after the headers.
    pub bytes: u64,
    /// The number of calls of `append_parts`.
    pub shared: u64,
    /// The counts of the current file.
    reading: Reading,
    /// The least number of reads of a file after its header, among the files before the current
    /// one. A file without such reads doesn't count. `u64::MAX` if no file counts.
    fewest_reads: u64,
    /// The least number of appends between two successive reads of a file, among the files before
    /// the current one. The interval before the last read of a file doesn't count. `u64::MAX` if no
    /// file had three reads after its header.
    least_gap: u64,
    /// The number of bodies of the current file that were lent.
    lent_here: Cell<u64>,
    /// The offset where the frame of the last of these bodies ends, or `u64::MAX` before the first.
    last_lent: Cell<u64>,
    /// The number of appends before the header of the current file was read.
    puts_before: u64,
    /// The number of bodies that were lent, of all files.
    lent: Cell<u64>,
    /// The greatest number of bodies of one file that were lent and not yet appended.
    most_ahead: Cell<u64>,
}

impl<'a, D> CountingDevice<'a, D> {
    /// Returns a device that forwards its calls to `inner`, and shares a count.
    pub fn new(inner: D, puts: &'a Cell<u64>) -> CountingDevice<'a, D> {
        CountingDevice {
            inner,
            puts,
            bytes: 0,
            shared: 0,
            reading: Reading::begun(),
            fewest_reads: u64::MAX,
            least_gap: u64::MAX,
            lent_here: Cell::new(0),
            last_lent: Cell::new(u64::MAX),
            puts_before: 0,
            lent: Cell::new(0),
            most_ahead: Cell::new(0),
        }
    }

    /// Returns the least number of reads of a file after its header. A file without such reads
    /// doesn't count. Returns `u64::MAX` if no file counts.
    pub fn fewest_reads(&self) -> u64 {
        if self.reading.reads == 0 {
            return self.fewest_reads;
        }
        self.fewest_reads.min(self.reading.reads)
    }

    /// Returns the least number of appends between two successive reads of a file after its header.
    /// The interval before the last read of a file doesn't count. Returns `u64::MAX` if no file had
    /// three such reads.
    pub fn least_gap(&self) -> u64 {
        self.least_gap.min(self.reading.least_gap)
    }

    /// Returns the number of bodies that were lent. A body that is lent again at once counts once.
    pub fn lent(&self) -> u64 {
        self.lent.get()
    }

    /// Returns the greatest number of bodies of one file that were lent while their nodes were not
    /// yet appended. The first append after a header is read is another header, and doesn't count.
    pub fn most_ahead(&self) -> u64 {
        self.most_ahead.get()
    }

    /// Counts a read of `length` bytes from offset `at` on. A read at offset 0 is that of a header,
    /// with which the reading of a file begins.
    fn count_read(&mut self, at: u64, length: usize)
        ensures inner { self.new.inner ≡ self.old.inner }
    {
        if at != 0 {
            self.bytes = self.bytes.saturating_add(length as u64);
            self.reading = self.reading.with_read(self.puts.get());
            return;
        }
        self.fewest_reads = self.fewest_reads();
        self.least_gap = self.least_gap();
        self.reading = Reading::begun();
        self.lent_here.set(0);
        self.last_lent.set(u64::MAX);
        self.puts_before = self.puts.get();
    }

    /// Counts the body whose frame ends at an offset, unless it is the one that was counted last.
    fn count_body(&self, at: u64) {
        if self.last_lent.replace(at) == at {
            return;
        }
        let lent = self.lent_here.get().saturating_add(1);
        self.lent_here.set(lent);
        self.lent.set(self.lent.get().saturating_add(1));
        let appended = self.puts.get().saturating_sub(self.puts_before);
        let ahead = lent.saturating_sub(appended.saturating_sub(1));
        self.most_ahead.set(self.most_ahead.get().max(ahead));
    }
}

impl<D: Device> Device for CountingDevice<'_, D> {
    ghost content = { λ d. D.content d.inner };

    ghost is_honest = { λ d. D.is_honest d.inner };

    ghost failures = { λ d. D.failures d.inner };

    fn len(&mut self) -> Result<u64, DeviceFault> {
        self.inner.len()
    }

    fn append(&mut self, bytes: &[u8]) -> Result<(), DeviceFault> {
        self.puts.set(self.puts.get().saturating_add(1));
        self.inner.append(bytes)
    }

    fn read_at(&mut self, at: u64, out: &mut [u8]) -> Result<(), DeviceFault> {
        self.count_read(at, out.len());
        self.inner.read_at(at, out)
    }

    fn clear(&mut self) -> Result<(), DeviceFault> {
        self.inner.clear()
    }

    fn append_parts(
        &mut self,
        parts: &SharedBytes,
        buffer: &mut Vec<u8>,
    ) -> Result<(), DeviceFault> {
        self.puts.set(self.puts.get().saturating_add(1));
        self.shared = self.shared.saturating_add(1);
        self.inner.append_parts(parts, buffer)
    }

    fn lend_before(&self, at: u64) -> Option<Body<'_>> {
        let body = self.inner.lend_before(at);
        if body.is_some() {
            self.count_body(at);
        }
        body
    }
}
