//! The encoding of a shared value between own bytes.

ghost use Rattle.std.specs.Prelude.{◌≡◌, IfOk};
ghost use Rattle.shared_bytes.specs.Spliced.{shift};

use ag_carried::Encoded;
use std::alloc::AllocError;

/// The encoding of a shared value in a list of bytes.
#[derive(Drop)]
pub struct Splice {
    /// The number of own bytes of the list before the encoding.
    pub own: usize,
    /// The offset in the whole list at which the encoding begins, in bytes.
    pub at: u64,
    /// The encoding.
    pub bytes: Encoded,
}

impl Splice {
    /// Returns the splice that this one becomes if its list is appended to another list, which has
    /// `own` own bytes and `at` bytes in all. Fails with AllocError if the new number of own bytes
    /// or the new offset exceeds 2^64 - 1, or if the value has 2^64 - 1 owners.
    pub fn shifted(&self, own: usize, at: u64) -> Result<Splice, AllocError>
        ensures { IfOk result (λ splice. splice ≡ shift own at self.now) }
    {
        let (Some(own), Some(at)) = (own.checked_add(self.own), at.checked_add(self.at)) else {
            return Err(AllocError);
        };
        let bytes = self.bytes.share()?;
        Ok(Splice { own, at, bytes })
    }
}
