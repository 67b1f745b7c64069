//! The record of the calls on a file, which only contracts can read.
ghost use Rattle.std.specs.Prelude.{◌≡◌, List, ◌∷◌};
ghost use Rattle.std.specs.Borrow.{ftrue};
ghost use Rattle.noted_file.specs.Calls.{Event, IsFresh, event_of};

use std::marker::{Model, PhantomData};

/// The calls on one file with their results, newest first. The oldest entry has an initial content
/// of the file. No clause says that the file had this content when it was first opened. The record
/// occupies no memory, since `marker` has no bytes, and `events` exists only for proofs. No code
/// reads `marker`. It is there because the proofs by hand of `new` and `note` are written for a
/// struct with one field that is not ghost.
#[derive(Drop)]
pub struct CallRecord {
    marker: PhantomData<u8>,
    pub ghost events: { List Event },
}

impl Model for CallRecord {
    // only a type with `also_owns` can have a ghost field that is data and not a fact
    ghost also_owns = { λ _. ftrue };
}

impl CallRecord {
    /// Makes the record of a file that is not open yet, with some initial content that no caller
    /// can choose.
    pub fn new() -> CallRecord
        ensures { IsFresh result.events }
    {
        CallRecord {
            marker: PhantomData,
        }
    }

    /// Adds a call to the record. `_numbers` has three elements: the kind of the call, an offset or
    /// a length in bytes (0 if the call has neither), and 1 for success or 0 for failure. `_bytes`
    /// has the path, or the bytes that were written or read. It is empty for other calls. The body
    /// is empty, since the record is ghost state: a proof by hand adds the call.
    pub(crate) fn note(&mut self, _numbers: &[u64], _bytes: &[u8])
        ensures { self.new.events ≡ event_of _numbers.now _bytes.now ∷ self.old.events }
    {}
}
