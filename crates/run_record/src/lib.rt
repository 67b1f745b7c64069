//! The record of what a run of the program read, wrote and reported. It is ghost state: it occupies
//! no memory, and only contracts see it.
#![tactic(auto)]

ghost use Rattle.std.specs.Prelude.{◌≡◌, List, [], ◌∷◌};
ghost use Rattle.std.specs.Borrow.{ftrue};
ghost use Rattle.run_record.specs.Events.{Event, event_of};

use std::marker::{Model, PhantomData};

/// What a run of the program read, wrote and reported, newest first. The record occupies no memory,
/// since `marker` has no bytes, and `events` exists only for proofs. No code reads `marker`: the
/// proofs by hand of `new` and `note` are written for a struct with one field that is not ghost.
#[derive(Drop)]
pub struct RunRecord {
    marker: PhantomData<u8>,
    pub ghost events: { List Event },
}

impl Model for RunRecord {
    // only a type with `also_owns` can have a ghost field that is data and not a fact
    ghost also_owns = { λ _. ftrue };
}

impl RunRecord {
    /// Returns the record of a run that has done nothing.
    pub fn new() -> RunRecord
        ensures { result.events ≡ [] }
    {
        RunRecord {
            marker: PhantomData,
        }
    }

    /// Adds an event to the record. `_numbers` has two elements: the kind of the event, and 1 for
    /// success or 0 for failure. `_path` has the path of a file or a folder; it is empty for other
    /// events. `_bytes` has what was read, written or reported. The body is empty, since the record
    /// is ghost state: a proof by hand adds the event.
    pub fn note(&mut self, _numbers: &[u64], _path: &[u8], _bytes: &[u8])
        ensures { self.new.events ≡ event_of _numbers.now _path.now _bytes.now ∷ self.old.events }
    {}
}
