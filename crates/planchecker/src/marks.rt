//! Marks of attributes, in a table of fixed size on the stack.

ghost use Rattle.std.specs.Prelude.{ℕ, ◌≡◌, ◌<◌, ◌⊎◌, ◌↔◌, IsTrue, length};
ghost use Rattle.ag_grammar.specs.grammars.Accepted.{max_attributes, max_symbols};
ghost use Rattle.passassign.specs.Tables.{max_slots};
ghost use Rattle.planchecker.specs.Marking.{IsMarked};

use ag_grammar::limits::{MAX_ATTRIBUTES, MAX_SYMBOLS};

/// The greatest number of attributes of a grammar, 4,096.
const MAX_SLOTS: usize = MAX_SYMBOLS * MAX_ATTRIBUTES;

/// Marks of attributes: one byte for each attribute that a grammar may have. The mark of attribute
/// a of symbol s, both numbered from 0, is at index `s * MAX_ATTRIBUTES + a`. Contracts see the
/// array as a list of any length, so the clauses `full` state its length.
#[derive(Drop)]
pub(crate) struct Marks {
    pub slots: [bool; MAX_SLOTS],
}

impl Marks {
    /// Returns a table in which no attribute is marked.
    pub(crate) fn new() -> Marks
        ensures none { (s a : ℕ) → IsMarked result s a → ⊥ }
        ensures full { length result.slots ≡ max_slots }
    {
        Marks {
            slots: [false; MAX_SLOTS],
        }
    }

    /// Returns whether an attribute is marked. Returns false for numbers beyond the limits of a
    /// grammar.
    pub(crate) fn has(&self, symbol: usize, attr: usize) -> bool
        ensures { IsTrue result ↔ IsMarked self.now symbol attr }
    {
        symbol < MAX_SYMBOLS && attr < MAX_ATTRIBUTES && self.slots[symbol * MAX_ATTRIBUTES + attr]
    }

    /// Marks an attribute.
    pub(crate) fn mark(&mut self, symbol: usize, attr: usize)
        requires symbol { symbol < max_symbols }
        requires attr { attr < max_attributes }
        requires full { length self.old.slots ≡ max_slots }
        ensures marked { (s a : ℕ) → IsMarked self.new s a
            ↔ (IsMarked self.old s a ⊎ ((symbol ≡ s) × (attr ≡ a))) }
        ensures full { length self.new.slots ≡ max_slots }
    {
        self.slots[symbol * MAX_ATTRIBUTES + attr] = true;
    }
}
