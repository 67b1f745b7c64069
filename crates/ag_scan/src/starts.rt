//! A table of the literals that begin with each byte.

ghost use Rattle.std.specs.Prelude.{◌≡◌, ◌≤◌, ◌∷◌, List, ℕ, length, IfOk};
ghost use Rattle.ag_grammar.specs.Lists.{Each};
ghost use Rattle.ag_grammar.specs.grammars.Accepted.{max_literals};
ghost use Rattle.ag_scan.specs.Table.{AreCovered, with_one};

use crate::literals::LiteralEntry;
use ag_value::NoMemory;
use std::alloc::Global;

/// The entries whose texts begin with a certain byte, among those of the table of literals.
#[derive(Clone, Copy, PartialEq, Eq)]
pub enum StartingLiterals {
    /// No entry.
    Nothing,
    /// Only the entry with this index.
    Sole(u16),
    /// Several entries.
    Several,
}

/// Returns `start` with the entry of this index added.
fn with_one(start: StartingLiterals, index: u16) -> StartingLiterals
    ensures { result ≡ with_one start index }
{
    match start {
        StartingLiterals::Nothing => StartingLiterals::Sole(index),
        _ => StartingLiterals::Several,
    }
}

/// Returns the first byte of a text that is not empty.
#[inline(always)]
pub fn first_byte(text: &str) -> u8
    requires { 1 ≤ length text.now }
    ensures { (rest : List ℕ) × (text.now ≡ result ∷ rest) }
{
    text.as_bytes()[0]
}

/// Returns for each of the 256 bytes the entries that begin with it. (The contract only says that
/// no such entry is missing.) Fails with `NoMemory` if the list cannot be allocated.
pub fn starts_of(
    alloc: Global,
    entries: &[LiteralEntry<'_>],
) -> Result<Vec<StartingLiterals>, NoMemory>
    requires many { length entries.now ≤ max_literals }
    requires texts { Each (λ w. 1 ≤ length w.text.now) entries.now }
    ensures { IfOk result (λ s. AreCovered entries.now s.items (length entries.now)) }
{
    let mut starts = vec![in alloc; StartingLiterals::Nothing; 256]?;
    for index in 0..entries.len() {
        let first = first_byte(entries[index].text) as usize;
        let start = starts[first];
        starts[first] = with_one(start, index as u16);
    }
    Ok(starts)
}
