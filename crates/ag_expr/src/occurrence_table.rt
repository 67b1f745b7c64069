//! The distinct occurrences of a text, indexed by place and name.

ghost use Rattle.std.specs.Prelude.{◌≡◌, [], Some, IfOk, OnOk, OnErr};
ghost use Rattle.ag_expr.specs.language.Occurrences as spec;
ghost use Rattle.ag_grammar.specs.expressions.Occurrences.{AreDifferent};

use ag_grammar::Occ;
use ag_value::{NoMemory, Text};
use smallvec::SmallVec;
use std::alloc::Global;
use std::collections::HashMap;
use std::marker::Model;

/// The distinct occurrences so far, and the index of each by its place and name.
#[derive(Drop)]
pub struct OccurrenceTable<'t> {
    /// The occurrences, in order of their first appearance. Up to four are stored here, without an
    /// allocation of a list.
    listed: SmallVec<Occ, 4>,
    /// The index in `listed` of each place and name.
    indexes: HashMap<(u16, &'t str), usize>,
}

impl<'t> Model for OccurrenceTable<'t> {
    ghost use Rattle.std.specs.Prelude.{List};
    ghost use Rattle.ag_grammar.specs.declared.syntax.occurrence.Occ.{Occ};

    ghost Value = { List Occ };

    ghost use Rattle.ag_expr.specs.language.Indexes.{AreIndexesOf};
    ghost use Rattle.ag_grammar.specs.expressions.Occurrences.{AreDifferent};

    ghost view = { λ table. table.listed.items };

    ghost invariant = { λ table. AreIndexesOf table.indexes table.listed.items
        × AreDifferent table.listed.items };
}

impl<'t> OccurrenceTable<'t> {
    /// Returns an empty table. Does not allocate.
    pub fn new(alloc: Global) -> OccurrenceTable<'t>
        ensures { result ≡ [] }
    {
        OccurrenceTable {
            listed: SmallVec::new(alloc),
            indexes: HashMap::new(alloc),
        }
    }

    /// Returns the index of the listed occurrence with this place and name, or `None`.
    fn position(&self, place: u16, attr: &'t str) -> Option<usize>
        ensures { result ≡ spec.position_of self.now place attr.now }
    {
        self.indexes.get(&(place, attr)).copied()
    }

    /// Returns the index, from 0, of the listed occurrence with this place and name. If none is
    /// listed, first appends one, whose `$` is at the byte offset `at`. Fails with `NoMemory` if
    /// memory runs out; the list is then unchanged.
    pub fn intern(
        &mut self,
        alloc: Global,
        place: u16,
        attr: &'t str,
        at: usize,
    ) -> Result<usize, NoMemory>
        ensures lists { OnOk result (self.new ≡ spec.listed_with self.old (
            record { place = place; attr = attr.now; at = at })) }
        ensures number { IfOk result (λ k. spec.position_of self.new place attr.now ≡ Some k) }
        ensures stays { OnErr result (self.new ≡ self.old) }
    {
        if let Some(number) = self.position(place, attr) {
            return Ok(number);
        }
        let copied = Text::from_string(String::from_str(alloc, attr)?);
        // reserves first, so that no call can fail between the changes of the map and of the list
        self.listed.reserve(1)?;
        let number = self.listed.len();
        self.indexes.insert((place, attr), number)?;
        self.listed.push_reserved(Occ {
            place,
            attr: copied,
            at,
        });
        Ok(number)
    }

    /// Returns the listed occurrences.
    pub fn into_list(self) -> SmallVec<Occ, 4>
        ensures listed { result.items ≡ self.entry }
        ensures distinct_occurrences { AreDifferent result.items }
    {
        self.listed
    }
}
