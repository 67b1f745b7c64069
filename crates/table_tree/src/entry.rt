//! A pair of a table beside its encoding.

ghost use Rattle.std.specs.Prelude.{◌≡◌, ◌↔◌, ◌+◌, ◌*◌, ◌∷◌, ◌≤◌, [], length, true, IfOk, IsTrue};
ghost use Rattle.ag_value.specs.Measure.{max_weight};
ghost use Rattle.ag_value.specs.Spelling.{spelling_of_pair};
ghost use Rattle.ag_value.specs.Well.{IsWell, is_item};
ghost use Rattle.table_tree.specs.Totals.{AreBytes, AreTotals};

use crate::totals::Totals;
use ag_value::{NoMemory, Text, Value, depth, encode, same, weight};
use std::alloc::Global;
use std::marker::Model;

/// A key and its value, beside the encoding of both. Contracts see the pair.
#[derive(Drop)]
pub struct Entry {
    key: Text,
    value: Value,
    /// The encoding of the pair: the key's length in four bytes, the key, and the value's encoding.
    bytes: Vec<u8>,
    /// The depth of the value.
    depth: u32,
}

impl Model for Entry {
    ghost use Rattle.std.specs.Prelude.{ℕ, List};
    ghost use Rattle.std.specs.Coded.{codes};
    ghost use Rattle.ag_value.specs.declared.value.Value.{Value as AttributeValue};
    // what the prover knows of the Rust type `Value`; only `coded` uses it
    ghost use Rattle.ag_value.specs.contracts.value.Value as value_row;

    ghost Value = { List ℕ × AttributeValue };

    ghost coded = { Prim.hlevel (codes, value_row.the_row.coded) };

    ghost use Rattle.table_tree.specs.Entries.{IsEntry};

    ghost view = { λ e. (e.key, e.value) };

    ghost invariant = { λ e. IsEntry e.key e.value e.bytes.items e.depth };
}

impl Entry {
    /// Encodes a pair and returns its entry. The key must have at most 1,048,576 bytes, and the
    /// value must be well and not an error. Fails with NoMemory.
    pub(crate) fn new(alloc: Global, key: Text, value: Value) -> Result<Entry, NoMemory>
        requires short { length key ≤ max_weight }
        requires well { IsWell value }
        requires item { is_item value ≡ true }
        ensures { IfOk result (λ entry. entry ≡ (key, value)) }
    {
        let bytes = encoded_pair(alloc, key.as_str(), &value)?;
        let depth = depth(&value);
        Ok(Entry {
            key,
            value,
            bytes,
            depth,
        })
    }

    /// Lends the key.
    #[inline(always)]
    pub fn key(&self) -> &str
        ensures { result.now ≡ self.now.0 }
    {
        self.key.as_str()
    }

    /// Lends the value.
    #[inline(always)]
    pub fn value(&self) -> &Value
        ensures value { result.now ≡ self.now.1 }
        ensures well { IsWell result.now }
    {
        &self.value
    }

    /// Lends the encoding of the pair.
    #[inline(always)]
    pub fn bytes(&self) -> &[u8]
        ensures { result.now ≡ spelling_of_pair self.now }
    {
        self.bytes.as_slice()
    }

    /// Returns the totals of this pair alone. By the clause `light`, the totals of a table and of
    /// one more pair can be added without overflow, before they are compared with the limits.
    #[inline(always)]
    pub(crate) fn totals(&self) -> Totals
        ensures totals { AreTotals (self.now ∷ []) result }
        ensures light { result.bytes ≤ 4 + 2 * max_weight }
        ensures bytes { AreBytes (spelling_of_pair self.now) }
    {
        let depth = self.depth;
        Totals {
            pairs: 1,
            bytes: byte_count(self.bytes()) as u32,
            depth,
        }
    }

    /// Returns whether a key and a value are this pair.
    pub(crate) fn is_pair(&self, key: &Text, value: &Value) -> bool
        ensures { IsTrue result ↔ (self.now ≡ (key.now, value.now)) }
    {
        self.key.as_str() == key.as_str() && same(&self.value, value)
    }

    /// Returns whether two pairs are equal, by a comparison of their encodings.
    pub(crate) fn same(&self, other: &Entry) -> bool
        ensures { IsTrue result ↔ (self.now ≡ other.now) }
    {
        self.bytes.as_slice() == other.bytes.as_slice()
    }
}

/// Returns the encoding of a pair. Fails with NoMemory.
fn encoded_pair(alloc: Global, key: &str, value: &Value) -> Result<Vec<u8>, NoMemory>
    requires short { length key.now ≤ max_weight }
    requires well { IsWell value.now }
    ensures { IfOk result (λ bytes. bytes.items ≡ spelling_of_pair (key.now, value.now)) }
{
    let mut bytes = Vec::with_capacity(alloc, 4 + key.len() + weight(value) as usize)?;
    bytes.extend_from_slice(&(key.len() as u32).to_be_bytes())?;
    bytes.extend_from_slice(key.as_bytes())?;
    encode(value, &mut bytes)?;
    Ok(bytes)
}

/// Returns the number of bytes. The clause `bytes` says that each of them is below 256. The proofs
/// of the clauses `bytes` of `Entry::totals` and `TableTree::encoding_len` use this clause.
#[inline(always)]
pub(crate) fn byte_count(bytes: &[u8]) -> usize
    ensures len { result ≡ length bytes.now }
    ensures bytes { AreBytes bytes.now }
{
    bytes.len()
}
