//! A list of attribute values whose versions share their items.

ghost use Rattle.std.specs.Prelude.{◌≡◌, ◌↔◌, ◌++◌, ◌+◌, ◌<◌, ◌≤◌, ℕ, drop, length, map, option_copied, take};
ghost use Rattle.std.specs.Prelude.{slice_get, slice_index, IfNone, IfOk, IfSome, IsTrue, List};
ghost use Rattle.std.specs.Prelude.{MatchOption, OnErr, OnOk};
ghost use Rattle.ag_value.specs.Measure.{max_weight, weight_of};
ghost use Rattle.ag_value.specs.Spelling.{joined, spelling_of};
ghost use Rattle.ag_value.specs.Well.{IsWell};
ghost use Rattle.list_tree.specs.Lists.{IsList};
ghost use Rattle.ag_value.specs.declared.value.Value.{Value as AttributeValue};
ghost use Rattle.ag_value.specs.declared.value.Value.TheVariants as v;

use crate::items::ItemTree;
use ag_value::{Items, MAX_WEIGHT, NoMemory, Value, encode, weight};
use rope::Rope;
use std::alloc::Global;
use std::fmt;
use std::marker::Model;
use std::rc::Rc;

/// The number of bytes of the encoding before the first item: one for the kind of a list, and four
/// for the number of items.
const HEADER_LENGTH: usize = 5;

/// A well list that may have several owners: its items in a balanced tree, and the encodings of the
/// items in a rope. Contracts see the list of the items. A list that `join` makes of two others
/// shares nodes with them. It makes anew only the nodes on the way to the place where the two lists
/// meet, and those that a rotation changes.
#[derive(Drop)]
pub struct ListTree {
    parts: Rc<ListParts>,
}

/// The items of a list, and their encodings.
#[derive(Drop)]
struct ListParts {
    items: ItemTree,
    /// The encodings of the items, one after the other.
    encodings: Rope,
}

impl Model for ListTree {
    ghost use Rattle.std.specs.Prelude.{List};
    ghost use Rattle.std.specs.Coded.{codes};
    ghost use Rattle.ag_value.specs.declared.value.Value.{Value as AttributeValue};
    // what the prover knows of the Rust type `Value`; only `coded` uses it
    ghost use Rattle.ag_value.specs.contracts.value.Value as value_row;

    ghost Value = { List AttributeValue };

    ghost coded = { Prim.hlevel (codes, value_row.the_row.coded) };

    ghost use Rattle.list_tree.specs.Lists.{IsList};

    ghost view = { λ l. l.parts.value.items };

    ghost invariant = { λ l. IsList l.parts.value.items l.parts.value.encodings };
}

impl fmt::Debug for ListTree {
    fn fmt<W: fmt::Write>(&self, f: &mut fmt::Formatter<W>) -> fmt::Result {
        f.debug_struct("ListTree")
            .field("len", &self.len())
            .finish()
    }
}

impl ListTree {
    /// Moves the items of a well list into a tree. Fails with NoMemory; the items are then dropped.
    pub fn from_list(alloc: Global, items: Items<Value>) -> Result<ListTree, NoMemory>
        requires { IsWell (v.List items) }
        ensures { IfOk result (λ list. list ≡ items) }
    {
        // `encoded` takes a `Value`, and returns the encoding of the whole list
        let list = Value::List(items);
        let encoding = encoded(alloc, &list)?;
        let Some(items) = items_in(list) else {
            unreachable!()
        };
        from_encoding(alloc, items, encoding.as_slice())
    }

    /// Returns the same list for one more owner, in constant time. Takes no memory. Fails with
    /// NoMemory if the list has 2^64 - 1 owners.
    pub fn share(&self) -> Result<ListTree, NoMemory>
        ensures { IfOk result (λ list. list ≡ self.now) }
    {
        Ok(ListTree {
            parts: self.parts.clone()?,
        })
    }

    /// Lends the tree of the items and the rope of their encodings.
    #[inline(always)]
    fn parts(&self) -> &ListParts
        ensures items { result.now.items ≡ self.now }
        ensures list { IsList result.now.items result.now.encodings }
    {
        self.parts.as_ref()
    }

    /// Returns the number of items. Takes constant time.
    pub fn len(&self) -> usize
        ensures { result ≡ length self.now }
    {
        self.parts().items.len()
    }

    /// Returns the number of levels, 0 for the empty list. For n > 0 items this number is at most
    /// 1 + 1.45 · log2(n), which is tested and not proved.
    pub fn height(&self) -> u8 {
        self.parts().items.height()
    }

    /// Returns the weight of the list, which is the length of its encoding in bytes. Takes constant
    /// time. `encoding_len` returns the same number as a `usize`, with a clause on the bytes.
    pub fn weight(&self) -> u64
        ensures weight { result ≡ weight_of (v.List self.now) }
        ensures well { IsWell (v.List self.now) }
    {
        5 + self.parts().encodings.len() as u64
    }

    /// Returns the item at an index from 0, or `None` if the list has no more than `index` items.
    /// Takes time that grows with the logarithm of the number of items.
    pub fn get(&self, index: usize) -> Option<&Value>
        ensures item { option_copied result ≡ slice_get self.now index }
        ensures well { IfSome result (λ item. IsWell item.now) }
    {
        // not returned directly, since the proof of the clause `well` names `item`
        let item = self.parts().items.get(index)?;
        Some(item)
    }

    /// Returns the list of the items of `left` and then those of `right`, or `None` if its weight
    /// would exceed `MAX_WEIGHT`. Takes time that grows with the difference of the heights. Fails
    /// with NoMemory.
    pub fn join(
        alloc: Global,
        left: &ListTree,
        right: &ListTree,
    ) -> Result<Option<ListTree>, NoMemory>
        ensures some { IfOk result (λ joined. IfSome joined (λ list. (list ≡ left.now ++ right.now)
            × (weight_of (v.List (left.now ++ right.now)) ≤ max_weight))) }
        ensures none { IfOk result (λ joined. IfNone joined
            (max_weight < weight_of (v.List (left.now ++ right.now)))) }
    {
        // each weight counts a header of 5 bytes, and the joined list has one header
        if left.weight() + right.weight() > MAX_WEIGHT + 5 {
            return Ok(None);
        }
        let left = left.parts();
        let right = right.parts();
        let items = ItemTree::join(alloc, &left.items, &right.items)?;
        let encodings = Rope::join(alloc, left.encodings.share()?, right.encodings.share()?)?;
        let parts = Rc::new(alloc, ListParts { items, encodings })?;
        Ok(Some(ListTree { parts }))
    }

    /// Returns a copy of the items as a flat list. Fails with NoMemory.
    pub fn to_list(&self, alloc: Global) -> Result<Items<Value>, NoMemory>
        ensures { IfOk result (λ items. items ≡ self.now) }
    {
        let mut items = Vec::with_capacity(alloc, self.len())?;
        self.parts().items.push_items(alloc, &mut items)?;
        Ok(Items::from_vec(items))
    }

    /// Returns whether two lists are equal, by a comparison of their encodings. Takes no memory.
    pub fn same(&self, other: &ListTree) -> bool
        ensures { IsTrue result ↔ (self.now ≡ other.now) }
    {
        self.len() == other.len() && self.parts().encodings.same(&other.parts().encodings)
    }

    /// Returns whether a value is the flat list of the same items. Takes no memory.
    pub fn is_value(&self, value: &Value) -> bool
        ensures { IsTrue result ↔ (v.List self.now ≡ value.now) }
    {
        match value {
            Value::List(items) => self.parts().items.has_items(items.as_slice()),
            _ => false,
        }
    }

    /// Returns whether bytes are the encoding of the list. Takes no memory.
    pub fn has_encoding(&self, bytes: &[u8]) -> bool
        ensures { IsTrue result ↔ (bytes.now ≡ spelling_of (v.List self.now)) }
    {
        if bytes.len() != self.encoding_len() {
            return false;
        }
        let (header, items) = bytes.split_at(HEADER_LENGTH);
        header == &self.header()[..] && self.parts().encodings.has_bytes(items)
    }

    /// Appends the encoding of the list. Fails with NoMemory; `out` is then unchanged.
    pub fn append_encoding(&self, out: &mut Vec<u8>) -> Result<(), NoMemory>
        ensures ok { OnOk result
            (out.new.items ≡ out.old.items ++ spelling_of (v.List self.now)) }
        ensures err { OnErr result (out.new.items ≡ out.old.items) }
    {
        let start = out.len();
        out.extend_from_slice(&self.header())?;
        let Ok(()) = self.parts().encodings.append_to(out) else {
            out.truncate(start);
            return Err(NoMemory::NoMemory);
        };
        Ok(())
    }

    /// Fills `out` with the bytes of the encoding from offset `from` on (in bytes, from 0). `from`
    /// plus the length of `out` must not exceed the length of the encoding. Takes no memory.
    pub fn copy_part(&self, from: usize, out: &mut [u8])
        requires { from + length out.old ≤ weight_of (v.List self.now) }
        ensures { out.new ≡ take (length out.old) (drop from (spelling_of (v.List self.now))) }
    {
        copy_after(&self.header(), &self.parts().encodings, from, out);
    }

    /// Returns the length of the encoding in bytes, as `weight` does. Takes constant time. The
    /// clause `bytes` says that each number in the encoding is below 256: contracts see bytes as
    /// numbers.
    pub fn encoding_len(&self) -> usize
        ensures len { result ≡ length (spelling_of (v.List self.now)) }
        ensures bytes { (i : ℕ) → slice_index (spelling_of (v.List self.now)) i < 256 }
        ensures well { IsWell (v.List self.now) }
    {
        let header = self.header();
        byte_count(&header) + self.parts().encodings.len()
    }

    /// Returns the bytes of the encoding before the first item: a 2, with which each encoding of a
    /// list begins, and the number of items in four bytes, big-endian.
    #[tactic(auto, using(crate::proofs::Encoded::header_is))]
    fn header(&self) -> [u8; HEADER_LENGTH]
        ensures { spelling_of (v.List self.now) ≡ result ++ joined (map spelling_of self.now) }
    {
        let len = (self.parts().items.len() as u32).to_be_bytes();
        [2, len[0], len[1], len[2], len[3]]
    }
}

/// Returns the tree of the items of a well list, given its encoding. Fails with NoMemory.
fn from_encoding(alloc: Global, items: Items<Value>, encoding: &[u8]) -> Result<ListTree, NoMemory>
    requires well { IsWell (v.List items) }
    requires encoding { encoding.now ≡ spelling_of (v.List items) }
    ensures { IfOk result (λ list. list ≡ items) }
{
    let encodings = Rope::from_vec(alloc, encoding[HEADER_LENGTH..].to_vec(alloc)?)?;
    let mut items = items.into_vec();
    let count = items.len();
    let items = ItemTree::take_last(alloc, &mut items, count)?;
    let parts = Rc::new(alloc, ListParts { items, encodings })?;
    Ok(ListTree { parts })
}

/// Returns the items of a list, or `None` for a value of another kind.
fn items_in(value: Value) -> Option<Items<Value>>
    ensures { MatchOption result ((items : List AttributeValue) → value ≡ v.List items → ⊥)
        (λ items. value ≡ v.List items) }
{
    match value {
        Value::List(items) => Some(items),
        _ => None,
    }
}

/// Returns the encoding of a well value. Fails with NoMemory.
fn encoded(alloc: Global, value: &Value) -> Result<Vec<u8>, NoMemory>
    requires { IsWell value.now }
    ensures { IfOk result (λ bytes. bytes.items ≡ spelling_of value.now) }
{
    let mut bytes = Vec::with_capacity(alloc, weight(value) as usize)?;
    encode(value, &mut bytes)?;
    Ok(bytes)
}

/// Fills `out` with bytes of a header followed by a rope, from index `from` on.
fn copy_after(header: &[u8; HEADER_LENGTH], rope: &Rope, from: usize, out: &mut [u8])
    requires { from + length out.old ≤ 5 + length rope.now }
    ensures { out.new ≡ take (length out.old) (drop from (header.now ++ rope.now)) }
{
    if from >= HEADER_LENGTH {
        rope.copy_part(from - HEADER_LENGTH, out);
        return;
    }
    let count = (HEADER_LENGTH - from).min(out.len());
    let (first, rest) = out.split_at_mut(count);
    first.copy_from_slice(&header[from..from + count]);
    rope.copy_part(0, rest);
}

/// Returns the number of bytes. The clause `bytes` says that each byte is below 256. `encoding_len`
/// needs this clause for its own clause `bytes`, so it calls this function and not `len`. For the
/// rope, `Rope::len` has such a clause.
fn byte_count(bytes: &[u8]) -> usize
    ensures len { result ≡ length bytes.now }
    ensures bytes { (i : ℕ) → slice_index bytes.now i < 256 }
{
    bytes.len()
}
