//! The encoding of a large value, a shared text or a tree, shared by its owners.

ghost use Rattle.std.specs.Prelude.{◌≡◌, ◌++◌, ◌+◌, ◌<◌, ◌≤◌, ℕ, drop, length, slice_index, take};
ghost use Rattle.std.specs.Prelude.{IfOk, OnErr, OnOk};
ghost use Rattle.ag_value.specs.Spelling.{spelling_of};
ghost use Rattle.ag_value.specs.Well.{IsWell};
ghost use Rattle.ag_value.specs.declared.value.Value.{List as ListValue, Table as TableValue};
ghost use Rattle.ag_value.specs.declared.value.Value.{Text as TextValue};

use crate::carried::Carried;
use crate::shared_text::SharedText;
use crate::spelled::Spelled;
use ag_value::NoMemory;
use list_tree::ListTree;
use std::alloc::AllocError;
use std::marker::Model;
use std::rc::Rc;
use table_tree::TableTree;

/// The value whose encoding is shared.
#[derive(Drop)]
enum Source {
    /// A large value, which is stored beside its encoding.
    Spelled(Rc<Spelled>),
    /// A shared text. The five bytes before the text in its encoding are computed from its length.
    Text(SharedText),
    /// A table that is a tree, whose pairs are stored beside their encodings.
    Table(TableTree),
    /// A list that is a tree, which is stored beside the encodings of its items.
    List(ListTree),
}

/// The encoding of a large value, a shared text or a tree. An `Encoded` is one more owner of that
/// value. Contracts see the bytes. `append_to` and `share` fail with AllocError, as the calls of
/// `Vec` do, and `value` with NoMemory, as those of `Carried` do. Both faults have the causes that
/// README.md lists.
#[derive(Drop)]
pub struct Encoded {
    source: Source,
}

impl Model for Encoded {
    ghost use Rattle.std.specs.Prelude.{List, ℕ};
    ghost use Rattle.std.specs.Coded.{codes};

    ghost Value = { List ℕ };

    ghost coded = { Prim.hlevel codes };

    ghost use Rattle.ag_carried.specs.Encoded.{source_encoding};

    ghost view = { λ e. source_encoding e.source };
}

impl Encoded {
    /// Returns the encoding of a large value.
    pub(crate) fn of(shared: Rc<Spelled>) -> Encoded
        ensures { result ≡ spelling_of shared.value }
    {
        Encoded {
            source: Source::Spelled(shared),
        }
    }

    /// Returns the encoding of a shared text.
    pub(crate) fn of_text(text: SharedText) -> Encoded
        ensures { result ≡ spelling_of (TextValue text) }
    {
        Encoded {
            source: Source::Text(text),
        }
    }

    /// Returns the encoding of a table that is a tree.
    pub(crate) fn of_table(table: TableTree) -> Encoded
        ensures { result ≡ spelling_of (TableValue table) }
    {
        Encoded {
            source: Source::Table(table),
        }
    }

    /// Returns the encoding of a list that is a tree.
    pub(crate) fn of_list(list: ListTree) -> Encoded
        ensures { result ≡ spelling_of (ListValue list) }
    {
        Encoded {
            source: Source::List(list),
        }
    }

    /// Returns the number of bytes. Takes no memory.
    #[inline(always)]
    pub fn len(&self) -> usize
        ensures len { result ≡ length self.now }
        ensures bytes { (i : ℕ) → slice_index self.now i < 256 }
    {
        match &self.source {
            Source::Spelled(shared) => byte_count(shared.bytes()),
            Source::Text(text) => text.encoding_len(),
            Source::Table(table) => table.encoding_len(),
            Source::List(list) => list.encoding_len(),
        }
    }

    /// Fills `out` with the bytes from offset `from` on (in bytes, from 0). `from` plus the length
    /// of `out` must not exceed the length of the encoding. Takes no memory.
    pub fn copy_part(&self, from: usize, out: &mut [u8])
        requires { from + length out.old ≤ length self.now }
        ensures { out.new ≡ take (length out.old) (drop from self.now) }
    {
        match &self.source {
            Source::Spelled(shared) => {
                let count = out.len();
                out.copy_from_slice(&shared.bytes()[from..from + count]);
            }
            Source::Text(text) => text.copy_encoding(from, out),
            Source::Table(table) => table.copy_part(from, out),
            Source::List(list) => list.copy_part(from, out),
        }
    }

    /// Appends a copy of the bytes to a vector. Fails with AllocError if memory is refused, or if
    /// the vector would have 2^64 bytes or more; its bytes are then unchanged.
    pub fn append_to(&self, out: &mut Vec<u8>) -> Result<(), AllocError>
        ensures ok { OnOk result (out.new.items ≡ out.old.items ++ self.now) }
        ensures err { OnErr result (out.new.items ≡ out.old.items) }
    {
        match &self.source {
            Source::Spelled(shared) => out.extend_from_slice(shared.bytes()),
            Source::Text(text) => text.append_encoding(out),
            Source::Table(table) => table.append_encoding(out).map_err(|_| AllocError),
            Source::List(list) => list.append_encoding(out).map_err(|_| AllocError),
        }
    }

    /// Returns the encoding for one more owner. Takes no memory. Fails with AllocError if the value
    /// has 2^64 - 1 owners.
    pub fn share(&self) -> Result<Encoded, AllocError>
        ensures { IfOk result (λ e. e ≡ self.now) }
    {
        match &self.source {
            Source::Spelled(shared) => Ok(Encoded::of(shared.clone()?)),
            Source::Text(text) => {
                let Ok(text) = text.share() else {
                    return Err(AllocError);
                };
                Ok(Encoded::of_text(text))
            }
            Source::Table(table) => {
                let Ok(table) = table.share() else {
                    return Err(AllocError);
                };
                Ok(Encoded::of_table(table))
            }
            Source::List(list) => {
                let Ok(list) = list.share() else {
                    return Err(AllocError);
                };
                Ok(Encoded::of_list(list))
            }
        }
    }

    /// Returns the value that has this encoding, for one more owner. Takes no memory, and fails
    /// with NoMemory if the value has 2^64 - 1 owners.
    pub fn value(&self) -> Result<Carried, NoMemory>
        ensures well { IfOk result (λ c. IsWell c) }
        ensures encoding { IfOk result (λ c. spelling_of c ≡ self.now) }
    {
        match &self.source {
            Source::Spelled(spelled) => {
                // for the proof of the clause `well`: the contract of `Spelled::value` says that
                // the value is well
                let _well = spelled.value();
                Ok(Carried::of_spelled(spelled.clone()?))
            }
            Source::Text(text) => {
                // for the same proof: the contract of `len` says that the text is well
                let _well = text.len();
                Ok(Carried::from_text(text.share()?))
            }
            Source::Table(table) => {
                // for the same proof: the contract of `weight` says that the table is well
                let _well = table.weight();
                Ok(Carried::from_table(table.share()?))
            }
            Source::List(list) => {
                // for the same proof: the contract of `weight` says that the list is well
                let _well = list.weight();
                Ok(Carried::from_list(list.share()?))
            }
        }
    }
}

/// Returns the number of bytes. A function of its own for the sake of the clause `bytes`: contracts
/// see bytes as numbers, and the clause `bytes` of `Encoded::len` needs that each is below 256.
#[inline(always)]
pub(crate) fn byte_count(bytes: &[u8]) -> usize
    ensures len { result ≡ length bytes.now }
    ensures bytes { (i : ℕ) → slice_index bytes.now i < 256 }
{
    bytes.len()
}
