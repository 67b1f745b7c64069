//! The encoding of a table.

ghost use Rattle.std.specs.Prelude.{◌≡◌, ◌++◌, ◌∷◌, ◌+◌, ◌-◌, ◌<◌, ◌≤◌, drop, length, map, min, take};
ghost use Rattle.std.specs.Prelude.{OnErr, OnOk, ℕ, slice_index};
ghost use Rattle.std.specs.Int.{w32, to_be_bytes};
ghost use Rattle.ag_value.specs.Measure.{weight_of};
ghost use Rattle.ag_value.specs.Spelling.{Extends, joined, spelling_of, spelling_of_pair};
ghost use Rattle.ag_value.specs.Well.{IsWell};
ghost use Rattle.ag_value.specs.declared.value.Value.TheVariants as v;
ghost use Rattle.table_tree.specs.Pieces.{IsPiece};

use crate::entry::byte_count;
use crate::tree::TableTree;
use ag_value::NoMemory;

/// The number of bytes before the first pair: one for the kind of a table, and four for the number
/// of pairs.
pub(crate) const HEADER_LENGTH: usize = 5;

impl TableTree {
    /// Appends the encoding of the table. Fails with NoMemory; `out` is then unchanged.
    pub fn append_encoding(&self, out: &mut Vec<u8>) -> Result<(), NoMemory>
        ensures ok { OnOk result
            (out.new.items ≡ out.old.items ++ spelling_of (v.Table self.now)) }
        ensures err { OnErr result (out.new.items ≡ out.old.items) }
    {
        let start = out.len();
        match self.append_all(out) {
            Ok(()) => Ok(()),
            Err(error) => {
                out.truncate(start);
                Err(error)
            }
        }
    }

    /// Fills `out` with the bytes of the encoding from offset `from` on (in bytes, from 0). `from`
    /// plus the length of `out` must not exceed the length of the encoding. Takes no memory.
    pub fn copy_part(&self, from: usize, out: &mut [u8])
        requires { from + length out.old ≤ weight_of (v.Table self.now) }
        ensures { out.new ≡ take (length out.old) (drop from (spelling_of (v.Table self.now))) }
    {
        let header = self.header();
        let mut done = copy_piece(&header[from.min(HEADER_LENGTH)..], 0, out);
        // if `out` is not full, the rest of the header was copied: `from + done >= HEADER_LENGTH`
        while done < out.len() {
            let piece = self.piece_at(from + done - HEADER_LENGTH);
            done = copy_piece(piece, done, out);
        }
    }

    /// Returns the length of the encoding in bytes. Takes constant time.
    pub fn encoding_len(&self) -> usize
        ensures len { result ≡ length (spelling_of (v.Table self.now)) }
        ensures bytes { (i : ℕ) → slice_index (spelling_of (v.Table self.now)) i < 256 }
        ensures well { IsWell (v.Table self.now) }
    {
        let header = self.header();
        byte_count(&header) + self.totals().bytes as usize
    }

    /// Returns the bytes of the encoding before the first pair: a 3, with which each encoding of a
    /// table begins, and the number of pairs in four bytes, big-endian.
    pub(crate) fn header(&self) -> [u8; 5]
        ensures bytes { result ≡ 3 ∷ to_be_bytes w32 (length self.now) }
        ensures well { IsWell (v.Table self.now) }
    {
        let [a, b, c, d] = self.totals().pairs.to_be_bytes();
        [3, a, b, c, d]
    }

    /// Appends the encoding. Fails with NoMemory, and may then have appended a part of it.
    fn append_all(&self, out: &mut Vec<u8>) -> Result<(), NoMemory>
        ensures ok { OnOk result
            (out.new.items ≡ out.old.items ++ spelling_of (v.Table self.now)) }
        ensures extends { Extends out.old.items out.new.items }
    {
        out.reserve(self.weight() as usize)?;
        out.extend_from_slice(&self.header())?;
        self.append_pairs(out)
    }

    /// Appends the encodings of the pairs. Fails with NoMemory, and may then have appended some of
    /// them.
    pub(crate) fn append_pairs(&self, out: &mut Vec<u8>) -> Result<(), NoMemory>
        ensures ok { OnOk result
            (out.new.items ≡ out.old.items ++ joined (map spelling_of_pair self.now)) }
        ensures extends { Extends out.old.items out.new.items }
    {
        if let Some(block) = self.block() {
            out.extend_from_slice(block)?;
            return Ok(());
        }
        let Some(root) = self.root() else {
            return Ok(());
        };
        root.left.append_pairs(out)?;
        out.extend_from_slice(root.entry.bytes())?;
        root.right.append_pairs(out)
    }

    /// Returns the bytes from `offset` on, up to the end of the largest block that contains this
    /// offset. If no block contains the offset, returns the bytes up to the end of the encoding of
    /// the pair there. The result is not empty. Offsets are in bytes, from 0, in the joined
    /// encodings of the pairs, and `offset` must be within these.
    fn piece_at(&self, offset: usize) -> &[u8]
        requires { offset < length (joined (map spelling_of_pair self.now)) }
        ensures { IsPiece (drop offset (joined (map spelling_of_pair self.now))) result.now }
    {
        if let Some(block) = self.block() {
            return &block[offset..];
        }
        let Some(root) = self.root() else {
            unreachable!()
        };
        let before = root.left.totals().bytes as usize;
        if offset < before {
            return root.left.piece_at(offset);
        }
        let bytes = root.entry.bytes();
        let skip = offset - before;
        if skip < bytes.len() {
            return &bytes[skip..];
        }
        root.right.piece_at(skip - bytes.len())
    }
}

/// Copies the bytes of a piece into `out` from index `done` on, as far as there is room. Returns
/// `done` plus the number of bytes copied.
fn copy_piece(piece: &[u8], done: usize, out: &mut [u8]) -> usize
    requires { done ≤ length out.old }
    ensures count { result ≡ done + min (length piece.now) (length out.old - done) }
    ensures bytes { take result out.new ≡ take done out.old ++ take (result - done) piece.now }
{
    let count = piece.len().min(out.len() - done);
    out[done..done + count].copy_from_slice(&piece[..count]);
    done + count
}
