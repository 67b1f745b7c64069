//! Comparisons of a table with a flat value and with bytes.

ghost use Rattle.std.specs.Prelude.{◌≡◌, ◌↔◌, length, map, IsTrue};
ghost use Rattle.ag_value.specs.Spelling.{joined, spelling_of, spelling_of_pair};
ghost use Rattle.ag_value.specs.declared.value.Value.TheVariants as v;

use crate::encoding::HEADER_LENGTH;
use crate::tree::TableTree;
use ag_value::{Text, Value};

impl TableTree {
    /// Returns whether a value is this table. Takes no memory, and time that is linear in the
    /// length of the encoding.
    pub fn is_value(&self, value: &Value) -> bool
        ensures { IsTrue result ↔ (v.Table self.now ≡ value.now) }
    {
        match value {
            Value::Table(pairs) => self.has_pairs(pairs.as_slice()),
            _ => false,
        }
    }

    /// Returns whether bytes are the encoding of the table. Takes no memory.
    pub fn has_encoding(&self, bytes: &[u8]) -> bool
        ensures { IsTrue result ↔ (bytes.now ≡ spelling_of (v.Table self.now)) }
    {
        if bytes.len() != self.encoding_len() {
            return false;
        }
        let (header, pairs) = bytes.split_at(HEADER_LENGTH);
        if header != &self.header()[..] {
            return false;
        }
        self.has_encoded_pairs(pairs)
    }

    /// Returns whether the pairs of the table are exactly these, in this order.
    fn has_pairs(&self, pairs: &[(Text, Value)]) -> bool
        ensures { IsTrue result ↔ (self.now ≡ pairs.now) }
    {
        if self.len() != pairs.len() {
            return false;
        }
        let Some(root) = self.root() else {
            return true;
        };
        let before = root.left.len();
        if !root.entry.is_pair(&pairs[before].0, &pairs[before].1) {
            return false;
        }
        if !root.left.has_pairs(&pairs[..before]) {
            return false;
        }
        root.right.has_pairs(&pairs[before + 1..])
    }

    /// Returns whether bytes are the encodings of the pairs, one after the other. The number of
    /// bytes must be that of the encodings.
    fn has_encoded_pairs(&self, bytes: &[u8]) -> bool
        requires { length bytes.now ≡ length (joined (map spelling_of_pair self.now)) }
        ensures { IsTrue result ↔ (bytes.now ≡ joined (map spelling_of_pair self.now)) }
    {
        if let Some(block) = self.block() {
            return bytes == block;
        }
        let Some(root) = self.root() else {
            return true;
        };
        let own = root.entry.bytes();
        let start = root.left.totals().bytes as usize;
        let (before, rest) = bytes.split_at(start);
        let (here, after) = rest.split_at(own.len());
        if here != own {
            return false;
        }
        if !root.left.has_encoded_pairs(before) {
            return false;
        }
        root.right.has_encoded_pairs(after)
    }
}
