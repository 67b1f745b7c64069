//! Look-ups in a table, by key and by index.

ghost use Rattle.std.specs.Prelude.{◌≡◌, option_copied, slice_get, IfSome};
ghost use Rattle.std.specs.Option.{option_map};
ghost use Rattle.ag_value.specs.operations.Tables.{is_there, pair_with};
ghost use Rattle.ag_value.specs.Well.{IsWell};

use crate::entry::Entry;
use crate::tree::TableTree;
use ag_value::Value;
use std::cmp::Ordering;

impl TableTree {
    /// Returns the value of a key, or `None` if the table has no such key. Takes time that grows
    /// with the logarithm of the number of pairs, and with the lengths of the compared keys.
    pub fn get(&self, key: &str) -> Option<&Value>
        ensures value { option_copied result ≡ option_map (λ p. p.1) (pair_with key.now self.now) }
        ensures well { IfSome result (λ value. IsWell value.now) }
    {
        let Some(root) = self.root() else {
            return None;
        };
        match key.cmp(root.entry.key()) {
            Ordering::Less => root.left.get(key),
            Ordering::Equal => Some(root.entry.value()),
            Ordering::Greater => root.right.get(key),
        }
    }

    /// Returns whether the table has a key.
    pub fn has(&self, key: &str) -> bool
        ensures { result ≡ is_there (pair_with key.now self.now) }
    {
        match self.get(key) {
            Some(_) => true,
            None => false,
        }
    }

    /// Returns the pair at an index, counted from 0 in the order of the keys, or `None` if the
    /// table has no more than `index` pairs. Takes time that grows with the logarithm of the number
    /// of pairs.
    pub fn entry_at(&self, index: usize) -> Option<&Entry>
        ensures { option_copied result ≡ slice_get self.now index }
    {
        let Some(root) = self.root() else {
            return None;
        };
        let before = root.left.len();
        if index < before {
            return root.left.entry_at(index);
        }
        if index == before {
            return Some(root.entry.as_ref());
        }
        root.right.entry_at(index - before - 1)
    }
}
