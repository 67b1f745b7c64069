//! The comparison of two tables.

ghost use Rattle.std.specs.Prelude.{◌≡◌, ◌↔◌, ◌+◌, ◌<◌, ◌≤◌, ◌^◌, drop, length, take, IfSome, IsTrue};

use crate::tree::TableTree;

impl TableTree {
    /// Returns whether two tables are equal. Takes no memory. If the trees have the same shape,
    /// takes time that is linear in the length of the encoding. Otherwise takes more time: for each
    /// pair at most that of a call of `entry_at`.
    pub fn same(&self, other: &TableTree) -> bool
        ensures { IsTrue result ↔ (self.now ≡ other.now) }
    {
        if self.len() != other.len() {
            return false;
        }
        if let Some(same) = self.same_block(other) {
            return same;
        }
        let (Some(root), Some(other_root)) = (self.root(), other.root()) else {
            // both tables are empty, since they have the same number of pairs
            return true;
        };
        if root.left.len() != other_root.left.len() {
            return self.is_part(other, 0);
        }
        if !root.entry.same(other_root.entry) {
            return false;
        }
        if !root.left.same(other_root.left) {
            return false;
        }
        root.right.same(other_root.right)
    }

    /// Returns whether two tables with the same number of pairs are equal. Returns `None` if one of
    /// them has no block.
    fn same_block(&self, other: &TableTree) -> Option<bool>
        requires { length self.now ≡ length other.now }
        ensures { IfSome result (λ same. IsTrue same ↔ (self.now ≡ other.now)) }
    {
        let (Some(one), Some(another)) = (self.block(), other.block()) else {
            return None;
        };
        Some(one == another)
    }

    /// Returns whether the pairs of `other` from `index` on begin with the pairs of this table. By
    /// the clause `small`, the indexes of these pairs can't overflow.
    fn is_part(&self, other: &TableTree, index: usize) -> bool
        requires within { index + length self.now ≤ length other.now }
        requires small { length other.now < 2 ^ 64 }
        ensures { IsTrue result ↔ (self.now ≡ take (length self.now) (drop index other.now)) }
    {
        let Some(root) = self.root() else {
            return true;
        };
        let middle = index + root.left.len();
        let Some(entry) = other.entry_at(middle) else {
            unreachable!()
        };
        if !root.entry.same(entry) {
            return false;
        }
        if !root.left.is_part(other, index) {
            return false;
        }
        root.right.is_part(other, middle + 1)
    }
}
