//! Comparison of ropes with ropes and with slices.

ghost use Rattle.std.specs.Prelude.{◌≡◌, ◌↔◌, ◌+◌, ◌≤◌, drop, length, take, IsTrue};

use crate::rope::{Rope, RopeNode};

/// The greatest number of bytes of a block. Two nodes with two sides are compared block by block if
/// their left sides have different lengths.
const BLOCK: usize = 1024;

impl Rope {
    /// Returns whether two ropes have the same bytes. Takes no memory. As long as both ropes have
    /// two sides, and their left sides have the same length, compares the shorter sides by
    /// recursion, and goes on with the longer sides. Calls `same_by_blocks` for the rest.
    #[tactic(auto, using(crate::proofs::Sides::sides))]
    pub fn same(&self, other: &Rope) -> bool
        ensures { IsTrue result ↔ (self.now ≡ other.now) }
    {
        if self.len() != other.len() {
            return false;
        }
        let mut one = self;
        let mut another = other;
        while let (RopeNode::Joined(pair), RopeNode::Joined(other_pair)) = (
            &one.node,
            &another.node,
        ) {
            let pair = pair.as_ref();
            let other_pair = other_pair.as_ref();
            let (left, right) = (&pair.left, &pair.right);
            let (other_left, other_right) = (&other_pair.left, &other_pair.right);
            if left.len() != other_left.len() {
                break;
            }
            if left.len() <= right.len() {
                if !left.same(other_left) {
                    return false;
                }
                one = right;
                another = other_right;
            } else {
                if !right.same(other_right) {
                    return false;
                }
                one = left;
                another = other_left;
            }
        }
        same_by_blocks(one, another)
    }

    /// Returns whether the rope has the bytes `bytes`. Takes no memory. Compares the shorter side
    /// by recursion and the longer side in the loop.
    #[tactic(auto, using(crate::proofs::Sides::sides))]
    pub fn has_bytes(&self, bytes: &[u8]) -> bool
        ensures { IsTrue result ↔ (self.now ≡ bytes.now) }
    {
        if self.len() != bytes.len() {
            return false;
        }
        let mut rope = self;
        let mut rest = bytes;
        while let RopeNode::Joined(pair) = &rope.node {
            let pair = pair.as_ref();
            let (left, right) = (&pair.left, &pair.right);
            let (prefix, suffix) = rest.split_at(left.len());
            if left.len() <= right.len() {
                if !left.has_bytes(prefix) {
                    return false;
                }
                rope = right;
                rest = suffix;
            } else {
                if !right.has_bytes(suffix) {
                    return false;
                }
                rope = left;
                rest = prefix;
            }
        }
        let RopeNode::Piece(piece) = &rope.node else {
            unreachable!()
        };
        piece.as_slice() == rest
    }
}

/// Returns whether two ropes of the same length have the same bytes. If one rope is a single piece,
/// compares it with the pieces of the other one. Otherwise compares copies of both, block by block.
fn same_by_blocks(one: &Rope, another: &Rope) -> bool
    requires { length one.now ≡ length another.now }
    ensures { IsTrue result ↔ (one.now ≡ another.now) }
{
    if let RopeNode::Piece(piece) = &one.node {
        return another.has_bytes(piece.as_slice());
    }
    if let RopeNode::Piece(piece) = &another.node {
        return one.has_bytes(piece.as_slice());
    }
    let len = one.len();
    let mut at = 0;
    while at < len {
        let count = (len - at).min(BLOCK);
        if !same_block(one, another, at, count) {
            return false;
        }
        at += count;
    }
    true
}

/// Returns whether two ropes have the same `count` bytes from index `at` on. `count` must be at
/// most `BLOCK`, and both ropes must have `count` bytes from that index on.
fn same_block(one: &Rope, another: &Rope, at: usize, count: usize) -> bool
    requires block { count ≤ 1024 }
    requires one { at + count ≤ length one.now }
    requires another { at + count ≤ length another.now }
    ensures { IsTrue result ↔ (take count (drop at one.now) ≡ take count (drop at another.now)) }
{
    let mut block = [0; BLOCK];
    let mut other_block = [0; BLOCK];
    let part = &mut block[..count];
    one.copy_part(at, part);
    let other_part = &mut other_block[..count];
    another.copy_part(at, other_part);
    block[..count] == other_block[..count]
}
