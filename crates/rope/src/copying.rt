//! Copies of the bytes of a rope.

ghost use Rattle.std.specs.Prelude.{◌≡◌, ◌++◌, ◌+◌, ◌≤◌, drop, length, take, OnErr, OnOk};

use crate::rope::{Rope, RopeNode};
use std::alloc::AllocError;

impl Rope {
    /// Fills a slice of the rope's length with the rope's bytes. Takes no memory.
    pub fn copy_to(&self, out: &mut [u8])
        requires { length out.old ≡ length self.now }
        ensures { out.new ≡ self.now }
    {
        self.copy_part(0, out);
    }

    /// Fills `out` with the bytes from index `from` on. `from` plus the length of `out` must not
    /// exceed the length of the rope. Takes no memory. Copies the side with fewer bytes to copy by
    /// recursion and the other side in the loop.
    pub fn copy_part(&self, from: usize, out: &mut [u8])
        requires { from + length out.old ≤ length self.now }
        ensures { out.new ≡ take (length out.old) (drop from self.now) }
    {
        let mut rope = self;
        let mut from = from;
        let mut at = 0;
        let mut end = out.len();
        // Still to be filled: `out[at..end]`, with the bytes of `rope` from index `from` on.
        while let RopeNode::Joined(pair) = &rope.node {
            let pair = pair.as_ref();
            let (left, right) = (&pair.left, &pair.right);
            let len = left.len();
            if len <= from {
                from -= len;
                rope = right;
                continue;
            }
            if end - at <= len - from {
                rope = left;
                continue;
            }
            let middle = at + (len - from);
            if middle - at <= end - middle {
                left.copy_part(from, &mut out[at..middle]);
                at = middle;
                from = 0;
                rope = right;
            } else {
                right.copy_part(0, &mut out[middle..end]);
                end = middle;
                rope = left;
            }
        }
        let RopeNode::Piece(piece) = &rope.node else {
            unreachable!()
        };
        let last = from + (end - at);
        out[at..end].copy_from_slice(&piece.as_slice()[from..last]);
    }

    /// Appends a copy of the bytes to a vector. Fails with AllocError if memory is refused, or if
    /// the vector would have 2^64 bytes or more. The bytes of the vector are then unchanged.
    pub fn append_to(&self, out: &mut Vec<u8>) -> Result<(), AllocError>
        ensures ok { OnOk result (out.new.items ≡ out.old.items ++ self.now) }
        ensures err { OnErr result (out.new.items ≡ out.old.items) }
    {
        if let RopeNode::Piece(piece) = &self.node {
            return out.extend_from_slice(piece.as_slice());
        }
        let start = out.len();
        let Some(end) = start.checked_add(self.len()) else {
            return Err(AllocError);
        };
        out.resize(end, 0)?;
        self.copy_to(&mut out[start..]);
        Ok(())
    }
}
