//! A tree of pieces of bytes.

ghost use Rattle.std.specs.Prelude.{◌≡◌, ◌++◌, ◌+◌, ◌<◌, ◌^◌, length, IfOk};
ghost use Rattle.rope.specs.Nodes.{AreBytes};

use std::alloc::{AllocError, Global};
use std::fmt;
use std::marker::Model;
use std::rc::Rc;

/// Bytes with several owners: one piece, or two ropes one after the other. `share` copies no byte,
/// and `join` at most 256.
///
/// The tree is not balanced, and may be deep. So `drop`, `same` and `has_bytes` recurse into the
/// side with fewer bytes, and `copy_part` recurses into the side with fewer bytes to copy. All four
/// loop over the other side. So the depth of recursion is at most the number of bits of the length.
/// `join` recurses at most twice.
#[cycle(rope)]
pub struct Rope {
    pub(crate) node: RopeNode,
}

/// A node of the tree. Each node is the root of a rope.
#[cycle(rope)]
pub(crate) enum RopeNode {
    /// Bytes in one vector.
    Piece(Rc<Vec<u8>>),
    /// Two ropes.
    Joined(Rc<JoinedRopes>),
}

/// Two ropes, both not empty, one after the other.
#[cycle(rope)]
#[derive(Drop)]
pub(crate) struct JoinedRopes {
    pub(crate) left: Rope,
    pub(crate) right: Rope,
    /// The number of bytes of both together.
    pub(crate) len: usize,
}

impl Model for Rope {
    ghost use Rattle.std.specs.Prelude.{List, ℕ, length};

    ghost Value = { List ℕ };

    ghost use Rattle.rope.specs.Nodes.{IsNode, bytes_of};

    ghost view = { λ r. bytes_of r.node };

    ghost invariant = { λ r. IsNode r.node };

    // Each side is shorter than its node, since neither is empty: so a recursion into a side ends.
    ghost size = { length };

    ghost use Rattle.std.proofs.Common.{arith, length-append};

    ghost size_decreases = { λ r h. Prim.grind (arith, length-append) };
}

impl fmt::Debug for Rope {
    /// Prints the number of bytes, and not the bytes.
    fn fmt<W: fmt::Write>(&self, f: &mut fmt::Formatter<W>) -> fmt::Result {
        f.debug_struct("Rope").field("len", &self.len()).finish()
    }
}

impl Drop for Rope {
    /// Drops the shorter side by recursion and the longer one in the loop. A node that has another
    /// owner stays.
    fn drop(mut self) {
        loop {
            let Rope { node } = self;
            let pair = match node {
                RopeNode::Piece(_) => return,
                RopeNode::Joined(pair) => pair,
            };
            let Some(pair) = Rc::into_inner(pair) else {
                return;
            };
            let JoinedRopes { left, right, .. } = pair;
            if left.len() <= right.len() {
                drop(left);
                self = right;
            } else {
                drop(right);
                self = left;
            }
        }
    }
}

impl Rope {
    /// Makes a rope of one piece. Fails with AllocError.
    pub fn from_vec(alloc: Global, bytes: Vec<u8>) -> Result<Rope, AllocError>
        ensures { IfOk result (λ rope. rope ≡ bytes.items) }
    {
        let piece = Rc::new(alloc, bytes)?;
        Ok(Rope {
            node: RopeNode::Piece(piece),
        })
    }

    /// Returns the number of bytes. Takes no memory. Contracts see the bytes as a list of numbers,
    /// and the clause `bytes` says that each of them is below 256.
    pub fn len(&self) -> usize
        ensures len { result ≡ length self.now }
        ensures bytes { AreBytes self.now }
    {
        match &self.node {
            RopeNode::Piece(piece) => piece.len(),
            RopeNode::Joined(pair) => pair.len,
        }
    }

    /// Returns a rope with the same root, which gets one more owner. Takes no memory. Fails with
    /// AllocError if the root has 2^64 - 1 owners.
    pub fn share(&self) -> Result<Rope, AllocError>
        ensures { IfOk result (λ rope. rope ≡ self.now) }
    {
        let node = match &self.node {
            RopeNode::Piece(piece) => RopeNode::Piece(piece.clone()?),
            RopeNode::Joined(pair) => RopeNode::Joined(pair.clone()?),
        };
        Ok(Rope { node })
    }

    /// Returns two ropes, one after the other, as a node with two sides. If one rope is empty,
    /// returns the other rope alone. The sum of their lengths must be below 2^64. Fails with
    /// AllocError.
    pub(crate) fn pair(alloc: Global, left: Rope, right: Rope) -> Result<Rope, AllocError>
        requires { length left + length right < 2 ^ 64 }
        ensures { IfOk result (λ rope. rope ≡ left ++ right) }
    {
        if left.len() == 0 {
            return Ok(right);
        }
        if right.len() == 0 {
            return Ok(left);
        }
        let len = left.len() + right.len();
        let pair = Rc::new(alloc, JoinedRopes { left, right, len })?;
        Ok(Rope {
            node: RopeNode::Joined(pair),
        })
    }
}
