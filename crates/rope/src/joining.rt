//! Joining two ropes.

ghost use Rattle.std.specs.Prelude.{◌≡◌, ◌++◌, ◌+◌, ◌<◌, ◌^◌, length, IfOk, IfSome};

use crate::rope::{Rope, RopeNode};
use std::alloc::{AllocError, Global};

/// The greatest length in bytes of a piece that `join` makes of two.
const MAX_PIECE: usize = 256;

/// The greatest depth in a rope, counted from 0 at the root, of a piece to which `join` adds bytes.
/// In a text that grows at both ends in turn, the piece at one end has depth 1, and that at the
/// other end depth 2.
const MAX_LEVELS: u32 = 2;

impl Rope {
    /// Joins two ropes in constant time. The sum of their lengths must be below 2^64. If one rope
    /// is a single piece, copies this piece and the adjacent piece of the other rope into one new
    /// piece. Two conditions have to hold for that: the adjacent piece is at most two nodes below
    /// the root of its rope, and the two pieces have at most 256 bytes together. Fails with
    /// AllocError.
    pub fn join(alloc: Global, left: Rope, right: Rope) -> Result<Rope, AllocError>
        requires { length left + length right < 2 ^ 64 }
        ensures { IfOk result (λ rope. rope ≡ left ++ right) }
    {
        if let RopeNode::Piece(piece) = &left.node {
            if let Some(joined) = extend_first(alloc, piece.as_slice(), &right, MAX_LEVELS)? {
                return Ok(joined);
            }
        }
        if let RopeNode::Piece(piece) = &right.node {
            if let Some(joined) = extend_last(alloc, &left, piece.as_slice(), MAX_LEVELS)? {
                return Ok(joined);
            }
        }
        Rope::pair(alloc, left, right)
    }
}

/// Returns a rope that is `rope` with `bytes` added at the beginning of its first piece. Returns
/// `None` if the first piece is more than `levels` nodes below the root, or if it would have more
/// than `MAX_PIECE` bytes. `rope` may have other owners, so `rope` stays as it is: the result has a
/// new first piece with new nodes above it, and shares all other pieces with `rope`. Fails with
/// AllocError.
fn extend_first(
    alloc: Global,
    bytes: &[u8],
    rope: &Rope,
    levels: u32,
) -> Result<Option<Rope>, AllocError>
    requires { length bytes.now + length rope.now < 2 ^ 64 }
    ensures { IfOk result (λ found. IfSome found (λ joined. joined ≡ bytes.now ++ rope.now)) }
{
    match &rope.node {
        RopeNode::Piece(piece) => joined_piece(alloc, bytes, piece.as_slice()),
        RopeNode::Joined(pair) => {
            if levels == 0 {
                return Ok(None);
            }
            let pair = pair.as_ref();
            let Some(left) = extend_first(alloc, bytes, &pair.left, levels - 1)? else {
                return Ok(None);
            };
            Ok(Some(Rope::pair(alloc, left, pair.right.share()?)?))
        }
    }
}

/// Returns a rope that is `rope` with `bytes` added at the end of its last piece. Returns `None` if
/// the last piece is more than `levels` nodes below the root, or if it would have more than
/// `MAX_PIECE` bytes. As with `extend_first`, `rope` stays as it is, and the result shares all
/// other pieces with `rope`. Fails with AllocError.
fn extend_last(
    alloc: Global,
    rope: &Rope,
    bytes: &[u8],
    levels: u32,
) -> Result<Option<Rope>, AllocError>
    requires { length rope.now + length bytes.now < 2 ^ 64 }
    ensures { IfOk result (λ found. IfSome found (λ joined. joined ≡ rope.now ++ bytes.now)) }
{
    match &rope.node {
        RopeNode::Piece(piece) => joined_piece(alloc, piece.as_slice(), bytes),
        RopeNode::Joined(pair) => {
            if levels == 0 {
                return Ok(None);
            }
            let pair = pair.as_ref();
            let Some(right) = extend_last(alloc, &pair.right, bytes, levels - 1)? else {
                return Ok(None);
            };
            Ok(Some(Rope::pair(alloc, pair.left.share()?, right)?))
        }
    }
}

/// Returns two parts as a rope of one piece, or `None` if they have more than `MAX_PIECE` bytes
/// together. Fails with AllocError.
fn joined_piece(alloc: Global, first: &[u8], second: &[u8]) -> Result<Option<Rope>, AllocError>
    ensures { IfOk result (λ found. IfSome found (λ joined. joined ≡ first.now ++ second.now)) }
{
    if first.len() > MAX_PIECE || second.len() > MAX_PIECE - first.len() {
        return Ok(None);
    }
    let mut piece = Vec::with_capacity(alloc, first.len() + second.len())?;
    piece.extend_from_slice(first)?;
    piece.extend_from_slice(second)?;
    Ok(Some(Rope::from_vec(alloc, piece)?))
}
