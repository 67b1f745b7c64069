//! Tests of deep ropes, since no clause bounds the depth of recursion, of ropes with different
//! shapes, and of a text that grows at both ends.

use crate::checking::check_equal;
use rope::Rope;
use std::alloc::{AllocError, Global};
use std::test::Fail;

/// The number of bytes of a piece. Two such pieces have more than 256 bytes together, so
/// `Rope::join` makes a node of them and not one piece.
const PIECE: usize = 129;

/// The number of nodes of a deep rope that have two sides; at least one of the sides is one piece.
/// A recursion over all of them would need more than the usual 8 megabytes of stack.
const DEEP: u32 = 100_000;

/// Returns the byte of the piece with this number in the texts of these tests.
fn byte_at(number: u32) -> u8 {
    (number % 251) as u8
}

/// Returns a rope of one piece with these bytes.
fn piece(alloc: Global, bytes: &[u8]) -> Result<Rope, AllocError> {
    Rope::from_vec(alloc, bytes.to_vec(alloc)?)
}

/// Joins two ropes. Fails with AllocError, also if one of them has more than 100,000,000 bytes: so
/// their lengths together are below 2^64, as `Rope::join` requires.
fn join(alloc: Global, left: Rope, right: Rope) -> Result<Rope, AllocError> {
    if left.len() > 100_000_000 || right.len() > 100_000_000 {
        return Err(AllocError);
    }
    Rope::join(alloc, left, right)
}

/// Returns the text of `nodes` + 1 pieces as a rope of which each right side is one piece.
fn grown_at_end(alloc: Global, nodes: u32) -> Result<Rope, AllocError> {
    let mut rope = piece(alloc, &[byte_at(0); PIECE])?;
    for count in 0..nodes {
        let last = piece(alloc, &[byte_at(count.saturating_add(1)); PIECE])?;
        rope = join(alloc, rope, last)?;
    }
    Ok(rope)
}

/// Returns the text of `nodes` + 1 pieces as a rope of which each left side is one piece.
fn grown_at_start(alloc: Global, nodes: u32) -> Result<Rope, AllocError> {
    let mut rope = piece(alloc, &[byte_at(nodes); PIECE])?;
    for number in (0..nodes).rev() {
        let first = piece(alloc, &[byte_at(number); PIECE])?;
        rope = join(alloc, first, rope)?;
    }
    Ok(rope)
}

/// Returns the bytes of a rope.
fn bytes_of(alloc: Global, rope: &Rope) -> Result<Vec<u8>, AllocError> {
    let mut bytes = Vec::new(alloc);
    rope.append_to(&mut bytes)?;
    Ok(bytes)
}

/// Copies, compares, shares and drops deep ropes.
#[test]
fn deep_ropes(rt: HostRuntime) -> Result<(), Fail> {
    let end = grown_at_end(rt.alloc(), DEEP)?;
    let start = grown_at_start(rt.alloc(), DEEP)?;
    let bytes = bytes_of(rt.alloc(), &end)?;
    // `byte_at(100_000)`
    check_equal(
        &rt,
        "number of bytes, and the last one",
        (bytes.len(), bytes.last().copied()),
        (12_900_129, Some(102)),
    );
    assert!(rt; start.has_bytes(bytes.as_slice()));
    // with one shape, so `same` visits both ropes piece by piece
    let again = grown_at_end(rt.alloc(), DEEP)?;
    assert!(rt; end.same(&again));
    let shared = end.share()?;
    drop(end);
    assert!(rt; shared.same(&again));
    Ok(())
}

/// Compares ropes with one text and different shapes, which `same` compares in blocks, and with a
/// longer text, which differs in its length.
#[test]
fn ropes_of_different_shapes(rt: HostRuntime) -> Result<(), Fail> {
    let end = grown_at_end(rt.alloc(), 2_000)?;
    let start = grown_at_start(rt.alloc(), 2_000)?;
    assert!(rt; end.same(&start));
    let longer = join(rt.alloc(), end, piece(rt.alloc(), b"-")?)?;
    assert!(rt; !longer.same(&start));
    Ok(())
}

/// Joins single bytes to both ends of a text.
#[test]
fn text_that_grows_at_both_ends(rt: HostRuntime) -> Result<(), Fail> {
    let mut rope = piece(rt.alloc(), b"-")?;
    for count in 0..1_000 {
        rope = join(rt.alloc(), piece(rt.alloc(), &[byte_at(count)])?, rope)?;
        rope = join(rt.alloc(), rope, piece(rt.alloc(), &[byte_at(count)])?)?;
    }
    let bytes = bytes_of(rt.alloc(), &rope)?;
    check_equal(&rt, "number of bytes", bytes.len(), 2_001);
    // 246 is `byte_at(999)`, the byte that was added last at both ends
    let ends = (bytes.first().copied(), bytes.last().copied());
    check_equal(&rt, "first and last byte", ends, (Some(246), Some(246)));
    check_equal(
        &rt,
        "byte in the middle",
        bytes.get(1_000).copied(),
        Some(b'-'),
    );
    Ok(())
}
