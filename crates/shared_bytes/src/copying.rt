//! Copying of bytes into a slice, piece by piece.

ghost use Rattle.std.specs.Prelude.{◌≡◌, ◌++◌, ◌+◌, ◌-◌, ◌<◌, ◌≤◌, ◌^◌, ℕ, List, drop, length};
ghost use Rattle.std.specs.Prelude.{min, None, IfSome};
ghost use Rattle.shared_bytes.specs.Reads.{HasRead};

use ag_carried::Encoded;

/// Finds the bytes of a piece of a body that are to be copied to a slice next. Returns the index in
/// the piece of the first one, and their number. Returns `None` if the slice is full, or if the
/// next byte is not in the piece.
///
/// The piece is a run of own bytes or an encoding. `place` is its offset in the body, and `len` its
/// number of bytes. The slice has `size` bytes. It is to hold the bytes of the body from offset
/// `at` on, and has the first `done` of them.
fn next_part(place: u64, len: usize, at: u64, done: usize, size: usize) -> Option<(usize, usize)>
    requires within { done ≤ size }
    requires room { at + size < 2 ^ 64 }
    ensures here { IfSome result (λ part. at + done ≡ place + part.0) }
    ensures there { IfSome result (λ part. part.0 ≤ len) }
    ensures count { IfSome result (λ part. part.1 ≡ min (len - part.0) (size - done)) }
    ensures none { result ≡ None → done < size → place ≤ at + done → place + len ≤ at + done }
{
    let here = at + done as u64;
    if done == size || here < place {
        return None;
    }
    let skip = here - place;
    if len as u64 <= skip {
        return None;
    }
    let skip = skip as usize;
    Some((skip, (len - skip).min(size - done)))
}

/// Copies the next bytes that `out` is to hold from a piece of a body, if the piece has them. The
/// piece begins at offset `place` of the body. `out` is to hold the bytes from offset `at` on, and
/// has the first `done` of them. Returns the number of bytes that `out` then has. In the clause
/// `read`, `content` is the list of all bytes of the body, and `rest` those after the piece.
pub(crate) fn copy_own(piece: &[u8], place: u64, at: u64, done: usize, out: &mut [u8]) -> usize
    requires within { done ≤ length out.old }
    requires room { at + length out.old < 2 ^ 64 }
    ensures within { result ≤ length out.old }
    ensures read { (content rest : List ℕ) → drop place content ≡ piece.now ++ rest
        → HasRead place at done content out.old
        → HasRead (place + length piece.now) at result content out.new }
{
    let Some((skip, count)) = next_part(place, piece.len(), at, done, out.len()) else {
        return done;
    };
    out[done..done + count].copy_from_slice(&piece[skip..skip + count]);
    done + count
}

/// Copies bytes of an encoding into `out`, as `copy_own` does those of a piece of own bytes.
pub(crate) fn copy_shared(
    piece: &Encoded,
    place: u64,
    at: u64,
    done: usize,
    out: &mut [u8],
) -> usize
    requires within { done ≤ length out.old }
    requires room { at + length out.old < 2 ^ 64 }
    ensures within { result ≤ length out.old }
    ensures read { (content rest : List ℕ) → drop place content ≡ piece.now ++ rest
        → HasRead place at done content out.old
        → HasRead (place + length piece.now) at result content out.new }
{
    let Some((skip, count)) = next_part(place, piece.len(), at, done, out.len()) else {
        return done;
    };
    piece.copy_part(skip, &mut out[done..done + count]);
    done + count
}
