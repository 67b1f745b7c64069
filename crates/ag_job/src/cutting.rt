//! Finds the first line that is exactly `%%`.

ghost use Rattle.std.specs.Prelude.{ℕ, List, ◌≡◌, ◌≤◌, ◌<◌, ◌↔◌, ◌++◌, IfNone, IfSome, IsTrue};
ghost use Rattle.std.specs.Prelude.{length, take, drop};
ghost use Rattle.ag_job.specs.Jobs.{AreParts, AreWholeLines, HasNoSeparator, IsCut, IsSeparator};

/// Offsets in bytes at which a job is split.
#[derive(Clone, Copy, Drop)]
pub(crate) struct Cut {
    /// The end of the grammar's text, which begins at offset 0. The line `%%` begins here.
    pub text: usize,
    /// The beginning of the sentence, after the line `%%`.
    pub sentence: usize,
}

/// Returns the offsets at which the first line `%%` splits the bytes, or `None` if no line is
/// exactly `%%`.
pub(crate) fn cut_of(bytes: &[u8]) -> Option<Cut>
    ensures text { IfSome result (λ cut. cut.text ≤ length bytes.now) }
    ensures sentence { IfSome result (λ cut. cut.sentence ≤ length bytes.now) }
    ensures parts { IfSome result
        (λ cut. AreParts bytes.now (take cut.text bytes.now) (drop cut.sentence bytes.now)) }
    ensures none { IfNone result (HasNoSeparator bytes.now) }
{
    for at in 0..bytes.len() {
        if let Some(cut) = cut_at(bytes, at) {
            return Some(cut);
        }
    }
    None
}

/// Returns the offsets at which a line `%%` that begins at `at` splits the bytes, or `None` if none
/// begins there.
fn cut_at(bytes: &[u8], at: usize) -> Option<Cut>
    requires { at < length bytes.now }
    ensures text { IfSome result (λ cut. cut.text ≡ at) }
    ensures sentence { IfSome result (λ cut. cut.sentence ≤ length bytes.now) }
    ensures cut { IfSome result
        (λ cut. IsCut bytes.now (take at bytes.now) (drop cut.sentence bytes.now)) }
    ensures none { IfNone result ((text sentence : List ℕ) → length text ≡ at
        → IsCut bytes.now text sentence → ⊥) }
{
    if !begins_a_line(bytes, at) {
        return None;
    }
    let length = separator_length(&bytes[at..])?;
    Some(Cut {
        text: at,
        sentence: at + length,
    })
}

/// Returns whether a line begins at offset `at`: whether `at` is 0, or the byte before it is an LF.
fn begins_a_line(bytes: &[u8], at: usize) -> bool
    requires { at ≤ length bytes.now }
    ensures { IsTrue result ↔ AreWholeLines (take at bytes.now) }
{
    at == 0 || bytes[at - 1] == b'\n'
}

/// Returns the length in bytes of a line `%%` at the beginning of the bytes, or `None` if they
/// don't begin with such a line. The length includes the line's end: an LF, or a CR and an LF. If
/// no byte comes after `%%`, the line has no end.
fn separator_length(bytes: &[u8]) -> Option<usize>
    ensures within { IfSome result (λ n. n ≤ length bytes.now) }
    ensures separator { IfSome result
        (λ n. IsSeparator (take n bytes.now) (drop n bytes.now)) }
    ensures none { IfNone result ((separator rest : List ℕ) → IsSeparator separator rest
        → bytes.now ≡ separator ++ rest → ⊥) }
{
    if bytes.starts_with(b"%%\n") {
        return Some(3);
    }
    if bytes.starts_with(b"%%\r\n") {
        return Some(4);
    }
    if bytes == b"%%".as_slice() {
        return Some(2);
    }
    None
}
