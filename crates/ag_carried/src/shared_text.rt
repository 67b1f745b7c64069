//! Texts that are joined without a copy of their bytes.

ghost use Rattle.std.specs.Prelude.{◌≡◌, ◌++◌, ◌↔◌, ◌+◌, ◌<◌, ◌≤◌, drop, length, slice_index, take};
ghost use Rattle.std.specs.Prelude.{IfNone, IfOk, IfSome, IsTrue, OnErr, OnOk, ℕ};
ghost use Rattle.ag_value.specs.Measure.{max_weight, weight_of};
ghost use Rattle.ag_value.specs.Spelling.{spelling_of};
ghost use Rattle.ag_value.specs.Well.{IsWell};
ghost use Rattle.ag_value.specs.declared.value.Value.{Text as TextValue};
ghost use Rattle.ag_carried.specs.Prefixes.{IsPrefix};

use crate::encoded::byte_count;
use ag_value::{MAX_WEIGHT, NoMemory, Text, Value};
use rope::Rope;
use std::alloc::{AllocError, Global};
use std::marker::Model;

/// The greatest length in bytes of a flat text (one string) that the operator `++` of expressions
/// makes. `++` makes a longer text as a `SharedText`. `ag_eval` keeps to this limit; no contract
/// says so.
pub const MAX_FLAT_TEXT: usize = 256;

/// The number of bytes before those of a text in its encoding: one for the kind of a text, and four
/// for its length.
const HEADER_LENGTH: usize = 5;

/// The greatest length in bytes of a text within the limits.
const MAX_LENGTH: usize = MAX_WEIGHT as usize - HEADER_LENGTH;

/// A well text that may have several owners, and whose pieces other texts may share. Contracts see
/// the bytes.
#[derive(Drop)]
pub struct SharedText {
    rope: Rope,
}

impl Model for SharedText {
    ghost use Rattle.std.specs.Prelude.{List, ℕ};
    ghost use Rattle.ag_carried.specs.SharedText.{IsTextWithinLimits};

    ghost Value = { List ℕ };

    ghost view = { λ t. t.rope };

    ghost invariant = { λ t. IsTextWithinLimits t.rope };
}

impl SharedText {
    /// Makes a shared text of one piece from a well text. The bytes of a text of more than 16 bytes
    /// are moved and not copied. Fails with NoMemory.
    pub fn new(alloc: Global, text: Text) -> Result<SharedText, NoMemory>
        requires { IsWell (TextValue text) }
        ensures { IfOk result (λ shared. shared ≡ text) }
    {
        let string = text.into_string(alloc)?;
        let rope = Rope::from_vec(alloc, string.into_bytes())?;
        Ok(SharedText { rope })
    }

    /// Returns the number of bytes. Takes no memory.
    pub fn len(&self) -> usize
        ensures len { result ≡ length self.now }
        ensures limit { 5 + result ≤ max_weight }
        ensures well { IsWell (TextValue self.now) }
    {
        self.rope.len()
    }

    /// Returns the text for one more owner. Takes no memory. Fails with NoMemory if the text has
    /// 2^64 - 1 owners.
    pub fn share(&self) -> Result<SharedText, NoMemory>
        ensures { IfOk result (λ shared. shared ≡ self.now) }
    {
        let rope = self.rope.share()?;
        Ok(SharedText { rope })
    }

    /// Returns the text of `left` and then `right`, or `None` if its weight would exceed
    /// `MAX_WEIGHT`. Takes constant time. If a piece of `left` and one of `right` become one piece,
    /// their bytes are copied, at most 256. Fails with NoMemory.
    pub fn join(
        alloc: Global,
        left: SharedText,
        right: SharedText,
    ) -> Result<Option<SharedText>, NoMemory>
        ensures some { IfOk result (λ joined. IfSome joined (λ text. (text ≡ left ++ right)
            × (weight_of (TextValue (left ++ right)) ≤ max_weight))) }
        ensures none { IfOk result (λ joined. IfNone joined
            (max_weight < weight_of (TextValue (left ++ right)))) }
    {
        if left.len() + right.len() > MAX_LENGTH {
            return Ok(None);
        }
        let SharedText { rope: left } = left;
        let SharedText { rope: right } = right;
        let rope = Rope::join(alloc, left, right)?;
        Ok(Some(SharedText { rope }))
    }

    /// Returns a flat copy of the text. Fails with NoMemory.
    pub fn to_text(&self, alloc: Global) -> Result<Text, NoMemory>
        ensures { IfOk result (λ text. text ≡ self.now) }
    {
        let mut bytes = Vec::with_capacity(alloc, self.len())?;
        self.rope.append_to(&mut bytes)?;
        let Ok(string) = String::from_utf8(bytes) else {
            unreachable!()
        };
        Ok(Text::from_string(string))
    }

    /// Returns whether two texts are equal. Takes no memory.
    pub fn same(&self, other: &SharedText) -> bool
        ensures { IsTrue result ↔ (self.now ≡ other.now) }
    {
        self.rope.same(&other.rope)
    }

    /// Returns whether a value is this text. Takes no memory.
    pub(crate) fn is_value(&self, value: &Value) -> bool
        ensures { IsTrue result ↔ (TextValue self.now ≡ value.now) }
    {
        match value {
            Value::Text(text) => self.rope.has_bytes(text.as_str().as_bytes()),
            _ => false,
        }
    }

    /// Returns the bytes of the encoding that come before those of the text: a 1, with which each
    /// encoding of a text begins, and the number of the text's bytes in four bytes, big-endian.
    #[tactic(auto, using(crate::proofs::Texts::header_is))]
    fn header(&self) -> [u8; HEADER_LENGTH]
        ensures { spelling_of (TextValue self.now) ≡ result ++ self.now }
    {
        let len = (self.len() as u32).to_be_bytes();
        [1, len[0], len[1], len[2], len[3]]
    }

    /// Returns the length of the encoding in bytes.
    pub(crate) fn encoding_len(&self) -> usize
        ensures len { result ≡ length (spelling_of (TextValue self.now)) }
        ensures bytes { (i : ℕ) → slice_index (spelling_of (TextValue self.now)) i < 256 }
    {
        let header = self.header();
        byte_count(&header) + self.rope.len()
    }

    /// Fills `out` with the bytes of the encoding from offset `from` on (in bytes, from 0). `from`
    /// plus the length of `out` must not exceed the length of the encoding. Takes no memory.
    pub(crate) fn copy_encoding(&self, from: usize, out: &mut [u8])
        requires { from + length out.old ≤ length (spelling_of (TextValue self.now)) }
        ensures { out.new ≡ take (length out.old) (drop from (spelling_of (TextValue self.now))) }
    {
        let header = self.header();
        if from >= HEADER_LENGTH {
            self.rope.copy_part(from - HEADER_LENGTH, out);
            return;
        }
        let count = (HEADER_LENGTH - from).min(out.len());
        let (first, rest) = out.split_at_mut(count);
        first.copy_from_slice(&header[from..from + count]);
        self.rope.copy_part(0, rest);
    }

    /// Appends the encoding to a vector. Fails with AllocError; the vector is then unchanged.
    pub(crate) fn append_encoding(&self, out: &mut Vec<u8>) -> Result<(), AllocError>
        ensures ok { OnOk result (out.new.items ≡ out.old.items ++ spelling_of (TextValue self.now)) }
        ensures err { OnErr result (out.new.items ≡ out.old.items) }
    {
        let start = out.len();
        out.extend_from_slice(&self.header())?;
        let Ok(()) = self.rope.append_to(out) else {
            out.truncate(start);
            return Err(AllocError);
        };
        Ok(())
    }

    /// Returns the length in bytes of the encoding, if the input begins with this encoding, and
    /// otherwise `None`. Takes no memory.
    pub(crate) fn prefix_of(&self, input: &[u8]) -> Option<usize>
        ensures { IfSome result (IsPrefix (TextValue self.now) input.now) }
    {
        let header = self.header();
        let len = HEADER_LENGTH + self.len();
        if input.len() < len {
            return None;
        }
        let (prefix, text) = input[..len].split_at(HEADER_LENGTH);
        if prefix == &header[..] && self.rope.has_bytes(text) {
            return Some(len);
        }
        None
    }
}

/// Returns the bytes that come before those of the text in its encoding, as `SharedText::header`
/// does for a shared text. The text must have at most `MAX_FLAT_TEXT` (256) bytes.
#[tactic(auto, using(crate::proofs::Texts::header_is))]
fn header_of(text: &str) -> [u8; HEADER_LENGTH]
    requires { length text.now ≤ 256 }
    ensures { spelling_of (TextValue text.now) ≡ result ++ text.now }
{
    let len = (text.len() as u32).to_be_bytes();
    [1, len[0], len[1], len[2], len[3]]
}

/// Returns whether a text has at most `MAX_FLAT_TEXT` bytes. Such a text is well, since a `str` is
/// UTF-8 and the weight is within the limit.
fn is_flat(text: &str) -> bool
    ensures len { IsTrue result → length text.now ≤ 256 }
    ensures well { IsTrue result → IsWell (TextValue text.now) }
{
    text.len() <= MAX_FLAT_TEXT
}

/// Returns whether the input begins with the encoding of `text`, which must have at most
/// `MAX_FLAT_TEXT` bytes.
fn begins_with(input: &[u8], text: &str) -> bool
    requires { length text.now ≤ 256 }
    ensures within { IsTrue result → 5 + length text.now ≤ length input.now }
    ensures prefix { IsTrue result
        → take (5 + length text.now) input.now ≡ spelling_of (TextValue text.now) }
{
    let header = header_of(text);
    let len = HEADER_LENGTH + text.len();
    if input.len() < len {
        return false;
    }
    let (prefix, rest) = input[..len].split_at(HEADER_LENGTH);
    prefix == &header[..] && rest == text.as_bytes()
}

/// Returns the length in bytes of the encoding of a text, if the text has at most `MAX_FLAT_TEXT`
/// bytes and the input begins with its encoding, and otherwise `None`. Takes no memory.
pub(crate) fn prefix_of_text(text: &str, input: &[u8]) -> Option<usize>
    ensures { IfSome result (IsPrefix (TextValue text.now) input.now) }
{
    if is_flat(text) && begins_with(input, text) {
        return Some(HEADER_LENGTH + text.len());
    }
    None
}
