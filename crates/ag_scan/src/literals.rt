//! The literals of a grammar, sorted by their texts, and the search for the longest one at the
//! beginning of a text. The order of texts is by bytes, and a prefix comes first.

ghost use Rattle.std.specs.Prelude.{◌≡◌, ◌≤◌, length, slice_get, Some, IfNone, IfOk, IfSome};
ghost use Rattle.std.specs.Prelude.{MatchBool, MatchOption};
ghost use Rattle.ag_grammar.specs.grammars.Accepted.{max_literals};
ghost use Rattle.ag_scan.specs.Table.{AreLinked, AreLiterals, AreOrdered, AreCovered, AreNotAfter};
ghost use Rattle.ag_scan.specs.Table.{IsLastPrefixIfAny, HasNoPrefix, IsPrefix, IsLongestPrefix, IsTable};
ghost use Rattle.ag_scan.specs.Table.{NoPrefix, after_last};
ghost use Rattle.ag_scan.specs.Words.{HasNoEmpty};

use crate::starts::{StartingLiterals, first_byte, starts_of};
use ag_value::{NoMemory, Text};
use std::alloc::Global;
use std::marker::Model;

/// An entry of the table of literals: the text of a literal, and its number in the grammar.
#[derive(Clone, Copy)]
pub struct LiteralEntry<'g> {
    pub text: &'g str,
    pub number: u16,
}

/// The table of a grammar's literals. Its `entries` are sorted by their texts. For each entry e,
/// `shorter` has the index of the last entry before e whose text is a prefix of the text of e, or
/// `None`. For each byte, `starts` says whether the texts of no entry, of one or of several begin
/// with the byte; for one, it has the index of the entry. In contracts the table is the list of the
/// texts, indexed by the literals' numbers.
#[derive(Drop)]
pub struct Literals<'g> {
    texts: &'g [Text],
    entries: Vec<LiteralEntry<'g>>,
    shorter: Vec<Option<u16>>,
    starts: Vec<StartingLiterals>,
}

impl<'g> Model for Literals<'g> {
    ghost use Rattle.std.specs.Prelude.{List, ℕ, length};
    ghost use Rattle.ag_scan.specs.Table.{AreCovered, IsTable};

    ghost Value = { List (List ℕ) };

    ghost view = { λ l. l.texts.now };

    ghost invariant = { λ l. IsTable l.texts.now l.entries.items l.shorter.items
        × AreCovered l.entries.items l.starts.items (length l.entries.items) };
}

/// Returns whether the text begins with `word`, which is the text of a literal.
#[inline(always)]
fn begins_with(text: &str, word: &str) -> bool
    ensures { MatchBool result (IsPrefix word.now text.now) (IsPrefix word.now text.now → ⊥) }
{
    // many literals have one byte, which is compared without a call
    if word.len() == 1 && !text.is_empty() {
        return first_byte(word) == first_byte(text);
    }
    text.as_bytes().starts_with(word.as_bytes())
}

/// Returns the number of entries whose texts are not after `text` in the order of texts. The texts
/// of the other entries are not prefixes of `text`, since a prefix comes first.
fn count_not_after(entries: &[LiteralEntry<'_>], text: &str) -> usize
    requires { AreOrdered entries.now }
    ensures within { result ≤ length entries.now }
    ensures not_after { AreNotAfter entries.now result text.now }
    ensures others { NoPrefix entries.now result (length entries.now) text.now }
{
    entries.partition_point(|word| word.text <= text)
}

/// Returns the index after `last`, or 0 for `None`. `last_prefix` goes on with the entries before
/// the returned index.
fn index_after(last: Option<u16>) -> usize
    ensures { result ≡ after_last last }
{
    match last {
        Some(k) => k as usize + 1,
        None => 0,
    }
}

/// Returns the index of the last of the first `bound` entries whose text is a prefix of `text`, or
/// `None`. Requires that each of these `bound` entries is before or equal to `text` in the order of
/// texts.
///
/// If the last entry is not a prefix of `text`, the search goes on with its `shorter` entry: an
/// earlier entry that is a prefix of `text` is also a prefix of the last one, since the last one is
/// between that entry and `text` in the order of texts.
fn last_prefix(
    entries: &[LiteralEntry<'_>],
    shorter: &[Option<u16>],
    bound: usize,
    text: &str,
) -> Option<u16>
    requires many { bound ≤ max_literals }
    requires entries { bound ≤ length entries.now }
    requires links { bound ≤ length shorter.now }
    requires ordered { AreOrdered entries.now }
    requires linked { AreLinked entries.now shorter.now }
    requires not_after { AreNotAfter entries.now bound text.now }
    ensures { IsLastPrefixIfAny entries.now bound text.now result }
{
    let mut limit = bound;
    while limit > 0 {
        let last = limit - 1;
        if begins_with(text, entries[last].text) {
            return Some(last as u16);
        }
        limit = index_after(shorter[last]);
    }
    None
}

/// Returns the entries of the literals, in the order of their numbers. Fails with `NoMemory` if the
/// list cannot be allocated.
fn numbered<'g>(alloc: Global, literals: &'g [Text]) -> Result<Vec<LiteralEntry<'g>>, NoMemory>
    requires { length literals.now ≤ max_literals }
    ensures literals { IfOk result (λ ws. AreLiterals literals.now ws.items) }
    ensures many { IfOk result (λ ws. length ws.items ≡ length literals.now) }
{
    let mut entries = Vec::new(alloc);
    for number in 0..literals.len() {
        entries.push(LiteralEntry {
            text: literals[number].as_str(),
            number: number as u16,
        })?;
    }
    Ok(entries)
}

/// Returns the entries of the literals, sorted by their texts. Fails with `NoMemory` if the list
/// cannot be allocated.
fn ordered<'g>(alloc: Global, literals: &'g [Text]) -> Result<Vec<LiteralEntry<'g>>, NoMemory>
    requires { length literals.now ≤ max_literals }
    ensures literals { IfOk result (λ ws. AreLiterals literals.now ws.items) }
    ensures many { IfOk result (λ ws. length ws.items ≡ length literals.now) }
    ensures ordered { IfOk result (λ ws. AreOrdered ws.items) }
{
    let mut entries = numbered(alloc, literals)?;
    entries.sort_by_key(|word| word.text)?;
    Ok(entries)
}

/// Returns for each entry e the index of the last entry before e whose text is a prefix of the text
/// of e, or `None`: for `+`, `++`, `-` these are `None`, 0 and `None`. Fails with `NoMemory` if the
/// list cannot be allocated.
fn linked(alloc: Global, entries: &[LiteralEntry<'_>]) -> Result<Vec<Option<u16>>, NoMemory>
    requires many { length entries.now ≤ max_literals }
    requires ordered { AreOrdered entries.now }
    ensures many { IfOk result (λ s. length s.items ≡ length entries.now) }
    ensures linked { IfOk result (λ s. AreLinked entries.now s.items) }
{
    let mut shorter: Vec<Option<u16>> = Vec::new(alloc);
    for index in 0..entries.len() {
        let link = last_prefix(entries, shorter.as_slice(), index, entries[index].text);
        shorter.push(link)?;
    }
    Ok(shorter)
}

/// Returns the longest literal that is a prefix of the text, or `None`. Searches the sorted table
/// for the last prefix, which is the longest one.
fn longest_of<'w, 'g>(
    texts: &[Text],
    entries: &'w [LiteralEntry<'g>],
    shorter: &[Option<u16>],
    text: &str,
) -> Option<&'w LiteralEntry<'g>>
    requires { IsTable texts.now entries.now shorter.now }
    ensures { MatchOption result (HasNoPrefix texts.now text.now)
        (λ w. IsLongestPrefix texts.now text.now w.now) }
{
    let bound = count_not_after(entries, text);
    let index = last_prefix(entries, shorter, bound, text)?;
    Some(&entries[index as usize])
}

/// Returns the entry with this index, if its text is a prefix of `text`.
#[inline(always)]
fn prefix_at<'w, 'g>(
    entries: &'w [LiteralEntry<'g>],
    index: u16,
    text: &str,
) -> Option<&'w LiteralEntry<'g>>
    ensures there { IfSome result (λ w. slice_get entries.now index ≡ Some w.now) }
    ensures prefix { IfSome result (λ w. IsPrefix w.now.text.now text.now) }
    ensures none { IfNone result ((w : LiteralEntry) → slice_get entries.now index ≡ Some w
        → IsPrefix w.text.now text.now → ⊥) }
{
    match entries.get(index as usize) {
        Some(word) if begins_with(text, word.text) => Some(word),
        _ => None,
    }
}

/// Returns the longest literal that is a prefix of the text, or `None`. For an empty text returns
/// `None`, since no literal is empty. Searches the sorted table only if several literals begin with
/// the first byte of the text.
#[inline(always)]
fn longest_by_start<'w, 'g>(
    texts: &[Text],
    entries: &'w [LiteralEntry<'g>],
    shorter: &[Option<u16>],
    starts: &[StartingLiterals],
    text: &str,
) -> Option<&'w LiteralEntry<'g>>
    requires table { IsTable texts.now entries.now shorter.now }
    requires starts { AreCovered entries.now starts.now (length entries.now) }
    ensures { MatchOption result (HasNoPrefix texts.now text.now)
        (λ w. IsLongestPrefix texts.now text.now w.now) }
{
    if text.is_empty() {
        return None;
    }
    let start = starts[first_byte(text) as usize];
    match start {
        StartingLiterals::Nothing => None,
        StartingLiterals::Sole(index) => prefix_at(entries, index, text),
        StartingLiterals::Several => longest_of(texts, entries, shorter, text),
    }
}

impl<'g> Literals<'g> {
    /// Makes the table of a grammar's literals. Takes memory for each literal, and for each of the
    /// 256 bytes with which a literal can begin. Fails with `NoMemory` if memory runs out.
    pub fn new(alloc: Global, texts: &'g [Text]) -> Result<Literals<'g>, NoMemory>
        requires many { length texts.now ≤ max_literals }
        requires not_empty { HasNoEmpty texts.now }
        ensures { IfOk result (λ l. l ≡ texts.now) }
    {
        let entries = ordered(alloc, texts)?;
        let shorter = linked(alloc, entries.as_slice())?;
        let starts = starts_of(alloc, entries.as_slice())?;
        Ok(Literals {
            texts,
            entries,
            shorter,
            starts,
        })
    }

    /// Returns the longest literal that is a prefix of the text, or `None`.
    #[inline(always)]
    pub fn longest(&self, text: &str) -> Option<&LiteralEntry<'g>>
        ensures { MatchOption result (HasNoPrefix self.now text.now)
            (λ w. IsLongestPrefix self.now text.now w.now) }
    {
        longest_by_start(
            self.texts,
            self.entries.as_slice(),
            self.shorter.as_slice(),
            self.starts.as_slice(),
            text,
        )
    }
}
