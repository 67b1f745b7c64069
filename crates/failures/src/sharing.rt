//! Translations over two devices in memory that share large values instead of copying their bytes.
//! One call of one device fails: first call 1, then call 2, and so on.

use crate::fractions::{translated, translator};
use crate::shared_fuse::SharedFuse;
use aggen::Translator;
use rows::words::{Mistake, first_word, number};
use std::alloc::Global;
use treefile::MemDevice;

/// A grammar whose first pass builds tables. The second pass passes the whole table down to each
/// node.
const TABLES: &str = "start S; symbol S syn out; symbol A syn names, sum inh all;
S = A { $1.all = $1.names; $0.out = text($1.sum); }
A = \"x\" A {
    $0.names = put($1.names, \"a name\", [1, \"a text that is long enough to be shared\"]);
    $1.all = $0.all;
    $0.sum = $1.sum + len($0.all);
}
A = \"y\" {
    $0.names = put({}, \"another name\", [2, \"another text that is long enough to be shared\"]);
    $0.sum = len($0.all);
}
";

/// A sentence of this grammar. Its translation is 6.
const SENTENCE: &[u8] = b"xxy";

/// The ending of a translation that succeeds.
const DONE: &str = "Done \"6\"";

/// The ending of a translation if a call of a device fails.
const FAILED: &str = "Device \"\"";

/// Returns two devices. The one that a word names fails at its call number `call`, counted from 1.
/// Fails with `Misspelt` if the word is neither `first` nor `second`.
fn devices(alloc: Global, word: &str, call: u64) -> Result<(SharedFuse, SharedFuse), Mistake> {
    let (first, second) = match word {
        "first" => (call, 0),
        "second" => (0, call),
        _ => return Err(Mistake::Misspelt),
    };
    Ok((
        SharedFuse::new(alloc, first),
        SharedFuse::new(alloc, second),
    ))
}

/// Translates the sentence twice over the same two devices, of which one fails at one call. Returns
/// whether that call is one of the second translation. Exactly one of the translations must fail,
/// with D1 and without output. `append_parts`, which writes records with shared values, must have
/// been called on each device without failing. Fails with `Unfit` otherwise.
fn fails_later(
    alloc: Global,
    translator: &Translator,
    word: &str,
    call: u64,
) -> Result<bool, Mistake> {
    let (mut a, mut b) = devices(alloc, word, call)?;
    let first = translated(alloc, translator, SENTENCE, &mut a, &mut b)?;
    let second = translated(alloc, translator, SENTENCE, &mut a, &mut b)?;
    if a.shared() == 0 || b.shared() == 0 {
        return Err(Mistake::Unfit);
    }
    match (first.as_str(), second.as_str()) {
        (DONE, FAILED) => Ok(true),
        (FAILED, DONE) => Ok(false),
        _ => Err(Mistake::Unfit),
    }
}

/// Returns one more than the number of calls of a device that the first translation makes. Fails
/// with `Unfit` as `fails_later` does, or if a translation makes 999 calls of the device or more,
/// which none does.
fn first_unmade_call(alloc: Global, translator: &Translator, word: &str) -> Result<u64, Mistake> {
    for call in 1..1000 {
        if fails_later(alloc, translator, word, call)? {
            return Ok(call);
        }
    }
    Err(Mistake::Unfit)
}

/// Translates the sentence over devices in memory that don't share values.
fn translated_in_memory(alloc: Global, translator: &Translator) -> Result<String, Mistake> {
    let mut a = MemDevice::new(alloc);
    let mut b = MemDevice::new(alloc);
    translated(alloc, translator, SENTENCE, &mut a, &mut b)
}

/// Returns whether a translation makes at least the row's number of calls of a device. Fails with
/// `Misspelt` if the row names no device or no number. Fails with `Unfit` as `first_unmade_call`
/// does, and if the translation over devices that don't share values doesn't end with `DONE`.
pub fn sharing_answer(alloc: Global, spelled: &str) -> Result<String, Mistake> {
    let (word, least) = first_word(spelled);
    let least = number(least)? as u64;
    let translator = translator(alloc, TABLES)?;
    if translated_in_memory(alloc, &translator)?.as_str() != DONE {
        return Err(Mistake::Unfit);
    }
    let calls = first_unmade_call(alloc, &translator, word)?;
    Ok(format!(in alloc; "{}", least < calls)?)
}
