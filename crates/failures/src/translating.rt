//! Translations by one translator, before and after it rejects a sentence.

use crate::fractions::{FRACTION_SENTENCE, FRACTIONS, translated, translator};
use aggen::Translator;
use rows::words::Mistake;
use std::alloc::Global;
use treefile::MemDevice;

/// Translates three sentences over the same two devices. The second sentence is rejected. Returns
/// how each call ends, and what it wrote.
fn three_answer(
    alloc: Global,
    translator: &Translator,
    a: &mut MemDevice,
    b: &mut MemDevice,
) -> Result<String, Mistake> {
    let first = translated(alloc, translator, FRACTION_SENTENCE, a, b)?;
    let refused = translated(alloc, translator, b"12", a, b)?;
    let last = translated(alloc, translator, b"1", a, b)?;
    Ok(format!(in alloc; "{first}, {refused}, {last}")?)
}

/// Translates three sentences over two devices in memory. Returns what `three_answer` does.
fn three_translated(alloc: Global, translator: &Translator) -> Result<String, Mistake> {
    let mut a = MemDevice::new(alloc);
    let mut b = MemDevice::new(alloc);
    three_answer(alloc, translator, &mut a, &mut b)
}

/// Builds a translator, translates three sentences, and returns what `three_answer` does.
pub fn translate_three_answer(alloc: Global) -> Result<String, Mistake> {
    let translator = translator(alloc, FRACTIONS)?;
    three_translated(alloc, &translator)
}
