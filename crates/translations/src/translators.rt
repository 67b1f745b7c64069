//! Answers questions about the texts of grammars, and about the trees of sentences.

use crate::faults::message;
use aggen::{Fault, Translator, grammar_of};
use rows::words::{Mistake, printed, shown_tree_file};
use std::alloc::Global;
use treefile::MemDevice;

/// Returns `accepted`, or the fault of a grammar's text. (`grammar_of` doesn't look for L1 and A1.)
pub fn grammar_of_answer(alloc: Global, text: &str) -> Result<String, Mistake> {
    match grammar_of(alloc, text.as_bytes()) {
        Ok(_) => Ok(String::from_str(alloc, "accepted")?),
        Err(fault) => printed(alloc, &fault),
    }
}

/// Returns the translator of a grammar's text. Fails with `Unfit` if no translator can be built
/// from the text.
pub fn translator(alloc: Global, text: &str) -> Result<Translator, Mistake> {
    match Translator::build(alloc, text.as_bytes()) {
        Ok(translator) => Ok(translator),
        Err(_) => Err(Mistake::Unfit),
    }
}

/// Returns the number of nodes of a sentence's tree and the bytes of its tree file, or the fault of
/// the grammar or of the sentence as it prints.
pub fn parse_tree_answer(alloc: Global, text: &str, sentence: &str) -> Result<String, Mistake> {
    match Translator::build(alloc, text.as_bytes()) {
        Ok(translator) => tree_answer(alloc, &translator, sentence),
        Err(fault) => message(alloc, &Fault::from(fault)),
    }
}

/// Does what `parse_tree_answer` does, with the translator of the grammar.
fn tree_answer(alloc: Global, translator: &Translator, sentence: &str) -> Result<String, Mistake> {
    let mut device = MemDevice::new(alloc);
    match translator.parse_tree(sentence.as_bytes(), &mut device) {
        Ok(count) => shown_tree_file(alloc, count, device.bytes()),
        Err(fault) => message(alloc, &fault),
    }
}
