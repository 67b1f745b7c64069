//! Answers questions about translations of sentences, jobs and tree files.

use crate::translators::translator;
use ag_value::{Value, show};
use aggen::{Fault, Report, run_job};
use rows::words::{Mistake, bytes_of, printed};
use std::alloc::{AllocError, Global};
use treefile::MemDevice;

/// Returns a text, quoted, or only its length if it has more than 64 bytes.
fn text_answer(alloc: Global, text: &str) -> Result<String, AllocError> {
    if text.len() > 64 {
        return format!(in alloc; "{} bytes", text.len());
    }
    format!(in alloc; "{text:?}")
}

/// Returns a report and the text that was written. Fails with `Unfit` if the text is not UTF-8.
fn report_answer(alloc: Global, report: &Report, out: &[u8]) -> Result<String, Mistake> {
    let Ok(text) = str::from_utf8(out) else {
        return Err(Mistake::Unfit);
    };
    let text = text_answer(alloc, text)?;
    Ok(format!(in alloc;
        "{text}, {} nodes, {} passes, {} rules, {} read, {} written, last {:?}",
        report.nodes, report.passes, report.evals, report.read, report.written, report.last
    )?)
}

/// Returns the answer for a value of the root's `out` that is not a text.
fn value_answer(alloc: Global, value: &Value) -> Result<String, Mistake> {
    let shown = show(alloc, value)?;
    Ok(format!(in alloc; "no text: {shown}")?)
}

/// Returns the result of a translation: the written text with its report, or the fault.
fn ending_answer(
    alloc: Global,
    ended: &Result<Report, Fault>,
    out: &[u8],
) -> Result<String, Mistake> {
    match ended {
        Ok(report) => report_answer(alloc, report, out),
        Err(Fault::NoText(value)) => value_answer(alloc, value),
        Err(fault) => printed(alloc, fault),
    }
}

/// Translates a sentence by the grammar in a text. Fails with `Unfit` as `translator` does.
pub fn translate_answer(alloc: Global, text: &str, sentence: &str) -> Result<String, Mistake> {
    let translator = translator(alloc, text)?;
    let mut a = MemDevice::new(alloc);
    let mut b = MemDevice::new(alloc);
    let mut out = Vec::new(alloc);
    let ended = translator.translate(sentence.as_bytes(), &mut a, &mut b, &mut out);
    ending_answer(alloc, &ended, out.as_slice())
}

/// Translates a job, which is a text with a grammar and a sentence.
pub fn job_answer(alloc: Global, text: &str) -> Result<String, Mistake> {
    let mut a = MemDevice::new(alloc);
    let mut b = MemDevice::new(alloc);
    let mut out = Vec::new(alloc);
    let ended = run_job(alloc, text.as_bytes(), &mut out, &mut a, &mut b);
    ending_answer(alloc, &ended, out.as_slice())
}

/// Translates the tree in a tree file, by the grammar in a text. `content` spells the bytes of the
/// file (`bytes_of` of `rows`). Fails as `bytes_of` and `translator` do.
pub fn evaluate_answer(alloc: Global, text: &str, content: &str) -> Result<String, Mistake> {
    let mut tree = MemDevice::from_bytes(bytes_of(alloc, content)?);
    let translator = translator(alloc, text)?;
    let mut a = MemDevice::new(alloc);
    let mut b = MemDevice::new(alloc);
    let mut out = Vec::new(alloc);
    let ended = translator.evaluate_tree(&mut tree, &mut a, &mut b, &mut out);
    ending_answer(alloc, &ended, out.as_slice())
}
