//! Answers questions about the text of the root.

ghost use Rattle.planchecker.specs.Plans.{IsPlan};

use crate::plans::plan_of;
use crate::sentences::tree_of;
use ag_eval::Meter;
use ag_grammar::Grammar;
use passrun::run_pass;
use planchecker::Plan;
use roottext::root_text;
use rows::words::{Mistake, bytes_of, printed};
use std::alloc::Global;
use treefile::MemDevice;

/// Returns the root's text in a last file, quoted, or the fault of `root_text`.
fn text_answer(
    alloc: Global,
    grammar: &Grammar,
    plan: &Plan,
    file: &mut MemDevice,
) -> Result<String, Mistake>
    requires { IsPlan grammar.now plan.now.assignment plan.now.code }
{
    match root_text(alloc, grammar, plan, file) {
        Ok(text) => printed(alloc, &text.as_str()),
        Err(fault) => printed(alloc, &fault),
    }
}

/// Returns the root's text in a content, by the plan of a grammar.
pub fn root_bytes_answer(
    alloc: Global,
    grammar: &Grammar,
    content: &str,
) -> Result<String, Mistake> {
    let mut file = MemDevice::from_bytes(bytes_of(alloc, content)?);
    let plan = plan_of(alloc, grammar)?;
    text_answer(alloc, grammar, &plan, &mut file)
}

/// Runs a pass of a plan and returns its output file. Fails with `Unfit` if the pass fails. Callers
/// give a pass of the plan. This is tested here for the prover alone, as `run_pass` requires it.
fn next_file(
    alloc: Global,
    grammar: &Grammar,
    plan: &Plan,
    pass: u16,
    from: &mut MemDevice,
) -> Result<MemDevice, Mistake>
    requires { IsPlan grammar.now plan.now.assignment plan.now.code }
{
    if pass == 0 || plan.assignment().passes() < pass {
        return Err(Mistake::Unfit);
    }
    let mut to = MemDevice::new(alloc);
    let mut meter = Meter::new();
    match run_pass(alloc, grammar, plan, pass, from, &mut to, &mut meter) {
        Ok(_) => Ok(to),
        Err(_) => Err(Mistake::Unfit),
    }
}

/// Runs all passes of a plan over a tree and returns the last file.
fn last_file(
    alloc: Global,
    grammar: &Grammar,
    plan: &Plan,
    tree: MemDevice,
) -> Result<MemDevice, Mistake>
    requires { IsPlan grammar.now plan.now.assignment plan.now.code }
{
    let mut file = tree;
    for pass in 1..=plan.assignment().passes() {
        file = next_file(alloc, grammar, plan, pass, &mut file)?;
    }
    Ok(file)
}

/// Translates a sentence and returns the text of its root.
pub fn root_answer(alloc: Global, grammar: &Grammar, sentence: &str) -> Result<String, Mistake> {
    let tree = tree_of(alloc, grammar, sentence)?;
    let plan = plan_of(alloc, grammar)?;
    let mut file = last_file(alloc, grammar, &plan, tree)?;
    text_answer(alloc, grammar, &plan, &mut file)
}
