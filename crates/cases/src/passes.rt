//! Answers questions about passes over tree files.

ghost use Rattle.planchecker.specs.Plans.{IsPlan};

use crate::plans::{pair, plan_of};
use crate::sentences::tree_of;
use ag_eval::Meter;
use ag_grammar::Grammar;
use passrun::{Last, Passed, run_all, run_pass};
use planchecker::{Plan, check_plan};
use rows::current_texts::CurrentTexts;
use rows::words::{Mistake, bytes_of, first_word, halves, printed, short_number, shown_bytes};
use std::alloc::Global;
use treefile::MemDevice;

/// Splits a row into the number of a pass and a content. Returns the number and a device with the
/// content. If the content is missing, it is the current text.
fn numbered_content(
    alloc: Global,
    texts: &CurrentTexts,
    rest: &str,
) -> Result<(u16, MemDevice), Mistake> {
    let (number, content) = first_word(rest);
    let number = short_number(number)?;
    let bytes = bytes_of(alloc, texts.text_or(content))?;
    Ok((number, MemDevice::from_bytes(bytes)))
}

/// Returns the numbers of nodes and evaluated rules of a pass, and its output file.
fn passed_answer(
    alloc: Global,
    passed: &Passed,
    rules: u64,
    file: &MemDevice,
) -> Result<String, Mistake> {
    let file = shown_bytes(alloc, file.bytes())?;
    Ok(format!(in alloc; "{} nodes, {rules} rules, {file}", passed.nodes)?)
}

/// Runs a pass of a plan from a file to an empty device. Returns the pass's counts and its output
/// file, or its fault. Fails with `Unfit` if the plan doesn't have that pass.
fn pass_over(
    alloc: Global,
    grammar: &Grammar,
    plan: &Plan,
    pass: u16,
    from: &mut MemDevice,
    to: &mut MemDevice,
) -> Result<String, Mistake>
    requires { IsPlan grammar.now plan.now.assignment plan.now.code }
{
    if pass == 0 || plan.assignment().passes() < pass {
        return Err(Mistake::Unfit);
    }
    let mut meter = Meter::new();
    match run_pass(alloc, grammar, plan, pass, from, to, &mut meter) {
        Ok(passed) => passed_answer(alloc, &passed, meter.count(), to),
        Err(fault) => printed(alloc, &fault),
    }
}

/// Runs a pass of a grammar's plan over a content.
pub fn pass_answer(
    alloc: Global,
    grammar: &Grammar,
    texts: &CurrentTexts,
    rest: &str,
) -> Result<String, Mistake> {
    let (pass, mut from) = numbered_content(alloc, texts, rest)?;
    let plan = plan_of(alloc, grammar)?;
    let mut to = MemDevice::new(alloc);
    pass_over(alloc, grammar, &plan, pass, &mut from, &mut to)
}

/// Runs all passes of a grammar's plan over the tree of a sentence. Returns a line for each pass.
pub fn through_answer(alloc: Global, grammar: &Grammar, sentence: &str) -> Result<String, Mistake> {
    let tree = tree_of(alloc, grammar, sentence)?;
    let plan = plan_of(alloc, grammar)?;
    lines_of_passes(alloc, grammar, &plan, tree)
}

/// Runs all passes of a plan over a tree file. Returns a line for each pass.
fn lines_of_passes(
    alloc: Global,
    grammar: &Grammar,
    plan: &Plan,
    tree: MemDevice,
) -> Result<String, Mistake>
    requires { IsPlan grammar.now plan.now.assignment plan.now.code }
{
    let mut from = tree;
    let mut answer = String::new(alloc);
    for pass in 1..=plan.assignment().passes() {
        from = next_file(alloc, grammar, plan, pass, &mut from, &mut answer)?;
    }
    Ok(String::from_str(alloc, answer.as_str().trim_end())?)
}

/// Runs a pass of a plan, appends its line to `answer`, and returns its output file.
fn next_file(
    alloc: Global,
    grammar: &Grammar,
    plan: &Plan,
    pass: u16,
    from: &mut MemDevice,
    answer: &mut String,
) -> Result<MemDevice, Mistake>
    requires { IsPlan grammar.now plan.now.assignment plan.now.code }
{
    let mut to = MemDevice::new(alloc);
    let line = pass_over(alloc, grammar, plan, pass, from, &mut to)?;
    write!(answer, "pass {pass}: {line}\n")?;
    Ok(to)
}

/// Returns the counts of several passes, the device that has the last file, and this file.
fn sum_answer(
    alloc: Global,
    last: Last,
    sum: &Passed,
    rules: u64,
    file: &MemDevice,
) -> Result<String, Mistake> {
    let file = shown_bytes(alloc, file.bytes())?;
    Ok(format!(in alloc;
        "{} nodes, {rules} rules, {} read, {} written, last {last:?}, {file}",
        sum.nodes, sum.read, sum.written
    )?)
}

/// Runs the passes of a plan from `first` on over a file, alternating between its device and an
/// empty one. Returns the counts of the passes and the last file, or their fault. If `first` is one
/// more than the number of passes, no pass runs. Fails with `Unfit` if `first` is 0 or greater than
/// that.
fn run_from(
    alloc: Global,
    grammar: &Grammar,
    plan: &Plan,
    first: u16,
    a: &mut MemDevice,
) -> Result<String, Mistake>
    requires { IsPlan grammar.now plan.now.assignment plan.now.code }
{
    if first == 0 || plan.assignment().passes() < first - 1 {
        return Err(Mistake::Unfit);
    }
    let mut b = MemDevice::new(alloc);
    let mut meter = Meter::new();
    match run_all(alloc, grammar, plan, first, a, &mut b, &mut meter) {
        Ok((Last::A, sum)) => sum_answer(alloc, Last::A, &sum, meter.count(), a),
        Ok((Last::B, sum)) => sum_answer(alloc, Last::B, &sum, meter.count(), &b),
        Err(fault) => printed(alloc, &fault),
    }
}

/// Runs all passes of a grammar's plan over the tree of a sentence.
pub fn run_answer(alloc: Global, grammar: &Grammar, sentence: &str) -> Result<String, Mistake> {
    let mut device = tree_of(alloc, grammar, sentence)?;
    let plan = plan_of(alloc, grammar)?;
    run_from(alloc, grammar, &plan, 1, &mut device)
}

/// Runs all passes of another plan for a grammar over the tree of a sentence. In the row, `by`
/// separates the sentence from the plan's assignment and code. Fails with `Unfit` if `check_plan`
/// refuses the plan.
pub fn run_by_answer(alloc: Global, grammar: &Grammar, spelled: &str) -> Result<String, Mistake> {
    let (sentence, spelled) = halves(spelled, " by ")?;
    let mut device = tree_of(alloc, grammar, sentence)?;
    let (assignment, code) = pair(alloc, spelled)?;
    let Ok(plan) = check_plan(grammar, assignment, code) else {
        return Err(Mistake::Unfit);
    };
    run_from(alloc, grammar, &plan, 1, &mut device)
}

/// Runs the passes of a grammar's plan, from a given one on, over a content.
pub fn run_bytes_answer(
    alloc: Global,
    grammar: &Grammar,
    texts: &CurrentTexts,
    rest: &str,
) -> Result<String, Mistake> {
    let (first, mut device) = numbered_content(alloc, texts, rest)?;
    let plan = plan_of(alloc, grammar)?;
    run_from(alloc, grammar, &plan, first, &mut device)
}
