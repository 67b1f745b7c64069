//! Answers questions about the texts of expressions. An occurrence in an expression is an attribute
//! at a place, as `$1.v`.

ghost use Rattle.std.specs.Prelude.{IfOk};
ghost use Rattle.ag_value.specs.Well.{IsWell};

use ag_carried::Carried;
use ag_eval::{CarriedEnvironment, Env, Meter, eval, eval_carried};
use ag_expr::{expected_at, read_expr, read_until};
use ag_grammar::{Expr, occurrences};
use ag_value::{Value, copy, is_well, show};
use rows::current_texts::CurrentTexts;
use rows::words::{Mistake, first_word, halves, number, printed};
use std::alloc::{AllocError, Global};

/// The greatest number of different occurrences in an expression that is evaluated.
const MAX_OCCURRENCES: usize = 65_536;

/// An environment that returns the same value for each occurrence.
#[derive(Drop)]
struct SameValue<'a> {
    value: &'a Value,
}

impl<'a> Env for SameValue<'a> {
    ghost count = { λ _. 65536 };

    ghost lent = { λ same k. same.value.now };

    fn lend(&self, _k: usize) -> &Value {
        self.value
    }
}

/// Evaluates an expression whose occurrences all have the value `lent`. Fails with `Unfit` if that
/// value is not well, or if there are more than `MAX_OCCURRENCES` occurrences.
#[tactic(auto, using(ag_eval::proofs::Values::are_well))]
fn evaluate(alloc: Global, expr: &Expr, lent: &Value) -> Result<Value, Mistake> {
    if !is_well(lent) || occurrences(expr).len() > MAX_OCCURRENCES {
        return Err(Mistake::Unfit);
    }
    let mut meter = Meter::new();
    Ok(eval(alloc, expr, &SameValue { value: lent }, &mut meter)?)
}

/// Reads and evaluates an expression. Fails with `Unfit` if the text isn't an expression.
pub fn value_of(alloc: Global, text: &str, lent: &Value) -> Result<Value, Mistake> {
    match read_expr(alloc, text) {
        Ok(expr) => evaluate(alloc, &expr, lent),
        Err(_) => Err(Mistake::Unfit),
    }
}

/// Evaluates an expression and shows its value.
fn value_text(alloc: Global, expr: &Expr, lent: &Value) -> Result<String, Mistake> {
    let value = evaluate(alloc, expr, lent)?;
    Ok(show(alloc, &value)?)
}

/// An environment that returns the same carried value for each occurrence.
#[derive(Drop)]
struct SameCarried<'a> {
    value: &'a Carried,
}

impl<'a> CarriedEnvironment for SameCarried<'a> {
    ghost count = { λ _. 65536 };

    ghost lent = { λ same k. same.value.now };

    fn lend(&self, _k: usize) -> &Carried {
        self.value
    }
}

/// Evaluates an expression whose occurrences all have the carried value `lent`. Fails with `Unfit`
/// if there are more than `MAX_OCCURRENCES` occurrences.
#[tactic(auto, using(ag_eval::proofs::Values::are_well))]
fn carry(alloc: Global, expr: &Expr, lent: &Carried) -> Result<Carried, Mistake>
    requires { IsWell lent.now }
    ensures { IfOk result (λ c. IsWell c) }
{
    if occurrences(expr).len() > MAX_OCCURRENCES {
        return Err(Mistake::Unfit);
    }
    let mut meter = Meter::new();
    Ok(eval_carried(alloc, expr, &SameCarried { value: lent }, &mut meter)?)
}

/// Evaluates an expression `count` times. In the first evaluation all occurrences have the value
/// `first`, and in each later one the result of the previous evaluation.
fn grown(alloc: Global, count: u32, expr: &Expr, first: Carried) -> Result<Carried, Mistake>
    requires { IsWell first }
    ensures { IfOk result (λ c. IsWell c) }
{
    let mut value = first;
    for _ in 0..count {
        value = carry(alloc, expr, &value)?;
    }
    Ok(value)
}

/// Reads `COUNT STEP & END`. Evaluates STEP COUNT times from the value `first` on, as `grown` does.
/// Then evaluates END once, with that result as the value of its occurrences, and shows its value.
/// Fails with `Unfit` if `first` is not well, or if STEP or END isn't an expression.
pub fn grow_answer(alloc: Global, rest: &str, first: &Value) -> Result<String, Mistake> {
    let (count, texts) = first_word(rest);
    let (step, end) = halves(texts, " & ")?;
    let (Ok(step), Ok(end)) = (read_expr(alloc, step), read_expr(alloc, end)) else {
        return Err(Mistake::Unfit);
    };
    let first = copy(alloc, first)?;
    if !is_well(&first) {
        return Err(Mistake::Unfit);
    }
    let value = grown(alloc, number(count)?, &step, Carried::new(alloc, first)?)?;
    let value = carry(alloc, &end, &value)?;
    Ok(show(alloc, &value.into_value(alloc)?)?)
}

/// Returns the value of a text as it is shown, or the fault of the text.
pub fn value_answer(alloc: Global, text: &str, lent: &Value) -> Result<String, Mistake> {
    match read_expr(alloc, text) {
        Ok(expr) => value_text(alloc, &expr, lent),
        Err(fault) => printed(alloc, &fault),
    }
}

/// Evaluates an expression, whose value is not used. Returns the number of evaluations that the
/// meter has counted (one for each call of `eval`), and whether the meter is full (2^64 - 1
/// evaluations). Fails with `Unfit` as `evaluate` does.
#[tactic(auto, using(ag_eval::proofs::Values::are_well))]
fn meter_text(alloc: Global, expr: &Expr, lent: &Value) -> Result<String, Mistake> {
    if !is_well(lent) || occurrences(expr).len() > MAX_OCCURRENCES {
        return Err(Mistake::Unfit);
    }
    let mut meter = Meter::new();
    let _value = eval(alloc, expr, &SameValue { value: lent }, &mut meter)?;
    Ok(format!(in alloc; "{}, full {}", meter.count(), meter.is_full())?)
}

/// Evaluates a text. Returns the meter's count and whether the meter is full, as `meter_text` does.
/// Fails with `Unfit` if the text isn't an expression.
pub fn meter_answer(alloc: Global, text: &str, lent: &Value) -> Result<String, Mistake> {
    match read_expr(alloc, text) {
        Ok(expr) => meter_text(alloc, &expr, lent),
        Err(_) => Err(Mistake::Unfit),
    }
}

/// Returns the tree of a text, or its fault.
pub fn tree_answer(alloc: Global, text: &str) -> Result<String, Mistake> {
    match read_expr(alloc, text) {
        Ok(expr) => printed(alloc, &expr),
        Err(fault) => printed(alloc, &fault),
    }
}

/// Returns the tree of a text. Fails with `Unfit` if the text isn't an expression.
fn tree_text(alloc: Global, text: &str) -> Result<String, Mistake> {
    match read_expr(alloc, text) {
        Ok(expr) => printed(alloc, &expr),
        Err(_) => Err(Mistake::Unfit),
    }
}

/// Returns whether the texts on both sides of `&` have the same tree. Fails with `Unfit` if one
/// isn't an expression.
pub fn alike_answer(alloc: Global, texts: &str) -> Result<String, Mistake> {
    let (first, second) = halves(texts, " & ")?;
    let first = tree_text(alloc, first)?;
    let second = tree_text(alloc, second)?;
    Ok(format!(in alloc; "{}", first.as_str() == second.as_str())?)
}

/// Returns the number of different occurrences in an expression, and each of them once.
fn occurrences_text(alloc: Global, expr: &Expr) -> Result<String, Mistake> {
    let mut answer = format!(in alloc; "{} occurrences", occurrences(expr).len())?;
    show_occurrences(&mut answer, expr)?;
    Ok(answer)
}

/// Writes the place, the name and the offset in bytes of each occurrence in an expression.
fn show_occurrences(answer: &mut String, expr: &Expr) -> Result<(), AllocError> {
    for occurrence in occurrences(expr) {
        let name = occurrence.attr.as_str();
        write!(answer, ", {}.{name} at {}", occurrence.place, occurrence.at)?;
    }
    Ok(())
}

/// Returns the number of different occurrences in a text, and each of them once, or the fault of
/// the text.
pub fn occurrences_answer(alloc: Global, text: &str) -> Result<String, Mistake> {
    match read_expr(alloc, text) {
        Ok(expr) => occurrences_text(alloc, &expr),
        Err(fault) => printed(alloc, &fault),
    }
}

/// Returns the number of different occurrences in an expression.
fn count_text(alloc: Global, expr: &Expr) -> Result<String, Mistake> {
    Ok(occurrences(expr).len().to_string(alloc)?)
}

/// Returns the number of different occurrences in a text, or the fault of the text.
pub fn count_answer(alloc: Global, text: &str) -> Result<String, Mistake> {
    match read_expr(alloc, text) {
        Ok(expr) => count_text(alloc, &expr),
        Err(fault) => printed(alloc, &fault),
    }
}

/// Splits a row into an offset in bytes and a text. If the text is missing, it is the current text.
fn offset_and_text<'a>(
    texts: &'a CurrentTexts,
    rest: &'a str,
) -> Result<(usize, &'a str), Mistake> {
    let (at, text) = first_word(rest);
    Ok((number(at)? as usize, texts.text_or(text)))
}

/// Returns the offset in bytes at which an expression ends, and its occurrences.
fn end_text(alloc: Global, expr: &Expr, at: usize) -> Result<String, Mistake> {
    let listed = occurrences_text(alloc, expr)?;
    Ok(format!(in alloc; "up to {at}, {listed}")?)
}

/// Reads the expression from an offset in bytes to the next `;`, and returns where it ends and its
/// occurrences. Fails with `Unfit` if the offset is not a character boundary.
pub fn until_answer(alloc: Global, texts: &CurrentTexts, rest: &str) -> Result<String, Mistake> {
    let (from, text) = offset_and_text(texts, rest)?;
    if !text.is_char_boundary(from) {
        return Err(Mistake::Unfit);
    }
    match read_until(alloc, text, from) {
        Ok((expr, at)) => end_text(alloc, &expr, at),
        Err(fault) => printed(alloc, &fault),
    }
}

/// Returns what is expected at an offset of a text.
pub fn expected_answer(alloc: Global, texts: &CurrentTexts, rest: &str) -> Result<String, Mistake> {
    let (at, text) = offset_and_text(texts, rest)?;
    let found = expected_at(alloc, text, at)?;
    printed(alloc, &found)
}
