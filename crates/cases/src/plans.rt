//! Answers questions about plans, and about assignments and code that a row spells.

ghost use Rattle.std.specs.Prelude.{IfOk};
ghost use Rattle.planchecker.specs.Plans.{IsPlan};

use ag_grammar::Grammar;
use agoutput::{write_code, write_plan};
use passassign::{Assignment, assign};
use passcode::{Code, Instr, generate};
use planchecker::{Plan, check_plan};
use rows::words::{Mistake, first_word, halves, parts, short_number, short_numbers};
use std::alloc::{AllocError, Global};

/// Returns the instruction that a word spells: `g2`, `o2` and `p2` are `Get`, `Go` and `Put` of
/// child 2, `s2.1.0` sets attribute 1 of child 2 by rule 0, `d1.0` defines attribute 1 by rule 0,
/// and `e` is `End`.
fn instruction(word: &str) -> Result<Instr, Mistake> {
    if word == "e" {
        return Ok(Instr::End);
    }
    if let Some(place) = word.strip_prefix('g') {
        return Ok(Instr::Get(short_number(place)?));
    }
    if let Some(place) = word.strip_prefix('o') {
        return Ok(Instr::Go(short_number(place)?));
    }
    if let Some(place) = word.strip_prefix('p') {
        return Ok(Instr::Put(short_number(place)?));
    }
    rule_instruction(word)
}

/// Returns the `Def` or `Set` that a word spells. Fails with `Misspelt` if the word doesn't begin
/// with `d` or `s`.
fn rule_instruction(word: &str) -> Result<Instr, Mistake> {
    if let Some(numbers) = word.strip_prefix('d') {
        let (attr, rule) = halves(numbers, ".")?;
        return Ok(Instr::Def {
            attr: short_number(attr)?,
            rule: short_number(rule)?,
        });
    }
    let Some(numbers) = word.strip_prefix('s') else {
        return Err(Mistake::Misspelt);
    };
    let (place, rest) = halves(numbers, ".")?;
    let (attr, rule) = halves(rest, ".")?;
    Ok(Instr::Set {
        place: short_number(place)?,
        attr: short_number(attr)?,
        rule: short_number(rule)?,
    })
}

/// Returns the list of instructions that a text spells.
fn list(alloc: Global, text: &str) -> Result<Vec<Instr>, Mistake> {
    let mut list = Vec::new(alloc);
    for word in parts(alloc, text, " ")?.as_slice() {
        list.push(instruction(word)?)?;
    }
    Ok(list)
}

/// Returns the lists of a production that a text spells: one for each pass, separated by `;`.
fn lists(alloc: Global, text: &str) -> Result<Vec<Vec<Instr>>, Mistake> {
    let mut lists = Vec::new(alloc);
    for part in parts(alloc, text, " ; ")?.as_slice() {
        lists.push(list(alloc, part)?)?;
    }
    Ok(lists)
}

/// Returns the lists of all productions that a text spells. Productions are separated by `|`.
fn rows_of_lists(alloc: Global, text: &str) -> Result<Vec<Vec<Vec<Instr>>>, Mistake> {
    let mut rows = Vec::new(alloc);
    for part in parts(alloc, text, " | ")?.as_slice() {
        rows.push(lists(alloc, part)?)?;
    }
    Ok(rows)
}

/// Returns the assignment of a text: the passes of each symbol's attributes, with `/` between the
/// symbols.
pub fn assignment(alloc: Global, text: &str) -> Result<Assignment, Mistake> {
    let mut rows = Vec::new(alloc);
    for part in parts(alloc, text, " / ")?.as_slice() {
        rows.push(short_numbers(alloc, part)?)?;
    }
    Ok(Assignment::of_rows(rows))
}

/// Returns the assignment and the code that a text spells, separated by `:`.
pub fn pair(alloc: Global, text: &str) -> Result<(Assignment, Code), Mistake> {
    let (rows, lists) = halves(text, " : ")?;
    let assignment = assignment(alloc, rows)?;
    Ok((assignment, Code::of_rows(rows_of_lists(alloc, lists)?)))
}

/// Returns the number of passes of an assignment and code, or the fault for which `check_plan`
/// refuses them.
fn plan_verdict(
    alloc: Global,
    grammar: &Grammar,
    assignment: Assignment,
    code: Code,
) -> Result<String, AllocError> {
    match check_plan(grammar, assignment, code) {
        Ok(plan) => format!(in alloc; "{} passes", plan.assignment().passes()),
        Err(fault) => format!(in alloc; "{fault:?}"),
    }
}

/// Returns the number of passes of the assignment and code of a row, or their fault
/// (`plan_verdict`).
pub fn plan_answer(alloc: Global, grammar: &Grammar, spelled: &str) -> Result<String, Mistake> {
    let (assignment, code) = pair(alloc, spelled)?;
    Ok(plan_verdict(alloc, grammar, assignment, code)?)
}

/// Returns the plan of a grammar: its least assignment and the code for it. Fails with `Unfit` if
/// the grammar has no plan.
pub fn plan_of(alloc: Global, grammar: &Grammar) -> Result<Plan, Mistake>
    ensures { IfOk result (λ plan. IsPlan grammar.now plan.assignment plan.code) }
{
    let Ok(assignment) = assign(alloc, grammar) else {
        return Err(Mistake::Unfit);
    };
    let code = generate(alloc, grammar, &assignment)?;
    match check_plan(grammar, assignment, code) {
        Ok(plan) => Ok(plan),
        Err(_) => Err(Mistake::Unfit),
    }
}

/// Returns the listings of the passes and of the code of a grammar's plan.
pub fn listing_answer(alloc: Global, grammar: &Grammar) -> Result<String, Mistake> {
    let plan = plan_of(alloc, grammar)?;
    let mut listing = Vec::new(alloc);
    write_listings(alloc, &mut listing, grammar, &plan)?;
    whole_lines(alloc, listing.as_slice())
}

/// Writes the listings of the passes and of the code of a plan. Fails with `Unfit` if memory is
/// refused.
fn write_listings(
    alloc: Global,
    listing: &mut Vec<u8>,
    grammar: &Grammar,
    plan: &Plan,
) -> Result<(), Mistake>
    requires { IsPlan grammar.now plan.now.assignment plan.now.code }
{
    if write_plan(alloc, listing, grammar, plan).is_err() {
        return Err(Mistake::Unfit);
    }
    write_code(alloc, listing, grammar, plan).map_err(|_| Mistake::Unfit)
}

/// Returns lines without the LF of the last one. Fails with `Unfit` if that LF is missing.
fn whole_lines(alloc: Global, bytes: &[u8]) -> Result<String, Mistake> {
    let lines = str::from_utf8(bytes).map_err(|_| Mistake::Unfit)?;
    let lines = lines.strip_suffix('\n').ok_or(Mistake::Unfit)?;
    Ok(String::from_str(alloc, lines)?)
}

/// Returns the greatest pass of an assignment.
pub fn passes_answer(alloc: Global, spelled: &str) -> Result<String, Mistake> {
    let assignment = assignment(alloc, spelled)?;
    Ok(assignment.passes().to_string(alloc)?)
}

/// Returns the list of a production and a pass, in code that a row spells.
pub fn list_answer(alloc: Global, spelled: &str) -> Result<String, Mistake> {
    let (production, rest) = first_word(spelled);
    let (pass, lists) = halves(rest, " : ")?;
    let rows = rows_of_lists(alloc, lists)?;
    list_text(alloc, rows, short_number(production)?, short_number(pass)?)
}

/// Returns the list of a production and a pass. Fails with `Unfit` if the code doesn't have it.
fn list_text(
    alloc: Global,
    rows: Vec<Vec<Vec<Instr>>>,
    production: u16,
    pass: u16,
) -> Result<String, Mistake> {
    let lists = match rows.get(production as usize) {
        Some(lists) => lists.len(),
        None => return Err(Mistake::Unfit),
    };
    if pass == 0 || lists < pass as usize {
        return Err(Mistake::Unfit);
    }
    let code = Code::of_rows(rows);
    Ok(format!(in alloc; "{:?}", code.list(production, pass))?)
}
