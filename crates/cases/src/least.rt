//! Answers questions about the strikes of least assignments.

use crate::plans::assignment;
use crate::stuck::{show_strike, strikes};
use ag_grammar::Grammar;
use ag_value::Items;
use passassign::{AssignFault, Strike, Strikes, assign_with_strikes};
use planchecker::check_least;
use rows::words::{Mistake, halves, parts};
use std::alloc::{AllocError, Global};

/// Returns the strikes of the passes of a grammar's least assignment, as a row spells them
/// (`lists_of`). Fails with `Unfit` if the grammar has no legal assignment.
pub fn strikes_answer(alloc: Global, grammar: &Grammar) -> Result<String, Mistake> {
    match assign_with_strikes(alloc, grammar) {
        Ok((_, strikes)) => lists_text(alloc, strikes.lists.as_slice()),
        Err(AssignFault::Stuck(_)) => Err(Mistake::Unfit),
        Err(AssignFault::NoMemory) => Err(Mistake::NoMemory),
    }
}

/// Returns lists of strikes as a row spells them (`lists_of`).
fn lists_text(alloc: Global, lists: &[Items<Strike>]) -> Result<String, Mistake> {
    let mut out = String::new(alloc);
    for list in lists {
        out.push_str(if out.is_empty() { "" } else { " | " })?;
        show_list(&mut out, list.as_slice())?;
    }
    Ok(out)
}

/// Writes a list of strikes, or `-` if the list is empty.
fn show_list(out: &mut String, strikes: &[Strike]) -> Result<(), AllocError> {
    if strikes.is_empty() {
        return out.push_str("-");
    }
    let mut separator = "";
    for strike in strikes {
        out.push_str(separator)?;
        show_strike(out, strike)?;
        separator = " ";
    }
    Ok(())
}

/// Returns the lists of strikes that a row spells, separated by `|`; `none` spells no list.
fn lists_of(alloc: Global, text: &str) -> Result<Items<Items<Strike>>, Mistake> {
    let mut lists = Vec::new(alloc);
    if text != "none" {
        for list in parts(alloc, text, " | ")?.as_slice() {
            lists.push(strikes(alloc, list)?)?;
        }
    }
    Ok(Items::from_vec(lists))
}

/// Returns whether `check_least` accepts a row's assignment and strikes. If it does, no legal
/// assignment gives an attribute an earlier pass, so the assignment is the least one if it is legal
/// too. A row spells the assignment, ` : ` and the lists of strikes.
pub fn least_answer(alloc: Global, grammar: &Grammar, spelled: &str) -> Result<String, Mistake> {
    let (rows, lists) = halves(spelled, " : ")?;
    let assignment = assignment(alloc, rows)?;
    let strikes = Strikes {
        lists: lists_of(alloc, lists)?,
    };
    Ok(format!(in alloc; "{}", check_least(grammar, &assignment, &strikes))?)
}
