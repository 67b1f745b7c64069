//! The list of all conflicts of a grammar, one for each pair of productions.
ghost use Rattle.std.specs.Prelude.{◌≡◌, ◌<◌, ◌+◌, length, IfOk, OnOk};
ghost use Rattle.closure.specs.Waiting.{rows};
ghost use Rattle.llparse.specs.table.Conflicts.{AreConflicts, AreConflictsBefore, AreMarks};
ghost use Rattle.llparse.specs.table.Conflicts.{IsLeastIndex, has_both};

use crate::table::fault::TableFault;
use crate::table::follow::is_marked;
use crate::table::nodes::Sizes;
use crate::table::predict::Sets;
use ag_grammar::Grammar;
use ag_value::NoMemory;
use std::alloc::Global;

/// Returns, for each look-ahead by its index, the marks of the productions that it predicts. Fails
/// with `NoMemory` if memory is refused.
fn marks_of(alloc: Global, grammar: &Grammar) -> Result<Vec<Vec<bool>>, NoMemory>
    ensures { IfOk result (λ marks. AreMarks grammar.now (rows marks.items)) }
{
    let sets = Sets::of(alloc, grammar)?;
    let sizes = Sizes::of(grammar);
    let mut lists = Vec::new(alloc);
    for index in 0..sizes.aheads() {
        let ahead = sizes.ahead(index);
        let marks = sets.predicted(alloc, grammar, ahead)?;
        lists.push(marks)?;
    }
    Ok(lists)
}

/// Returns whether two productions are marked.
fn has_both(marks: &[bool], first: usize, second: usize) -> bool
    ensures { result ≡ has_both marks.now first second }
{
    is_marked(marks, first) && is_marked(marks, second)
}

/// Returns the least index of a list of marks in which two productions are marked.
fn least_index(lists: &[Vec<bool>], first: usize, second: usize) -> Option<usize>
    ensures { IsLeastIndex (rows lists.now) first second result }
{
    for index in 0..lists.len() {
        if has_both(lists[index].as_slice(), first, second) {
            return Some(index);
        }
    }
    None
}

/// Adds the conflict of two productions with their least look-ahead, if there is one. `lists` has
/// the marks of the productions that each look-ahead predicts.
fn add_conflict(
    faults: &mut Vec<TableFault>,
    grammar: &Grammar,
    lists: &[Vec<bool>],
    first: usize,
    second: usize,
) -> Result<(), NoMemory>
    requires marks { AreMarks grammar.now (rows lists.now) }
    requires earlier { first < second }
    requires within { second < length grammar.now.productions }
    ensures { OnOk result (AreConflictsBefore grammar.now first second faults.old.items
        → AreConflictsBefore grammar.now first (second + 1) faults.new.items) }
{
    let productions = grammar.productions();
    let symbol = productions[first].left;
    if productions[second].left != symbol {
        return Ok(());
    }
    let Some(index) = least_index(lists, first, second) else {
        return Ok(());
    };
    let ahead = Sizes::of(grammar).ahead(index);
    faults.push(TableFault::Conflict {
        symbol,
        first: first as u16,
        second: second as u16,
        ahead,
    })?;
    Ok(())
}

/// Adds the conflicts of a production with those after it.
fn add_conflicts(
    faults: &mut Vec<TableFault>,
    grammar: &Grammar,
    lists: &[Vec<bool>],
    first: usize,
) -> Result<(), NoMemory>
    requires marks { AreMarks grammar.now (rows lists.now) }
    requires within { first < length grammar.now.productions }
    ensures { OnOk result (AreConflictsBefore grammar.now first (first + 1) faults.old.items
        → AreConflictsBefore grammar.now (first + 1) (first + 2) faults.new.items) }
{
    let productions = grammar.productions();
    for second in first + 1..productions.len() {
        add_conflict(faults, grammar, lists, first, second)?;
    }
    Ok(())
}

/// Returns all conflicts of a grammar: for each two productions of a symbol that some look-ahead
/// predicts both, L1 with the least such look-ahead. They are in order of the first production,
/// then of the second. So the list is empty exactly if the grammar has `tables`, and its head is
/// otherwise the L1 of `tables`. It has at most 130,816 conflicts: one for each two of 512
/// productions. Fails with `NoMemory` if memory is refused.
pub fn conflicts(alloc: Global, grammar: &Grammar) -> Result<Vec<TableFault>, NoMemory>
    ensures { IfOk result (λ faults. AreConflicts grammar.now faults.items) }
{
    let lists = marks_of(alloc, grammar)?;
    let mut faults = Vec::new(alloc);
    let productions = grammar.productions();
    for first in 0..productions.len() {
        add_conflicts(&mut faults, grammar, lists.as_slice(), first)?;
    }
    Ok(faults)
}
