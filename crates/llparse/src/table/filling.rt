//! The columns of tables, one for each look-ahead, and the least conflict in them.
ghost use Rattle.std.specs.Prelude.{◌+◌, ◌<◌, length, IfOk};
ghost use Rattle.llparse.specs.table.Columns.{AreColumns, IsColumn, IsLeastAt, IsLeastBelow, IsLesserConflict};
ghost use Rattle.llparse.specs.table.Edges.{IsKnownAhead};
ghost use Rattle.llparse.specs.table.Predicted.{AreSets};
ghost use Rattle.closure.specs.Waiting.{rows};

use crate::ahead::Ahead;
use crate::table::choosing::{Column, Pair, choose};
use crate::table::nodes::Sizes;
use crate::table::predict::Sets;
use ag_grammar::Grammar;
use ag_value::NoMemory;
use std::alloc::Global;

/// Two productions that conflict, by their numbers, the lesser one first, and the look-ahead that
/// predicts both.
#[derive(Clone, Copy, PartialEq, Eq)]
pub(crate) struct Conflict {
    pub(crate) first: u16,
    pub(crate) second: u16,
    pub(crate) ahead: Ahead,
}

/// For each look-ahead, by its index, the choices for all symbols; and the least conflict of the
/// grammar.
#[derive(Drop)]
pub(crate) struct Columns {
    pub(crate) choices: Vec<Vec<Option<u16>>>,
    pub(crate) conflict: Option<Conflict>,
}

/// Returns the choices of one look-ahead and the least conflict at it. Fails with `NoMemory` if
/// memory is refused.
fn column_of(
    alloc: Global,
    grammar: &Grammar,
    sets: &Sets,
    ahead: Ahead,
) -> Result<Column, NoMemory>
    requires sets { AreSets grammar.now sets.now }
    requires known { IsKnownAhead grammar.now ahead }
    ensures column { IfOk result (λ column. IsColumn grammar.now ahead column.choices.items) }
    ensures least { IfOk result (λ column. IsLeastAt grammar.now ahead column.conflict) }
{
    let marks = sets.predicted(alloc, grammar, ahead)?;
    let symbols = grammar.symbols().len();
    let column = choose(alloc, grammar.productions(), marks.as_slice(), symbols)?;
    Ok(column)
}

/// Returns the lesser of two conflicts, in the order of `tables`: `least`, and the conflict of
/// `pair` at `ahead`. The look-ahead of `least` comes before `ahead`, so if both have the same
/// productions, `least` is the lesser. If there is only one conflict, returns this one, and `None`
/// if there is none.
fn lesser_conflict(least: Option<Conflict>, pair: Option<Pair>, ahead: Ahead) -> Option<Conflict>
    ensures { IsLesserConflict least pair ahead result }
{
    let Some(pair) = pair else {
        return least;
    };
    let found = Conflict {
        first: pair.first,
        second: pair.second,
        ahead,
    };
    let Some(least) = least else {
        return Some(found);
    };
    if pair.first < least.first {
        return Some(found);
    }
    if pair.first == least.first && pair.second < least.second {
        return Some(found);
    }
    Some(least)
}

/// Returns the columns of a grammar and its least conflict. Fails with `NoMemory` if memory is
/// refused.
pub(crate) fn columns_of(alloc: Global, grammar: &Grammar) -> Result<Columns, NoMemory>
    ensures columns { IfOk result (λ columns. AreColumns grammar.now
        (length grammar.now.literals + 4) (rows columns.choices.items)) }
    ensures least { IfOk result (λ columns. IsLeastBelow grammar.now
        (length grammar.now.literals + 4) columns.conflict) }
{
    let sets = Sets::of(alloc, grammar)?;
    let sizes = Sizes::of(grammar);
    let mut choices = Vec::new(alloc);
    let mut conflict = None;
    for index in 0..sizes.aheads() {
        let ahead = sizes.ahead(index);
        let column = column_of(alloc, grammar, &sets, ahead)?;
        conflict = lesser_conflict(conflict, column.conflict, ahead);
        choices.push(column.choices)?;
    }
    Ok(Columns { choices, conflict })
}
