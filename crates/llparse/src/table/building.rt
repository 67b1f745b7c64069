//! Building the tables of a grammar, or finding its least conflict.
ghost use Rattle.std.specs.Prelude.{◌≡◌, ℕ, Err, IfOk};
ghost use Rattle.llparse.specs.Ahead.{HasNoConflict};
ghost use Rattle.llparse.specs.table.Tables.{FitsGrammar, IsLeastConflict};
ghost use Rattle.llparse.specs.declared.ahead.Ahead.{Ahead as AnAhead};

use crate::table::fault::TableFault;
use crate::table::filling::columns_of;
use crate::table::lookup::Tables;
use crate::table::nodes::Sizes;
use ag_grammar::Grammar;
use std::alloc::Global;

/// Builds the tables of a grammar from the predictions of its productions.
///
/// Fails with L1 Conflict if the grammar has a conflict, and returns the least one. Conflicts are
/// ordered by the first production, then the second, then the look-ahead: literals by their
/// numbers, then classes, then the end. Fails with NoMemory if memory is refused.
pub fn tables(alloc: Global, grammar: &Grammar) -> Result<Tables, TableFault>
    ensures fits { IfOk result (λ tables. FitsGrammar grammar.now tables) }
    ensures free { IfOk result (λ tables. HasNoConflict grammar.now) }
    ensures conflict { (symbol first second : ℕ) (x : AnAhead) → result
        ≡ Err (TableFault.Conflict symbol first second x)
        → IsLeastConflict grammar.now symbol first second x }
{
    let columns = columns_of(alloc, grammar)?;
    if let Some(least) = columns.conflict {
        return Err(TableFault::Conflict {
            symbol: grammar.productions()[least.first as usize].left,
            first: least.first,
            second: least.second,
            ahead: least.ahead,
        });
    }
    Ok(Tables {
        literals: Sizes::of(grammar).literals,
        columns: columns.choices,
    })
}
