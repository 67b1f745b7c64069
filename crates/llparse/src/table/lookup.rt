//! Tables of predictions, and looking them up.
ghost use Rattle.std.specs.Prelude.{◌≡◌};
ghost use Rattle.llparse.specs.table.Predicted.{choice_at};
ghost use Rattle.llparse.specs.table.Tables.{choice_of};

use crate::ahead::Ahead;
use crate::table::nodes::Sizes;
use std::marker::Model;

/// The production of each symbol at each look-ahead. Contracts see the number of literals and, for
/// each look-ahead, the choices for all symbols. Takes memory for an `Option<u16>` for each pair of
/// a symbol and a look-ahead.
#[derive(Drop)]
pub struct Tables {
    pub(crate) literals: u16,
    pub(crate) columns: Vec<Vec<Option<u16>>>,
}

impl Model for Tables {
    ghost use Rattle.std.specs.Coded.{codes};
    ghost use Rattle.closure.specs.Waiting.{rows};
    ghost use Rattle.llparse.specs.table.Tables.{Choices};

    ghost Value = { Choices };

    ghost coded = { Prim.hlevel codes };

    ghost view = { λ t. record {
      literals = t.literals;
      columns = rows t.columns.items;
    } };
}

/// Returns the entry of a symbol, or `None` if there is none.
#[inline(always)]
fn entry(choices: &[Option<u16>], symbol: usize) -> Option<u16>
    ensures { result ≡ choice_at choices.now symbol }
{
    if symbol < choices.len() {
        return choices[symbol];
    }
    None
}

impl Tables {
    /// Returns the production of a symbol at a look-ahead, in constant time, or `None` if the
    /// tables have none. If the tables fit a grammar, `None` means that the look-ahead predicts no
    /// production of the symbol. Takes no memory.
    #[inline(always)]
    pub fn choice(&self, symbol: u16, ahead: Ahead) -> Option<u16>
        ensures { result ≡ choice_of self.now symbol ahead }
    {
        // indices of look-aheads do not depend on the number of symbols
        let sizes = Sizes {
            symbols: 0,
            literals: self.literals,
        };
        let index = sizes.index(ahead);
        if sizes.knows(ahead) && index < self.columns.len() {
            return entry(self.columns[index].as_slice(), symbol as usize);
        }
        None
    }
}
