//! The reasons why a grammar has no tables.
ghost use Rattle.std.specs.Prelude.{◌≡◌};
ghost use Rattle.llparse.specs.declared.table.fault.TableFault.TheVariants as table_fault;

use crate::ahead::Ahead;
use ag_value::NoMemory;
use thiserror::Error;

/// The reasons why a grammar has no tables.
#[derive(Clone, Copy, Debug, PartialEq, Eq, Error)]
pub enum TableFault {
    /// L1: two productions of a symbol are predicted by the same look-ahead, `ahead`. The symbol
    /// and the productions are given by their numbers; `first` is the lesser one.
    Conflict {
        symbol: u16,
        first: u16,
        second: u16,
        ahead: Ahead,
    },
    /// The allocator refused memory.
    NoMemory,
}

impl From<NoMemory> for TableFault {
    ghost from_gives = { λ _ e. e ≡ table_fault.NoMemory };

    fn from(_error: NoMemory) -> TableFault {
        TableFault::NoMemory
    }
}
