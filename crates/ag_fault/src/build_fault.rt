//! Why a translator can't be built from a grammar's text.

ghost use Rattle.std.specs.Prelude.{◌≡◌};
ghost use Rattle.ag_fault.specs.Faults.{build_fault_of_normal, build_fault_of_table};
ghost use Rattle.ag_fault.specs.Faults.{build_fault_of_text};
ghost use Rattle.ag_fault.specs.declared.build_fault.BuildFault.TheVariants as build_fault;

use crate::stuck_grammar::StuckGrammar;
use ag_text::TextFault;
use ag_value::NoMemory;
use llparse::TableFault;
use normalform::NormalFault;
use thiserror::Error;

/// Why a translator can't be built from a grammar's text. Calls of the crate `aggen` return refused
/// memory only as `NoMemory`, never inside another variant.
#[derive(Debug, Drop, Error)]
pub enum BuildFault {
    /// G1 to G4: the text can't be read as a grammar.
    #[error(transparent)]
    Text(TextFault),
    /// N1 to N10: the grammar is not accepted.
    #[error(transparent)]
    Normal(NormalFault),
    /// L1: one token of look-ahead doesn't determine the next production.
    #[error(transparent)]
    Table(TableFault),
    /// A1: no assignment of passes to the grammar's attributes is legal. No conversion makes this
    /// variant: `Translator::build` and `certify_plan` of `aggen` do.
    #[error(transparent)]
    Assign(StuckGrammar),
    /// A request for memory was refused.
    #[error("NoMemory a request for memory was refused")]
    NoMemory,
}

impl From<TextFault> for BuildFault {
    ghost from_gives = { λ fault e. e ≡ build_fault_of_text fault };

    fn from(fault: TextFault) -> BuildFault {
        match fault {
            TextFault::NoMemory => BuildFault::NoMemory,
            _ => BuildFault::Text(fault),
        }
    }
}

impl From<NormalFault> for BuildFault {
    ghost from_gives = { λ fault e. e ≡ build_fault_of_normal fault };

    fn from(fault: NormalFault) -> BuildFault {
        match fault {
            NormalFault::NoMemory => BuildFault::NoMemory,
            other => BuildFault::Normal(other),
        }
    }
}

impl From<TableFault> for BuildFault {
    ghost from_gives = { λ fault e. e ≡ build_fault_of_table fault };

    fn from(fault: TableFault) -> BuildFault {
        match fault {
            TableFault::NoMemory => BuildFault::NoMemory,
            _ => BuildFault::Table(fault),
        }
    }
}

impl From<NoMemory> for BuildFault {
    ghost from_gives = { λ _ e. e ≡ build_fault.NoMemory };

    fn from(_error: NoMemory) -> BuildFault {
        BuildFault::NoMemory
    }
}
