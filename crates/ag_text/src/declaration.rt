//! Declarations of both kinds.

use ag_grammar::{RawProduction, RawSymbol};

/// A declaration. After a fault the parser accepts both kinds in any order.
#[derive(Drop)]
pub enum Declaration {
    /// The declaration of a symbol.
    Symbol(RawSymbol),
    /// A production.
    Production(RawProduction),
}
