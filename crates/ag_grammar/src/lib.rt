//! Attribute grammars as data of the program (Knuth 1968): expression trees, symbols, productions
//! and rules, grammars as parsed from a text, accepted grammars, and directions of passes. The
//! specs define their meaning over these types: the value of an expression, the trees of a grammar,
//! their solutions, the legal assignments of passes, the values after consecutive passes, and the
//! number of rules of a tree.
//!
//! Notes such as (Knuth 1968), (the textbook) and (this project's) name the source of a definition;
//! `docs/DEFINITIONS.md` lists the sources.
#![tactic(auto)]

mod accepted;
mod direction;
mod grammar;
pub mod grammar_laws;
pub mod limits;
mod parts;
mod raw;
pub mod samples;
mod syntax;
pub mod value_laws;

pub use accepted::Grammar;
pub use direction::Direction;
pub use grammar::{Item, Production, Rule, Symbol, Target, Terminal};
pub use raw::{Named, RawGrammar, RawItem, RawProduction, RawRule, RawSymbol};
pub use syntax::expression::{Expr, occurrences};
pub use syntax::literal::Literal;
pub use syntax::node::{BinaryCall, Node, Operator, UnaryCall};
pub use syntax::occurrence::Occ;
