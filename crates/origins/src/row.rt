//! The values in the record of a node.

ghost use Rattle.std.specs.Prelude.{◌≤◌, All, length};
ghost use Rattle.ag_value.specs.Well.{IsWell};
ghost use Rattle.ag_grammar.specs.grammars.Accepted.{max_items};

use ag_grammar::{Grammar, Production};
use ag_value::Value;

/// The values in the record of a node in the file of the last pass: those of its own attributes,
/// copies of its children's synthesized ones, and the texts of the tokens among its children.
///
/// Two invariants: the production has at most 64 items (`few`), so indices of values don't
/// overflow; and the values are well (`well`), as evaluations require.
#[derive(Drop)]
pub struct Row<'a> {
    /// The grammar.
    pub grammar: &'a Grammar,
    /// The node's production.
    pub production: &'a Production,
    /// The values, in the order of the record.
    pub values: &'a [Value],
    ghost few: { length production.now.items ≤ max_items },
    ghost well: { All IsWell values.now },
}
