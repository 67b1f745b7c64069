//! Expressions: a tree and the list of its occurrences.

ghost use Rattle.std.specs.Prelude.{◌≡◌, length, true};
ghost use Rattle.ag_grammar.specs.expressions.Occurrences.{AreDifferent};
ghost use Rattle.ag_grammar.specs.expressions.Trees.{is_below};

use crate::syntax::node::Node;
use crate::syntax::occurrence::Occ;
use smallvec::SmallVec;
use std::marker::Model;

/// An expression: its tree, and the list of its distinct occurrences. The parser lists them in the
/// order of their first appearance. Contracts see a record of both, `Expression`.
#[derive(Debug, Drop)]
pub struct Expr {
    node: Node,
    occurrences: SmallVec<Occ, 4>,
}

impl Model for Expr {
    ghost use Rattle.std.specs.Prelude.{◌≡◌, length, true};
    ghost use Rattle.ag_grammar.specs.expressions.Occurrences.{AreDifferent};
    ghost use Rattle.ag_grammar.specs.expressions.Trees.{is_below};
    ghost use Rattle.std.specs.Coded.{codes};
    ghost use Rattle.ag_grammar.specs.contracts.syntax.node.Node as node_row;
    ghost use Rattle.ag_grammar.specs.expressions.Expression.{Expression};

    ghost Value = { Expression };

    ghost coded = { Prim.hlevel (codes, node_row.the_row.coded) };

    ghost view = { λ e. record { tree = e.node; occurrences = e.occurrences.items } };

    ghost invariant = { λ e. (is_below (length e.occurrences.items) e.node ≡ true)
        × AreDifferent e.occurrences.items };
}

impl Expr {
    /// Makes the expression from a tree and the list of occurrences to which the tree refers by
    /// index. No two occurrences may have the same place and name. Each occurrence in the tree must
    /// be an index of the list, and each bound name in the tree must be bound around it. Nothing is
    /// checked at run time.
    pub fn new(node: Node, occurrences: SmallVec<Occ, 4>) -> Expr
        requires below { is_below (length occurrences.items) node ≡ true }
        requires different { AreDifferent occurrences.items }
        ensures { result ≡ record { tree = node; occurrences = occurrences.items } }
    {
        Expr { node, occurrences }
    }

    /// Returns the tree.
    pub fn tree(&self) -> &Node
        ensures value { result.now ≡ self.now.tree }
        ensures below { is_below (length self.now.occurrences) result.now ≡ true }
    {
        &self.node
    }
}

/// Returns the distinct occurrences of an expression, in the order in which `Expr::new` got them.
pub fn occurrences(expr: &Expr) -> &[Occ]
    ensures lent { result.now ≡ expr.now.occurrences }
    ensures listed { is_below (length result.now) expr.now.tree ≡ true }
    ensures different { AreDifferent result.now }
{
    expr.occurrences.as_slice()
}
