//! Flat expressions: literals, occurrences and chains of these. If the value of each literal and
//! occurrence is a number or an error, and no `++` joins two numbers, the value is computed without
//! making an `Operand`. (A flat text, list or table is something else: one that is stored as a
//! `Value`.)

ghost use Rattle.std.specs.Prelude.{◌≡◌, length, map, true, [], IfSome};
ghost use Rattle.ag_eval.specs.Operands.{scalar_value};
ghost use Rattle.ag_grammar.specs.expressions.Evaluation.{chain_value, value_in, value_of};
ghost use Rattle.ag_grammar.specs.expressions.Trees.{all_below, is_within};

use crate::calls::apply_to_scalars;
use crate::environment::Lender;
use crate::evaluation::Evaluation;
use crate::scalar::Scalar;
use ag_grammar::{Node, Operator};
use ag_value::Value;

impl<'e, V: Lender> Evaluation<'e, V> {
    /// Returns the value of a number literal, or of an occurrence that is a scalar. Returns `None`
    /// for another node.
    #[inline(always)]
    fn flat_operand(&self, node: &Node) -> Option<Scalar>
        requires { is_within (length self.now.expr.now.occurrences) node.now 0 ≡ true }
        ensures { IfSome result (λ s. scalar_value s
            ≡ value_in node.now (V.lent self.now.env.now) []) }
    {
        match node {
            Node::Occurrence(k) => self.scalar_occurrence(*k),
            Node::Literal(literal) => {
                let Value::Num(number) = literal.value() else {
                    return None;
                };
                Some(Scalar::Number(*number))
            }
            _ => None,
        }
    }

    /// Computes the value of a chain of flat operands. Returns `None` if `flat_operand` returns
    /// `None` for an operand, and for `++` of two numbers.
    #[inline(always)]
    fn flat_chain(&self, first: &Node, others: &[(Operator, Node)]) -> Option<Scalar>
        requires first { is_within (length self.now.expr.now.occurrences) first.now 0 ≡ true }
        requires below { all_below (length self.now.expr.now.occurrences) 0 others.now ≡ true }
        ensures { IfSome result (λ s. scalar_value s
            ≡ chain_value (V.lent self.now.env.now) []
            (value_in first.now (V.lent self.now.env.now) [])
            (map (λ p. (p.0, value_in p.1)) others.now)) }
    {
        let mut so_far = self.flat_operand(first)?;
        for other in others {
            let right = self.flat_operand(&other.1)?;
            so_far = apply_to_scalars(other.0, so_far, right)?;
        }
        Some(so_far)
    }

    /// Computes the value of the expression, if it is flat and each of its operands is a scalar.
    /// Returns `None` otherwise, and for `++` of two numbers.
    #[inline(always)]
    #[tactic(auto, using(ag_grammar::proofs::expressions::Trees::parts))]
    pub fn flat_scalar(&self) -> Option<Scalar>
        ensures { IfSome result (λ s. scalar_value s
            ≡ value_of self.now.expr.now.tree (V.lent self.now.env.now)) }
    {
        let node = self.tree();
        if let Node::Chain(first, others) = node {
            return self.flat_chain(first.get(), others.as_slice());
        }
        self.flat_operand(node)
    }
}
