//! Worked examples of the definitions. Each function is a law: its contract is a fact, and the
//! function does nothing. The first grammar is `sample` of `specs/grammars/Sample.antt`, whose one
//! sentence is `x x`; the second one, `token_sample`, has a NAME.

ghost use Rattle.std.specs.Prelude.{ℕ, ◌≡◌, [], ◌∷◌, pos, true, false};
ghost use Rattle.ag_value.specs.declared.value.Value.{Num, Text, Value as AttributeValue};
ghost use Rattle.ag_grammar.specs.declared.grammar.Terminal.TheVariants.{Literal, Class};
ghost use Rattle.ag_grammar.specs.expressions.Evaluation.{value_of};
ghost use Rattle.ag_grammar.specs.expressions.Occurring.{has_occurrence};
ghost use Rattle.ag_grammar.specs.grammars.Accepted.{IsAccepted, IsComplete, IsNormal, IsProductive};
ghost use Rattle.ag_grammar.specs.grammars.Accepted.{IsReached};
ghost use Rattle.ag_grammar.specs.grammars.Order.{IsInOrder};
ghost use Rattle.ag_grammar.specs.grammars.Tree.{node, none, more, IsTreeOf, depth_of, node_count};
ghost use Rattle.ag_grammar.specs.grammars.Tree.{IsWithinLimits, max_depth, max_nodes};
ghost use Rattle.ag_grammar.specs.grammars.Yield.{yield_of};
ghost use Rattle.ag_grammar.specs.grammars.Passes.{IsLegal, Passes};
ghost use Rattle.ag_grammar.specs.grammars.Counts.{rules_of, rules_of_pass};
ghost use Rattle.ag_grammar.specs.grammars.Running.{IsLastPass, IsTheSolution, RanThrough};
ghost use Rattle.ag_grammar.specs.grammars.Solution.{Solves, AnyRule, IsTranslation, Valuation};
ghost use Rattle.ag_grammar.specs.grammars.Sample.{bare, both_ways, doubled, sample, without_out};
ghost use Rattle.ag_grammar.specs.grammars.Sample.{production_r, rule_out, rule_first, rule_second};
ghost use Rattle.ag_grammar.specs.grammars.Sample.{rule_s};
ghost use Rattle.ag_grammar.specs.grammars.Sample.{rule_inherited, later_passes, endless};
ghost use Rattle.ag_grammar.specs.grammars.Sample.{with_unreached, sample_tree, sample_values};
ghost use Rattle.ag_grammar.specs.grammars.Sample.{sample_passes, token_sample, token_tree};
ghost use Rattle.ag_grammar.specs.grammars.Sample.{token_values, iffy, back_first, descending};

/// States that the first grammar is accepted.
#[tactic(auto, using(crate::proofs::grammars::samples::NumberSample::accepted))]
pub fn sample_accepted()
    ensures { IsAccepted sample }
{}

/// States that the first production of the first grammar is not complete without the rule for `out`
/// of the left side.
#[tactic(auto, using(crate::proofs::grammars::samples::NumberSample::missing))]
pub fn rule_missing()
    ensures { IsComplete without_out (production_r (rule_first ∷ rule_second ∷ [])) → ⊥ }
{}

/// States that the first grammar is not accepted without the rule for `out`.
#[tactic(auto, using(crate::proofs::grammars::samples::NumberSample::refused))]
pub fn missing_refused()
    ensures { IsAccepted without_out → ⊥ }
{}

/// States that the first grammar is not accepted with the rule for the second child's `i` twice.
#[tactic(auto, using(crate::proofs::grammars::samples::NumberSample::doubled_refused))]
pub fn doubled_refused()
    ensures { IsAccepted doubled → ⊥ }
{}

/// States that the first grammar is not accepted if a rule's expression has an occurrence but the
/// rule has no argument for it.
#[tactic(auto, using(crate::proofs::grammars::samples::NumberSample::bare_refused))]
pub fn bare_refused()
    ensures { IsAccepted bare → ⊥ }
{}

/// States that the tree of `x x` is a tree of the first grammar.
#[tactic(auto, using(crate::proofs::grammars::samples::NumberSample::fits))]
pub fn sample_fits()
    ensures { IsTreeOf sample sample_tree }
{}

/// States that the tree of `x x` has depth 2 and 3 nodes, and is within the limits.
pub fn sample_size()
    ensures depth { depth_of sample_tree ≡ 2 }
    ensures nodes { node_count sample_tree ≡ 3 }
    ensures limits { IsWithinLimits max_depth max_nodes sample_tree }
{}

/// States that the tree of `x x` yields the literal `x` twice.
pub fn sample_yield()
    ensures { yield_of sample sample_tree ≡ (Literal 0, 120 ∷ []) ∷ (Literal 0, 120 ∷ []) ∷ [] }
{}

/// States that the values with 2 for `out` solve the first grammar on the tree of `x x`.
#[tactic(auto, using(crate::proofs::grammars::samples::NumberSample::solved))]
pub fn sample_solved()
    ensures { Solves AnyRule sample sample_tree (sample_values 2) }
{}

/// States that the same values with 1 for `out` do not solve the first grammar on the tree of
/// `x x`.
#[tactic(auto, using(crate::proofs::grammars::samples::NumberSample::unsolved))]
pub fn sample_unsolved()
    ensures { Solves AnyRule sample sample_tree (sample_values 1) → ⊥ }
{}

/// States that the translation is 2 if the values of the tree of `x x` have 2 for `out`.
#[tactic(auto, using(crate::proofs::grammars::samples::NumberSample::translation))]
pub fn sample_translation()
    ensures { IsTranslation sample (sample_values 2) (Num (pos 2)) }
{}

/// States that pass 1 for all attributes is a legal assignment of the first grammar.
pub fn sample_legal()
    ensures { IsLegal sample sample_passes }
{}

/// States that the tree of `x x` has five rules: three at the root, and one at each of the two
/// children. All are rules of pass 1 if all attributes have pass 1.
pub fn sample_counts()
    ensures rules { rules_of sample sample_tree ≡ 5 }
    ensures first { rules_of_pass sample_passes 1 sample sample_tree ≡ 5 }
    ensures second { rules_of_pass sample_passes 2 sample sample_tree ≡ 0 }
{}

/// States three facts of the first grammar if all attributes have pass 1: no attribute has a later
/// pass; on the tree of `x x`, pass 1 leaves the values with 2 for `out`, whatever values it begins
/// with; and these values are the solution.
#[tactic(auto, using(crate::proofs::grammars::Running::sample_settled))]
pub fn sample_ran()
    ensures last { IsLastPass 1 sample_passes }
    ensures ran { (u : Valuation)
        → RanThrough sample sample_passes sample_tree u 1 2 (sample_values 2) }
    ensures solution { IsTheSolution sample sample_passes sample_tree (sample_values 2) }
{
    // the proof of `solution` needs the contract of this law
    sample_legal();
}

/// States that `$0.i + 1` contains occurrence 0 and not occurrence 1. Hence two environments with
/// the same value for occurrence 0 give the expression the same value.
#[tactic(auto, using(crate::proofs::expressions::Depending::one_occurrence))]
pub fn one_occurrence()
    ensures occurs { has_occurrence 0 rule_s.expr.tree ≡ true }
    ensures alone { has_occurrence 1 rule_s.expr.tree ≡ false }
    ensures same { (env other : ℕ → AttributeValue) → env 0 ≡ other 0
        → value_of rule_s.expr.tree env ≡ value_of rule_s.expr.tree other }
{}

/// States that the first production of the first grammar is not normal with the rule `$2.i = $1.i`.
#[tactic(auto, using(crate::proofs::grammars::samples::Refused::not_normal))]
pub fn not_normal()
    ensures { IsNormal sample (production_r (rule_out ∷ rule_first ∷ rule_inherited ∷ [])) → ⊥ }
{}

/// States that a node of `R = A A` with only one child is not a tree of the first grammar.
#[tactic(auto, using(crate::proofs::grammars::samples::Refused::child_missing))]
pub fn child_missing()
    ensures { IsTreeOf sample (node 0 (more (node 1 none) none)) → ⊥ }
{}

/// States that pass 2 for all attributes of the first grammar is not legal: going from left to
/// right, it visits the first child before the value that this child's `i` uses is computed.
#[tactic(auto, using(crate::proofs::grammars::samples::Refused::not_legal))]
pub fn not_legal()
    ensures { IsLegal sample later_passes → ⊥ }
{}

/// States that two grammars are in order: the first grammar with one more production, for `R`,
/// which contains a second literal; and the second grammar.
#[tactic(auto, using(crate::proofs::grammars::samples::Ordered::two_literals))]
pub fn samples_in_order()
    ensures literals { IsInOrder both_ways }
    ensures classes { IsInOrder token_sample }
{}

/// States that two grammars are not in order: the first grammar with the added production first,
/// where literal 1 appears before literal 0; and the second grammar with the classes 1, 0, which do
/// not ascend.
#[tactic(auto, using(crate::proofs::grammars::samples::Ordered::exchanged))]
pub fn not_in_order()
    ensures literals { IsInOrder back_first → ⊥ }
    ensures classes { IsInOrder descending → ⊥ }
{}

/// States that the grammar `both_ways` has no legal assignment, with any number of passes. This is
/// the first grammar with one more production, in which the second child's `i` uses the first
/// child's `s`. Since `s` and `i` use each other, a legal assignment would give them the same pass,
/// and each direction is wrong for one of the two productions of `R`.
pub fn none_legal()
    ensures { (m : Passes) → IsLegal both_ways m → ⊥ }
{}

/// States that a symbol whose only production is `R = R` derives no list of terminals.
#[tactic(auto, using(crate::proofs::grammars::samples::Refused::not_productive))]
pub fn not_productive()
    ensures { IsProductive endless 0 → ⊥ }
{}

/// States that the third symbol of a grammar is not reached: it occurs on no right side, and is not
/// the start symbol.
#[tactic(auto, using(crate::proofs::grammars::samples::Refused::not_reached))]
pub fn not_reached()
    ensures { IsReached with_unreached 2 → ⊥ }
{}

/// States that the second grammar, which has a NAME, is accepted.
#[tactic(auto, using(crate::proofs::grammars::samples::TokenSample::accepted))]
pub fn token_accepted()
    ensures { IsAccepted token_sample }
{}

/// States that the tree of `iffy if`, which has a NAME, is a tree of the second grammar.
#[tactic(auto, using(crate::proofs::grammars::samples::TokenSample::fits))]
pub fn token_fits()
    ensures { IsTreeOf token_sample token_tree }
{}

/// States that the tree of `iffy if` has depth 2 and 2 nodes: the NAME counts as a node, and the
/// literal does not.
pub fn token_size()
    ensures depth { depth_of token_tree ≡ 2 }
    ensures nodes { node_count token_tree ≡ 2 }
{}

/// States that the tree of `iffy if` yields the name `iffy` and then the literal `if`.
pub fn token_yield()
    ensures { yield_of token_sample token_tree
        ≡ (Class 0, iffy) ∷ (Literal 0, 105 ∷ 102 ∷ []) ∷ [] }
{}

/// States that the values with the name for `out` solve the second grammar on the tree of
/// `iffy if`.
#[tactic(auto, using(crate::proofs::grammars::samples::TokenSample::solved))]
pub fn token_solved()
    ensures { Solves AnyRule token_sample token_tree (token_values iffy) }
{}

/// States that the values with the empty text for `out` do not solve the second grammar on the tree
/// of `iffy if`.
#[tactic(auto, using(crate::proofs::grammars::samples::TokenSample::unsolved))]
pub fn token_unsolved()
    ensures { Solves AnyRule token_sample token_tree (token_values []) → ⊥ }
{}

/// States that the translation is the name if the values of the tree of `iffy if` have the name for
/// `out`.
#[tactic(auto, using(crate::proofs::grammars::samples::TokenSample::translation))]
pub fn token_translation()
    ensures { IsTranslation token_sample (token_values iffy) (Text iffy) }
{}
