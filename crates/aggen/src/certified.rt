//! A grammar's least assignment of passes, with strikes that show that it is the least one. A
//! strike is a reason why a pass can't compute an attribute.

ghost use Rattle.std.specs.Prelude.{ℕ, ◌≡◌, List, IfErr, IfOk};
ghost use Rattle.llparse.specs.Ahead.{HasNoConflict};
ghost use Rattle.passassign.specs.Least.{IsLeast};
ghost use Rattle.passassign.specs.PassStrikes.{AreStrikesOf};
ghost use Rattle.passassign.specs.Rows.{passes_of};
ghost use Rattle.aggen.specs.Building.{IsBuildFault};
ghost use Rattle.aggen.specs.Checking.{IsGrammarOf};

use crate::checking::grammar_of;
use ag_fault::{BuildFault, StuckGrammar};
use ag_grammar::Grammar;
use llparse::tables;
use passassign::{AssignFault, Assignment, Strikes, assign_with_strikes};
use std::alloc::Global;

/// A grammar with its least assignment, and the strikes that show that no attribute can have an
/// earlier pass. `planchecker::check_least` checks the strikes.
#[derive(Drop)]
pub struct CertifiedPlan {
    /// The grammar, which is accepted and has no conflict.
    pub grammar: Grammar,
    /// The pass of each attribute.
    pub assignment: Assignment,
    /// For each pass, a list with one strike of each attribute that has a later pass. A strike
    /// names a rule for the attribute, and an argument of this rule that the pass would need before
    /// the argument has a value.
    pub strikes: Strikes,
}

/// Returns the least assignment of the grammar of a text, with its strikes. Each least assignment
/// assigns the same passes, and so does the plan of the text's translator.
///
/// Fails as `Translator::build` does: with G1 to G4, N1 to N10, L1 or A1 if no translator can be
/// built from the text, and with NoMemory if memory is refused.
pub fn certify_plan(alloc: Global, text: &[u8]) -> Result<CertifiedPlan, BuildFault>
    ensures grammar { IfOk result (λ p. IsGrammarOf text.now p.grammar) }
    ensures free { IfOk result (λ p. HasNoConflict p.grammar) }
    ensures least { IfOk result (λ p. IsLeast p.grammar (passes_of p.assignment)) }
    // The plan of a translator has a least assignment too (`Translator::plan`).
    ensures same { IfOk result (λ p. (rows : List (List ℕ)) → IsLeast p.grammar (passes_of rows)
        → (s : ℕ) → passes_of rows s ≡ passes_of p.assignment s) }
    ensures strikes { IfOk result (λ p. AreStrikesOf p.grammar p.assignment p.strikes.lists) }
    ensures refused { IfErr result (λ e. IsBuildFault text.now e) }
{
    let grammar = grammar_of(alloc, text)?;
    // Only for its failure: a grammar with a conflict has no translator.
    let _tables = tables(alloc, &grammar)?;
    match assign_with_strikes(alloc, &grammar) {
        Ok((assignment, strikes)) => Ok(CertifiedPlan {
            grammar,
            assignment,
            strikes,
        }),
        Err(AssignFault::Stuck(stuck)) => Err(BuildFault::Assign(StuckGrammar { stuck, grammar })),
        Err(AssignFault::NoMemory) => Err(BuildFault::NoMemory),
    }
}
