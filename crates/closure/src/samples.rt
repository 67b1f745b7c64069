//! Worked examples of the definitions, each a law.

ghost use Rattle.closure.specs.Edges.{clause_of_edge};
ghost use Rattle.closure.specs.Following.{Follows};
ghost use Rattle.closure.specs.Samples.{sample, two_edges};
ghost use Rattle.std.specs.Prelude.{[], ◌∷◌, map};

/// States that 1 follows from the clauses `sample` without seeds, and that 2 doesn't follow: 2
/// needs 3, and 3 needs 2.
#[tactic(auto, using(crate::proofs::Sample::without_seeds))]
pub fn without_seeds()
    ensures follows { Follows sample [] 1 }
    ensures waits { Follows sample [] 2 → ⊥ }
{}

/// States that 2 follows from the clauses `sample` if 3 is a seed.
#[tactic(auto, using(crate::proofs::Sample::with_seed))]
pub fn with_seed()
    ensures { Follows sample (3 ∷ []) 2 }
{}

/// States what is reached from the seed 0 along `two_edges`, an edge from 0 to 1 and one from 1 to
/// 2: the number 2 is, and 3 isn't.
#[tactic(auto, using(crate::proofs::Sample::two_is_reached, crate::proofs::Sample::three_is_not))]
pub fn edges_lead_on()
    ensures reached { Follows (map clause_of_edge two_edges) (0 ∷ []) 2 }
    ensures unreached { Follows (map clause_of_edge two_edges) (0 ∷ []) 3 → ⊥ }
{}
