//! Laws about the definitions alone: each is a function with an empty body, whose contract is the
//! fact.

ghost use Rattle.ag_grammar.specs.grammars.Laws.{ProductiveByTrees, OneSolution, OneTranslation};
ghost use Rattle.ag_grammar.specs.grammars.Laws.{EquationsKept, PassesSolve, PassesHaveAllRules};
ghost use Rattle.ag_grammar.specs.grammars.Laws.{RunBegins, RunGoesOn, RunIsTheSolution};
ghost use Rattle.ag_grammar.specs.grammars.Laws.{RunSolvesRest};

/// States that a symbol derives a list of terminals if and only if it has a tree.
#[tactic(auto, using(crate::proofs::grammars::Productive::by_trees))]
pub fn productive_by_trees()
    ensures { ProductiveByTrees }
{}

/// States that any two solutions on a tree are the same, if the grammar is complete and normal, has
/// a legal assignment of passes, and its start symbol has `out` and no inherited attribute.
#[tactic(auto, using(crate::proofs::grammars::OneSolution::one_solution))]
pub fn one_solution()
    ensures { OneSolution }
{}

/// States that a tree of an accepted grammar with a legal assignment has at most one translation.
pub fn one_translation()
    ensures { OneTranslation }
{}

/// States that the equations of a pass stay true if only values of later passes change. The law
/// requires that the rules use only what the assignment of passes allows.
#[tactic(auto, using(crate::proofs::grammars::Kept::equations_kept))]
pub fn equations_kept()
    ensures { EquationsKept }
{}

/// States that values that satisfy the equations of every pass are a solution, if the target of
/// each rule has a pass.
pub fn passes_solve()
    ensures { PassesSolve }
{}

/// States which values consecutive passes leave. Before the first of them, the values must give
/// each leaf its text, and are not restricted otherwise. One more pass has run if it keeps the
/// values of the passes before it and satisfies its own equations. After the last pass, the
/// equations of the first of these passes and of all later ones are satisfied. If the first was
/// pass 1, the values are the solution, for an accepted grammar with a legal assignment.
pub fn runs_compose()
    ensures begins { RunBegins }
    ensures goes { RunGoesOn }
    ensures rest { RunSolvesRest }
    ensures solution { RunIsTheSolution }
{}

/// States that, for an accepted grammar with a legal assignment, the number of rules of a tree is
/// the sum of the numbers of its rules of each pass, up to the last pass.
pub fn passes_have_all_rules()
    ensures { PassesHaveAllRules }
{}
