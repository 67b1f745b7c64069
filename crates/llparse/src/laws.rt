//! Laws about look-ahead and trees, and worked examples, each the contract of a function that does
//! nothing.

ghost use Rattle.std.specs.Prelude.{◌≡◌, [], ◌∷◌, Some, None};
ghost use Rattle.ag_grammar.specs.declared.grammar.Terminal.TheVariants.{Class, Literal};
ghost use Rattle.ag_grammar.specs.grammars.Sample.{sample};
ghost use Rattle.llparse.specs.Ahead.{HasNoConflict, IsConflict};
ghost use Rattle.llparse.specs.Laws.{OneTree, TextsAreGiven, LeftTreesAreBeyondTheLimit};
ghost use Rattle.llparse.specs.Laws.{OneListOfConflicts, EmptyIfFree, HeadIsLeast};
ghost use Rattle.llparse.specs.table.Conflicts.{AreConflicts};
ghost use Rattle.llparse.specs.table.Nodes.{index_of};
ghost use Rattle.llparse.specs.table.Tables.{choice_of, IsChoice, IsLeastConflict};
ghost use Rattle.llparse.specs.Worked.{its_conflict, left_recursive, small_tables};
ghost use Rattle.llparse.specs.declared.ahead.Ahead.TheVariants as ahead;

/// States that a grammar without a conflict has at most one tree with a given yield.
pub fn one_tree()
    ensures { OneTree }
{}

/// States that if words (terminals with their texts) leave only trees beyond a limit, each tree of
/// these words is beyond the limit. P2 and P3 state this premise, `LeavesOnly`, of a sentence's
/// words.
pub fn left_trees_are_beyond_the_limit()
    ensures { LeftTreesAreBeyondTheLimit }
{}

/// States that each tree has values that give each of its leaves its text. The clause `file` of
/// `parse` is about such values, so it says something of each tree.
pub fn texts_are_given()
    ensures { TextsAreGiven }
{}

/// States that a grammar has one list of all conflicts.
pub fn one_list_of_conflicts()
    ensures { OneListOfConflicts }
{}

/// States that the list of all conflicts is empty exactly if the grammar has no conflict.
pub fn empty_if_free()
    ensures { EmptyIfFree }
{}

/// States that the head of the list of all conflicts is the least conflict.
pub fn head_is_least()
    ensures { HeadIsLeast }
{}

/// Worked example: the two productions `L = L "x"` and `L = "x"` conflict at `x`.
#[tactic(auto, using(crate::proofs::Examples::left_recursion))]
pub fn left_recursion_conflicts()
    ensures { IsConflict left_recursive 0 1 (ahead.Terminal (Literal 0)) }
{}

/// Worked example: the grammar `sample`, whose one sentence is `x x`, has no conflict.
pub fn sample_is_free()
    ensures { HasNoConflict sample }
{}

/// Worked example: the conflict of `L = L "x"` and `L = "x"` at `x` is the least one of that
/// grammar, and its symbol has the number 0.
#[tactic(auto, using(crate::proofs::Examples::left_recursion_least))]
pub fn left_recursion_is_least()
    ensures { IsLeastConflict left_recursive 0 0 1 (ahead.Terminal (Literal 0)) }
{}

/// Worked example: the list of all conflicts of that grammar has this conflict alone.
#[tactic(auto, using(crate::proofs::Examples::left_recursion_listed))]
pub fn left_recursion_is_listed()
    ensures { AreConflicts left_recursive (its_conflict ∷ []) }
{}

/// Worked example: the look-ahead `x` predicts the production `L = L "x"`.
#[tactic(auto, using(crate::proofs::Examples::first_choice))]
pub fn left_recursion_is_a_choice()
    ensures { IsChoice left_recursive 0 (ahead.Terminal (Literal 0)) 0 }
{}

/// Worked example: the choices of small tables at a literal, at the end, at a class where they have
/// no production, and at a literal that the grammar does not have.
pub fn small_tables_are_read()
    ensures literal { choice_of small_tables 0 (ahead.Terminal (Literal 0)) ≡ Some 0 }
    ensures end { choice_of small_tables 0 ahead.End ≡ Some 1 }
    ensures class { choice_of small_tables 0 (ahead.Terminal (Class 2)) ≡ None }
    ensures unknown { choice_of small_tables 0 (ahead.Terminal (Literal 1)) ≡ None }
{}

/// Worked example: the order of look-aheads for two literals: the literals, the classes, the end.
pub fn indices_are_in_order()
    ensures literals { index_of 2 (ahead.Terminal (Literal 1)) ≡ 1 }
    ensures classes { index_of 2 (ahead.Terminal (Class 0)) ≡ 2 }
    ensures end { index_of 2 ahead.End ≡ 5 }
{}
