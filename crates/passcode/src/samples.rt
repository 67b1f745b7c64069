//! Worked examples of the definitions, each a law, for pass 1. All but the last are about the
//! production `R = A A { $0.out = $1.s; $1.i = $2.s; $2.i = 0; }` (`sample_production`). The lists
//! are in `specs/Sample.antt`.

ghost use Rattle.std.specs.Prelude.{◌≡◌, Some, count_by};
ghost use Rattle.ag_grammar.specs.grammars.Counts.{pass_rule_count};
ghost use Rattle.ag_grammar.specs.grammars.Sample.{sample_passes};
ghost use Rattle.passcode.specs.Agreement.{ListAgrees};
ghost use Rattle.passcode.specs.Counts.{is_computation};
ghost use Rattle.passcode.specs.Course.{IsVisited, Runs, place_of, start};
ghost use Rattle.passcode.specs.Listing.{generated_list};
ghost use Rattle.passcode.specs.Sample.{sample_production, sample_list, forward_list, late_list};
ghost use Rattle.passcode.specs.Sample.{hasty_list, hasty_passes, hasty_production};
ghost use Rattle.passcode.specs.Sample.{undefined_list};

use ag_grammar::samples::sample_legal;

/// Worked example: pass 1 goes from right to left, so it visits place 2 first, and then place 1.
/// After it has visited one child, place 2 was visited and place 1 was not.
#[tactic(auto, using(crate::proofs::Sampled::sample_visited, crate::proofs::Sampled::sample_unvisited))]
pub fn sample_turns()
    ensures turn { place_of sample_production 1 0 ≡ 2 }
    ensures next { place_of sample_production 1 1 ≡ 1 }
    ensures visited { IsVisited sample_production 1 1 2 }
    ensures unvisited { IsVisited sample_production 1 1 1 → ⊥ }
{}

/// Worked example: the list `sample_list` runs from the start to the end.
#[tactic(auto, using(crate::proofs::Sampled::sample_runs))]
pub fn sample_runs()
    ensures { Runs sample_passes sample_production 1 start sample_list }
{
    // The call has no effect. By its contract the assignment is legal, which the proof needs.
    sample_legal();
}

/// Worked example: the list `sample_list` agrees, that is, it meets the four conditions.
#[tactic(auto, using(crate::proofs::Sampled::sample_agrees))]
pub fn sample_agrees()
    ensures { ListAgrees sample_passes sample_production 1 sample_list }
{
    // The call has no effect. By its contract the assignment is legal, which the proof needs.
    sample_legal();
}

/// Worked example: the list `sample_list` is the one that `generate` returns.
pub fn sample_made()
    ensures { generated_list sample_passes sample_production 1 ≡ sample_list }
{}

/// Worked example: the list `sample_list` runs three rules. The production has three, and the
/// targets of all of them have pass 1.
pub fn sample_counted()
    ensures runs { count_by is_computation sample_list ≡ 3 }
    ensures rules { pass_rule_count sample_passes 1 (Some sample_production) ≡ 3 }
{}

/// Worked example: a list with the places from left to right does not agree, since pass 1 goes from
/// right to left.
#[tactic(auto, using(crate::proofs::Sampled::forward_refused))]
pub fn forward_refused()
    ensures { ListAgrees sample_passes sample_production 1 forward_list → ⊥ }
{}

/// Worked example: a list with a `Set` after the child's `Go` does not agree.
#[tactic(auto, using(crate::proofs::Sampled::late_refused))]
pub fn late_refused()
    ensures { ListAgrees sample_passes sample_production 1 late_list → ⊥ }
{}

/// Worked example: a list without the `Def` for `out` does not agree.
#[tactic(auto, using(crate::proofs::Sampled::undefined_refused))]
pub fn undefined_refused()
    ensures { ListAgrees sample_passes sample_production 1 undefined_list → ⊥ }
{
    // The call has no effect. By its contract the assignment is legal, which the proof needs.
    sample_legal();
}

/// Worked example: if the assignment is not legal, a list may agree and not run. The one rule of
/// this list for pass 1 uses an attribute of the left side that has pass 2.
#[tactic(auto, using(crate::proofs::Sampled::hasty_agrees, crate::proofs::Sampled::hasty_stops))]
pub fn legality_is_needed()
    ensures agrees { ListAgrees hasty_passes hasty_production 1 hasty_list }
    ensures stops { Runs hasty_passes hasty_production 1 start hasty_list → ⊥ }
{}
