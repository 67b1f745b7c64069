//! Finds the clauses that wait for each number: a clause waits for the numbers of its body. The row
//! of a number is the list of the indices of the clauses that wait for the number. Also finds the
//! clauses with an empty body.
ghost use Rattle.std.specs.Prelude.{◌≡◌, ◌<◌, ℕ, [], length, All, Contains, IfOk, OnOk};
ghost use Rattle.std.specs.Prelude.{slice_index_or};
ghost use Rattle.closure.specs.Clauses.{IsClauseBelow};
ghost use Rattle.closure.specs.Waiting.{row, rows, AddsClause};

use crate::clause::Clause;
use ag_value::NoMemory;
use std::alloc::Global;

/// Adds a clause, by its index, to the row of a number. Fails with NoMemory if a request for memory
/// is refused.
fn add_use(uses: &mut Vec<Vec<usize>>, clause: usize, number: usize) -> Result<(), NoMemory>
    requires { number < length uses.old.items }
    ensures adds { OnOk result (AddsClause clause (rows uses.old.items) (rows uses.new.items)) }
    ensures listed { OnOk result (Contains (row (rows uses.new.items) number) clause) }
{
    uses[number].push(clause)?;
    Ok(())
}

/// Adds a clause, by its index, to the row of each number of its body. Fails with NoMemory if a
/// request for memory is refused.
fn add_uses(uses: &mut Vec<Vec<usize>>, clause: usize, body: &[usize]) -> Result<(), NoMemory>
    requires { All (λ t. t < length uses.old.items) body.now }
    ensures adds { OnOk result (AddsClause clause (rows uses.old.items) (rows uses.new.items)) }
    ensures listed { OnOk result ((t : ℕ) → Contains body.now t → Contains (row (rows
        uses.new.items) t) clause) }
{
    for number in body {
        add_use(uses, clause, *number)?;
    }
    Ok(())
}

/// Returns the row of each number below `count`. If a body contains a number several times, the
/// number's row contains the index of the clause as often. Fails with NoMemory if a request for
/// memory is refused.
pub(crate) fn uses(
    alloc: Global,
    clauses: &[Clause],
    count: usize,
) -> Result<Vec<Vec<usize>>, NoMemory>
    requires { All (IsClauseBelow count) clauses.now }
    ensures len { IfOk result (λ uses. length uses.items ≡ count) }
    ensures listed { IfOk result (λ uses. (p t : ℕ) (d : Clause) → p < length clauses.now → Contains
        (slice_index_or clauses.now p d).body t → Contains (row (rows uses.items) t) p) }
    ensures fits { IfOk result (λ uses. (t : ℕ) → All (λ p. p < length clauses.now) (row (rows
        uses.items) t)) }
{
    let mut uses = Vec::new(alloc);
    for _ in 0..count {
        uses.push(Vec::new(alloc))?;
    }
    for (at, clause) in clauses.iter().enumerate() {
        add_uses(&mut uses, at, clause.body.as_slice())?;
    }
    Ok(uses)
}

/// Returns the indices of the clauses with an empty body. Fails with NoMemory if a request for
/// memory is refused.
pub(crate) fn facts(alloc: Global, clauses: &[Clause]) -> Result<Vec<usize>, NoMemory>
    ensures listed { IfOk result (λ facts. (p : ℕ) (d : Clause) → p < length clauses.now →
        (slice_index_or clauses.now p d).body ≡ [] → Contains facts.items p) }
    ensures fits { IfOk result (λ facts. All (λ p. p < length clauses.now) facts.items) }
{
    let mut facts = Vec::new(alloc);
    for (at, clause) in clauses.iter().enumerate() {
        if clause.body.as_slice().is_empty() {
            facts.push(at)?;
        }
    }
    Ok(facts)
}
