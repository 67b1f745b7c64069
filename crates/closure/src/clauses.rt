//! Clauses, indexed by the numbers in their bodies, and the numbers that follow from them.
ghost use Rattle.std.specs.Prelude.{ℕ, true, ◌≡◌, ◌<◌, ◌↔◌, length, All, IfOk};
ghost use Rattle.closure.specs.Additions.{IsAdded, AreInOrder};
ghost use Rattle.closure.specs.Clauses.{IsClauseBelow};
ghost use Rattle.closure.specs.Edges.{clauses_of_edges, IsEdgeBelow};
ghost use Rattle.closure.specs.Following.{is_marked, AreClosure};

use crate::addition::FoundNumbers;
use crate::clause::Clause;
use crate::edges::{Edge, clauses_along};
use crate::search::find;
use crate::waiting::{facts, uses};
use ag_value::NoMemory;
use std::alloc::Global;
use std::marker::Model;

/// Clauses over the numbers below a count. Contracts see the list of clauses and the count.
#[derive(Drop)]
pub struct Clauses {
    clauses: Vec<Clause>,
    /// For each number below the count, its row: the indices of the clauses whose bodies contain
    /// it. If a body contains the number several times, the row contains the index as often.
    uses: Vec<Vec<usize>>,
    /// The indices of the clauses with an empty body.
    facts: Vec<usize>,
}

impl Model for Clauses {
    ghost use Rattle.std.specs.Prelude.{length};
    ghost use Rattle.closure.specs.Clauses.{Clauses as Plain};
    ghost use Rattle.closure.specs.Waiting.{rows, AreWaiting};

    ghost Value = { Plain };

    ghost view = { λ c. record {
      clauses = c.clauses.items;
      count = length c.uses.items;
    } };

    ghost invariant = { λ c. AreWaiting c.clauses.items (rows c.uses.items) c.facts.items };
}

impl Clauses {
    /// Prepares clauses for searches. Their numbers have to be below `count`. Takes memory and time
    /// linear in the number of clauses, the lengths of their bodies and `count`. Fails with
    /// NoMemory if a request for memory is refused.
    pub fn new(alloc: Global, clauses: Vec<Clause>, count: usize) -> Result<Clauses, NoMemory>
        requires { All (IsClauseBelow count) clauses.items }
        ensures { IfOk result (λ c. c ≡ record {
          clauses = clauses.items;
          count = count;
        }) }
    {
        let uses = uses(alloc, clauses.as_slice(), count)?;
        let facts = facts(alloc, clauses.as_slice())?;
        Ok(Clauses {
            clauses,
            uses,
            facts,
        })
    }

    /// Makes a clause of each edge. Its head is the edge's end, and its body the edge's start
    /// alone. So exactly those numbers follow that are reached from a seed. The starts and ends
    /// have to be below `count`. Takes memory and time linear in the number of edges and in
    /// `count`. Fails with NoMemory if a request for memory is refused.
    pub fn of_edges(alloc: Global, edges: &[Edge], count: usize) -> Result<Clauses, NoMemory>
        requires { All (IsEdgeBelow count) edges.now }
        ensures { IfOk result (λ c. c ≡ clauses_of_edges edges.now count) }
    {
        let clauses = clauses_along(alloc, edges)?;
        Clauses::new(alloc, clauses, count)
    }

    /// Returns, for each number below the count, whether it follows from the clauses and the seeds.
    /// The seeds have to be below the count. Takes memory and time as `find` does. Fails with
    /// NoMemory if a request for memory is refused.
    pub fn closure(&self, alloc: Global, seeds: &[usize]) -> Result<Vec<bool>, NoMemory>
        requires { All (λ t. t < self.now.count) seeds.now }
        ensures len { IfOk result (λ marks. length marks.items ≡ self.now.count) }
        ensures marks { IfOk result (λ marks. AreClosure self.now.clauses seeds.now marks.items) }
    {
        Ok(self.find(alloc, seeds)?.marks)
    }

    /// Returns a list of the numbers that follow from the clauses and the seeds, and, for each
    /// number below the count, whether it follows. The list has each number once, with the seed or
    /// the clause by which the number follows. If it follows by a clause, the numbers of the
    /// clause's body are earlier in the list.
    ///
    /// The seeds have to be below the count. The list is filled as a queue. First come the heads of
    /// the clauses with an empty body, and then the seeds, both in the order of their indices. For
    /// each number of the list in turn, the clauses whose bodies contain it are visited in the
    /// order of their indices, and the head of a clause is added if all numbers of its body are in
    /// the list. A number that is in the list is not added again. Takes memory and time linear in
    /// the number of clauses, the lengths of their bodies, the number of seeds, and the count.
    /// Fails with NoMemory if a request for memory is refused.
    pub fn find(&self, alloc: Global, seeds: &[usize]) -> Result<FoundNumbers, NoMemory>
        requires { All (λ t. t < self.now.count) seeds.now }
        ensures len { IfOk result (λ found. length found.marks.items ≡ self.now.count) }
        ensures marks { IfOk result (λ found. AreClosure self.now.clauses seeds.now
            found.marks.items) }
        ensures added { IfOk result (λ found. (t : ℕ) → is_marked found.marks.items t ≡ true
            ↔ IsAdded found.added.items t) }
        ensures order { IfOk result (λ found. AreInOrder self.now.clauses seeds.now
            found.added.items) }
    {
        find(
            alloc,
            self.clauses.as_slice(),
            self.uses.as_slice(),
            self.facts.as_slice(),
            seeds,
        )
    }
}
