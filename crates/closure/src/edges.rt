//! Edges between numbers, as clauses with one number in the body: the numbers that follow are those
//! that are reached from the seeds.
ghost use Rattle.std.specs.Prelude.{◌≡◌, map, IfOk};
ghost use Rattle.closure.specs.Edges.{clause_of_edge};

use crate::clause::Clause;
use ag_value::{Items, NoMemory};
use std::alloc::Global;

/// An edge: if its start is reached, its end is reached too.
#[derive(Clone, Copy, PartialEq, Eq)]
pub struct Edge {
    /// The start.
    pub from: usize,
    /// The end.
    pub to: usize,
}

/// Returns one clause for each edge: its head is the edge's end, and its body the edge's start
/// alone. Fails with NoMemory if a request for memory is refused.
pub(crate) fn clauses_along(alloc: Global, edges: &[Edge]) -> Result<Vec<Clause>, NoMemory>
    ensures { IfOk result (λ clauses. clauses.items ≡ map clause_of_edge edges.now) }
{
    let mut clauses = Vec::new(alloc);
    for edge in edges {
        let body = Items::from_vec(vec![in alloc; edge.from]?);
        clauses.push(Clause {
            head: edge.to,
            body,
        })?;
    }
    Ok(clauses)
}
