//! The clauses by which symbols are productive, and the edges by which they are reached. Clauses
//! and edges contain the numbers of symbols. The head of a clause is the left side of a production,
//! and its body has the symbols of the right side. A clause says that its head is productive if
//! each symbol of its body is. An edge says that the symbol `to` is reached if the symbol `from`
//! is.
ghost use Rattle.std.specs.Prelude.{◌≡◌, ◌++◌, IfOk, OnOk};
ghost use Rattle.normalform.specs.faults.Clauses as spec;
ghost use Rattle.normalform.specs.faults.Clauses.{body_of, edges_of};
ghost use Rattle.normalform.specs.numbers.Numbers.{declared_names};

use crate::numbers::declared::Declared;
use ag_grammar::{RawItem, RawProduction};
use ag_value::{Items, NoMemory};
use closure::{Clause, Edge};
use std::alloc::Global;

/// Returns the numbers of the symbols on a right side.
fn body_of(
    alloc: Global,
    declared: &Declared<'_>,
    items: &[RawItem],
) -> Result<Items<usize>, NoMemory>
    ensures { IfOk result (λ body. body ≡ body_of (declared_names declared.now) items.now) }
{
    let mut body = Vec::new(alloc);
    for item in items {
        if let RawItem::Name(name) = item {
            body.push(declared.number(name.name.as_str()))?;
        }
    }
    Ok(Items::from_vec(body))
}

/// Returns the clause of a production: its left side is productive if each symbol of the right side
/// is.
fn clause_of(
    alloc: Global,
    declared: &Declared<'_>,
    production: &RawProduction,
) -> Result<Clause, NoMemory>
    ensures { IfOk result (λ clause. clause ≡ spec.clause_of declared.now production.now) }
{
    let head = declared.number(production.left.name.as_str());
    let body = body_of(alloc, declared, production.items.as_slice())?;
    Ok(Clause { head, body })
}

/// Returns the clauses of productions.
pub fn clauses_of(
    alloc: Global,
    declared: &Declared<'_>,
    productions: &[RawProduction],
) -> Result<Vec<Clause>, NoMemory>
    ensures { IfOk result (λ clauses. clauses.items
        ≡ spec.clauses_of declared.now productions.now) }
{
    let mut clauses = Vec::new(alloc);
    for production in productions {
        clauses.push(clause_of(alloc, declared, production)?)?;
    }
    Ok(clauses)
}

/// Appends the edges of a clause, from its head to each number of its body.
fn push_edges(edges: &mut Vec<Edge>, clause: &Clause) -> Result<(), NoMemory>
    ensures { OnOk result (edges.new.items ≡ edges.old.items ++ edges_of clause.now) }
{
    for symbol in clause.body.as_slice() {
        edges.push(Edge {
            from: clause.head,
            to: *symbol,
        })?;
    }
    Ok(())
}

/// Returns the edges by which symbols are reached: for each clause, the edges from its head to each
/// number of its body.
pub fn reach_edges(alloc: Global, clauses: &[Clause]) -> Result<Vec<Edge>, NoMemory>
    ensures { IfOk result (λ edges. edges.items ≡ spec.reach_edges clauses.now) }
{
    let mut edges = Vec::new(alloc);
    for clause in clauses {
        push_edges(&mut edges, clause)?;
    }
    Ok(edges)
}
