//! The nullable symbols. Each production becomes a Horn clause of the crate `closure`, with the
//! left side as the head, and the items of the right side as the body: the head is nullable if each
//! item of the body is.
ghost use Rattle.std.specs.Prelude.{◌≡◌, IfOk};
ghost use Rattle.closure.specs.Following.{is_marked};
ghost use Rattle.llparse.specs.table.Nullable as spec;
ghost use Rattle.llparse.specs.table.Nullable.{is_nullable_item, AreNullableMarks};

use crate::table::nodes::Sizes;
use ag_grammar::{Grammar, Item, Production};
use ag_value::{Items, NoMemory};
use closure::{Clause, Clauses};
use std::alloc::Global;

/// Returns whether an item is a symbol with a mark; the marks are those of the nullable symbols.
pub(crate) fn is_nullable_item(marks: &[bool], item: Item) -> bool
    ensures { result ≡ is_nullable_item (is_marked marks.now) item }
{
    match item {
        Item::Symbol(symbol) => {
            let symbol = symbol as usize;
            symbol < marks.len() && marks[symbol]
        }
        Item::Terminal(_) => false,
    }
}

/// Returns the clause of a production: its left side is nullable if each item of its right side is.
/// No terminal is nullable: its node is not the head of a clause.
fn clause_of(alloc: Global, sizes: Sizes, production: &Production) -> Result<Clause, NoMemory>
    ensures { IfOk result (λ clause. clause
        ≡ spec.clause_of sizes.symbols sizes.literals production.now) }
{
    let mut body = Vec::new(alloc);
    for item in production.items.as_slice() {
        body.push(sizes.node(*item))?;
    }
    Ok(Clause {
        head: production.left as usize,
        body: Items::from_vec(body),
    })
}

/// Returns the clauses of a grammar's productions.
fn clauses_of(alloc: Global, grammar: &Grammar) -> Result<Vec<Clause>, NoMemory>
    ensures { IfOk result (λ clauses. clauses.items ≡ spec.clauses_of grammar.now) }
{
    let sizes = Sizes::of(grammar);
    let mut clauses = Vec::new(alloc);
    for production in grammar.productions() {
        clauses.push(clause_of(alloc, sizes, production)?)?;
    }
    Ok(clauses)
}

/// Returns the marks of the nullable symbols. Fails with `NoMemory` if memory is refused.
pub(crate) fn nullable(alloc: Global, grammar: &Grammar) -> Result<Vec<bool>, NoMemory>
    ensures { IfOk result (λ marks. AreNullableMarks grammar.now marks.items) }
{
    let clauses = clauses_of(alloc, grammar)?;
    let over_nodes = Clauses::new(alloc, clauses, Sizes::of(grammar).nodes())?;
    let marks = over_nodes.closure(alloc, &[])?;
    Ok(marks)
}
