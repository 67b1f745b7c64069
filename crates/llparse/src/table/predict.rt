//! The productions that a look-ahead predicts.
ghost use Rattle.std.specs.Prelude.{◌≡◌, length, IfOk};
ghost use Rattle.llparse.specs.table.CanStart.{can_start_by, AreFollowEdges, AreFollowMarks};
ghost use Rattle.llparse.specs.table.Edges.{AreFirstEdges, AreFirstMarks, IsKnownAhead};
ghost use Rattle.llparse.specs.table.Predicted.{ArePredicted, AreSets};

use crate::ahead::Ahead;
use crate::table::first::{add_first_edges, starting_items_len};
use crate::table::follow::{add_follow_edges, add_seed_if, follow_seeds, is_end, is_marked};
use crate::table::nodes::Sizes;
use crate::table::nullable::{is_nullable_item, nullable};
use ag_grammar::{Grammar, Item};
use ag_value::NoMemory;
use closure::{Clauses, Edge};
use std::alloc::Global;

/// Returns whether items can start with the look-ahead whose FIRST marks are `in_first`: an item
/// has it in FIRST and all items before that item are nullable, or all items are nullable and the
/// look-ahead can come after them (`following`).
fn items_can_start(
    sizes: Sizes,
    nullable: &[bool],
    in_first: &[bool],
    items: &[Item],
    following: bool,
) -> bool
    ensures { result ≡ can_start_by sizes in_first.now nullable.now following items.now }
{
    for item in items {
        if is_marked(in_first, sizes.node(*item)) {
            return true;
        }
        if !is_nullable_item(nullable, *item) {
            return false;
        }
    }
    following
}

/// Returns the edges for FIRST, from the starting items of right sides to the left sides, and those
/// for FOLLOW, from left sides to the items that can be last.
fn edges_of(
    alloc: Global,
    grammar: &Grammar,
    nullable: &[bool],
) -> Result<(Vec<Edge>, Vec<Edge>), NoMemory>
    ensures first { IfOk result (λ edges. AreFirstEdges grammar.now nullable.now edges.0.items) }
    ensures follow { IfOk result (λ edges. AreFollowEdges grammar.now nullable.now edges.1.items) }
{
    let sizes = Sizes::of(grammar);
    let mut first = Vec::new(alloc);
    let mut follow = Vec::new(alloc);
    let productions = grammar.productions();
    for at in 0..productions.len() {
        let production = &productions[at];
        let left = production.left as usize;
        let items = production.items.as_slice();
        let count = starting_items_len(nullable, items);
        add_first_edges(&mut first, sizes, left, &items[..count])?;
        add_follow_edges(&mut follow, sizes, nullable, left, items)?;
    }
    Ok((first, follow))
}

/// The data from which the predictions for all look-aheads are computed: the marks of the nullable
/// symbols, and the edges of two graphs. `first` and `follow` are these edges, not the FIRST and
/// FOLLOW sets. From the node of a look-ahead, the edges of `first` reach the symbols that have it
/// in FIRST. From the seeds of a look-ahead, the edges of `follow` reach the symbols that have it
/// in FOLLOW.
#[derive(Drop)]
pub(crate) struct Sets {
    nullable: Vec<bool>,
    first: Clauses,
    follow: Clauses,
}

impl Sets {
    /// Computes the nullable symbols and the edges of a grammar. Fails with `NoMemory` if memory is
    /// refused.
    pub(crate) fn of(alloc: Global, grammar: &Grammar) -> Result<Sets, NoMemory>
        ensures { IfOk result (λ sets. AreSets grammar.now sets) }
    {
        let nullable = nullable(alloc, grammar)?;
        let nodes = Sizes::of(grammar).nodes();
        let edges = edges_of(alloc, grammar, nullable.as_slice())?;
        let first = Clauses::of_edges(alloc, edges.0.as_slice(), nodes)?;
        let follow = Clauses::of_edges(alloc, edges.1.as_slice(), nodes)?;
        Ok(Sets {
            nullable,
            first,
            follow,
        })
    }

    /// Returns the marks of the nodes with a look-ahead in FIRST (FIRST of a terminal has that
    /// terminal alone). Fails with `NoMemory` if memory is refused.
    fn first_marks(
        &self,
        alloc: Global,
        grammar: &Grammar,
        ahead: Ahead,
    ) -> Result<Vec<bool>, NoMemory>
        requires sets { AreSets grammar.now self.now }
        requires known { IsKnownAhead grammar.now ahead }
        ensures { IfOk result (λ marks. AreFirstMarks grammar.now ahead marks.items) }
    {
        let sizes = Sizes::of(grammar);
        let node = sizes.symbols as usize + sizes.index(ahead);
        let marks = self.first.closure(alloc, &[node])?;
        Ok(marks)
    }

    /// Returns the marks of the symbols with a look-ahead in FOLLOW, from the marks of the nodes
    /// with it in FIRST. Terminals can have marks too, which nothing uses. Fails with `NoMemory` if
    /// memory is refused.
    fn follow_marks(
        &self,
        alloc: Global,
        grammar: &Grammar,
        in_first: &[bool],
        ahead: Ahead,
    ) -> Result<Vec<bool>, NoMemory>
        requires sets { AreSets grammar.now self.now }
        requires first { AreFirstMarks grammar.now ahead in_first.now }
        ensures { IfOk result (λ marks. AreFollowMarks grammar.now ahead marks.items) }
    {
        let nullable = self.nullable.as_slice();
        let mut seeds = follow_seeds(alloc, grammar, nullable, in_first)?;
        add_seed_if(&mut seeds, grammar.start() as usize, is_end(ahead))?;
        let marks = self.follow.closure(alloc, seeds.as_slice())?;
        Ok(marks)
    }

    /// Returns the marks of the productions that a look-ahead predicts, by their numbers. Fails
    /// with `NoMemory` if memory is refused.
    pub(crate) fn predicted(
        &self,
        alloc: Global,
        grammar: &Grammar,
        ahead: Ahead,
    ) -> Result<Vec<bool>, NoMemory>
        requires sets { AreSets grammar.now self.now }
        requires known { IsKnownAhead grammar.now ahead }
        ensures len { IfOk result (λ marks. length marks.items ≡ length grammar.now.productions) }
        ensures marks { IfOk result (λ marks. ArePredicted grammar.now ahead marks.items) }
    {
        let sizes = Sizes::of(grammar);
        let nullable = self.nullable.as_slice();
        let in_first = self.first_marks(alloc, grammar, ahead)?;
        let in_first = in_first.as_slice();
        let in_follow = self.follow_marks(alloc, grammar, in_first, ahead)?;
        let in_follow = in_follow.as_slice();
        let productions = grammar.productions();
        let mut marks = Vec::new(alloc);
        for at in 0..productions.len() {
            let production = &productions[at];
            let following = is_marked(in_follow, production.left as usize);
            let items = production.items.as_slice();
            marks.push(items_can_start(sizes, nullable, in_first, items, following))?;
        }
        Ok(marks)
    }
}
