//! The edges and the seeds for FOLLOW. The seeds of a look-ahead are the nodes from which its
//! search begins. The seeds of a terminal are the nodes of the items after which it can come within
//! a right side. The only seed of the end of the sentence is the start symbol. Edges go from a left
//! side to each item after which all items are nullable, so that the symbols with the look-ahead in
//! FOLLOW are those that edges reach from the seeds. The FIRST marks of a look-ahead are the marks
//! of the nodes that have it in FIRST.
ghost use Rattle.std.specs.Prelude.{◌≡◌, ◌↔◌, ◌&&◌, ◌||◌, true};
ghost use Rattle.std.specs.Prelude.{Contains, IfOk, OnOk};
ghost use Rattle.llparse.specs.table.CanStart.{AreFollowSeeds, IsLastEdge, IsSeedNode};
ghost use Rattle.llparse.specs.table.Edges.{Adds, AddsEdges, IsEdge};
ghost use Rattle.closure.specs.Following.{is_marked};
ghost use Rattle.llparse.specs.declared.ahead.Ahead.TheVariants as look;

use crate::ahead::Ahead;
use crate::table::first::add_edge;
use crate::table::nodes::Sizes;
use crate::table::nullable::is_nullable_item;
use ag_grammar::{Grammar, Item};
use ag_value::NoMemory;
use closure::Edge;
use std::alloc::Global;

/// Returns whether a number has a mark; no number beyond the list has one.
pub(crate) fn is_marked(marks: &[bool], at: usize) -> bool
    ensures { result ≡ is_marked marks.now at }
{
    at < marks.len() && marks[at]
}

/// Returns whether an item and those after it can start with a look-ahead: the look-ahead is in
/// FIRST of the item, or the item is `nullable` and those after it can start with the look-ahead
/// (`following`).
pub(crate) fn can_start(in_first: bool, nullable: bool, following: bool) -> bool
    ensures { result ≡ (in_first || (nullable && following)) }
{
    in_first || (nullable && following)
}

/// Adds an edge from one node to another if `wanted`.
fn add_edge_if(edges: &mut Vec<Edge>, from: usize, to: usize, wanted: bool) -> Result<(), NoMemory>
    ensures { OnOk result (AddsEdges (λ e. (wanted
        ≡ true) × IsEdge from to e) edges.old.items edges.new.items) }
{
    if wanted {
        add_edge(edges, from, to)?;
    }
    Ok(())
}

/// Adds an edge from a left side to each item after which all items are nullable.
pub(crate) fn add_follow_edges(
    edges: &mut Vec<Edge>,
    sizes: Sizes,
    nullable: &[bool],
    left: usize,
    items: &[Item],
) -> Result<(), NoMemory>
    ensures { OnOk result (AddsEdges (IsLastEdge sizes nullable.now left items.now)
        edges.old.items edges.new.items) }
{
    let mut rest_nullable = true;
    for at in (0..items.len()).rev() {
        add_edge_if(edges, left, sizes.node(items[at]), rest_nullable)?;
        rest_nullable = can_start(false, is_nullable_item(nullable, items[at]), rest_nullable);
    }
    Ok(())
}

/// Adds a seed if `wanted`.
pub(crate) fn add_seed_if(seeds: &mut Vec<usize>, seed: usize, wanted: bool) -> Result<(), NoMemory>
    ensures { OnOk result (Adds (λ t. (wanted ≡ true) × (t ≡ seed)) (Contains seeds.old.items)
        (Contains seeds.new.items)) }
{
    if wanted {
        seeds.push(seed)?;
    }
    Ok(())
}

/// Adds the node of each item of a right side after which the rest of this side can start with the
/// look-ahead whose FIRST marks are `in_first`.
fn add_seeds(
    seeds: &mut Vec<usize>,
    sizes: Sizes,
    nullable: &[bool],
    in_first: &[bool],
    items: &[Item],
) -> Result<(), NoMemory>
    ensures { OnOk result (Adds (IsSeedNode sizes in_first.now nullable.now items.now)
        (Contains seeds.old.items) (Contains seeds.new.items)) }
{
    let mut next = false;
    for at in (0..items.len()).rev() {
        let node = sizes.node(items[at]);
        add_seed_if(seeds, node, next)?;
        next = can_start(
            is_marked(in_first, node),
            is_nullable_item(nullable, items[at]),
            next,
        );
    }
    Ok(())
}

/// Returns whether a look-ahead is the end.
pub(crate) fn is_end(ahead: Ahead) -> bool
    ensures { result ≡ true ↔ ahead ≡ look.End }
{
    match ahead {
        Ahead::End => true,
        Ahead::Terminal(_) => false,
    }
}

/// Returns the nodes of all items after which the rest of a right side can start with the
/// look-ahead whose FIRST marks are `in_first`.
pub(crate) fn follow_seeds(
    alloc: Global,
    grammar: &Grammar,
    nullable: &[bool],
    in_first: &[bool],
) -> Result<Vec<usize>, NoMemory>
    ensures { IfOk result (λ seeds. AreFollowSeeds grammar.now nullable.now in_first.now seeds.items) }
{
    let sizes = Sizes::of(grammar);
    let mut seeds = Vec::new(alloc);
    let productions = grammar.productions();
    for at in 0..productions.len() {
        let production = &productions[at];
        add_seeds(
            &mut seeds,
            sizes,
            nullable,
            in_first,
            production.items.as_slice(),
        )?;
    }
    Ok(seeds)
}
