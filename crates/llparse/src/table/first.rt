//! The edges for FIRST. The starting items of a right side are its first item that is not nullable
//! and all items before that; if all items are nullable, all of them. Edges go from each starting
//! item to the left side, so that the nodes with a look-ahead in FIRST are those that edges reach
//! from the look-ahead's node.
ghost use Rattle.std.specs.Prelude.{◌≡◌, ◌≤◌, length, take, OnOk};
ghost use Rattle.closure.specs.Following.{is_marked};
ghost use Rattle.ag_grammar.specs.declared.grammar.Item.{Item as AnItem};
ghost use Rattle.llparse.specs.table.Edges.{starting_items, AddsEdges, IsEdge, OfSome};
ghost use Rattle.llparse.specs.table.Nodes.{node_by};

use crate::table::nodes::Sizes;
use crate::table::nullable::is_nullable_item;
use ag_grammar::Item;
use ag_value::NoMemory;
use closure::Edge;

/// Adds an edge from one node to another.
pub(crate) fn add_edge(edges: &mut Vec<Edge>, from: usize, to: usize) -> Result<(), NoMemory>
    ensures { OnOk result (AddsEdges (IsEdge from to) edges.old.items edges.new.items) }
{
    edges.push(Edge { from, to })?;
    Ok(())
}

/// Returns the number of starting items: the first that is not nullable and all before it, or all
/// items if all are nullable.
pub(crate) fn starting_items_len(nullable: &[bool], items: &[Item]) -> usize
    ensures within { result ≤ length items.now }
    ensures items { take result items.now ≡ starting_items (is_marked nullable.now) items.now }
{
    for at in 0..items.len() {
        if !is_nullable_item(nullable, items[at]) {
            return at + 1;
        }
    }
    items.len()
}

/// Adds an edge from the node of each of the items to the node `left`, that of a left side.
pub(crate) fn add_first_edges(
    edges: &mut Vec<Edge>,
    sizes: Sizes,
    left: usize,
    items: &[Item],
) -> Result<(), NoMemory>
    ensures { OnOk result (AddsEdges (OfSome (λ (x : AnItem) e. IsEdge (node_by sizes x) left e)
        items.now) edges.old.items edges.new.items) }
{
    for item in items {
        add_edge(edges, sizes.node(*item), left)?;
    }
    Ok(())
}
