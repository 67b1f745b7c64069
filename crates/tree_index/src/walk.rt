//! The nodes of a tree in the order of the sentence.

ghost use Rattle.std.specs.Prelude.{◌<◌};

use crate::index::TreeIndex;
use crate::path::NodePath;
use ag_grammar::Grammar;
use ag_value::NoMemory;
use std::alloc::Global;

/// A node that a walk visits.
#[derive(Clone, Copy)]
pub struct NodeVisit {
    /// The number of the node in the index.
    pub node: u32,
    /// The level of the node. The node at which the walk began has level 0.
    pub level: u32,
}

/// A node that was visited and not left yet. The walk leaves a node after it visited the node's
/// subtree.
#[derive(Clone, Copy)]
struct OpenRecord {
    node: u32,
    /// The number of children that the walk visits: all, or none at the greatest level.
    children: u16,
    /// The number of children that were visited.
    visited: u16,
}

/// A walk over the nodes of a tree in the order of the sentence: each node before its children, and
/// children from left to right.
#[derive(Drop)]
pub struct SentenceWalk<'a> {
    grammar: &'a Grammar,
    index: &'a TreeIndex,
    /// The greatest level that is visited.
    depth: u32,
    /// The node at which the walk begins; `None` after it was visited, or if there is no such node.
    first: Option<u32>,
    /// The nodes that are not left yet, the outermost one first.
    nodes: Vec<OpenRecord>,
    /// The path that `path` returns.
    path: NodePath,
}

impl<'a> SentenceWalk<'a> {
    /// Returns a walk over the whole tree.
    pub fn new(alloc: Global, grammar: &'a Grammar, index: &'a TreeIndex) -> SentenceWalk<'a> {
        SentenceWalk {
            grammar,
            index,
            depth: u32::MAX,
            first: Some(0),
            nodes: Vec::new(alloc),
            path: NodePath::root(alloc),
        }
    }

    /// Returns the path of the node that was visited last. Before the first visit and after the end
    /// of the walk, returns the path of the node at which the walk begins.
    pub fn path(&self) -> &NodePath {
        &self.path
    }

    /// Sets the greatest level that is visited; the node at which the walk begins has level 0.
    /// Without this call all levels are visited. It has to be called before the first call of
    /// `next`.
    pub fn set_depth(&mut self, depth: u32) {
        self.depth = depth;
    }

    /// Lets the walk begin at the node at the end of a path, and visit only the subtree of this
    /// node. Returns the number of the node. Returns `None` if there is no such node; `next` then
    /// visits nothing. Has to be called before the first call of `next`. Fails if memory is
    /// refused.
    pub fn begin_at(&mut self, alloc: Global, places: &[u16]) -> Result<Option<u32>, NoMemory> {
        self.path = NodePath::of_places(alloc, places)?;
        self.first = self.index.find(self.grammar, places);
        Ok(self.first)
    }

    /// Visits and returns the next node; `None` after the last one. Fails if memory is refused.
    pub fn next(&mut self) -> Result<Option<NodeVisit>, NoMemory> {
        let Some(node) = self.next_node()? else {
            return Ok(None);
        };
        let level = self.nodes.len().min(u32::MAX as usize) as u32;
        let children = if level < self.depth {
            self.index.child_count(self.grammar, node)
        } else {
            0
        };
        self.nodes.push(OpenRecord {
            node,
            children,
            visited: 0,
        })?;
        Ok(Some(NodeVisit { node, level }))
    }

    /// Returns the node that is visited next, and leaves the nodes whose subtrees were visited.
    /// Returns `None` after the last node. Fails if memory is refused.
    fn next_node(&mut self) -> Result<Option<u32>, NoMemory> {
        if let Some(first) = self.first {
            self.first = None;
            return Ok(Some(first));
        }
        let levels = self.nodes.len();
        for level in 0..levels {
            let Some(open) = self.nodes.pop() else {
                return Ok(None);
            };
            // the first node that is removed was visited last, and `path` is its path; each further
            // one is the parent of the node before
            if level != 0 {
                self.path.pop();
            }
            if open.visited < open.children {
                return self.visit_child(open);
            }
        }
        Ok(None)
    }

    /// Puts a node back on the list of nodes that are not left, and returns its next child.
    /// Returns `None` if the index does not have the child. Fails if memory is refused.
    fn visit_child(&mut self, node: OpenRecord) -> Result<Option<u32>, NoMemory>
        requires { node.visited < node.children }
    {
        let place = node.visited + 1;
        self.nodes.push(OpenRecord {
            visited: place,
            ..node
        })?;
        self.path.push(place)?;
        Ok(self.index.child(self.grammar, node.node, place))
    }
}
