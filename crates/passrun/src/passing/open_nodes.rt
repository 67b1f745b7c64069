//! The open nodes that wait for a child.

ghost use Rattle.std.specs.Option.{option_to_list};
ghost use Rattle.std.specs.Prelude.{◌≡◌, ◌+◌, ◌<◌, ◌∷◌, ◌++◌, [], None, OnErr, OnOk, length};
ghost use Rattle.ag_grammar.specs.grammars.Tree.{max_depth};
ghost use Rattle.passrun.specs.passing.OpenNodes.{end_of};

use ag_value::NoMemory;
use pass_rows::open_node::OpenNode;
use std::alloc::Global;
use std::marker::Model;

/// The open nodes that wait for a child, the outermost first: all open nodes but the innermost one.
/// Each waits until the child that the pass entered from it is finished. By the numbers of their
/// productions they are a path from the root: the first node has the root's number, and each next
/// one the number of the child that the node before it entered. With the innermost node they are at
/// most `MAX_DEPTH` nodes.
#[derive(Drop)]
pub(crate) struct OpenNodes {
    /// The number of the production in the root's record.
    root: u16,
    nodes: Vec<OpenNode>,
}

impl Model for OpenNodes {
    ghost use Rattle.std.specs.Prelude.{◌<◌, length};
    ghost use Rattle.ag_grammar.specs.grammars.Tree.{max_depth};
    ghost use Rattle.passrun.specs.passing.OpenNodes.{IsPath, RootPath};

    ghost Value = { RootPath };

    ghost view = { λ s. record {
      root = s.root;
      nodes = s.nodes.items;
    } };

    ghost invariant = { λ s. IsPath s.root s.nodes.items × (length s.nodes.items < max_depth) };
}

impl OpenNodes {
    /// Returns the path to a root whose record has this number, with no node that waits. Takes no
    /// memory.
    #[inline(always)]
    pub(crate) fn new(alloc: Global, root: u16) -> OpenNodes
        ensures { result ≡ record {
          root = root;
          nodes = [];
        } }
    {
        OpenNodes {
            root,
            nodes: Vec::new(alloc),
        }
    }

    /// Returns the number of the production in the root's record.
    #[inline(always)]
    pub(crate) fn root(&self) -> u16
        ensures { result ≡ self.now.root }
    {
        self.root
    }

    /// Returns the number of nodes that wait, which is less than `MAX_DEPTH`.
    #[inline(always)]
    pub(crate) fn len(&self) -> usize
        ensures number { result ≡ length self.now.nodes }
        ensures few { result < max_depth }
    {
        self.nodes.len()
    }

    /// Adds the innermost open node, after it entered a child. Its production has to be that of the
    /// child that the last of the other nodes entered, or the root's if there is no other node.
    /// Fails with `NoMemory` if memory cannot be allocated, and then changes nothing.
    #[inline(always)]
    pub(crate) fn push(&mut self, node: OpenNode) -> Result<(), NoMemory>
        requires path { node.production ≡ end_of self.old.root self.old.nodes }
        requires room { length self.old.nodes + 1 < max_depth }
        ensures pushed { OnOk result (self.new ≡ record self.old {
          nodes = self.old.nodes ++ node ∷ [];
        }) }
        ensures kept { OnErr result (self.new ≡ self.old) }
    {
        self.nodes.push(node)?;
        Ok(())
    }

    /// Removes the innermost of these nodes and returns it, or returns `None` if there is none.
    #[inline(always)]
    pub(crate) fn pop(&mut self) -> Option<OpenNode>
        ensures nodes { self.old.nodes ≡ self.new.nodes ++ option_to_list result }
        ensures root { self.new.root ≡ self.old.root }
        ensures empty { result ≡ None → self.old.nodes ≡ [] }
    {
        self.nodes.pop()
    }
}
