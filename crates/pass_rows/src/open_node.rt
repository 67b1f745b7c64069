//! Open nodes.

ghost use Rattle.std.specs.Prelude.{◌≡◌, ◌+◌, ◌<◌, ◌^◌};
ghost use Rattle.pass_rows.specs.Nodes.{first_at, left_at, after_step};

/// An open node: one that the pass has entered, and whose list of instructions is not finished.
#[derive(Clone, Copy, PartialEq, Eq)]
pub struct OpenNode {
    /// The number of the node's production.
    pub production: u16,
    /// The number in the record of the child that was read last: that of the child's production or
    /// class. It is 0 before a child is read.
    pub child: u16,
    /// The place of the child that the pass entered last, or 0 if it has entered none.
    pub place: u16,
    /// The index of the next instruction in the node's list.
    pub at: usize,
    /// The index at which the node's row begins among the stored values.
    pub base: usize,
}

impl OpenNode {
    /// Returns a node of this production at its first instruction. Its row begins at index 0.
    pub fn first(production: u16) -> OpenNode
        ensures { result ≡ first_at production 0 }
    {
        OpenNode::begun(production, 0)
    }

    /// Returns a node of this production at its first instruction. Its row begins at index `base`.
    pub fn begun(production: u16, base: usize) -> OpenNode
        ensures { result ≡ first_at production base }
    {
        OpenNode {
            production,
            child: 0,
            place: 0,
            at: 0,
            base,
        }
    }

    /// Returns the node after its next instruction, which enters no child (is not a `Go`). `child`
    /// is the new value of the field `child`.
    pub fn after_step(self, child: u16) -> OpenNode
        requires { self.at + 1 < 2 ^ 64 }
        ensures { result ≡ after_step self child }
    {
        OpenNode {
            production: self.production,
            child,
            place: self.place,
            at: self.at + 1,
            base: self.base,
        }
    }

    /// Returns the node after its next instruction, the `Go` that enters the child at this place.
    pub fn left_at(self, place: u16) -> OpenNode
        requires { self.at + 1 < 2 ^ 64 }
        ensures { result ≡ left_at self place }
    {
        OpenNode {
            production: self.production,
            child: self.child,
            place,
            at: self.at + 1,
            base: self.base,
        }
    }
}
