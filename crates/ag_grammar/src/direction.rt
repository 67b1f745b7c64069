//! The direction in which a pass visits the children of a node.

ghost use Rattle.std.specs.Prelude.{◌≡◌, ◌<◌, ◌↔◌, IsTrue};
ghost use Rattle.ag_grammar.specs.grammars.Passes.{IsBefore, direction_name, direction_of, nth, other};

/// A direction of passes. That directions alternate is Jazayeri and Walter's (1975); that odd
/// passes go from right to left is this project's choice.
#[derive(Clone, Copy, PartialEq, Eq)]
pub enum Direction {
    /// From left to right: even passes. Pass 0 is the parser, which writes the first file of a
    /// tree.
    LeftToRight,
    /// From right to left: odd passes.
    RightToLeft,
}

impl Direction {
    /// Returns the direction of the pass with this number.
    #[tactic(auto, using(crate::proofs::grammars::Directions::by_parity))]
    pub fn of_pass(pass: u16) -> Direction
        ensures { result ≡ direction_of pass }
    {
        if pass % 2 == 0 {
            Direction::LeftToRight
        } else {
            Direction::RightToLeft
        }
    }

    /// Returns the opposite direction.
    pub fn turned(self) -> Direction
        ensures { result ≡ other self }
    {
        match self {
            Direction::LeftToRight => Direction::RightToLeft,
            Direction::RightToLeft => Direction::LeftToRight,
        }
    }

    /// Returns whether a pass in this direction visits the child at place `first` before the child
    /// at place `second`. Children have places from 1 on.
    pub fn is_before(self, first: u16, second: u16) -> bool
        ensures { IsTrue result ↔ IsBefore self first second }
    {
        match self {
            Direction::LeftToRight => first < second,
            Direction::RightToLeft => second < first,
        }
    }

    /// Returns the index, from 0 at the left, of the child that a pass in this direction visits
    /// after `turn` other children of the same node, which has `count` children. `turn` must be
    /// below `count`.
    pub fn nth(self, count: usize, turn: usize) -> usize
        requires { turn < count }
        ensures nth { result ≡ nth self count turn }
        ensures within { result < count }
    {
        match self {
            Direction::LeftToRight => turn,
            Direction::RightToLeft => count - 1 - turn,
        }
    }

    /// Returns the name of the direction in listings: `left-to-right` or `right-to-left`.
    pub fn name(self) -> &'static str
        ensures { result.now ≡ direction_name self }
    {
        match self {
            Direction::LeftToRight => "left-to-right",
            Direction::RightToLeft => "right-to-left",
        }
    }
}
