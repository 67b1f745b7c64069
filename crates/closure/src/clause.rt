//! One clause.

use ag_value::Items;

/// A clause: the head follows if each number of the body does. A number may occur in the body more
/// than once.
#[derive(Drop)]
pub struct Clause {
    /// The number that follows if each number of the body does.
    pub head: usize,
    /// The numbers from which the head follows. A clause without any is a fact.
    pub body: Items<usize>,
}
