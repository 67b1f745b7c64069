//! The numbers that follow, and the reasons why.

/// The reason why a number follows.
#[derive(Clone, Copy, PartialEq, Eq)]
pub enum Reason {
    /// The number is the seed with this index.
    Seed(usize),
    /// The number is the head of the clause with this index, and each number of the clause's body
    /// was found before.
    Clause(usize),
}

/// A number that follows, and the reason why.
#[derive(Clone, Copy, PartialEq, Eq)]
pub struct Addition {
    /// The number.
    pub number: usize,
    /// The seed or the clause by which it follows.
    pub reason: Reason,
}

/// All numbers that follow, in the order in which they are found, and a mark for each number.
#[derive(Drop)]
pub struct FoundNumbers {
    /// The numbers that follow, each once.
    pub added: Vec<Addition>,
    /// For each number below the count, whether it follows.
    pub marks: Vec<bool>,
}
