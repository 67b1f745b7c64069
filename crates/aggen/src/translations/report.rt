//! The statistics of a translation.

use passrun::Last;

/// The statistics of a translation.
#[derive(Clone, Copy, PartialEq, Eq)]
pub struct Report {
    /// The number of nodes of the tree, from 1 to `MAX_NODES` (1,048,576). Each node has a record.
    pub nodes: u32,
    /// The number of passes that ran: those of the plan, at least 1.
    pub passes: u16,
    /// The number of evaluations of rules: over all nodes, the sum of the number of rules of the
    /// node's production (0 for a token).
    pub evals: u64,
    /// The number of records that the passes read: for each pass as many as the tree has nodes.
    /// Reading the root's text from the last file is not counted.
    pub read: u64,
    /// The number of records that the passes wrote: as many as they read. What the parser wrote is
    /// not counted.
    pub written: u64,
    /// The device that has the file of the last pass. The other of the two devices has the file of
    /// the pass before the last. If `Translator::evaluate_tree` ran only one pass, that file is the
    /// one on the tree's own device.
    pub last: Last,
}
