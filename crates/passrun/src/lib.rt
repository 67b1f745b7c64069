//! Runs the passes of a plan over a tree file. One pass reads the file of the previous pass from
//! its end, computes the attributes of the pass, and writes the file of the pass (after Jazayeri
//! and Walter 1975). All passes run in sequence, alternating between two devices. Of the tree, a
//! pass keeps in memory only the rows of the nodes on the path from the root to the current node,
//! and the row of the child whose record was read last. The tree files are on the devices.
//!
//! `lib.rt` of `pass_rows` explains the words setting, node, level, place, known, row, copies,
//! slot, layout, hint and open node. Words of this crate:
//!
//! - *Current node*: the innermost open node. The other open nodes wait: each of them has entered
//!   the child on the path to the current node.
//! - *Root is done*: the pass has run all instructions at all nodes, and only the root's record is
//!   not written.
#![tactic(auto)]

mod last;
pub mod laws;
mod passes;
mod passing;
mod reading;

pub use last::Last;
pub use pass_rows::{RecordFault, RunFault, Setting, node_in, read_node, text_in};
pub use passes::run_all;
pub use passing::ends::Passed;
pub use passing::pass::run_pass;
