//! An index of a tree file: what each node is, the offset at which the frame of its record ends,
//! and the number of nodes of its subtree. The index takes 16 bytes a node. With an index, a caller
//! finds the node at the end of a path, or visits the nodes in the order of the sentence, without
//! reading the file from its end again.
//!
//! `TreeIndex::read` reads a file from its end, record by record, as a pass reads it. The file can
//! be that of any pass of the plan, or that of the parser (pass 0). A failure is R1, P2, P3, D1 or
//! NoMemory.
#![tactic(auto)]

mod bodies;
mod covering;
mod fault;
mod format;
mod index;
mod layout;
mod path;
mod reading;
mod records;
mod token_walk;
mod tokens;
mod walk;

pub use bodies::body_before;
pub use covering::TokenRange;
pub use fault::TreeFault;
pub use format::{FileFormat, NodeRecord};
pub use index::{NodeKind, TreeIndex};
pub use path::{NodePath, PathFault};
pub use reading::pass_of_file;
pub use token_walk::{TokenWalk, TreeToken};
pub use tokens::TokenCounts;
pub use walk::{NodeVisit, SentenceWalk};
