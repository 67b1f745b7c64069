//! The rows of values with which a pass works, and reading the records of a tree file into them.
//! Evaluating rules and writing records are not part of this crate.
//!
//! Words of this crate, in pass k:
//!
//! - *Setting*: what a pass runs with, which is a grammar, a plan for it, and k.
//! - *Node*: a node of a symbol. Where nodes or levels are counted, a token of a class is a node
//!   too, since it has a record. A literal has no record.
//! - *Level*: 1 for the root; a child's level is one more than its parent's.
//! - *Place*: 0 for the left side of a production, and 1, 2, .. for the children, which are the
//!   symbols and classes of its right side.
//! - *Known* values: those of attributes of passes before k. The file of pass k - 1 has them.
//! - *Row* of a node: its own values, synthesized ones before inherited ones, and then the *copies*
//!   of its children. The copies of a child are the values of its synthesized attributes, or a
//!   token's text. A row has values of passes up to k. The row of a token is its text.
//! - *Slot*: the index of a value, counted from the beginning of a node's row. The row of the child
//!   whose record was read last comes directly after, so the child's values have slots too.
//! - *Layout* of a production: its instructions in pass k, the number of values in the row of a
//!   node, the passes of these values and of those that only later passes compute, its places, and
//!   the slots of its rules. It is a `ProductionRow`, with a `PlaceRow` for each place. These two
//!   types are not rows of values. The methods `rows` of an assignment and of code don't return
//!   rows of values either. The type `Layout` has the layouts of all productions, and the hints.
//! - *Hint*: the slot of a stored value that may be equal to one that is to be read.
//! - *Open* node: one that the pass has entered, and whose instructions are not finished.
#![tactic(auto)]

mod display;
pub mod layouts;
pub mod open_node;
pub mod reading;
pub mod run_fault;
pub mod setting;

pub use reading::record::{RecordFault, node_in, read_node, text_in};
pub use run_fault::RunFault;
pub use setting::Setting;
