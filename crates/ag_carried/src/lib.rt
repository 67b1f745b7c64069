//! Attribute values that are passed from node to node: owners share values, and the encodings of
//! large ones.
#![tactic(auto)]

mod carried;
mod encoded;
mod shared_text;
mod spelled;
mod trees;

pub use carried::Carried;
pub use encoded::Encoded;
pub use shared_text::{MAX_FLAT_TEXT, SharedText};
pub use trees::{MAX_FLAT_LIST, MAX_FLAT_TABLE};
