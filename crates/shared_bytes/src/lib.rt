//! A growing list of bytes that shares the encodings of some values: large ones, shared texts and
//! trees. Contracts see a plain list of bytes.
#![tactic(auto)]

mod body;
mod copying;
mod shared_bytes;
mod splice;

pub use body::Body;
pub use shared_bytes::SharedBytes;
