//! A file that records each call made on it, with its result, in ghost state: the record occupies
//! no memory.
#![tactic(auto)]

mod noted;
mod record;

pub use noted::NotedFile;
pub use record::CallRecord;
