//! Where the values in a tree file come from: what `aggen explain` prints and, if the root's `out`
//! is an error, what the message of O1 says of this error.
//!
//! Control characters, white space other than the plain space, and some invisible characters are
//! written as escapes, such as `\u{1b}`. In the text of a value, LF, tab and CR are `\n`, `\t` and
//! `\r`. A rule is written in one line (`write_rule`). The functions that write to a `String` fail
//! if memory is refused.
#![tactic(auto)]

mod attributes;
mod cause_texts;
mod errors;
mod explained;
mod first_tokens;
mod rule_at_node;
mod rules;
mod tokens;

pub use attributes::NodeRequest;
pub use cause_texts::ErrorTranslation;
pub use errors::write_errors;
pub use explained::ExplainedTree;
pub use tokens::{TokenPosition, position_of_token};
