//! Why a plan has its passes: the texts that `aggen why` prints. An attribute that pass 3 computes
//! has a chain of strikes that shows why pass 2 can't compute it, and another chain for pass 1. If
//! a grammar has no plan (A1), chains show why no pass computes some attributes. The strikes are
//! those of `passassign`. A strike names an attribute that a pass can't compute, a rule for it, and
//! an argument of this rule that is the reason. A link is a strike with these parts looked up in
//! the grammar.
//!
//! Each function that writes a text allocates, and fails if memory is refused. In names,
//! control characters, white space other than the plain space, and some invisible characters are
//! written as escapes, such as `\u{1b}`.
#![tactic(auto)]

mod attributes;
mod chains;
mod explanation;
mod hints;
mod lines;
mod link_texts;
mod links;
mod plans;
mod stuck;
mod uses;

pub use chains::{LeastPlan, stuck_links};
pub use explanation::Explanation;
pub use links::{Geometry, Link, links_of, obstacles_of};
pub use message_parts::{Attribute, NameFault, attribute_named};
pub use uses::{is_copied, is_unused};
