//! Writes a tree file as text, as `aggen show` prints it: an indented line or a JSON object for
//! each printed node, each node before its children, and children from left to right.
//!
//! In lines, control characters, white space other than the plain space, and some invisible
//! characters are written as escapes, such as `\u{1b}`. In the text of a value, LF, tab and CR are
//! written as `\n`, `\t` and `\r`. In JSON, quotes, backslashes and control characters of a value
//! are written as escapes, such as `\n` and `\u001b`. Productions and names of symbols are escaped
//! twice in JSON: first as in lines, and then as a JSON string. So `\u{1b}` becomes `\\u{1b}`.
//!
//! The functions that write to a `String` fail if memory is refused.
#![tactic(auto)]

mod fault;
mod json;
mod lines;
mod names;
mod printing;
mod selection;
mod shown;

pub use fault::ShowFault;
pub use names::{ItemName, ProductionText};
pub use printing::{TreeText, write_tree};
pub use selection::{SelectedAttribute, selected_attribute};
pub use shown::write_value;
