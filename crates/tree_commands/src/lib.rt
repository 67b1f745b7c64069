//! The commands about tree files: `parse` and `upgrade`, which write one, and `show` and `explain`,
//! which print what is in one.
#![tactic(auto)]

mod explain;
mod indexed;
mod sentence_places;
mod show;
mod tree_files;
mod work_folder;

pub use explain::explain_tree;
pub use show::show_tree;
pub use tree_files::{convert_file, parse_file};
