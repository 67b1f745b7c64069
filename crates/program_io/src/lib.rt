//! What the commands of the program have in common: they read inputs, open tree files, check and
//! write output files, and make the reports of inputs that can't be read and of refused grammars
//! and sentences. The checks compare written files with the inputs and with standard output, and
//! the files of translations with the tree files of `--work`.
#![tactic(auto)]

mod files;
mod output;
mod overlaps;
mod paths;
mod same_file;
mod session;
mod tree_paths;

pub use files::{build_translator, report_of_sentence};
pub use overlaps::{CheckedInput, INPUT_IS_WRITTEN, TREE_IS_WRITTEN, WORK_FILES};
pub use paths::path_in;
pub use same_file::FileId;
pub use session::Session;
pub use tree_paths::open_tree;
