//! The command line: its words, the request that they make, and how messages are printed.
//!
//! `CommandLine::from_words` reads the words of a command line. It also prints help, the version,
//! and what is wrong with the words, so its caller needs only the kind of a failure.
#![tactic(auto)]

mod argument;
mod commands;
mod fault;
mod input;
mod misuse;
mod plain;
mod request;
mod tree_options;
mod tree_requests;
mod values;

pub use fault::CommandLineFault;
pub use input::InputPath;
pub use misuse::file_name_of;
pub use request::{
    BatchPaths, Color, CommandLine, EvalPaths, FaultWords, Messages, ParsePaths, Request, RunPaths,
    UpgradePaths, WhyWords,
};
pub use tree_requests::{ExplainWords, NodeWords, PlaceInSentence, ShowWords};
