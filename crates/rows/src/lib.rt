//! Runs rows of data. A row is a line with a question, such as one about a public call, and a line
//! `= ANSWER` for each line of the expected answer. The prover doesn't check the answers.
#![tactic(auto)]

pub mod current_texts;
pub mod sheet;
mod text_changes;
pub mod words;
