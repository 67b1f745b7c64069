//! Translations of sentences, of trees in files, and of jobs, and their reports.

pub mod evaluating;
pub mod job;
pub mod report;
pub mod translating;
