//! Tests of the libraries that the translator uses: of cursors over the tokens of a text (`Cursor`
//! of `ag_tokens`), ropes, list trees and table trees, devices that fail or lie (return a wrong
//! length or wrong bytes), and tree files. Some of the files change while they are read. This crate
//! has no other code, since a crate that has tests is proved twice, without them and with them. The
//! crates `cases`, `translations` and `failures` run tests that are rows of data;
//! `tests/refused-memory` tests refused memory.
#![tactic(auto)]

#[cfg(test)]
mod blocks;
#[cfg(test)]
mod checking;
#[cfg(test)]
mod cursors;
#[cfg(test)]
mod files;
#[cfg(test)]
mod list_trees;
#[cfg(test)]
mod reading_back;
#[cfg(test)]
mod ropes;
#[cfg(test)]
mod table_trees;
#[cfg(test)]
mod tree_files;
#[cfg(test)]
mod turning;
