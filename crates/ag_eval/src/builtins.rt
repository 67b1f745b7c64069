//! The values of operators and calls for arguments that are not errors, by subject. `==` compares
//! values of any kinds; otherwise an argument of the wrong kind makes the value the error `kind`.
//! The functions that return a `Result` fail with `NoMemory` if memory is refused.

pub mod comparing;
pub mod faults;
pub mod list_trees;
pub mod lists;
pub mod numbers;
pub mod table_trees;
pub mod tables;
pub mod texts;
