//! Expressions of rules as data.

pub mod expression;
pub mod literal;
pub mod node;
pub mod occurrence;
