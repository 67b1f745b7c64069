//! Evaluates expressions: applies operators and calls to the values of attributes, within the
//! limits of weight and depth. A value is well if it has the right form and is within these limits
//! (README of `ag_value`).
//!
//! During an evaluation the value of a part of the expression is an *operand*. It may be lent by
//! the environment or by the expression, or owned. A long text may be a shared text, and a large
//! table or list a tree. An operand may also be the value of a name that a `let` binds (a
//! *binding*). A function that returns a `Result` with `NoMemory` fails only if memory is refused,
//! or if a shared value has 2^64 - 1 owners; no contract says so.
#![tactic(auto)]

mod available;
mod bindings;
mod builtins;
mod calls;
mod carried;
mod concatenation;
mod environment;
mod evaluation;
mod flat;
mod list_builder;
mod measured;
mod meter;
mod operand;
mod scalar;
mod value_ref;

pub use available::eval_number;
pub use carried::{eval_carried, eval_scalar};
pub use environment::{CarriedEnvironment, Env};
pub use evaluation::eval;
pub use meter::Meter;
pub use scalar::Scalar;
