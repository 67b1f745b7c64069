//! Checks a raw grammar, and replaces its names and literals by numbers. A grammar passes the check
//! if
//!
//! - each symbol and attribute that it uses exists;
//! - no symbol is declared twice, and no symbol declares an attribute twice;
//! - its start symbol has a synthesized `out` and no inherited attribute;
//! - each symbol derives a list of terminals and is reachable;
//! - it is complete and normal, and within the limits.
//!
//! docs/THEOREM.md explains these words.
//!
//! A function whose error is the type `NoMemory` fails only if memory is refused. No contract says
//! so.
#![tactic(auto)]

mod checking;
mod display;
mod fault;
mod faults;
pub mod laws;
mod numbers;

pub use checking::{check, faults_of};
pub use fault::{LimitKind, NormalFault};
pub use faults::fault_list::FaultList;
pub use faults::readable::is_readable;
