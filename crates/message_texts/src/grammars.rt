//! Faults of grammars.

pub mod conflicts;
pub mod endless;
pub mod left_recursion;
pub mod limits;
pub mod lookup;
pub mod normal;
pub mod related;
pub mod stuck;
pub mod texts;
