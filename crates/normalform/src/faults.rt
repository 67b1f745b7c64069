//! The search for the faults of a raw grammar.

pub mod clause;
pub mod fault_list;
pub mod limits;
pub mod naming;
pub mod readable;
pub mod reference_checks;
pub mod resolved;
pub mod resolving;
pub mod rules;
pub mod structure;
pub mod targets;
