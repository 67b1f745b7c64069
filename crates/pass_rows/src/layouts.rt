//! The layout of each production in a pass, computed before the pass runs.

pub mod building;
pub mod context;
pub mod hints;
pub mod rows;
