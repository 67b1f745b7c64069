//! The tables of a grammar: FIRST, FOLLOW, and the production that each look-ahead chooses for each
//! symbol.
//!
//! Symbols and look-aheads are numbered as the nodes of two graphs (`nodes`). These nodes are not
//! nodes of trees. In the first graph, the symbols with a look-ahead in FIRST are those that are
//! reached from the look-ahead's node. In the second graph, the symbols with a look-ahead in FOLLOW
//! are those that are reached from the look-ahead's seeds (`follow`). A set of nodes is stored as a
//! list of marks, which has `true` at the numbers of the set's nodes.

pub mod building;
pub mod choosing;
pub mod conflicts;
pub mod fault;
pub mod filling;
pub mod first;
pub mod follow;
pub mod lookup;
pub mod nodes;
pub mod nullable;
pub mod predict;
