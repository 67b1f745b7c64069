//! A grammar and its tables, by which sentences are parsed.

use crate::table::lookup::Tables;
use ag_grammar::Grammar;

/// A grammar, and tables that choose the productions of a parse. `parse` requires the tables of
/// this grammar; `expected_at` takes any tables.
#[derive(Clone, Copy)]
pub(crate) struct Language<'g> {
    pub(crate) grammar: &'g Grammar,
    pub(crate) tables: &'g Tables,
}
