//! What a pass runs with.

use ag_grammar::Grammar;
use planchecker::Plan;

/// The setting of a pass. Contracts use its fields, or convert it with `pass_setting`
/// (`specs/Settings.antt`) to the record `Setting` of `passcode`.
#[derive(Clone, Copy)]
pub struct Setting<'a> {
    pub grammar: &'a Grammar,
    /// A plan for the grammar.
    pub plan: &'a Plan,
    /// The number of the pass, from 1.
    pub pass: u16,
}
