//! The phase of a node while a pass runs its list.

/// The phase of a node of a symbol: how far its list was run at the current child, or that the list
/// has ended.
#[derive(Clone, Copy, PartialEq, Eq)]
pub enum Phase {
    /// Between two children, before the first one, or after the last one and before `End`.
    Between,
    /// At a child that is a symbol, after its `Get` and before its `Go`.
    Got,
    /// At a child before its `Put`: after the `Go` of a symbol, or after the `Get` of a token.
    Gone,
    /// After `End`.
    Ended,
}
