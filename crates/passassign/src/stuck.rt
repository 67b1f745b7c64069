//! Two kinds of certificates, as plain data. One shows that a grammar has no legal assignment, and
//! the other that a legal assignment is the least one. The definitions in `specs` say when a
//! certificate is valid.

use ag_value::Items;

/// A reason why a pass of some direction can't compute an attribute: a rule for this attribute, and
/// an argument of this rule that is not computed before the rule is evaluated. All numbers are from
/// 0. The fields of a strike can have any values: `IsGood` of `specs/Certificate.antt` says when a
/// strike is good.
#[derive(Clone, Copy, Debug, PartialEq, Eq)]
pub struct Strike {
    /// The number of the attribute's symbol.
    pub symbol: u16,
    /// The attribute's number in its symbol.
    pub attr: u16,
    /// The number of the rule's production.
    pub production: u16,
    /// The rule's number in its production.
    pub rule: u16,
    /// The argument's number in the rule.
    pub arg: u16,
}

/// A certificate that a grammar has no legal assignment: a set of attributes, and for each
/// direction of passes a list with a strike of each of them. The order of a list is that in which
/// its attributes are struck.
#[derive(Debug, Drop)]
pub struct Stuck {
    /// The attributes, each as the number of its symbol and its own number in the symbol, from 0.
    pub set: Items<(u16, u16)>,
    /// The strikes of a pass from right to left, the direction of odd passes.
    pub odd: Items<Strike>,
    /// The strikes of a pass from left to right, the direction of even passes.
    pub even: Items<Strike>,
}

/// A certificate that no attribute can have an earlier pass than it has in an assignment: the
/// strikes of each pass of the assignment. The list of a pass strikes each attribute that has a
/// later pass.
#[derive(Drop)]
pub struct Strikes {
    /// One list for each pass, the first for pass 1, each in the order in which the pass strikes.
    pub lists: Items<Items<Strike>>,
}
