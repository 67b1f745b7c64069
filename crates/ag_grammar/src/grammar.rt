//! The parts of an attribute grammar as plain data: symbols, productions and rules. The specs
//! define over these types what a grammar means and which grammars are accepted.

use crate::syntax::expression::Expr;
use ag_value::{Items, Text};

/// A declared symbol. Its attributes are numbered from 0, the synthesized ones first, then the
/// inherited ones.
#[derive(Drop)]
pub struct Symbol {
    /// The symbol's name.
    pub name: Text,
    /// The names of its synthesized attributes, in declared order.
    pub syn: Items<Text>,
    /// The names of its inherited attributes, in declared order.
    pub inh: Items<Text>,
}

/// A terminal: a literal or a token of a class (terminals are the textbook's, the classes this
/// project's).
#[derive(Clone, Copy, Debug, PartialEq, Eq)]
pub enum Terminal {
    /// A literal, by its number in the grammar's list of literals, from 0.
    Literal(u16),
    /// A token of a class: 0 is NAME, 1 is NUMBER, 2 is TEXT.
    Class(u16),
}

/// An item of the right side of a production (the textbook). `Production::item_at` and `places`
/// also return the symbol of the left side as an item, for place 0.
#[derive(Clone, Copy, Debug, PartialEq, Eq)]
pub enum Item {
    /// A declared symbol, by its number from 0.
    Symbol(u16),
    /// A terminal.
    Terminal(Terminal),
}

/// An attribute at a place of a production (Knuth 1968; often called an attribute occurrence). In
/// spite of the name of this type, the attribute may be the target of a rule or one of the rule's
/// arguments. An `Occ` in an expression, such as `$1.sum`, refers to a `Target`.
#[derive(Clone, Copy, PartialEq, Eq)]
pub struct Target {
    /// The place: 0 is the left side; 1, 2, .. are the children, which are the items of the right
    /// side other than literals, from left to right.
    pub place: u16,
    /// The number of the attribute at its symbol, from 0. A token of a class has the one attribute
    /// `lex`, of number 0.
    pub attr: u16,
}

/// A semantic rule (Knuth 1968).
#[derive(Drop)]
pub struct Rule {
    /// The attribute that the rule defines.
    pub target: Target,
    /// The expression whose value the target gets.
    pub expr: Expr,
    /// The attribute that each distinct occurrence of the expression refers to, in the order of the
    /// occurrences.
    pub args: Items<Target>,
}

/// A production (Knuth 1968).
#[derive(Drop)]
pub struct Production {
    /// The number of the symbol on the left side.
    pub left: u16,
    /// The items of the right side, from left to right.
    pub items: Items<Item>,
    /// The semantic rules, in the order of the text.
    pub rules: Items<Rule>,
}
