//! The tree of an expression.

use crate::syntax::literal::Literal;
use ag_value::{Boxed, Items};

/// An operator of a chain. It is applied to the value so far and the value of the next operand.
#[derive(Clone, Copy, Debug, PartialEq, Eq)]
pub enum Operator {
    /// `==`
    Equal,
    /// `<`
    Less,
    /// `++`
    Join,
    /// `+`
    Add,
    /// `-`
    Subtract,
    /// `*`
    Multiply,
    /// `div`
    Divide,
    /// `mod`
    Remainder,
}

/// A call with one argument.
#[derive(Clone, Copy, Debug, PartialEq, Eq)]
pub enum UnaryCall {
    /// `len(a)`: of a text, a list or a table
    Len,
    /// `text(n)`: a number in decimal
    Text,
    /// `number(t)`: of a text
    Number,
    /// `keys(t)`: of a table
    Keys,
    /// `iserr(v)`: whether a value is an error
    IsError,
}

/// A call with two arguments.
#[derive(Clone, Copy, Debug, PartialEq, Eq)]
pub enum BinaryCall {
    /// `nth(l, i)`: the item of a list at an index from 0
    Nth,
    /// `append(l, v)`: a list with one more item
    Append,
    /// `join(l, s)`: the texts of a list with a separator between them
    Join,
    /// `get(t, k)`: the value at a key of a table
    Get,
    /// `has(t, k)`: whether a table has a key
    Has,
    /// `orelse(v, w)`: `v`, or `w` if `v` is an error
    OrElse,
}

/// The tree of an expression.
#[derive(Debug, Drop)]
pub enum Node {
    /// A number or text literal.
    Literal(Literal),
    /// An occurrence, by its index, from 0, in the list of the expression's occurrences.
    Occurrence(usize),
    /// A bound name, by its index among the names that are bound around it; the outermost has index
    /// 0.
    Bound(usize),
    /// A first operand, followed by one or more pairs of an operator and an operand. All operators
    /// of a chain have the same precedence, and are applied from left to right. The parser makes
    /// chains with `==` or `<` of one pair only.
    Chain(Boxed<Node>, Items<(Operator, Node)>),
    /// `let x = e in f`: the definition of the name, and the body in which it is bound.
    Let(Boxed<Node>, Boxed<Node>),
    /// `if c then e else f`
    If(Boxed<Node>, Boxed<Node>, Boxed<Node>),
    /// A call with one argument.
    Unary(UnaryCall, Boxed<Node>),
    /// A call with two arguments.
    Binary(BinaryCall, Boxed<Node>, Boxed<Node>),
    /// `put(t, k, v)`: a table with this value at this key
    Put(Boxed<Node>, Boxed<Node>, Boxed<Node>),
    /// `[a, ..]`
    List(Items<Node>),
    /// `{}`
    EmptyTable,
}
