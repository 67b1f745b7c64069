//! The reserved names, among them the names of calls, and the names in scope.

ghost use Rattle.std.specs.Prelude.{◌≡◌, ◌∷◌, ◌++◌, [], None, OnOk, bytes_eq};
ghost use Rattle.ag_expr.specs.language.Names as names_spec;

use ag_grammar::{BinaryCall, UnaryCall};
use ag_value::NoMemory;
use std::alloc::Global;
use std::marker::Model;

/// A built-in operation that is written as a call, by the number of its arguments.
#[derive(Clone, Copy, PartialEq, Eq)]
pub enum Call {
    /// With one argument.
    Unary(UnaryCall),
    /// With two arguments.
    Binary(BinaryCall),
    /// `put`, with three arguments.
    Put,
}

/// Returns the call of this name, or `None`.
pub fn call_of(name: &str) -> Option<Call>
    ensures { result ≡ names_spec.call_of name.now }
{
    match name {
        "len" => Some(Call::Unary(UnaryCall::Len)),
        "text" => Some(Call::Unary(UnaryCall::Text)),
        "number" => Some(Call::Unary(UnaryCall::Number)),
        "keys" => Some(Call::Unary(UnaryCall::Keys)),
        "iserr" => Some(Call::Unary(UnaryCall::IsError)),
        "nth" => Some(Call::Binary(BinaryCall::Nth)),
        "append" => Some(Call::Binary(BinaryCall::Append)),
        "join" => Some(Call::Binary(BinaryCall::Join)),
        "get" => Some(Call::Binary(BinaryCall::Get)),
        "has" => Some(Call::Binary(BinaryCall::Has)),
        "orelse" => Some(Call::Binary(BinaryCall::OrElse)),
        "put" => Some(Call::Put),
        _ => None,
    }
}

/// Returns whether a name is a keyword or the name of an operator.
fn is_keyword(name: &str) -> bool
    ensures { result ≡ names_spec.is_keyword name.now }
{
    name == "let"
        || name == "in"
        || name == "if"
        || name == "then"
        || name == "else"
        || name == "div"
        || name == "mod"
}

/// Returns whether a name is reserved, so that it cannot be bound.
pub fn is_reserved(name: &str) -> bool
    ensures { result ≡ names_spec.is_reserved name.now }
{
    is_keyword(name) || call_of(name).is_some()
}

/// Returns the index, from 0, of the last entry of a list that is this name, or `None`.
fn last_position(names: &[&str], name: &str) -> Option<usize>
    ensures { result ≡ names_spec.last_from (λ y. bytes_eq y.now name.now) 0 None names.now }
{
    let mut found = None;
    for at in 0..names.len() {
        if names[at] == name {
            found = Some(at);
        }
    }
    found
}

/// The names in scope, the outermost first.
#[derive(Drop)]
pub struct Scope<'t> {
    names: Vec<&'t str>,
}

impl<'t> Model for Scope<'t> {
    ghost use Rattle.std.specs.Prelude.{List, ℕ, map};

    ghost Value = { List (List ℕ) };

    ghost view = { λ s. map (λ n. n.now) s.names.items };
}

impl<'t> Scope<'t> {
    /// Returns a scope without names. Does not allocate.
    pub fn new(alloc: Global) -> Scope<'t>
        ensures { result ≡ [] }
    {
        Scope {
            names: Vec::new(alloc),
        }
    }

    /// Binds a name as the innermost one. Fails with `NoMemory` if the scope cannot grow.
    pub fn bind(&mut self, name: &'t str) -> Result<(), NoMemory>
        ensures { OnOk result (self.new ≡ self.old ++ name.now ∷ []) }
    {
        self.names.push(name)?;
        Ok(())
    }

    /// Removes the innermost name, if there is one.
    #[tactic(auto, using(crate::proofs::Scopes::unbound))]
    pub fn unbind(&mut self)
        ensures { self.new ≡ names_spec.without_innermost self.old }
    {
        let _ = self.names.pop();
    }

    /// Returns the index of the innermost binding of a name, or `None` if it is not bound. The
    /// outermost binding has index 0.
    #[tactic(auto, using(crate::proofs::Scopes::last_lent))]
    pub fn binding_of(&self, name: &str) -> Option<usize>
        ensures { result ≡ names_spec.binding_in self.now name.now }
    {
        last_position(self.names.as_slice(), name)
    }
}
