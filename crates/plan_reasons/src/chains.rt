//! Chains of the strikes of an assignment or of a certificate: the first attribute that a pass
//! leaves to a later pass, and the links that show why a pass can't compute an attribute.

ghost use Rattle.std.specs.Prelude.{ℕ, ◌≡◌, ◌≤◌, ◌↔◌, IfOk, IfSome, IsTrue, None, Some, slice_get};
ghost use Rattle.ag_grammar.specs.grammars.Passes.{direction_of};
ghost use Rattle.passassign.specs.Certificate.{IsCertificate, IsStruckBy, Members};
ghost use Rattle.passassign.specs.PassStrikes.{AreStrikesOf, HasPassAfter, HasPassFrom};
ghost use Rattle.passassign.specs.PassStrikes.{strikes_of};
ghost use Rattle.passassign.specs.Rows.{numbers_of, passes_of};
ghost use Rattle.plan_reasons.specs.Links.{AreChainLinks};

use crate::links::{Link, links_of};
use ag_grammar::{Direction, Grammar};
use ag_value::NoMemory;
use message_parts::Attribute;
use passassign::{Assignment, Strike, Strikes, Stuck};
use std::alloc::Global;

/// An assignment, and the strikes that show that no attribute can have an earlier pass.
#[derive(Clone, Copy)]
pub struct LeastPlan<'a> {
    pub assignment: &'a Assignment,
    pub strikes: &'a Strikes,
}

/// Returns the pass of an attribute, if it has one. `rows` has a row for each symbol, with the pass
/// of each of its attributes.
fn pass_in(rows: &[Vec<u16>], symbol: u16, attr: u16) -> Option<u16>
    ensures { result ≡ slice_get (passes_of (numbers_of rows.now) symbol) attr }
{
    if symbol as usize >= rows.len() {
        return None;
    }
    let row = rows[symbol as usize].as_slice();
    if attr as usize >= row.len() {
        return None;
    }
    Some(row[attr as usize])
}

/// Returns whether an attribute has this pass.
fn has_pass(assignment: &Assignment, symbol: u16, attr: u16, pass: u16) -> bool
    ensures { IsTrue result ↔ (slice_get (passes_of assignment.now symbol) attr ≡ Some pass) }
{
    match pass_in(assignment.rows(), symbol, attr) {
        Some(own) => own == pass,
        None => false,
    }
}

/// Returns the attribute of the first strike whose attribute has pass `pass`.
fn first_with_pass(strikes: &[Strike], assignment: &Assignment, pass: u16) -> Option<Attribute>
    ensures found { IfSome result (λ x. IsStruckBy strikes.now x.0 x.1
        × (slice_get (passes_of assignment.now x.0) x.1 ≡ Some pass)) }
    ensures none { result ≡ None → (s a : ℕ) → IsStruckBy strikes.now s a
        → slice_get (passes_of assignment.now s) a ≡ Some pass → ⊥ }
{
    for strike in strikes {
        if has_pass(assignment, strike.symbol, strike.attr, pass) {
            return Some((strike.symbol, strike.attr));
        }
    }
    None
}

impl LeastPlan<'_> {
    /// Returns the pass of an attribute, if it has one.
    pub fn pass_of(&self, attribute: Attribute) -> Option<u16>
        ensures { result ≡ slice_get (passes_of self.now.assignment.now attribute.0) attribute.1 }
    {
        pass_in(self.assignment.rows(), attribute.0, attribute.1)
    }

    /// Finds, among the strikes of pass `pass`, the first one whose attribute has pass `later`, and
    /// returns this attribute. Returns `None` if there is no such strike.
    pub fn first_struck(&self, pass: u16, later: u16) -> Option<Attribute>
        ensures found { IfSome result (λ x.
            IsStruckBy (strikes_of self.now.strikes.now.lists pass) x.0 x.1
            × (slice_get (passes_of self.now.assignment.now x.0) x.1 ≡ Some later)) }
        ensures none { result ≡ None → (s a : ℕ)
            → IsStruckBy (strikes_of self.now.strikes.now.lists pass) s a
            → slice_get (passes_of self.now.assignment.now s) a ≡ Some later → ⊥ }
    {
        first_with_pass(self.strikes.of_pass(pass), self.assignment, later)
    }

    /// Returns the links that show why a pass can't compute an attribute that has a later pass:
    /// those of the strikes that `Strikes::chain_of` returns. These strikes are a chain if the
    /// field `strikes` has the strikes of the assignment, and `grammar` is the assignment's
    /// grammar. The result is empty if the pass does not strike the attribute. Fails if memory is
    /// refused.
    pub fn links(
        &self,
        alloc: Global,
        grammar: &Grammar,
        pass: u16,
        attribute: Attribute,
    ) -> Result<Vec<Link>, NoMemory>
        ensures { IfOk result (λ links.
            AreStrikesOf grammar.now self.now.assignment.now self.now.strikes.now.lists
            → 1 ≤ pass → HasPassAfter (passes_of self.now.assignment.now) pass attribute.0 attribute.1
            → AreChainLinks grammar.now (direction_of pass)
            (HasPassFrom (passes_of self.now.assignment.now) pass) attribute.0 attribute.1 links.items) }
    {
        let chain = self.strikes.chain_of(alloc, grammar, pass, attribute)?;
        links_of(alloc, grammar, chain.as_slice())
    }
}

/// Returns the links that show why no pass of a direction can compute an attribute of a
/// certificate's set: those of the strikes that `Stuck::chain_of` returns. These strikes are a
/// chain if `stuck` is a certificate of `grammar`. The result is empty if the list for the
/// direction does not strike the attribute. Fails if memory is refused.
pub fn stuck_links(
    alloc: Global,
    grammar: &Grammar,
    stuck: &Stuck,
    direction: Direction,
    attribute: Attribute,
) -> Result<Vec<Link>, NoMemory>
    ensures { IfOk result (λ links. IsCertificate grammar.now stuck.now
        → Members stuck.now.set attribute.0 attribute.1
        → AreChainLinks grammar.now direction (Members stuck.now.set) attribute.0 attribute.1 links.items) }
{
    let chain = stuck.chain_of(alloc, grammar, direction, attribute)?;
    links_of(alloc, grammar, chain.as_slice())
}
