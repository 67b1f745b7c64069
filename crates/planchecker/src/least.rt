//! The check of the certificate that an assignment is the least one.

ghost use Rattle.std.specs.Prelude.{ℕ, ◌≡◌, ◌+◌, ◌^◌, ◌<◌, ◌≤◌, ◌↔◌, IsTrue, Some, length};
ghost use Rattle.ag_grammar.specs.grammars.Passes.{IsLegal, Passes, direction_of};
ghost use Rattle.passassign.proofs.making.NoEarlier.{later_from};
ghost use Rattle.passassign.specs.Least.{partial_of};
ghost use Rattle.passassign.specs.PassStrikes.{AreStrikesAt, AreStrikesOf, HasPassAfter};
ghost use Rattle.passassign.specs.PassStrikes.{HasPassFrom};
ghost use Rattle.passassign.specs.Rows.{numbers_of, passes_of};
ghost use Rattle.planchecker.specs.First.{EachAt};
ghost use Rattle.planchecker.specs.Marking.{IsMarked};

use crate::marks::Marks;
use crate::striking::{Candidates, marks_of};
use ag_grammar::{Direction, Grammar, Item};
use ag_value::Items;
use passassign::laws::none_is_earlier;
use passassign::{Assignment, Strike, Strikes};

/// The candidates of a pass of an assignment: the attributes of this pass and of later passes. The
/// attributes of later passes have to be struck.
#[derive(Clone, Copy)]
struct PassCandidates<'a> {
    assignment: &'a Assignment,
    pass: u16,
}

impl Candidates for PassCandidates<'_> {
    ghost direction = { λ x. direction_of x.pass };

    ghost candidates = { λ x. HasPassFrom (passes_of x.assignment.now) x.pass };

    ghost later = { λ x. HasPassAfter (passes_of x.assignment.now) x.pass };

    fn direction(&self) -> Direction {
        Direction::of_pass(self.pass)
    }

    fn is_candidate(&self, symbol: u16, attr: u16) -> bool {
        match self.assignment.pass_of(Item::Symbol(symbol), attr) {
            Some(own) => self.pass <= own,
            None => false,
        }
    }

    fn is_later(&self, symbol: u16, attr: u16) -> bool {
        match self.assignment.pass_of(Item::Symbol(symbol), attr) {
            Some(own) => self.pass < own,
            None => false,
        }
    }

    ghost within = { λ x s a h. later_from (passes_of x.assignment.now) x.pass s a h };
}

/// Returns whether an attribute is struck, or its pass `own` is not later than `pass`.
fn is_struck_if_later(struck: &Marks, pass: u16, own: u16, symbol: usize, attr: usize) -> bool
    ensures { IsTrue result ↔ (pass < own → IsMarked struck.now symbol attr) }
{
    own <= pass || struck.has(symbol, attr)
}

/// Returns whether each attribute of a symbol that has a later pass than `pass` is struck. `row`
/// has the passes of the symbol's attributes.
fn is_row_struck(struck: &Marks, pass: u16, row: &[u16], symbol: usize) -> bool
    ensures { IsTrue result ↔ EachAt (λ a p. pass < p → IsMarked struck.now symbol a) row.now }
{
    for (attr, own) in row.iter().enumerate() {
        if !is_struck_if_later(struck, pass, *own, symbol, attr) {
            return false;
        }
    }
    true
}

/// Returns whether each attribute that has a later pass than `pass` is struck.
fn are_later_struck(rows: &[Vec<u16>], pass: u16, struck: &Marks) -> bool
    ensures { IsTrue result ↔ ((s a : ℕ) → HasPassAfter (passes_of (numbers_of rows.now)) pass s a
        → IsMarked struck.now s a) }
{
    for (symbol, row) in rows.iter().enumerate() {
        if !is_row_struck(struck, pass, row.as_slice(), symbol) {
            return false;
        }
    }
    true
}

/// Returns whether `strikes` are the strikes of pass `pass` of an assignment.
fn are_strikes_at(grammar: &Grammar, assignment: &Assignment, pass: u16, strikes: &[Strike]) -> bool
    ensures { IsTrue result
        ↔ AreStrikesAt grammar.now (passes_of assignment.now) pass strikes.now }
{
    let candidates = PassCandidates { assignment, pass };
    match marks_of(grammar, &candidates, strikes) {
        Some(struck) => are_later_struck(assignment.rows(), pass, &struck),
        None => false,
    }
}

/// Returns whether lists have the strikes of the passes of an assignment, from pass 1 on.
fn are_all_strikes(grammar: &Grammar, assignment: &Assignment, lists: &[Items<Strike>]) -> bool
    requires { length lists.now < 2 ^ 16 }
    ensures { IsTrue result
        ↔ EachAt (λ i xs. AreStrikesAt grammar.now (passes_of assignment.now) (i + 1) xs) lists.now }
{
    for (index, list) in lists.iter().enumerate() {
        if !are_strikes_at(grammar, assignment, index as u16 + 1, list.as_slice()) {
            return false;
        }
    }
    true
}

/// Returns whether lists are the strikes of an assignment's passes, one list for each pass. The
/// list of pass k strikes each attribute that has a later pass, once, and no other attribute. Each
/// strike names a rule for its attribute and an argument of this rule. The argument is an attribute
/// that is struck earlier in the list; or it has pass k or a later one, and is at the same child as
/// the rule's target or at one that pass k visits later.
///
/// If the result is true, no legal assignment gives any attribute an earlier pass than `assignment`
/// does. So an assignment that `check_plan` also accepts is the least one.
///
/// Does not allocate, whatever numbers the lists have. A list is read up to the first strike that
/// may not come next (`is_next`). The strikes before it are of different attributes, so at most
/// 4,097 strikes of a list are read: one for each attribute of a grammar, and one more. For each
/// strike the items of a right side are read at most twice. Marks of struck attributes take 4,096
/// bytes of stack.
pub fn check_least(grammar: &Grammar, assignment: &Assignment, strikes: &Strikes) -> bool
    ensures strikes { IsTrue result
        ↔ AreStrikesOf grammar.now assignment.now strikes.now.lists }
    ensures least { IsTrue result → (other : Passes) → IsLegal grammar.now other
        → (s a p q : ℕ) → partial_of (passes_of assignment.now) s a ≡ Some p
        → partial_of other s a ≡ Some q → p ≤ q }
{
    none_is_earlier();
    let lists = strikes.lists.as_slice();
    if lists.len() != assignment.passes() as usize {
        return false;
    }
    are_all_strikes(grammar, assignment, lists)
}
