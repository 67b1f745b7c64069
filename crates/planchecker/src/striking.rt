//! The check that strikes are good in a pass, one after the other. Both kinds of certificate use
//! it.
//!
//! A strike names an attribute, a rule for it and an argument of that rule. It is good if this
//! argument is a reason why the pass can't compute the attribute. There are two cases: the argument
//! was struck before; or it is one of the `Candidates` (below), and is at the same child as the
//! rule's target or at a child that the pass visits later.

ghost use Rattle.std.specs.Prelude.{ℕ, ◌≡◌, ◌↔◌, IfSome, IsSome, IsTrue, Some, slice_get, take};
ghost use Rattle.ag_grammar.specs.declared.direction.Direction.{Direction as TheDirection};
ghost use Rattle.ag_grammar.specs.declared.grammar.Item.TheVariants as item;
ghost use Rattle.ag_grammar.specs.grammars.AttributeGrammar.{item_at};
ghost use Rattle.passassign.specs.Certificate.{IsGoodWhere, IsOneOf, IsReasonWhere, IsStruckBy};
ghost use Rattle.passassign.specs.declared.stuck.Strike.{Strike as TheStrike};
ghost use Rattle.planchecker.specs.Marking.{IsMarked};
ghost use Rattle.planchecker.specs.Striking.{IsNext, IsNextWhere};

use crate::marks::Marks;
use ag_grammar::{Direction, Grammar, Item, Production, Target};
use passassign::{Strike, is_same_or_later};

/// The candidates for a pass (of an assignment those without an earlier pass, of a certificate the
/// members of its set), and those of them that the pass has to strike, since they have a later pass
/// or none. The members `later` and `is_later` are about those to strike.
pub(crate) trait Candidates {
    /// The direction of the pass.
    ghost direction: { Self → TheDirection };

    /// `candidates x s a` is the statement that attribute a of symbol s is one of the candidates
    /// that the value x describes.
    ghost candidates: { Self → ℕ → ℕ → Type 0 };

    /// `later x s a` is the statement that attribute a of symbol s is one of those that the pass
    /// has to strike.
    ghost later: { Self → ℕ → ℕ → Type 0 };

    /// Returns the direction of the pass.
    fn direction(&self) -> Direction
        ensures { result ≡ direction self.now };

    /// Returns whether an attribute is a candidate.
    fn is_candidate(&self, symbol: u16, attr: u16) -> bool
        ensures { IsTrue result ↔ candidates self.now symbol attr };

    /// Returns whether the pass has to strike an attribute.
    fn is_later(&self, symbol: u16, attr: u16) -> bool
        ensures { IsTrue result ↔ later self.now symbol attr };

    /// The statement that each attribute that the pass has to strike is a candidate. An `impl` of
    /// the trait contains the proof for its type.
    ghost within: { (x : Self) (s a : ℕ) → later x s a → candidates x s a };
}

/// Returns whether an attribute of an item is struck. Returns false for `None` and for a terminal.
fn is_item_struck(struck: &Marks, item: Option<Item>, attr: u16) -> bool
    ensures { IsTrue result ↔ IsOneOf (IsMarked struck.now) item attr }
{
    match item {
        Some(Item::Symbol(symbol)) => struck.has(symbol as usize, attr as usize),
        Some(Item::Terminal(_)) => false,
        None => false,
    }
}

/// Returns whether an attribute of an item is a candidate. Returns false for `None` and a terminal.
fn is_item_candidate<C: Candidates>(candidates: &C, item: Option<Item>, attr: u16) -> bool
    ensures { IsTrue result ↔ IsOneOf (C.candidates candidates.now) item attr }
{
    match item {
        Some(Item::Symbol(symbol)) => candidates.is_candidate(symbol, attr),
        Some(Item::Terminal(_)) => false,
        None => false,
    }
}

/// Returns whether an argument of a rule is a reason why a pass can't compute the rule's target,
/// which is at place `place`. `struck` marks the attributes that are struck already.
fn is_reason<C: Candidates>(
    candidates: &C,
    struck: &Marks,
    production: &Production,
    place: u16,
    argument: Target,
) -> bool
    ensures { IsTrue result ↔ IsReasonWhere (C.direction candidates.now)
        (C.candidates candidates.now) (IsMarked struck.now) production.now place argument }
{
    let item = production.item_at(argument.place);
    if is_item_struck(struck, item, argument.attr) {
        return true;
    }
    is_same_or_later(candidates.direction(), place, argument.place)
        && is_item_candidate(candidates, item, argument.attr)
}

/// Returns whether the symbol with number `symbol` is at a place of a production.
fn is_symbol(production: &Production, place: u16, symbol: u16) -> bool
    ensures { IsTrue result ↔ (item_at production.now place ≡ Some (item.Symbol symbol)) }
{
    match production.item_at(place) {
        Some(Item::Symbol(found)) => found == symbol,
        Some(Item::Terminal(_)) => false,
        None => false,
    }
}

/// Returns whether a strike is good if the marked attributes are struck: its production, rule and
/// argument exist, the rule's target is the strike's attribute, and the argument is a reason.
fn is_good<C: Candidates>(grammar: &Grammar, candidates: &C, struck: &Marks, strike: Strike) -> bool
    ensures { IsTrue result ↔ IsGoodWhere grammar.now (C.direction candidates.now)
        (C.candidates candidates.now) (IsMarked struck.now) strike }
{
    let Some(production) = grammar.productions().get(strike.production as usize) else {
        return false;
    };
    let Some(rule) = production.rules.as_slice().get(strike.rule as usize) else {
        return false;
    };
    let Some(argument) = rule.args.as_slice().get(strike.arg as usize) else {
        return false;
    };
    let target = rule.target;
    if !is_symbol(production, target.place, strike.symbol) || target.attr != strike.attr {
        return false;
    }
    is_reason(candidates, struck, production, target.place, *argument)
}

/// Returns whether a strike may come next if the marked attributes are struck: its attribute is not
/// struck yet, the pass has to strike this attribute, and the strike is good.
fn is_next<C: Candidates>(grammar: &Grammar, candidates: &C, struck: &Marks, strike: Strike) -> bool
    ensures { IsTrue result ↔ IsNextWhere grammar.now (C.direction candidates.now)
        (C.candidates candidates.now) (C.later candidates.now) (IsMarked struck.now) strike }
{
    candidates.is_later(strike.symbol, strike.attr)
        && !struck.has(strike.symbol as usize, strike.attr as usize)
        && is_good(grammar, candidates, struck, strike)
}

/// Returns marks of the attributes that a list strikes, or `None` if one of the strikes may not
/// come next after those before it (`is_next`). Does not allocate.
pub(crate) fn marks_of<C: Candidates>(
    grammar: &Grammar,
    candidates: &C,
    strikes: &[Strike],
) -> Option<Marks>
    ensures good { IsSome result ↔ ((i : ℕ) (x : TheStrike) → slice_get strikes.now i ≡ Some x
        → IsNext grammar.now (C.direction candidates.now) (C.candidates candidates.now)
        (C.later candidates.now) (take i strikes.now) x) }
    ensures marks { IfSome result
        (λ m. (s a : ℕ) → IsMarked m s a ↔ IsStruckBy strikes.now s a) }
{
    // The result is unused: the call is here for its contract, which says that the grammar is
    // accepted. So the symbol and the attribute of a good strike have numbers that are small enough
    // for `mark`.
    let _productions = grammar.productions();
    let mut struck = Marks::new();
    for strike in strikes {
        if !is_next(grammar, candidates, &struck, *strike) {
            return None;
        }
        struck.mark(strike.symbol as usize, strike.attr as usize);
    }
    Some(struck)
}
