//! Chains of strikes: why a pass can't compute an attribute, down to a strike that waits for no
//! other attribute.

ghost use Rattle.std.specs.Prelude.{ℕ, ◌≡◌, ◌≤◌, ◌<◌, ◌↔◌, List, IfOk, IfSome, IsTrue, None, Some};
ghost use Rattle.std.specs.Prelude.{length, slice_get};
ghost use Rattle.ag_grammar.specs.Lists.{Has};
ghost use Rattle.ag_grammar.specs.grammars.Passes.{direction_of};
ghost use Rattle.passassign.specs.Certificate.{IsCertificate, IsStruckBy, Members};
ghost use Rattle.passassign.specs.Chains.{AreAwaitedBefore, AreLinked, IsAwaited, IsChainOf, IsWait};
ghost use Rattle.passassign.specs.Chains.{StartsWith, WaitsFor, WaitsForNone, strike_at};
ghost use Rattle.passassign.specs.PassStrikes.{AreStrikesOf, HasPassAfter, HasPassFrom, list_for};
ghost use Rattle.passassign.specs.PassStrikes.{strikes_of};
ghost use Rattle.passassign.specs.Rows.{passes_of};
ghost use Rattle.passassign.specs.declared.stuck.Strike.{Strike as TheStrike};

use crate::search::is_same_or_later;
use crate::stuck::{Strike, Strikes, Stuck};
use ag_grammar::{Direction, Grammar, Item, Production, Rule, Target};
use ag_value::NoMemory;
use std::alloc::Global;

/// Returns the attribute that a strike by this argument of a rule waits for: the argument, as the
/// number of its symbol and its own number. Returns `None` if the argument is not an attribute of a
/// symbol. Returns `None` also if the argument is at the target's own child, or at a child that a
/// pass in the direction visits later.
fn awaited_attribute(
    direction: Direction,
    production: &Production,
    rule: &Rule,
    argument: Target,
) -> Option<(u16, u16)>
    ensures { IsAwaited direction production.now rule.now argument result }
{
    if is_same_or_later(direction, rule.target.place, argument.place) {
        return None;
    }
    match production.item_at(argument.place) {
        Some(Item::Symbol(symbol)) => Some((symbol, argument.attr)),
        Some(Item::Terminal(_)) => None,
        None => None,
    }
}

/// Returns the attribute that a strike waits for: its argument. Returns `None` if the argument is
/// at the target's own child, or at a child that a pass in the direction visits later: such an
/// argument is a reason by itself, so the strike waits for no attribute. Returns `None` also if the
/// argument doesn't exist, or is not an attribute of a symbol.
fn waits_for(grammar: &Grammar, direction: Direction, strike: Strike) -> Option<(u16, u16)>
    ensures { IsWait grammar.now direction strike result }
{
    let Some(production) = grammar.productions().get(strike.production as usize) else {
        return None;
    };
    let Some(rule) = production.rules.as_slice().get(strike.rule as usize) else {
        return None;
    };
    let Some(argument) = rule.args.as_slice().get(strike.arg as usize) else {
        return None;
    };
    awaited_attribute(direction, production, rule, *argument)
}

/// Returns whether a strike is of this attribute.
fn is_strike_of(strike: Strike, symbol: u16, attr: u16) -> bool
    ensures { IsTrue result ↔ ((strike.symbol ≡ symbol) × (strike.attr ≡ attr)) }
{
    strike.symbol == symbol && strike.attr == attr
}

/// Returns the index of the first strike of an attribute, if there is one.
fn index_of(strikes: &[Strike], symbol: u16, attr: u16) -> Option<usize>
    ensures found { IfSome result (λ i. (i < length strikes.now)
        × ((strike_at strikes.now i).symbol ≡ symbol) × ((strike_at strikes.now i).attr ≡ attr)) }
    ensures none { result ≡ None → IsStruckBy strikes.now symbol attr → ⊥ }
{
    for (index, strike) in strikes.iter().enumerate() {
        if is_strike_of(*strike, symbol, attr) {
            return Some(index);
        }
    }
    None
}

/// Finds the attribute that the strike at index `at` waits for, and returns the index of the first
/// strike of this attribute. Returns `None` if the strike at `at` waits for no attribute, or if no
/// strike before `at` is of the attribute.
fn awaited_index(
    grammar: &Grammar,
    direction: Direction,
    strikes: &[Strike],
    at: usize,
) -> Option<usize>
    requires { at < length strikes.now }
    ensures found { IfSome result (λ i. (i < at)
        × WaitsFor grammar.now direction (strike_at strikes.now at)
        (strike_at strikes.now i).symbol (strike_at strikes.now i).attr) }
    ensures none { result ≡ None → AreAwaitedBefore grammar.now direction strikes.now
        → WaitsForNone grammar.now direction (strike_at strikes.now at) }
{
    match waits_for(grammar, direction, strikes[at]) {
        Some((symbol, attr)) => index_of(&strikes[..at], symbol, attr),
        None => None,
    }
}

/// Returns the strike at index `at`, then the strike of the attribute that it waits for, and so on.
/// `awaited_index` finds each next strike, and the result ends where it returns `None`.
fn chain_from(
    alloc: Global,
    grammar: &Grammar,
    direction: Direction,
    strikes: &[Strike],
    at: usize,
) -> Result<Vec<Strike>, NoMemory>
    requires { at < length strikes.now }
    ensures linked { IfOk result (λ links. AreAwaitedBefore grammar.now direction strikes.now
        → AreLinked grammar.now direction links.items) }
    ensures among { IfOk result (λ links. (i : ℕ) (x : TheStrike)
        → slice_get links.items i ≡ Some x → Has strikes.now x) }
    ensures first { IfOk result (λ links. slice_get links.items 0 ≡ slice_get strikes.now at) }
{
    let mut links = Vec::new(alloc);
    let mut end = at;
    links.push(strikes[end])?;
    while let Some(before) = awaited_index(grammar, direction, strikes, end) {
        end = before;
        links.push(strikes[end])?;
    }
    Ok(links)
}

/// Returns what `chain_from` returns from the first strike of an attribute on. The list is empty if
/// the attribute has no strike.
fn chain_in(
    alloc: Global,
    grammar: &Grammar,
    direction: Direction,
    strikes: &[Strike],
    attribute: (u16, u16),
) -> Result<Vec<Strike>, NoMemory>
    ensures linked { IfOk result (λ links. AreAwaitedBefore grammar.now direction strikes.now
        → AreLinked grammar.now direction links.items) }
    ensures among { IfOk result (λ links. (i : ℕ) (x : TheStrike)
        → slice_get links.items i ≡ Some x → Has strikes.now x) }
    ensures first { IfOk result (λ links. IsStruckBy strikes.now attribute.0 attribute.1
        → StartsWith attribute.0 attribute.1 links.items) }
{
    match index_of(strikes, attribute.0, attribute.1) {
        Some(at) => chain_from(alloc, grammar, direction, strikes, at),
        None => Ok(Vec::new(alloc)),
    }
}

impl Strikes {
    /// Returns the strikes of a pass, numbered from 1. Returns an empty slice if the pass has no
    /// list. Does not allocate.
    pub fn of_pass(&self, pass: u16) -> &[Strike]
        ensures { result.now ≡ strikes_of self.now.lists pass }
    {
        if pass == 0 {
            return &[];
        }
        match self.lists.as_slice().get(pass as usize - 1) {
            Some(list) => list.as_slice(),
            None => &[],
        }
    }

    /// Returns why a pass can't compute an attribute that has a later pass: a chain for the pass,
    /// which begins with a strike of the attribute. Each strike of the chain waits for the
    /// attribute of the next strike, and the last one waits for none. The result is a chain if the
    /// strikes are those of an assignment of this grammar. It is empty if the pass does not strike
    /// the attribute. `attribute` is the number of the symbol and that of the attribute in the
    /// symbol.
    ///
    /// Allocates the chain. Reads each strike of the pass at most once for each strike of the
    /// chain, and once more.
    pub fn chain_of(
        &self,
        alloc: Global,
        grammar: &Grammar,
        pass: u16,
        attribute: (u16, u16),
    ) -> Result<Vec<Strike>, NoMemory>
        ensures chain { IfOk result (λ links. (rows : List (List ℕ))
            → AreStrikesOf grammar.now rows self.now.lists
            → 1 ≤ pass → HasPassAfter (passes_of rows) pass attribute.0 attribute.1
            → IsChainOf grammar.now (direction_of pass) (HasPassFrom (passes_of rows) pass)
            attribute.0 attribute.1 links.items) }
    {
        chain_in(
            alloc,
            grammar,
            Direction::of_pass(pass),
            self.of_pass(pass),
            attribute,
        )
    }
}

impl Stuck {
    /// Returns the certificate's list of strikes for passes in a direction. Does not allocate.
    pub fn of_direction(&self, direction: Direction) -> &[Strike]
        ensures { result.now ≡ list_for self.now direction }
    {
        match direction {
            Direction::RightToLeft => self.odd.as_slice(),
            Direction::LeftToRight => self.even.as_slice(),
        }
    }

    /// Returns why no pass in a direction can compute an attribute of the set: a chain for the
    /// direction, as `Strikes::chain_of` does for a pass. The result is a chain if this is a
    /// certificate of this grammar. It is empty if the list for the direction does not strike the
    /// attribute. Allocates the chain.
    pub fn chain_of(
        &self,
        alloc: Global,
        grammar: &Grammar,
        direction: Direction,
        attribute: (u16, u16),
    ) -> Result<Vec<Strike>, NoMemory>
        ensures chain { IfOk result (λ links. IsCertificate grammar.now self.now
            → Members self.now.set attribute.0 attribute.1
            → IsChainOf grammar.now direction (Members self.now.set) attribute.0 attribute.1 links.items) }
    {
        chain_in(
            alloc,
            grammar,
            direction,
            self.of_direction(direction),
            attribute,
        )
    }
}
