//! Links of a chain: the parts of the grammar that a strike names, and where its argument is, seen
//! from the target of its rule.

ghost use Rattle.std.specs.Prelude.{◌≡◌, ◌⊎◌, IfOk, OnOk};
ghost use Rattle.ag_grammar.specs.Lists.{AreRelated, Each, Has};
ghost use Rattle.plan_reasons.specs.Links.{AppendsLink, IsGeometry, IsLinkAt, IsLinkOf};
ghost use Rattle.plan_reasons.specs.Links.{IsLinkOrNone, IsObstacle, IsObstacleOf};
ghost use Rattle.plan_reasons.specs.Links.{NamesAttribute};
ghost use Rattle.plan_reasons.specs.declared.links.Link.{Link as TheLink};

use ag_grammar::{Direction, Grammar, Item, Production, Rule, Target};
use ag_value::NoMemory;
use message_parts::Attribute;
use passassign::{Strike, is_same_or_later};
use std::alloc::Global;

/// Where an argument of a rule is, seen from the rule's target, for a pass of some direction.
#[derive(Clone, Copy)]
pub enum Geometry {
    /// At the same child as the target.
    Within,
    /// At a child that the pass visits after the target's child.
    Later,
    /// Neither: the argument or the target is at the left side, or the argument is at a child that
    /// the pass visits before the target's child. The rule can use the argument if this pass or an
    /// earlier one computes the argument.
    AtHand,
}

/// A strike, with the parts of the grammar that it names: a rule that a pass can't evaluate, and an
/// argument of this rule that is an attribute of a symbol. A `Target` is an attribute at a place of
/// the production, by the numbers of the place and of the attribute. Place 0 is the left side, and
/// the places from 1 are the children.
#[derive(Clone, Copy)]
pub struct Link {
    /// The strike.
    pub strike: Strike,
    /// The target of the rule.
    pub target: Target,
    /// The argument, as an attribute at a place of the production.
    pub argument: Target,
    /// The same argument, as an attribute of a symbol.
    pub used: Attribute,
}

impl Link {
    /// Returns the attribute of the strike. In a chain it is the rule's target, as an attribute of
    /// a symbol.
    pub fn computed(&self) -> Attribute
        ensures { result ≡ (self.now.strike.symbol, self.now.strike.attr) }
    {
        (self.strike.symbol, self.strike.attr)
    }

    /// Returns where the argument is, for a pass of a direction.
    pub fn geometry(&self, direction: Direction) -> Geometry
        ensures { IsGeometry direction self.now.target.place self.now.argument.place result }
    {
        geometry_of(direction, self.target.place, self.argument.place)
    }
}

/// Returns where an argument is, for a pass of a direction. The target of the rule is at place
/// `first`, and the argument at place `second`.
fn geometry_of(direction: Direction, first: u16, second: u16) -> Geometry
    ensures { IsGeometry direction first second result }
{
    if !is_same_or_later(direction, first, second) {
        return Geometry::AtHand;
    }
    if second == first {
        return Geometry::Within;
    }
    Geometry::Later
}

/// Returns the link of a strike that names this production, rule and argument. Returns `None` if
/// the argument is not an attribute of a symbol.
fn link_at(production: &Production, rule: &Rule, argument: Target, strike: Strike) -> Option<Link>
    ensures { IsLinkAt production.now rule.now argument strike result }
{
    match production.item_at(argument.place) {
        Some(Item::Symbol(symbol)) => Some(Link {
            strike,
            target: rule.target,
            argument,
            used: (symbol, argument.attr),
        }),
        Some(Item::Terminal(_)) => None,
        None => None,
    }
}

/// Returns the link of a strike. Returns `None` if the strike names no argument that is an
/// attribute of a symbol.
fn link_of(grammar: &Grammar, strike: Strike) -> Option<Link>
    ensures { IsLinkOrNone grammar.now strike result }
{
    let Some(production) = grammar.productions().get(strike.production as usize) else {
        return None;
    };
    let Some(rule) = production.rules.as_slice().get(strike.rule as usize) else {
        return None;
    };
    let Some(argument) = rule.args.as_slice().get(strike.arg as usize) else {
        return None;
    };
    link_at(production, rule, *argument, strike)
}

/// Appends the link of a strike, if it has one.
fn append_link(links: &mut Vec<Link>, grammar: &Grammar, strike: Strike) -> Result<(), NoMemory>
    ensures { OnOk result (AppendsLink grammar.now strike links.old.items links.new.items) }
{
    let Some(link) = link_of(grammar, strike) else {
        return Ok(());
    };
    links.push(link)?;
    Ok(())
}

/// Returns the links of strikes, in their order. A strike that names no argument that is an
/// attribute of a symbol has no link, and is left out. Fails if memory is refused.
pub fn links_of(alloc: Global, grammar: &Grammar, strikes: &[Strike]) -> Result<Vec<Link>, NoMemory>
    ensures { IfOk result (λ links. Each (NamesAttribute grammar.now) strikes.now
        → AreRelated (IsLinkOf grammar.now) strikes.now links.items) }
{
    let mut links = Vec::new(alloc);
    for strike in strikes {
        append_link(&mut links, grammar, *strike)?;
    }
    Ok(links)
}

/// Appends the link of a strike if it is an obstacle in passes of a direction (see `obstacles_of`).
fn append_obstacle(
    obstacles: &mut Vec<Link>,
    grammar: &Grammar,
    direction: Direction,
    strike: Strike,
) -> Result<(), NoMemory>
    ensures { OnOk result ((l : TheLink) → Has obstacles.new.items l
        → Has obstacles.old.items l ⊎ IsObstacleOf grammar.now direction strike l) }
{
    let Some(link) = link_of(grammar, strike) else {
        return Ok(());
    };
    if !is_same_or_later(direction, link.target.place, link.argument.place) {
        return Ok(());
    }
    obstacles.push(link)?;
    Ok(())
}

/// Returns the obstacles in passes of a direction among the links of some strikes, in the order of
/// the strikes. A link is an obstacle if its argument is at the target's child or at a child that
/// is visited later. The strike of an obstacle waits for no other strike. Fails if memory is
/// refused.
pub fn obstacles_of(
    alloc: Global,
    grammar: &Grammar,
    direction: Direction,
    strikes: &[Strike],
) -> Result<Vec<Link>, NoMemory>
    ensures { IfOk result (λ links. (l : TheLink) → Has links.items l
        → IsObstacle grammar.now direction strikes.now l) }
{
    let mut obstacles = Vec::new(alloc);
    for strike in strikes {
        append_obstacle(&mut obstacles, grammar, direction, *strike)?;
    }
    Ok(obstacles)
}
