//! The attributes that a pass can't compute: they are struck one after the other, until no other
//! can be.

ghost use Rattle.std.specs.Prelude.{◌≡◌, ◌*◌, ◌↔◌, Some, IfOk, IsTrue, length, map};
ghost use Rattle.ag_grammar.specs.Lists.{Each};
ghost use Rattle.ag_grammar.specs.grammars.Accepted.{IsAccepted, max_attributes};
ghost use Rattle.ag_grammar.specs.grammars.AttributeGrammar.{Grammar as Plain};
ghost use Rattle.passassign.specs.Certificate.{IsSameOrLater};
ghost use Rattle.passassign.specs.Dependencies.{dependencies_of};
ghost use Rattle.passassign.specs.Searching.{edge_of, target_of, dependency_by, IsBarred, AreBarred};
ghost use Rattle.passassign.specs.Searching.{AreReady, AreStrikesBy, IsSearched};
ghost use Rattle.passassign.specs.declared.dependency.Dependency.{Dependency as PlainDependency};

use crate::dependency::{Dependency, all_dependencies};
use crate::stuck::Strike;
use crate::table::{AttributeIndex, State, has_no_pass, look_up};
use ag_grammar::{Direction, Production};
use ag_value::NoMemory;
use closure::{Addition, Clauses, Edge, Reason};
use std::alloc::Global;

/// All dependencies of a grammar, in two forms.
#[derive(Drop)]
pub(crate) struct Dependencies {
    /// The dependencies, in the order of productions, rules and arguments.
    pub all: Vec<Dependency>,
    /// The same dependencies as edges between the slots of a table, from the argument to the
    /// target: if the argument is struck, the target is.
    pub edges: Clauses,
}

/// Returns the index of a dependency's target.
fn target_of(one: Dependency) -> AttributeIndex
    ensures { result ≡ target_of one }
{
    AttributeIndex::new(one.strike.symbol, one.strike.attr)
}

/// Returns the dependencies as edges from the argument's slot to the target's.
fn edges(alloc: Global, all: &[Dependency]) -> Result<Vec<Edge>, NoMemory>
    ensures { IfOk result (λ edges. edges.items ≡ map edge_of all.now) }
{
    let mut edges = Vec::new(alloc);
    for one in all {
        edges.push(Edge {
            from: one.argument.as_usize(),
            to: target_of(*one).as_usize(),
        })?;
    }
    Ok(edges)
}

impl Dependencies {
    /// Returns the dependencies of the productions of an accepted grammar, for a table of `count`
    /// slots.
    pub(crate) fn of(
        alloc: Global,
        productions: &[Production],
        count: usize,
    ) -> Result<Dependencies, NoMemory>
        requires accepted { (g : Plain) × IsAccepted g × (g.productions ≡ productions.now)
            × (count ≡ length g.symbols * max_attributes) }
        ensures all { IfOk result (λ found. found.all.items ≡ dependencies_of productions.now) }
        ensures ready { IfOk result (λ found. AreReady found count) }
    {
        let all = all_dependencies(alloc, productions)?;
        let edges = edges(alloc, all.as_slice())?;
        let edges = Clauses::of_edges(alloc, edges.as_slice(), count)?;
        Ok(Dependencies { all, edges })
    }
}

/// The strikes of a pass, and marks of the struck attributes.
#[derive(Drop)]
pub(crate) struct Struck {
    /// The strikes, in the order in which the attributes are struck.
    pub strikes: Vec<Strike>,
    /// For each slot of the table, whether its attribute is struck.
    pub marks: Vec<bool>,
}

/// Returns whether the child at place `second` is the one at place `first`, or comes after that one
/// in the direction. In this case, what a pass in the direction computes at `second` comes too late
/// for its rules with a target at `first`. Returns false if a place is 0, which is not a child.
/// Does not allocate.
pub fn is_same_or_later(direction: Direction, first: u16, second: u16) -> bool
    ensures { IsTrue result ↔ IsSameOrLater direction first second }
{
    if first == 0 || second == 0 {
        return false;
    }
    second == first || direction.is_before(first, second)
}

/// Returns whether a dependency bars its target from a pass, whatever else is struck: the argument
/// has no pass yet, and is at the target's own child or at one that is visited later.
fn is_barred(direction: Direction, states: &[State], one: Dependency) -> bool
    ensures { IsTrue result ↔ IsBarred direction states.now one }
{
    is_same_or_later(direction, one.place, one.from) && has_no_pass(look_up(states, one.argument))
}

/// Returns the dependencies that bar their targets from a pass, in the order of `all`.
fn barred_dependencies(
    alloc: Global,
    direction: Direction,
    states: &[State],
    all: &[Dependency],
) -> Result<Vec<Dependency>, NoMemory>
    ensures { IfOk result (λ barred. AreBarred direction states.now all.now barred.items) }
{
    let mut barred = Vec::new(alloc);
    for one in all {
        if is_barred(direction, states, *one) {
            barred.push(*one)?;
        }
    }
    Ok(barred)
}

/// Returns the slots of the targets of dependencies.
fn target_slots(alloc: Global, dependencies: &[Dependency]) -> Result<Vec<usize>, NoMemory>
    ensures { IfOk result (λ targets. targets.items ≡ map target_of dependencies.now) }
{
    let mut targets = Vec::new(alloc);
    for one in dependencies {
        targets.push(target_of(*one).as_usize())?;
    }
    Ok(targets)
}

/// Returns the dependency that is the reason of a strike. The crate `closure` names it by the
/// index of a seed or of a clause. The seeds are the targets of `barred`, and the clauses are the
/// edges of `all`, in the same orders.
fn dependency_for(all: &[Dependency], barred: &[Dependency], reason: Reason) -> Dependency
    requires { (u : PlainDependency) × (dependency_by all.now barred.now reason ≡ Some u) }
    ensures { dependency_by all.now barred.now reason ≡ Some result }
{
    match reason {
        Reason::Seed(index) => barred[index],
        Reason::Clause(index) => all[index],
    }
}

/// Returns a strike for each `Addition`, in the same order. An addition is a slot that `closure`
/// found, with the reason. The reason names a dependency, and the strike is the one of this
/// dependency.
fn strikes_of(
    alloc: Global,
    all: &[Dependency],
    barred: &[Dependency],
    added: &[Addition],
) -> Result<Vec<Strike>, NoMemory>
    requires { Each (λ x. (u : PlainDependency) × (dependency_by all.now barred.now x.reason ≡ Some u))
        added.now }
    ensures { IfOk result (λ xs. AreStrikesBy all.now barred.now added.now xs.items) }
{
    let mut strikes = Vec::new(alloc);
    for one in added {
        strikes.push(dependency_for(all, barred, one.reason).strike)?;
    }
    Ok(strikes)
}

/// Returns the strikes of a pass in a direction, and marks of the struck attributes. `states` is
/// the table before the pass. The strikes of targets that a dependency bars come first, in the
/// order of the dependencies. Then, for each struck attribute in the order of striking, the strikes
/// of the targets that depend on it follow, except those that are struck already.
pub(crate) fn search(
    alloc: Global,
    dependencies: &Dependencies,
    states: &[State],
    direction: Direction,
) -> Result<Struck, NoMemory>
    requires { AreReady dependencies.now (length states.now) }
    ensures { IfOk result (IsSearched dependencies.now.all.items direction states.now) }
{
    let all = dependencies.all.as_slice();
    let barred = barred_dependencies(alloc, direction, states, all)?;
    let seeds = target_slots(alloc, barred.as_slice())?;
    let found = dependencies.edges.find(alloc, seeds.as_slice())?;
    let strikes = strikes_of(alloc, all, barred.as_slice(), found.added.as_slice())?;
    Ok(Struck {
        strikes,
        marks: found.marks,
    })
}
