//! Computing the least assignment of passes, one pass after the other.

ghost use Rattle.std.specs.Prelude.{ℕ, ◌≡◌, ◌+◌, ◌^◌, ◌<◌, ◌≤◌, ◌↔◌, ◌++◌, [], ◌∷◌, true};
ghost use Rattle.std.specs.Prelude.{IfErr, IfOk, OnOk, length};
ghost use Rattle.ag_grammar.specs.Lists.{Each, Has};
ghost use Rattle.ag_grammar.specs.grammars.Accepted.{max_attributes, max_symbols};
ghost use Rattle.ag_grammar.specs.grammars.AttributeGrammar.{Grammar as Plain, attribute_names};
ghost use Rattle.passassign.specs.Answer.{IsInDeclaredOrder, IsFault};
ghost use Rattle.passassign.specs.Certificate.{stuck_of};
ghost use Rattle.passassign.specs.Least.{IsLeast};
ghost use Rattle.passassign.specs.PassStrikes.{AreStrikesOf, AreStrikesSoFar, IsLastInUse};
ghost use Rattle.passassign.specs.PassesSoFar.{KeepPasses, IsFewerOpen, IsNext, IsProgress};
ghost use Rattle.passassign.specs.PassesSoFar.{IsAcceptedWith, open_count};
ghost use Rattle.passassign.specs.Rows.{passes_of, AreWithinMaxPasses};
ghost use Rattle.passassign.specs.Searching.{AreReady};
ghost use Rattle.passassign.specs.Tables.{max_slots, slot_of, state_at, table_passes};
ghost use Rattle.passassign.specs.declared.assigning.AssignFault.TheVariants as fault;
ghost use Rattle.passassign.specs.declared.table.State.TheVariants.{Open};

use crate::assignment::Assignment;
use crate::search::{Dependencies, search};
use crate::stuck::{Strike, Strikes, Stuck};
use crate::table::{State, assign_passes, count_open, open_attributes, open_table, rows};
use ag_grammar::{Direction, Grammar, Production, Symbol};
use ag_value::{Items, NoMemory};
use std::alloc::Global;
use thiserror::Error;

/// The faults of `assign` and `assign_with_strikes`.
#[derive(Debug, Drop, Error)]
pub enum AssignFault {
    /// A1: no assignment is legal, with any number of passes.
    #[error("A1 no assignment of passes to the attributes is legal")]
    Stuck(Stuck),
    /// The allocator refused memory.
    #[error("NoMemory a request for memory was refused")]
    NoMemory,
}

impl From<NoMemory> for AssignFault {
    ghost from_gives = { λ _ e. e ≡ fault.NoMemory };

    fn from(_error: NoMemory) -> AssignFault {
        AssignFault::NoMemory
    }
}

/// The state between two passes.
#[derive(Drop)]
pub(crate) struct PassesSoFar {
    /// The table of all attributes, indexed by slot, with their passes so far.
    pub states: Vec<State>,
    /// The number of the next pass, from 1.
    pub next: u16,
    /// The direction of the next pass.
    pub direction: Direction,
}

/// The strikes of the passes made so far, if the caller of `assign_all` wants them.
#[derive(Drop)]
pub(crate) struct StrikeLog {
    /// Whether the caller wants the strikes.
    pub is_wanted: bool,
    /// One list of strikes for each pass made so far, or no list if they are not wanted.
    pub lists: Vec<Items<Strike>>,
}

impl StrikeLog {
    /// Appends the strikes of a pass, if they are wanted. Changes nothing if they are not wanted.
    /// (The contract says nothing of `lists` in this case.)
    fn keep(&mut self, strikes: Vec<Strike>) -> Result<(), NoMemory>
        ensures wanted { OnOk result (self.new.is_wanted ≡ self.old.is_wanted) }
        ensures kept { OnOk result (self.old.is_wanted ≡ true
            → self.new.lists.items ≡ self.old.lists.items ++ strikes.items ∷ []) }
    {
        if self.is_wanted {
            self.lists.push(Items::from_vec(strikes))?;
        }
        Ok(())
    }
}

/// Makes the next pass: each attribute without a pass gets this pass if the pass can compute it.
/// Returns the strikes of the pass: one for each attribute that still has no pass. The number of
/// the pass after this one must fit in 16 bits.
fn make_pass(
    alloc: Global,
    dependencies: &Dependencies,
    progress: &mut PassesSoFar,
) -> Result<Vec<Strike>, NoMemory>
    requires ready { AreReady dependencies.now (length progress.old.states.items) }
    requires next { progress.old.next + 1 < 2 ^ 16 }
    ensures len { OnOk result
        (length progress.new.states.items ≡ length progress.old.states.items) }
    ensures next { OnOk result (progress.new.next ≡ progress.old.next + 1) }
    ensures left { OnOk result
        (KeepPasses progress.new.states.items progress.old.states.items) }
    ensures made { IfOk result (λ strikes. (g : Plain)
        → IsProgress g dependencies.now.all.items progress.old
        → IsNext g dependencies.now.all.items progress.old progress.new strikes.items) }
{
    let struck = search(
        alloc,
        dependencies,
        progress.states.as_slice(),
        progress.direction,
    )?;
    assign_passes(&mut progress.states, struck.marks.as_slice(), progress.next);
    progress.next += 1;
    progress.direction = progress.direction.turned();
    Ok(struck.strikes)
}

/// Returns the certificate of the attributes without a pass. `first` and `second` are the strikes
/// of the last two passes, in their order. Directions alternate, so the pass of `first` had the
/// direction of the next pass.
fn certificate_of(
    alloc: Global,
    progress: &PassesSoFar,
    first: Vec<Strike>,
    second: Vec<Strike>,
) -> Result<Stuck, NoMemory>
    requires { length progress.now.states.items ≤ max_slots }
    ensures strikes { IfOk result (λ c.
        c ≡ stuck_of progress.now.direction c.set first.items second.items) }
    ensures all { IfOk result (λ c. (s a : ℕ) → Has c.set (s, a)
        ↔ (a < max_attributes) × (state_at progress.now.states.items (slot_of s a) ≡ Open)) }
    ensures ordered { IfOk result (λ c. IsInDeclaredOrder c.set) }
{
    let set = Items::from_vec(open_attributes(alloc, progress.states.as_slice())?);
    let first = Items::from_vec(first);
    let second = Items::from_vec(second);
    match progress.direction {
        Direction::RightToLeft => Ok(Stuck {
            set,
            odd: first,
            even: second,
        }),
        Direction::LeftToRight => Ok(Stuck {
            set,
            odd: second,
            even: first,
        }),
    }
}

/// Makes the next pass, and a second one if the first assigns nothing. `open_before` is the number
/// of attributes without a pass before the call. Returns the number of attributes without a pass
/// after the call, which is smaller. On success the strikes of the passes are appended to `kept`,
/// if they are wanted. Fails with A1 if the second pass assigns nothing either, and with NoMemory
/// if memory is refused.
fn advance(
    alloc: Global,
    dependencies: &Dependencies,
    progress: &mut PassesSoFar,
    kept: &mut StrikeLog,
    open_before: usize,
) -> Result<usize, AssignFault>
    requires ready { AreReady dependencies.now (length progress.old.states.items) }
    requires len { length progress.old.states.items ≤ max_slots }
    requires next { progress.old.next + 2 < 2 ^ 16 }
    requires some { 0 < open_before }
    requires count { open_before ≡ open_count progress.old.states.items }
    ensures len { OnOk result
        (length progress.new.states.items ≡ length progress.old.states.items) }
    ensures next { OnOk result (progress.new.next ≤ progress.old.next + 2) }
    ensures left { IfOk result (λ left. IsFewerOpen open_before left progress.new) }
    ensures made { OnOk result ((g : Plain)
        → IsProgress g dependencies.now.all.items progress.old
        → IsProgress g dependencies.now.all.items progress.new) }
    ensures last { OnOk result ((g : Plain)
        → IsProgress g dependencies.now.all.items progress.old
        → IsLastInUse progress.new.next (table_passes progress.new.states.items)) }
    ensures wanted { OnOk result (kept.new.is_wanted ≡ kept.old.is_wanted) }
    ensures kept { OnOk result ((g : Plain)
        → IsProgress g dependencies.now.all.items progress.old → kept.old.is_wanted ≡ true
        → AreStrikesSoFar g progress.old.next (table_passes progress.old.states.items) kept.old.lists.items
        → AreStrikesSoFar g progress.new.next (table_passes progress.new.states.items) kept.new.lists.items) }
    ensures refused { IfErr result (λ e. (g : Plain)
        → IsProgress g dependencies.now.all.items progress.old → IsFault g e) }
{
    let first = make_pass(alloc, dependencies, progress)?;
    let left = count_open(progress.states.as_slice());
    if left < open_before {
        kept.keep(first)?;
        return Ok(left);
    }
    let second = make_pass(alloc, dependencies, progress)?;
    let left = count_open(progress.states.as_slice());
    if left < open_before {
        kept.keep(first)?;
        kept.keep(second)?;
        return Ok(left);
    }
    Err(AssignFault::Stuck(certificate_of(alloc, progress, first, second)?))
}

/// Returns the least legal assignment for the symbols and productions of an accepted grammar, and
/// the strikes of its passes, or empty `lists` if `wants_strikes` is false. Each successful call of
/// `advance` makes at most two passes and assigns a pass to at least one attribute, so there are at
/// most two passes for each attribute. Fails with A1 if no assignment is legal, and with
/// NoMemory if memory is refused.
pub(crate) fn assign_all(
    alloc: Global,
    symbols: &[Symbol],
    productions: &[Production],
    wants_strikes: bool,
) -> Result<(Assignment, Strikes), AssignFault>
    requires accepted { (g : Plain) × IsAcceptedWith symbols.now productions.now g }
    requires count { length symbols.now ≤ max_symbols }
    requires attributes { Each (λ s. length (attribute_names s) ≤ max_attributes) symbols.now }
    ensures least { IfOk result (λ x. (g : Plain)
        → IsAcceptedWith symbols.now productions.now g → IsLeast g (passes_of x.0)) }
    ensures few { IfOk result (λ x. (g : Plain)
        → IsAcceptedWith symbols.now productions.now g → AreWithinMaxPasses x.0) }
    ensures rows { IfOk result (λ x. length x.0 ≡ length symbols.now) }
    ensures strikes { IfOk result (λ x. (g : Plain)
        → IsAcceptedWith symbols.now productions.now g → wants_strikes ≡ true → AreStrikesOf g x.0 x.1.lists) }
    ensures refused { IfErr result (λ e. (g : Plain)
        → IsAcceptedWith symbols.now productions.now g → IsFault g e) }
{
    let states = open_table(alloc, symbols)?;
    let dependencies = Dependencies::of(alloc, productions, states.len())?;
    let mut open_now = count_open(states.as_slice());
    let mut progress = PassesSoFar {
        states,
        next: 1,
        direction: Direction::RightToLeft,
    };
    let mut kept = StrikeLog {
        is_wanted: wants_strikes,
        lists: Vec::new(alloc),
    };
    while open_now > 0 {
        open_now = advance(alloc, &dependencies, &mut progress, &mut kept, open_now)?;
    }
    let rows = rows(alloc, symbols, progress.states.as_slice())?;
    let strikes = Strikes {
        lists: Items::from_vec(kept.lists),
    };
    Ok((Assignment::of_rows(rows), strikes))
}

/// Returns the least legal assignment of passes to the attributes of a grammar: no legal assignment
/// gives any attribute an earlier pass. Passes are numbered from 1. No pass is above 8,192, which
/// is two for each attribute that a grammar may have. There is one row for each symbol, which has
/// the passes of its attributes.
///
/// Fails with A1 (`Stuck`) if no assignment is legal, with any number of passes. An attribute is
/// stuck if no legal assignment of all attributes, or of some, gives it a pass. The certificate has
/// exactly the stuck attributes, in declared order, and the strikes of the last two passes tried,
/// one list for each direction. Each list shows why no pass of its direction can compute these
/// attributes. Fails with NoMemory if the allocator refuses memory.
///
/// Allocates the result, a table of the attributes, the dependencies of the rules and their edges,
/// the strikes of up to two passes, and what the search of one pass needs.
pub fn assign(alloc: Global, grammar: &Grammar) -> Result<Assignment, AssignFault>
    ensures least { IfOk result (λ m. IsLeast grammar.now (passes_of m)) }
    ensures few { IfOk result AreWithinMaxPasses }
    ensures rows { IfOk result (λ m. length m ≡ length grammar.now.symbols) }
    ensures refused { IfErr result (IsFault grammar.now) }
{
    let (assignment, _) = assign_all(alloc, grammar.symbols(), grammar.productions(), false)?;
    Ok(assignment)
}

/// Returns the assignment that `assign` returns and the strikes of each of its passes, which show
/// that it is the least one. Fails as `assign` does.
///
/// Allocates what `assign` allocates, and all strikes: one for each attribute and each pass before
/// its own. A strike has 10 bytes.
pub fn assign_with_strikes(
    alloc: Global,
    grammar: &Grammar,
) -> Result<(Assignment, Strikes), AssignFault>
    ensures least { IfOk result (λ x. IsLeast grammar.now (passes_of x.0)) }
    ensures few { IfOk result (λ x. AreWithinMaxPasses x.0) }
    ensures rows { IfOk result (λ x. length x.0 ≡ length grammar.now.symbols) }
    ensures strikes { IfOk result (λ x. AreStrikesOf grammar.now x.0 x.1.lists) }
    ensures refused { IfErr result (IsFault grammar.now) }
{
    assign_all(alloc, grammar.symbols(), grammar.productions(), true)
}
