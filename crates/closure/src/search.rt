//! Searches for the numbers that follow. A number that is found is marked. The search tests the
//! numbers of a clause's body from the first on, and stops at one that is not marked. The next test
//! of this body begins there, so no element of the body that was found to be marked is tested
//! again.
//!
//! In contracts, `slice_index_or clauses p d` is the clause at index p. Its default d, for an index
//! out of range, can be any clause.
ghost use Rattle.std.specs.Prelude.{◌≡◌, ◌<◌, ◌≤◌, ◌⊎◌, ◌↔◌, ℕ, true, false, length, take, All};
ghost use Rattle.std.specs.Prelude.{Contains, IfOk, OnOk, slice_index_or};
ghost use Rattle.std.specs.List.{list_all};
ghost use Rattle.closure.specs.Additions.{IsAdded, IsReason, AreInOrder};
ghost use Rattle.closure.specs.Following.{is_marked, AreClosure};
ghost use Rattle.closure.specs.Search.{IsSearch, IsSettled, Grows};
ghost use Rattle.closure.specs.Waiting.{rows, AreWaiting};

use crate::addition::{Addition, FoundNumbers, Reason};
use crate::clause::Clause;
use ag_value::NoMemory;
use std::alloc::Global;

/// Returns whether a number is marked; false for a number that has no entry in `marks`.
fn is_known(marks: &[bool], number: usize) -> bool
    ensures { result ≡ is_marked marks.now number }
{
    number < marks.len() && marks[number]
}

/// Returns the length of the longest prefix of a body whose numbers are all marked. The first
/// `from` numbers have to be marked.
fn known_prefix_len(marks: &[bool], body: &[usize], from: usize) -> usize
    requires within { from ≤ length body.now }
    requires known { list_all (is_marked marks.now) (take from body.now) ≡ true }
    ensures within { result ≤ length body.now }
    ensures known { list_all (is_marked marks.now) (take result body.now) ≡ true }
    ensures stops { (d : ℕ) → result < length body.now → is_marked marks.now (slice_index_or
        body.now result d) ≡ false }
{
    for at in from..body.len() {
        if !is_known(marks, body[at]) {
            return at;
        }
    }
    body.len()
}

/// The state of a search.
#[derive(Drop)]
struct Search<'g> {
    clauses: &'g [Clause],
    seeds: &'g [usize],
    /// For each number below the count, whether it was found to follow.
    marks: Vec<bool>,
    /// The marked numbers, in the order in which they were found.
    added: Vec<Addition>,
    /// The number of entries of `added`, from the first on, whose visit has begun. A visit of an
    /// entry visits the clauses whose bodies contain the entry's number.
    visited: usize,
    /// For each clause, the length of a prefix of its body in which each number is marked.
    passed: Vec<usize>,
}

impl<'g> Search<'g> {
    /// Advances in the body of the clause with this index to the first number that is not marked.
    /// Returns whether all numbers of the body are marked.
    fn advance(&mut self, clause: usize) -> bool
        requires clause { clause < length self.old.clauses.now }
        requires search { IsSearch self.old.clauses.now self.old.seeds.now self.old.marks.items
            self.old.added.items self.old.visited self.old.passed.items }
        ensures clauses { self.new.clauses.now ≡ self.old.clauses.now }
        ensures seeds { self.new.seeds.now ≡ self.old.seeds.now }
        ensures marks { self.new.marks.items ≡ self.old.marks.items }
        ensures added { self.new.added.items ≡ self.old.added.items }
        ensures visited { self.new.visited ≡ self.old.visited }
        ensures search { IsSearch self.new.clauses.now self.new.seeds.now self.new.marks.items
            self.new.added.items self.new.visited self.new.passed.items }
        ensures whole { (d : Clause) → result ≡ true → list_all (is_marked self.old.marks.items)
            (slice_index_or self.old.clauses.now clause d).body ≡ true }
        ensures stops { (d : Clause) → result ≡ false → IsSettled self.old.marks.items
            self.old.added.items self.old.visited (slice_index_or self.old.clauses.now clause d) }
    {
        let body = self.clauses[clause].body.as_slice();
        let passed = known_prefix_len(self.marks.as_slice(), body, self.passed[clause]);
        self.passed[clause] = passed;
        passed == body.len()
    }

    /// Adds a number, with a reason, and marks the number. Does nothing if it is marked already.
    /// Fails with NoMemory if a request for memory is refused.
    fn mark(&mut self, number: usize, reason: Reason) -> Result<(), NoMemory>
        requires number { number < length self.old.marks.items }
        requires reason { IsReason self.old.clauses.now self.old.seeds.now
            (IsAdded self.old.added.items) number reason }
        requires search { IsSearch self.old.clauses.now self.old.seeds.now self.old.marks.items
            self.old.added.items self.old.visited self.old.passed.items }
        ensures clauses { OnOk result (self.new.clauses.now ≡ self.old.clauses.now) }
        ensures seeds { OnOk result (self.new.seeds.now ≡ self.old.seeds.now) }
        ensures search { OnOk result (IsSearch self.new.clauses.now self.new.seeds.now
            self.new.marks.items self.new.added.items self.new.visited self.new.passed.items) }
        ensures visited { OnOk result (self.new.visited ≡ self.old.visited) }
        ensures grows { OnOk result (Grows self.old.visited self.old.marks.items
            self.old.added.items self.new.marks.items self.new.added.items) }
        ensures marked { OnOk result (is_marked self.new.marks.items number ≡ true) }
    {
        if !self.marks[number] {
            self.added.push(Addition { number, reason })?;
            self.marks[number] = true;
        }
        Ok(())
    }

    /// Adds and marks the seeds that are not marked already. Fails with NoMemory if a request for
    /// memory is refused.
    fn mark_seeds(&mut self) -> Result<(), NoMemory>
        requires seeds { All (λ t. t < length self.old.marks.items) self.old.seeds.now }
        requires search { IsSearch self.old.clauses.now self.old.seeds.now self.old.marks.items
            self.old.added.items self.old.visited self.old.passed.items }
        ensures clauses { OnOk result (self.new.clauses.now ≡ self.old.clauses.now) }
        ensures seeds { OnOk result (self.new.seeds.now ≡ self.old.seeds.now) }
        ensures search { OnOk result (IsSearch self.new.clauses.now self.new.seeds.now
            self.new.marks.items self.new.added.items self.new.visited self.new.passed.items) }
        ensures visited { OnOk result (self.new.visited ≡ self.old.visited) }
        ensures grows { OnOk result (Grows self.old.visited self.old.marks.items
            self.old.added.items self.new.marks.items self.new.added.items) }
        ensures marked { OnOk result ((t : ℕ) → Contains self.old.seeds.now t → is_marked
            self.new.marks.items t ≡ true) }
    {
        let seeds = self.seeds;
        for (index, seed) in seeds.iter().enumerate() {
            self.mark(*seed, Reason::Seed(index))?;
        }
        Ok(())
    }

    /// Adds and marks the head of the clause with this index if all numbers of its body are marked.
    /// A head that is marked already isn't added again. Fails with NoMemory if a request for memory
    /// is refused.
    fn visit(&mut self, clause: usize) -> Result<(), NoMemory>
        requires clause { clause < length self.old.clauses.now }
        requires search { IsSearch self.old.clauses.now self.old.seeds.now self.old.marks.items
            self.old.added.items self.old.visited self.old.passed.items }
        ensures clauses { OnOk result (self.new.clauses.now ≡ self.old.clauses.now) }
        ensures seeds { OnOk result (self.new.seeds.now ≡ self.old.seeds.now) }
        ensures search { OnOk result (IsSearch self.new.clauses.now self.new.seeds.now
            self.new.marks.items self.new.added.items self.new.visited self.new.passed.items) }
        ensures visited { OnOk result (self.new.visited ≡ self.old.visited) }
        ensures grows { OnOk result (Grows self.old.visited self.old.marks.items
            self.old.added.items self.new.marks.items self.new.added.items) }
        ensures settles { (d : Clause) → OnOk result (IsSettled self.new.marks.items
            self.new.added.items self.new.visited (slice_index_or self.old.clauses.now clause d)) }
    {
        if self.advance(clause) {
            let clauses = self.clauses;
            self.mark(clauses[clause].head, Reason::Clause(clause))?;
        }
        Ok(())
    }

    /// Visits the clauses with these indices. After the call, each of them is settled
    /// (`IsSettled`), and so is each clause that was settled before the call. A clause is settled
    /// if its head is marked, or if its body has a number that is not marked or whose visit has not
    /// begun. Fails with NoMemory if a request for memory is refused.
    fn visit_all(&mut self, waiting: &[usize]) -> Result<(), NoMemory>
        requires clauses { All (λ p. p < length self.old.clauses.now) waiting.now }
        requires search { IsSearch self.old.clauses.now self.old.seeds.now self.old.marks.items
            self.old.added.items self.old.visited self.old.passed.items }
        ensures clauses { OnOk result (self.new.clauses.now ≡ self.old.clauses.now) }
        ensures seeds { OnOk result (self.new.seeds.now ≡ self.old.seeds.now) }
        ensures search { OnOk result (IsSearch self.new.clauses.now self.new.seeds.now
            self.new.marks.items self.new.added.items self.new.visited self.new.passed.items) }
        ensures visited { OnOk result (self.new.visited ≡ self.old.visited) }
        ensures grows { OnOk result (Grows self.old.visited self.old.marks.items
            self.old.added.items self.new.marks.items self.new.added.items) }
        ensures settles { OnOk result ((p : ℕ) (d : Clause) → IsSettled self.old.marks.items
            self.old.added.items self.old.visited (slice_index_or self.old.clauses.now p d) ⊎ Contains waiting.now p →
            IsSettled self.new.marks.items self.new.added.items self.new.visited
            (slice_index_or self.old.clauses.now p
            d)) }
    {
        for clause in waiting {
            self.visit(*clause)?;
        }
        Ok(())
    }
}

/// Returns a list of the numbers that follow from clauses and seeds, and a mark for each number.
/// The list is as `Clauses::find` describes it. `uses` has a row for each number below the count:
/// the indices of the clauses whose bodies contain the number. `facts` has the indices of the
/// clauses with an empty body. Takes time linear in the number of clauses, the lengths of their
/// bodies, and the lengths of `uses`, of its rows, of `facts` and of `seeds`. Fails with NoMemory
/// if a request for memory is refused.
pub(crate) fn find<'g>(
    alloc: Global,
    clauses: &'g [Clause],
    uses: &[Vec<usize>],
    facts: &[usize],
    seeds: &'g [usize],
) -> Result<FoundNumbers, NoMemory>
    requires waiting { AreWaiting clauses.now (rows uses.now) facts.now }
    requires seeds { All (λ t. t < length uses.now) seeds.now }
    ensures len { IfOk result (λ found. length found.marks.items ≡ length uses.now) }
    ensures marks { IfOk result (λ found. AreClosure clauses.now seeds.now found.marks.items) }
    ensures added { IfOk result (λ found. (t : ℕ) → is_marked found.marks.items t ≡ true
        ↔ IsAdded found.added.items t) }
    ensures order { IfOk result (λ found. AreInOrder clauses.now seeds.now found.added.items) }
{
    let mut search = Search {
        clauses,
        seeds,
        marks: vec![in alloc; false; uses.len()]?,
        added: Vec::new(alloc),
        visited: 0,
        passed: vec![in alloc; 0; clauses.len()]?,
    };
    search.visit_all(facts)?;
    search.mark_seeds()?;
    while search.visited < search.added.len() {
        let number = search.added[search.visited].number;
        search.visited += 1;
        search.visit_all(uses[number].as_slice())?;
    }
    Ok(FoundNumbers {
        added: search.added,
        marks: search.marks,
    })
}
