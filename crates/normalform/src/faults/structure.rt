//! The faults N3 to N5: a bad start symbol, and symbols that are not productive or not reached.
ghost use Rattle.std.specs.Prelude.{◌≡◌, map, [], IfOk, OnOk};
ghost use Rattle.ag_grammar.specs.grammars.Accepted.{IsProductive, IsReached};
ghost use Rattle.closure.specs.Following as following;
ghost use Rattle.normalform.specs.faults.AllFaults as spec;
ghost use Rattle.normalform.specs.faults.AllFaults.{AreMarksOf, marked_checks};
ghost use Rattle.normalform.specs.faults.Clauses as clause_spec;
ghost use Rattle.normalform.specs.faults.FaultList.{wrong, after_checks};
ghost use Rattle.normalform.specs.faults.Faults.{naming_checks, start_checks};
ghost use Rattle.normalform.specs.numbers.Numbers.{symbol_of, declared_names, number_in, numbered};

use crate::fault::NormalFault;
use crate::faults::fault_list::FaultList;
use crate::numbers::declared::Declared;
use ag_grammar::{Named, RawGrammar, RawSymbol};
use ag_value::{NoMemory, Text};
use closure::{Clause, Clauses, Edge};
use std::alloc::Global;

/// A check of symbols by marks. Each variant says what a mark means, and which fault a symbol has
/// that is not marked.
#[derive(Clone, Copy, PartialEq, Eq)]
pub enum SymbolCheck {
    /// N4: the symbol is productive.
    Productive,
    /// N5: the symbol is reached.
    Reached,
}

/// Appends N3 if the start symbol is not declared, has an inherited attribute, or has no
/// synthesized `out`.
pub fn push_bad_start(
    faults: &mut FaultList,
    declared: &Declared<'_>,
    name: &Named,
) -> Result<(), NoMemory>
    ensures { OnOk result (faults.new ≡ after_checks faults.old
        (start_checks declared.now name.now)) }
{
    let start = declared.number(name.name.as_str());
    faults.push_unless(declared.is_start(start), NormalFault::BadStart)
}

/// Returns which symbols are productive. `clauses` has a clause for each production: the left side
/// is productive if each symbol of the right side is. The grammar must have none of N1 to N3. So
/// each symbol of a production is declared, and the symbol's number is below the count of declared
/// symbols, as `Clauses::new` requires.
pub fn productive_marks(
    alloc: Global,
    raw: &RawGrammar,
    clauses: Vec<Clause>,
) -> Result<Vec<bool>, NoMemory>
    requires clauses { clauses.items
        ≡ clause_spec.clauses_of (map symbol_of raw.now.symbols) raw.now.productions }
    requires names { wrong (naming_checks raw.now) ≡ [] }
    ensures { IfOk result (λ marks.
        AreMarksOf (IsProductive (numbered raw.now)) raw.now marks.items) }
{
    let clauses = Clauses::new(alloc, clauses, raw.symbols.as_slice().len())?;
    clauses.closure(alloc, &[])
}

/// Returns which symbols are reached. `start` is the number of the start symbol. `edges` has an
/// edge from the left side of each production to each symbol of its right side. The grammar must
/// have none of N1 to N3.
pub fn reached_marks(
    alloc: Global,
    raw: &RawGrammar,
    start: usize,
    edges: &[Edge],
) -> Result<Vec<bool>, NoMemory>
    requires edges { edges.now ≡ clause_spec.reach_edges
        (clause_spec.clauses_of (map symbol_of raw.now.symbols) raw.now.productions) }
    requires start { start
        ≡ number_in (declared_names (map symbol_of raw.now.symbols)) raw.now.start.name }
    requires names { wrong (naming_checks raw.now) ≡ [] }
    ensures { IfOk result (λ marks.
        AreMarksOf (IsReached (numbered raw.now)) raw.now marks.items) }
{
    let clauses = Clauses::of_edges(alloc, edges, raw.symbols.as_slice().len())?;
    clauses.closure(alloc, &[start])
}

/// Returns the mark of a number; false if there is none.
fn is_marked(marks: &[bool], number: usize) -> bool
    ensures { result ≡ following.is_marked marks.now number }
{
    match marks.get(number) {
        Some(mark) => *mark,
        None => false,
    }
}

/// Copies a name.
fn copy_of(alloc: Global, name: &Named) -> Result<Named, NoMemory>
    ensures { IfOk result (λ copied. copied ≡ name.now) }
{
    Ok(Named {
        name: Text::from_str(alloc, name.name.as_str())?,
        at: name.at,
    })
}

/// Returns the fault N4 or N5 of the symbol with this name.
fn fault_of(symbol_check: SymbolCheck, name: Named) -> NormalFault
    ensures { result ≡ spec.fault_of symbol_check name }
{
    match symbol_check {
        SymbolCheck::Productive => NormalFault::Unproductive(name),
        SymbolCheck::Reached => NormalFault::Unreachable(name),
    }
}

/// Appends N4 or N5 if the symbol with this number is not marked.
#[tactic(auto, using(crate::proofs::Listing::after_full, crate::proofs::Listing::after_right))]
fn push_if_unmarked(
    alloc: Global,
    symbol_check: SymbolCheck,
    faults: &mut FaultList,
    marks: &[bool],
    number: usize,
    symbol: &RawSymbol,
) -> Result<(), NoMemory>
    ensures { OnOk result (faults.new ≡ after_checks faults.old
        (spec.marked_check symbol_check marks.now number symbol.now)) }
{
    if is_marked(marks, number) {
        return Ok(());
    }
    if faults.is_full() {
        return Ok(());
    }
    let name = copy_of(alloc, &symbol.name)?;
    faults.push(fault_of(symbol_check, name))
}

/// Appends N4 or N5 for each symbol that is not marked.
#[tactic(auto, using(crate::proofs::Listing::after_none))]
pub fn push_unmarked(
    alloc: Global,
    symbol_check: SymbolCheck,
    faults: &mut FaultList,
    marks: &[bool],
    symbols: &[RawSymbol],
) -> Result<(), NoMemory>
    ensures { OnOk result (faults.new ≡ after_checks faults.old
        (marked_checks symbol_check marks.now symbols.now)) }
{
    for (number, symbol) in symbols.iter().enumerate() {
        push_if_unmarked(alloc, symbol_check, faults, marks, number, symbol)?;
    }
    Ok(())
}
