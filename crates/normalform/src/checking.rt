//! Checking a raw grammar: the result is the numbered grammar, or the first fault, or the list of
//! all faults.
ghost use Rattle.std.specs.Prelude.{◌≡◌, ◌≢◌, [], cond, map, All, Some, IfOk, IfErr, OnOk};
ghost use Rattle.ag_grammar.specs.grammars.Accepted.{IsAccepted};
ghost use Rattle.ag_grammar.specs.grammars.Order.{IsInOrder};
ghost use Rattle.normalform.specs.faults.AllFaults.{AreMarked, IsSearched, AreFaults, IsHead};
ghost use Rattle.normalform.specs.faults.AllFaults.{checks_of_rules};
ghost use Rattle.normalform.specs.faults.FaultList.{wrong, after_checks, is_empty, SaysIfNone};
ghost use Rattle.normalform.specs.faults.Faults.{naming_checks, doubled_checks, missing_checks};
ghost use Rattle.normalform.specs.faults.Faults.{later_kinds};
ghost use Rattle.normalform.specs.faults.Faults.{IsReadable, HasNoFault, IsTrueOf};
ghost use Rattle.normalform.specs.faults.Faults.{IsSmall, AreListedIn};
ghost use Rattle.normalform.specs.faults.Resolved.{resolved_productions};
ghost use Rattle.normalform.specs.numbers.Numbers.{symbol_of, declared_names, number_in, production_of};
ghost use Rattle.normalform.specs.numbers.Numbers.{numbered};

use crate::fault::NormalFault;
use crate::faults::clause::{clauses_of, reach_edges};
use crate::faults::fault_list::FaultList;
use crate::faults::limits::push_limits;
use crate::faults::naming::{push_doubled, push_unknown};
use crate::faults::reference_checks::{RuleCheck, push_in_productions};
use crate::faults::resolved::ResolvedProduction;
use crate::faults::resolving::productions_of;
use crate::faults::rules::{push_doubled_rules, push_missing};
use crate::faults::structure::{
    SymbolCheck, productive_marks, push_bad_start, push_unmarked, reached_marks,
};
use crate::numbers::declared::Declared;
use crate::numbers::moving::move_symbols;
use crate::numbers::numbering::{Numbering, classes_of, literal_texts};
use ag_grammar::{Grammar, Named, Production, RawGrammar, RawProduction, RawSymbol};
use ag_value::{Items, NoMemory, Text};
use std::alloc::Global;

/// Appends each fault N2. Returns whether there was none; if the list is full, the answer has no
/// meaning.
fn push_doubled_noting(
    alloc: Global,
    faults: &mut FaultList,
    symbols: &[RawSymbol],
) -> Result<bool, NoMemory>
    ensures faults { OnOk result (faults.new ≡ after_checks faults.old
        (doubled_checks symbols.now)) }
    ensures distinct { IfOk result (λ distinct.
        SaysIfNone faults.new (doubled_checks symbols.now) distinct) }
{
    let before = faults.len();
    push_doubled(alloc, faults, symbols)?;
    Ok(faults.len() == before)
}

/// Appends the faults N1 to N3. Returns whether N2 does not occur; if the list is full, the answer
/// has no meaning.
fn push_naming(
    alloc: Global,
    faults: &mut FaultList,
    raw: &RawGrammar,
    declared: &Declared<'_>,
    productions: &[ResolvedProduction],
) -> Result<bool, NoMemory>
    requires declared { declared.now ≡ map symbol_of raw.now.symbols }
    requires productions { productions.now ≡ resolved_productions raw.now }
    ensures faults { OnOk result (faults.new ≡ after_checks faults.old (naming_checks raw.now)) }
    ensures distinct { IfOk result (λ distinct.
        SaysIfNone faults.new (doubled_checks raw.now.symbols) distinct) }
{
    push_unknown(faults, declared, productions)?;
    let distinct = push_doubled_noting(alloc, faults, raw.symbols.as_slice())?;
    push_bad_start(faults, declared, &raw.start)?;
    Ok(distinct)
}

/// Appends the faults N4 and N5, for a grammar without N1 to N3.
fn push_marked(
    alloc: Global,
    faults: &mut FaultList,
    raw: &RawGrammar,
    declared: &Declared<'_>,
) -> Result<(), NoMemory>
    requires declared { declared.now ≡ map symbol_of raw.now.symbols }
    requires names { wrong (naming_checks raw.now) ≡ [] }
    ensures { OnOk result (AreMarked raw.now faults.old faults.new) }
{
    let symbols = raw.symbols.as_slice();
    let clauses = clauses_of(alloc, declared, raw.productions.as_slice())?;
    let edges = reach_edges(alloc, clauses.as_slice())?;
    let productive = productive_marks(alloc, raw, clauses)?;
    let start = declared.number(raw.start.name.as_str());
    let reached = reached_marks(alloc, raw, start, edges.as_slice())?;
    push_unmarked(
        alloc,
        SymbolCheck::Productive,
        faults,
        productive.as_slice(),
        symbols,
    )?;
    push_unmarked(
        alloc,
        SymbolCheck::Reached,
        faults,
        reached.as_slice(),
        symbols,
    )?;
    Ok(())
}

/// Appends the faults N4 and N5, if the grammar has none of N1 to N3. `faults` has these.
fn push_structure(
    alloc: Global,
    faults: &mut FaultList,
    raw: &RawGrammar,
    declared: &Declared<'_>,
) -> Result<(), NoMemory>
    requires declared { declared.now ≡ map symbol_of raw.now.symbols }
    requires names { is_empty faults.now.items ≡ is_empty (wrong (naming_checks raw.now)) }
    ensures { OnOk result (AreMarked raw.now faults.old faults.new) }
{
    if !faults.is_empty() {
        return Ok(());
    }
    push_marked(alloc, faults, raw, declared)
}

/// Appends the faults N6, if `distinct`.
#[tactic(auto, using(crate::proofs::Listing::after_none))]
fn push_missing_if(
    alloc: Global,
    faults: &mut FaultList,
    declared: &Declared<'_>,
    productions: &[ResolvedProduction],
    distinct: bool,
) -> Result<(), NoMemory>
    ensures { OnOk result (faults.new ≡ after_checks faults.old
        (cond distinct (missing_checks declared.now productions.now) [])) }
{
    if distinct {
        push_missing(alloc, faults, declared, productions)?;
    }
    Ok(())
}

/// Appends the faults N7 to N9.
#[tactic(auto, using(crate::proofs::Listing::after_both))]
fn push_later_kinds(
    alloc: Global,
    faults: &mut FaultList,
    productions: &[ResolvedProduction],
) -> Result<(), NoMemory>
    ensures { OnOk result (faults.new ≡ after_checks faults.old (later_kinds productions.now)) }
{
    push_doubled_rules(alloc, faults, productions)?;
    push_in_productions(RuleCheck::Defined, faults, productions)?;
    push_in_productions(RuleCheck::Used, faults, productions)?;
    Ok(())
}

/// Appends the faults N6 to N10. N6 is looked for only if the grammar has no N2 (`distinct`).
#[tactic(auto, using(crate::proofs::Listing::after_both))]
fn push_further(
    alloc: Global,
    faults: &mut FaultList,
    raw: &RawGrammar,
    declared: &Declared<'_>,
    productions: &[ResolvedProduction],
    distinct: bool,
) -> Result<(), NoMemory>
    requires declared { declared.now ≡ map symbol_of raw.now.symbols }
    requires productions { productions.now ≡ resolved_productions raw.now }
    requires distinct { distinct ≡ is_empty (wrong (doubled_checks raw.now.symbols)) }
    ensures { OnOk result (faults.new ≡ after_checks faults.old (checks_of_rules raw.now)) }
{
    push_missing_if(alloc, faults, declared, productions, distinct)?;
    push_later_kinds(alloc, faults, productions)?;
    push_limits(alloc, faults, raw, productions)?;
    Ok(())
}

/// Appends the faults of a raw grammar to an empty list.
fn push_all(
    alloc: Global,
    faults: &mut FaultList,
    raw: &RawGrammar,
    declared: &Declared<'_>,
    productions: &[ResolvedProduction],
) -> Result<(), NoMemory>
    requires declared { declared.now ≡ map symbol_of raw.now.symbols }
    requires productions { productions.now ≡ resolved_productions raw.now }
    requires empty { faults.now.items ≡ [] }
    ensures { OnOk result (IsSearched raw.now faults.old.only_first faults.new) }
{
    let distinct = push_naming(alloc, faults, raw, declared, productions)?;
    if faults.is_full() {
        return Ok(());
    }
    push_structure(alloc, faults, raw, declared)?;
    push_further(alloc, faults, raw, declared, productions, distinct)?;
    Ok(())
}

/// Returns the faults of a raw grammar, or only the first one. Fails with `NoMemory` if memory is
/// refused.
fn found_faults(alloc: Global, raw: &RawGrammar, only_first: bool) -> Result<FaultList, NoMemory>
    ensures { IfOk result (λ faults. IsSearched raw.now only_first faults) }
{
    let declared = Declared::new(alloc, raw.symbols.as_slice())?;
    let productions = productions_of(alloc, &declared, raw.productions.as_slice())?;
    let mut faults = FaultList::new(alloc, only_first);
    push_all(alloc, &mut faults, raw, &declared, productions.as_slice())?;
    Ok(faults)
}

/// Returns all faults of a raw grammar: exactly the checks that fail, in their order, which is that
/// of the kinds of `NormalFault`. A fault is left out where it only follows from another one:
///
/// - an attribute of a symbol that is not declared has no fault, since the symbol's name has N1;
/// - an occurrence that has N1 has neither N7, N8 nor N9;
/// - N4 and N5 are listed only without N1 to N3, and N6 only without N2.
///
/// Fails with `NoMemory` only if memory was refused.
pub fn faults_of(alloc: Global, raw: &RawGrammar) -> Result<FaultList, NoMemory>
    ensures exact { IfOk result (λ faults. AreFaults raw.now faults.items) }
{
    found_faults(alloc, raw, false)
}

/// Returns the first fault of a raw grammar, if there is one. The search ends with it.
fn first_fault(alloc: Global, raw: &RawGrammar) -> Result<Option<NormalFault>, NoMemory>
    ensures { IfOk result (λ fault. IsHead raw.now fault) }
{
    let faults = found_faults(alloc, raw, true)?;
    Ok(faults.into_first())
}

/// Returns the number of the start symbol, and the numbered productions. `literals` are the
/// different literals. Symbols, attributes and literals must be within the limits, so that their
/// numbers have 16 bits. Moves the expressions of rules into the productions. Each expression lists
/// its occurrences, and has no unbound name (`listed`).
fn number_productions(
    alloc: Global,
    symbols: &[RawSymbol],
    literals: &[Text],
    start: &Named,
    productions: Items<RawProduction>,
) -> Result<(u16, Items<Production>), NoMemory>
    requires { IsSmall (map symbol_of symbols.now) literals.now }
    ensures start { IfOk result (λ r. r.0
        ≡ number_in (declared_names (map symbol_of symbols.now)) start.now.name) }
    ensures numbered { IfOk result (λ r. r.1
        ≡ map (production_of (map symbol_of symbols.now) literals.now) productions) }
    ensures listed { IfOk result (λ r. All AreListedIn r.1) }
{
    let numbering = Numbering::new(alloc, symbols, literals)?;
    let start = numbering.start_of(start.name.as_str());
    let productions = numbering.productions_of(alloc, productions)?;
    Ok((start, productions))
}

/// Returns the numbered grammar of a raw one. Moves names and expressions into it, and copies each
/// different literal. `Grammar::new` requires an accepted grammar: the numbered one is accepted,
/// since the raw one has no fault and is readable.
fn number(alloc: Global, raw: RawGrammar) -> Result<Grammar, NoMemory>
    requires right { HasNoFault raw }
    requires readable { IsReadable raw }
    ensures { IfOk result (λ g. g ≡ numbered raw) }
{
    let RawGrammar {
        start,
        symbols,
        productions,
    } = raw;
    let classes = classes_of(alloc, productions.as_slice())?;
    let literals = literal_texts(alloc, productions.as_slice())?;
    let (start, productions) = number_productions(
        alloc,
        symbols.as_slice(),
        literals.as_slice(),
        &start,
        productions,
    )?;
    let symbols = move_symbols(alloc, symbols)?;
    Ok(Grammar::new(symbols, productions, literals, classes, start))
}

/// Checks a raw grammar, which has to be readable (`is_readable`), and returns the numbered
/// grammar, which is accepted. Its classes ascend, and its literals are in the order of their first
/// appearance. Names and expressions are moved into it.
///
/// Fails with the first fault, the head of the list that `faults_of` returns: the first one of the
/// first kind that occurs, in the order of `NormalFault`, which says which fault of a kind is the
/// first. The numbered grammar is then not accepted, and the raw grammar is dropped. Fails with
/// `NoMemory` only if memory was refused.
#[tactic(auto, using(crate::proofs::numbered::Accepting::head_refused, crate::proofs::found::Searched::head_none))]
pub fn check(alloc: Global, raw: RawGrammar) -> Result<Grammar, NormalFault>
    requires { IsReadable raw }
    ensures numbered { IfOk result (λ g. g ≡ numbered raw) }
    ensures accepted { IfOk result (λ g. IsAccepted g) }
    ensures in_order { IfOk result (λ g. IsInOrder g) }
    ensures refused { IfErr result (λ fault. IsTrueOf raw fault) }
    ensures first { IfErr result (λ fault. fault ≢ NormalFault.NoMemory → IsHead raw (Some fault)) }
{
    match first_fault(alloc, &raw)? {
        None => Ok(number(alloc, raw)?),
        Some(fault) => Err(fault),
    }
}
