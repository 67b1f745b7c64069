//! All faults of a grammar's text, by the lines that they get.

ghost use Rattle.std.specs.Prelude.{◌≡◌, ◌⊎◌, [], IfOk, None, map};
ghost use Rattle.ag_fault.specs.declared.fault.Fault.TheVariants as program_fault;
ghost use Rattle.grammar_commands.specs.FaultLists.{AreConflictLines, AreLinesOf, ArePlanLines};
ghost use Rattle.grammar_commands.specs.FaultLists.{AreTextLines, HasNoneListed, IsReadable, is_joined, lacking};
ghost use Rattle.grammar_commands.specs.FaultLists.{lines_after};

use crate::listings::Part;
use ag_grammar::{Grammar, Named, RawGrammar};
use ag_text::{TextFault, read_grammar, text_faults};
use ag_value::{NoMemory, Text};
use aggen::{Fault, StuckGrammar, grammar_of};
use llparse::{TableFault, conflicts};
use normalform::{FaultList, NormalFault, faults_of};
use passassign::{AssignFault, assign};
use std::alloc::Global;

/// The faults of a grammar's text, and what was read to find them.
#[derive(Drop)]
pub(crate) struct FoundFaults {
    /// The first fault of each line.
    pub(crate) lines: Vec<Fault>,
    /// The grammar that the text reads as. None if it reads as none.
    pub(crate) raw: Option<RawGrammar>,
    /// The faults N1 to N10 of this grammar.
    pub(crate) normal: Option<FaultList>,
}

/// Returns the faults of a grammar's text: G1 to G4, or else N1 to N10, or else L1 and A1 if `part`
/// is the passes. Returns no line if it has none of these.
pub(crate) fn faults_in(alloc: Global, text: &[u8], part: Part) -> Result<FoundFaults, NoMemory>
    ensures some { IfOk result (λ found.
        (found.lines.items ≡ []) ⊎ AreLinesOf part text.now found.lines.items) }
    ensures none { IfOk result (λ found. found.lines.items ≡ [] → HasNoneListed text.now) }
{
    let lines = lines_of_text(alloc, text)?;
    if !lines.is_empty() {
        return Ok(FoundFaults {
            lines,
            raw: None,
            normal: None,
        });
    }
    let Ok(raw) = read_grammar(alloc, text) else {
        // the text has no fault, so memory was refused
        return Err(NoMemory::NoMemory);
    };
    let normal = faults_of(alloc, &raw)?;
    let lines = match (normal.is_empty(), part) {
        (true, Part::Plan) => lines_of_plan(alloc, text)?,
        _ => lines_of(alloc, normal.as_slice())?,
    };
    Ok(FoundFaults {
        lines,
        raw: Some(raw),
        normal: Some(normal),
    })
}

/// Returns the faults G1 to G4 of a text.
fn lines_of_text(alloc: Global, text: &[u8]) -> Result<Vec<Fault>, NoMemory>
    ensures lines { IfOk result (λ lines. AreTextLines text.now lines.items) }
    ensures none { IfOk result (λ lines. lines.items ≡ [] → IsReadable text.now) }
{
    let faults = text_faults(alloc, text)?;
    faults_of_text(alloc, faults.as_slice())
}

/// Returns the faults of a text as faults of the program.
fn faults_of_text(alloc: Global, faults: &[TextFault]) -> Result<Vec<Fault>, NoMemory>
    ensures { IfOk result (λ lines. lines.items ≡ map program_fault.Text faults.now) }
{
    let mut lines = Vec::new(alloc);
    for fault in faults {
        lines.push(Fault::Text(*fault))?;
    }
    Ok(lines)
}

/// Returns the faults L1 of the grammar in a text, and A1 if it has no legal assignment of passes.
/// Fails if the text is not that of an accepted grammar, and if memory is refused.
fn lines_of_plan(alloc: Global, text: &[u8]) -> Result<Vec<Fault>, NoMemory>
    ensures { IfOk result (λ lines. ArePlanLines text.now lines.items) }
{
    let Ok(grammar) = grammar_of(alloc, text) else {
        return Err(NoMemory::NoMemory);
    };
    let mut lines = lines_of_conflicts(alloc, &grammar)?;
    match assign(alloc, &grammar) {
        Ok(_) => Ok(lines),
        Err(AssignFault::Stuck(stuck)) => {
            lines.push(Fault::Assign(StuckGrammar { stuck, grammar }))?;
            Ok(lines)
        }
        Err(AssignFault::NoMemory) => Err(NoMemory::NoMemory),
    }
}

/// Returns the faults L1 of a grammar.
fn lines_of_conflicts(alloc: Global, grammar: &Grammar) -> Result<Vec<Fault>, NoMemory>
    ensures { IfOk result (λ lines. AreConflictLines grammar.now lines.items) }
{
    let conflicts = conflicts(alloc, grammar)?;
    faults_of_tables(alloc, conflicts.as_slice())
}

/// Returns conflicts as faults of the program.
fn faults_of_tables(alloc: Global, conflicts: &[TableFault]) -> Result<Vec<Fault>, NoMemory>
    ensures { IfOk result (λ lines. lines.items ≡ map program_fault.Table conflicts.now) }
{
    let mut lines = Vec::new(alloc);
    for conflict in conflicts {
        lines.push(Fault::Table(*conflict))?;
    }
    Ok(lines)
}

/// Returns the first fault of each line about some faults.
fn lines_of(alloc: Global, faults: &[NormalFault]) -> Result<Vec<Fault>, NoMemory>
    ensures { IfOk result (λ lines. lines.items ≡ lines_after None faults.now) }
{
    let mut lines = Vec::new(alloc);
    let mut before = None;
    for fault in faults {
        let number = lacking(fault);
        if !is_joined(before, number) {
            lines.push(Fault::Normal(copy_of(alloc, fault)?))?;
        }
        before = number;
    }
    Ok(lines)
}

/// Returns the number of the production that lacks a rule, if the fault is N6.
fn lacking(fault: &NormalFault) -> Option<usize>
    ensures { result ≡ lacking fault.now }
{
    match fault {
        NormalFault::RuleMissing(production, _, _) => Some(*production),
        _ => None,
    }
}

/// Returns whether two faults, one after the other, have one line: whether both are N6 of one
/// production. The arguments are what `lacking` returns for them.
fn is_joined(before: Option<usize>, number: Option<usize>) -> bool
    ensures { result ≡ is_joined before number }
{
    match (before, number) {
        (Some(before), Some(number)) => before == number,
        _ => false,
    }
}

/// Copies a fault.
fn copy_of(alloc: Global, fault: &NormalFault) -> Result<NormalFault, NoMemory>
    ensures { IfOk result (λ copied. copied ≡ fault.now) }
{
    let copied = match fault {
        NormalFault::UnknownName(at) => NormalFault::UnknownName(*at),
        NormalFault::DoubledName(at) => NormalFault::DoubledName(*at),
        NormalFault::BadStart => NormalFault::BadStart,
        NormalFault::Unproductive(name) => NormalFault::Unproductive(copy_of_name(alloc, name)?),
        NormalFault::Unreachable(name) => NormalFault::Unreachable(copy_of_name(alloc, name)?),
        NormalFault::RuleMissing(production, place, attribute) => {
            NormalFault::RuleMissing(*production, *place, *attribute)
        }
        NormalFault::RuleDoubled(at) => NormalFault::RuleDoubled(*at),
        NormalFault::NotDefinedHere(at) => NormalFault::NotDefinedHere(*at),
        NormalFault::NotNormal(at) => NormalFault::NotNormal(*at),
        NormalFault::Limit(kind) => NormalFault::Limit(*kind),
        NormalFault::NoMemory => NormalFault::NoMemory,
    };
    Ok(copied)
}

/// Copies a name.
fn copy_of_name(alloc: Global, name: &Named) -> Result<Named, NoMemory>
    ensures { IfOk result (λ copied. copied ≡ name.now) }
{
    Ok(Named {
        name: Text::from_str(alloc, name.name.as_str())?,
        at: name.at,
    })
}
