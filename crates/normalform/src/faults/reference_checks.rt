//! Checks the roles of the attributes to which the rules of productions refer.
ghost use Rattle.std.specs.Prelude.{◌≡◌, map, OnOk};
ghost use Rattle.normalform.specs.faults.FaultList.{after_checks};
ghost use Rattle.normalform.specs.faults.Faults as spec;
ghost use Rattle.normalform.specs.faults.Faults.{reference_check, reference_checks};

use crate::fault::NormalFault;
use crate::faults::fault_list::FaultList;
use crate::faults::resolved::{Reference, ResolvedProduction, Role};
use ag_value::NoMemory;

/// A check of references. Each variant says what has to hold, and which fault is listed otherwise.
#[derive(Clone, Copy)]
pub enum RuleCheck {
    /// N1: targets and arguments exist, or are at a symbol that is not declared.
    Known,
    /// N8: targets are not inherited at place 0, nor synthesized at a later place.
    Defined,
    /// N9: arguments are not synthesized at place 0, nor inherited at a later place.
    Used,
}

/// Returns whether the check of a reference holds.
fn holds(rule_check: RuleCheck, reference: &Reference) -> bool
    ensures { result ≡ spec.holds rule_check reference.now }
{
    match rule_check {
        RuleCheck::Known => reference.role != Role::Unknown,
        RuleCheck::Defined => !reference.is_target || reference.role != Role::Used,
        RuleCheck::Used => reference.is_target || reference.role != Role::Defined,
    }
}

/// Returns the fault of the check at an offset.
fn fault_at(rule_check: RuleCheck, at: usize) -> NormalFault
    ensures { result ≡ spec.fault_at rule_check at }
{
    match rule_check {
        RuleCheck::Known => NormalFault::UnknownName(at),
        RuleCheck::Defined => NormalFault::NotDefinedHere(at),
        RuleCheck::Used => NormalFault::NotNormal(at),
    }
}

/// Appends the fault of each reference that fails the check.
#[tactic(auto, using(crate::proofs::Listing::after_none, crate::proofs::Listing::after_both))]
pub fn push_among(
    rule_check: RuleCheck,
    faults: &mut FaultList,
    references: &[Reference],
) -> Result<(), NoMemory>
    ensures { OnOk result (faults.new ≡ after_checks faults.old
        (map (reference_check rule_check) references.now)) }
{
    for reference in references {
        let fault = fault_at(rule_check, reference.at);
        faults.push_unless(holds(rule_check, reference), fault)?;
    }
    Ok(())
}

/// Appends the fault of each reference of productions that fails the check.
#[tactic(auto, using(crate::proofs::Listing::after_none))]
pub fn push_in_productions(
    rule_check: RuleCheck,
    faults: &mut FaultList,
    productions: &[ResolvedProduction],
) -> Result<(), NoMemory>
    ensures { OnOk result (faults.new ≡ after_checks faults.old
        (reference_checks rule_check productions.now)) }
{
    for production in productions {
        push_among(rule_check, faults, production.references.as_slice())?;
    }
    Ok(())
}
