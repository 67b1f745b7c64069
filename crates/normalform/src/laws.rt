//! Laws about raw grammars and their faults, each the contract of a function that does nothing.

ghost use Rattle.normalform.specs.Examples.{WorkedNames, WorkedRules};
ghost use Rattle.normalform.specs.Laws.{AcceptedWithoutFault, NoFaultWhereAccepted};
ghost use Rattle.normalform.specs.Laws.{OneFirstFault, NoFirstFaultWithoutFault};
ghost use Rattle.normalform.specs.Laws.{OneList, HeadIsFirst, NoneIfAccepted, WorkedNumbers};

/// States that the numbered grammar of a raw grammar is accepted if the raw one has no fault and is
/// readable, and if each expression of a rule lists its occurrences and has no unbound name
/// (`AreListedIn`).
#[tactic(auto, using(crate::proofs::numbered::Accepting::accepted_without_fault))]
pub fn accepted_without_fault()
    ensures { AcceptedWithoutFault }
{}

/// States that if the numbered grammar is accepted, the raw one has no fault.
pub fn no_fault_where_accepted()
    ensures { NoFaultWhereAccepted }
{}

/// States that a raw grammar has at most one first fault.
#[tactic(auto, using(crate::proofs::found::First::one_first_fault))]
pub fn one_first_fault()
    ensures { OneFirstFault }
{}

/// States that a raw grammar without faults has no first fault.
#[tactic(auto, using(crate::proofs::numbered::Accepting::first_excludes))]
pub fn no_first_fault_without_fault()
    ensures { NoFirstFaultWithoutFault }
{}

/// States that a raw grammar has one list of faults.
pub fn one_list()
    ensures { OneList }
{}

/// States that the head of the list of faults is the first fault.
pub fn head_is_first()
    ensures { HeadIsFirst }
{}

/// States that the list of faults is empty exactly if the numbered grammar is accepted. The raw
/// grammar has to be readable, and each expression of a rule has to list its occurrences and have
/// no unbound name.
#[tactic(auto, using(crate::proofs::numbered::Accepting::none_if_accepted))]
pub fn none_if_accepted()
    ensures { NoneIfAccepted }
{}

/// Worked example: the numbers of a small grammar.
pub fn worked_numbers()
    ensures { WorkedNumbers }
{}

/// Worked examples: the first faults among N1 to N3 (names and the start symbol) of small grammars.
pub fn worked_names()
    ensures { WorkedNames }
{}

/// Worked examples: the first faults among N6 to N10 (rules and limits) of small grammars.
pub fn worked_rules()
    ensures { WorkedRules }
{}
