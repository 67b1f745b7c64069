//! Worked examples of the definitions, each a law. The grammars `sample` and `both_ways` are in
//! `specs/grammars/Sample.antt` of `ag_grammar`, and `rightward` is in `specs/Sample.antt`.

ghost use Rattle.ag_grammar.specs.grammars.Passes.{IsLegal};
ghost use Rattle.ag_grammar.specs.grammars.Sample.{sample, sample_passes, later_passes, both_ways};
ghost use Rattle.passassign.specs.Certificate.{IsCertificate};
ghost use Rattle.passassign.specs.Least.{partial_of, IsLeast, IsAlternating};
ghost use Rattle.passassign.specs.Making.{IsMade};
ghost use Rattle.passassign.specs.Sample.{both_ways_stuck, exchanged, rightward, third_passes};

/// Worked example: if passes of the grammar `sample` are made, pass 1 is assigned to every
/// attribute.
#[tactic(auto, using(crate::proofs::making::Earliest::sample_made))]
pub fn sample_made()
    ensures { IsMade sample 2 (partial_of sample_passes) }
{}

/// Worked example: pass 1 for every attribute is the least assignment of `sample`.
#[tactic(auto, using(crate::proofs::making::Earliest::sample_least))]
pub fn sample_least()
    ensures { IsLeast sample sample_passes }
{}

/// Worked example: pass 3 for every attribute of `sample` is legal too, and not the least
/// assignment.
#[tactic(auto, using(crate::proofs::making::Earliest::third_not_least))]
pub fn third_not_least()
    ensures legal { IsLegal sample third_passes }
    ensures greater { IsLeast sample third_passes → ⊥ }
{}

/// Worked example: in the grammar `rightward` an attribute of a child depends on the child to its
/// left. Pass 1 strikes all attributes, and pass 2 is assigned to them.
#[tactic(auto, using(crate::proofs::making::Earliest::rightward_made))]
pub fn rightward_made()
    ensures { IsMade rightward 3 (partial_of later_passes) }
{}

/// Worked example: in the grammar `both_ways` each direction is wrong for one of the two
/// productions of the start symbol. It has a certificate of all its attributes.
#[tactic(auto, using(crate::proofs::strikes::BothWays::both_ways_certified))]
pub fn both_ways_certified()
    ensures { IsCertificate both_ways both_ways_stuck }
{}

/// Worked example: no assignment of `both_ways` is legal, with any number of passes.
#[tactic(auto, using(crate::proofs::strikes::BothWays::both_ways_refused))]
pub fn both_ways_refused()
    ensures { IsAlternating both_ways → ⊥ }
{}

/// Worked example: if the two lists of strikes are exchanged, the certificate of `both_ways` is not
/// one, since its strikes are good in one direction only.
#[tactic(auto, using(crate::proofs::strikes::BothWays::exchanged_refused))]
pub fn exchanged_refused()
    ensures { IsCertificate both_ways exchanged → ⊥ }
{}
