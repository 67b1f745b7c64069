//! Laws about the definitions alone.

ghost use Rattle.passassign.specs.Laws.{MembersAreStuck, StuckIsRefused, CertifiedIsRefused};
ghost use Rattle.passassign.specs.Laws.{MadeIsAtMost, LeftIsLater, MadeIsLegal, WholeIsLeast};
ghost use Rattle.passassign.specs.Laws.{RestIsStuck, StuckIsLeft, RestIsCertified};
ghost use Rattle.passassign.specs.Laws.{StrikesGrow, MarksMakePass, LeastHasFewest};
ghost use Rattle.passassign.specs.Laws.{NoneIsEarlier, StrikesShowLeast, CertificatesAreStrikes};
ghost use Rattle.passassign.specs.Laws.{ChainsShowLater, ChainsAreThere};

/// States that the members of a certificate's set are stuck: no legal partial assignment gives them
/// a pass.
pub fn members_are_stuck()
    ensures { MembersAreStuck }
{}

/// States that if an attribute of the grammar is stuck, no assignment is legal, with any number of
/// passes.
#[tactic(auto, using(crate::proofs::making::Whole::stuck_refused))]
pub fn stuck_is_refused()
    ensures { StuckIsRefused }
{}

/// States that if there is a certificate, and each production is complete, no assignment is legal,
/// with any number of passes.
#[tactic(auto, using(crate::proofs::making::Whole::certified_refused))]
pub fn certified_is_refused()
    ensures { CertifiedIsRefused }
{}

/// States that if passes made from pass 1 on and a legal partial assignment both assign a pass to
/// an attribute, the legal partial assignment assigns no earlier one.
pub fn made_is_at_most()
    ensures { MadeIsAtMost }
{}

/// States that an attribute that the passes before pass k leave open has no pass before k in any
/// legal partial assignment.
pub fn left_is_later()
    ensures { LeftIsLater }
{}

/// States that the partial assignment of passes made from pass 1 on is legal, if each production is
/// complete and normal.
#[tactic(auto, using(crate::proofs::making::Legal::made_legal))]
pub fn made_is_legal()
    ensures { MadeIsLegal }
{}

/// States that if passes made from pass 1 on assign a pass to every attribute, and each production
/// is complete and normal, their assignment is the least one.
pub fn whole_is_least()
    ensures { WholeIsLeast }
{}

/// States that a least assignment has the fewest passes: no legal assignment has a smaller greatest
/// pass.
pub fn least_has_fewest()
    ensures { LeastHasFewest }
{}

/// States that the attributes left open by two consecutive passes that assign nothing are stuck.
pub fn rest_is_stuck()
    ensures { RestIsStuck }
{}

/// States that the stuck attributes are exactly those left open by two consecutive passes that
/// assign nothing, if the passes before these two were made from pass 1 on, and each production is
/// complete and normal.
pub fn stuck_is_left()
    ensures { StuckIsLeft }
{}

/// States that the strikes of two consecutive passes that assign nothing are a certificate for the
/// attributes that these passes leave open, if there are any.
pub fn rest_is_certified()
    ensures { RestIsCertified }
{}

/// States that a list of good strikes stays one if a good strike of another candidate is appended.
#[tactic(auto, using(crate::proofs::strikes::Growing::strikes_grow))]
pub fn strikes_grow()
    ensures { StrikesGrow }
{}

/// States that good strikes to which no other can be added make a pass: the open attributes that
/// are not marked as struck get it.
#[tactic(auto, using(crate::proofs::making::Marked::pass_by_marks))]
pub fn marks_make_pass()
    ensures { MarksMakePass }
{}

/// States that if an assignment has strikes, one list for each pass, no legal assignment gives any
/// attribute an earlier pass.
pub fn none_is_earlier()
    ensures { NoneIsEarlier }
{}

/// States that an assignment that is legal and has strikes is the least one.
pub fn strikes_show_least()
    ensures { StrikesShowLeast }
{}

/// States that if an assignment assigns pass k to no attribute, and a later pass to exactly the
/// members of a certificate, then the certificate's list for the direction of pass k has the
/// strikes of pass k.
pub fn certificates_are_strikes()
    ensures { CertificatesAreStrikes }
{}

/// States that if an assignment has strikes, one list for each pass, and a chain for one of its
/// passes begins with a strike of an attribute, then every legal assignment assigns a later pass
/// than that one to this attribute.
pub fn chains_show_later()
    ensures { ChainsShowLater }
{}

/// States that if pass k of an assignment has strikes, each attribute that has a later pass has a
/// chain for pass k.
pub fn chains_are_there()
    ensures { ChainsAreThere }
{}
