//! What is true of the definitions of origins and causes alone.

ghost use Rattle.origins.specs.Causes.{ErrorsHaveCauses};
ghost use Rattle.origins.specs.Laws.{CausesHaveOrigins, NoneIsClean};

/// States that in an accepted grammar with a legal assignment each error of a solution has a cause:
/// a rule in which the error arises, at the end of a chain of rules that pass it on. Also states
/// that if an error of a tree has a cause, the tree has an origin (a node with a rule in which an
/// error arises).
pub fn errors_have_causes()
    ensures causes { ErrorsHaveCauses }
    ensures origins { CausesHaveOrigins }
{}

/// States that in an accepted grammar with a legal assignment, no value of the solution of a tree
/// without an origin is an error.
pub fn no_origin_no_error()
    ensures { NoneIsClean }
{}
