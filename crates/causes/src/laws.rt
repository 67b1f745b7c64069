//! What is true of the definitions alone.

ghost use Rattle.causes.specs.Laws.{CauseIsFound, FoundIsCause};

/// States two facts. Let a chain along the nodes of a tree, with the tree's values, end in a rule
/// in which the error arises. Then the error that the first rule computes has a cause, by the
/// definitions of `origins`. Conversely, in an accepted grammar, if the error of an attribute at a
/// node has a cause, such a chain begins with a rule for this attribute.
pub fn causes_are_found()
    ensures cause { FoundIsCause }
    ensures found { CauseIsFound }
{}
