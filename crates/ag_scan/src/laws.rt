//! Laws of the definitions, each the contract of a function with an empty body.

ghost use Rattle.ag_scan.specs.Laws.{AnAnswer, AtMostOneAnswer};
ghost use Rattle.ag_scan.specs.Worked.{LongestWins, UnusedIsNone};

/// States that a sentence has at most one answer over an accepted grammar. An answer is the list of
/// its tokens, or the fault (S1 to S4) that says why it has none.
#[tactic(auto, using(crate::proofs::OneAnswer::at_most_one))]
pub fn a_sentence_has_at_most_one_answer()
    ensures { AtMostOneAnswer }
{}

/// States that each sentence has an answer over an accepted grammar: a list of tokens, or a fault
/// other than `NoMemory`.
#[tactic(auto, using(crate::proofs::Answered::an_answer))]
pub fn each_sentence_has_an_answer()
    ensures { AnAnswer }
{}

/// States a worked example: with the literal `if` and the class NAME, the tokens of `iffy if` are a
/// NAME and then the literal.
#[tactic(auto, using(crate::proofs::Examples::longest_wins))]
pub fn the_longest_word_wins()
    ensures { LongestWins }
{}

/// States a worked example: with the literal `1` and no class in use, no token begins at offset 1
/// of `12`.
#[tactic(auto, using(crate::proofs::Examples::unused_is_none))]
pub fn a_class_that_is_not_in_use_has_no_words()
    ensures { UnusedIsNone }
{}
