//! Laws of tokens, each the contract of a function with an empty body.

ghost use Rattle.ag_tokens.specs.Laws.{LongestIsCut, NothingIsCut, OneInput};

/// States that a text has exactly one list of tokens with offsets, and one ending.
#[tactic(auto, using(crate::proofs::Lexes::one_input))]
pub fn a_text_has_one_list_of_tokens()
    ensures { OneInput }
{}

/// States that the function `token_from` of `specs/Lexing.antt` returns the longest token at the
/// beginning of some characters, and `None` only if no token begins there.
#[tactic(auto, using(crate::proofs::TokenLaws::longest_is_cut, crate::proofs::TokenLaws::nothing_is_cut))]
pub fn cutting_agrees_with_tokens()
    ensures cut { LongestIsCut }
    ensures none { NothingIsCut }
{}
