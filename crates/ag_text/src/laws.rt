//! Laws of the grammar language, each the contract of a function with an empty body, and worked
//! examples.

ghost use Rattle.std.specs.Prelude.{codes};
ghost use Rattle.ag_text.specs.Grammar.{ReadsAsGrammar, ReadsAsNone};
ghost use Rattle.ag_text.specs.Laws.{HeadIsFirst, NoFaultsOfGrammars, OneGrammar, OneListOfFaults};
ghost use Rattle.ag_text.specs.Laws.{ReadingAgrees, RefusesAtTheFirst};
ghost use Rattle.ag_text.specs.Syntax.{IsGrammar};
ghost use Rattle.ag_text.specs.Worked.{constant, constant_tokens, start_alone};

/// States that the reading function of grammars (`grammar_of` of the specification, which
/// `read_grammar` agrees with) accepts the tokens of a text, and returns a grammar, if and only if
/// the syntax relates the tokens to this grammar.
#[tactic(auto, using(crate::proofs::Agree::reading_agrees))]
pub fn reading_agrees_with_the_syntax()
    ensures { ReadingAgrees }
{}

/// States that, outside of expressions, the reading function of grammars fails at the first token
/// that cannot be accepted.
#[tactic(auto, using(crate::proofs::Agree::refuses_at_the_first))]
pub fn the_first_wrong_token_is_reported()
    ensures { RefusesAtTheFirst }
{}

/// States that a text reads as at most one grammar.
pub fn a_text_reads_as_one_grammar()
    ensures { OneGrammar }
{}

/// States that the list of all faults of a text is empty if and only if the text is a grammar.
#[tactic(auto, using(crate::proofs::AllFaults::no_faults))]
pub fn only_grammars_have_no_faults()
    ensures { NoFaultsOfGrammars }
{}

/// States that the list of all faults of a text begins with the fault of parsing it as a grammar.
pub fn the_list_begins_with_the_first_fault()
    ensures { HeadIsFirst }
{}

/// States that a text has one list of all faults.
pub fn a_text_has_one_list_of_faults()
    ensures { OneListOfFaults }
{}

/// States that the text `start S;` reads as a grammar without symbols or productions.
#[tactic(auto, using(crate::proofs::Examples::start_alone_is_read))]
pub fn worked_text()
    ensures { ReadsAsGrammar (codes "start S;") start_alone }
{}

/// States that the text `start ;` does not read as a grammar.
pub fn worked_refusal()
    ensures { ReadsAsNone (codes "start ;") }
{}

/// States that the tokens `constant_tokens` spell the grammar `constant`. These are the tokens of
/// `start S; symbol S syn out; S = "x" S NAME { $0.out = 7; }`. The law is not about this text.
#[tactic(auto, using(crate::proofs::Examples::constant_is_spelled))]
pub fn worked_tokens()
    ensures { IsGrammar constant_tokens constant }
{}
