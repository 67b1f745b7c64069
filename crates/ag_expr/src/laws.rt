//! Laws of the expression language, each the contract of a function with an empty body, and worked
//! examples.

ghost use Rattle.std.specs.Prelude.{◌≡◌, ◌∷◌, ◌++◌, [], Some, None, true, false, codes};
ghost use Rattle.ag_expr.specs.language.Expression.{ReadsAsExpr};
ghost use Rattle.ag_expr.specs.language.Laws.{ReadingAgrees};
ghost use Rattle.ag_expr.specs.language.Laws.{OneExpression};
ghost use Rattle.ag_expr.specs.language.Laws.{RefusesAtTheFirst};
ghost use Rattle.ag_tokens.specs.Tokens.{AreTokens};
ghost use Rattle.ag_expr.specs.language.Names.{is_reserved, binding_in};
ghost use Rattle.ag_tokens.specs.PlacedToken.{tokens};
ghost use Rattle.ag_expr.specs.language.Syntax.{IsExpr};
ghost use Rattle.ag_expr.specs.language.Until.{first_semicolon, semicolon};
ghost use Rattle.ag_expr.specs.language.Worked.{occurrence_and_number, sum_and_product};
ghost use Rattle.ag_expr.specs.language.Worked.{bound_and_compared, let_and_compare};

/// States that the reading function of expressions, `expr_of`, returns a tree for all tokens of a
/// text if and only if the syntax relates these tokens to the tree. The clause `exact` of
/// `read_expr` says that its results are those of `expr_of`.
#[tactic(auto, using(crate::proofs::language::Agree::exact))]
pub fn reading_agrees_with_the_syntax()
    ensures { ReadingAgrees }
{}

/// States that the reading function of expressions, if it fails, reports the first token that
/// cannot be accepted.
#[tactic(auto, using(crate::proofs::language::Offsets::refuses_at_the_first))]
pub fn the_first_wrong_token_is_reported()
    ensures { RefusesAtTheFirst }
{}

/// States that a text reads as at most one expression.
pub fn a_text_reads_as_one_expression()
    ensures { OneExpression }
{}

/// States what the tokens of `$1.a + 2` are, with their offsets.
#[tactic(auto, using(crate::proofs::language::Examples::occurrence_and_number))]
pub fn worked_tokens()
    ensures { AreTokens 0 (codes "$1.a + 2") occurrence_and_number 8 [] }
{}

/// States what `2 + 3 * 4` reads as.
#[tactic(auto, using(crate::proofs::language::Examples::sum_is_read))]
pub fn worked_expression()
    ensures { ReadsAsExpr (codes "2 + 3 * 4")
        (record { tree = sum_and_product; occurrences = [] }) }
{}

/// States which tree the tokens of `let x = 1 in x < 2` spell, as an expression of at most two
/// levels.
#[tactic(auto, using(crate::proofs::language::Examples::let_is_spelled))]
pub fn worked_scope()
    ensures { IsExpr [] 2 (tokens let_and_compare) bound_and_compared }
{}

/// States that `x` refers to the last of the bindings `x`, `y`, `x`, which is the innermost, and
/// that `y` refers to no binding if only `x` is bound. Also states that `len`, the name of a call,
/// is reserved, and `lens` is not.
pub fn worked_names()
    ensures hidden { binding_in (codes "x" ∷ codes "y" ∷ codes "x" ∷ []) (codes "x") ≡ Some 2 }
    ensures unbound { binding_in (codes "x" ∷ []) (codes "y") ≡ None }
    ensures reserved { is_reserved (codes "len") ≡ true }
    ensures free { is_reserved (codes "lens") ≡ false }
{}

/// States that the first semicolon of `let x = 1 in x < 2; ;` is the one at offset 18.
pub fn worked_semicolon()
    ensures { first_semicolon (let_and_compare ++ semicolon 18 ∷ semicolon 20 ∷ []) ≡ Some 18 }
{}
