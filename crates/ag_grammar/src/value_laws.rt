//! Laws of the values of expressions, each a function with an empty body whose contract is the
//! fact, and worked examples.

ghost use Rattle.std.specs.Prelude.{◌≡◌, ◌∷◌, [], ℕ, negsuc, codes};
ghost use Rattle.ag_value.specs.declared.value.ErrorCode.TheVariants as code;
ghost use Rattle.ag_value.specs.declared.value.Value.{Value as AttributeValue};
ghost use Rattle.ag_value.specs.declared.value.Value.TheVariants as value;
ghost use Rattle.ag_grammar.specs.declared.syntax.node.BinaryCall.TheVariants as binary;
ghost use Rattle.ag_grammar.specs.declared.syntax.node.Operator.TheVariants as operator;
ghost use Rattle.ag_grammar.specs.declared.syntax.node.UnaryCall.TheVariants as unary;
ghost use Rattle.ag_grammar.specs.expressions.Evaluation.{value_of};
ghost use Rattle.ag_grammar.specs.expressions.Laws.{OccurrencesAreListed, RuleHasOneValue};
ghost use Rattle.ag_grammar.specs.expressions.Laws.{RuleHoldsByOne, ValueOfOccurrences};
ghost use Rattle.ag_grammar.specs.values.Calls.{unary_call_result, binary_call_result, choice_of};
ghost use Rattle.ag_grammar.specs.values.Laws.{BigComesNext, DeepComesFirst, WhatFitsStays};
ghost use Rattle.ag_grammar.specs.values.Laws.{GetIsWell, KeysAreWell, SameIsOne};
ghost use Rattle.ag_value.specs.operations.Lists.{listed};
ghost use Rattle.ag_grammar.specs.values.Operators.{operation_result};
ghost use Rattle.ag_value.specs.operations.Tables.{with_pair};
ghost use Rattle.ag_grammar.specs.values.Worked.{bound_error, least, number, other_branch, two_keys};

/// States that `fit` (of `ag_value`) turns a value that is too deep into the error `deep`, and any
/// other value that is too heavy into the error `big`. It leaves a value within both limits as it
/// is.
pub fn a_value_beyond_the_limits_is_an_error()
    ensures deep { DeepComesFirst }
    ensures big { BigComesNext }
    ensures fits { WhatFitsStays }
{}

/// States that `comparison_result`, the result of `==` for operands that are not errors, is 1 for
/// two well values if and only if they are the same.
pub fn equality_distinguishes_values()
    ensures { SameIsOne }
{}

/// States that the results of `keys` and `get` are well if the first argument is well.
pub fn parts_of_a_table_are_well()
    ensures keys { KeysAreWell }
    ensures got { GetIsWell }
{}

/// States that the value of a tree depends only on the values of the occurrences that it contains,
/// and that the tree of an expression contains no occurrence but those in the expression's list.
pub fn values_rest_on_occurrences()
    ensures value { ValueOfOccurrences }
    ensures listed { OccurrencesAreListed }
{}

/// States that a rule's expression has the same value in all environments that give its occurrences
/// the values of the arguments, and that the rule holds if its target has this value.
pub fn a_rule_has_one_value()
    ensures value { RuleHasOneValue }
    ensures holds { RuleHoldsByOne }
{}

/// States, in examples, which error an operation returns. The leftmost error among its arguments
/// comes first, then the error `kind` if an argument is of a wrong kind, and only then the
/// operation's own error. Further examples: `orelse` replaces an error; an `if` whose condition is
/// a text is the error `kind`; a name can be bound to an error; and an error in the branch that is
/// not chosen has no effect.
pub fn worked_errors()
    ensures leftmost { operation_result operator.Add (value.Fault code.Index) (value.Fault code.Key)
        ≡ value.Fault code.Index }
    ensures before_kind { operation_result operator.Add (value.Text (codes "a")) (value.Fault code.Divide)
        ≡ value.Fault code.Divide }
    ensures kind_by_zero { operation_result operator.Divide (value.Text (codes "a")) (number 0)
        ≡ value.Fault code.Kind }
    ensures kind_at_place { binary_call_result binary.Nth (value.Text (codes "a")) (number 9)
        ≡ value.Fault code.Kind }
    ensures item { listed (number 1 ∷ value.Fault code.Divide ∷ value.Fault code.Index ∷ [])
        ≡ value.Fault code.Divide }
    ensures either { binary_call_result binary.OrElse (number 7) (value.Fault code.Key) ≡ number 7 }
    ensures other { binary_call_result binary.OrElse (value.Fault code.Key) (number 7) ≡ number 7 }
    ensures condition { (e f : AttributeValue)
        → choice_of (value.Text (codes "a")) e f ≡ value.Fault code.Kind }
    ensures bound { (env : ℕ → AttributeValue) → value_of bound_error env ≡ number 1 }
    ensures branch { (env : ℕ → AttributeValue) → value_of other_branch env ≡ number 2 }
{}

/// States, in examples, results at the ends of the range of numbers, the signs of quotients and
/// remainders, and which texts `number` accepts.
pub fn worked_numbers()
    ensures quotient { operation_result operator.Divide (value.Num (negsuc 6)) (number 4)
        ≡ value.Num (negsuc 0) }
    ensures remainder { operation_result operator.Remainder (value.Num (negsuc 6)) (number 4)
        ≡ value.Num (negsuc 2) }
    ensures least_quotient { operation_result operator.Divide (value.Num least) (value.Num (negsuc 0))
        ≡ value.Fault code.Overflow }
    ensures least_remainder { operation_result operator.Remainder (value.Num least) (value.Num (negsuc 0))
        ≡ number 0 }
    ensures zeros { unary_call_result unary.Number (value.Text (codes "-007")) ≡ value.Num (negsuc 6) }
    ensures zero { unary_call_result unary.Number (value.Text (codes "-0")) ≡ number 0 }
    ensures least_spelled { unary_call_result unary.Number (value.Text (codes "-9223372036854775808"))
        ≡ value.Num least }
    ensures too_large { unary_call_result unary.Number (value.Text (codes "9223372036854775808"))
        ≡ value.Fault code.Number }
    ensures sign_alone { unary_call_result unary.Number (value.Text (codes "-")) ≡ value.Fault code.Number }
    ensures plus { unary_call_result unary.Number (value.Text (codes "+5")) ≡ value.Fault code.Number }
    ensures empty { unary_call_result unary.Number (value.Text []) ≡ value.Fault code.Number }
    // the Arabic-Indic digit one (U+0661), in UTF-8
    ensures other_digits { unary_call_result unary.Number (value.Text (217 ∷ 161 ∷ []))
        ≡ value.Fault code.Number }
{}

/// States, in examples, that texts are measured and compared in bytes, values of different kinds
/// are not equal, and lists are indexed from 0. Further examples: `get` returns the value at a key,
/// or the error `key`; tables are sorted by key; and a new value at a key replaces the old one.
pub fn worked_parts()
    // an `ä` in UTF-8
    ensures bytes { unary_call_result unary.Len (value.Text (195 ∷ 164 ∷ [])) ≡ number 2 }
    ensures order { operation_result operator.Less (value.Text (codes "z")) (value.Text (195 ∷ 164 ∷ []))
        ≡ number 1 }
    ensures kinds { operation_result operator.Equal (number 1) (value.Text (codes "1")) ≡ number 0 }
    ensures below { binary_call_result binary.Nth (value.List (number 5 ∷ [])) (value.Num (negsuc 0))
        ≡ value.Fault code.Index }
    ensures following { binary_call_result binary.Nth (value.List (number 5 ∷ [])) (number 1)
        ≡ value.Fault code.Index }
    ensures first { binary_call_result binary.Nth (value.List (number 5 ∷ [])) (number 0) ≡ number 5 }
    ensures absent { binary_call_result binary.Get (value.Table two_keys) (value.Text (codes "c"))
        ≡ value.Fault code.Key }
    ensures found { binary_call_result binary.Get (value.Table two_keys) (value.Text (codes "b"))
        ≡ number 2 }
    ensures sorted { with_pair (codes "a") (number 1) ((codes "b", number 2) ∷ []) ≡ two_keys }
    ensures again { with_pair (codes "b") (number 3) two_keys
        ≡ (codes "a", number 1) ∷ (codes "b", number 3) ∷ [] }
{}
