//! Laws of values, each the contract of a function that does nothing, and values worked out by
//! hand.
ghost use Rattle.std.specs.Prelude.{◌≡◌, ◌++◌, ◌∷◌, [], List, ℕ, pos, codes, length};
ghost use Rattle.ag_value.specs.Measure.{depth_of, weight_of};
ghost use Rattle.ag_value.specs.Shown.{shown_of};
ghost use Rattle.ag_value.specs.Spelling.{spelling_of};
ghost use Rattle.ag_value.specs.Well.{IsWell};
ghost use Rattle.ag_value.specs.Worked.{nested};
ghost use Rattle.ag_value.specs.declared.value.ErrorCode.TheVariants as code;
ghost use Rattle.ag_value.specs.declared.value.Value.{Value};
ghost use Rattle.ag_value.specs.declared.value.Value.TheVariants as v;

/// States that the spelling of a well value is not a prefix of that of a different well value. So
/// different well values have different spellings.
pub fn no_spelling_begins_another()
    ensures { (value other : Value) (rest : List ℕ) → IsWell value → IsWell other
        → spelling_of other ≡ spelling_of value ++ rest → value ≡ other }
{}

/// States that the weight of a value is the length of its spelling.
pub fn weight_is_length()
    ensures { (value : Value) → length (spelling_of value) ≡ weight_of value }
{}

/// Worked examples: the spellings of 14, of the error of a division by zero, and of the table
/// `{"k": [-1, "hi"]}`.
#[tactic(auto, using(crate::proofs::Layers::spellings))]
pub fn worked_spellings()
    ensures number { spelling_of (v.Num (pos 14)) ≡ 0 ∷ 0 ∷ 0 ∷ 0 ∷ 0 ∷ 0 ∷ 0 ∷ 0 ∷ 14 ∷ [] }
    ensures error { spelling_of (v.Fault code.Divide) ≡ 4 ∷ 2 ∷ [] }
    ensures table { spelling_of nested ≡ 3 ∷ 0 ∷ 0 ∷ 0 ∷ 1 ∷ 0 ∷ 0 ∷ 0 ∷ 1 ∷ 107
        ∷ 2 ∷ 0 ∷ 0 ∷ 0 ∷ 2
        ∷ 0 ∷ 255 ∷ 255 ∷ 255 ∷ 255 ∷ 255 ∷ 255 ∷ 255 ∷ 255
        ∷ 1 ∷ 0 ∷ 0 ∷ 0 ∷ 2 ∷ 104 ∷ 105 ∷ [] }
{}

/// Worked examples: the weight and the depth of 14, the weight of the error of a division by zero,
/// and the weight, the depth and the text of `{"k": [-1, "hi"]}`.
pub fn worked_measures()
    ensures number_weight { weight_of (v.Num (pos 14)) ≡ 9 }
    ensures number_depth { depth_of (v.Num (pos 14)) ≡ 0 }
    ensures error_weight { weight_of (v.Fault code.Divide) ≡ 2 }
    ensures table_weight { weight_of nested ≡ 31 }
    ensures table_depth { depth_of nested ≡ 2 }
    ensures table_shown { shown_of nested ≡ codes "{\"k\": [-1, \"hi\"]}" }
{}
