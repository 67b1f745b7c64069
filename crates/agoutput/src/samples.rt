//! Examples for the definitions of listings, worked out by hand. Each is a law: the contract of a
//! function with an empty body.

ghost use Rattle.std.specs.Prelude.{◌≡◌};
ghost use Rattle.ag_grammar.specs.grammars.Sample.{sample};
ghost use Rattle.passcode.specs.Sample.{sample_list, sample_production};
ghost use Rattle.agoutput.specs.Listings.{IsPlanListing, code_line};
ghost use Rattle.agoutput.specs.Sample.{sample_line, sample_plan, sample_rows};

/// States that `sample_plan` is the listing of the passes of the grammar `sample` of `ag_grammar`
/// under the assignment `sample_rows`.
pub fn sample_passes_listed()
    ensures { IsPlanListing sample sample_rows sample_plan }
{}

/// States that `sample_line` is the line of production 0 and pass 1 in the code of the grammar
/// `sample`, if the list of instructions is `sample_list`.
pub fn sample_code_listed()
    ensures { code_line sample 0 sample_production (1, sample_list) ≡ sample_line }
{}
