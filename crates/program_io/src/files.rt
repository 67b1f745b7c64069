//! The reports of refused grammars and sentences.

ghost use Rattle.std.specs.Prelude.{◌≡◌, IfErr, IfOk};
ghost use Rattle.aggen.specs.Checking.{IsGrammarOf};
ghost use Rattle.aggen.specs.Jobs.{IsNoTranslator};

use aggen::{Fault, Translator};
use messages::{FaultReport, Source};
use std::alloc::Global;

/// Returns the translator of the grammar in a text. Fails if the grammar or memory is refused, with
/// the report of the fault of `Translator::build`.
pub fn build_translator(alloc: Global, grammar: Source<'_>) -> Result<Translator, FaultReport>
    ensures built { IfOk result (λ translator. IsGrammarOf grammar.entry.bytes.now translator) }
    ensures refused { IfErr result (λ report.
        IsNoTranslator grammar.entry.bytes.now report.fault) }
{
    match Translator::build(alloc, grammar.bytes) {
        Ok(translator) => Ok(translator),
        Err(fault) => Err(FaultReport::of_grammar(alloc, Fault::from(fault), grammar)),
    }
}

/// Returns the report of a fault of a sentence, or of its translation.
pub fn report_of_sentence(
    alloc: Global,
    fault: Fault,
    translator: &Translator,
    sentence: Source<'_>,
) -> FaultReport
    ensures { result.fault ≡ fault }
{
    FaultReport::of_sentence(
        alloc,
        fault,
        translator.grammar(),
        translator.tables(),
        sentence,
    )
}
