//! The operations of a translator.

ghost use Rattle.std.specs.Prelude.{IfErr, IfOk};
ghost use Rattle.aggen_c.specs.Operations.{IsRefusalOf, IsResultOf};

use crate::memory::{device_of, evaluation, plan_text, translation, tree_file};
use ag_fault::Fault;
use aggen::Translator;
use messages::{FaultReport, Source};
use std::alloc::Global;

/// The name of a sentence in messages.
const SENTENCE: &str = "sentence";

/// The name of a tree file in messages.
const TREE_FILE: &str = "tree file";

/// An operation of a translator, whose result is bytes.
#[derive(Clone, Copy)]
pub enum Operation {
    /// Translates a sentence.
    Translate,
    /// Translates the tree in a tree file of pass 0.
    Evaluate,
    /// Returns the tree file of pass 0 of a sentence's tree.
    Parse,
    /// Returns the listing of the passes. The input is not used.
    Plan,
}

impl Operation {
    /// Returns the result of the operation on an input. Fails with a fault that is true of the
    /// input, or with NoMemory.
    pub fn result(
        self,
        alloc: Global,
        translator: &Translator,
        input: &[u8],
    ) -> Result<Vec<u8>, Fault>
        ensures bytes { IfOk result (λ bytes.
            IsResultOf self translator.now input.now bytes.items) }
        ensures refused { IfErr result (λ e. IsRefusalOf self translator.now input.now e) }
    {
        match self {
            Operation::Translate => translation(alloc, translator, input),
            Operation::Evaluate => evaluation(alloc, translator, input),
            Operation::Parse => tree_file(alloc, translator, input),
            Operation::Plan => plan_text(alloc, translator),
        }
    }

    /// Returns the report of a fault of the operation on an input.
    pub fn report(
        self,
        alloc: Global,
        fault: Fault,
        translator: &Translator,
        input: &[u8],
    ) -> FaultReport {
        match self {
            Operation::Translate | Operation::Parse => FaultReport::of_sentence(
                alloc,
                fault,
                translator.grammar(),
                translator.tables(),
                Source::new(SENTENCE, input),
            ),
            Operation::Evaluate => report_of_tree(alloc, fault, translator, input),
            Operation::Plan => FaultReport::new(alloc, fault),
        }
    }
}

/// Returns the report of a fault of a tree file. Takes memory for a copy of the file; if that is
/// refused, the report has only the fault and, for R1, P2 and P3, the name of the file.
fn report_of_tree(
    alloc: Global,
    fault: Fault,
    translator: &Translator,
    file: &[u8],
) -> FaultReport {
    match device_of(alloc, file) {
        Ok(mut tree) => FaultReport::of_tree(
            alloc,
            fault,
            translator.grammar(),
            &mut tree,
            TREE_FILE,
        ),
        Err(_) => FaultReport::of_file(alloc, fault, TREE_FILE),
    }
}
