//! The cause of an error, in the message of O1 (the root's `out` is not a text).

ghost use Rattle.std.specs.Prelude.{◌≡◌};
ghost use Rattle.treefile.specs.devices.Several.{BothPersist, Lasts};

use ag_value::Value;
use aggen::{Fault, Translator};
use aggen_files::WorkFiles;
use messages::{FaultReport, Source};
use passrun::Last;
use std::alloc::Global;
use treefile::Device;
use value_reasons::ErrorTranslation;

/// What is needed to find the cause if the root's `out` is an error.
#[derive(Clone, Copy)]
pub struct CauseFinder<'a> {
    /// The translator.
    pub translator: &'a Translator,
    /// The grammar's text.
    pub grammar: Source<'a>,
    /// The sentence. `None` if the tree came from a file.
    pub sentence: Option<Source<'a>>,
}

impl CauseFinder<'_> {
    /// Returns the report of a translation with what its message says of the cause, if the fault is
    /// O1 and the root's `out` is an error. `files` are the tree files of the translation: the cause
    /// is looked for in that of the last pass. Returns the report unchanged if no cause is found,
    /// and if the tree file is damaged, exceeds a limit or can't be read. Returns it without its
    /// parts if memory for the text is refused.
    pub fn with_cause<D: Device>(
        self,
        alloc: Global,
        report: FaultReport,
        files: &mut WorkFiles<D>,
    ) -> FaultReport
        ensures fault { result.fault ≡ report.fault }
        ensures devices { BothPersist D.is_honest D.failures files.old.a files.new.a
            D.is_honest D.failures files.old.b files.new.b ⊥ }
    {
        if !matches!(report.fault, Fault::NoText(Value::Fault(_))) {
            return report;
        }
        match Last::after(self.translator.plan().assignment().passes()) {
            Last::A => self.describe(alloc, report, &mut files.a),
            Last::B => self.describe(alloc, report, &mut files.b),
        }
    }

    /// Returns the report of O1 with what its message says of the cause. `last` has the file of the
    /// last pass.
    fn describe<D: Device>(
        self,
        alloc: Global,
        mut report: FaultReport,
        last: &mut D,
    ) -> FaultReport
        ensures fault { result.fault ≡ report.fault }
        ensures device { Lasts D.is_honest D.failures last.old last.new }
    {
        let error = ErrorTranslation {
            grammar: self.translator.grammar(),
            plan: self.translator.plan(),
            source: self.grammar,
            sentence: self.sentence,
        };
        match error.describe_cause(alloc, last) {
            Ok(Some(cause)) => {
                let written = write!(report.parts.found, ", which {}", cause.as_str());
                report.or_bare(written)
            }
            Ok(None) | Err(_) => report,
        }
    }
}
