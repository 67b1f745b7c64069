//! The reports of faults, by the kind of input.

ghost use Rattle.std.specs.Prelude.{◌≡◌};
ghost use Rattle.treefile.specs.devices.Device.{LeavesContent, Persists};

use crate::report::FaultReport;
use ag_fault::Fault;
use ag_grammar::Grammar;
use llparse::Tables;
use message_parts::{Location, Parts, Source};
use message_texts::expressions::{describe_expression, locate_in_expression};
use message_texts::grammar_text::GrammarText;
use message_texts::grammars::conflicts::{describe_conflict, offsets_of_conflict};
use message_texts::grammars::normal::{describe_normal, offset_in_grammar};
use message_texts::grammars::stuck::describe_stuck;
use message_texts::grammars::texts::{describe_text, offset_in_text};
use message_texts::sentences::parsing::{ParsedSentence, describe_parse, locate_in_sentence};
use message_texts::sentences::scanning::{describe_scan, locate_token};
use message_texts::trees::damage::{TreeFormat, describe_damage};
use message_texts::values::describe_value;
use pass_rows::RunFault;
use std::alloc::{AllocError, Global};
use treefile::{Device, FileVersion};

/// The names of an old tree file (one of version 1) and of the file that it is converted to.
#[derive(Clone, Copy)]
pub struct ConvertedPaths<'a> {
    /// The path of the old file.
    pub old: &'a str,
    /// The path of the file that it is converted to.
    pub new: &'a str,
}

impl FaultReport {
    /// Returns the report of a fault of the file at `path`, or of its content. The report names the
    /// file after F1 and D1, and after R1, P2 and P3 of the tree in the file (`Fault::Run`). After
    /// any other fault it names no file. (If a pass fails with D1 or NoMemory, the fault is
    /// `Fault::Device` or `Fault::NoMemory`, and not `Fault::Run`.)
    pub fn of_file(alloc: Global, fault: Fault, path: &str) -> FaultReport
        ensures fault { result.fault ≡ fault }
        ensures location { result.location ≡ Location.InFault }
    {
        let is_named = matches!(fault, Fault::File | Fault::Device | Fault::Run(_));
        let report = FaultReport::new(alloc, fault);
        if is_named {
            report.with_file(alloc, path)
        } else {
            report
        }
    }

    /// Returns the report of a fault of the text of an expression.
    pub fn of_expression(alloc: Global, fault: Fault, text: &str) -> FaultReport
        ensures { result.fault ≡ fault }
    {
        let mut report = FaultReport::new(alloc, fault);
        let written = match &report.fault {
            Fault::Expr(fault) => {
                report.location = locate_in_expression(*fault, text);
                describe_expression(alloc, &mut report.parts, *fault, text)
            }
            _ => Ok(()),
        };
        report.or_bare(written)
    }

    /// Returns the report of a fault of the text of a grammar. Reads the text again, for the names
    /// and positions in the message.
    pub fn of_grammar(alloc: Global, fault: Fault, source: Source<'_>) -> FaultReport
        ensures { result.fault ≡ fault }
    {
        FaultReport::of_read_grammar(alloc, fault, &GrammarText::new(alloc, source))
    }

    /// Returns the report of a fault of the text of a grammar that was read again.
    pub fn of_read_grammar(alloc: Global, fault: Fault, text: &GrammarText<'_>) -> FaultReport
        ensures { result.fault ≡ fault }
    {
        let location = locate_fault_of_grammar(&fault, text);
        let report = FaultReport::new(alloc, fault);
        let mut report = report.with_location(alloc, location, text.source.name);
        let written = describe_fault_of_grammar(&mut report.parts, &report.fault, text);
        report.or_bare(written)
    }

    /// Returns the report of a fault of a sentence, or of its translation. Scans the sentence again
    /// if the fault is P1. `tables` are the look-ahead tables of the grammar.
    pub fn of_sentence(
        alloc: Global,
        fault: Fault,
        grammar: &Grammar,
        tables: &Tables,
        sentence: Source<'_>,
    ) -> FaultReport
        ensures { result.fault ≡ fault }
    {
        let location = locate_fault_of_sentence(&fault, &sentence);
        let mut report = FaultReport::new(alloc, fault).with_location(
            alloc,
            location,
            sentence.name,
        );
        let sentence = ParsedSentence {
            grammar,
            tables,
            source: sentence,
        };
        let written = describe_fault_of_sentence(
            alloc,
            &mut report.parts,
            &report.fault,
            &sentence,
        );
        report.or_bare(written)
    }

    /// Returns the report of a fault of the tree in the file at `path`, or of the translation of
    /// this tree. Reads the file again, from the device `tree`, if a record is damaged (R1).
    pub fn of_tree<D: Device>(
        alloc: Global,
        fault: Fault,
        grammar: &Grammar,
        tree: &mut D,
        path: &str,
    ) -> FaultReport
        ensures fault { result.fault ≡ fault }
        ensures content { LeavesContent (D.is_honest tree.new)
            (D.content tree.old) (D.content tree.new) }
        // The last argument of `Persists` is a premise: if it holds, the number of failures rose.
        // Here the premise is ⊥ (false), since the report doesn't show whether a call of the device
        // failed. So the clause doesn't say when the number rises.
        ensures persists { Persists (D.is_honest tree.old) (D.is_honest tree.new)
            (D.failures tree.old) (D.failures tree.new) ⊥ }
    {
        let format = TreeFormat {
            version: FileVersion::Two,
            grammar,
        };
        FaultReport::of_file(alloc, fault, path).with_tree(alloc, format, tree)
    }

    /// Returns the report of a fault of converting the tree in an old file. Reads the old file
    /// again, from the device `old`, if a record is damaged (R1). After D1 reads its length and its
    /// first byte (`can_read`). The report names the old file after R1, P2 and P3, and after D1 if
    /// the old file can't be read. It names the new file after F1, and after D1 if the old file can
    /// be read. After other faults it names no file. (The caller reports F1 of the old file by
    /// `of_file`.)
    pub fn of_old_tree<D: Device>(
        alloc: Global,
        fault: Fault,
        grammar: &Grammar,
        old: &mut D,
        paths: ConvertedPaths<'_>,
    ) -> FaultReport
        ensures fault { result.fault ≡ fault }
        ensures content { LeavesContent (D.is_honest old.new)
            (D.content old.old) (D.content old.new) }
        // as in `of_tree`: the clause doesn't say when the number of failures rises
        ensures persists { Persists (D.is_honest old.old) (D.is_honest old.new)
            (D.failures old.old) (D.failures old.new) ⊥ }
    {
        let format = TreeFormat {
            version: FileVersion::One,
            grammar,
        };
        let is_of_old = match &fault {
            Fault::Run(_) => true,
            Fault::Device => !can_read(old),
            _ => false,
        };
        let path = if is_of_old { paths.old } else { paths.new };
        FaultReport::of_file(alloc, fault, path).with_tree(alloc, format, old)
    }

    /// Returns the report with parts that say what is wrong with the tree in a file (R1, P2 or P3),
    /// or with the translation of this tree (O1). After P2 and P3 of the file, the location is the
    /// whole file. For any other fault the report has no parts.
    fn with_tree<D: Device>(
        mut self,
        alloc: Global,
        format: TreeFormat<'_>,
        tree: &mut D,
    ) -> FaultReport
        ensures fault { result.fault ≡ self.fault }
        ensures content { LeavesContent (D.is_honest tree.new)
            (D.content tree.old) (D.content tree.new) }
        ensures persists { Persists (D.is_honest tree.old) (D.is_honest tree.new)
            (D.failures tree.old) (D.failures tree.new) ⊥ }
    {
        let parts = &mut self.parts;
        let written = match &self.fault {
            Fault::Run(RunFault::Damaged(at)) => describe_damage(alloc, parts, format, tree, *at),
            Fault::Run(RunFault::TooDeep) => {
                self.location = Location::Whole;
                format.describe_depth_limit(parts)
            }
            Fault::Run(RunFault::TooManyNodes) => {
                self.location = Location::Whole;
                format.describe_node_limit(parts)
            }
            Fault::NoText(value) => describe_value(alloc, parts, value),
            _ => Ok(()),
        };
        self.or_bare(written)
    }
}

/// Returns the offset in bytes of a fault of the text of a grammar. None for A1, for a fault of the
/// whole text, and for a fault that is not one of a grammar. Also None for N1 to N10 and L1 if
/// `text` has no grammar, since memory for reading it again was refused.
pub fn offset_of_fault(fault: &Fault, text: &GrammarText<'_>) -> Option<usize> {
    match fault {
        Fault::Text(fault) => offset_in_text(*fault),
        Fault::Normal(fault) => offset_in_grammar(fault, text.raw.as_ref()?),
        Fault::Table(fault) => Some(offsets_of_conflict(*fault, text.raw.as_ref()?)?.0),
        _ => None,
    }
}

/// Returns the location of a fault of the text of a grammar: `Whole` if the whole text is too long
/// or exceeds a limit.
fn locate_fault_of_grammar(fault: &Fault, text: &GrammarText<'_>) -> Location {
    match (offset_of_fault(fault, text), fault) {
        (Some(at), _) => text.location(at),
        (None, Fault::Text(_)) => Location::Whole,
        (None, Fault::Normal(_)) if text.raw.is_some() => Location::Whole,
        _ => Location::InFault,
    }
}

/// Returns whether a device can be read: its length, and its first byte if it has one. The length
/// alone is not enough, since a folder that was opened as a file has a length too.
fn can_read<D: Device>(device: &mut D) -> bool
    ensures content { LeavesContent (D.is_honest device.new)
        (D.content device.old) (D.content device.new) }
    ensures persists { Persists (D.is_honest device.old) (D.is_honest device.new)
        (D.failures device.old) (D.failures device.new) ⊥ }
{
    match device.len() {
        Ok(0) => true,
        Ok(_) => device.read_at(0, &mut [0]).is_ok(),
        Err(_) => false,
    }
}

/// Returns the location of a fault of a sentence. Returns `InFault` for a fault that is not one of
/// a sentence.
fn locate_fault_of_sentence(fault: &Fault, sentence: &Source<'_>) -> Location {
    match fault {
        Fault::Scan(fault) => locate_token(*fault, sentence),
        Fault::Parse(fault) => locate_in_sentence(*fault, sentence),
        _ => Location::InFault,
    }
}

/// Writes what was expected, what was found and what to do, for a fault of the text of a grammar.
/// Writes nothing for any other fault.
fn describe_fault_of_grammar(
    parts: &mut Parts,
    fault: &Fault,
    text: &GrammarText<'_>,
) -> Result<(), AllocError> {
    match fault {
        Fault::Text(fault) => describe_text(parts, *fault, text),
        Fault::Normal(fault) => describe_normal(parts, fault, text),
        Fault::Table(fault) => describe_conflict(parts, *fault, text),
        Fault::Assign(grammar) => describe_stuck(parts, &grammar.stuck, text),
        _ => Ok(()),
    }
}

/// Writes what was expected, what was found and what to do, for a fault of a sentence or of its
/// translation. Writes nothing for any other fault.
fn describe_fault_of_sentence(
    alloc: Global,
    parts: &mut Parts,
    fault: &Fault,
    sentence: &ParsedSentence<'_>,
) -> Result<(), AllocError> {
    match fault {
        Fault::Scan(fault) => describe_scan(parts, *fault, sentence.grammar, &sentence.source),
        Fault::Parse(fault) => describe_parse(alloc, parts, *fault, sentence),
        Fault::NoText(value) => describe_value(alloc, parts, value),
        _ => Ok(()),
    }
}
