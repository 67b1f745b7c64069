//! The commands `check`, `plan` and `code`, which print counts, passes and instructions of a
//! grammar, and `value`, which prints the value of an expression.

ghost use Rattle.std.specs.Prelude.{IfErr, IfOk, OnOk};
ghost use Rattle.grammar_commands.specs.Listings.{HasValueLine, IsPartFault, IsPartOf, IsRefusedPart};
ghost use Rattle.grammar_commands.specs.Listings.{IsRefusedValue, IsValueFault, PrintsPart, PrintsValue};

use aggen::{Fault, print_code, print_counts, print_plan, show_value};
use command_line::InputPath;
use messages::{FaultReport, Source};
use program_io::Session;
use std::alloc::Global;
use std::rt::Files;
use treefile::MemDevice;

/// What a command prints about a grammar.
#[derive(Clone, Copy)]
pub enum Part {
    /// The numbers of symbols and productions.
    Counts,
    /// The passes.
    Plan,
    /// The instructions of the passes.
    Code,
}

/// Reads a grammar, and prints what `part` selects. Fails if the grammar can't be read or is
/// refused, with O2 if the output fails, and if memory is refused.
pub fn print_part<R: Files + Input + Print>(
    session: &mut Session<'_, R>,
    grammar: InputPath<'_>,
    part: Part,
) -> Result<(), FaultReport>
    ensures printed { OnOk result
        (PrintsPart part grammar.entry session.old.events session.new.events) }
    ensures refused { IfErr result (λ report. IsRefusedPart part grammar.entry session.old.events
        session.new.events report.fault) }
{
    let bytes = session.read(grammar)?;
    let source = Source::new(grammar.name(), bytes.as_slice());
    match text_of_part(session.alloc, source.bytes, part) {
        Ok(text) => session.write(None, text.as_slice()),
        Err(fault) => Err(FaultReport::of_grammar(session.alloc, fault, source)),
    }
}

/// Returns the lines that `part` selects about the grammar in a text. Fails if the grammar or memory
/// is refused.
pub(crate) fn text_of_part(alloc: Global, text: &[u8], part: Part) -> Result<Vec<u8>, Fault>
    ensures lines { IfOk result (λ lines. IsPartOf part text.now lines.items) }
    ensures refused { IfErr result (λ e. IsPartFault part text.now e) }
{
    let mut lines = Vec::new(alloc);
    let printed = match part {
        Part::Counts => print_counts(alloc, text, &mut lines),
        Part::Plan => print_plan(alloc, text, &mut lines),
        Part::Code => print_code(alloc, text, &mut lines),
    };
    match printed {
        Ok(()) => Ok(lines),
        Err(fault) => Err(fault.in_memory()),
    }
}

/// Prints the value of an expression. `show_value` of `aggen` writes the value to a tree file in
/// memory, and prints what it reads back.
///
/// Fails with X1 to X4 if the text is not an expression, with X2 if the expression has occurrences
/// of attributes (`$1.a`), with O2 if the output fails, and if memory is refused.
pub fn print_value<R: Files + Print>(
    session: &mut Session<'_, R>,
    text: &str,
) -> Result<(), FaultReport>
    ensures printed { OnOk result (PrintsValue text.now session.old.events session.new.events) }
    ensures refused { IfErr result (λ report.
        IsRefusedValue text.now session.old.events session.new.events report.fault) }
{
    match line_of_value(session.alloc, text) {
        Ok(line) => session.write(None, line.as_slice()),
        Err(fault) => Err(FaultReport::of_expression(session.alloc, fault, text)),
    }
}

/// Returns the line with the value of an expression. Fails as `print_value` does, but not with O2.
fn line_of_value(alloc: Global, text: &str) -> Result<Vec<u8>, Fault>
    ensures line { IfOk result (λ line. HasValueLine text.now line.items) }
    ensures refused { IfErr result (λ e. IsValueFault text.now e) }
{
    let mut device = MemDevice::new(alloc);
    let mut line = Vec::new(alloc);
    match show_value(alloc, text, &mut device, &mut line) {
        Ok(()) => Ok(line),
        Err(fault) => Err(fault.in_memory()),
    }
}
