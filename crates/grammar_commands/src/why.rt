//! The command that explains why a grammar needs its passes: `why`.

ghost use Rattle.std.specs.Prelude.{◌≡◌, IfErr, IfOk, IsErr, None, is_ok, string_bytes};
ghost use Rattle.program_io.specs.Sessions.{after};
ghost use Rattle.run_record.specs.Events.{write_event};

use ag_grammar::Grammar;
use ag_value::NoMemory;
use aggen::{BuildFault, CertifiedPlan, Fault, StuckGrammar, certify_plan};
use command_line::WhyWords;
use messages::{FaultReport, Source};
use plan_reasons::{Attribute, Explanation, LeastPlan, NameFault, attribute_named};
use program_io::Session;
use std::alloc::Global;
use std::rt::Files;

/// Prints why a grammar needs its passes or, if an attribute is named, why no pass earlier than the
/// attribute's pass can compute it. If no assignment of passes is legal, prints why, and fails with
/// A1.
///
/// Also fails if the grammar can't be read or is refused, if it does not have the attribute
/// (`usage`), if the output fails (O2), and if memory is refused.
pub fn explain_plan<R: Files + Input + Print>(
    session: &mut Session<'_, R>,
    words: WhyWords<'_>,
) -> Result<(), FaultReport> {
    let alloc = session.alloc;
    let bytes = session.read(words.grammar)?;
    let source = Source::new(words.grammar.name(), bytes.as_slice());
    match certify_plan(alloc, source.bytes) {
        Ok(plan) => {
            let attribute = find_attribute(alloc, &plan.grammar, words.attribute)?;
            print_text(session, text_of_plan(alloc, source, &plan, attribute))
        }
        Err(BuildFault::Assign(stuck)) => {
            let attribute = find_attribute(alloc, &stuck.grammar, words.attribute)?;
            print_text(session, text_of_stuck(alloc, source, &stuck, attribute))?;
            Err(FaultReport::of_grammar(alloc, Fault::Assign(stuck), source))
        }
        Err(fault) => Err(FaultReport::of_grammar(alloc, Fault::from(fault), source)),
    }
}

/// Returns the attribute of a name; `None` if `name` is `None`. Fails with `Fault::Usage` if no
/// attribute has the name.
fn find_attribute(
    alloc: Global,
    grammar: &Grammar,
    name: Option<&str>,
) -> Result<Option<Attribute>, FaultReport> {
    let Some(name) = name else {
        return Ok(None);
    };
    match attribute_named(grammar, name) {
        Ok(attribute) => Ok(Some(attribute)),
        Err(fault) => Err(report_of_name(alloc, grammar, fault, name)),
    }
}

/// Returns the report of a text that is not the name of an attribute.
fn report_of_name(
    alloc: Global,
    grammar: &Grammar,
    fault: NameFault<'_>,
    name: &str,
) -> FaultReport {
    let mut report = FaultReport::new(alloc, Fault::Usage);
    let written = fault.describe(&mut report.parts, grammar, name);
    report.or_bare(written)
}

/// Returns the explanation of a plan or, if an attribute is given, of the pass of this attribute.
fn text_of_plan(
    alloc: Global,
    source: Source<'_>,
    plan: &CertifiedPlan,
    attribute: Option<Attribute>,
) -> Result<String, NoMemory> {
    let explanation = Explanation::new(alloc, source, &plan.grammar)?;
    let least = LeastPlan {
        assignment: &plan.assignment,
        strikes: &plan.strikes,
    };
    let mut text = String::new(alloc);
    match attribute {
        Some(attribute) => explanation.write_attribute(&mut text, &least, attribute)?,
        None => explanation.write_plan(&mut text, &least)?,
    }
    Ok(text)
}

/// Returns why no pass computes some attributes of a grammar or, if an attribute is given, why no
/// pass computes this one. If the given attribute is not in `stuck.stuck.set`, the attributes that
/// no pass can compute, the text says so.
fn text_of_stuck(
    alloc: Global,
    source: Source<'_>,
    stuck: &StuckGrammar,
    attribute: Option<Attribute>,
) -> Result<String, NoMemory> {
    let explanation = Explanation::new(alloc, source, &stuck.grammar)?;
    let mut text = String::new(alloc);
    match attribute {
        Some(attribute) => explanation.write_stuck_attribute(&mut text, &stuck.stuck, attribute)?,
        None => explanation.write_stuck(&mut text, &stuck.stuck)?,
    }
    Ok(text)
}

/// Prints a text. Fails with NoMemory if making the text failed, and as `Session::write` does.
fn print_text<R: Files + Print>(
    session: &mut Session<'_, R>,
    text: Result<String, NoMemory>,
) -> Result<(), FaultReport>
    ensures written { IfOk text (λ t. session.new
        ≡ after (write_event (is_ok result) None (string_bytes t)) session.old) }
    ensures memory { IsErr text → (session.new ≡ session.old)
        × IfErr result (λ report. report.fault ≡ Fault.NoMemory) × IsErr result }
{
    match text {
        Ok(text) => session.write(None, text.as_bytes()),
        Err(_) => Err(FaultReport::new(session.alloc, Fault::NoMemory)),
    }
}
