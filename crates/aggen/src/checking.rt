//! Reading and checking a grammar's text, and printing the counts of the grammar.

ghost use Rattle.std.specs.Prelude.{◌≡◌, ◌≢◌, IfErr, IfOk, IsErrOf, OnOk};
ghost use Rattle.aggen.specs.Building.{IsGrammarFault};
ghost use Rattle.aggen.specs.Checking.{BeginsCounts, IsCheckFault, IsGrammarOf, PrintsCounts};

use ag_fault::{BuildFault, Fault};
use ag_grammar::Grammar;
use ag_text::read_grammar;
use agoutput::{counts_line, write_text};
use normalform::check;
use std::alloc::Global;
use std::io::Write;

/// Reads and checks a grammar's text, and writes a line with its numbers of symbols and
/// productions, such as `5 symbols, 8 productions`.
///
/// Fails with G1 to G4, N1 to N10 or NoMemory as `grammar_of` does, and with O2 Write if a write
/// fails or takes no byte. Nothing is written before the line is complete.
pub fn print_counts<W: Write>(alloc: Global, text: &[u8], out: &mut W) -> Result<(), Fault>
    ensures prints { OnOk result
        (PrintsCounts text.now (W.contents out.old) (W.contents out.new)) }
    ensures refused { IfErr result (λ e. e ≢ Fault.Write → IsCheckFault text.now e) }
    ensures kept { IfErr result (λ e. e ≢ Fault.Write → out.new ≡ out.old) }
    ensures write { IsErrOf result Fault.Write →
        BeginsCounts text.now (W.contents out.old) (W.contents out.new) }
{
    let grammar = grammar_of(alloc, text)?;
    let line = counts_line(alloc, &grammar)?;
    write_text(out, line.as_str())?;
    Ok(())
}

/// Reads and checks the grammar of a text. Fails with G1 to G4 if the text does not read as a
/// grammar, with the first fault of N1 to N10 if the grammar is not accepted, and with NoMemory if
/// memory is refused.
#[tactic(auto, using(crate::proofs::FromTexts::texts_are_readable))]
pub fn grammar_of(alloc: Global, text: &[u8]) -> Result<Grammar, BuildFault>
    ensures grammar { IfOk result (λ g. IsGrammarOf text.now g) }
    ensures refused { IfErr result (λ e. IsGrammarFault text.now e) }
{
    let raw = read_grammar(alloc, text)?;
    Ok(check(alloc, raw)?)
}
