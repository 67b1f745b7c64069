//! Lists all faults of a text that is not a grammar.

ghost use Rattle.std.specs.Prelude.{◌≡◌, ◌∷◌, ◌↔◌, [], IfOk, List, map, ℕ};
ghost use Rattle.ag_grammar.specs.declared.raw.RawGrammar.{RawGrammar};
ghost use Rattle.ag_text.specs.Answers as answers;
ghost use Rattle.ag_text.specs.Answers.{AreCharacterFaults, AreFaultsOf};
ghost use Rattle.ag_text.specs.Grammar.{ReadsAsGrammar};
ghost use Rattle.ag_text.specs.Resuming.{stop_offset};

use crate::fault::TextFault;
use crate::grammar::{line_feeds, line_of};
use crate::resuming::{all_faults, offset_of};
use crate::stop::Stop;
use ag_expr::ExprFault;
use ag_grammar::limits::MAX_TEXT_BYTES;
use ag_value::NoMemory;
use std::alloc::Global;

/// Returns the number of the line, from 1, that contains the byte offset `at`. `line` is that of
/// the byte offset `from`. Counts the line feeds between the two offsets, if `at` is not before
/// `from`.
fn line_from(text: &str, from: usize, line: usize, at: usize) -> usize
    requires { line ≡ answers.line_of text.now from }
    ensures { result ≡ answers.line_of text.now at }
{
    let bytes = text.as_bytes();
    if from <= at && at <= bytes.len() {
        return line + line_feeds(&bytes[from..at]);
    }
    line_of(text, at)
}

/// Returns the fault of a text for a fault of the parser whose offset is on this line.
fn fault_on_line(line: usize, stop: Stop) -> TextFault
    ensures { (text : List ℕ) → line ≡ answers.line_of text (stop_offset stop)
        → result ≡ answers.fault_of text stop }
{
    match stop {
        Stop::WrongAt(at) => TextFault::Unexpected(line, at),
        Stop::InExpr(ExprFault::NoMemory) => TextFault::NoMemory,
        Stop::InExpr(fault) => TextFault::Expr(fault),
        Stop::NoMemory => TextFault::NoMemory,
    }
}

/// Returns the faults of a text for faults of the parser. Fails with `NoMemory`.
fn faults_of_stops(alloc: Global, text: &str, stops: &[Stop]) -> Result<Vec<TextFault>, NoMemory>
    ensures { IfOk result (λ faults. faults.items ≡ map (answers.fault_of text.now) stops.now) }
{
    let mut faults = Vec::new(alloc);
    let mut from = 0usize;
    let mut line = 1usize;
    for stop in stops {
        let at = offset_of(*stop);
        line = line_from(text, from, line, at);
        from = at;
        faults.push(fault_on_line(line, *stop))?;
    }
    Ok(faults)
}

/// Returns all faults of the characters of a text: each is G2 or G3. Fails with `NoMemory`.
fn character_faults(alloc: Global, text: &str) -> Result<Vec<TextFault>, NoMemory>
    ensures { IfOk result (λ faults. AreCharacterFaults text.now faults.items) }
{
    let stops = all_faults(alloc, text)?;
    faults_of_stops(alloc, text, stops.as_slice())
}

/// Returns the list of one fault. Fails with `NoMemory`.
fn list_of(alloc: Global, fault: TextFault) -> Result<Vec<TextFault>, NoMemory>
    ensures { IfOk result (λ faults. faults.items ≡ fault ∷ []) }
{
    let mut faults = Vec::new(alloc);
    faults.push(fault)?;
    Ok(faults)
}

/// Returns all faults of a text, in the order in which the parser finds them; none if the text is a
/// grammar. The first is the fault of `read_grammar`. G4 and G1 are the only fault of their text.
///
/// After a G2 or G3 the parser resumes at the next rule or declaration: at the first token that is
/// at the offset of the fault or later, and with which a rule or declaration can begin. A
/// declaration can begin after a `;` or `}`, with `symbol`, or with a name that is not reserved and
/// has a `=` after it. A rule can begin after a `;` or `{`, with an occurrence that has a `=` after
/// it. From a rule on the parser reads rules up to a `}`. Then it reads declarations up to the end
/// of the text; those of symbols and productions may be in any order. If there is no such token,
/// there are no further faults. There are none either after a character that begins no token, and
/// after a token whose number or place is above its limit, since the tokens of the text end there.
/// Fails with `NoMemory` if memory runs out.
pub fn text_faults(alloc: Global, text: &[u8]) -> Result<Vec<TextFault>, NoMemory>
    ensures exact { IfOk result (λ faults. AreFaultsOf text.now faults.items) }
    ensures none { IfOk result (λ faults. (faults.items ≡ [])
        ↔ ((raw : RawGrammar) × ReadsAsGrammar text.now raw)) }
{
    if text.len() > MAX_TEXT_BYTES {
        return list_of(alloc, TextFault::TooLong);
    }
    match str::from_utf8(text) {
        Ok(characters) => character_faults(alloc, characters),
        Err(fault) => list_of(alloc, TextFault::BadUtf8(fault.valid_up_to())),
    }
}
