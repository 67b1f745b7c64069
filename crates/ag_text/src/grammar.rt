//! Parses a text as a grammar.

ghost use Rattle.std.specs.Prelude.{◌≡◌, ◌≢◌, IfErr, IfOk};
ghost use Rattle.ag_expr.specs.declared.fault.ExprFault.TheVariants as expr_fault;
ghost use Rattle.ag_text.specs.Answers as answers;
ghost use Rattle.ag_text.specs.Answers.{IsFirstOf, IsRead, IsReadText, IsRefused};
ghost use Rattle.ag_text.specs.Grammar.{ReadsAsGrammar};
ghost use Rattle.ag_text.specs.declared.fault.TextFault.TheVariants as fault;

use crate::fault::TextFault;
use crate::parser::whole_grammar;
use crate::stop::Stop;
use ag_expr::ExprFault;
use ag_grammar::RawGrammar;
use ag_grammar::limits::MAX_TEXT_BYTES;
use ag_tokens::Cursor;
use std::alloc::Global;

/// Returns the number of line feeds among the bytes.
pub fn line_feeds(bytes: &[u8]) -> usize
    ensures { result ≡ answers.line_feeds bytes.now }
{
    let mut count: usize = 0;
    for byte in bytes {
        if *byte == b'\n' {
            count += 1;
        }
    }
    count
}

/// Returns the number, from 1, of the line that contains a byte offset: 1 more than the number of
/// line feeds before the offset. An offset after the end counts as the end.
pub fn line_of(text: &str, at: usize) -> usize
    ensures { result ≡ answers.line_of text.now at }
{
    let bytes = text.as_bytes();
    if at < bytes.len() {
        return 1 + line_feeds(&bytes[..at]);
    }
    1 + line_feeds(bytes)
}

/// Returns the fault of `read_grammar` for a fault of the parser. A `WrongAt` becomes a G2, with
/// the line of its offset in `text`.
fn fault_of_stop(text: &str, stop: Stop) -> TextFault
    ensures { result ≡ answers.fault_of text.now stop }
{
    match stop {
        Stop::WrongAt(at) => TextFault::Unexpected(line_of(text, at), at),
        Stop::InExpr(ExprFault::NoMemory) => TextFault::NoMemory,
        Stop::InExpr(fault) => TextFault::Expr(fault),
        Stop::NoMemory => TextFault::NoMemory,
    }
}

/// Parses the characters of a text as a grammar. Fails with G2 or G3, or with `NoMemory`.
fn read_characters(alloc: Global, text: &str) -> Result<RawGrammar, TextFault>
    ensures { IsReadText text.now result }
{
    let mut cursor = Cursor::new(text);
    match whole_grammar(alloc, &mut cursor) {
        Ok(grammar) => Ok(grammar),
        Err(stop) => Err(fault_of_stop(text, stop)),
    }
}

/// Parses a text as a grammar.
///
/// Fails with G4 if the text has more than 1,048,576 bytes, and otherwise with G1 if it is not
/// UTF-8. Otherwise the fault is at the first token that cannot be accepted, at a character that
/// begins no token, or at the end of the text. It is G3 after the `=` of a rule, up to the next `;`
/// and also at this `;`. If there is no next `;`, it is G3 up to the end of the text, and also
/// there. Elsewhere it is G2, with the line. Fails with `NoMemory` if memory runs out. Every fault
/// but `NoMemory` means that the text is not a grammar.
pub fn read_grammar(alloc: Global, text: &[u8]) -> Result<RawGrammar, TextFault>
    ensures exact { IsRead text.now result }
    ensures first { IfErr result (λ e. IsFirstOf text.now e) }
    ensures reads { IfOk result (λ raw. ReadsAsGrammar text.now raw) }
    ensures refuses { IfErr result (λ e. IsRefused text.now e) }
    ensures never { IfErr result (λ e. e ≢ fault.Expr expr_fault.NoMemory) }
{
    if text.len() > MAX_TEXT_BYTES {
        return Err(TextFault::TooLong);
    }
    match str::from_utf8(text) {
        Ok(characters) => read_characters(alloc, characters),
        Err(fault) => Err(TextFault::BadUtf8(fault.valid_up_to())),
    }
}
