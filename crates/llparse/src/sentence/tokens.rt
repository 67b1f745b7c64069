//! The next token of a sentence.
ghost use Rattle.std.specs.Prelude.{◌≡◌, ◌≢◌, ◌∷◌, ◌+◌, ◌<◌, ◌↔◌, drop, length, IfErr, IfOk};
ghost use Rattle.std.specs.Prelude.{IsTrue};
ghost use Rattle.ag_scan.specs.TokenReader.{offset_at};
ghost use Rattle.ag_scan.specs.Tokens.{FitAll, IsTokenOf};
ghost use Rattle.ag_scan.specs.Words.{Vocabulary};
ghost use Rattle.llparse.specs.Ahead.{ahead_of};
ghost use Rattle.llparse.specs.sentence.Sentences.{words_of};
ghost use Rattle.llparse.specs.declared.ahead.Ahead.TheVariants as look;

use crate::ahead::Ahead;
use crate::sentence::parse_fault::ParseFault;
use ag_grammar::Terminal;
use ag_scan::Tokens;

/// Returns the look-ahead: the terminal of the next token, or the end.
#[inline(always)]
pub(crate) fn next_of(tokens: &Tokens<'_>) -> Ahead
    ensures { result ≡ ahead_of (drop tokens.now.taken (words_of tokens.now.list)) }
{
    match tokens.ahead() {
        Some(token) => Ahead::Terminal(token.kind),
        None => Ahead::End,
    }
}

/// Returns the fault P1 at the next token, or at the end.
#[cold]
pub(crate) fn unexpected(tokens: &Tokens<'_>) -> ParseFault
    ensures { result ≡ ParseFault.Unexpected (offset_at tokens.now.list tokens.now.taken) }
{
    ParseFault::Unexpected(tokens.at())
}

/// Returns whether two terminals are the same.
#[inline(always)]
fn same(a: Terminal, b: Terminal) -> bool
    ensures { IsTrue result ↔ (a ≡ b) }
{
    match (a, b) {
        (Terminal::Literal(l), Terminal::Literal(m)) => l == m,
        (Terminal::Class(c), Terminal::Class(d)) => c == d,
        _ => false,
    }
}

/// Returns the text of the next token, if its terminal is `kind`. Fails with P1 otherwise.
#[inline(always)]
pub(crate) fn expect<'t>(tokens: &Tokens<'t>, kind: Terminal) -> Result<&'t str, ParseFault>
    ensures taken { IfOk result (λ lex. drop tokens.now.taken (words_of tokens.now.list)
        ≡ (kind, lex.now) ∷ drop (tokens.now.taken + 1) (words_of tokens.now.list)) }
    ensures within { IfOk result (λ _. tokens.now.taken < length tokens.now.list) }
    ensures fits { IfOk result (λ lex. (v : Vocabulary) → FitAll v tokens.now.list
        → IsTokenOf v kind lex.now) }
    ensures offset { IfErr result (λ e.
        e ≡ ParseFault.Unexpected (offset_at tokens.now.list tokens.now.taken)) }
    ensures other { IfErr result (λ _. ahead_of (drop tokens.now.taken
        (words_of tokens.now.list)) ≢ look.Terminal kind) }
{
    let Some(token) = tokens.ahead() else {
        return Err(unexpected(tokens));
    };
    if !same(token.kind, kind) {
        return Err(unexpected(tokens));
    }
    Ok(token.lex)
}
