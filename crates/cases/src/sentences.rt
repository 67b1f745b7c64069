//! Answers questions about sentences, their trees, and the parse tables.

ghost use Rattle.std.specs.Prelude.{IfOk};
ghost use Rattle.ag_scan.specs.Tokens.{FitAll};
ghost use Rattle.ag_scan.specs.Words.{vocabulary_of};
ghost use Rattle.llparse.specs.table.Tables.{FitsGrammar};

use ag_grammar::{Grammar, Terminal};
use ag_scan::{Sentence, Token, scan};
use llparse::{Ahead, ParseFault, Tables, expected_at, parse, tables};
use rows::words::{Mistake, first_word, number, printed, short_number, shown_tree_file};
use std::alloc::{AllocError, Global};
use treefile::{Device, FuseDevice, MemDevice, Writer};

/// Returns `no conflict`, or the least conflict of a grammar's tables.
pub fn table_answer(alloc: Global, grammar: &Grammar) -> Result<String, Mistake> {
    match tables(alloc, grammar) {
        Ok(_) => Ok(String::from_str(alloc, "no conflict")?),
        Err(fault) => printed(alloc, &fault),
    }
}

/// Returns the tables of a grammar. Fails with `Unfit` if it has a conflict.
fn tables_of(alloc: Global, grammar: &Grammar) -> Result<Tables, Mistake>
    ensures { IfOk result (λ tables. FitsGrammar grammar.now tables) }
{
    match tables(alloc, grammar) {
        Ok(tables) => Ok(tables),
        Err(_) => Err(Mistake::Unfit),
    }
}

/// Returns the terminal of a word and a number. Fails with `Misspelt` if the word is neither
/// `literal` nor `class`.
fn terminal(word: &str, number: &str) -> Result<Terminal, Mistake> {
    match word {
        "literal" => Ok(Terminal::Literal(short_number(number)?)),
        "class" => Ok(Terminal::Class(short_number(number)?)),
        _ => Err(Mistake::Misspelt),
    }
}

/// Returns the look-ahead that a text names: a terminal, or `end`.
fn ahead(text: &str) -> Result<Ahead, Mistake> {
    if text == "end" {
        return Ok(Ahead::End);
    }
    let (word, number) = first_word(text);
    Ok(Ahead::Terminal(terminal(word, number)?))
}

/// Returns the production that the tables predict for a symbol and a look-ahead.
pub fn choice_answer(alloc: Global, grammar: &Grammar, spelled: &str) -> Result<String, Mistake> {
    let (symbol, rest) = first_word(spelled);
    let symbol = short_number(symbol)?;
    let ahead = ahead(rest)?;
    let tables = tables_of(alloc, grammar)?;
    printed(alloc, &tables.choice(symbol, ahead))
}

/// Returns the tokens of a sentence, or the scanner's fault.
pub fn scan_answer(alloc: Global, grammar: &Grammar, sentence: &[u8]) -> Result<String, Mistake> {
    match scan(alloc, grammar, sentence) {
        Ok(sentence) => Ok(shown(alloc, &sentence)?),
        Err(fault) => printed(alloc, &fault),
    }
}

/// Returns the number of tokens, and the kind, the text and the offset in bytes of each.
fn shown(alloc: Global, sentence: &Sentence<'_>) -> Result<String, AllocError> {
    let mut answer = String::new(alloc);
    let mut tokens = sentence.tokens();
    while let Some(token) = tokens.ahead() {
        show_token(&mut answer, token)?;
        tokens.advance();
    }
    format!(in alloc; "{} tokens{answer}", tokens.taken())
}

/// The greatest length in bytes of a token's text that is printed.
const MAX_PRINTED: usize = 40;

/// Writes the kind, the text and the offset in bytes of a token.
fn show_token(answer: &mut String, token: Token<'_>) -> Result<(), AllocError> {
    let (kind, number) = match token.kind {
        Terminal::Literal(number) => ("literal", number),
        Terminal::Class(number) => ("class", number),
    };
    write!(answer, "; {kind} {number} ")?;
    show_lex(answer, token.lex)?;
    write!(answer, " at {}", token.at)
}

/// Writes the text of a token, or its length in bytes if it has more than `MAX_PRINTED`.
fn show_lex(answer: &mut String, lex: &str) -> Result<(), AllocError> {
    if lex.len() > MAX_PRINTED {
        return write!(answer, "of {} bytes", lex.len());
    }
    write!(answer, "[{lex}]")
}

/// Scans a sentence. Fails with `Unfit` if it is rejected.
fn tokens_of<'s>(
    alloc: Global,
    grammar: &'s Grammar,
    sentence: &'s str,
) -> Result<Sentence<'s>, Mistake>
    ensures { IfOk result (λ tokens. FitAll (vocabulary_of grammar.now) tokens) }
{
    match scan(alloc, grammar, sentence.as_bytes()) {
        Ok(tokens) => Ok(tokens),
        Err(_) => Err(Mistake::Unfit),
    }
}

/// Parses tokens and writes the tree's file onto a device. Returns the number of nodes in the file,
/// or the fault.
fn parse_tokens<D: Device>(
    alloc: Global,
    grammar: &Grammar,
    tables: &Tables,
    tokens: &Sentence<'_>,
    device: &mut D,
) -> Result<u32, ParseFault>
    requires tables { FitsGrammar grammar.now tables.now }
    requires tokens { FitAll (vocabulary_of grammar.now) tokens.now }
{
    let mut writer = Writer::begin(alloc, device, 0)?;
    parse(alloc, grammar, tables, tokens, device, &mut writer)
}

/// Scans and parses a sentence and writes the tree's file onto a device. Returns the number of
/// nodes in the file, or the parser's fault.
fn parse_sentence(
    alloc: Global,
    grammar: &Grammar,
    sentence: &str,
    device: &mut MemDevice,
) -> Result<Result<u32, ParseFault>, Mistake> {
    let tokens = tokens_of(alloc, grammar, sentence)?;
    let tables = tables_of(alloc, grammar)?;
    Ok(parse_tokens(alloc, grammar, &tables, &tokens, device))
}

/// Returns the number of nodes in the tree's file of a sentence, and this file, or the parser's
/// fault.
pub fn parse_answer(alloc: Global, grammar: &Grammar, sentence: &str) -> Result<String, Mistake> {
    let mut device = MemDevice::new(alloc);
    match parse_sentence(alloc, grammar, sentence, &mut device)? {
        Ok(count) => shown_tree_file(alloc, count, device.bytes()),
        Err(fault) => Ok(fault.to_string(alloc)?),
    }
}

/// Parses a sentence onto a device of which one call fails. The row's first word is the number of
/// this call, from 1. Returns the result and the number of bytes on the device.
pub fn parse_failing_answer(
    alloc: Global,
    grammar: &Grammar,
    spelled: &str,
) -> Result<String, Mistake> {
    let (call, sentence) = first_word(spelled);
    let mut device = FuseDevice::new(MemDevice::new(alloc), number(call)? as u64);
    let tokens = tokens_of(alloc, grammar, sentence)?;
    let tables = tables_of(alloc, grammar)?;
    let parsed = parse_tokens(alloc, grammar, &tables, &tokens, &mut device);
    Ok(format!(in alloc; "{parsed:?} {}", device.inner().bytes().len())?)
}

/// Returns a device with the tree's file of a sentence. Fails with `Unfit` if the parser rejects
/// the sentence.
pub fn tree_of(alloc: Global, grammar: &Grammar, sentence: &str) -> Result<MemDevice, Mistake> {
    let mut device = MemDevice::new(alloc);
    match parse_sentence(alloc, grammar, sentence, &mut device)? {
        Ok(_) => Ok(device),
        Err(_) => Err(Mistake::Unfit),
    }
}

/// Returns the number of tokens before the place at which the parser stops, and what is expected
/// there. If `parse` doesn't fail with P1 (an unexpected token), nothing is expected.
pub fn stand_answer(alloc: Global, grammar: &Grammar, sentence: &str) -> Result<String, Mistake> {
    let tokens = tokens_of(alloc, grammar, sentence)?;
    let tables = tables_of(alloc, grammar)?;
    stuck_place_answer(alloc, grammar, &tables, &tokens)
}

/// Returns the number of tokens before the place at which a parse stops, and what is expected
/// there.
fn stuck_place_answer(
    alloc: Global,
    grammar: &Grammar,
    tables: &Tables,
    tokens: &Sentence<'_>,
) -> Result<String, Mistake> {
    let stuck = expected_at(alloc, grammar, tables, tokens)?;
    Ok(format!(in alloc; "{} {:?}", stuck.index, stuck.expected)?)
}
