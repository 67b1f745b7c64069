//! The look-aheads expected at the place where a sentence is refused. Each look-ahead of the
//! grammar is tried there, after the tokens before this place.
ghost use Rattle.std.specs.Prelude.{◌≡◌, ◌≤◌, true, length, All, IfOk, OnOk};
ghost use Rattle.llparse.specs.sentence.Parsing.{right_side};
ghost use Rattle.llparse.specs.table.Tables.{is_known};
ghost use Rattle.llparse.specs.sentence.Turns.{Advances};

use crate::ahead::Ahead;
use crate::sentence::language::Language;
use crate::sentence::parse_fault::ParseFault;
use crate::sentence::parser::{OpenProduction, Parser, new_node, next_item, node_at};
use crate::sentence::tokens::expect;
use crate::table::lookup::Tables;
use crate::table::nodes::Sizes;
use ag_grammar::{Grammar, Item, Terminal};
use ag_scan::{Sentence, Token};
use ag_value::NoMemory;
use std::alloc::Global;

/// Takes the next token as `Parser::take` does, but writes no record and keeps no text. Fails with
/// P1 if there is no token, or if the token's terminal is not `terminal`. Fails with P2 or P3 if
/// `terminal` is a class and a limit is reached.
fn take_unwritten(parser: &mut Parser<'_>, terminal: Terminal) -> Result<(), ParseFault>
    ensures waiting { OnOk result (parser.new.waiting.items ≡ parser.old.waiting.items) }
    ensures count { OnOk result (parser.old.count ≤ parser.new.count) }
{
    expect(&parser.tokens, terminal)?;
    if matches!(terminal, Terminal::Class(_)) {
        parser.has_room()?;
        parser.count += 1;
    }
    parser.tokens.advance();
    Ok(())
}

/// Returns the next item of an open node, and moves the node past it. Returns `None` at the node's
/// end. Also returns `None` if the grammar doesn't have the node's production: tables of another
/// grammar can choose such a production.
fn next_if_any(grammar: &Grammar, node: &mut OpenProduction) -> Option<Item>
    ensures { Advances (right_side grammar.now node.old.production) node.old result node.new }
{
    if (node.production as usize) < grammar.productions().len() {
        return next_item(grammar, node);
    }
    None
}

/// Parses on from the innermost open node, and writes nothing. Stops after taking a token if at
/// least `until` tokens of the sentence are taken by then. Also stops when no node is open. Returns
/// the node that is then the innermost one, if any. Fails as `Parser::open` and `take_unwritten`
/// do. After a fault `parser.tokens` is at the token where the parser stopped.
fn continue_until(
    parser: &mut Parser<'_>,
    innermost: OpenProduction,
    language: &Language<'_>,
    until: usize,
) -> Result<Option<OpenProduction>, ParseFault> {
    let mut node = innermost;
    loop {
        match next_if_any(language.grammar, &mut node) {
            Some(Item::Terminal(terminal)) => {
                take_unwritten(parser, terminal)?;
                if until <= parser.tokens.taken() {
                    return Ok(Some(node));
                }
            }
            Some(Item::Symbol(symbol)) => node = parser.open(language.tables, node, symbol)?,
            None => {
                let Some(outer) = parser.waiting.pop() else {
                    return Ok(None);
                };
                node = outer;
            }
        }
    }
}

/// Opens a node of the start symbol, and parses on as `continue_until` does. Returns the innermost
/// open node, if any. Fails with P1 if the look-ahead predicts no production of the start symbol,
/// and otherwise as `continue_until` does.
fn start_until(
    parser: &mut Parser<'_>,
    language: &Language<'_>,
    until: usize,
) -> Result<Option<OpenProduction>, ParseFault> {
    let start = language.grammar.start();
    let root = new_node(language.tables, &parser.tokens, start, 0)?;
    continue_until(parser, root, language, until)
}

/// Returns whether the look-ahead is this terminal and, if the terminal is a class, the parser has
/// room for a leaf.
fn can_take(parser: &Parser<'_>, terminal: Terminal, ahead: Ahead) -> bool {
    if ahead != Ahead::Terminal(terminal) {
        return false;
    }
    match terminal {
        Terminal::Literal(_) => true,
        Terminal::Class(_) => parser.has_room().is_ok(),
    }
}

/// Returns whether a parser with this innermost open node can accept the look-ahead next. Changes
/// the stack and the count of the parser, but takes no token.
fn can_accept(
    parser: &mut Parser<'_>,
    innermost: OpenProduction,
    language: &Language<'_>,
    ahead: Ahead,
) -> Result<bool, NoMemory> {
    let mut node = innermost;
    loop {
        match next_if_any(language.grammar, &mut node) {
            Some(Item::Terminal(terminal)) => return Ok(can_take(parser, terminal, ahead)),
            Some(Item::Symbol(symbol)) => {
                let Some(inner) = node_at(language.tables, symbol, ahead, 0) else {
                    return Ok(false);
                };
                let Ok(()) = parser.has_room() else {
                    return Ok(false);
                };
                parser.waiting.push(node)?;
                parser.count += 1;
                node = inner;
            }
            None => {
                let Some(outer) = parser.waiting.pop() else {
                    return Ok(ahead == Ahead::End);
                };
                node = outer;
            }
        }
    }
}

/// A parser that has taken the first tokens of a sentence, possibly none, and its innermost open
/// node. If no token is taken, the node is `None`: only the next look-ahead will choose the root's
/// production. Otherwise the node is the one that has the last token taken on its right side. This
/// node may be at its end.
#[derive(Drop)]
struct Position<'t> {
    parser: Parser<'t>,
    innermost: Option<OpenProduction>,
}

/// Returns whether a look-ahead can follow the tokens before a position. Tries it with a second
/// parser that has the position's stack and count. That parser's place in the tokens is not used.
fn can_follow(
    alloc: Global,
    language: &Language<'_>,
    sentence: &Sentence<'_>,
    position: &Position<'_>,
    ahead: Ahead,
) -> Result<bool, NoMemory> {
    let before = &position.parser;
    let mut trial = Parser::new(alloc, sentence);
    trial.waiting = before.waiting.clone()?;
    trial.count = before.count;
    let start = language.grammar.start();
    let node = match position.innermost {
        Some(node) => Some(node),
        None if before.tokens.taken() == 0 => node_at(language.tables, start, ahead, 0),
        // does not happen: after some tokens a position has an open node
        None => return Ok(ahead == Ahead::End),
    };
    match node {
        Some(node) => can_accept(&mut trial, node, language, ahead),
        None => Ok(false),
    }
}

/// Returns all look-aheads that can follow the tokens before a position, in the order of
/// `StuckPlace::expected`.
fn expected_after(
    alloc: Global,
    language: &Language<'_>,
    sentence: &Sentence<'_>,
    position: &Position<'_>,
) -> Result<Vec<Ahead>, NoMemory>
    ensures { IfOk result (λ aheads. All (λ ahead. is_known
        (length language.now.grammar.now.literals) ahead ≡ true) aheads.items) }
{
    let mut expected = Vec::new(alloc);
    let sizes = Sizes::of(language.grammar);
    for index in 0..sizes.aheads() {
        let ahead = sizes.ahead(index);
        if can_follow(alloc, language, sentence, position, ahead)? {
            expected.push(ahead)?;
        }
    }
    Ok(expected)
}

/// The place where `parse` fails with P1. If `parse` doesn't fail with P1, this is the place where
/// the parser stopped (a token, or the end of the sentence), and `expected` is empty.
#[derive(Drop)]
pub struct StuckPlace<'t> {
    /// The number of tokens before the one that can't be taken; the number of all tokens, if the
    /// sentence can't end there.
    pub index: usize,
    /// The token that can't be taken; `None` if the sentence can't end there.
    pub found: Option<Token<'t>>,
    /// The expected look-aheads, in this order: literals in the grammar's order, classes, and then
    /// the end of the sentence.
    pub expected: Vec<Ahead>,
}

/// Runs a parser that takes as many tokens as it can, and writes nothing. Returns the parser, and
/// whether `parse` fails with P1 where this parser stopped: the next token can't be taken, or the
/// sentence can't end. Fails with NoMemory if memory is refused.
fn run_until_stuck<'t>(
    alloc: Global,
    language: &Language<'_>,
    sentence: &'t Sentence<'_>,
) -> Result<(Parser<'t>, bool), NoMemory> {
    let mut parser = Parser::new(alloc, sentence);
    // no sentence has `usize::MAX` tokens, so this parser stops only at a fault, or when the tree
    // is complete
    let refused = match start_until(&mut parser, language, usize::MAX) {
        Ok(_) => parser.tokens.ahead().is_some(),
        Err(ParseFault::Unexpected(_)) => true,
        Err(ParseFault::NoMemory) => return Err(NoMemory::NoMemory),
        Err(_) => false,
    };
    Ok((parser, refused))
}

/// Returns the position after the first `count` tokens, without looking at the next one. Fails as
/// `start_until` does.
fn position_after<'t>(
    alloc: Global,
    language: &Language<'_>,
    sentence: &'t Sentence<'_>,
    count: usize,
) -> Result<Position<'t>, ParseFault> {
    let mut parser = Parser::new(alloc, sentence);
    if count == 0 {
        return Ok(Position {
            parser,
            innermost: None,
        });
    }
    let innermost = start_until(&mut parser, language, count)?;
    Ok(Position { parser, innermost })
}

/// Returns the place where `parse` refuses this sentence with P1, and the look-aheads expected
/// there. (`parse` means here a call that doesn't fail with D1 or NoMemory.) Each look-ahead is
/// tried after the tokens before that place, with all nodes that are open there. So a look-ahead
/// that the tables allow only in other contexts is not returned.
///
/// If `parse` doesn't fail with P1, no look-ahead is returned. The place is then where the parser
/// stopped: at the end, or where it reached a limit.
///
/// The contract says only that the look-aheads are literals of the grammar, classes or the end. The
/// rest is tested.
///
/// If the tables are not the grammar's, the result is the place where a parse by them is stuck, and
/// what they allow there. Reads the tokens before the place twice, and copies the stack of open
/// nodes there for each look-ahead of the grammar. Takes memory for three stacks of open nodes like
/// the one of `parse` (without texts), and for the result. Fails with NoMemory if memory is
/// refused.
pub fn expected_at<'t>(
    alloc: Global,
    grammar: &Grammar,
    tables: &Tables,
    sentence: &'t Sentence<'_>,
) -> Result<StuckPlace<'t>, NoMemory>
    ensures known { IfOk result (λ stuck. All
        (λ ahead. is_known (length grammar.now.literals) ahead ≡ true) stuck.expected.items) }
{
    let expected = Vec::new(alloc);
    let language = Language { grammar, tables };
    let (parser, refused) = run_until_stuck(alloc, &language, sentence)?;
    let index = parser.tokens.taken();
    let found = parser.tokens.ahead();
    if !refused {
        return Ok(StuckPlace {
            index,
            found,
            expected,
        });
    }
    let position = match position_after(alloc, &language, sentence, index) {
        Ok(position) => position,
        Err(ParseFault::NoMemory) => return Err(NoMemory::NoMemory),
        // does not happen: the first run took the same tokens without a fault
        Err(_) => {
            return Ok(StuckPlace {
                index,
                found,
                expected,
            });
        }
    };
    Ok(StuckPlace {
        index,
        found,
        expected: expected_after(alloc, &language, sentence, &position)?,
    })
}
