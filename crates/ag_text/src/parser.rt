//! The parser of grammars, which follows the productions of the syntax in LANGUAGE.md. The parsing
//! functions fail with `Stop::WrongAt` at the first token that cannot be accepted, with
//! `Stop::InExpr` if an expression has a fault, and with `Stop::NoMemory` if memory runs out.

ghost use Rattle.std.specs.Prelude.{◌≡◌, [], Bool, codes};
ghost use Rattle.ag_tokens.specs.Parsing.{sees};
ghost use Rattle.ag_tokens.specs.declared.token.Punctuation.TheVariants as punctuation;
ghost use Rattle.ag_expr.proofs.reading.Steady.{Shortens};
ghost use Rattle.ag_text.specs.ParserContract.{Reads};
ghost use Rattle.ag_text.specs.Reading as reading;
ghost use Rattle.ag_text.specs.Resuming as resuming;
ghost use Rattle.ag_text.specs.Meanings as meanings;

use crate::declaration::Declaration;
use crate::reader::ended_expr;
use crate::stop::Stop;
use crate::tokens::{
    expect, expect_end, expect_word, item, name, sees_any, sees_mark, sees_occurrence, sees_other,
    sees_word, target,
};
use ag_grammar::{Named, RawGrammar, RawItem, RawProduction, RawRule, RawSymbol};
use ag_tokens::{Cursor, Punctuation};
use ag_value::Items;
use std::alloc::Global;

/// Parses a comma and a name.
#[tactic(auto, unfolding(crate::specs::Reading::next_name_from))]
fn next_name(alloc: Global, cursor: &mut Cursor<'_>) -> Result<Named, Stop>
    ensures { Reads reading.next_name_from cursor.old result cursor.new }
{
    expect(cursor, Punctuation::Comma)?;
    name(alloc, cursor)
}

/// Parses names separated by commas.
#[tactic(auto, using(crate::proofs::Turns::looped, crate::proofs::Grammars::next_name_shortens), unfolding(crate::specs::Reading::names_from))]
fn names(alloc: Global, cursor: &mut Cursor<'_>) -> Result<Items<Named>, Stop>
    ensures { Reads reading.names_from cursor.old result cursor.new }
{
    let mut names = Vec::new(alloc);
    let first = name(alloc, cursor)?;
    names.push(first)?;
    while sees_mark(cursor, Punctuation::Comma) {
        let further = next_name(alloc, cursor)?;
        names.push(further)?;
    }
    Ok(Items::from_vec(names))
}

/// Parses the reserved name `word` (`syn` or `inh`) and the names after it. Returns no names if the
/// next token is not `word`.
#[tactic(auto, unfolding(crate::specs::Reading::attributes_from, crate::specs::Reading::section_from))]
fn attributes(alloc: Global, cursor: &mut Cursor<'_>, word: &str) -> Result<Items<Named>, Stop>
    ensures { Reads (reading.attributes_from word.now) cursor.old result cursor.new }
{
    if !sees_word(cursor, word) {
        return Ok(Items::from_vec(Vec::new(alloc)));
    }
    expect_word(cursor, word)?;
    names(alloc, cursor)
}

/// A part of a grammar's text that may be repeated any number of times.
trait Repeated: Sized {
    ghost use Rattle.ag_text.specs.Reading.{Parser};
    ghost use Rattle.ag_tokens.specs.GrammarToken.{GrammarToken};

    /// A test: the token begins another part.
    ghost begins: { GrammarToken → Bool };

    /// The specification's parser of one part.
    ghost part: { Parser Self };

    /// Returns whether the next token begins another part.
    fn occurs(cursor: &Cursor<'_>) -> bool
        ensures { result ≡ sees begins cursor.now };

    /// Parses one part.
    fn parse(alloc: Global, cursor: &mut Cursor<'_>) -> Result<Self, Stop>
        ensures { Reads part cursor.old result cursor.new };
}

/// Parses parts as long as the next token begins another one.
#[tactic(auto, using(crate::proofs::Turns::looped))]
fn parts<P: Repeated + Drop>(alloc: Global, cursor: &mut Cursor<'_>) -> Result<Items<P>, Stop>
    // each part has at least one token, so the loop ends
    requires { Shortens P.part }
    ensures { Reads (reading.many P.begins P.part []) cursor.old result cursor.new }
{
    let mut parts = Vec::new(alloc);
    while P::occurs(cursor) {
        let part = P::parse(alloc, cursor)?;
        parts.push(part)?;
    }
    Ok(Items::from_vec(parts))
}

/// The declaration of a symbol.
impl Repeated for RawSymbol {
    ghost begins = { meanings.is_word (codes "symbol") };

    ghost part = { reading.symbol_from };

    fn occurs(cursor: &Cursor<'_>) -> bool {
        sees_word(cursor, "symbol")
    }

    #[tactic(auto, unfolding(crate::specs::Reading::symbol_from))]
    fn parse(alloc: Global, cursor: &mut Cursor<'_>) -> Result<RawSymbol, Stop> {
        expect_word(cursor, "symbol")?;
        let name = name(alloc, cursor)?;
        let syn = attributes(alloc, cursor, "syn")?;
        let inh = attributes(alloc, cursor, "inh")?;
        expect(cursor, Punctuation::Semicolon)?;
        Ok(RawSymbol { name, syn, inh })
    }
}

/// An item of the right side of a production; a `{` ends the items.
impl Repeated for RawItem {
    ghost begins = { reading.is_other_than punctuation.OpenTable };

    ghost part = { reading.one_from meanings.item_in };

    fn occurs(cursor: &Cursor<'_>) -> bool {
        sees_other(cursor, Punctuation::OpenTable)
    }

    fn parse(alloc: Global, cursor: &mut Cursor<'_>) -> Result<RawItem, Stop> {
        item(alloc, cursor)
    }
}

/// A rule of a production; a `}` ends the rules.
impl Repeated for RawRule {
    ghost begins = { reading.is_other_than punctuation.CloseTable };

    ghost part = { reading.rule_from };

    fn occurs(cursor: &Cursor<'_>) -> bool {
        sees_other(cursor, Punctuation::CloseTable)
    }

    #[tactic(auto, unfolding(crate::specs::Reading::rule_from))]
    fn parse(alloc: Global, cursor: &mut Cursor<'_>) -> Result<RawRule, Stop> {
        let target = target(alloc, cursor)?;
        expect(cursor, Punctuation::Equal)?;
        let expr = ended_expr(alloc, cursor)?;
        Ok(RawRule { target, expr })
    }
}

/// A production; only the end of the tokens ends the productions.
impl Repeated for RawProduction {
    ghost begins = { reading.is_any };

    ghost part = { reading.production_from };

    fn occurs(cursor: &Cursor<'_>) -> bool {
        sees_any(cursor)
    }

    #[tactic(auto, using(crate::proofs::Grammars::item_shortens, crate::proofs::Grammars::rule_shortens), unfolding(crate::specs::Reading::production_from))]
    fn parse(alloc: Global, cursor: &mut Cursor<'_>) -> Result<RawProduction, Stop> {
        let left = name(alloc, cursor)?;
        expect(cursor, Punctuation::Equal)?;
        let items = parts(alloc, cursor)?;
        expect(cursor, Punctuation::OpenTable)?;
        let rules = parts(alloc, cursor)?;
        expect(cursor, Punctuation::CloseTable)?;
        Ok(RawProduction { left, items, rules })
    }
}

/// Parses a grammar.
#[tactic(auto, using(crate::proofs::Grammars::symbol_shortens, crate::proofs::Grammars::production_shortens), unfolding(crate::specs::Reading::grammar_from))]
fn grammar(alloc: Global, cursor: &mut Cursor<'_>) -> Result<RawGrammar, Stop>
    ensures { Reads reading.grammar_from cursor.old result cursor.new }
{
    expect_word(cursor, "start")?;
    let start = name(alloc, cursor)?;
    expect(cursor, Punctuation::Semicolon)?;
    let symbols = parts(alloc, cursor)?;
    let productions = parts(alloc, cursor)?;
    Ok(RawGrammar {
        start,
        symbols,
        productions,
    })
}

/// Parses a grammar and the end of its text.
#[tactic(auto, unfolding(crate::specs::Reading::grammar_of))]
pub fn whole_grammar(alloc: Global, cursor: &mut Cursor<'_>) -> Result<RawGrammar, Stop>
    ensures { Reads reading.grammar_of cursor.old result cursor.new }
{
    let grammar = grammar(alloc, cursor)?;
    expect_end(cursor)?;
    Ok(grammar)
}

/// A declaration of either kind; only the end of the tokens ends the declarations.
impl Repeated for Declaration {
    ghost begins = { reading.is_any };

    ghost part = { resuming.declaration_from };

    fn occurs(cursor: &Cursor<'_>) -> bool {
        sees_any(cursor)
    }

    #[tactic(auto, unfolding(crate::specs::Resuming::declaration_from))]
    fn parse(alloc: Global, cursor: &mut Cursor<'_>) -> Result<Declaration, Stop> {
        if sees_word(cursor, "symbol") {
            let symbol = RawSymbol::parse(alloc, cursor)?;
            return Ok(Declaration::Symbol(symbol));
        }
        let production = RawProduction::parse(alloc, cursor)?;
        Ok(Declaration::Production(production))
    }
}

/// Parses rules and the `}` after them.
#[tactic(auto, using(crate::proofs::Grammars::rule_shortens), unfolding(crate::specs::Resuming::rules_end_from))]
fn rules_end(alloc: Global, cursor: &mut Cursor<'_>) -> Result<(), Stop>
    ensures { Reads resuming.rules_end_from cursor.old result cursor.new }
{
    let _rules: Items<RawRule> = parts(alloc, cursor)?;
    expect(cursor, Punctuation::CloseTable)
}

/// Parses the rest of a production, with its `}`, if a rule comes next. Otherwise reads nothing.
#[tactic(auto, unfolding(crate::specs::Resuming::open_rules_from))]
fn open_rules(alloc: Global, cursor: &mut Cursor<'_>) -> Result<(), Stop>
    ensures { Reads resuming.open_rules_from cursor.old result cursor.new }
{
    if sees_occurrence(cursor) {
        return rules_end(alloc, cursor);
    }
    Ok(())
}

/// Parses the rest of a text from a rule or declaration on: after a rule, the rest of its
/// production; then declarations in any order, and the end of the text.
#[tactic(auto, using(crate::proofs::Declarations::declaration_shortens), unfolding(crate::specs::Resuming::rest_from))]
pub fn rest_of_text(alloc: Global, cursor: &mut Cursor<'_>) -> Result<(), Stop>
    ensures { Reads resuming.rest_from cursor.old result cursor.new }
{
    open_rules(alloc, cursor)?;
    let _declarations: Items<Declaration> = parts(alloc, cursor)?;
    expect_end(cursor)
}
