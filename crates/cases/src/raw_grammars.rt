//! Answers the question whether a raw grammar with a chain of symbols is accepted. The chain is
//! appended to the raw grammar of a fixed text, so it can be longer than a row's text could spell.

use crate::grammars::{raw_grammar, verdict};
use ag_grammar::{Named, RawGrammar, RawItem, RawProduction, RawSymbol};
use ag_value::{Items, Text};
use normalform::is_readable;
use rows::words::Mistake;
use std::alloc::{AllocError, Global};

/// Returns the name `s` followed by a number.
fn named(alloc: Global, number: u32) -> Result<Named, AllocError> {
    let name = format!(in alloc; "s{number}")?;
    Ok(Named {
        name: Text::from_string(name),
        at: 0,
    })
}

/// Returns the declaration of the symbol whose name is `s` and a number.
fn symbol(alloc: Global, number: u32) -> Result<RawSymbol, AllocError> {
    Ok(RawSymbol {
        name: named(alloc, number)?,
        syn: Items::from_vec(Vec::new(alloc)),
        inh: Items::from_vec(Vec::new(alloc)),
    })
}

/// Returns a right side with the next symbol, or an empty one for the last symbol.
fn items(alloc: Global, number: u32, last: u32) -> Result<Items<RawItem>, Mistake> {
    let mut items = Vec::new(alloc);
    if number < last {
        items.push(RawItem::Name(named(alloc, number.wrapping_add(1))?))?;
    }
    Ok(Items::from_vec(items))
}

/// Returns a production of the symbol whose name is `s` and a number.
fn production(alloc: Global, number: u32, last: u32) -> Result<RawProduction, Mistake> {
    let items = items(alloc, number, last)?;
    Ok(RawProduction {
        left: named(alloc, number)?,
        items,
        rules: Items::from_vec(Vec::new(alloc)),
    })
}

/// Appends the symbols of the chain, of which the last one has number `last`.
fn more_symbols(
    alloc: Global,
    symbols: Items<RawSymbol>,
    last: u32,
) -> Result<Items<RawSymbol>, Mistake> {
    let mut symbols = symbols.into_vec();
    for number in 1..=last {
        symbols.push(symbol(alloc, number)?)?;
    }
    Ok(Items::from_vec(symbols))
}

/// Appends a production for each of `last` symbols.
fn more_productions(
    alloc: Global,
    productions: Items<RawProduction>,
    last: u32,
) -> Result<Items<RawProduction>, Mistake> {
    let mut productions = productions.into_vec();
    for number in 1..=last {
        productions.push(production(alloc, number, last)?)?;
    }
    Ok(Items::from_vec(productions))
}

/// Appends `last` symbols to a raw grammar. Each of them, except the last one, has the next one on
/// its right side.
fn chain(alloc: Global, raw: RawGrammar, last: u32) -> Result<RawGrammar, Mistake> {
    Ok(RawGrammar {
        start: raw.start,
        symbols: more_symbols(alloc, raw.symbols, last)?,
        productions: more_productions(alloc, raw.productions, last)?,
    })
}

/// Checks the grammar of the start symbol S and a chain of `last` symbols. Returns `accepted`, or
/// the first fault. The test `is_readable` is there only for the contract of `verdict`: it accepts
/// each of these grammars.
pub fn chain_answer(alloc: Global, last: u32) -> Result<String, Mistake> {
    let bare = raw_grammar(alloc, "start S; symbol S syn out; S = s1 { $0.out = 0; }")?;
    let raw = chain(alloc, bare, last)?;
    if !is_readable(&raw) {
        return Err(Mistake::Unfit);
    }
    verdict(alloc, raw)
}
