//! The unproductive symbols of a grammar. Messages say that they never end: no sentence can be
//! built from them.

use ag_grammar::{RawGrammar, RawItem, RawProduction};
use ag_value::NoMemory;
use std::alloc::Global;
use std::collections::HashSet;

/// The greatest number of rounds over all productions. Each round finds symbols that end. The limit
/// bounds the time for a message. If it is reached, the message names only one symbol.
const MAX_ROUNDS: usize = 64;

/// Returns the names of the symbols that never end, in declared order. None if the last of
/// `MAX_ROUNDS` rounds still finds a symbol that ends. Takes memory.
pub fn endless_symbols<'a>(
    alloc: Global,
    raw: &'a RawGrammar,
) -> Result<Option<Vec<&'a str>>, NoMemory> {
    let mut ending = HashSet::new(alloc);
    for _ in 0..MAX_ROUNDS {
        if !add_ending(raw, &mut ending)? {
            return Ok(Some(symbols_besides(alloc, raw, &ending)?));
        }
    }
    Ok(None)
}

/// Adds each symbol to `ending` that has a production whose symbols are all in `ending`. Returns
/// whether one was added.
fn add_ending<'a>(raw: &'a RawGrammar, ending: &mut HashSet<&'a str>) -> Result<bool, NoMemory> {
    let mut is_new = false;
    for production in raw.productions.as_slice() {
        let left = production.left.name.as_str();
        if !ending.contains(left) && is_ending(production, ending) {
            ending.insert(left)?;
            is_new = true;
        }
    }
    Ok(is_new)
}

/// Returns whether each symbol on the right side of a production is known to end.
fn is_ending(production: &RawProduction, ending: &HashSet<&str>) -> bool {
    for item in production.items.as_slice() {
        match item {
            RawItem::Name(name) if !ending.contains(name.name.as_str()) => return false,
            _ => {}
        }
    }
    true
}

/// Returns the names of the symbols that are not in `ending`, in declared order.
fn symbols_besides<'a>(
    alloc: Global,
    raw: &'a RawGrammar,
    ending: &HashSet<&'a str>,
) -> Result<Vec<&'a str>, NoMemory> {
    let mut names = Vec::new(alloc);
    for symbol in raw.symbols.as_slice() {
        let name = symbol.name.name.as_str();
        if !ending.contains(name) {
            names.push(name)?;
        }
    }
    Ok(names)
}
