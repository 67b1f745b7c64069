//! Left recursion: a production whose right side can begin with its own left side again. It always
//! leads to a conflict.

use ag_grammar::limits::MAX_SYMBOLS;
use ag_grammar::{RawGrammar, RawItem, RawProduction};
use std::alloc::{AllocError, Global};
use std::collections::HashSet;

/// How a right side can begin with its own left side again.
#[derive(Clone, Copy)]
pub struct LeftRecursion<'a> {
    /// The symbol of the right side that is the left side, or that can begin with it.
    pub symbol: &'a str,
    /// The symbol before that symbol, which can be empty. `None` if that symbol is the first.
    pub before: Option<&'a str>,
}

/// Returns how a production can begin with its own left side again, or `None` if it can't. The
/// grammar has at most `MAX_SYMBOLS` symbols. Fails if memory is refused.
pub fn left_recursion_of<'a>(
    alloc: Global,
    raw: &'a RawGrammar,
    production: &'a RawProduction,
) -> Result<Option<LeftRecursion<'a>>, AllocError> {
    let empty = empty_symbols(alloc, raw)?;
    let recursive = symbols_that_begin_with(alloc, raw, &empty, production.left.name.as_str())?;
    let mut before = None;
    for item in starting_items(production, &empty) {
        if let RawItem::Name(name) = item {
            let symbol = name.name.as_str();
            if recursive.contains(symbol) {
                return Ok(Some(LeftRecursion { symbol, before }));
            }
            before = Some(symbol);
        }
    }
    Ok(None)
}

/// Returns the first production of a symbol that begins with the symbol itself, if there is one.
pub fn direct_recursion_of<'a>(raw: &'a RawGrammar, symbol: &str) -> Option<&'a RawProduction> {
    for production in raw.productions.as_slice() {
        if production.left.name.as_str() == symbol {
            if let Some(RawItem::Name(first)) = production.items.as_slice().first() {
                if first.name.as_str() == symbol {
                    return Some(production);
                }
            }
        }
    }
    None
}

/// Returns the symbols that can be empty. Each round but the last adds one.
fn empty_symbols<'a>(alloc: Global, raw: &'a RawGrammar) -> Result<HashSet<&'a str>, AllocError> {
    let mut empty = HashSet::new(alloc);
    for _ in 0..=MAX_SYMBOLS {
        if !add_empty(raw, &mut empty)? {
            break;
        }
    }
    Ok(empty)
}

/// Adds each symbol to `empty` that has a production whose items are all symbols in `empty`.
/// Returns whether one was added.
fn add_empty<'a>(raw: &'a RawGrammar, empty: &mut HashSet<&'a str>) -> Result<bool, AllocError> {
    let mut is_new = false;
    for production in raw.productions.as_slice() {
        let left = production.left.name.as_str();
        let items = production.items.as_slice();
        if !empty.contains(left) && items.iter().all(|item| is_among(item, empty)) {
            empty.insert(left)?;
            is_new = true;
        }
    }
    Ok(is_new)
}

/// Returns the symbols that can begin with `symbol`, itself among them. `empty` has the symbols
/// that can be empty. Each round but the last adds a symbol.
fn symbols_that_begin_with<'a>(
    alloc: Global,
    raw: &'a RawGrammar,
    empty: &HashSet<&'a str>,
    symbol: &'a str,
) -> Result<HashSet<&'a str>, AllocError> {
    let mut found = HashSet::new(alloc);
    found.insert(symbol)?;
    for _ in 0..=MAX_SYMBOLS {
        if !add_beginning(raw, empty, &mut found)? {
            break;
        }
    }
    Ok(found)
}

/// Adds each symbol to `found` that has a production that can begin with a symbol in `found`.
/// Returns whether one was added.
fn add_beginning<'a>(
    raw: &'a RawGrammar,
    empty: &HashSet<&'a str>,
    found: &mut HashSet<&'a str>,
) -> Result<bool, AllocError> {
    let mut is_new = false;
    for production in raw.productions.as_slice() {
        let left = production.left.name.as_str();
        let items = starting_items(production, empty);
        if !found.contains(left) && items.iter().any(|item| is_among(item, found)) {
            found.insert(left)?;
            is_new = true;
        }
    }
    Ok(is_new)
}

/// Returns the items with which a right side can begin: its first item that can't be empty, and all
/// items before that.
fn starting_items<'a>(production: &'a RawProduction, empty: &HashSet<&str>) -> &'a [RawItem] {
    let items = production.items.as_slice();
    match items.iter().position(|item| !is_among(item, empty)) {
        Some(last) => items.get(..=last).unwrap_or(items),
        None => items,
    }
}

/// Returns whether an item is one of these symbols.
fn is_among(item: &RawItem, symbols: &HashSet<&str>) -> bool {
    match item {
        RawItem::Name(name) => symbols.contains(name.name.as_str()),
        RawItem::Literal(_) | RawItem::Class(_) => false,
    }
}
