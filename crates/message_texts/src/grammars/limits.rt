//! Grammars that exceed a limit.

use ag_grammar::limits::{
    MAX_ATTRIBUTES, MAX_CHILDREN, MAX_ITEMS, MAX_LITERAL_BYTES, MAX_LITERALS, MAX_PRODUCTIONS,
    MAX_SYMBOLS,
};
use ag_grammar::{RawGrammar, RawItem, RawProduction, RawSymbol};
use message_parts::Parts;
use message_parts::display::GroupedNumber;
use normalform::LimitKind;
use std::alloc::AllocError;

/// Returns the offset in bytes of what exceeds a limit: of the name of a symbol, or of the name on
/// the left side of a production. None if the limit is one of the whole grammar, such as that for
/// the number of symbols, or if no symbol or production exceeds it.
pub fn offset_of_limit(raw: &RawGrammar, kind: LimitKind) -> Option<usize> {
    if kind == LimitKind::Attributes {
        return Some(large_symbol(raw)?.name.at);
    }
    Some(large_production(raw, kind)?.left.at)
}

/// Describes N10: the limit that a grammar exceeds, and what to do.
pub fn describe_limit(
    parts: &mut Parts,
    raw: &RawGrammar,
    kind: LimitKind,
) -> Result<(), AllocError> {
    write_large(&mut parts.found, raw, kind)?;
    write_excess(&mut parts.found, kind)?;
    parts.help.push_str(hint_of(kind))
}

/// Writes what exceeds the limit.
fn write_large(out: &mut String, raw: &RawGrammar, kind: LimitKind) -> Result<(), AllocError> {
    match kind {
        LimitKind::Attributes => match large_symbol(raw) {
            Some(symbol) => write!(out, "`{}`", symbol.name.name.as_str()),
            None => Ok(()),
        },
        LimitKind::Items | LimitKind::Stored | LimitKind::LiteralLength => {
            match large_production(raw, kind) {
                Some(production) => write!(
                    out,
                    "this production of `{}`",
                    production.left.name.as_str()
                ),
                None => Ok(()),
            }
        }
        _ => out.push_str("the grammar"),
    }
}

/// Writes the limit.
fn write_excess(out: &mut String, kind: LimitKind) -> Result<(), AllocError> {
    let (limit, unit) = match kind {
        LimitKind::Symbols => (MAX_SYMBOLS, " symbols"),
        LimitKind::Attributes => (MAX_ATTRIBUTES, " attributes"),
        LimitKind::Productions => (MAX_PRODUCTIONS, " productions"),
        LimitKind::Items => (MAX_ITEMS, " items on its right side"),
        LimitKind::Stored => (MAX_CHILDREN, " symbols and classes on its right side"),
        LimitKind::LiteralLength => (MAX_LITERAL_BYTES, " bytes"),
        LimitKind::Literals => (MAX_LITERALS, " different literals"),
    };
    let what = match kind {
        LimitKind::LiteralLength => " has a literal of more than ",
        _ => " has more than ",
    };
    write!(out, "{what}{}{unit}", GroupedNumber(limit))
}

/// Returns what to do about a limit.
fn hint_of(kind: LimitKind) -> &'static str {
    match kind {
        LimitKind::Items | LimitKind::Stored => "move a part of it to a new symbol",
        LimitKind::LiteralLength => "use a shorter one",
        LimitKind::Attributes => "keep several values in one list or table",
        _ => "use fewer",
    }
}

/// Returns the first symbol with too many attributes.
fn large_symbol(raw: &RawGrammar) -> Option<&RawSymbol> {
    for symbol in raw.symbols.as_slice() {
        let syn = symbol.syn.as_slice().len();
        if syn.saturating_add(symbol.inh.as_slice().len()) > MAX_ATTRIBUTES {
            return Some(symbol);
        }
    }
    None
}

/// Returns the first production whose right side exceeds a limit. None if there is none, or if the
/// limit is not one of right sides.
fn large_production(raw: &RawGrammar, kind: LimitKind) -> Option<&RawProduction> {
    for production in raw.productions.as_slice() {
        let exceeds = match kind {
            LimitKind::Items => production.items.as_slice().len() > MAX_ITEMS,
            LimitKind::Stored => production.last_place() > MAX_CHILDREN,
            LimitKind::LiteralLength => has_long_literal(production),
            _ => false,
        };
        if exceeds {
            return Some(production);
        }
    }
    None
}

/// Returns whether a production has a literal that is too long.
fn has_long_literal(production: &RawProduction) -> bool {
    for item in production.items.as_slice() {
        match item {
            RawItem::Literal(text) if text.as_str().len() > MAX_LITERAL_BYTES => return true,
            _ => {}
        }
    }
    false
}
