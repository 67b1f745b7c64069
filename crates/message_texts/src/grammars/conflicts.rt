//! Conflicts of two productions.

use crate::grammar_text::GrammarText;
use crate::grammars::left_recursion::{direct_recursion_of, left_recursion_of};
use crate::terminals::write_ahead;
use ag_grammar::{Grammar, RawGrammar, RawItem, RawProduction};
use llparse::{Ahead, TableFault};
use message_parts::Parts;
use message_parts::classes::class_name;
use message_parts::display::QuotedText;
use std::alloc::{AllocError, Global};

/// Names for a new symbol that derives what follows the first item of a list.
const RESTS: [&str; 3] = ["Rest", "More", "Tail"];

/// Names for a new symbol that derives an operand.
const OPERANDS: [&str; 3] = ["Operand", "Part", "Factor"];

/// Two productions of a grammar as they are written, and the look-ahead that predicts both.
#[derive(Clone, Copy)]
struct Conflict<'a> {
    raw: &'a RawGrammar,
    first: &'a RawProduction,
    second: &'a RawProduction,
    ahead: Ahead,
}

/// Returns the productions and the look-ahead of L1. None for another fault, or if this grammar
/// does not have the productions.
fn conflict_of<'a>(fault: TableFault, raw: &'a RawGrammar) -> Option<Conflict<'a>> {
    match fault {
        TableFault::Conflict {
            symbol: _,
            first,
            second,
            ahead,
        } => {
            let productions = raw.productions.as_slice();
            Some(Conflict {
                raw,
                first: productions.get(usize::from(first))?,
                second: productions.get(usize::from(second))?,
                ahead,
            })
        }
        TableFault::NoMemory => None,
    }
}

/// Returns the offsets in bytes of the left sides of the two productions. None if these are not
/// known.
pub fn offsets_of_conflict(fault: TableFault, raw: &RawGrammar) -> Option<(usize, usize)> {
    let conflict = conflict_of(fault, raw)?;
    Some((conflict.first.left.at, conflict.second.left.at))
}

/// Describes L1: the two productions, the look-ahead that predicts both, and what to do. Writes
/// nothing if memory for reading the text again, or for numbering its names, is refused.
pub fn describe_conflict(
    parts: &mut Parts,
    fault: TableFault,
    text: &GrammarText<'_>,
) -> Result<(), AllocError> {
    let Some(raw) = &text.raw else {
        return Ok(());
    };
    let Some(conflict) = conflict_of(fault, raw) else {
        return Ok(());
    };
    match &text.numbered {
        Some(grammar) => describe(parts, &conflict, grammar, text),
        None => Ok(()),
    }
}

/// Describes a conflict in a grammar, and what to do.
fn describe(
    parts: &mut Parts,
    conflict: &Conflict<'_>,
    grammar: &Grammar,
    text: &GrammarText<'_>,
) -> Result<(), AllocError> {
    write_productions(&mut parts.found, conflict, text)?;
    write_ahead(&mut parts.found, grammar, conflict.ahead)?;
    write_help(&mut parts.help, conflict, grammar, text.alloc)
}

/// Writes the two productions that conflict.
fn write_productions(
    out: &mut String,
    conflict: &Conflict<'_>,
    text: &GrammarText<'_>,
) -> Result<(), AllocError> {
    let place = text.source.place(conflict.second.left.at);
    out.push_str("can't choose between ")?;
    write_production(out, conflict.first)?;
    out.push_str(" and ")?;
    write_production(out, conflict.second)?;
    write!(out, " {place} if the next token is ")
}

/// Writes what to do about a conflict. The usual causes are left recursion, a production that can
/// be empty, and a common beginning.
fn write_help(
    out: &mut String,
    conflict: &Conflict<'_>,
    grammar: &Grammar,
    alloc: Global,
) -> Result<(), AllocError> {
    for production in [conflict.first, conflict.second] {
        if let Some(recursion) = left_recursion_of(alloc, conflict.raw, production)? {
            return match recursion.before {
                Some(before) => write_hidden(out, production, before),
                None => write_recursion(out, conflict.raw, production, recursion.symbol),
            };
        }
    }
    let left = conflict.first.left.name.as_str();
    let first = conflict.first.items.as_slice();
    let second = conflict.second.items.as_slice();
    let common = common_length(first, second);
    if common == first.len() && common == second.len() {
        return out.push_str("remove one of the two: they are the same");
    }
    if matches!(conflict.ahead, Ahead::End) {
        return out.push_str("let only one of the two be empty");
    }
    if first.is_empty() || second.is_empty() {
        return write_separation(out, left, grammar, conflict.ahead);
    }
    match first.get(..common) {
        Some(items) if common > 0 => write_factored(out, items),
        _ => out.push_str("make them begin with different tokens"),
    }
}

/// Writes what to do about a production that begins with `symbol`, which is its left side or can
/// begin with it. A symbol that begins with itself is changed first: replacing it would never end.
fn write_recursion(
    out: &mut String,
    raw: &RawGrammar,
    production: &RawProduction,
    symbol: &str,
) -> Result<(), AllocError> {
    if production.left.name.as_str() == symbol {
        return write_direct(out, raw, production);
    }
    match direct_recursion_of(raw, symbol) {
        Some(direct) => write_direct(out, raw, direct),
        None => write_indirect(out, production, symbol),
    }
}

/// Writes what to do about a production that begins with its left side.
fn write_direct(
    out: &mut String,
    raw: &RawGrammar,
    production: &RawProduction,
) -> Result<(), AllocError> {
    let left = production.left.name.as_str();
    match production.items.as_slice() {
        [_] => write_cycle(out, production),
        [_, middle @ .., last] if is_symbol(last, left) => write_operator(out, raw, left, middle),
        _ => write_repetition(out, raw, left),
    }
}

/// Writes that a production begins with its left side after a symbol that can be empty.
fn write_hidden(
    out: &mut String,
    production: &RawProduction,
    before: &str,
) -> Result<(), AllocError> {
    write_beginning(out, production)?;
    write!(
        out,
        ", after an empty `{before}` (left recursion), let `{before}` not be empty there"
    )
}

/// Writes that a production begins with another symbol, which can begin with its left side.
fn write_indirect(
    out: &mut String,
    production: &RawProduction,
    symbol: &str,
) -> Result<(), AllocError> {
    write_beginning(out, production)?;
    write!(
        out,
        ", by `{symbol}` (left recursion), replace `{symbol}` in it by each right side of `{symbol}`"
    )
}

/// Writes that a production can begin with its left side again.
fn write_beginning(out: &mut String, production: &RawProduction) -> Result<(), AllocError> {
    write_production(out, production)?;
    write!(
        out,
        " can begin with `{}` again",
        production.left.name.as_str()
    )
}

/// Writes that a production whose right side is its left side is of no use.
fn write_cycle(out: &mut String, production: &RawProduction) -> Result<(), AllocError> {
    out.push_str("remove ")?;
    write_production(out, production)?;
    out.push_str(", by which a sentence would have any number of trees")
}

/// Writes how a production such as `E = E "+" E` is written without left recursion. `middle` is
/// what is between the two operands.
fn write_operator(
    out: &mut String,
    raw: &RawGrammar,
    left: &str,
    middle: &[RawItem],
) -> Result<(), AllocError> {
    let rest = new_name(raw, RESTS);
    let operand = new_name(raw, OPERANDS);
    write!(
        out,
        "write the operators as `{left} = {operand} {rest}`, `{rest} ="
    )?;
    for item in middle {
        out.push_str(" ")?;
        write_item(out, item)?;
    }
    write!(
        out,
        " {operand} {rest}` and `{rest} =`, with the operands in a new symbol `{operand}`, and a further such symbol for operators that bind tighter"
    )
}

/// Writes how left-recursive productions are written without left recursion.
fn write_repetition(out: &mut String, raw: &RawGrammar, left: &str) -> Result<(), AllocError> {
    let rest = new_name(raw, RESTS);
    write!(
        out,
        "write `{left} = {left} b` and `{left} = a` as `{left} = a {rest}`, `{rest} = b {rest}` and `{rest} =`"
    )
}

/// Writes that the look-ahead can also follow the symbol `left`, which can be empty, and that a
/// separate token, such as `;`, has to come after this symbol.
fn write_separation(
    out: &mut String,
    left: &str,
    grammar: &Grammar,
    ahead: Ahead,
) -> Result<(), AllocError> {
    write_ahead(out, grammar, ahead)?;
    write!(
        out,
        " can also follow `{left}`, put a token of its own after `{left}`, such as `;` or `end`"
    )
}

/// Writes how the common beginning of two productions is factored out.
fn write_factored(out: &mut String, common: &[RawItem]) -> Result<(), AllocError> {
    out.push_str("write the common beginning `")?;
    let mut separator = "";
    for item in common {
        out.push_str(separator)?;
        write_item(out, item)?;
        separator = " ";
    }
    out.push_str("` once, followed by a new symbol with a production for each ending")
}

/// Returns the first of these names that the grammar does not declare, or the last if it declares
/// all.
fn new_name(raw: &RawGrammar, names: [&'static str; 3]) -> &'static str {
    let [first, second, third] = names;
    if !is_declared(raw, first) {
        first
    } else if !is_declared(raw, second) {
        second
    } else {
        third
    }
}

/// Returns whether a grammar declares a symbol with this name.
fn is_declared(raw: &RawGrammar, name: &str) -> bool {
    let symbols = raw.symbols.as_slice();
    symbols
        .iter()
        .any(|symbol| symbol.name.name.as_str() == name)
}

/// Returns whether an item is the symbol of a name.
fn is_symbol(item: &RawItem, name: &str) -> bool {
    match item {
        RawItem::Name(found) => found.name.as_str() == name,
        RawItem::Literal(_) | RawItem::Class(_) => false,
    }
}

/// Returns the number of items with which two right sides both begin.
fn common_length(first: &[RawItem], second: &[RawItem]) -> usize {
    let mut length = 0usize;
    for (one, other) in first.iter().zip(second.iter()) {
        if !is_same(one, other) {
            break;
        }
        length = length.saturating_add(1);
    }
    length
}

/// Returns whether two items are the same symbol, literal or class.
fn is_same(one: &RawItem, other: &RawItem) -> bool {
    match (one, other) {
        (RawItem::Name(one), RawItem::Name(other)) => one.name.as_str() == other.name.as_str(),
        (RawItem::Literal(one), RawItem::Literal(other)) => one.as_str() == other.as_str(),
        (RawItem::Class(one), RawItem::Class(other)) => one == other,
        _ => false,
    }
}

/// Writes a production as it is written in a grammar, in backquotes and without its rules.
fn write_production(out: &mut String, production: &RawProduction) -> Result<(), AllocError> {
    write!(out, "`{} =", production.left.name.as_str())?;
    for item in production.items.as_slice() {
        out.push_str(" ")?;
        write_item(out, item)?;
    }
    out.push_str("`")
}

/// Writes an item of a right side.
fn write_item(out: &mut String, item: &RawItem) -> Result<(), AllocError> {
    match item {
        RawItem::Name(name) => out.push_str(name.name.as_str()),
        RawItem::Literal(text) => write!(out, "{}", QuotedText(text.as_str())),
        RawItem::Class(number) => out.push_str(class_name(*number)),
    }
}
