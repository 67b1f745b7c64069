//! Grammars that are not accepted.

use crate::grammar_text::GrammarText;
use crate::grammars::endless::endless_symbols;
use crate::grammars::limits::{describe_limit, offset_of_limit};
use crate::grammars::lookup::{
    AsWritten, AtPlace, PlacedOccurrence, at_place, attribute_at, has_production, missing_in,
    name_at, placed_at, symbol_named, symbol_with,
};
use crate::terminals::entry_count;
use ag_grammar::{Named, RawGrammar, RawProduction, RawSymbol};
use message_parts::Parts;
use message_parts::display::MAX_NAMED;
use normalform::NormalFault;
use std::alloc::{AllocError, Global};

/// Names of classes of tokens in other generators, and of those here, without regard to case.
const CLASSES_ELSEWHERE: [&str; 9] = [
    "name",
    "id",
    "ident",
    "identifier",
    "number",
    "int",
    "integer",
    "text",
    "string",
];

/// How all faults of a grammar are listed.
const LISTING: &str = "`check --all` lists all faults";

/// Returns the offset in bytes of the name, the occurrence or the production for which a grammar is
/// refused. None if the whole grammar exceeds a limit, or for NoMemory.
pub fn offset_in_grammar(fault: &NormalFault, raw: &RawGrammar) -> Option<usize> {
    match fault {
        NormalFault::UnknownName(at)
        | NormalFault::DoubledName(at)
        | NormalFault::RuleDoubled(at)
        | NormalFault::NotDefinedHere(at)
        | NormalFault::NotNormal(at) => Some(*at),
        NormalFault::BadStart => Some(raw.start.at),
        NormalFault::Unproductive(symbol) | NormalFault::Unreachable(symbol) => Some(symbol.at),
        NormalFault::RuleMissing(production, _, _) => {
            let production = raw.productions.as_slice().get(*production)?;
            Some(production.left.at)
        }
        NormalFault::Limit(kind) => offset_of_limit(raw, *kind),
        NormalFault::NoMemory => None,
    }
}

/// Describes N1 to N10 of a grammar, and what to do, with the number of further faults of the same
/// kind if not all faults are printed. Writes nothing if memory for reading its text again is
/// refused.
pub fn describe_normal(
    parts: &mut Parts,
    fault: &NormalFault,
    text: &GrammarText<'_>,
) -> Result<(), AllocError> {
    let Some(raw) = &text.raw else {
        return Ok(());
    };
    describe_first(parts, fault, text, raw)?;
    if text.lists_all {
        return Ok(());
    }
    let alike = text.faults().iter().filter(|other| is_alike(fault, *other));
    write_further(&mut parts.help, alike.count().saturating_sub(1))
}

/// Returns whether both faults are N1, or both N7, N8 or N9. (Messages about N4 and N6 mention the
/// others in their own way.)
fn is_alike(fault: &NormalFault, other: &NormalFault) -> bool {
    matches!(
        (fault, other),
        (NormalFault::UnknownName(_), NormalFault::UnknownName(_))
            | (NormalFault::RuleDoubled(_), NormalFault::RuleDoubled(_))
            | (
                NormalFault::NotDefinedHere(_),
                NormalFault::NotDefinedHere(_)
            )
            | (NormalFault::NotNormal(_), NormalFault::NotNormal(_))
    )
}

/// Writes the number of further faults of the same kind, if there are any.
fn write_further(help: &mut String, further: usize) -> Result<(), AllocError> {
    let separator = if help.is_empty() { "" } else { ", " };
    match further {
        0 => Ok(()),
        1 => write!(
            help,
            "{separator}1 more place has the same fault ({LISTING})"
        ),
        _ => write!(
            help,
            "{separator}{further} more places have the same fault ({LISTING})"
        ),
    }
}

/// Describes N1 to N10 without the number of further faults of the kind.
fn describe_first(
    parts: &mut Parts,
    fault: &NormalFault,
    text: &GrammarText<'_>,
    raw: &RawGrammar,
) -> Result<(), AllocError> {
    match fault {
        NormalFault::UnknownName(at) => describe_unknown(parts, raw, *at),
        NormalFault::DoubledName(at) => describe_doubled(parts, raw, *at),
        NormalFault::BadStart => describe_start(parts, raw),
        NormalFault::Unproductive(symbol) => {
            describe_unproductive(parts, text.alloc, raw, symbol.name.as_str())
        }
        NormalFault::Unreachable(symbol) => {
            describe_unreachable(parts, raw, symbol.name.as_str())
        }
        NormalFault::RuleMissing(number, _, _) => describe_missing(parts, text, raw, *number),
        NormalFault::RuleDoubled(at)
        | NormalFault::NotDefinedHere(at)
        | NormalFault::NotNormal(at) => match placed_at(raw, *at) {
            Some(placed) => describe_misplaced(parts, fault, raw, &placed),
            None => Ok(()),
        },
        NormalFault::Limit(kind) => describe_limit(parts, raw, *kind),
        NormalFault::NoMemory => Ok(()),
    }
}

/// Describes N1: a symbol that is not declared, or an occurrence of an attribute that does not
/// exist.
fn describe_unknown(parts: &mut Parts, raw: &RawGrammar, at: usize) -> Result<(), AllocError> {
    if let Some(placed) = placed_at(raw, at) {
        write!(
            parts.found,
            "`{}` does not exist",
            AsWritten(placed.occurrence)
        )?;
        return write_existing(&mut parts.help, raw, &placed);
    }
    match name_at(raw, at) {
        Some(name) => describe_undeclared(parts, name.name.as_str()),
        None => Ok(()),
    }
}

/// Describes N1: a symbol that is not declared. If its name is one that others give to a class of
/// tokens, lists the classes.
fn describe_undeclared(parts: &mut Parts, name: &str) -> Result<(), AllocError> {
    write!(parts.found, "symbol `{name}` is not declared")?;
    write!(
        parts.help,
        "declare it with `symbol {name} ..;`, or correct the name"
    )?;
    if CLASSES_ELSEWHERE
        .iter()
        .any(|class| name.eq_ignore_ascii_case(class))
    {
        return parts
            .help
            .push_str(" (the classes of tokens are NAME, NUMBER and TEXT)");
    }
    Ok(())
}

/// Writes the attributes that exist at the place of an occurrence. If neither a class nor a
/// declared symbol is there, writes the number of the production's last place.
fn write_existing(
    out: &mut String,
    raw: &RawGrammar,
    placed: &PlacedOccurrence<'_>,
) -> Result<(), AllocError> {
    let production = placed.production;
    match at_place(raw, production, usize::from(placed.occurrence.place)) {
        Some(AtPlace::Symbol(symbol)) => write_attributes(out, symbol),
        Some(AtPlace::Class) => out.push_str("a token has only `lex`"),
        None => write!(
            out,
            "the last place of this production of `{}` is {} (literals have no place)",
            production.left.name.as_str(),
            production.last_place()
        ),
    }
}

/// Writes the attributes that a symbol has.
fn write_attributes(out: &mut String, symbol: &RawSymbol) -> Result<(), AllocError> {
    let syn = symbol.syn.as_slice();
    let inh = symbol.inh.as_slice();
    let only = if syn.is_empty() && inh.is_empty() {
        "no attributes"
    } else {
        "only"
    };
    let and = if syn.is_empty() || inh.is_empty() {
        ""
    } else {
        " and"
    };
    write!(out, "`{}` has {only}", symbol.name.name.as_str())?;
    write_names(out, " synthesized", syn)?;
    out.push_str(and)?;
    write_names(out, " inherited", inh)
}

/// Writes the names of attributes of a kind, if there are any.
fn write_names(out: &mut String, kind: &str, names: &[Named]) -> Result<(), AllocError> {
    let mut separator = kind;
    for name in names {
        write!(out, "{separator} `{}`", name.name.as_str())?;
        separator = ",";
    }
    Ok(())
}

/// Describes N2: a symbol that is declared again, or an attribute that is named again.
fn describe_doubled(parts: &mut Parts, raw: &RawGrammar, at: usize) -> Result<(), AllocError> {
    let Some(symbol) = symbol_with(raw, at) else {
        return Ok(());
    };
    write_doubled(&mut parts.found, symbol, at)?;
    parts.help.push_str("remove or rename one of the two")
}

/// Writes the symbol that is declared again, or the attribute that is named again.
fn write_doubled(out: &mut String, symbol: &RawSymbol, at: usize) -> Result<(), AllocError> {
    let name = symbol.name.name.as_str();
    match attribute_at(symbol, at) {
        Some(attribute) => write!(
            out,
            "symbol `{name}` already has an attribute `{}`",
            attribute.name.as_str()
        ),
        None => write!(out, "symbol `{name}` is already declared"),
    }
}

/// Describes N3: why the start symbol can't be one.
fn describe_start(parts: &mut Parts, raw: &RawGrammar) -> Result<(), AllocError> {
    let name = raw.start.name.as_str();
    write!(parts.found, "the start symbol `{name}` ")?;
    match symbol_named(raw, name) {
        Some(symbol) => describe_bad_start(parts, symbol),
        None => describe_no_start(parts, name),
    }
}

/// Describes N3 of a start symbol that is not declared.
fn describe_no_start(parts: &mut Parts, name: &str) -> Result<(), AllocError> {
    parts.found.push_str("is not declared")?;
    write!(parts.help, "declare it with `symbol {name} syn out;`")
}

/// Describes N3 of a start symbol with the wrong attributes.
fn describe_bad_start(parts: &mut Parts, symbol: &RawSymbol) -> Result<(), AllocError> {
    let Some(attribute) = symbol.inh.as_slice().first() else {
        return parts.add(
            "has no synthesized attribute `out`",
            "declare it after `syn`: its value is the translation",
        );
    };
    write!(
        parts.found,
        "has an inherited attribute `{}`",
        attribute.name.as_str()
    )?;
    parts
        .help
        .push_str("remove it, or add a new start symbol that defines it")
}

/// Describes N4: why no sentence can be built from a symbol. If the symbol has a production, names
/// all symbols that never end. Names only this one if `endless_symbols` returns None, or if memory
/// is refused.
fn describe_unproductive(
    parts: &mut Parts,
    alloc: Global,
    raw: &RawGrammar,
    name: &str,
) -> Result<(), AllocError> {
    if !has_production(raw, name) {
        write!(parts.found, "`{name}` has no production")?;
        return parts.help.push_str("add one");
    }
    match endless_symbols(alloc, raw) {
        Ok(Some(names)) => describe_endless(parts, raw, names.as_slice()),
        Ok(None) | Err(_) => {
            write!(parts.found, "`{name}`")?;
            parts.add(
                " never ends, since each of its productions contains a symbol that never ends",
                "add a production without such a symbol",
            )
        }
    }
}

/// Describes N4 by all symbols that never end (that are unproductive, as `endless` explains). If
/// one of them has no production, says so.
fn describe_endless(parts: &mut Parts, raw: &RawGrammar, names: &[&str]) -> Result<(), AllocError> {
    write_symbols(&mut parts.found, names)?;
    if names.len() == 1 {
        return parts.add(
            " never ends, since each of its productions contains it again",
            "add a production without it",
        );
    }
    parts.found.push_str(" never end, since each of their productions contains one of them")?;
    for name in names {
        if !has_production(raw, name) {
            return write!(parts.help, "`{}` has no production, add one", *name);
        }
    }
    parts.help.push_str("add a production without them")
}

/// Writes the names of symbols, at most the first twelve, and the number of the rest.
fn write_symbols(out: &mut String, names: &[&str]) -> Result<(), AllocError> {
    let mut following = entry_count(names.len());
    for name in names.iter().take(MAX_NAMED) {
        following = following.saturating_sub(1);
        let separator = match following {
            0 => "",
            1 => " and ",
            _ => ", ",
        };
        write!(out, "`{}`{separator}", *name)?;
    }
    match names.len().saturating_sub(MAX_NAMED) {
        0 => Ok(()),
        others => write!(out, "{others} more"),
    }
}

/// Describes N5: that the start symbol does not reach a symbol.
fn describe_unreachable(parts: &mut Parts, raw: &RawGrammar, name: &str) -> Result<(), AllocError> {
    let start = raw.start.name.as_str();
    write!(
        parts.found,
        "`{name}` can't be reached from the start symbol `{start}`"
    )?;
    parts.help.push_str("use it in a production, or remove it")
}

/// Describes N6 with the rules that the production `number` lacks, and the number of those that
/// other productions lack if not all faults are printed.
fn describe_missing(
    parts: &mut Parts,
    text: &GrammarText<'_>,
    raw: &RawGrammar,
    number: usize,
) -> Result<(), AllocError> {
    let Some(production) = raw.productions.as_slice().get(number) else {
        return Ok(());
    };
    let (mut here, mut others) = (0usize, 0usize);
    for fault in text.faults() {
        match fault {
            NormalFault::RuleMissing(of, _, _) if *of == number => here = here.saturating_add(1),
            NormalFault::RuleMissing(_, _, _) => others = others.saturating_add(1),
            _ => {}
        }
    }
    if here == 0 {
        // memory for the list of faults was refused
        return Ok(());
    }
    let left = production.left.name.as_str();
    let (noun, help) = if here == 1 {
        ("rule", "add it")
    } else {
        ("rules", "add them")
    };
    write!(parts.found, "this production of `{left}` lacks the {noun} ")?;
    write_rules(&mut parts.found, text, raw, number)?;
    if !text.lists_all {
        write_others(&mut parts.found, others)?;
    }
    parts.help.push_str(help)
}

/// Writes the rules that the production `number` lacks, as they would be written.
fn write_rules(
    out: &mut String,
    text: &GrammarText<'_>,
    raw: &RawGrammar,
    number: usize,
) -> Result<(), AllocError> {
    let mut separator = "";
    for fault in text.faults() {
        if let Some(missing) = missing_in(raw, fault, number)
            && let Some(name) = missing.symbol.attribute_name(missing.attribute)
        {
            write!(out, "{separator}`${}.{name} = ..;`", missing.place)?;
            separator = ", ";
        }
    }
    Ok(())
}

/// Writes the number of rules that other productions lack.
fn write_others(out: &mut String, others: usize) -> Result<(), AllocError> {
    match others {
        0 => Ok(()),
        _ => write!(out, " (other productions lack {others} more)"),
    }
}

/// Describes N7 to N9: why an occurrence can't be where it is, and what to do.
fn describe_misplaced(
    parts: &mut Parts,
    fault: &NormalFault,
    raw: &RawGrammar,
    placed: &PlacedOccurrence<'_>,
) -> Result<(), AllocError> {
    match fault {
        NormalFault::RuleDoubled(_) => {
            write!(
                parts.found,
                "this production already has a rule for `{}`",
                AsWritten(placed.occurrence)
            )?;
            parts.help.push_str("remove one of the two")
        }
        NormalFault::NotDefinedHere(_) => describe_elsewhere(parts, raw, placed),
        _ => describe_unusable(parts, raw, placed),
    }
}

/// Describes N8: what defines an attribute, and what the rules of the production define.
fn describe_elsewhere(
    parts: &mut Parts,
    raw: &RawGrammar,
    placed: &PlacedOccurrence<'_>,
) -> Result<(), AllocError> {
    write!(parts.found, "`{}` ", AsWritten(placed.occurrence))?;
    let production = placed.production;
    let place = usize::from(placed.occurrence.place);
    match at_place(raw, production, place) {
        Some(AtPlace::Symbol(symbol)) if place == 0 => write!(
            parts.found,
            "is defined by the productions with `{}` on the right side",
            symbol.name.name.as_str()
        )?,
        Some(AtPlace::Symbol(symbol)) => write!(
            parts.found,
            "is defined by the productions of `{}`",
            symbol.name.name.as_str()
        )?,
        _ => parts.found.push_str("is the text of the token")?,
    }
    parts.help.push_str("the rules here define ")?;
    match write_occurrences(&mut parts.help, raw, production, true)? {
        0 => parts.help.push_str("no attribute"),
        _ => Ok(()),
    }
}

/// Describes N9: that a rule uses an attribute which its own production defines, and what the rule
/// can use instead.
fn describe_unusable(
    parts: &mut Parts,
    raw: &RawGrammar,
    placed: &PlacedOccurrence<'_>,
) -> Result<(), AllocError> {
    write!(
        parts.found,
        "this production defines `{}`, so its rules can't use it",
        AsWritten(placed.occurrence)
    )?;
    parts.help.push_str("use ")?;
    let shown = write_occurrences(&mut parts.help, raw, placed.production, false)?;
    if shown > 0 {
        parts.help.push_str(", or ")?;
    }
    parts.help.push_str("the expression that defines it")
}

/// Writes the occurrences that the rules of a production define if `is_defined`, and otherwise
/// those that the rules can use: the first `MAX_NAMED`, and whether there are more. Returns the
/// number of all these occurrences, written or not.
fn write_occurrences(
    out: &mut String,
    raw: &RawGrammar,
    production: &RawProduction,
    is_defined: bool,
) -> Result<usize, AllocError> {
    let mut shown = 0usize;
    for place in 0..=production.last_place() {
        shown = match at_place(raw, production, place) {
            Some(AtPlace::Symbol(symbol)) => {
                let names = if (place == 0) == is_defined {
                    &symbol.syn
                } else {
                    &symbol.inh
                };
                write_at_place(out, shown, place, names.as_slice())?
            }
            Some(AtPlace::Class) if !is_defined => write_occurrence(out, shown, place, "lex")?,
            _ => shown,
        };
    }
    Ok(shown)
}

/// Appends the attributes at a place to a list of `before` occurrences, each as `write_occurrence`
/// does. Returns the number of occurrences in the list.
fn write_at_place(
    out: &mut String,
    before: usize,
    place: usize,
    names: &[Named],
) -> Result<usize, AllocError> {
    let mut shown = before;
    for name in names {
        shown = write_occurrence(out, shown, place, name.name.as_str())?;
    }
    Ok(shown)
}

/// Appends an occurrence to a list of `before` occurrences. Writes only the first `MAX_NAMED`
/// occurrences of a list. In place of the next one it writes ` and more`, and nothing in place of
/// the later ones. Returns the number of occurrences in the list.
fn write_occurrence(
    out: &mut String,
    before: usize,
    place: usize,
    name: &str,
) -> Result<usize, AllocError> {
    let written = match before {
        0 => write!(out, "`${place}.{name}`"),
        MAX_NAMED => out.push_str(" and more"),
        _ if before < MAX_NAMED => write!(out, ", `${place}.{name}`"),
        _ => Ok(()),
    };
    written?;
    Ok(before.saturating_add(1))
}
