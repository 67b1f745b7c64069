//! What a fault of a grammar is about beside its own place: other places of the text, and the rules
//! that a production lacks.

use crate::grammar_text::{GrammarText, Span};
use crate::grammars::conflicts::offsets_of_conflict;
use crate::grammars::lookup::{
    AsWritten, AtPlace, MissingRule, PlacedOccurrence, at_place, attribute_at, missing_in,
    placed_at, symbol_named, symbol_with,
};
use ag_grammar::{Named, Occ, RawGrammar, RawSymbol};
use llparse::TableFault;
use normalform::NormalFault;
use std::alloc::AllocError;

/// A place of the text that a fault is about beside its own.
#[derive(Drop)]
pub struct RelatedPlace {
    /// The part of the text.
    pub span: Span,
    /// What is there.
    pub message: String,
}

/// Returns the places that a fault N1 to N10 is about beside its own, none if the grammar was not
/// read. N2 has the first declaration, N7 the first rule, N6 the declaration of each attribute
/// whose rule is missing, and N1, N8 and N9 of an occurrence that of the symbol at its place.
pub fn related_to_normal(
    fault: &NormalFault,
    text: &GrammarText<'_>,
) -> Result<Vec<RelatedPlace>, AllocError> {
    let mut related = Vec::new(text.alloc);
    let Some(raw) = &text.raw else {
        return Ok(related);
    };
    match fault {
        NormalFault::DoubledName(at) => push_first_declaration(&mut related, text, raw, *at)?,
        NormalFault::RuleDoubled(at) => push_first_rule(&mut related, text, raw, *at)?,
        NormalFault::UnknownName(at)
        | NormalFault::NotDefinedHere(at)
        | NormalFault::NotNormal(at) => push_symbol_of(&mut related, text, raw, *at)?,
        NormalFault::RuleMissing(number, _, _) => {
            push_attributes(&mut related, text, raw, *number)?;
        }
        _ => {}
    }
    Ok(related)
}

/// Returns the second production of L1; none if it is not known.
pub fn related_to_conflict(
    fault: TableFault,
    text: &GrammarText<'_>,
) -> Result<Vec<RelatedPlace>, AllocError> {
    let mut related = Vec::new(text.alloc);
    if let Some(raw) = &text.raw
        && let Some((_, second)) = offsets_of_conflict(fault, raw)
    {
        let message = String::from_str(text.alloc, "the other production")?;
        let span = text.token_at(second);
        related.push(RelatedPlace { span, message })?;
    }
    Ok(related)
}

/// Returns the occurrences, such as `$1.env`, for which the production of a fault N6 lacks rules;
/// none after another fault.
pub fn missing_rules(
    fault: &NormalFault,
    text: &GrammarText<'_>,
) -> Result<Vec<String>, AllocError> {
    let mut rules = Vec::new(text.alloc);
    let (NormalFault::RuleMissing(number, _, _), Some(raw)) = (fault, &text.raw) else {
        return Ok(rules);
    };
    for missing in text.faults() {
        if let Some(
            MissingRule {
                place,
                symbol,
                attribute,
            },
        ) = missing_in(raw, missing, *number)
            && let Some(name) = symbol.attribute_name(attribute)
        {
            rules.push(format!(in text.alloc; "${place}.{name}")?)?;
        }
    }
    Ok(rules)
}

/// Appends the place where a name is declared.
fn push_declaration(
    related: &mut Vec<RelatedPlace>,
    text: &GrammarText<'_>,
    named: &Named,
) -> Result<(), AllocError> {
    let name = named.name.as_str();
    let message = format!(in text.alloc; "`{name}` is declared here")?;
    let span = text.span(named.at, named.at.saturating_add(name.len()));
    related.push(RelatedPlace { span, message })?;
    Ok(())
}

/// Appends the first declaration of the symbol or the attribute that is declared again at an
/// offset.
fn push_first_declaration(
    related: &mut Vec<RelatedPlace>,
    text: &GrammarText<'_>,
    raw: &RawGrammar,
    at: usize,
) -> Result<(), AllocError> {
    let Some(symbol) = symbol_with(raw, at) else {
        return Ok(());
    };
    let first = match attribute_at(symbol, at) {
        Some(again) => attribute_named(symbol, again.name.as_str()),
        None => symbol_named(raw, symbol.name.name.as_str()).map(|it| &it.name),
    };
    match first {
        Some(named) => push_declaration(related, text, named),
        None => Ok(()),
    }
}

/// Returns the first attribute of a symbol with this name.
fn attribute_named<'a>(symbol: &'a RawSymbol, name: &str) -> Option<&'a Named> {
    let mut attributes = symbol
        .syn
        .as_slice()
        .iter()
        .chain(symbol.inh.as_slice().iter());
    attributes.find(|it| it.name.as_str() == name)
}

/// Appends the first rule of a production for the target that is at an offset.
fn push_first_rule(
    related: &mut Vec<RelatedPlace>,
    text: &GrammarText<'_>,
    raw: &RawGrammar,
    at: usize,
) -> Result<(), AllocError> {
    let Some(placed) = placed_at(raw, at) else {
        return Ok(());
    };
    for rule in placed.production.rules.as_slice() {
        if is_same(&rule.target, placed.occurrence) {
            let target = AsWritten(&rule.target);
            let message = format!(in text.alloc; "the first rule for `{target}`")?;
            let span = text.token_at(rule.target.at);
            related.push(RelatedPlace { span, message })?;
            return Ok(());
        }
    }
    Ok(())
}

/// Returns whether two occurrences are of one attribute at one place.
fn is_same(one: &Occ, other: &Occ) -> bool {
    one.place == other.place && one.attr.as_str() == other.attr.as_str()
}

/// Appends the declaration of the symbol at the place of the occurrence at an offset, if an
/// occurrence of a symbol's attribute is there.
fn push_symbol_of(
    related: &mut Vec<RelatedPlace>,
    text: &GrammarText<'_>,
    raw: &RawGrammar,
    at: usize,
) -> Result<(), AllocError> {
    let Some(
        PlacedOccurrence {
            production,
            occurrence,
        },
    ) = placed_at(raw, at)
    else {
        return Ok(());
    };
    match at_place(raw, production, usize::from(occurrence.place)) {
        Some(AtPlace::Symbol(symbol)) => push_declaration(related, text, &symbol.name),
        _ => Ok(()),
    }
}

/// Appends the declarations of the attributes whose rules the production `number` lacks.
fn push_attributes(
    related: &mut Vec<RelatedPlace>,
    text: &GrammarText<'_>,
    raw: &RawGrammar,
    number: usize,
) -> Result<(), AllocError> {
    for missing in text.faults() {
        if let Some(
            MissingRule {
                symbol,
                attribute,
                ..
            },
        ) = missing_in(raw, missing, number)
            && let Some(name) = symbol.attribute_name(attribute)
            && let Some(named) = attribute_named(symbol, name)
        {
            push_declaration(related, text, named)?;
        }
    }
    Ok(())
}
