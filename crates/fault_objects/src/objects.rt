//! The JSON objects.

ghost use Rattle.std.specs.Prelude.{◌≡◌, IfOk, false, map, string_bytes};
ghost use Rattle.serde_json.specs.Data.{array, object};
ghost use Rattle.serde_json.specs.View.{items_of, view};
ghost use Rattle.serde_json.specs.Written.{has_float};
ghost use Rattle.fault_objects.specs.Objects.{line_of, object_line, object_of, place_members, related_data};
ghost use Rattle.fault_objects.specs.Objects.{rest_data, rest_line, rule_data, word_members};

use crate::details::FaultDetails;
use message_texts::grammar_text::Span;
use message_texts::grammars::related::RelatedPlace;
use messages::FaultReport;
use serde_json::{Value, json};
use std::alloc::{AllocError, Global};

/// Returns the line with the object of a fault. Fails if memory is refused.
#[tactic(auto, using(crate::proofs::NoFloats::of_object))]
pub fn object_line(
    alloc: Global,
    report: &FaultReport,
    details: &FaultDetails,
) -> Result<String, AllocError>
    ensures { IfOk result (λ line. string_bytes line ≡ object_line report.now details.now) }
{
    let object = object_of(alloc, report, details)?;
    line_of(alloc, &object)
}

/// Returns the line with an object that says how many faults have no line. Fails if memory is
/// refused.
pub fn rest_line(alloc: Global, count: u64) -> Result<String, AllocError>
    ensures { IfOk result (λ line. string_bytes line ≡ rest_line count) }
{
    let object = rest_object(alloc, count)?;
    line_of(alloc, &object)
}

/// Returns an object with the number of the faults that have no line.
fn rest_object(alloc: Global, count: u64) -> Result<Value, AllocError>
    ensures { IfOk result (λ v. view v ≡ rest_data count) }
{
    json!(in alloc; {"more": count})
}

/// Returns the object of a fault.
fn object_of(
    alloc: Global,
    report: &FaultReport,
    details: &FaultDetails,
) -> Result<Value, AllocError>
    ensures { IfOk result (λ v. view v ≡ object_of report.now details.now) }
{
    let number = report.number(alloc)?;
    let message = report.message(alloc)?;
    let rules = rules_of(alloc, details.rules.as_slice())?;
    let related = related_of(alloc, details.related.as_slice())?;
    let words = Words {
        number: number.as_str(),
        message: message.as_str(),
        remedy: report.parts.help.as_str(),
    };
    match details.place {
        None => bare_object(alloc, words, &rules, &related),
        Some(span) => placed_object(alloc, span, words, &rules, &related),
    }
}

/// The texts of an object.
#[derive(Clone, Copy)]
struct Words<'a> {
    number: &'a str,
    message: &'a str,
    remedy: &'a str,
}

/// Returns the object of a fault without a place.
fn bare_object(
    alloc: Global,
    words: Words<'_>,
    rules: &Value,
    related: &Value,
) -> Result<Value, AllocError>
    ensures { IfOk result (λ v. view v ≡ object (word_members words.entry.number.now words.entry.message.now
        words.entry.remedy.now (view rules.now) (view related.now))) }
{
    json!(in alloc; {
        "number": words.number,
        "message": words.message,
        "remedy": words.remedy,
        "rules": rules,
        "related": related
    })
}

/// Returns the object of a fault at a place.
fn placed_object(
    alloc: Global,
    span: Span,
    words: Words<'_>,
    rules: &Value,
    related: &Value,
) -> Result<Value, AllocError>
    ensures { IfOk result (λ v. view v ≡ object (place_members span (word_members
        words.entry.number.now words.entry.message.now words.entry.remedy.now (view rules.now) (view related.now)))) }
{
    let Span {
        at,
        end,
        first,
        last,
    } = span;
    json!(in alloc; {
        "number": words.number,
        "at": at as u64,
        "end": end as u64,
        "line": first.line as u64,
        "column": first.column as u64,
        "end_line": last.line as u64,
        "end_column": last.column as u64,
        "message": words.message,
        "remedy": words.remedy,
        "rules": rules,
        "related": related
    })
}

/// Returns the array of rules.
fn rules_of(alloc: Global, rules: &[String]) -> Result<Value, AllocError>
    ensures { IfOk result (λ v. view v ≡ array (items_of (map rule_data rules.now))) }
{
    let mut values = Vec::new(alloc);
    for rule in rules {
        values.push(Value::try_from_str(alloc, rule.as_str())?)?;
    }
    Ok(Value::Array(values))
}

/// Returns the array of other places.
fn related_of(alloc: Global, related: &[RelatedPlace]) -> Result<Value, AllocError>
    ensures { IfOk result (λ v. view v ≡ array (items_of (map related_data related.now))) }
{
    let mut values = Vec::new(alloc);
    for place in related {
        values.push(place_of(alloc, place)?)?;
    }
    Ok(Value::Array(values))
}

/// Returns the object of another place.
fn place_of(alloc: Global, place: &RelatedPlace) -> Result<Value, AllocError>
    ensures { IfOk result (λ v. view v ≡ related_data place.now) }
{
    let Span {
        at,
        end,
        first,
        last,
    } = place.span;
    json!(in alloc; {
        "at": at as u64,
        "end": end as u64,
        "line": first.line as u64,
        "column": first.column as u64,
        "end_line": last.line as u64,
        "end_column": last.column as u64,
        "message": place.message.as_str()
    })
}

/// Returns the line with a value that has no float.
fn line_of(alloc: Global, value: &Value) -> Result<String, AllocError>
    requires whole { has_float (view value.now) ≡ false }
    ensures { IfOk result (λ line. string_bytes line ≡ line_of (view value.now)) }
{
    let mut line = value.to_string(alloc)?;
    line.push_str("\n")?;
    Ok(line)
}
