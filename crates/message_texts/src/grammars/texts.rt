//! Texts that are not grammars.

use crate::expected::write_expected;
use crate::expressions::{describe_fault, offset_in};
use crate::found::{begins_with, token_fault};
use crate::grammar_text::GrammarText;
use crate::hints::Context;
use ag_expr::{ExpectedPart as Part, ExprFault};
use ag_grammar::limits::MAX_TEXT_BYTES;
use ag_text::{Expected, TextFault, expected_at, expected_in_part};
use message_parts::Parts;
use message_parts::display::FoundText;
use std::alloc::AllocError;

/// What a literal needs.
const LITERAL_NEEDS: &str =
    "expected a literal of at least one character, without spaces, tabs and line breaks";

/// What a writer may have meant by a name that no `let` binds.
const ATTRIBUTE: &str = "an attribute is written with its place, as in `$1.s`";

/// Returns the offset in bytes of a fault of a grammar's text. None if the text is too long, or if
/// memory was refused.
pub fn offset_in_text(fault: TextFault) -> Option<usize> {
    match fault {
        TextFault::BadUtf8(at) | TextFault::Unexpected(_, at) => Some(at),
        TextFault::Expr(fault) => offset_in(fault),
        TextFault::TooLong | TextFault::NoMemory => None,
    }
}

/// Describes G1 to G4 of a grammar's text. Leaves out what was expected if memory for finding it is
/// refused.
pub fn describe_text(
    parts: &mut Parts,
    fault: TextFault,
    text: &GrammarText<'_>,
) -> Result<(), AllocError> {
    let context = Context::of(text.text, offset_in_text(fault));
    let expected = match text.part_with(offset_in_text(fault)) {
        Some(from) => expected_in_part(text.alloc, text.text, from, fault),
        None => expected_at(text.alloc, text.text, fault),
    };
    match expected {
        Ok(expected) => describe_in(parts, fault, &context, expected.as_slice()),
        Err(_) => describe_in(parts, fault, &context, &[]),
    }
}

/// Describes a fault of a text. `expected` is what could be at the fault's offset.
fn describe_in(
    parts: &mut Parts,
    fault: TextFault,
    context: &Context<'_>,
    expected: &[Expected],
) -> Result<(), AllocError> {
    if let Some(fault) = damaged_token(context.found, expected) {
        return describe_fault(parts, fault, context, &[]);
    }
    match fault {
        TextFault::BadUtf8(_) => parts.add(
            "the bytes here are not UTF-8",
            "save the file as UTF-8",
        ),
        TextFault::Unexpected(_, _) => describe_unexpected(parts, context, expected),
        TextFault::Expr(fault) => describe_rule(parts, fault, context, expected),
        TextFault::TooLong => {
            parts.add_size_limit("the file", MAX_TEXT_BYTES, "shorten the grammar")
        }
        TextFault::NoMemory => Ok(()),
    }
}

/// Describes a fault of the expression of a rule. If a bound name is expected and there is no other
/// hint, adds how an attribute is written.
fn describe_rule(
    parts: &mut Parts,
    fault: ExprFault,
    context: &Context<'_>,
    expected: &[Expected],
) -> Result<(), AllocError> {
    describe_fault(parts, fault, context, expected)?;
    if parts.help.is_empty() && expected.contains(&Expected::Part(Part::BoundName)) {
        return parts.help.push_str(ATTRIBUTE);
    }
    Ok(())
}

/// Returns why what was found begins with no token, if a literal or a rule was meant. A literal is
/// meant by a quote where an item is expected. A rule is meant by a `$` where a rule is expected,
/// since a rule begins with its target, such as `$1.sum`. None if neither was meant, or if what was
/// found begins with a token.
fn damaged_token(found: Option<&str>, expected: &[Expected]) -> Option<ExprFault> {
    let is_meant = begins_with(found, '"') && expected.contains(&Expected::Item)
        || begins_with(found, '$') && expected.contains(&Expected::Rule);
    if is_meant { token_fault(found?) } else { None }
}

/// Describes a token outside the expressions, and what the text could go on with. At a text in
/// quotes where an item is expected, writes instead what a literal needs.
fn describe_unexpected(
    parts: &mut Parts,
    context: &Context<'_>,
    expected: &[Expected],
) -> Result<(), AllocError> {
    write!(parts.found, "found {}", FoundText(context.found))?;
    if expected.contains(&Expected::Item) && begins_with(context.found, '"') {
        return parts.expected.push_str(LITERAL_NEEDS);
    }
    write_expected(&mut parts.expected, expected)?;
    parts.help.push_str(context.grammar_hint(expected))
}
