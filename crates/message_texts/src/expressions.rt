//! Faults of expressions.

use crate::expected::write_expected;
use crate::found::begins_with;
use crate::hints::Context;
use ag_expr::{ExpectedPart as Part, ExprFault, expected_at};
use ag_grammar::limits::{MAX_EXPR_LEVELS, MAX_PLACE};
use ag_text::Expected;
use ag_value::NoMemory;
use message_parts::display::FoundText;
use message_parts::{Location, Parts, Position};
use std::alloc::{AllocError, Global};

/// What is wrong with a name where an operand is expected.
const UNBOUND: &str = ", a name that no `let` binds here";

/// What is wrong with an occurrence (an attribute such as `$1.sum`) in an expression that is not in
/// a grammar.
const NO_VALUE: &str = ", but attributes have values only in a grammar";

/// Returns the location of a fault of an expression: a line and a column if its text has several
/// lines, and otherwise `InFault`, since the fault itself prints its offset.
pub fn locate_in_expression(fault: ExprFault, text: &str) -> Location {
    match offset_in(fault) {
        Some(at) if text.contains('\n') => Location::At(Position::of(text, at)),
        _ => Location::InFault,
    }
}

/// Describes X1 to X4 of the text of an expression. Leaves out what was expected if memory for
/// finding it is refused.
pub fn describe_expression(
    alloc: Global,
    parts: &mut Parts,
    fault: ExprFault,
    text: &str,
) -> Result<(), AllocError> {
    let context = Context::of(text, offset_in(fault));
    match expected_in(alloc, fault, text) {
        Ok(expected) => describe_fault(parts, fault, &context, expected.as_slice()),
        Err(_) => describe_fault(parts, fault, &context, &[]),
    }
}

/// Returns what an expression could go on with at X2, and nothing for other faults. Fails if memory
/// is refused.
fn expected_in(alloc: Global, fault: ExprFault, text: &str) -> Result<Vec<Expected>, NoMemory> {
    let mut expected = Vec::new(alloc);
    if let ExprFault::Unexpected(at) = fault {
        for part in &expected_at(alloc, text, at)? {
            expected.push(Expected::Part(*part))?;
        }
    }
    Ok(expected)
}

/// Returns the offset in bytes of a fault of an expression. None for refused memory.
pub fn offset_in(fault: ExprFault) -> Option<usize> {
    match fault {
        ExprFault::NoToken(at)
        | ExprFault::Unexpected(at)
        | ExprFault::NumberTooLarge(at)
        | ExprFault::TooDeep(at) => Some(at),
        ExprFault::NoMemory => None,
    }
}

/// Describes a fault of an expression. `context` is the text around the fault's offset, and
/// `expected` is what could be at this offset.
pub fn describe_fault(
    parts: &mut Parts,
    fault: ExprFault,
    context: &Context<'_>,
    expected: &[Expected],
) -> Result<(), AllocError> {
    match fault {
        ExprFault::NoToken(_) => describe_no_token(parts, context),
        ExprFault::Unexpected(_) => describe_unexpected(parts, context, expected),
        ExprFault::NumberTooLarge(_) => describe_number(parts, context),
        ExprFault::TooDeep(_) => describe_depth(parts),
        ExprFault::NoMemory => Ok(()),
    }
}

/// Describes characters that begin no token.
fn describe_no_token(parts: &mut Parts, context: &Context<'_>) -> Result<(), AllocError> {
    write!(
        parts.found,
        "no token begins with {}",
        FoundText(context.found)
    )?;
    parts.help.push_str(context.token_hint())
}

/// Describes a number, or a place after `$`, that is too large.
fn describe_number(parts: &mut Parts, context: &Context<'_>) -> Result<(), AllocError> {
    write!(parts.found, "found {}", FoundText(context.found))?;
    if begins_with(context.found, '$') {
        write!(
            parts.expected,
            "expected a place of at most {MAX_PLACE} after `$`"
        )
    } else {
        write!(parts.expected, "expected a number of at most {}", i64::MAX)
    }
}

/// Describes an expression that nests too deep.
fn describe_depth(parts: &mut Parts) -> Result<(), AllocError> {
    write!(
        parts.found,
        "the expression nests more than {MAX_EXPR_LEVELS} levels deep"
    )?;
    parts
        .help
        .push_str("compute a part of it in another attribute")
}

/// Describes X2: the token that was found, and what could be there instead (`expected`) or what is
/// wrong with the token (`describe_expected` says when). Adds a hint, if there is one.
fn describe_unexpected(
    parts: &mut Parts,
    context: &Context<'_>,
    expected: &[Expected],
) -> Result<(), AllocError> {
    write!(parts.found, "found {}", FoundText(context.found))?;
    describe_expected(parts, context, expected)?;
    parts.help.push_str(context.expression_hint(expected))
}

/// Describes what could be in place of the token that was found. If this token is a name that no
/// `let` binds, or an occurrence outside a grammar, writes what is wrong with the token instead.
fn describe_expected(
    parts: &mut Parts,
    context: &Context<'_>,
    expected: &[Expected],
) -> Result<(), AllocError> {
    match expected.first() {
        Some(Expected::Part(Part::BoundName)) => parts.found.push_str(UNBOUND),
        Some(Expected::Part(Part::Expression | Part::Operand)) if begins_with(context.found, '$') =>
            parts.found.push_str(NO_VALUE),
        _ => write_expected(&mut parts.expected, expected),
    }
}
