//! Grammars that no order of passes evaluates.

use crate::grammar_text::GrammarText;
use crate::grammars::lookup::AsWritten;
use ag_grammar::{Direction, Occ, RawGrammar, occurrences};
use message_parts::{Parts, Source};
use passassign::{Strike, Stuck};
use std::alloc::AllocError;

/// The greatest number of rules that a message names.
const MAX_NAMED_RULES: usize = 8;

/// Describes A1. The fault itself prints the attributes that no pass can compute. For each of these
/// attributes and each direction of passes, `stuck` has a *strike*: a rule for the attribute, and
/// an argument of the rule that a pass of the direction does not compute in time. If the argument
/// is of the same child as the rule's target, or of a child that is visited later, the rule waits
/// for no other rule. Otherwise the argument has a strike of the same direction too, and the rule
/// waits for the rule of that strike.
///
/// The message names rules of one direction that wait for no other rule, at most `MAX_NAMED_RULES`.
/// It chooses the direction with fewer such rules (docs/DECISIONS.md says why). If both directions
/// have the same number of them, it chooses the direction of pass 1, from right to left. Writes
/// nothing if memory for reading the text again is refused.
pub fn describe_stuck(
    parts: &mut Parts,
    stuck: &Stuck,
    text: &GrammarText<'_>,
) -> Result<(), AllocError> {
    match &text.raw {
        Some(raw) => describe_fewest(parts, stuck, raw, &text.source),
        None => Ok(()),
    }
}

/// Returns the offset in bytes of the first rule that the message of A1 names. None if it names
/// none.
pub fn offset_of_stuck(stuck: &Stuck, text: &GrammarText<'_>) -> Option<usize> {
    let fewest = fewest_strikes(stuck, text.raw.as_ref()?);
    let mut strikes = fewest.strikes.iter();
    let obstacle = strikes.find_map(|strike| fewest.obstacle(*strike))?;
    Some(obstacle.target.at)
}

/// Returns the strikes of the direction with fewer rules that wait for no other rule.
fn fewest_strikes<'a>(stuck: &'a Stuck, raw: &'a RawGrammar) -> DirectionStrikes<'a> {
    let first = DirectionStrikes {
        direction: Direction::RightToLeft,
        strikes: stuck.odd.as_slice(),
        raw,
    };
    let second = DirectionStrikes {
        direction: Direction::LeftToRight,
        strikes: stuck.even.as_slice(),
        raw,
    };
    if second.count() < first.count() {
        second
    } else {
        first
    }
}

/// Describes A1 by the direction with fewer rules that wait for no other rule.
fn describe_fewest(
    parts: &mut Parts,
    stuck: &Stuck,
    raw: &RawGrammar,
    source: &Source<'_>,
) -> Result<(), AllocError> {
    parts.found.push_str(
        "no number of passes computes these attributes (a value depends on itself, or an attribute needs different passes at different nodes)",
    )?;
    fewest_strikes(stuck, raw).describe(parts, source)
}

/// Why a pass reaches a rule for a child's attribute before an argument of the rule is computed.
#[derive(Clone, Copy)]
enum Reason {
    /// The rule uses an attribute of a child that is visited later.
    Later,
    /// The rule uses an attribute of the same child, which is known only after the child's visit.
    Within,
}

/// A rule that a pass reaches before an argument of the rule is computed: the rule's target, that
/// argument, and the reason.
#[derive(Clone, Copy)]
struct Obstacle<'a> {
    target: &'a Occ,
    argument: &'a Occ,
    reason: Reason,
}

impl Obstacle<'_> {
    /// Writes the rule by its target, with its position in the file, and why the pass reaches the
    /// rule too early.
    fn write(&self, out: &mut String, source: &Source<'_>) -> Result<(), AllocError> {
        let (target, argument) = (AsWritten(self.target), AsWritten(self.argument));
        let place = source.place(self.target.at);
        write!(out, "`{target}` {place} uses `{argument}`, ")?;
        let (child, other) = (self.target.place, self.argument.place);
        match self.reason {
            Reason::Later => write!(out, "and ${other} is visited after ${child}"),
            Reason::Within => write!(out, "which is known only after the visit of ${child}"),
        }
    }
}

/// The strikes of the passes of a direction, one for each attribute that no pass can compute, and
/// the grammar as it is written. A strike waits for another one if `reason` returns None for the
/// places of its target and its argument: then the pass would compute the argument in time if the
/// argument had no strike.
#[derive(Clone, Copy)]
struct DirectionStrikes<'a> {
    direction: Direction,
    strikes: &'a [Strike],
    raw: &'a RawGrammar,
}

impl<'a> DirectionStrikes<'a> {
    /// Returns the obstacle of a strike that waits for no other strike: the target and the argument
    /// of its rule, and the reason. None if the strike waits for another one, or if the grammar
    /// does not have the rule or the argument.
    fn obstacle(&self, strike: Strike) -> Option<Obstacle<'a>> {
        let productions = self.raw.productions.as_slice();
        let production = productions.get(usize::from(strike.production))?;
        let rule = production.rules.as_slice().get(usize::from(strike.rule))?;
        let argument = occurrences(&rule.expr).get(usize::from(strike.arg))?;
        let target = &rule.target;
        Some(Obstacle {
            target,
            argument,
            reason: self.reason(target.place, argument.place)?,
        })
    }

    /// Returns why a rule for the place `target` can't use an attribute at the place `argument` in
    /// the same pass of the direction. None if it can, once that attribute is computed.
    fn reason(&self, target: u16, argument: u16) -> Option<Reason> {
        if target == 0 || argument == 0 {
            None
        } else if target == argument {
            Some(Reason::Within)
        } else if self.direction.is_before(target, argument) {
            Some(Reason::Later)
        } else {
            None
        }
    }

    /// Returns the number of strikes that wait for no other strike.
    fn count(&self) -> usize {
        self.strikes
            .iter()
            .filter(|strike| self.obstacle(**strike).is_some())
            .count()
    }

    /// Describes the rules of the strikes that wait for no other strike, and what to do. Writes
    /// nothing if there are none.
    fn describe(&self, parts: &mut Parts, source: &Source<'_>) -> Result<(), AllocError> {
        let count = self.count();
        let (noun, help) = match count {
            0 => return Ok(()),
            1 => ("this rule", "change it"),
            _ => ("these rules", "change one or more of them"),
        };
        let direction = match self.direction {
            Direction::RightToLeft => "From right to left",
            Direction::LeftToRight => "From left to right",
        };
        write!(parts.found, ". {direction}, all of them wait for {noun}: ")?;
        self.write_named(&mut parts.found, source)?;
        write_others(&mut parts.found, count.saturating_sub(MAX_NAMED_RULES))?;
        write!(
            parts.help,
            "{help}, or use a separate attribute for each pass"
        )
    }

    /// Writes the rules of the strikes that wait for no other strike, at most the first
    /// `MAX_NAMED_RULES`.
    fn write_named(&self, out: &mut String, source: &Source<'_>) -> Result<(), AllocError> {
        let mut rules_written = 0usize;
        for strike in self.strikes {
            let Some(obstacle) = self.obstacle(*strike) else {
                continue;
            };
            if rules_written == MAX_NAMED_RULES {
                break;
            }
            let separator = if rules_written == 0 { "" } else { "; " };
            out.push_str(separator)?;
            obstacle.write(out, source)?;
            rules_written = rules_written.saturating_add(1);
        }
        Ok(())
    }
}

/// Writes the number of rules that are not named.
fn write_others(out: &mut String, others: usize) -> Result<(), AllocError> {
    match others {
        0 => Ok(()),
        _ => write!(out, "; and {others} more"),
    }
}
