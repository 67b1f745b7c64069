//! Answers questions about least assignments, and about certificates that a grammar has no legal
//! assignment. A certificate has attributes and strikes. A strike is a reason why a pass of some
//! direction can't compute an attribute: a rule for this attribute, and an argument of this rule
//! that is not computed before the rule is evaluated.

use ag_grammar::Grammar;
use ag_value::Items;
use passassign::{AssignFault, Strike, Stuck, assign};
use planchecker::check_stuck;
use rows::words::{Mistake, halves, parts, printed, short_number};
use std::alloc::{AllocError, Global};

/// Returns the least assignment of a grammar, or the certificate that no assignment is legal.
pub fn assign_answer(alloc: Global, grammar: &Grammar) -> Result<String, Mistake> {
    match assign(alloc, grammar) {
        Ok(assignment) => printed(alloc, &assignment.rows()),
        Err(AssignFault::Stuck(stuck)) => certificate_text(alloc, &stuck),
        Err(AssignFault::NoMemory) => Err(Mistake::NoMemory),
    }
}

/// Returns the row with the verb `stuck` that spells a certificate.
fn certificate_text(alloc: Global, stuck: &Stuck) -> Result<String, Mistake> {
    let mut answer = String::from_str(alloc, "stuck")?;
    show_parts(&mut answer, stuck)?;
    Ok(answer)
}

/// Writes the attributes and the strikes of a certificate.
fn show_parts(answer: &mut String, stuck: &Stuck) -> Result<(), AllocError> {
    for (symbol, attr) in stuck.set.as_slice() {
        write!(answer, " {symbol}.{attr}")?;
    }
    show_strikes(answer, stuck.odd.as_slice())?;
    show_strikes(answer, stuck.even.as_slice())
}

/// Writes a `|`, and after it strikes: those for odd passes, or those for even ones.
fn show_strikes(answer: &mut String, strikes: &[Strike]) -> Result<(), AllocError> {
    answer.push_str(" |")?;
    for strike in strikes {
        answer.push(' ')?;
        show_strike(answer, strike)?;
    }
    Ok(())
}

/// Writes a strike as a row spells it (`strike`).
pub fn show_strike(answer: &mut String, strike: &Strike) -> Result<(), AllocError> {
    write!(answer, "{}.{}", strike.symbol, strike.attr)?;
    write!(
        answer,
        ".{}.{}.{}",
        strike.production, strike.rule, strike.arg
    )
}

/// Returns the attribute that a word spells: `1.0` is attribute 0 of symbol 1.
fn attribute(word: &str) -> Result<(u16, u16), Mistake> {
    let (symbol, attr) = halves(word, ".")?;
    Ok((short_number(symbol)?, short_number(attr)?))
}

/// Returns the attributes of a certificate, written as `1.0` and separated by spaces; `-` alone is
/// none.
fn attributes(alloc: Global, text: &str) -> Result<Items<(u16, u16)>, Mistake> {
    let mut set = Vec::new(alloc);
    for word in parts(alloc, text, " ")?.as_slice() {
        set.push(attribute(word)?)?;
    }
    Ok(Items::from_vec(set))
}

/// Returns the strike that a word spells: `2.1.3.4.0` is the strike of attribute 1 of symbol 2 by
/// argument 0 of rule 4 of production 3.
fn strike(word: &str) -> Result<Strike, Mistake> {
    let (symbol, rest) = halves(word, ".")?;
    let (attr, rest) = halves(rest, ".")?;
    let (production, rest) = halves(rest, ".")?;
    let (rule, arg) = halves(rest, ".")?;
    Ok(Strike {
        symbol: short_number(symbol)?,
        attr: short_number(attr)?,
        production: short_number(production)?,
        rule: short_number(rule)?,
        arg: short_number(arg)?,
    })
}

/// Returns the strikes of a text, separated by spaces; `-` alone is none.
pub fn strikes(alloc: Global, text: &str) -> Result<Items<Strike>, Mistake> {
    let mut strikes = Vec::new(alloc);
    for word in parts(alloc, text, " ")?.as_slice() {
        strikes.push(strike(word)?)?;
    }
    Ok(Items::from_vec(strikes))
}

/// Returns the certificate of a text: its attributes, its strikes for odd passes, and its strikes
/// for even ones, separated by `|`.
fn stuck(alloc: Global, spelled: &str) -> Result<Stuck, Mistake> {
    let (set, rest) = halves(spelled, " | ")?;
    let (odd, even) = halves(rest, " | ")?;
    let set = attributes(alloc, set)?;
    let odd = strikes(alloc, odd)?;
    let even = strikes(alloc, even)?;
    Ok(Stuck { set, odd, even })
}

/// Returns whether `check_stuck` accepts a row's certificate for a grammar.
pub fn stuck_answer(alloc: Global, grammar: &Grammar, spelled: &str) -> Result<String, Mistake> {
    let stuck = stuck(alloc, spelled)?;
    Ok(format!(in alloc; "{}", check_stuck(grammar, &stuck))?)
}
