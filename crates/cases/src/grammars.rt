//! Answers questions about the texts of grammars.

ghost use Rattle.std.specs.Prelude.{IfOk};
ghost use Rattle.normalform.specs.faults.Faults.{IsReadable};

use ag_grammar::{
    Grammar, Named, Production, RawGrammar, RawItem, RawProduction, RawRule, RawSymbol, occurrences,
};
use ag_text::{expected_at, read_grammar};
use normalform::{NormalFault, check, is_readable};
use rows::words::{Mistake, printed};
use std::alloc::{AllocError, Global};

/// Returns the raw grammar of a text (`raw_text`), or the fault of the text.
pub fn read_answer(alloc: Global, text: &[u8]) -> Result<String, Mistake> {
    match read_grammar(alloc, text) {
        Ok(raw) => raw_text(alloc, &raw),
        Err(fault) => printed(alloc, &fault),
    }
}

/// Returns a raw grammar as text, with a line for each symbol and each production.
fn raw_text(alloc: Global, raw: &RawGrammar) -> Result<String, Mistake> {
    let mut answer = format!(in alloc; "start {} at {}", raw.start.name.as_str(), raw.start.at)?;
    show_lines(&mut answer, raw)?;
    Ok(answer)
}

/// Writes a line for each symbol and each production.
fn show_lines(answer: &mut String, raw: &RawGrammar) -> Result<(), AllocError> {
    for symbol in raw.symbols.as_slice() {
        show_symbol(answer, symbol)?;
    }
    for production in raw.productions.as_slice() {
        show_production(answer, production)?;
    }
    Ok(())
}

/// Writes a line with a symbol and its attributes.
fn show_symbol(answer: &mut String, symbol: &RawSymbol) -> Result<(), AllocError> {
    write!(answer, "\nsymbol {} syn", symbol.name.name.as_str())?;
    show_names(answer, symbol.syn.as_slice())?;
    answer.push_str(" inh")?;
    show_names(answer, symbol.inh.as_slice())
}

/// Writes the names of attributes.
fn show_names(answer: &mut String, names: &[Named]) -> Result<(), AllocError> {
    for name in names {
        write!(answer, " {}", name.name.as_str())?;
    }
    Ok(())
}

/// Writes a line with a production and its rules.
fn show_production(answer: &mut String, production: &RawProduction) -> Result<(), AllocError> {
    write!(answer, "\n{} =", production.left.name.as_str())?;
    for item in production.items.as_slice() {
        match item {
            RawItem::Name(name) => write!(answer, " {}", name.name.as_str())?,
            RawItem::Literal(text) => write!(answer, " {:?}", text.as_str())?,
            RawItem::Class(number) => write!(answer, " class {number}")?,
        }
    }
    for rule in production.rules.as_slice() {
        show_rule(answer, rule)?;
    }
    Ok(())
}

/// Writes the target of a rule and the occurrences in its expression, each with its offset in
/// bytes.
fn show_rule(answer: &mut String, rule: &RawRule) -> Result<(), AllocError> {
    let target = &rule.target;
    write!(
        answer,
        "; {}.{} at {}",
        target.place,
        target.attr.as_str(),
        target.at
    )?;
    for occurrence in occurrences(&rule.expr) {
        let attr = occurrence.attr.as_str();
        write!(
            answer,
            ", of {}.{attr} at {}",
            occurrence.place, occurrence.at
        )?;
    }
    Ok(())
}

/// Returns what is expected at the offset of a text's fault. Fails with `Unfit` if the text has no
/// fault.
pub fn could_answer(alloc: Global, text: &str) -> Result<String, Mistake> {
    match read_grammar(alloc, text.as_bytes()) {
        Ok(_) => Err(Mistake::Unfit),
        Err(fault) => {
            let found = expected_at(alloc, text, fault)?;
            printed(alloc, &found)
        }
    }
}

/// Returns the raw grammar of a text. Fails with `Unfit` if the text isn't a grammar. The
/// test `is_readable` is there only for the contract: it accepts each grammar read from a text.
pub fn raw_grammar(alloc: Global, text: &str) -> Result<RawGrammar, Mistake>
    ensures { IfOk result (λ raw. IsReadable raw) }
{
    match read_grammar(alloc, text.as_bytes()) {
        Ok(raw) if is_readable(&raw) => Ok(raw),
        _ => Err(Mistake::Unfit),
    }
}

/// Returns the grammar of a text. Fails with `Unfit` if it is not accepted.
pub fn grammar(alloc: Global, text: &str) -> Result<Grammar, Mistake> {
    let raw = raw_grammar(alloc, text)?;
    check(alloc, raw).map_err(|_| Mistake::Unfit)
}

/// Returns the name of a fault, and the name of its symbol with the offset in bytes.
fn with_name(alloc: Global, fault: &str, symbol: &Named) -> Result<String, Mistake> {
    Ok(format!(in alloc; "{fault} {} at {}", symbol.name.as_str(), symbol.at)?)
}

/// Returns a fault as text. `Unproductive` and `Unreachable` have the symbol's name and offset.
fn fault_text(alloc: Global, fault: &NormalFault) -> Result<String, Mistake> {
    match fault {
        NormalFault::Unproductive(symbol) => with_name(alloc, "Unproductive", symbol),
        NormalFault::Unreachable(symbol) => with_name(alloc, "Unreachable", symbol),
        _ => printed(alloc, fault),
    }
}

/// Returns `accepted`, or the first fault of a raw grammar.
pub fn verdict(alloc: Global, raw: RawGrammar) -> Result<String, Mistake>
    requires { IsReadable raw }
{
    match check(alloc, raw) {
        Ok(_) => Ok(String::from_str(alloc, "accepted")?),
        Err(fault) => fault_text(alloc, &fault),
    }
}

/// Returns `accepted`, or the first fault of the grammar of a text.
pub fn check_answer(alloc: Global, text: &str) -> Result<String, Mistake> {
    verdict(alloc, raw_grammar(alloc, text)?)
}

/// Returns the parts of a grammar by number, with a line for each production.
pub fn parts_answer(alloc: Global, grammar: &Grammar) -> Result<String, AllocError> {
    let mut answer = format!(in alloc;
        "start {} of {}, classes {:?}, literals",
        grammar.start(),
        grammar.symbols().len(),
        grammar.classes()
    )?;
    show_literals_and_productions(&mut answer, grammar)?;
    Ok(answer)
}

/// Writes the literals, and a line for each production.
fn show_literals_and_productions(answer: &mut String, grammar: &Grammar) -> Result<(), AllocError> {
    for literal in grammar.literals() {
        write!(answer, " {}", literal.as_str())?;
    }
    for production in grammar.productions() {
        show_numbers(answer, production)?;
    }
    Ok(())
}

/// Writes a line with a production, by numbers: its items, and the targets and arguments of its
/// rules.
fn show_numbers(answer: &mut String, production: &Production) -> Result<(), AllocError> {
    write!(
        answer,
        "\n{} = {:?}",
        production.left,
        production.items.as_slice()
    )?;
    for rule in production.rules.as_slice() {
        write!(answer, "; {}.{} of", rule.target.place, rule.target.attr)?;
        for argument in rule.args.as_slice() {
            write!(answer, " {}.{}", argument.place, argument.attr)?;
        }
    }
    Ok(())
}
