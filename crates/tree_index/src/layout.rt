//! The passes that a plan assigns to the attributes whose values a record can have.

use ag_grammar::{Grammar, Item, Symbol, Terminal};
use planchecker::Plan;

/// Returns the passes of a symbol's attributes; an empty list if the plan does not have the symbol.
pub(crate) fn passes_of(plan: &Plan, symbol: u16) -> &[u16] {
    match plan.assignment().rows().get(usize::from(symbol)) {
        Some(row) => row.as_slice(),
        None => &[],
    }
}

/// Returns the passes of the synthesized attributes of the symbol with number `symbol`. Returns an
/// empty list if the grammar or the plan does not have the symbol.
fn synthesized_passes<'a>(grammar: &Grammar, plan: &'a Plan, symbol: u16) -> &'a [u16] {
    let passes = passes_of(plan, symbol);
    match grammar.symbols().get(usize::from(symbol)) {
        Some(symbol) => synthesized_among(symbol, passes),
        None => &[],
    }
}

/// Returns the passes of a symbol's synthesized attributes, from the passes of all its attributes:
/// the synthesized ones come first.
fn synthesized_among<'a>(symbol: &Symbol, passes: &'a [u16]) -> &'a [u16] {
    &passes[..symbol.syn.as_slice().len().min(passes.len())]
}

/// Returns the passes of those attributes of a child that its parent's record copies in the file of
/// the last pass: the synthesized attributes of a symbol, or the text of a token, which has pass 0.
/// The list of a literal is empty.
pub(crate) fn copied_passes<'a>(grammar: &Grammar, plan: &'a Plan, item: Item) -> &'a [u16] {
    match item {
        Item::Symbol(symbol) => synthesized_passes(grammar, plan, symbol),
        Item::Terminal(Terminal::Class(_)) => &[0],
        Item::Terminal(Terminal::Literal(_)) => &[],
    }
}

/// Returns the number of elements of `passes` that are at most `last`.
pub(crate) fn count_up_to(passes: &[u16], last: u16) -> usize {
    let mut count = 0usize;
    for pass in passes {
        if *pass <= last {
            count = count.saturating_add(1);
        }
    }
    count
}
