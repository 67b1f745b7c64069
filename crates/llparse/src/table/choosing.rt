//! The production that one look-ahead chooses for each symbol, and the least pair of productions
//! that conflict there.
ghost use Rattle.std.specs.Prelude.{◌≡◌, ◌≤◌, ◌<◌, ℕ, true, length, slice_get};
ghost use Rattle.std.specs.Prelude.{Some, IfOk};
ghost use Rattle.ag_grammar.specs.declared.grammar.Production.{Production as AProduction};
ghost use Rattle.ag_grammar.specs.grammars.Accepted.{max_productions};
ghost use Rattle.llparse.specs.table.Predicted.{AreEarliestFrom, IsLeastFrom, PutsEarliest, PutsLeast};

use ag_grammar::Production;
use ag_value::NoMemory;
use std::alloc::Global;

/// Two productions that conflict, by their numbers; `first` is the lesser one.
#[derive(Clone, Copy, PartialEq, Eq)]
pub(crate) struct Pair {
    pub(crate) first: u16,
    pub(crate) second: u16,
}

/// The choices and the least conflict at one look-ahead. The choice for a symbol is the
/// least-numbered one of its productions that the look-ahead predicts, or `None` if it predicts
/// none of them.
#[derive(Drop)]
pub(crate) struct Column {
    pub(crate) choices: Vec<Option<u16>>,
    pub(crate) conflict: Option<Pair>,
}

/// Returns the least conflict after one more marked production. Productions are handled from the
/// last to the first, so `production` is less than the numbers handled so far. `chosen` is the
/// choice so far for the symbol of `production`, and `conflict` is the least conflict so far. If
/// there is a choice, it conflicts with `production`, and this pair is the least conflict: each
/// other pair has a greater first production, or the same and a greater second one. Otherwise the
/// least conflict is `conflict`.
fn conflict_with(production: u16, chosen: Option<u16>, conflict: Option<Pair>) -> Option<Pair>
    ensures some { (r : ℕ) → chosen ≡ Some r → result ≡ Some
        (record { first = production; second = r }) }
    ensures none { chosen ≡ None → result ≡ conflict }
{
    match chosen {
        Some(second) => Some(Pair {
            first: production,
            second,
        }),
        None => conflict,
    }
}

impl Column {
    /// Chooses a production for its symbol, and updates the least conflict. The production has a
    /// lesser number than all that were handled so far.
    fn put(&mut self, symbol: usize, production: u16)
        requires symbol { symbol < length self.old.choices.items }
        ensures len { length self.new.choices.items ≡ length self.old.choices.items }
        ensures earliest { PutsEarliest symbol production true self.old.choices.items
            self.new.choices.items }
        ensures least { PutsLeast symbol production true self.old.choices.items
            self.old.conflict self.new.conflict }
    {
        self.conflict = conflict_with(production, self.choices[symbol], self.conflict);
        self.choices[symbol] = Some(production);
    }

    /// Does the same as `put` if the production is marked (`wanted`), and otherwise nothing.
    fn choose_if(&mut self, symbol: usize, production: u16, wanted: bool)
        requires symbol { symbol < length self.old.choices.items }
        ensures len { length self.new.choices.items ≡ length self.old.choices.items }
        ensures earliest { PutsEarliest symbol production wanted self.old.choices.items
            self.new.choices.items }
        ensures least { PutsLeast symbol production wanted self.old.choices.items
            self.old.conflict self.new.conflict }
    {
        if wanted {
            self.put(symbol, production);
        }
    }
}

/// Returns the choices and the least conflict at a look-ahead, from the marks of the productions
/// that it predicts. `symbols` is the number of symbols. Fails with `NoMemory` if memory is
/// refused.
pub(crate) fn choose(
    alloc: Global,
    productions: &[Production],
    marks: &[bool],
    symbols: usize,
) -> Result<Column, NoMemory>
    requires few { length productions.now ≤ max_productions }
    requires len { length marks.now ≡ length productions.now }
    requires below { (p : ℕ) (q : AProduction) → slice_get productions.now p ≡ Some q
        → q.left < symbols }
    ensures len { IfOk result (λ column. length column.choices.items ≡ symbols) }
    ensures earliest { IfOk result
        (λ column. AreEarliestFrom productions.now marks.now 0 column.choices.items) }
    ensures least { IfOk result
        (λ column. IsLeastFrom productions.now marks.now 0 column.conflict) }
{
    let mut column = Column {
        choices: vec![in alloc; None; symbols]?,
        conflict: None,
    };
    for at in (0..productions.len()).rev() {
        column.choose_if(productions[at].left as usize, at as u16, marks[at]);
    }
    Ok(column)
}
