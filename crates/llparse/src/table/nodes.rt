//! The numbering of the symbols and the look-aheads of a grammar, which are the nodes of the graphs
//! for FIRST and FOLLOW.
ghost use Rattle.std.specs.Prelude.{◌≡◌, ◌+◌, ◌<◌, true, length};
ghost use Rattle.ag_grammar.specs.grammars.Accepted.{IsAccepted};
ghost use Rattle.llparse.specs.table.Nodes.{node_of, index_of};
ghost use Rattle.llparse.specs.table.Tables.{is_known};

use crate::ahead::Ahead;
use ag_grammar::limits::CLASS_COUNT;
use ag_grammar::{Grammar, Item, Terminal};

/// The count of a grammar's symbols, and the count of its literals.
#[derive(Clone, Copy, PartialEq, Eq)]
pub(crate) struct Sizes {
    pub(crate) symbols: u16,
    pub(crate) literals: u16,
}

impl Sizes {
    /// Returns the sizes of a grammar. The clause `accepted` states what holds of every `Grammar`,
    /// for the callers' proofs.
    pub(crate) fn of(grammar: &Grammar) -> Sizes
        ensures symbols { result.symbols ≡ length grammar.now.symbols }
        ensures literals { result.literals ≡ length grammar.now.literals }
        ensures accepted { IsAccepted grammar.now }
    {
        Sizes {
            symbols: grammar.symbols().len() as u16,
            literals: grammar.literals().len() as u16,
        }
    }

    /// Returns the index of a look-ahead: literals come first, then classes, then the end.
    pub(crate) fn index(self, ahead: Ahead) -> usize
        ensures { result ≡ index_of self.literals ahead }
    {
        match ahead {
            Ahead::Terminal(Terminal::Literal(literal)) => literal as usize,
            Ahead::Terminal(Terminal::Class(class)) => { self.literals as usize + class as usize }
            Ahead::End => self.literals as usize + CLASS_COUNT as usize,
        }
    }

    /// Returns the number of an item's node: symbols come first, then look-aheads.
    pub(crate) fn node(self, item: Item) -> usize
        ensures { result ≡ node_of self.symbols self.literals item }
    {
        match item {
            Item::Symbol(symbol) => symbol as usize,
            Item::Terminal(terminal) => {
                self.symbols as usize + self.index(Ahead::Terminal(terminal))
            }
        }
    }

    /// Returns the number of look-aheads: the literals, three classes and the end.
    pub(crate) fn aheads(self) -> usize
        ensures { result ≡ self.literals + 4 }
    {
        self.literals as usize + CLASS_COUNT as usize + 1
    }

    /// Returns the number of nodes.
    pub(crate) fn nodes(self) -> usize
        ensures { result ≡ self.symbols + (self.literals + 4) }
    {
        self.symbols as usize + self.aheads()
    }

    /// Returns the look-ahead with an index.
    pub(crate) fn ahead(self, index: usize) -> Ahead
        requires { index < self.literals + 4 }
        ensures index { index_of self.literals result ≡ index }
        ensures known { is_known self.literals result ≡ true }
    {
        let literals = self.literals as usize;
        if index < literals {
            return Ahead::Terminal(Terminal::Literal(index as u16));
        }
        if index < literals + CLASS_COUNT as usize {
            return Ahead::Terminal(Terminal::Class((index - literals) as u16));
        }
        Ahead::End
    }

    /// Returns whether a look-ahead is a literal of the grammar, a class, or the end.
    pub(crate) fn knows(self, ahead: Ahead) -> bool
        ensures { result ≡ is_known self.literals ahead }
    {
        match ahead {
            Ahead::Terminal(Terminal::Literal(literal)) => literal < self.literals,
            Ahead::Terminal(Terminal::Class(class)) => class < CLASS_COUNT,
            Ahead::End => true,
        }
    }
}
