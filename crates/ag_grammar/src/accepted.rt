//! The type of accepted grammars.

ghost use Rattle.std.specs.Prelude.{◌≡◌};
ghost use Rattle.std.specs.List.Sorted.{IsStrictlyIncreasing};
ghost use Rattle.ag_grammar.specs.grammars.Accepted.{IsAccepted};
ghost use Rattle.ag_grammar.specs.grammars.Order.{IsInOrder, IsInOrderOfAppearance};
ghost use Rattle.ag_grammar.specs.grammars.Order.{literal_numbers};

use crate::grammar::{Production, Symbol};
use ag_value::{Items, Text};
use std::marker::Model;

/// An accepted grammar. In contracts its value is the record `Grammar` of
/// `specs/grammars/AttributeGrammar.antt`, which has the same parts as plain lists. Two facts hold
/// of every value of this type: the grammar is accepted (`IsAccepted`), and it is in order
/// (`IsInOrder`), which means that its classes ascend, and that its literals are numbered in the
/// order of their first appearance.
#[derive(Drop)]
pub struct Grammar {
    symbols: Items<Symbol>,
    productions: Items<Production>,
    literals: Items<Text>,
    classes: Items<u16>,
    start: u16,
}

impl Model for Grammar {
    ghost use Rattle.std.specs.Coded.{codes};
    ghost use Rattle.ag_grammar.specs.contracts.syntax.node.Node as node_row;
    ghost use Rattle.ag_grammar.specs.grammars.Accepted.{IsAccepted};
    ghost use Rattle.ag_grammar.specs.grammars.AttributeGrammar.{Grammar as Plain};
    ghost use Rattle.ag_grammar.specs.grammars.Order.{IsInOrder};

    ghost Value = { Plain };

    ghost coded = { Prim.hlevel (codes, node_row.the_row.coded) };

    ghost view = { λ g. record {
      symbols = g.symbols;
      productions = g.productions;
      literals = g.literals;
      classes = g.classes;
      start = g.start;
    } };

    ghost invariant = { λ g. let plain : Plain = record {
      symbols = g.symbols;
      productions = g.productions;
      literals = g.literals;
      classes = g.classes;
      start = g.start;
    } in IsAccepted plain × IsInOrder plain };
}

impl Grammar {
    /// Makes a grammar from its lists. The caller must prove that the grammar is accepted and in
    /// order; nothing is checked at run time. The crate `normalform` calls this function at the end
    /// of `check`.
    pub fn new(
        symbols: Items<Symbol>,
        productions: Items<Production>,
        literals: Items<Text>,
        classes: Items<u16>,
        start: u16,
    ) -> Grammar
        requires accepted { IsAccepted (record {
          symbols = symbols;
          productions = productions;
          literals = literals;
          classes = classes;
          start = start;
        }) }
        requires in_order { IsInOrder (record {
          symbols = symbols;
          productions = productions;
          literals = literals;
          classes = classes;
          start = start;
        }) }
        ensures { result ≡ record {
          symbols = symbols;
          productions = productions;
          literals = literals;
          classes = classes;
          start = start;
        } }
    {
        Grammar {
            symbols,
            productions,
            literals,
            classes,
            start,
        }
    }

    /// Returns the declared symbols; the number of a symbol is its index.
    pub fn symbols(&self) -> &[Symbol]
        ensures lent { result.now ≡ self.now.symbols }
        ensures accepted { IsAccepted self.now }
    {
        self.symbols.as_slice()
    }

    /// Returns the productions; the number of a production is its index.
    pub fn productions(&self) -> &[Production]
        ensures lent { result.now ≡ self.now.productions }
        ensures accepted { IsAccepted self.now }
    {
        self.productions.as_slice()
    }

    /// Returns the distinct literals in the order of their first appearance on the right sides; the
    /// number of a literal is its index.
    pub fn literals(&self) -> &[Text]
        ensures lent { result.now ≡ self.now.literals }
        ensures accepted { IsAccepted self.now }
        ensures in_order { IsInOrderOfAppearance (literal_numbers self.now) }
    {
        self.literals.as_slice()
    }

    /// Returns the token classes in use, in ascending order: 0 is NAME, 1 is NUMBER, 2 is TEXT.
    pub fn classes(&self) -> &[u16]
        ensures lent { result.now ≡ self.now.classes }
        ensures accepted { IsAccepted self.now }
        ensures ascending { IsStrictlyIncreasing result.now }
    {
        self.classes.as_slice()
    }

    /// Returns the number of the start symbol.
    pub fn start(&self) -> u16
        ensures value { result ≡ self.now.start }
        ensures accepted { IsAccepted self.now }
    {
        self.start
    }
}
