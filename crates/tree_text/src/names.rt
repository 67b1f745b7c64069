//! Items and productions as they are written in a grammar.

use ag_grammar::{Grammar, Item, Production, Terminal};
use message_parts::classes::class_name;
use message_parts::display::{PlainText, QuotedText};
use std::fmt;

/// A symbol, class or literal. A symbol or class prints as its name, and a literal in quotes, as
/// `QuotedText` does. A symbol or literal that the grammar does not have prints nothing.
#[derive(Clone, Copy)]
pub struct ItemName<'a> {
    pub grammar: &'a Grammar,
    pub item: Item,
}

impl fmt::Display for ItemName<'_> {
    fn fmt<W: fmt::Write>(&self, f: &mut fmt::Formatter<W>) -> fmt::Result {
        match self.item {
            Item::Symbol(number) => match self.grammar.symbols().get(usize::from(number)) {
                Some(symbol) => write!(f, "{}", PlainText(symbol.name.as_str())),
                None => Ok(()),
            },
            Item::Terminal(Terminal::Class(number)) => f.write_str(class_name(number)),
            Item::Terminal(Terminal::Literal(number)) => {
                match self.grammar.literals().get(usize::from(number)) {
                    Some(literal) => write!(f, "{}", QuotedText(literal.as_str())),
                    None => Ok(()),
                }
            }
        }
    }
}

/// A production without its rules, which prints as in the grammar, such as `L = B T`.
#[derive(Clone, Copy)]
pub struct ProductionText<'a> {
    pub grammar: &'a Grammar,
    pub production: &'a Production,
}

impl fmt::Display for ProductionText<'_> {
    fn fmt<W: fmt::Write>(&self, f: &mut fmt::Formatter<W>) -> fmt::Result {
        let left = ItemName {
            grammar: self.grammar,
            item: Item::Symbol(self.production.left),
        };
        write!(f, "{left} =")?;
        for item in self.production.items.as_slice() {
            let name = ItemName {
                grammar: self.grammar,
                item: *item,
            };
            write!(f, " {name}")?;
        }
        Ok(())
    }
}
