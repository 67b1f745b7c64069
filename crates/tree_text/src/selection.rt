//! The attribute that a name means.

use ag_grammar::limits::{NAME, NUMBER, TEXT};
use ag_grammar::{Grammar, Item, Terminal};
use message_parts::classes::class_name;
use message_parts::{NameFault, attribute_named};

/// An attribute that is printed: one of a symbol, or the text of the tokens of a class.
#[derive(Clone, Copy, PartialEq, Eq)]
pub struct SelectedAttribute {
    /// The symbol or the class.
    pub item: Item,
    /// The number of the attribute among those of the symbol, from 0; 0 for a class.
    pub attr: u16,
}

/// Returns the attribute that a name such as `L.sum` or `NUMBER.lex` means. Each class has `lex`,
/// even if the grammar does not use the class. Any other name means an attribute of a symbol; if
/// the grammar does not have it, fails as `attribute_named` does.
pub fn selected_attribute<'a>(
    grammar: &Grammar,
    name: &'a str,
) -> Result<SelectedAttribute, NameFault<'a>> {
    for class in [NAME, NUMBER, TEXT] {
        if name.strip_prefix(class_name(class)) == Some(".lex") {
            return Ok(SelectedAttribute {
                item: Item::Terminal(Terminal::Class(class)),
                attr: 0,
            });
        }
    }
    match attribute_named(grammar, name) {
        Ok((symbol, attr)) => Ok(SelectedAttribute {
            item: Item::Symbol(symbol),
            attr,
        }),
        Err(fault) => Err(fault),
    }
}
