//! A grammar as parsed from a text: names are not resolved, and offsets are kept for error
//! messages. All lists have the order of the text.

ghost use Rattle.std.specs.Prelude.{◌≡◌, ◌∷◌, ◌<◌, ◌-◌, List, IfSome, None, Some, cond, length};
ghost use Rattle.std.specs.Prelude.{slice_get};
ghost use Rattle.ag_grammar.specs.declared.raw.RawItem.{RawItem as TheRawItem};
ghost use Rattle.ag_grammar.specs.grammars.Raw.{raw_attribute_names, raw_stored};

use crate::syntax::expression::Expr;
use crate::syntax::occurrence::Occ;
use ag_value::{Items, Text};

/// A name and its offset.
#[derive(Debug, Drop)]
pub struct Named {
    /// The name.
    pub name: Text,
    /// The offset in bytes of the first character of the name, from the beginning of the text.
    pub at: usize,
}

/// The declaration of a symbol.
#[derive(Drop)]
pub struct RawSymbol {
    /// The symbol's name.
    pub name: Named,
    /// The names of its synthesized attributes.
    pub syn: Items<Named>,
    /// The names of its inherited attributes.
    pub inh: Items<Named>,
}

impl RawSymbol {
    /// Returns the name of the attribute with this number, or `None` if there is none. Attributes
    /// are numbered from 0, the synthesized ones first, then the inherited ones, both in the order
    /// of the text.
    pub fn attribute_name(&self, number: usize) -> Option<&str>
        ensures some { IfSome result
            (λ name. slice_get (raw_attribute_names self.now) number ≡ Some name.now) }
        ensures none { result ≡ None → slice_get (raw_attribute_names self.now) number ≡ None }
    {
        let synthesized = self.syn.as_slice();
        let named = if number < synthesized.len() {
            synthesized.get(number)
        } else {
            self.inh.as_slice().get(number - synthesized.len())
        };
        match named {
            Some(named) => Some(named.name.as_str()),
            None => None,
        }
    }
}

/// An item of the right side of a production.
#[derive(Drop)]
pub enum RawItem {
    /// The name of a symbol.
    Name(Named),
    /// A literal's text, without its quotes and with its escapes resolved.
    Literal(Text),
    /// A token of a class: 0 is NAME, 1 is NUMBER, 2 is TEXT.
    Class(u16),
}

impl RawItem {
    /// Returns whether the item is a child (this project's). A symbol's name is a child, and so is
    /// a token class. Children have places, and are stored in a tree. A literal is not a child. The
    /// contract says that `raw_stored`, which lists the children of a right side, keeps the item
    /// exactly if the result is true.
    pub fn is_stored_child(&self) -> bool
        ensures { (xs : List TheRawItem) → raw_stored (self.now ∷ xs)
            ≡ cond result (self.now ∷ raw_stored xs) (raw_stored xs) }
    {
        match self {
            RawItem::Name(_) | RawItem::Class(_) => true,
            RawItem::Literal(_) => false,
        }
    }
}

/// A semantic rule: the attribute that it defines, and the expression for its value.
#[derive(Drop)]
pub struct RawRule {
    /// The attribute that the rule defines; its offset is that of the `$`.
    pub target: Occ,
    /// The expression; the offsets of its occurrences are offsets in the text of the grammar.
    pub expr: Expr,
}

/// A production.
#[derive(Drop)]
pub struct RawProduction {
    /// The name of the symbol on the left side.
    pub left: Named,
    /// The items of the right side.
    pub items: Items<RawItem>,
    /// The semantic rules.
    pub rules: Items<RawRule>,
}

impl RawProduction {
    /// Returns the child at a place of the right side, from 1 on, or `None` if the place does not
    /// exist or is 0 (the left side). The time of a call grows with the number of items up to the
    /// place.
    pub fn item_at(&self, place: usize) -> Option<&RawItem>
        ensures some { IfSome result (λ item. (0 < place)
            × (slice_get (raw_stored self.now.items) (place - 1) ≡ Some item.now)) }
        ensures none { result ≡ None → 0 < place
            → slice_get (raw_stored self.now.items) (place - 1) ≡ None }
    {
        if place == 0 {
            return None;
        }
        let mut to_skip = place - 1;
        for item in self.items.as_slice() {
            if item.is_stored_child() {
                if to_skip == 0 {
                    return Some(item);
                }
                to_skip -= 1;
            }
        }
        None
    }

    /// Returns the last place, which is the number of children.
    pub fn last_place(&self) -> usize
        ensures { result ≡ length (raw_stored self.now.items) }
    {
        let mut last = 0;
        for item in self.items.as_slice() {
            if item.is_stored_child() {
                last += 1;
            }
        }
        last
    }
}

/// A grammar as parsed from a text.
#[derive(Drop)]
pub struct RawGrammar {
    /// The name of the start symbol.
    pub start: Named,
    /// The declarations of symbols.
    pub symbols: Items<RawSymbol>,
    /// The productions.
    pub productions: Items<RawProduction>,
}
