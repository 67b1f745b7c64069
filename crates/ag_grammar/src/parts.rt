//! The items at the places of a production, and the attributes of a symbol.

ghost use Rattle.std.specs.Prelude.{◌≡◌, ◌≤◌, ◌∷◌, List, IfOk, IfSome, None, Some, cond};
ghost use Rattle.std.specs.Prelude.{length, slice_get};
ghost use Rattle.ag_grammar.specs.declared.grammar.Item.{Item as TheItem};
ghost use Rattle.ag_grammar.specs.grammars.AttributeGrammar.{attribute_names, item_at, places_of};
ghost use Rattle.ag_grammar.specs.grammars.AttributeGrammar.{stored_items};
ghost use Rattle.ag_grammar.specs.grammars.Accepted.{max_attributes};

use crate::grammar::{Item, Production, Symbol, Terminal};
use ag_value::NoMemory;
use std::alloc::Global;

impl Item {
    /// Returns whether the item is a child (this project's). A declared symbol is a child, and so
    /// is a token class. Children have places, and are stored in a tree. A literal is not a child.
    /// The contract says that `stored_items`, which lists the children of a right side, keeps the
    /// item exactly if the result is true.
    pub fn is_stored_child(self) -> bool
        ensures { (xs : List TheItem) → stored_items (self ∷ xs)
            ≡ cond result (self ∷ stored_items xs) (stored_items xs) }
    {
        match self {
            Item::Symbol(_) => true,
            Item::Terminal(Terminal::Class(_)) => true,
            Item::Terminal(Terminal::Literal(_)) => false,
        }
    }
}

/// Returns the child with this index, counted from 0 among the children alone, or `None` if there
/// is none.
fn child_at(items: &[Item], index: usize) -> Option<Item>
    ensures { result ≡ slice_get (stored_items items.now) index }
{
    let mut to_skip = index;
    for item in items {
        if item.is_stored_child() {
            if to_skip == 0 {
                return Some(*item);
            }
            to_skip -= 1;
        }
    }
    None
}

impl Production {
    /// Returns the item at a place, or `None` if the place does not exist. The symbol of the left
    /// side is at place 0, and the children are at the places from 1 on, from left to right. The
    /// time of a call grows with the number of items up to the place.
    pub fn item_at(&self, place: u16) -> Option<Item>
        ensures { result ≡ item_at self.now place }
    {
        if place == 0 {
            return Some(Item::Symbol(self.left));
        }
        child_at(self.items.as_slice(), place as usize - 1)
    }

    /// Returns the item at each place, from place 0 on. Fails with `NoMemory` if the list cannot be
    /// allocated.
    pub fn places(&self, alloc: Global) -> Result<Vec<Item>, NoMemory>
        ensures { IfOk result (λ places. places.items ≡ places_of self.now) }
    {
        let mut places = Vec::new(alloc);
        places.push(Item::Symbol(self.left))?;
        for item in self.items.as_slice() {
            if item.is_stored_child() {
                places.push(*item)?;
            }
        }
        Ok(places)
    }
}

impl Symbol {
    /// Returns the number of attributes of the symbol, which must have at most `MAX_ATTRIBUTES`
    /// (16), so that the sum can't overflow.
    pub fn attribute_count(&self) -> usize
        requires { length (attribute_names self.now) ≤ max_attributes }
        ensures { result ≡ length (attribute_names self.now) }
    {
        self.syn.as_slice().len() + self.inh.as_slice().len()
    }

    /// Returns the name of the attribute with this number, or `None` if there is none. Attributes
    /// are numbered from 0, the synthesized ones first, then the inherited ones, both in declared
    /// order.
    pub fn attribute_name(&self, attr: u16) -> Option<&str>
        ensures some { IfSome result (λ name. slice_get (attribute_names self.now) attr ≡ Some name.now) }
        ensures none { result ≡ None → slice_get (attribute_names self.now) attr ≡ None }
    {
        let synthesized = self.syn.as_slice();
        let number = attr as usize;
        let name = if number < synthesized.len() {
            synthesized.get(number)
        } else {
            self.inh.as_slice().get(number - synthesized.len())
        };
        match name {
            Some(name) => Some(name.as_str()),
            None => None,
        }
    }
}
