//! How the records of a tree file are read.

ghost use Rattle.std.specs.Prelude.{IfOk, IfSome, IsErrOf};
ghost use Rattle.ag_grammar.specs.grammars.AttributeGrammar.{IsProduction};
ghost use Rattle.treefile.specs.devices.Device.{LeavesContent, Persists, WhenHonest};
ghost use Rattle.tree_index.specs.Bodies.{HasRecordAt};
ghost use Rattle.tree_index.specs.Reading.{BeginsRecord};

use crate::bodies::body_before;
use crate::fault::{ShapeFault, TreeFault};
use crate::layout::{copied_passes, count_up_to, passes_of};
use crate::records::{read_text, read_values, split_record};
use ag_carried::Carried;
use ag_grammar::limits::MAX_ATTRIBUTES;
use ag_grammar::{Grammar, Item, Production, Terminal};
use planchecker::Plan;
use std::alloc::Global;
use treefile::Device;

/// How the records of a tree file are read: by a grammar, its plan, and the pass that wrote the
/// file.
#[derive(Clone, Copy)]
pub struct FileFormat<'a> {
    /// The grammar.
    pub grammar: &'a Grammar,
    /// A plan of the grammar.
    pub plan: &'a Plan,
    /// The pass that wrote the file; 0 is the parser.
    pub pass: u16,
}

/// The record of a node or of a token.
#[derive(Drop)]
pub struct NodeRecord {
    /// The number of the node's production, or of the token's class.
    pub number: u16,
    /// The values of the record. For a token this is its text. For another node these are the
    /// node's own values, and then copies of its children's synthesized values. (For a child that
    /// is a token, the copy is its text.)
    row: Vec<Carried>,
}

impl<'a> FileFormat<'a> {
    /// Returns the production of a number; `None` if the grammar does not have it.
    pub fn production(&self, number: u16) -> Option<&'a Production>
        ensures { IfSome result (λ production. IsProduction self.now.grammar.now number production.now) }
    {
        self.grammar.productions().get(usize::from(number))
    }

    /// Returns the number of own values in a record of an item, without copies: one for each
    /// attribute whose pass is at most the file's, or the text of a token.
    pub(crate) fn own_width(&self, item: Item) -> usize {
        match item {
            Item::Symbol(symbol) => count_up_to(passes_of(self.plan, symbol), self.pass),
            Item::Terminal(Terminal::Class(_)) => 1,
            Item::Terminal(Terminal::Literal(_)) => 0,
        }
    }

    /// Returns the number of copies of a child's values in its parent's record.
    pub(crate) fn copied_width(&self, item: Item) -> usize {
        count_up_to(copied_passes(self.grammar, self.plan, item), self.pass)
    }

    /// Returns the index in a record's row at which the copies of the values of the child at
    /// `place` (from 1) begin.
    pub(crate) fn copies_at(&self, production: &Production, place: u16) -> usize {
        let mut at = self.own_width(Item::Symbol(production.left));
        for before in 1..place {
            if let Some(item) = production.item_at(before) {
                at = at.saturating_add(self.copied_width(item));
            }
        }
        at
    }

    /// Returns the pass of attribute `attr` of an item, or 0 for a token's text. Attributes are
    /// numbered from 0. Returns `None` if the item does not have the attribute.
    pub fn pass_of(&self, item: Item, attr: u16) -> Option<u16> {
        match item {
            Item::Symbol(symbol) => { passes_of(self.plan, symbol).get(usize::from(attr)).copied() }
            Item::Terminal(Terminal::Class(_)) if attr == 0 => Some(0),
            Item::Terminal(_) => None,
        }
    }

    /// Returns the name of attribute `attr` of an item. Attributes are numbered from 0. Returns
    /// `None` if the item does not have the attribute.
    pub fn attribute_name(&self, item: Item, attr: u16) -> Option<&'a str> {
        match item {
            Item::Symbol(symbol) => {
                self.grammar
                    .symbols()
                    .get(usize::from(symbol))?
                    .attribute_name(attr)
            }
            Item::Terminal(Terminal::Class(_)) if attr == 0 => Some("lex"),
            Item::Terminal(_) => None,
        }
    }

    /// Returns whether an item has an attribute of this name.
    pub fn has_attribute(&self, item: Item, name: &str) -> bool {
        for attr in 0..MAX_ATTRIBUTES as u16 {
            if self.attribute_name(item, attr) == Some(name) {
                return true;
            }
        }
        false
    }

    /// Reads a body as the record of an item, and appends its values to a row. Returns the number
    /// of the production or of the class. Fails with `Damaged` if the body is not a record of the
    /// item, and with `NoMemory` if memory is refused.
    pub(crate) fn read_into(
        &self,
        alloc: Global,
        item: Item,
        body: &[u8],
        row: &mut Vec<Carried>,
    ) -> Result<u16, ShapeFault>
        ensures begins { IfOk result (λ number. BeginsRecord self.now.grammar.now item body.now number) }
    {
        let Some((number, spellings)) = split_record(self.grammar, item, body) else {
            return Err(ShapeFault::Damaged);
        };
        match (item, self.production(number)) {
            (Item::Symbol(_), Some(production)) => {
                self.read_row(alloc, production, spellings, row)?;
            }
            _ => read_text(alloc, spellings, row)?,
        }
        Ok(number)
    }

    /// Reads the values in a record of a node of a production, and appends them to a row: the
    /// node's own values, and then the copies of its children's values. Fails with `Damaged` if
    /// `spellings` does not consist of the spellings of exactly that many values, and with
    /// `NoMemory` if memory is refused.
    fn read_row(
        &self,
        alloc: Global,
        production: &Production,
        spellings: &[u8],
        row: &mut Vec<Carried>,
    ) -> Result<(), ShapeFault> {
        let own = self.own_width(Item::Symbol(production.left));
        let mut rest = read_values(alloc, own, spellings, row)?;
        for item in production.items.as_slice() {
            rest = read_values(alloc, self.copied_width(*item), rest, row)?;
        }
        if rest.is_empty() {
            Ok(())
        } else {
            Err(ShapeFault::Damaged)
        }
    }

    /// Reads the record that ends at offset `end`, in bytes, as a record of an item. Fails with R1
    /// and the offset if no frame ends there, or if its body is not a record of the item. Fails with
    /// D1 if a call of the device fails, and with NoMemory if memory is refused.
    pub fn read_record<D: Device>(
        &self,
        alloc: Global,
        item: Item,
        device: &mut D,
        end: u64,
    ) -> Result<NodeRecord, TreeFault>
        ensures read { IfOk result (λ found. WhenHonest (D.is_honest device.new) (HasRecordAt
            self.now.grammar.now (D.content device.old) item end found.number)) }
        ensures content { LeavesContent (D.is_honest device.new)
            (D.content device.old) (D.content device.new) }
        ensures persists { Persists (D.is_honest device.old) (D.is_honest device.new)
            (D.failures device.old) (D.failures device.new) (IsErrOf result TreeFault.Device) }
    {
        let body = body_before(alloc, device, end)?;
        let mut row = Vec::new(alloc);
        match self.read_into(alloc, item, body.as_slice(), &mut row) {
            Ok(number) => Ok(NodeRecord { number, row }),
            Err(ShapeFault::Damaged) => Err(TreeFault::Damaged(end)),
            Err(ShapeFault::NoMemory) => Err(TreeFault::NoMemory),
        }
    }

    /// Returns the value of attribute `attr` of the node that has this record. `item` is the item
    /// of the node. Attributes are numbered from 0, and the text of a token is attribute 0. Returns
    /// `None` if the record does not have the value.
    pub fn own_value<'r>(
        &self,
        record: &'r NodeRecord,
        item: Item,
        attr: u16,
    ) -> Option<&'r Carried> {
        let passes = match item {
            Item::Symbol(symbol) => passes_of(self.plan, symbol),
            // the text of a token has pass 0
            _ => &[0],
        };
        self.value_at(record, passes, 0, attr)
    }

    /// Returns the value of the synthesized attribute `attr` of a child from the copies in the
    /// record of the child's parent, which is a node of `production`. `place` is the place of the
    /// child, from 1. Attributes are numbered from 0, and the text of a token is attribute 0.
    /// Returns `None` if the record does not have the value.
    pub fn copied_value<'r>(
        &self,
        record: &'r NodeRecord,
        production: &Production,
        place: u16,
        attr: u16,
    ) -> Option<&'r Carried> {
        let item = production.item_at(place)?;
        let passes = copied_passes(self.grammar, self.plan, item);
        self.value_at(record, passes, self.copies_at(production, place), attr)
    }

    /// Returns the value of attribute number `attr` of a list of attributes. `passes` are the
    /// passes of these attributes, and their values begin at index `start` of the record's row.
    /// Returns `None` if the list does not have the attribute, if the attribute has a later pass
    /// than the file, or if the record does not have the value.
    fn value_at<'r>(
        &self,
        record: &'r NodeRecord,
        passes: &[u16],
        start: usize,
        attr: u16,
    ) -> Option<&'r Carried> {
        let attr = usize::from(attr);
        if *passes.get(attr)? > self.pass {
            return None;
        }
        let before = count_up_to(passes.get(..attr)?, self.pass);
        record.row.get(start.checked_add(before)?)
    }
}
