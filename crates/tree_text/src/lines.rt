//! A node as a line of text.

use crate::names::{ItemName, ProductionText};
use crate::printing::{ShownNode, TreeText};
use crate::shown::write_value;
use ag_grammar::Item;
use ag_grammar::limits::MAX_ATTRIBUTES;
use ag_value::NoMemory;
use std::alloc::Global;
use tree_index::NodePath;

/// The greatest number of levels by which a line is indented, two spaces each. The lines of deeper
/// nodes are indented by this number of levels too.
const MAX_INDENTED: u32 = 24;

impl TreeText<'_> {
    /// Writes the line of a node: its path, its production (of a token its class), and the values
    /// of those selected attributes that the file has. If the nodes below it are left out, also
    /// writes their number.
    pub(crate) fn write_line(
        &self,
        alloc: Global,
        out: &mut String,
        path: &NodePath,
        shown: &ShownNode,
    ) -> Result<(), NoMemory> {
        for _ in 0..shown.level.min(MAX_INDENTED) {
            out.push_str("  ")?;
        }
        write!(out, "{path}  ")?;
        self.write_kind(out, shown)?;
        for attr in 0..MAX_ATTRIBUTES as u16 {
            self.write_attribute(alloc, out, shown, attr)?;
        }
        self.write_left_out(out, shown)?;
        Ok(out.push('\n')?)
    }

    /// Writes the production of a node, or the class of a token.
    fn write_kind(&self, out: &mut String, shown: &ShownNode) -> Result<(), NoMemory> {
        let grammar = self.format.grammar;
        match (shown.item, self.format.production(shown.record.number)) {
            (Item::Symbol(_), Some(production)) => {
                let text = ProductionText {
                    grammar,
                    production,
                };
                Ok(write!(out, "{text}")?)
            }
            (item, _) => {
                let name = ItemName { grammar, item };
                Ok(write!(out, "{name}")?)
            }
        }
    }

    /// Writes an attribute of a node, if it is selected and the file has its value.
    fn write_attribute(
        &self,
        alloc: Global,
        out: &mut String,
        shown: &ShownNode,
        attr: u16,
    ) -> Result<(), NoMemory> {
        if !self.is_selected(shown.item, attr) {
            return Ok(());
        }
        let name = self.format.attribute_name(shown.item, attr);
        let value = self.format.own_value(&shown.record, shown.item, attr);
        let (Some(name), Some(value)) = (name, value) else {
            return Ok(());
        };
        write!(out, "  {name}=")?;
        write_value(alloc, out, value, self.width)
    }

    /// Writes the number of nodes below a node, if the node is on the last level that is printed:
    /// the nodes below it are left out. Writes nothing if no nodes are below it.
    fn write_left_out(&self, out: &mut String, shown: &ShownNode) -> Result<(), NoMemory> {
        if shown.level < self.depth {
            return Ok(());
        }
        match self.index.size(shown.node).unwrap_or(1).saturating_sub(1) {
            0 => Ok(()),
            1 => Ok(out.push_str("  (1 node)")?),
            count => Ok(write!(out, "  ({count} nodes)")?),
        }
    }
}
