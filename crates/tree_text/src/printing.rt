//! The text of a tree file.

ghost use Rattle.std.specs.Prelude.{IsErrOf};
ghost use Rattle.treefile.specs.devices.Device.{LeavesContent, Persists};

use crate::fault::ShowFault;
use crate::selection::SelectedAttribute;
use ag_grammar::Item;
use ag_grammar::limits::{MAX_ATTRIBUTES, MAX_NODES};
use ag_value::NoMemory;
use agoutput::write_text;
use std::alloc::Global;
use std::io::Write;
use tree_index::{FileFormat, NodePath, NodeRecord, NodeVisit, SentenceWalk, TreeFault, TreeIndex};
use treefile::Device;

/// A node with its record.
#[derive(Drop)]
pub(crate) struct ShownNode {
    /// The number of the node in the index.
    pub(crate) node: u32,
    /// The level of the node in the `SentenceWalk`; that of the walk's first node is 0.
    pub(crate) level: u32,
    /// The symbol or the class of the node.
    pub(crate) item: Item,
    pub(crate) record: NodeRecord,
}

/// The number of buffered bytes at which the buffer is written to the output.
const BUFFER_BYTES: usize = 65_536;

/// What is printed of a tree file.
#[derive(Clone, Copy)]
pub struct TreeText<'a> {
    /// The grammar, its plan and the file's pass, by which records are read.
    pub format: FileFormat<'a>,
    /// The index of the file.
    pub index: &'a TreeIndex,
    /// The attributes that are printed; if the list is empty, all are.
    pub only: &'a [SelectedAttribute],
    /// The greatest level that is printed; that of the walk's first node is 0.
    pub depth: u32,
    /// In lines, the greatest number of characters of a value that is not a number; 0 for whole
    /// values. JSON has whole values.
    pub width: usize,
    /// Whether each node is printed as a JSON object, not as a line of text.
    pub json: bool,
}

impl TreeText<'_> {
    /// Returns whether an attribute is printed.
    pub(crate) fn is_selected(&self, item: Item, attr: u16) -> bool {
        self.only.is_empty()
            || self
                .only
                .iter()
                .any(|it| it.item == item && it.attr == attr)
    }

    /// Returns whether nodes of this item are printed. If attributes are selected, the item has to
    /// have one of them.
    fn is_printed(&self, item: Item) -> bool {
        for attr in 0..MAX_ATTRIBUTES as u16 {
            if self.is_selected(item, attr) && self.format.attribute_name(item, attr).is_some() {
                return true;
            }
        }
        self.only.is_empty()
    }

    /// Reads the record of a node that is visited. Returns `None` if the node is not printed, if
    /// the index does not have it, and if the grammar does not have its production. Fails with R1
    /// if the record is damaged, with D1 if a call of the device fails, and if memory is refused.
    fn read_node<D: Device>(
        &self,
        alloc: Global,
        visit: NodeVisit,
        device: &mut D,
    ) -> Result<Option<ShownNode>, TreeFault>
        ensures content { LeavesContent (D.is_honest device.new)
            (D.content device.old) (D.content device.new) }
        // A device that is honest after the call was honest before. The number of failures that it
        // counts never falls, and the call fails with D1 only if this number has risen.
        ensures persists { Persists (D.is_honest device.old) (D.is_honest device.new)
            (D.failures device.old) (D.failures device.new) (IsErrOf result TreeFault.Device) }
    {
        let NodeVisit { node, level } = visit;
        let found = (
            self.index.item(self.format.grammar, node),
            self.index.end(node),
        );
        let (Some(item), Some(end)) = found else {
            return Ok(None);
        };
        if !self.is_printed(item) {
            return Ok(None);
        }
        let record = self.format.read_record(alloc, item, device, end)?;
        Ok(Some(ShownNode {
            node,
            level,
            item,
            record,
        }))
    }

    /// Writes a node as a line, or as an object.
    fn write_node(
        &self,
        alloc: Global,
        out: &mut String,
        path: &NodePath,
        shown: &ShownNode,
    ) -> Result<(), NoMemory> {
        if self.json {
            return self.write_object(alloc, out, path, shown);
        }
        self.write_line(alloc, out, path, shown)
    }
}

/// Prints the nodes of a walk over the tree file that `device` contains. If `text.only` is not
/// empty, prints only the nodes that have one of its attributes. The walk has to be over the index
/// `text.index`, and must not have begun. The call sets the walk's greatest level to `text.depth`.
///
/// Fails with R1 if a record is damaged, with D1 if a call of the device fails, with O2 if the
/// output fails, and if memory is refused. A part of the text may have been printed before a
/// failure. A record can be damaged even if the index was made without a failure:
/// `TreeIndex::read_shape` does not read the values, and the file may have changed since
/// `TreeIndex::read` or `TreeIndex::read_shape` read it.
pub fn write_tree<D: Device, W: Write>(
    alloc: Global,
    text: &TreeText<'_>,
    walk: &mut SentenceWalk<'_>,
    device: &mut D,
    out: &mut W,
) -> Result<(), ShowFault>
    ensures content { LeavesContent (D.is_honest device.new)
        (D.content device.old) (D.content device.new) }
{
    walk.set_depth(text.depth);
    let mut buffer = String::new(alloc);
    // the prover needs a bound: the index of a file has at most `MAX_NODES` nodes
    for _node in 0..MAX_NODES {
        let Some(visit) = walk.next()? else {
            break;
        };
        let Some(shown) = text.read_node(alloc, visit, device)? else {
            continue;
        };
        text.write_node(alloc, &mut buffer, walk.path(), &shown)?;
        if BUFFER_BYTES <= buffer.len() {
            flush(&mut buffer, out)?;
        }
    }
    flush(&mut buffer, out)
}

/// Writes the buffer to the output, and empties the buffer. Fails with O2 if the output fails.
fn flush<W: Write>(buffer: &mut String, out: &mut W) -> Result<(), ShowFault> {
    let Ok(()) = write_text(out, buffer.as_str()) else {
        return Err(ShowFault::Write);
    };
    buffer.clear();
    Ok(())
}
