//! The frames of a tree file of pass 0, and the records that are still to come when the file has
//! been read from its end down to an offset.

ghost use Rattle.treefile.specs.devices.Device.{LeavesContent, Persists};

use ag_grammar::limits::MAX_NODES;
use ag_grammar::{Grammar, Item};
use std::alloc::Global;
use treefile::{Device, FileVersion, LENGTH_BYTES, fits_before};

/// The frame of a record in a tree file: the body, and after it the length of the body.
#[derive(Clone, Copy)]
pub struct Frame {
    /// The offset in bytes at which the frame begins.
    pub begin: u64,
    /// The kind in the body: 0 for a symbol's node, 1 for a token of a class; a damaged file can
    /// have others.
    pub kind: u8,
    /// The number in the body: of the node's production, or of the token's class.
    pub number: u16,
    /// The length of the body in bytes.
    pub bytes: u64,
}

/// Returns the frame that ends at the offset `end`, in bytes, of a tree file of this version. None
/// if no frame ends there, or if the file can't be read there. Takes no memory.
pub fn frame_before<D: Device>(version: FileVersion, tree: &mut D, end: u64) -> Option<Frame>
    ensures content { LeavesContent (D.is_honest tree.new)
        (D.content tree.old) (D.content tree.new) }
    // ⊥ (false) for the condition under which the number of failures has risen: None does not say
    // whether a call of the device failed, so the clause never says that the number rises
    ensures persists { Persists (D.is_honest tree.old) (D.is_honest tree.new)
        (D.failures tree.old) (D.failures tree.new) ⊥ }
{
    let mut length = [0; 4];
    tree.read_at(end.checked_sub(LENGTH_BYTES)?, &mut length)
        .ok()?;
    let bytes = u64::from(u32::from_be_bytes(length));
    if !fits_before(version, end, bytes) {
        return None;
    }
    let begin = end - LENGTH_BYTES - bytes;
    let mut prefix = [0; 3];
    tree.read_at(begin, &mut prefix).ok()?;
    let [kind, high, low] = prefix;
    Some(Frame {
        begin,
        kind,
        number: u16::from_be_bytes([high, low]),
        bytes,
    })
}

/// Reads the records of a file from its end down to the offset `at`, at most `MAX_NODES` records. A
/// node's record ends after those of its children, so it is read before them. Returns the stack of
/// the items whose records are still to come; the record of its last item should end at `at`. At
/// the file's end the stack has only the start symbol. A node's record replaces the last item by
/// the node's children, and any other record removes the last item. None if the file's length or a
/// record can't be read, if a node's record has an unknown production, or if memory is refused.
pub fn expected_before<D: Device>(
    alloc: Global,
    version: FileVersion,
    grammar: &Grammar,
    tree: &mut D,
    at: u64,
) -> Option<Vec<Item>>
    ensures content { LeavesContent (D.is_honest tree.new)
        (D.content tree.old) (D.content tree.new) }
    // ⊥ as in `frame_before`
    ensures persists { Persists (D.is_honest tree.old) (D.is_honest tree.new)
        (D.failures tree.old) (D.failures tree.new) ⊥ }
{
    let mut expected = Vec::new(alloc);
    expected.push(Item::Symbol(grammar.start())).ok()?;
    let mut end = tree.len().ok()?;
    for _ in 0..MAX_NODES {
        if end <= at {
            break;
        }
        let frame = frame_before(version, tree, end)?;
        expected.pop();
        if frame.kind == 0 {
            push_children(grammar, frame.number, &mut expected)?;
        }
        end = frame.begin;
    }
    Some(expected)
}

/// Appends the children that a node of a production has, the rightmost one last: its record comes
/// first when the file is read from its end. None if the grammar has no production with this
/// number, or memory is refused.
fn push_children(grammar: &Grammar, number: u16, expected: &mut Vec<Item>) -> Option<()> {
    let production = grammar.productions().get(usize::from(number))?;
    for item in production.items.as_slice() {
        if item.is_stored_child() {
            expected.push(*item).ok()?;
        }
    }
    Some(())
}
