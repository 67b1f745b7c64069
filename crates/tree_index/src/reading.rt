//! The reading of a whole tree file, which makes its index.

ghost use Rattle.std.specs.Prelude.{◌≡◌, ◌∷◌, IfOk, IfSome, IsErrOf, OnOk, Some, reverse, slice_get};
ghost use Rattle.ag_grammar.specs.declared.grammar.Production.{Production as TheProduction};
ghost use Rattle.ag_grammar.specs.grammars.AttributeGrammar.{IsProduction, stored_items};
ghost use Rattle.ag_grammar.specs.grammars.Passes.{nth};
ghost use Rattle.treefile.specs.devices.Device.{LeavesContent, Persists, WhenHonest};
ghost use Rattle.tree_index.specs.Nodes.{IsIndexIn, back_from};
ghost use Rattle.tree_index.specs.Reading.{BeginsRecord, IsNextRecord, HasComeTo, HasClosed, HasFetched, HasOpened};
ghost use Rattle.tree_index.specs.Ready.{IsReady};

use crate::fault::{ShapeFault, TreeFault};
use crate::format::FileFormat;
use crate::index::{NodeKind, TreeIndex, child_count};
use crate::records::split_record;
use ag_carried::Carried;
use ag_grammar::limits::{MAX_DEPTH, MAX_NODES};
use ag_grammar::{Direction, Grammar, Item, Production};
use backreader::Back;
use planchecker::Plan;
use std::alloc::Global;
use treefile::Device;

/// The offset in bytes of the number of the pass in a header.
const PASS_OFFSET: u64 = 4;

/// The greatest size in bytes of a file from which `read_shape` copies bodies to the reader's
/// buffer. From a larger file it borrows bodies one by one, if the device lends them. Borrowing
/// saves copying large bodies, but is slower than copying if bodies are small. Only the size of the
/// file decides, not that of its bodies.
const MAX_COPIED: u64 = 4_194_304;

/// A bound on the number of turns of the loop in `read_file`, for a tree of `MAX_NODES` nodes: one
/// turn to read each node below the root, one to close each node, and one at which no node is open.
const MAX_TURNS: u32 = 2 * MAX_NODES + 1;

/// An open node: a node of a production that was read and is not closed yet. (A node is closed
/// after all nodes of its subtree were read.)
#[derive(Clone, Copy)]
pub(crate) struct OpenRecord {
    /// The number of the node in the tree's index.
    number: u32,
    /// The number of the node's production.
    production: u16,
    /// The number of the node's children.
    children: u16,
    /// The number of children that were visited.
    visited: u16,
    /// The position in `Reading::values` at which the node's row begins: the node's own values, and
    /// then copies of its children's synthesized ones.
    row: usize,
}

/// The copies that a node's row has of the values of a child.
#[derive(Clone, Copy)]
struct Copies {
    /// The position of the first copy in `Reading::values`.
    at: usize,
    /// The number of copies.
    width: usize,
}

/// No copies: for the root, and if values are not read.
const NO_COPIES: Copies = Copies { at: 0, width: 0 };

/// A record that was read.
#[derive(Clone, Copy)]
struct Fetched {
    /// The item of which this is a record.
    item: Item,
    /// The number of the production, or of the token's class.
    number: u16,
    /// The offset in bytes at which the record ends.
    end: u64,
    /// The position in `Reading::values` at which the record's row begins, if values are read.
    row: usize,
}

/// How a file is read: by its format, and with or without the values in its records.
#[derive(Clone, Copy)]
struct Mode<'a> {
    /// The allocator for the values.
    alloc: Global,
    /// The grammar, its plan, and the pass that wrote the file.
    format: FileFormat<'a>,
    /// Whether the values in the records are read.
    with_values: bool,
    /// Whether bodies are borrowed, not copied, if the device lends them.
    lends: bool,
}

/// The record that is expected next.
#[derive(Clone, Copy)]
struct Expected {
    /// The item of which a record is expected.
    item: Item,
    /// The copies, in the parent's row, of the values that are expected in the record.
    copies: Copies,
}

impl Mode<'_> {
    /// Reads a body as the record of an item, and appends the record's row to `values` if values
    /// are read. Returns the number of the production, or of the token's class. Fails with
    /// `Damaged` if the body is not a record of the item, and with `NoMemory` if memory is refused.
    /// If values are not read, only the beginning of the body is checked.
    fn read_body(
        &self,
        item: Item,
        body: &[u8],
        values: &mut Vec<Carried>,
    ) -> Result<u16, ShapeFault>
        ensures begins { IfOk result (λ number. BeginsRecord self.now.format.grammar.now
            item body.now number) }
    {
        if self.with_values {
            return self.format.read_into(self.alloc, item, body, values);
        }
        match split_record(self.format.grammar, item, body) {
            Some((number, _)) => Ok(number),
            None => Err(ShapeFault::Damaged),
        }
    }

    /// Returns where the copies of a child's values are. `row` is the position of the parent's row,
    /// `production` the parent's production, and `place` the child's place, from 1. Returns
    /// `NO_COPIES` if values are not read.
    fn copies_of(&self, row: usize, production: &Production, place: u16) -> Copies {
        if !self.with_values {
            return NO_COPIES;
        }
        let width = match production.item_at(place) {
            Some(item) => self.format.copied_width(item),
            None => 0,
        };
        Copies {
            at: row.saturating_add(self.format.copies_at(production, place)),
            width,
        }
    }

    /// Returns which record is expected for the next child of an open node. Returns `None` if all
    /// children were visited, or if the grammar has no such production or child; `turn` does not
    /// call this function in these cases.
    fn expected_child(&self, node: OpenRecord) -> Option<Expected>
        ensures { IfSome result (λ expected. (q : TheProduction)
            → IsProduction self.now.format.grammar.now node.production q
            → slice_get (stored_items q.items) (nth (back_from self.now.format.pass)
            node.children node.visited) ≡ Some expected.item) }
    {
        if node.children <= node.visited {
            return None;
        }
        let direction = Direction::of_pass(self.format.pass).turned();
        let index = direction.nth(node.children as usize, node.visited as usize);
        let place = (index as u16).saturating_add(1);
        let production = self.format.production(node.production)?;
        Some(Expected {
            item: production.item_at(place)?,
            copies: self.copies_of(node.row, production, place),
        })
    }
}

/// Reads the next body, toward the beginning of the file, as the record of an item, and appends its
/// row if values are read. If the mode lends bodies and the device lends this body, reads only the
/// kind and the number in it.
///
/// Fails with P3 if `MAX_NODES` records were read already. Fails with R1 and the offset
/// `back.end()` if no frame ends at this offset, or if the frame's body is not a record of the
/// item. (If values are not read, only the kind and the number are checked.) Fails with D1 if a
/// call of the device fails, and with NoMemory if memory is refused.
fn fetch<D: Device>(
    mode: &Mode<'_>,
    item: Item,
    back: &mut Back,
    values: &mut Vec<Carried>,
    device: &mut D,
) -> Result<Fetched, TreeFault>
    requires ready { IsReady (D.is_honest device.old) (D.content device.old) back.old }
    ensures fetched { IfOk result (λ fetched. HasFetched mode.now.format.grammar.now
        (D.is_honest device.new) (D.content device.old) item back.old back.new fetched) }
    ensures ready { OnOk result (IsReady (D.is_honest device.new) (D.content device.old) back.new) }
    ensures content { LeavesContent (D.is_honest device.new)
        (D.content device.old) (D.content device.new) }
    ensures persists { Persists (D.is_honest device.old) (D.is_honest device.new)
        (D.failures device.old) (D.failures device.new) (IsErrOf result TreeFault.Device) }
{
    if back.records() >= u64::from(MAX_NODES) {
        return Err(TreeFault::TooManyNodes);
    }
    let end = back.end();
    let row = values.len();
    if mode.lends {
        if let Some(body) = back.lend_back(device) {
            return match split_record(mode.format.grammar, item, body.own_prefix()) {
                Some((number, _)) => Ok(Fetched {
                    item,
                    number,
                    end,
                    row,
                }),
                None => Err(TreeFault::Damaged(end)),
            };
        }
    }
    let Some(body) = back.back(device)? else {
        return Err(TreeFault::Damaged(end));
    };
    match mode.read_body(item, body, values) {
        Ok(number) => Ok(Fetched {
            item,
            number,
            end,
            row,
        }),
        Err(ShapeFault::Damaged) => Err(TreeFault::Damaged(end)),
        Err(ShapeFault::NoMemory) => Err(TreeFault::NoMemory),
    }
}

/// The reading of a tree file from its end.
#[derive(Drop)]
pub(crate) struct Reading {
    pub(crate) back: Back,
    pub(crate) index: TreeIndex,
    /// The open nodes, from the root down.
    pub(crate) nodes: Vec<OpenRecord>,
    /// The rows of the open nodes.
    pub(crate) values: Vec<Carried>,
}

impl Reading {
    /// Reads the next record, compares its values with the copies in its parent's row, and adds its
    /// node to the index. Opens the node if it is one of a production.
    ///
    /// Fails with P2 if `MAX_DEPTH` nodes are open, with R1 if the values differ from the copies,
    /// and otherwise as `fetch` does.
    fn read<D: Device>(
        &mut self,
        mode: &Mode<'_>,
        expected: Expected,
        device: &mut D,
    ) -> Result<(), TreeFault>
        requires ready { IsReady (D.is_honest device.old) (D.content device.old) self.old.back }
        requires next { WhenHonest (D.is_honest device.old) (IsNextRecord mode.now.format.grammar.now
            (D.content device.old) self.old.back expected.item (reverse self.old.nodes.items) self.old.index) }
        ensures ready { OnOk result (IsReady (D.is_honest device.new) (D.content device.old)
            self.new.back) }
        ensures come { OnOk result (WhenHonest (D.is_honest device.new) (HasComeTo
            mode.now.format.grammar.now (D.content device.old) self.new.back
            (reverse self.new.nodes.items) self.new.index)) }
        ensures pass { OnOk result (self.new.index.pass ≡ self.old.index.pass) }
        ensures content { LeavesContent (D.is_honest device.new)
            (D.content device.old) (D.content device.new) }
        ensures persists { Persists (D.is_honest device.old) (D.is_honest device.new)
            (D.failures device.old) (D.failures device.new) (IsErrOf result TreeFault.Device) }
    {
        if self.nodes.len() >= MAX_DEPTH {
            return Err(TreeFault::TooDeep);
        }
        let (back, values) = (&mut self.back, &mut self.values);
        let fetched = fetch(mode, expected.item, back, values, device)?;
        if !self.has_copies(expected.copies, fetched.row) {
            return Err(TreeFault::Damaged(fetched.end));
        }
        self.open(mode.format.grammar, fetched)
    }

    /// Returns whether the row at position `start` of `values` begins with the same values as the
    /// copies in the parent's row. A row begins with the node's synthesized values, or with the
    /// text of a token: these are copied. Returns true for `NO_COPIES`.
    fn has_copies(&self, copies: Copies, start: usize) -> bool {
        if copies.width == 0 {
            return true;
        }
        let Some(own) = self.values.get(start..) else {
            return false;
        };
        let Some(copied) = self.values.get(copies.at..) else {
            return false;
        };
        copies.width <= own.len()
            && copies.width <= copied.len()
            && are_same(&own[..copies.width], &copied[..copies.width])
    }

    /// Adds the node of a record to the index. Opens the node if it is one of a production. Removes
    /// the node's text from `values` if it is a token. Fails if memory is refused.
    fn open(&mut self, grammar: &Grammar, fetched: Fetched) -> Result<(), TreeFault>
        ensures opened { OnOk result (HasOpened grammar.now fetched.item fetched.end fetched.number
            self.old.index self.new.index self.old.nodes.items self.new.nodes.items) }
        ensures back { self.new.back ≡ self.old.back }
        ensures device { IsErrOf result TreeFault.Device → ⊥ }
    {
        let Item::Symbol(_) = fetched.item else {
            self.truncate_values(fetched.row);
            self.index
                .add(fetched.end, NodeKind::Token(fetched.number))?;
            return Ok(());
        };
        let number = self.index.add(fetched.end, NodeKind::Node(fetched.number))?;
        let node = OpenRecord {
            number,
            production: fetched.number,
            children: child_count(grammar, fetched.number),
            visited: 0,
            row: fetched.row,
        };
        let Ok(()) = self.nodes.push(node) else {
            return Err(TreeFault::NoMemory);
        };
        Ok(())
    }

    /// Closes a node that was removed from the list of open nodes: sets its size in the index, and
    /// drops its row.
    fn close(&mut self, node: OpenRecord)
        ensures closed { HasClosed node.number self.old.index self.new.index }
        ensures nodes { self.new.nodes ≡ self.old.nodes }
        ensures back { self.new.back ≡ self.old.back }
    {
        self.index.close(node.number);
        self.truncate_values(node.row);
    }

    /// Drops the values from position `row` on, if there are any.
    fn truncate_values(&mut self, row: usize)
        ensures index { self.new.index ≡ self.old.index }
        ensures nodes { self.new.nodes ≡ self.old.nodes }
        ensures back { self.new.back ≡ self.old.back }
    {
        if row < self.values.len() {
            self.values.truncate(row);
        }
    }

    /// Reads the next child of the innermost open node, or closes the node if all its children were
    /// visited. The node was removed from `nodes`, and is put back before a child is read.
    ///
    /// Fails as `read` does.
    fn turn<D: Device>(
        &mut self,
        mode: &Mode<'_>,
        node: OpenRecord,
        device: &mut D,
    ) -> Result<(), TreeFault>
        requires ready { IsReady (D.is_honest device.old) (D.content device.old) self.old.back }
        requires come { WhenHonest (D.is_honest device.old) (HasComeTo mode.now.format.grammar.now
            (D.content device.old) self.old.back (node ∷ reverse self.old.nodes.items) self.old.index) }
        requires pass { self.old.index.pass ≡ mode.now.format.pass }
        ensures ready { OnOk result (IsReady (D.is_honest device.new) (D.content device.old)
            self.new.back) }
        ensures come { OnOk result (WhenHonest (D.is_honest device.new) (HasComeTo
            mode.now.format.grammar.now (D.content device.old) self.new.back
            (reverse self.new.nodes.items) self.new.index)) }
        ensures pass { OnOk result (self.new.index.pass ≡ self.old.index.pass) }
        ensures content { LeavesContent (D.is_honest device.new)
            (D.content device.old) (D.content device.new) }
        ensures persists { Persists (D.is_honest device.old) (D.is_honest device.new)
            (D.failures device.old) (D.failures device.new) (IsErrOf result TreeFault.Device) }
    {
        if node.visited >= node.children {
            self.close(node);
            return Ok(());
        }
        let Some(expected) = mode.expected_child(node) else {
            // not reached: the grammar has the production of each open node
            return Err(TreeFault::Damaged(self.back.end()));
        };
        let visited = OpenRecord {
            visited: node.visited + 1,
            ..node
        };
        let Ok(()) = self.nodes.push(visited) else {
            return Err(TreeFault::NoMemory);
        };
        self.read(mode, expected, device)
    }

    /// Ends the reading when no node is open, and returns the index. Fails with R1 if bytes are
    /// left between the header and the records that were read, with D1 if a call of the device
    /// fails, and with NoMemory if memory is refused.
    fn end<D: Device>(mut self, device: &mut D) -> Result<TreeIndex, TreeFault>
        requires ready { IsReady (D.is_honest device.old) (D.content device.old) self.back }
        ensures index { IfOk result (λ index. index ≡ self.index) }
        ensures content { LeavesContent (D.is_honest device.new)
            (D.content device.old) (D.content device.new) }
        ensures persists { Persists (D.is_honest device.old) (D.is_honest device.new)
            (D.failures device.old) (D.failures device.new) (IsErrOf result TreeFault.Device) }
    {
        let end = self.back.end();
        if self.back.back(device)?.is_some() {
            return Err(TreeFault::Damaged(end));
        }
        Ok(self.index)
    }
}

/// Returns whether two lists of the same length have the same values.
fn are_same(own: &[Carried], copied: &[Carried]) -> bool {
    for (value, copy) in own.iter().zip(copied) {
        if !value.same(copy) {
            return false;
        }
    }
    true
}

/// Returns the number of the pass in the header of the tree file that a device contains. Fails with
/// R1 at 0 if the content does not begin as a tree file of version 2, with D1 if a call of the
/// device fails, and with NoMemory if memory is refused.
pub fn pass_of_file<D: Device>(alloc: Global, device: &mut D) -> Result<u16, TreeFault>
    ensures content { LeavesContent (D.is_honest device.new)
        (D.content device.old) (D.content device.new) }
    ensures persists { Persists (D.is_honest device.old) (D.is_honest device.new)
        (D.failures device.old) (D.failures device.new) (IsErrOf result TreeFault.Device) }
{
    let back = Back::start(alloc, device)?;
    Ok(back.pass())
}

/// Reads the tree file that a device contains, with or without the values in its records, and makes
/// its index. Fails as `TreeIndex::read` or `read_shape` does.
fn read_file<D: Device>(
    alloc: Global,
    grammar: &Grammar,
    plan: &Plan,
    with_values: bool,
    device: &mut D,
) -> Result<TreeIndex, TreeFault>
    ensures indexed { IfOk result (λ index. WhenHonest (D.is_honest device.new)
        (IsIndexIn grammar.now (D.content device.old) index)) }
    ensures content { LeavesContent (D.is_honest device.new)
        (D.content device.old) (D.content device.new) }
    ensures persists { Persists (D.is_honest device.old) (D.is_honest device.new)
        (D.failures device.old) (D.failures device.new) (IsErrOf result TreeFault.Device) }
{
    let back = Back::start(alloc, device)?;
    let pass = back.pass();
    if plan.assignment().passes() < pass {
        return Err(TreeFault::Damaged(PASS_OFFSET));
    }
    let mode = Mode {
        alloc,
        format: FileFormat {
            grammar,
            plan,
            pass,
        },
        with_values,
        lends: !with_values && MAX_COPIED < back.end(),
    };
    let mut reading = Reading {
        back,
        index: TreeIndex::new(alloc, pass),
        nodes: Vec::new(alloc),
        values: Vec::new(alloc),
    };
    let root = Expected {
        item: Item::Symbol(grammar.start()),
        copies: NO_COPIES,
    };
    reading.read(&mode, root, device)?;
    for _turn in 0..MAX_TURNS {
        let Some(node) = reading.nodes.pop() else {
            return reading.end(device);
        };
        reading.turn(&mode, node, device)?;
    }
    // not reached: `fetch` reads at most `MAX_NODES` records, so the loop has fewer turns
    Err(TreeFault::TooManyNodes)
}

impl TreeIndex {
    /// Reads the tree file that a device contains, as a pass reads it, and makes its index.
    ///
    /// Fails with R1, P2 or P3 if the file is not that of a tree within the limits, and with R1 at
    /// 4 if the plan does not have the file's pass. Fails with D1 if a call of the device fails,
    /// and with NoMemory if memory is refused. Takes memory for a buffer, for the index (16 bytes a
    /// node), and for the open nodes and their rows.
    pub fn read<D: Device>(
        alloc: Global,
        grammar: &Grammar,
        plan: &Plan,
        device: &mut D,
    ) -> Result<TreeIndex, TreeFault>
        ensures indexed { IfOk result (λ index. WhenHonest (D.is_honest device.new)
            (IsIndexIn grammar.now (D.content device.old) index)) }
        ensures content { LeavesContent (D.is_honest device.new)
            (D.content device.old) (D.content device.new) }
        ensures persists { Persists (D.is_honest device.old) (D.is_honest device.new)
            (D.failures device.old) (D.failures device.new) (IsErrOf result TreeFault.Device) }
    {
        read_file(alloc, grammar, plan, true, device)
    }

    /// Makes the index of a file as `read` does, but does not read the values in the records. So a
    /// value may be malformed, missing, one too many, or different from its copy. Otherwise fails
    /// as `read` does. Callers use this function for a file that a pass has just written.
    pub fn read_shape<D: Device>(
        alloc: Global,
        grammar: &Grammar,
        plan: &Plan,
        device: &mut D,
    ) -> Result<TreeIndex, TreeFault>
        ensures indexed { IfOk result (λ index. WhenHonest (D.is_honest device.new)
            (IsIndexIn grammar.now (D.content device.old) index)) }
        ensures content { LeavesContent (D.is_honest device.new)
            (D.content device.old) (D.content device.new) }
        ensures persists { Persists (D.is_honest device.old) (D.is_honest device.new)
            (D.failures device.old) (D.failures device.new) (IsErrOf result TreeFault.Device) }
    {
        read_file(alloc, grammar, plan, false, device)
    }
}
