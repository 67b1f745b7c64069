//! Converts a tree file of version 1 to version 2.

ghost use Rattle.std.specs.Prelude.{◌≡◌, ◌+◌, ◌-◌, ◌<◌, ◌≤◌, ◌^◌, All, false, length, IfErr, IfOk};
ghost use Rattle.std.specs.Prelude.{IfSome, IsErrOf, OnOk, [], ◌∷◌, ◌++◌};
ghost use Rattle.ag_value.specs.Well.{IsWell};
ghost use Rattle.ag_grammar.specs.grammars.Accepted.{IsAccepted};
ghost use Rattle.ag_grammar.specs.grammars.AttributeGrammar.{stored_items};
ghost use Rattle.passrun.specs.passing.Ahead.{IsResourceFault};
ghost use Rattle.passrun.specs.passing.Putting.{AddsFrames, HasPut, LeavesFrames};
ghost use Rattle.tree_upgrade.specs.upgrading.Upgrading.{Converted, HasTaken, IsConverted, IsUpgrading, IsUnconverted};
ghost use Rattle.tree_upgrade.specs.upgrading.Upgrading.{IsUpgradeFault, IsUpgraded, stored_count, text_list};
ghost use Rattle.treefile.specs.records.TreeFile.{version_two};
ghost use Rattle.treefile.specs.framing.Beginning.{LeavesBeginning};
ghost use Rattle.treefile.specs.devices.Device.{LeavesContent, Persists, WhenHonest};
ghost use Rattle.treefile.specs.devices.Several.{BothPersist, ThreePersist};

mod old_record;

use crate::upgrading::old_record::{OldRecord, old_record};
use ag_grammar::{Grammar, Item};
use ag_value::{NoMemory, Value};
use backreader::{Arity, Back, MAX_REVERSED_LEVELS, MAX_REVERSED_RECORDS, turn};
use passrun::{RecordFault, RunFault};
use std::alloc::Global;
use std::slice;
use treefile::{Device, Kind, Writer};

/// The offset of the pass number in a header, in bytes.
const PASS_OFFSET: u64 = 4;

/// The pass number of the intermediate file. As in a file of pass 1, each node is written after its
/// children, and the children from right to left.
const BETWEEN: u16 = 1;

/// Reads a tree file of version 1 from its end, and writes the records of version 2 of the same
/// tree.
#[derive(Drop)]
struct Upgrading {
    alloc: Global,
    back: Back,
    writer: Writer,
}

/// A subtree that is expected: the item of its root, and the root's level.
#[derive(Clone, Copy)]
struct Subtree {
    item: Item,
    level: u16,
}

impl Upgrading {
    /// Reads the record of a subtree's root: the body of the next frame, which ends where the frame
    /// read last begins, or at the end of the file if none was read. Requires an item that is a
    /// child: a symbol or a class. Fails with P2 if the root's level exceeds `MAX_REVERSED_LEVELS`,
    /// and with P3 if `MAX_REVERSED_RECORDS` records were read already. Fails with R1, and with the
    /// offset where the frame has to end, if no frame ends there or its body is not a record of the
    /// item. Fails with D1 if the device fails, and with `NoMemory` if memory cannot be allocated.
    fn record<D: Device>(
        &mut self,
        grammar: &Grammar,
        subtree: Subtree,
        from: &mut D,
    ) -> Result<OldRecord, RunFault>
        requires accepted { IsAccepted grammar.now }
        requires ready { IsUpgrading (D.is_honest from.old) (D.content from.old)
            self.old.back self.old.writer }
        requires place { stored_items (subtree.item ∷ []) ≡ subtree.item ∷ [] }
        ensures taken { IfOk result (λ r. HasTaken grammar.now subtree.item subtree.level
            (D.is_honest from.new) (D.content from.old) self.old.back self.new.back r) }
        ensures writer { self.new.writer ≡ self.old.writer }
        ensures refused { IfErr result (λ f. WhenHonest (D.is_honest from.new)
            (IsUnconverted grammar.now (D.content from.old) (subtree.item ∷ []) subtree.level
            self.old.back.progress f)) }
        ensures content { LeavesContent (D.is_honest from.new)
            (D.content from.old) (D.content from.new) }
        ensures persists { Persists (D.is_honest from.old) (D.is_honest from.new)
            (D.failures from.old) (D.failures from.new) (IsErrOf result RunFault.Device) }
    {
        let Subtree { item, level } = subtree;
        if MAX_REVERSED_LEVELS < level {
            return Err(RunFault::TooDeep);
        }
        if self.back.records() >= MAX_REVERSED_RECORDS {
            return Err(RunFault::TooManyNodes);
        }
        let end = self.back.end();
        let Some(body) = self.back.back(from)? else {
            return Err(RunFault::Damaged(end));
        };
        match old_record(self.alloc, grammar, item, body) {
            Ok(record) => Ok(record),
            Err(RecordFault::Damaged) => Err(RunFault::Damaged(end)),
            Err(RecordFault::NoMemory) => Err(RunFault::NoMemory),
        }
    }

    /// Converts a subtree, if its item is a symbol or a class: reads its records, and writes the
    /// records of version 2. Writes each node after its children, and the children from right to
    /// left. For a literal does nothing. Returns the token's text if the item is a class, and
    /// otherwise `None`: the caller needs the texts, since in version 2 and pass 0 the values in a
    /// node's record are the texts of its children that are tokens. Fails as `upgrade` does for the
    /// first device, and with D1 if the second one fails.
    fn tree<D: Device, E: Device>(
        &mut self,
        grammar: &Grammar,
        subtree: Subtree,
        from: &mut D,
        to: &mut E,
    ) -> Result<Option<Value>, RunFault>
        requires accepted { IsAccepted grammar.now }
        requires ready { IsUpgrading (D.is_honest from.old) (D.content from.old)
            self.old.back self.old.writer }
        ensures converted { IfOk result (λ text. WhenHonest (D.is_honest from.new)
            (Converted grammar.now (D.content from.old) [] (subtree.item ∷ []) subtree.level
            self.old.back.progress self.new.back.progress
            (E.is_honest to.new) (E.content to.old) (E.content to.new) (text_list text))) }
        ensures refused { IfErr result (λ f. WhenHonest (D.is_honest from.new)
            (IsUnconverted grammar.now (D.content from.old) (subtree.item ∷ []) subtree.level
            self.old.back.progress f)) }
        ensures ready { OnOk result (IsUpgrading (D.is_honest from.new) (D.content from.old)
            self.new.back self.new.writer) }
        ensures well { IfOk result (λ text. IfSome text IsWell) }
        // The call writes as many records as it reads.
        ensures balanced { OnOk result
            (self.new.writer.written + self.old.back.progress.records
            ≡ self.old.writer.written + self.new.back.progress.records) }
        // Frames were appended to the second device, possibly none; after a failure, a prefix of
        // such frames
        ensures added { OnOk result (AddsFrames (E.is_honest to.new)
            (E.content to.old) (E.content to.new)) }
        ensures left { IfErr result (LeavesFrames (E.is_honest to.new)
            (E.content to.old) (E.content to.new)) }
        ensures content { LeavesContent (D.is_honest from.new)
            (D.content from.old) (D.content from.new) }
        ensures devices { BothPersist D.is_honest D.failures from.old from.new
            E.is_honest E.failures to.old to.new (IsErrOf result RunFault.Device) }
    {
        let Subtree { item, level } = subtree;
        if !item.is_stored_child() {
            return Ok(None);
        }
        let production = match self.record(grammar, subtree, from)? {
            OldRecord::Node(production) => production,
            OldRecord::Token(class, text) => {
                put_record(
                    Kind::Token,
                    class,
                    slice::from_ref(&text),
                    &mut self.writer,
                    to,
                )?;
                return Ok(Some(text));
            }
        };
        let items = grammar.productions()[production as usize].items.as_slice();
        let mut texts = Vec::new(self.alloc);
        for at in (0..items.len()).rev() {
            let child = Subtree {
                item: items[at],
                level: level + 1,
            };
            let text = self.tree(grammar, child, from, to)?;
            add_text(&mut texts, text)?;
        }
        texts.as_mut_slice().reverse();
        put_record(
            Kind::Node,
            production,
            texts.as_slice(),
            &mut self.writer,
            to,
        )?;
        Ok(None)
    }
}

/// Appends a text, if there is one. Fails with `NoMemory` if memory cannot be allocated.
fn add_text(texts: &mut Vec<Value>, text: Option<Value>) -> Result<(), NoMemory>
    ensures { OnOk result (texts.new.items ≡ texts.old.items ++ text_list text) }
{
    if let Some(text) = text {
        texts.push(text)?;
    }
    Ok(())
}

/// Reads the file of version 1 and pass 0 of a tree from its end, and writes a file with pass
/// number 1 that has the tree's records of version 2, with children from right to left. Fails as
/// `upgrade` does for the first device, and with D1 if the second one fails.
fn convert<D: Device, E: Device>(
    alloc: Global,
    grammar: &Grammar,
    from: &mut D,
    to: &mut E,
) -> Result<(), RunFault>
    ensures accepted { IsAccepted grammar.now }
    ensures converted { OnOk result (WhenHonest (D.is_honest from.new)
        (IsConverted grammar.now (D.content from.old) (E.is_honest to.new) (E.content to.new))) }
    ensures refused { IfErr result (λ f. WhenHonest (D.is_honest from.new)
        (IsUpgradeFault grammar.now (D.content from.old) f)) }
    ensures left { WhenHonest (E.is_honest to.new)
        (LeavesBeginning 1 (E.content to.old) (E.content to.new)) }
    ensures content { LeavesContent (D.is_honest from.new)
        (D.content from.old) (D.content from.new) }
    ensures devices { BothPersist D.is_honest D.failures from.old from.new
        E.is_honest E.failures to.old to.new (IsErrOf result RunFault.Device) }
{
    let root = Item::Symbol(grammar.start());
    let back = Back::start_old(alloc, from)?;
    if back.pass() != 0 {
        return Err(RunFault::Damaged(PASS_OFFSET));
    }
    let writer = Writer::begin(alloc, to, BETWEEN)?;
    let mut upgrading = Upgrading {
        alloc,
        back,
        writer,
    };
    let whole = Subtree {
        item: root,
        level: 1,
    };
    upgrading.tree(grammar, whole, from, to)?;
    let end = upgrading.back.end();
    if upgrading.back.back(from)?.is_some() {
        return Err(RunFault::Damaged(end));
    }
    Ok(())
}

/// The numbers of children of the nodes in a grammar's trees, by which `turn` reverses the
/// intermediate file.
#[derive(Drop)]
struct Stored<'a> {
    grammar: &'a Grammar,
}

impl Arity for Stored<'_> {
    ghost children_of = { λ s. stored_count s.grammar.now };

    fn children(&self, kind: Kind, number: u16) -> Option<u32> {
        match kind {
            Kind::Node => {
                let production = self.grammar.productions().get(number as usize)?;
                Some(stored_among(production.items.as_slice()))
            }
            Kind::Token => Some(0),
        }
    }
}

/// Returns the number of items that are children: symbols and classes, but not literals.
fn stored_among(items: &[Item]) -> u32
    requires { length items.now < 2 ^ 32 }
    ensures { result ≡ length (stored_items items.now) }
{
    let mut count = 0;
    for item in items {
        if item.is_stored_child() {
            count += 1;
        }
    }
    count
}

/// Converts a tree file of version 1. Reads the file of pass 0 of a tree of the grammar from its
/// end, from the first device. Writes the tree's records of version 2 to the second device, with
/// children from right to left, and then reverses this file to the third device. The result is the
/// file of version 2 and pass 0 of the same tree: the file that `parse` writes for a sentence with
/// this tree. Returns the number of nodes. The recursion is as deep as the tree, and ends before
/// a record at a level above `MAX_REVERSED_LEVELS` (256) is read. The first device keeps its
/// content, also on failure. After success the old content of the two other devices is lost.
///
/// Fails with R1 (`Damaged`) only if the content is not the file of version 1 and pass 0 of a tree
/// of the grammar; the offset is as for `run_pass` of the crate `passrun`. If a limit is exceeded
/// before damage is met, fails with P2 (`TooDeep`) or P3 (`TooManyNodes`) instead. After P2 the
/// content encodes no tree of at most `MAX_REVERSED_LEVELS` (256) levels, and after P3 none of at
/// most `MAX_REVERSED_RECORDS` (65,536) nodes. Fails with D1 (`Device`) if a call of a device
/// failed, and with `NoMemory` if memory cannot be allocated.
///
/// R1, P2 and P3 are true of the content if the first two devices return the bytes that were
/// written to them. If the second one does not, the call may also fail with R1 and an offset in the
/// second device's content, or with P2. After a failure the second device has its old content, or a
/// prefix of a tree file, if it is honest. The same holds of the third device.
///
/// Allocates memory for a buffer for reading (4,096 bytes, or the size of the largest frame if that
/// is more), for the frame that is written, and for the texts of the tokens among the children of
/// each node on the path from the root. While the intermediate file is reversed, allocates memory
/// as `turn` of `backreader` does.
pub fn upgrade<D: Device, E: Device, F: Device>(
    alloc: Global,
    grammar: &Grammar,
    old: &mut D,
    mid: &mut E,
    to: &mut F,
) -> Result<u32, RunFault>
    // on success the tree is converted, by way of its records from right to left
    ensures upgraded { IfOk result (λ count. WhenHonest (D.is_honest old.new)
        (WhenHonest (E.is_honest mid.new) (IsUpgraded grammar.now (D.content old.old)
        (E.content mid.new) (F.is_honest to.new) (F.content to.new) count))) }
    // on failure the fault is true of the old content
    ensures refused { IfErr result (λ f. WhenHonest (D.is_honest old.new)
        (WhenHonest (E.is_honest mid.new) (IsUpgradeFault grammar.now (D.content old.old) f))) }
    // on failure the content of the third device is unchanged, or a prefix of a file of pass 0
    ensures left { IfErr result (λ _. WhenHonest (F.is_honest to.new)
        (LeavesBeginning 0 (F.content to.old) (F.content to.new))) }
    // the content of the second device is unchanged, or a prefix of a file with pass number 1, also
    // on success
    ensures mid_left { WhenHonest (E.is_honest mid.new)
        (LeavesBeginning 1 (E.content mid.old) (E.content mid.new)) }
    ensures content { LeavesContent (D.is_honest old.new) (D.content old.old) (D.content old.new) }
    // D1 only if the number of failures rose on one of the three
    ensures devices { ThreePersist D.is_honest D.failures old.old old.new
        E.is_honest E.failures mid.old mid.new F.is_honest F.failures to.old to.new
        (IsErrOf result RunFault.Device) }
{
    convert(alloc, grammar, old, mid)?;
    let count = turn(alloc, mid, to, 0, &Stored { grammar })?;
    Ok(count)
}

/// Writes the record of a node or token that was read from a file of version 1. The values are of
/// the type `Value`. (A pass writes values of the type `Carried`.) Fails with D1 if the device
/// fails, and with `NoMemory` if memory cannot be allocated.
#[inline(always)]
fn put_record<E: Device>(
    kind: Kind,
    number: u16,
    values: &[Value],
    writer: &mut Writer,
    to: &mut E,
) -> Result<(), RunFault>
    requires few { length values.now ≤ version_two.max_values }
    requires well { All IsWell values.now }
    requires room { writer.old.written < 2 ^ 64 - 1 }
    requires whole { writer.old.is_broken ≡ false }
    ensures put { OnOk result (HasPut kind number values.now
        (E.is_honest to.new) (E.content to.old) (E.content to.new) writer.old writer.new) }
    ensures added { OnOk result (AddsFrames (E.is_honest to.new)
        (E.content to.old) (E.content to.new)) }
    ensures left { IfErr result (LeavesFrames (E.is_honest to.new)
        (E.content to.old) (E.content to.new)) }
    ensures resource { IfErr result IsResourceFault }
    ensures persists { Persists (E.is_honest to.old) (E.is_honest to.new)
        (E.failures to.old) (E.failures to.new) (IsErrOf result RunFault.Device) }
{
    writer.put(to, kind, number, values)?;
    Ok(())
}
