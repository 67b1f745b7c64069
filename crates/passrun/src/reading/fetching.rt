//! Reads the next record of the file, which a pass reads backward, as that of an expected item.

ghost use Rattle.std.specs.Prelude.{◌≡◌, ◌<◌, None, IfErr, IfOk, IsErrOf};
ghost use Rattle.ag_grammar.specs.grammars.Tree.{max_depth, max_nodes};
ghost use Rattle.backreader.specs.BackState.{IsOver};
ghost use Rattle.passrun.specs.reading.Fetching.{HasFetched, IsUnfetched};
ghost use Rattle.pass_rows.specs.layouts.Contexts.{CanRun, setting};
ghost use Rattle.treefile.specs.devices.Device.{LeavesContent, Persists, WhenHonest};
ghost use Rattle.treefile.specs.records.TreeFile.{version_two};

use ag_carried::Carried;
use ag_grammar::Item;
use ag_grammar::limits::{MAX_DEPTH, MAX_NODES};
use backreader::Back;
use pass_rows::layouts::context::PassContext;
use pass_rows::layouts::hints::ChildLocation;
use pass_rows::reading::lent::read_lent;
use pass_rows::reading::record::{RecordFault, read_record};
use pass_rows::run_fault::RunFault;
use treefile::Device;

/// The record that a pass expects next.
#[derive(Clone, Copy)]
pub(crate) struct ExpectedRecord {
    /// The item whose record it is.
    pub(crate) item: Item,
    /// The production of the item's parent, and the item's place there. `read_record` finds hints
    /// by them. The root has no parent. Its location is place 0 of production 0, without hints.
    pub(crate) location: ChildLocation,
    /// The number of open nodes above the item's node.
    pub(crate) open_count: usize,
}

/// Reads the next record as `fetch` does, from bytes copied to the reader's buffer. The caller has
/// checked that the record is within the limits of levels and of nodes.
#[inline(always)]
fn fetch_copied<D: Device>(
    context: &PassContext<'_>,
    expected: ExpectedRecord,
    back: &mut Back,
    values: &mut Vec<Carried>,
    from: &mut D,
) -> Result<u16, RunFault>
    requires context { CanRun context.now }
    requires over { WhenHonest (D.is_honest from.old) (IsOver (D.content from.old) back.old) }
    requires version { back.old.progress.version ≡ version_two }
    requires unbroken { back.old.progress.fault ≡ None }
    requires deep { expected.open_count < max_depth }
    requires few { back.old.progress.records < max_nodes }
    ensures fetched { IfOk result (λ p. HasFetched (setting context.now) expected.item p
        expected.open_count (D.is_honest from.new) (D.content from.old) back.old back.new
        values.old.items values.new.items) }
    ensures refused { IfErr result (λ f. WhenHonest (D.is_honest from.new)
        (IsUnfetched (setting context.now) expected.item expected.open_count
        (D.content from.old) back.old f)) }
    ensures content { LeavesContent (D.is_honest from.new)
        (D.content from.old) (D.content from.new) }
    ensures persists { Persists (D.is_honest from.old) (D.is_honest from.new)
        (D.failures from.old) (D.failures from.new) (IsErrOf result RunFault.Device) }
{
    let end = back.end();
    let Some(body) = back.back(from)? else {
        return Err(RunFault::Damaged(end));
    };
    match read_record(context, expected.item, expected.location, body, values) {
        Ok(number) => Ok(number),
        Err(RecordFault::Damaged) => Err(RunFault::Damaged(end)),
        Err(RecordFault::NoMemory) => Err(RunFault::NoMemory),
    }
}

/// Reads the next record as `fetch_copied` does, but from the memory of the device if the device
/// lends the record's bytes.
#[inline(never)]
fn fetch_lent<D: Device>(
    context: &PassContext<'_>,
    expected: ExpectedRecord,
    back: &mut Back,
    values: &mut Vec<Carried>,
    from: &mut D,
) -> Result<u16, RunFault>
    requires context { CanRun context.now }
    requires over { WhenHonest (D.is_honest from.old) (IsOver (D.content from.old) back.old) }
    requires version { back.old.progress.version ≡ version_two }
    requires unbroken { back.old.progress.fault ≡ None }
    requires deep { expected.open_count < max_depth }
    requires few { back.old.progress.records < max_nodes }
    ensures fetched { IfOk result (λ p. HasFetched (setting context.now) expected.item p
        expected.open_count (D.is_honest from.new) (D.content from.old) back.old back.new
        values.old.items values.new.items) }
    ensures refused { IfErr result (λ f. WhenHonest (D.is_honest from.new)
        (IsUnfetched (setting context.now) expected.item expected.open_count
        (D.content from.old) back.old f)) }
    ensures content { LeavesContent (D.is_honest from.new)
        (D.content from.old) (D.content from.new) }
    ensures persists { Persists (D.is_honest from.old) (D.is_honest from.new)
        (D.failures from.old) (D.failures from.new) (IsErrOf result RunFault.Device) }
{
    let end = back.end();
    let Some(body) = back.lend_back(from) else {
        return fetch_copied(context, expected, back, values, from);
    };
    match read_lent(context, expected.item, expected.location, body, values) {
        Ok(number) => Ok(number),
        Err(RecordFault::Damaged) => Err(RunFault::Damaged(end)),
        Err(RecordFault::NoMemory) => Err(RunFault::NoMemory),
    }
}

/// Reads the next record as the expected one, and appends its row to the values. Returns the number
/// in the record: that of the production, or that of the token's class.
///
/// Fails with P2 if the record's node would be at a level beyond `MAX_DEPTH`, and otherwise with P3
/// if `MAX_NODES` records were read already. Fails with R1 and the offset that the reader has
/// reached if no frame ends there, or if the body of the frame there is not a record of the item.
/// Fails with D1 if the device fails, and with `NoMemory` if memory cannot be allocated.
#[inline(always)]
pub(crate) fn fetch<D: Device>(
    context: &PassContext<'_>,
    expected: ExpectedRecord,
    back: &mut Back,
    values: &mut Vec<Carried>,
    from: &mut D,
) -> Result<u16, RunFault>
    requires context { CanRun context.now }
    requires over { WhenHonest (D.is_honest from.old) (IsOver (D.content from.old) back.old) }
    requires version { back.old.progress.version ≡ version_two }
    requires unbroken { back.old.progress.fault ≡ None }
    ensures fetched { IfOk result (λ p. HasFetched (setting context.now) expected.item p
        expected.open_count (D.is_honest from.new) (D.content from.old) back.old back.new
        values.old.items values.new.items) }
    ensures refused { IfErr result (λ f. WhenHonest (D.is_honest from.new)
        (IsUnfetched (setting context.now) expected.item expected.open_count
        (D.content from.old) back.old f)) }
    ensures content { LeavesContent (D.is_honest from.new)
        (D.content from.old) (D.content from.new) }
    ensures persists { Persists (D.is_honest from.old) (D.is_honest from.new)
        (D.failures from.old) (D.failures from.new) (IsErrOf result RunFault.Device) }
{
    if expected.open_count >= MAX_DEPTH {
        return Err(RunFault::TooDeep);
    }
    if back.records() >= u64::from(MAX_NODES) {
        return Err(RunFault::TooManyNodes);
    }
    if back.can_lend() {
        return fetch_lent(context, expected, back, values, from);
    }
    fetch_copied(context, expected, back, values, from)
}
