//! Reading the translation from the tree file of the last pass. The translation is the value of the
//! root's `out`, and the root's record is the last one of the file.

ghost use Rattle.std.specs.Prelude.{◌≡◌, IfOk, IfSome, IsErrOf, None, Some, slice_get};
ghost use Rattle.ag_value.specs.Well.{IsWell};
ghost use Rattle.ag_value.specs.declared.value.Value.{Value as TheValue};
ghost use Rattle.ag_grammar.specs.Lists.{Has};
ghost use Rattle.ag_grammar.specs.grammars.Accepted.{IsAccepted, IsOut, out_name};
ghost use Rattle.planchecker.specs.Plans.{IsPlan};
ghost use Rattle.treefile.specs.devices.Device.{LeavesContent, Persists, WhenHonest};
ghost use Rattle.roottext.specs.Roots.{FindsText, FindsValue, IsRootRecord, IsWellText};
ghost use Rattle.roottext.specs.Roots.{MatchesRoot};

use ag_carried::Carried;
use ag_grammar::Grammar;
use ag_value::{Text, Value};
use agoutput::OutFault;
use passrun::{RecordFault, Setting, read_node};
use planchecker::Plan;
use std::alloc::Global;
use treefile::{Device, FrameFault, last_body};

/// Returns the index of the first `out` in a list of names, or `None` if there is none.
fn out_among(names: &[Text]) -> Option<usize>
    ensures some { IfSome result (λ a. slice_get names.now a ≡ Some out_name) }
    ensures none { result ≡ None → Has names.now out_name → ⊥ }
{
    for (index, name) in names.iter().enumerate() {
        if name.as_str() == "out" {
            return Some(index);
        }
    }
    None
}

/// Returns the number of the attribute `out` of the start symbol, from 0. The numbers of a symbol's
/// synthesized attributes come first, so this is the index of `out` among them. The type `Grammar`
/// contains only accepted grammars, and each of them has this attribute.
fn out_number(grammar: &Grammar) -> usize
    ensures out { IsOut grammar.now result }
    ensures accepted { IsAccepted grammar.now }
{
    let start = &grammar.symbols()[grammar.start() as usize];
    match out_among(start.syn.as_slice()) {
        Some(number) => number,
        None => unreachable!(),
    }
}

/// Reads the value of the attribute with number `out` from `body`, the root's record in the file of
/// the last pass. The value has the type `Carried` of `ag_carried`, since `read_node` makes values
/// of this type. With a setting of pass k, `read_node` reads records of the file of pass k - 1. So
/// the setting here has the number of the last pass plus 1, though no such pass runs.
///
/// Fails with `Damaged` if the body is not such a record, and with `NoMemory` if memory is refused.
fn read_out(
    alloc: Global,
    grammar: &Grammar,
    plan: &Plan,
    out: usize,
    body: &[u8],
) -> Result<Carried, RecordFault>
    requires plan { IsPlan grammar.now plan.now.assignment plan.now.code }
    requires out { IsOut grammar.now out }
    ensures read { IfOk result (λ v. IsRootRecord grammar.now plan.now.assignment body.now v) }
    ensures none { IsErrOf result RecordFault.Damaged →
        (x : TheValue) → IsRootRecord grammar.now plan.now.assignment body.now x → ⊥ }
    ensures well { IfOk result (λ v. IsWell v) }
{
    let last = plan.assignment().passes();
    let next = Setting {
        grammar,
        plan,
        pass: last + 1,
    };
    let mut values = Vec::new(alloc);
    read_node(alloc, &next, grammar.start(), body, &mut values)?;
    // The row begins with the values of all attributes of the symbol, in the order of their
    // numbers.
    Ok(values.swap_remove(out))
}

/// Returns the value that `read_out` reads, converted from `Carried` to `Value`. Fails as
/// `read_out` does.
fn out_value(
    alloc: Global,
    grammar: &Grammar,
    plan: &Plan,
    out: usize,
    body: &[u8],
) -> Result<Value, RecordFault>
    requires plan { IsPlan grammar.now plan.now.assignment plan.now.code }
    requires out { IsOut grammar.now out }
    ensures read { IfOk result (IsRootRecord grammar.now plan.now.assignment body.now) }
    ensures none { IsErrOf result RecordFault.Damaged →
        (x : TheValue) → IsRootRecord grammar.now plan.now.assignment body.now x → ⊥ }
    ensures well { IfOk result IsWell }
{
    let carried = read_out(alloc, grammar, plan, out, body)?;
    // The value was decoded from the body and has one owner, so it is not copied.
    let Ok(value) = carried.into_value(alloc) else {
        return Err(RecordFault::NoMemory);
    };
    Ok(value)
}

/// Returns the value of the root's attribute with number `out` in the file of the last pass. Fails
/// as `root_text` does, but never with O1.
fn last_value<D: Device>(
    alloc: Global,
    grammar: &Grammar,
    plan: &Plan,
    out: usize,
    device: &mut D,
) -> Result<Value, FrameFault>
    requires plan { IsPlan grammar.now plan.now.assignment plan.now.code }
    requires out { IsOut grammar.now out }
    ensures found { WhenHonest (D.is_honest device.new)
        (FindsValue grammar.now plan.now.assignment (D.content device.old) result) }
    ensures well { IfOk result IsWell }
    ensures content { LeavesContent (D.is_honest device.new)
        (D.content device.old) (D.content device.new) }
    ensures persists { Persists (D.is_honest device.old) (D.is_honest device.new)
        (D.failures device.old) (D.failures device.new) (IsErrOf result FrameFault.Device) }
{
    let body = last_body(alloc, device)?;
    match out_value(alloc, grammar, plan, out, body.as_slice()) {
        Ok(value) => Ok(value),
        Err(RecordFault::Damaged) => {
            let end = device.len()?;
            Err(FrameFault::Damaged(end))
        }
        Err(RecordFault::NoMemory) => Err(FrameFault::NoMemory),
    }
}

/// Returns the translation, if it is a text: the value of the root's `out` in the file of the last
/// pass, which is on the device. Reads the header and the last record of the file, which in the
/// file of a tree is the root's.
///
/// Fails with O1 NoText and the value if the value is a number, a list, a table or an error. Fails
/// with B1 NotATreeFile if the file has fewer than 6 bytes or does not begin with `AGT2`. Otherwise
/// fails with B2 Damaged if no frame ends at the end of the file, or if the body of the last frame
/// is not a root's record; the offset is the number of bytes of the file. A root's record has a
/// production of the start symbol, a well value for each attribute, the copies of the children's
/// values, and no more bytes. Fails with D1 Device if a call of the device failed, and with
/// NoMemory if memory was refused.
///
/// Ignores the number of the pass in the header. Takes memory for the record and for its values.
pub fn root_text<D: Device>(
    alloc: Global,
    grammar: &Grammar,
    plan: &Plan,
    device: &mut D,
) -> Result<Text, OutFault>
    requires plan { IsPlan grammar.now plan.now.assignment plan.now.code }
    // The text, O1, B1 and B2 agree with the content.
    ensures found { WhenHonest (D.is_honest device.new)
        (FindsText grammar.now plan.now.assignment (D.content device.old) result) }
    // For the file of a tree: the value of the root's `out` if it is a text, or O1 with this value.
    ensures root { WhenHonest (D.is_honest device.new)
        (MatchesRoot grammar.now plan.now.assignment (D.content device.old) result) }
    // The text is UTF-8 and within the limit of its length, whatever the device returns.
    ensures well { IfOk result IsWellText }
    ensures content { LeavesContent (D.is_honest device.new)
        (D.content device.old) (D.content device.new) }
    // D1 only if the number of failures rose
    ensures persists { Persists (D.is_honest device.old) (D.is_honest device.new)
        (D.failures device.old) (D.failures device.new) (IsErrOf result OutFault.Device) }
{
    let out = out_number(grammar);
    match last_value(alloc, grammar, plan, out, device)? {
        Value::Text(text) => Ok(text),
        value => Err(OutFault::NoText(value)),
    }
}
