//! Writes records.

ghost use Rattle.std.specs.Prelude.{◌≡◌, ◌<◌, ◌≤◌, ◌-◌, ◌^◌, All, false, length, IfErr, IsErrOf};
ghost use Rattle.std.specs.Prelude.{OnOk};
ghost use Rattle.ag_value.specs.Well.{IsWell};
ghost use Rattle.passrun.specs.passing.Ahead.{IsResourceFault};
ghost use Rattle.passrun.specs.passing.Putting.{AddsFrames, HasPut, LeavesFrames};
ghost use Rattle.treefile.specs.devices.Device.{Persists};
ghost use Rattle.treefile.specs.records.TreeFile.{version_two};

use ag_carried::Carried;
use pass_rows::run_fault::RunFault;
use treefile::{Device, Kind, Writer};

/// Writes the record of a node or a token with this number (of a production or of a class) and
/// these values. Fails with D1 if the device fails, and with `NoMemory` if memory cannot be
/// allocated.
#[inline(always)]
pub(crate) fn put_record<E: Device>(
    kind: Kind,
    number: u16,
    values: &[Carried],
    writer: &mut Writer,
    to: &mut E,
) -> Result<(), RunFault>
    requires few { length values.now ≤ version_two.max_values }
    requires well { All IsWell values.now }
    requires room { writer.old.written < 2 ^ 64 - 1 }
    requires whole { writer.old.is_broken ≡ false }
    ensures put { OnOk result (HasPut kind number values.now
        (E.is_honest to.new) (E.content to.old) (E.content to.new) writer.old writer.new) }
    ensures added { OnOk result (AddsFrames (E.is_honest to.new)
        (E.content to.old) (E.content to.new)) }
    ensures left { IfErr result (LeavesFrames (E.is_honest to.new)
        (E.content to.old) (E.content to.new)) }
    ensures resource { IfErr result IsResourceFault }
    ensures persists { Persists (E.is_honest to.old) (E.is_honest to.new)
        (E.failures to.old) (E.failures to.new) (IsErrOf result RunFault.Device) }
{
    writer.put_carried(to, kind, number, values)?;
    Ok(())
}
