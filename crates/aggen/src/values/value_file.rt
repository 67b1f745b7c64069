//! The tree file with one record for a value.

ghost use Rattle.std.specs.Prelude.{◌≡◌, ◌∷◌, ℕ, [], Ok, length, IfErr};
ghost use Rattle.std.specs.Prelude.{IfOk, IsErrOf, MatchResult, OnOk};
ghost use Rattle.ag_value.specs.Well.{IsWell};
ghost use Rattle.ag_value.specs.declared.value.Value.{Value as AttributeValue};
ghost use Rattle.treefile.specs.framing.Beginning.{LeavesBeginning};
ghost use Rattle.treefile.specs.devices.Device.{LeavesContent, Persists, WhenHonest};
ghost use Rattle.treefile.specs.framing.Ending.{last_body_of};
ghost use Rattle.treefile.specs.records.TreeFile.{body_of, version_two};
ghost use Rattle.aggen.specs.Showing.{IsFileFault, IsResourceFault, file_of};

use ag_fault::Fault;
use ag_value::{Value, ValueFault, decode};
use std::alloc::Global;
use treefile::{Device, Kind, Writer, last_body, split_body};

/// Writes a tree file of pass 0 to the device. Its one record is that of a token with number 0 (the
/// class NAME) and this value. Fails with D1 Device if the device failed, and with NoMemory if
/// memory is refused.
pub fn write_file<D: Device>(alloc: Global, device: &mut D, value: Value) -> Result<(), Fault>
    requires { IsWell value }
    ensures ok { OnOk result
        (WhenHonest (D.is_honest device.new) (D.content device.new ≡ file_of value)) }
    ensures err { IfErr result IsResourceFault }
    ensures left { WhenHonest (D.is_honest device.new)
        (LeavesBeginning 0 (D.content device.old) (D.content device.new)) }
    ensures persists { Persists (D.is_honest device.old) (D.is_honest device.new)
        (D.failures device.old) (D.failures device.new) (IsErrOf result Fault.Device) }
{
    let mut writer = Writer::begin(alloc, device, 0)?;
    writer.put(device, Kind::Token, 0, &[value])?;
    Ok(())
}

/// Returns the value in the last record of a tree file. Fails with B2 Damaged at the file's end if
/// that record is not a token with number 0 and exactly one value. Otherwise fails as `last_body`
/// does: with B1, with B2 at the file's end, with D1 or with NoMemory.
pub fn read_file<D: Device>(alloc: Global, device: &mut D) -> Result<Value, Fault>
    ensures found { WhenHonest (D.is_honest device.new) (IfOk result
        (λ value. last_body_of version_two (D.content device.old)
        ≡ Ok (body_of Kind.Token 0 (value ∷ [])))) }
    ensures well { IfOk result (λ value. IsWell value) }
    ensures read { WhenHonest (D.is_honest device.new)
        ((value : AttributeValue) → IsWell value → D.content device.old ≡ file_of value →
        MatchResult result (λ found. found ≡ value) IsResourceFault) }
    ensures err { IfErr result IsFileFault }
    ensures offset { WhenHonest (D.is_honest device.new)
        ((at : ℕ) → IsErrOf result (Fault.Damaged at) → at ≡ length (D.content device.old)) }
    ensures content { LeavesContent (D.is_honest device.new)
        (D.content device.old) (D.content device.new) }
    ensures persists { Persists (D.is_honest device.old) (D.is_honest device.new)
        (D.failures device.old) (D.failures device.new) (IsErrOf result Fault.Device) }
{
    let body = last_body(alloc, device)?;
    let end = device.len()?;
    value_in(alloc, body.as_slice(), end)
}

/// Returns the value in the body of the last record of a file that ends at offset `end`. Fails with
/// B2 Damaged at `end` if the body is not that of a token with number 0 and exactly one value, and
/// with NoMemory if memory is refused.
fn value_in(alloc: Global, body: &[u8], end: u64) -> Result<Value, Fault>
    ensures found { IfOk result (λ value. body.now ≡ body_of Kind.Token 0 (value ∷ [])) }
    ensures well { IfOk result (λ value. IsWell value) }
    ensures read { (value : AttributeValue) → IsWell value →
        body.now ≡ body_of Kind.Token 0 (value ∷ []) →
        MatchResult result (λ found. found ≡ value) (λ e. e ≡ Fault.NoMemory) }
    ensures err { IfErr result (λ e. IsFileFault e) }
    ensures offset { (at : ℕ) → IsErrOf result (Fault.Damaged at) → at ≡ end }
    ensures device { ¬ (IsErrOf result Fault.Device) }
{
    let Some((kind, number, spelling)) = split_body(body) else {
        return Err(Fault::Damaged(end));
    };
    if kind != Kind::Token || number != 0 {
        return Err(Fault::Damaged(end));
    }
    match decode(alloc, spelling) {
        Ok((value, len)) => {
            if len != spelling.len() {
                return Err(Fault::Damaged(end));
            }
            Ok(value)
        }
        Err(ValueFault::NoMemory) => Err(Fault::NoMemory),
        Err(ValueFault::Malformed) => Err(Fault::Damaged(end)),
    }
}
