//! One body of a tree file.

ghost use Rattle.std.specs.Prelude.{IsErrOf};
ghost use Rattle.treefile.specs.devices.Device.{LeavesContent, Persists, WhenHonest};
ghost use Rattle.treefile.specs.framing.Ending.{ReadsAs};
ghost use Rattle.tree_index.specs.Bodies.{body_at};

use std::alloc::Global;
use treefile::{Device, FrameFault, read_body};

/// Returns the body of the frame that ends at offset `end`, in bytes, of a file of version 2. Takes
/// memory for the body. (An index has such an offset for each node: there the body is that of the
/// node's record.)
///
/// Fails with B2 and the offset if no frame ends there, with D1 if a call of the device fails, and
/// with NoMemory if memory is refused.
pub fn body_before<D: Device>(
    alloc: Global,
    device: &mut D,
    end: u64,
) -> Result<Vec<u8>, FrameFault>
    // The body and B2 agree with the content.
    ensures exact { WhenHonest (D.is_honest device.new)
        (ReadsAs (λ body. body.items) result (body_at (D.content device.old) end)) }
    ensures content { LeavesContent (D.is_honest device.new)
        (D.content device.old) (D.content device.new) }
    ensures persists { Persists (D.is_honest device.old) (D.is_honest device.new)
        (D.failures device.old) (D.failures device.new) (IsErrOf result FrameFault.Device) }
{
    // `read_body` requires an offset within the content
    if device.len()? < end {
        return Err(FrameFault::Damaged(end));
    }
    let mut body = Vec::new(alloc);
    if let Some(lent) = device.lend_before(end) {
        lent.append_to(&mut body)?;
        return Ok(body);
    }
    read_body(device, end, &mut body)?;
    Ok(body)
}
