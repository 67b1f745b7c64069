//! Writes bytes and texts to a writer that may take a part of them at each write.

ghost use Rattle.std.specs.Prelude.{OnErr, OnOk};
ghost use Rattle.std.specs.Io.KnownBytes.{Appends};
ghost use Rattle.agoutput.specs.Writing.{AppendsBeginning};

use crate::fault::TextOutFault;
use std::io::Write;

/// Writes bytes, and repeats this with the rest until the writer has taken all of them. Does not
/// allocate, but the writer may.
///
/// Fails with O2 if a write takes no byte, or fails for any reason, for example because the writer
/// is refused memory. A prefix of the bytes, perhaps empty, is written then.
#[tactic(auto, using(crate::proofs::Written::one_more, crate::proofs::Written::beginning))]
pub fn write_bytes<W: Write>(out: &mut W, bytes: &[u8]) -> Result<(), TextOutFault>
    ensures ok { OnOk result (Appends (W.contents out.old) (W.contents out.new) bytes.now) }
    ensures err { OnErr result
        (AppendsBeginning (W.contents out.old) (W.contents out.new) bytes.now) }
{
    let mut rest = bytes;
    while !rest.is_empty() {
        match out.write(rest) {
            Ok(0) => return Err(TextOutFault::Write),
            // By the contract of `write`, `count` is at most the length of `rest`.
            Ok(count) => {
                let (_, after) = rest.split_at(count);
                rest = after;
            }
            Err(_) => return Err(TextOutFault::Write),
        }
    }
    Ok(())
}

/// Writes the bytes of a text as `write_bytes` does, and fails as it does.
pub fn write_text<W: Write>(out: &mut W, text: &str) -> Result<(), TextOutFault>
    ensures ok { OnOk result (Appends (W.contents out.old) (W.contents out.new) text.now) }
    ensures err { OnErr result
        (AppendsBeginning (W.contents out.old) (W.contents out.new) text.now) }
{
    write_bytes(out, text.as_bytes())
}
