//! The value of an expression, by way of a tree file.

ghost use Rattle.std.specs.Prelude.{◌≡◌, ◌≢◌, ℕ, [], IfErr, IfOk, IsErrAnd, IsErrOf, OnOk};
ghost use Rattle.ag_expr.specs.language.Expression.{ReadsAsExpr};
ghost use Rattle.ag_value.specs.Well.{IsWell};
ghost use Rattle.treefile.specs.framing.Beginning.{LeavesBeginning};
ghost use Rattle.treefile.specs.devices.Device.{Persists, WhenHonest};
ghost use Rattle.aggen.specs.Showing.{BeginsLine, HasNoValue, HasValue, IsDamage, IsExplained};
ghost use Rattle.aggen.specs.Showing.{IsExprFault, IsShowFault, IsTextFault, IsUnexpectedAt};
ghost use Rattle.aggen.specs.Showing.{OccursAt, Shows};
ghost use Rattle.aggen.specs.Showing.{ShowsBeginning, WritesLine, first_offset};

use crate::values::value_file::{read_file, write_file};
use ag_eval::{Env, Meter, eval};
use ag_expr::{ExprFault, read_expr};
use ag_fault::Fault;
use ag_grammar::{Expr, occurrences};
use ag_value::Value;
use agoutput::{value_line, write_text};
use std::alloc::Global;
use std::io::Write;
use treefile::Device;

/// Evaluates an expression without attribute occurrences (`$1.a`). Writes its value to the device
/// as the one record of a tree file of pass 0: that of a token with number 0, which is the class
/// NAME. Reads the record again, and writes the text of the value that was read, and LF, to `out`.
///
/// Fails before the device is used with X1 to X4 if the text is not an expression, and with X2 at
/// its first `$` if it has occurrences. Fails with D1 Device if a call of the device failed, and
/// with NoMemory if memory is refused. B1 and B2 are possible only if the device does not return
/// the bytes that were written. Writes to `out` last, and fails with O2 Write if a write fails or
/// takes no byte. After X the device is unchanged. After another fault the device has its old
/// content, or a prefix of a tree file of pass 0.
pub fn show_value<D: Device, W: Write>(
    alloc: Global,
    text: &str,
    device: &mut D,
    out: &mut W,
) -> Result<(), Fault>
    ensures shows { OnOk result (WhenHonest (D.is_honest device.new)
        (Shows text.now (W.contents out.old) (W.contents out.new) (D.content device.new))) }

    // X comes exactly if the text is not an expression, or has occurrences; only NoMemory may come
    // instead. After X the device is unchanged.
    ensures refused { IfErr result (λ e. IsExprFault e → HasNoValue text.now) }
    ensures only { HasNoValue text.now → IsErrAnd result IsTextFault }
    ensures untouched { IfErr result (λ e. IsExprFault e → device.new ≡ device.old) }

    // X1 to X4 are true of the text. If the expression has occurrences, X2 at the first
    // `$` or NoMemory comes.
    ensures offsets { IfErr result (IsExplained text.now) }
    ensures occurs { (at : ℕ) → OccursAt text.now at → IsErrAnd result (IsUnexpectedAt at) }

    // B1 and B2 never come if the device is honest, and D1 only if the number of failures rose.
    ensures undamaged { WhenHonest (D.is_honest device.new) (IfErr result (λ e. ¬ (IsDamage e))) }
    ensures persists { Persists (D.is_honest device.old) (D.is_honest device.new)
        (D.failures device.old) (D.failures device.new) (IsErrOf result Fault.Device) }

    // The old content of the device, or a prefix of a file of pass 0, also after Ok
    ensures left { WhenHonest (D.is_honest device.new)
        (LeavesBeginning 0 (D.content device.old) (D.content device.new)) }

    // Nothing is written before the line is complete, and only O2 is possible after a write. After
    // O2 a prefix of the line was written. `kinds` lists the possible faults.
    ensures kept { IfErr result (λ e. e ≢ Fault.Write → out.new ≡ out.old) }
    ensures write { IsErrOf result Fault.Write → WhenHonest (D.is_honest device.new)
        (ShowsBeginning text.now (W.contents out.old) (W.contents out.new)) }
    ensures kinds { IfErr result IsShowFault }

    // On any device, the line of some well value is written, or a prefix of it.
    ensures line { OnOk result (WritesLine (W.contents out.old) (W.contents out.new)) }
    ensures begins { IsErrOf result Fault.Write →
        BeginsLine (W.contents out.old) (W.contents out.new) }
{
    let value = value_of(alloc, text)?;
    write_file(alloc, device, value)?;
    let value = read_file(alloc, device)?;
    let line = value_line(alloc, &value)?;
    write_text(out, line.as_str())?;
    Ok(())
}

/// Returns the value of an expression without occurrences. Fails with X1 to X4 if the text is not
/// an expression, with X2 at its first `$` if it has occurrences, and with NoMemory if memory is
/// refused.
fn value_of(alloc: Global, text: &str) -> Result<Value, Fault>
    ensures value { IfOk result (λ value. HasValue text.now value) }
    ensures well { IfOk result (λ value. IsWell value) }
    ensures kind { IfErr result IsTextFault }
    ensures refused { IfErr result (λ e. IsExprFault e → HasNoValue text.now) }
    ensures offsets { IfErr result (IsExplained text.now) }
    ensures occurs { (at : ℕ) → OccursAt text.now at → IsErrAnd result (IsUnexpectedAt at) }
{
    let expr = read_closed(alloc, text)?;
    let env = NoOccurrences {
        number: Value::Num(0),
    };
    let mut meter = Meter::new();
    Ok(eval(alloc, &expr, &env, &mut meter)?)
}

/// Returns the expression of a text, which has no occurrences. Fails as `value_of` does.
fn read_closed(alloc: Global, text: &str) -> Result<Expr, Fault>
    ensures reads { IfOk result (λ expr. ReadsAsExpr text.now expr) }
    ensures closed { IfOk result (λ expr. expr.occurrences ≡ []) }
    ensures kind { IfErr result IsTextFault }
    ensures refused { IfErr result (λ e. IsExprFault e → HasNoValue text.now) }
    ensures offsets { IfErr result (IsExplained text.now) }
    ensures occurs { (at : ℕ) → OccursAt text.now at → IsErrAnd result (IsUnexpectedAt at) }
{
    let expr = read_expr(alloc, text)?;
    match first_occurrence(&expr) {
        Some(at) => Err(Fault::Expr(ExprFault::Unexpected(at))),
        None => Ok(expr),
    }
}

/// Returns the offset in bytes of the first occurrence in an expression, if it has one.
fn first_occurrence(expr: &Expr) -> Option<usize>
    ensures { result ≡ first_offset expr.now.occurrences }
{
    match occurrences(expr) {
        [first, ..] => Some(first.at),
        [] => None,
    }
}

/// The environment of an expression without occurrences. `lend` has to return a value, and returns
/// the number 0. No evaluation uses this value. (`count` may be any number.)
#[derive(Drop)]
struct NoOccurrences {
    number: Value,
}

impl Env for NoOccurrences {
    ghost count = { λ _. 1 };

    ghost lent = { λ env _. env.number };

    fn lend(&self, _k: usize) -> &Value {
        &self.number
    }
}
