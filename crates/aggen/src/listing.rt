//! Printing the passes of a grammar's plan, and the plan's code.

ghost use Rattle.std.specs.Prelude.{◌≡◌, ◌≢◌, IfErr, IsErrOf, OnOk};
ghost use Rattle.aggen.specs.Listing.{BeginsCode, BeginsPlan, IsTranslatorFault};
ghost use Rattle.aggen.specs.Listing.{PrintsCode, PrintsPlan};

use crate::translator::Translator;
use ag_fault::Fault;
use agoutput::{write_code, write_plan};
use std::alloc::Global;
use std::io::Write;

/// Builds a translator of a grammar's text, and writes a line for each of its passes, such as
/// `pass 1 right-to-left: L.p T.p B.bit`.
///
/// Fails with G1 to G4, N1 to N10, L1, A1 or NoMemory as `Translator::build` does, and with O2
/// Write if a write fails or takes no byte. Nothing is written before the listing is complete.
#[tactic(auto, using(crate::proofs::Building::of_plan))]
pub fn print_plan<W: Write>(alloc: Global, text: &[u8], out: &mut W) -> Result<(), Fault>
    ensures prints { OnOk result (PrintsPlan text.now (W.contents out.old) (W.contents out.new)) }
    ensures refused { IfErr result (λ e. e ≢ Fault.Write → IsTranslatorFault text.now e) }
    ensures kept { IfErr result (λ e. e ≢ Fault.Write → out.new ≡ out.old) }
    ensures write { IsErrOf result Fault.Write →
        BeginsPlan text.now (W.contents out.old) (W.contents out.new) }
{
    let translator = Translator::build(alloc, text)?;
    write_plan(alloc, out, translator.grammar(), translator.plan())?;
    Ok(())
}

/// Builds a translator of a grammar's text, and writes a line for each production and pass, such as
/// `0 pass 1: get 2, go 2, put 2, get 1, go 1, put 1, end` for production 0.
///
/// Fails with G1 to G4, N1 to N10, L1, A1 or NoMemory as `Translator::build` does, and with O2
/// Write if a write fails or takes no byte. Nothing is written before the listing is complete.
#[tactic(auto, using(crate::proofs::Building::of_plan))]
pub fn print_code<W: Write>(alloc: Global, text: &[u8], out: &mut W) -> Result<(), Fault>
    ensures prints { OnOk result (PrintsCode text.now (W.contents out.old) (W.contents out.new)) }
    ensures refused { IfErr result (λ e. e ≢ Fault.Write → IsTranslatorFault text.now e) }
    ensures kept { IfErr result (λ e. e ≢ Fault.Write → out.new ≡ out.old) }
    ensures write { IsErrOf result Fault.Write →
        BeginsCode text.now (W.contents out.old) (W.contents out.new) }
{
    let translator = Translator::build(alloc, text)?;
    write_code(alloc, out, translator.grammar(), translator.plan())?;
    Ok(())
}
