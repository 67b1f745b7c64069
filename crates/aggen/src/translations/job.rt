//! Translating a job: a translator is built from its grammar, and translates its sentence.

ghost use Rattle.std.specs.Prelude.{◌≡◌, ◌≢◌, IfErr, IfOk, IsErrOf, OnOk};
ghost use Rattle.aggen.specs.Jobs.{IsBeforePasses, IsBeforeTrees, IsJobRefusal};
ghost use Rattle.aggen.specs.Jobs.{LeavesLastFilesOfJob, TranslatesJob};
ghost use Rattle.aggen.specs.Sentences.{IsParseFault};
ghost use Rattle.aggen.specs.Translating.{IsAfterPasses};
ghost use Rattle.aggen.specs.Translation.{BeginsText, WritesText};
ghost use Rattle.passrun.specs.Rounds.{LeavesSomeFile};
ghost use Rattle.treefile.specs.framing.Beginning.{BeginsFile};
ghost use Rattle.treefile.specs.devices.Device.{WhenHonest};
ghost use Rattle.treefile.specs.devices.Several.{BothPersist};

use crate::translations::report::Report;
use crate::translator::Translator;
use ag_fault::Fault;
use ag_job::Job;
use std::alloc::Global;
use std::io::{Read, Write};
use treefile::Device;

/// Translates a job. The bytes of the reader are the text of a grammar, the first line that is
/// exactly `%%`, and a sentence. A translator is built from the grammar, and translates the
/// sentence by way of the devices `a` and `b`, as `Translator::translate` does.
///
/// Fails with J2 if the reader fails, with J3 if there are more than 2,097,156 bytes, and with J1
/// if no line is `%%`. Then fails as `Translator::build` does for the grammar, before a device is
/// used, and as `Translator::translate` does for the sentence. Fails with NoMemory if memory is
/// refused. After every fault except O2 `out` is unchanged. A fault before the translation leaves
/// the devices unchanged. After a fault of the translation the devices have what
/// `Translator::translate` leaves.
#[tactic(auto, using(crate::proofs::Begun::begun))]
pub fn run_job<R: Read + Drop, D: Device, W: Write>(
    alloc: Global,
    reader: R,
    out: &mut W,
    a: &mut D,
    b: &mut D,
) -> Result<Report, Fault>
    // The translation theorem, for the grammar and the sentence of the job
    ensures translates { IfOk result (λ report. TranslatesJob (R.remaining reader)
        (D.is_honest a.new) (D.is_honest b.new) (D.content a.new) (D.content b.new)
        (W.contents out.old) (W.contents out.new) report) }

    // Ok, on any devices
    ensures text { OnOk result (WritesText (W.contents out.old) (W.contents out.new)) }

    // Err: the fault is true of the bytes, the grammar or the sentence.
    ensures refused { IfErr result (λ e. IsJobRefusal (R.remaining reader)
        (D.is_honest a.new) (D.is_honest b.new)
        (W.contents out.old) (W.contents out.new) e) }
    ensures kept { IfErr result (λ e. e ≢ Fault.Write → out.new ≡ out.old) }
    // O2, on any devices
    ensures begins { IsErrOf result Fault.Write →
        BeginsText (W.contents out.old) (W.contents out.new) }
    ensures untouched { IfErr result (λ e. IsBeforeTrees e → a.new ≡ a.old) }
    ensures b_untouched { IfErr result (λ e. IsBeforePasses e → b.new ≡ b.old) }
    // An honest device has its old content, or a prefix of a tree file, even if the other device
    // is not honest.
    ensures a_left { WhenHonest (D.is_honest a.new)
        (LeavesSomeFile (D.content a.old) (D.content a.new)) }
    ensures b_left { WhenHonest (D.is_honest b.new)
        (LeavesSomeFile (D.content b.old) (D.content b.new)) }
    // P: a prefix of a file of pass 0; O1 and O2: the last two files
    ensures parsed { IfErr result (λ e. IsParseFault e →
        WhenHonest (D.is_honest a.new) (BeginsFile 0 (D.content a.new))) }
    ensures files { IfErr result (λ e. IsAfterPasses e →
        LeavesLastFilesOfJob (R.remaining reader) (D.is_honest a.new) (D.is_honest b.new)
        (D.content a.new) (D.content b.new)) }
    // D1 only if the number of failures rose on one of the two
    ensures devices { BothPersist D.is_honest D.failures a.old a.new
        D.is_honest D.failures b.old b.new (IsErrOf result Fault.Device) }
{
    let job = Job::read(alloc, reader)?;
    let translator = Translator::build(alloc, job.grammar())?;
    translator.translate(job.sentence(), a, b, out)
}
