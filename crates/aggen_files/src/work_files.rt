//! The two tree files of a translation, in a folder or in memory.

ghost use Rattle.std.specs.Prelude.{◌≡◌, ◌≢◌, ◌++◌, [], Err, IfErr, IfOk, IsErrOf, OnErr, OnOk, Some, string_bytes};
ghost use Rattle.passrun.specs.Rounds.{LeavesSomeFile};
ghost use Rattle.treefile.specs.devices.Device.{LeavesContent, WhenHonest};
ghost use Rattle.treefile.specs.declared.file.Access.TheVariants.{Writing};
ghost use Rattle.treefile.specs.devices.Files.{IsNew};
ghost use Rattle.treefile.specs.devices.Several.{BothPersist, ThreePersist};
ghost use Rattle.treefile.specs.framing.Beginning.{BeginsFile};
ghost use Rattle.aggen.specs.Evaluating.{EvaluatesTree, IsEvaluationFault, LeavesLastFilesOfTree};
ghost use Rattle.aggen.specs.Sentences.{IsParseFault, IsScanFault};
ghost use Rattle.aggen.specs.Translating.{IsAfterPasses, IsRefusedSentence, IsTranslationFault};
ghost use Rattle.aggen.specs.Translating.{LeavesLastFiles, TranslatesSentence};
ghost use Rattle.aggen.specs.Translation.{WritesText};
ghost use Rattle.aggen_files.specs.Opening.{IsOpeningFault};
ghost use Rattle.aggen_files.specs.Paths.{path_of_a, path_of_b};
ghost use Rattle.aggen_files.specs.Stored.{StoresPrefix};

use crate::watch::Watched;
use crate::work_device::WorkDevice;
use aggen::{Fault, Report, Translator};
use noted_file::CallRecord;
use std::alloc::{AllocError, Global};
use std::fs::OpenFile;
use std::io::{Read, Seek, Write};
use std::rt::Files;
use treefile::{Device, DeviceFault, FileDevice, SharedDevice};

/// The two devices for the tree files of a translation. The parser writes `a`, pass 1 reads `a` and
/// writes `b`, pass 2 reads `b` and writes `a`, and so on. In `evaluate` nothing is parsed: pass 1
/// reads the given device, and writes `b`.
#[derive(Drop)]
pub struct WorkFiles<D> {
    /// The device over a.agt, or the first one in memory.
    pub a: D,
    /// The device over b.agt, or the second one in memory.
    pub b: D,
}

/// A translation: the text of the root's `out`, and the statistics.
#[derive(Drop)]
pub struct Translation {
    /// The bytes of the text.
    pub text: Vec<u8>,
    /// The statistics.
    pub report: Report,
}

/// Returns `folder` followed by `name`, which begins with `/`. Fails if memory is refused.
fn joined(alloc: Global, folder: &str, name: &str) -> Result<String, AllocError>
    ensures { IfOk result (λ path. string_bytes path ≡ folder.now ++ name.now) }
{
    let mut path = String::from_str(alloc, folder)?;
    path.push_str(name)?;
    Ok(path)
}

impl<F: Read + Write + Seek + OpenFile> WorkFiles<FileDevice<F>> {
    /// Opens a.agt and b.agt in a folder, and creates those that are missing. Their contents stay
    /// until a translation clears them. The calls on a.agt are added to the record `first`, and
    /// those on b.agt to `second`. Only contracts see these records, which occupy no memory. A
    /// caller passes a new record for each file: `CallRecord::new()`.
    ///
    /// Fails with F1 if a file can't be opened or created, and with NoMemory if memory cannot be
    /// allocated. If only b.agt can't be opened, a.agt may have been created.
    pub fn open<R: Files<File = F>>(
        rt: &R,
        alloc: Global,
        folder: &str,
        first: CallRecord,
        second: CallRecord,
    ) -> Result<WorkFiles<FileDevice<F>>, Fault>
        ensures a { IfOk result (λ files.
            IsNew Writing (path_of_a folder.now) first.events files.a) }
        ensures b { IfOk result (λ files.
            IsNew Writing (path_of_b folder.now) second.events files.b) }
        ensures refused { IfErr result IsOpeningFault }
    {
        let a = joined(alloc, folder, "/a.agt")?;
        let b = joined(alloc, folder, "/b.agt")?;
        Ok(WorkFiles {
            a: FileDevice::create(rt, alloc, a.as_str(), first)?,
            b: FileDevice::create(rt, alloc, b.as_str(), second)?,
        })
    }
}

impl WorkFiles<SharedDevice> {
    /// Returns two empty devices in memory. Takes no memory itself.
    pub fn in_memory(alloc: Global) -> WorkFiles<SharedDevice>
        ensures a { result.a ≡ [] }
        ensures b { result.b ≡ [] }
    {
        WorkFiles {
            a: SharedDevice::new(alloc),
            b: SharedDevice::new(alloc),
        }
    }
}

impl<D> WorkFiles<D> {
    /// Returns the two devices, watched.
    pub fn watched<'a, W>(self, watch: &'a W) -> WorkFiles<Watched<'a, D, W>>
        ensures a { result.a.inner ≡ self.a }
        ensures b { result.b.inner ≡ self.b }
    {
        WorkFiles {
            a: Watched::new(self.a, watch),
            b: Watched::new(self.b, watch),
        }
    }
}

impl<D: WorkDevice> WorkFiles<D> {
    /// Writes out the bytes that the two devices have buffered, those of `b` also if that fails for
    /// `a`. Fails with `Failed` (D1) if one of these writes failed, or an earlier write. Each
    /// device keeps its content, and after a failure a prefix of its content is written out.
    pub fn finish(&mut self) -> Result<(), DeviceFault>
        ensures a { OnOk result (LeavesContent (D.is_honest self.new.a)
            (D.content self.old.a) (D.stored self.new.a)) }
        ensures b { OnOk result (LeavesContent (D.is_honest self.new.b)
            (D.content self.old.b) (D.stored self.new.b)) }
        ensures whole { OnOk result ((D.stored self.new.a ≡ D.content self.new.a)
            × (D.stored self.new.b ≡ D.content self.new.b)) }
        ensures a_prefix { StoresPrefix (D.stored self.new.a) (D.content self.new.a) }
        ensures b_prefix { StoresPrefix (D.stored self.new.b) (D.content self.new.b) }
        ensures a_content { LeavesContent (D.is_honest self.new.a)
            (D.content self.old.a) (D.content self.new.a) }
        ensures b_content { LeavesContent (D.is_honest self.new.b)
            (D.content self.old.b) (D.content self.new.b) }
        ensures failed { OnErr result (IsErrOf result DeviceFault.Failed) }
        ensures devices { BothPersist D.is_honest D.failures self.old.a self.new.a
            D.is_honest D.failures self.old.b self.new.b
            (IsErrOf result DeviceFault.Failed) }
    {
        let first = self.a.finish();
        let second = self.b.finish();
        first?;
        second
    }

    /// Translates a sentence with its tree files on the two devices, and returns the translation
    /// after both devices are written out. Both are also written out after every failure but D1.
    ///
    /// Fails with D1 if a device can't be written out, even if the translation failed with another
    /// fault. Otherwise fails as `Translator::translate` does, but never with O2, and with NoMemory
    /// also if memory for the translation's bytes cannot be allocated.
    ///
    /// After O1 the devices have the last two tree files. After S1 to S4 both devices have their
    /// contents from before. After P1 to P3 `b` has its content from before, and `a` has a prefix
    /// of a file of pass 0.
    pub fn translate(
        &mut self,
        alloc: Global,
        translator: &Translator,
        sentence: &[u8],
    ) -> Result<Translation, Fault>
        // the translation theorem, for what is written out
        ensures translates { IfOk result (λ made. TranslatesSentence translator.now sentence.now
            (D.is_honest self.new.a) (D.is_honest self.new.b)
            (D.stored self.new.a) (D.stored self.new.b)
            (Some []) (Some made.text.items) made.report) }
        // whatever the devices return
        ensures text { IfOk result (λ made. WritesText (Some []) (Some made.text.items)) }
        ensures refused { IfErr result (λ e. IsTranslationFault translator.now sentence.now
            (D.is_honest self.new.a) (D.is_honest self.new.b) (Some []) (Some []) e) }
        ensures other { IfErr result (λ e. e ≢ Fault.Write) }
        // S: both devices have what they had; P: `b` has what it had
        ensures untouched { IfErr result (λ e. IsScanFault e → LeavesContent (D.is_honest self.new.a)
            (D.content self.old.a) (D.stored self.new.a)) }
        ensures b_untouched { IfErr result (λ e. IsRefusedSentence e → LeavesContent
            (D.is_honest self.new.b) (D.content self.old.b) (D.stored self.new.b)) }
        // P: `a` has a prefix of a file of pass 0
        ensures parsed { IfErr result (λ e. IsParseFault e →
            WhenHonest (D.is_honest self.new.a) (BeginsFile 0 (D.stored self.new.a))) }
        // each device has what it had, or a prefix of a file of some pass
        ensures a_left { WhenHonest (D.is_honest self.new.a)
            (LeavesSomeFile (D.content self.old.a) (D.content self.new.a)) }
        ensures b_left { WhenHonest (D.is_honest self.new.b)
            (LeavesSomeFile (D.content self.old.b) (D.content self.new.b)) }
        // O1: the last two tree files
        ensures files { IfErr result (λ e. IsAfterPasses e →
            LeavesLastFiles translator.now sentence.now
            (D.is_honest self.new.a) (D.is_honest self.new.b)
            (D.stored self.new.a) (D.stored self.new.b)) }
        // unless D1, all bytes are written out
        ensures whole { result ≢ Err Fault.Device → (D.stored self.new.a ≡ D.content self.new.a)
            × (D.stored self.new.b ≡ D.content self.new.b) }
        // D1 only if the number of failures rose on one of the two
        ensures devices { BothPersist D.is_honest D.failures self.old.a self.new.a
            D.is_honest D.failures self.old.b self.new.b (IsErrOf result Fault.Device) }
    {
        let mut text = Vec::new(alloc);
        let translated = translator.translate(sentence, &mut self.a, &mut self.b, &mut text);
        self.finish()?;
        match translated {
            Ok(report) => Ok(Translation { text, report }),
            Err(fault) => Err(fault.in_memory()),
        }
    }

    /// Translates the tree whose file of pass 0 is on the device `tree`, which keeps its content.
    /// Pass 1 writes `b`, pass 2 `a`, and so on. So with only one pass the last two tree files are
    /// those on `b` and on `tree`. Returns the translation after both devices are written out. Both
    /// are also written out after every failure but D1.
    ///
    /// Fails with D1 if a device can't be written out, even if the translation failed with another
    /// fault. Otherwise fails as `Translator::evaluate_tree` does, but never with O2, and with
    /// NoMemory also if memory for the translation's bytes cannot be allocated. After O1 the last
    /// two tree files are where they are after success.
    pub fn evaluate<T: Device>(
        &mut self,
        alloc: Global,
        translator: &Translator,
        tree: &mut T,
    ) -> Result<Translation, Fault>
        // the translation theorem, for the tree on the device and what is written out
        ensures evaluates { IfOk result (λ made. EvaluatesTree translator.now
            (T.is_honest tree.new) (D.is_honest self.new.a) (D.is_honest self.new.b)
            (T.content tree.old) (D.stored self.new.a) (D.stored self.new.b)
            (Some []) (Some made.text.items) made.report) }
        ensures refused { IfErr result (λ e. IsEvaluationFault translator.now
            (T.is_honest tree.new) (D.is_honest self.new.a) (D.is_honest self.new.b)
            (T.content tree.old) (Some []) (Some []) e) }
        ensures other { IfErr result (λ e. e ≢ Fault.Write) }
        ensures content { LeavesContent (T.is_honest tree.new)
            (T.content tree.old) (T.content tree.new) }
        // each device has what it had, or a prefix of a file of some pass
        ensures a_left { WhenHonest (D.is_honest self.new.a)
            (LeavesSomeFile (D.content self.old.a) (D.content self.new.a)) }
        ensures b_left { WhenHonest (D.is_honest self.new.b)
            (LeavesSomeFile (D.content self.old.b) (D.content self.new.b)) }
        // O1: the last two tree files
        ensures files { IfErr result (λ e. IsAfterPasses e →
            LeavesLastFilesOfTree translator.now (T.is_honest tree.new)
            (D.is_honest self.new.a) (D.is_honest self.new.b)
            (T.content tree.old) (D.stored self.new.a) (D.stored self.new.b)) }
        // unless D1, all bytes are written out
        ensures whole { result ≢ Err Fault.Device → (D.stored self.new.a ≡ D.content self.new.a)
            × (D.stored self.new.b ≡ D.content self.new.b) }
        // D1 only if the number of failures rose on one of the three
        ensures devices { ThreePersist T.is_honest T.failures tree.old tree.new
            D.is_honest D.failures self.old.a self.new.a
            D.is_honest D.failures self.old.b self.new.b (IsErrOf result Fault.Device) }
    {
        let mut text = Vec::new(alloc);
        let evaluated = translator.evaluate_tree(tree, &mut self.a, &mut self.b, &mut text);
        self.finish()?;
        match evaluated {
            Ok(report) => Ok(Translation { text, report }),
            Err(fault) => Err(fault.in_memory()),
        }
    }
}
