//! The calls over one tree file: writing the file of a sentence's tree, and converting a file of
//! version 1.

ghost use Rattle.std.specs.Prelude.{◌≡◌, ◌≢◌, [], Err, IfErr, IfOk, IsErrOf, OnErr, true};
ghost use Rattle.ag_grammar.specs.grammars.Tree.{Tree};
ghost use Rattle.treefile.specs.devices.Device.{LeavesContent, WhenHonest};
ghost use Rattle.treefile.specs.devices.Files.{FilePersists, content_of, is_honest_of};
ghost use Rattle.treefile.specs.devices.Several.{BothPersist};
ghost use Rattle.treefile.specs.framing.Beginning.{BeginsFile, LeavesBeginning};
ghost use Rattle.aggen.specs.Sentences.{IsParseFault, IsScanFault, IsSentenceFault, IsTreeOfSentence};
ghost use Rattle.aggen.specs.Upgrading.{IsOldFileFault};
ghost use Rattle.aggen_files.specs.Stored.{StoresContent, stored_of};
ghost use Rattle.aggen_files.specs.Trees.{LeavesConversion, ParsesSentence, UpgradesFile};

use aggen::{Fault, Translator};
use std::alloc::Global;
use std::fs::OpenFile;
use std::io::{Read, Seek, Write};
use treefile::{FileDevice, MemDevice};

/// Replaces the content of `tree` with the file of pass 0 of a sentence's tree. Returns the number of
/// the tree's nodes.
///
/// Fails with D1 if the file can't be written out, even if the sentence is refused. Otherwise fails
/// as `Translator::parse_tree` does. After S1 to S4 the file has the content that its device had.
/// After P1 to P3 it has a prefix of a file of pass 0.
pub fn parse_to_file<F: Read + Write + Seek + OpenFile>(
    translator: &Translator,
    sentence: &[u8],
    tree: &mut FileDevice<F>,
) -> Result<u32, Fault>
    // the sentence has exactly one tree, which is within the limits, and the file has this tree
    ensures parses { IfOk result (ParsesSentence translator.now sentence.now
        (is_honest_of tree.new) (stored_of tree.new)) }
    ensures one { (t u : Tree) → IsTreeOfSentence translator.now sentence.now t
        → IsTreeOfSentence translator.now sentence.now u → t ≡ u }
    ensures refused { IfErr result (IsSentenceFault translator.now sentence.now) }
    // S: the file has the content that the device had; P: a prefix of a file of pass 0
    ensures untouched { IfErr result (λ e. IsScanFault e → StoresContent tree.old tree.new) }
    ensures parsed { IfErr result (λ e. IsParseFault e →
        WhenHonest (is_honest_of tree.new) (BeginsFile 0 (stored_of tree.new))) }
    // what the device had, or a prefix of a file of pass 0
    ensures left { OnErr result (WhenHonest (is_honest_of tree.new)
        (LeavesBeginning 0 (content_of tree.old) (content_of tree.new))) }
    // unless D1, all bytes were written to the file
    ensures buffered { result ≢ Err Fault.Device → tree.new.buffered ≡ [] }
    // D1 only if the number of failures rose
    ensures persists { FilePersists tree.old tree.new (IsErrOf result Fault.Device) }
{
    let parsed = translator.parse_tree(sentence, tree);
    tree.finish()?;
    parsed
}

/// Converts the tree file of version 1 on `old` to version 2, and replaces the content of `tree`
/// with the converted file. Returns the number of the tree's nodes.
///
/// All of `old` is read before `tree` is written, and until then the converted records are in
/// memory. So both may be devices over one file. Afterwards that file has the new tree file. The
/// contracts don't see this: the device `old` is only read, so its content stays the same by the
/// record of its own calls.
///
/// Fails with D1 if the new file can't be written out, even if the conversion failed with another
/// fault. Otherwise fails as `Translator::upgrade` does. After a failure the device `tree` has the
/// content that it had, a prefix of a file of pass 0, or the whole converted file.
pub fn upgrade_file<F: Read + Write + Seek + OpenFile>(
    alloc: Global,
    translator: &Translator,
    old: &mut FileDevice<F>,
    tree: &mut FileDevice<F>,
) -> Result<u32, Fault>
    ensures upgraded { IfOk result (λ count. UpgradesFile translator.now
        (is_honest_of old.new) (content_of old.old)
        (is_honest_of tree.new) (stored_of tree.new) count) }
    ensures refused { IfErr result (λ e. IsOldFileFault translator.now
        (is_honest_of old.new) true (content_of old.old) e) }
    // what the new device had, a prefix of a file of pass 0, or the whole converted file
    ensures left { OnErr result (WhenHonest (is_honest_of tree.new)
        (LeavesConversion translator.now (is_honest_of old.new) (content_of old.old)
        (content_of tree.old) (content_of tree.new))) }
    // unless D1, all bytes were written to the new file
    ensures buffered { result ≢ Err Fault.Device → tree.new.buffered ≡ [] }
    ensures content { LeavesContent (is_honest_of old.new)
        (content_of old.old) (content_of old.new) }
    // D1 only if the number of failures rose on one of the two
    ensures devices { BothPersist is_honest_of (λ d. d.failures) old.old old.new
        is_honest_of (λ d. d.failures) tree.old tree.new (IsErrOf result Fault.Device) }
{
    let mut between = MemDevice::new(alloc);
    let converted = translator.upgrade(old, &mut between, tree);
    tree.finish()?;
    converted
}
