//! Devices that lie, which means that they return wrong lengths or bytes. Each call over them must
//! return. A translation or an evaluation that fails with another fault than O2 (the writer failed)
//! must write nothing.

ghost use Rattle.std.specs.Prelude.{[], false, Some};

use crate::fractions::{
    FRACTION_SENTENCE, FRACTION_TREE, FRACTIONS, evaluated, old_tree, translated, translator,
};
use ag_eval::Meter;
use aggen::Translator;
use backreader::{Arity, Back, turn};
use passrun::{run_all, run_pass};
use rows::words::Mistake;
use std::alloc::Global;
use treefile::{Device, DeviceFault, Kind, MemDevice};

/// What a device lies about.
#[derive(Clone, Copy)]
enum Lie {
    /// `len` returns 2^63.
    Long,
    /// `len` returns the length less `calls` of `LyingDevice`, or 0 if that is negative.
    Shrinking,
    /// `len` returns the length plus `calls`.
    Growing,
    /// A read at an offset above 0 adds `calls`, modulo 5, to each byte. So two reads of the same
    /// bytes can differ.
    Changing,
}

/// A device that lies, so it isn't *honest* (an honest device returns what was written to it).
/// Contracts claim nothing of the content of such a device, so `content` can be any list of bytes.
/// Its calls never fail with D1, so it counts no failures.
#[derive(Drop)]
struct LyingDevice {
    file: MemDevice,
    lie: Lie,
    /// The number of calls of `len` and `read_at` so far, including the current one.
    calls: u64,
}

impl Device for LyingDevice {
    ghost content = { λ _. [] };

    ghost is_honest = { λ _. false };

    ghost failures = { λ _. 0 };

    fn len(&mut self) -> Result<u64, DeviceFault> {
        self.calls = self.calls.saturating_add(1);
        let length = self.file.len()?;
        Ok(match self.lie {
            Lie::Long => 1 << 63,
            Lie::Shrinking => length.saturating_sub(self.calls),
            Lie::Growing => length.saturating_add(self.calls),
            Lie::Changing => length,
        })
    }

    fn append(&mut self, bytes: &[u8]) -> Result<(), DeviceFault> {
        self.file.append(bytes)
    }

    fn read_at(&mut self, at: u64, out: &mut [u8]) -> Result<(), DeviceFault> {
        self.calls = self.calls.saturating_add(1);
        self.file.read_at(at, out)?;
        // a read at offset 0 is not changed, so that a reader accepts the header
        if matches!(self.lie, Lie::Changing) && at > 0 {
            for byte in out {
                *byte = byte.wrapping_add((self.calls % 5) as u8);
            }
        }
        Ok(())
    }

    fn clear(&mut self) -> Result<(), DeviceFault> {
        self.file.clear()
    }
}

/// Returns the lie that a word names. Fails with `Misspelt` if the word names none.
fn lie_named(word: &str) -> Result<Lie, Mistake> {
    match word {
        "long" => Ok(Lie::Long),
        "shrinking" => Ok(Lie::Shrinking),
        "growing" => Ok(Lie::Growing),
        "changing" => Ok(Lie::Changing),
        _ => Err(Mistake::Misspelt),
    }
}

/// An `Arity`, which says how many children a record has: here each one has one child. `turn` needs
/// some `Arity`. Which one doesn't matter here, since the test is only that `turn` returns.
struct Chain {}

impl Arity for Chain {
    ghost children_of = { λ _ _ _. Some 1 };

    fn children(&self, _kind: Kind, _number: u16) -> Option<u32> {
        Some(1)
    }
}

/// Returns a device with these bytes that lies.
fn lying_device(alloc: Global, bytes: &[u8], lie: Lie) -> Result<LyingDevice, Mistake> {
    let bytes = bytes.to_vec(alloc)?;
    Ok(LyingDevice {
        file: MemDevice::from_bytes(bytes),
        lie,
        calls: 0,
    })
}

/// Returns an empty device that lies.
fn empty_lying_device(alloc: Global, lie: Lie) -> LyingDevice {
    LyingDevice {
        file: MemDevice::new(alloc),
        lie,
        calls: 0,
    }
}

/// Returns whether an answer is clean: the run succeeded, its writer failed, or it wrote nothing.
fn is_clean(answer: &str) -> bool {
    answer.starts_with("Done ") || answer.starts_with("Write ") || answer.ends_with(" \"\"")
}

/// Translates the sentence over devices that lie. Returns how the call ends, and what was written.
fn translation(alloc: Global, translator: &Translator, lie: Lie) -> Result<String, Mistake> {
    let mut a = empty_lying_device(alloc, lie);
    let mut b = empty_lying_device(alloc, lie);
    translated(alloc, translator, FRACTION_SENTENCE, &mut a, &mut b)
}

/// Evaluates the tree over devices that lie. Returns how the call ends, and what was written.
fn evaluation(alloc: Global, translator: &Translator, lie: Lie) -> Result<String, Mistake> {
    let mut tree = lying_device(alloc, FRACTION_TREE, lie)?;
    let mut a = empty_lying_device(alloc, lie);
    let mut b = empty_lying_device(alloc, lie);
    evaluated(alloc, translator, &mut tree, &mut a, &mut b)
}

/// Runs the first pass, and then all passes, over devices that lie. The results are not used: the
/// test is that the calls return. The `if` is never true here. It is there since the contract of
/// `run_pass` requires that the plan has the pass.
fn run_passes(alloc: Global, translator: &Translator, a: &mut LyingDevice, b: &mut LyingDevice) {
    let (grammar, plan) = (translator.grammar(), translator.plan());
    if plan.assignment().passes() == 0 {
        return;
    }
    let mut meter = Meter::new();
    let _one = run_pass(alloc, grammar, plan, 1, a, b, &mut meter);
    let mut meter = Meter::new();
    let _all = run_all(alloc, grammar, plan, 1, a, b, &mut meter);
}

/// Runs passes over the sentence's tree on devices that lie.
fn run_lying_passes(alloc: Global, translator: &Translator, lie: Lie) -> Result<(), Mistake> {
    let mut a = lying_device(alloc, FRACTION_TREE, lie)?;
    let mut b = empty_lying_device(alloc, lie);
    run_passes(alloc, translator, &mut a, &mut b);
    Ok(())
}

/// Upgrades the old tree over devices that lie. The result is not used: the test is that the call
/// returns.
fn upgrade_lying(alloc: Global, translator: &Translator, lie: Lie) -> Result<(), Mistake> {
    let bytes = old_tree(alloc)?;
    let mut old = lying_device(alloc, bytes.as_slice(), lie)?;
    let mut mid = empty_lying_device(alloc, lie);
    let mut to = empty_lying_device(alloc, lie);
    let _count = translator.upgrade(&mut old, &mut mid, &mut to);
    Ok(())
}

/// Runs passes, `upgrade`, `translate` and `evaluate_tree` over devices that lie. Returns whether
/// the answers of the translation and of the evaluation are clean (`is_clean`).
fn leave_no_output(alloc: Global, translator: &Translator, lie: Lie) -> Result<bool, Mistake> {
    run_lying_passes(alloc, translator, lie)?;
    upgrade_lying(alloc, translator, lie)?;
    let translation = translation(alloc, translator, lie)?;
    let evaluation = evaluation(alloc, translator, lie)?;
    Ok(is_clean(translation.as_str()) && is_clean(evaluation.as_str()))
}

/// Runs passes, `upgrade`, `translate` and `evaluate_tree` over devices with the lie that a word
/// names. Returns whether the answers of `translate` and `evaluate_tree` are clean (`is_clean`).
/// Fails with `Misspelt` if the word names no lie.
pub fn lie_answer(alloc: Global, word: &str) -> Result<String, Mistake> {
    let lie = lie_named(word)?;
    let translator = translator(alloc, FRACTIONS)?;
    let is_clean = leave_no_output(alloc, &translator, lie)?;
    Ok(format!(in alloc; "{is_clean}")?)
}

/// Reverses a file over devices that lie, into one with pass 1 in its header. The result is not
/// used: the test is that the call returns.
fn reverse_lying(alloc: Global, lie: Lie) -> Result<(), Mistake> {
    let mut from = lying_device(alloc, FRACTION_TREE, lie)?;
    let mut to = empty_lying_device(alloc, lie);
    let _turned = turn(alloc, &mut from, &mut to, 1, &Chain {});
    Ok(())
}

/// Reverses a file over devices with the lie that a word names, and returns the text `returned`,
/// also if the reversal fails. Fails with `Misspelt` if the word names no lie.
pub fn lie_turn_answer(alloc: Global, word: &str) -> Result<String, Mistake> {
    reverse_lying(alloc, lie_named(word)?)?;
    Ok(String::from_str(alloc, "returned")?)
}

/// Returns the number of bodies that a `Back`, which reads a file from its end, returns in at most
/// 1,000 calls. Fails with `Unfit` if `Back::start` rejects the device.
fn count_bodies(alloc: Global, device: &mut LyingDevice) -> Result<u64, Mistake> {
    let Ok(mut back) = Back::start(alloc, device) else {
        return Err(Mistake::Unfit);
    };
    for _call in 0..1000 {
        if !matches!(back.back(device), Ok(Some(_))) {
            break;
        }
    }
    Ok(back.records())
}

/// Reads the tree's file from its end with a `Back`, over a device with the lie that a word names.
/// Returns whether the `Back` returns at most 16 bodies, which is the number of frames in the 118
/// bytes of the file. Fails with `Misspelt` if the word names no lie, and with `Unfit` as
/// `count_bodies` does.
pub fn lie_back_answer(alloc: Global, word: &str) -> Result<String, Mistake> {
    let mut device = lying_device(alloc, FRACTION_TREE, lie_named(word)?)?;
    let lent = count_bodies(alloc, &mut device)?;
    Ok(format!(in alloc; "{}", lent < 17)?)
}
