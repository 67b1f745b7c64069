//! Devices of which one call fails: first call 1, then call 2, and so on, until a run makes too few
//! calls to reach the failing one. A run is a call of `translate`, `evaluate_tree` or `upgrade`. A
//! run in which a call of a device fails must fail with D1 and write no translation, and the next
//! run with the same translator and devices must succeed.

use crate::endings::Ending;
use crate::fractions::{
    FRACTION_SENTENCE, FRACTION_TREE, FRACTIONS, evaluated, old_tree, translated, translator,
};
use aggen::Translator;
use rows::words::{Mistake, first_word, number};
use std::alloc::Global;
use treefile::{FuseDevice, MemDevice};

/// A device in memory of which one call fails.
type Fused = FuseDevice<MemDevice>;

/// A device of a run.
#[derive(Clone, Copy)]
enum RunDevice {
    /// The first device of `translate`.
    First,
    /// The second device of `translate`.
    Second,
    /// The device of `evaluate_tree` that contains the tree.
    Tree,
    /// The first of the two other devices of `evaluate_tree`.
    A,
    /// The second of the two other devices of `evaluate_tree`.
    B,
    /// The device of `upgrade` that contains the old tree.
    Old,
    /// The device of `upgrade` for the intermediate file.
    Mid,
    /// The device of `upgrade` to which the tree is written.
    To,
}

/// Returns whether the first of two runs succeeds. `first` and `second` are their answers, as
/// `Ending::answer` returns them. If the first run succeeds, the second one must fail, since the
/// failing call of the device is then one of its calls. If the first run fails, the second one must
/// succeed. A run that fails must fail with D1 and write nothing. Fails with `Unfit` in all other
/// cases.
fn first_succeeds(first: &str, second: &str) -> Result<bool, Mistake> {
    match (first, second) {
        ("Done \"868352\"", "Device \"\"") => Ok(true),
        ("Device \"\"", "Done \"868352\"") => Ok(false),
        _ => Err(Mistake::Unfit),
    }
}

/// Returns an empty device whose call number `call`, counted from 1, fails; no call fails if `call`
/// is 0.
fn fused(alloc: Global, call: u64) -> Fused {
    FuseDevice::new(MemDevice::new(alloc), call)
}

/// Translates the sentence twice and returns whether the first translation succeeds. Fails with
/// `Unfit` as `first_succeeds` does.
fn translates_twice(
    alloc: Global,
    translator: &Translator,
    a: &mut Fused,
    b: &mut Fused,
) -> Result<bool, Mistake> {
    let first = translated(alloc, translator, FRACTION_SENTENCE, a, b)?;
    let second = translated(alloc, translator, FRACTION_SENTENCE, a, b)?;
    first_succeeds(first.as_str(), second.as_str())
}

/// Translates the sentence twice over two devices. `a` and `b` are the numbers of their failing
/// calls, from 1, or 0 if none fails. Returns whether the first translation succeeds.
fn translates_without(
    alloc: Global,
    translator: &Translator,
    a: u64,
    b: u64,
) -> Result<bool, Mistake> {
    let mut a = fused(alloc, a);
    let mut b = fused(alloc, b);
    translates_twice(alloc, translator, &mut a, &mut b)
}

/// Evaluates the sentence's tree twice and returns whether the first evaluation succeeds. Fails
/// with `Unfit` as `first_succeeds` does, and if the content of the tree's device has changed.
fn evaluates_twice(
    alloc: Global,
    translator: &Translator,
    tree: &mut Fused,
    a: &mut Fused,
    b: &mut Fused,
) -> Result<bool, Mistake> {
    let first = evaluated(alloc, translator, tree, a, b)?;
    let second = evaluated(alloc, translator, tree, a, b)?;
    if tree.inner().bytes() != FRACTION_TREE {
        return Err(Mistake::Unfit);
    }
    first_succeeds(first.as_str(), second.as_str())
}

/// Evaluates the tree twice over three devices. `tree`, `a` and `b` are the numbers of their
/// failing calls, from 1, or 0 if none fails. Returns whether the first evaluation succeeds.
fn evaluates_without(
    alloc: Global,
    translator: &Translator,
    tree: u64,
    a: u64,
    b: u64,
) -> Result<bool, Mistake> {
    let bytes = FRACTION_TREE.to_vec(alloc)?;
    let mut tree = FuseDevice::new(MemDevice::from_bytes(bytes), tree);
    let mut a = fused(alloc, a);
    let mut b = fused(alloc, b);
    evaluates_twice(alloc, translator, &mut tree, &mut a, &mut b)
}

/// Upgrades the old tree twice and returns whether the first run succeeds. One of the two runs must
/// fail with D1. The other must succeed, and write `FRACTION_TREE`. `kept` is the file of the old
/// tree. Fails with `Unfit` in all other cases, and if the content of the device `old` has changed.
fn upgrades_twice(
    translator: &Translator,
    kept: &[u8],
    old: &mut Fused,
    mid: &mut Fused,
    to: &mut Fused,
) -> Result<bool, Mistake> {
    let first = Ending::of(translator.upgrade(old, mid, to));
    let is_whole = to.inner().bytes() == FRACTION_TREE;
    let second = Ending::of(translator.upgrade(old, mid, to));
    if old.inner().bytes() != kept {
        return Err(Mistake::Unfit);
    }
    match (first, second) {
        (Ending::Done, Ending::Device) if is_whole => Ok(true),
        (Ending::Device, Ending::Done) if to.inner().bytes() == FRACTION_TREE => Ok(false),
        _ => Err(Mistake::Unfit),
    }
}

/// Upgrades the old tree twice over three devices. `old`, `mid` and `to` are the numbers of their
/// failing calls, from 1, or 0 if none fails. Returns whether the first run succeeds.
fn upgrades_without(
    alloc: Global,
    translator: &Translator,
    old: u64,
    mid: u64,
    to: u64,
) -> Result<bool, Mistake> {
    let kept = old_tree(alloc)?;
    let mut old = FuseDevice::new(MemDevice::from_bytes(old_tree(alloc)?), old);
    let mut mid = fused(alloc, mid);
    let mut to = fused(alloc, to);
    upgrades_twice(translator, kept.as_slice(), &mut old, &mut mid, &mut to)
}

/// Returns whether the first of two runs succeeds if one device fails at its call with this number,
/// from 1.
fn first_succeeds_without(
    alloc: Global,
    translator: &Translator,
    device: RunDevice,
    call: u64,
) -> Result<bool, Mistake> {
    match device {
        RunDevice::First => translates_without(alloc, translator, call, 0),
        RunDevice::Second => translates_without(alloc, translator, 0, call),
        RunDevice::Tree => evaluates_without(alloc, translator, call, 0, 0),
        RunDevice::A => evaluates_without(alloc, translator, 0, call, 0),
        RunDevice::B => evaluates_without(alloc, translator, 0, 0, call),
        RunDevice::Old => upgrades_without(alloc, translator, call, 0, 0),
        RunDevice::Mid => upgrades_without(alloc, translator, 0, call, 0),
        RunDevice::To => upgrades_without(alloc, translator, 0, 0, call),
    }
}

/// Returns one more than the number of calls of a device that a run makes: the least number of a
/// failing call with which the first run succeeds. Fails with `Unfit` if two runs don't end as they
/// should, or if a run makes 999 calls of the device or more, which no run does.
fn first_unmade_call(
    alloc: Global,
    translator: &Translator,
    device: RunDevice,
) -> Result<u64, Mistake> {
    for call in 1..1000 {
        if first_succeeds_without(alloc, translator, device, call)? {
            return Ok(call);
        }
    }
    Err(Mistake::Unfit)
}

/// Returns the device that a word names. Fails with `Misspelt` if the word names none.
fn run_device(word: &str) -> Result<RunDevice, Mistake> {
    match word {
        "first" => Ok(RunDevice::First),
        "second" => Ok(RunDevice::Second),
        "tree" => Ok(RunDevice::Tree),
        "a" => Ok(RunDevice::A),
        "b" => Ok(RunDevice::B),
        "old" => Ok(RunDevice::Old),
        "mid" => Ok(RunDevice::Mid),
        "to" => Ok(RunDevice::To),
        _ => Err(Mistake::Misspelt),
    }
}

/// Returns whether a run makes at least the row's number of calls of a device. Fails with
/// `Misspelt` if the row names no device or no number, and with `Unfit` as `first_unmade_call`
/// does.
pub fn failing_answer(alloc: Global, spelled: &str) -> Result<String, Mistake> {
    let (word, least) = first_word(spelled);
    let device = run_device(word)?;
    let least = number(least)? as u64;
    let translator = translator(alloc, FRACTIONS)?;
    let calls = first_unmade_call(alloc, &translator, device)?;
    Ok(format!(in alloc; "{}", least < calls)?)
}
