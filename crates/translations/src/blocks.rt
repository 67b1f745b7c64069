//! Tests of what no contract states: a pass reads by blocks or borrows bodies, and writes while it
//! reads. To read by blocks means that one read of the device returns many records.

ghost use Rattle.std.specs.Prelude.{IfOk};
ghost use Rattle.planchecker.specs.Plans.{IsPlan};

use crate::counting::CountingDevice;
use crate::translators::translator;
use ag_eval::Meter;
use ag_grammar::Grammar;
use aggen::Translator;
use passassign::Assignment;
use passcode::{Code, Instr};
use passrun::run_all;
use planchecker::{Plan, check_plan};
use rows::words::Mistake;
use std::alloc::{AllocError, Global};
use std::cell::Cell;
use treefile::{Device, MemDevice, SharedDevice};

/// The grammar of groups of lists of letters. A `;` ends a group, and a `,` ends a list.
const GROUPS: &str = "start S; symbol S syn out; symbol T syn c; symbol V syn c;
S = T \";\" S { $0.out = \"\"; }
S = { $0.out = \"\"; }
T = V \",\" T { $0.c = 0; }
T = { $0.c = 0; }
V = \"x\" V { $0.c = 0; }
V = { $0.c = 0; }
";

/// A grammar of the same language, whose trees have the same nodes, with a plan of three passes.
/// Pass 1 computes `V.c`, pass 2 `T.i`, `T.c` and `S.m`, and pass 3 the others. Most values are a
/// text of 32 letters, which a device in memory shares, since it weighs more than 24 bytes.
const TEXTS: &str = "start S; symbol S syn out, m; symbol T syn c, d inh i, j; symbol V syn c;
S = T \";\" S { $0.out = $1.d; $0.m = $1.c; $1.i = \"\"; $1.j = $2.m; }
S = { $0.out = \"\"; $0.m = \"\"; }
T = V \",\" T { $0.c = $2.c; $0.d = $2.d; $2.i = $1.c; $2.j = $0.j; }
T = { $0.c = $0.i; $0.d = $0.j; }
V = \"x\" V { $0.c = $1.c; }
V = { $0.c = \"abcdefghijklmnopqrstuvwxyzabcdef\"; }
";

/// The number of nodes of the sentence's tree. Each has a record. (Literals are not nodes.) With
/// this number the frames fill whole blocks (`is_by_blocks`).
const NODES: u64 = 65_536;

/// The length in bytes of a frame whose record is a node without values: 3 bytes of kind and
/// number, and 4 bytes of length.
const FRAME: u64 = 7;

/// Returns a sentence of 85 groups of 24 lists. 23 lists of a group have 31 letters (33 nodes
/// each), and one has 8 (10 nodes). A group has 771 nodes: those of its lists, one for the group,
/// and one for the end of its lists. The end of the groups is one more node, so the tree has
/// 65,536.
fn sentence(alloc: Global) -> Result<String, AllocError> {
    let mut group = "xxxxxxxxxxxxxxxxxxxxxxxxxxxxxxx,".repeat(alloc, 23)?;
    group.push_str("xxxxxxxx,;")?;
    group.repeat(alloc, 85)
}

/// Returns the number of frames that were read, and the number of frames that passes appended.
/// `bytes` is the number of bytes that were read, all of frames of `FRAME` bytes. `puts` is the
/// number of all appends, each of a header or a frame. `before` is the number of the other appends:
/// the parser's, and the headers of passes.
fn frames_answer(alloc: Global, bytes: u64, puts: u64, before: u64) -> Result<String, AllocError> {
    let (read, put) = (bytes / FRAME, puts.saturating_sub(before));
    format!(in alloc; "{read} read, {put} put")
}

/// Returns true if two things hold: each file of a device was read at least 112 times after its
/// header, and at least 400 frames were appended between each read and the next one. The interval
/// before the last read is ignored.
///
/// A pass reads blocks of at most 4,096 bytes. The frames of the tree's nodes fill 112 of these, so
/// with fewer reads one read would be longer than a block. A block has about 585 frames. Before the
/// next read a pass has appended the frames of all nodes of the block that are no longer open. At
/// most 140 nodes are open at a time, since the tree has 140 levels: 85 of groups, 23 of lists, and
/// 32 in the last list of 31 letters.
fn is_by_blocks<D>(device: &CountingDevice<'_, D>) -> bool {
    device.fewest_reads() >= 112 && device.least_gap() >= 400
}

/// Translates the sentence and returns the numbers of read and written records in its report.
fn translate<'p, D: Device>(
    alloc: Global,
    translator: &Translator,
    a: &mut CountingDevice<'p, D>,
    b: &mut CountingDevice<'p, D>,
) -> Result<String, Mistake> {
    let sentence = sentence(alloc)?;
    let mut out = Vec::new(alloc);
    match translator.translate(sentence.as_bytes(), a, b, &mut out) {
        Ok(report) => Ok(format!(in alloc; "{} read, {} written", report.read, report.written)?),
        Err(_) => Err(Mistake::Unfit),
    }
}

/// Translates the sentence. Returns the report's counts, and what the devices counted.
fn translated(alloc: Global, translator: &Translator) -> Result<String, Mistake> {
    let puts = Cell::new(0);
    let mut a = CountingDevice::new(MemDevice::new(alloc), &puts);
    let mut b = CountingDevice::new(MemDevice::new(alloc), &puts);
    let answer = translate(alloc, translator, &mut a, &mut b)?;
    // the parser appends a header and each node, and the pass appends a header
    let frames = frames_answer(alloc, a.bytes, puts.get(), NODES + 2)?;
    // the one pass reads the file on `a` and writes the file on `b`
    let by_blocks = is_by_blocks(&a);
    Ok(format!(in alloc; "{answer}; {frames}; by blocks: {by_blocks}")?)
}

/// Builds the translator and translates the sentence.
pub fn blocks_of_translate_answer(alloc: Global) -> Result<String, Mistake> {
    let translator = translator(alloc, GROUPS)?;
    translated(alloc, &translator)
}

/// Returns the number of lent bodies of two devices, the number of calls of `append_parts`, and the
/// greatest number of bodies that were lent and not yet appended. Fails with `Unfit` if a device
/// lent no body, or if its `append_parts` was not called.
fn lent_answer<D>(
    alloc: Global,
    a: &CountingDevice<'_, D>,
    b: &CountingDevice<'_, D>,
) -> Result<String, Mistake> {
    if a.lent() == 0 || b.lent() == 0 || a.shared == 0 || b.shared == 0 {
        return Err(Mistake::Unfit);
    }
    let lent = a.lent().saturating_add(b.lent());
    let shared = a.shared.saturating_add(b.shared);
    let ahead = a.most_ahead().max(b.most_ahead());
    Ok(format!(in alloc; "{lent} lent, {shared} shared, at most {ahead} ahead")?)
}

/// Translates the sentence over devices that share values. Returns the report's counts, and what
/// the devices counted.
fn translated_by_sharing(alloc: Global, translator: &Translator) -> Result<String, Mistake> {
    let puts = Cell::new(0);
    let mut a = CountingDevice::new(SharedDevice::new(alloc), &puts);
    let mut b = CountingDevice::new(SharedDevice::new(alloc), &puts);
    let answer = translate(alloc, translator, &mut a, &mut b)?;
    let lent = lent_answer(alloc, &a, &b)?;
    // pass 1 reads the parser's file, which has no shared values, on `a`; pass 3 borrows from `a`
    let by_blocks = is_by_blocks(&a);
    Ok(format!(in alloc; "{answer}; {lent}; by blocks: {by_blocks}")?)
}

/// Builds the translator of three passes, and translates the sentence over devices that share
/// values.
///
/// Pass 2 borrows each body from `b`, and pass 3 from `a`: twice 65,536 bodies. The record of a
/// node is appended when its subtree is done, so the bodies that were lent and not yet appended are
/// those of the open nodes. Their number is greatest at a node of the last level, where it is 140
/// (`is_by_blocks`).
///
/// A record with the text is appended by parts. A group has 745 nodes of V, 25 of T, and one of S.
/// In the file of pass 1 the records of V have the text, and those of the 24 T with a V, which have
/// a copy of its value. In the files of passes 2 and 3 all records have it but that of the last S.
/// So the number of such records is 85 * (745 + 24) + 2 * 65,535 = 196,435.
pub fn bodies_of_translate_answer(alloc: Global) -> Result<String, Mistake> {
    let translator = translator(alloc, TEXTS)?;
    translated_by_sharing(alloc, &translator)
}

/// Returns the instructions of a production for one pass: `Get`, `Go` and `Put` of each child in
/// the given order, then `Def` of attribute 0 if `has_rule`, then `End`.
fn list(alloc: Global, children: &[u16], has_rule: bool) -> Result<Vec<Instr>, AllocError> {
    let mut list = Vec::new(alloc);
    for child in children {
        list.push(Instr::Get(*child))?;
        list.push(Instr::Go(*child))?;
        list.push(Instr::Put(*child))?;
    }
    if has_rule {
        list.push(Instr::Def { attr: 0, rule: 0 })?;
    }
    list.push(Instr::End)?;
    Ok(list)
}

/// Returns the lists of instructions of a production for three passes. The first and the third pass
/// visit its children in the order `leftward`, and the second pass visits them in the order
/// `rightward`. Only the list of the third pass has a rule.
fn lists(
    alloc: Global,
    leftward: &[u16],
    rightward: &[u16],
) -> Result<Vec<Vec<Instr>>, AllocError> {
    let mut lists = Vec::new(alloc);
    for (children, has_rule) in [(leftward, false), (rightward, false), (leftward, true)] {
        lists.push(list(alloc, children, has_rule)?)?;
    }
    Ok(lists)
}

/// Returns the code of three passes. The first and the third pass visit the children of each
/// production from right to left, and the second pass visits them from left to right.
fn code(alloc: Global) -> Result<Code, AllocError> {
    let mut rows = Vec::new(alloc);
    for (leftward, rightward) in [
        ([2, 1].as_slice(), [1, 2].as_slice()),
        (&[], &[]),
        (&[2, 1], &[1, 2]),
        (&[], &[]),
        (&[1], &[1]),
        (&[], &[]),
    ] {
        rows.push(lists(alloc, leftward, rightward)?)?;
    }
    Ok(Code::of_rows(rows))
}

/// Returns the assignment of pass 3 to the only attribute of each of the three symbols of `GROUPS`.
fn assignment(alloc: Global) -> Result<Assignment, AllocError> {
    let mut rows = Vec::new(alloc);
    for pass in [3, 3, 3] {
        rows.push(Vec::from_slice(alloc, &[pass])?)?;
    }
    Ok(Assignment::of_rows(rows))
}

/// Returns a plan of three passes for the grammar `GROUPS`. Its first two passes have no rules:
/// they are there so that three passes run over one tree.
fn plan(alloc: Global, grammar: &Grammar) -> Result<Plan, Mistake>
    ensures { IfOk result (λ plan. IsPlan grammar.now plan.assignment plan.code) }
{
    let code = code(alloc)?;
    let assignment = assignment(alloc)?;
    match check_plan(grammar, assignment, code) {
        Ok(plan) => Ok(plan),
        Err(_) => Err(Mistake::Unfit),
    }
}

/// Writes the file of the sentence's tree onto a device.
fn parse(
    alloc: Global,
    translator: &Translator,
    device: &mut CountingDevice<'_, MemDevice>,
) -> Result<(), Mistake> {
    let sentence = sentence(alloc)?;
    match translator.parse_tree(sentence.as_bytes(), device) {
        Ok(_) => Ok(()),
        Err(_) => Err(Mistake::Unfit),
    }
}

/// Runs three passes over the tree on the first device, and returns their counts.
fn run<'p>(
    alloc: Global,
    grammar: &Grammar,
    plan: &Plan,
    a: &mut CountingDevice<'p, MemDevice>,
    b: &mut CountingDevice<'p, MemDevice>,
) -> Result<String, Mistake>
    requires { IsPlan grammar.now plan.now.assignment plan.now.code }
{
    let mut meter = Meter::new();
    // unused at run time: the contract of `passes` says that there is a greatest pass, as `run_all`
    // requires
    let _passes = plan.assignment().passes();
    match run_all(alloc, grammar, plan, 1, a, b, &mut meter) {
        Ok((last, passed)) => Ok(format!(in alloc;
            "last {last:?}, {} read, {} written",
            passed.read, passed.written
        )?),
        Err(_) => Err(Mistake::Unfit),
    }
}

/// Parses the sentence and runs three passes. Returns their counts, and what the devices counted.
fn run_thrice(alloc: Global, translator: &Translator, plan: &Plan) -> Result<String, Mistake>
    requires { IsPlan translator.now plan.now.assignment plan.now.code }
{
    let puts = Cell::new(0);
    let mut a = CountingDevice::new(MemDevice::new(alloc), &puts);
    let mut b = CountingDevice::new(MemDevice::new(alloc), &puts);
    parse(alloc, translator, &mut a)?;
    // each pass appends a header
    let before = puts.get().saturating_add(3);
    let answer = run(alloc, translator.grammar(), plan, &mut a, &mut b)?;
    let bytes = a.bytes.saturating_add(b.bytes);
    let frames = frames_answer(alloc, bytes, puts.get(), before)?;
    let by_blocks = is_by_blocks(&a) && is_by_blocks(&b);
    Ok(format!(in alloc; "{answer}; {frames}; by blocks: {by_blocks}")?)
}

/// Runs three passes by the plan whose first two passes have no rules.
fn run_by_plan(alloc: Global, translator: &Translator) -> Result<String, Mistake> {
    let plan = plan(alloc, translator.grammar())?;
    run_thrice(alloc, translator, &plan)
}

/// Builds the translator and runs three passes.
pub fn blocks_of_passes_answer(alloc: Global) -> Result<String, Mistake> {
    let translator = translator(alloc, GROUPS)?;
    run_by_plan(alloc, &translator)
}
