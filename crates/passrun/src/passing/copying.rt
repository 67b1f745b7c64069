//! The copies of children's values in the row of a node, and changes of the stored values.

ghost use Rattle.std.specs.Prelude.{ℕ, ◌≡◌, ◌+◌, ◌-◌, ◌<◌, ◌≤◌, ◌++◌, ◌↔◌, IsTrue, List, drop, length, set, take};
ghost use Rattle.ag_eval.specs.Operands.{scalar_value};
ghost use Rattle.ag_value.specs.declared.value.Value.{Value as AttributeValue, Num};
ghost use Rattle.pass_rows.specs.layouts.Contexts.{setting};
ghost use Rattle.pass_rows.specs.Places.{kept_values};
ghost use Rattle.pass_rows.specs.reading.Reading.{Agrees};
ghost use Rattle.pass_rows.specs.layouts.Slots.{known_width};
ghost use Rattle.treefile.specs.records.Records.{values_up_to};

use ag_carried::Carried;
use ag_eval::Scalar;
use ag_grammar::Item;
use pass_rows::layouts::building::PlaceRow;
use pass_rows::layouts::context::PassContext;
use std::mem::{replace, swap};

/// Returns whether `ours` and `theirs` have the same values of all attributes whose pass is before
/// pass `k`. `passes` has the pass of each attribute. Both lists begin with the values of the
/// attributes whose pass is at most `k`, in the order of `passes`.
#[tactic(auto)]
pub(crate) fn agree(passes: &[u16], k: u16, ours: &[Carried], theirs: &[Carried]) -> bool
    requires { 1 ≤ k }
    ensures { (f h : ℕ → AttributeValue) (rest others : List AttributeValue)
        → ours.now ≡ values_up_to k passes.now f ++ rest
        → theirs.now ≡ values_up_to k passes.now h ++ others
        → IsTrue result
        ↔ (values_up_to (k - 1) passes.now f ≡ values_up_to (k - 1) passes.now h) }
{
    match passes {
        [] => true,
        [pass, more @ ..] => {
            if *pass > k {
                return agree(more, k, ours, theirs);
            }
            match (ours, theirs) {
                ([ours, our_others @ ..], [theirs, their_others @ ..]) => {
                    (*pass == k || ours.same(theirs)) && agree(more, k, our_others, their_others)
                }
                _ => false,
            }
        }
    }
}

/// Returns whether a child's known values are equal to their copies in the parent's row. Of a node,
/// only the values of synthesized attributes are compared; of a token, its text. The child's row
/// begins at index `start`, and the copies at index `copied`. `row` describes the child's place in
/// the layout.
#[inline(always)]
pub(crate) fn matches_copy(
    context: &PassContext<'_>,
    row: PlaceRow,
    values: &[Carried],
    copied: usize,
    start: usize,
) -> bool
    requires first { 1 ≤ context.now.setting.pass }
    requires known { row.known ≡ known_width (setting context.now) row.item }
    requires copied { copied ≤ length values.now }
    requires start { start ≤ length values.now }
    ensures { Agrees (setting context.now) row.item (drop copied values.now) (drop start values.now)
        result }
{
    if row.known == 0 {
        return true;
    }
    let passes = context.copied_passes(row.item);
    agree(
        passes,
        context.setting.pass,
        &values[copied..],
        &values[start..],
    )
}

/// Returns the values from an index on.
#[inline(always)]
pub(crate) fn following(values: &[Carried], start: usize) -> &[Carried]
    requires { start ≤ length values.now }
    ensures { result.now ≡ drop start values.now }
{
    &values[start..]
}

/// Returns the value at an index as a slice of length 1.
#[inline(always)]
pub(crate) fn single_value(values: &[Carried], index: usize) -> &[Carried]
    requires { index + 1 ≤ length values.now }
    ensures { result.now ≡ take 1 (drop index values.now) }
{
    &values[index..index + 1]
}

/// Removes the row of a token, which begins at index `start`: the token's text is among the copies
/// too. Keeps the row of a node. `item` is the item for which the row was read.
#[inline(always)]
pub(crate) fn truncate_row(item: Item, values: &mut Vec<Carried>, start: usize)
    ensures { values.new.items ≡ kept_values item (take start values.old.items) values.old.items }
{
    if let Item::Terminal(_) = item {
        values.truncate(start);
    }
}

/// Replaces a value with a number.
#[inline(always)]
fn put_number(place: &mut Carried, number: i64)
    ensures { place.new ≡ Num number }
{
    place.set_number(number);
}

/// Replaces the value at an index.
#[inline(always)]
pub(crate) fn put_value(values: &mut Vec<Carried>, index: usize, value: Carried)
    requires { index < length values.old.items }
    ensures { values.new.items ≡ set values.old.items index value }
{
    if let Some(number) = value.as_number() {
        return put_number(&mut values[index], number);
    }
    let old = replace(&mut values[index], value);
    // drops the old value, without a call if it is a number or an error
    old.release();
}

/// Replaces the value at an index with a number or an error value.
#[inline(always)]
pub(crate) fn put_scalar(values: &mut Vec<Carried>, index: usize, scalar: Scalar)
    requires { index < length values.old.items }
    ensures { values.new.items ≡ set values.old.items index (scalar_value scalar) }
{
    match scalar {
        Scalar::Number(number) => put_number(&mut values[index], number),
        Scalar::Fault(code) => put_value(values, index, Carried::fault(code)),
    }
}

/// Moves the values of `theirs` to `ours`, which has the same length. Afterwards the values of
/// `theirs` are unspecified.
#[inline(always)]
fn take_copies(ours: &mut [Carried], theirs: &mut [Carried])
    requires { length ours.old ≡ length theirs.old }
    ensures ours { ours.new ≡ theirs.old }
    ensures theirs { length theirs.new ≡ length theirs.old }
{
    if ours.len() == 1 {
        if let Some(number) = theirs[0].as_number() {
            put_number(&mut ours[0], number);
            return;
        }
        swap(&mut ours[0], &mut theirs[0]);
        return;
    }
    ours.swap_with_slice(theirs);
}

/// Removes the last value, if there is one.
#[inline(always)]
fn cut_last(values: &mut Vec<Carried>)
    ensures { values.new.items ≡ take (length values.old.items - 1) values.old.items }
{
    let Some(last) = values.pop() else {
        return;
    };
    last.release();
}

/// Removes the values from an index on, one by one: `release` drops a number or an error without a
/// call.
#[inline(always)]
fn cut(values: &mut Vec<Carried>, from: usize)
    ensures { values.new.items ≡ take from values.old.items }
{
    while from < values.len() {
        cut_last(values);
    }
}

/// Moves the first `count` values of the last row, which begins at index `from`, to the `count`
/// indices from `to` on, and removes the last row.
#[inline(always)]
pub(crate) fn move_copies(values: &mut Vec<Carried>, from: usize, to: usize, count: usize)
    requires prefix { to + count ≤ from }
    requires row { from + count ≤ length values.old.items }
    ensures { values.new.items ≡ take to values.old.items
        ++ (take count (drop from values.old.items)
        ++ drop (to + count) (take from values.old.items)) }
{
    let (rows, last) = values.split_at_mut(from);
    take_copies(&mut rows[to..to + count], &mut last[..count]);
    cut(values, from);
}
