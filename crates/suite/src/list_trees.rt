//! Tests of list trees: that each call succeeds, and that the trees are balanced, which no clause
//! states. The other assertions repeat clauses.

use crate::checking::check_equal;
use ag_value::{NoMemory, Value, ValueFault, decode};
use list_tree::ListTree;
use std::alloc::Global;
use std::process::Abort;

/// The number of items of a long list.
const LONG: u16 = 4096;

/// Returns the list of one number. `from_list` requires a well list. Decoding the list's encoding
/// makes one, since `decode` returns well values.
fn single(alloc: Global, number: u16) -> Result<ListTree, ValueFault> {
    let [high, low] = number.to_be_bytes();
    let encoding = [2, 0, 0, 0, 1, 0, 0, 0, 0, 0, 0, 0, high, low];
    match decode(alloc, &encoding)?.0 {
        Value::List(items) => Ok(ListTree::from_list(alloc, items)?),
        _ => Err(ValueFault::Malformed),
    }
}

/// Joins two lists. Fails with Malformed if the joined list would be too heavy for a value.
fn joined(alloc: Global, left: &ListTree, right: &ListTree) -> Result<ListTree, ValueFault> {
    match ListTree::join(alloc, left, right)? {
        Some(list) => Ok(list),
        None => Err(ValueFault::Malformed),
    }
}

/// Returns the list of the numbers below `count`, which is at least 1, appended one by one.
fn numbers(alloc: Global, count: u16) -> Result<ListTree, ValueFault> {
    let mut list = single(alloc, 0)?;
    for number in 1..count {
        list = joined(alloc, &list, &single(alloc, number)?)?;
    }
    Ok(list)
}

/// Joins the list of one item, the number 1, with itself, and the result with itself, and so on,
/// until the list has at least `least` items. Joins at most 16 times, which makes 65,536 items.
fn doubled(alloc: Global, least: usize) -> Result<ListTree, ValueFault> {
    let mut list = single(alloc, 1)?;
    for _ in 0..16 {
        if list.len() >= least {
            break;
        }
        list = joined(alloc, &list, &list)?;
    }
    Ok(list)
}

/// Copies a list to one without a tree, and returns a new tree of that copy.
fn rebuilt(alloc: Global, list: &ListTree) -> Result<ListTree, NoMemory> {
    // unused at run time: `from_list` requires a well list (within the limits of values), and the
    // contract of `weight` says that this one is well
    let _weight = list.weight();
    ListTree::from_list(alloc, list.to_list(alloc)?)
}

#[test]
fn a_list_has_what_was_appended(rt: HostRuntime) -> Result<(), ValueFault> {
    let alloc = rt.alloc();
    let list = numbers(alloc, 300)?;
    check_equal(
        &rt,
        "length and weight",
        (list.len(), list.weight()),
        (300, 2705),
    );
    assert!(rt; matches!(list.get(0), Some(Value::Num(0))));
    assert!(rt; matches!(list.get(299), Some(Value::Num(299))));
    assert!(rt; list.get(300).is_none());
    check_equal(
        &rt,
        "length of the flat list",
        list.to_list(alloc)?.as_slice().len(),
        300,
    );
    Ok(())
}

#[test]
fn an_encoding_is_that_of_the_flat_list(rt: HostRuntime) -> Result<(), ValueFault> {
    let alloc = rt.alloc();
    let list = numbers(alloc, 2)?;
    let mut bytes = Vec::new(alloc);
    list.append_encoding(&mut bytes)?;
    let expected = b"\x02\0\0\0\x02\0\0\0\0\0\0\0\0\0\0\0\0\0\0\0\0\0\x01";
    assert!(rt; bytes.as_slice() == expected.as_slice());
    assert!(rt; list.has_encoding(bytes.as_slice()) && !list.has_encoding(&bytes[..22]));
    // never true, and only for the prover: `copy_part` requires that the encoding has at least 6
    // bytes, and no contract says so of this list
    if list.weight() < 6 {
        return Err(ValueFault::Malformed);
    }
    let mut part = [9; 3];
    list.copy_part(3, &mut part);
    check_equal(&rt, "part of the encoding", part, [0, 2, 0]);
    Ok(())
}

/// Compares the list `old` with the longer list `new` that was made of it. Compares `new` with a
/// rebuilt tree, `old` with another owner of `old`, and both with a flat copy of `new`.
fn compare_versions(
    rt: &impl Abort,
    alloc: Global,
    old: &ListTree,
    new: &ListTree,
) -> Result<(), ValueFault> {
    assert!(rt; !old.same(new));
    assert!(rt; new.same(&rebuilt(alloc, new)?));
    assert!(rt; old.same(&old.share()?));
    let value = Value::List(new.to_list(alloc)?);
    assert!(rt; new.is_value(&value) && !old.is_value(&value));
    Ok(())
}

#[test]
fn other_versions_stay(rt: HostRuntime) -> Result<(), ValueFault> {
    let alloc = rt.alloc();
    let old = numbers(alloc, 20)?;
    let new = joined(alloc, &old, &single(alloc, 20)?)?;
    check_equal(&rt, "lengths", (old.len(), new.len()), (20, 21));
    compare_versions(&rt, alloc, &old, &new)
}

#[test]
fn lists_too_heavy_together_are_not_joined(rt: HostRuntime) -> Result<(), ValueFault> {
    let alloc = rt.alloc();
    let half = doubled(alloc, 65_536)?;
    assert!(rt; ListTree::join(alloc, &half, &half)?.is_none());
    assert!(rt; ListTree::join(alloc, &half, &numbers(alloc, 2)?)?.is_some());
    Ok(())
}

#[test]
fn trees_are_balanced(rt: HostRuntime) -> Result<(), ValueFault> {
    let alloc = rt.alloc();
    let mut at_end = single(alloc, 0)?;
    let mut at_beginning = single(alloc, 0)?;
    for number in 1..LONG {
        let one = single(alloc, number)?;
        at_end = joined(alloc, &at_end, &one)?;
        at_beginning = joined(alloc, &one, &at_beginning)?;
    }
    // a balanced tree of 4,096 items has a height of at most 1 + 1.45 · log2(4096), which is 18.4;
    // these are lower
    assert!(rt; at_end.height() <= 17 && at_beginning.height() <= 17);
    // a new tree has the least height
    check_equal(
        &rt,
        "height of a new tree",
        rebuilt(alloc, &at_end)?.height(),
        13,
    );
    let short = numbers(alloc, 3)?;
    let mixed = joined(
        alloc,
        &joined(alloc, &short, &at_end)?,
        &joined(alloc, &at_beginning, &short)?,
    )?;
    check_equal(&rt, "length of the joined list", mixed.len(), 8198);
    assert!(rt; mixed.height() <= 18);
    Ok(())
}
