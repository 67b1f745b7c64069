//! Tests of table trees: that each call succeeds, and that the trees are balanced, which no clause
//! states. The other assertions repeat clauses.

use crate::checking::check_equal;
use ag_value::{NoMemory, Value};
use std::alloc::Global;
use table_tree::{PutFault, TableTree};

/// Puts the number 7 at the key that spells `key` with at least four hexadecimal digits.
fn with_number(alloc: Global, table: &TableTree, key: u32) -> Result<TableTree, PutFault> {
    let key = format!(in alloc; "{key:04x}")?;
    // never true, and only for the prover: `put` requires a short key, and the contract of
    // `format!` says nothing of the length
    if key.len() > 100 {
        return Err(PutFault::TooHeavy);
    }
    table.put(alloc, key.as_str(), Value::Num(7))
}

/// Returns the table of some keys, put in this order.
fn table_of(alloc: Global, keys: &[u32]) -> Result<TableTree, PutFault> {
    let mut table = TableTree::new();
    for key in keys {
        table = with_number(alloc, &table, *key)?;
    }
    Ok(table)
}

/// Copies a table to one without a tree, and returns a new tree of that copy.
fn rebuilt(alloc: Global, table: &TableTree) -> Result<TableTree, NoMemory> {
    // unused at run time: `from_table` requires a well table (within the limits of values), and the
    // contract of `weight` says that this one is well
    let _weight = table.weight();
    TableTree::from_table(alloc, table.to_table(alloc)?)
}

#[test]
fn a_table_has_what_was_put(rt: HostRuntime) -> Result<(), PutFault> {
    let alloc = rt.alloc();
    let table = table_of(alloc, &[5, 1, 3, 5])?;
    check_equal(
        &rt,
        "length, weight and depth",
        (table.len(), table.weight(), table.depth()),
        (3, 56, 1),
    );
    assert!(rt; table.has("0003") && !table.has("0004"));
    assert!(rt; matches!(table.get("0005"), Some(Value::Num(7))));
    assert!(rt; table.get("0002").is_none());
    let Some(first) = table.entry_at(0) else {
        return Err(PutFault::TooDeep);
    };
    check_equal(&rt, "first key", first.key(), "0001");
    assert!(rt; table.entry_at(3).is_none());
    check_equal(
        &rt,
        "number of keys",
        table.keys(alloc)?.as_slice().len(),
        3,
    );
    Ok(())
}

#[test]
fn an_encoding_is_that_of_the_flat_table(rt: HostRuntime) -> Result<(), PutFault> {
    let alloc = rt.alloc();
    let table = table_of(alloc, &[0xb, 0xa])?;
    let mut bytes = Vec::new(alloc);
    table.append_encoding(&mut bytes)?;
    let expected =
        b"\x03\0\0\0\x02\0\0\0\x04000a\0\0\0\0\0\0\0\0\x07\0\0\0\x04000b\0\0\0\0\0\0\0\0\x07";
    assert!(rt; bytes.as_slice() == expected.as_slice());
    Ok(())
}

#[test]
fn other_versions_stay(rt: HostRuntime) -> Result<(), PutFault> {
    let alloc = rt.alloc();
    let old = table_of(alloc, &[1, 2])?;
    let new = with_number(alloc, &old, 3)?;
    assert!(rt; !old.has("0003") && new.has("0003"));
    assert!(rt; !old.same(&new) && new.same(&rebuilt(alloc, &new)?) && old.same(&old.share()?));
    Ok(())
}

/// Returns a table with 4,096 entries, whose keys are `first`, `first` + `step`, and so on, modulo
/// 65,536, put in this order.
fn stepped(alloc: Global, first: u32, step: u32) -> Result<TableTree, PutFault> {
    let mut table = TableTree::new();
    for turn in 0..4096u32 {
        let key = first.wrapping_add(turn.wrapping_mul(step)) % 65_536;
        table = with_number(alloc, &table, key)?;
    }
    Ok(table)
}

#[test]
fn trees_are_balanced(rt: HostRuntime) -> Result<(), PutFault> {
    // a balanced tree of 4,096 entries has a height of at most 1.45 · log2(4098), which is 17.4.
    // With the step 1 the keys rise, with 65,535 (-1 modulo 65,536) they fall, and with 31,161 they
    // are in no order.
    for (first, step) in [(0, 1), (4096, 65_535), (0, 31_161)] {
        let table = stepped(rt.alloc(), first, step)?;
        assert!(rt; table.height() <= 17);
        check_equal(
            &rt,
            "height of a new tree",
            rebuilt(rt.alloc(), &table)?.height(),
            13,
        );
    }
    Ok(())
}
