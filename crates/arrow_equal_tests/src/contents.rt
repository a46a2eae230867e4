//! Arrays of every kind: layouts of one content are equal, and contents that differ aren't.
use crate::fixtures::{
    binary, booleans, dictionary, field, fixed_size_binary, lists, maps, numbers, pairs, rows,
    unions, views,
};
use arrow_equal::equal;
use arrow_meaning::ArrayRef;
use std::alloc::Global;
use std::test::Fail;

/// Of each kind of arrays here.
const KINDS: usize = 15;

/// How many layouts of one content there are of each kind, before those of other contents.
const SAME: usize = 2;

/// How many arrays there are of each kind.
const ALL: usize = 3;

/// The flat arrays of a kind: two layouts of one content, and another content.
fn flat(alloc: Global, kind: usize, at: usize) -> Result<ArrayRef, Fail> {
    match (kind, at) {
        (0, 0) => numbers(alloc, &[1, 7, 3], &[true, false, true]),
        (0, 1) => numbers(alloc, &[1, 8, 3], &[true, false, true]),
        (0, _) => numbers(alloc, &[1, 7, 4], &[true, false, true]),
        (1, 0) => numbers(alloc, &[1, 7], &[]),
        (1, 1) => numbers(alloc, &[1, 7], &[true, true]),
        (1, _) => numbers(alloc, &[1, 7], &[true, false]),
        (2, 0) => booleans(alloc, &[true, false], 0),
        (2, 1) => booleans(alloc, &[false, true, false], 1),
        (2, _) => booleans(alloc, &[true, true], 0),
        (3, 0) => binary(alloc, &[1, 2], b"abc", &[true, false]),
        (3, 1) => binary(alloc, &[1, 1], b"axyz", &[true, false]),
        (3, _) => binary(alloc, &[1, 2], b"abc", &[]),
        (4, 0) => fixed_size_binary(alloc, b"abcd", &[true, false]),
        (4, 1) => fixed_size_binary(alloc, b"abxy", &[true, false]),
        (4, _) => fixed_size_binary(alloc, b"axcd", &[true, false]),
        (5, 0) => views(alloc, b"tiny", 1),
        (5, 1) => views(alloc, b"tiny", 2),
        _ => views(alloc, b"tine", 1),
    }
}

/// The arrays of a kind with children: two layouts of one content, and another content.
fn nested(alloc: Global, kind: usize, at: usize) -> Result<ArrayRef, Fail> {
    match (kind, at) {
        (6, 0) => large_lists(alloc, &[1, 2, 1], &[1, 2, 3, 4], &[true, false, true]),
        (6, 1) => large_lists(alloc, &[1, 0, 1], &[1, 4, 5], &[true, false, true]),
        (6, _) => large_lists(alloc, &[1, 1, 1], &[1, 4, 5], &[true, false, true]),
        (7, 0) => small_lists(alloc, &[2, 0], &[1, 2], &[]),
        (7, 1) => small_lists(alloc, &[2, 0], &[1, 2, 3], &[true, true]),
        (7, _) => small_lists(alloc, &[2, 0], &[1, 2], &[true, false]),
        (8, 0) => pairs(alloc, &[1, 2, 3, 4], &[true, false]),
        (8, 1) => pairs(alloc, &[1, 2, 5, 6], &[true, false]),
        (8, _) => pairs(alloc, &[1, 3, 3, 4], &[true, false]),
        (9, 0) => rows(alloc, &[1, 2], &[3, 4], &[true, false]),
        (9, 1) => rows(alloc, &[1, 7], &[3, 8], &[true, false]),
        (9, _) => rows(alloc, &[1, 2], &[5, 4], &[true, false]),
        (10, 0) => maps(alloc, &[1, 1], &[1, 2], &[3, 4]),
        (10, 1) => maps(alloc, &[1, 1], &[1, 2, 9], &[3, 4, 9]),
        _ => maps(alloc, &[2, 0], &[1, 2], &[3, 4]),
    }
}

/// Lists under the name `item`.
fn small_lists(
    alloc: Global,
    lengths: &[usize],
    values: &[i32],
    bits: &[bool],
) -> Result<ArrayRef, Fail> {
    lists::<i32>(alloc, field(alloc, "item", true)?, lengths, values, bits)
}

/// The same with large offsets.
fn large_lists(
    alloc: Global,
    lengths: &[usize],
    values: &[i32],
    bits: &[bool],
) -> Result<ArrayRef, Fail> {
    lists::<i64>(alloc, field(alloc, "item", true)?, lengths, values, bits)
}

/// The unions and dictionaries of a kind: two layouts of one content, and another content. The
/// unions of the last content differ in their type numbers alone.
fn chosen(alloc: Global, kind: usize, at: usize) -> Result<ArrayRef, Fail> {
    match (kind, at) {
        (11, 0) => unions(alloc, &[5, 5], &[5], &[], &[1], &[1]),
        (11, 1) => unions(alloc, &[5, 5], &[5], &[], &[2], &[1]),
        (11, _) => unions(alloc, &[5, 5], &[9], &[], &[1], &[1]),
        (12, 0) => unions(alloc, &[], &[0, 1, 0], &[0, 0, 1], &[1, 2], &[3]),
        (12, 1) => unions(alloc, &[], &[0, 1, 0], &[1, 1, 0], &[2, 1], &[9, 3]),
        (12, _) => unions(alloc, &[], &[0, 1, 0], &[0, 0, 0], &[1, 2], &[3]),
        (13, 0) => dictionary(alloc, &[0, 1], &[], &[4, 7], &[true, false]),
        (13, 1) => dictionary(alloc, &[0, 0], &[true, false], &[4], &[]),
        (13, _) => dictionary(alloc, &[0, 0], &[], &[4], &[]),
        (14, 0) => dictionary(alloc, &[1, 0], &[], &[4, 6], &[]),
        (14, 1) => dictionary(alloc, &[0, 2], &[], &[6, 6, 4], &[]),
        _ => dictionary(alloc, &[0, 1], &[], &[4, 6], &[]),
    }
}

fn array_of(alloc: Global, kind: usize, at: usize) -> Result<ArrayRef, Fail> {
    if kind < 6 {
        flat(alloc, kind, at)
    } else if kind < 11 {
        nested(alloc, kind, at)
    } else {
        chosen(alloc, kind, at)
    }
}

/// Whether the array equals another one of the table.
fn equals(alloc: Global, array: &ArrayRef, kind: usize, at: usize) -> Result<bool, Fail> {
    let other = array_of(alloc, kind, at)?;
    let is_equal = equal(array, &other) && equal(&other, array);
    drop(other);
    Ok(is_equal)
}

/// Whether the first array of a kind equals another one exactly where the contents are one.
fn agrees(alloc: Global, kind: usize, other_kind: usize, at: usize) -> Result<bool, Fail> {
    let array = array_of(alloc, kind, 0)?;
    let is_equal = equals(alloc, &array, other_kind, at);
    drop(array);
    Ok(is_equal? == (kind == other_kind && at < SAME))
}

#[test]
fn layouts_of_one_content_alone_are_equal(rt: HostRuntime) -> Result<(), Fail> {
    let alloc = rt.alloc();
    for kind in 0..KINDS {
        for other_kind in 0..KINDS {
            for at in 0..ALL {
                assert!(rt; agrees(alloc, kind, other_kind, at)?);
            }
        }
    }
    Ok(())
}
