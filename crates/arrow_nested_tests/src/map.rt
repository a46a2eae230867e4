//! Maps made, refused, read, cut and split.
use crate::list_fixtures::{Declared, numbers, struct_of, three_slots, type_of};
use arrow_flat::{Splitable, TryClone};
use arrow_meaning::{ArrayRef, MaskedArray, TypedArray};
use arrow_nested::{MapArray, StructArray};
use arrow_types::{Mem, PolarsResult, Reason};
use flat_fixtures::{ends_as, halves, mask_of, twice};
use std::alloc::Global;
use std::test::Fail;

/// Entries of two numbers each, this many of them.
fn entries(alloc: Global, count: usize) -> Result<ArrayRef, Fail> {
    let keys = numbers(alloc, count)?;
    let values = numbers(alloc, count)?;
    let children = vec![in alloc; keys, values]?;
    let dtype = struct_of(alloc, 2)?;
    let entries = StructArray::try_new(alloc, dtype, count, children, None)?;
    Ok(entries.boxed())
}

/// Three maps, of one, no and one entries.
fn maps(
    alloc: Global,
    declared: Declared,
    child: ArrayRef,
    mask: Option<usize>,
) -> Result<PolarsResult<MapArray>, Fail> {
    let offsets = three_slots::<i32>(alloc)?;
    let dtype = type_of(alloc, declared)?;
    let validity = mask_of(alloc, mask)?;
    Ok(MapArray::try_new(alloc, dtype, offsets, child, validity))
}

/// Maps over entries, or over numbers.
fn maps_over(
    alloc: Global,
    declared: Declared,
    has_entries: bool,
    count: usize,
    mask: Option<usize>,
) -> Result<PolarsResult<MapArray>, Fail> {
    let child = if has_entries {
        entries(alloc, count)?
    } else {
        numbers(alloc, count)?
    };
    maps(alloc, declared, child, mask)
}

/// The type, whether the child has entries, their count, the length of a mask, and the refusal.
type Case = (Declared, bool, usize, Option<usize>, Option<Reason>);

const CASES: [Case; 9] = [
    (Declared::MapOfPair, true, 3, None, None),
    (Declared::MapOfPair, true, 4, Some(3), None),
    (
        Declared::List,
        true,
        2,
        Some(2),
        Some(Reason::OffsetPastValues),
    ),
    (
        Declared::MapOfPair,
        true,
        2,
        None,
        Some(Reason::OffsetPastValues),
    ),
    (
        Declared::List,
        true,
        3,
        Some(2),
        Some(Reason::WrongLogicalType),
    ),
    (
        Declared::MapOfInt32,
        false,
        3,
        Some(2),
        Some(Reason::EntriesNotPair),
    ),
    (
        Declared::MapOfOne,
        true,
        3,
        Some(2),
        Some(Reason::EntriesNotPair),
    ),
    (
        Declared::MapOfPair,
        false,
        3,
        Some(2),
        Some(Reason::ChildTypeDiffers),
    ),
    (
        Declared::MapOfPair,
        true,
        3,
        Some(2),
        Some(Reason::MaskLength),
    ),
];

#[test]
fn the_first_test_that_fails_refuses_maps(rt: HostRuntime) -> Result<(), Fail> {
    let alloc = rt.alloc();
    for (declared, has_entries, count, mask, wanted) in CASES {
        let outcome = maps_over(alloc, declared, has_entries, count, mask)?;
        assert!(rt; ends_as(outcome, wanted));
    }
    Ok(())
}

/// Whether an item of an iterator over values is this many entries.
fn has_entries(item: Option<Mem<ArrayRef>>, wanted: usize) -> bool {
    match item {
        Some(Ok(entries)) => {
            let is_right = entries.len() == wanted;
            drop(entries);
            is_right
        }
        _ => false,
    }
}

/// Whether an item of an iterator over slots is null.
fn is_null(item: Option<Mem<Option<ArrayRef>>>) -> bool {
    match item {
        Some(Ok(None)) => true,
        _ => false,
    }
}

/// Whether the maps are of one entry, a null over none, and of one entry, from both ends.
fn reads_from_both_ends(alloc: Global, array: &MapArray) -> bool {
    let mut slots = array.iter(alloc);
    let mut values = array.values_iter(alloc);
    TypedArray::len(array) == 3
        && slots.next_back().is_some()
        && is_null(slots.next_back())
        && slots.len() == 1
        && has_entries(values.next(), 1)
        && has_entries(values.next_back(), 1)
        && has_entries(values.next(), 0)
        && values.next().is_none()
        && has_entries(Some(array.value(alloc, 2)), 1)
}

/// Whether the halves of a copy of maps at their first slot have one and two slots.
fn is_split(alloc: Global, array: &MapArray) -> Mem<bool> {
    let Some((front, rest)) = halves(alloc, array, 1)? else {
        return Ok(false);
    };
    let is_right = TypedArray::len(&front) == 1 && rest.null_count() == 1;
    drop(front);
    drop(rest);
    Ok(is_right)
}

/// Whether two copies of maps, through the bound, are as long.
fn is_copied(alloc: Global, array: &MapArray) -> Mem<bool> {
    let (first, second) = twice(alloc, array)?;
    let is_right = TypedArray::len(&first) == 3 && TypedArray::len(&second) == 3;
    drop(first);
    drop(second);
    Ok(is_right)
}

#[test]
fn maps_are_read_split_and_copied(rt: HostRuntime) -> Result<(), Fail> {
    let alloc = rt.alloc();
    let array = maps_over(alloc, Declared::MapOfPair, true, 4, Some(3))??;
    let is_read = reads_from_both_ends(alloc, &array);
    let is_split = is_split(alloc, &array);
    let is_copied = is_copied(alloc, &array);
    drop(array);
    assert!(rt; is_read && is_split? && is_copied?);
    Ok(())
}

/// Whether the last two slots, the first of them a null, lose their mask.
fn is_cut_and_bare(alloc: Global, array: &mut MapArray) -> PolarsResult<bool> {
    if TypedArray::len(array) != 3 {
        return Ok(false);
    }
    array.slice(alloc, 1, 2)?;
    let mask = array.take_validity(alloc)?;
    let is_right = mask.is_some() && array.null_count() == 0 && TypedArray::len(array) == 2;
    drop(mask);
    Ok(is_right)
}

#[test]
fn maps_are_cut_and_masked(rt: HostRuntime) -> Result<(), Fail> {
    let alloc = rt.alloc();
    let mut array = maps_over(alloc, Declared::MapOfPair, true, 4, Some(3))??;
    let is_right = is_cut_and_bare(alloc, &mut array);
    drop(array);
    assert!(rt; is_right?);
    Ok(())
}
