//! Fixed-size lists made or refused, cut, masked and read.
use crate::struct_fixtures::{has_numbers, numbers};
use arrow_meaning::{ArrayRef, MaskedArray, TypedArray};
use arrow_nested::FixedSizeListArray;
use arrow_types::{ArrowDataType, Mem, PolarsResult, Reason};
use flat_fixtures::{ends_as, halves, mask_of, twice};
use std::alloc::Global;
use std::test::Fail;

/// The type that is given with the parts.
#[derive(Clone, Copy)]
enum Declared {
    /// No type of lists.
    Numbers,
    /// Lists of two items of another type.
    PairsOfOthers,
    /// Lists of as many numbers.
    Lists(usize),
}

fn dtype_of(alloc: Global, declared: Declared) -> Mem<ArrowDataType> {
    match declared {
        Declared::Numbers => Ok(ArrowDataType::Int32),
        Declared::PairsOfOthers => {
            FixedSizeListArray::default_datatype(alloc, ArrowDataType::UInt32, 2)
        }
        Declared::Lists(size) => {
            FixedSizeListArray::default_datatype(alloc, ArrowDataType::Int32, size)
        }
    }
}

/// What is made of these parts; the second slot is null where there is a mask.
fn made(
    alloc: Global,
    declared: Declared,
    length: usize,
    items: &[i32],
    mask: Option<usize>,
) -> PolarsResult<FixedSizeListArray> {
    let dtype = dtype_of(alloc, declared)?;
    let values = numbers(alloc, items)?;
    let validity = mask_of(alloc, mask)?;
    FixedSizeListArray::try_new(alloc, dtype, length, values, validity)
}

#[test]
fn the_first_test_that_fails_is_named(rt: HostRuntime) -> Result<(), Fail> {
    let alloc = rt.alloc();
    for (declared, length, items, mask, wanted) in [
        (
            Declared::Numbers,
            5,
            &[1, 2, 3][..],
            Some(9),
            Some(Reason::WrongLogicalType),
        ),
        (
            Declared::PairsOfOthers,
            5,
            &[1, 2, 3],
            Some(9),
            Some(Reason::ChildTypeDiffers),
        ),
        (
            Declared::Lists(2),
            5,
            &[1, 2, 3],
            Some(9),
            Some(Reason::NotMultiple),
        ),
        (
            Declared::Lists(2),
            5,
            &[1, 2, 3, 4],
            Some(9),
            Some(Reason::LengthDiffers),
        ),
        (
            Declared::Lists(0),
            5,
            &[1],
            Some(9),
            Some(Reason::ZeroWidthValues),
        ),
        (
            Declared::Lists(2),
            2,
            &[1, 2, 3, 4],
            Some(3),
            Some(Reason::MaskLength),
        ),
        (
            Declared::Lists(0),
            3,
            &[],
            Some(2),
            Some(Reason::MaskLength),
        ),
        (Declared::Lists(2), 2, &[1, 2, 3, 4], Some(2), None),
        (Declared::Lists(2), 0, &[], None, None),
        (Declared::Lists(0), 3, &[], Some(3), None),
    ] {
        assert!(rt; ends_as(made(alloc, declared, length, items, mask), wanted));
    }
    Ok(())
}

/// Three lists of two numbers, the second null.
fn pairs(alloc: Global) -> PolarsResult<FixedSizeListArray> {
    made(alloc, Declared::Lists(2), 3, &[1, 2, 3, 4, 5, 6], Some(3))
}

/// Whether the item of an iterator is the list of these numbers.
fn is_list(item: Option<Mem<ArrayRef>>, wanted: &[i32]) -> bool {
    match item {
        Some(Ok(list)) => has_numbers(&list, wanted),
        _ => false,
    }
}

/// Whether the item of an iterator is the list of these numbers, or a null.
fn is_slot(item: Option<Mem<Option<ArrayRef>>>, wanted: Option<&[i32]>) -> bool {
    match (item, wanted) {
        (Some(Ok(Some(list))), Some(wanted)) => has_numbers(&list, wanted),
        (Some(Ok(None)), None) => true,
        _ => false,
    }
}

/// Whether the slots and the values come from both ends, and then end.
fn reads_both_ends(alloc: Global, array: &FixedSizeListArray) -> bool {
    let mut slots = array.iter(alloc);
    let mut values = array.values_iter(alloc);
    slots.len() == 3
        && is_slot(slots.next_back(), Some(&[5, 6]))
        && is_slot(slots.next(), Some(&[1, 2]))
        && is_slot(slots.next(), None)
        && slots.next().is_none()
        && values.len() == 3
        && is_list(values.next(), &[1, 2])
        && is_list(values.next_back(), &[5, 6])
        && is_list(values.next_back(), &[3, 4])
        && values.next_back().is_none()
}

/// Whether a null's list is read by `value`, and not by `get`.
fn reads_at(alloc: Global, array: &FixedSizeListArray) -> bool {
    array.len() == 3
        && is_slot(Some(array.get(alloc, 0)), Some(&[1, 2]))
        && is_slot(Some(array.get(alloc, 1)), None)
        && is_list(Some(array.value(alloc, 1)), &[3, 4])
}

#[test]
fn lists_are_read(rt: HostRuntime) -> Result<(), Fail> {
    let alloc = rt.alloc();
    let array = pairs(alloc)?;
    let is_right = array.size() == 2
        && has_numbers(array.values(), &[1, 2, 3, 4, 5, 6])
        && reads_at(alloc, &array)
        && reads_both_ends(alloc, &array);
    drop(array);
    assert!(rt; is_right);
    Ok(())
}

/// Whether the halves after the first list have their values, and the null is in the second.
fn is_split(alloc: Global, array: &FixedSizeListArray) -> Mem<bool> {
    let Some((first, rest)) = halves(alloc, array, 1)? else {
        return Ok(false);
    };
    let is_right = has_numbers(first.values(), &[1, 2])
        && !first.has_nulls()
        && has_numbers(rest.values(), &[3, 4, 5, 6])
        && rest.null_count() == 1;
    drop(first);
    drop(rest);
    Ok(is_right)
}

/// Whether two copies, as arrays of any layout, are the array.
fn is_copied(alloc: Global, array: &FixedSizeListArray) -> Mem<bool> {
    let (first, second) = twice(alloc, array)?;
    let first = first.boxed();
    let found = FixedSizeListArray::of(alloc, second.as_ref_array());
    let is_right = first.len() == 3 && matches!(&found, Ok(Some(_)));
    drop(first);
    drop(second);
    drop(found);
    Ok(is_right)
}

/// Whether an array that gives its mask away has no nulls, and that of its last two lists their
/// values.
fn is_bared_and_cut(alloc: Global, array: &mut FixedSizeListArray) -> PolarsResult<bool> {
    let taken = array.take_validity(alloc)?;
    let is_bare = taken.is_some() && !array.has_nulls();
    drop(taken);
    if array.len() != 3 {
        return Ok(false);
    }
    array.slice(alloc, 1, 2)?;
    Ok(is_bare && has_numbers(array.values(), &[3, 4, 5, 6]))
}

#[test]
fn lists_are_cut_masked_and_shared(rt: HostRuntime) -> Result<(), Fail> {
    let alloc = rt.alloc();
    let mut array = pairs(alloc)?;
    let split = is_split(alloc, &array);
    let copied = is_copied(alloc, &array);
    let cut = is_bared_and_cut(alloc, &mut array);
    drop(array);
    assert!(rt; split? && copied? && cut?);
    Ok(())
}
