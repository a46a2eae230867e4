//! Lists made, refused, read, cut, split and masked.
use crate::list_fixtures::{Declared, numbers, three_slots, type_of};
use crate::struct_fixtures::has_numbers;
use arrow_buffers::{Offsets, OffsetsBuffer};
use arrow_flat::{Splitable, TryClone};
use arrow_meaning::{ArrayRef, MaskedArray, NodeOffset, TypedArray};
use arrow_nested::{ListArray, NullArray};
use arrow_types::{ArrowDataType, Mem, PolarsResult, Reason};
use flat_fixtures::{ends_as, halves, mask_of, twice};
use std::alloc::Global;
use std::test::Fail;

/// Three lists, of one, no and one numbers, over a child of this many.
fn lists<O: NodeOffset>(
    alloc: Global,
    declared: Declared,
    count: usize,
    mask: Option<usize>,
) -> Result<PolarsResult<ListArray<O>>, Fail> {
    let child = numbers(alloc, count)?;
    let offsets = three_slots::<O>(alloc)?;
    let dtype = type_of(alloc, declared)?;
    let validity = mask_of(alloc, mask)?;
    Ok(ListArray::try_new(alloc, dtype, offsets, child, validity))
}

/// The type, the count of the child's items, the length of a mask, and the refusal.
type Case = (Declared, usize, Option<usize>, Option<Reason>);

const CASES: [Case; 11] = [
    (Declared::List, 3, None, None),
    (Declared::List, 4, Some(3), None),
    (Declared::ExtensionOfList, 3, Some(3), None),
    (Declared::List, 2, None, Some(Reason::OffsetPastValues)),
    (Declared::Int32, 2, Some(2), Some(Reason::OffsetPastValues)),
    (Declared::List, 3, Some(4), Some(Reason::MaskLength)),
    (Declared::Int32, 3, Some(2), Some(Reason::MaskLength)),
    (Declared::Int32, 3, Some(3), Some(Reason::WrongLogicalType)),
    (Declared::LargeList, 3, None, Some(Reason::WrongLogicalType)),
    (
        Declared::MapOfInt32,
        3,
        None,
        Some(Reason::WrongLogicalType),
    ),
    (
        Declared::ListOfInt64,
        3,
        None,
        Some(Reason::ChildTypeDiffers),
    ),
];

#[test]
fn the_first_test_that_fails_refuses_lists(rt: HostRuntime) -> Result<(), Fail> {
    let alloc = rt.alloc();
    for (declared, count, mask, wanted) in CASES {
        assert!(rt; ends_as(lists::<i32>(alloc, declared, count, mask)?, wanted));
    }
    Ok(())
}

/// Whether an item of an iterator is a list of these numbers.
fn is_list(item: Option<Mem<ArrayRef>>, wanted: &[i32]) -> bool {
    match item {
        Some(Ok(list)) => {
            let is_right = has_numbers(&list, wanted);
            drop(list);
            is_right
        }
        _ => false,
    }
}

/// Whether an item of an iterator over slots is null, or a list of these numbers.
fn is_slot(item: Option<Mem<Option<ArrayRef>>>, wanted: Option<&[i32]>) -> bool {
    match item {
        Some(Ok(Some(list))) => {
            let is_right = match wanted {
                Some(wanted) => has_numbers(&list, wanted),
                None => false,
            };
            drop(list);
            is_right
        }
        Some(Ok(None)) => wanted.is_none(),
        _ => false,
    }
}

/// Whether the lists are that of 1, a null over no items, and that of 2, from both ends.
fn reads_from_both_ends<O: NodeOffset>(alloc: Global, array: &ListArray<O>) -> bool {
    let mut slots = array.iter(alloc);
    let mut values = array.values_iter(alloc);
    slots.len() == 3
        && is_slot(slots.next_back(), Some(&[2]))
        && is_slot(slots.next(), Some(&[1]))
        && is_slot(slots.next(), None)
        && slots.next().is_none()
        && is_list(values.next(), &[1])
        && is_list(values.next(), &[])
        && is_list(values.next_back(), &[2])
        && values.next_back().is_none()
}

/// Whether the lists that aren't null are those of 1 and of 2, from both ends.
fn reads_non_null<O: NodeOffset>(alloc: Global, array: &ListArray<O>) -> bool {
    let mut lists = array.non_null_values_iter(alloc);
    lists.len() == 2
        && is_list(lists.next_back(), &[2])
        && is_list(lists.next_back(), &[1])
        && lists.next().is_none()
}

/// Whether single slots are read so.
fn reads_slots<O: NodeOffset>(alloc: Global, array: &ListArray<O>) -> bool {
    TypedArray::len(array) == 3
        && is_list(Some(array.value(alloc, 1)), &[])
        && is_slot(Some(array.get(alloc, 1)), None)
        && is_slot(Some(array.get(alloc, 2)), Some(&[2]))
}

#[test]
fn lists_are_read(rt: HostRuntime) -> Result<(), Fail> {
    let alloc = rt.alloc();
    let array = lists::<i64>(alloc, Declared::LargeList, 4, Some(3))??;
    let is_right = reads_from_both_ends(alloc, &array)
        && reads_non_null(alloc, &array)
        && reads_slots(alloc, &array);
    drop(array);
    assert!(rt; is_right);
    Ok(())
}

/// Whether the halves of lists at their first slot have one slot without and two with a mask.
fn is_split<O: NodeOffset>(alloc: Global, array: &ListArray<O>) -> Mem<bool> {
    let Some((front, rest)) = halves(alloc, array, 1)? else {
        return Ok(false);
    };
    let is_right = TypedArray::len(&front) == 1
        && front.validity().is_none()
        && TypedArray::len(&rest) == 2
        && rest.null_count() == 1;
    drop(front);
    drop(rest);
    Ok(is_right)
}

/// Whether two copies of lists, through the bound, are as long.
fn is_copied<O: NodeOffset>(alloc: Global, array: &ListArray<O>) -> Mem<bool> {
    let (first, second) = twice(alloc, array)?;
    let is_right = TypedArray::len(&first) == 3 && TypedArray::len(&second) == 3;
    drop(first);
    drop(second);
    Ok(is_right)
}

/// Whether two copies of an iterator that is past the first slot end with the third.
fn copies_go_on<O: NodeOffset>(alloc: Global, array: &ListArray<O>) -> Mem<bool> {
    let mut lists = array.values_iter(alloc);
    drop(lists.next());
    let copies = twice(alloc, &lists);
    drop(lists);
    let (mut first, mut second) = copies?;
    let is_right = is_list(first.next_back(), &[2]) && is_list(second.next_back(), &[2]);
    drop(first);
    drop(second);
    Ok(is_right)
}

#[test]
fn iterators_of_lists_are_copied(rt: HostRuntime) -> Result<(), Fail> {
    let alloc = rt.alloc();
    let array = lists::<i32>(alloc, Declared::List, 3, Some(3))??;
    let is_copied = copies_go_on(alloc, &array);
    drop(array);
    assert!(rt; is_copied?);
    Ok(())
}

/// Whether the array of any layout is no array of another type.
fn is_found<O: NodeOffset>(alloc: Global, array: &ArrayRef) -> Mem<bool> {
    let lists = ListArray::<O>::of(alloc, array)?;
    let nulls = NullArray::of(alloc, array);
    let is_right = lists.is_some();
    drop(lists);
    Ok(is_right && nulls?.is_none())
}

#[test]
fn lists_are_split_and_copied(rt: HostRuntime) -> Result<(), Fail> {
    let alloc = rt.alloc();
    let array = lists::<i32>(alloc, Declared::List, 3, Some(3))??;
    let is_split = is_split(alloc, &array);
    let is_copied = is_copied(alloc, &array);
    let array = array.boxed();
    let is_found = is_found::<i32>(alloc, &array);
    drop(array);
    assert!(rt; is_split? && is_copied? && is_found?);
    Ok(())
}

/// Whether the last two slots, the first of them a null, lose their mask and are read without it.
fn is_cut_and_bare<O: NodeOffset>(alloc: Global, array: &mut ListArray<O>) -> PolarsResult<bool> {
    if TypedArray::len(array) != 3 {
        return Ok(false);
    }
    array.slice(alloc, 1, 2)?;
    let mask = array.take_validity(alloc)?;
    let is_right = mask.is_some() && array.null_count() == 0 && TypedArray::len(array) == 2;
    drop(mask);
    array.set_validity(alloc, None)?;
    Ok(is_right && is_list(Some(array.value(alloc, 1)), &[2]))
}

#[test]
fn lists_are_cut_and_masked(rt: HostRuntime) -> Result<(), Fail> {
    let alloc = rt.alloc();
    let mut array = lists::<i32>(alloc, Declared::List, 3, Some(3))??;
    let is_right = is_cut_and_bare(alloc, &mut array);
    drop(array);
    assert!(rt; is_right?);
    Ok(())
}

/// Whether the default type of lists is one of lists of its items, and none of the other lists.
fn has_default_type(alloc: Global) -> Mem<bool> {
    let dtype = ListArray::<i32>::default_datatype(alloc, ArrowDataType::Int32)?;
    let is_right = match ListArray::<i32>::try_get_child(&dtype) {
        Ok(field) => field.dtype == ArrowDataType::Int32 && field.is_nullable,
        Err(_) => false,
    };
    let is_other = ListArray::<i64>::try_get_child(&dtype).is_ok();
    drop(dtype);
    Ok(is_right && !is_other)
}

#[test]
fn types_of_lists_declare_their_items(rt: HostRuntime) -> Result<(), Fail> {
    assert!(rt; has_default_type(rt.alloc())?);
    Ok(())
}

/// The offsets 0 and the greatest number of items.
fn widest(alloc: Global) -> Result<OffsetsBuffer<i64>, Fail> {
    let offsets = Offsets::try_from_vec(vec![in alloc; 0i64, i64::MAX]?)?;
    Ok(offsets.freeze()?)
}

/// One list of 2^63 - 1 nulls.
fn list_of_nulls(alloc: Global) -> Result<ListArray<i64>, Fail> {
    let nulls = NullArray::try_new(alloc, ArrowDataType::Null, 9223372036854775807)?;
    let child = nulls.boxed();
    let offsets = widest(alloc)?;
    let dtype = ListArray::<i64>::default_datatype(alloc, ArrowDataType::Null)?;
    Ok(ListArray::try_new(alloc, dtype, offsets, child, None)?)
}

/// Whether the first slot has 2^63 - 1 items.
fn is_widest(alloc: Global, array: &ListArray<i64>) -> Mem<bool> {
    if TypedArray::len(array) != 1 {
        return Ok(false);
    }
    let items = array.value(alloc, 0)?;
    let is_right = items.len() == 9223372036854775807;
    drop(items);
    Ok(is_right)
}

#[test]
fn nulls_without_number_are_not_walked(rt: HostRuntime) -> Result<(), Fail> {
    let alloc = rt.alloc();
    let array = list_of_nulls(alloc)?;
    let is_right = is_widest(alloc, &array);
    drop(array);
    assert!(rt; is_right?);
    Ok(())
}
