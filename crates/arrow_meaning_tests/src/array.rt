//! Arrays made, borrowed, shared, cut and masked.
use crate::fixtures::{array_of_numbers, buffer_of};
use arrow_buffers::{Offsets, OffsetsBuffer};
use arrow_bytes::Utf8Array;
use arrow_flat::TryClone;
use arrow_meaning::{ArrayRef, Node, NodeNative, NodeOffset};
use arrow_types::{ArrowDataType, Mem, PolarsResult};
use std::alloc::Global;
use std::test::Fail;

fn is_of<T: NodeNative>(array: &ArrayRef) -> bool {
    array.as_primitive::<T>().is_some()
}

fn has_texts<O: NodeOffset>(array: &ArrayRef) -> bool {
    array.as_utf8::<O>().is_some() && array.as_binary::<O>().is_none()
}

fn shared_copy<T: TryClone>(alloc: Global, value: &T) -> Mem<T> {
    value.try_clone(alloc)
}

/// Whether an array has these slots of 32 bits, from the back.
fn gives_from_the_back(array: &ArrayRef, slots: &[Option<i32>]) -> bool {
    match array.as_primitive::<i32>() {
        Some(numbers) => numbers.iter().rev().eq(slots.iter().copied()),
        None => false,
    }
}

/// Whether an array is that of 1, null and 3, and none of another layout.
fn is_of_numbers(array: &ArrayRef) -> bool {
    array.len() == 3
        && gives_from_the_back(array, &[Some(3), None, Some(1)])
        && is_of::<i32>(array)
        && !is_of::<i64>(array)
        && array.as_boolean().is_none()
        && array.as_fixed_size_binary().is_none()
}

#[test]
fn an_array_is_made_and_shared(rt: HostRuntime) -> Result<(), Fail> {
    let alloc = rt.alloc();
    let array = array_of_numbers(alloc)?;
    let shared = shared_copy(alloc, &array);
    drop(array);
    let shared = shared?;
    let is_right = is_of_numbers(&shared);
    drop(shared);
    assert!(rt; is_right);
    Ok(())
}

/// Whether the second of three slots alone is null.
fn has_one_null(array: &ArrayRef) -> bool {
    array.len() == 3 && array.null_count() == 1 && array.is_null(1) && array.is_valid(2)
}

/// Whether the null is in the second of two parts, which begins at the second slot.
fn has_null_in_the_rest(alloc: Global, array: &ArrayRef) -> Mem<bool> {
    if array.len() < 1 {
        return Ok(false);
    }
    let (first, rest) = array.split_at_boxed(alloc, 1)?;
    let is_right = first.validity().is_none() && rest.has_nulls();
    drop(first);
    drop(rest);
    Ok(is_right)
}

/// Whether an array has no null without its mask.
fn has_no_null_unmasked(alloc: Global, array: &ArrayRef) -> PolarsResult<bool> {
    let bare = array.with_validity(alloc, None)?;
    let is_right = bare.null_count() == 0;
    drop(bare);
    Ok(is_right)
}

/// Whether an array that keeps its third slot has one slot, and so has another owner of it.
fn is_cut_to_the_third(alloc: Global, array: &mut ArrayRef) -> Mem<bool> {
    if array.len() != 3 {
        return Ok(false);
    }
    array.slice(alloc, 2, 1)?;
    let owner = array.to_boxed(alloc)?;
    let is_right = owner.len() == 1;
    drop(owner);
    Ok(is_right)
}

#[test]
fn an_array_is_cut_and_masked(rt: HostRuntime) -> Result<(), Fail> {
    let alloc = rt.alloc();
    let mut array = array_of_numbers(alloc)?;
    let has_null = has_one_null(&array);
    let is_split = has_null_in_the_rest(alloc, &array);
    let is_bare = has_no_null_unmasked(alloc, &array);
    let is_cut = is_cut_to_the_third(alloc, &mut array);
    drop(array);
    assert!(rt; has_null && is_split? && is_bare? && is_cut?);
    Ok(())
}

fn offsets_of_two(alloc: Global) -> Result<OffsetsBuffer<i64>, Fail> {
    let offsets = Offsets::try_from_vec(vec![in alloc; 0i64, 1, 3]?)?;
    Ok(offsets.freeze()?)
}

/// The texts `a` and `bc`.
fn texts(alloc: Global) -> Result<ArrayRef, Fail> {
    let offsets = offsets_of_two(alloc)?;
    let values = buffer_of(alloc, b"abc")?;
    let texts = Utf8Array::try_new(ArrowDataType::LargeUtf8, offsets, values, None)?;
    Ok(ArrayRef::from_node(alloc, Node::LargeUtf8(texts))?)
}

/// Whether an array is one text, `bc`.
fn is_one_text(array: &ArrayRef) -> bool {
    match array.as_utf8::<i64>() {
        Some(texts) => texts.len() == 1 && texts.value(0) == "bc",
        None => false,
    }
}

/// Whether the second of two texts is `bc`.
fn has_second_text(alloc: Global, array: &ArrayRef) -> Mem<bool> {
    if array.len() != 2 {
        return Ok(false);
    }
    let part = array.sliced(alloc, 1, 1)?;
    let is_right = is_one_text(&part);
    drop(part);
    Ok(is_right)
}

#[test]
fn texts_are_no_byte_strings(rt: HostRuntime) -> Result<(), Fail> {
    let alloc = rt.alloc();
    let array = texts(alloc)?;
    let is_large = has_texts::<i64>(&array) && !has_texts::<i32>(&array);
    let is_cut = has_second_text(alloc, &array);
    drop(array);
    assert!(rt; is_large && is_cut?);
    Ok(())
}
