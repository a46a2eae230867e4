//! Nulls go by their count, and what doesn't fit is refused before it is made.
use crate::fixtures::large_lists;
use arrow_canon::Run;
use arrow_gather::{canonical, normalized};
use arrow_meaning::{ArrayRef, TypedArray};
use arrow_nested::{ListArray, NullArray};
use arrow_types::{ArrowDataType, GrowError};
use std::alloc::Global;
use std::test::Fail;

/// One list of 2^63 - 1 nulls, itself null or not.
fn long_list(alloc: Global, is_null: bool) -> Result<ArrayRef, Fail> {
    let child = NullArray::try_new(alloc, ArrowDataType::Null, i64::MAX as usize)?.boxed();
    let bits = [false];
    let bits = if is_null { Some(bits.as_slice()) } else { None };
    large_lists(alloc, &[0, i64::MAX], child, bits)
}

/// How many slots the child of the canonical array has.
fn child_length(alloc: Global, is_null: bool) -> Result<Option<usize>, Fail> {
    let array = long_list(alloc, is_null)?;
    let canonical = normalized(alloc, &array);
    drop(array);
    let canonical = canonical?;
    match ListArray::<i64>::from_array(canonical) {
        Ok(list) => Ok(Some(list.values().len())),
        Err(_) => Ok(None),
    }
}

/// Whether the list taken twice doesn't fit.
fn overflows(alloc: Global) -> Result<bool, Fail> {
    let array = long_list(alloc, false)?;
    let once = Run::Slots {
        start: 0,
        length: array.len(),
    };
    match canonical(alloc, &array, array.dtype(), &[once, once]) {
        Err(GrowError::Overflow) => Ok(true),
        _ => Ok(false),
    }
}

#[test]
fn nulls_go_by_their_count(rt: HostRuntime) -> Result<(), Fail> {
    let alloc = rt.alloc();
    let kept = child_length(alloc, false)?;
    let gone = child_length(alloc, true)?;
    assert!(rt; kept == Some(i64::MAX as usize) && gone == Some(0) && overflows(alloc)?);
    Ok(())
}
