//! The masks of arrays one after another.
use crate::flat::days;
use arrow_grow_flat::concatenate_validities;
use arrow_meaning::{ArrayRef, FlatArray, new_null_array};
use arrow_types::{ArrowDataType, GrowError};
use flat_fixtures::gives;
use std::alloc::Global;
use std::test::Fail;

/// Days, whose second slot is null where there is a mask, as an array of any layout.
fn boxed_days(alloc: Global, items: &[i32], masked: Option<usize>) -> Result<ArrayRef, Fail> {
    let array = days(alloc, items, masked)?;
    Ok(array.boxed(alloc)?)
}

/// An array of n nulls.
fn nulls(alloc: Global, length: usize) -> Result<ArrayRef, Fail> {
    Ok(new_null_array(alloc, ArrowDataType::Null, length)?)
}

/// Whether the masks of days, days without a mask and nulls are joined.
fn masks_join(alloc: Global) -> Result<bool, Fail> {
    let first = boxed_days(alloc, &[1, 2, 3], Some(3))?;
    let second = boxed_days(alloc, &[4, 5], None)?;
    let third = nulls(alloc, 2)?;
    let joined = concatenate_validities(alloc, &[first, second, third])?;
    Ok(match joined {
        Some(bits) => gives(bits.iter(), &[true, false, true, true, true, false, false]),
        None => false,
    })
}

/// Whether arrays without nulls have no joined mask.
fn no_masks_join(alloc: Global) -> Result<bool, Fail> {
    let first = boxed_days(alloc, &[1, 2], None)?;
    let second = nulls(alloc, 0)?;
    let joined = concatenate_validities(alloc, &[first, second])?;
    Ok(joined.is_none())
}

/// Whether more slots than a usize counts are refused.
fn masks_overflow(alloc: Global) -> Result<bool, Fail> {
    let first = nulls(alloc, usize::MAX)?;
    let second = nulls(alloc, 1)?;
    Ok(match concatenate_validities(alloc, &[first, second]) {
        Err(error) => error == GrowError::Overflow,
        Ok(_) => false,
    })
}

#[test]
fn masks_are_joined(rt: HostRuntime) -> Result<(), Fail> {
    let alloc = rt.alloc();
    assert!(rt; masks_join(alloc)?);
    assert!(rt; no_masks_join(alloc)?);
    assert!(rt; masks_overflow(alloc)?);
    Ok(())
}
