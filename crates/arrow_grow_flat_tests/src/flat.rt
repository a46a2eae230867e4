//! Calls succeed with ample memory, through the trait, and the arrays that come out hold what went
//! in.
ghost use Rattle.std.specs.Prelude.{◌≡◌, IfOk};
ghost use Rattle.arrow_types.specs.Seen.{seen};
ghost use Rattle.arrow_types.specs.TypeData as T;
ghost use Rattle.arrow_types.specs.declared.datatype.ArrowDataType.TheVariants as dtype;

use arrow_buffers::Bitmap;
use arrow_flat::{BooleanArray, Int32Array};
use arrow_grow_flat::{Growable, GrowableBoolean, GrowablePrimitive};
use arrow_meaning::ArrayRef;
use arrow_types::{ArrowDataType, GrowError, Mem};
use flat_fixtures::{buffer_of, gives, mask_of};
use std::alloc::Global;
use std::test::Fail;

/// Days, whose second slot is null where there is a mask.
pub(crate) fn days(alloc: Global, items: &[i32], masked: Option<usize>) -> Result<Int32Array, Fail>
    ensures { IfOk result (λ a. a.dtype ≡ dtype.Date32) }
{
    let values = buffer_of(alloc, items)?;
    let mask = mask_of(alloc, masked)?;
    Ok(Int32Array::try_new(ArrowDataType::Date32, values, mask)?)
}

/// Bits, whose second slot is null where there is a mask.
fn bits(alloc: Global, items: &[bool], masked: Option<usize>) -> Result<BooleanArray, Fail>
    ensures { IfOk result (λ a. a.dtype ≡ dtype.Boolean) }
{
    let values = Bitmap::from_bools(alloc, items)?;
    let mask = mask_of(alloc, masked)?;
    Ok(BooleanArray::try_new(ArrowDataType::Boolean, values, mask)?)
}

/// Whether it says that it was made of an array of three slots and one of two, and takes nulls.
pub(crate) fn is_made<G: Growable>(growable: &G) -> bool {
    growable.array_count() == 2
        && growable.array_len(0) == 3
        && growable.array_len(1) == 2
        && growable.takes_nulls()
        && !growable.is_failed()
        && growable.len() == 0
}

/// The slots 1 and 2 of the first array, a null, and twice those of the second; None where it
/// isn't made of these.
pub(crate) fn grown<G: Growable>(growable: &mut G) -> Result<Option<ArrayRef>, GrowError> {
    if growable.is_failed() || !growable.takes_nulls() || growable.array_count() != 2 {
        return Ok(None);
    }
    if growable.array_len(0) < 3 || growable.array_len(1) < 2 {
        return Ok(None);
    }
    growable.extend(0, 1, 2)?;
    growable.extend_validity(1)?;
    growable.extend_copies(1, 0, 2, 2)?;
    Ok(Some(growable.as_box()?))
}

/// Whether more copies than a usize counts are refused, and it says that it failed.
pub(crate) fn overflows<G: Growable>(growable: &mut G) -> bool {
    if growable.is_failed() || growable.array_count() != 2 || growable.array_len(0) < 3 {
        return false;
    }
    let outcome = growable.extend_copies(0, 0, 3, usize::MAX / 2);
    outcome == Err(GrowError::Overflow) && growable.is_failed()
}

/// Whether days grow, twice out of one growable, and then too many of them are refused.
fn days_grow(alloc: Global) -> Result<bool, Fail> {
    let first = days(alloc, &[7, -1, 5], Some(3))?;
    let second = days(alloc, &[8, 9], None)?;
    let mut growable = GrowablePrimitive::<i32>::new(alloc, &[first, second], false, 7)?;
    if !is_made(&growable) {
        return Ok(false);
    }
    for _ in 0..2 {
        let Some(array) = grown(&mut growable)? else {
            return Ok(false);
        };
        if !are_days(&array) {
            return Ok(false);
        }
    }
    Ok(overflows(&mut growable))
}

/// Whether these are the days that grow.
fn are_days(array: &ArrayRef) -> bool {
    match array.as_primitive::<i32>() {
        Some(array) => gives(
            array.iter(),
            &[None, Some(5), None, Some(8), Some(9), Some(8), Some(9)],
        ),
        None => false,
    }
}

/// Whether bits grow, twice out of one growable, and then too many of them are refused.
fn bits_grow(alloc: Global) -> Result<bool, Fail> {
    let first = bits(alloc, &[true, true, false], None)?;
    let second = bits(alloc, &[false, true], Some(2))?;
    let mut growable = GrowableBoolean::new(alloc, &[first, second], false, 0)?;
    if !is_made(&growable) {
        return Ok(false);
    }
    for _ in 0..2 {
        let Some(array) = grown(&mut growable)? else {
            return Ok(false);
        };
        if !are_bits(&array) {
            return Ok(false);
        }
    }
    Ok(overflows(&mut growable))
}

/// Whether these are the bits that grow.
fn are_bits(array: &ArrayRef) -> bool {
    let unset = Some(false);
    match array.as_boolean() {
        Some(array) => gives(
            array.iter(),
            &[Some(true), unset, None, unset, None, unset, None],
        ),
        None => false,
    }
}

#[test]
fn lists_grow_again_after_they_are_boxed(rt: HostRuntime) -> Result<(), Fail> {
    let alloc = rt.alloc();
    assert!(rt; days_grow(alloc)?);
    assert!(rt; bits_grow(alloc)?);
    Ok(())
}

/// Whether a growable without need takes nulls exactly where that is wanted.
fn takes_nulls_if_wanted(alloc: Global, is_wanted: bool) -> Result<bool, Fail> {
    let array = days(alloc, &[1, 2], None)?;
    let growable = GrowablePrimitive::<i32>::new(alloc, &[array], is_wanted, 0)?;
    let takes_nulls = growable.takes_nulls();
    drop(growable);
    Ok(takes_nulls == is_wanted)
}

#[test]
fn nulls_are_taken_where_they_are_wanted(rt: HostRuntime) -> Result<(), Fail> {
    let alloc = rt.alloc();
    assert!(rt; takes_nulls_if_wanted(alloc, true)?);
    assert!(rt; takes_nulls_if_wanted(alloc, false)?);
    Ok(())
}
