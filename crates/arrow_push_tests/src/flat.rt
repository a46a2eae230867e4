//! What no clause says of builders of numbers and bits: that calls succeed with ample memory, when
//! a mask begins, and the generic calls through their bounds.
use arrow_push::{MutableBooleanArray, MutablePrimitiveArray, TryExtend};
use arrow_types::{ArrowDataType, Mem, PolarsResult};
use push_fixtures::Call::{Append, Extend, Fill, Push, Reserve, ShrinkToFit, Truncate};
use push_fixtures::{Call, begins_its_mask, gives, is_copied};
use std::alloc::Global;
use std::test::Fail;

/// Whether calls of a builder of numbers give these slots.
fn gives_numbers(
    alloc: Global,
    calls: &[Call<'_, i32>],
    slots: &[Option<i32>],
) -> PolarsResult<bool> {
    gives(
        MutablePrimitiveArray::<i32>::new(alloc),
        MutablePrimitiveArray::<i32>::new(alloc),
        calls,
        ArrowDataType::Int32,
        slots,
    )
}

/// Whether calls of a builder of large numbers give these slots.
fn gives_large_numbers(
    alloc: Global,
    calls: &[Call<'_, i64>],
    slots: &[Option<i64>],
) -> PolarsResult<bool> {
    gives(
        MutablePrimitiveArray::<i64>::new(alloc),
        MutablePrimitiveArray::<i64>::new(alloc),
        calls,
        ArrowDataType::Int64,
        slots,
    )
}

/// Whether calls of a builder of bits give these slots.
fn gives_bits(
    alloc: Global,
    calls: &[Call<'_, bool>],
    slots: &[Option<bool>],
) -> PolarsResult<bool> {
    gives(
        MutableBooleanArray::new(alloc),
        MutableBooleanArray::new(alloc),
        calls,
        ArrowDataType::Boolean,
        slots,
    )
}

#[test]
fn numbers_stand_as_they_were_pushed(rt: HostRuntime) -> Result<(), Fail> {
    let calls = [
        Reserve(4),
        Push(Some(7)),
        Push(None),
        Extend(&[None, Some(-1)]),
        ShrinkToFit,
    ];
    let slots = [Some(7), None, None, Some(-1)];
    assert!(rt; gives_numbers(rt.alloc(), &calls, &slots)?);
    Ok(())
}

#[test]
fn the_first_null_begins_the_mask(rt: HostRuntime) -> Result<(), Fail> {
    let builder = MutablePrimitiveArray::<u8>::new(rt.alloc());
    assert!(rt; begins_its_mask(builder, 7)?);
    Ok(())
}

/// Whether the array of the bits of a vector, of which none is null, has no mask.
fn has_no_mask(alloc: Global, builder: &mut MutableBooleanArray) -> PolarsResult<bool> {
    builder.try_extend(vec![in alloc; Some(true), Some(false)]?)?;
    let array = builder.finish()?;
    let is_right = array.validity().is_none()
        && array.iter().eq([Some(true), Some(false)].iter().copied());
    drop(array);
    Ok(is_right)
}

#[test]
fn an_array_without_nulls_has_no_mask(rt: HostRuntime) -> Result<(), Fail> {
    let mut builder = MutableBooleanArray::new(rt.alloc())?;
    let is_right = has_no_mask(rt.alloc(), &mut builder);
    drop(builder);
    assert!(rt; is_right?);
    Ok(())
}

#[test]
fn numbers_are_cut_back(rt: HostRuntime) -> Result<(), Fail> {
    let calls = [Extend(&[Some(3), None, Some(5)]), Truncate(2)];
    assert!(rt; gives_large_numbers(rt.alloc(), &calls, &[Some(3), None])?);
    Ok(())
}

#[test]
fn bits_stand_as_they_were_pushed(rt: HostRuntime) -> Result<(), Fail> {
    let calls = [
        Reserve(4),
        Push(Some(true)),
        Push(None),
        Extend(&[Some(false), Some(true)]),
        ShrinkToFit,
    ];
    let slots = [Some(true), None, Some(false), Some(true)];
    assert!(rt; gives_bits(rt.alloc(), &calls, &slots)?);
    Ok(())
}

#[test]
fn bits_are_cut_back(rt: HostRuntime) -> Result<(), Fail> {
    let calls = [Extend(&[Some(true), None, Some(false)]), Truncate(2)];
    assert!(rt; gives_bits(rt.alloc(), &calls, &[Some(true), None])?);
    Ok(())
}

#[test]
fn builders_are_filled_through_their_bounds(rt: HostRuntime) -> Result<(), Fail> {
    assert!(rt; gives_numbers(rt.alloc(), &[Fill(7)], &[Some(7), None])?);
    assert!(rt; gives_bits(rt.alloc(), &[Fill(true)], &[Some(true), None])?);
    Ok(())
}

#[test]
fn slots_of_another_builder_go_in(rt: HostRuntime) -> Result<(), Fail> {
    let numbers = [Push(Some(7)), Append(&[None])];
    assert!(rt; gives_numbers(rt.alloc(), &numbers, &[Some(7), None])?);
    let bits = [Push(Some(false)), Append(&[None])];
    assert!(rt; gives_bits(rt.alloc(), &bits, &[Some(false), None])?);
    Ok(())
}

#[test]
fn builders_are_copied(rt: HostRuntime) -> Result<(), Fail> {
    assert!(rt; is_copied(rt.alloc(), MutablePrimitiveArray::<i64>::new(rt.alloc()))?);
    assert!(rt; is_copied(rt.alloc(), MutableBooleanArray::new(rt.alloc()))?);
    Ok(())
}
