//! Null arrays made, refused and cut, and their builder.
ghost use Rattle.std.specs.Prelude.{◌≡◌, Some};
ghost use Rattle.arrow_types.specs.Seen.{seen};
ghost use Rattle.arrow_types.specs.Types.{physical_of};

use arrow_meaning::{TypedArray, new_null_array};
use arrow_nested::{MutableNullArray, NullArray};
use arrow_types::{ArrowDataType, Mem, PolarsResult, Reason};
use flat_fixtures::{ends_as, halves, twice};
use std::alloc::Global;
use std::test::Fail;

#[test]
fn nulls_of_another_type_are_refused(rt: HostRuntime) {
    let alloc = rt.alloc();
    assert!(rt;
        ends_as(NullArray::try_new(alloc, ArrowDataType::Null, 3), None)
            && ends_as(
                NullArray::try_new(alloc, ArrowDataType::Int32, 3),
                Some(Reason::WrongLogicalType)
            )
    );
}

/// Whether the halves of nulls at the slot 1, and their copies, have these counts.
fn is_split(alloc: Global, array: &NullArray) -> Mem<bool> {
    let Some((front, rest)) = halves(alloc, array, 1)? else {
        return Ok(false);
    };
    let is_right = front.len() == 1 && rest.null_count() == usize::MAX - 1;
    drop(front);
    drop(rest);
    Ok(is_right)
}

/// Whether two copies of nulls, through the bound, are as long.
fn is_copied(alloc: Global, array: &NullArray) -> Mem<bool> {
    let (first, second) = twice(alloc, array)?;
    let is_right = first.len() == usize::MAX && second.null_count() == usize::MAX;
    drop(first);
    drop(second);
    Ok(is_right)
}

#[test]
fn nulls_are_counted_and_not_walked(rt: HostRuntime) -> Result<(), Fail> {
    let alloc = rt.alloc();
    let array = NullArray::try_new(alloc, ArrowDataType::Null, usize::MAX)?;
    let is_split = is_split(alloc, &array);
    let is_copied = is_copied(alloc, &array);
    drop(array);
    assert!(rt; is_split? && is_copied?);
    Ok(())
}

/// Whether this many nulls are made, through the bound.
fn are_made<T: TypedArray>(alloc: Global, dtype: ArrowDataType, length: usize) -> PolarsResult<bool>
    requires { physical_of (seen dtype) ≡ Some T.physical }
{
    let array = T::new_null(alloc, dtype, length)?;
    let is_right = array.len() == length && array.null_count() == length;
    drop(array);
    Ok(is_right)
}

/// Whether an array without slots is made, through the bound.
fn is_made_empty<T: TypedArray>(alloc: Global, dtype: ArrowDataType) -> PolarsResult<bool>
    requires { physical_of (seen dtype) ≡ Some T.physical }
{
    let array = T::new_empty(alloc, dtype)?;
    let is_right = array.is_empty();
    drop(array);
    Ok(is_right)
}

/// Whether two nulls of 32-bit integers are made.
fn are_numbers_made(alloc: Global) -> PolarsResult<bool> {
    let array = new_null_array(alloc, ArrowDataType::Int32, 2)?;
    let is_right = array.as_primitive::<i32>().is_some() && array.null_count() == 2;
    drop(array);
    Ok(is_right)
}

#[test]
#[tactic(auto, using(arrow_flat::proofs::TypeViews::seen_types))]
fn arrays_are_made_of_a_type_alone(rt: HostRuntime) -> Result<(), Fail> {
    let alloc = rt.alloc();
    let are_made = are_made::<NullArray>(alloc, ArrowDataType::Null, 3)?;
    let is_made_empty = is_made_empty::<NullArray>(alloc, ArrowDataType::Null)?;
    let are_numbers_made = are_numbers_made(alloc)?;
    assert!(rt; are_made && is_made_empty && are_numbers_made);
    Ok(())
}

/// A builder of this many nulls.
#[tactic(auto, using(arrow_flat::proofs::TypeViews::seen_types))]
fn builder_of(alloc: Global, length: usize) -> MutableNullArray {
    MutableNullArray::new(alloc, ArrowDataType::Null, length)
}

/// Appends two nulls, of which a builder that lacks one takes the first alone.
fn push_two(builder: &mut MutableNullArray) -> PolarsResult<()> {
    builder.push_null()?;
    builder.push_null()
}

/// Keeps the first four slots, where there are more.
fn keep_four(builder: &mut MutableNullArray) {
    if builder.len() > 4 {
        builder.truncate(4);
    }
}

#[test]
fn no_more_nulls_are_pushed_than_are_counted(rt: HostRuntime) -> Result<(), Fail> {
    let mut builder = builder_of(rt.alloc(), usize::MAX - 1);
    let pushed = push_two(&mut builder);
    let length = builder.len();
    keep_four(&mut builder);
    let array = builder.into_array()?;
    let is_right = array.len() == 4;
    drop(array);
    assert!(rt; ends_as(pushed, Some(Reason::LengthOverflow)) && length == usize::MAX && is_right);
    Ok(())
}
