//! Structs made or refused, cut, masked and taken apart.
use crate::struct_fixtures::{has_numbers, numbers, struct_type};
use arrow_meaning::{ArrayRef, MaskedArray, TypedArray};
use arrow_nested::StructArray;
use arrow_types::{ArrowDataType, Mem, PolarsResult, Reason};
use flat_fixtures::{ends_as, halves, mask_of, twice};
use std::alloc::Global;
use std::test::Fail;

/// The type that is given with the parts.
#[derive(Clone, Copy)]
enum Declared {
    /// No type of structs.
    Numbers,
    /// Structs without fields.
    Empty,
    /// Structs of two numbers.
    Pairs,
    /// Structs of a number and one of another type.
    Mixed,
}

fn dtype_of(alloc: Global, declared: Declared) -> Mem<ArrowDataType> {
    match declared {
        Declared::Numbers => Ok(ArrowDataType::Int32),
        Declared::Empty => struct_type(alloc, &[]),
        Declared::Pairs => struct_type(alloc, &[ArrowDataType::Int32, ArrowDataType::Int32]),
        Declared::Mixed => struct_type(alloc, &[ArrowDataType::Int32, ArrowDataType::UInt32]),
    }
}

/// Children of these numbers.
fn children(alloc: Global, parts: &[&[i32]]) -> PolarsResult<Vec<ArrayRef>> {
    let mut children = Vec::new(alloc);
    for part in parts {
        children.push(numbers(alloc, part)?)?;
    }
    Ok(children)
}

/// What is made of these parts; the second slot is null where there is a mask.
fn made(
    alloc: Global,
    declared: Declared,
    length: usize,
    parts: &[&[i32]],
    mask: Option<usize>,
) -> PolarsResult<StructArray> {
    let dtype = dtype_of(alloc, declared)?;
    let values = children(alloc, parts)?;
    let validity = mask_of(alloc, mask)?;
    StructArray::try_new(alloc, dtype, length, values, validity)
}

#[test]
fn the_first_test_that_fails_is_named(rt: HostRuntime) -> Result<(), Fail> {
    let alloc = rt.alloc();
    for (declared, length, parts, mask, wanted) in [
        (
            Declared::Numbers,
            9,
            &[&[1, 2][..]][..],
            Some(3),
            Some(Reason::WrongLogicalType),
        ),
        (
            Declared::Mixed,
            9,
            &[&[1, 2]],
            Some(3),
            Some(Reason::FieldCount),
        ),
        (
            Declared::Mixed,
            9,
            &[&[1, 2], &[3]],
            Some(3),
            Some(Reason::ChildTypeDiffers),
        ),
        (
            Declared::Pairs,
            2,
            &[&[1, 2], &[3]],
            Some(3),
            Some(Reason::ChildLength),
        ),
        (
            Declared::Pairs,
            9,
            &[&[1, 2], &[3, 4]],
            Some(3),
            Some(Reason::ChildLength),
        ),
        (
            Declared::Pairs,
            2,
            &[&[1, 2], &[3, 4]],
            Some(3),
            Some(Reason::MaskLength),
        ),
        (Declared::Pairs, 2, &[&[1, 2], &[3, 4]], Some(2), None),
        (Declared::Pairs, 0, &[&[], &[]], None, None),
        (Declared::Empty, 5, &[], Some(5), None),
    ] {
        assert!(rt; ends_as(made(alloc, declared, length, parts, mask), wanted));
    }
    Ok(())
}

/// The pairs of 1 and 4, null over 2 and 5, and of 3 and 6.
fn pairs(alloc: Global) -> PolarsResult<StructArray> {
    made(
        alloc,
        Declared::Pairs,
        3,
        &[&[1, 2, 3], &[4, 5, 6]],
        Some(3),
    )
}

/// Whether these are two children of these numbers.
fn are_pairs(parts: &[ArrayRef], first: &[i32], second: &[i32]) -> bool {
    match parts {
        [one, two] => has_numbers(one, first) && has_numbers(two, second),
        _ => false,
    }
}

/// Whether the array comes apart into what it was made of.
fn is_taken_apart(alloc: Global, array: StructArray) -> Mem<bool> {
    let (fields, length, parts, validity) = array.into_data(alloc)?;
    let is_right = fields.len() == 2
        && length == 3
        && are_pairs(&parts, &[1, 2, 3], &[4, 5, 6])
        && validity.is_some();
    drop(fields);
    drop(parts);
    drop(validity);
    Ok(is_right)
}

#[test]
fn structs_are_read(rt: HostRuntime) -> Result<(), Fail> {
    let alloc = rt.alloc();
    let array = pairs(alloc)?;
    let is_right = array.fields().len() == 2
        && are_pairs(array.values(), &[1, 2, 3], &[4, 5, 6])
        && array.len() == 3
        && array.null_count() == 1;
    let is_apart = is_taken_apart(alloc, array);
    assert!(rt; is_right && is_apart?);
    Ok(())
}

/// Whether the halves after the first struct have their parts, and the null is in the second.
fn is_split(alloc: Global, array: &StructArray) -> Mem<bool> {
    let Some((first, rest)) = halves(alloc, array, 1)? else {
        return Ok(false);
    };
    let is_right = are_pairs(first.values(), &[1], &[4])
        && !first.has_nulls()
        && are_pairs(rest.values(), &[2, 3], &[5, 6])
        && rest.null_count() == 1;
    drop(first);
    drop(rest);
    Ok(is_right)
}

/// Whether two copies, as arrays of any layout, are the array.
fn is_copied(alloc: Global, array: &StructArray) -> Mem<bool> {
    let (first, second) = twice(alloc, array)?;
    let first = first.boxed();
    let found = StructArray::of(alloc, second.as_ref_array());
    let is_right = first.len() == 3 && matches!(&found, Ok(Some(_)));
    drop(first);
    drop(second);
    drop(found);
    Ok(is_right)
}

/// Whether an array without its mask has no nulls, and that of its last two structs their parts.
fn is_bared_and_cut(alloc: Global, array: &mut StructArray) -> PolarsResult<bool> {
    array.set_validity(alloc, None)?;
    let is_bare = !array.has_nulls();
    if array.len() != 3 {
        return Ok(false);
    }
    array.slice(alloc, 1, 2)?;
    Ok(is_bare && are_pairs(array.values(), &[2, 3], &[5, 6]))
}

#[test]
fn structs_are_cut_masked_and_shared(rt: HostRuntime) -> Result<(), Fail> {
    let alloc = rt.alloc();
    let mut array = pairs(alloc)?;
    let split = is_split(alloc, &array);
    let copied = is_copied(alloc, &array);
    let cut = is_bared_and_cut(alloc, &mut array);
    drop(array);
    assert!(rt; split? && copied? && cut?);
    Ok(())
}
