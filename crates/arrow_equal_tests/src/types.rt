//! Types that differ in a name, in what may be null, or in what is noted beside a field.
use crate::fixtures::{field, lists};
use arrow_equal::{SlotEq, equal};
use arrow_meaning::ArrayRef;
use arrow_types::{Field, Mem, Metadata, PlSmallStr};
use std::alloc::Global;
use std::test::Fail;

/// The field of a table: each after the first differs from it in one part.
fn item(alloc: Global, at: usize) -> Mem<Field> {
    match at {
        0 => field(alloc, "item", true),
        1 => field(alloc, "other", true),
        2 => field(alloc, "item", false),
        _ => noted(alloc),
    }
}

/// A field with a note.
fn noted(alloc: Global) -> Mem<Field> {
    let mut metadata = Metadata::new(alloc);
    let key = PlSmallStr::try_from_str(alloc, "key")?;
    let value = PlSmallStr::try_from_str(alloc, "value")?;
    metadata.insert(key, value)?;
    field(alloc, "item", true)?.with_metadata(alloc, metadata)
}

/// One list of one number.
fn list(alloc: Global, at: usize) -> Result<ArrayRef, Fail> {
    lists::<i32>(alloc, item(alloc, at)?, &[1], &[7], &[])
}

fn equals(alloc: Global, array: &ArrayRef, at: usize) -> Result<bool, Fail> {
    let other = list(alloc, at)?;
    let is_equal = equal(array, &other);
    let is_alike = array.slot_eq(&other) == is_equal;
    drop(other);
    Ok(is_equal && is_alike)
}

fn agrees(alloc: Global, lhs: usize, rhs: usize) -> Result<bool, Fail> {
    let array = list(alloc, lhs)?;
    let is_equal = equals(alloc, &array, rhs);
    drop(array);
    Ok(is_equal? == (lhs == rhs))
}

#[test]
fn types_are_compared_in_full(rt: HostRuntime) -> Result<(), Fail> {
    let alloc = rt.alloc();
    for lhs in 0..4 {
        for rhs in 0..4 {
            assert!(rt; agrees(alloc, lhs, rhs)?);
        }
    }
    Ok(())
}
