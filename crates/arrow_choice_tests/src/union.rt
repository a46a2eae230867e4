//! Unions: which test of the constructor comes first, what is read, and slices that keep their
//! shift.
use crate::union_fixtures::{Declared, try_union};
use arrow_choice::UnionArray;
use arrow_flat::stored::is_stored_in;
use arrow_meaning::TypedArray;
use arrow_types::{Mem, PhysicalType, Reason};
use flat_fixtures::{ends_as, gives, halves, twice};
use std::alloc::Global;
use std::test::Fail;

/// A type of unions with fields of 32 bits and without ids.
fn declared(fields: usize, is_sparse: bool) -> Declared<'static> {
    Declared {
        fields,
        is_large: false,
        ids: None,
        is_sparse,
    }
}

/// A type of unions with fields of 32 bits and with ids.
fn identified(fields: usize, ids: &[i32], is_sparse: bool) -> Declared<'_> {
    Declared {
        fields,
        is_large: false,
        ids: Some(ids),
        is_sparse,
    }
}

/// A type of unions with fields of 64 bits and without ids.
fn large(fields: usize, is_sparse: bool) -> Declared<'static> {
    Declared {
        fields,
        is_large: true,
        ids: None,
        is_sparse,
    }
}

/// Whether these parts are refused so, or accepted where no refusal is wanted.
fn ends(
    alloc: Global,
    declared: Option<Declared<'_>>,
    types: &[i8],
    lengths: &[usize],
    offsets: Option<&[i32]>,
    wanted: Option<Reason>,
) -> bool {
    ends_as(try_union(alloc, declared, types, lengths, offsets), wanted)
}

/// The tests of the type and of the fields: each fails a later test too.
fn tests_fields(alloc: Global) -> bool {
    let wrong = Some(Reason::WrongLogicalType);
    let differs = Some(Reason::ChildTypeDiffers);
    ends(alloc, None, &[-1], &[1], Some(&[]), wrong)
        && ends(
            alloc,
            Some(large(2, true)),
            &[-1],
            &[1],
            Some(&[]),
            Some(Reason::FieldCount),
        )
        && ends(alloc, Some(large(1, true)), &[-1], &[1], Some(&[]), differs)
}

/// The count of fields, which is tested before their types.
fn tests_count(alloc: Global) -> bool {
    let many = [1usize; 128];
    let wanted = Some(Reason::TooManyFields);
    ends(
        alloc,
        Some(large(128, true)),
        &[-1],
        &many,
        Some(&[]),
        wanted,
    ) && ends(
        alloc,
        Some(declared(127, true)),
        &[126],
        &many[1..],
        None,
        None,
    )
}

/// The tests of the offsets that are there, or aren't: each fails a later test too.
fn tests_offsets(alloc: Global) -> bool {
    let length = Some(Reason::OffsetsLength);
    let mode = Some(Reason::OffsetsMode);
    ends(
        alloc,
        Some(declared(1, true)),
        &[-1],
        &[1],
        Some(&[]),
        length,
    ) && ends(
        alloc,
        Some(declared(1, true)),
        &[-1],
        &[1],
        Some(&[5]),
        mode,
    ) && ends(alloc, Some(declared(1, false)), &[-1], &[1], None, mode)
}

/// The tests of the ids: each fails a later test too.
fn tests_ids(alloc: Global) -> bool {
    let range = Some(Reason::IdRange);
    ends(
        alloc,
        Some(identified(1, &[128, 5], true)),
        &[-1],
        &[0],
        None,
        Some(Reason::IdCount),
    ) && ends(
        alloc,
        Some(identified(1, &[128], true)),
        &[-1],
        &[0],
        None,
        range,
    ) && ends(
        alloc,
        Some(identified(1, &[-1], true)),
        &[-1],
        &[0],
        None,
        range,
    )
}

/// The tests of the type numbers and of the count of fields: each fails a later test too.
fn tests_numbers(alloc: Global) -> bool {
    let range = Some(Reason::TypeRange);
    ends(
        alloc,
        Some(identified(1, &[5], true)),
        &[-1],
        &[0],
        None,
        range,
    ) && ends(
        alloc,
        Some(declared(1, false)),
        &[-1],
        &[1],
        Some(&[5]),
        range,
    ) && ends(
        alloc,
        Some(declared(1, false)),
        &[1],
        &[1],
        Some(&[5]),
        range,
    ) && ends(
        alloc,
        Some(declared(0, true)),
        &[],
        &[],
        None,
        Some(Reason::NotCarried),
    )
}

/// The tests of the slots that are read, and parts that fit.
fn tests_slots(alloc: Global) -> bool {
    let offset = Some(Reason::DenseOffset);
    ends(
        alloc,
        Some(declared(1, false)),
        &[0],
        &[1],
        Some(&[1]),
        offset,
    ) && ends(
        alloc,
        Some(declared(1, false)),
        &[0],
        &[1],
        Some(&[-1]),
        offset,
    ) && ends(
        alloc,
        Some(declared(2, true)),
        &[0, 0],
        &[2, 1],
        None,
        Some(Reason::SparseLength),
    ) && ends(
        alloc,
        Some(identified(1, &[127], true)),
        &[127, 0],
        &[2],
        None,
        None,
    ) && ends(
        alloc,
        Some(declared(2, false)),
        &[1, 0],
        &[1, 1],
        Some(&[0, 0]),
        None,
    )
}

#[test]
fn each_test_refuses_in_its_turn(rt: HostRuntime) -> Result<(), Fail> {
    let alloc = rt.alloc();
    let has_shape = tests_fields(alloc) && tests_count(alloc) && tests_offsets(alloc);
    let has_slots = tests_ids(alloc) && tests_numbers(alloc) && tests_slots(alloc);
    assert!(rt; has_shape && has_slots);
    Ok(())
}

/// Whether each slot is read there, by its position, and in order from both ends.
fn reads(array: &UnionArray, wanted: &[(usize, usize)]) -> bool {
    if TypedArray::len(array) != wanted.len() {
        return false;
    }
    for (i, place) in wanted.iter().enumerate() {
        if array.index(i) != *place {
            return false;
        }
    }
    gives(array.iter(), wanted) && array.iter().rev().eq(wanted.iter().rev().copied())
}

/// Whether the type of an array says this of its fields.
fn declares(array: &UnionArray, fields: usize, is_sparse: bool) -> bool {
    let dtype = TypedArray::dtype(array);
    if !is_stored_in(dtype, PhysicalType::Union) {
        return false;
    }
    UnionArray::get_fields(dtype).len() == fields && UnionArray::is_sparse(dtype) == is_sparse
}

/// Whether a sparse union of four slots reads its children from the third slot on in its slice, and
/// so in the halves.
fn keeps_its_shift(alloc: Global, array: &UnionArray) -> Mem<bool> {
    let Some((front, rest)) = halves(alloc, array, 2)? else {
        return Ok(false);
    };
    let is_split = reads(&front, &[(0, 0), (1, 1)]) && reads(&rest, &[(0, 2), (0, 3)]);
    drop(front);
    drop(rest);
    Ok(is_split)
}

/// Whether a slice of a slice adds the shifts.
fn adds_shifts(alloc: Global, array: &mut UnionArray) -> Mem<bool> {
    if TypedArray::len(array) != 4 {
        return Ok(false);
    }
    array.slice(alloc, 1, 3)?;
    if TypedArray::len(array) != 3 {
        return Ok(false);
    }
    array.slice(alloc, 1, 1)?;
    Ok(reads(array, &[(0, 2)]))
}

/// A type number that is no id selects field 0.
#[test]
fn a_sparse_union_is_read_at_its_shift(rt: HostRuntime) -> Result<(), Fail> {
    let alloc = rt.alloc();
    let declared = identified(2, &[5, 7], true);
    let mut array = try_union(alloc, Some(declared), &[5, 7, 9, 127], &[4, 4], None)?;
    let is_read = reads(&array, &[(0, 0), (1, 1), (0, 2), (0, 3)]) && declares(&array, 2, true);
    let is_split = keeps_its_shift(alloc, &array);
    let is_cut = adds_shifts(alloc, &mut array);
    drop(array);
    assert!(rt; is_read && is_split? && is_cut?);
    Ok(())
}

/// Whether a copy is read so, and its array is a union again.
fn is_copied(alloc: Global, array: &UnionArray, wanted: &[(usize, usize)]) -> Mem<bool> {
    let (first, second) = twice(alloc, array)?;
    let is_right = reads(&first, wanted);
    drop(first);
    let found = UnionArray::from_array(second.boxed());
    Ok(is_right && found.is_ok())
}

/// Of equal ids the last is selected.
#[test]
fn a_dense_union_is_read_at_its_offsets(rt: HostRuntime) -> Result<(), Fail> {
    let alloc = rt.alloc();
    let declared = identified(3, &[5, 7, 5], false);
    let array = try_union(
        alloc,
        Some(declared),
        &[5, 7, 5],
        &[0, 1, 3],
        Some(&[2, 0, 0]),
    )?;
    let wanted = [(2, 2), (1, 0), (2, 0)];
    let is_read = reads(&array, &wanted) && declares(&array, 3, false);
    let has_offsets = array.offsets().is_some() && array.fields().len() == 3;
    let is_copied = is_copied(alloc, &array, &wanted);
    drop(array);
    assert!(rt; is_read && has_offsets && is_copied?);
    Ok(())
}
