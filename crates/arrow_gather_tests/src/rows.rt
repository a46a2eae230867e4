//! Worked rows: an array, and the canonical array of its slots.
use crate::fixtures::{
    booleans, dictionaries, fixed_size_lists, large_lists, numbers, structs, unions,
};
use arrow_gather::{is_canonical, normalized};
use arrow_meaning::{ArrayRef, TypedArray};
use arrow_nested::NullArray;
use arrow_scalar::same_layout;
use arrow_types::{ArrowDataType, Mem};
use std::alloc::Global;
use std::test::Fail;

/// The kinds of the rows.
#[derive(Clone, Copy)]
enum Row {
    /// Items that no list has, those of a null among them, go.
    Lists,
    /// Lists without items keep their count.
    EmptyLists,
    /// Under a null of lists of one size the items are nulls.
    FixedSizeLists,
    /// Under a null of structs the children's slots are nulls.
    Structs,
    /// A child's slots that aren't selected are nulls.
    SparseUnions,
    /// Offsets count the slots before that select the same field.
    DenseUnions,
    /// A type number that stands among no ids selects the first field.
    IdentifiedUnions,
    /// Equal values are one, and one that is null is none.
    Dictionaries,
    /// The same of values that are lists, one of them null.
    DictionariesOfLists,
    /// A value that several keys name, and a null that several name.
    RepeatedKeys,
    /// Fewer keys than values.
    FewKeys,
    /// More values than memory has bytes, all of them null.
    DictionariesOfNulls,
}

const ROWS: [Row; 12] = [
    Row::Lists,
    Row::EmptyLists,
    Row::FixedSizeLists,
    Row::Structs,
    Row::SparseUnions,
    Row::DenseUnions,
    Row::IdentifiedUnions,
    Row::Dictionaries,
    Row::DictionariesOfLists,
    Row::RepeatedKeys,
    Row::FewKeys,
    Row::DictionariesOfNulls,
];

/// The bits in which the second of three is unset.
const MIDDLE: [bool; 3] = [true, false, true];

fn list_row(alloc: Global, is_canonical: bool) -> Result<ArrayRef, Fail> {
    if is_canonical {
        let child = numbers(alloc, &[2, 4], None)?;
        return large_lists(alloc, &[0, 1, 1, 2], child, Some(&MIDDLE));
    }
    let child = numbers(alloc, &[1, 2, 3, 4], None)?;
    large_lists(alloc, &[1, 2, 3, 4], child, Some(&MIDDLE))
}

fn empty_row(alloc: Global) -> Result<ArrayRef, Fail> {
    let child = numbers(alloc, &[], None)?;
    fixed_size_lists(alloc, 0, 3, child, Some(&MIDDLE))
}

fn fixed_size_row(alloc: Global, is_canonical: bool) -> Result<ArrayRef, Fail> {
    let child = if is_canonical {
        numbers(alloc, &[1, 2, 0, 0], Some(&[true, true, false, false]))?
    } else {
        numbers(alloc, &[1, 2, 3, 4], None)?
    };
    fixed_size_lists(alloc, 2, 2, child, Some(&[true, false]))
}

fn struct_row(alloc: Global, is_canonical: bool) -> Result<ArrayRef, Fail> {
    let child = if is_canonical {
        numbers(alloc, &[7, 0], Some(&[true, false]))?
    } else {
        numbers(alloc, &[7, 8], None)?
    };
    structs(alloc, child, Some(&[true, false]))
}

fn sparse_row(alloc: Global, is_canonical: bool) -> Result<ArrayRef, Fail> {
    if is_canonical {
        let numbers = numbers(alloc, &[0, 8], Some(&[false, true]))?;
        let booleans = booleans(alloc, &[true, false], Some(&[true, false]))?;
        return unions(alloc, None, &[1, 0], None, numbers, booleans);
    }
    let numbers = numbers(alloc, &[9, 8], None)?;
    let booleans = booleans(alloc, &[true, false], None)?;
    unions(alloc, None, &[1, 0], None, numbers, booleans)
}

fn dense_row(alloc: Global, is_canonical: bool) -> Result<ArrayRef, Fail> {
    let (values, offsets) = if is_canonical {
        ([6, 6], [0, 0, 1])
    } else {
        ([5, 6], [1, 0, 1])
    };
    let numbers = numbers(alloc, &values, None)?;
    let booleans = booleans(alloc, &[true], None)?;
    unions(alloc, None, &[0, 1, 0], Some(&offsets), numbers, booleans)
}

fn identified_row(alloc: Global) -> Result<ArrayRef, Fail> {
    let numbers = numbers(alloc, &[1, 2], None)?;
    let booleans = booleans(alloc, &[], None)?;
    unions(
        alloc,
        Some(&[5, 7]),
        &[5, 9],
        Some(&[0, 1]),
        numbers,
        booleans,
    )
}

fn dictionary_row(alloc: Global, is_canonical: bool) -> Result<ArrayRef, Fail> {
    if is_canonical {
        let values = numbers(alloc, &[4], None)?;
        return dictionaries(alloc, &[0, 0, 0], Some(&MIDDLE), values);
    }
    let values = numbers(alloc, &[4, 0, 4], Some(&MIDDLE))?;
    dictionaries(alloc, &[0, 1, 2], None, values)
}

fn list_dictionary_row(alloc: Global, is_canonical: bool) -> Result<ArrayRef, Fail> {
    if is_canonical {
        let child = numbers(alloc, &[1, 2], None)?;
        let values = large_lists(alloc, &[0, 1, 2], child, None)?;
        return dictionaries(
            alloc,
            &[0, 0, 1, 0],
            Some(&[true, true, true, false]),
            values,
        );
    }
    let child = numbers(alloc, &[1, 2, 1], None)?;
    let bits = [true, true, false, true];
    let values = large_lists(alloc, &[0, 1, 2, 2, 3], child, Some(&bits))?;
    dictionaries(alloc, &[3, 0, 1, 2], None, values)
}

fn repeated_row(alloc: Global, is_canonical: bool) -> Result<ArrayRef, Fail> {
    if is_canonical {
        let values = numbers(alloc, &[5, 4], None)?;
        let bits = [false, true, true, true, false, true];
        return dictionaries(alloc, &[0, 0, 1, 0, 0, 0], Some(&bits), values);
    }
    let bits = [true, true, true, false];
    let values = numbers(alloc, &[4, 5, 5, 6], Some(&bits))?;
    dictionaries(alloc, &[3, 2, 0, 2, 3, 1], None, values)
}

fn few_keys_row(alloc: Global, is_canonical: bool) -> Result<ArrayRef, Fail> {
    if is_canonical {
        let values = numbers(alloc, &[9, 8], None)?;
        return dictionaries(alloc, &[0, 1, 0, 1], None, values);
    }
    let values = numbers(alloc, &[7, 8, 7, 9, 8, 9], None)?;
    dictionaries(alloc, &[5, 1, 3, 1], None, values)
}

fn null_values_row(alloc: Global, is_canonical: bool) -> Result<ArrayRef, Fail> {
    let count = if is_canonical { 0 } else { i64::MAX as usize };
    let values = NullArray::try_new(alloc, ArrowDataType::Null, count)?.boxed();
    if is_canonical {
        return dictionaries(alloc, &[0, 0, 0], Some(&[false, false, false]), values);
    }
    dictionaries(alloc, &[2, i32::MAX, 2], None, values)
}

/// The array of a row, or the canonical array of its slots.
fn array_of(alloc: Global, row: Row, is_canonical: bool) -> Result<ArrayRef, Fail> {
    match row {
        Row::Lists => list_row(alloc, is_canonical),
        Row::EmptyLists => empty_row(alloc),
        Row::FixedSizeLists => fixed_size_row(alloc, is_canonical),
        Row::Structs => struct_row(alloc, is_canonical),
        Row::SparseUnions => sparse_row(alloc, is_canonical),
        Row::DenseUnions => dense_row(alloc, is_canonical),
        Row::IdentifiedUnions => identified_row(alloc),
        Row::Dictionaries => dictionary_row(alloc, is_canonical),
        Row::DictionariesOfLists => list_dictionary_row(alloc, is_canonical),
        Row::RepeatedKeys => repeated_row(alloc, is_canonical),
        Row::FewKeys => few_keys_row(alloc, is_canonical),
        Row::DictionariesOfNulls => null_values_row(alloc, is_canonical),
    }
}

/// Whether the canonical array of an array's slots is the one that is wanted.
fn comes_out(alloc: Global, array: ArrayRef, wanted: &ArrayRef) -> Result<bool, Fail> {
    let canonical = normalized(alloc, &array);
    drop(array);
    let canonical = canonical?;
    let is_right = same_layout(&canonical, wanted);
    drop(canonical);
    Ok(is_right)
}

/// Whether an array is said to be canonical exactly where it is the canonical array.
fn is_told(alloc: Global, array: &ArrayRef, wanted: &ArrayRef) -> Mem<bool> {
    Ok(is_canonical(alloc, array)? == same_layout(array, wanted))
}

/// Whether a row comes out, and its canonical array as itself, which alone is canonical.
fn row_holds(alloc: Global, row: Row) -> Result<bool, Fail> {
    let wanted = array_of(alloc, row, true)?;
    for has_form in [false, true] {
        let array = array_of(alloc, row, has_form)?;
        if !is_told(alloc, &array, &wanted)? || !comes_out(alloc, array, &wanted)? {
            return Ok(false);
        }
    }
    Ok(true)
}

#[test]
fn rows_come_out(rt: HostRuntime) -> Result<(), Fail> {
    let alloc = rt.alloc();
    for row in ROWS {
        let holds = row_holds(alloc, row)?;
        assert!(rt; holds);
    }
    Ok(())
}
