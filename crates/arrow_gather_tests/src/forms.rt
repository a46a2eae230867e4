//! Arrays that aren't canonical, each for one reason, and what they are without it.
use crate::fixtures::{booleans, dictionaries, large_lists, numbers, structs, unions};
use arrow_buffers::Buffer;
use arrow_gather::is_canonical;
use arrow_meaning::{ArrayRef, FlatArray};
use arrow_types::ArrowDataType;
use arrow_views::{BinaryViewArray, View};
use flat_fixtures::buffer_of;
use std::alloc::Global;
use std::test::Fail;

/// What an array has that no canonical array has.
#[derive(Clone, Copy)]
enum Flaw {
    /// A mask without an unset bit.
    MaskNotNeeded,
    /// A number under a null that isn't 0.
    ValueUnderNull,
    /// Offsets that don't begin at 0.
    FirstOffset,
    /// Items after the last list.
    ItemsLeft,
    /// A list with an item under a null.
    ListUnderNull,
    /// A slot under a null of structs that isn't null.
    PartUnderNull,
    /// A child's slot that isn't selected and isn't null.
    NotSelected,
    /// Offsets of a dense union that don't count.
    OffsetsTurned,
    /// A slot of a child that no slot of a dense union names.
    NotNamed,
    /// A byte before the value of a view.
    Gap,
    /// A value that no key names.
    UnusedValue,
    /// A value twice.
    RepeatedValue,
    /// A value that is null.
    NullValue,
    /// Values that aren't in the order of first use.
    ValuesTurned,
}

const FLAWS: [Flaw; 14] = [
    Flaw::MaskNotNeeded,
    Flaw::ValueUnderNull,
    Flaw::FirstOffset,
    Flaw::ItemsLeft,
    Flaw::ListUnderNull,
    Flaw::PartUnderNull,
    Flaw::NotSelected,
    Flaw::OffsetsTurned,
    Flaw::NotNamed,
    Flaw::Gap,
    Flaw::UnusedValue,
    Flaw::RepeatedValue,
    Flaw::NullValue,
    Flaw::ValuesTurned,
];

/// Three numbers of which the second is under an unset bit, or under no mask bit at all.
fn masked(alloc: Global, second: i32, bits: &[bool]) -> Result<ArrayRef, Fail> {
    numbers(alloc, &[1, second, 3], Some(bits))
}

/// Lists between these offsets over four numbers, the second of them null.
fn lists(alloc: Global, offsets: &[i64], items: &[i32]) -> Result<ArrayRef, Fail> {
    let child = numbers(alloc, items, None)?;
    large_lists(alloc, offsets, child, Some(&[true, false, true]))
}

/// Two structs, the second of them null, over numbers.
fn two_structs(alloc: Global, second: i32, bits: Option<&[bool]>) -> Result<ArrayRef, Fail> {
    let child = numbers(alloc, &[7, second], bits)?;
    structs(alloc, child, Some(&[true, false]))
}

/// A sparse union that selects a bit and then a number.
fn sparse(alloc: Global, first: i32, bits: Option<&[bool]>) -> Result<ArrayRef, Fail> {
    let numbers = numbers(alloc, &[first, 8], bits)?;
    let booleans = booleans(alloc, &[true, false], Some(&[true, false]))?;
    unions(alloc, None, &[1, 0], None, numbers, booleans)
}

/// A dense union that selects numbers twice and a bit once.
fn dense(alloc: Global, offsets: &[i32], bits: &[bool]) -> Result<ArrayRef, Fail> {
    let numbers = numbers(alloc, &[5, 6], None)?;
    let booleans = booleans(alloc, bits, None)?;
    unions(alloc, None, &[0, 1, 0], Some(offsets), numbers, booleans)
}

/// One value of thirteen bytes, which begins at an offset.
fn view(alloc: Global, offset: u32, bytes: &[u8]) -> Result<ArrayRef, Fail> {
    let buffers = vec![in alloc; buffer_of(alloc, bytes)?]?;
    let views = vec![in alloc; View::new_long(13, [7; 4], 0, offset)]?;
    let views = Buffer::from_vec(alloc, views)?;
    let array = BinaryViewArray::try_new(ArrowDataType::BinaryView, views, buffers, None)?;
    Ok(array.boxed(alloc)?)
}

/// A dictionary of these keys over values.
fn dictionary(
    alloc: Global,
    keys: &[i32],
    values: &[i32],
    bits: Option<&[bool]>,
) -> Result<ArrayRef, Fail> {
    let values = numbers(alloc, values, bits)?;
    dictionaries(alloc, keys, None, values)
}

/// The array with the flaw.
fn flawed(alloc: Global, flaw: Flaw) -> Result<ArrayRef, Fail> {
    match flaw {
        Flaw::MaskNotNeeded => masked(alloc, 2, &[true, true, true]),
        Flaw::ValueUnderNull => masked(alloc, 2, &[true, false, true]),
        Flaw::FirstOffset => lists(alloc, &[1, 2, 2, 3], &[1, 2, 3]),
        Flaw::ItemsLeft => lists(alloc, &[0, 1, 1, 2], &[1, 2, 3]),
        Flaw::ListUnderNull => lists(alloc, &[0, 1, 2, 3], &[1, 2, 3]),
        Flaw::PartUnderNull => two_structs(alloc, 0, None),
        Flaw::NotSelected => sparse(alloc, 0, None),
        Flaw::OffsetsTurned => dense(alloc, &[1, 0, 0], &[true]),
        Flaw::NotNamed => dense(alloc, &[0, 0, 1], &[true, false]),
        Flaw::Gap => view(alloc, 1, &[7; 14]),
        Flaw::UnusedValue => dictionary(alloc, &[0, 0], &[4, 5], None),
        Flaw::RepeatedValue => dictionary(alloc, &[0, 1], &[4, 4], None),
        Flaw::NullValue => dictionary(alloc, &[0, 1], &[4, 0], Some(&[true, false])),
        Flaw::ValuesTurned => dictionary(alloc, &[1, 0], &[4, 5], None),
    }
}

/// The array without the flaw.
fn flawless(alloc: Global, flaw: Flaw) -> Result<ArrayRef, Fail> {
    match flaw {
        Flaw::MaskNotNeeded => numbers(alloc, &[1, 2, 3], None),
        Flaw::ValueUnderNull => masked(alloc, 0, &[true, false, true]),
        Flaw::FirstOffset => lists(alloc, &[0, 2, 2, 3], &[1, 2, 3]),
        Flaw::ItemsLeft => lists(alloc, &[0, 1, 1, 3], &[1, 2, 3]),
        Flaw::ListUnderNull => lists(alloc, &[0, 2, 2, 3], &[1, 2, 3]),
        Flaw::PartUnderNull => two_structs(alloc, 0, Some(&[true, false])),
        Flaw::NotSelected => sparse(alloc, 0, Some(&[false, true])),
        Flaw::OffsetsTurned => dense(alloc, &[0, 0, 1], &[true]),
        Flaw::NotNamed => dense(alloc, &[0, 0, 1], &[false]),
        Flaw::Gap => view(alloc, 0, &[7; 13]),
        Flaw::UnusedValue => dictionary(alloc, &[0, 1, 0], &[4, 5], None),
        Flaw::RepeatedValue => dictionary(alloc, &[0, 0], &[4], None),
        Flaw::NullValue => dictionary(alloc, &[0, 1], &[4, 0], None),
        Flaw::ValuesTurned => dictionary(alloc, &[0, 1], &[5, 4], None),
    }
}

/// Whether an array is canonical.
fn is_one(alloc: Global, array: ArrayRef) -> Result<bool, Fail> {
    let is_one = is_canonical(alloc, &array);
    drop(array);
    Ok(is_one?)
}

#[test]
fn one_flaw_is_enough(rt: HostRuntime) -> Result<(), Fail> {
    let alloc = rt.alloc();
    for flaw in FLAWS {
        let is_right = !is_one(alloc, flawed(alloc, flaw)?)?
            && is_one(alloc, flawless(alloc, flaw)?)?;
        assert!(rt; is_right);
    }
    Ok(())
}
