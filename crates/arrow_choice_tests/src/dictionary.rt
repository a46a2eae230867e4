//! Dictionaries made, refused, cut, masked and read.
use crate::dictionary_fixtures::{dictionary, dictionary_type, keys_of, two_values};
use arrow_bytes::Utf8Array;
use arrow_choice::{DictionaryArray, DictionaryKey};
use arrow_flat::PrimitiveArray;
use arrow_meaning::{MaskedArray, TypedArray};
use arrow_types::{ArrowDataType, IntegerType, Mem, PolarsError, PolarsResult, Reason};
use arrow_views::Utf8ViewArray;
use flat_fixtures::{ends_as, gives, halves, twice};
use std::alloc::Global;
use std::test::Fail;

/// The outcome for these keys of a type over two texts; the dictionary's type declares keys of
/// `declared`, or is no dictionary's, and strings with large offsets where `is_large`.
fn made(
    alloc: Global,
    declared: Option<IntegerType>,
    is_large: bool,
    keys: PrimitiveArray<i32>,
) -> Result<PolarsResult<DictionaryArray<i32>>, Fail> {
    let values = two_values(alloc)?;
    let texts = if is_large {
        ArrowDataType::LargeUtf8
    } else {
        ArrowDataType::Utf8
    };
    let dtype = match declared {
        Some(key) => dictionary_type(alloc, key, texts)?,
        None => texts,
    };
    Ok(DictionaryArray::try_new(alloc, dtype, keys, values))
}

/// Whether the parts end as wanted; the keys are dates where `is_date`.
fn is_made(
    alloc: Global,
    declared: Option<IntegerType>,
    is_large: bool,
    is_date: bool,
    keys: &[i32],
    bits: Option<&[bool]>,
    wanted: Option<Reason>,
) -> Result<bool, Fail> {
    let dtype = if is_date {
        ArrowDataType::Date32
    } else {
        ArrowDataType::Int32
    };
    let keys = keys_of(alloc, dtype, keys, bits)?;
    let outcome = made(alloc, declared, is_large, keys)?;
    Ok(ends_as(outcome, wanted))
}

const INT32: Option<IntegerType> = Some(IntegerType::Int32);

const INT16: Option<IntegerType> = Some(IntegerType::Int16);

const SECOND_NULL: Option<&[bool]> = Some(&[true, false]);

const BOTH_NULL: Option<&[bool]> = Some(&[false, false]);

/// The declared keys, whether the declared values are large, whether the keys are dates, the keys,
/// their mask, and the refusal.
const CASES: [(
    Option<IntegerType>,
    bool,
    bool,
    &[i32],
    Option<&[bool]>,
    Option<Reason>,
); 12] = [
    (INT32, false, false, &[1, 0], None, None),
    (INT32, false, false, &[], None, None),
    (INT32, false, false, &[1, 0], SECOND_NULL, None),
    (INT32, false, false, &[2, -1], BOTH_NULL, None),
    (INT32, false, false, &[1, 2], None, Some(Reason::KeyRange)),
    (INT32, false, false, &[-1, 1], None, Some(Reason::KeyRange)),
    (
        INT32,
        false,
        false,
        &[1, 2],
        SECOND_NULL,
        Some(Reason::KeyRange),
    ),
    (INT32, true, false, &[1, 2], None, Some(Reason::ValueType)),
    (INT32, true, true, &[1, 2], None, Some(Reason::KeyType)),
    (INT16, true, false, &[1, 2], None, Some(Reason::KeyType)),
    (INT16, false, false, &[1, 0], None, Some(Reason::KeyType)),
    (
        None,
        true,
        true,
        &[1, 2],
        None,
        Some(Reason::WrongLogicalType),
    ),
];

#[test]
fn the_first_failing_test_is_named(rt: HostRuntime) -> Result<(), Fail> {
    let alloc = rt.alloc();
    for (declared, is_large, is_date, keys, bits, wanted) in CASES {
        let is_right = is_made(alloc, declared, is_large, is_date, keys, bits, wanted);
        assert!(rt; is_right?);
    }
    Ok(())
}

/// Whether the array refuses to lose its mask, and has it still.
fn keeps_its_mask(alloc: Global, array: &mut DictionaryArray<i32>) -> bool {
    let set = array.set_validity(alloc, None);
    let taken = array.take_validity(alloc);
    let is_refused = matches!(set, Err(PolarsError::InvalidOperation(Reason::KeyRange)))
        && matches!(taken, Err(PolarsError::InvalidOperation(Reason::KeyRange)));
    drop(set);
    drop(taken);
    is_refused && array.null_count() == 1
}

#[test]
fn a_key_under_a_null_stays_there(rt: HostRuntime) -> Result<(), Fail> {
    let alloc = rt.alloc();
    let mut array = dictionary(alloc, &[9], Some(&[false]))?;
    let is_right = keeps_its_mask(alloc, &mut array);
    drop(array);
    assert!(rt; is_right);
    Ok(())
}

/// Whether the mask is given back, and gone.
fn gives_its_mask(alloc: Global, array: &mut DictionaryArray<i32>) -> PolarsResult<bool> {
    let taken = array.take_validity(alloc)?;
    let is_right = taken.is_some() && !array.has_nulls() && array.keys_in_range();
    drop(taken);
    Ok(is_right)
}

#[test]
fn a_mask_is_taken(rt: HostRuntime) -> Result<(), Fail> {
    let alloc = rt.alloc();
    let mut array = dictionary(alloc, &[1, 0], SECOND_NULL)?;
    let is_right = gives_its_mask(alloc, &mut array);
    drop(array);
    assert!(rt; is_right?);
    Ok(())
}

/// Whether an array splits at its end into all its slots and none.
fn splits_at_its_end(alloc: Global, array: &DictionaryArray<i32>) -> Mem<bool> {
    let Some((front, rest)) = halves(alloc, array, array.len())? else {
        return Ok(false);
    };
    let is_right = front.len() == 2 && rest.is_empty();
    drop(front);
    drop(rest);
    Ok(is_right)
}

#[test]
fn an_array_splits_at_its_end(rt: HostRuntime) -> Result<(), Fail> {
    let alloc = rt.alloc();
    let array = dictionary(alloc, &[1, 0], None)?;
    let is_right = splits_at_its_end(alloc, &array);
    drop(array);
    assert!(rt; is_right?);
    Ok(())
}

/// Whether the strings are these, and those of another kind are refused.
fn has_texts(array: &DictionaryArray<i32>, texts: &[Option<&str>]) -> bool {
    if array.values().null_count() != 0 {
        return false;
    }
    let is_refused = matches!(
        array.iter_typed::<Utf8ViewArray>(),
        Err(PolarsError::InvalidOperation(Reason::ValuesKind))
    );
    match array.iter_typed::<Utf8Array<i32>>() {
        Ok(slots) => is_refused && gives(slots, texts),
        Err(_) => false,
    }
}

/// Whether the keys name these positions, in order and from the back.
fn has_positions(array: &DictionaryArray<i32>, positions: &[Option<usize>]) -> bool {
    gives(array.keys_iter(), positions)
        && array.keys_iter().rev().eq(positions.iter().copied().rev())
        && array.keys_iter().len() == positions.len()
}

#[test]
fn nulls_are_read_over_any_key(rt: HostRuntime) -> Result<(), Fail> {
    let alloc = rt.alloc();
    let whole = dictionary(alloc, &[9, 9], BOTH_NULL)?;
    let is_right = has_positions(&whole, &[None, None])
        && has_texts(&whole, &[None, None])
        && !whole.keys_in_range();
    drop(whole);
    assert!(rt; is_right);
    Ok(())
}

/// Whether the strings without nulls are these.
fn has_values(array: &DictionaryArray<i32>, texts: &[&str]) -> bool {
    if array.has_nulls() || array.values().has_nulls() {
        return false;
    }
    match array.values_iter_typed::<Utf8Array<i32>>() {
        Ok(values) => gives(values, texts),
        Err(_) => false,
    }
}

/// Whether the keys without nulls name these positions.
fn has_all_positions(array: &DictionaryArray<i32>, positions: &[usize]) -> bool {
    array.keys_in_range() && gives(array.keys_values_iter(), positions)
}

#[test]
fn values_are_read(rt: HostRuntime) -> Result<(), Fail> {
    let alloc = rt.alloc();
    let array = dictionary(alloc, &[1, 0, 1], None)?;
    let is_right = has_positions(&array, &[Some(1), Some(0), Some(1)])
        && has_all_positions(&array, &[1, 0, 1])
        && has_texts(&array, &[Some("bc"), Some("a"), Some("bc")])
        && has_values(&array, &["bc", "a", "bc"])
        && !array.is_ordered();
    drop(array);
    assert!(rt; is_right);
    Ok(())
}

/// Whether two copies, the second cut to its last two slots, have these positions.
fn is_copied_and_cut(alloc: Global, array: &DictionaryArray<i32>) -> Mem<bool> {
    let (copy, mut part) = twice(alloc, array)?;
    let is_whole = has_positions(&copy, &[Some(1), None, Some(0)]);
    drop(copy);
    if part.len() != 3 {
        drop(part);
        return Ok(false);
    }
    let cut = part.slice(alloc, 1, 2);
    let is_cut = has_positions(&part, &[None, Some(0)]);
    drop(part);
    cut?;
    Ok(is_whole && is_cut)
}

#[test]
fn an_array_is_copied_and_cut(rt: HostRuntime) -> Result<(), Fail> {
    let alloc = rt.alloc();
    let array = dictionary(alloc, &[1, 0, 0], Some(&[true, false, true]))?;
    let is_right = is_copied_and_cut(alloc, &array);
    drop(array);
    assert!(rt; is_right?);
    Ok(())
}

/// Whether the parts are given back: an unordered type, two keys and two values.
fn gives_its_parts(alloc: Global, array: DictionaryArray<i32>) -> Mem<bool> {
    let (dtype, keys, values) = array.take(alloc)?;
    let is_right = matches!(
        dtype,
        ArrowDataType::Dictionary(IntegerType::Int32, _, false)
    ) && keys.len() == 2
        && values.len() == 2;
    drop(dtype);
    drop(keys);
    drop(values);
    Ok(is_right)
}

/// Whether an array of any layout is a dictionary with keys of 32 bits, and none of 16 bits.
fn is_of_its_keys(alloc: Global, array: &DictionaryArray<i32>) -> Mem<bool> {
    let same = DictionaryArray::<i32>::of(alloc, array.as_ref_array())?;
    let other = DictionaryArray::<i16>::of(alloc, array.as_ref_array())?;
    let is_right = same.is_some() && other.is_none();
    drop(same);
    drop(other);
    Ok(is_right)
}

#[test]
fn the_parts_are_given_back(rt: HostRuntime) -> Result<(), Fail> {
    let alloc = rt.alloc();
    let array = dictionary(alloc, &[1, 0], None)?;
    let is_of_them = is_of_its_keys(alloc, &array);
    let is_right = gives_its_parts(alloc, array);
    assert!(rt; is_of_them? && is_right?);
    Ok(())
}

/// Whether the greatest key gives its position back, and none follows it but past every `usize`.
fn has_its_greatest_key<K: DictionaryKey>() -> bool {
    let greatest = K::MAX_USIZE_VALUE;
    let is_back = match K::from_usize(greatest) {
        Some(key) => key.to_usize() == Some(greatest),
        None => false,
    };
    is_back && (greatest == usize::MAX || K::from_usize(greatest + 1).is_none())
}

#[test]
fn keys_are_positions(rt: HostRuntime) {
    assert!(rt;
        has_its_greatest_key::<i8>()
            && has_its_greatest_key::<u16>()
            && has_its_greatest_key::<i64>()
            && has_its_greatest_key::<u64>()
            && has_its_greatest_key::<i128>()
            && (-1i8).to_usize().is_none()
            && a_wide_key_is_past()
    );
}

/// Whether a key of 128 bits past every `usize` is no position.
fn a_wide_key_is_past() -> bool {
    (1i128 << 64).to_usize().is_none() && !i128::always_fits_usize() && u64::always_fits_usize()
}
