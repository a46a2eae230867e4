//! What no clause says: that each call succeeds with ample memory.
use crate::fixtures::{
    array_of_numbers, buffer_of, is_plain, masked, null_in_the_middle, offsets_from_two,
    three_texts,
};
use arrow_buffers::{Bitmap, Buffer, Offset, OffsetsBuffer};
use arrow_bytes::{BinaryArray, FixedSizeBinaryArray, OffsetArray, Utf8Array};
use arrow_canon::{
    Run, canonical_binary, canonical_boolean, canonical_fixed_size_binary, canonical_primitive,
};
use arrow_flat::{BooleanArray, DaysMs, NativeType, PrimitiveArray, ViewType};
use arrow_gather::normalized;
use arrow_meaning::{ArrayRef, Node};
use arrow_types::{ArrowDataType, GrowError, IntervalUnit};
use std::alloc::Global;
use std::test::Fail;

/// The canonical array of an array that is dropped.
fn canonical_numbers<T: NativeType>(
    alloc: Global,
    array: PrimitiveArray<T>,
) -> Result<PrimitiveArray<T>, Fail> {
    let length = array.len();
    let runs = [Run::Slots { start: 0, length }];
    let canonical = canonical_primitive(alloc, &array, array.dtype(), &runs);
    drop(array);
    Ok(canonical?)
}

/// The numbers 1, null over 7, and 3.
fn three_numbers(alloc: Global) -> Result<PrimitiveArray<u8>, Fail> {
    let (values, validity) = masked(alloc, &[1u8, 7, 3])?;
    Ok(PrimitiveArray::try_new(ArrowDataType::UInt8, values, Some(validity))?)
}

/// Whether these are 1, 0 under a null, and 3.
fn are_zeros_under_the_null(numbers: &PrimitiveArray<u8>) -> bool {
    numbers.values().as_slice() == [1, 0, 3].as_slice()
        && is_plain(numbers.validity(), &[true, false, true])
}

#[test]
fn numbers_are_zeros_under_nulls(rt: HostRuntime) -> Result<(), Fail> {
    let alloc = rt.alloc();
    let numbers = three_numbers(alloc)?;
    let numbers = canonical_numbers(alloc, numbers)?;
    let is_right = are_zeros_under_the_null(&numbers);
    drop(numbers);
    assert!(rt; is_right);
    Ok(())
}

/// The last two of three slots, a filling, and the first slot.
fn picked_numbers(alloc: Global, array: PrimitiveArray<u8>) -> Result<PrimitiveArray<u8>, Fail> {
    let runs = [
        Run::Slots {
            start: 1,
            length: 2,
        },
        Run::Fill { count: 1 },
        Run::Slots {
            start: 0,
            length: 1,
        },
    ];
    let canonical = if array.len() == 3 {
        canonical_primitive(alloc, &array, array.dtype(), &runs)
    } else {
        Err(GrowError::Overflow)
    };
    drop(array);
    Ok(canonical?)
}

/// Whether these are a null, 3, a null, and 1.
fn are_picked(numbers: &PrimitiveArray<u8>) -> bool {
    numbers.values().as_slice() == [0, 3, 0, 1].as_slice()
        && is_plain(numbers.validity(), &[false, true, false, true])
}

#[test]
fn runs_pick_slots_and_fillings(rt: HostRuntime) -> Result<(), Fail> {
    let alloc = rt.alloc();
    let numbers = three_numbers(alloc)?;
    let numbers = picked_numbers(alloc, numbers)?;
    let is_right = are_picked(&numbers);
    drop(numbers);
    assert!(rt; is_right);
    Ok(())
}

/// Two values of days and milliseconds under a mask without nulls.
fn spans(alloc: Global) -> Result<PrimitiveArray<DaysMs>, Fail> {
    let values = buffer_of(alloc, &[DaysMs(1, 2), DaysMs(3, 4)])?;
    let validity = Bitmap::new_with_value(alloc, true, 2)?;
    let dtype = ArrowDataType::Interval(IntervalUnit::DayTime);
    Ok(PrimitiveArray::try_new(dtype, values, Some(validity))?)
}

#[test]
fn a_mask_without_nulls_is_dropped(rt: HostRuntime) -> Result<(), Fail> {
    let alloc = rt.alloc();
    let spans = spans(alloc)?;
    let spans = canonical_numbers(alloc, spans)?;
    let is_right = spans.validity().is_none();
    drop(spans);
    assert!(rt; is_right);
    Ok(())
}

fn canonical_bits(alloc: Global, validity: Option<Bitmap>) -> Result<BooleanArray, Fail> {
    let values = Bitmap::from_bools(alloc, &[false, true, true])?;
    let array = BooleanArray::try_new(ArrowDataType::Boolean, values, validity)?;
    let length = array.len();
    let runs = [Run::Slots { start: 0, length }];
    let canonical = canonical_boolean(alloc, &array, array.dtype(), &runs);
    drop(array);
    Ok(canonical?)
}

/// Whether the middle bit is unset under a null.
fn is_unset_under_the_null(bits: &BooleanArray) -> bool {
    is_plain(Some(bits.values()), &[false, false, true])
        && is_plain(bits.validity(), &[true, false, true])
}

#[test]
fn bits_are_unset_under_nulls(rt: HostRuntime) -> Result<(), Fail> {
    let alloc = rt.alloc();
    let mask = null_in_the_middle(alloc)?;
    let bits = canonical_bits(alloc, Some(mask))?;
    let is_right = is_unset_under_the_null(&bits);
    drop(bits);
    assert!(rt; is_right);
    Ok(())
}

#[test]
fn bits_without_a_mask_stay(rt: HostRuntime) -> Result<(), Fail> {
    let alloc = rt.alloc();
    let bits = canonical_bits(alloc, None)?;
    let is_right = is_plain(Some(bits.values()), &[false, true, true]);
    drop(bits);
    assert!(rt; is_right);
    Ok(())
}

/// Two bytes each: 1 2, null over 3 4, and 5 6.
fn pairs(alloc: Global) -> Result<FixedSizeBinaryArray, Fail> {
    let (values, validity) = masked(alloc, &[1u8, 2, 3, 4, 5, 6])?;
    let dtype = ArrowDataType::FixedSizeBinary(2);
    Ok(FixedSizeBinaryArray::try_new(dtype, values, Some(validity))?)
}

/// Whether these are 1 2, 0 0 under a null, and 5 6.
fn are_pairs_of_zeros_under_the_null(pairs: &FixedSizeBinaryArray) -> bool {
    pairs.values().as_slice() == [1, 2, 0, 0, 5, 6].as_slice()
        && is_plain(pairs.validity(), &[true, false, true])
}

/// The canonical array of all slots.
fn canonical_pairs(
    alloc: Global,
    pairs: &FixedSizeBinaryArray,
) -> Result<FixedSizeBinaryArray, GrowError> {
    let length = pairs.len();
    let runs = [Run::Slots { start: 0, length }];
    canonical_fixed_size_binary(alloc, pairs, pairs.dtype(), &runs)
}

#[test]
fn bytes_of_one_size_are_zeros_under_nulls(rt: HostRuntime) -> Result<(), Fail> {
    let alloc = rt.alloc();
    let pairs = pairs(alloc)?;
    let canonical = canonical_pairs(alloc, &pairs);
    drop(pairs);
    let canonical = canonical?;
    let is_right = are_pairs_of_zeros_under_the_null(&canonical);
    drop(canonical);
    assert!(rt; is_right);
    Ok(())
}

/// Whether the slots are of one, no and one bytes, from 0 on.
fn are_from_zero<O: Offset>(offsets: &OffsetsBuffer<O>) -> bool {
    offsets.len_proxy() == 3
        && offsets.start_end(0) == (0, 1)
        && offsets.start_end(1) == (1, 1)
        && offsets.start_end(2) == (1, 2)
}

/// Whether the slots have these bytes, from 0 on, and the middle one is null.
fn are_moved_up<O: Offset>(
    offsets: &OffsetsBuffer<O>,
    values: &Buffer<u8>,
    validity: Option<&Bitmap>,
    wanted: &[u8],
) -> bool {
    values.as_slice() == wanted
        && are_from_zero(offsets)
        && is_plain(validity, &[true, false, true])
}

/// The byte strings of 1, null over 2 3, and 4, with bytes before and after them.
fn three_strings<O: Offset>(alloc: Global) -> Result<BinaryArray<O>, Fail> {
    let offsets = offsets_from_two::<O>(alloc)?;
    let (values, validity) = masked(alloc, &[9u8, 9, 1, 2, 3, 4, 9])?;
    let dtype = if O::IS_LARGE {
        ArrowDataType::LargeBinary
    } else {
        ArrowDataType::Binary
    };
    Ok(BinaryArray::try_new(dtype, offsets, values, Some(validity))?)
}

/// Whether the byte strings are those of 1 and 4, from 0 on, and a null between them.
fn are_moved_strings<O: Offset>(strings: &BinaryArray<O>) -> bool {
    are_moved_up(
        strings.offsets(),
        strings.values(),
        strings.validity(),
        &[1, 4],
    )
}

/// Whether the texts are `a` and `d`, from 0 on, and a null between them.
fn are_moved_texts<O: Offset>(texts: &Utf8Array<O>) -> bool {
    are_moved_up(texts.offsets(), texts.values(), texts.validity(), b"ad")
}

/// The canonical array of all slots.
fn canonical_strings<K: ViewType, O: Offset>(
    alloc: Global,
    array: &OffsetArray<K, O>,
) -> Result<OffsetArray<K, O>, GrowError> {
    let length = array.len();
    let runs = [Run::Slots { start: 0, length }];
    canonical_binary(alloc, array, array.dtype(), &runs)
}

fn strings_move_up<O: Offset>(alloc: Global) -> Result<bool, Fail> {
    let array = three_strings::<O>(alloc)?;
    let canonical = canonical_strings(alloc, &array);
    drop(array);
    let strings = canonical?;
    let is_right = are_moved_strings(&strings);
    drop(strings);
    Ok(is_right)
}

fn texts_move_up<O: Offset>(alloc: Global) -> Result<bool, Fail> {
    let array = three_texts::<O>(alloc)?;
    let canonical = canonical_strings(alloc, &array);
    drop(array);
    let texts = canonical?;
    let is_right = are_moved_texts(&texts);
    drop(texts);
    Ok(is_right)
}

#[test]
fn strings_and_texts_move_up(rt: HostRuntime) -> Result<(), Fail> {
    let alloc = rt.alloc();
    assert!(rt; strings_move_up::<i32>(alloc)? && strings_move_up::<i64>(alloc)?);
    assert!(rt; texts_move_up::<i32>(alloc)? && texts_move_up::<i64>(alloc)?);
    Ok(())
}

/// The canonical array of an array of values, which is dropped.
fn normal(alloc: Global, array: ArrayRef) -> Result<ArrayRef, Fail> {
    let canonical = normalized(alloc, &array);
    drop(array);
    Ok(canonical?)
}

/// Whether an array has the values 1, 0 and 3, and its middle slot is null.
fn are_normal_numbers(array: &ArrayRef) -> bool {
    match array.as_primitive::<i32>() {
        Some(numbers) => {
            *array.dtype() == ArrowDataType::Int32
                && numbers.values().as_slice() == [1, 0, 3].as_slice()
                && is_plain(numbers.validity(), &[true, false, true])
        }
        None => false,
    }
}

#[test]
fn an_array_of_numbers_is_normalized(rt: HostRuntime) -> Result<(), Fail> {
    let alloc = rt.alloc();
    let array = array_of_numbers(alloc)?;
    let array = normal(alloc, array)?;
    let is_right = are_normal_numbers(&array);
    drop(array);
    assert!(rt; is_right);
    Ok(())
}

/// The array of the texts `a`, null and `d`.
fn array_of_texts(alloc: Global) -> Result<ArrayRef, Fail> {
    let texts = three_texts::<i64>(alloc)?;
    Ok(ArrayRef::from_node(alloc, Node::LargeUtf8(texts))?)
}

/// Whether an array has the texts `a` and `d`, from 0 on, and a null between them.
fn are_normal_texts(array: &ArrayRef) -> bool {
    match array.as_utf8::<i64>() {
        Some(texts) => *array.dtype() == ArrowDataType::LargeUtf8 && are_moved_texts(texts),
        None => false,
    }
}

#[test]
fn an_array_of_texts_is_normalized(rt: HostRuntime) -> Result<(), Fail> {
    let alloc = rt.alloc();
    let array = array_of_texts(alloc)?;
    let array = normal(alloc, array)?;
    let is_right = are_normal_texts(&array);
    drop(array);
    assert!(rt; is_right);
    Ok(())
}
