//! What no clause says: that calls succeed with ample memory, which test of a constructor comes
//! first, and the generic calls through their bounds.

use crate::halves::{Counted, Counts, counts_of, has_halves};
use arrow_buffers::{Bitmap, Buffer, Offset, OffsetError, Offsets, OffsetsBuffer};
use arrow_bytes::{BinaryArray, FixedSizeBinaryArray, GenericBinaryArray, OffsetArray, Utf8Array};
use arrow_flat::{ViewBytes, ViewStr, ViewType};
use arrow_types::{ArrowDataType, Mem, PolarsResult, Reason};
use flat_fixtures::{ends_as, gives, parts_of};
use std::alloc::Global;
use std::test::Fail;

/// Appends a slot of one byte, and slots of these lengths.
fn push_slots<O: Offset>(offsets: &mut Offsets<O>, lengths: &[usize]) -> Result<(), OffsetError> {
    offsets.try_push(1)?;
    offsets.try_extend_from_lengths(lengths)
}

/// Offsets of slots of these lengths, from 1 on.
fn offsets_of<O: Offset>(
    alloc: Global,
    lengths: &[usize],
) -> Result<OffsetsBuffer<O>, OffsetError> {
    let mut offsets = Offsets::<O>::new(alloc)?;
    let pushed = push_slots(&mut offsets, lengths);
    let frozen = offsets.freeze();
    pushed?;
    let mut window = frozen?;
    let slots = window.len_proxy();
    if slots == 0 {
        return Err(OffsetError::Empty);
    }
    window.slice(1, slots - 1);
    Ok(window)
}

/// Offsets, a buffer and a mask.
type Parts<O> = (OffsetsBuffer<O>, Buffer<u8>, Option<Bitmap>);

/// The parts of three slots, of two, one and two bytes, with a byte before and one after them.
fn slots_of<O: Offset>(
    alloc: Global,
    bytes: &[u8],
    length: Option<usize>,
) -> Result<Parts<O>, OffsetError> {
    let offsets = offsets_of(alloc, &[2, 1, 2])?;
    let (values, mask) = parts_of(alloc, bytes, length)?;
    Ok((offsets, values, mask))
}

/// The type of strings or of binary values, with large offsets or with others.
fn type_of(is_text: bool, is_large: bool) -> ArrowDataType {
    if is_text {
        if is_large {
            ArrowDataType::LargeUtf8
        } else {
            ArrowDataType::Utf8
        }
    } else {
        if is_large {
            ArrowDataType::LargeBinary
        } else {
            ArrowDataType::Binary
        }
    }
}

/// The type of an array that fits; or one that doesn't, of small offsets or of the other kind.
fn type_for(is_text: bool, is_large: bool, is_fitting: bool) -> ArrowDataType {
    if is_fitting {
        type_of(is_text, is_large)
    } else {
        type_of(is_text == is_large, false)
    }
}

/// Strings or binary values of a type that fits or not.
fn array_of<K: ViewType, O: Offset>(
    alloc: Global,
    is_fitting: bool,
    bytes: &[u8],
    length: Option<usize>,
) -> Result<PolarsResult<OffsetArray<K, O>>, OffsetError> {
    let (offsets, values, mask) = slots_of(alloc, bytes, length)?;
    let dtype = type_for(K::IS_TEXT, O::IS_LARGE, is_fitting);
    Ok(OffsetArray::try_new(dtype, offsets, values, mask))
}

/// Whether there are parts, of which the outcome is this refusal, or an array where no refusal is
/// wanted.
fn parts_end_as<T: Drop>(
    made: Result<PolarsResult<T>, OffsetError>,
    wanted: Option<Reason>,
) -> bool {
    match made {
        Ok(outcome) => ends_as(outcome, wanted),
        Err(_) => false,
    }
}

/// Bytes, the length of a mask, whether the type fits, and the refusal.
type Case = (&'static [u8], Option<usize>, bool, Option<Reason>);

const WHOLE: &[u8] = &[255, 65, 66, 67, 68, 69, 255];

const REFUSALS: [Case; 7] = [
    (WHOLE, Some(3), true, None),
    (WHOLE, None, true, None),
    (&[255, 65, 66, 67, 68, 69], None, true, None),
    (
        &[255, 65, 66, 67, 68],
        Some(2),
        false,
        Some(Reason::OffsetPastValues),
    ),
    (WHOLE, Some(2), false, Some(Reason::MaskLength)),
    (WHOLE, Some(4), true, Some(Reason::MaskLength)),
    (WHOLE, Some(3), false, Some(Reason::WrongLogicalType)),
];

#[test]
fn offsets_are_tested_first_and_strings_last(rt: HostRuntime) {
    let alloc = rt.alloc();
    for (bytes, length, is_fitting, wanted) in REFUSALS {
        assert!(rt;
            parts_end_as(
                array_of::<ViewBytes, i32>(alloc, is_fitting, bytes, length),
                wanted
            )
        );
        assert!(rt;
            parts_end_as(
                array_of::<ViewStr, i64>(alloc, is_fitting, bytes, length),
                wanted
            )
        );
    }
}

const TORN: &[u8] = &[255, 65, 0xc3, 0xa9, 67, 68, 255];

const BROKEN: &[u8] = &[255, 65, 66, 255, 67, 68, 255];

const ACCENTS: &[u8] = &[255, 0xc3, 0xa9, 65, 0xc3, 0xa9, 255];

const STRINGS: [Case; 6] = [
    (ACCENTS, Some(3), true, None),
    (TORN, None, true, Some(Reason::NotUtf8)),
    (BROKEN, None, true, Some(Reason::NotUtf8)),
    (BROKEN, Some(3), true, Some(Reason::NotUtf8)),
    (BROKEN, Some(2), true, Some(Reason::MaskLength)),
    (BROKEN, Some(3), false, Some(Reason::WrongLogicalType)),
];

#[test]
fn each_slot_is_a_string(rt: HostRuntime) {
    let alloc = rt.alloc();
    for (bytes, length, is_fitting, wanted) in STRINGS {
        assert!(rt;
            parts_end_as(
                array_of::<ViewStr, i32>(alloc, is_fitting, bytes, length),
                wanted
            )
        );
    }
}

/// Values of this size, or of a type without a size.
fn fixed(
    alloc: Global,
    size: Option<usize>,
    bytes: &[u8],
    length: Option<usize>,
) -> PolarsResult<FixedSizeBinaryArray> {
    let (values, mask) = parts_of(alloc, bytes, length)?;
    let dtype = match size {
        Some(size) => ArrowDataType::FixedSizeBinary(size),
        None => ArrowDataType::Binary,
    };
    FixedSizeBinaryArray::try_new(dtype, values, mask)
}

const SIZES: [(Option<usize>, &[u8], Option<usize>, Option<Reason>); 6] = [
    (Some(2), &[1, 2, 3, 4], Some(2), None),
    (Some(2), &[1, 2, 3, 4], None, None),
    (None, &[1, 2, 3], Some(2), Some(Reason::WrongLogicalType)),
    (Some(0), &[1, 2, 3], Some(2), Some(Reason::NotCarried)),
    (Some(2), &[1, 2, 3], Some(2), Some(Reason::NotMultiple)),
    (Some(2), &[1, 2, 3, 4], Some(4), Some(Reason::MaskLength)),
];

#[test]
fn sizes_are_tested_before_the_mask(rt: HostRuntime) {
    let alloc = rt.alloc();
    for (size, bytes, length, wanted) in SIZES {
        assert!(rt; ends_as(fixed(alloc, size, bytes, length), wanted));
    }
}

const LETTERS: &[u8] = b"-abcde-";

const BYTES: &[&[u8]] = &[b"ab", b"c", b"de"];

const BYTES_BACK: &[Option<&[u8]>] = &[Some(b"de"), None, Some(b"ab")];

/// Whether binary values are those of the letters, the second a null.
fn has_bytes(array: &BinaryArray<i64>) -> bool {
    gives(array.iter().rev(), BYTES_BACK) && gives(array.values_iter(), BYTES)
}

#[test]
fn binary_values_come_from_both_ends(rt: HostRuntime) -> Result<(), Fail> {
    let array = array_of::<ViewBytes, i64>(rt.alloc(), true, LETTERS, Some(3))??;
    let has_bytes = has_bytes(&array);
    drop(array);
    assert!(rt; has_bytes);
    Ok(())
}

/// The same of strings.
fn has_strings(array: &Utf8Array<i32>) -> bool {
    gives(array.iter(), &[Some("ab"), None, Some("de")])
        && gives(array.values_iter().rev(), &["de", "c", "ab"])
}

#[test]
fn strings_come_from_both_ends(rt: HostRuntime) -> Result<(), Fail> {
    let array = array_of::<ViewStr, i32>(rt.alloc(), true, LETTERS, Some(3))??;
    let has_strings = has_strings(&array);
    drop(array);
    assert!(rt; has_strings);
    Ok(())
}

/// Whether an array of the letters has four offsets and seven bytes, through the bound.
fn has_letters<O: Offset, A: GenericBinaryArray<O>>(array: &A) -> bool {
    array.offsets().len() == 4 && array.values().len() == 7
}

impl<K: ViewType, O: Offset> Counted for OffsetArray<K, O> {
    fn counts(&self) -> Counts {
        counts_of(self.len(), self.null_count(), self.validity().is_some())
    }
}

impl Counted for FixedSizeBinaryArray {
    fn counts(&self) -> Counts {
        counts_of(self.len(), self.null_count(), self.validity().is_some())
    }
}

#[test]
fn binary_values_go_through_the_bounds(rt: HostRuntime) -> Result<(), Fail> {
    let array = array_of::<ViewBytes, i32>(rt.alloc(), true, LETTERS, Some(3))??;
    let has_letters = has_letters::<i32, BinaryArray<i32>>(&array);
    let has_halves = has_halves(rt.alloc(), &array, 2, Some(((2, Some(1)), (1, None))));
    drop(array);
    assert!(rt; has_letters && has_halves?);
    Ok(())
}

#[test]
fn strings_go_through_the_bounds(rt: HostRuntime) -> Result<(), Fail> {
    let array = array_of::<ViewStr, i64>(rt.alloc(), true, LETTERS, Some(3))??;
    let has_letters = has_letters::<i64, Utf8Array<i64>>(&array);
    let has_halves = has_halves(rt.alloc(), &array, 1, Some(((1, None), (2, Some(1)))));
    drop(array);
    assert!(rt; has_letters && has_halves?);
    Ok(())
}

const PAIRS_BACK: &[Option<&[u8]>] = &[Some(b"ef"), None, Some(b"ab")];

/// Whether a copy of the pairs comes from the back, and has halves.
fn are_pairs(alloc: Global, array: &FixedSizeBinaryArray) -> Mem<bool> {
    let are_pairs = gives(array.iter().rev(), PAIRS_BACK);
    let has_halves = has_halves(alloc, array, 1, Some(((1, None), (2, Some(1)))))?;
    Ok(are_pairs && has_halves)
}

#[test]
fn values_of_one_size_come_from_both_ends_and_go_through_the_bounds(
    rt: HostRuntime,
) -> Result<(), Fail> {
    let array = fixed(rt.alloc(), Some(2), b"abcdef", Some(3))?;
    let are_pairs = are_pairs(rt.alloc(), &array);
    drop(array);
    assert!(rt; are_pairs?);
    Ok(())
}
