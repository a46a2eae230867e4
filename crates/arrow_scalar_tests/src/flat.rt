//! Arrays without children: each has the layout of another one that is made alike, and of none
//! that differs in one part.
use arrow_buffers::{Bitmap, Offset, OffsetError, Offsets, OffsetsBuffer};
use arrow_bytes::{BinaryArray, FixedSizeBinaryArray};
use arrow_flat::{BooleanArray, PrimitiveArray};
use arrow_meaning::{ArrayRef, FlatArray, NodeOffset};
use arrow_scalar::same_layout;
use arrow_types::{ArrowDataType, Mem};
use arrow_views::{BinaryViewArray, View};
use flat_fixtures::buffer_of;
use std::alloc::Global;
use std::test::Fail;

/// An array of a table: each differs from the first of its kind in one part.
#[derive(Clone, Copy, PartialEq)]
enum Sample {
    Numbers,
    NumbersOtherValue,
    NumbersOtherType,
    NumbersUnmasked,
    NumbersOtherMask,
    NumbersMovedMask,
    NumbersFewer,
    Bits,
    BitsOtherValue,
    BitsMoved,
    Binary,
    BinaryOtherOffsets,
    BinaryOtherBytes,
    BinaryMoreBytes,
    LargeBinary,
    FixedSizeBinary,
    FixedSizeBinaryOtherSize,
    FixedSizeBinaryOtherBytes,
    Views,
    ViewsOtherView,
    ViewsOtherBuffer,
    ViewsMoreBuffers,
}

const SAMPLES: [Sample; 22] = [
    Sample::Numbers,
    Sample::NumbersOtherValue,
    Sample::NumbersOtherType,
    Sample::NumbersUnmasked,
    Sample::NumbersOtherMask,
    Sample::NumbersMovedMask,
    Sample::NumbersFewer,
    Sample::Bits,
    Sample::BitsOtherValue,
    Sample::BitsMoved,
    Sample::Binary,
    Sample::BinaryOtherOffsets,
    Sample::BinaryOtherBytes,
    Sample::BinaryMoreBytes,
    Sample::LargeBinary,
    Sample::FixedSizeBinary,
    Sample::FixedSizeBinaryOtherSize,
    Sample::FixedSizeBinaryOtherBytes,
    Sample::Views,
    Sample::ViewsOtherView,
    Sample::ViewsOtherBuffer,
    Sample::ViewsMoreBuffers,
];

/// The bits from `start` on.
fn bits_from(alloc: Global, bits: &[bool], start: usize) -> Mem<Bitmap> {
    let mut mask = Bitmap::from_bools(alloc, bits)?;
    if start <= mask.len() {
        let length = mask.len() - start;
        mask.slice(start, length);
    }
    Ok(mask)
}

/// The numbers under this mask, as whole numbers or as days.
fn numbers(
    alloc: Global,
    values: &[i32],
    are_days: bool,
    validity: Option<Bitmap>,
) -> Result<ArrayRef, Fail> {
    let values = buffer_of(alloc, values)?;
    let dtype = if are_days {
        ArrowDataType::Date32
    } else {
        ArrowDataType::Int32
    };
    let array = PrimitiveArray::try_new(dtype, values, validity)?;
    Ok(array.boxed(alloc)?)
}

/// The numbers under the bits of a mask from `start` on.
fn masked_numbers(
    alloc: Global,
    values: &[i32],
    bits: &[bool],
    start: usize,
) -> Result<ArrayRef, Fail> {
    let mask = bits_from(alloc, bits, start)?;
    numbers(alloc, values, false, Some(mask))
}

/// An array of the bits from `start` on.
fn booleans(alloc: Global, bits: &[bool], start: usize) -> Result<ArrayRef, Fail> {
    let values = bits_from(alloc, bits, start)?;
    let array = BooleanArray::try_new(ArrowDataType::Boolean, values, None)?;
    Ok(array.boxed(alloc)?)
}

/// The offsets of slots of these lengths.
fn offsets_of<O: Offset>(
    alloc: Global,
    lengths: &[usize],
) -> Result<OffsetsBuffer<O>, OffsetError> {
    let mut ends = Offsets::<O>::new(alloc)?;
    let extended = ends.try_extend_from_lengths(lengths);
    let offsets = ends.freeze();
    extended?;
    Ok(offsets?)
}

/// Binary values of these lengths.
fn binary<O: NodeOffset>(alloc: Global, lengths: &[usize], bytes: &[u8]) -> Result<ArrayRef, Fail> {
    let offsets = offsets_of::<O>(alloc, lengths)?;
    let values = buffer_of(alloc, bytes)?;
    let dtype = if O::IS_LARGE {
        ArrowDataType::LargeBinary
    } else {
        ArrowDataType::Binary
    };
    let array = BinaryArray::<O>::try_new(dtype, offsets, values, None)?;
    Ok(array.boxed(alloc)?)
}

/// Binary values of one size.
fn fixed_size_binary(alloc: Global, size: usize, bytes: &[u8]) -> Result<ArrayRef, Fail> {
    let values = buffer_of(alloc, bytes)?;
    let dtype = ArrowDataType::FixedSizeBinary(size);
    let array = FixedSizeBinaryArray::try_new(dtype, values, None)?;
    Ok(array.boxed(alloc)?)
}

/// A short value and a long one, by views, over the first `count` of these buffers.
fn views(alloc: Global, short: &[u8; 4], buffer: &[u8], count: usize) -> Result<ArrayRef, Fail> {
    let long = View::new_long(16, *b"firs", 0, 0);
    let views = buffer_of(alloc, &[View::new_inline(short), long])?;
    let mut buffers = Vec::new(alloc);
    for _ in 0..count {
        let bytes = buffer_of(alloc, buffer)?;
        buffers.push(bytes)?;
    }
    let array = BinaryViewArray::try_new(ArrowDataType::BinaryView, views, buffers, None)?;
    Ok(array.boxed(alloc)?)
}

/// The array of a sample.
fn array_of(alloc: Global, sample: Sample) -> Result<ArrayRef, Fail> {
    match sample {
        Sample::Numbers => masked_numbers(alloc, &[1, 7, 3], &[true, false, true], 0),
        Sample::NumbersOtherValue => masked_numbers(alloc, &[1, 8, 3], &[true, false, true], 0),
        Sample::NumbersOtherType => numbers(alloc, &[1, 7, 3], true, None),
        Sample::NumbersUnmasked => numbers(alloc, &[1, 7, 3], false, None),
        Sample::NumbersOtherMask => masked_numbers(alloc, &[1, 7, 3], &[true, true, true], 0),
        Sample::NumbersMovedMask => masked_numbers(
            alloc,
            &[1, 7, 3],
            &[true, true, false, true],
            1,
        ),
        Sample::NumbersFewer => numbers(alloc, &[1, 7], false, None),
        Sample::Bits => booleans(alloc, &[true, false], 0),
        Sample::BitsOtherValue => booleans(alloc, &[true, true], 0),
        Sample::BitsMoved => booleans(alloc, &[false, true, false], 1),
        Sample::Binary => binary::<i32>(alloc, &[1, 2], b"abc"),
        Sample::BinaryOtherOffsets => binary::<i32>(alloc, &[2, 1], b"abc"),
        Sample::BinaryOtherBytes => binary::<i32>(alloc, &[1, 2], b"abd"),
        Sample::BinaryMoreBytes => binary::<i32>(alloc, &[1, 2], b"abcd"),
        Sample::LargeBinary => binary::<i64>(alloc, &[1, 2], b"abc"),
        Sample::FixedSizeBinary => fixed_size_binary(alloc, 2, b"abcd"),
        Sample::FixedSizeBinaryOtherSize => fixed_size_binary(alloc, 4, b"abcd"),
        Sample::FixedSizeBinaryOtherBytes => fixed_size_binary(alloc, 2, b"abce"),
        Sample::Views => views(alloc, b"tiny", b"first long value", 1),
        Sample::ViewsOtherView => views(alloc, b"tine", b"first long value", 1),
        Sample::ViewsOtherBuffer => views(alloc, b"tiny", b"first long valve", 1),
        Sample::ViewsMoreBuffers => views(alloc, b"tiny", b"first long value", 2),
    }
}

/// Whether an array has the layout of a sample's.
fn has_layout_of(alloc: Global, array: &ArrayRef, sample: Sample) -> Result<bool, Fail> {
    let other = array_of(alloc, sample)?;
    let is_same = same_layout(array, &other);
    drop(other);
    Ok(is_same)
}

/// Whether two samples have one layout exactly where they are one sample.
fn are_told_apart(alloc: Global, lhs: Sample, rhs: Sample) -> Result<bool, Fail> {
    let array = array_of(alloc, lhs)?;
    let is_same = has_layout_of(alloc, &array, rhs);
    drop(array);
    Ok(is_same? == (lhs == rhs))
}

#[test]
fn samples_have_their_own_layouts_alone(rt: HostRuntime) -> Result<(), Fail> {
    let alloc = rt.alloc();
    for lhs in SAMPLES {
        for rhs in SAMPLES {
            assert!(rt; are_told_apart(alloc, lhs, rhs)?);
        }
    }
    Ok(())
}
