//! The growables of binary values and of strings: nothing that lies under a null is copied.
ghost use Rattle.std.specs.Prelude.{◌≡◌, IfOk};
ghost use Rattle.arrow_types.specs.declared.datatype.ArrowDataType.TheVariants as dtype;

use crate::flat::{grown, is_made, overflows};
use arrow_buffers::{Offset, Offsets, OffsetsBuffer};
use arrow_bytes::{BinaryArray, FixedSizeBinaryArray, Utf8Array};
use arrow_grow_flat::{Growable, GrowableBinary, GrowableFixedSizeBinary, GrowableUtf8};
use arrow_meaning::ArrayRef;
use arrow_types::{ArrowDataType, GrowError};
use flat_fixtures::{gives, parts_of};
use std::alloc::Global;
use std::test::Fail;

/// Offsets from 0 on of slots of these lengths.
fn offsets_of<O: Offset>(alloc: Global, lengths: &[usize]) -> Result<OffsetsBuffer<O>, Fail> {
    let mut offsets = Offsets::<O>::new(alloc)?;
    let pushed = offsets.try_extend_from_lengths(lengths);
    let frozen = offsets.freeze();
    pushed?;
    Ok(frozen?)
}

/// Strings of these lengths, of which the second is null where there is a mask.
fn strings(
    alloc: Global,
    bytes: &[u8],
    lengths: &[usize],
    masked: Option<usize>,
) -> Result<Utf8Array<i32>, Fail>
    ensures { IfOk result (λ a. a.dtype ≡ dtype.Utf8) }
{
    let offsets = offsets_of(alloc, lengths)?;
    let (values, mask) = parts_of(alloc, bytes, masked)?;
    Ok(Utf8Array::try_new(ArrowDataType::Utf8, offsets, values, mask)?)
}

/// Binary values of these lengths, of which the second is null where there is a mask.
fn binaries(
    alloc: Global,
    bytes: &[u8],
    lengths: &[usize],
    masked: Option<usize>,
) -> Result<BinaryArray<i64>, Fail>
    ensures { IfOk result (λ a. a.dtype ≡ dtype.LargeBinary) }
{
    let offsets = offsets_of(alloc, lengths)?;
    let (values, mask) = parts_of(alloc, bytes, masked)?;
    Ok(BinaryArray::try_new(ArrowDataType::LargeBinary, offsets, values, mask)?)
}

/// Pairs of bytes, of which the second is null where there is a mask.
fn pairs(alloc: Global, bytes: &[u8], masked: Option<usize>) -> Result<FixedSizeBinaryArray, Fail>
    ensures { IfOk result (λ a. a.dtype ≡ dtype.FixedSizeBinary 2) }
{
    let (values, mask) = parts_of(alloc, bytes, masked)?;
    let dtype = ArrowDataType::FixedSizeBinary(2);
    Ok(FixedSizeBinaryArray::try_new(dtype, values, mask)?)
}

/// The arrays that grow one after the other; None where the growable isn't made of such arrays.
fn grown_twice<G: Growable>(growable: &mut G) -> Result<Option<(ArrayRef, ArrayRef)>, GrowError> {
    if !is_made(growable) {
        return Ok(None);
    }
    let Some(first) = grown(growable)? else {
        return Ok(None);
    };
    let Some(second) = grown(growable)? else {
        return Ok(None);
    };
    Ok(Some((first, second)))
}

/// Whether these are the strings that grow, with no byte beside them.
fn are_strings(array: &ArrayRef) -> bool {
    let wanted = &[
        None,
        Some("def"),
        None,
        Some(""),
        Some("gh"),
        Some(""),
        Some("gh"),
    ];
    match array.as_utf8::<i32>() {
        Some(array) => gives(array.iter(), wanted) && array.values().len() == 7,
        None => false,
    }
}

/// Whether strings grow.
fn strings_grow(alloc: Global) -> Result<bool, Fail> {
    let first = strings(alloc, b"abcdef", &[1, 2, 3], Some(3))?;
    let second = strings(alloc, b"gh", &[0, 2], None)?;
    let mut growable = GrowableUtf8::<i32>::new(alloc, &[first, second], false, 7)?;
    let Some((first, second)) = grown_twice(&mut growable)? else {
        return Ok(false);
    };
    Ok(are_strings(&first) && are_strings(&second) && overflows(&mut growable))
}

/// Whether these are the binary values that grow, with no byte beside them.
fn are_binaries(array: &ArrayRef) -> bool {
    let wanted: &[Option<&[u8]>] = &[
        Some(&[2, 3]),
        Some(&[4]),
        None,
        Some(&[9]),
        None,
        Some(&[9]),
        None,
    ];
    match array.as_binary::<i64>() {
        Some(array) => gives(array.iter(), wanted) && array.values().len() == 5,
        None => false,
    }
}

/// Whether binary values grow.
fn binaries_grow(alloc: Global) -> Result<bool, Fail> {
    let first = binaries(alloc, &[1, 2, 3, 4], &[1, 2, 1], None)?;
    let second = binaries(alloc, &[9, 8, 7], &[1, 2], Some(2))?;
    let mut growable = GrowableBinary::<i64>::new(alloc, &[first, second], false, 0)?;
    let Some((first, second)) = grown_twice(&mut growable)? else {
        return Ok(false);
    };
    Ok(are_binaries(&first) && are_binaries(&second) && overflows(&mut growable))
}

/// Whether these are the pairs that grow.
fn are_pairs(array: &ArrayRef) -> bool {
    let wanted: &[Option<&[u8]>] = &[
        None,
        Some(&[5, 6]),
        None,
        Some(&[7, 8]),
        Some(&[9, 0]),
        Some(&[7, 8]),
        Some(&[9, 0]),
    ];
    match array.as_fixed_size_binary() {
        Some(array) => gives(array.iter(), wanted),
        None => false,
    }
}

/// Whether pairs grow.
fn pairs_grow(alloc: Global) -> Result<bool, Fail> {
    let first = pairs(alloc, &[1, 2, 3, 4, 5, 6], Some(3))?;
    let second = pairs(alloc, &[7, 8, 9, 0], None)?;
    let mut growable = GrowableFixedSizeBinary::new(alloc, &[first, second], false, 7)?;
    let Some((first, second)) = grown_twice(&mut growable)? else {
        return Ok(false);
    };
    Ok(are_pairs(&first) && are_pairs(&second) && overflows(&mut growable))
}

#[test]
fn bytes_grow_again_after_they_are_boxed(rt: HostRuntime) -> Result<(), Fail> {
    let alloc = rt.alloc();
    assert!(rt; strings_grow(alloc)?);
    assert!(rt; binaries_grow(alloc)?);
    assert!(rt; pairs_grow(alloc)?);
    Ok(())
}

/// Whether four nulls of 2^62 bytes each are refused for their count of bytes.
fn large_nulls_overflow(alloc: Global) -> Result<bool, Fail> {
    let (values, _) = parts_of(alloc, &[], None)?;
    let dtype = ArrowDataType::FixedSizeBinary(1 << 62);
    let array = FixedSizeBinaryArray::try_new(dtype, values, None)?;
    let mut growable = GrowableFixedSizeBinary::new(alloc, &[array], true, 0)?;
    if growable.is_failed() || !growable.takes_nulls() {
        return Ok(false);
    }
    let outcome = growable.extend_validity(4);
    Ok(outcome == Err(GrowError::Overflow) && growable.is_failed())
}

#[test]
fn bytes_past_a_usize_are_refused(rt: HostRuntime) -> Result<(), Fail> {
    assert!(rt; large_nulls_overflow(rt.alloc())?);
    Ok(())
}
