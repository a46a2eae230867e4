//! The buffers, masks, offsets and arrays that the tests share.

use arrow_buffers::{Bitmap, Buffer, Offset, OffsetError, Offsets, OffsetsBuffer};
use arrow_bytes::Utf8Array;
use arrow_flat::PrimitiveArray;
use arrow_meaning::{ArrayRef, Node, PrimitiveNode};
use arrow_types::{ArrowDataType, Mem};
use std::alloc::Global;
use std::test::Fail;

/// A buffer of these values.
pub(crate) fn buffer_of<T: Copy>(alloc: Global, values: &[T]) -> Mem<Buffer<T>> {
    let values = Vec::from_slice(alloc, values)?;
    Buffer::from_vec(alloc, values)
}

/// The bits 1 0 1, with one bit before them.
pub(crate) fn null_in_the_middle(alloc: Global) -> Result<Bitmap, Fail> {
    let mut mask = Bitmap::from_bools(alloc, &[false, true, false, true])?;
    if mask.len() != 4 {
        return Err("another count of bits".into());
    }
    mask.slice(1, 3);
    Ok(mask)
}

/// Whether these are all the bits, with none before them.
pub(crate) fn is_plain(mask: Option<&Bitmap>, bits: &[bool]) -> bool {
    match mask {
        Some(mask) => mask.lead() == 0 && mask.iter().eq(bits.iter().copied()),
        None => false,
    }
}

/// The offsets of four slots of two, one, two and one bytes.
fn offsets_of_four<O: Offset>(alloc: Global) -> Result<OffsetsBuffer<O>, OffsetError> {
    let mut ends = Offsets::<O>::new(alloc)?;
    let extended = ends.try_extend_from_lengths(&[2, 1, 2, 1]);
    let offsets = ends.freeze();
    extended?;
    Ok(offsets?)
}

/// The offsets of three slots of one, two and one bytes, the first of which begins at 2.
pub(crate) fn offsets_from_two<O: Offset>(alloc: Global) -> Result<OffsetsBuffer<O>, Fail> {
    let mut offsets = offsets_of_four(alloc)?;
    if offsets.len_proxy() != 4 {
        return Err("another count of slots".into());
    }
    offsets.slice(1, 3);
    Ok(offsets)
}

/// These values, three of them, and a mask with a null in the middle.
pub(crate) fn masked<T: Copy>(alloc: Global, values: &[T]) -> Result<(Buffer<T>, Bitmap), Fail> {
    let values = buffer_of(alloc, values)?;
    let validity = null_in_the_middle(alloc)?;
    Ok((values, validity))
}

/// The texts `a`, null over `é`, and `d`, with bytes before and after them.
pub(crate) fn three_texts<O: Offset>(alloc: Global) -> Result<Utf8Array<O>, Fail> {
    let offsets = offsets_from_two::<O>(alloc)?;
    let (values, validity) = masked(alloc, b"--a\xC3\xA9d-")?;
    let dtype = if O::IS_LARGE {
        ArrowDataType::LargeUtf8
    } else {
        ArrowDataType::Utf8
    };
    Ok(Utf8Array::try_new(dtype, offsets, values, Some(validity))?)
}

/// The array of 1, null over 7, and 3.
pub(crate) fn array_of_numbers(alloc: Global) -> Result<ArrayRef, Fail> {
    let (values, validity) = masked(alloc, &[1, 7, 3])?;
    let numbers = PrimitiveArray::try_new(ArrowDataType::Int32, values, Some(validity))?;
    Ok(ArrayRef::from_node(alloc, Node::Primitive(PrimitiveNode::Int32(numbers)))?)
}
