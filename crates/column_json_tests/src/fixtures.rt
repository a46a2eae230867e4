//! The buffers and offsets that the tests share, and values as text.
ghost use Rattle.std.specs.Prelude.{IfOk};
ghost use Rattle.arrow_layout.specs.OfValues.{IsOfValues};

use arrow_buffers::{Bitmap, Buffer, Offset, OffsetError, Offsets, OffsetsBuffer};
use arrow_flat::PrimitiveArray;
use arrow_meaning::{ArrayRef, Node, PrimitiveNode};
use arrow_types::{ArrowDataType, Mem};
use serde_json::Value;
use std::alloc::Global;
use std::test::Fail;

/// A buffer of these values.
pub(crate) fn buffer_of<T: Copy>(alloc: Global, values: &[T]) -> Mem<Buffer<T>> {
    let values = Vec::from_slice(alloc, values)?;
    Buffer::from_vec(alloc, values)
}

/// These offsets, to be shared.
pub(crate) fn offsets_of<O: Offset>(
    alloc: Global,
    offsets: &[O],
) -> Result<OffsetsBuffer<O>, OffsetError> {
    let offsets = Offsets::try_from_vec(Vec::from_slice(alloc, offsets)?)?;
    Ok(offsets.freeze()?)
}

/// The days 1, null over 7, and -3.
pub(crate) fn days(alloc: Global) -> Result<ArrayRef, Fail>
    ensures { IfOk result (λ a. IsOfValues a) }
{
    let values = buffer_of(alloc, &[1, 7, -3])?;
    let mask = Bitmap::from_bools(alloc, &[true, false, true])?;
    let days = PrimitiveArray::try_new(ArrowDataType::Date32, values, Some(mask))?;
    Ok(ArrayRef::from_node(alloc, Node::Primitive(PrimitiveNode::Int32(days)))?)
}

/// Whether a text was written, and is this one.
pub(crate) fn is_text(text: Mem<String>, wanted: &str) -> bool {
    match text {
        Ok(text) => text.as_str() == wanted,
        Err(_) => false,
    }
}

/// Whether a value was written, and is this compact text.
pub(crate) fn is_value(alloc: Global, value: Mem<Value>, wanted: &str) -> bool {
    match value {
        Ok(value) => is_text(value.to_string(alloc), wanted),
        Err(_) => false,
    }
}
