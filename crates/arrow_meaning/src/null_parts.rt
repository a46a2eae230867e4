//! Parts of arrays of slots that say nothing: unset bits, equal values, and offsets.
ghost use Rattle.std.specs.Prelude.{◌≡◌, ◌^◌, ◌≤◌, IfOk, map, replicate};
ghost use Rattle.arrow_flat.specs.Primitives.{MaskHasLength};
ghost use Rattle.arrow_layout.specs.NullLayout.{count_from, null_mask, null_offsets};
ghost use Rattle.arrow_meaning.specs.NullParts.{null_dense_offsets};

use arrow_buffers::{Bitmap, Buffer, Offset, Offsets, OffsetsBuffer};
use arrow_types::{Mem, UnionMode};
use std::alloc::Global;

/// An unset bit for each of `length` slots, and no mask for no slots.
pub(crate) fn null_mask(alloc: Global, length: usize) -> Mem<Option<Bitmap>>
    ensures same { IfOk result (λ m. m ≡ null_mask length) }
    ensures covers { IfOk result (λ m. MaskHasLength m length) }
{
    if length == 0 {
        return Ok(None);
    }
    Ok(Some(Bitmap::new_with_value(alloc, false, length)?))
}

/// `length` equal values.
pub(crate) fn repeated<T: Copy>(alloc: Global, value: T, length: usize) -> Mem<Buffer<T>>
    ensures { IfOk result (λ b. b ≡ replicate length value) }
{
    let mut items = Vec::new(alloc);
    items.resize(length, value)?;
    Buffer::from_vec(alloc, items)
}

/// The offsets of `length` slots without items.
pub(crate) fn null_offsets<O: Offset>(alloc: Global, length: usize) -> Mem<OffsetsBuffer<O>>
    ensures { IfOk result (λ os. map O.number os ≡ null_offsets length) }
{
    let mut offsets = Offsets::<O>::new(alloc)?;
    offsets.extend_constant(length)?;
    offsets.freeze()
}

/// The offsets of `length` slots of a union, each at its own position; a sparse union has none.
pub(crate) fn null_dense_offsets(
    alloc: Global,
    mode: UnionMode,
    length: usize,
) -> Mem<Option<Buffer<i32>>>
    requires { mode ≡ UnionMode.Dense → length ≤ 2 ^ 31 }
    ensures { IfOk result (λ os. os ≡ null_dense_offsets mode length) }
{
    match mode {
        UnionMode::Sparse => Ok(None),
        UnionMode::Dense => Ok(Some(positions(alloc, length)?)),
    }
}

/// The first `length` positions, as offsets.
fn positions(alloc: Global, length: usize) -> Mem<Buffer<i32>>
    requires { length ≤ 2 ^ 31 }
    ensures { IfOk result (λ os. os ≡ count_from 0 length) }
{
    let mut offsets = Vec::with_capacity(alloc, length)?;
    for i in 0..length {
        offsets.push(i as i32)?;
    }
    Buffer::from_vec(alloc, offsets)
}
