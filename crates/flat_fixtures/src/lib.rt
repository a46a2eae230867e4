//! What several files of tests make and look for: buffers, masks, items in order, copies and
//! halves.
#![tactic(auto)]

ghost use Rattle.std.specs.Iterator.{IsFinite};

use arrow_buffers::{Bitmap, Buffer};
use arrow_flat::{Splitable, TryClone};
use arrow_types::{Mem, PolarsError, PolarsResult, Reason};
use std::alloc::Global;

/// Whether the outcome is this refusal, or a value where no refusal is wanted.
pub fn ends_as<T: Drop>(outcome: PolarsResult<T>, wanted: Option<Reason>) -> bool {
    match outcome {
        Ok(value) => {
            drop(value);
            wanted.is_none()
        }
        Err(PolarsError::ComputeError(reason)) => wanted == Some(reason),
        Err(_) => false,
    }
}

/// A buffer of these items.
pub fn buffer_of<T: Copy>(alloc: Global, items: &[T]) -> Mem<Buffer<T>> {
    Buffer::from_vec(alloc, Vec::from_slice(alloc, items)?)
}

/// A mask whose second slot alone is null.
pub fn mask_of(alloc: Global, length: Option<usize>) -> Mem<Option<Bitmap>> {
    let Some(length) = length else {
        return Ok(None);
    };
    let mut bits = Vec::new(alloc);
    for i in 0..length {
        bits.push(i != 1)?;
    }
    Ok(Some(Bitmap::from_bools(alloc, bits.as_slice())?))
}

/// A buffer of these items, and a mask of this length.
pub fn parts_of<T: Copy>(
    alloc: Global,
    items: &[T],
    length: Option<usize>,
) -> Mem<(Buffer<T>, Option<Bitmap>)> {
    let values = buffer_of(alloc, items)?;
    let mask = mask_of(alloc, length)?;
    Ok((values, mask))
}

/// Two copies of a value, through the bound.
pub fn twice<T: TryClone + Drop>(alloc: Global, value: &T) -> Mem<(T, T)> {
    let first = value.try_clone(alloc)?;
    let second = value.try_clone(alloc)?;
    Ok((first, second))
}

/// Whether the items are these.
pub fn gives<T: Copy + PartialEq, I: Iterator<Item = T> + Drop>(items: I, wanted: &[T]) -> bool
    requires can { I.can_next items }
    requires finite { IsFinite (I.remaining items) }
{
    items.eq(wanted.iter().copied())
}

/// The halves of a value, through the bound; None past its end.
pub fn halves<T: Splitable>(alloc: Global, value: &T, offset: usize) -> Mem<Option<(T, T)>> {
    if !value.check_bound(offset) {
        return Ok(None);
    }
    Ok(Some(value.split_at(alloc, offset)?))
}
