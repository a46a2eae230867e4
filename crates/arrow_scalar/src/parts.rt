//! The parts that layouts share, compared: types, masks, bytes, offsets, views and buffers.
ghost use Rattle.std.specs.Prelude.{◌≡◌, ◌↔◌, IsTrue, map, Option};
ghost use Rattle.std.specs.Option.{option_copied};
ghost use Rattle.arrow_flat.specs.Natives.{octets};
ghost use Rattle.arrow_types.specs.Seen.{seen};

use crate::native::{SameNative, same_values};
use arrow_buffers::{Bitmap, Buffer, Offset, OffsetsBuffer};
use arrow_types::ArrowDataType;
use arrow_views::View;

/// Whether two types are equal in all their parts.
pub(crate) fn same_type(lhs: &ArrowDataType, rhs: &ArrowDataType) -> bool
    ensures { IsTrue result ↔ (seen lhs.now ≡ seen rhs.now) }
{
    *lhs == *rhs
}

/// Whether two bitmaps are equal, with the counts of bits before their own.
pub(crate) fn same_bits(lhs: &Bitmap, rhs: &Bitmap) -> bool
    ensures { IsTrue result ↔ (lhs.now ≡ rhs.now) }
{
    if lhs.len() != rhs.len() || lhs.lead() != rhs.lead() {
        return false;
    }
    for i in 0..lhs.len() {
        if lhs.get_bit(i) != rhs.get_bit(i) {
            return false;
        }
    }
    true
}

/// Whether two masks are equal, or neither is there.
pub(crate) fn same_mask(lhs: Option<&Bitmap>, rhs: Option<&Bitmap>) -> bool
    ensures { IsTrue result ↔ (option_copied lhs.entry ≡ option_copied rhs.entry) }
{
    match (lhs, rhs) {
        (None, None) => true,
        (Some(bits), Some(others)) => same_bits(bits, others),
        _ => false,
    }
}

/// Whether two lists of bytes are equal.
pub(crate) fn same_bytes(lhs: &Buffer<u8>, rhs: &Buffer<u8>) -> bool
    ensures { IsTrue result ↔ (octets lhs.now ≡ octets rhs.now) }
{
    same_values(lhs.as_slice(), rhs.as_slice())
}

/// Whether two lists of buffers are equal.
pub(crate) fn same_buffers(lhs: &[Buffer<u8>], rhs: &[Buffer<u8>]) -> bool
    ensures { IsTrue result ↔ (map octets lhs.now ≡ map octets rhs.now) }
{
    if lhs.len() != rhs.len() {
        return false;
    }
    for i in 0..lhs.len() {
        if !same_bytes(&lhs[i], &rhs[i]) {
            return false;
        }
    }
    true
}

/// Whether two lists of offsets are equal.
pub(crate) fn same_offsets<O: Offset + SameNative>(
    lhs: &OffsetsBuffer<O>,
    rhs: &OffsetsBuffer<O>,
) -> bool
    ensures { IsTrue result ↔ (map O.number lhs.now ≡ map O.number rhs.now) }
{
    same_values(lhs.as_slice(), rhs.as_slice())
}

/// Whether two lists of offsets are equal, or neither is there.
pub(crate) fn same_optional_offsets(lhs: &Option<Buffer<i32>>, rhs: &Option<Buffer<i32>>) -> bool
    ensures { IsTrue result ↔ (lhs.now ≡ rhs.now) }
{
    match (lhs, rhs) {
        (None, None) => true,
        (Some(offsets), Some(others)) => same_values(offsets.as_slice(), others.as_slice()),
        _ => false,
    }
}

/// Whether two views are equal.
fn same_view(lhs: &View, rhs: &View) -> bool
    ensures { IsTrue result ↔ (lhs.now ≡ rhs.now) }
{
    *lhs.as_bytes() == *rhs.as_bytes()
}

/// Whether two lists of views are equal.
pub(crate) fn same_views(lhs: &[View], rhs: &[View]) -> bool
    ensures { IsTrue result ↔ (lhs.now ≡ rhs.now) }
{
    if lhs.len() != rhs.len() {
        return false;
    }
    for i in 0..lhs.len() {
        if !same_view(&lhs[i], &rhs[i]) {
            return false;
        }
    }
    true
}
