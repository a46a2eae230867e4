//! Canonical offsets, of binary values, of strings and of lists.
ghost use Rattle.std.specs.Prelude.{◌≡◌, ◌↔◌, ◌+◌, ◌<◌, false, IsTrue, length as count, map, pred};
ghost use Rattle.std.specs.Option.{option_copied};
ghost use Rattle.arrow_buffers.specs.Offsets.{end_of, first_of};
ghost use Rattle.arrow_flat.specs.Primitives.{HasBit, MaskHasLength, valid_at};
ghost use Rattle.arrow_layout.specs.Canonical.{IsFlat};
ghost use Rattle.arrow_layout.specs.WellFormed.{mask_bits};
ghost use Rattle.arrow_types.specs.Select.{nat_of};
ghost use Rattle.arrow_meaning.specs.Nodes.{binary_layout};
ghost use Rattle.arrow_canonical.specs.OwnForm.{HasOwnForm, IsEmptyAt, NullsAreEmpty};

use crate::mask::is_set;
use arrow_buffers::{Bitmap, Offset, OffsetsBuffer};
use arrow_bytes::OffsetArray;
use arrow_flat::ViewType;
use arrow_meaning::SizedOffset;

/// Whether the offsets of binary values or of strings begin at 0, end where the bytes do, and don't
/// rise over nulls.
pub(crate) fn binary_form<K: ViewType, O: SizedOffset>(array: &OffsetArray<K, O>) -> bool
    ensures { IsTrue result ↔ HasOwnForm (binary_layout O.number array.now) }
{
    array.invariant();
    are_flat(array.offsets(), array.validity(), array.values().len())
}

/// Whether offsets begin at 0, end at `top`, and don't rise over nulls.
pub(crate) fn are_flat<O: Offset>(
    offsets: &OffsetsBuffer<O>,
    validity: Option<&Bitmap>,
    top: usize,
) -> bool
    requires { MaskHasLength (option_copied validity) (pred (count offsets.now)) }
    ensures { let os = map nat_of (map O.number offsets.now) in
        let bits = mask_bits (option_copied validity.entry) (pred (count offsets.now)) in
        IsTrue result ↔ IsFlat top os bits }
{
    let _slots = offsets.len_proxy();
    spans(offsets, top) && nulls_are_empty(offsets, validity)
}

/// Whether offsets begin at 0 and end at `top`.
fn spans<O: Offset>(offsets: &OffsetsBuffer<O>, top: usize) -> bool
    ensures { let os = map O.number offsets.now in
        IsTrue result ↔ ((first_of os ≡ 0) × (end_of os ≡ top)) }
{
    offsets.first().to_usize() == 0 && offsets.last().to_usize() == top
}

/// Whether no offset rises over a null.
fn nulls_are_empty<O: Offset>(offsets: &OffsetsBuffer<O>, validity: Option<&Bitmap>) -> bool
    requires { MaskHasLength (option_copied validity) (pred (count offsets.now)) }
    ensures { IsTrue result
        ↔ NullsAreEmpty (option_copied validity.entry) (map nat_of (map O.number offsets.now)) }
{
    for i in 0..offsets.len_proxy() {
        if !is_set_or_empty(offsets, validity, i) {
            return false;
        }
    }
    true
}

/// Whether the slot isn't null, or the offsets don't rise over it.
fn is_set_or_empty<O: Offset>(
    offsets: &OffsetsBuffer<O>,
    validity: Option<&Bitmap>,
    i: usize,
) -> bool
    requires within { i + 1 < count offsets.now }
    requires bit { HasBit (option_copied validity) i }
    ensures { IsTrue result ↔ (valid_at (option_copied validity.entry) i ≡ false
        → IsEmptyAt (map nat_of (map O.number offsets.now)) i) }
{
    is_set(validity, i) || is_empty(offsets, i)
}

/// Whether the offsets don't rise over the slot.
fn is_empty<O: Offset>(offsets: &OffsetsBuffer<O>, i: usize) -> bool
    requires { i + 1 < count offsets.now }
    ensures { IsTrue result ↔ IsEmptyAt (map nat_of (map O.number offsets.now)) i }
{
    let (start, end) = offsets.start_end(i);
    start == end
}
