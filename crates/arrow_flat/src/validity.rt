//! Masks: a set bit for each slot that isn't null; without a mask no slot is null.
ghost use Rattle.std.specs.Prelude.{◌≡◌, ◌↔◌, IfOk, IsTrue};
ghost use Rattle.arrow_flat.specs.Primitives.{MaskHasLength, IsLed, HasBit, HasRange, valid_at, unset_in, cut_mask};

use arrow_buffers::Bitmap;
use arrow_types::Mem;
use std::alloc::Global;

/// For proofs alone: fewer bits stand before those of a mask than a byte has.
pub fn invariant(validity: &Option<Bitmap>)
    ensures { IsLed validity.now }
{
    if let Some(mask) = validity {
        mask.len();
    }
}

/// Whether a mask, if there is one, has this length.
pub fn mask_fits(validity: &Option<Bitmap>, length: usize) -> bool
    ensures { IsTrue result ↔ (MaskHasLength validity.now length) }
{
    match validity {
        None => true,
        Some(mask) => mask.len() == length,
    }
}

/// Whether slot `i` isn't null.
pub fn is_valid(validity: &Option<Bitmap>, i: usize) -> bool
    requires { HasBit validity.now i }
    ensures { result ≡ valid_at validity.now i }
{
    match validity {
        None => true,
        Some(mask) => mask.get_bit(i),
    }
}

/// The count of nulls.
pub fn null_count(validity: &Option<Bitmap>) -> usize
    ensures { result ≡ unset_in validity.now }
{
    match validity {
        None => 0,
        Some(mask) => mask.unset_bits(),
    }
}

/// Keeps the bits of `length` slots from `offset` on; the mask is dropped where none of these is
/// null.
///
/// Takes no memory; counts the bits of the slots.
pub fn slice_mask(validity: &mut Option<Bitmap>, offset: usize, length: usize)
    requires { HasRange validity.old offset length }
    ensures { validity.new ≡ cut_mask offset length validity.old }
{
    if let Some(mut mask) = validity.take() {
        mask.slice(offset, length);
        *validity = mask.into_opt_validity();
    }
}

/// A shared copy of the mask.
pub fn clone_mask(alloc: Global, validity: &Option<Bitmap>) -> Mem<Option<Bitmap>>
    ensures { IfOk result (λ m. m ≡ validity.now) }
{
    match validity {
        None => Ok(None),
        Some(mask) => Ok(Some(mask.try_clone(alloc)?)),
    }
}
