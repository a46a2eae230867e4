//! Masks that grow with picked slots.
ghost use Rattle.std.specs.Prelude.{◌≡◌, ◌++◌, replicate, true, length as count, IfOk, OnOk};
ghost use Rattle.arrow_flat.specs.Primitives.{MaskHasLength};
ghost use Rattle.arrow_layout.specs.WellFormed.{mask_bits};
ghost use Rattle.arrow_grow_flat.specs.Masks.{more_bits, no_bits, plain_mask};
ghost use Rattle.arrow_growable.specs.Parts.{repeated};

use crate::child_runs::ChildRuns;
use arrow_buffers::{Bitmap, MutableBitmap};
use arrow_types::Mem;
use std::alloc::{AllocError, Global};

/// Appends the mask of picked slots `copies` times, where nulls are taken.
pub fn extend_taken_mask(
    mask: &mut Option<MutableBitmap>,
    taken: &ChildRuns,
    copies: usize,
) -> Mem<()>
    requires { MaskHasLength taken.now.validity taken.now.length }
    ensures { OnOk result (mask.new
        ≡ more_bits (repeated copies (mask_bits taken.now.validity taken.now.length)) mask.old) }
{
    let Some(bits) = mask else {
        return Ok(());
    };
    match &taken.validity {
        None => extend_set(bits, taken.length, copies),
        Some(picked) => extend_bits(bits, picked, taken.length, copies),
    }
}

/// Appends n set bits, `copies` times.
fn extend_set(bits: &mut MutableBitmap, length: usize, copies: usize) -> Mem<()>
    ensures { OnOk result (bits.new ≡ bits.old ++ repeated copies (replicate length true)) }
{
    match length.checked_mul(copies) {
        Some(total) => bits.extend_constant(total, true),
        None => Err(AllocError),
    }
}

/// Appends the n bits of a mask, `copies` times.
fn extend_bits(bits: &mut MutableBitmap, picked: &Bitmap, length: usize, copies: usize) -> Mem<()>
    requires { count picked.now.bits ≡ length }
    ensures { OnOk result (bits.new ≡ bits.old ++ repeated copies picked.now.bits) }
{
    for _copy in 0..copies {
        bits.extend_from_range(picked, 0, length)?;
    }
    Ok(())
}

/// The mask as that of an array; one without bits is left, where there is one.
pub fn take_mask(alloc: Global, mask: &mut Option<MutableBitmap>) -> Mem<Option<Bitmap>>
    ensures taken { IfOk result (λ m. m ≡ plain_mask mask.old) }
    ensures left { mask.new ≡ no_bits mask.old }
{
    let Some(bits) = mask else {
        return Ok(None);
    };
    let bits = std::mem::replace(bits, MutableBitmap::new(alloc));
    Ok(Some(bits.freeze()?))
}
