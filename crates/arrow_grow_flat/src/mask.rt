//! Masks that grow.
ghost use Rattle.std.specs.Prelude.{◌≡◌, ◌+◌, ◌≤◌, ◌++◌, [], replicate, true, false, cond, Some, None, IfOk, OnErr, OnOk};
ghost use Rattle.std.specs.Option.{option_copied};
ghost use Rattle.arrow_flat.specs.Primitives.{HasRange};
ghost use Rattle.arrow_grow_flat.specs.Masks.{more_bits, bits_in, plain_mask, no_bits};

use arrow_buffers::{Bitmap, MutableBitmap};
use arrow_types::Mem;
use std::alloc::Global;

/// The mask of no slots, where nulls are taken.
pub(crate) fn empty_mask(alloc: Global, takes_nulls: bool) -> Option<MutableBitmap>
    ensures { result ≡ cond takes_nulls (Some []) None }
{
    if takes_nulls {
        Some(MutableBitmap::new(alloc))
    } else {
        None
    }
}

/// Appends the bits of n slots of an array, set ones where it has no mask.
pub(crate) fn extend_mask(
    mask: &mut Option<MutableBitmap>,
    source: Option<&Bitmap>,
    start: usize,
    len: usize,
) -> Mem<()>
    requires { HasRange (option_copied source) start len }
    ensures ok { OnOk result (mask.new
        ≡ more_bits (bits_in (option_copied source.entry) start len) mask.old) }
    ensures err { OnErr result (mask.new ≡ mask.old) }
{
    let Some(bits) = mask else {
        return Ok(());
    };
    match source {
        None => {
            bits.extend_constant(len, true)?;
            Ok(())
        }
        Some(source) => {
            bits.extend_from_range(source, start, len)?;
            Ok(())
        }
    }
}

/// Appends unset bits.
pub(crate) fn extend_unset(mask: &mut Option<MutableBitmap>, additional: usize) -> Mem<()>
    ensures ok { OnOk result (mask.new ≡ more_bits (replicate additional false) mask.old) }
    ensures err { OnErr result (mask.new ≡ mask.old) }
{
    let Some(bits) = mask else {
        return Ok(());
    };
    bits.extend_constant(additional, false)?;
    Ok(())
}

/// The mask as that of an array; one without bits is left, where there is one.
pub(crate) fn take_mask(alloc: Global, mask: &mut Option<MutableBitmap>) -> Mem<Option<Bitmap>>
    ensures taken { IfOk result (λ m. m ≡ plain_mask mask.old) }
    ensures left { mask.new ≡ no_bits mask.old }
{
    let Some(bits) = mask else {
        return Ok(None);
    };
    let bits = std::mem::replace(bits, MutableBitmap::new(alloc));
    Ok(Some(bits.freeze()?))
}
