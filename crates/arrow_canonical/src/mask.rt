//! Masks of canonical arrays, and the bits of masks.
ghost use Rattle.std.specs.Prelude.{◌≡◌, ◌↔◌, IsTrue};
ghost use Rattle.std.specs.Option.{option_copied};
ghost use Rattle.arrow_flat.specs.Primitives.{HasBit, valid_at};
ghost use Rattle.arrow_layout.specs.Canonical.{MaskIsNeeded};

use arrow_buffers::Bitmap;

/// Whether a mask has an unset bit and no leading bits, where there is one.
pub(crate) fn is_needed(validity: Option<&Bitmap>) -> bool
    ensures { IsTrue result ↔ MaskIsNeeded (option_copied validity.entry) }
{
    match validity {
        None => true,
        Some(bits) => bits.lead() == 0 && bits.unset_bits() > 0,
    }
}

/// Whether the slot isn't null by the mask.
pub(crate) fn is_set(validity: Option<&Bitmap>, i: usize) -> bool
    requires { HasBit (option_copied validity) i }
    ensures { result ≡ valid_at (option_copied validity.entry) i }
{
    match validity {
        None => true,
        Some(bits) => bits.get_bit(i),
    }
}
