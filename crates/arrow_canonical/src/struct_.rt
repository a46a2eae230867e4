//! Canonical structs: fillings in all children at nulls.
ghost use Rattle.std.specs.Prelude.{◌≡◌, ◌↔◌, IfOk, IsTrue};
ghost use Rattle.std.specs.Option.{option_copied};
ghost use Rattle.arrow_flat.specs.Primitives.{MaskHasLength};
ghost use Rattle.arrow_layout.specs.Layouts.{layouts};
ghost use Rattle.arrow_layout.specs.WellFormed.{AreWellFormed};
ghost use Rattle.arrow_canonical.specs.Filled.{AllFilled};

use crate::fill::nulls_are_filled;
use arrow_buffers::Bitmap;
use arrow_meaning::ArrayRef;
use arrow_types::Mem;
use std::alloc::Global;

/// Whether each child is a filling at each null of a mask.
pub(crate) fn all_are_filled(
    alloc: Global,
    validity: Option<&Bitmap>,
    children: &[ArrayRef],
    length: usize,
) -> Mem<bool>
    requires mask { MaskHasLength (option_copied validity) length }
    requires children { AreWellFormed (λ i. i ≡ length) (layouts children.now) }
    ensures { IfOk result (λ b. IsTrue b
        ↔ AllFilled (option_copied validity.entry) length children.now) }
{
    for k in 0..children.len() {
        if !nulls_are_filled(alloc, validity, &children[k], 1, length)? {
            return Ok(false);
        }
    }
    Ok(true)
}
