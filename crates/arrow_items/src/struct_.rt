//! What canonical structs have of picked slots.
ghost use Rattle.std.specs.Prelude.{◌≡◌, ℕ, is_some, IfOk};
ghost use Rattle.std.specs.Option.{option_copied};
ghost use Rattle.arrow_canon.specs.Picks.{picked_mask};
ghost use Rattle.arrow_canon.specs.Runs.{places, AreWithin, AreWithinMask};
ghost use Rattle.arrow_items.specs.Items.{kept_places};

use crate::ItemParts;
use crate::kept::kept_runs;
use arrow_buffers::Bitmap;
use arrow_canon::{Run, mask_of_runs};
use arrow_types::Mem;
use std::alloc::Global;

/// What canonical structs have of picked ones: the children have fillings at a null.
pub fn struct_parts(alloc: Global, validity: Option<&Bitmap>, runs: &[Run]) -> Mem<ItemParts>
    requires { AreWithinMask (option_copied validity) runs.now }
    ensures items { IfOk result (λ p. places p.items.items
        ≡ kept_places (option_copied validity.entry) (places runs.now)) }
    ensures inside { IfOk result (λ p. (n : ℕ) → AreWithin n runs.now → AreWithin n p.items.items) }
    ensures mask { IfOk result (λ p.
        p.validity ≡ picked_mask (option_copied validity.entry) (places runs.now)) }
{
    let picked = mask_of_runs(alloc, validity, runs)?;
    let items = runs_under(alloc, validity, picked.is_some(), runs)?;
    Ok(ItemParts {
        items,
        validity: picked,
    })
}

/// The runs of the slots, of fillings where the mask has an unset bit; the runs themselves where
/// there is no mask, or each bit is known to be set.
fn runs_under(
    alloc: Global,
    validity: Option<&Bitmap>,
    has_unset: bool,
    runs: &[Run],
) -> Mem<Vec<Run>>
    requires within { AreWithinMask (option_copied validity) runs.now }
    requires set { has_unset ≡ is_some (picked_mask (option_copied validity) (places runs.now)) }
    ensures places { IfOk result (λ v. places v.items
        ≡ kept_places (option_copied validity.entry) (places runs.now)) }
    ensures inside { IfOk result (λ v. (n : ℕ) → AreWithin n runs.now → AreWithin n v.items) }
{
    if !has_unset {
        return Ok(Vec::from_slice(alloc, runs)?);
    }
    match validity {
        None => Ok(Vec::from_slice(alloc, runs)?),
        Some(mask) => Ok(kept_runs(alloc, mask, runs)?),
    }
}
