//! The canonical array of bits.
ghost use Rattle.std.specs.Prelude.{◌≡◌, ◌+◌, ◌≤◌, length as len, false, None, IfOk, IsErrOf};
ghost use Rattle.std.specs.Option.{option_copied};
ghost use Rattle.arrow_types.specs.Seen.{seen};
ghost use Rattle.arrow_types.specs.declared.error.GrowError.TheVariants as grow;
ghost use Rattle.arrow_buffers.specs.Bits.{plain};
ghost use Rattle.arrow_flat.specs.Booleans.{slots};
ghost use Rattle.arrow_flat.specs.Primitives.{MaskHasLength};
ghost use Rattle.arrow_layout.specs.Fits.{Fits};
ghost use Rattle.arrow_meaning.specs.Nodes.{boolean_layout};
ghost use Rattle.arrow_canon.specs.Picks.{picks, picked_mask, IsTypeFor};
ghost use Rattle.arrow_canon.specs.Runs.{places, AreWithin, canon_of_runs};
ghost use Rattle.arrow_canon.specs.Steps.{values_or};

use crate::mask::{bits_of_runs, mask_of_runs};
use crate::run::{Run, count_slots};
use arrow_buffers::Bitmap;
use arrow_flat::BooleanArray;
use arrow_types::{ArrowDataType, GrowError, Mem};
use std::alloc::Global;

/// The canonical array of the slots that runs pick, of a type laid out as the array's: false for
/// nulls, and no bits before the first. Bits are copied whole bytes at a time.
///
/// Overflow exactly where a usize doesn't hold the count of slots.
pub fn canonical_boolean(
    alloc: Global,
    array: &BooleanArray,
    dtype: &ArrowDataType,
    runs: &[Run],
) -> Result<BooleanArray, GrowError>
    requires of_type { IsTypeFor (seen dtype.now) (boolean_layout array.now) }
    requires within { AreWithin (len array.now.values.bits) runs.now }
    ensures ok { let l = canon_of_runs (seen dtype.now) (boolean_layout array.now) runs.now in
        IfOk result (λ a. (boolean_layout a ≡ l) × Fits l) }
    ensures overflow { let l = canon_of_runs (seen dtype.now) (boolean_layout array.now) runs.now in
        IsErrOf result grow.Overflow → Fits l → ⊥ }
{
    let Some(count) = count_slots(runs) else {
        return Err(GrowError::Overflow);
    };
    Ok(picked_array(alloc, array, dtype, runs, count)?)
}

/// The canonical array of n picked slots.
fn picked_array(
    alloc: Global,
    array: &BooleanArray,
    dtype: &ArrowDataType,
    runs: &[Run],
    count: usize,
) -> Mem<BooleanArray>
    requires of_type { IsTypeFor (seen dtype.now) (boolean_layout array.now) }
    requires within { AreWithin (len array.now.values.bits) runs.now }
    requires counted { count ≡ len (places runs.now) }
    ensures { let l = canon_of_runs (seen dtype.now) (boolean_layout array.now) runs.now in
        IfOk result (λ a. (boolean_layout a ≡ l) × Fits l) }
{
    array.invariant();
    let validity = mask_of_runs(alloc, array.validity(), runs)?;
    let values = picked_values(alloc, array, validity.as_ref(), runs)?;
    let dtype = dtype.try_clone(alloc)?;
    Ok(BooleanArray::new(dtype, values, validity))
}

/// The bits of picked slots under their mask, false for nulls.
fn picked_values(
    alloc: Global,
    array: &BooleanArray,
    validity: Option<&Bitmap>,
    runs: &[Run],
) -> Mem<Bitmap>
    requires fits { MaskHasLength array.now.mask (len array.now.values.bits) }
    requires within { AreWithin (len array.now.values.bits) runs.now }
    requires mask { option_copied validity ≡ picked_mask array.now.mask (places runs.now) }
    ensures { IfOk result (λ b.
        b ≡ plain (values_or false (picks None (slots array.now) (places runs.now)))) }
{
    let bits = bits_of_runs(alloc, Some(array.values()), runs)?;
    match validity {
        None => Ok(bits),
        Some(mask) => bits.and(alloc, mask),
    }
}
