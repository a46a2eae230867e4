//! The canonical array of binary values of one size.
ghost use Rattle.std.specs.Prelude.{◌≡◌, ◌*◌, length as len, IfOk, IsErrOf};
ghost use Rattle.arrow_types.specs.Seen.{seen};
ghost use Rattle.arrow_types.specs.declared.error.GrowError.TheVariants as grow;
ghost use Rattle.arrow_bytes.specs.FixedSizeBinaries.{slot_count};
ghost use Rattle.arrow_layout.specs.Fits.{Fits};
ghost use Rattle.arrow_meaning.specs.Nodes.{fixed_size_binary_layout};
ghost use Rattle.arrow_canon.specs.Picks.{IsTypeFor};
ghost use Rattle.arrow_canon.specs.Runs.{places, AreWithin, canon_of_runs};

use crate::joined::joined_bytes;
use crate::mask::mask_of_runs;
use crate::run::{Run, count_slots};
use arrow_buffers::Buffer;
use arrow_bytes::FixedSizeBinaryArray;
use arrow_types::{ArrowDataType, GrowError, Mem};
use std::alloc::Global;

/// The canonical array of the slots that runs pick, of a type laid out as the array's: zeros for
/// nulls.
///
/// Overflow exactly where a usize doesn't hold the count of slots or that of bytes.
pub fn canonical_fixed_size_binary(
    alloc: Global,
    array: &FixedSizeBinaryArray,
    dtype: &ArrowDataType,
    runs: &[Run],
) -> Result<FixedSizeBinaryArray, GrowError>
    requires of_type { IsTypeFor (seen dtype.now) (fixed_size_binary_layout array.now) }
    requires within { AreWithin (slot_count array.now) runs.now }
    ensures ok { let l = canon_of_runs (seen dtype.now) (fixed_size_binary_layout array.now) runs.now in
        IfOk result (λ a. (fixed_size_binary_layout a ≡ l) × Fits l) }
    ensures overflow { let l = canon_of_runs (seen dtype.now) (fixed_size_binary_layout array.now) runs.now in
        IsErrOf result grow.Overflow → Fits l → ⊥ }
{
    array.invariant();
    let Some(count) = count_slots(runs) else {
        return Err(GrowError::Overflow);
    };
    let Some(room) = count.checked_mul(array.size()) else {
        return Err(GrowError::Overflow);
    };
    Ok(picked_array(alloc, array, dtype, runs, room)?)
}

/// The canonical array of picked slots of n bytes together.
fn picked_array(
    alloc: Global,
    array: &FixedSizeBinaryArray,
    dtype: &ArrowDataType,
    runs: &[Run],
    room: usize,
) -> Mem<FixedSizeBinaryArray>
    requires of_type { IsTypeFor (seen dtype.now) (fixed_size_binary_layout array.now) }
    requires within { AreWithin (slot_count array.now) runs.now }
    requires counted { room ≡ len (places runs.now) * array.now.size }
    ensures { let l = canon_of_runs (seen dtype.now) (fixed_size_binary_layout array.now) runs.now in
        IfOk result (λ a. (fixed_size_binary_layout a ≡ l) × Fits l) }
{
    array.invariant();
    let values = joined_bytes(alloc, array, runs, array.size(), room)?;
    let values = Buffer::from_vec(alloc, values)?;
    let validity = mask_of_runs(alloc, array.validity(), runs)?;
    let dtype = dtype.try_clone(alloc)?;
    Ok(FixedSizeBinaryArray::new(dtype, values, validity))
}
