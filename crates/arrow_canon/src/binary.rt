//! The canonical arrays of binary values and of strings.
ghost use Rattle.std.specs.Prelude.{◌≡◌, ◌^◌, ◌<◌, ◌≤◌, map, sum, length as len, None, IfOk, IsErrOf};
ghost use Rattle.arrow_types.specs.Seen.{seen};
ghost use Rattle.arrow_types.specs.declared.error.GrowError.TheVariants as grow;
ghost use Rattle.arrow_bytes.specs.Binaries.{slot_count, slots};
ghost use Rattle.arrow_layout.specs.Canon.{offsets as canon_offsets};
ghost use Rattle.arrow_layout.specs.Fits.{Fits};
ghost use Rattle.arrow_layout.specs.Layouts.{length_of};
ghost use Rattle.arrow_meaning.specs.Nodes.{binary_layout};
ghost use Rattle.arrow_canon.specs.Picks.{picks, IsTypeFor};
ghost use Rattle.arrow_canon.specs.Runs.{places, AreWithin, canon_of_runs};
ghost use Rattle.arrow_canon.specs.Steps.{lengths};

use crate::joined::{joined_bytes, slot_lengths};
use crate::mask::mask_of_runs;
use crate::run::{Run, count_slots};
use arrow_buffers::{Buffer, Offset, OffsetError, Offsets, OffsetsBuffer};
use arrow_bytes::OffsetArray;
use arrow_flat::ViewType;
use arrow_types::{ArrowDataType, GrowError, Mem};
use std::alloc::Global;

/// The canonical array of the slots that runs pick, of a type laid out as the array's: the bytes
/// follow one another, none for a null, and the offsets begin at 0.
///
/// Overflow exactly where a usize doesn't hold the count of slots, or an offset passes the range of
/// its type.
pub fn canonical_binary<K: ViewType, O: Offset>(
    alloc: Global,
    array: &OffsetArray<K, O>,
    dtype: &ArrowDataType,
    runs: &[Run],
) -> Result<OffsetArray<K, O>, GrowError>
    requires of_type { IsTypeFor (seen dtype.now) (binary_layout O.number array.now) }
    requires within { AreWithin (length_of (binary_layout O.number array.now)) runs.now }
    ensures ok { let l = canon_of_runs (seen dtype.now) (binary_layout O.number array.now) runs.now in
        IfOk result (λ a. (binary_layout O.number a ≡ l) × Fits l) }
    ensures overflow { let l = canon_of_runs (seen dtype.now) (binary_layout O.number array.now) runs.now in
        IsErrOf result grow.Overflow → Fits l → ⊥ }
{
    let Some(count) = count_slots(runs) else {
        return Err(GrowError::Overflow);
    };
    counted_array(alloc, array, dtype, runs, count)
}

/// The canonical array of n picked slots.
fn counted_array<K: ViewType, O: Offset>(
    alloc: Global,
    array: &OffsetArray<K, O>,
    dtype: &ArrowDataType,
    runs: &[Run],
    count: usize,
) -> Result<OffsetArray<K, O>, GrowError>
    requires of_type { IsTypeFor (seen dtype.now) (binary_layout O.number array.now) }
    requires within { AreWithin (slot_count array.now) runs.now }
    requires counted { count ≡ len (places runs.now) }
    ensures ok { let l = canon_of_runs (seen dtype.now) (binary_layout O.number array.now) runs.now in
        IfOk result (λ a. (binary_layout O.number a ≡ l) × Fits l) }
    ensures overflow { let l = canon_of_runs (seen dtype.now) (binary_layout O.number array.now) runs.now in
        IsErrOf result grow.Overflow → Fits l → ⊥ }
{
    array.invariant();
    let lengths = slot_lengths(alloc, array, runs, count)?;
    let offsets = match offsets_from_zero(alloc, lengths.as_slice()) {
        Ok(offsets) => offsets,
        Err(GrowError::Overflow) => return Err(GrowError::Overflow),
        Err(GrowError::OutOfMemory) => return Err(GrowError::OutOfMemory),
    };
    Ok(picked_array(alloc, array, dtype, runs, offsets)?)
}

/// The offsets from 0 of slots of these lengths; Overflow exactly where one passes the range of its
/// type.
fn offsets_from_zero<O: Offset>(
    alloc: Global,
    lengths: &[usize],
) -> Result<OffsetsBuffer<O>, GrowError>
    ensures ok { IfOk result (λ o. map O.number o ≡ canon_offsets lengths.now) }
    ensures fits { IfOk result (λ o. sum lengths.now < O.limit) }
    ensures overflow { IsErrOf result grow.Overflow → O.limit ≤ sum lengths.now }
{
    let mut ends = Offsets::<O>::new(alloc)?;
    match ends.try_extend_from_lengths(lengths) {
        Ok(()) => Ok(ends.freeze()?),
        Err(OffsetError::Overflow) => Err(GrowError::Overflow),
        Err(_) => Err(GrowError::OutOfMemory),
    }
}

/// The canonical array of picked slots between these offsets.
fn picked_array<K: ViewType, O: Offset>(
    alloc: Global,
    array: &OffsetArray<K, O>,
    dtype: &ArrowDataType,
    runs: &[Run],
    offsets: OffsetsBuffer<O>,
) -> Mem<OffsetArray<K, O>>
    requires of_type { IsTypeFor (seen dtype.now) (binary_layout O.number array.now) }
    requires within { AreWithin (slot_count array.now) runs.now }
    requires offsets { map O.number offsets
        ≡ canon_offsets (lengths (picks None (slots O.number array.now) (places runs.now))) }
    ensures { IfOk result (λ a. binary_layout O.number a
        ≡ canon_of_runs (seen dtype.now) (binary_layout O.number array.now) runs.now) }
{
    array.invariant();
    let values = joined_bytes(alloc, array, runs, 0, offsets.last().to_usize())?;
    let values = Buffer::from_vec(alloc, values)?;
    let validity = mask_of_runs(alloc, array.validity(), runs)?;
    let dtype = dtype.try_clone(alloc)?;
    Ok(OffsetArray::new(dtype, offsets, values, validity))
}
