//! The canonical arrays of binary values and of strings by views.
ghost use Rattle.std.specs.Prelude.{◌≡◌, ◌^◌, ◌≤◌, ◌<◌, nat_le, map, sum, length as len, [], slice_get, Some, IfOk, IsErrOf};
ghost use Rattle.arrow_types.specs.Seen.{seen};
ghost use Rattle.arrow_types.specs.declared.error.GrowError.TheVariants as grow;
ghost use Rattle.arrow_flat.specs.Natives.{octets};
ghost use Rattle.arrow_flat.specs.Primitives.{MaskHasLength};
ghost use Rattle.arrow_views.specs.ViewArrays.{IsSound, slots};
ghost use Rattle.arrow_layout.specs.Fits.{Fits};
ghost use Rattle.arrow_meaning.specs.Nodes.{view_layout};
ghost use Rattle.arrow_canon.specs.Picks.{pick, picks, IsTypeFor};
ghost use Rattle.arrow_canon.specs.Runs.{places, AreWithin, canon_of_runs};
ghost use Rattle.arrow_canon.specs.Steps.{values_or};

use crate::mask::mask_of_runs;
use crate::run::{Run, count_slots, places_of_runs};
use arrow_buffers::Buffer;
use arrow_types::{ArrowDataType, GrowError, Mem};
use arrow_views::{BinaryValues, BinaryViewArrayGeneric, ViewType, pack_values};
use std::alloc::Global;

/// The most bytes that the values of a canonical array of views have together.
const MOST_BYTES: usize = 1 << 62;

/// The canonical array of the slots that runs pick, of a type laid out as the array's: the view of
/// sixteen zero bytes for a null, and the values of more than twelve bytes one after another in
/// slot order, in buffers of at most 2^32 - 1 bytes each, where the next begins as a value would
/// make one longer.
///
/// Overflow exactly where a usize doesn't hold the count of slots, or the values have more than
/// 2^62 bytes together. More bytes than there is memory are refused before one is copied, however
/// often views share them.
pub fn canonical_view<T: ViewType>(
    alloc: Global,
    array: &BinaryViewArrayGeneric<T>,
    dtype: &ArrowDataType,
    runs: &[Run],
) -> Result<BinaryViewArrayGeneric<T>, GrowError>
    requires of_type { IsTypeFor (seen dtype.now) (view_layout array.now) }
    requires within { AreWithin (len array.now.views) runs.now }
    ensures ok { let l = canon_of_runs (seen dtype.now) (view_layout array.now) runs.now in
        IfOk result (λ a. (view_layout a ≡ l) × Fits l) }
    ensures overflow { let l = canon_of_runs (seen dtype.now) (view_layout array.now) runs.now in
        IsErrOf result grow.Overflow → Fits l → ⊥ }
{
    let Some(count) = count_slots(runs) else {
        return Err(GrowError::Overflow);
    };
    counted_array(alloc, array, dtype, runs, count)
}

/// The canonical array of n picked slots.
fn counted_array<T: ViewType>(
    alloc: Global,
    array: &BinaryViewArrayGeneric<T>,
    dtype: &ArrowDataType,
    runs: &[Run],
    count: usize,
) -> Result<BinaryViewArrayGeneric<T>, GrowError>
    requires of_type { IsTypeFor (seen dtype.now) (view_layout array.now) }
    requires within { AreWithin (len array.now.views) runs.now }
    requires counted { count ≡ len (places runs.now) }
    ensures ok { let l = canon_of_runs (seen dtype.now) (view_layout array.now) runs.now in
        IfOk result (λ a. (view_layout a ≡ l) × Fits l) }
    ensures overflow { let l = canon_of_runs (seen dtype.now) (view_layout array.now) runs.now in
        IsErrOf result grow.Overflow → Fits l → ⊥ }
{
    array.invariant();
    let positions = places_of_runs(alloc, runs, count)?;
    let values = PickedValues {
        array,
        places: positions.as_slice(),
    };
    if !are_within_limit(&values) {
        return Err(GrowError::Overflow);
    }
    Ok(packed_array(alloc, &values, dtype, runs)?)
}

/// Whether the values have at most 2^62 bytes together.
fn are_within_limit<A: BinaryValues>(values: &A) -> bool
    ensures { result ≡ nat_le (sum (map len (A.values values.now))) (2 ^ 62) }
{
    let mut total = 0;
    for i in 0..values.value_count() {
        let length = values.value_at(i).len();
        if length > MOST_BYTES - total {
            return false;
        }
        total += length;
    }
    true
}

/// The canonical array of picked slots whose values don't have too many bytes.
fn packed_array<T: ViewType>(
    alloc: Global,
    values: &PickedValues<'_, T>,
    dtype: &ArrowDataType,
    runs: &[Run],
) -> Mem<BinaryViewArrayGeneric<T>>
    requires of_type { IsTypeFor (seen dtype.now) (view_layout values.now.array.now) }
    requires within { AreWithin (len values.now.array.now.views) runs.now }
    requires counted { len (places runs.now) < 2 ^ 64 }
    requires places { values.now.places.now ≡ places runs.now }
    requires few { sum (map len (picks [] (values_or [] (slots values.now.array.now))
        (places runs.now))) ≤ 2 ^ 62 }
    ensures { IfOk result (λ a. view_layout a
        ≡ canon_of_runs (seen dtype.now) (view_layout values.now.array.now) runs.now) }
{
    let array = values.array;
    invariant(array);
    array.data_buffers();
    let (views, buffers) = pack_values(alloc, values)?;
    let views = Buffer::from_vec(alloc, views)?;
    let validity = mask_of_runs(alloc, array.validity(), runs)?;
    let dtype = dtype.try_clone(alloc)?;
    Ok(BinaryViewArrayGeneric::new(dtype, views, buffers, validity))
}

/// For proofs alone: what the array keeps.
fn invariant<T: ViewType>(array: &BinaryViewArrayGeneric<T>)
    ensures sound { IsSound T.IS_TEXT array.now.dtype array.now.mask array.now.views
        array.now.buffers }
    ensures counted { len array.now.views < 2 ^ 64 }
{
    array.invariant();
    array.len();
}

/// The bytes of a slot, none for a null.
fn slot_bytes<T: ViewType>(array: &BinaryViewArrayGeneric<T>, i: usize) -> &[u8]
    requires slot { i < len array.now.views }
    requires fits { MaskHasLength array.now.mask (len array.now.views) }
    ensures { slice_get (values_or [] (slots array.now)) i ≡ Some (octets result.now) }
{
    if array.is_valid(i) {
        array.value_bytes(i)
    } else {
        &[]
    }
}

/// The bytes of the slot at a place, none where there is none.
fn picked_bytes<T: ViewType>(array: &BinaryViewArrayGeneric<T>, place: Option<usize>) -> &[u8]
    ensures { octets result.now ≡ pick [] (values_or [] (slots array.now)) place }
{
    array.invariant();
    let Some(i) = place else {
        return &[];
    };
    if i < array.len() {
        slot_bytes(array, i)
    } else {
        &[]
    }
}

/// The values of the slots of an array at places, none for a null.
#[derive(Drop)]
struct PickedValues<'a, T: ViewType> {
    array: &'a BinaryViewArrayGeneric<T>,
    places: &'a [Option<usize>],
}

impl<'a, T: ViewType> BinaryValues for PickedValues<'a, T> {
    ghost use Rattle.arrow_views.specs.ViewArrays.{slots};
    ghost use Rattle.arrow_canon.specs.Picks.{picks};
    ghost use Rattle.arrow_canon.specs.Steps.{values_or};

    ghost values = { λ s. picks [] (values_or [] (slots s.array.now)) s.places.now };

    fn value_count(&self) -> usize {
        self.places.len()
    }

    fn value_at(&self, i: usize) -> &[u8] {
        picked_bytes(self.array, self.places[i])
    }
}
