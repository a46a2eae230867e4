//! The masks of arrays one after another.
ghost use Rattle.std.specs.Prelude.{◌≡◌, ◌<◌, ◌≤◌, ◌^◌, ◌++◌, true, IfErr, IfOk, MatchOption, OnOk};
ghost use Rattle.arrow_buffers.specs.Bits.{plain};
ghost use Rattle.arrow_grow_flat.specs.Validities.{ValiditiesRefused, joined_bits, joined_validities, some_nulls, total_length, validity_bits};

use arrow_buffers::{Bitmap, MutableBitmap};
use arrow_meaning::ArrayRef;
use arrow_types::{GrowError, Mem};
use std::alloc::Global;

/// The masks of the arrays one after another: a set bit for each slot that isn't null, by the
/// masks, and unset ones for null arrays; None exactly where no array has nulls.
///
/// Overflow exactly where an array has nulls and a usize doesn't hold the count of all slots.
pub fn concatenate_validities(
    alloc: Global,
    arrays: &[ArrayRef],
) -> Result<Option<Bitmap>, GrowError>
    ensures ok { IfOk result (λ m. m ≡ joined_validities arrays.now) }
    ensures fits { IfOk result (λ m.
        some_nulls arrays.now ≡ true → total_length arrays.now < 2 ^ 64) }
    ensures refused { IfErr result (λ e. ValiditiesRefused e arrays.now) }
{
    if !any_has_nulls(arrays) {
        return Ok(None);
    }
    let Some(length) = count_slots(arrays) else {
        return Err(GrowError::Overflow);
    };
    Ok(Some(joined_masks(alloc, arrays, length)?))
}

/// Whether one of the arrays has nulls.
fn any_has_nulls(arrays: &[ArrayRef]) -> bool
    ensures { result ≡ some_nulls arrays.now }
{
    for array in arrays {
        if array.has_nulls() {
            return true;
        }
    }
    false
}

/// The count of slots of all arrays; None exactly where a usize doesn't hold it.
fn count_slots(arrays: &[ArrayRef]) -> Option<usize>
    ensures { MatchOption result (2 ^ 64 ≤ total_length arrays.now)
        (λ n. (n ≡ total_length arrays.now) × (n < 2 ^ 64)) }
{
    let mut total: usize = 0;
    for array in arrays {
        match total.checked_add(array.len()) {
            Some(sum) => total = sum,
            None => return None,
        }
    }
    Some(total)
}

/// The bits of the slots of all arrays, with room made for n of them.
fn joined_masks(alloc: Global, arrays: &[ArrayRef], room: usize) -> Mem<Bitmap>
    ensures { IfOk result (λ b. b ≡ plain (joined_bits arrays.now)) }
{
    let mut bits = MutableBitmap::new(alloc);
    bits.reserve(room)?;
    for array in arrays {
        extend_bits(&mut bits, array)?;
    }
    bits.freeze()
}

/// Appends the bits of an array's slots.
fn extend_bits(bits: &mut MutableBitmap, array: &ArrayRef) -> Mem<()>
    ensures { OnOk result (bits.new ≡ bits.old ++ validity_bits array.now) }
{
    array.invariant();
    if array.null_count() == array.len() {
        bits.extend_constant(array.len(), false)?;
        return Ok(());
    }
    match array.validity() {
        Some(mask) => bits.extend_from_range(mask, 0, mask.len())?,
        None => bits.extend_constant(array.len(), true)?,
    }
    Ok(())
}
