//! Counts of slots that grow, and the runs of the children of fixed-size lists and structs.
ghost use Rattle.std.specs.Prelude.{◌≡◌, ◌⊎◌, ◌+◌, ◌*◌, ◌^◌, ◌<◌, ◌≤◌, length as count, flat_map, IfOk, OnOk, IsErrOf, MatchOption};
ghost use Rattle.std.specs.Option.{option_copied};
ghost use Rattle.arrow_types.specs.declared.error.GrowError.TheVariants as grow;
ghost use Rattle.arrow_flat.specs.Primitives.{MaskHasLength};
ghost use Rattle.arrow_canon.specs.Runs.{places, AreWithin};
ghost use Rattle.arrow_items.specs.Items.{chunk_places, kept_places};
ghost use Rattle.arrow_growable.specs.ChildRuns.{AreChunkRuns, AreStructRuns};

use crate::child_runs::{ChildRuns, ItemRuns};
use arrow_buffers::Bitmap;
use arrow_canon::{Run, count_slots};
use arrow_items::{chunk_parts, struct_parts};
use arrow_types::GrowError;
use std::alloc::Global;

/// Counts the slots that runs pick, `copies` times, and gives how many they are once.
///
/// Overflow exactly where a usize doesn't hold the count.
fn count_copies(length: &mut usize, runs: &[Run], copies: usize) -> Result<usize, GrowError>
    requires some { 0 < copies }
    ensures ok { IfOk result (λ n. n ≡ count (places runs.now)) }
    ensures counted { OnOk result (length.new ≡ length.old + count (places runs.now) * copies) }
    ensures few { OnOk result (length.new < 2 ^ 64) }
    ensures overflow { IsErrOf result grow.Overflow
        → 2 ^ 64 ≤ length.old + count (places runs.now) * copies }
{
    let Some(slots) = count_slots(runs) else {
        return Err(GrowError::Overflow);
    };
    match count_after(*length, slots, copies) {
        Some(total) => {
            *length = total;
            Ok(slots)
        }
        None => Err(GrowError::Overflow),
    }
}

/// The count of slots with those that are copied; none where a usize doesn't hold it.
fn count_after(length: usize, slots: usize, copies: usize) -> Option<usize>
    ensures { MatchOption result (2 ^ 64 ≤ length + slots * copies)
        (λ n. n ≡ length + slots * copies) }
{
    match slots.checked_mul(copies) {
        Some(more) => length.checked_add(more),
        None => None,
    }
}

/// Counts picked fixed-size lists, `copies` times, and gives the runs of their items.
///
/// Overflow only where a usize doesn't hold the count of the slots or of the items.
pub fn extend_chunks(
    alloc: Global,
    length: &mut usize,
    size: usize,
    slots: usize,
    validity: Option<&Bitmap>,
    runs: &[Run],
    copies: usize,
) -> Result<ChildRuns, GrowError>
    requires within { AreWithin slots runs.now }
    requires mask { MaskHasLength (option_copied validity) slots }
    requires room { slots * size < 2 ^ 64 }
    requires some { 0 < copies }
    ensures runs { IfOk result
        (AreChunkRuns size slots (option_copied validity.entry) runs.now) }
    ensures counted { OnOk result (length.new ≡ length.old + count (places runs.now) * copies) }
    ensures few { OnOk result (length.new < 2 ^ 64) }
    ensures overflow { let ps = kept_places (option_copied validity.entry) (places runs.now) in
        IsErrOf result grow.Overflow
        → (2 ^ 64 ≤ length.old + count (places runs.now) * copies)
        ⊎ (2 ^ 64 ≤ count (flat_map (chunk_places size) ps)) }
{
    let count = count_copies(length, runs, copies)?;
    let parts = chunk_parts(alloc, size, slots, validity, runs)?;
    Ok(ChildRuns {
        items: ItemRuns::Same(parts.items),
        validity: parts.validity,
        length: count,
    })
}

/// Counts picked structs, `copies` times, and gives the runs of their children.
///
/// Overflow exactly where a usize doesn't hold the count of the slots.
pub fn extend_structs(
    alloc: Global,
    length: &mut usize,
    slots: usize,
    validity: Option<&Bitmap>,
    runs: &[Run],
    copies: usize,
) -> Result<ChildRuns, GrowError>
    requires within { AreWithin slots runs.now }
    requires mask { MaskHasLength (option_copied validity) slots }
    requires some { 0 < copies }
    ensures runs { IfOk result (AreStructRuns slots (option_copied validity.entry) runs.now) }
    ensures counted { OnOk result (length.new ≡ length.old + count (places runs.now) * copies) }
    ensures few { OnOk result (length.new < 2 ^ 64) }
    ensures overflow { IsErrOf result grow.Overflow
        → 2 ^ 64 ≤ length.old + count (places runs.now) * copies }
{
    let count = count_copies(length, runs, copies)?;
    let parts = struct_parts(alloc, validity, runs)?;
    Ok(ChildRuns {
        items: ItemRuns::Same(parts.items),
        validity: parts.validity,
        length: count,
    })
}
