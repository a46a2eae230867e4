//! What canonical fixed-size lists have of picked slots.
ghost use Rattle.std.specs.Prelude.{◌≡◌, ◌++◌, ◌*◌, ◌^◌, ◌<◌, ◌≤◌, length as len, flat_map, IfOk, OnOk, IsErrOf};
ghost use Rattle.std.specs.Option.{option_copied};
ghost use Rattle.arrow_types.specs.declared.error.GrowError.TheVariants as grow;
ghost use Rattle.arrow_flat.specs.Primitives.{MaskHasLength};
ghost use Rattle.arrow_canon.specs.Picks.{picked_mask};
ghost use Rattle.arrow_canon.specs.Runs.{places, places_of, IsWithin, AreWithin};
ghost use Rattle.arrow_items.specs.Items.{kept_places, chunk_places};

use crate::joined::{push_fill, push_slots};
use crate::struct_::struct_parts;
use arrow_buffers::Bitmap;
use arrow_canon::Run;
use arrow_types::GrowError;
use std::alloc::Global;

/// The runs of the children's slots, and the mask, of canonical fixed-size lists or structs.
#[derive(Drop)]
pub struct ItemParts {
    pub items: Vec<Run>,
    pub validity: Option<Bitmap>,
}

/// What canonical fixed-size lists have of picked ones: a null has as many fillings as a list has
/// items.
///
/// Overflow only where a usize doesn't hold the count of the items.
pub fn chunk_parts(
    alloc: Global,
    size: usize,
    slots: usize,
    validity: Option<&Bitmap>,
    runs: &[Run],
) -> Result<ItemParts, GrowError>
    requires within { AreWithin slots runs.now }
    requires mask { MaskHasLength (option_copied validity) slots }
    requires room { slots * size < 2 ^ 64 }
    ensures items { let ps = kept_places (option_copied validity.entry) (places runs.now) in
        IfOk result (λ p. places p.items.items ≡ flat_map (chunk_places size) ps) }
    ensures inside { IfOk result (λ p. AreWithin (slots * size) p.items.items) }
    ensures mask { IfOk result (λ p.
        p.validity ≡ picked_mask (option_copied validity.entry) (places runs.now)) }
    ensures overflow { let ps = kept_places (option_copied validity.entry) (places runs.now) in
        IsErrOf result grow.Overflow → 2 ^ 64 ≤ len (flat_map (chunk_places size) ps) }
{
    let kept = struct_parts(alloc, validity, runs)?;
    let items = chunk_runs(alloc, size, slots, kept.items.as_slice())?;
    Ok(ItemParts {
        items,
        validity: kept.validity,
    })
}

/// The runs of the items of the fixed-size lists that the runs pick.
///
/// Overflow only where a usize doesn't hold their count.
fn chunk_runs(alloc: Global, size: usize, slots: usize, runs: &[Run]) -> Result<Vec<Run>, GrowError>
    requires within { AreWithin slots runs.now }
    requires room { slots * size < 2 ^ 64 }
    ensures places { IfOk result
        (λ v. places v.items ≡ flat_map (chunk_places size) (places runs.now)) }
    ensures inside { IfOk result (λ v. AreWithin (slots * size) v.items) }
    ensures overflow { IsErrOf result grow.Overflow
        → 2 ^ 64 ≤ len (flat_map (chunk_places size) (places runs.now)) }
{
    let mut items = Vec::new(alloc);
    for run in runs {
        push_chunks(&mut items, size, slots, *run)?;
    }
    Ok(items)
}

/// Appends the items of a run of fixed-size lists.
fn push_chunks(items: &mut Vec<Run>, size: usize, slots: usize, run: Run) -> Result<(), GrowError>
    requires within { IsWithin slots run }
    requires room { slots * size < 2 ^ 64 }
    ensures places { OnOk result (places items.new.items
        ≡ places items.old.items ++ flat_map (chunk_places size) (places_of run)) }
    ensures inside { OnOk result (AreWithin (slots * size) items.old.items
        → AreWithin (slots * size) items.new.items) }
    ensures overflow { IsErrOf result grow.Overflow
        → 2 ^ 64 ≤ len (flat_map (chunk_places size) (places_of run)) }
{
    match run {
        Run::Slots { start, length } => {
            push_slots(items, start * size, length * size)?;
            Ok(())
        }
        Run::Fill { count } => {
            let Some(total) = count.checked_mul(size) else {
                return Err(GrowError::Overflow);
            };
            push_fill(items, total)?;
            Ok(())
        }
    }
}
