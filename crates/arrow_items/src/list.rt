//! What canonical lists, large lists and maps have of picked slots.
ghost use Rattle.std.specs.Prelude.{◌≡◌, ℕ, ◌++◌, ◌+◌, ◌-◌, ◌<◌, ◌≤◌, pos, length as len, pred, map, flat_map, sum, get_or, IfOk, OnOk, IsErrOf};
ghost use Rattle.std.specs.Option.{option_copied};
ghost use Rattle.arrow_types.specs.Select.{nat_of};
ghost use Rattle.arrow_types.specs.declared.error.GrowError.TheVariants as grow;
ghost use Rattle.arrow_buffers.specs.Offsets.{AreOffsets, end_of};
ghost use Rattle.arrow_flat.specs.Primitives.{MaskHasLength};
ghost use Rattle.arrow_layout.specs.Canon.{offsets as canon_offsets, sums_from};
ghost use Rattle.arrow_layout.specs.WellFormed.{AreOffsetsTo};
ghost use Rattle.arrow_canon.specs.Picks.{picked_mask};
ghost use Rattle.arrow_canon.specs.Runs.{places, places_of, IsWithin, AreWithin};
ghost use Rattle.arrow_items.specs.Items.{kept_places, item_count, item_places};

use crate::joined::push_slots;
use crate::struct_::struct_parts;
use arrow_buffers::{Bitmap, Offset, OffsetError, Offsets, OffsetsBuffer};
use arrow_canon::Run;
use arrow_types::{GrowError, Mem};
use std::alloc::Global;

/// The runs of the items of canonical lists, their offsets and their mask.
#[derive(Drop)]
pub struct ListParts<O: Offset> {
    pub items: Vec<Run>,
    pub offsets: OffsetsBuffer<O>,
    pub validity: Option<Bitmap>,
}

/// What canonical lists have of picked lists: the items follow one another, none for a null, and
/// the offsets begin at 0.
///
/// Overflow exactly where an offset passes the range of its type.
pub fn list_parts<O: Offset>(
    alloc: Global,
    offsets: &OffsetsBuffer<O>,
    validity: Option<&Bitmap>,
    runs: &[Run],
) -> Result<ListParts<O>, GrowError>
    requires within { AreWithin (pred (len offsets.now)) runs.now }
    requires mask { MaskHasLength (option_copied validity) (pred (len offsets.now)) }
    ensures items { let os = map nat_of (map O.number offsets.now) in
        let ps = kept_places (option_copied validity.entry) (places runs.now) in
        IfOk result (λ p. places p.items.items ≡ flat_map (item_places os) ps) }
    ensures inside { let os = map nat_of (map O.number offsets.now) in
        IfOk result (λ p. (top : ℕ) → AreOffsetsTo top os → AreWithin top p.items.items) }
    ensures offsets { let os = map nat_of (map O.number offsets.now) in
        let ps = kept_places (option_copied validity.entry) (places runs.now) in
        IfOk result (λ p. map O.number p.offsets ≡ canon_offsets (map (item_count os) ps)) }
    ensures mask { IfOk result (λ p.
        p.validity ≡ picked_mask (option_copied validity.entry) (places runs.now)) }
    ensures fits { let os = map nat_of (map O.number offsets.now) in
        let ps = kept_places (option_copied validity.entry) (places runs.now) in
        OnOk result (sum (map (item_count os) ps) < O.limit) }
    ensures overflow { let os = map nat_of (map O.number offsets.now) in
        let ps = kept_places (option_copied validity.entry) (places runs.now) in
        IsErrOf result grow.Overflow → O.limit ≤ sum (map (item_count os) ps) }
{
    let kept = struct_parts(alloc, validity, runs)?;
    let items = item_runs(alloc, offsets.as_slice(), kept.items.as_slice())?;
    let offsets = offsets_of_runs(alloc, offsets, kept.items.as_slice())?;
    Ok(ListParts {
        items,
        offsets,
        validity: kept.validity,
    })
}

/// The runs of the items of the lists that the runs pick; a filling has none.
fn item_runs<O: Offset>(alloc: Global, offsets: &[O], runs: &[Run]) -> Mem<Vec<Run>>
    requires sound { AreOffsets O.limit (map O.number offsets.now) }
    requires within { AreWithin (pred (len offsets.now)) runs.now }
    ensures places { let os = map nat_of (map O.number offsets.now) in
        IfOk result (λ v. places v.items ≡ flat_map (item_places os) (places runs.now)) }
    ensures inside { let os = map nat_of (map O.number offsets.now) in
        IfOk result (λ v. (top : ℕ) → AreOffsetsTo top os → AreWithin top v.items) }
{
    let mut items = Vec::new(alloc);
    for run in runs {
        push_items(&mut items, offsets, *run)?;
    }
    Ok(items)
}

/// Appends the items of a run of lists.
fn push_items<O: Offset>(items: &mut Vec<Run>, offsets: &[O], run: Run) -> Mem<()>
    requires sound { AreOffsets O.limit (map O.number offsets.now) }
    requires within { IsWithin (pred (len offsets.now)) run }
    ensures places { let os = map nat_of (map O.number offsets.now) in
        OnOk result (places items.new.items
        ≡ places items.old.items ++ flat_map (item_places os) (places_of run)) }
    ensures inside { let os = map nat_of (map O.number offsets.now) in
        OnOk result ((top : ℕ) → AreOffsetsTo top os → AreWithin top items.old.items
        → AreWithin top items.new.items) }
{
    match run {
        Run::Slots { start, length } => {
            let first = offset_at(offsets, start);
            let end = offset_at(offsets, start + length);
            push_slots(items, first, end - first)?;
            Ok(())
        }
        Run::Fill { .. } => Ok(()),
    }
}

/// The number of the offset at a position.
fn offset_at<O: Offset>(offsets: &[O], i: usize) -> usize
    requires sound { AreOffsets O.limit (map O.number offsets.now) }
    requires within { i < len offsets.now }
    ensures { result ≡ get_or (map nat_of (map O.number offsets.now)) i 0 }
{
    offsets[i].to_usize()
}

/// The offsets from 0 of the lists that the runs pick; a filling is an empty list.
///
/// Overflow exactly where one passes the range of its type.
fn offsets_of_runs<O: Offset>(
    alloc: Global,
    offsets: &OffsetsBuffer<O>,
    runs: &[Run],
) -> Result<OffsetsBuffer<O>, GrowError>
    requires sound { AreOffsets O.limit (map O.number offsets.now) }
    requires within { AreWithin (pred (len offsets.now)) runs.now }
    ensures ok { let os = map nat_of (map O.number offsets.now) in
        IfOk result
        (λ o. map O.number o ≡ canon_offsets (map (item_count os) (places runs.now))) }
    ensures fits { let os = map nat_of (map O.number offsets.now) in
        OnOk result (sum (map (item_count os) (places runs.now)) < O.limit) }
    ensures overflow { let os = map nat_of (map O.number offsets.now) in
        IsErrOf result grow.Overflow → O.limit ≤ sum (map (item_count os) (places runs.now)) }
{
    let mut ends = Offsets::<O>::new(alloc)?;
    for run in runs {
        push_ends(&mut ends, offsets, *run)?;
    }
    Ok(ends.freeze()?)
}

/// Appends the ends of a run of lists, of which the first begins where the last one before ends.
fn push_ends<O: Offset>(
    ends: &mut Offsets<O>,
    offsets: &OffsetsBuffer<O>,
    run: Run,
) -> Result<(), GrowError>
    requires sound { AreOffsets O.limit (map O.number offsets.now) }
    requires within { IsWithin (pred (len offsets.now)) run }
    requires room { end_of (map O.number ends.old) < O.limit }
    ensures ok { let os = map nat_of (map O.number offsets.now) in
        OnOk result (map O.number ends.new ≡ map O.number ends.old
        ++ map pos (sums_from (end_of (map O.number ends.old)) (map (item_count os) (places_of run)))) }
    ensures fits { let os = map nat_of (map O.number offsets.now) in
        OnOk result (end_of (map O.number ends.old) + sum (map (item_count os) (places_of run))
        < O.limit) }
    ensures overflow { let os = map nat_of (map O.number offsets.now) in
        IsErrOf result grow.Overflow
        → O.limit ≤ end_of (map O.number ends.old) + sum (map (item_count os) (places_of run)) }
{
    match run {
        Run::Slots { start, length } => {
            match ends.try_extend_from_slice(offsets, start, length) {
                Ok(()) => Ok(()),
                Err(OffsetError::Overflow) => Err(GrowError::Overflow),
                Err(_) => Err(GrowError::OutOfMemory),
            }
        }
        Run::Fill { count } => {
            ends.extend_constant(count)?;
            Ok(())
        }
    }
}
