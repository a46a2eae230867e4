//! Offsets that grow.
ghost use Rattle.std.specs.Prelude.{◌≡◌, ℕ, ◌++◌, ◌^◌, ◌<◌, ◌≤◌, List, length as count, map, pred, flat_map, sum, IfOk, OnOk, OnErr, IsErrOf};
ghost use Rattle.std.specs.Option.{option_copied};
ghost use Rattle.arrow_types.specs.Select.{nat_of};
ghost use Rattle.arrow_types.specs.declared.error.GrowError.TheVariants as grow;
ghost use Rattle.arrow_flat.specs.Primitives.{MaskHasLength};
ghost use Rattle.arrow_layout.specs.Canon.{offsets as canon_offsets};
ghost use Rattle.arrow_canon.specs.Runs.{places, AreWithin};
ghost use Rattle.arrow_items.specs.Items.{item_count, kept_places};
ghost use Rattle.arrow_growable.specs.ChildRuns.{AreListRuns};
ghost use Rattle.arrow_growable.specs.Parts.{repeated};

use crate::child_runs::{ChildRuns, ItemRuns};
use arrow_buffers::{Bitmap, Offset, OffsetError, Offsets, OffsetsBuffer};
use arrow_canon::Run;
use arrow_items::list_parts;
use arrow_types::GrowError;
use std::alloc::Global;

/// Appends the ends of picked lists, `copies` times, and gives the runs of their items.
///
/// Overflow exactly where an offset passes the range of its type.
pub fn extend_lists<O: Offset>(
    alloc: Global,
    ends: &mut Offsets<O>,
    offsets: &OffsetsBuffer<O>,
    validity: Option<&Bitmap>,
    runs: &[Run],
    copies: usize,
) -> Result<ChildRuns, GrowError>
    requires within { AreWithin (pred (count offsets.now)) runs.now }
    requires mask { MaskHasLength (option_copied validity) (pred (count offsets.now)) }
    requires some { 0 < copies }
    ensures runs { let os = map nat_of (map O.number offsets.now) in
        IfOk result (AreListRuns os (option_copied validity.entry) runs.now) }
    ensures ends { let os = map nat_of (map O.number offsets.now) in
        let ps = kept_places (option_copied validity.entry) (places runs.now) in
        OnOk result ((ns ms : List ℕ) → map O.number ends.old ≡ canon_offsets ns
        → canon_offsets (map (item_count os) ps) ≡ canon_offsets ms
        → map O.number ends.new ≡ canon_offsets (ns ++ repeated copies ms)) }
    ensures fits { let os = map nat_of (map O.number offsets.now) in
        let ps = kept_places (option_copied validity.entry) (places runs.now) in
        OnOk result ((ns ms : List ℕ) → map O.number ends.old ≡ canon_offsets ns
        → canon_offsets (map (item_count os) ps) ≡ canon_offsets ms
        → sum (ns ++ repeated copies ms) < O.limit) }
    ensures few { OnOk result (pred (count ends.new) < 2 ^ 64) }
    ensures overflow { let os = map nat_of (map O.number offsets.now) in
        let ps = kept_places (option_copied validity.entry) (places runs.now) in
        IsErrOf result grow.Overflow → (ns ms : List ℕ) → map O.number ends.old ≡ canon_offsets ns
        → canon_offsets (map (item_count os) ps) ≡ canon_offsets ms
        → O.limit ≤ sum (ns ++ repeated copies ms) }
{
    let parts = list_parts(alloc, offsets, validity, runs)?;
    match extend_ends(ends, &parts.offsets, copies) {
        Ok(()) => {
            let length = parts.offsets.len_proxy();
            Ok(ChildRuns {
                items: ItemRuns::Same(parts.items),
                validity: parts.validity,
                length,
            })
        }
        Err(refused) => Err(refused),
    }
}

/// Appends the ends of lists, `copies` times.
///
/// Overflow exactly where an offset passes the range of its type.
fn extend_ends<O: Offset>(
    ends: &mut Offsets<O>,
    offsets: &OffsetsBuffer<O>,
    copies: usize,
) -> Result<(), GrowError>
    ensures ends { OnOk result ((ns ms : List ℕ) → map O.number ends.old ≡ canon_offsets ns
        → map O.number offsets.now ≡ canon_offsets ms
        → map O.number ends.new ≡ canon_offsets (ns ++ repeated copies ms)) }
    ensures fits { OnOk result ((ns ms : List ℕ) → map O.number ends.old ≡ canon_offsets ns
        → map O.number offsets.now ≡ canon_offsets ms → sum (ns ++ repeated copies ms) < O.limit) }
    ensures few { OnOk result (pred (count ends.new) < 2 ^ 64) }
    ensures overflow { IsErrOf result grow.Overflow → (ns ms : List ℕ)
        → map O.number ends.old ≡ canon_offsets ns → map O.number offsets.now ≡ canon_offsets ms
        → O.limit ≤ sum (ns ++ repeated copies ms) }
{
    let length = offsets.len_proxy();
    let _slots = ends.len_proxy();
    for _copy in 0..copies {
        push_ends(ends, offsets, length)?;
    }
    let _slots = ends.len_proxy();
    Ok(())
}

/// Appends the ends of n lists once.
fn push_ends<O: Offset>(
    ends: &mut Offsets<O>,
    offsets: &OffsetsBuffer<O>,
    length: usize,
) -> Result<(), GrowError>
    requires all { length ≡ pred (count offsets.now) }
    requires some { 0 < count offsets.now }
    ensures ends { OnOk result ((ns ms : List ℕ) → map O.number ends.old ≡ canon_offsets ns
        → map O.number offsets.now ≡ canon_offsets ms
        → map O.number ends.new ≡ canon_offsets (ns ++ ms)) }
    ensures overflow { IsErrOf result grow.Overflow → (ns ms : List ℕ)
        → map O.number ends.old ≡ canon_offsets ns → map O.number offsets.now ≡ canon_offsets ms
        → O.limit ≤ sum (ns ++ ms) }
{
    match ends.try_extend_from_slice(offsets, 0, length) {
        Ok(()) => Ok(()),
        Err(OffsetError::Overflow) => Err(GrowError::Overflow),
        Err(_) => Err(GrowError::OutOfMemory),
    }
}
