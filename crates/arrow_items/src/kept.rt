//! Runs of slots under a mask.
ghost use Rattle.std.specs.Prelude.{◌≡◌, ℕ, ◌++◌, ◌+◌, ◌<◌, ◌≤◌, length as len, [], ◌∷◌, Some, IfOk, OnOk};
ghost use Rattle.arrow_canon.specs.Picks.{span};
ghost use Rattle.arrow_canon.specs.Runs.{places, places_of, IsWithin, AreWithin};
ghost use Rattle.arrow_items.specs.Items.{kept_place, kept_places};

use crate::joined::{push_fill, push_slots};
use arrow_buffers::Bitmap;
use arrow_canon::Run;
use arrow_types::Mem;
use std::alloc::{AllocError, Global};

/// The runs of the slots, of fillings where the mask has an unset bit.
pub(crate) fn kept_runs(alloc: Global, mask: &Bitmap, runs: &[Run]) -> Mem<Vec<Run>>
    requires { AreWithin (len mask.now.bits) runs.now }
    ensures places { IfOk result (λ v.
        places v.items ≡ kept_places (Some mask.now) (places runs.now)) }
    ensures inside { IfOk result (λ v. (n : ℕ) → AreWithin n runs.now → AreWithin n v.items) }
{
    let mut kept = Vec::new(alloc);
    for run in runs {
        push_run(&mut kept, mask, *run)?;
    }
    Ok(kept)
}

/// Appends the slots of a run, fillings at an unset bit.
fn push_run(kept: &mut Vec<Run>, mask: &Bitmap, run: Run) -> Mem<()>
    requires { IsWithin (len mask.now.bits) run }
    ensures places { OnOk result (places kept.new.items
        ≡ places kept.old.items ++ kept_places (Some mask.now) (places_of run)) }
    ensures inside { OnOk result ((n : ℕ) → AreWithin n kept.old.items → IsWithin n run
        → AreWithin n kept.new.items) }
{
    match run {
        Run::Slots { start, length } => {
            push_run_slots(kept, mask, start, length)?;
            Ok(())
        }
        Run::Fill { count } => {
            push_fill(kept, count)?;
            Ok(())
        }
    }
}

/// Appends slots that follow one another, fillings at an unset bit.
fn push_run_slots(kept: &mut Vec<Run>, mask: &Bitmap, start: usize, length: usize) -> Mem<()>
    requires { start + length ≤ len mask.now.bits }
    ensures places { OnOk result (places kept.new.items
        ≡ places kept.old.items ++ kept_places (Some mask.now) (span start length)) }
    ensures inside { OnOk result ((n : ℕ) → AreWithin n kept.old.items → start + length ≤ n
        → AreWithin n kept.new.items) }
{
    let Some(end) = start.checked_add(length) else {
        return Err(AllocError);
    };
    for i in start..end {
        push_slot(kept, mask, i)?;
    }
    Ok(())
}

/// Appends a slot, or a filling at an unset bit.
fn push_slot(kept: &mut Vec<Run>, mask: &Bitmap, i: usize) -> Mem<()>
    requires { i < len mask.now.bits }
    ensures places { OnOk result (places kept.new.items
        ≡ places kept.old.items ++ kept_place (Some mask.now) (Some i) ∷ []) }
    ensures inside { OnOk result ((n : ℕ) → AreWithin n kept.old.items → i < n
        → AreWithin n kept.new.items) }
{
    if mask.get_bit(i) {
        push_slots(kept, i, 1)?;
        return Ok(());
    }
    push_fill(kept, 1)?;
    Ok(())
}
