//! The runs of the children of sparse unions.
ghost use Rattle.std.specs.Prelude.{◌≡◌, ◌+◌, ◌++◌, ◌∷◌, [], ◌^◌, ◌<◌, ◌≤◌, Some, length as len, map, IfOk, OnOk};
ghost use Rattle.arrow_canon.specs.Picks.{span};
ghost use Rattle.arrow_canon.specs.Runs.{places, places_of, IsWithin, AreWithin};
ghost use Rattle.arrow_items.specs.Unions.{sparse_place};

use crate::append::push_run;
use arrow_canon::Run;
use arrow_types::Mem;
use std::alloc::Global;

/// The slots of the child of a field of a sparse union, given the field that each slot of the union
/// selects: fillings where it selects another.
pub fn sparse_runs(
    alloc: Global,
    fields: &[usize],
    shift: usize,
    field: usize,
    runs: &[Run],
) -> Mem<Vec<Run>>
    requires within { AreWithin (len fields.now) runs.now }
    requires room { shift + len fields.now < 2 ^ 64 }
    ensures places { IfOk result (λ v.
        places v.items ≡ map (sparse_place fields.now shift field) (places runs.now)) }
    ensures inside { IfOk result (λ v. AreWithin (shift + len fields.now) v.items) }
{
    let mut picked = Vec::new(alloc);
    for run in runs {
        push_picked(&mut picked, fields, shift, field, *run)?;
    }
    Ok(picked)
}

/// Appends the child's slots of a run.
fn push_picked(
    picked: &mut Vec<Run>,
    fields: &[usize],
    shift: usize,
    field: usize,
    run: Run,
) -> Mem<()>
    requires within { IsWithin (len fields.now) run }
    requires room { shift + len fields.now < 2 ^ 64 }
    ensures places { OnOk result (places picked.new.items
        ≡ places picked.old.items ++ map (sparse_place fields.now shift field) (places_of run)) }
    ensures inside { OnOk result (AreWithin (shift + len fields.now) picked.old.items
        → AreWithin (shift + len fields.now) picked.new.items) }
{
    match run {
        Run::Slots { start, length } => {
            push_slots(picked, fields, shift, field, start, length)?;
            Ok(())
        }
        Run::Fill { count } => {
            push_run(picked, Run::Fill { count })?;
            Ok(())
        }
    }
}

/// Appends the child's slots of n slots from `start` on.
fn push_slots(
    picked: &mut Vec<Run>,
    fields: &[usize],
    shift: usize,
    field: usize,
    start: usize,
    length: usize,
) -> Mem<()>
    requires within { start + length ≤ len fields.now }
    requires room { shift + len fields.now < 2 ^ 64 }
    ensures places { OnOk result (places picked.new.items
        ≡ places picked.old.items ++ map (sparse_place fields.now shift field) (span start length)) }
    ensures inside { OnOk result (AreWithin (shift + len fields.now) picked.old.items
        → AreWithin (shift + len fields.now) picked.new.items) }
{
    for i in start..start + length {
        push_run(picked, slot_run(fields, shift, field, i))?;
    }
    Ok(())
}

/// The child's slot where a slot selects its field, else a filling.
fn slot_run(fields: &[usize], shift: usize, field: usize, i: usize) -> Run
    requires within { i < len fields.now }
    requires room { shift + len fields.now < 2 ^ 64 }
    ensures place { places_of result ≡ sparse_place fields.now shift field (Some i) ∷ [] }
    ensures inside { IsWithin (shift + len fields.now) result }
{
    if fields[i] == field {
        Run::Slots {
            start: shift + i,
            length: 1,
        }
    } else {
        Run::Fill { count: 1 }
    }
}
