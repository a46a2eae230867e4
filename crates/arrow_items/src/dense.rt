//! The runs of the children of dense unions, and the offsets.
ghost use Rattle.std.specs.Prelude.{◌≡◌, ℕ, List, [], ◌∷◌, ◌++◌, ◌+◌, ◌^◌, ◌<◌, ◌≤◌, Some, None, replicate, nat_eq, cond, pos, length as len, map, flat_map, get_or, IfOk, OnOk, IsErrOf};
ghost use Rattle.std.specs.List.{AllByRecursion, range_with_len};
ghost use Rattle.arrow_types.specs.Carried.{IsBelow};
ghost use Rattle.arrow_types.specs.Select.{nat_of};
ghost use Rattle.arrow_types.specs.declared.error.GrowError.TheVariants as grow;
ghost use Rattle.arrow_layout.specs.Canon.{counts_after};
ghost use Rattle.arrow_layout.specs.WellFormed.{AllNamed};
ghost use Rattle.arrow_canon.specs.Picks.{span};
ghost use Rattle.arrow_canon.specs.Runs.{places, places_of, IsWithin, AreWithin};
ghost use Rattle.arrow_items.specs.Dealt.{AllWithin, AreCounts, AreDealt, runs_of};
ghost use Rattle.arrow_items.specs.Unions.{dense_places};

use crate::append::push_run;
use arrow_buffers::Buffer;
use arrow_canon::Run;
use arrow_types::{GrowError, Mem};
use std::alloc::Global;

/// The slots of each child of a dense union, given the field that each slot of the union selects: a
/// filling is one of the field `first`. The slots are dealt out in one pass.
pub fn dense_runs(
    alloc: Global,
    fields: &[usize],
    offsets: &Buffer<i32>,
    first: usize,
    count: usize,
    runs: &[Run],
) -> Mem<Vec<Vec<Run>>>
    requires first { first < count }
    requires fields { AllByRecursion (λ j. j < count) fields.now }
    requires offsets { len offsets.now ≡ len fields.now }
    requires in_range { AllByRecursion (IsBelow (2 ^ 31)) offsets.now }
    requires within { AreWithin (len fields.now) runs.now }
    ensures places { let of_field = dense_places fields.now (map nat_of offsets.now) first in
        IfOk result (λ v. map (λ r. places r.items) v.items
        ≡ map (λ j. flat_map (of_field j) (places runs.now)) (range_with_len 0 count)) }
    ensures inside { IfOk result (λ v. (lengths : List ℕ)
        → AllNamed lengths fields.now (map nat_of offsets.now)
        → (j : ℕ) → AreWithin (get_or lengths j 0) (get_or (map (λ r. r.items) v.items) j [])) }
{
    let mut lists = empty_lists(alloc, count)?;
    for run in runs {
        deal_run(&mut lists, fields, offsets.as_slice(), first, *run)?;
    }
    Ok(lists)
}

/// So many lists without runs.
fn empty_lists(alloc: Global, count: usize) -> Mem<Vec<Vec<Run>>>
    ensures { IfOk result (λ v. runs_of v.items ≡ replicate count []) }
{
    let mut lists = Vec::new(alloc);
    for _ in 0..count {
        lists.push(Vec::new(alloc))?;
    }
    Ok(lists)
}

/// Deals out the slots of a run.
fn deal_run(
    lists: &mut Vec<Vec<Run>>,
    fields: &[usize],
    offsets: &[i32],
    first: usize,
    run: Run,
) -> Mem<()>
    requires first { first < len lists.old.items }
    requires fields { AllByRecursion (λ j. j < len lists.old.items) fields.now }
    requires offsets { len offsets.now ≡ len fields.now }
    requires in_range { AllByRecursion (IsBelow (2 ^ 31)) offsets.now }
    requires within { IsWithin (len fields.now) run }
    ensures dealt { let of_field = dense_places fields.now (map nat_of offsets.now) first in
        OnOk result (AreDealt (λ j. flat_map (of_field j) (places_of run))
        (runs_of lists.old.items) (runs_of lists.new.items)) }
    ensures inside { OnOk result ((lengths : List ℕ)
        → AllNamed lengths fields.now (map nat_of offsets.now)
        → AllWithin lengths (runs_of lists.old.items)
        → AllWithin lengths (runs_of lists.new.items)) }
{
    match run {
        Run::Slots { start, length } => {
            deal_slots(lists, fields, offsets, start, length)?;
            Ok(())
        }
        Run::Fill { count } => {
            push_to(lists, first, Run::Fill { count })?;
            Ok(())
        }
    }
}

/// Deals out n slots from `start` on.
fn deal_slots(
    lists: &mut Vec<Vec<Run>>,
    fields: &[usize],
    offsets: &[i32],
    start: usize,
    length: usize,
) -> Mem<()>
    requires fields { AllByRecursion (λ j. j < len lists.old.items) fields.now }
    requires offsets { len offsets.now ≡ len fields.now }
    requires in_range { AllByRecursion (IsBelow (2 ^ 31)) offsets.now }
    requires within { start + length ≤ len fields.now }
    ensures dealt { let of_field = dense_places fields.now (map nat_of offsets.now) in
        OnOk result ((first : ℕ) → AreDealt (λ j. flat_map (of_field first j) (span start length))
        (runs_of lists.old.items) (runs_of lists.new.items)) }
    ensures inside { OnOk result ((lengths : List ℕ)
        → AllNamed lengths fields.now (map nat_of offsets.now)
        → AllWithin lengths (runs_of lists.old.items)
        → AllWithin lengths (runs_of lists.new.items)) }
{
    for i in start..start + length {
        push_to(lists, fields[i], slot_run(offsets, i))?;
    }
    Ok(())
}

/// The child's slot that a slot's offset names.
fn slot_run(offsets: &[i32], i: usize) -> Run
    requires within { i < len offsets.now }
    requires in_range { AllByRecursion (IsBelow (2 ^ 31)) offsets.now }
    ensures place { places_of result ≡ Some (get_or (map nat_of offsets.now) i 0) ∷ [] }
    ensures inside { (n : ℕ) → get_or (map nat_of offsets.now) i 0 < n → IsWithin n result }
{
    Run::Slots {
        start: offset_at(offsets, i),
        length: 1,
    }
}

/// The offset of a slot.
fn offset_at(offsets: &[i32], i: usize) -> usize
    requires within { i < len offsets.now }
    requires in_range { AllByRecursion (IsBelow (2 ^ 31)) offsets.now }
    ensures { result ≡ get_or (map nat_of offsets.now) i 0 }
{
    offsets[i] as usize
}

/// Appends a run to the list at a position.
fn push_to(lists: &mut Vec<Vec<Run>>, position: usize, run: Run) -> Mem<()>
    requires { position < len lists.old.items }
    ensures dealt { OnOk result (AreDealt (λ j. cond (nat_eq position j) (places_of run) [])
        (runs_of lists.old.items) (runs_of lists.new.items)) }
    ensures inside { OnOk result ((lengths : List ℕ) → IsWithin (get_or lengths position 0) run
        → AllWithin lengths (runs_of lists.old.items)
        → AllWithin lengths (runs_of lists.new.items)) }
{
    push_run(&mut lists[position], run)?;
    Ok(())
}

/// The offset of each slot, by the field that it selects: how many slots before it select the same.
///
/// Overflow exactly where one of them passes an i32.
pub fn offsets_of_fields(
    alloc: Global,
    fields: &[usize],
    count: usize,
) -> Result<Buffer<i32>, GrowError>
    requires { AllByRecursion (λ j. j < count) fields.now }
    ensures ok { let os = map pos (counts_after [] fields.now) in
        IfOk result (λ b. (b ≡ os) × AllByRecursion (IsBelow (2 ^ 31)) os) }
    ensures overflow { let os = map pos (counts_after [] fields.now) in
        IsErrOf result grow.Overflow → AllByRecursion (IsBelow (2 ^ 31)) os → ⊥ }
{
    let offsets = counts_before(alloc, fields, count)?;
    Ok(Buffer::from_vec(alloc, offsets)?)
}

/// How many slots before each select the same field.
fn counts_before(alloc: Global, fields: &[usize], count: usize) -> Result<Vec<i32>, GrowError>
    requires { AllByRecursion (λ j. j < count) fields.now }
    ensures ok { let os = map pos (counts_after [] fields.now) in
        IfOk result (λ v. (v.items ≡ os) × AllByRecursion (IsBelow (2 ^ 31)) os) }
    ensures overflow { let os = map pos (counts_after [] fields.now) in
        IsErrOf result grow.Overflow → AllByRecursion (IsBelow (2 ^ 31)) os → ⊥ }
{
    let mut counts = zeros(alloc, count)?;
    let mut offsets = Vec::new(alloc);
    for field in fields {
        push_count(&mut offsets, &mut counts, *field)?;
    }
    Ok(offsets)
}

/// So many zeros.
fn zeros(alloc: Global, count: usize) -> Mem<Vec<usize>>
    ensures { IfOk result (λ v. v.items ≡ replicate count 0) }
{
    let mut zeros = Vec::new(alloc);
    zeros.resize(count, 0)?;
    Ok(zeros)
}

/// Appends how many slots so far select the field, and counts one more.
fn push_count(
    offsets: &mut Vec<i32>,
    counts: &mut Vec<usize>,
    field: usize,
) -> Result<(), GrowError>
    requires { field < len counts.old.items }
    ensures pushed { OnOk result (offsets.new.items
        ≡ offsets.old.items ++ pos (get_or counts.old.items field 0) ∷ []) }
    ensures counted { OnOk result ((before : List ℕ) → AreCounts counts.old.items before
        → AreCounts counts.new.items (before ++ field ∷ [])) }
    ensures kept { OnOk result (len counts.new.items ≡ len counts.old.items) }
    ensures fits { OnOk result (get_or counts.old.items field 0 < 2 ^ 31) }
    ensures overflow { IsErrOf result grow.Overflow → 2 ^ 31 ≤ get_or counts.old.items field 0 }
{
    let count = counts[field];
    if count > i32::MAX as usize {
        return Err(GrowError::Overflow);
    }
    offsets.push(count as i32)?;
    counts[field] = count + 1;
    Ok(())
}
