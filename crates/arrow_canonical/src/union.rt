//! Canonical unions: without a shift and with fillings, or with offsets that count.
ghost use Rattle.std.specs.Prelude.{◌≡◌, ◌↔◌, ℕ, List, ◌^◌, ◌++◌, ◌∷◌, [], ◌<◌, IfOk, IsTrue, get_or, length as count, map, replicate};
ghost use Rattle.std.specs.List.{AllByRecursion};
ghost use Rattle.arrow_layout.specs.Canon.{counts_after};
ghost use Rattle.arrow_layout.specs.Canonical.{FillElsewhere};
ghost use Rattle.arrow_layout.specs.Denote.{denote};
ghost use Rattle.arrow_layout.specs.Layouts.{type_of};
ghost use Rattle.arrow_layout.specs.SlotsOf.{fill};
ghost use Rattle.arrow_types.specs.Carried.{IsBelow};
ghost use Rattle.arrow_types.specs.Select.{nat_of};
ghost use Rattle.arrow_canonical.specs.Counted.{AllCounted, AllElsewhere, AreCounts};

use crate::fill::others_are_filled;
use arrow_meaning::ArrayRef;
use arrow_types::Mem;
use std::alloc::Global;

/// Whether each child of a sparse union is as long as the union, and a filling where another field
/// is selected.
pub(crate) fn all_elsewhere(alloc: Global, fields: &[usize], children: &[ArrayRef]) -> Mem<bool>
    ensures { IfOk result (λ b. IsTrue b ↔ AllElsewhere fields.now children.now) }
{
    for k in 0..children.len() {
        if !is_elsewhere(alloc, fields, k, &children[k])? {
            return Ok(false);
        }
    }
    Ok(true)
}

/// The same of the child of field j.
fn is_elsewhere(alloc: Global, fields: &[usize], j: usize, child: &ArrayRef) -> Mem<bool>
    ensures { let d = fill (type_of child.now) in
        IfOk result (λ b. IsTrue b ↔ FillElsewhere d j fields.now (denote child.now)) }
{
    child.invariant();
    if child.len() != fields.len() {
        return Ok(false);
    }
    others_are_filled(alloc, fields, j, child)
}

/// Whether the offsets of a dense union count the slots before that select the same field, and each
/// child has a slot for each that selects it.
pub(crate) fn all_counted(
    alloc: Global,
    fields: &[usize],
    offsets: &[i32],
    children: &[ArrayRef],
) -> Mem<bool>
    requires fields { AllByRecursion (λ j. j < count children.now) fields.now }
    requires offsets { count offsets.now ≡ count fields.now }
    requires in_range { AllByRecursion (IsBelow (2 ^ 31)) offsets.now }
    ensures { IfOk result (λ b. IsTrue b ↔ ((map nat_of offsets.now ≡ counts_after [] fields.now)
        × AllCounted fields.now children.now)) }
{
    let mut counts = zeros(alloc, children.len())?;
    let is_canonical = follow_counts(&mut counts, fields, offsets)
        && have_lengths(children, counts.as_slice());
    drop(counts);
    Ok(is_canonical)
}

/// Whether each offset is how many slots before it select the same field; counts them.
fn follow_counts(counts: &mut Vec<usize>, fields: &[usize], offsets: &[i32]) -> bool
    requires zeros { counts.old.items ≡ replicate (count counts.old.items) 0 }
    requires fields { AllByRecursion (λ j. j < count counts.old.items) fields.now }
    requires offsets { count offsets.now ≡ count fields.now }
    requires in_range { AllByRecursion (IsBelow (2 ^ 31)) offsets.now }
    ensures told { IsTrue result ↔ (map nat_of offsets.now ≡ counts_after [] fields.now) }
    ensures counted { IsTrue result → AreCounts counts.new.items fields.now }
    ensures kept { count counts.new.items ≡ count counts.old.items }
{
    for i in 0..fields.len() {
        if !is_next(counts, fields[i], offset_at(offsets, i)) {
            return false;
        }
    }
    true
}

/// Whether the offset is how many slots so far select the field; if so counts one more.
fn is_next(counts: &mut Vec<usize>, field: usize, offset: usize) -> bool
    requires field { field < count counts.old.items }
    requires offset { offset < 2 ^ 31 }
    ensures told { IsTrue result ↔ (offset ≡ get_or counts.old.items field 0) }
    ensures counted { IsTrue result → (before : List ℕ) → AreCounts counts.old.items before
        → AreCounts counts.new.items (before ++ field ∷ []) }
    ensures kept { count counts.new.items ≡ count counts.old.items }
{
    if offset != counts[field] {
        return false;
    }
    counts[field] = offset + 1;
    true
}

/// The offset of a slot.
fn offset_at(offsets: &[i32], i: usize) -> usize
    requires within { i < count offsets.now }
    requires in_range { AllByRecursion (IsBelow (2 ^ 31)) offsets.now }
    ensures same { result ≡ get_or (map nat_of offsets.now) i 0 }
    ensures small { result < 2 ^ 31 }
{
    offsets[i] as usize
}

/// Whether each child has the length that is counted for it.
fn have_lengths(children: &[ArrayRef], counts: &[usize]) -> bool
    requires { count counts.now ≡ count children.now }
    ensures { (fields : List ℕ) → AreCounts counts.now fields
        → IsTrue result ↔ AllCounted fields children.now }
{
    for k in 0..children.len() {
        if children[k].len() != counts[k] {
            return false;
        }
    }
    true
}

/// So many zeros.
fn zeros(alloc: Global, count: usize) -> Mem<Vec<usize>>
    ensures { IfOk result (λ v. v.items ≡ replicate count 0) }
{
    let mut zeros = Vec::new(alloc);
    zeros.resize(count, 0)?;
    Ok(zeros)
}
