//! The canonical array of values of fixed width.
ghost use Rattle.std.specs.Prelude.{◌≡◌, ◌+◌, ◌-◌, ◌++◌, ◌≤◌, length as len, replicate, IfOk, IsErrOf, OnOk};
ghost use Rattle.arrow_types.specs.Seen.{seen};
ghost use Rattle.arrow_types.specs.declared.error.GrowError.TheVariants as grow;
ghost use Rattle.arrow_flat.specs.Primitives.{slots};
ghost use Rattle.arrow_layout.specs.Fits.{Fits};
ghost use Rattle.arrow_layout.specs.Layouts.{length_of};
ghost use Rattle.arrow_meaning.specs.Nodes.{primitive_layout};
ghost use Rattle.arrow_canon.specs.Picks.{span, picks, IsTypeFor};
ghost use Rattle.arrow_canon.specs.Runs.{places, places_of, IsWithin, AreWithin, canon_of_runs};
ghost use Rattle.arrow_canon.specs.Steps.{values_or};

use crate::mask::mask_of_runs;
use crate::run::{Run, count_slots};
use arrow_buffers::Buffer;
use arrow_flat::{NativeType, PrimitiveArray};
use arrow_types::{ArrowDataType, GrowError, Mem};
use std::alloc::{AllocError, Global};

/// The canonical array of the slots that runs pick, of a type laid out as the array's: zeros for
/// nulls.
///
/// Overflow exactly where a usize doesn't hold the count of slots.
pub fn canonical_primitive<T: NativeType>(
    alloc: Global,
    array: &PrimitiveArray<T>,
    dtype: &ArrowDataType,
    runs: &[Run],
) -> Result<PrimitiveArray<T>, GrowError>
    requires of_type { IsTypeFor (seen dtype.now) (primitive_layout T.parts array.now) }
    requires within { AreWithin (length_of (primitive_layout T.parts array.now)) runs.now }
    ensures ok { let l = canon_of_runs (seen dtype.now) (primitive_layout T.parts array.now) runs.now in
        IfOk result (λ a. (primitive_layout T.parts a ≡ l) × Fits l) }
    ensures overflow { let l = canon_of_runs (seen dtype.now) (primitive_layout T.parts array.now) runs.now in
        IsErrOf result grow.Overflow → Fits l → ⊥ }
{
    let Some(count) = count_slots(runs) else {
        return Err(GrowError::Overflow);
    };
    Ok(picked_array(alloc, array, dtype, runs, count)?)
}

/// The canonical array of n picked slots.
fn picked_array<T: NativeType>(
    alloc: Global,
    array: &PrimitiveArray<T>,
    dtype: &ArrowDataType,
    runs: &[Run],
    count: usize,
) -> Mem<PrimitiveArray<T>>
    requires of_type { IsTypeFor (seen dtype.now) (primitive_layout T.parts array.now) }
    requires within { AreWithin (len array.now.values) runs.now }
    requires counted { count ≡ len (places runs.now) }
    ensures { let l = canon_of_runs (seen dtype.now) (primitive_layout T.parts array.now) runs.now in
        IfOk result (λ a. (primitive_layout T.parts a ≡ l) × Fits l) }
{
    array.invariant();
    let values = picked_values(alloc, array, runs, count)?;
    let values = Buffer::from_vec(alloc, values)?;
    let validity = mask_of_runs(alloc, array.validity(), runs)?;
    let dtype = dtype.try_clone(alloc)?;
    Ok(PrimitiveArray::new(dtype, values, validity))
}

/// The values of picked slots, zeros for nulls, with room made for n of them.
fn picked_values<T: NativeType>(
    alloc: Global,
    array: &PrimitiveArray<T>,
    runs: &[Run],
    room: usize,
) -> Mem<Vec<T>>
    requires { AreWithin (len array.now.values) runs.now }
    ensures { IfOk result (λ v.
        v.items ≡ picks T.zero (values_or T.zero (slots array.now)) (places runs.now)) }
{
    let mut values = Vec::new(alloc);
    values.reserve(room)?;
    for run in runs {
        push_run(&mut values, array, *run)?;
    }
    Ok(values)
}

/// Appends the values of a run.
fn push_run<T: NativeType>(values: &mut Vec<T>, array: &PrimitiveArray<T>, run: Run) -> Mem<()>
    requires { IsWithin (len array.now.values) run }
    ensures { OnOk result (values.new.items ≡ values.old.items
        ++ picks T.zero (values_or T.zero (slots array.now)) (places_of run)) }
{
    match run {
        Run::Slots { start, length } => {
            push_slots(values, array, start, length)?;
            Ok(())
        }
        Run::Fill { count } => {
            push_zeros(values, count)?;
            Ok(())
        }
    }
}

/// Appends the values of n slots, in one step where none of the array's is null.
fn push_slots<T: NativeType>(
    values: &mut Vec<T>,
    array: &PrimitiveArray<T>,
    start: usize,
    length: usize,
) -> Mem<()>
    requires { start + length ≤ len array.now.values }
    ensures { OnOk result (values.new.items ≡ values.old.items
        ++ picks T.zero (values_or T.zero (slots array.now)) (span start length)) }
{
    let source = array.values().as_slice();
    let end = start + length;
    match array.validity() {
        None => {
            values.extend_from_slice(&source[start..end])?;
            Ok(())
        }
        Some(_) => {
            push_masked(values, array, start, end)?;
            Ok(())
        }
    }
}

/// Appends the values of the slots from `start` to `end` one by one, zeros for nulls.
fn push_masked<T: NativeType>(
    values: &mut Vec<T>,
    array: &PrimitiveArray<T>,
    start: usize,
    end: usize,
) -> Mem<()>
    requires rising { start ≤ end }
    requires within { end ≤ len array.now.values }
    ensures { OnOk result (values.new.items ≡ values.old.items
        ++ picks T.zero (values_or T.zero (slots array.now)) (span start (end - start))) }
{
    for i in start..end {
        values.push(array.get(i).unwrap_or(T::zero()))?;
    }
    Ok(())
}

/// Appends n zeros.
fn push_zeros<T: NativeType>(values: &mut Vec<T>, count: usize) -> Mem<()>
    ensures { OnOk result (values.new.items ≡ values.old.items ++ replicate count T.zero) }
{
    let Some(end) = values.len().checked_add(count) else {
        return Err(AllocError);
    };
    values.resize(end, T::zero())
}
