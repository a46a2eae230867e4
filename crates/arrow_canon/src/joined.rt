//! The bytes of picked slots one after another, and where each ends.
ghost use Rattle.std.specs.Prelude.{◌≡◌, ◌+◌, ◌-◌, ◌++◌, ◌≤◌, length as len, [], None, replicate, unwrap_or, IfOk, OnOk};
ghost use Rattle.std.specs.Option.{option_copied};
ghost use Rattle.arrow_flat.specs.Primitives.{masked_values};
ghost use Rattle.arrow_canon.specs.Picks.{picks, span};
ghost use Rattle.arrow_canon.specs.Runs.{places, places_of, IsWithin, AreWithin};
ghost use Rattle.arrow_canon.specs.Steps.{concatenated, lengths};

use crate::run::Run;
use arrow_flat::{ArrayAccessor, ByteString};
use arrow_types::Mem;
use std::alloc::{AllocError, Global};

/// The bytes of the slots that runs pick in order, and n zeros for a null, with room made for
/// `room` bytes.
pub(crate) fn joined_bytes<'a, A: ArrayAccessor<&'a [u8], ByteString>>(
    alloc: Global,
    array: A,
    runs: &[Run],
    zeros: usize,
    room: usize,
) -> Mem<Vec<u8>>
    requires seen { A.seen_slot ≡ option_copied }
    requires within { AreWithin (len (A.values array)) runs.now }
    ensures { let slots = masked_values (A.mask array) (A.values array) in
        IfOk result (λ v. v.items ≡ concatenated zeros (picks None slots (places runs.now))) }
{
    let mut bytes = Vec::new(alloc);
    bytes.reserve(room)?;
    for run in runs {
        push_run(&mut bytes, array, *run, zeros)?;
    }
    Ok(bytes)
}

/// Appends the bytes of a run.
fn push_run<'a, A: ArrayAccessor<&'a [u8], ByteString>>(
    bytes: &mut Vec<u8>,
    array: A,
    run: Run,
    zeros: usize,
) -> Mem<()>
    requires seen { A.seen_slot ≡ option_copied }
    requires within { IsWithin (len (A.values array)) run }
    ensures { let slots = masked_values (A.mask array) (A.values array) in
        OnOk result (bytes.new.items
        ≡ bytes.old.items ++ concatenated zeros (picks None slots (places_of run))) }
{
    match run {
        Run::Slots { start, length } => {
            push_slots(bytes, array, start, length, zeros)?;
            Ok(())
        }
        Run::Fill { count } => {
            push_fill(bytes, count, zeros)?;
            Ok(())
        }
    }
}

/// Appends the bytes of n slots.
fn push_slots<'a, A: ArrayAccessor<&'a [u8], ByteString>>(
    bytes: &mut Vec<u8>,
    array: A,
    start: usize,
    length: usize,
    zeros: usize,
) -> Mem<()>
    requires seen { A.seen_slot ≡ option_copied }
    requires within { start + length ≤ len (A.values array) }
    ensures { let slots = masked_values (A.mask array) (A.values array) in
        OnOk result (bytes.new.items
        ≡ bytes.old.items ++ concatenated zeros (picks None slots (span start length))) }
{
    let Some(end) = start.checked_add(length) else {
        return Err(AllocError);
    };
    for i in start..end {
        push_slot(bytes, array.get(i), zeros)?;
    }
    Ok(())
}

/// Appends the bytes of a slot, or n zeros for a null.
fn push_slot(bytes: &mut Vec<u8>, slot: Option<&[u8]>, zeros: usize) -> Mem<()>
    ensures { OnOk result (bytes.new.items
        ≡ bytes.old.items ++ unwrap_or (option_copied slot.entry) (replicate zeros 0)) }
{
    match slot {
        Some(value) => bytes.extend_from_slice(value),
        None => push_zeros(bytes, zeros),
    }
}

/// Appends n zeros for each of the fillings.
fn push_fill(bytes: &mut Vec<u8>, count: usize, zeros: usize) -> Mem<()>
    ensures { OnOk result (bytes.new.items
        ≡ bytes.old.items ++ concatenated zeros (replicate count None)) }
{
    let Some(total) = count.checked_mul(zeros) else {
        return Err(AllocError);
    };
    push_zeros(bytes, total)?;
    Ok(())
}

/// Appends n zeros.
fn push_zeros(bytes: &mut Vec<u8>, zeros: usize) -> Mem<()>
    ensures { OnOk result (bytes.new.items ≡ bytes.old.items ++ replicate zeros 0) }
{
    let Some(end) = bytes.len().checked_add(zeros) else {
        return Err(AllocError);
    };
    bytes.resize(end, 0)
}

/// The lengths of the slots that runs pick in order, 0 for a null, with room made for n of them.
pub(crate) fn slot_lengths<'a, A: ArrayAccessor<&'a [u8], ByteString>>(
    alloc: Global,
    array: A,
    runs: &[Run],
    room: usize,
) -> Mem<Vec<usize>>
    requires seen { A.seen_slot ≡ option_copied }
    requires within { AreWithin (len (A.values array)) runs.now }
    ensures { let slots = masked_values (A.mask array) (A.values array) in
        IfOk result (λ v. v.items ≡ lengths (picks None slots (places runs.now))) }
{
    let mut lengths = Vec::new(alloc);
    lengths.reserve(room)?;
    for run in runs {
        push_run_lengths(&mut lengths, array, *run)?;
    }
    Ok(lengths)
}

/// Appends the lengths of a run.
fn push_run_lengths<'a, A: ArrayAccessor<&'a [u8], ByteString>>(
    counts: &mut Vec<usize>,
    array: A,
    run: Run,
) -> Mem<()>
    requires seen { A.seen_slot ≡ option_copied }
    requires within { IsWithin (len (A.values array)) run }
    ensures { let slots = masked_values (A.mask array) (A.values array) in
        OnOk result (counts.new.items
        ≡ counts.old.items ++ lengths (picks None slots (places_of run))) }
{
    match run {
        Run::Slots { start, length } => {
            push_lengths(counts, array, start, length)?;
            Ok(())
        }
        Run::Fill { count } => {
            push_no_lengths(counts, count)?;
            Ok(())
        }
    }
}

/// Appends 0 for each of the fillings.
fn push_no_lengths(counts: &mut Vec<usize>, count: usize) -> Mem<()>
    ensures { OnOk result (counts.new.items ≡ counts.old.items ++ replicate count 0) }
{
    let Some(end) = counts.len().checked_add(count) else {
        return Err(AllocError);
    };
    counts.resize(end, 0)
}

/// Appends the lengths of n slots.
fn push_lengths<'a, A: ArrayAccessor<&'a [u8], ByteString>>(
    counts: &mut Vec<usize>,
    array: A,
    start: usize,
    length: usize,
) -> Mem<()>
    requires seen { A.seen_slot ≡ option_copied }
    requires within { start + length ≤ len (A.values array) }
    ensures { let slots = masked_values (A.mask array) (A.values array) in
        OnOk result (counts.new.items
        ≡ counts.old.items ++ lengths (picks None slots (span start length))) }
{
    let Some(end) = start.checked_add(length) else {
        return Err(AllocError);
    };
    for i in start..end {
        counts.push(length_of(array.get(i)))?;
    }
    Ok(())
}

/// The count of bytes of a slot, 0 for a null.
fn length_of(slot: Option<&[u8]>) -> usize
    ensures { result ≡ len (unwrap_or (option_copied slot.entry) []) }
{
    match slot {
        Some(value) => value.len(),
        None => 0,
    }
}
