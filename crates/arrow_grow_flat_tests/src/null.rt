//! The growable of nulls, up to as many slots as a usize counts.
use arrow_grow_flat::{Growable, GrowableNull};
use arrow_meaning::TypedArray;
use arrow_types::{ArrowDataType, GrowError};
use std::alloc::Global;
use std::test::Fail;

/// Whether it is a growable of nulls without slots.
fn is_fresh(growable: &GrowableNull) -> bool {
    growable.array_count() == usize::MAX
        && growable.takes_nulls()
        && !growable.is_failed()
        && growable.len() == 0
}

/// Appends the first slots of the first array, so many times; false where it can't be asked.
fn append_copies<G: Growable>(
    growable: &mut G,
    len: usize,
    copies: usize,
) -> Result<bool, GrowError> {
    if growable.is_failed() || growable.array_count() == 0 || growable.array_len(0) < len {
        return Ok(false);
    }
    growable.extend_copies(0, 0, len, copies)?;
    Ok(true)
}

/// Appends the first slots of the last array; false where it can't be asked.
fn append_slots<G: Growable>(growable: &mut G, len: usize) -> Result<bool, GrowError> {
    let index = usize::MAX - 1;
    if growable.is_failed() || growable.array_count() <= index || growable.array_len(index) < len {
        return Ok(false);
    }
    growable.extend(index, 0, len)?;
    Ok(true)
}

/// Appends nulls; false where it can't be asked.
fn append_nulls<G: Growable>(growable: &mut G, additional: usize) -> Result<bool, GrowError> {
    if growable.is_failed() || !growable.takes_nulls() {
        return Ok(false);
    }
    growable.extend_validity(additional)?;
    Ok(true)
}

/// Appends usize::MAX nulls, by products, by slots of a source and by their count; false where it
/// can't be asked.
fn fill(growable: &mut GrowableNull) -> Result<bool, GrowError> {
    Ok(
        append_copies(growable, 1 << 32, 1 << 31)?
            && append_slots(growable, 1 << 62)?
            && append_nulls(growable, (1 << 62) - 1)?
            && growable.len() == usize::MAX,
    )
}

/// A growable of nulls.
#[tactic(auto, using(arrow_flat::proofs::TypeViews::seen_types))]
fn fresh(alloc: Global) -> GrowableNull {
    GrowableNull::new(alloc, ArrowDataType::Null)
}

/// Whether one null more is refused, and it says that it failed.
fn overflows(growable: &mut GrowableNull) -> bool {
    append_nulls(growable, 1) == Err(GrowError::Overflow) && growable.is_failed()
}

/// Whether the nulls grow, come out and grow again, and one more than a usize counts is refused.
fn nulls_grow(alloc: Global) -> Result<bool, Fail> {
    let mut growable = fresh(alloc);
    if !is_fresh(&growable) || !fill(&mut growable)? || growable.is_failed() {
        return Ok(false);
    }
    let array = growable.to()?;
    let length = array.len();
    drop(array);
    let is_empty = is_fresh(&growable);
    let is_full = fill(&mut growable)?;
    Ok(length == usize::MAX && is_empty && is_full && overflows(&mut growable))
}

#[test]
fn nulls_grow_up_to_the_greatest_count(rt: HostRuntime) -> Result<(), Fail> {
    assert!(rt; nulls_grow(rt.alloc())?);
    Ok(())
}
