//! The halves of arrays, by their counts.

use arrow_flat::{Splitable, TryClone};
use arrow_types::Mem;
use flat_fixtures::halves;
use std::alloc::Global;

/// The length of an array, and its count of nulls where it has a mask.
pub type Counts = (usize, Option<usize>);

/// An array as its counts.
pub trait Counted {
    fn counts(&self) -> Counts;
}

/// The counts of an array of this length, with n nulls under its mask, if it has one.
pub fn counts_of(length: usize, nulls: usize, has_mask: bool) -> Counts {
    (length, if has_mask { Some(nulls) } else { None })
}

/// Whether a copy has halves of these counts, through the bounds, or none where none are wanted.
pub fn has_halves<A: Counted + Splitable + TryClone + Drop>(
    alloc: Global,
    array: &A,
    offset: usize,
    wanted: Option<(Counts, Counts)>,
) -> Mem<bool> {
    let copy = array.try_clone(alloc)?;
    let halves = halves(alloc, &copy, offset);
    drop(copy);
    let Some((front, rest)) = halves? else {
        return Ok(wanted.is_none());
    };
    let counts = (front.counts(), rest.counts());
    drop(front);
    drop(rest);
    Ok(wanted == Some(counts))
}
