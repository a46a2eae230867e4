//! Cutting in two.
ghost use Rattle.std.specs.Prelude.{◌≡◌, ◌↔◌, ℕ, IfOk, IsTrue};
ghost use Rattle.arrow_flat.specs.Primitives.{HasBound, mask_count, cut_mask};

use crate::validity::{clone_mask, slice_mask};
use arrow_buffers::Bitmap;
use arrow_types::Mem;
use std::alloc::Global;

/// What can be cut in two at a place: an array, or the mask of one.
pub trait Splitable: Sized {
    ghost HasBound: { Self → ℕ → Type 0 };

    ghost front: { Self → ℕ → Self };

    ghost rest: { Self → ℕ → Self };

    /// Whether the offset is at most the length.
    fn check_bound(&self, offset: usize) -> bool
        ensures { IsTrue result ↔ (HasBound self.now offset) };

    /// The first `offset` slots or bits, and the rest. The halves share the buffers; a half's mask
    /// without nulls is dropped.
    fn split_at(&self, alloc: Global, offset: usize) -> Mem<(Self, Self)>
        requires { HasBound self.now offset }
        ensures { IfOk result (λ p. (p.0 ≡ front self.now offset) × (p.1 ≡ rest self.now offset)) };
}

/// A half without an unset bit is None, and None has every bound.
impl Splitable for Option<Bitmap> {
    ghost HasBound = { HasBound };

    ghost use Rattle.std.specs.Prelude.{◌-◌};

    ghost front = { λ m n. cut_mask 0 n m };

    ghost rest = { λ m n. cut_mask n (mask_count m - n) m };

    fn check_bound(&self, offset: usize) -> bool {
        match self {
            None => true,
            Some(mask) => offset <= mask.len(),
        }
    }

    fn split_at(&self, alloc: Global, offset: usize) -> Mem<(Option<Bitmap>, Option<Bitmap>)> {
        let left = match self {
            None => 0,
            Some(mask) => mask.len() - offset,
        };
        let mut front = clone_mask(alloc, self)?;
        slice_mask(&mut front, 0, offset);
        let mut rest = clone_mask(alloc, self)?;
        slice_mask(&mut rest, offset, left);
        Ok((front, rest))
    }
}
