//! What every growable does.
ghost use Rattle.std.specs.Prelude.{◌≡◌, ◌⊎◌, ◌<◌, replicate, true, false, length as count};
ghost use Rattle.arrow_layout.specs.Cut.{part};
ghost use Rattle.arrow_layout.specs.SlotsOf.{fill};
ghost use Rattle.arrow_grow_flat.specs.Grown.{Boxes, Grown, Grows, IsSound, IsWithin, copied, source, source_count};

use arrow_meaning::ArrayRef;
use arrow_types::{GrowError, Mem};

/// Grows a list out of the slots of arrays of one type.
pub trait Growable: Drop {
    ghost seen: { Self → Grown };

    /// For proofs alone: what a growable keeps.
    fn invariant(&self)
        ensures { IsSound (seen self.now) };

    /// The count of arrays that it was made of; usize::MAX for a growable of nulls.
    fn array_count(&self) -> usize
        ensures { result ≡ source_count (seen self.now) };

    /// The count of slots of an array that it was made of.
    fn array_len(&self, index: usize) -> usize
        requires { index < source_count (seen self.now) }
        ensures { result ≡ count (source (seen self.now) index) };

    /// The count of slots that have grown.
    fn len(&self) -> usize
        ensures { (seen self.now).failed ≡ false → result ≡ count (seen self.now).slots };

    /// Whether nulls may be appended.
    fn takes_nulls(&self) -> bool
        ensures { result ≡ (seen self.now).takes_nulls };

    /// Whether a call of it was refused.
    fn is_failed(&self) -> bool
        ensures { result ≡ (seen self.now).failed };

    /// Appends `len` slots of an array, from `start` on.
    ///
    /// Overflow exactly where the list with them doesn't fit. A refused call leaves the growable
    /// failed.
    fn extend(&mut self, index: usize, start: usize, len: usize) -> Result<(), GrowError>
        requires { IsWithin (seen self.old) index start len }
        ensures { let slots = part start len (source (seen self.old) index) in
            Grows (seen self.old) slots (seen self.new) result };

    /// Appends the slots that `extend` appends, `copies` times one after another. Refused as
    /// `extend` is.
    fn extend_copies(
        &mut self,
        index: usize,
        start: usize,
        len: usize,
        copies: usize,
    ) -> Result<(), GrowError>
        requires { IsWithin (seen self.old) index start len }
        ensures { let slots = part start len (source (seen self.old) index) in
            Grows (seen self.old) (copied copies slots) (seen self.new) result };

    /// Appends the slot that says nothing `additional` times: null, and for a union that of its
    /// first field. Refused as `extend` is.
    fn extend_validity(&mut self, additional: usize) -> Result<(), GrowError>
        requires alive { (seen self.old).failed ≡ false }
        requires nulls { (additional ≡ 0) ⊎ ((seen self.old).takes_nulls ≡ true) }
        ensures { let slots = replicate additional (fill (seen self.old).dtype) in
            Grows (seen self.old) slots (seen self.new) result };

    /// The array of the list, which is empty afterwards. A refused call leaves the growable failed.
    fn as_box(&mut self) -> Mem<ArrayRef>
        requires { (seen self.old).failed ≡ false }
        ensures { Boxes (λ l. l) (seen self.old) (seen self.new) result };
}
