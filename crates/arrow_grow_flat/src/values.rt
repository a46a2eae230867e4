//! The values of a growable of an array without children, over which a mask may stand.
ghost use Rattle.std.specs.Prelude.{◌≡◌, ◌+◌, ◌<◌, ◌≤◌, [], map, replicate, length as count, IfOk, OnOk};
ghost use Rattle.std.specs.Option.{option_copied};
ghost use Rattle.arrow_flat.specs.Primitives.{MaskHasLength};
ghost use Rattle.arrow_flat.specs.Slots.{Slot, null};
ghost use Rattle.arrow_layout.specs.Cut.{part};
ghost use Rattle.arrow_layout.specs.Denote.{denote, validity_of};
ghost use Rattle.arrow_layout.specs.Layouts.{Layout, length_of};
ghost use Rattle.arrow_grow_flat.specs.Grown.{AllOfType, layout_at, shared_type};
ghost use Rattle.arrow_grow_flat.specs.Values.{AreSound, GrowsValues, IsOf, Values};

use arrow_buffers::Bitmap;
use arrow_meaning::ArrayRef;
use arrow_types::{GrowError, Mem};
use std::alloc::Global;

/// Values that grow out of those of arrays of one type, with one for each null too.
pub trait GrowableValues: Drop {
    /// The array of such values.
    type Array: Drop;

    ghost seen: { Self → Values };

    ghost layout: { Self.Array → Layout };

    /// What holds of each value that stands under a null.
    ghost blank: { Slot → Type 0 };

    /// No values yet, out of these arrays, which are shared. Makes room for `capacity` values.
    fn new(alloc: Global, arrays: &[Self::Array], capacity: usize) -> Mem<Self>
        requires some { 0 < count arrays.now }
        requires typed { let ls = map layout arrays.now in AllOfType (shared_type ls) ls }
        ensures { let ls = map layout arrays.now in IfOk result (λ v.
            seen v ≡ record { dtype = shared_type ls; arrays = ls; slots = [] }) };

    /// For proofs alone: what the values keep.
    fn invariant(&self)
        ensures { AreSound (seen self.now) };

    /// The count of arrays.
    fn array_count(&self) -> usize
        ensures { result ≡ count (seen self.now).arrays };

    /// The count of slots of an array.
    fn array_len(&self, index: usize) -> usize
        requires { index < count (seen self.now).arrays }
        ensures { result ≡ length_of (layout_at (seen self.now).arrays index) };

    /// The mask of an array, where it has one.
    fn mask(&self, index: usize) -> Option<&Bitmap>
        requires { index < count (seen self.now).arrays }
        ensures { option_copied result ≡ validity_of (layout_at (seen self.now).arrays index) };

    /// The count of values.
    fn len(&self) -> usize
        ensures { result ≡ count (seen self.now).slots };

    /// Appends values for the `len` slots of an array from `start` on. Overflow exactly where the
    /// slots with them don't fit.
    fn extend(&mut self, index: usize, start: usize, len: usize) -> Result<(), GrowError>
        requires named { index < count (seen self.old).arrays }
        requires reached { start + len ≤ length_of (layout_at (seen self.old).arrays index) }
        ensures { let slots = part start len (denote (layout_at (seen self.old).arrays index)) in
            GrowsValues blank (seen self.old) slots (seen self.new) result };

    /// Appends values that stand for nulls. Overflow exactly where the slots with them don't fit.
    fn extend_nulls(&mut self, additional: usize) -> Result<(), GrowError>
        ensures { GrowsValues blank (seen self.old) (replicate additional null) (seen self.new)
            result };

    /// The array of the values under a mask. None are left.
    fn finish(&mut self, alloc: Global, validity: Option<Bitmap>) -> Mem<Self::Array>
        requires { MaskHasLength validity (count (seen self.old).slots) }
        ensures same_type { (seen self.new).dtype ≡ (seen self.old).dtype }
        ensures same_arrays { (seen self.new).arrays ≡ (seen self.old).arrays }
        ensures empty { OnOk result ((seen self.new).slots ≡ []) }
        ensures made { IfOk result (λ a. IsOf blank validity (seen self.old) (layout a)) };

    /// The array as one of any layout.
    fn boxed(alloc: Global, array: Self::Array) -> Mem<ArrayRef>
        ensures { IfOk result (λ a. a ≡ layout array) };
}
