//! Builders of values without nulls, over which a mask may stand.
ghost use Rattle.std.specs.Prelude.{◌≡◌, ◌≤◌, [], ◌∷◌, true, List, length, MatchResult, IfOk, IsTrue};
ghost use Rattle.arrow_types.specs.TypeData.{TypeData};
ghost use Rattle.arrow_types.specs.Seen.{seen as type_of};
ghost use Rattle.arrow_flat.specs.Slots.{Slot, is_valid};
ghost use Rattle.arrow_flat.specs.Built.{Takes, IsUnchanged, IsCutTo, ExtendsFrom};
ghost use Rattle.arrow_flat.specs.Primitives.{MaskHasLength};
ghost use Rattle.arrow_layout.specs.Layouts.{Layout};
ghost use Rattle.arrow_push.specs.Arrays.{HoldsValues};
ghost use Rattle.arrow_push.specs.Masks.{finished_under, Finished};
ghost use Rattle.arrow_push.specs.Nulls.{AreValid};

use crate::TryPush;
use arrow_buffers::Bitmap;
use arrow_flat::Building;
use arrow_types::{ArrowDataType, Mem, PolarsResult};
use std::alloc::Global;

/// What all builders of values keep: values stand as they were pushed, none is null, and some value
/// stands in a null's place.
pub trait ValuesLaws: Building {
    ghost blank: { TypeData → Slot };

    ghost whole: { (b : Self) → IsTrue (Self.seen b).whole };

    ghost plain: { (b : Self) (ys : List Slot) → (Self.seen b).landing ys ≡ ys };

    ghost valid: { (b : Self) → AreValid (Self.seen b).slots };
}

/// A pushed value is never null.
pub trait SolidValues<A>: TryPush<A> {
    ghost solid: { (x : A) (y : Slot) → Self.TryPush.stands_for x y → is_valid y ≡ true };

    ghost solid_begun: { (x : A) (y : Slot) → Self.TryPush.begins x y → is_valid y ≡ true };
}

/// A builder of values without nulls.
pub trait ValuesBuilder: ValuesLaws {
    /// The array of such values.
    type Array: Drop;

    ghost finished: { Self.Array → Finished };

    ghost layout: { Self.Array → Layout };

    /// The type of the array.
    fn dtype(&self) -> &ArrowDataType
        ensures { type_of result.now ≡ (Self.seen self.now).dtype };

    /// The count of values.
    fn len(&self) -> usize
        ensures { result ≡ length (Self.seen self.now).slots };

    /// The memory that the builder grows in.
    fn allocator(&self) -> Global;

    /// Appends the value that stands in a null's place. A refused call changes nothing.
    fn push_blank(&mut self) -> Mem<()>
        ensures { let b = Self.blank (Self.seen self.old).dtype in
            MatchResult result
            (λ _. Takes (Self.seen self.old) (Self.seen self.new) (b ∷ []))
            (λ _. IsUnchanged (Self.seen self.old) (Self.seen self.new)) };

    /// Appends the values of a builder of the same type, or none of them.
    fn extend_values(&mut self, other: &Self) -> PolarsResult<()>
        requires { (Self.seen other.now).dtype ≡ (Self.seen self.old).dtype }
        ensures { ExtendsFrom ((Self.seen self.old).refusal (Self.seen other.now).slots) (Unit {0})
            (Self.seen self.old) (Self.seen self.new) (Self.seen other.now).slots result };

    /// Keeps the first `len` values. Takes no memory.
    fn truncate(&mut self, len: usize)
        requires { len ≤ length (Self.seen self.old).slots }
        ensures { IsCutTo len (Self.seen self.old) (Self.seen self.new) };

    /// Makes room for `additional` values more; for bytes or strings of a byte each.
    fn reserve(&mut self, additional: usize) -> Mem<()>
        ensures { Self.seen self.new ≡ Self.seen self.old };

    /// Gives room back that no value needs.
    fn shrink_to_fit(&mut self) -> Mem<()>
        ensures { Self.seen self.new ≡ Self.seen self.old };

    /// The array of the values under a mask. The builder is left empty, where memory is short too.
    fn finish_under(&mut self, validity: Option<Bitmap>) -> Mem<Self::Array>
        requires { MaskHasLength validity (length (Self.seen self.old).slots) }
        ensures value { IfOk result
            (λ a. finished a ≡ finished_under validity (Self.seen self.old)) }
        ensures held { IfOk result (λ a. HoldsValues validity (Self.seen self.old) (layout a)) }
        ensures emptied { IsCutTo 0 (Self.seen self.old) (Self.seen self.new) };
}

/// A builder of values that each have a length of their own.
pub trait ReserveBytes: ValuesBuilder {
    /// Makes room for `additional` values more, of `bytes` bytes together.
    fn reserve_bytes(&mut self, additional: usize, bytes: usize) -> Mem<()>
        ensures { Self.seen self.new ≡ Self.seen self.old };
}

/// A builder of values of one plain type, which is made from nothing.
pub trait FreshValues: ValuesBuilder {
    ghost plain_type: { TypeData };

    /// No values yet.
    fn fresh(alloc: Global) -> Mem<Self>
        ensures slots { IfOk result (λ b. (Self.seen b).slots ≡ []) }
        ensures kind { IfOk result (λ b. (Self.seen b).dtype ≡ plain_type) };
}
