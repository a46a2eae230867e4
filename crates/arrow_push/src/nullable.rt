//! What all builders of slots with nulls have.
ghost use Rattle.std.specs.Prelude.{◌≡◌, ◌<◌, ◌≤◌, ◌↔◌, [], length, slice_get, map, Some, IfSome, IsTrue};
ghost use Rattle.std.specs.Option.{option_copied};
ghost use Rattle.arrow_types.specs.Seen.{seen as type_of};
ghost use Rattle.arrow_flat.specs.Built.{Pushes, IsCutTo};
ghost use Rattle.arrow_flat.specs.Slots.{is_valid as is_valid_slot};
ghost use Rattle.arrow_push.specs.Nulls.{IsNull};

use arrow_buffers::MutableBitmap;
use arrow_flat::Building;
use arrow_types::{ArrowDataType, Mem, PolarsResult};

/// A builder of slots of which any may be null: the calls of `MutableArray` but for the finish.
pub trait NullableBuilder: Building {
    /// The type of the array.
    fn dtype(&self) -> &ArrowDataType
        ensures { type_of result.now ≡ (Self.seen self.now).dtype };

    /// The count of slots.
    fn len(&self) -> usize
        ensures { result ≡ length (Self.seen self.now).slots };

    /// Whether there are no slots.
    fn is_empty(&self) -> bool
        ensures { IsTrue result ↔ (length (Self.seen self.now).slots ≡ 0) }
    {
        self.len() == 0
    }

    /// The mask, where there is one: a set bit for each slot that isn't null.
    fn validity(&self) -> Option<&MutableBitmap>
        ensures bits { IfSome (option_copied result)
            (λ bits. bits ≡ map is_valid_slot (Self.seen self.now).slots) };

    /// Whether the slot isn't null.
    fn is_valid(&self, i: usize) -> bool
        requires { i < length (Self.seen self.now).slots }
        ensures { slice_get (map is_valid_slot (Self.seen self.now).slots) i ≡ Some result };

    /// Appends a null. A refused call leaves the slots, and later pushes do what they would have
    /// done.
    fn push_null(&mut self) -> PolarsResult<()>
        ensures grows { length (Self.seen self.old).slots ≤ length (Self.seen self.new).slots }
        ensures pushed { IsTrue (Self.seen self.old).whole
            → Pushes IsNull IsNull (Self.seen self.old) (Self.seen self.new) result };

    /// Keeps the first `len` slots. Takes no memory.
    fn truncate(&mut self, len: usize)
        requires { len ≤ length (Self.seen self.old).slots }
        ensures { IsCutTo len (Self.seen self.old) (Self.seen self.new) };

    /// Makes room for `additional` slots more.
    fn reserve(&mut self, additional: usize) -> Mem<()>
        ensures { Self.seen self.new ≡ Self.seen self.old };

    /// Gives room back that no slot needs.
    fn shrink_to_fit(&mut self) -> Mem<()>
        ensures { Self.seen self.new ≡ Self.seen self.old };
}
