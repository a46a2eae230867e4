//! The slots of arrays without children.
ghost use Rattle.std.specs.Prelude.{◌≡◌, ◌<◌};
ghost use Rattle.arrow_flat.specs.Slots.{null};
ghost use Rattle.arrow_layout.specs.Denote.{under};
ghost use Rattle.arrow_layout.specs.Layouts.{length_of, type_of};
ghost use Rattle.arrow_layout.specs.Masks.{valid_in};
ghost use Rattle.arrow_types.specs.Seen.{seen};
ghost use Rattle.arrow_equal.specs.SlotAt.{slot_at};
ghost use Rattle.arrow_equal.specs.SlotParts.{HasParts, part_count, slot_of};
ghost use Rattle.std.specs.Prelude.{get_or};

use crate::numbers::NumberNative;
use crate::slot_parts::SlotParts;
use arrow_buffers::Offset;
use arrow_bytes::{FixedSizeBinaryArray, OffsetArray};
use arrow_flat::{BooleanArray, PrimitiveArray, ViewType};
use arrow_meaning::{FlatNode, SizedOffset};
use arrow_types::ArrowDataType;
use arrow_views::BinaryViewArrayGeneric;

/// An array without children that is read slot by slot.
pub trait FlatSlots: FlatNode {
    /// The whole type.
    fn dtype(&self) -> &ArrowDataType
        ensures { seen result.now ≡ type_of (Self.layout self.now) };

    /// The count of slots.
    fn len(&self) -> usize
        ensures { result ≡ length_of (Self.layout self.now) };

    /// Whether the slot isn't null.
    fn is_valid(&self, i: usize) -> bool
        requires { i < length_of (Self.layout self.now) }
        ensures { result ≡ valid_in (Self.layout self.now) i };

    /// The value of a slot, also under a null.
    fn value_parts(&self, i: usize) -> SlotParts<'_>
        requires { i < length_of (Self.layout self.now) }
        ensures value { get_or (under (Self.layout self.now)) i null ≡ slot_of result }
        ensures has { HasParts result }
        ensures own { part_count result ≡ 0 };

    /// What a slot is made of.
    final fn slot_parts(&self, i: usize) -> SlotParts<'_>
        requires { i < length_of (Self.layout self.now) }
        ensures value { slot_at (Self.layout self.now) i ≡ slot_of result }
        ensures has { HasParts result }
    {
        FlatNode::invariant(self);
        if self.is_valid(i) {
            self.value_parts(i)
        } else {
            SlotParts::Null
        }
    }
}

impl FlatSlots for BooleanArray {
    fn dtype(&self) -> &ArrowDataType {
        BooleanArray::dtype(self)
    }

    fn len(&self) -> usize {
        BooleanArray::len(self)
    }

    fn is_valid(&self, i: usize) -> bool {
        BooleanArray::is_valid(self, i)
    }

    fn value_parts(&self, i: usize) -> SlotParts<'_> {
        SlotParts::Bool(self.value(i))
    }
}

impl<T: NumberNative> FlatSlots for PrimitiveArray<T> {
    fn dtype(&self) -> &ArrowDataType {
        PrimitiveArray::dtype(self)
    }

    fn len(&self) -> usize {
        PrimitiveArray::len(self)
    }

    fn is_valid(&self, i: usize) -> bool {
        PrimitiveArray::is_valid(self, i)
    }

    fn value_parts(&self, i: usize) -> SlotParts<'_> {
        SlotParts::Number(self.value(i).numbers())
    }
}

impl<K: ViewType, O: SizedOffset> FlatSlots for OffsetArray<K, O> {
    fn dtype(&self) -> &ArrowDataType {
        OffsetArray::dtype(self)
    }

    fn len(&self) -> usize {
        OffsetArray::len(self)
    }

    fn is_valid(&self, i: usize) -> bool {
        OffsetArray::is_valid(self, i)
    }

    fn value_parts(&self, i: usize) -> SlotParts<'_> {
        SlotParts::Bytes(self.value_bytes(i))
    }
}

impl FlatSlots for FixedSizeBinaryArray {
    fn dtype(&self) -> &ArrowDataType {
        FixedSizeBinaryArray::dtype(self)
    }

    fn len(&self) -> usize {
        FixedSizeBinaryArray::len(self)
    }

    fn is_valid(&self, i: usize) -> bool {
        FixedSizeBinaryArray::is_valid(self, i)
    }

    fn value_parts(&self, i: usize) -> SlotParts<'_> {
        SlotParts::Bytes(self.value(i))
    }
}

impl<T: ViewType> FlatSlots for BinaryViewArrayGeneric<T> {
    fn dtype(&self) -> &ArrowDataType {
        BinaryViewArrayGeneric::dtype(self)
    }

    fn len(&self) -> usize {
        BinaryViewArrayGeneric::len(self)
    }

    fn is_valid(&self, i: usize) -> bool {
        BinaryViewArrayGeneric::is_valid(self, i)
    }

    fn value_parts(&self, i: usize) -> SlotParts<'_> {
        SlotParts::Bytes(self.value_bytes(i))
    }
}
