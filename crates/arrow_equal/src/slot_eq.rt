//! Equality of arrays of each type.
ghost use Rattle.std.specs.Prelude.{◌≡◌, ◌↔◌, IsTrue};
ghost use Rattle.arrow_layout.specs.Denote.{denote};
ghost use Rattle.arrow_layout.specs.Layouts.{Layout};
ghost use Rattle.arrow_equal.specs.Equal.{AreEqual};

use crate::compare::{equal, same_parts, same_type};
use crate::flat::FlatSlots;
use crate::numbers::NumberNative;
use arrow_bytes::{FixedSizeBinaryArray, OffsetArray};
use arrow_choice::{DictionaryArray, DictionaryKey, UnionArray};
use arrow_flat::{BooleanArray, PrimitiveArray, ViewType};
use arrow_meaning::{ArrayRef, FlatNode, NodeOffset, SizedOffset, TypedArray};
use arrow_nested::{FixedSizeListArray, ListArray, MapArray, NullArray, StructArray};
use arrow_views::BinaryViewArrayGeneric;

/// An array that is compared by its type and its slots, whatever its layout.
pub trait SlotEq {
    ghost layout: { Self → Layout };

    /// Whether the types and the slots are equal, as `equal` compares them. Takes no memory.
    fn slot_eq(&self, other: &Self) -> bool
        ensures { IsTrue result ↔ AreEqual (layout self.now) (layout other.now) };
}

impl SlotEq for ArrayRef {
    ghost layout = { λ a. a };

    fn slot_eq(&self, other: &ArrayRef) -> bool {
        equal(self, other)
    }
}

/// Whether two arrays of one typed array's type are equal.
fn same_typed<T: TypedArray>(lhs: &T, rhs: &T) -> bool
    ensures { IsTrue result ↔ AreEqual (T.layout lhs.now) (T.layout rhs.now) }
{
    equal(lhs.as_ref_array(), rhs.as_ref_array())
}

/// Whether two arrays without children are equal.
fn same_flat<T: FlatSlots>(lhs: &T, rhs: &T) -> bool
    ensures { IsTrue result ↔ AreEqual (T.layout lhs.now) (T.layout rhs.now) }
{
    same_type(lhs.dtype(), rhs.dtype()) && same_slots(lhs, rhs)
}

/// Whether two arrays without children have equal slots.
fn same_slots<T: FlatSlots>(lhs: &T, rhs: &T) -> bool
    ensures { IsTrue result ↔ (denote (T.layout lhs.now) ≡ denote (T.layout rhs.now)) }
{
    FlatNode::invariant(lhs);
    FlatNode::invariant(rhs);
    if lhs.len() != rhs.len() {
        return false;
    }
    for i in 0..lhs.len() {
        if !same_parts(lhs.slot_parts(i), rhs.slot_parts(i)) {
            return false;
        }
    }
    true
}

impl SlotEq for BooleanArray {
    ghost use Rattle.arrow_meaning.specs.Nodes.{boolean_layout};

    ghost layout = { boolean_layout };

    fn slot_eq(&self, other: &BooleanArray) -> bool {
        same_flat(self, other)
    }
}

impl<T: NumberNative> SlotEq for PrimitiveArray<T> {
    ghost use Rattle.arrow_meaning.specs.Nodes.{primitive_layout};

    ghost layout = { primitive_layout T.parts };

    fn slot_eq(&self, other: &PrimitiveArray<T>) -> bool {
        same_flat(self, other)
    }
}

impl<K: ViewType, O: SizedOffset> SlotEq for OffsetArray<K, O> {
    ghost use Rattle.arrow_meaning.specs.Nodes.{binary_layout};

    ghost layout = { binary_layout O.number };

    fn slot_eq(&self, other: &OffsetArray<K, O>) -> bool {
        same_flat(self, other)
    }
}

impl SlotEq for FixedSizeBinaryArray {
    ghost use Rattle.arrow_meaning.specs.Nodes.{fixed_size_binary_layout};

    ghost layout = { fixed_size_binary_layout };

    fn slot_eq(&self, other: &FixedSizeBinaryArray) -> bool {
        same_flat(self, other)
    }
}

impl<T: ViewType> SlotEq for BinaryViewArrayGeneric<T> {
    ghost use Rattle.arrow_meaning.specs.Nodes.{view_layout};

    ghost layout = { view_layout };

    fn slot_eq(&self, other: &BinaryViewArrayGeneric<T>) -> bool {
        same_flat(self, other)
    }
}

impl SlotEq for NullArray {
    ghost layout = { λ a. a };

    fn slot_eq(&self, other: &NullArray) -> bool {
        same_typed(self, other)
    }
}

impl<O: NodeOffset> SlotEq for ListArray<O> {
    ghost layout = { λ a. a };

    fn slot_eq(&self, other: &ListArray<O>) -> bool {
        same_typed(self, other)
    }
}

impl SlotEq for FixedSizeListArray {
    ghost layout = { λ a. a };

    fn slot_eq(&self, other: &FixedSizeListArray) -> bool {
        same_typed(self, other)
    }
}

impl SlotEq for StructArray {
    ghost layout = { λ a. a };

    fn slot_eq(&self, other: &StructArray) -> bool {
        same_typed(self, other)
    }
}

impl SlotEq for MapArray {
    ghost layout = { λ a. a };

    fn slot_eq(&self, other: &MapArray) -> bool {
        same_typed(self, other)
    }
}

impl SlotEq for UnionArray {
    ghost layout = { λ a. a };

    fn slot_eq(&self, other: &UnionArray) -> bool {
        same_typed(self, other)
    }
}

impl<K: DictionaryKey> SlotEq for DictionaryArray<K> {
    ghost layout = { λ a. a };

    fn slot_eq(&self, other: &DictionaryArray<K>) -> bool {
        same_typed(self, other)
    }
}
