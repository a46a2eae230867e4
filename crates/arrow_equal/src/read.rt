//! The slots of arrays of any layout.
ghost use Rattle.std.specs.Prelude.{◌≡◌, ◌<◌, ◌^◌, ◌≤ℤ◌, true, pos, Some, get_or, length as count, slice_get};
ghost use Rattle.arrow_flat.specs.Slots.{null};
ghost use Rattle.arrow_layout.specs.Denote.{under};
ghost use Rattle.arrow_layout.specs.Layouts.{length_of};
ghost use Rattle.arrow_layout.specs.Masks.{valid_in};
ghost use Rattle.arrow_meaning.specs.Nodes.{IsStoredAs, key_layout, key_numbers, primitive_layout, primitive_node_layout};
ghost use Rattle.arrow_types.specs.Carried.{IsBelow};
ghost use Rattle.arrow_types.specs.declared.datatype.PhysicalType.TheVariants as physical;
ghost use Rattle.arrow_equal.specs.SlotParts.{HasParts, IsMadeOf, part_count, slot_of};

use crate::flat::FlatSlots;
use crate::slot_parts::SlotParts;
use crate::union::index_of;
use arrow_flat::PrimitiveArray;
use arrow_meaning::{ArrayRef, KeyNode, Node, NodeKey, PrimitiveNode};

/// What a slot is made of; a dictionary's is what its key names.
#[cycle(read)]
pub(crate) fn parts_at(array: &ArrayRef, i: usize) -> SlotParts<'_>
    requires { i < length_of array.now }
    ensures { IsMadeOf result array.now i }
{
    array.invariant();
    if array.is_valid(i) {
        valid_parts(array, i)
    } else {
        SlotParts::Null
    }
}

/// What a slot that isn't null by the mask is made of.
#[cycle(read)]
fn valid_parts(array: &ArrayRef, i: usize) -> SlotParts<'_>
    requires within { i < length_of array.now }
    requires valid { valid_in array.now i ≡ true }
    ensures { IsMadeOf result array.now i }
{
    match array.node() {
        Node::Boolean(bits) => bits.value_parts(i),
        Node::Primitive(numbers) => number_parts(numbers, i),
        Node::Binary(values) => values.value_parts(i),
        Node::LargeBinary(values) => values.value_parts(i),
        Node::Utf8(values) => values.value_parts(i),
        Node::LargeUtf8(values) => values.value_parts(i),
        Node::FixedSizeBinary(values) => values.value_parts(i),
        Node::BinaryView(values) => values.value_parts(i),
        Node::Utf8View(values) => values.value_parts(i),
        Node::List { offsets, child, .. } => {
            let (start, end) = offsets.start_end(i);
            SlotParts::Items(child, start, end - start)
        }
        Node::LargeList { offsets, child, .. } => {
            let (start, end) = offsets.start_end(i);
            SlotParts::Items(child, start, end - start)
        }
        Node::Map { offsets, child, .. } => {
            let (start, end) = offsets.start_end(i);
            SlotParts::Items(child, start, end - start)
        }
        Node::FixedSizeList { size, child, .. } => {
            let _slots = child.len();
            SlotParts::Items(child, i * *size, *size)
        }
        Node::Struct { children, .. } => SlotParts::Row(children.as_slice(), i),
        Node::Dictionary { keys, child, .. } => {
            let _slots = child.len();
            parts_at(child, key_position(keys, i))
        }
        Node::Union { .. } => chosen_parts(array, i),
        Node::Null { .. } => unreachable!(),
    }
}

/// The numbers of a slot, also under a null.
fn number_parts(numbers: &PrimitiveNode, i: usize) -> SlotParts<'_>
    requires { i < length_of (primitive_node_layout numbers.now) }
    ensures value { get_or (under (primitive_node_layout numbers.now)) i null ≡ slot_of result }
    ensures has { HasParts result }
    ensures own { part_count result ≡ 0 }
{
    match numbers {
        PrimitiveNode::Int8(array) => array.value_parts(i),
        PrimitiveNode::Int16(array) => array.value_parts(i),
        PrimitiveNode::Int32(array) => array.value_parts(i),
        PrimitiveNode::Int64(array) => array.value_parts(i),
        PrimitiveNode::Int128(array) => array.value_parts(i),
        PrimitiveNode::UInt8(array) => array.value_parts(i),
        PrimitiveNode::UInt16(array) => array.value_parts(i),
        PrimitiveNode::UInt32(array) => array.value_parts(i),
        PrimitiveNode::UInt64(array) => array.value_parts(i),
        PrimitiveNode::DaysMs(array) => array.value_parts(i),
        PrimitiveNode::MonthDayNano(array) => array.value_parts(i),
    }
}

/// What a slot of a union is made of.
fn chosen_parts(array: &ArrayRef, i: usize) -> SlotParts<'_>
    requires within { i < length_of array.now }
    requires union { IsStoredAs physical.Union array.now }
    ensures { IsMadeOf result array.now i }
{
    let (field, position) = index_of(array, i);
    match array.node() {
        Node::Union {
            types,
            children,
            ..
        } => {
            let number = type_number(types.as_slice(), i);
            let child = child_at(children.as_slice(), field);
            SlotParts::Chosen(number, child, position)
        }
        _ => unreachable!(),
    }
}

/// The child at a position.
fn child_at(children: &[ArrayRef], field: usize) -> &ArrayRef
    requires { field < count children.now }
    ensures { result.now ≡ get_or children.now field result.now }
{
    &children[field]
}

/// The type number of a slot.
fn type_number(types: &[i8], i: usize) -> u8
    requires within { i < count types.now }
    requires number { pos 0 ≤ℤ get_or types.now i (pos 0) }
    ensures { slice_get types.now i ≡ Some (pos result) }
{
    match u8::try_from(types[i]) {
        Ok(number) => number,
        Err(_) => unreachable!(),
    }
}

/// The position that a key names.
fn key_position(keys: &KeyNode, i: usize) -> usize
    requires within { i < count (key_numbers (key_layout keys.now)) }
    requires names { IsBelow (2 ^ 64) (get_or (key_numbers (key_layout keys.now)) i (pos 0)) }
    ensures { slice_get (key_numbers (key_layout keys.now)) i ≡ Some (pos result) }
{
    match keys {
        KeyNode::Int8(keys) => position_at(keys, i),
        KeyNode::Int16(keys) => position_at(keys, i),
        KeyNode::Int32(keys) => position_at(keys, i),
        KeyNode::Int64(keys) => position_at(keys, i),
        KeyNode::Int128(keys) => position_at(keys, i),
        KeyNode::UInt8(keys) => position_at(keys, i),
        KeyNode::UInt16(keys) => position_at(keys, i),
        KeyNode::UInt32(keys) => position_at(keys, i),
        KeyNode::UInt64(keys) => position_at(keys, i),
    }
}

/// The position that a key of one type names.
fn position_at<K: NodeKey>(keys: &PrimitiveArray<K>, i: usize) -> usize
    requires within { i < count (key_numbers (primitive_layout K.parts keys.now)) }
    requires names { IsBelow (2 ^ 64)
        (get_or (key_numbers (primitive_layout K.parts keys.now)) i (pos 0)) }
    ensures { slice_get (key_numbers (primitive_layout K.parts keys.now)) i ≡ Some (pos result) }
{
    match keys.value(i).to_position() {
        Some(position) => position,
        None => unreachable!(),
    }
}
