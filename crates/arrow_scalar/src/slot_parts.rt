//! What a slot is made of: a value, or slots of the children.
ghost use Rattle.std.specs.Prelude.{◌≡◌, ◌<◌, ◌^◌, ◌≤ℤ◌, true, pos, IfOk, Some, get_or, length as count, slice_get};
ghost use Rattle.arrow_choice.specs.Unions.{NamesSlot, indices};
ghost use Rattle.arrow_layout.specs.Layouts.{length_of};
ghost use Rattle.arrow_layout.specs.Masks.{valid_in};
ghost use Rattle.arrow_layout.specs.Paths.{children_of};
ghost use Rattle.arrow_meaning.specs.Nodes.{IsStoredAs, key_layout, key_numbers, primitive_layout};
ghost use Rattle.arrow_types.specs.Carried.{IsBelow};
ghost use Rattle.arrow_types.specs.declared.datatype.PhysicalType.TheVariants as physical;
ghost use Rattle.arrow_scalar.specs.SlotParts.{IsMadeOf};

use arrow_choice::UnionArray;
use arrow_flat::PrimitiveArray;
use arrow_meaning::{ArrayRef, KeyNode, Node, NodeKey, PrimitiveNode, TypedArray};
use arrow_types::Mem;
use std::alloc::Global;

/// The parts of a slot that isn't null: its value, or the slots of children that it is made of.
#[derive(Clone, Copy)]
pub enum SlotParts<'a> {
    /// A bit.
    Bool(bool),
    /// The numbers of the value at the slot's own position.
    Number(&'a PrimitiveNode),
    /// A binary value or a string.
    Bytes(&'a [u8]),
    /// A list: slots of the child from a position on, with their count.
    Items(&'a ArrayRef, usize, usize),
    /// A struct: of each child the slot at its own position.
    Row(&'a [ArrayRef]),
    /// A slot of the dictionary's values.
    Named(&'a ArrayRef, usize),
    /// A union: the type number, and the slot of the child that it selects.
    Chosen(u8, &'a ArrayRef, usize),
}

/// The parts of a slot that isn't null. Takes memory for the slot of a union alone.
pub fn parts_of(alloc: Global, array: &ArrayRef, i: usize) -> Mem<SlotParts<'_>>
    requires within { i < length_of array.now }
    requires valid { valid_in array.now i ≡ true }
    ensures { IfOk result (λ p. IsMadeOf p array.now i) }
{
    match array.node() {
        Node::Boolean(bits) => Ok(SlotParts::Bool(bits.value(i))),
        Node::Primitive(numbers) => Ok(SlotParts::Number(numbers)),
        Node::Binary(values) => Ok(SlotParts::Bytes(values.value(i))),
        Node::LargeBinary(values) => Ok(SlotParts::Bytes(values.value(i))),
        Node::Utf8(values) => Ok(SlotParts::Bytes(values.value(i).as_bytes())),
        Node::LargeUtf8(values) => Ok(SlotParts::Bytes(values.value(i).as_bytes())),
        Node::FixedSizeBinary(values) => Ok(SlotParts::Bytes(values.value(i))),
        Node::BinaryView(values) => Ok(SlotParts::Bytes(values.value(i))),
        Node::Utf8View(values) => Ok(SlotParts::Bytes(values.value(i).as_bytes())),
        Node::List { offsets, child, .. } => {
            let (start, end) = offsets.start_end(i);
            Ok(SlotParts::Items(child, start, end - start))
        }
        Node::LargeList { offsets, child, .. } => {
            let (start, end) = offsets.start_end(i);
            Ok(SlotParts::Items(child, start, end - start))
        }
        Node::Map { offsets, child, .. } => {
            let (start, end) = offsets.start_end(i);
            Ok(SlotParts::Items(child, start, end - start))
        }
        Node::FixedSizeList { size, child, .. } => {
            let _slots = child.len();
            Ok(SlotParts::Items(child, i * *size, *size))
        }
        Node::Struct { children, .. } => Ok(SlotParts::Row(children.as_slice())),
        Node::Dictionary { keys, child, .. } => {
            let _slots = child.len();
            Ok(SlotParts::Named(child, key_position(keys, i)))
        }
        Node::Union { .. } => chosen_of(alloc, array, i),
        Node::Null { .. } => unreachable!(),
    }
}

/// The parts of a slot of a union.
fn chosen_of(alloc: Global, array: &ArrayRef, i: usize) -> Mem<SlotParts<'_>>
    requires within { i < length_of array.now }
    requires union { IsStoredAs physical.Union array.now }
    ensures { IfOk result (λ p. IsMadeOf p array.now i) }
{
    let (field, position) = index_of(alloc, array, i)?;
    match array.node() {
        Node::Union {
            types,
            children,
            ..
        } => {
            let number = type_number(types.as_slice(), i);
            let child = child_at(children.as_slice(), field);
            Ok(SlotParts::Chosen(number, child, position))
        }
        _ => unreachable!(),
    }
}

/// The child at a position.
fn child_at(children: &[ArrayRef], field: usize) -> &ArrayRef
    requires { field < count children.now }
    ensures { result.now ≡ get_or children.now field result.now }
{
    &children[field]
}

/// The type number of a slot.
fn type_number(types: &[i8], i: usize) -> u8
    requires within { i < count types.now }
    requires number { pos 0 ≤ℤ get_or types.now i (pos 0) }
    ensures { slice_get types.now i ≡ Some (pos result) }
{
    match u8::try_from(types[i]) {
        Ok(number) => number,
        Err(_) => unreachable!(),
    }
}

/// The child that a slot of a union selects, and the slot there.
fn index_of(alloc: Global, array: &ArrayRef, i: usize) -> Mem<(usize, usize)>
    requires within { i < length_of array.now }
    requires union { IsStoredAs physical.Union array.now }
    ensures index { IfOk result (λ p. slice_get (indices array.now) i ≡ Some p) }
    ensures within { IfOk result (λ p. NamesSlot (children_of array.now) p) }
{
    match UnionArray::from_array(array.try_clone(alloc)?) {
        Ok(union) => Ok(union.index(i)),
        Err(_) => unreachable!(),
    }
}

/// The position that a key names.
fn key_position(keys: &KeyNode, i: usize) -> usize
    requires within { i < count (key_numbers (key_layout keys.now)) }
    requires names { IsBelow (2 ^ 64) (get_or (key_numbers (key_layout keys.now)) i (pos 0)) }
    ensures { slice_get (key_numbers (key_layout keys.now)) i ≡ Some (pos result) }
{
    match keys {
        KeyNode::Int8(keys) => position_at(keys, i),
        KeyNode::Int16(keys) => position_at(keys, i),
        KeyNode::Int32(keys) => position_at(keys, i),
        KeyNode::Int64(keys) => position_at(keys, i),
        KeyNode::Int128(keys) => position_at(keys, i),
        KeyNode::UInt8(keys) => position_at(keys, i),
        KeyNode::UInt16(keys) => position_at(keys, i),
        KeyNode::UInt32(keys) => position_at(keys, i),
        KeyNode::UInt64(keys) => position_at(keys, i),
    }
}

/// The position that a key of one type names.
fn position_at<K: NodeKey>(keys: &PrimitiveArray<K>, i: usize) -> usize
    requires within { i < count (key_numbers (primitive_layout K.parts keys.now)) }
    requires names { IsBelow (2 ^ 64)
        (get_or (key_numbers (primitive_layout K.parts keys.now)) i (pos 0)) }
    ensures { slice_get (key_numbers (primitive_layout K.parts keys.now)) i ≡ Some (pos result) }
{
    match keys.value(i).to_position() {
        Some(position) => position,
        None => unreachable!(),
    }
}
