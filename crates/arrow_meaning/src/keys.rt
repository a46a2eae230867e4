//! The keys of dictionaries: primitive arrays of whole numbers.
ghost use Rattle.std.specs.Prelude.{◌≡◌, ◌↔◌, ◌^◌, pos, IfOk, IsTrue, length as count, MatchOption};
ghost use Rattle.std.specs.Option.{option_copied};
ghost use Rattle.arrow_flat.specs.Primitives.{MaskHasLength};
ghost use Rattle.arrow_layout.specs.Denote.{validity_of};
ghost use Rattle.arrow_layout.specs.Layouts.{length_of};
ghost use Rattle.arrow_meaning.specs.Nodes.{AreKeysBelow, key_layout, key_number, key_type_of, primitive_layout};
ghost use Rattle.arrow_types.specs.Carried.{IsBelow};
ghost use Rattle.arrow_types.specs.declared.datatype.IntegerType.{IntegerType};
ghost use Rattle.arrow_types.specs.declared.datatype.IntegerType.TheVariants as integer;

use crate::{FlatNode, NodeNative};
use arrow_buffers::Bitmap;
use arrow_flat::validity::is_valid;
use arrow_flat::{PrimitiveArray, TryClone};
use arrow_types::{IntegerType, Mem};
use std::alloc::Global;

/// The keys of a dictionary, of any type that keys have.
#[derive(Drop)]
pub enum KeyNode {
    /// Whole numbers of 8 bits.
    Int8(PrimitiveArray<i8>),
    /// Whole numbers of 16 bits.
    Int16(PrimitiveArray<i16>),
    /// Whole numbers of 32 bits.
    Int32(PrimitiveArray<i32>),
    /// Whole numbers of 64 bits.
    Int64(PrimitiveArray<i64>),
    /// Whole numbers of 128 bits.
    Int128(PrimitiveArray<i128>),
    /// Whole numbers of 8 bits without a sign.
    UInt8(PrimitiveArray<u8>),
    /// Whole numbers of 16 bits without a sign.
    UInt16(PrimitiveArray<u16>),
    /// Whole numbers of 32 bits without a sign.
    UInt32(PrimitiveArray<u32>),
    /// Whole numbers of 64 bits without a sign.
    UInt64(PrimitiveArray<u64>),
}

/// What `$body` gives of the keys `$array`, of whichever type they are.
macro_rules! of_keys {
    ($node:expr, $array:ident => $body:expr) => {
        match $node {
            KeyNode::Int8($array) => $body,
            KeyNode::Int16($array) => $body,
            KeyNode::Int32($array) => $body,
            KeyNode::Int64($array) => $body,
            KeyNode::Int128($array) => $body,
            KeyNode::UInt8($array) => $body,
            KeyNode::UInt16($array) => $body,
            KeyNode::UInt32($array) => $body,
            KeyNode::UInt64($array) => $body,
        }
    };
}

impl KeyNode {
    /// The count of slots.
    pub fn len(&self) -> usize
        ensures { result ≡ length_of (key_layout self.now) }
    {
        of_keys!(self, array => array.len())
    }

    /// The mask of the dictionary, where there is one.
    pub fn validity(&self) -> Option<&Bitmap>
        ensures { option_copied result ≡ validity_of (key_layout self.now) }
    {
        of_keys!(self, array => array.validity())
    }

    /// Whether each key that is valid under the mask names one of `values` values.
    pub(crate) fn name_values(&self, validity: &Option<Bitmap>, values: usize) -> bool
        requires { MaskHasLength validity.now (length_of (key_layout self.now)) }
        ensures { IsTrue result ↔ AreKeysBelow values validity.now (key_layout self.now) }
    {
        of_keys!(self, array => name_values(array, validity, values))
    }
}

impl TryClone for KeyNode {
    fn try_clone(&self, alloc: Global) -> Mem<KeyNode> {
        match self {
            KeyNode::Int8(array) => array.try_clone(alloc).map(KeyNode::Int8),
            KeyNode::Int16(array) => array.try_clone(alloc).map(KeyNode::Int16),
            KeyNode::Int32(array) => array.try_clone(alloc).map(KeyNode::Int32),
            KeyNode::Int64(array) => array.try_clone(alloc).map(KeyNode::Int64),
            KeyNode::Int128(array) => array.try_clone(alloc).map(KeyNode::Int128),
            KeyNode::UInt8(array) => array.try_clone(alloc).map(KeyNode::UInt8),
            KeyNode::UInt16(array) => array.try_clone(alloc).map(KeyNode::UInt16),
            KeyNode::UInt32(array) => array.try_clone(alloc).map(KeyNode::UInt32),
            KeyNode::UInt64(array) => array.try_clone(alloc).map(KeyNode::UInt64),
        }
    }
}

impl FlatNode for KeyNode {
    ghost use Rattle.arrow_types.specs.declared.datatype.PhysicalType.TheVariants as physical;
    ghost use Rattle.arrow_meaning.specs.Nodes.{key_layout, key_type_of, key_primitive};

    ghost layout = { key_layout };

    ghost physical = { λ n. physical.Primitive (key_primitive (key_type_of n)) };

    fn invariant(&self) {
        of_keys!(self, array => FlatNode::invariant(array))
    }

    fn slice(&mut self, offset: usize, length: usize) {
        of_keys!(self, array => FlatNode::slice(array, offset, length))
    }

    fn set_validity(&mut self, validity: Option<Bitmap>) {
        of_keys!(self, array => FlatNode::set_validity(array, validity))
    }
}

/// A native type that the keys of a dictionary may have.
pub trait NodeKey: NodeNative {
    /// The type of keys as data types name it.
    const KEY_TYPE: IntegerType;

    ghost KEY_TYPE: { IntegerType };

    /// The key as a position, None exactly where it is negative or passes the greatest `usize`.
    fn to_position(self) -> Option<usize>
        ensures { MatchOption result (IsBelow (2 ^ 64) (key_number (Self.parts self)) → ⊥)
            (λ n. key_number (Self.parts self) ≡ pos n) };

    /// A shared copy of the keys, as those of a node.
    fn key_node(alloc: Global, array: &PrimitiveArray<Self>) -> Mem<KeyNode>
        ensures same { IfOk result (λ n. key_layout n ≡ primitive_layout Self.parts array.now) }
        ensures kind { IfOk result (λ n. key_type_of n ≡ KEY_TYPE) };

    /// The keys, None exactly where they are of another type.
    fn of_keys(keys: &KeyNode) -> Option<&PrimitiveArray<Self>>
        ensures { MatchOption result (key_type_of keys.now ≡ KEY_TYPE → ⊥)
            (λ a. primitive_layout Self.parts a.now ≡ key_layout keys.now) };
}

/// Whether each key that is valid under the mask names one of `values` values.
pub fn name_values<K: NodeKey>(
    keys: &PrimitiveArray<K>,
    validity: &Option<Bitmap>,
    values: usize,
) -> bool
    requires { MaskHasLength validity.now (count keys.now.values) }
    ensures { IsTrue result ↔ AreKeysBelow values validity.now (primitive_layout K.parts keys.now) }
{
    for i in 0..keys.len() {
        if is_valid(validity, i) && !names_value(keys.value(i), values) {
            return false;
        }
    }
    true
}

/// Whether the key names one of `values` values.
fn names_value<K: NodeKey>(key: K, values: usize) -> bool
    ensures { IsTrue result ↔ IsBelow values (key_number (K.parts key)) }
{
    match key.to_position() {
        None => false,
        Some(position) => position < values,
    }
}

impl NodeKey for i8 {
    const KEY_TYPE: IntegerType = IntegerType::Int8;

    ghost KEY_TYPE = { integer.Int8 };

    fn to_position(self) -> Option<usize> {
        usize::try_from(self).ok()
    }

    fn key_node(alloc: Global, array: &PrimitiveArray<i8>) -> Mem<KeyNode> {
        array.try_clone(alloc).map(KeyNode::Int8)
    }

    fn of_keys(keys: &KeyNode) -> Option<&PrimitiveArray<i8>> {
        match keys {
            KeyNode::Int8(array) => Some(array),
            _ => None,
        }
    }
}

impl NodeKey for i16 {
    const KEY_TYPE: IntegerType = IntegerType::Int16;

    ghost KEY_TYPE = { integer.Int16 };

    fn to_position(self) -> Option<usize> {
        usize::try_from(self).ok()
    }

    fn key_node(alloc: Global, array: &PrimitiveArray<i16>) -> Mem<KeyNode> {
        array.try_clone(alloc).map(KeyNode::Int16)
    }

    fn of_keys(keys: &KeyNode) -> Option<&PrimitiveArray<i16>> {
        match keys {
            KeyNode::Int16(array) => Some(array),
            _ => None,
        }
    }
}

impl NodeKey for i32 {
    const KEY_TYPE: IntegerType = IntegerType::Int32;

    ghost KEY_TYPE = { integer.Int32 };

    fn to_position(self) -> Option<usize> {
        usize::try_from(self).ok()
    }

    fn key_node(alloc: Global, array: &PrimitiveArray<i32>) -> Mem<KeyNode> {
        array.try_clone(alloc).map(KeyNode::Int32)
    }

    fn of_keys(keys: &KeyNode) -> Option<&PrimitiveArray<i32>> {
        match keys {
            KeyNode::Int32(array) => Some(array),
            _ => None,
        }
    }
}

impl NodeKey for i64 {
    const KEY_TYPE: IntegerType = IntegerType::Int64;

    ghost KEY_TYPE = { integer.Int64 };

    fn to_position(self) -> Option<usize> {
        usize::try_from(self).ok()
    }

    fn key_node(alloc: Global, array: &PrimitiveArray<i64>) -> Mem<KeyNode> {
        array.try_clone(alloc).map(KeyNode::Int64)
    }

    fn of_keys(keys: &KeyNode) -> Option<&PrimitiveArray<i64>> {
        match keys {
            KeyNode::Int64(array) => Some(array),
            _ => None,
        }
    }
}

impl NodeKey for i128 {
    const KEY_TYPE: IntegerType = IntegerType::Int128;

    ghost KEY_TYPE = { integer.Int128 };

    fn to_position(self) -> Option<usize> {
        usize::try_from(self).ok()
    }

    fn key_node(alloc: Global, array: &PrimitiveArray<i128>) -> Mem<KeyNode> {
        array.try_clone(alloc).map(KeyNode::Int128)
    }

    fn of_keys(keys: &KeyNode) -> Option<&PrimitiveArray<i128>> {
        match keys {
            KeyNode::Int128(array) => Some(array),
            _ => None,
        }
    }
}

impl NodeKey for u8 {
    const KEY_TYPE: IntegerType = IntegerType::UInt8;

    ghost KEY_TYPE = { integer.UInt8 };

    fn to_position(self) -> Option<usize> {
        usize::try_from(self).ok()
    }

    fn key_node(alloc: Global, array: &PrimitiveArray<u8>) -> Mem<KeyNode> {
        array.try_clone(alloc).map(KeyNode::UInt8)
    }

    fn of_keys(keys: &KeyNode) -> Option<&PrimitiveArray<u8>> {
        match keys {
            KeyNode::UInt8(array) => Some(array),
            _ => None,
        }
    }
}

impl NodeKey for u16 {
    const KEY_TYPE: IntegerType = IntegerType::UInt16;

    ghost KEY_TYPE = { integer.UInt16 };

    fn to_position(self) -> Option<usize> {
        usize::try_from(self).ok()
    }

    fn key_node(alloc: Global, array: &PrimitiveArray<u16>) -> Mem<KeyNode> {
        array.try_clone(alloc).map(KeyNode::UInt16)
    }

    fn of_keys(keys: &KeyNode) -> Option<&PrimitiveArray<u16>> {
        match keys {
            KeyNode::UInt16(array) => Some(array),
            _ => None,
        }
    }
}

impl NodeKey for u32 {
    const KEY_TYPE: IntegerType = IntegerType::UInt32;

    ghost KEY_TYPE = { integer.UInt32 };

    fn to_position(self) -> Option<usize> {
        usize::try_from(self).ok()
    }

    fn key_node(alloc: Global, array: &PrimitiveArray<u32>) -> Mem<KeyNode> {
        array.try_clone(alloc).map(KeyNode::UInt32)
    }

    fn of_keys(keys: &KeyNode) -> Option<&PrimitiveArray<u32>> {
        match keys {
            KeyNode::UInt32(array) => Some(array),
            _ => None,
        }
    }
}

impl NodeKey for u64 {
    const KEY_TYPE: IntegerType = IntegerType::UInt64;

    ghost KEY_TYPE = { integer.UInt64 };

    fn to_position(self) -> Option<usize> {
        usize::try_from(self).ok()
    }

    fn key_node(alloc: Global, array: &PrimitiveArray<u64>) -> Mem<KeyNode> {
        array.try_clone(alloc).map(KeyNode::UInt64)
    }

    fn of_keys(keys: &KeyNode) -> Option<&PrimitiveArray<u64>> {
        match keys {
            KeyNode::UInt64(array) => Some(array),
            _ => None,
        }
    }
}
