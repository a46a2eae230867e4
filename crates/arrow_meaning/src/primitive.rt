//! Primitive arrays of any native type, as one kind of node.
ghost use Rattle.std.specs.Prelude.{◌≡◌, IfOk, MatchOption};
ghost use Rattle.std.specs.Option.{option_copied};
ghost use Rattle.arrow_types.specs.Seen.{seen};
ghost use Rattle.arrow_layout.specs.Denote.{validity_of};
ghost use Rattle.arrow_layout.specs.Layouts.{length_of, type_of};
ghost use Rattle.arrow_meaning.specs.Nodes.{primitive_layout, primitive_node_layout, primitive_type_of};

use crate::{FlatArray, FlatNode, Node};
use arrow_buffers::Bitmap;
use arrow_flat::{DaysMs, MonthDayNano, NativeType, PrimitiveArray, TryClone};
use arrow_types::{ArrowDataType, Mem};
use std::alloc::Global;

/// A primitive array of any native type.
#[derive(Drop)]
pub enum PrimitiveNode {
    /// Whole numbers of 8 bits.
    Int8(PrimitiveArray<i8>),
    /// Whole numbers of 16 bits.
    Int16(PrimitiveArray<i16>),
    /// Whole numbers of 32 bits.
    Int32(PrimitiveArray<i32>),
    /// Whole numbers of 64 bits.
    Int64(PrimitiveArray<i64>),
    /// Whole numbers of 128 bits.
    Int128(PrimitiveArray<i128>),
    /// Whole numbers of 8 bits without a sign.
    UInt8(PrimitiveArray<u8>),
    /// Whole numbers of 16 bits without a sign.
    UInt16(PrimitiveArray<u16>),
    /// Whole numbers of 32 bits without a sign.
    UInt32(PrimitiveArray<u32>),
    /// Whole numbers of 64 bits without a sign.
    UInt64(PrimitiveArray<u64>),
    /// Days and milliseconds.
    DaysMs(PrimitiveArray<DaysMs>),
    /// Months, days and nanoseconds.
    MonthDayNano(PrimitiveArray<MonthDayNano>),
}

/// What `$body` gives of the array `$array`, of whichever native type it is.
macro_rules! of_array {
    ($node:expr, $array:ident => $body:expr) => {
        match $node {
            PrimitiveNode::Int8($array) => $body,
            PrimitiveNode::Int16($array) => $body,
            PrimitiveNode::Int32($array) => $body,
            PrimitiveNode::Int64($array) => $body,
            PrimitiveNode::Int128($array) => $body,
            PrimitiveNode::UInt8($array) => $body,
            PrimitiveNode::UInt16($array) => $body,
            PrimitiveNode::UInt32($array) => $body,
            PrimitiveNode::UInt64($array) => $body,
            PrimitiveNode::DaysMs($array) => $body,
            PrimitiveNode::MonthDayNano($array) => $body,
        }
    };
}

impl PrimitiveNode {
    /// The count of slots.
    pub(crate) fn len(&self) -> usize
        ensures { result ≡ length_of (primitive_node_layout self.now) }
    {
        of_array!(self, array => array.len())
    }

    /// The whole type.
    pub(crate) fn dtype(&self) -> &ArrowDataType
        ensures { seen result.now ≡ type_of (primitive_node_layout self.now) }
    {
        of_array!(self, array => array.dtype())
    }

    /// The mask, where there is one.
    pub(crate) fn validity(&self) -> Option<&Bitmap>
        ensures { option_copied result ≡ validity_of (primitive_node_layout self.now) }
    {
        of_array!(self, array => array.validity())
    }
}

impl TryClone for PrimitiveNode {
    fn try_clone(&self, alloc: Global) -> Mem<PrimitiveNode> {
        match self {
            PrimitiveNode::Int8(array) => array.try_clone(alloc).map(PrimitiveNode::Int8),
            PrimitiveNode::Int16(array) => array.try_clone(alloc).map(PrimitiveNode::Int16),
            PrimitiveNode::Int32(array) => array.try_clone(alloc).map(PrimitiveNode::Int32),
            PrimitiveNode::Int64(array) => array.try_clone(alloc).map(PrimitiveNode::Int64),
            PrimitiveNode::Int128(array) => array.try_clone(alloc).map(PrimitiveNode::Int128),
            PrimitiveNode::UInt8(array) => array.try_clone(alloc).map(PrimitiveNode::UInt8),
            PrimitiveNode::UInt16(array) => array.try_clone(alloc).map(PrimitiveNode::UInt16),
            PrimitiveNode::UInt32(array) => array.try_clone(alloc).map(PrimitiveNode::UInt32),
            PrimitiveNode::UInt64(array) => array.try_clone(alloc).map(PrimitiveNode::UInt64),
            PrimitiveNode::DaysMs(array) => array.try_clone(alloc).map(PrimitiveNode::DaysMs),
            PrimitiveNode::MonthDayNano(array) => array
                .try_clone(alloc)
                .map(PrimitiveNode::MonthDayNano),
        }
    }
}

impl FlatNode for PrimitiveNode {
    ghost use Rattle.arrow_types.specs.declared.datatype.PhysicalType.TheVariants as physical;
    ghost use Rattle.arrow_meaning.specs.Nodes.{primitive_node_layout, primitive_type_of};

    ghost layout = { primitive_node_layout };

    ghost physical = { λ n. physical.Primitive (primitive_type_of n) };

    fn invariant(&self) {
        of_array!(self, array => FlatNode::invariant(array))
    }

    fn slice(&mut self, offset: usize, length: usize) {
        of_array!(self, array => FlatNode::slice(array, offset, length))
    }

    fn set_validity(&mut self, validity: Option<Bitmap>) {
        of_array!(self, array => FlatNode::set_validity(array, validity))
    }
}

impl FlatArray for PrimitiveNode {
    fn to_node(&self, alloc: Global) -> Mem<Node> {
        self.try_clone(alloc).map(Node::Primitive)
    }
}

impl<T: NativeType> FlatNode for PrimitiveArray<T> {
    ghost use Rattle.arrow_types.specs.declared.datatype.PhysicalType.TheVariants as physical;
    ghost use Rattle.arrow_meaning.specs.Nodes.{primitive_layout};

    ghost layout = { primitive_layout T.parts };

    ghost physical = { λ a. physical.Primitive T.PRIMITIVE };

    fn invariant(&self) {
        PrimitiveArray::invariant(self);
        self.len();
    }

    fn slice(&mut self, offset: usize, length: usize) {
        PrimitiveArray::slice(self, offset, length);
    }

    fn set_validity(&mut self, validity: Option<Bitmap>) {
        PrimitiveArray::set_validity(self, validity);
    }
}

impl<T: NodeNative> FlatArray for PrimitiveArray<T> {
    fn to_node(&self, alloc: Global) -> Mem<Node> {
        T::primitive_node(alloc, self).map(Node::Primitive)
    }
}

/// A native type whose arrays are a variant of `PrimitiveNode`.
pub trait NodeNative: NativeType {
    /// A shared copy of the array, as a kind of node.
    fn primitive_node(alloc: Global, array: &PrimitiveArray<Self>) -> Mem<PrimitiveNode>
        ensures { IfOk result (λ n.
            primitive_node_layout n ≡ primitive_layout Self.parts array.now) };

    /// The array, None exactly where the node holds values of another type.
    fn of_primitive(node: &PrimitiveNode) -> Option<&PrimitiveArray<Self>>
        ensures { MatchOption result (primitive_type_of node.now ≡ Self.PRIMITIVE → ⊥)
            (λ a. primitive_layout Self.parts a.now ≡ primitive_node_layout node.now) };
}

impl NodeNative for i8 {
    fn primitive_node(alloc: Global, array: &PrimitiveArray<i8>) -> Mem<PrimitiveNode> {
        array.try_clone(alloc).map(PrimitiveNode::Int8)
    }

    fn of_primitive(node: &PrimitiveNode) -> Option<&PrimitiveArray<i8>> {
        match node {
            PrimitiveNode::Int8(array) => Some(array),
            _ => None,
        }
    }
}

impl NodeNative for i16 {
    fn primitive_node(alloc: Global, array: &PrimitiveArray<i16>) -> Mem<PrimitiveNode> {
        array.try_clone(alloc).map(PrimitiveNode::Int16)
    }

    fn of_primitive(node: &PrimitiveNode) -> Option<&PrimitiveArray<i16>> {
        match node {
            PrimitiveNode::Int16(array) => Some(array),
            _ => None,
        }
    }
}

impl NodeNative for i32 {
    fn primitive_node(alloc: Global, array: &PrimitiveArray<i32>) -> Mem<PrimitiveNode> {
        array.try_clone(alloc).map(PrimitiveNode::Int32)
    }

    fn of_primitive(node: &PrimitiveNode) -> Option<&PrimitiveArray<i32>> {
        match node {
            PrimitiveNode::Int32(array) => Some(array),
            _ => None,
        }
    }
}

impl NodeNative for i64 {
    fn primitive_node(alloc: Global, array: &PrimitiveArray<i64>) -> Mem<PrimitiveNode> {
        array.try_clone(alloc).map(PrimitiveNode::Int64)
    }

    fn of_primitive(node: &PrimitiveNode) -> Option<&PrimitiveArray<i64>> {
        match node {
            PrimitiveNode::Int64(array) => Some(array),
            _ => None,
        }
    }
}

impl NodeNative for i128 {
    fn primitive_node(alloc: Global, array: &PrimitiveArray<i128>) -> Mem<PrimitiveNode> {
        array.try_clone(alloc).map(PrimitiveNode::Int128)
    }

    fn of_primitive(node: &PrimitiveNode) -> Option<&PrimitiveArray<i128>> {
        match node {
            PrimitiveNode::Int128(array) => Some(array),
            _ => None,
        }
    }
}

impl NodeNative for u8 {
    fn primitive_node(alloc: Global, array: &PrimitiveArray<u8>) -> Mem<PrimitiveNode> {
        array.try_clone(alloc).map(PrimitiveNode::UInt8)
    }

    fn of_primitive(node: &PrimitiveNode) -> Option<&PrimitiveArray<u8>> {
        match node {
            PrimitiveNode::UInt8(array) => Some(array),
            _ => None,
        }
    }
}

impl NodeNative for u16 {
    fn primitive_node(alloc: Global, array: &PrimitiveArray<u16>) -> Mem<PrimitiveNode> {
        array.try_clone(alloc).map(PrimitiveNode::UInt16)
    }

    fn of_primitive(node: &PrimitiveNode) -> Option<&PrimitiveArray<u16>> {
        match node {
            PrimitiveNode::UInt16(array) => Some(array),
            _ => None,
        }
    }
}

impl NodeNative for u32 {
    fn primitive_node(alloc: Global, array: &PrimitiveArray<u32>) -> Mem<PrimitiveNode> {
        array.try_clone(alloc).map(PrimitiveNode::UInt32)
    }

    fn of_primitive(node: &PrimitiveNode) -> Option<&PrimitiveArray<u32>> {
        match node {
            PrimitiveNode::UInt32(array) => Some(array),
            _ => None,
        }
    }
}

impl NodeNative for u64 {
    fn primitive_node(alloc: Global, array: &PrimitiveArray<u64>) -> Mem<PrimitiveNode> {
        array.try_clone(alloc).map(PrimitiveNode::UInt64)
    }

    fn of_primitive(node: &PrimitiveNode) -> Option<&PrimitiveArray<u64>> {
        match node {
            PrimitiveNode::UInt64(array) => Some(array),
            _ => None,
        }
    }
}

impl NodeNative for DaysMs {
    fn primitive_node(alloc: Global, array: &PrimitiveArray<DaysMs>) -> Mem<PrimitiveNode> {
        array.try_clone(alloc).map(PrimitiveNode::DaysMs)
    }

    fn of_primitive(node: &PrimitiveNode) -> Option<&PrimitiveArray<DaysMs>> {
        match node {
            PrimitiveNode::DaysMs(array) => Some(array),
            _ => None,
        }
    }
}

impl NodeNative for MonthDayNano {
    fn primitive_node(alloc: Global, array: &PrimitiveArray<MonthDayNano>) -> Mem<PrimitiveNode> {
        array.try_clone(alloc).map(PrimitiveNode::MonthDayNano)
    }

    fn of_primitive(node: &PrimitiveNode) -> Option<&PrimitiveArray<MonthDayNano>> {
        match node {
            PrimitiveNode::MonthDayNano(array) => Some(array),
            _ => None,
        }
    }
}
