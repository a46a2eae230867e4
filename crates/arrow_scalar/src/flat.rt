//! What stands in the buffers of arrays without children, compared with the node of another array
//! of the same kind.
ghost use Rattle.std.specs.Prelude.{◌≡◌, ◌↔◌, false, true, IsTrue};
ghost use Rattle.arrow_bytes.specs.Binaries.{layout_in};
ghost use Rattle.arrow_meaning.specs.Nodes.{binary_layout, boolean_layout, fixed_size_binary_layout, layout_of, node_physical, primitive_layout, primitive_node_layout, primitive_type_of, view_layout};
ghost use Rattle.arrow_scalar.specs.Bare.{bare};
ghost use Rattle.arrow_types.specs.declared.datatype.PhysicalType.TheVariants as physical;
ghost use Rattle.arrow_views.specs.ViewArrays.{physical_view};

use crate::native::{SameNative, same_values};
use crate::parts::{same_bits, same_buffers, same_bytes, same_offsets, same_views};
use arrow_buffers::Offset;
use arrow_bytes::{BinaryArray, FixedSizeBinaryArray, OffsetArray, Utf8Array};
use arrow_flat::{BooleanArray, PrimitiveArray, ViewType};
use arrow_meaning::{Node, NodeOffset, NodeView, PrimitiveNode};
use arrow_views::BinaryViewArrayGeneric;

/// Whether two arrays of bits have equal values.
pub(crate) fn same_boolean(lhs: &BooleanArray, rhs: &Node) -> bool
    requires { node_physical rhs.now ≡ physical.Boolean }
    ensures { IsTrue result ↔ (bare (boolean_layout lhs.now) ≡ bare (layout_of rhs.now)) }
{
    match rhs {
        Node::Boolean(other) => same_bits(lhs.values(), other.values()),
        _ => unreachable!(),
    }
}

/// What `$body` gives of the array `$array`, of whichever native type it is.
macro_rules! of_array {
    ($node:expr, $array:ident => $body:expr) => {
        match $node {
            PrimitiveNode::Int8($array) => $body,
            PrimitiveNode::Int16($array) => $body,
            PrimitiveNode::Int32($array) => $body,
            PrimitiveNode::Int64($array) => $body,
            PrimitiveNode::Int128($array) => $body,
            PrimitiveNode::UInt8($array) => $body,
            PrimitiveNode::UInt16($array) => $body,
            PrimitiveNode::UInt32($array) => $body,
            PrimitiveNode::UInt64($array) => $body,
            PrimitiveNode::DaysMs($array) => $body,
            PrimitiveNode::MonthDayNano($array) => $body,
        }
    };
}

/// Whether two primitive arrays have equal values.
pub(crate) fn same_primitive(lhs: &PrimitiveNode, rhs: &Node) -> bool
    requires { node_physical rhs.now ≡ physical.Primitive (primitive_type_of lhs.now) }
    ensures { IsTrue result
        ↔ (bare (primitive_node_layout lhs.now) ≡ bare (layout_of rhs.now)) }
{
    match rhs {
        Node::Primitive(other) => same_primitive_node(lhs, other),
        _ => unreachable!(),
    }
}

/// Whether two primitive arrays of one native type have equal values.
fn same_primitive_node(lhs: &PrimitiveNode, rhs: &PrimitiveNode) -> bool
    requires { primitive_type_of rhs.now ≡ primitive_type_of lhs.now }
    ensures { IsTrue result
        ↔ (bare (primitive_node_layout lhs.now) ≡ bare (primitive_node_layout rhs.now)) }
{
    of_array!(lhs, array => same_numbers(array, rhs))
}

/// Whether the numbers of an array are those of another one.
fn same_numbers<T: SameNative>(lhs: &PrimitiveArray<T>, rhs: &PrimitiveNode) -> bool
    requires { primitive_type_of rhs.now ≡ T.PRIMITIVE }
    ensures { IsTrue result
        ↔ (bare (primitive_layout T.parts lhs.now) ≡ bare (primitive_node_layout rhs.now)) }
{
    match T::of_primitive(rhs) {
        Some(other) => same_values(lhs.values().as_slice(), other.values().as_slice()),
        None => unreachable!(),
    }
}

/// Whether two arrays have equal offsets and bytes.
fn same_offset_array<K: ViewType, O: Offset + SameNative>(
    lhs: &OffsetArray<K, O>,
    rhs: &OffsetArray<K, O>,
) -> bool
    ensures { IsTrue result
        ↔ (bare (binary_layout O.number lhs.now) ≡ bare (binary_layout O.number rhs.now)) }
{
    same_offsets(lhs.offsets(), rhs.offsets()) && same_bytes(lhs.values(), rhs.values())
}

/// Whether two arrays of binary values have equal offsets and bytes.
pub(crate) fn same_binary<O: NodeOffset + SameNative>(lhs: &BinaryArray<O>, rhs: &Node) -> bool
    requires { node_physical rhs.now ≡ layout_in false O.IS_LARGE }
    ensures { IsTrue result
        ↔ (bare (binary_layout O.number lhs.now) ≡ bare (layout_of rhs.now)) }
{
    match O::binary_of(rhs) {
        Some(other) => same_offset_array(lhs, other),
        None => unreachable!(),
    }
}

/// Whether two arrays of strings have equal offsets and bytes.
pub(crate) fn same_utf8<O: NodeOffset + SameNative>(lhs: &Utf8Array<O>, rhs: &Node) -> bool
    requires { node_physical rhs.now ≡ layout_in true O.IS_LARGE }
    ensures { IsTrue result
        ↔ (bare (binary_layout O.number lhs.now) ≡ bare (layout_of rhs.now)) }
{
    match O::utf8_of(rhs) {
        Some(other) => same_offset_array(lhs, other),
        None => unreachable!(),
    }
}

/// Whether two arrays of binary values of one size have equal sizes and bytes.
pub(crate) fn same_fixed_size_binary(lhs: &FixedSizeBinaryArray, rhs: &Node) -> bool
    requires { node_physical rhs.now ≡ physical.FixedSizeBinary }
    ensures { IsTrue result
        ↔ (bare (fixed_size_binary_layout lhs.now) ≡ bare (layout_of rhs.now)) }
{
    match rhs {
        Node::FixedSizeBinary(other) => {
            lhs.size() == other.size() && same_bytes(lhs.values(), other.values())
        }
        _ => unreachable!(),
    }
}

/// Whether two arrays by views have equal views and buffers.
pub(crate) fn same_view_array<T: NodeView>(lhs: &BinaryViewArrayGeneric<T>, rhs: &Node) -> bool
    requires { node_physical rhs.now ≡ physical_view T.IS_TEXT }
    ensures { IsTrue result ↔ (bare (view_layout lhs.now) ≡ bare (layout_of rhs.now)) }
{
    match T::view_of(rhs) {
        Some(other) => {
            same_views(lhs.views().as_slice(), other.views().as_slice())
                && same_buffers(lhs.data_buffers(), other.data_buffers())
        }
        None => unreachable!(),
    }
}
