//! What stands in the own buffers of arrays with children, compared with the node of another array
//! of the same kind.
ghost use Rattle.std.specs.Prelude.{◌≡◌, ◌↔◌, IsTrue, map, Option};
ghost use Rattle.arrow_layout.specs.Layouts.{length_of, type_of};
ghost use Rattle.arrow_meaning.specs.Nodes.{key_layout, key_numbers, key_type_of, layout_of, list_offsets, node_physical, physical_list, primitive_layout, list_size};
ghost use Rattle.arrow_scalar.specs.Bare.{bare, bare_keys, bare_union};
ghost use Rattle.arrow_types.specs.declared.datatype.PhysicalType.TheVariants as physical;

use crate::native::{SameKey, SameNative, same_values};
use crate::parts::{same_offsets, same_optional_offsets, same_type};
use arrow_buffers::{Buffer, OffsetsBuffer};
use arrow_flat::PrimitiveArray;
use arrow_meaning::{KeyNode, Node, NodeOffset};

/// Whether the offsets are those of the other lists.
pub(crate) fn same_lists<O: NodeOffset + SameNative>(lhs: &OffsetsBuffer<O>, rhs: &Node) -> bool
    requires { node_physical rhs.now ≡ physical_list O.IS_LARGE }
    ensures { IsTrue result ↔ (map O.number lhs.now ≡ list_offsets (layout_of rhs.now)) }
{
    match O::list_offsets(rhs) {
        Some(other) => same_offsets(lhs, other),
        None => unreachable!(),
    }
}

/// Whether the offsets are those of the other maps.
pub(crate) fn same_maps(lhs: &OffsetsBuffer<i32>, rhs: &Node) -> bool
    requires { node_physical rhs.now ≡ physical.Map }
    ensures { IsTrue result ↔ (lhs.now ≡ list_offsets (layout_of rhs.now)) }
{
    match rhs {
        Node::Map { offsets, .. } => same_offsets(lhs, offsets),
        _ => unreachable!(),
    }
}

/// Whether the size is that of the other fixed-size lists.
pub(crate) fn same_size(lhs: usize, rhs: &Node) -> bool
    requires { node_physical rhs.now ≡ physical.FixedSizeList }
    ensures { IsTrue result ↔ (lhs ≡ list_size (layout_of rhs.now)) }
{
    match rhs {
        Node::FixedSizeList { size, .. } => lhs == *size,
        _ => unreachable!(),
    }
}

/// Whether the type numbers, the offsets and the shift are those of the other union.
pub(crate) fn same_union(
    types: &Buffer<i8>,
    offsets: &Option<Buffer<i32>>,
    shift: usize,
    rhs: &Node,
) -> bool
    requires { node_physical rhs.now ≡ physical.Union }
    ensures { IsTrue result
        ↔ (bare_union types.now offsets.now shift ≡ bare (layout_of rhs.now)) }
{
    match rhs {
        Node::Union {
            types: other_types,
            offsets: other_offsets,
            shift: other_shift,
            ..
        } => {
            shift == *other_shift
                && same_values(types.as_slice(), other_types.as_slice())
                && same_optional_offsets(offsets, other_offsets)
        }
        _ => unreachable!(),
    }
}

/// What `$body` gives of the keys `$array`, of whichever type they are.
macro_rules! of_keys {
    ($node:expr, $array:ident => $body:expr) => {
        match $node {
            KeyNode::Int8($array) => $body,
            KeyNode::Int16($array) => $body,
            KeyNode::Int32($array) => $body,
            KeyNode::Int64($array) => $body,
            KeyNode::Int128($array) => $body,
            KeyNode::UInt8($array) => $body,
            KeyNode::UInt16($array) => $body,
            KeyNode::UInt32($array) => $body,
            KeyNode::UInt64($array) => $body,
        }
    };
}

/// Whether the type of the keys and the keys are those of the other dictionary.
pub(crate) fn same_dictionary(lhs: &KeyNode, rhs: &Node) -> bool
    requires { node_physical rhs.now ≡ physical.Dictionary (key_type_of lhs.now) }
    ensures { IsTrue result ↔ (bare_keys (key_layout lhs.now) ≡ bare (layout_of rhs.now)) }
{
    match rhs {
        Node::Dictionary { keys, .. } => same_key_node(lhs, keys),
        _ => unreachable!(),
    }
}

/// Whether two arrays of keys have equal types and values.
fn same_key_node(lhs: &KeyNode, rhs: &KeyNode) -> bool
    requires { key_type_of rhs.now ≡ key_type_of lhs.now }
    ensures { IsTrue result
        ↔ (bare_keys (key_layout lhs.now) ≡ bare_keys (key_layout rhs.now)) }
{
    of_keys!(lhs, array => same_keys(array, rhs))
}

/// Whether the type and the keys of an array are those of another one.
fn same_keys<K: SameKey>(lhs: &PrimitiveArray<K>, rhs: &KeyNode) -> bool
    requires { key_type_of rhs.now ≡ K.KEY_TYPE }
    ensures { IsTrue result
        ↔ (bare_keys (primitive_layout K.parts lhs.now) ≡ bare_keys (key_layout rhs.now)) }
{
    match K::of_keys(rhs) {
        Some(other) => {
            same_type(lhs.dtype(), other.dtype())
                && same_values(lhs.values().as_slice(), other.values().as_slice())
        }
        None => unreachable!(),
    }
}
