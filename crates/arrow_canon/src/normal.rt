//! The canonical node of an array of values.
ghost use Rattle.std.specs.Prelude.{◌≡◌, IfOk, IsErrOf};
ghost use Rattle.arrow_types.specs.Seen.{seen};
ghost use Rattle.arrow_layout.specs.Fits.{Fits};
ghost use Rattle.arrow_layout.specs.Layouts.{length_of};
ghost use Rattle.arrow_layout.specs.OfValues.{IsOfValues};
ghost use Rattle.arrow_meaning.specs.Nodes.{layout_of, primitive_node_layout};
ghost use Rattle.arrow_canon.specs.Picks.{IsTypeFor};
ghost use Rattle.arrow_canon.specs.Runs.{AreWithin, canon_of_runs};

use crate::{
    Run, canonical_binary, canonical_boolean, canonical_fixed_size_binary, canonical_primitive,
    canonical_view,
};
use arrow_meaning::{Node, PrimitiveNode};
use arrow_types::{ArrowDataType, GrowError};
use std::alloc::Global;

/// The canonical values of fixed width.
fn canonical_numbers(
    alloc: Global,
    node: &PrimitiveNode,
    dtype: &ArrowDataType,
    runs: &[Run],
) -> Result<PrimitiveNode, GrowError>
    requires of_type { IsTypeFor (seen dtype.now) (primitive_node_layout node.now) }
    requires within { AreWithin (length_of (primitive_node_layout node.now)) runs.now }
    ensures ok { let l = canon_of_runs (seen dtype.now) (primitive_node_layout node.now) runs.now in
        IfOk result (λ n. (primitive_node_layout n ≡ l) × Fits l) }
    ensures overflow { let l = canon_of_runs (seen dtype.now) (primitive_node_layout node.now) runs.now in
        IsErrOf result GrowError.Overflow → Fits l → ⊥ }
{
    match node {
        PrimitiveNode::Int8(array) => {
            canonical_primitive(alloc, array, dtype, runs).map(PrimitiveNode::Int8)
        }
        PrimitiveNode::Int16(array) => {
            canonical_primitive(alloc, array, dtype, runs).map(PrimitiveNode::Int16)
        }
        PrimitiveNode::Int32(array) => {
            canonical_primitive(alloc, array, dtype, runs).map(PrimitiveNode::Int32)
        }
        PrimitiveNode::Int64(array) => {
            canonical_primitive(alloc, array, dtype, runs).map(PrimitiveNode::Int64)
        }
        PrimitiveNode::Int128(array) => {
            canonical_primitive(alloc, array, dtype, runs).map(PrimitiveNode::Int128)
        }
        PrimitiveNode::UInt8(array) => {
            canonical_primitive(alloc, array, dtype, runs).map(PrimitiveNode::UInt8)
        }
        PrimitiveNode::UInt16(array) => {
            canonical_primitive(alloc, array, dtype, runs).map(PrimitiveNode::UInt16)
        }
        PrimitiveNode::UInt32(array) => {
            canonical_primitive(alloc, array, dtype, runs).map(PrimitiveNode::UInt32)
        }
        PrimitiveNode::UInt64(array) => {
            canonical_primitive(alloc, array, dtype, runs).map(PrimitiveNode::UInt64)
        }
        PrimitiveNode::DaysMs(array) => {
            canonical_primitive(alloc, array, dtype, runs).map(PrimitiveNode::DaysMs)
        }
        PrimitiveNode::MonthDayNano(array) => {
            canonical_primitive(alloc, array, dtype, runs).map(PrimitiveNode::MonthDayNano)
        }
    }
}

/// The canonical node of the slots that runs pick out of an array without children, of a type laid
/// out as the array's.
///
/// Overflow exactly where a count or an offset of it passes its range, or the lengths of a column
/// of views sum to more than 2^62.
pub fn canonical_values(
    alloc: Global,
    node: &Node,
    dtype: &ArrowDataType,
    runs: &[Run],
) -> Result<Node, GrowError>
    requires of_values { IsOfValues (layout_of node.now) }
    requires of_type { IsTypeFor (seen dtype.now) (layout_of node.now) }
    requires within { AreWithin (length_of (layout_of node.now)) runs.now }
    ensures of_values { IfOk result (λ n. IsOfValues (layout_of n)) }
    ensures ok { let l = canon_of_runs (seen dtype.now) (layout_of node.now) runs.now in
        IfOk result (λ n. (layout_of n ≡ l) × Fits l) }
    ensures overflow { let l = canon_of_runs (seen dtype.now) (layout_of node.now) runs.now in
        IsErrOf result GrowError.Overflow → Fits l → ⊥ }
{
    match node {
        Node::Boolean(array) => canonical_boolean(alloc, array, dtype, runs).map(Node::Boolean),
        Node::Primitive(array) => canonical_numbers(alloc, array, dtype, runs).map(Node::Primitive),
        Node::Binary(array) => canonical_binary(alloc, array, dtype, runs).map(Node::Binary),
        Node::LargeBinary(array) => {
            canonical_binary(alloc, array, dtype, runs).map(Node::LargeBinary)
        }
        Node::Utf8(array) => canonical_binary(alloc, array, dtype, runs).map(Node::Utf8),
        Node::LargeUtf8(array) => canonical_binary(alloc, array, dtype, runs).map(Node::LargeUtf8),
        Node::FixedSizeBinary(array) => {
            canonical_fixed_size_binary(alloc, array, dtype, runs).map(Node::FixedSizeBinary)
        }
        Node::BinaryView(array) => canonical_view(alloc, array, dtype, runs).map(Node::BinaryView),
        Node::Utf8View(array) => canonical_view(alloc, array, dtype, runs).map(Node::Utf8View),
        Node::Null { .. }
        | Node::List { .. }
        | Node::LargeList { .. }
        | Node::Map { .. }
        | Node::FixedSizeList { .. }
        | Node::Struct { .. }
        | Node::Union { .. }
        | Node::Dictionary { .. } => unreachable!(),
    }
}
