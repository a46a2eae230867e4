//! Whether two arrays have one layout.
ghost use Rattle.std.specs.Prelude.{◌≡◌, ◌↔◌, IsTrue};
ghost use Rattle.arrow_layout.specs.Layouts.{length_of};
ghost use Rattle.arrow_meaning.specs.Nodes.{layout_of, node_physical};
ghost use Rattle.arrow_scalar.specs.Bare.{AreSameButChildren, bare};

use crate::children::children;
use crate::flat::{
    same_binary, same_boolean, same_fixed_size_binary, same_primitive, same_utf8, same_view_array,
};
use crate::nested::{same_dictionary, same_lists, same_maps, same_size, same_union};
use crate::parts::{same_mask, same_type};
use arrow_meaning::{ArrayRef, Node};

/// Whether two arrays have one layout: equal types and, at every depth, equal lengths, masks with
/// the bits before their own, offsets, shifts, keys, views, buffers and values, those under nulls
/// too. Takes no memory.
///
/// Arrays of equal slots may have different layouts.
#[cycle(same_layout)]
pub fn same_layout(lhs: &ArrayRef, rhs: &ArrayRef) -> bool
    ensures { IsTrue result ↔ (lhs.now ≡ rhs.now) }
{
    same_but_children(lhs, rhs) && all_same(children(lhs.node()), children(rhs.node()))
}

/// Whether each array has the layout of the other list's.
#[cycle(same_layout)]
fn all_same(lhs: &[ArrayRef], rhs: &[ArrayRef]) -> bool
    ensures { IsTrue result ↔ (lhs.now ≡ rhs.now) }
{
    if lhs.len() != rhs.len() {
        return false;
    }
    for i in 0..lhs.len() {
        if !same_layout(&lhs[i], &rhs[i]) {
            return false;
        }
    }
    true
}

/// Whether two arrays have one layout with their children left aside.
fn same_but_children(lhs: &ArrayRef, rhs: &ArrayRef) -> bool
    ensures { IsTrue result ↔ AreSameButChildren lhs.now rhs.now }
{
    same_type(lhs.dtype(), rhs.dtype())
        && lhs.len() == rhs.len()
        && same_mask(lhs.validity(), rhs.validity())
        && same_own(lhs.node(), rhs.node())
}

/// Whether two nodes of one kind and length have equal values in their own buffers.
fn same_own(lhs: &Node, rhs: &Node) -> bool
    requires kind { node_physical rhs.now ≡ node_physical lhs.now }
    requires length { length_of (layout_of rhs.now) ≡ length_of (layout_of lhs.now) }
    ensures { IsTrue result ↔ (bare (layout_of lhs.now) ≡ bare (layout_of rhs.now)) }
{
    match lhs {
        Node::Null { .. } => true,
        Node::Struct { .. } => true,
        Node::Boolean(array) => same_boolean(array, rhs),
        Node::Primitive(array) => same_primitive(array, rhs),
        Node::Binary(array) => same_binary(array, rhs),
        Node::LargeBinary(array) => same_binary(array, rhs),
        Node::Utf8(array) => same_utf8(array, rhs),
        Node::LargeUtf8(array) => same_utf8(array, rhs),
        Node::FixedSizeBinary(array) => same_fixed_size_binary(array, rhs),
        Node::BinaryView(array) => same_view_array(array, rhs),
        Node::Utf8View(array) => same_view_array(array, rhs),
        Node::List { offsets, .. } => same_lists(offsets, rhs),
        Node::LargeList { offsets, .. } => same_lists(offsets, rhs),
        Node::Map { offsets, .. } => same_maps(offsets, rhs),
        Node::FixedSizeList { size, .. } => same_size(*size, rhs),
        Node::Union {
            types,
            offsets,
            shift,
            ..
        } => same_union(types, offsets, *shift, rhs),
        Node::Dictionary { keys, .. } => same_dictionary(keys, rhs),
    }
}
