//! The children of arrays.
ghost use Rattle.std.specs.Prelude.{◌≡◌};
ghost use Rattle.arrow_layout.specs.Layouts.{layouts};
ghost use Rattle.arrow_layout.specs.Paths.{children_of};
ghost use Rattle.arrow_meaning.specs.Nodes.{layout_of};

use arrow_meaning::{ArrayRef, Node};
use std::slice;

/// The children of a node, in order: that of a list kind or map, one for each field of a struct or
/// a union, and the values of a dictionary.
pub(crate) fn children(node: &Node) -> &[ArrayRef]
    ensures { layouts result.now ≡ children_of (layout_of node.now) }
{
    match node {
        Node::List { child, .. } => slice::from_ref(child),
        Node::LargeList { child, .. } => slice::from_ref(child),
        Node::Map { child, .. } => slice::from_ref(child),
        Node::FixedSizeList { child, .. } => slice::from_ref(child),
        Node::Dictionary { child, .. } => slice::from_ref(child),
        Node::Struct { children, .. } => children,
        Node::Union { children, .. } => children,
        _ => &[],
    }
}
