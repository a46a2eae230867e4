//! What the type of offsets says of a node.
ghost use Rattle.std.specs.Prelude.{◌≡◌, ◌^◌, cond, false, true, IfOk, MatchOption, refl, map};
ghost use Rattle.arrow_bytes.specs.Binaries.{layout_in};
ghost use Rattle.arrow_meaning.specs.Nodes.{IsSoundNode, binary_layout, layout_of, list_layout, list_offsets, node_physical, physical_list};

use crate::{ArrayRef, Node};
use arrow_buffers::{Bitmap, Offset, OffsetsBuffer};
use arrow_bytes::{BinaryArray, Utf8Array};
use arrow_flat::TryClone;
use arrow_flat::validity::clone_mask;
use arrow_types::{ArrowDataType, Mem};
use std::alloc::Global;

/// A type of offsets with 31 bits beside its sign, or 63 where it is large.
pub trait SizedOffset: Offset {
    ghost same_limit: { Self.Offset.limit ≡ cond Self.Offset.IS_LARGE (2 ^ 63) (2 ^ 31) };
}

impl SizedOffset for i32 {
    ghost same_limit = { refl };
}

impl SizedOffset for i64 {
    ghost same_limit = { refl };
}

/// A type of offsets whose arrays are variants of `Node`.
pub trait NodeOffset: SizedOffset {
    /// A shared copy of the array of binary values, as a node.
    fn binary_node(alloc: Global, array: &BinaryArray<Self>) -> Mem<Node>
        ensures same { IfOk result (λ n. layout_of n ≡ binary_layout Self.number array.now) }
        ensures sound { IfOk result (λ n. IsSoundNode n) };

    /// A shared copy of the array of strings, as a node.
    fn utf8_node(alloc: Global, array: &Utf8Array<Self>) -> Mem<Node>
        ensures same { IfOk result (λ n. layout_of n ≡ binary_layout Self.number array.now) }
        ensures sound { IfOk result (λ n. IsSoundNode n) };

    /// The node of lists over shared copies of the parts.
    fn list_node(
        alloc: Global,
        dtype: &ArrowDataType,
        offsets: &OffsetsBuffer<Self>,
        child: &ArrayRef,
        validity: &Option<Bitmap>,
    ) -> Mem<Node>
        ensures same { IfOk result (λ n. layout_of n
            ≡ list_layout Self.number dtype.now offsets.now child.now validity.now) }
        ensures kind { IfOk result (λ n. node_physical n ≡ physical_list Self.IS_LARGE) };

    /// The array of binary values, None exactly where the node is another variant.
    fn binary_of(node: &Node) -> Option<&BinaryArray<Self>>
        ensures { MatchOption result (node_physical node.now ≡ layout_in false Self.IS_LARGE → ⊥)
            (λ a. binary_layout Self.number a.now ≡ layout_of node.now) };

    /// The array of strings, None exactly where the node is another variant.
    fn utf8_of(node: &Node) -> Option<&Utf8Array<Self>>
        ensures { MatchOption result (node_physical node.now ≡ layout_in true Self.IS_LARGE → ⊥)
            (λ a. binary_layout Self.number a.now ≡ layout_of node.now) };

    /// The offsets of lists, None exactly where the node is another variant.
    fn list_offsets(node: &Node) -> Option<&OffsetsBuffer<Self>>
        ensures { MatchOption result (node_physical node.now ≡ physical_list Self.IS_LARGE → ⊥)
            (λ os. map Self.number os.now ≡ list_offsets (layout_of node.now)) };
}

impl NodeOffset for i32 {
    fn binary_node(alloc: Global, array: &BinaryArray<i32>) -> Mem<Node> {
        array.try_clone(alloc).map(Node::Binary)
    }

    fn utf8_node(alloc: Global, array: &Utf8Array<i32>) -> Mem<Node> {
        array.try_clone(alloc).map(Node::Utf8)
    }

    fn list_node(
        alloc: Global,
        dtype: &ArrowDataType,
        offsets: &OffsetsBuffer<i32>,
        child: &ArrayRef,
        validity: &Option<Bitmap>,
    ) -> Mem<Node> {
        Ok(Node::List {
            dtype: dtype.try_clone(alloc)?,
            offsets: offsets.try_clone(alloc)?,
            child: child.try_clone(alloc)?,
            validity: clone_mask(alloc, validity)?,
        })
    }

    fn binary_of(node: &Node) -> Option<&BinaryArray<i32>> {
        match node {
            Node::Binary(array) => Some(array),
            _ => None,
        }
    }

    fn utf8_of(node: &Node) -> Option<&Utf8Array<i32>> {
        match node {
            Node::Utf8(array) => Some(array),
            _ => None,
        }
    }

    fn list_offsets(node: &Node) -> Option<&OffsetsBuffer<i32>> {
        match node {
            Node::List { offsets, .. } => Some(offsets),
            _ => None,
        }
    }
}

impl NodeOffset for i64 {
    fn binary_node(alloc: Global, array: &BinaryArray<i64>) -> Mem<Node> {
        array.try_clone(alloc).map(Node::LargeBinary)
    }

    fn utf8_node(alloc: Global, array: &Utf8Array<i64>) -> Mem<Node> {
        array.try_clone(alloc).map(Node::LargeUtf8)
    }

    fn list_node(
        alloc: Global,
        dtype: &ArrowDataType,
        offsets: &OffsetsBuffer<i64>,
        child: &ArrayRef,
        validity: &Option<Bitmap>,
    ) -> Mem<Node> {
        Ok(Node::LargeList {
            dtype: dtype.try_clone(alloc)?,
            offsets: offsets.try_clone(alloc)?,
            child: child.try_clone(alloc)?,
            validity: clone_mask(alloc, validity)?,
        })
    }

    fn binary_of(node: &Node) -> Option<&BinaryArray<i64>> {
        match node {
            Node::LargeBinary(array) => Some(array),
            _ => None,
        }
    }

    fn utf8_of(node: &Node) -> Option<&Utf8Array<i64>> {
        match node {
            Node::LargeUtf8(array) => Some(array),
            _ => None,
        }
    }

    fn list_offsets(node: &Node) -> Option<&OffsetsBuffer<i64>> {
        match node {
            Node::LargeList { offsets, .. } => Some(offsets),
            _ => None,
        }
    }
}
