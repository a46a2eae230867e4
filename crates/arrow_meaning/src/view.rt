//! Arrays of binary values and of strings by views as nodes.
ghost use Rattle.std.specs.Prelude.{◌≡◌, IfOk, MatchOption};
ghost use Rattle.arrow_meaning.specs.Nodes.{IsSoundNode, layout_of, node_physical, view_layout};
ghost use Rattle.arrow_views.specs.ViewArrays.{physical_view};

use crate::{FlatArray, FlatNode, Node};
use arrow_buffers::Bitmap;
use arrow_flat::{TryClone, ViewBytes, ViewStr, ViewType};
use arrow_types::Mem;
use arrow_views::BinaryViewArrayGeneric;
use std::alloc::Global;

/// A kind of values whose arrays by views are a variant of `Node`.
pub trait NodeView: ViewType {
    /// A shared copy of the array, as a node.
    fn view_node(alloc: Global, array: &BinaryViewArrayGeneric<Self>) -> Mem<Node>
        ensures same { IfOk result (λ n. layout_of n ≡ view_layout array.now) }
        ensures sound { IfOk result (λ n. IsSoundNode n) };

    /// The array, None exactly where the node is of another layout.
    fn view_of(node: &Node) -> Option<&BinaryViewArrayGeneric<Self>>
        ensures { MatchOption result (node_physical node.now ≡ physical_view Self.IS_TEXT → ⊥)
            (λ a. view_layout a.now ≡ layout_of node.now) };
}

impl NodeView for ViewBytes {
    fn view_node(alloc: Global, array: &BinaryViewArrayGeneric<ViewBytes>) -> Mem<Node> {
        array.try_clone(alloc).map(Node::BinaryView)
    }

    fn view_of(node: &Node) -> Option<&BinaryViewArrayGeneric<ViewBytes>> {
        match node {
            Node::BinaryView(array) => Some(array),
            _ => None,
        }
    }
}

impl NodeView for ViewStr {
    fn view_node(alloc: Global, array: &BinaryViewArrayGeneric<ViewStr>) -> Mem<Node> {
        array.try_clone(alloc).map(Node::Utf8View)
    }

    fn view_of(node: &Node) -> Option<&BinaryViewArrayGeneric<ViewStr>> {
        match node {
            Node::Utf8View(array) => Some(array),
            _ => None,
        }
    }
}

impl<T: ViewType> FlatNode for BinaryViewArrayGeneric<T> {
    ghost use Rattle.arrow_views.specs.ViewArrays.{physical_view};
    ghost use Rattle.arrow_meaning.specs.Nodes.{view_layout};

    ghost layout = { view_layout };

    ghost physical = { λ a. physical_view T.IS_TEXT };

    fn invariant(&self) {
        BinaryViewArrayGeneric::invariant(self);
        self.len();
        self.data_buffers();
    }

    fn slice(&mut self, offset: usize, length: usize) {
        BinaryViewArrayGeneric::slice(self, offset, length);
    }

    fn set_validity(&mut self, validity: Option<Bitmap>) {
        BinaryViewArrayGeneric::set_validity(self, validity);
    }
}

impl<T: NodeView> FlatArray for BinaryViewArrayGeneric<T> {
    fn to_node(&self, alloc: Global) -> Mem<Node> {
        T::view_node(alloc, self)
    }
}
