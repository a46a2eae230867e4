//! Arrays of binary values and of strings with offsets as nodes.
use crate::{FlatArray, FlatNode, Node, NodeOffset, SizedOffset};
use arrow_buffers::Bitmap;
use arrow_bytes::{BinaryArray, OffsetArray, Utf8Array};
use arrow_flat::ViewType;
use arrow_types::Mem;
use std::alloc::Global;

impl<K: ViewType, O: SizedOffset> FlatNode for OffsetArray<K, O> {
    ghost use Rattle.arrow_bytes.specs.Binaries.{layout_in};
    ghost use Rattle.arrow_meaning.specs.Nodes.{binary_layout};

    ghost layout = { binary_layout O.number };

    ghost physical = { λ a. layout_in K.IS_TEXT O.IS_LARGE };

    fn invariant(&self) {
        OffsetArray::invariant(self);
        self.len();
        self.values().len();
    }

    fn slice(&mut self, offset: usize, length: usize) {
        OffsetArray::slice(self, offset, length);
    }

    fn set_validity(&mut self, validity: Option<Bitmap>) {
        OffsetArray::set_validity(self, validity);
    }
}

impl<O: NodeOffset> FlatArray for BinaryArray<O> {
    fn to_node(&self, alloc: Global) -> Mem<Node> {
        O::binary_node(alloc, self)
    }
}

impl<O: NodeOffset> FlatArray for Utf8Array<O> {
    fn to_node(&self, alloc: Global) -> Mem<Node> {
        O::utf8_node(alloc, self)
    }
}
