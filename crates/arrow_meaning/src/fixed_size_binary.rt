//! Arrays of binary values of one size as nodes.
use crate::{FlatArray, FlatNode, Node};
use arrow_buffers::Bitmap;
use arrow_bytes::FixedSizeBinaryArray;
use arrow_types::Mem;
use std::alloc::Global;

impl FlatNode for FixedSizeBinaryArray {
    ghost use Rattle.arrow_types.specs.declared.datatype.PhysicalType.TheVariants as physical;
    ghost use Rattle.arrow_meaning.specs.Nodes.{fixed_size_binary_layout};

    ghost layout = { fixed_size_binary_layout };

    ghost physical = { λ a. physical.FixedSizeBinary };

    fn invariant(&self) {
        FixedSizeBinaryArray::invariant(self);
        self.len();
        self.values().len();
    }

    fn slice(&mut self, offset: usize, length: usize) {
        self.size();
        FixedSizeBinaryArray::slice(self, offset, length);
    }

    fn set_validity(&mut self, validity: Option<Bitmap>) {
        FixedSizeBinaryArray::set_validity(self, validity);
    }
}

impl FlatArray for FixedSizeBinaryArray {
    fn to_node(&self, alloc: Global) -> Mem<Node> {
        self.try_clone(alloc).map(Node::FixedSizeBinary)
    }
}
