//! Arrays of single bits as nodes.
use crate::{FlatArray, FlatNode, Node};
use arrow_buffers::Bitmap;
use arrow_flat::BooleanArray;
use arrow_types::Mem;
use std::alloc::Global;

impl FlatNode for BooleanArray {
    ghost use Rattle.arrow_types.specs.declared.datatype.PhysicalType.TheVariants as physical;
    ghost use Rattle.arrow_meaning.specs.Nodes.{boolean_layout};

    ghost layout = { boolean_layout };

    ghost physical = { λ a. physical.Boolean };

    fn invariant(&self) {
        BooleanArray::invariant(self);
        self.len();
    }

    fn slice(&mut self, offset: usize, length: usize) {
        BooleanArray::slice(self, offset, length);
    }

    fn set_validity(&mut self, validity: Option<Bitmap>) {
        BooleanArray::set_validity(self, validity);
    }
}

impl FlatArray for BooleanArray {
    fn to_node(&self, alloc: Global) -> Mem<Node> {
        self.try_clone(alloc).map(Node::Boolean)
    }
}
