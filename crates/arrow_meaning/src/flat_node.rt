//! What every array without children has as a layout, and its node.
ghost use Rattle.std.specs.Prelude.{◌≡◌, ◌+◌, ◌≤◌, IfOk};
ghost use Rattle.arrow_flat.specs.Primitives.{MaskHasLength};
ghost use Rattle.arrow_types.specs.declared.datatype.PhysicalType.{PhysicalType};
ghost use Rattle.arrow_layout.specs.Cut.{cut};
ghost use Rattle.arrow_layout.specs.Layouts.{Layout, length_of};
ghost use Rattle.arrow_layout.specs.Masks.{with_mask};
ghost use Rattle.arrow_layout.specs.WellFormed.{WellFormed};
ghost use Rattle.arrow_meaning.specs.Nodes.{layout_of, IsSoundNode, IsStoredAs};

use crate::{ArrayRef, Node};
use arrow_buffers::Bitmap;
use arrow_flat::TryClone;
use arrow_types::Mem;
use std::alloc::Global;

/// An array without children, seen as a layout.
pub trait FlatNode: TryClone + Drop {
    ghost layout: { Self → Layout };

    ghost physical: { Self → PhysicalType };

    /// For proofs alone: what the array keeps.
    fn invariant(&self)
        ensures sound { WellFormed (layout self.now) }
        ensures kind { IsStoredAs (physical self.now) (layout self.now) };

    /// Keeps the `length` slots from `offset` on; a mask without nulls is dropped.
    fn slice(&mut self, offset: usize, length: usize)
        requires { offset + length ≤ length_of (layout self.old) }
        ensures part { layout self.new ≡ cut (layout self.old) offset length }
        ensures kind { physical self.new ≡ physical self.old };

    /// Puts another mask, or none, in the mask's place.
    fn set_validity(&mut self, validity: Option<Bitmap>)
        requires { MaskHasLength validity (length_of (layout self.old)) }
        ensures same { layout self.new ≡ with_mask validity (layout self.old) }
        ensures kind { physical self.new ≡ physical self.old };
}

/// An array without children that is a node of its own.
pub trait FlatArray: FlatNode {
    /// A shared copy of the array, as a node.
    fn to_node(&self, alloc: Global) -> Mem<Node>
        ensures same { IfOk result (λ n. layout_of n ≡ Self.layout self.now) }
        ensures sound { IfOk result (λ n. IsSoundNode n) };

    /// The array as an array of any layout, upstream's `boxed`.
    final fn boxed(self, alloc: Global) -> Mem<ArrayRef>
        ensures { IfOk result (λ a. a ≡ Self.layout self) }
    {
        let node = self.to_node(alloc)?;
        ArrayRef::from_node(alloc, node)
    }
}
