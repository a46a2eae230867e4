//! Parts of arrays: the slots from an offset on.
ghost use Rattle.std.specs.Prelude.{◌≡◌, ◌+◌, ◌≤◌, ◌<◌, ◌^◌, suc, length as count, IfOk, Option};
ghost use Rattle.arrow_flat.specs.Primitives.{HasRange, cut_mask};
ghost use Rattle.arrow_types.specs.Seen.{seen};
ghost use Rattle.arrow_types.specs.declared.datatype.PhysicalType.TheVariants as physical;
ghost use Rattle.arrow_layout.specs.Cut.{cut, cut_each, part};
ghost use Rattle.arrow_layout.specs.FitsHere.{HaveLengths};
ghost use Rattle.arrow_layout.specs.Layouts.{fixed_size_lists, layouts, length_of, structs};
ghost use Rattle.arrow_layout.specs.WellFormed.{WellFormed};
ghost use Rattle.arrow_meaning.specs.Nodes.{CoverSlots, HasOwnSlots, IsStoredAs, cut_dense, cut_shift, layout_of, node_physical};

use crate::{ArrayRef, Node};
use arrow_buffers::{Bitmap, Buffer, Offset, OffsetsBuffer};
use arrow_flat::TryClone;
use arrow_flat::validity::{clone_mask, slice_mask};
use arrow_types::{ArrowDataType, Mem};
use std::alloc::Global;

impl ArrayRef {
    /// The `length` slots from `offset` on; a mask without nulls is dropped.
    #[cycle(cut)]
    pub fn sliced(&self, alloc: Global, offset: usize, length: usize) -> Mem<ArrayRef>
        requires { offset + length ≤ length_of self.now }
        ensures { IfOk result (λ a. a ≡ cut self.now offset length) }
    {
        let node = self.cut_node(alloc, offset, length)?;
        ArrayRef::from_sound(alloc, node)
    }

    /// The node of those slots.
    #[cycle(cut)]
    fn cut_node(&self, alloc: Global, offset: usize, length: usize) -> Mem<Node>
        requires { offset + length ≤ length_of self.now }
        ensures part { IfOk result (λ n. layout_of n ≡ cut self.now offset length) }
        ensures kind { IfOk result (λ n. IsStoredAs (node_physical n) self.now) }
        ensures sound { WellFormed self.now }
    {
        match self.node() {
            Node::FixedSizeList {
                dtype,
                size,
                child,
                validity,
                ..
            } => {
                let _slots = child.len();
                let child = child.sliced(alloc, offset * *size, length * *size)?;
                cut_fixed_size_list(alloc, dtype, *size, child, validity, offset, length)
            }
            Node::Struct {
                dtype,
                children,
                validity,
                ..
            } => {
                let children = sliced_all(children, alloc, offset, length)?;
                cut_struct(alloc, dtype, children, validity, offset, length)
            }
            node => cut_own(alloc, node, offset, length),
        }
    }
}

/// The part of each array.
#[cycle(cut)]
fn sliced_all(
    arrays: &[ArrayRef],
    alloc: Global,
    offset: usize,
    length: usize,
) -> Mem<Vec<ArrayRef>>
    requires { HaveLengths (λ i. offset + length ≤ i) (layouts arrays.now) }
    ensures { IfOk result (λ parts. layouts parts.items
        ≡ cut_each (layouts arrays.now) offset length) }
{
    let mut parts = Vec::new(alloc);
    for array in arrays {
        let part = array.sliced(alloc, offset, length)?;
        parts.push(part)?;
    }
    Ok(parts)
}

/// The part of a node none of whose children is cut.
fn cut_own(alloc: Global, node: &Node, offset: usize, length: usize) -> Mem<Node>
    requires within { offset + length ≤ length_of (layout_of node.now) }
    requires sound { WellFormed (layout_of node.now) }
    requires own { HasOwnSlots node.now }
    ensures part { IfOk result (λ n. layout_of n ≡ cut (layout_of node.now) offset length) }
    ensures kind { IfOk result (λ n. node_physical n ≡ node_physical node.now) }
{
    let mut part = node.try_clone(alloc)?;
    part.slice(offset, length);
    Ok(part)
}

/// Fixed-size lists over the part of their child.
fn cut_fixed_size_list(
    alloc: Global,
    dtype: &ArrowDataType,
    size: usize,
    child: ArrayRef,
    validity: &Option<Bitmap>,
    offset: usize,
    length: usize,
) -> Mem<Node>
    requires { HasRange validity.now offset length }
    ensures same { IfOk result (λ n. layout_of n
        ≡ fixed_size_lists (seen dtype.now) (cut_mask offset length validity.now)
        size length child) }
    ensures kind { IfOk result (λ n. node_physical n ≡ physical.FixedSizeList) }
{
    Ok(Node::FixedSizeList {
        dtype: dtype.try_clone(alloc)?,
        size,
        length,
        child,
        validity: cut_validity(alloc, validity, offset, length)?,
    })
}

/// Structs over the parts of their children.
fn cut_struct(
    alloc: Global,
    dtype: &ArrowDataType,
    children: Vec<ArrayRef>,
    validity: &Option<Bitmap>,
    offset: usize,
    length: usize,
) -> Mem<Node>
    requires { HasRange validity.now offset length }
    ensures same { IfOk result (λ n. layout_of n
        ≡ structs (seen dtype.now) (cut_mask offset length validity.now) length
        (layouts children.items)) }
    ensures kind { IfOk result (λ n. node_physical n ≡ physical.Struct) }
{
    Ok(Node::Struct {
        dtype: dtype.try_clone(alloc)?,
        length,
        children,
        validity: cut_validity(alloc, validity, offset, length)?,
    })
}

/// The mask of the slots; one without nulls is dropped.
fn cut_validity(
    alloc: Global,
    validity: &Option<Bitmap>,
    offset: usize,
    length: usize,
) -> Mem<Option<Bitmap>>
    requires { HasRange validity.now offset length }
    ensures { IfOk result (λ m. m ≡ cut_mask offset length validity.now) }
{
    let mut part = clone_mask(alloc, validity)?;
    slice_mask(&mut part, offset, length);
    Ok(part)
}

/// Keeps the lists from `offset` on.
pub(crate) fn slice_list<O: Offset>(
    offsets: &mut OffsetsBuffer<O>,
    validity: &mut Option<Bitmap>,
    offset: usize,
    length: usize,
)
    requires within { offset + length < count offsets.old }
    requires mask { HasRange validity.old offset length }
    ensures offsets { offsets.new ≡ part offset (suc length) offsets.old }
    ensures mask { validity.new ≡ cut_mask offset length validity.old }
{
    offsets.slice(offset, length);
    slice_mask(validity, offset, length);
}

/// Keeps the slots of a union from `offset` on: dense offsets are cut, and a sparse union's shift
/// rises.
pub(crate) fn slice_union(
    types: &mut Buffer<i8>,
    offsets: &mut Option<Buffer<i32>>,
    shift: &mut usize,
    offset: usize,
    length: usize,
)
    requires within { offset + length ≤ count types.old }
    requires dense { CoverSlots (offset + length) offsets.old }
    requires small { shift.old + offset < 2 ^ 64 }
    ensures types { types.new ≡ part offset length types.old }
    ensures offsets { offsets.new ≡ cut_dense offset length offsets.old }
    ensures shift { shift.new ≡ cut_shift offset offsets.old shift.old }
{
    types.slice(offset, length);
    match offsets {
        None => *shift += offset,
        Some(offsets) => offsets.slice(offset, length),
    }
}
