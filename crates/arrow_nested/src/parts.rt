//! What lists and maps share: the tests of their parts, and the parts of their layout.
ghost use Rattle.std.specs.Prelude.{◌≡◌, ◌↔◌, ◌+◌, ◌≤◌, ◌<◌, IsTrue, IfOk, Some, None, length as count, map, pred, slice_get, option_map};
ghost use Rattle.arrow_buffers.specs.Offsets.{end_of};
ghost use Rattle.arrow_flat.specs.Primitives.{MaskHasLength};
ghost use Rattle.arrow_layout.specs.Layouts.{length_of, type_of};
ghost use Rattle.arrow_layout.specs.WellFormed.{WellFormed};
ghost use Rattle.arrow_meaning.specs.Nodes.{IsStoredAs, list_offsets, physical_list};
ghost use Rattle.arrow_nested.specs.Lists.{child_field, child_type, list_child, parts_between, IsLists};
ghost use Rattle.arrow_types.specs.Seen.{seen, seen_field};
ghost use Rattle.arrow_types.specs.Select.{nat_of};
ghost use Rattle.arrow_types.specs.declared.datatype.PhysicalType.{PhysicalType};

use arrow_buffers::{Bitmap, Offset, OffsetsBuffer};
use arrow_flat::validity::mask_fits;
use arrow_meaning::{ArrayRef, Node};
use arrow_types::{ArrowDataType, Field, Mem, PhysicalType, is_same};
use std::alloc::Global;

/// The physical type of lists, by whether their offsets are large.
pub(crate) fn physical_list(is_large: bool) -> PhysicalType
    ensures { result ≡ physical_list is_large }
{
    if is_large {
        PhysicalType::LargeList
    } else {
        PhysicalType::List
    }
}

/// The field of the items that a type of lists or maps declares, through extensions; None for
/// another type.
#[tactic(auto, using(arrow_flat::proofs::TypeViews::seen_types))]
pub(crate) fn child_field(dtype: &ArrowDataType) -> Option<&Field>
    ensures { option_map (λ f. seen_field f.now) result ≡ child_field (seen dtype.now) }
{
    match dtype {
        ArrowDataType::List(field)
        | ArrowDataType::LargeList(field)
        | ArrowDataType::FixedSizeList(field, _)
        | ArrowDataType::Map(field, _) => Some(field.get()),
        ArrowDataType::Extension(extension) => child_field(&extension.get().inner),
        _ => None,
    }
}

/// Whether a type declares the whole type of a child.
pub(crate) fn declares_child(dtype: &ArrowDataType, child: &ArrowDataType) -> bool
    ensures { IsTrue result ↔ (child_type (seen dtype.now) ≡ Some (seen child.now)) }
{
    match child_field(dtype) {
        Some(field) => is_same(&field.dtype, child),
        None => false,
    }
}

/// Whether the last offset is at most a length.
pub(crate) fn ends_within<O: Offset>(offsets: &OffsetsBuffer<O>, length: usize) -> bool
    ensures { IsTrue result ↔ (end_of (map O.number offsets.now) ≤ length) }
{
    offsets.last().to_usize() <= length
}

/// Whether a mask, if there is one, has a bit for each slot between the offsets.
pub(crate) fn covers_slots<O: Offset>(validity: &Option<Bitmap>, offsets: &OffsetsBuffer<O>) -> bool
    ensures { IsTrue result
        ↔ (MaskHasLength validity.now (pred (count (map O.number offsets.now)))) }
{
    mask_fits(validity, offsets.len_proxy())
}

/// The child of a list, a large list or a map.
pub(crate) fn list_child(array: &ArrayRef) -> &ArrayRef
    requires { IsLists array.now }
    ensures { result.now ≡ list_child array.now }
{
    match array.node() {
        Node::List { child, .. } | Node::LargeList { child, .. } | Node::Map { child, .. } => child,
        _ => unreachable!(),
    }
}

/// The items of slot `i`: those of the child from an offset up to the next.
pub(crate) fn part_between<O: Offset>(
    alloc: Global,
    offsets: &OffsetsBuffer<O>,
    child: &ArrayRef,
    i: usize,
) -> Mem<ArrayRef>
    requires slot { i + 1 < count offsets.now }
    requires within { end_of (map O.number offsets.now) ≤ length_of child.now }
    ensures { IfOk result (λ a.
        slice_get (parts_between (map nat_of (map O.number offsets.now)) child.now) i ≡ Some a) }
{
    let (start, end) = offsets.start_end(i);
    child.sliced(alloc, start, end - start)
}
