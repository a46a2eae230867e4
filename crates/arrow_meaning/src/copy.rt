//! Further owners of the parts of a node.
ghost use Rattle.std.specs.Prelude.{◌≡◌, IfOk, Option};
ghost use Rattle.arrow_types.specs.Seen.{seen};
ghost use Rattle.arrow_types.specs.declared.datatype.PhysicalType.TheVariants as physical;
ghost use Rattle.arrow_layout.specs.Layouts.{fixed_size_lists, layouts, nulls, structs};
ghost use Rattle.arrow_meaning.specs.Nodes.{dictionary_layout, key_layout, key_type_of, layout_of, list_layout, node_physical, union_layout};

use crate::{ArrayRef, KeyNode, Node};
use arrow_buffers::{Bitmap, Buffer, OffsetsBuffer};
use arrow_flat::TryClone;
use arrow_flat::validity::clone_mask;
use arrow_types::{ArrowDataType, Mem};
use std::alloc::Global;

/// A null array of this type and length.
pub(crate) fn clone_null(alloc: Global, dtype: &ArrowDataType, length: usize) -> Mem<Node>
    ensures same { IfOk result (λ n. layout_of n ≡ nulls (seen dtype.now) length) }
    ensures kind { IfOk result (λ n. node_physical n ≡ physical.Null) }
{
    Ok(Node::Null {
        dtype: dtype.try_clone(alloc)?,
        length,
    })
}

/// Maps of these parts.
pub(crate) fn clone_map(
    alloc: Global,
    dtype: &ArrowDataType,
    offsets: &OffsetsBuffer<i32>,
    child: &ArrayRef,
    validity: &Option<Bitmap>,
) -> Mem<Node>
    ensures same { IfOk result (λ n. layout_of n
        ≡ list_layout (λ o. o) dtype.now offsets.now child.now validity.now) }
    ensures kind { IfOk result (λ n. node_physical n ≡ physical.Map) }
{
    Ok(Node::Map {
        dtype: dtype.try_clone(alloc)?,
        offsets: offsets.try_clone(alloc)?,
        child: child.try_clone(alloc)?,
        validity: clone_mask(alloc, validity)?,
    })
}

/// Fixed-size lists of these parts.
pub(crate) fn clone_fixed_size_list(
    alloc: Global,
    dtype: &ArrowDataType,
    size: usize,
    length: usize,
    child: &ArrayRef,
    validity: &Option<Bitmap>,
) -> Mem<Node>
    ensures same { IfOk result (λ n. layout_of n
        ≡ fixed_size_lists (seen dtype.now) validity.now size length child.now) }
    ensures kind { IfOk result (λ n. node_physical n ≡ physical.FixedSizeList) }
{
    Ok(Node::FixedSizeList {
        dtype: dtype.try_clone(alloc)?,
        size,
        length,
        child: child.try_clone(alloc)?,
        validity: clone_mask(alloc, validity)?,
    })
}

/// Structs of these parts.
pub(crate) fn clone_struct(
    alloc: Global,
    dtype: &ArrowDataType,
    length: usize,
    children: &[ArrayRef],
    validity: &Option<Bitmap>,
) -> Mem<Node>
    ensures same { IfOk result (λ n. layout_of n
        ≡ structs (seen dtype.now) validity.now length (layouts children.now)) }
    ensures kind { IfOk result (λ n. node_physical n ≡ physical.Struct) }
{
    Ok(Node::Struct {
        dtype: dtype.try_clone(alloc)?,
        length,
        children: clone_all(alloc, children)?,
        validity: clone_mask(alloc, validity)?,
    })
}

/// A union of these parts.
pub(crate) fn clone_union(
    alloc: Global,
    dtype: &ArrowDataType,
    types: &Buffer<i8>,
    offsets: &Option<Buffer<i32>>,
    children: &[ArrayRef],
    shift: usize,
) -> Mem<Node>
    ensures same { IfOk result (λ n. layout_of n
        ≡ union_layout dtype.now types.now offsets.now (layouts children.now) shift) }
    ensures kind { IfOk result (λ n. node_physical n ≡ physical.Union) }
{
    Ok(Node::Union {
        dtype: dtype.try_clone(alloc)?,
        types: types.try_clone(alloc)?,
        offsets: offsets.try_clone(alloc)?,
        children: clone_all(alloc, children)?,
        shift,
    })
}

/// A dictionary of these parts.
pub(crate) fn clone_dictionary(
    alloc: Global,
    dtype: &ArrowDataType,
    keys: &KeyNode,
    child: &ArrayRef,
) -> Mem<Node>
    ensures same { IfOk result (λ n. layout_of n
        ≡ dictionary_layout dtype.now (key_layout keys.now) child.now) }
    ensures kind { IfOk result (λ n. node_physical n ≡ physical.Dictionary (key_type_of keys.now)) }
{
    Ok(Node::Dictionary {
        dtype: dtype.try_clone(alloc)?,
        keys: keys.try_clone(alloc)?,
        child: child.try_clone(alloc)?,
    })
}

/// Another owner of each array.
pub fn clone_all(alloc: Global, arrays: &[ArrayRef]) -> Mem<Vec<ArrayRef>>
    ensures { IfOk result (λ copies. copies.items ≡ arrays.now) }
{
    let mut copies = Vec::new(alloc);
    for array in arrays {
        let copy = array.try_clone(alloc)?;
        copies.push(copy)?;
    }
    Ok(copies)
}
