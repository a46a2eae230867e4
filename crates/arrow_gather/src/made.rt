//! Nodes of canonical arrays, of their parts.
ghost use Rattle.std.specs.Prelude.{◌≡◌, ◌<◌, ◌^◌, [], pos, length as len, map, Some, IfOk, IsErrOf};
ghost use Rattle.std.specs.List.{AllByRecursion};
ghost use Rattle.arrow_types.specs.Carried.{IsBelow, IsCarried};
ghost use Rattle.arrow_types.specs.Seen.{seen};
ghost use Rattle.arrow_types.specs.Types.{physical_of};
ghost use Rattle.arrow_types.specs.declared.datatype.PhysicalType.TheVariants as physical;
ghost use Rattle.arrow_types.specs.declared.error.GrowError.TheVariants as grow;
ghost use Rattle.arrow_layout.specs.Canon.{counts_after};
ghost use Rattle.arrow_layout.specs.Layouts.{dense_unions, fixed_size_lists, layouts, nulls, sparse_unions, structs};
ghost use Rattle.arrow_layout.specs.WellFormed.{positions, type_limit};
ghost use Rattle.arrow_meaning.specs.Nodes.{layout_of, node_physical};
ghost use Rattle.arrow_canon.specs.Runs.{places, AreWithin};
ghost use Rattle.arrow_items.specs.Unions.{numbers_picked};

use arrow_buffers::Buffer;
use arrow_canon::Run;
use arrow_items::{ItemParts, fields_of_types, offsets_of_fields, union_types};
use arrow_meaning::{ArrayRef, Node};
use arrow_types::{ArrowDataType, GrowError, Mem};
use std::alloc::Global;

/// A null array of n slots.
pub(crate) fn null_node(alloc: Global, dtype: &ArrowDataType, length: usize) -> Mem<Node>
    ensures same { IfOk result (λ n. layout_of n ≡ nulls (seen dtype.now) length) }
    ensures kind { IfOk result (λ n. node_physical n ≡ physical.Null) }
{
    Ok(Node::Null {
        dtype: dtype.try_clone(alloc)?,
        length,
    })
}

/// The fixed-size lists of these parts over a child.
pub(crate) fn fixed_size_list_node(
    alloc: Global,
    dtype: &ArrowDataType,
    size: usize,
    length: usize,
    parts: ItemParts,
    child: ArrayRef,
) -> Mem<Node>
    ensures same { IfOk result (λ n. layout_of n
        ≡ fixed_size_lists (seen dtype.now) parts.validity size length child) }
    ensures kind { IfOk result (λ n. node_physical n ≡ physical.FixedSizeList) }
{
    Ok(Node::FixedSizeList {
        dtype: dtype.try_clone(alloc)?,
        size,
        length,
        child,
        validity: parts.validity,
    })
}

/// The structs of these parts over children.
pub(crate) fn struct_node(
    alloc: Global,
    dtype: &ArrowDataType,
    length: usize,
    parts: ItemParts,
    children: Vec<ArrayRef>,
) -> Mem<Node>
    ensures same { IfOk result (λ n. layout_of n
        ≡ structs (seen dtype.now) parts.validity length (layouts children.items)) }
    ensures kind { IfOk result (λ n. node_physical n ≡ physical.Struct) }
{
    Ok(Node::Struct {
        dtype: dtype.try_clone(alloc)?,
        length,
        children,
        validity: parts.validity,
    })
}

/// The sparse unions over children, of the type numbers that runs pick.
pub(crate) fn sparse_node(
    alloc: Global,
    dtype: &ArrowDataType,
    types: &Buffer<i8>,
    runs: &[Run],
    children: Vec<ArrayRef>,
) -> Mem<Node>
    requires union { physical_of (seen dtype.now) ≡ Some physical.Union }
    requires carried { IsCarried (seen dtype.now) }
    requires numbers { AllByRecursion (IsBelow (type_limit (seen dtype.now))) types.now }
    requires within { AreWithin (len types.now) runs.now }
    ensures same { let ts = numbers_picked (seen dtype.now) types.now (places runs.now) in
        IfOk result (λ n. layout_of n ≡ sparse_unions (seen dtype.now) 0 ts (layouts children.items)) }
    ensures kind { IfOk result (λ n. node_physical n ≡ physical.Union) }
{
    let types = union_types(alloc, dtype, types, runs)?;
    Ok(Node::Union {
        dtype: dtype.try_clone(alloc)?,
        types,
        offsets: None,
        children,
        shift: 0,
    })
}

/// The type numbers and the offsets of dense unions.
#[derive(Drop)]
pub(crate) struct DenseParts {
    pub(crate) types: Buffer<i8>,
    pub(crate) offsets: Buffer<i32>,
}

/// The type numbers and the offsets of the slots that runs pick out of dense unions of n fields.
///
/// Overflow exactly where an offset passes an i32.
pub(crate) fn dense_parts(
    alloc: Global,
    dtype: &ArrowDataType,
    types: &Buffer<i8>,
    count: usize,
    runs: &[Run],
) -> Result<DenseParts, GrowError>
    requires union { physical_of (seen dtype.now) ≡ Some physical.Union }
    requires carried { IsCarried (seen dtype.now) }
    requires numbers { AllByRecursion (IsBelow (type_limit (seen dtype.now))) types.now }
    requires within { AreWithin (len types.now) runs.now }
    requires fields { let t = seen dtype.now in
        AllByRecursion (λ j. j < count) (positions t (numbers_picked t types.now (places runs.now))) }
    ensures types { IfOk result (λ p.
        p.types ≡ numbers_picked (seen dtype.now) types.now (places runs.now)) }
    ensures offsets { let t = seen dtype.now in
        let os = map pos (counts_after [] (positions t (numbers_picked t types.now (places runs.now)))) in
        IfOk result (λ p. (p.offsets ≡ os) × AllByRecursion (IsBelow (2 ^ 31)) os) }
    ensures overflow { let t = seen dtype.now in
        let os = map pos (counts_after [] (positions t (numbers_picked t types.now (places runs.now)))) in
        IsErrOf result grow.Overflow → AllByRecursion (IsBelow (2 ^ 31)) os → ⊥ }
{
    let types = union_types(alloc, dtype, types, runs)?;
    let fields = fields_of_types(alloc, dtype, &types)?;
    let offsets = offsets_of_fields(alloc, &fields, count)?;
    Ok(DenseParts { types, offsets })
}

/// The dense unions of these parts over children.
pub(crate) fn dense_node(
    alloc: Global,
    dtype: &ArrowDataType,
    parts: DenseParts,
    children: Vec<ArrayRef>,
) -> Mem<Node>
    ensures same { IfOk result (λ n. layout_of n
        ≡ dense_unions (seen dtype.now) 0 parts.types parts.offsets (layouts children.items)) }
    ensures kind { IfOk result (λ n. node_physical n ≡ physical.Union) }
{
    Ok(Node::Union {
        dtype: dtype.try_clone(alloc)?,
        types: parts.types,
        offsets: Some(parts.offsets),
        children,
        shift: 0,
    })
}
