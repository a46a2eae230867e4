//! Arrays of slots that say nothing: nulls, and of a union the slots of its first number that say
//! nothing themselves.
ghost use Rattle.std.specs.Prelude.{◌≡◌, ◌<◌, pos, IfErr, IfOk, Some, length as count, map, replicate};
ghost use Rattle.arrow_types.specs.Carried.{AreCarried, IsCarried};
ghost use Rattle.arrow_types.specs.Seen.{seen, seen_fields, seen_union};
ghost use Rattle.arrow_types.specs.Types.{integer_type, logical_of, physical_of};
ghost use Rattle.arrow_types.specs.declared.datatype.PhysicalType.TheVariants as physical;
ghost use Rattle.arrow_layout.specs.Layouts.{dictionaries, fixed_size_lists, layouts, lists, retyped, structs};
ghost use Rattle.arrow_layout.specs.NullLayout.{null_layout, null_layouts, null_mask, null_offsets, null_selected};
ghost use Rattle.arrow_layout.specs.NullsFit.{AllNullsFit, NullsFit, SelectedNullsFit};
ghost use Rattle.arrow_layout.specs.Paths.{children_of};
ghost use Rattle.arrow_meaning.specs.Nodes.{layout_of, node_physical, physical_list};
ghost use Rattle.arrow_meaning.specs.Refusals.{NullsRefused, TypeRefused};

use crate::copy::{clone_dictionary, clone_fixed_size_list, clone_map, clone_struct, clone_union};
use crate::null_check::{check_nulls, first_number, first_position, one_if_any};
use crate::null_flat::{null_fixed_size_binary, null_flat, null_keys};
use crate::null_parts::{null_dense_offsets, null_mask, null_offsets, repeated};
use crate::{ArrayRef, Node, NodeOffset};
use arrow_types::{ArrowDataType, Field, IntegerType, Mem, PolarsResult, UnionType};
use std::alloc::Global;

/// An array of the type without slots.
///
/// Refused as Unsupported exactly where the type holds Float16, Float32, Float64, Decimal256 or
/// Unknown at any depth, and as ComputeError(NotCarried) exactly where it holds none of them and no
/// array has it: a union in it has no fields, more than 127, or illegal ids, a fixed-size binary
/// has the size 0, or the entries of a map aren't a struct of two fields.
pub fn new_empty_array(alloc: Global, dtype: ArrowDataType) -> PolarsResult<ArrayRef>
    ensures ok { IfOk result (λ a. a ≡ null_layout (seen dtype) 0) }
    ensures carried { IfOk result (λ a. IsCarried (seen dtype)) }
    ensures refused { IfErr result (λ e. TypeRefused e (seen dtype)) }
{
    new_null_array(alloc, dtype, 0)
}

/// An array of the type with `length` slots that say nothing: nulls, and of a union slots of its
/// first id (0 without ids) that say nothing themselves.
///
/// Lists and maps have no items. Structs, fixed-size lists and sparse unions have such slots in all
/// children. A dense union has one of the selected child for each slot, and its other children have
/// no slots. The keys of a dictionary are 0, with one value that says nothing, or none for no
/// slots.
///
/// Refused as `new_empty_array` is, and then as ComputeError(LengthOverflow) exactly where a usize
/// does not hold the length of a fixed-size list's child or the bytes of fixed-size values, or
/// where a dense union has more than 2^31 slots.
pub fn new_null_array(alloc: Global, dtype: ArrowDataType, length: usize) -> PolarsResult<ArrayRef>
    ensures ok { IfOk result (λ a. a ≡ null_layout (seen dtype) length) }
    ensures carried { IfOk result (λ a. IsCarried (seen dtype)) }
    ensures fits { IfOk result (λ a. NullsFit (seen dtype) length) }
    ensures refused { IfErr result (λ e. NullsRefused e (seen dtype) length) }
{
    check_nulls(&dtype, length)?;
    Ok(make_array(alloc, &dtype, length)?)
}

/// The array of `length` slots that say nothing, of a type and a count that are accepted.
#[cycle(nulls)]
fn make_array(alloc: Global, dtype: &ArrowDataType, length: usize) -> Mem<ArrayRef>
    requires carried { IsCarried (seen dtype.now) }
    requires fits { NullsFit (seen dtype.now) length }
    ensures { IfOk result (λ a. a ≡ null_layout (seen dtype.now) length) }
{
    let node = make_node(alloc, dtype, dtype, length)?;
    ArrayRef::from_sound(alloc, node)
}

/// Its node, of a type that may have extensions around the one in which it is stored.
#[cycle(nulls)]
fn make_node(
    alloc: Global,
    storage: &ArrowDataType,
    dtype: &ArrowDataType,
    length: usize,
) -> Mem<Node>
    requires logical { logical_of (seen dtype.now) ≡ logical_of (seen storage.now) }
    requires carried { IsCarried (seen storage.now) }
    requires fits { NullsFit (seen storage.now) length }
    ensures same { IfOk result (λ n.
        layout_of n ≡ retyped (seen dtype.now) (null_layout (seen storage.now) length)) }
    ensures kind { IfOk result (λ n. physical_of (seen storage.now) ≡ Some (node_physical n)) }
{
    match storage {
        ArrowDataType::FixedSizeBinary(size) => {
            null_fixed_size_binary(alloc, dtype, *size, length).map(Node::FixedSizeBinary)
        }
        ArrowDataType::List(field) => {
            let child = make_array(alloc, &field.get().dtype, 0)?;
            null_list::<i32>(alloc, dtype, &child, length)
        }
        ArrowDataType::LargeList(field) => {
            let child = make_array(alloc, &field.get().dtype, 0)?;
            null_list::<i64>(alloc, dtype, &child, length)
        }
        ArrowDataType::Map(field, _) => {
            let child = make_array(alloc, &field.get().dtype, 0)?;
            null_map(alloc, dtype, &child, length)
        }
        ArrowDataType::FixedSizeList(field, size) => {
            let child = make_array(alloc, &field.get().dtype, length * *size)?;
            null_fixed_size_list(alloc, dtype, *size, &child, length)
        }
        ArrowDataType::Struct(fields) => {
            let children = make_arrays(alloc, fields.as_slice(), length)?;
            null_struct(alloc, dtype, &children, length)
        }
        ArrowDataType::Union(union) => {
            let children = make_children(alloc, union.get(), length)?;
            null_union(alloc, union.get(), dtype, &children, length)
        }
        ArrowDataType::Dictionary(key, values, _) => {
            let child = make_array(alloc, values.get(), one_if_any(length))?;
            null_dictionary(alloc, dtype, *key, &child, length)
        }
        ArrowDataType::Extension(extension) => {
            make_node(alloc, &extension.get().inner, dtype, length)
        }
        _ => null_flat(alloc, dtype, length),
    }
}

/// The children of a union of `length` slots that say nothing.
#[cycle(nulls)]
fn make_children(alloc: Global, union: &UnionType, length: usize) -> Mem<Vec<ArrayRef>>
    requires carried { IsCarried (seen_union union.now) }
    requires fits { NullsFit (seen_union union.now) length }
    ensures { IfOk result (λ children.
        layouts children.items ≡ children_of (null_layout (seen_union union.now) length)) }
{
    let fields = union.fields.as_slice();
    if union.mode.is_sparse() {
        return make_arrays(alloc, fields, length);
    }
    make_selected(alloc, fields, first_position(&union.ids), length)
}

/// An array for each field: `length` slots of the field at the position, and none of the others.
#[cycle(nulls)]
fn make_selected(
    alloc: Global,
    fields: &[Field],
    position: usize,
    length: usize,
) -> Mem<Vec<ArrayRef>>
    requires within { position < count fields.now }
    requires carried { AreCarried (seen_fields fields.now) }
    requires fits { SelectedNullsFit (seen_fields fields.now) position length }
    ensures { IfOk result (λ children.
        layouts children.items ≡ null_selected (seen_fields fields.now) position length) }
{
    let selected = make_array(alloc, &fields[position].dtype, length)?;
    let mut children = make_arrays(alloc, fields, 0)?;
    children[position] = selected;
    Ok(children)
}

/// An array for each field, each of `length` slots.
#[cycle(nulls)]
fn make_arrays(alloc: Global, fields: &[Field], length: usize) -> Mem<Vec<ArrayRef>>
    requires carried { AreCarried (seen_fields fields.now) }
    requires fits { AllNullsFit (seen_fields fields.now) length }
    ensures same { IfOk result (λ children.
        layouts children.items ≡ null_layouts (seen_fields fields.now) length) }
    ensures each { IfOk result (λ children.
        children.items ≡ map (λ f. null_layout (seen f.dtype) length) fields.now) }
{
    let mut children = Vec::new(alloc);
    for field in fields {
        let child = make_array(alloc, &field.dtype, length)?;
        children.push(child)?;
    }
    Ok(children)
}

/// Lists without items.
fn null_list<O: NodeOffset>(
    alloc: Global,
    dtype: &ArrowDataType,
    child: &ArrayRef,
    length: usize,
) -> Mem<Node>
    ensures same { IfOk result (λ n. layout_of n
        ≡ lists (seen dtype.now) (null_mask length) (null_offsets length) child.now) }
    ensures kind { IfOk result (λ n. node_physical n ≡ physical_list O.IS_LARGE) }
{
    let offsets = null_offsets::<O>(alloc, length)?;
    let validity = null_mask(alloc, length)?;
    O::list_node(alloc, dtype, &offsets, child, &validity)
}

/// Maps without entries.
fn null_map(alloc: Global, dtype: &ArrowDataType, child: &ArrayRef, length: usize) -> Mem<Node>
    ensures same { IfOk result (λ n. layout_of n
        ≡ lists (seen dtype.now) (null_mask length) (null_offsets length) child.now) }
    ensures kind { IfOk result (λ n. node_physical n ≡ physical.Map) }
{
    let offsets = null_offsets::<i32>(alloc, length)?;
    let validity = null_mask(alloc, length)?;
    clone_map(alloc, dtype, &offsets, child, &validity)
}

/// Null lists of `size` items each.
fn null_fixed_size_list(
    alloc: Global,
    dtype: &ArrowDataType,
    size: usize,
    child: &ArrayRef,
    length: usize,
) -> Mem<Node>
    ensures same { IfOk result (λ n. layout_of n
        ≡ fixed_size_lists (seen dtype.now) (null_mask length) size length child.now) }
    ensures kind { IfOk result (λ n. node_physical n ≡ physical.FixedSizeList) }
{
    let validity = null_mask(alloc, length)?;
    clone_fixed_size_list(alloc, dtype, size, length, child, &validity)
}

/// Null structs over these children.
fn null_struct(
    alloc: Global,
    dtype: &ArrowDataType,
    children: &[ArrayRef],
    length: usize,
) -> Mem<Node>
    ensures same { IfOk result (λ n. layout_of n
        ≡ structs (seen dtype.now) (null_mask length) length (layouts children.now)) }
    ensures kind { IfOk result (λ n. node_physical n ≡ physical.Struct) }
{
    let validity = null_mask(alloc, length)?;
    clone_struct(alloc, dtype, length, children, &validity)
}

/// Slots of the first number of the union, over these children.
fn null_union(
    alloc: Global,
    union: &UnionType,
    dtype: &ArrowDataType,
    children: &[ArrayRef],
    length: usize,
) -> Mem<Node>
    requires carried { IsCarried (seen_union union.now) }
    requires fits { NullsFit (seen_union union.now) length }
    requires parts { layouts children.now
        ≡ children_of (null_layout (seen_union union.now) length) }
    ensures same { IfOk result (λ n.
        layout_of n ≡ retyped (seen dtype.now) (null_layout (seen_union union.now) length)) }
    ensures kind { IfOk result (λ n. node_physical n ≡ physical.Union) }
{
    let types = repeated(alloc, first_number(&union.ids) as i8, length)?;
    let offsets = null_dense_offsets(alloc, union.mode, length)?;
    clone_union(alloc, dtype, &types, &offsets, children, 0)
}

/// Null keys, each 0, over these values.
fn null_dictionary(
    alloc: Global,
    dtype: &ArrowDataType,
    key: IntegerType,
    child: &ArrayRef,
    length: usize,
) -> Mem<Node>
    ensures same { IfOk result (λ n. layout_of n ≡ dictionaries (seen dtype.now)
        (integer_type key) (null_mask length) (replicate length (pos 0)) child.now) }
    ensures kind { IfOk result (λ n. node_physical n ≡ physical.Dictionary key) }
{
    let keys = null_keys(alloc, key, length)?;
    clone_dictionary(alloc, dtype, &keys, child)
}
