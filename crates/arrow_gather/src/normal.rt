//! The canonical array of picked slots.
ghost use Rattle.std.specs.Prelude.{◌≡◌, ◌+◌, ◌*◌, ◌≤◌, ◌<◌, ◌^◌, pos, Some, length as len, map, pred, IfOk, IsErrOf};
ghost use Rattle.std.specs.List.{AllByRecursion};
ghost use Rattle.arrow_types.specs.Capacity.{key_capacity};
ghost use Rattle.arrow_types.specs.Carried.{IsBelow, IsCarried, count_fields};
ghost use Rattle.arrow_types.specs.Seen.{seen};
ghost use Rattle.arrow_types.specs.Select.{nat_of};
ghost use Rattle.arrow_types.specs.Types.{physical_of};
ghost use Rattle.arrow_types.specs.declared.datatype.PhysicalType.TheVariants as physical;
ghost use Rattle.arrow_types.specs.declared.error.GrowError.TheVariants as grow;
ghost use Rattle.arrow_flat.specs.Primitives.{MaskHasLength};
ghost use Rattle.arrow_layout.specs.Canon.{distinct};
ghost use Rattle.arrow_layout.specs.Denote.{validity_of};
ghost use Rattle.arrow_layout.specs.Fits.{AllFit, Fits};
ghost use Rattle.arrow_layout.specs.FitsHere.{HaveLengths};
ghost use Rattle.arrow_layout.specs.Forms.{dictionaries_of, fields_by, fixed_size_lists_of, form_of, lists_of, structs_of, value_by};
ghost use Rattle.arrow_layout.specs.Layouts.{layouts, length_of, lengths_of, type_of};
ghost use Rattle.arrow_layout.specs.OfValues.{IsOfValues};
ghost use Rattle.arrow_layout.specs.WellFormed.{AllNamed, AreOffsetsTo, WellFormed, positions, type_limit};
ghost use Rattle.arrow_meaning.specs.Nodes.{AreKeysBelow, IsSoundNode, key_layout, key_type_of, layout_of, list_offsets, node_physical};
ghost use Rattle.arrow_canon.specs.Canonical.{canonical_of};
ghost use Rattle.arrow_canon.specs.Runs.{AreWithin, canon_of_runs, places};
ghost use Rattle.arrow_items.specs.Kinds.{child_picked, chunks_picked, lists_picked, structs_picked};
ghost use Rattle.arrow_items.specs.Items.{kept_places};
ghost use Rattle.arrow_items.specs.Unions.{children_by, dense_children, dense_picked, fill_field, sparse_children, sparse_picked};
ghost use Rattle.arrow_gather.specs.Distincts.{dictionaries_picked, picked_values};
ghost use Rattle.arrow_gather.specs.Lists.{IsListKind, is_large};
ghost use Rattle.arrow_gather.specs.Made.{IsMade};
ghost use Rattle.arrow_gather.specs.Types.{HasTypeOf};

use crate::dictionary::{dictionary_node, dictionary_parts, value_type};
use crate::list::{list_items, list_node};
use crate::made::{
    dense_node, dense_parts, fixed_size_list_node, null_node, sparse_node, struct_node,
};
use arrow_buffers::{Bitmap, Buffer};
use arrow_canon::{Run, canonical_values, count_slots};
use arrow_items::{
    chunk_parts, dense_runs, fields_of_types, filling_field, sparse_runs, struct_parts,
};
use arrow_meaning::{ArrayRef, KeyNode, Node};
use arrow_types::{ArrowDataType, GrowError};
use std::alloc::Global;

/// The canonical array of the slots that runs pick out of an array, of the array's type or of one
/// that differs from it in the extensions around it.
///
/// Overflow exactly where a count or an offset of it passes its range, at any depth, or the lengths
/// of a column of views sum to more than 2^62.
#[cycle(canonical)]
pub fn canonical(
    alloc: Global,
    array: &ArrayRef,
    dtype: &ArrowDataType,
    runs: &[Run],
) -> Result<ArrayRef, GrowError>
    requires of_type { HasTypeOf (seen dtype.now) array.now }
    requires within { AreWithin (length_of array.now) runs.now }
    ensures ok { let l = canon_of_runs (seen dtype.now) array.now runs.now in
        IfOk result (λ a. (a ≡ l) × Fits l) }
    ensures overflow { let l = canon_of_runs (seen dtype.now) array.now runs.now in
        IsErrOf result grow.Overflow → Fits l → ⊥ }
{
    array.invariant();
    let Some(length) = count_slots(runs) else {
        return Err(GrowError::Overflow);
    };
    let node = canonical_node(alloc, array, dtype, runs, length)?;
    Ok(ArrayRef::from_node(alloc, node)?)
}

/// The canonical array of the slots of an array, of the same whole type: equal slots give one
/// layout.
///
/// Overflow exactly where a count or an offset of it passes its range, at any depth, or the lengths
/// of a column of views sum to more than 2^62.
pub fn normalized(alloc: Global, array: &ArrayRef) -> Result<ArrayRef, GrowError>
    ensures of_values { IsOfValues array.now → IfOk result (λ a. IsOfValues a) }
    ensures ok { IfOk result (λ a. (a ≡ canonical_of array.now) × Fits (canonical_of array.now)) }
    ensures overflow { IsErrOf result grow.Overflow → Fits (canonical_of array.now) → ⊥ }
{
    array.invariant();
    let whole = Run::Slots {
        start: 0,
        length: array.len(),
    };
    canonical(alloc, array, array.dtype(), &[whole])
}

/// The node of the canonical array of n picked slots.
#[cycle(canonical)]
fn canonical_node(
    alloc: Global,
    array: &ArrayRef,
    dtype: &ArrowDataType,
    runs: &[Run],
    length: usize,
) -> Result<Node, GrowError>
    requires of_type { HasTypeOf (seen dtype.now) array.now }
    requires within { AreWithin (length_of array.now) runs.now }
    requires counted { length ≡ len (places runs.now) }
    ensures sound { IfOk result (λ n. WellFormed (layout_of n) → IsSoundNode n) }
    ensures ok { let l = canon_of_runs (seen dtype.now) array.now runs.now in
        IfOk result (λ n. (layout_of n ≡ l) × Fits l) }
    ensures overflow { let l = canon_of_runs (seen dtype.now) array.now runs.now in
        IsErrOf result grow.Overflow → Fits l → ⊥ }
{
    let node = array.node();
    match node {
        Node::Null { .. } => Ok(null_node(alloc, dtype, length)?),
        Node::List { child, .. } => canonical_list(alloc, dtype, node, child, runs),
        Node::LargeList { child, .. } => canonical_list(alloc, dtype, node, child, runs),
        Node::Map { child, .. } => canonical_list(alloc, dtype, node, child, runs),
        Node::FixedSizeList {
            size,
            length: slots,
            child,
            validity,
            ..
        } => {
            canonical_fixed_size_list(alloc, dtype, *size, *slots, child, validity, runs, length)
        }
        Node::Struct {
            length: slots,
            children,
            validity,
            ..
        } => canonical_struct(alloc, dtype, *slots, children, validity, runs, length),
        Node::Union {
            types,
            offsets,
            children,
            shift,
            ..
        } => match offsets {
            Some(offsets) => canonical_dense(alloc, dtype, types, offsets, children, runs),
            None => canonical_sparse(alloc, dtype, types, *shift, children, runs),
        },
        Node::Dictionary { keys, child, .. } => {
            canonical_dictionary(alloc, dtype, keys, child, runs)
        }
        _ => canonical_values(alloc, node, dtype, runs),
    }
}

/// The canonical array of the slots that runs pick out of a child, of the child's type.
#[cycle(canonical)]
fn canonical_child(alloc: Global, child: &ArrayRef, items: &[Run]) -> Result<ArrayRef, GrowError>
    requires { AreWithin (length_of child.now) items.now }
    ensures ok { let l = child_picked child.now (places items.now) in
        IfOk result (λ a. (a ≡ l) × Fits l) }
    ensures overflow { IsErrOf result grow.Overflow
        → Fits (child_picked child.now (places items.now)) → ⊥ }
{
    canonical(alloc, child, child.dtype(), items)
}

/// The lists, large lists or maps of picked ones.
#[cycle(canonical)]
fn canonical_list(
    alloc: Global,
    dtype: &ArrowDataType,
    node: &Node,
    child: &ArrayRef,
    runs: &[Run],
) -> Result<Node, GrowError>
    requires lists { IsListKind (node_physical node.now) }
    requires form { form_of (seen dtype.now)
        ≡ lists_of (is_large (node_physical node.now)) (type_of child.now) }
    requires within { AreWithin (pred (len (list_offsets (layout_of node.now)))) runs.now }
    requires mask { let n = layout_of node.now in
        MaskHasLength (validity_of n) (pred (len (list_offsets n))) }
    requires offsets { let n = layout_of node.now in
        AreOffsetsTo (length_of child.now) (map nat_of (list_offsets n)) }
    requires room { len (places runs.now) < 2 ^ 64 }
    ensures ok { let n = layout_of node.now in
        let os = map nat_of (list_offsets n) in
        let l = lists_picked (seen dtype.now) (validity_of n) os child.now (places runs.now) in
        IfOk result (IsMade (node_physical node.now) l) }
    ensures overflow { let n = layout_of node.now in
        let os = map nat_of (list_offsets n) in
        let l = lists_picked (seen dtype.now) (validity_of n) os child.now (places runs.now) in
        IsErrOf result grow.Overflow → Fits l → ⊥ }
{
    let parts = list_items(alloc, node, runs)?;
    let child = canonical_child(alloc, child, &parts.items)?;
    Ok(list_node(alloc, dtype, parts, child)?)
}

/// The fixed-size lists of n picked ones.
#[cycle(canonical)]
fn canonical_fixed_size_list(
    alloc: Global,
    dtype: &ArrowDataType,
    size: usize,
    slots: usize,
    child: &ArrayRef,
    validity: &Option<Bitmap>,
    runs: &[Run],
    length: usize,
) -> Result<Node, GrowError>
    requires within { AreWithin slots runs.now }
    requires mask { MaskHasLength validity.now slots }
    requires whole { length_of child.now ≡ slots * size }
    requires counted { length ≡ len (places runs.now) }
    ensures ok { let l = chunks_picked (seen dtype.now) validity.now size child.now (places runs.now) in
        IfOk result (IsMade physical.FixedSizeList l) }
    ensures overflow { let l = chunks_picked (seen dtype.now) validity.now size child.now (places runs.now) in
        IsErrOf result grow.Overflow → Fits l → ⊥ }
{
    let _slots = child.len();
    let parts = chunk_parts(alloc, size, slots, validity.as_ref(), runs)?;
    let child = canonical_child(alloc, child, &parts.items)?;
    Ok(fixed_size_list_node(alloc, dtype, size, length, parts, child)?)
}

/// The structs of n picked ones.
#[cycle(canonical)]
fn canonical_struct(
    alloc: Global,
    dtype: &ArrowDataType,
    slots: usize,
    children: &[ArrayRef],
    validity: &Option<Bitmap>,
    runs: &[Run],
    length: usize,
) -> Result<Node, GrowError>
    requires within { AreWithin slots runs.now }
    requires mask { MaskHasLength validity.now slots }
    requires lengths { HaveLengths (λ n. n ≡ slots) (layouts children.now) }
    requires counted { length ≡ len (places runs.now) }
    ensures ok { let l = structs_picked (seen dtype.now) validity.now (layouts children.now) (places runs.now) in
        IfOk result (IsMade physical.Struct l) }
    ensures overflow { let l = structs_picked (seen dtype.now) validity.now (layouts children.now) (places runs.now) in
        IsErrOf result grow.Overflow → Fits l → ⊥ }
{
    let parts = struct_parts(alloc, validity.as_ref(), runs)?;
    let children = canonical_children(alloc, children, slots, &parts.items)?;
    Ok(struct_node(alloc, dtype, length, parts, children)?)
}

/// The canonical arrays of the slots that runs pick out of each child of a struct.
#[cycle(canonical)]
fn canonical_children(
    alloc: Global,
    children: &[ArrayRef],
    slots: usize,
    items: &[Run],
) -> Result<Vec<ArrayRef>, GrowError>
    requires lengths { HaveLengths (λ n. n ≡ slots) (layouts children.now) }
    requires within { AreWithin slots items.now }
    ensures ok { let ls = children_by (λ j. places items.now) (layouts children.now) 0 in
        IfOk result (λ v. (layouts v.items ≡ ls) × AllFit ls) }
    ensures overflow { let ls = children_by (λ j. places items.now) (layouts children.now) 0 in
        IsErrOf result grow.Overflow → AllFit ls → ⊥ }
{
    let mut made = Vec::new(alloc);
    for child in children {
        let one = canonical_child(alloc, child, items)?;
        made.push(one)?;
    }
    Ok(made)
}

/// The sparse unions of picked ones.
#[cycle(canonical)]
fn canonical_sparse(
    alloc: Global,
    dtype: &ArrowDataType,
    types: &Buffer<i8>,
    shift: usize,
    children: &[ArrayRef],
    runs: &[Run],
) -> Result<Node, GrowError>
    requires union { physical_of (seen dtype.now) ≡ Some physical.Union }
    requires carried { IsCarried (seen dtype.now) }
    requires numbers { AllByRecursion (IsBelow (type_limit (seen dtype.now))) types.now }
    requires within { AreWithin (len types.now) runs.now }
    requires reach { shift + len types.now < 2 ^ 64 }
    requires lengths { HaveLengths (λ n. shift + len types.now ≤ n) (layouts children.now) }
    requires room { len (places runs.now) < 2 ^ 64 }
    ensures ok { let ls = layouts children.now in
        let l = sparse_picked (seen dtype.now) shift types.now ls (places runs.now) in
        IfOk result (IsMade physical.Union l) }
    ensures overflow { let ls = layouts children.now in
        let l = sparse_picked (seen dtype.now) shift types.now ls (places runs.now) in
        IsErrOf result grow.Overflow → Fits l → ⊥ }
{
    let fields = fields_of_types(alloc, dtype, types)?;
    let made = canonical_sparse_children(alloc, children, &fields, shift, runs)?;
    Ok(sparse_node(alloc, dtype, types, runs, made)?)
}

/// The canonical arrays of the children of picked slots of a sparse union, given the field that
/// each slot of the source selects.
#[cycle(canonical)]
fn canonical_sparse_children(
    alloc: Global,
    children: &[ArrayRef],
    fields: &[usize],
    shift: usize,
    runs: &[Run],
) -> Result<Vec<ArrayRef>, GrowError>
    requires lengths { HaveLengths (λ n. shift + len fields.now ≤ n) (layouts children.now) }
    requires within { AreWithin (len fields.now) runs.now }
    requires reach { shift + len fields.now < 2 ^ 64 }
    ensures ok { let ls = sparse_children fields.now shift (layouts children.now) (places runs.now) in
        IfOk result (λ v. (layouts v.items ≡ ls) × AllFit ls) }
    ensures overflow { IsErrOf result grow.Overflow
        → AllFit (sparse_children fields.now shift (layouts children.now) (places runs.now)) → ⊥ }
{
    let mut made = Vec::new(alloc);
    for j in 0..children.len() {
        let items = sparse_runs(alloc, fields, shift, j, runs)?;
        let one = canonical_child(alloc, &children[j], &items)?;
        made.push(one)?;
    }
    Ok(made)
}

/// The dense unions of picked ones.
#[cycle(canonical)]
fn canonical_dense(
    alloc: Global,
    dtype: &ArrowDataType,
    types: &Buffer<i8>,
    offsets: &Buffer<i32>,
    children: &[ArrayRef],
    runs: &[Run],
) -> Result<Node, GrowError>
    requires union { physical_of (seen dtype.now) ≡ Some physical.Union }
    requires carried { IsCarried (seen dtype.now) }
    requires numbers { AllByRecursion (IsBelow (type_limit (seen dtype.now))) types.now }
    requires counts { len children.now ≡ count_fields (fields_by (form_of (seen dtype.now))) }
    requires in_range { AllByRecursion (IsBelow (2 ^ 31)) offsets.now }
    requires named { AllNamed (lengths_of (layouts children.now))
        (positions (seen dtype.now) types.now) (map nat_of offsets.now) }
    requires within { AreWithin (len types.now) runs.now }
    requires room { len (places runs.now) < 2 ^ 64 }
    ensures ok { let os = map nat_of offsets.now in
        let ls = layouts children.now in
        let l = dense_picked (seen dtype.now) types.now os ls (places runs.now) in
        IfOk result (IsMade physical.Union l) }
    ensures overflow { let os = map nat_of offsets.now in
        let ls = layouts children.now in
        let l = dense_picked (seen dtype.now) types.now os ls (places runs.now) in
        IsErrOf result grow.Overflow → Fits l → ⊥ }
{
    let parts = dense_parts(alloc, dtype, types, children.len(), runs)?;
    let made = canonical_dense_children(alloc, dtype, types, offsets, children, runs)?;
    Ok(dense_node(alloc, dtype, parts, made)?)
}

/// The canonical arrays of the children of picked slots of a dense union.
#[cycle(canonical)]
fn canonical_dense_children(
    alloc: Global,
    dtype: &ArrowDataType,
    types: &Buffer<i8>,
    offsets: &Buffer<i32>,
    children: &[ArrayRef],
    runs: &[Run],
) -> Result<Vec<ArrayRef>, GrowError>
    requires union { physical_of (seen dtype.now) ≡ Some physical.Union }
    requires carried { IsCarried (seen dtype.now) }
    requires numbers { AllByRecursion (IsBelow (type_limit (seen dtype.now))) types.now }
    requires counts { len children.now ≡ count_fields (fields_by (form_of (seen dtype.now))) }
    requires in_range { AllByRecursion (IsBelow (2 ^ 31)) offsets.now }
    requires named { AllNamed (lengths_of (layouts children.now))
        (positions (seen dtype.now) types.now) (map nat_of offsets.now) }
    requires within { AreWithin (len types.now) runs.now }
    ensures ok { let fields = positions (seen dtype.now) types.now in
        let os = map nat_of offsets.now in
        let first = fill_field (seen dtype.now) in
        let ls = dense_children fields os first (layouts children.now) (places runs.now) in
        IfOk result (λ v. (layouts v.items ≡ ls) × AllFit ls) }
    ensures overflow { let fields = positions (seen dtype.now) types.now in
        let os = map nat_of offsets.now in
        let first = fill_field (seen dtype.now) in
        let ls = dense_children fields os first (layouts children.now) (places runs.now) in
        IsErrOf result grow.Overflow → AllFit ls → ⊥ }
{
    let fields = fields_of_types(alloc, dtype, types)?;
    let first = filling_field(dtype);
    let dealt = dense_runs(alloc, &fields, offsets, first, children.len(), runs)?;
    let items = dealt.as_slice();
    let mut made = Vec::new(alloc);
    for j in 0..children.len() {
        let one = canonical_child(alloc, &children[j], &items[j])?;
        made.push(one)?;
    }
    Ok(made)
}

/// The dictionaries of picked slots.
#[cycle(canonical)]
fn canonical_dictionary(
    alloc: Global,
    dtype: &ArrowDataType,
    keys: &KeyNode,
    child: &ArrayRef,
    runs: &[Run],
) -> Result<Node, GrowError>
    requires form { let t = seen dtype.now in
        form_of t ≡ dictionaries_of (key_type_of keys.now) (value_by (form_of t)) }
    requires value { HasTypeOf (value_by (form_of (seen dtype.now))) child.now }
    requires keys { let ks = key_layout keys.now in
        AreKeysBelow (length_of child.now) (validity_of ks) ks }
    requires within { AreWithin (length_of (key_layout keys.now)) runs.now }
    requires small { let s = picked_values (key_layout keys.now) child.now (places runs.now) in
        len (distinct s) ≤ key_capacity (key_type_of keys.now) }
    requires room { len (places runs.now) < 2 ^ 64 }
    ensures ok { let k = key_type_of keys.now in
        let ks = key_layout keys.now in
        let l = dictionaries_picked (seen dtype.now) k ks child.now (places runs.now) in
        IfOk result (IsMade (physical.Dictionary k) l) }
    ensures overflow { let k = key_type_of keys.now in
        let ks = key_layout keys.now in
        let l = dictionaries_picked (seen dtype.now) k ks child.now (places runs.now) in
        IsErrOf result grow.Overflow → Fits l → ⊥ }
{
    let parts = dictionary_parts(alloc, keys, child, runs)?;
    let values = canonical(alloc, child, value_type(dtype), &parts.firsts)?;
    Ok(dictionary_node(alloc, dtype, keys, parts, values)?)
}
