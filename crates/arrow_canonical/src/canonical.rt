//! Whether an array is canonical.
ghost use Rattle.std.specs.Prelude.{◌≡◌, ◌↔◌, IfOk, IfSome, IsTrue};
ghost use Rattle.arrow_layout.specs.Canonical.{AreCanonical, AreSelected, Canonical};
ghost use Rattle.arrow_layout.specs.Layouts.{layouts};
ghost use Rattle.arrow_layout.specs.Paths.{children_of};
ghost use Rattle.arrow_meaning.specs.Nodes.{layout_of, union_layout};
ghost use Rattle.arrow_canonical.specs.OwnForm.{HasOwnForm};
ghost use Rattle.arrow_layout.specs.WellFormed.{WellFormed};

use crate::binary::{are_flat, binary_form};
use crate::boolean::boolean_form;
use crate::field::fields_of_types;
use crate::fill::nulls_are_filled;
use crate::mask::is_needed;
use crate::primitive::primitive_form;
use crate::struct_::all_are_filled;
use crate::union::{all_counted, all_elsewhere};
use crate::view::view_form;
use crate::zeros::nulls_are_zero;
use arrow_buffers::Buffer;
use arrow_meaning::{ArrayRef, Node};
use arrow_types::{ArrowDataType, Mem};
use std::alloc::Global;
use std::slice;

/// Whether an array is the canonical array of its slots, layout and all, tested on the array itself
/// without building that array; None where it holds a dictionary at any depth and what is tested
/// before it is canonical.
///
/// Children are tested first. Refused for want of memory alone: for the fields that the slots of
/// unions select, and for one filling of each child of a struct, a fixed-size list or a sparse union
/// that is needed.
#[cycle(whole)]
pub fn test_canonical(alloc: Global, array: &ArrayRef) -> Mem<Option<bool>>
    ensures { IfOk result (λ o. IfSome o (λ b. IsTrue b ↔ Canonical array.now)) }
{
    array.invariant();
    if !is_needed(array.validity()) {
        return Ok(Some(false));
    }
    match test_children(alloc, children(array.node()))? {
        None => Ok(None),
        Some(are_canonical) => {
            if !are_canonical {
                return Ok(Some(false));
            }
            own_form(alloc, array)
        }
    }
}

/// Whether each of the arrays is canonical, None as above.
#[cycle(whole)]
fn test_children(alloc: Global, children: &[ArrayRef]) -> Mem<Option<bool>>
    ensures { IfOk result (λ o. IfSome o (λ b. IsTrue b ↔ AreCanonical (layouts children.now))) }
{
    for k in 0..children.len() {
        match test_canonical(alloc, &children[k])? {
            None => return Ok(None),
            Some(is_canonical) => {
                if !is_canonical {
                    return Ok(Some(false));
                }
            }
        }
    }
    Ok(Some(true))
}

/// Whether an array whose children are canonical is so beside its mask, None for a dictionary.
fn own_form(alloc: Global, array: &ArrayRef) -> Mem<Option<bool>>
    requires { AreCanonical (children_of array.now) }
    ensures { IfOk result (λ o. IfSome o (λ b. IsTrue b ↔ HasOwnForm array.now)) }
{
    array.invariant();
    match array.node() {
        Node::Null { .. } => Ok(Some(true)),
        Node::Boolean(array) => Ok(Some(boolean_form(array))),
        Node::Primitive(array) => Ok(Some(primitive_form(array))),
        Node::Binary(array) => Ok(Some(binary_form(array))),
        Node::LargeBinary(array) => Ok(Some(binary_form(array))),
        Node::Utf8(array) => Ok(Some(binary_form(array))),
        Node::LargeUtf8(array) => Ok(Some(binary_form(array))),
        Node::FixedSizeBinary(array) => Ok(Some(nulls_are_zero(array))),
        Node::BinaryView(array) => Ok(Some(view_form(array))),
        Node::Utf8View(array) => Ok(Some(view_form(array))),
        Node::List {
            offsets,
            child,
            validity,
            ..
        } => Ok(Some(are_flat(offsets, validity.as_ref(), child.len()))),
        Node::LargeList {
            offsets,
            child,
            validity,
            ..
        } => Ok(Some(are_flat(offsets, validity.as_ref(), child.len()))),
        Node::Map {
            offsets,
            child,
            validity,
            ..
        } => Ok(Some(are_flat(offsets, validity.as_ref(), child.len()))),
        Node::FixedSizeList {
            size,
            length,
            child,
            validity,
            ..
        } => {
            let is_filled = nulls_are_filled(alloc, validity.as_ref(), child, *size, *length)?;
            Ok(Some(is_filled))
        }
        Node::Struct {
            length,
            children,
            validity,
            ..
        } => {
            let children = children.as_slice();
            let are_filled = all_are_filled(alloc, validity.as_ref(), children, *length)?;
            Ok(Some(are_filled))
        }
        Node::Union {
            dtype,
            types,
            offsets,
            children,
            shift,
        } => {
            let children = children.as_slice();
            let has_form = union_form(alloc, dtype, types, offsets, children, *shift)?;
            Ok(Some(has_form))
        }
        Node::Dictionary { .. } => Ok(None),
    }
}

/// Whether a union whose children are canonical is so: without a shift and with fillings where
/// another field is selected, or with offsets that count.
fn union_form(
    alloc: Global,
    dtype: &ArrowDataType,
    types: &Buffer<i8>,
    offsets: &Option<Buffer<i32>>,
    children: &[ArrayRef],
    shift: usize,
) -> Mem<bool>
    requires union { let ls = layouts children.now in
        WellFormed (union_layout dtype.now types.now offsets.now ls shift) }
    requires canonical { AreCanonical (layouts children.now) }
    ensures { let ls = layouts children.now in
        let l = union_layout dtype.now types.now offsets.now ls shift in
        IfOk result (λ b. IsTrue b ↔ HasOwnForm l) }
{
    let fields = fields_of_types(alloc, dtype, types)?;
    match offsets {
        Some(offsets) => all_counted(alloc, fields.as_slice(), offsets.as_slice(), children),
        None => sparse_form(alloc, fields.as_slice(), children, shift),
    }
}

/// Whether a sparse union has no shift, and fillings where another field is selected.
fn sparse_form(alloc: Global, fields: &[usize], children: &[ArrayRef], shift: usize) -> Mem<bool>
    requires { AreCanonical (layouts children.now) }
    ensures { let ls = layouts children.now in
        IfOk result (λ b. IsTrue b ↔ ((shift ≡ 0) × AreSelected 0 fields.now ls)) }
{
    if shift != 0 {
        return Ok(false);
    }
    all_elsewhere(alloc, fields, children)
}

/// The children of a node, in order.
fn children(node: &Node) -> &[ArrayRef]
    ensures { layouts result.now ≡ children_of (layout_of node.now) }
{
    match node {
        Node::List { child, .. } => slice::from_ref(child),
        Node::LargeList { child, .. } => slice::from_ref(child),
        Node::Map { child, .. } => slice::from_ref(child),
        Node::FixedSizeList { child, .. } => slice::from_ref(child),
        Node::Dictionary { child, .. } => slice::from_ref(child),
        Node::Struct { children, .. } => children,
        Node::Union { children, .. } => children,
        _ => &[],
    }
}
