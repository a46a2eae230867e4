//! One array with its parts, a variant for each layout.
ghost use Rattle.std.specs.Prelude.{◌≡◌, ◌+◌, ◌≤◌, IfOk, Option};
ghost use Rattle.std.specs.Option.{option_copied};
ghost use Rattle.arrow_flat.specs.Primitives.{MaskHasLength};
ghost use Rattle.arrow_types.specs.Seen.{seen};
ghost use Rattle.arrow_layout.specs.Denote.{validity_of};
ghost use Rattle.arrow_layout.specs.Layouts.{length_of, type_of};
ghost use Rattle.arrow_layout.specs.Cut.{cut};
ghost use Rattle.arrow_layout.specs.FitsHere.{AllWellFormed};
ghost use Rattle.arrow_layout.specs.Masks.{with_mask};
ghost use Rattle.arrow_layout.specs.Paths.{children_of};
ghost use Rattle.arrow_layout.specs.WellFormed.{WellFormed};
ghost use Rattle.arrow_meaning.specs.Nodes.{HasOwnSlots, IsOfItsType, IsSoundNode, layout_of, node_physical};

use crate::array::all_invariant;
use crate::copy::{
    clone_dictionary, clone_fixed_size_list, clone_map, clone_null, clone_struct, clone_union,
};
use crate::cut::{slice_list, slice_union};
use crate::{ArrayRef, FlatNode, KeyNode, NodeOffset, PrimitiveNode};
use arrow_buffers::{Bitmap, Buffer, OffsetsBuffer};
use arrow_bytes::{BinaryArray, FixedSizeBinaryArray, Utf8Array};
use arrow_flat::{BooleanArray, TryClone};
use arrow_types::{ArrowDataType, Mem};
use arrow_views::{BinaryViewArray, Utf8ViewArray};
use std::alloc::Global;

/// One array with its parts: a variant for each layout of the Arrow Columnar Format.
#[cycle(array)]
#[derive(Drop)]
pub enum Node {
    /// No buffers; each slot is null.
    Null {
        dtype: ArrowDataType,
        length: usize,
    },
    /// Single bits under a mask.
    Boolean(BooleanArray),
    /// Values of fixed width under a mask.
    Primitive(PrimitiveNode),
    /// Binary values with offsets of 32 bits.
    Binary(BinaryArray<i32>),
    /// Binary values with offsets of 64 bits.
    LargeBinary(BinaryArray<i64>),
    /// Strings with offsets of 32 bits.
    Utf8(Utf8Array<i32>),
    /// Strings with offsets of 64 bits.
    LargeUtf8(Utf8Array<i64>),
    /// Binary values of one size.
    FixedSizeBinary(FixedSizeBinaryArray),
    /// Binary values by views.
    BinaryView(BinaryViewArray),
    /// Strings by views.
    Utf8View(Utf8ViewArray),
    /// Lists with offsets of 32 bits; slot i is the child's range from offset i to offset i + 1.
    List {
        dtype: ArrowDataType,
        offsets: OffsetsBuffer<i32>,
        child: ArrayRef,
        validity: Option<Bitmap>,
    },
    /// Lists with offsets of 64 bits.
    LargeList {
        dtype: ArrowDataType,
        offsets: OffsetsBuffer<i64>,
        child: ArrayRef,
        validity: Option<Bitmap>,
    },
    /// Lists of entries, which are structs of two fields.
    Map {
        dtype: ArrowDataType,
        offsets: OffsetsBuffer<i32>,
        child: ArrayRef,
        validity: Option<Bitmap>,
    },
    /// Lists of `size` items each.
    FixedSizeList {
        dtype: ArrowDataType,
        size: usize,
        length: usize,
        child: ArrayRef,
        validity: Option<Bitmap>,
    },
    /// One child for each field, as long as the struct.
    Struct {
        dtype: ArrowDataType,
        length: usize,
        children: Vec<ArrayRef>,
        validity: Option<Bitmap>,
    },
    /// Dense with offsets, and else sparse, where a child is read at the slot plus the shift.
    Union {
        dtype: ArrowDataType,
        types: Buffer<i8>,
        offsets: Option<Buffer<i32>>,
        children: Vec<ArrayRef>,
        shift: usize,
    },
    /// Keys that name slots of the child.
    Dictionary {
        dtype: ArrowDataType,
        keys: KeyNode,
        child: ArrayRef,
    },
}

/// What `$body` gives of a flat array `$array`, of whichever kind, and what each further arm gives
/// of the others.
macro_rules! of_flat {
    ($node:expr, $array:ident => $body:expr, $($pattern:pat => $other:expr,)+) => {
        match $node {
            Node::Boolean($array) => $body,
            Node::Primitive($array) => $body,
            Node::Binary($array) => $body,
            Node::LargeBinary($array) => $body,
            Node::Utf8($array) => $body,
            Node::LargeUtf8($array) => $body,
            Node::FixedSizeBinary($array) => $body,
            Node::BinaryView($array) => $body,
            Node::Utf8View($array) => $body,
            $($pattern => $other,)+
        }
    };
}

impl Node {
    /// The count of slots.
    pub(crate) fn len(&self) -> usize
        ensures { result ≡ length_of (layout_of self.now) }
    {
        of_flat!(
            self,
            array => array.len(),
            Node::Null { length, .. } => *length,
            Node::List { offsets, .. } => offsets.len_proxy(),
            Node::LargeList { offsets, .. } => offsets.len_proxy(),
            Node::Map { offsets, .. } => offsets.len_proxy(),
            Node::FixedSizeList { length, .. } => *length,
            Node::Struct { length, .. } => *length,
            Node::Union { types, .. } => types.len(),
            Node::Dictionary { keys, .. } => keys.len(),
        )
    }

    /// The whole type.
    pub(crate) fn dtype(&self) -> &ArrowDataType
        ensures { seen result.now ≡ type_of (layout_of self.now) }
    {
        of_flat!(
            self,
            array => array.dtype(),
            Node::Null { dtype, .. } => dtype,
            Node::List { dtype, .. } => dtype,
            Node::LargeList { dtype, .. } => dtype,
            Node::Map { dtype, .. } => dtype,
            Node::FixedSizeList { dtype, .. } => dtype,
            Node::Struct { dtype, .. } => dtype,
            Node::Union { dtype, .. } => dtype,
            Node::Dictionary { dtype, .. } => dtype,
        )
    }

    /// The mask, where there is one; that of a dictionary is its keys'.
    pub(crate) fn validity(&self) -> Option<&Bitmap>
        ensures { option_copied result ≡ validity_of (layout_of self.now) }
    {
        of_flat!(
            self,
            array => array.validity(),
            Node::Null { .. } => None,
            Node::List { validity, .. } => validity.as_ref(),
            Node::LargeList { validity, .. } => validity.as_ref(),
            Node::Map { validity, .. } => validity.as_ref(),
            Node::FixedSizeList { validity, .. } => validity.as_ref(),
            Node::Struct { validity, .. } => validity.as_ref(),
            Node::Union { .. } => None,
            Node::Dictionary { keys, .. } => keys.validity(),
        )
    }

    /// For proofs alone: what the children keep.
    fn children_invariant(&self)
        ensures { AllWellFormed (children_of (layout_of self.now)) }
    {
        match self {
            Node::List { child, .. } => child.invariant(),
            Node::LargeList { child, .. } => child.invariant(),
            Node::Map { child, .. } => child.invariant(),
            Node::FixedSizeList { child, .. } => child.invariant(),
            Node::Dictionary { child, .. } => child.invariant(),
            Node::Struct { children, .. } => all_invariant(children),
            Node::Union { children, .. } => all_invariant(children),
            _ => {}
        }
    }

    /// For proofs alone: what a sound node keeps with its parts.
    pub(crate) fn invariant(&self)
        requires { IsSoundNode self.now }
        ensures sound { WellFormed (layout_of self.now) }
        ensures kind { IsOfItsType self.now }
    {
        of_flat!(
            self,
            array => FlatNode::invariant(array),
            _ => self.children_invariant(),
        )
    }

    /// Another owner of the same parts.
    pub(crate) fn try_clone(&self, alloc: Global) -> Mem<Node>
        ensures same { IfOk result (λ n. layout_of n ≡ layout_of self.now) }
        ensures kind { IfOk result (λ n. node_physical n ≡ node_physical self.now) }
    {
        match self {
            Node::Null { dtype, length } => clone_null(alloc, dtype, *length),
            Node::Boolean(array) => array.try_clone(alloc).map(Node::Boolean),
            Node::Primitive(array) => array.try_clone(alloc).map(Node::Primitive),
            Node::Binary(array) => array.try_clone(alloc).map(Node::Binary),
            Node::LargeBinary(array) => array.try_clone(alloc).map(Node::LargeBinary),
            Node::Utf8(array) => array.try_clone(alloc).map(Node::Utf8),
            Node::LargeUtf8(array) => array.try_clone(alloc).map(Node::LargeUtf8),
            Node::FixedSizeBinary(array) => array.try_clone(alloc).map(Node::FixedSizeBinary),
            Node::BinaryView(array) => array.try_clone(alloc).map(Node::BinaryView),
            Node::Utf8View(array) => array.try_clone(alloc).map(Node::Utf8View),
            Node::List {
                dtype,
                offsets,
                child,
                validity,
            } => i32::list_node(alloc, dtype, offsets, child, validity),
            Node::LargeList {
                dtype,
                offsets,
                child,
                validity,
            } => i64::list_node(alloc, dtype, offsets, child, validity),
            Node::Map {
                dtype,
                offsets,
                child,
                validity,
            } => clone_map(alloc, dtype, offsets, child, validity),
            Node::FixedSizeList {
                dtype,
                size,
                length,
                child,
                validity,
            } => clone_fixed_size_list(alloc, dtype, *size, *length, child, validity),
            Node::Struct {
                dtype,
                length,
                children,
                validity,
            } => clone_struct(alloc, dtype, *length, children, validity),
            Node::Union {
                dtype,
                types,
                offsets,
                children,
                shift,
            } => clone_union(alloc, dtype, types, offsets, children, *shift),
            Node::Dictionary { dtype, keys, child } => clone_dictionary(alloc, dtype, keys, child),
        }
    }

    /// Keeps the `length` slots from `offset` on, where no child is cut with them; a mask without
    /// nulls is dropped.
    pub(crate) fn slice(&mut self, offset: usize, length: usize)
        requires within { offset + length ≤ length_of (layout_of self.old) }
        requires sound { WellFormed (layout_of self.old) }
        requires own { HasOwnSlots self.old }
        ensures part { layout_of self.new ≡ cut (layout_of self.old) offset length }
        ensures kind { node_physical self.new ≡ node_physical self.old }
    {
        of_flat!(
            self,
            array => FlatNode::slice(array, offset, length),
            Node::Null { length: slots, .. } => *slots = length,
            Node::List { offsets, validity, .. } => slice_list(offsets, validity, offset, length),
            Node::LargeList { offsets, validity, .. } => {
                slice_list(offsets, validity, offset, length)
            },
            Node::Map { offsets, validity, .. } => slice_list(offsets, validity, offset, length),
            Node::FixedSizeList { .. } => unreachable!(),
            Node::Struct { .. } => unreachable!(),
            Node::Union { types, offsets, shift, .. } => {
                slice_union(types, offsets, shift, offset, length)
            },
            Node::Dictionary { keys, .. } => FlatNode::slice(keys, offset, length),
        )
    }

    /// Puts another mask, or none, in the mask's place; a null array and a union have none, and
    /// stay.
    pub(crate) fn set_validity(&mut self, validity: Option<Bitmap>)
        requires { MaskHasLength validity (length_of (layout_of self.old)) }
        ensures same { layout_of self.new ≡ with_mask validity (layout_of self.old) }
        ensures kind { node_physical self.new ≡ node_physical self.old }
    {
        of_flat!(
            self,
            array => FlatNode::set_validity(array, validity),
            Node::List { validity: mask, .. } => *mask = validity,
            Node::LargeList { validity: mask, .. } => *mask = validity,
            Node::Map { validity: mask, .. } => *mask = validity,
            Node::FixedSizeList { validity: mask, .. } => *mask = validity,
            Node::Struct { validity: mask, .. } => *mask = validity,
            Node::Dictionary { keys, .. } => FlatNode::set_validity(keys, validity),
            Node::Null { .. } => {},
            Node::Union { .. } => {},
        )
    }
}
