//! Arrays of nulls without children, and the keys of nulls.
ghost use Rattle.std.specs.Prelude.{◌≡◌, ◌*◌, ◌^◌, ◌<◌, ◌∷◌, [], false, pos, IfOk, replicate, Some};
ghost use Rattle.arrow_buffers.specs.Bits.{plain};
ghost use Rattle.arrow_bytes.specs.Binaries.{layout_in};
ghost use Rattle.arrow_bytes.specs.FixedSizeBinaries.{declared_size};
ghost use Rattle.arrow_flat.specs.Natives.{IsNative};
ghost use Rattle.arrow_flat.specs.Numbers.{zeros};
ghost use Rattle.arrow_flat.specs.Views.{zero_view};
ghost use Rattle.arrow_types.specs.Seen.{seen};
ghost use Rattle.arrow_types.specs.Types.{integer_type, physical_of};
ghost use Rattle.arrow_types.specs.declared.datatype.PhysicalType.TheVariants as physical;
ghost use Rattle.arrow_views.specs.ViewArrays.{physical_view};
ghost use Rattle.arrow_layout.specs.Forms.{form_of};
ghost use Rattle.arrow_layout.specs.Layouts.{binaries, booleans, fixed_size_binaries, primitives, views};
ghost use Rattle.arrow_layout.specs.NullLayout.{flat_nulls, null_mask, null_offsets};
ghost use Rattle.arrow_meaning.specs.NullParts.{IsSimple};
ghost use Rattle.arrow_meaning.specs.Nodes.{binary_layout, boolean_layout, fixed_size_binary_layout, key_layout, key_type_of, layout_of, node_physical, primitive_layout, primitive_node_layout, primitive_type_of, view_layout};

use crate::copy::clone_null;
use crate::null_parts::{null_mask, null_offsets, repeated};
use crate::{KeyNode, Node, PrimitiveNode};
use arrow_buffers::{Bitmap, Buffer, Offset};
use arrow_bytes::{FixedSizeBinaryArray, OffsetArray};
use arrow_flat::{BooleanArray, DaysMs, MonthDayNano, NativeType, PrimitiveArray};
use arrow_types::{ArrowDataType, IntegerType, Mem, PhysicalType, PrimitiveType};
use arrow_views::{BinaryViewArrayGeneric, View, ViewBytes, ViewStr, ViewType};
use std::alloc::Global;

/// The node of `length` nulls of a type without children, whose values have no size of their own.
pub(crate) fn null_flat(alloc: Global, dtype: &ArrowDataType, length: usize) -> Mem<Node>
    requires { IsSimple (form_of (seen dtype.now)) }
    ensures same { IfOk result (λ n.
        layout_of n ≡ flat_nulls (seen dtype.now) (form_of (seen dtype.now)) length) }
    ensures kind { IfOk result (λ n. physical_of (seen dtype.now) ≡ Some (node_physical n)) }
{
    let Some(kind) = dtype.to_physical_type() else {
        unreachable!();
    };
    match kind {
        PhysicalType::Null => clone_null(alloc, dtype, length),
        PhysicalType::Boolean => null_boolean(alloc, dtype, length).map(Node::Boolean),
        PhysicalType::Primitive(p) => {
            null_primitive(alloc, dtype, p, length).map(Node::Primitive)
        }
        PhysicalType::Binary => null_offset_array(alloc, dtype, length).map(Node::Binary),
        PhysicalType::LargeBinary => null_offset_array(alloc, dtype, length).map(Node::LargeBinary),
        PhysicalType::Utf8 => null_offset_array(alloc, dtype, length).map(Node::Utf8),
        PhysicalType::LargeUtf8 => null_offset_array(alloc, dtype, length).map(Node::LargeUtf8),
        PhysicalType::BinaryView => {
            null_views::<ViewBytes>(alloc, dtype, length).map(Node::BinaryView)
        }
        PhysicalType::Utf8View => null_views::<ViewStr>(alloc, dtype, length).map(Node::Utf8View),
        _ => unreachable!(),
    }
}

/// The keys of `length` nulls, each 0.
pub(crate) fn null_keys(alloc: Global, key: IntegerType, length: usize) -> Mem<KeyNode>
    ensures same { IfOk result (λ n. key_layout n
        ≡ primitives (integer_type key) (null_mask length) (replicate length (pos 0 ∷ []))) }
    ensures kind { IfOk result (λ n. key_type_of n ≡ key) }
{
    let dtype = ArrowDataType::from(key);
    match key {
        IntegerType::Int8 => null_values(alloc, &dtype, length).map(KeyNode::Int8),
        IntegerType::Int16 => null_values(alloc, &dtype, length).map(KeyNode::Int16),
        IntegerType::Int32 => null_values(alloc, &dtype, length).map(KeyNode::Int32),
        IntegerType::Int64 => null_values(alloc, &dtype, length).map(KeyNode::Int64),
        IntegerType::Int128 => null_values(alloc, &dtype, length).map(KeyNode::Int128),
        IntegerType::UInt8 => null_values(alloc, &dtype, length).map(KeyNode::UInt8),
        IntegerType::UInt16 => null_values(alloc, &dtype, length).map(KeyNode::UInt16),
        IntegerType::UInt32 => null_values(alloc, &dtype, length).map(KeyNode::UInt32),
        IntegerType::UInt64 => null_values(alloc, &dtype, length).map(KeyNode::UInt64),
    }
}

/// The array of `length` nulls of one size, over zeros.
pub(crate) fn null_fixed_size_binary(
    alloc: Global,
    dtype: &ArrowDataType,
    size: usize,
    length: usize,
) -> Mem<FixedSizeBinaryArray>
    requires sized { declared_size (seen dtype.now) ≡ Some size }
    requires positive { 0 < size }
    requires fits { length * size < 2 ^ 64 }
    ensures { IfOk result (λ a. fixed_size_binary_layout a ≡ fixed_size_binaries
        (seen dtype.now) (null_mask length) size length (replicate (length * size) 0)) }
{
    let validity = null_mask(alloc, length)?;
    let values = repeated(alloc, 0, length * size)?;
    let dtype = dtype.try_clone(alloc)?;
    Ok(FixedSizeBinaryArray::new(dtype, values, validity))
}

/// The primitive array of `length` nulls, over zeros.
fn null_primitive(
    alloc: Global,
    dtype: &ArrowDataType,
    p: PrimitiveType,
    length: usize,
) -> Mem<PrimitiveNode>
    requires stored { physical_of (seen dtype.now) ≡ Some (physical.Primitive p) }
    requires native { IsNative p }
    ensures same { IfOk result (λ n. primitive_node_layout n
        ≡ primitives (seen dtype.now) (null_mask length) (replicate length (zeros p))) }
    ensures kind { IfOk result (λ n. primitive_type_of n ≡ p) }
{
    match p {
        PrimitiveType::Int8 => null_values(alloc, dtype, length).map(PrimitiveNode::Int8),
        PrimitiveType::Int16 => null_values(alloc, dtype, length).map(PrimitiveNode::Int16),
        PrimitiveType::Int32 => null_values(alloc, dtype, length).map(PrimitiveNode::Int32),
        PrimitiveType::Int64 => null_values(alloc, dtype, length).map(PrimitiveNode::Int64),
        PrimitiveType::Int128 => null_values(alloc, dtype, length).map(PrimitiveNode::Int128),
        PrimitiveType::UInt8 => null_values(alloc, dtype, length).map(PrimitiveNode::UInt8),
        PrimitiveType::UInt16 => null_values(alloc, dtype, length).map(PrimitiveNode::UInt16),
        PrimitiveType::UInt32 => null_values(alloc, dtype, length).map(PrimitiveNode::UInt32),
        PrimitiveType::UInt64 => null_values(alloc, dtype, length).map(PrimitiveNode::UInt64),
        PrimitiveType::DaysMs => {
            null_values::<DaysMs>(alloc, dtype, length).map(PrimitiveNode::DaysMs)
        }
        PrimitiveType::MonthDayNano => {
            null_values::<MonthDayNano>(alloc, dtype, length).map(PrimitiveNode::MonthDayNano)
        }
        _ => unreachable!(),
    }
}

/// The array of `length` nulls of the native type, over zeros.
fn null_values<T: NativeType>(
    alloc: Global,
    dtype: &ArrowDataType,
    length: usize,
) -> Mem<PrimitiveArray<T>>
    requires { physical_of (seen dtype.now) ≡ Some (physical.Primitive T.PRIMITIVE) }
    ensures { IfOk result (λ a. primitive_layout T.parts a
        ≡ primitives (seen dtype.now) (null_mask length) (replicate length (zeros T.PRIMITIVE))) }
{
    let validity = null_mask(alloc, length)?;
    let values = repeated(alloc, T::zero(), length)?;
    let dtype = dtype.try_clone(alloc)?;
    Ok(PrimitiveArray::new(dtype, values, validity))
}

/// The array of `length` nulls of bits, over unset ones.
fn null_boolean(alloc: Global, dtype: &ArrowDataType, length: usize) -> Mem<BooleanArray>
    requires { physical_of (seen dtype.now) ≡ Some physical.Boolean }
    ensures { IfOk result (λ a. boolean_layout a
        ≡ booleans (seen dtype.now) (null_mask length) (plain (replicate length false))) }
{
    let validity = null_mask(alloc, length)?;
    let values = Bitmap::new_with_value(alloc, false, length)?;
    let dtype = dtype.try_clone(alloc)?;
    Ok(BooleanArray::new(dtype, values, validity))
}

/// The array of `length` nulls of binary values or of strings, over no bytes.
fn null_offset_array<K: ViewType, O: Offset>(
    alloc: Global,
    dtype: &ArrowDataType,
    length: usize,
) -> Mem<OffsetArray<K, O>>
    requires { physical_of (seen dtype.now) ≡ Some (layout_in K.IS_TEXT O.IS_LARGE) }
    ensures { IfOk result (λ a. binary_layout O.number a
        ≡ binaries (seen dtype.now) (null_mask length) (null_offsets length) []) }
{
    let validity = null_mask(alloc, length)?;
    let offsets = null_offsets::<O>(alloc, length)?;
    let values = Buffer::from_vec(alloc, Vec::new(alloc))?;
    let dtype = dtype.try_clone(alloc)?;
    Ok(OffsetArray::new(dtype, offsets, values, validity))
}

/// The array of `length` nulls by views, over no buffers.
fn null_views<T: ViewType>(
    alloc: Global,
    dtype: &ArrowDataType,
    length: usize,
) -> Mem<BinaryViewArrayGeneric<T>>
    requires { physical_of (seen dtype.now) ≡ Some (physical_view T.IS_TEXT) }
    ensures { IfOk result (λ a. view_layout a
        ≡ views (seen dtype.now) (null_mask length) (replicate length zero_view) []) }
{
    let validity = null_mask(alloc, length)?;
    let views = repeated(alloc, View::new_inline(&[]), length)?;
    let dtype = dtype.try_clone(alloc)?;
    let buffers = Vec::new(alloc);
    Ok(BinaryViewArrayGeneric::new(dtype, views, buffers, validity))
}
