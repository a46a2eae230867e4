//! Arrays without children from JSON values.
ghost use Rattle.std.specs.Prelude.{◌≡◌, IfOk};
ghost use Rattle.serde_json.specs.View.{view};
ghost use Rattle.arrow_types.specs.Seen.{seen};
ghost use Rattle.arrow_types.specs.TypeData.{TypeData};
ghost use Rattle.arrow_types.specs.Types.{physical_of};
ghost use Rattle.arrow_bytes.specs.FixedSizeBinaries.{declared_size};
ghost use Rattle.arrow_types.specs.declared.datatype.PhysicalType.TheVariants as physical;
ghost use Rattle.arrow_meaning.specs.Nodes.{layout_of};
ghost use Rattle.arrow_layout.specs.Forms.{form_of};
ghost use Rattle.arrow_layout.specs.OfValues.{IsOfValues};
ghost use Rattle.arrow_layout.specs.WellFormed.{WellFormed};
ghost use Rattle.type_json.specs.Reads.{Reads, Makes};
ghost use Rattle.type_json.specs.declared.error.JsonError.TheVariants.{BadValue};
ghost use Rattle.column_grammar.specs.Reads.{flat_in};
ghost use Rattle.column_read.specs.Arrays.{ReadsArray, IsArrayOf};
ghost use Rattle.column_read.specs.Parts.{HasKind, IsNativeLayout, IsNativeStored, IsReadAs, data_kind, data_layout, data_of, sized_of};
ghost use Rattle.column_read.specs.declared.error.LayoutError.TheVariants.{BadLayout};

use crate::LayoutError;
use crate::binary::{binaries_in, offset_array};
use crate::boolean::{boolean_array, booleans_in};
use crate::fixed_size_binary::{fixed_size_binaries_in, fixed_size_binary_array};
use crate::null::null_in;
use crate::parts::FlatParts;
use crate::primitive::{numbers_in, primitive_node};
use crate::view::{view_array, views_in};
use arrow_bytes::FixedSizeBinaryArray;
use arrow_meaning::{ArrayRef, Node};
use arrow_types::{ArrowDataType, Mem, PhysicalType};
use serde_json::Value;
use std::alloc::{AllocError, Global};
use type_json::JsonError;

/// Binary values of the size that the type declares.
fn sized_in(alloc: Global, size: Option<usize>, value: &Value) -> Result<FlatParts, JsonError>
    ensures kind { IfOk result (λ d. data_kind d ≡ physical.FixedSizeBinary) }
    ensures fits { IfOk result (λ d. IsReadAs size d) }
    ensures read { (t : TypeData)
        → Reads BadValue (data_layout t) (sized_of t size (view value.now)) result }
{
    match size {
        Some(size) => Ok(FlatParts::FixedSizeBinary(fixed_size_binaries_in(alloc, size, value)?)),
        None => Err(JsonError::BadValue),
    }
}

/// The parts of an array of a layout, with the size that the type declares.
fn parts_in(
    alloc: Global,
    layout: PhysicalType,
    size: Option<usize>,
    value: &Value,
) -> Result<FlatParts, JsonError>
    requires { IsNativeLayout layout }
    ensures kind { IfOk result (λ d. data_kind d ≡ layout) }
    ensures fits { IfOk result (λ d. IsReadAs size d) }
    ensures read { (t : TypeData)
        → Reads BadValue (data_layout t) (data_of t layout size (view value.now)) result }
{
    match layout {
        PhysicalType::Boolean => Ok(FlatParts::Boolean(booleans_in(alloc, value)?)),
        PhysicalType::Primitive(kind) => Ok(FlatParts::Primitive(numbers_in(alloc, kind, value)?)),
        PhysicalType::Binary => Ok(FlatParts::Binary(binaries_in(alloc, value)?)),
        PhysicalType::LargeBinary => Ok(FlatParts::LargeBinary(binaries_in(alloc, value)?)),
        PhysicalType::Utf8 => Ok(FlatParts::Utf8(binaries_in(alloc, value)?)),
        PhysicalType::LargeUtf8 => Ok(FlatParts::LargeUtf8(binaries_in(alloc, value)?)),
        PhysicalType::FixedSizeBinary => sized_in(alloc, size, value),
        PhysicalType::BinaryView => Ok(FlatParts::BinaryView(views_in(alloc, value)?)),
        PhysicalType::Utf8View => Ok(FlatParts::Utf8View(views_in(alloc, value)?)),
        _ => Err(JsonError::BadValue),
    }
}

/// The node of these parts. BadLayout exactly where they aren't well formed.
fn node_of(alloc: Global, dtype: ArrowDataType, content: FlatParts) -> Result<Node, LayoutError>
    requires { HasKind (seen dtype) content }
    ensures node { Makes BadLayout layout_of (data_layout (seen dtype) content)
        (WellFormed (data_layout (seen dtype) content)) result }
    ensures of_values { IfOk result (λ n. IsOfValues (layout_of n)) }
{
    match content {
        FlatParts::Boolean(parts) => boolean_array(dtype, parts).map(Node::Boolean),
        FlatParts::Primitive(numbers) => primitive_node(dtype, numbers).map(Node::Primitive),
        FlatParts::Binary(parts) => offset_array(dtype, parts).map(Node::Binary),
        FlatParts::LargeBinary(parts) => offset_array(dtype, parts).map(Node::LargeBinary),
        FlatParts::Utf8(parts) => offset_array(dtype, parts).map(Node::Utf8),
        FlatParts::LargeUtf8(parts) => offset_array(dtype, parts).map(Node::LargeUtf8),
        FlatParts::FixedSizeBinary(parts) => {
            fixed_size_binary_array(dtype, parts).map(Node::FixedSizeBinary)
        }
        FlatParts::BinaryView(parts) => view_array(alloc, dtype, parts).map(Node::BinaryView),
        FlatParts::Utf8View(parts) => view_array(alloc, dtype, parts).map(Node::Utf8View),
    }
}

/// The array of these parts, None where they aren't well formed.
fn array_of(alloc: Global, dtype: ArrowDataType, content: FlatParts) -> Mem<Option<ArrayRef>>
    requires { HasKind (seen dtype) content }
    ensures { IfOk result (λ a. IsArrayOf a (data_layout (seen dtype) content)) }
{
    match node_of(alloc, dtype, content) {
        Ok(node) => {
            let array = ArrayRef::from_node(alloc, node)?;
            array.invariant();
            Ok(Some(array))
        }
        Err(LayoutError::BadLayout) => Ok(None),
        Err(LayoutError::OutOfMemory) => Err(AllocError),
    }
}

/// The array of values, None where what the value holds isn't well formed.
fn values_in(
    alloc: Global,
    dtype: &ArrowDataType,
    layout: PhysicalType,
    value: &Value,
) -> Result<Option<ArrayRef>, JsonError>
    requires stored { physical_of (seen dtype.now) ≡ Some layout }
    requires native { IsNativeLayout layout }
    ensures { ReadsArray (data_of (seen dtype.now) layout (declared_size (seen dtype.now))
        (view value.now)) result }
{
    let size = FixedSizeBinaryArray::maybe_get_size(dtype);
    let parts = parts_in(alloc, layout, size, value)?;
    let dtype = dtype.try_clone(alloc)?;
    Ok(array_of(alloc, dtype, parts)?)
}

/// The array without children of a type that a value holds, None where what it holds isn't well
/// formed. BadValue exactly where the value isn't in the grammar.
pub(crate) fn flat_array_in(
    alloc: Global,
    dtype: &ArrowDataType,
    value: &Value,
) -> Result<Option<ArrayRef>, JsonError>
    requires { IsNativeStored (physical_of (seen dtype.now)) }
    ensures { ReadsArray (flat_in (form_of (seen dtype.now)) (seen dtype.now) (view value.now))
        result }
{
    let layout = dtype.to_physical_type().ok_or(JsonError::BadValue)?;
    match layout {
        PhysicalType::Null => null_in(alloc, dtype, value),
        _ => values_in(alloc, dtype, layout, value),
    }
}
