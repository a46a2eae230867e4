//! Columns of values of fixed width: their parts from JSON values, and their arrays.
ghost use Rattle.std.specs.Prelude.{◌≡◌, map, Some, IfOk};
ghost use Rattle.serde_json.specs.View.{view};
ghost use Rattle.arrow_types.specs.Seen.{seen};
ghost use Rattle.arrow_types.specs.TypeData.{TypeData};
ghost use Rattle.arrow_types.specs.Types.{physical_of};
ghost use Rattle.arrow_types.specs.declared.datatype.PhysicalType.TheVariants as physical;
ghost use Rattle.arrow_flat.specs.Natives.{IsNative};
ghost use Rattle.arrow_meaning.specs.Nodes.{primitive_layout, primitive_node_layout};
ghost use Rattle.arrow_layout.specs.WellFormed.{WellFormed};
ghost use Rattle.type_json.specs.Reads.{Reads, Makes};
ghost use Rattle.type_json.specs.Values.{traverse};
ghost use Rattle.type_json.specs.declared.error.JsonError.TheVariants.{BadValue};
ghost use Rattle.column_grammar.specs.Values.{number_in, list_in};
ghost use Rattle.column_grammar.specs.Reads.{primitives_in};
ghost use Rattle.column_read.specs.Parts.{primitives_layout, numbers_layout, number_kind};
ghost use Rattle.column_read.specs.declared.error.LayoutError.TheVariants.{BadLayout};

use crate::parts::{PrimitiveData, PrimitiveParts};
use crate::value::{items, mask_in, two_members};
use crate::{LayoutError, ReadNative};
use arrow_buffers::Buffer;
use arrow_flat::{NativeType, PrimitiveArray};
use arrow_meaning::PrimitiveNode;
use arrow_types::{ArrowDataType, PrimitiveType};
use serde_json::Value;
use std::alloc::Global;
use type_json::JsonError;

/// The values of a list of JSON values.
fn value_list<T: ReadNative>(alloc: Global, list: &[Value]) -> Result<Vec<T>, JsonError>
    ensures { Reads BadValue (λ v. map T.parts v.items)
        (traverse (number_in T.PRIMITIVE) (map view list.now)) result }
{
    let mut values = Vec::new(alloc);
    for item in list {
        values.push(T::read(alloc, item)?)?;
    }
    Ok(values)
}

/// The values of a type that a JSON value is: a list of them.
#[tactic(auto, unfolding(column_grammar::specs::Values::list_in))]
pub(crate) fn values_in<T: ReadNative>(alloc: Global, value: &Value) -> Result<Vec<T>, JsonError>
    ensures { Reads BadValue (λ v. map T.parts v.items)
        (list_in (number_in T.PRIMITIVE) (view value.now)) result }
{
    match items(value) {
        Some(list) => value_list(alloc, list),
        None => Err(JsonError::BadValue),
    }
}

/// Values of fixed width under a mask, from their JSON value.
#[tactic(auto, unfolding(column_grammar::specs::Reads::primitives_in))]
fn primitives_in<T: ReadNative>(
    alloc: Global,
    value: &Value,
) -> Result<PrimitiveParts<T>, JsonError>
    ensures { (t : TypeData) → Reads BadValue (primitives_layout T.parts t)
        (primitives_in t T.PRIMITIVE (view value.now)) result }
{
    let (mask, values) = two_members(value, "mask", "values").ok_or(JsonError::BadValue)?;
    let validity = mask_in(alloc, mask)?;
    let values = values_in(alloc, values)?;
    let values = Buffer::from_vec(alloc, values)?;
    Ok(PrimitiveParts { values, validity })
}

/// The values of any primitive type under a mask, from their JSON value.
pub(crate) fn numbers_in(
    alloc: Global,
    kind: PrimitiveType,
    value: &Value,
) -> Result<PrimitiveData, JsonError>
    requires { IsNative kind }
    ensures kind { IfOk result (λ d. number_kind d ≡ kind) }
    ensures read { (t : TypeData)
        → Reads BadValue (numbers_layout t) (primitives_in t kind (view value.now)) result }
{
    match kind {
        PrimitiveType::Int8 => Ok(PrimitiveData::Int8(primitives_in(alloc, value)?)),
        PrimitiveType::Int16 => Ok(PrimitiveData::Int16(primitives_in(alloc, value)?)),
        PrimitiveType::Int32 => Ok(PrimitiveData::Int32(primitives_in(alloc, value)?)),
        PrimitiveType::Int64 => Ok(PrimitiveData::Int64(primitives_in(alloc, value)?)),
        PrimitiveType::Int128 => Ok(PrimitiveData::Int128(primitives_in(alloc, value)?)),
        PrimitiveType::UInt8 => Ok(PrimitiveData::UInt8(primitives_in(alloc, value)?)),
        PrimitiveType::UInt16 => Ok(PrimitiveData::UInt16(primitives_in(alloc, value)?)),
        PrimitiveType::UInt32 => Ok(PrimitiveData::UInt32(primitives_in(alloc, value)?)),
        PrimitiveType::UInt64 => Ok(PrimitiveData::UInt64(primitives_in(alloc, value)?)),
        PrimitiveType::DaysMs => Ok(PrimitiveData::DaysMs(primitives_in(alloc, value)?)),
        PrimitiveType::MonthDayNano => Ok(PrimitiveData::MonthDayNano(primitives_in(
            alloc, value,
        )?)),
        _ => Err(JsonError::BadValue),
    }
}

/// The array of values of fixed width of these parts. BadLayout exactly where they aren't well
/// formed.
fn primitive_array<T: NativeType>(
    dtype: ArrowDataType,
    parts: PrimitiveParts<T>,
) -> Result<PrimitiveArray<T>, LayoutError>
    requires { physical_of (seen dtype) ≡ Some (physical.Primitive T.PRIMITIVE) }
    ensures { Makes BadLayout (primitive_layout T.parts)
        (primitives_layout T.parts (seen dtype) parts)
        (WellFormed (primitives_layout T.parts (seen dtype) parts)) result }
{
    match PrimitiveArray::try_new(dtype, parts.values, parts.validity) {
        Ok(array) => Ok(array),
        Err(_) => Err(LayoutError::BadLayout),
    }
}

/// The node of these parts of a primitive column. BadLayout exactly where they aren't well formed.
pub(crate) fn primitive_node(
    dtype: ArrowDataType,
    numbers: PrimitiveData,
) -> Result<PrimitiveNode, LayoutError>
    requires { physical_of (seen dtype) ≡ Some (physical.Primitive (number_kind numbers)) }
    ensures { Makes BadLayout primitive_node_layout (numbers_layout (seen dtype) numbers)
        (WellFormed (numbers_layout (seen dtype) numbers)) result }
{
    match numbers {
        PrimitiveData::Int8(parts) => primitive_array(dtype, parts).map(PrimitiveNode::Int8),
        PrimitiveData::Int16(parts) => primitive_array(dtype, parts).map(PrimitiveNode::Int16),
        PrimitiveData::Int32(parts) => primitive_array(dtype, parts).map(PrimitiveNode::Int32),
        PrimitiveData::Int64(parts) => primitive_array(dtype, parts).map(PrimitiveNode::Int64),
        PrimitiveData::Int128(parts) => primitive_array(dtype, parts).map(PrimitiveNode::Int128),
        PrimitiveData::UInt8(parts) => primitive_array(dtype, parts).map(PrimitiveNode::UInt8),
        PrimitiveData::UInt16(parts) => primitive_array(dtype, parts).map(PrimitiveNode::UInt16),
        PrimitiveData::UInt32(parts) => primitive_array(dtype, parts).map(PrimitiveNode::UInt32),
        PrimitiveData::UInt64(parts) => primitive_array(dtype, parts).map(PrimitiveNode::UInt64),
        PrimitiveData::DaysMs(parts) => primitive_array(dtype, parts).map(PrimitiveNode::DaysMs),
        PrimitiveData::MonthDayNano(parts) => primitive_array(dtype, parts).map(
            PrimitiveNode::MonthDayNano,
        ),
    }
}
