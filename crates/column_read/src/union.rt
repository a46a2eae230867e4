//! Arrays of unions from JSON values.
ghost use Rattle.std.specs.Prelude.{map, Option, Some, option_map, IfOk};
ghost use Rattle.serde_json.specs.View.{view};
ghost use Rattle.arrow_types.specs.Seen.{seen};
ghost use Rattle.arrow_types.specs.declared.datatype.PrimitiveType.TheVariants as primitive;
ghost use Rattle.arrow_layout.specs.Layouts.{Layouts, layouts};
ghost use Rattle.type_json.specs.Reads.{Reads};
ghost use Rattle.type_json.specs.declared.error.JsonError.TheVariants.{BadValue};
ghost use Rattle.type_json.specs.Values.{traverse};
ghost use Rattle.column_grammar.specs.Values.{signed_in};
ghost use Rattle.column_grammar.specs.Reads.{singles_in, union_of, union_offsets_in, unions_from};
ghost use Rattle.std.specs.Option.{option_zip};
ghost use Rattle.column_read.specs.Parts.{union_parts_seen};
ghost use Rattle.column_read.specs.Arrays.{AreReadOf, IsArrayOf, ReadsArray};

use crate::array::ReadChildren;
use crate::binary::offsets_in;
use crate::native::int8_in;
use crate::parts::UnionParts;
use crate::value::items;
use arrow_buffers::Buffer;
use arrow_choice::UnionArray;
use arrow_meaning::{ArrayRef, TypedArray};
use arrow_types::{ArrowDataType, Mem, PolarsError};
use serde_json::Value;
use std::alloc::{AllocError, Global};
use type_json::JsonError;

/// The offsets of a union that a value is: null, or a list of numbers.
#[tactic(auto, unfolding(column_grammar::specs::Reads::union_offsets_in))]
fn union_offsets_in(alloc: Global, value: &Value) -> Result<Option<Buffer<i32>>, JsonError>
    ensures { Reads BadValue (λ o. o) (union_offsets_in (view value.now)) result }
{
    if value.is_null() {
        return Ok(None);
    }
    let offsets = offsets_in::<i32>(alloc, value)?;
    Ok(Some(Buffer::from_vec(alloc, offsets)?))
}

/// The type numbers of a list of values.
fn type_list(alloc: Global, list: &[Value]) -> Result<Vec<i8>, JsonError>
    ensures { Reads BadValue (λ v. v.items)
        (traverse (signed_in 7) (map view list.now)) result }
{
    let mut types = Vec::with_capacity(alloc, list.len())?;
    for item in list {
        let Some(number) = int8_in(item) else {
            return Err(JsonError::BadValue);
        };
        types.push(number)?;
    }
    Ok(types)
}

/// The type numbers that a value is: a list of numbers of 8 bits.
#[tactic(auto, using(crate::proofs::Singles::singles_are))]
fn types_in(alloc: Global, value: &Value) -> Result<Buffer<i8>, JsonError>
    ensures { Reads BadValue (λ b. b) (singles_in primitive.Int8 (view value.now)) result }
{
    let list = items(value).ok_or(JsonError::BadValue)?;
    let types = type_list(alloc, list)?;
    Ok(Buffer::from_vec(alloc, types)?)
}

/// The offsets and the type numbers that two values are.
fn union_parts(alloc: Global, offsets: &Value, types: &Value) -> Result<UnionParts, JsonError>
    ensures { Reads BadValue union_parts_seen (option_zip (union_offsets_in (view offsets.now))
        (singles_in primitive.Int8 (view types.now))) result }
{
    let offsets = union_offsets_in(alloc, offsets)?;
    let types = types_in(alloc, types)?;
    Ok(UnionParts { offsets, types })
}

/// The array of unions of these parts over their children, None where it isn't well formed.
fn union_array(
    alloc: Global,
    dtype: ArrowDataType,
    parts: UnionParts,
    children: Vec<ArrayRef>,
) -> Mem<Option<ArrayRef>>
    ensures { IfOk result (λ a.
        IsArrayOf a (union_of (seen dtype) (layouts children.items) parts.offsets parts.types)) }
{
    match UnionArray::try_new(alloc, dtype, parts.types, children, parts.offsets) {
        Ok(array) => {
            let array = array.boxed();
            array.invariant();
            Ok(Some(array))
        }
        Err(PolarsError::ComputeError(_)) => Ok(None),
        Err(_) => Err(AllocError),
    }
}

/// The array of unions over what was read of their children, with the offsets and the type numbers
/// that the values beside them hold.
pub(crate) fn union_over(
    alloc: Global,
    dtype: &ArrowDataType,
    union: ReadChildren<'_>,
) -> Result<Option<ArrayRef>, JsonError>
    ensures { (found : Option Layouts)
        → AreReadOf found (option_map (λ v. v.items) union.entry.children)
        → ReadsArray (unions_from (seen dtype.now) found
        (view union.entry.second.now, view union.entry.third.now)) result }
{
    let parts = union_parts(alloc, union.second, union.third)?;
    let Some(children) = union.children else {
        return Ok(None);
    };
    let dtype = dtype.try_clone(alloc)?;
    let array = union_array(alloc, dtype, parts, children)?;
    Ok(array)
}
