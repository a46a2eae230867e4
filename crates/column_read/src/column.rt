//! A column as it is read.
ghost use Rattle.std.specs.Prelude.{None, IfOk};
ghost use Rattle.serde_json.specs.View.{view};
ghost use Rattle.arrow_types.specs.Seen.{seen};
ghost use Rattle.type_json.specs.Reads.{Makes};
ghost use Rattle.type_json.specs.TypeJson.{IsType};
ghost use Rattle.type_json.specs.declared.error.JsonError.TheVariants.{BadValue};
ghost use Rattle.column_grammar.specs.Reads as grammar;
ghost use Rattle.column_grammar.specs.Reads.{column_of, column_from, selected_layout, sliced_layout, IsValidColumn, IsWithin};
ghost use Rattle.column_read.specs.Arrays.{ReadsColumn, IsColumn};
ghost use Rattle.column_read.specs.declared.error.LayoutError.TheVariants.{BadLayout};

use crate::LayoutError;
use crate::array::array_in;
use crate::value::{slice_in, three_members, two_members};
use arrow_meaning::ArrayRef;
use arrow_types::ArrowDataType;
use serde_json::Value;
use std::alloc::Global;
use type_json::{JsonError, type_from_json};

/// A column as it is read.
#[derive(Drop)]
pub struct Column {
    /// The whole type.
    pub dtype: ArrowDataType,
    /// The array, None where what was read isn't well formed.
    pub array: Option<ArrayRef>,
    /// The offset and the length of the slice that the column selects, None for all slots.
    pub slice: Option<(usize, usize)>,
}

impl Column {
    /// The column that a JSON value is, well formed or not: an object of data and a type, with a
    /// slice beside them or not. BadValue exactly where it isn't in the grammar.
    #[tactic(auto, unfolding(column_grammar::specs::Reads::column_of))]
    pub fn from_json(alloc: Global, value: &Value) -> Result<Column, JsonError>
        ensures is_type { IfOk result (λ c. IsType (seen c.dtype)) }
        ensures read { ReadsColumn (column_of (view value.now)) result }
    {
        if let Some((data, name)) = two_members(value, "data", "type") {
            return column_from(alloc, None, data, name);
        }
        let Some((data, slice, name)) = three_members(value, "data", "slice", "type") else {
            return Err(JsonError::BadValue);
        };
        let Some(slice) = slice_in(slice) else {
            return Err(JsonError::BadValue);
        };
        column_from(alloc, Some(slice), data, name)
    }

    /// The array of the slots that the column selects. BadLayout exactly where what was read isn't
    /// well formed, or its slice passes its length.
    pub fn into_array(self, alloc: Global) -> Result<ArrayRef, LayoutError>
        ensures array { (k : grammar.Column) → IsColumn k self
            → Makes BadLayout (λ a. a) (selected_layout k) (IsValidColumn k) result }
        ensures valid { (k : grammar.Column) → IsColumn k self
            → IfOk result (λ _. IsValidColumn k) }
    {
        let Column {
            dtype: _,
            array,
            slice,
        } = self;
        match array {
            Some(array) => sliced(alloc, array, slice),
            None => Err(LayoutError::BadLayout),
        }
    }
}

/// The column of these data, this type and this slice.
fn column_from(
    alloc: Global,
    slice: Option<(usize, usize)>,
    content: &Value,
    name: &Value,
) -> Result<Column, JsonError>
    ensures is_type { IfOk result (λ c. IsType (seen c.dtype)) }
    ensures read { ReadsColumn (column_from slice (view content.now, view name.now)) result }
{
    let dtype = type_from_json(alloc, name)?;
    let array = array_in(alloc, &dtype, content)?;
    Ok(Column {
        dtype,
        array,
        slice,
    })
}

/// The slots that a slice selects of an array, or all. BadLayout exactly where the slice passes the
/// array's length.
fn sliced(
    alloc: Global,
    array: ArrayRef,
    slice: Option<(usize, usize)>,
) -> Result<ArrayRef, LayoutError>
    ensures array { Makes BadLayout (λ a. a) (sliced_layout array slice)
        (IsWithin array slice) result }
    ensures within { IfOk result (λ _. IsWithin array slice) }
{
    let Some((offset, length)) = slice else {
        return Ok(array);
    };
    let len = array.len();
    if offset > len || length > len - offset {
        return Err(LayoutError::BadLayout);
    }
    Ok(array.sliced(alloc, offset, length)?)
}
