//! Arrays of structs from JSON values.
ghost use Rattle.std.specs.Prelude.{Option, Some, option_map, IfOk};
ghost use Rattle.serde_json.specs.View.{view};
ghost use Rattle.arrow_types.specs.Seen.{seen};
ghost use Rattle.arrow_layout.specs.Layouts.{Layouts, layouts, structs};
ghost use Rattle.column_grammar.specs.Reads.{structs_from};
ghost use Rattle.column_read.specs.Arrays.{AreReadOf, IsArrayOf, ReadsArray};

use crate::array::ReadChildren;
use crate::parts::SizedParts;
use crate::value::sized_parts;
use arrow_meaning::{ArrayRef, TypedArray};
use arrow_nested::StructArray;
use arrow_types::{ArrowDataType, Mem, PolarsError};
use std::alloc::{AllocError, Global};
use type_json::JsonError;

/// The array of structs with these parts over their children, None where it isn't well formed.
fn struct_array(
    alloc: Global,
    dtype: ArrowDataType,
    parts: SizedParts,
    children: Vec<ArrayRef>,
) -> Mem<Option<ArrayRef>>
    ensures { IfOk result (λ a.
        IsArrayOf a (structs (seen dtype) parts.validity parts.length (layouts children.items))) }
{
    match StructArray::try_new(alloc, dtype, parts.length, children, parts.validity) {
        Ok(array) => {
            let array = array.boxed();
            array.invariant();
            Ok(Some(array))
        }
        Err(PolarsError::ComputeError(_)) => Ok(None),
        Err(_) => Err(AllocError),
    }
}

/// The array of structs over what was read of their children, with the length and the mask that
/// the values beside them hold.
pub(crate) fn struct_over(
    alloc: Global,
    dtype: &ArrowDataType,
    row: ReadChildren<'_>,
) -> Result<Option<ArrayRef>, JsonError>
    ensures { (found : Option Layouts)
        → AreReadOf found (option_map (λ v. v.items) row.entry.children)
        → ReadsArray (structs_from (seen dtype.now) found
        (view row.entry.second.now, view row.entry.third.now)) result }
{
    let parts = sized_parts(alloc, row.second, row.third)?;
    let Some(children) = row.children else {
        return Ok(None);
    };
    let dtype = dtype.try_clone(alloc)?;
    let array = struct_array(alloc, dtype, parts, children)?;
    Ok(array)
}
