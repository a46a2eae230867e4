//! Columns of bits: their parts from JSON values, and their arrays.
ghost use Rattle.std.specs.Prelude.{◌≡◌, Some};
ghost use Rattle.serde_json.specs.View.{view};
ghost use Rattle.arrow_types.specs.Seen.{seen};
ghost use Rattle.arrow_types.specs.TypeData.{TypeData};
ghost use Rattle.arrow_types.specs.Types.{physical_of};
ghost use Rattle.arrow_types.specs.declared.datatype.PhysicalType.TheVariants as physical;
ghost use Rattle.arrow_meaning.specs.Nodes.{boolean_layout};
ghost use Rattle.arrow_layout.specs.WellFormed.{WellFormed};
ghost use Rattle.type_json.specs.Reads.{Reads, Makes};
ghost use Rattle.type_json.specs.declared.error.JsonError.TheVariants.{BadValue};
ghost use Rattle.column_grammar.specs.Reads.{booleans_in};
ghost use Rattle.column_read.specs.Parts.{booleans_layout};
ghost use Rattle.column_read.specs.declared.error.LayoutError.TheVariants.{BadLayout};

use crate::LayoutError;
use crate::parts::BooleanParts;
use crate::value::{bits_in, mask_in, two_members};
use arrow_flat::BooleanArray;
use arrow_types::ArrowDataType;
use serde_json::Value;
use std::alloc::Global;
use type_json::JsonError;

/// Bits under a mask, from their JSON value.
#[tactic(auto, unfolding(column_grammar::specs::Reads::booleans_in))]
pub(crate) fn booleans_in(alloc: Global, value: &Value) -> Result<BooleanParts, JsonError>
    ensures { (t : TypeData)
        → Reads BadValue (booleans_layout t) (booleans_in t (view value.now)) result }
{
    let (mask, values) = two_members(value, "mask", "values").ok_or(JsonError::BadValue)?;
    let validity = mask_in(alloc, mask)?;
    let values = bits_in(alloc, values)?;
    Ok(BooleanParts { values, validity })
}

/// The array of bits of these parts. BadLayout exactly where they aren't well formed.
pub(crate) fn boolean_array(
    dtype: ArrowDataType,
    parts: BooleanParts,
) -> Result<BooleanArray, LayoutError>
    requires { physical_of (seen dtype) ≡ Some physical.Boolean }
    ensures { Makes BadLayout boolean_layout (booleans_layout (seen dtype) parts)
        (WellFormed (booleans_layout (seen dtype) parts)) result }
{
    match BooleanArray::try_new(dtype, parts.values, parts.validity) {
        Ok(array) => Ok(array),
        Err(_) => Err(LayoutError::BadLayout),
    }
}
