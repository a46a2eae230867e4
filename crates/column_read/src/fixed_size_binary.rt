//! Columns of binary values of one size: their parts from JSON values, and their arrays.
ghost use Rattle.std.specs.Prelude.{◌≡◌, Some, IfOk};
ghost use Rattle.serde_json.specs.View.{view};
ghost use Rattle.arrow_types.specs.Seen.{seen};
ghost use Rattle.arrow_types.specs.TypeData.{TypeData};
ghost use Rattle.arrow_bytes.specs.FixedSizeBinaries.{declared_size};
ghost use Rattle.arrow_meaning.specs.Nodes.{fixed_size_binary_layout};
ghost use Rattle.arrow_layout.specs.WellFormed.{WellFormed};
ghost use Rattle.type_json.specs.Reads.{Reads, Makes};
ghost use Rattle.type_json.specs.declared.error.JsonError.TheVariants.{BadValue};
ghost use Rattle.column_grammar.specs.Reads.{fixed_size_binaries_in};
ghost use Rattle.column_read.specs.Parts.{fixed_size_binaries_layout, AreOctets};
ghost use Rattle.column_read.specs.declared.error.LayoutError.TheVariants.{BadLayout};

use crate::LayoutError;
use crate::parts::FixedSizeBinaryParts;
use crate::value::{bytes_in, mask_in, two_members};
use arrow_buffers::Buffer;
use arrow_bytes::FixedSizeBinaryArray;
use arrow_types::ArrowDataType;
use serde_json::Value;
use std::alloc::Global;
use type_json::JsonError;

/// Binary values of one size under a mask, from their JSON value.
#[tactic(auto, unfolding(column_grammar::specs::Reads::fixed_size_binaries_in))]
pub(crate) fn fixed_size_binaries_in(
    alloc: Global,
    size: usize,
    value: &Value,
) -> Result<FixedSizeBinaryParts, JsonError>
    ensures octets { IfOk result (λ p. AreOctets p.values) }
    ensures size { IfOk result (λ p. p.size ≡ size) }
    ensures read { (t : TypeData) → Reads BadValue (fixed_size_binaries_layout t)
        (fixed_size_binaries_in t size (view value.now)) result }
{
    let (bytes, mask) = two_members(value, "bytes", "mask").ok_or(JsonError::BadValue)?;
    let values = bytes_in(alloc, bytes)?;
    let values = Buffer::from_vec(alloc, values)?;
    let validity = mask_in(alloc, mask)?;
    Ok(FixedSizeBinaryParts {
        size,
        values,
        validity,
    })
}

/// The array of binary values of one size of these parts. BadLayout exactly where they aren't well
/// formed.
pub(crate) fn fixed_size_binary_array(
    dtype: ArrowDataType,
    parts: FixedSizeBinaryParts,
) -> Result<FixedSizeBinaryArray, LayoutError>
    requires { declared_size (seen dtype) ≡ Some parts.size }
    ensures { Makes BadLayout fixed_size_binary_layout
        (fixed_size_binaries_layout (seen dtype) parts)
        (WellFormed (fixed_size_binaries_layout (seen dtype) parts)) result }
{
    match FixedSizeBinaryArray::try_new(dtype, parts.values, parts.validity) {
        Ok(array) => Ok(array),
        Err(_) => Err(LayoutError::BadLayout),
    }
}
