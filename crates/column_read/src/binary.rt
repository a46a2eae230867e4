//! Columns of binary values and of strings: their parts from JSON values, and their arrays.
ghost use Rattle.std.specs.Prelude.{◌≡◌, map, Some, IfOk, IsSome, MatchOption};
ghost use Rattle.serde_json.specs.View.{view};
ghost use Rattle.arrow_buffers.specs.Offsets.{offsets_refusal};
ghost use Rattle.arrow_types.specs.Seen.{seen};
ghost use Rattle.arrow_types.specs.TypeData.{TypeData};
ghost use Rattle.arrow_types.specs.Types.{physical_of};
ghost use Rattle.arrow_bytes.specs.Binaries.{layout_in};
ghost use Rattle.arrow_meaning.specs.Nodes.{binary_layout};
ghost use Rattle.arrow_layout.specs.WellFormed.{WellFormed};
ghost use Rattle.type_json.specs.Reads.{Reads, Makes};
ghost use Rattle.type_json.specs.Values.{traverse};
ghost use Rattle.type_json.specs.declared.error.JsonError.TheVariants.{BadValue};
ghost use Rattle.column_grammar.specs.Values.{list_in, signed_in};
ghost use Rattle.column_grammar.specs.Reads.{offset_bits, binaries_in};
ghost use Rattle.column_read.specs.Parts.{binaries_layout, AreOctets};
ghost use Rattle.column_read.specs.declared.error.LayoutError.TheVariants.{BadLayout};

use crate::parts::BinaryParts;
use crate::value::{bytes_in, items, mask_in, three_members};
use crate::{LayoutError, ReadOffset};
use arrow_buffers::{Buffer, Offset, Offsets, OffsetsBuffer};
use arrow_bytes::OffsetArray;
use arrow_flat::ViewType;
use arrow_types::{ArrowDataType, Mem};
use serde_json::Value;
use std::alloc::Global;
use type_json::JsonError;

/// The offsets of a list of JSON values.
fn offset_list<O: ReadOffset>(alloc: Global, list: &[Value]) -> Result<Vec<O>, JsonError>
    ensures { Reads BadValue (λ v. map O.number v.items)
        (traverse (signed_in (offset_bits O.IS_LARGE)) (map view list.now)) result }
{
    let mut offsets = Vec::new(alloc);
    for item in list {
        let Some(offset) = O::read(item) else {
            return Err(JsonError::BadValue);
        };
        offsets.push(offset)?;
    }
    Ok(offsets)
}

/// The offsets that a JSON value is: a list of numbers.
#[tactic(auto, unfolding(column_grammar::specs::Values::list_in))]
pub(crate) fn offsets_in<O: ReadOffset>(alloc: Global, value: &Value) -> Result<Vec<O>, JsonError>
    ensures { Reads BadValue (λ v. map O.number v.items)
        (list_in (signed_in (offset_bits O.IS_LARGE)) (view value.now)) result }
{
    match items(value) {
        Some(list) => offset_list(alloc, list),
        None => Err(JsonError::BadValue),
    }
}

/// Binary values or strings under a mask, from their JSON value.
#[tactic(auto, unfolding(column_grammar::specs::Reads::binaries_in))]
pub(crate) fn binaries_in<O: ReadOffset>(
    alloc: Global,
    value: &Value,
) -> Result<BinaryParts<O>, JsonError>
    ensures octets { IfOk result (λ p. AreOctets p.values) }
    ensures read { (t : TypeData) → Reads BadValue (binaries_layout O.number t)
        (binaries_in t O.IS_LARGE (view value.now)) result }
{
    let members = three_members(value, "bytes", "mask", "offsets");
    let (bytes, mask, offsets) = members.ok_or(JsonError::BadValue)?;
    let values = bytes_in(alloc, bytes)?;
    let values = Buffer::from_vec(alloc, values)?;
    let validity = mask_in(alloc, mask)?;
    let offsets = offsets_in(alloc, offsets)?;
    Ok(BinaryParts {
        offsets,
        values,
        validity,
    })
}

/// The offsets of a vector, to be shared; None where they are no offsets.
pub(crate) fn shared_offsets<O: Offset>(offsets: Vec<O>) -> Mem<Option<OffsetsBuffer<O>>>
    ensures { IfOk result (λ o. MatchOption o
        (IsSome (offsets_refusal (map O.number offsets.items))) (λ b. b ≡ offsets.items)) }
{
    match Offsets::try_from_vec(offsets) {
        Ok(offsets) => Ok(Some(offsets.freeze()?)),
        Err(_) => Ok(None),
    }
}

/// The array of binary values or strings of these parts. BadLayout exactly where they aren't well
/// formed.
pub(crate) fn offset_array<K: ViewType, O: Offset>(
    dtype: ArrowDataType,
    parts: BinaryParts<O>,
) -> Result<OffsetArray<K, O>, LayoutError>
    requires stored { physical_of (seen dtype) ≡ Some (layout_in K.IS_TEXT O.IS_LARGE) }
    requires octets { AreOctets parts.values }
    ensures { Makes BadLayout (binary_layout O.number) (binaries_layout O.number (seen dtype) parts)
        (WellFormed (binaries_layout O.number (seen dtype) parts)) result }
{
    let Some(offsets) = shared_offsets(parts.offsets)? else {
        return Err(LayoutError::BadLayout);
    };
    match OffsetArray::try_new(dtype, offsets, parts.values, parts.validity) {
        Ok(array) => Ok(array),
        Err(_) => Err(LayoutError::BadLayout),
    }
}
