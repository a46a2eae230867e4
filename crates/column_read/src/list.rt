//! Arrays of lists and of maps from JSON values.
ghost use Rattle.std.specs.Prelude.{◌≡◌, false, Option, Some, IfOk};
ghost use Rattle.std.specs.Option.{option_zip};
ghost use Rattle.serde_json.specs.View.{view};
ghost use Rattle.arrow_types.specs.Seen.{seen};
ghost use Rattle.arrow_types.specs.Types.{physical_of};
ghost use Rattle.arrow_types.specs.declared.datatype.PhysicalType.TheVariants as physical;
ghost use Rattle.arrow_layout.specs.Layouts.{Layout};
ghost use Rattle.arrow_meaning.specs.Nodes.{list_layout, physical_list};
ghost use Rattle.type_json.specs.Reads.{Reads};
ghost use Rattle.type_json.specs.declared.error.JsonError.TheVariants.{BadValue};
ghost use Rattle.column_grammar.specs.Values.{mask_in, list_in, signed_in};
ghost use Rattle.column_grammar.specs.Reads.{lists_from, offset_bits};
ghost use Rattle.column_read.specs.Arrays.{IsArrayOf, IsReadOf, ReadsArray};
ghost use Rattle.column_read.specs.Parts.{list_parts_seen};

use crate::ReadOffset;
use crate::array::ReadChild;
use crate::binary::{offsets_in, shared_offsets};
use crate::parts::ListParts;
use crate::value::mask_in;
use arrow_buffers::Offset;
use arrow_meaning::{ArrayRef, NodeOffset, TypedArray};
use arrow_nested::{ListArray, MapArray};
use arrow_types::{ArrowDataType, Mem, PolarsError};
use serde_json::Value;
use std::alloc::{AllocError, Global};
use type_json::JsonError;

/// The mask and the offsets of lists.
fn list_parts<O: ReadOffset>(
    alloc: Global,
    mask: &Value,
    offsets: &Value,
) -> Result<ListParts<O>, JsonError>
    ensures { Reads BadValue (list_parts_seen O.number) (option_zip (mask_in (view mask.now))
        (list_in (signed_in (offset_bits O.IS_LARGE)) (view offsets.now))) result }
{
    let validity = mask_in(alloc, mask)?;
    let offsets = offsets_in(alloc, offsets)?;
    Ok(ListParts { offsets, validity })
}

/// The array of lists with these parts over a child, None where it isn't well formed.
fn list_array<O: NodeOffset>(
    alloc: Global,
    dtype: ArrowDataType,
    parts: ListParts<O>,
    child: ArrayRef,
) -> Mem<Option<ArrayRef>>
    requires { physical_of (seen dtype) ≡ Some (physical_list O.IS_LARGE) }
    ensures { IfOk result (λ a. IsArrayOf a
        (list_layout O.number dtype parts.offsets.items child parts.validity)) }
{
    let Some(offsets) = shared_offsets(parts.offsets)? else {
        return Ok(None);
    };
    match ListArray::<O>::try_new(alloc, dtype, offsets, child, parts.validity) {
        Ok(array) => Ok(Some(array.boxed())),
        Err(PolarsError::ComputeError(_)) => Ok(None),
        Err(_) => Err(AllocError),
    }
}

/// The array of maps with these parts over the entries, None where it isn't well formed.
fn map_array(
    alloc: Global,
    dtype: ArrowDataType,
    parts: ListParts<i32>,
    entries: ArrayRef,
) -> Mem<Option<ArrayRef>>
    requires { physical_of (seen dtype) ≡ Some physical.Map }
    ensures { IfOk result (λ a. IsArrayOf a
        (list_layout (λ o. o) dtype parts.offsets.items entries parts.validity)) }
{
    let Some(offsets) = shared_offsets(parts.offsets)? else {
        return Ok(None);
    };
    match MapArray::try_new(alloc, dtype, offsets, entries, parts.validity) {
        Ok(array) => Ok(Some(array.boxed())),
        Err(PolarsError::ComputeError(_)) => Ok(None),
        Err(_) => Err(AllocError),
    }
}

/// The array of lists over what was read of their items, with the mask and the offsets that the
/// values beside it hold.
pub(crate) fn list_over<O: NodeOffset + ReadOffset>(
    alloc: Global,
    dtype: &ArrowDataType,
    list: ReadChild<'_>,
) -> Result<Option<ArrayRef>, JsonError>
    requires { physical_of (seen dtype.now) ≡ Some (physical_list O.IS_LARGE) }
    ensures { (found : Option Layout) → IsReadOf found list.entry.child
        → ReadsArray (lists_from (seen dtype.now) O.IS_LARGE found
        (view list.entry.second.now, view list.entry.third.now)) result }
{
    let parts = list_parts::<O>(alloc, list.second, list.third)?;
    let Some(child) = list.child else {
        return Ok(None);
    };
    let dtype = dtype.try_clone(alloc)?;
    let array = list_array(alloc, dtype, parts, child)?;
    Ok(array)
}

/// The array of maps over what was read of their entries, with the mask and the offsets that the
/// values beside it hold.
pub(crate) fn map_over(
    alloc: Global,
    dtype: &ArrowDataType,
    entries: ReadChild<'_>,
) -> Result<Option<ArrayRef>, JsonError>
    requires { physical_of (seen dtype.now) ≡ Some physical.Map }
    ensures { (found : Option Layout) → IsReadOf found entries.entry.child
        → ReadsArray (lists_from (seen dtype.now) false found
        (view entries.entry.second.now, view entries.entry.third.now)) result }
{
    let parts = list_parts::<i32>(alloc, entries.second, entries.third)?;
    let Some(entries) = entries.child else {
        return Ok(None);
    };
    let dtype = dtype.try_clone(alloc)?;
    let array = map_array(alloc, dtype, parts, entries)?;
    Ok(array)
}
