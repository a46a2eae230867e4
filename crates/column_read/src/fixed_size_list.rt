//! Arrays of lists of one size from JSON values.
ghost use Rattle.std.specs.Prelude.{◌≡◌, ℕ, Option, Some, IfOk};
ghost use Rattle.serde_json.specs.View.{view};
ghost use Rattle.arrow_types.specs.Seen.{seen};
ghost use Rattle.arrow_layout.specs.Forms.{form_of, fixed_size_lists_of};
ghost use Rattle.arrow_layout.specs.Layouts.{Layout, fixed_size_lists};
ghost use Rattle.arrow_types.specs.TypeData.{TypeData};
ghost use Rattle.column_grammar.specs.Reads.{fixed_size_lists_from};
ghost use Rattle.column_read.specs.Arrays.{IsArrayOf, IsReadOf, ReadsArray};

use crate::array::ReadChild;
use crate::parts::SizedParts;
use crate::value::sized_parts;
use arrow_meaning::{ArrayRef, TypedArray};
use arrow_nested::FixedSizeListArray;
use arrow_types::{ArrowDataType, Mem, PolarsError};
use std::alloc::{AllocError, Global};
use type_json::JsonError;

/// The array of lists with these parts over a child, None where it isn't well formed.
fn fixed_size_list_array(
    alloc: Global,
    dtype: ArrowDataType,
    parts: SizedParts,
    child: ArrayRef,
) -> Mem<Option<ArrayRef>>
    ensures { (k : ℕ) (u : TypeData) → form_of (seen dtype) ≡ fixed_size_lists_of k u
        → IfOk result (λ a. IsArrayOf a (fixed_size_lists (seen dtype) parts.validity k parts.length child)) }
{
    match FixedSizeListArray::try_new(alloc, dtype, parts.length, child, parts.validity) {
        Ok(array) => {
            let array = array.boxed();
            array.invariant();
            Ok(Some(array))
        }
        Err(PolarsError::ComputeError(_)) => Ok(None),
        Err(_) => Err(AllocError),
    }
}

/// The array of lists over what was read of their items, with the length and the mask that the
/// values beside it hold.
pub(crate) fn fixed_size_list_over(
    alloc: Global,
    dtype: &ArrowDataType,
    list: ReadChild<'_>,
) -> Result<Option<ArrayRef>, JsonError>
    ensures { (k : ℕ) (u : TypeData) (found : Option Layout)
        → form_of (seen dtype.now) ≡ fixed_size_lists_of k u → IsReadOf found list.entry.child
        → ReadsArray (fixed_size_lists_from (seen dtype.now) k found
        (view list.entry.second.now, view list.entry.third.now)) result }
{
    let parts = sized_parts(alloc, list.second, list.third)?;
    let Some(child) = list.child else {
        return Ok(None);
    };
    let dtype = dtype.try_clone(alloc)?;
    let array = fixed_size_list_array(alloc, dtype, parts, child)?;
    Ok(array)
}
