//! Arrays of nulls from JSON values.
ghost use Rattle.std.specs.Prelude.{◌≡◌, Some, IfOk};
ghost use Rattle.serde_json.specs.View.{view};
ghost use Rattle.arrow_types.specs.Seen.{seen};
ghost use Rattle.arrow_types.specs.Types.{physical_of};
ghost use Rattle.arrow_types.specs.declared.datatype.PhysicalType.TheVariants as physical;
ghost use Rattle.arrow_layout.specs.Layouts.{nulls};
ghost use Rattle.column_grammar.specs.Reads.{nulls_in};
ghost use Rattle.column_read.specs.Arrays.{IsArrayOf, ReadsArray};

use crate::value::one_member;
use arrow_meaning::{ArrayRef, TypedArray};
use arrow_nested::NullArray;
use arrow_types::{ArrowDataType, Mem};
use serde_json::Value;
use std::alloc::Global;
use type_json::{JsonError, whole_in};

/// The array of `length` nulls.
fn null_array(alloc: Global, dtype: &ArrowDataType, length: usize) -> Mem<Option<ArrayRef>>
    requires { physical_of (seen dtype.now) ≡ Some physical.Null }
    ensures { IfOk result (λ a. IsArrayOf a (nulls (seen dtype.now) length)) }
{
    let dtype = dtype.try_clone(alloc)?;
    let array = NullArray::new(alloc, dtype, length)?;
    Ok(Some(array.boxed()))
}

/// The array of nulls that a value holds: their count.
#[tactic(auto, unfolding(column_grammar::specs::Reads::nulls_in))]
pub(crate) fn null_in(
    alloc: Global,
    dtype: &ArrowDataType,
    value: &Value,
) -> Result<Option<ArrayRef>, JsonError>
    requires { physical_of (seen dtype.now) ≡ Some physical.Null }
    ensures { ReadsArray (nulls_in (seen dtype.now) (view value.now)) result }
{
    let length = one_member(value, "length").ok_or(JsonError::BadValue)?;
    let length = whole_in(length).ok_or(JsonError::BadValue)?;
    Ok(null_array(alloc, dtype, length)?)
}
