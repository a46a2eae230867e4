//! Numbers, types and checks that the tests of fixed-size lists and of structs share.
use arrow_flat::PrimitiveArray;
use arrow_meaning::{ArrayRef, FlatArray};
use arrow_types::{ArrowDataType, Field, Fields, Mem, PlSmallStr, PolarsResult};
use flat_fixtures::buffer_of;
use std::alloc::Global;

/// The array of these numbers, without a mask.
pub(crate) fn numbers(alloc: Global, values: &[i32]) -> PolarsResult<ArrayRef> {
    let values = buffer_of(alloc, values)?;
    let numbers = PrimitiveArray::try_new(ArrowDataType::Int32, values, None)?;
    Ok(numbers.boxed(alloc)?)
}

/// Whether an array has these numbers.
pub(crate) fn has_numbers(array: &ArrayRef, wanted: &[i32]) -> bool {
    match array.as_primitive::<i32>() {
        Some(numbers) => numbers.values().as_slice() == wanted,
        None => false,
    }
}

/// The type of structs with fields of these types.
pub(crate) fn struct_type(alloc: Global, parts: &[ArrowDataType]) -> Mem<ArrowDataType> {
    let mut fields = Fields::new(alloc);
    for part in parts {
        let name = PlSmallStr::try_from_str(alloc, "part")?;
        let dtype = part.try_clone(alloc)?;
        fields.push(Field::new(name, dtype, true))?;
    }
    Ok(ArrowDataType::Struct(fields))
}
