//! The arrays that the rows are made of.
use arrow_buffers::{Bitmap, Offsets};
use arrow_choice::{DictionaryArray, UnionArray};
use arrow_flat::{BooleanArray, PrimitiveArray};
use arrow_meaning::{ArrayRef, FlatArray, TypedArray};
use arrow_nested::{FixedSizeListArray, ListArray, StructArray};
use arrow_types::{
    ArrowDataType, Boxed, Field, Fields, Ids, Mem, PlSmallStr, UnionMode, UnionType,
};
use flat_fixtures::buffer_of;
use std::alloc::Global;
use std::test::Fail;

/// A mask of these bits, or none.
pub(crate) fn mask(alloc: Global, bits: Option<&[bool]>) -> Mem<Option<Bitmap>> {
    match bits {
        None => Ok(None),
        Some(bits) => Ok(Some(Bitmap::from_bools(alloc, bits)?)),
    }
}

/// These numbers under a mask.
pub(crate) fn numbers(
    alloc: Global,
    values: &[i32],
    bits: Option<&[bool]>,
) -> Result<ArrayRef, Fail> {
    let validity = mask(alloc, bits)?;
    let values = buffer_of(alloc, values)?;
    let numbers = PrimitiveArray::try_new(ArrowDataType::Int32, values, validity)?;
    Ok(numbers.boxed(alloc)?)
}

/// These bits under a mask.
pub(crate) fn booleans(
    alloc: Global,
    values: &[bool],
    bits: Option<&[bool]>,
) -> Result<ArrayRef, Fail> {
    let validity = mask(alloc, bits)?;
    let values = Bitmap::from_bools(alloc, values)?;
    let booleans = BooleanArray::try_new(ArrowDataType::Boolean, values, validity)?;
    Ok(booleans.boxed(alloc)?)
}

/// A nullable field of this name and type.
fn field(alloc: Global, name: &str, dtype: ArrowDataType) -> Mem<Field> {
    Ok(Field::new(PlSmallStr::try_from_str(alloc, name)?, dtype, true))
}

/// The field of the items of a list over this child.
fn item_field(alloc: Global, child: &ArrayRef) -> Mem<Boxed<Field>> {
    let dtype = child.dtype().try_clone(alloc)?;
    let item = field(alloc, "item", dtype)?;
    Boxed::new(alloc, item)
}

/// Large lists between these offsets over a child.
pub(crate) fn large_lists(
    alloc: Global,
    offsets: &[i64],
    child: ArrayRef,
    bits: Option<&[bool]>,
) -> Result<ArrayRef, Fail> {
    let dtype = ArrowDataType::LargeList(item_field(alloc, &child)?);
    let validity = mask(alloc, bits)?;
    let offsets = Offsets::try_from_vec(Vec::from_slice(alloc, offsets)?)?;
    let offsets = offsets.freeze()?;
    Ok(ListArray::<i64>::try_new(alloc, dtype, offsets, child, validity)?.boxed())
}

/// Lists of one size over a child.
pub(crate) fn fixed_size_lists(
    alloc: Global,
    size: usize,
    length: usize,
    child: ArrayRef,
    bits: Option<&[bool]>,
) -> Result<ArrayRef, Fail> {
    let dtype = ArrowDataType::FixedSizeList(item_field(alloc, &child)?, size);
    let validity = mask(alloc, bits)?;
    Ok(FixedSizeListArray::try_new(alloc, dtype, length, child, validity)?.boxed())
}

/// Structs of one field over a child.
pub(crate) fn structs(
    alloc: Global,
    child: ArrayRef,
    bits: Option<&[bool]>,
) -> Result<ArrayRef, Fail> {
    let length = child.len();
    let mut fields = Fields::new(alloc);
    fields.push(field(alloc, "a", child.dtype().try_clone(alloc)?)?)?;
    let dtype = ArrowDataType::Struct(fields);
    let validity = mask(alloc, bits)?;
    let children = vec![in alloc; child]?;
    Ok(StructArray::try_new(alloc, dtype, length, children, validity)?.boxed())
}

/// The ids of a union, or none.
fn ids_of(alloc: Global, ids: Option<&[i32]>) -> Mem<Option<Ids>> {
    match ids {
        None => Ok(None),
        Some(ids) => Ok(Some(Ids::from_slice(alloc, ids)?)),
    }
}

/// The type of unions of numbers and bits.
fn union_type(alloc: Global, ids: Option<&[i32]>, is_sparse: bool) -> Mem<ArrowDataType> {
    let mut fields = Fields::new(alloc);
    fields.push(field(alloc, "a", ArrowDataType::Int32)?)?;
    fields.push(field(alloc, "b", ArrowDataType::Boolean)?)?;
    let ids = ids_of(alloc, ids)?;
    let mode = UnionMode::sparse(is_sparse);
    Ok(ArrowDataType::Union(Boxed::new(alloc, UnionType { fields, ids, mode })?))
}

/// A union of numbers and bits: dense with offsets, and sparse without.
pub(crate) fn unions(
    alloc: Global,
    ids: Option<&[i32]>,
    types: &[i8],
    offsets: Option<&[i32]>,
    numbers: ArrayRef,
    booleans: ArrayRef,
) -> Result<ArrayRef, Fail> {
    let children = vec![in alloc; numbers, booleans]?;
    let dtype = union_type(alloc, ids, offsets.is_none())?;
    let types = buffer_of(alloc, types)?;
    let offsets = match offsets {
        None => None,
        Some(offsets) => Some(buffer_of(alloc, offsets)?),
    };
    Ok(UnionArray::try_new(alloc, dtype, types, children, offsets)?.boxed())
}

/// The dictionary of these keys over values.
pub(crate) fn dictionaries(
    alloc: Global,
    keys: &[i32],
    bits: Option<&[bool]>,
    values: ArrayRef,
) -> Result<ArrayRef, Fail> {
    let validity = mask(alloc, bits)?;
    let keys = buffer_of(alloc, keys)?;
    let keys = PrimitiveArray::try_new(ArrowDataType::Int32, keys, validity)?;
    Ok(DictionaryArray::<i32>::try_from_keys(alloc, keys, values)?.boxed())
}
