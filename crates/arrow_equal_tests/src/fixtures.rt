//! The types and the arrays of the tables.
use arrow_buffers::{Bitmap, Buffer, Offset, OffsetError, Offsets, OffsetsBuffer};
use arrow_bytes::{BinaryArray, FixedSizeBinaryArray};
use arrow_choice::{DictionaryArray, UnionArray};
use arrow_flat::{BooleanArray, PrimitiveArray};
use arrow_meaning::{ArrayRef, FlatArray, NodeOffset, TypedArray};
use arrow_nested::{FixedSizeListArray, ListArray, MapArray, StructArray};
use arrow_types::{
    ArrowDataType, Boxed, Field, Fields, Ids, IntegerType, Mem, PlSmallStr, UnionMode, UnionType,
};
use arrow_views::{BinaryViewArray, View};
use flat_fixtures::buffer_of;
use std::alloc::Global;
use std::test::Fail;

/// A mask of the bits, none where there are no bits.
pub(crate) fn mask(alloc: Global, bits: &[bool]) -> Mem<Option<Bitmap>> {
    if bits.is_empty() {
        return Ok(None);
    }
    Ok(Some(Bitmap::from_bools(alloc, bits)?))
}

/// A field of numbers under the name.
pub(crate) fn field(alloc: Global, name: &str, is_nullable: bool) -> Mem<Field> {
    let name = PlSmallStr::try_from_str(alloc, name)?;
    Ok(Field::new(name, ArrowDataType::Int32, is_nullable))
}

/// The numbers under a mask.
pub(crate) fn numbers(alloc: Global, values: &[i32], bits: &[bool]) -> Result<ArrayRef, Fail> {
    let validity = mask(alloc, bits)?;
    let values = buffer_of(alloc, values)?;
    let array = PrimitiveArray::try_new(ArrowDataType::Int32, values, validity)?;
    Ok(array.boxed(alloc)?)
}

/// The bits from `start` on.
pub(crate) fn booleans(alloc: Global, bits: &[bool], start: usize) -> Result<ArrayRef, Fail> {
    let mut values = Bitmap::from_bools(alloc, bits)?;
    if start <= values.len() {
        let length = values.len() - start;
        values.slice(start, length);
    }
    let array = BooleanArray::try_new(ArrowDataType::Boolean, values, None)?;
    Ok(array.boxed(alloc)?)
}

/// The offsets of slots of these lengths.
fn offsets_of<O: Offset>(
    alloc: Global,
    lengths: &[usize],
) -> Result<OffsetsBuffer<O>, OffsetError> {
    let mut ends = Offsets::<O>::new(alloc)?;
    let extended = ends.try_extend_from_lengths(lengths);
    let offsets = ends.freeze();
    extended?;
    Ok(offsets?)
}

/// Binary values of these lengths, under a mask.
pub(crate) fn binary(
    alloc: Global,
    lengths: &[usize],
    bytes: &[u8],
    bits: &[bool],
) -> Result<ArrayRef, Fail> {
    let validity = mask(alloc, bits)?;
    let offsets = offsets_of::<i32>(alloc, lengths)?;
    let values = buffer_of(alloc, bytes)?;
    let array = BinaryArray::<i32>::try_new(ArrowDataType::Binary, offsets, values, validity)?;
    Ok(array.boxed(alloc)?)
}

/// Binary values of two bytes, under a mask.
pub(crate) fn fixed_size_binary(
    alloc: Global,
    bytes: &[u8],
    bits: &[bool],
) -> Result<ArrayRef, Fail> {
    let validity = mask(alloc, bits)?;
    let values = buffer_of(alloc, bytes)?;
    let array = FixedSizeBinaryArray::try_new(ArrowDataType::FixedSizeBinary(2), values, validity)?;
    Ok(array.boxed(alloc)?)
}

/// A short value and a long one, by views, over the first `count` of these buffers.
pub(crate) fn views(alloc: Global, short: &[u8; 4], count: usize) -> Result<ArrayRef, Fail> {
    let long = View::new_long(16, *b"firs", 0, 0);
    let views = buffer_of(alloc, &[View::new_inline(short), long])?;
    let mut buffers = Vec::new(alloc);
    for _ in 0..count {
        let bytes = buffer_of(alloc, b"first long value")?;
        buffers.push(bytes)?;
    }
    let array = BinaryViewArray::try_new(ArrowDataType::BinaryView, views, buffers, None)?;
    Ok(array.boxed(alloc)?)
}

/// Lists of numbers under a mask, of the item's field.
pub(crate) fn lists<O: NodeOffset>(
    alloc: Global,
    item: Field,
    lengths: &[usize],
    values: &[i32],
    bits: &[bool],
) -> Result<ArrayRef, Fail> {
    let item = Boxed::new(alloc, item)?;
    let dtype = if O::IS_LARGE {
        ArrowDataType::LargeList(item)
    } else {
        ArrowDataType::List(item)
    };
    let validity = mask(alloc, bits)?;
    let offsets = offsets_of::<O>(alloc, lengths)?;
    let values = numbers(alloc, values, &[])?;
    Ok(ListArray::<O>::try_new(alloc, dtype, offsets, values, validity)?.boxed())
}

/// Two pairs of numbers under a mask.
pub(crate) fn pairs(alloc: Global, values: &[i32], bits: &[bool]) -> Result<ArrayRef, Fail> {
    let item = Boxed::new(alloc, field(alloc, "item", true)?)?;
    let dtype = ArrowDataType::FixedSizeList(item, 2);
    let validity = mask(alloc, bits)?;
    let values = numbers(alloc, values, &[])?;
    Ok(FixedSizeListArray::try_new(alloc, dtype, 2, values, validity)?.boxed())
}

/// The children of two lists of numbers.
fn children(alloc: Global, first: &[i32], second: &[i32]) -> Result<Vec<ArrayRef>, Fail> {
    let mut values = Vec::new(alloc);
    let child = numbers(alloc, first, &[])?;
    values.push(child)?;
    let child = numbers(alloc, second, &[])?;
    values.push(child)?;
    Ok(values)
}

/// Two fields of numbers.
fn two_fields(alloc: Global) -> Mem<Fields> {
    let mut fields = Fields::new(alloc);
    fields.push(field(alloc, "key", false)?)?;
    fields.push(field(alloc, "value", true)?)?;
    Ok(fields)
}

/// Rows of two numbers under a mask.
pub(crate) fn rows(
    alloc: Global,
    first: &[i32],
    second: &[i32],
    bits: &[bool],
) -> Result<ArrayRef, Fail> {
    let dtype = ArrowDataType::Struct(two_fields(alloc)?);
    let validity = mask(alloc, bits)?;
    let values = children(alloc, first, second)?;
    Ok(StructArray::try_new(alloc, dtype, first.len(), values, validity)?.boxed())
}

/// Maps of these lengths.
pub(crate) fn maps(
    alloc: Global,
    lengths: &[usize],
    keys: &[i32],
    values: &[i32],
) -> Result<ArrayRef, Fail> {
    let name = PlSmallStr::try_from_str(alloc, "entries")?;
    let entries = Field::new(name, ArrowDataType::Struct(two_fields(alloc)?), false);
    let dtype = ArrowDataType::Map(Boxed::new(alloc, entries)?, false);
    let offsets = offsets_of::<i32>(alloc, lengths)?;
    let entries = rows(alloc, keys, values, &[])?;
    Ok(MapArray::try_new(alloc, dtype, offsets, entries, None)?.boxed())
}

/// A type of unions of two fields of numbers.
fn union_type(alloc: Global, ids: &[i32], is_sparse: bool) -> Mem<ArrowDataType> {
    let fields = two_fields(alloc)?;
    let ids = if ids.is_empty() {
        None
    } else {
        Some(Ids::from_slice(alloc, ids)?)
    };
    let mode = UnionMode::sparse(is_sparse);
    let union = UnionType { fields, ids, mode };
    Ok(ArrowDataType::Union(Boxed::new(alloc, union)?))
}

/// A union of two children, sparse where there are no offsets.
pub(crate) fn unions(
    alloc: Global,
    ids: &[i32],
    types: &[i8],
    offsets: &[i32],
    first: &[i32],
    second: &[i32],
) -> Result<ArrayRef, Fail> {
    let is_sparse = offsets.is_empty();
    let dtype = union_type(alloc, ids, is_sparse)?;
    let types = buffer_of(alloc, types)?;
    let values = children(alloc, first, second)?;
    let offsets: Option<Buffer<i32>> = if is_sparse {
        None
    } else {
        Some(buffer_of(alloc, offsets)?)
    };
    Ok(UnionArray::try_new(alloc, dtype, types, values, offsets)?.boxed())
}

/// Keys under a mask, over numbers under another one.
pub(crate) fn dictionary(
    alloc: Global,
    keys: &[i8],
    key_bits: &[bool],
    values: &[i32],
    bits: &[bool],
) -> Result<ArrayRef, Fail> {
    let values_type = Boxed::new(alloc, ArrowDataType::Int32)?;
    let dtype = ArrowDataType::Dictionary(IntegerType::Int8, values_type, false);
    let validity = mask(alloc, key_bits)?;
    let keys = buffer_of(alloc, keys)?;
    let keys = PrimitiveArray::<i8>::try_new(ArrowDataType::Int8, keys, validity)?;
    let values = numbers(alloc, values, bits)?;
    Ok(DictionaryArray::<i8>::try_new(alloc, dtype, keys, values)?.boxed())
}
