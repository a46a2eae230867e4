//! The keys, values and dictionaries that the tests share.
use arrow_buffers::{Bitmap, Offsets};
use arrow_bytes::Utf8Array;
use arrow_choice::DictionaryArray;
use arrow_flat::PrimitiveArray;
use arrow_meaning::{ArrayRef, FlatArray};
use arrow_types::{ArrowDataType, Boxed, IntegerType, Mem};
use flat_fixtures::buffer_of;
use std::alloc::Global;
use std::test::Fail;

/// The type of dictionaries with keys of this type and values of this one.
pub(crate) fn dictionary_type(
    alloc: Global,
    key: IntegerType,
    values: ArrowDataType,
) -> Mem<ArrowDataType> {
    Ok(ArrowDataType::Dictionary(key, Boxed::new(alloc, values)?, true))
}

/// A mask of these bits, or none.
pub(crate) fn mask_of(alloc: Global, bits: Option<&[bool]>) -> Mem<Option<Bitmap>> {
    match bits {
        None => Ok(None),
        Some(bits) => Ok(Some(Bitmap::from_bools(alloc, bits)?)),
    }
}

/// These keys of this type, under a mask of these bits.
pub(crate) fn keys_of(
    alloc: Global,
    dtype: ArrowDataType,
    keys: &[i32],
    bits: Option<&[bool]>,
) -> Result<PrimitiveArray<i32>, Fail> {
    let validity = mask_of(alloc, bits)?;
    let values = buffer_of(alloc, keys)?;
    Ok(PrimitiveArray::try_new(dtype, values, validity)?)
}

/// The texts `a` and `bc`.
fn two_texts(alloc: Global) -> Result<Utf8Array<i32>, Fail> {
    let offsets = Offsets::try_from_vec(vec![in alloc; 0i32, 1, 3]?)?;
    let offsets = offsets.freeze()?;
    let values = buffer_of(alloc, b"abc")?;
    Ok(Utf8Array::try_new(ArrowDataType::Utf8, offsets, values, None)?)
}

/// The texts `a` and `bc` as values.
pub(crate) fn two_values(alloc: Global) -> Result<ArrayRef, Fail> {
    let texts = two_texts(alloc)?;
    Ok(texts.boxed(alloc)?)
}

/// The dictionary of these keys over the texts `a` and `bc`.
pub(crate) fn dictionary(
    alloc: Global,
    keys: &[i32],
    bits: Option<&[bool]>,
) -> Result<DictionaryArray<i32>, Fail> {
    let keys = keys_of(alloc, ArrowDataType::Int32, keys, bits)?;
    let values = two_values(alloc)?;
    Ok(DictionaryArray::try_from_keys(alloc, keys, values)?)
}
