//! The bytes that spell a slot of each kind, written out by hand.
use arrow_buffers::{Bitmap, Offset, OffsetError, Offsets, OffsetsBuffer};
use arrow_bytes::BinaryArray;
use arrow_choice::{DictionaryArray, UnionArray};
use arrow_flat::{BooleanArray, DaysMs, PrimitiveArray};
use arrow_meaning::{ArrayRef, FlatArray, TypedArray};
use arrow_nested::{FixedSizeListArray, ListArray, NullArray, StructArray};
use arrow_scalar::slot_bytes;
use arrow_types::{
    ArrowDataType, Boxed, Field, Fields, Ids, IntervalUnit, Mem, PlSmallStr, UnionMode, UnionType,
};
use flat_fixtures::{buffer_of, gives};
use std::alloc::Global;
use std::test::Fail;

/// Whether the slot is spelled by these bytes.
fn spells(alloc: Global, array: &ArrayRef, i: usize, wanted: &[u8]) -> bool {
    if i >= array.len() {
        return false;
    }
    match slot_bytes(alloc, array, i) {
        Ok(bytes) => {
            let is_right = gives(bytes.iter().copied(), wanted);
            drop(bytes);
            is_right
        }
        Err(_) => false,
    }
}

/// Whether the first slot is spelled by these bytes, and the second, if wanted, by those.
fn spell(alloc: Global, array: ArrayRef, first: &[u8], second: Option<&[u8]>) -> bool {
    let is_right = spells(alloc, &array, 0, first)
        && match second {
            Some(second) => spells(alloc, &array, 1, second),
            None => true,
        };
    drop(array);
    is_right
}

/// Bits under a mask whose last slot is null.
fn bits(alloc: Global, values: &[bool], valid: &[bool]) -> Result<ArrayRef, Fail> {
    let values = Bitmap::from_bools(alloc, values)?;
    let validity = Bitmap::from_bools(alloc, valid)?;
    let array = BooleanArray::try_new(ArrowDataType::Boolean, values, Some(validity))?;
    Ok(array.boxed(alloc)?)
}

fn days(alloc: Global) -> Result<ArrayRef, Fail> {
    let values = buffer_of(alloc, &[DaysMs(258, -2)])?;
    let dtype = ArrowDataType::Interval(IntervalUnit::DayTime);
    let array = PrimitiveArray::try_new(dtype, values, None)?;
    Ok(array.boxed(alloc)?)
}

/// The offsets of slots of these lengths.
fn offsets_of<O: Offset>(
    alloc: Global,
    lengths: &[usize],
) -> Result<OffsetsBuffer<O>, OffsetError> {
    let mut ends = Offsets::<O>::new(alloc)?;
    let extended = ends.try_extend_from_lengths(lengths);
    let offsets = ends.freeze();
    extended?;
    Ok(offsets?)
}

fn binary(alloc: Global) -> Result<ArrayRef, Fail> {
    let offsets = offsets_of::<i32>(alloc, &[2, 0])?;
    let values = buffer_of(alloc, b"ab")?;
    let array = BinaryArray::<i32>::try_new(ArrowDataType::Binary, offsets, values, None)?;
    Ok(array.boxed(alloc)?)
}

fn field_of(alloc: Global, dtype: ArrowDataType) -> Mem<Field> {
    let name = PlSmallStr::try_from_str(alloc, "item")?;
    Ok(Field::new(name, dtype, true))
}

fn item_of(alloc: Global, dtype: ArrowDataType) -> Mem<Boxed<Field>> {
    let field = field_of(alloc, dtype)?;
    Boxed::new(alloc, field)
}

fn lists(alloc: Global, lengths: &[usize], child: ArrayRef) -> Result<ArrayRef, Fail> {
    let dtype = child.dtype().try_clone(alloc)?;
    let item = item_of(alloc, dtype)?;
    let offsets = offsets_of::<i64>(alloc, lengths)?;
    let dtype = ArrowDataType::LargeList(item);
    let array = ListArray::<i64>::try_new(alloc, dtype, offsets, child, None)?;
    Ok(array.boxed())
}

fn pairs(alloc: Global) -> Result<ArrayRef, Fail> {
    let child = bits(alloc, &[true, false], &[true, true])?;
    let item = item_of(alloc, ArrowDataType::Boolean)?;
    let dtype = ArrowDataType::FixedSizeList(item, 2);
    let array = FixedSizeListArray::try_new(alloc, dtype, 1, child, None)?;
    Ok(array.boxed())
}

fn fields_of(alloc: Global, count: usize) -> Mem<Fields> {
    let mut fields = Fields::new(alloc);
    for _ in 0..count {
        let field = field_of(alloc, ArrowDataType::Boolean)?;
        fields.push(field)?;
    }
    Ok(fields)
}

fn two_children(alloc: Global) -> Result<Vec<ArrayRef>, Fail> {
    let mut children = Vec::new(alloc);
    children.push(bits(alloc, &[true, true], &[true, true])?)?;
    children.push(bits(alloc, &[false, true], &[true, false])?)?;
    Ok(children)
}

fn rows(alloc: Global) -> Result<ArrayRef, Fail> {
    let fields = fields_of(alloc, 2)?;
    let children = two_children(alloc)?;
    let dtype = ArrowDataType::Struct(fields);
    let array = StructArray::try_new(alloc, dtype, 2, children, None)?;
    Ok(array.boxed())
}

fn union_type(alloc: Global) -> Mem<ArrowDataType> {
    let ids = Ids::from_slice(alloc, &[9, 5])?;
    let fields = fields_of(alloc, 2)?;
    let union = UnionType {
        fields,
        ids: Some(ids),
        mode: UnionMode::sparse(false),
    };
    Ok(ArrowDataType::Union(Boxed::new(alloc, union)?))
}

/// Slots of the second child: its second one, which is null, and its first.
fn union(alloc: Global) -> Result<ArrayRef, Fail> {
    let dtype = union_type(alloc)?;
    let types = buffer_of(alloc, &[5i8, 5])?;
    let offsets = buffer_of(alloc, &[1i32, 0])?;
    let children = two_children(alloc)?;
    let array = UnionArray::try_new(alloc, dtype, types, children, Some(offsets))?;
    Ok(array.boxed())
}

/// The second value, and a null whose key names the first.
fn dictionary(alloc: Global) -> Result<ArrayRef, Fail> {
    let values = bits(alloc, &[true, false], &[true, true])?;
    let keys = buffer_of(alloc, &[1i32, 0])?;
    let validity = Bitmap::from_bools(alloc, &[true, false])?;
    let keys = PrimitiveArray::try_new(ArrowDataType::Int32, keys, Some(validity))?;
    let array = DictionaryArray::<i32>::try_from_keys(alloc, keys, values)?;
    Ok(array.boxed())
}

fn nulls(alloc: Global, count: usize) -> Result<ArrayRef, Fail> {
    let array = NullArray::try_new(alloc, ArrowDataType::Null, count)?;
    Ok(array.boxed())
}

#[test]
fn values_are_spelled(rt: HostRuntime) -> Result<(), Fail> {
    let alloc = rt.alloc();
    let array = bits(alloc, &[true, true], &[true, false])?;
    assert!(rt; spell(alloc, array, &[1, 1], Some(&[0])));
    let array = days(alloc)?;
    let wanted = [
        2, 2, 1, 0, 0, 0, 0, 0, 0, 0, 0, 0, 0, 0, 0, 0, 0, 254, 255, 255, 255, 255, 255, 255, 255,
        255, 255, 255, 255, 255, 255, 255, 255,
    ];
    assert!(rt; spell(alloc, array, &wanted, None));
    let array = binary(alloc)?;
    let wanted = [3, 2, 0, 0, 0, 0, 0, 0, 0, 97, 98];
    assert!(rt; spell(alloc, array, &wanted, Some(&[3, 0, 0, 0, 0, 0, 0, 0, 0])));
    Ok(())
}

#[test]
fn lists_are_spelled(rt: HostRuntime) -> Result<(), Fail> {
    let alloc = rt.alloc();
    let child = bits(alloc, &[true, true, false], &[true, false, true])?;
    let array = lists(alloc, &[2, 1], child)?;
    let wanted = [4, 2, 0, 0, 0, 0, 0, 0, 0, 1, 1, 0];
    assert!(rt;
        spell(
            alloc,
            array,
            &wanted,
            Some(&[4, 1, 0, 0, 0, 0, 0, 0, 0, 1, 0])
        )
    );
    let array = pairs(alloc)?;
    assert!(rt; spell(alloc, array, &[4, 2, 0, 0, 0, 0, 0, 0, 0, 1, 1, 1, 0], None));
    let child = nulls(alloc, 3)?;
    let array = lists(alloc, &[3], child)?;
    assert!(rt; spell(alloc, array, &[4, 3, 0, 0, 0, 0, 0, 0, 0, 0, 0, 0], None));
    Ok(())
}

#[test]
fn rows_and_choices_are_spelled(rt: HostRuntime) -> Result<(), Fail> {
    let alloc = rt.alloc();
    let array = rows(alloc)?;
    assert!(rt; spell(alloc, array, &[5, 1, 1, 1, 0], Some(&[5, 1, 1, 0])));
    let array = union(alloc)?;
    assert!(rt; spell(alloc, array, &[6, 5, 0], Some(&[6, 5, 1, 0])));
    let array = dictionary(alloc)?;
    assert!(rt; spell(alloc, array, &[1, 0], Some(&[0])));
    Ok(())
}

/// Whether no memory holds the spelling of the first slot.
fn is_refused(alloc: Global, array: ArrayRef) -> bool {
    if array.is_empty() {
        return false;
    }
    let spelled = slot_bytes(alloc, &array, 0);
    drop(array);
    match spelled {
        Ok(bytes) => {
            drop(bytes);
            false
        }
        Err(_) => true,
    }
}

#[test]
fn a_spelling_that_no_memory_holds_is_refused_at_once(rt: HostRuntime) -> Result<(), Fail> {
    let alloc = rt.alloc();
    let child = nulls(alloc, 1 << 62)?;
    let array = lists(alloc, &[1 << 62], child)?;
    assert!(rt; is_refused(alloc, array));
    Ok(())
}
