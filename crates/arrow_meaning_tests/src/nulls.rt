//! Arrays of slots that say nothing, of every kind of type, and of none.
use arrow_meaning::{ArrayRef, Node, new_empty_array, new_null_array};
use arrow_types::{
    ArrowDataType, Boxed, ExtensionType, Field, Fields, Ids, IntegerType, IntervalUnit, Mem,
    PlSmallStr, PolarsError, PolarsResult, Reason, TimeUnit, UnionMode, UnionType,
};
use std::alloc::Global;
use std::test::Fail;

/// A nullable field under the name `item`.
fn item_of(alloc: Global, dtype: ArrowDataType) -> Mem<Field> {
    Ok(Field::new(PlSmallStr::try_from_str(alloc, "item")?, dtype, true))
}

fn boxed_item(alloc: Global, dtype: ArrowDataType) -> Mem<Boxed<Field>> {
    Boxed::new(alloc, item_of(alloc, dtype)?)
}

/// Two fields, of the type and of bits.
fn two_fields(alloc: Global, dtype: ArrowDataType) -> Mem<Fields> {
    let mut fields = Fields::new(alloc);
    fields.push(item_of(alloc, dtype)?)?;
    fields.push(item_of(alloc, ArrowDataType::Boolean)?)?;
    Ok(fields)
}

fn list_of(alloc: Global, dtype: ArrowDataType) -> Mem<ArrowDataType> {
    Ok(ArrowDataType::List(boxed_item(alloc, dtype)?))
}

fn large_list_of(alloc: Global, dtype: ArrowDataType) -> Mem<ArrowDataType> {
    Ok(ArrowDataType::LargeList(boxed_item(alloc, dtype)?))
}

fn fixed_list_of(alloc: Global, dtype: ArrowDataType, size: usize) -> Mem<ArrowDataType> {
    Ok(ArrowDataType::FixedSizeList(boxed_item(alloc, dtype)?, size))
}

fn map_of(alloc: Global, entries: ArrowDataType) -> Mem<ArrowDataType> {
    Ok(ArrowDataType::Map(boxed_item(alloc, entries)?, false))
}

fn struct_of(alloc: Global, dtype: ArrowDataType) -> Mem<ArrowDataType> {
    Ok(ArrowDataType::Struct(two_fields(alloc, dtype)?))
}

fn dictionary_of(alloc: Global, key: IntegerType, values: ArrowDataType) -> Mem<ArrowDataType> {
    Ok(ArrowDataType::Dictionary(key, Boxed::new(alloc, values)?, false))
}

fn extension_of(alloc: Global, inner: ArrowDataType) -> Mem<ArrowDataType> {
    let extension = ExtensionType {
        name: PlSmallStr::try_from_str(alloc, "x")?,
        inner,
        metadata: None,
    };
    Ok(ArrowDataType::Extension(Boxed::new(alloc, extension)?))
}

/// A union of two fields under these ids.
fn union_of(
    alloc: Global,
    dtype: ArrowDataType,
    ids: &[i32],
    mode: UnionMode,
) -> Mem<ArrowDataType> {
    let union = UnionType {
        fields: two_fields(alloc, dtype)?,
        ids: Some(Ids::from_slice(alloc, ids)?),
        mode,
    };
    Ok(ArrowDataType::Union(Boxed::new(alloc, union)?))
}

/// Whether the type has an array of `length` nulls, and one of none.
fn has_nulls(alloc: Global, dtype: ArrowDataType, length: usize) -> PolarsResult<bool> {
    let copy = dtype.try_clone(alloc)?;
    let empty = new_empty_array(alloc, copy)?;
    let is_empty = empty.is_empty();
    drop(empty);
    let array = new_null_array(alloc, dtype, length)?;
    let is_right = array.len() == length && array.null_count() == length;
    drop(array);
    Ok(is_empty && is_right)
}

/// The types without children, each physical type once.
#[derive(Clone, Copy)]
enum Flat {
    Null,
    Boolean,
    Int8,
    Int16,
    Date32,
    Timestamp,
    Decimal,
    UInt8,
    UInt16,
    UInt32,
    UInt64,
    DayTime,
    MonthDayNano,
    Binary,
    LargeBinary,
    Utf8,
    LargeUtf8,
    FixedSizeBinary,
    BinaryView,
    Utf8View,
}

const FLATS: [Flat; 20] = [
    Flat::Null,
    Flat::Boolean,
    Flat::Int8,
    Flat::Int16,
    Flat::Date32,
    Flat::Timestamp,
    Flat::Decimal,
    Flat::UInt8,
    Flat::UInt16,
    Flat::UInt32,
    Flat::UInt64,
    Flat::DayTime,
    Flat::MonthDayNano,
    Flat::Binary,
    Flat::LargeBinary,
    Flat::Utf8,
    Flat::LargeUtf8,
    Flat::FixedSizeBinary,
    Flat::BinaryView,
    Flat::Utf8View,
];

fn flat_type(flat: Flat) -> ArrowDataType {
    match flat {
        Flat::Null => ArrowDataType::Null,
        Flat::Boolean => ArrowDataType::Boolean,
        Flat::Int8 => ArrowDataType::Int8,
        Flat::Int16 => ArrowDataType::Int16,
        Flat::Date32 => ArrowDataType::Date32,
        Flat::Timestamp => ArrowDataType::Timestamp(TimeUnit::Second, None),
        Flat::Decimal => ArrowDataType::Decimal(9, 2),
        Flat::UInt8 => ArrowDataType::UInt8,
        Flat::UInt16 => ArrowDataType::UInt16,
        Flat::UInt32 => ArrowDataType::UInt32,
        Flat::UInt64 => ArrowDataType::UInt64,
        Flat::DayTime => ArrowDataType::Interval(IntervalUnit::DayTime),
        Flat::MonthDayNano => ArrowDataType::Interval(IntervalUnit::MonthDayNano),
        Flat::Binary => ArrowDataType::Binary,
        Flat::LargeBinary => ArrowDataType::LargeBinary,
        Flat::Utf8 => ArrowDataType::Utf8,
        Flat::LargeUtf8 => ArrowDataType::LargeUtf8,
        Flat::FixedSizeBinary => ArrowDataType::FixedSizeBinary(5),
        Flat::BinaryView => ArrowDataType::BinaryView,
        Flat::Utf8View => ArrowDataType::Utf8View,
    }
}

#[test]
fn flat_types_have_nulls(rt: HostRuntime) -> Result<(), Fail> {
    let alloc = rt.alloc();
    for flat in FLATS {
        assert!(rt; has_nulls(alloc, flat_type(flat), 3)?);
    }
    Ok(())
}

/// Whether this type, if there is memory for it, has three nulls.
fn has_three(alloc: Global, dtype: Mem<ArrowDataType>) -> PolarsResult<bool> {
    has_nulls(alloc, dtype?, 3)
}

fn map_of_pair(alloc: Global) -> Mem<ArrowDataType> {
    map_of(alloc, struct_of(alloc, ArrowDataType::Int8)?)
}

fn dictionary_of_extension(alloc: Global) -> Mem<ArrowDataType> {
    dictionary_of(
        alloc,
        IntegerType::Int8,
        extension_of(alloc, ArrowDataType::Utf8View)?,
    )
}

#[test]
fn lists_have_nulls(rt: HostRuntime) -> Result<(), Fail> {
    let alloc = rt.alloc();
    let lists = has_three(alloc, list_of(alloc, ArrowDataType::Int8))?;
    let large = has_three(alloc, large_list_of(alloc, ArrowDataType::Int8))?;
    let fixed = has_three(alloc, fixed_list_of(alloc, ArrowDataType::Utf8, 2))?;
    assert!(rt; lists && large && fixed);
    Ok(())
}

#[test]
fn structs_maps_and_dictionaries_have_nulls(rt: HostRuntime) -> Result<(), Fail> {
    let alloc = rt.alloc();
    let maps = has_three(alloc, map_of_pair(alloc))?;
    let structs = has_three(alloc, struct_of(alloc, ArrowDataType::Int8))?;
    let extended = has_three(alloc, dictionary_of_extension(alloc))?;
    let binary = dictionary_of(alloc, IntegerType::UInt64, ArrowDataType::Binary);
    let plain = has_three(alloc, binary)?;
    assert!(rt; maps && structs && extended && plain);
    Ok(())
}

/// Whether an array is a union of these type numbers, over children of these lengths, with the
/// offsets 0 and 1 or without.
fn is_union(array: &ArrayRef, numbers: &[i8], lengths: &[usize], has_offsets: bool) -> bool {
    match array.node() {
        Node::Union {
            types,
            offsets,
            children,
            ..
        } => {
            let is_placed = match offsets {
                Some(offsets) => has_offsets && offsets.as_slice() == [0, 1].as_slice(),
                None => !has_offsets,
            };
            is_placed
                && types.as_slice() == numbers
                && children
                    .iter()
                    .map(|child| child.len())
                    .eq(lengths.iter().copied())
        }
        _ => false,
    }
}

/// Whether two slots of a union with the ids 5 and 9 are so.
fn union_is(alloc: Global, mode: UnionMode, lengths: &[usize]) -> PolarsResult<bool> {
    let dtype = union_of(alloc, ArrowDataType::Int32, &[5, 9], mode)?;
    let array = new_null_array(alloc, dtype, 2)?;
    let is_right = is_union(&array, &[5, 5], lengths, mode.is_dense());
    drop(array);
    Ok(is_right)
}

#[test]
fn unions_have_their_first_id(rt: HostRuntime) -> Result<(), Fail> {
    let alloc = rt.alloc();
    let is_sparse = union_is(alloc, UnionMode::Sparse, &[2, 2])?;
    let is_dense = union_is(alloc, UnionMode::Dense, &[2, 0])?;
    assert!(rt; is_sparse && is_dense);
    Ok(())
}

/// How many values a dictionary of `length` nulls has.
fn dictionary_values(alloc: Global, length: usize) -> PolarsResult<Option<usize>> {
    let dtype = dictionary_of(alloc, IntegerType::Int32, ArrowDataType::Utf8)?;
    let array = new_null_array(alloc, dtype, length)?;
    let values = match array.node() {
        Node::Dictionary { child, .. } => Some(child.len()),
        _ => None,
    };
    drop(array);
    Ok(values)
}

#[test]
fn dictionaries_have_one_value_if_any(rt: HostRuntime) -> Result<(), Fail> {
    let alloc = rt.alloc();
    let none = dictionary_values(alloc, 0)?;
    let one = dictionary_values(alloc, 3)?;
    assert!(rt; none == Some(0) && one == Some(1));
    Ok(())
}

/// Whether the array of `length` nulls of the type is refused as this.
fn is_refused(
    alloc: Global,
    dtype: Mem<ArrowDataType>,
    length: usize,
    wanted: PolarsError,
) -> Mem<bool> {
    let outcome = new_null_array(alloc, dtype?, length);
    let is_right = match &outcome {
        Ok(_) => false,
        Err(e) => *e == wanted,
    };
    drop(outcome);
    Ok(is_right)
}

#[test]
fn types_without_arrays_are_unsupported(rt: HostRuntime) -> Result<(), Fail> {
    let alloc = rt.alloc();
    let wanted = PolarsError::Unsupported;
    let floats = is_refused(alloc, Ok(ArrowDataType::Float32), 1, wanted)?;
    let unknown = is_refused(alloc, Ok(ArrowDataType::Unknown), 1, wanted)?;
    let deep = is_refused(alloc, map_of(alloc, ArrowDataType::Float32), 1, wanted)?;
    assert!(rt; floats && unknown && deep);
    Ok(())
}

#[test]
fn types_that_are_not_carried_are_refused(rt: HostRuntime) -> Result<(), Fail> {
    let alloc = rt.alloc();
    let wanted = PolarsError::ComputeError(Reason::NotCarried);
    let sized = is_refused(alloc, Ok(ArrowDataType::FixedSizeBinary(0)), 1, wanted)?;
    let bare = is_refused(alloc, map_of(alloc, ArrowDataType::Int8), 1, wanted)?;
    let union = union_of(alloc, ArrowDataType::Int8, &[5, 128], UnionMode::Sparse);
    let illegal = is_refused(alloc, union, 1, wanted)?;
    assert!(rt; sized && bare && illegal);
    Ok(())
}

#[test]
fn counts_are_refused(rt: HostRuntime) -> Result<(), Fail> {
    let alloc = rt.alloc();
    let wanted = PolarsError::ComputeError(Reason::LengthOverflow);
    let list = fixed_list_of(alloc, ArrowDataType::Int32, 1 << 63);
    let wide = is_refused(alloc, list, 2, wanted)?;
    let union = union_of(alloc, ArrowDataType::Null, &[5, 9], UnionMode::Dense);
    let dense = is_refused(alloc, union, (1 << 31) + 1, wanted)?;
    let sized = is_refused(
        alloc,
        Ok(ArrowDataType::FixedSizeBinary(2)),
        1 << 63,
        wanted,
    )?;
    assert!(rt; wide && dense && sized);
    Ok(())
}

#[test]
fn nulls_without_buffers_are_not_walked(rt: HostRuntime) -> Result<(), Fail> {
    let alloc = rt.alloc();
    let dtype = extension_of(alloc, ArrowDataType::Null)?;
    let has_many = has_nulls(alloc, dtype, 1 << 63)?;
    let has_all = has_nulls(alloc, ArrowDataType::Null, usize::MAX)?;
    assert!(rt; has_many && has_all);
    Ok(())
}
