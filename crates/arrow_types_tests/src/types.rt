//! Calls as another crate makes them, against tables written by hand.

use arrow_types::{
    ArrowDataType, ArrowSchema, Boxed, Dimension, ExtensionType, Field, Fields, GatherError,
    GrowError, Ids, IntegerType, IntervalUnit, MakeError, Mem, Metadata, PhysicalType, PlSmallStr,
    PolarsError, PolarsResult, PrimitiveType, Reason, ReshapeDimension, TimeUnit, UnionMode,
    UnionType, get_extension,
};
use std::alloc::{AllocError, Global};
use std::collections::{BTreeMap, HashMap};
use std::test::Fail;

/// A column's type and length, compared and hashed by both.
#[derive(Drop, PartialEq, Eq, Hash)]
struct Column {
    dtype: ArrowDataType,
    len: usize,
}

/// A nullable field without metadata.
fn named(alloc: Global, name: &str, dtype: ArrowDataType) -> Mem<Field> {
    Ok(Field::new(PlSmallStr::try_from_str(alloc, name)?, dtype, true))
}

/// Lists of nullable items under that name.
fn lists_of(alloc: Global, name: &str, dtype: ArrowDataType) -> Mem<ArrowDataType> {
    let item = named(alloc, name, dtype)?;
    Ok(ArrowDataType::List(Boxed::new(alloc, item)?))
}

/// A list of one nullable field.
fn one_field(alloc: Global, name: &str, dtype: ArrowDataType) -> Mem<Fields> {
    let field = named(alloc, name, dtype)?;
    let mut fields = Fields::new(alloc);
    fields.push(field)?;
    Ok(fields)
}

/// A sparse union of one field under that id.
fn union_of(alloc: Global, id: i32) -> Mem<UnionType> {
    let ids = Ids::from_slice(alloc, &[id])?;
    let fields = one_field(alloc, "a", ArrowDataType::Boolean)?;
    Ok(UnionType {
        fields,
        ids: Some(ids),
        mode: UnionMode::Sparse,
    })
}

/// The type under the name `x`, with the metadata `m`.
fn extension_of(alloc: Global, inner: ArrowDataType) -> Mem<ExtensionType> {
    let name = PlSmallStr::try_from_str(alloc, "x")?;
    let metadata = PlSmallStr::try_from_str(alloc, "m")?;
    Ok(ExtensionType {
        name,
        inner,
        metadata: Some(metadata),
    })
}

/// A dictionary with keys of 8 bits.
fn dictionary_of(alloc: Global, values: ArrowDataType) -> Mem<ArrowDataType> {
    Ok(ArrowDataType::Dictionary(IntegerType::Int8, Boxed::new(alloc, values)?, false))
}

/// Adds an entry.
fn note(alloc: Global, metadata: &mut Metadata, key: &str, value: &str) -> Mem<()> {
    let key = PlSmallStr::try_from_str(alloc, key)?;
    let value = PlSmallStr::try_from_str(alloc, value)?;
    metadata.insert(key, value)?;
    Ok(())
}

/// The layout of a type's columns.
fn layout_of(dtype: ArrowDataType) -> Option<PhysicalType> {
    let layout = dtype.to_physical_type();
    drop(dtype);
    layout
}

/// Whether the type's columns have the layout of those numbers.
fn is_primitive(dtype: ArrowDataType, p: PrimitiveType) -> bool {
    layout_of(dtype) == Some(PhysicalType::Primitive(p))
}

#[test]
fn physical_types(rt: HostRuntime) -> Result<(), Fail> {
    let alloc = rt.alloc();
    assert!(rt;
        is_primitive(ArrowDataType::Decimal(9, 2), PrimitiveType::Int128)
            && layout_of(ArrowDataType::Unknown) == None
            && is_primitive(ArrowDataType::Date64, PrimitiveType::Int64)
            && is_primitive(
                ArrowDataType::Time32(TimeUnit::Second),
                PrimitiveType::Int32
            )
            && is_primitive(
                ArrowDataType::Interval(IntervalUnit::DayTime),
                PrimitiveType::DaysMs
            )
    );
    let keyed = dictionary_of(alloc, ArrowDataType::Utf8)?;
    assert!(rt; layout_of(keyed) == Some(PhysicalType::Dictionary(IntegerType::Int8)));
    let extension = extension_of(alloc, ArrowDataType::Null)?;
    let wrapped = ArrowDataType::Extension(Boxed::new(alloc, extension)?);
    assert!(rt; layout_of(wrapped) == Some(PhysicalType::Null));
    Ok(())
}

/// Whether the second type underlies the first; for None, whether none does.
fn is_underlying(alloc: Global, dtype: ArrowDataType, wanted: Option<ArrowDataType>) -> bool {
    let underlying = dtype.underlying_physical_type(alloc);
    drop(dtype);
    let is_right = match &underlying {
        Ok(found) => *found == wanted,
        Err(_) => false,
    };
    drop(underlying);
    drop(wanted);
    is_right
}

/// Whether lists of dates have lists of numbers underneath.
fn are_dates_numbers(alloc: Global) -> Mem<bool> {
    let dates = lists_of(alloc, "item", ArrowDataType::Date32)?;
    let numbers = lists_of(alloc, "item", ArrowDataType::Int32)?;
    Ok(is_underlying(alloc, dates, Some(numbers)))
}

#[test]
fn underlying_types(rt: HostRuntime) -> Result<(), Fail> {
    let alloc = rt.alloc();
    let interval = ArrowDataType::Interval(IntervalUnit::DayTime);
    assert!(rt; is_underlying(alloc, interval, Some(ArrowDataType::Int64)));
    let keyed = dictionary_of(alloc, ArrowDataType::Utf8)?;
    assert!(rt; is_underlying(alloc, keyed, Some(ArrowDataType::Int8)));
    let months = one_field(
        alloc,
        "a",
        ArrowDataType::Interval(IntervalUnit::MonthDayNano),
    )?;
    assert!(rt; is_underlying(alloc, ArrowDataType::Struct(months), None));
    assert!(rt; are_dates_numbers(alloc)?);
    Ok(())
}

/// Whether the dimension of `v` shows that text and has that number.
fn is_dimension(alloc: Global, v: i64, text: &str, number: Option<u64>) -> Mem<bool> {
    let dimension = ReshapeDimension::new(v);
    let copy = dimension.try_clone(alloc)?;
    let shown = format!(in alloc; "{dimension}")?;
    let is_right = shown.as_str() == text
        && dimension.get() == number
        && dimension.get_or_infer_with(|| 7) == number.unwrap_or(7)
        && copy == dimension;
    drop(shown);
    Ok(is_right)
}

/// Whether dimensions are made of numbers that aren't negative, are ordered and show their numbers.
fn are_dimensions_numbers(alloc: Global) -> Mem<bool> {
    let two = Dimension::new(2);
    let copy = two.try_clone(alloc)?;
    let shown = format!(in alloc; "{two:?}")?;
    let is_right = shown.as_str() == "2"
        && Dimension::try_from(-1) == Err(())
        && Dimension::try_from(2) == Ok(copy)
        && two < Dimension::new(10);
    drop(shown);
    Ok(is_right)
}

/// Two keys, one of them given twice.
fn count_dimensions(counts: &mut HashMap<ReshapeDimension, i32>) -> Mem<()> {
    counts.insert(ReshapeDimension::new(-1), 1)?;
    counts.insert(ReshapeDimension::new_dimension(0), 2)?;
    counts.insert(ReshapeDimension::Infer, 3)?;
    Ok(())
}

#[test]
fn dimensions(rt: HostRuntime) -> Result<(), Fail> {
    let alloc = rt.alloc();
    for (v, text, number) in [(-5, "inferred", None), (3, "3", Some(3)), (0, "0", Some(0))] {
        assert!(rt; is_dimension(alloc, v, text, number)?);
    }
    assert!(rt; are_dimensions_numbers(alloc)?);
    Ok(())
}

#[test]
fn dimensions_are_keys(rt: HostRuntime) -> Result<(), Fail> {
    let mut counts = HashMap::new(rt.alloc());
    let counted = count_dimensions(&mut counts);
    let is_right = counts.len() == 2 && counts.get(&ReshapeDimension::new(-9)) == Some(&3);
    drop(counts);
    counted?;
    assert!(rt; is_right);
    Ok(())
}

/// Whether an error shows that text.
fn is_shown<E: std::error::Error>(alloc: Global, error: &E, text: &str) -> Mem<bool> {
    let shown = format!(in alloc; "{error}")?;
    let is_right = shown.as_str() == text;
    drop(shown);
    Ok(is_right)
}

/// Whether each error shows the text beside it.
fn are_shown<E: std::error::Error>(alloc: Global, errors: &[(E, &str)]) -> Mem<bool> {
    for (error, text) in errors {
        if !is_shown(alloc, error, text)? {
            return Ok(false);
        }
    }
    Ok(true)
}

fn are_polars_errors_shown(alloc: Global) -> Mem<bool> {
    let refused = PolarsError::ComputeError(Reason::MaskLength);
    let errors = [
        (refused.try_clone(alloc)?, "ComputeError"),
        (
            PolarsError::InvalidOperation(Reason::KeyRange),
            "InvalidOperation",
        ),
        (PolarsError::Unsupported, "Unsupported"),
        (PolarsError::OutOfMemory, "OutOfMemory"),
    ];
    are_shown(alloc, &errors)
}

fn are_make_errors_shown(alloc: Global) -> Mem<bool> {
    let errors = [
        (MakeError::NoArrays, "NoArrays"),
        (MakeError::DtypeMismatch, "DtypeMismatch"),
        (MakeError::Unsupported, "Unsupported"),
        (MakeError::KeyOverflow, "KeyOverflow"),
        (MakeError::Overflow, "Overflow"),
        (MakeError::OutOfMemory, "OutOfMemory"),
    ];
    are_shown(alloc, &errors)
}

fn are_grow_errors_shown(alloc: Global) -> Mem<bool> {
    let errors = [
        (GrowError::Overflow, "Overflow"),
        (GrowError::OutOfMemory, "OutOfMemory"),
    ];
    are_shown(alloc, &errors)
}

fn are_gather_errors_shown(alloc: Global) -> Mem<bool> {
    let errors = [
        (GatherError::NoArrays, "NoArrays"),
        (GatherError::DtypeMismatch, "DtypeMismatch"),
        (GatherError::Unsupported, "Unsupported"),
        (GatherError::OutOfBounds, "OutOfBounds"),
        (GatherError::KeyOverflow, "KeyOverflow"),
        (GatherError::Overflow, "Overflow"),
        (GatherError::OutOfMemory, "OutOfMemory"),
    ];
    are_shown(alloc, &errors)
}

#[test]
fn errors_show_their_names(rt: HostRuntime) -> Result<(), Fail> {
    let alloc = rt.alloc();
    assert!(rt;
        are_polars_errors_shown(alloc)?
            && are_make_errors_shown(alloc)?
            && are_grow_errors_shown(alloc)?
            && are_gather_errors_shown(alloc)?
    );
    Ok(())
}

/// One byte in new memory, by an error that want of memory converts to.
fn grown(alloc: Global) -> Result<Vec<u8>, GrowError> {
    let mut bytes = Vec::new(alloc);
    bytes.push(1)?;
    Ok(bytes)
}

/// A field, by an error that want of memory converts to.
fn made(alloc: Global) -> PolarsResult<Field> {
    Ok(named(alloc, "a", ArrowDataType::from(IntegerType::UInt16))?)
}

/// Whether each call gives what it makes where there is memory.
fn are_made(alloc: Global) -> bool {
    let bytes = grown(alloc);
    let is_grown = match &bytes {
        Ok(bytes) => bytes.len() == 1,
        Err(_) => false,
    };
    drop(bytes);
    let field = made(alloc);
    let is_made = match &field {
        Ok(field) => *field.dtype() == ArrowDataType::UInt16,
        Err(_) => false,
    };
    drop(field);
    is_grown && is_made
}

#[test]
fn want_of_memory_converts(rt: HostRuntime) -> Result<(), Fail> {
    assert!(rt; are_made(rt.alloc()));
    assert!(rt;
        PolarsError::from(AllocError) == PolarsError::OutOfMemory
            && MakeError::from(AllocError) == MakeError::OutOfMemory
            && GatherError::from(AllocError) == GatherError::OutOfMemory
    );
    Ok(())
}

/// Whether a type equals its copy.
fn is_copied(alloc: Global, dtype: &ArrowDataType) -> Mem<bool> {
    let copy = dtype.try_clone(alloc)?;
    let is_right = copy == *dtype;
    drop(copy);
    Ok(is_right)
}

/// Whether a union equals its copy.
fn is_union_copied(alloc: Global, union: &UnionType) -> Mem<bool> {
    let copy = union.try_clone(alloc)?;
    let is_right = copy == *union;
    drop(copy);
    Ok(is_right)
}

/// Whether an extension equals its copy.
fn is_extension_copied(alloc: Global, extension: &ExtensionType) -> Mem<bool> {
    let copy = extension.try_clone(alloc)?;
    let is_right = copy == *extension;
    drop(copy);
    Ok(is_right)
}

/// Whether a schema equals its copy.
fn is_schema_copied(alloc: Global, schema: &ArrowSchema) -> Mem<bool> {
    let copy = schema.try_clone(alloc)?;
    let is_right = copy == *schema;
    drop(copy);
    Ok(is_right)
}

#[test]
fn lists_and_extensions_are_copied(rt: HostRuntime) -> Result<(), Fail> {
    let alloc = rt.alloc();
    let list = lists_of(alloc, "item", ArrowDataType::Utf8View)?;
    let wide = list.to_fixed_size_list(alloc, 4, true)?;
    let is_right = is_copied(alloc, &wide);
    let extension = extension_of(alloc, wide);
    assert!(rt; is_right?);
    let extension = extension?;
    let is_right = is_extension_copied(alloc, &extension);
    drop(extension);
    assert!(rt; is_right?);
    Ok(())
}

#[test]
fn unions_and_schemas_are_copied(rt: HostRuntime) -> Result<(), Fail> {
    let alloc = rt.alloc();
    let union = union_of(alloc, 5)?;
    let is_right = is_union_copied(alloc, &union);
    drop(union);
    assert!(rt; is_right?);
    let union = union_of(alloc, 5)?;
    let dtype = ArrowDataType::Union(Boxed::new(alloc, union)?);
    let schema = ArrowSchema {
        fields: one_field(alloc, "a", dtype)?,
    };
    let is_right = is_schema_copied(alloc, &schema);
    drop(schema);
    assert!(rt; is_right?);
    Ok(())
}

#[test]
fn plain_types_are_copied(rt: HostRuntime) -> Result<(), Fail> {
    let alloc = rt.alloc();
    assert!(rt;
        UnionMode::Dense.try_clone(alloc)? == UnionMode::Dense
            && TimeUnit::Second.try_clone(alloc)? == TimeUnit::Second
            && IntervalUnit::DayTime.try_clone(alloc)? == IntervalUnit::DayTime
            && IntegerType::UInt8.try_clone(alloc)? == IntegerType::UInt8
            && PrimitiveType::DaysMs.try_clone(alloc)? == PrimitiveType::DaysMs
            && PhysicalType::Map.try_clone(alloc)? == PhysicalType::Map
    );
    Ok(())
}

/// A field of categories.
fn categorical(alloc: Global) -> Mem<Field> {
    let mut metadata = BTreeMap::new(alloc);
    note(alloc, &mut metadata, "_PL_CATEGORICAL", "")?;
    named(alloc, "a", ArrowDataType::Int8)?.with_metadata(alloc, metadata)
}

/// Whether a field equals its copy.
fn is_field_copied(alloc: Global, field: &Field) -> Mem<bool> {
    let copy = field.try_clone(alloc)?;
    let is_right = copy == *field;
    drop(copy);
    Ok(is_right)
}

#[test]
fn fields_are_noted(rt: HostRuntime) -> Result<(), Fail> {
    let alloc = rt.alloc();
    let field = categorical(alloc)?;
    let is_marked = field.is_categorical() && !field.is_enum();
    let (name, field) = field.try_pair(alloc)?;
    let is_named = name.as_str() == "a";
    drop(name);
    let is_copied = is_field_copied(alloc, &field);
    drop(field);
    assert!(rt; is_marked && is_named && is_copied?);
    Ok(())
}

/// Whether an optional text is that one.
fn is_text(found: &Option<PlSmallStr>, wanted: Option<&str>) -> bool {
    match (found, wanted) {
        (Some(found), Some(wanted)) => found.as_str() == wanted,
        (None, None) => true,
        _ => false,
    }
}

/// Whether the metadata tells of an extension of that name and metadata.
fn is_extension(alloc: Global, metadata: &Metadata, name: &str, wanted: Option<&str>) -> Mem<bool> {
    let extension = get_extension(alloc, metadata)?;
    let is_right = match &extension {
        Some((found, data)) => found.as_str() == name && is_text(data, wanted),
        None => false,
    };
    drop(extension);
    Ok(is_right)
}

/// Whether the metadata tells of no extension.
fn is_no_extension(alloc: Global, metadata: &Metadata) -> Mem<bool> {
    let extension = get_extension(alloc, metadata)?;
    let is_right = extension.is_none();
    drop(extension);
    Ok(is_right)
}

/// Whether the metadata tells of no extension, then of one by its name, then of one by both.
fn are_extensions(alloc: Global, metadata: &mut Metadata) -> Mem<bool> {
    note(alloc, metadata, "a", "b")?;
    let is_none = is_no_extension(alloc, metadata)?;
    note(alloc, metadata, "ARROW:extension:name", "x")?;
    let is_alone = is_extension(alloc, metadata, "x", None)?;
    note(alloc, metadata, "ARROW:extension:metadata", "m")?;
    let is_both = is_extension(alloc, metadata, "x", Some("m"))?;
    Ok(is_none && is_alone && is_both)
}

#[test]
fn extensions_are_noted(rt: HostRuntime) -> Result<(), Fail> {
    let alloc = rt.alloc();
    let mut metadata = BTreeMap::new(alloc);
    let is_right = are_extensions(alloc, &mut metadata);
    drop(metadata);
    assert!(rt; is_right?);
    Ok(())
}

/// Counts lists of that name.
fn count_lists(
    alloc: Global,
    counts: &mut HashMap<ArrowDataType, i32>,
    name: &str,
    count: i32,
) -> Mem<()> {
    let list = lists_of(alloc, name, ArrowDataType::Int32)?;
    counts.insert(list, count)?;
    Ok(())
}

/// Two types, one of them counted twice.
fn count_types(alloc: Global, counts: &mut HashMap<ArrowDataType, i32>) -> Mem<bool> {
    count_lists(alloc, counts, "a", 1)?;
    count_lists(alloc, counts, "b", 2)?;
    count_lists(alloc, counts, "a", 3)?;
    let list = lists_of(alloc, "a", ArrowDataType::Int32)?;
    let is_right = counts.len() == 2 && counts.get(&list) == Some(&3);
    drop(list);
    Ok(is_right)
}

/// Counts columns of one type and three lengths, two of them the same.
fn count_columns(alloc: Global, columns: &mut HashMap<Column, usize>) -> Mem<bool> {
    for len in [4, 5, 4] {
        let dtype = lists_of(alloc, "a", ArrowDataType::Null)?;
        columns.insert(Column { dtype, len }, len)?;
    }
    Ok(columns.len() == 2)
}

#[test]
fn types_are_keys(rt: HostRuntime) -> Result<(), Fail> {
    let alloc = rt.alloc();
    let mut counts = HashMap::new(alloc);
    let is_right = count_types(alloc, &mut counts);
    drop(counts);
    assert!(rt; is_right?);
    let mut columns = HashMap::new(alloc);
    let is_right = count_columns(alloc, &mut columns);
    drop(columns);
    assert!(rt; is_right?);
    Ok(())
}
