//! The JSON value that spells a type.
ghost use Rattle.std.specs.Prelude.{◌≡◌, Some, IfOk, codes};
ghost use Rattle.serde_json.specs.Data.{array, boolean, no_members, null, string};
ghost use Rattle.serde_json.specs.View.{view, members_view};
ghost use Rattle.arrow_types.specs.Seen.{seen, seen_field, seen_fields, seen_union, seen_extension};
ghost use Rattle.arrow_types.specs.TypeData as T;
ghost use Rattle.type_json.specs.TypeJson.{integer_name, unit_name, interval_name, mode_name, text_value, ids_value, with_entries, metadata_value, two, three, four, type_value, field_value, fields_value};

use arrow_types::{
    ArrowDataType, ExtensionType, Field, Ids, IntegerType, IntervalUnit, Mem, Metadata, PlSmallStr,
    SharedMetadata, TimeUnit, UnionMode, UnionType,
};
use serde_json::{Map, Value, json};
use std::alloc::Global;

fn integer_name(integer: IntegerType) -> &'static str
    ensures { result.now ≡ integer_name integer }
{
    match integer {
        IntegerType::Int8 => "int8",
        IntegerType::Int16 => "int16",
        IntegerType::Int32 => "int32",
        IntegerType::Int64 => "int64",
        IntegerType::Int128 => "int128",
        IntegerType::UInt8 => "uint8",
        IntegerType::UInt16 => "uint16",
        IntegerType::UInt32 => "uint32",
        IntegerType::UInt64 => "uint64",
    }
}

fn unit_name(unit: TimeUnit) -> &'static str
    ensures { result.now ≡ unit_name unit }
{
    match unit {
        TimeUnit::Second => "s",
        TimeUnit::Millisecond => "ms",
        TimeUnit::Microsecond => "us",
        TimeUnit::Nanosecond => "ns",
    }
}

fn interval_name(interval: IntervalUnit) -> &'static str
    ensures { result.now ≡ interval_name interval }
{
    match interval {
        IntervalUnit::YearMonth => "year_month",
        IntervalUnit::DayTime => "day_time",
        IntervalUnit::MonthDayNano => "month_day_nano",
    }
}

fn mode_name(mode: UnionMode) -> &'static str
    ensures { result.now ≡ mode_name mode }
{
    match mode {
        UnionMode::Dense => "dense",
        UnionMode::Sparse => "sparse",
    }
}

/// An array of a kind and one part.
fn two(alloc: Global, kind: &str, part: Value) -> Mem<Value>
    ensures { IfOk result (λ v. view v ≡ two kind.now (view part)) }
{
    json!(in alloc; [kind, part])
}

/// An array of a kind and a name.
fn with_name(alloc: Global, kind: &str, name: &str) -> Mem<Value>
    ensures { IfOk result (λ v. view v ≡ two kind.now (string name.now)) }
{
    json!(in alloc; [kind, name])
}

/// An array of a kind and two parts.
fn three(alloc: Global, kind: &str, part: Value, last: Value) -> Mem<Value>
    ensures { IfOk result (λ v. view v ≡ three kind.now (view part) (view last)) }
{
    json!(in alloc; [kind, part, last])
}

/// An array of a kind and three parts.
fn four(alloc: Global, kind: &str, part: Value, third: Value, last: Value) -> Mem<Value>
    ensures { IfOk result (λ v. view v ≡ four kind.now (view part) (view third) (view last)) }
{
    json!(in alloc; [kind, part, third, last])
}

fn no_spelling() -> Value
    ensures { view result ≡ null }
{
    Value::Null
}

/// The JSON value that spells a type, null where the type has no spelling.
#[cycle(writer)]
#[tactic(auto, using(crate::proofs::Seen::at))]
pub fn type_json(alloc: Global, dtype: &ArrowDataType) -> Mem<Value>
    ensures { IfOk result (λ v. view v ≡ type_value (seen dtype.now)) }
{
    match dtype {
        ArrowDataType::Null => Value::try_from_str(alloc, "null"),
        ArrowDataType::Boolean => Value::try_from_str(alloc, "boolean"),
        ArrowDataType::Int8 => Value::try_from_str(alloc, "int8"),
        ArrowDataType::Int16 => Value::try_from_str(alloc, "int16"),
        ArrowDataType::Int32 => Value::try_from_str(alloc, "int32"),
        ArrowDataType::Int64 => Value::try_from_str(alloc, "int64"),
        ArrowDataType::Int128 => Value::try_from_str(alloc, "int128"),
        ArrowDataType::UInt8 => Value::try_from_str(alloc, "uint8"),
        ArrowDataType::UInt16 => Value::try_from_str(alloc, "uint16"),
        ArrowDataType::UInt32 => Value::try_from_str(alloc, "uint32"),
        ArrowDataType::UInt64 => Value::try_from_str(alloc, "uint64"),
        ArrowDataType::Timestamp(unit, zone) => timestamp_json(alloc, *unit, zone),
        ArrowDataType::Date32 => Value::try_from_str(alloc, "date32"),
        ArrowDataType::Date64 => Value::try_from_str(alloc, "date64"),
        ArrowDataType::Time32(unit) => with_name(alloc, "time32", unit_name(*unit)),
        ArrowDataType::Time64(unit) => with_name(alloc, "time64", unit_name(*unit)),
        ArrowDataType::Duration(unit) => with_name(alloc, "duration", unit_name(*unit)),
        ArrowDataType::Interval(interval) => with_name(alloc, "interval", interval_name(*interval)),
        ArrowDataType::Binary => Value::try_from_str(alloc, "binary"),
        ArrowDataType::FixedSizeBinary(size) => two(alloc, "fixed_size_binary", Value::from(*size)),
        ArrowDataType::LargeBinary => Value::try_from_str(alloc, "large_binary"),
        ArrowDataType::Utf8 => Value::try_from_str(alloc, "utf8"),
        ArrowDataType::LargeUtf8 => Value::try_from_str(alloc, "large_utf8"),
        ArrowDataType::BinaryView => Value::try_from_str(alloc, "binary_view"),
        ArrowDataType::Utf8View => Value::try_from_str(alloc, "utf8_view"),
        ArrowDataType::List(field) => two(alloc, "list", field_json(alloc, field.get())?),
        ArrowDataType::LargeList(field) => two(
            alloc,
            "large_list",
            field_json(alloc, field.get())?,
        ),
        ArrowDataType::FixedSizeList(field, size) => three(
            alloc,
            "fixed_size_list",
            field_json(alloc, field.get())?,
            Value::from(*size),
        ),
        ArrowDataType::Struct(fields) => two(
            alloc,
            "struct",
            fields_json(alloc, fields.as_slice())?,
        ),
        ArrowDataType::Map(field, is_sorted) => map_json(
            alloc,
            field_json(alloc, field.get())?,
            *is_sorted,
        ),
        ArrowDataType::Union(union) => union_json(alloc, union.get()),
        ArrowDataType::Dictionary(key, values, is_ordered) => {
            let values = type_json(alloc, values.get())?;
            dictionary_json(alloc, *key, values, *is_ordered)
        }
        ArrowDataType::Decimal(precision, scale) => three(
            alloc,
            "decimal",
            Value::from(*precision),
            Value::from(*scale),
        ),
        ArrowDataType::Extension(extension) => extension_json(alloc, extension.get()),
        ArrowDataType::Float16 => Ok(no_spelling()),
        ArrowDataType::Float32 => Ok(no_spelling()),
        ArrowDataType::Float64 => Ok(no_spelling()),
        ArrowDataType::Decimal256(_, _) => Ok(no_spelling()),
        ArrowDataType::Unknown => Ok(no_spelling()),
    }
}

fn timestamp_json(alloc: Global, unit: TimeUnit, zone: &Option<PlSmallStr>) -> Mem<Value>
    ensures { IfOk result (λ v. view v ≡ type_value (T.timestamp unit zone.now)) }
{
    let unit = Value::try_from_str(alloc, unit_name(unit))?;
    let zone = text_json(alloc, zone)?;
    three(alloc, "timestamp", unit, zone)
}

fn map_json(alloc: Global, field: Value, is_sorted: bool) -> Mem<Value>
    ensures { IfOk result (λ v. view v ≡ three (codes "map") (view field) (boolean is_sorted)) }
{
    three(alloc, "map", field, Value::Bool(is_sorted))
}

fn dictionary_json(alloc: Global, key: IntegerType, values: Value, is_ordered: bool) -> Mem<Value>
    ensures { IfOk result (λ v. view v
        ≡ four (codes "dictionary")
        (string (integer_name key)) (view values) (boolean is_ordered)) }
{
    let key = Value::try_from_str(alloc, integer_name(key))?;
    four(alloc, "dictionary", key, values, Value::Bool(is_ordered))
}

#[cycle(writer)]
fn union_json(alloc: Global, union: &UnionType) -> Mem<Value>
    ensures { IfOk result (λ v. view v ≡ type_value (seen_union union.now)) }
{
    let mode = Value::try_from_str(alloc, mode_name(union.mode))?;
    let ids = ids_json(alloc, &union.ids)?;
    let fields = fields_json(alloc, union.fields.as_slice())?;
    four(alloc, "union", mode, ids, fields)
}

#[cycle(writer)]
fn extension_json(alloc: Global, extension: &ExtensionType) -> Mem<Value>
    ensures { IfOk result (λ v. view v ≡ type_value (seen_extension extension.now)) }
{
    let name = Value::try_from_str(alloc, extension.name.as_str())?;
    let inner = type_json(alloc, &extension.inner)?;
    let metadata = text_json(alloc, &extension.metadata)?;
    four(alloc, "extension", name, inner, metadata)
}

#[cycle(writer)]
fn field_json(alloc: Global, field: &Field) -> Mem<Value>
    ensures { IfOk result (λ v. view v ≡ field_value (seen_field field.now)) }
{
    let dtype = type_json(alloc, &field.dtype)?;
    let metadata = metadata_json(alloc, &field.metadata)?;
    field_parts(
        alloc,
        field.name.as_str(),
        dtype,
        field.is_nullable,
        metadata,
    )
}

fn field_parts(
    alloc: Global,
    name: &str,
    dtype: Value,
    is_nullable: bool,
    metadata: Value,
) -> Mem<Value>
    ensures { IfOk result (λ v. view v
        ≡ four name.now (view dtype) (boolean is_nullable) (view metadata)) }
{
    four(alloc, name, dtype, Value::Bool(is_nullable), metadata)
}

#[cycle(writer)]
fn fields_json(alloc: Global, fields: &[Field]) -> Mem<Value>
    ensures { IfOk result (λ v. view v ≡ array (fields_value (seen_fields fields.now))) }
{
    let mut list = Vec::with_capacity(alloc, fields.len())?;
    for field in fields {
        list.push(field_json(alloc, field)?)?;
    }
    Ok(Value::Array(list))
}

fn text_json(alloc: Global, text: &Option<PlSmallStr>) -> Mem<Value>
    ensures { IfOk result (λ v. view v ≡ text_value text.now) }
{
    match text {
        None => Ok(Value::Null),
        Some(text) => Value::try_from_str(alloc, text.as_str()),
    }
}

fn ids_json(alloc: Global, ids: &Option<Ids>) -> Mem<Value>
    ensures { IfOk result (λ v. view v ≡ ids_value ids.now) }
{
    match ids {
        None => Ok(Value::Null),
        Some(ids) => numbers_json(alloc, ids.as_slice()),
    }
}

fn numbers_json(alloc: Global, numbers: &[i32]) -> Mem<Value>
    ensures { IfOk result (λ v. view v ≡ ids_value (Some numbers.now)) }
{
    let mut list = Vec::with_capacity(alloc, numbers.len())?;
    for number in numbers {
        list.push(Value::from(*number))?;
    }
    Ok(Value::Array(list))
}

fn metadata_json(alloc: Global, metadata: &Option<SharedMetadata>) -> Mem<Value>
    ensures { IfOk result (λ v. view v ≡ metadata_value metadata.now) }
{
    match metadata {
        None => Ok(Value::Null),
        Some(shared) => Ok(Value::Object(entries_json(alloc, shared.get())?)),
    }
}

fn entries_json(alloc: Global, metadata: &Metadata) -> Mem<Map<String, Value>>
    ensures { IfOk result (λ m. members_view m.entries
        ≡ with_entries metadata.now.entries no_members) }
{
    let mut map = Map::new(alloc);
    for (key, text) in metadata.iter() {
        let text = Value::try_from_str(alloc, text.as_str())?;
        serde_json::put(&mut map, alloc, key.as_str(), text)?;
    }
    Ok(map)
}
