//! The type that a JSON value spells.
ghost use Rattle.std.specs.Prelude.{◌≡◌, [], Some, None, IfOk, option_map, option_and_then};
ghost use Rattle.serde_json.specs.Find.{as_str};
ghost use Rattle.serde_json.specs.View.{view, members_view, items_view};
ghost use Rattle.arrow_types.specs.Seen.{seen, seen_field, seen_fields};
ghost use Rattle.arrow_types.specs.TypeData as T;
ghost use Rattle.type_json.specs.Reads.{Reads};
ghost use Rattle.type_json.specs.Values.{text_or_null};
ghost use Rattle.type_json.specs.declared.error.JsonError.TheVariants.{BadValue};
ghost use Rattle.type_json.specs.TypeJson.{ids_in, entries_in, metadata_in, flat_two, timestamp_from, decimal_from, type_in, field_in, fields_in, fields_list, two_in, three_in, four_in, field_parts, ids_list, union_from, dictionary_from, extension_from, IsSpelled, IsType};

use crate::error::JsonError;
use crate::names::{integer_in, interval_in, mode_in, named, unit_in};
use crate::values::{int32_in, whole_in};
use arrow_types::{
    ArrowDataType, Boxed, ExtensionType, Field, Fields, Ids, Mem, Metadata, PlSmallStr,
    SharedMetadata, UnionMode, UnionType,
};
use serde_json::{Map, Value};
use std::alloc::Global;

/// The type that a JSON value spells. BadValue exactly where it spells none.
///
/// Its names and texts are UTF-8, the keys of its metadata ascend, and its ids have 32 bits.
pub fn type_from_json(alloc: Global, value: &Value) -> Result<ArrowDataType, JsonError>
    ensures read { Reads BadValue seen (type_in (view value.now)) result }
    ensures spelled { IfOk result (λ t. IsSpelled (seen t)) }
    ensures is_type { IfOk result (λ t. IsType (seen t)) }
{
    type_of(alloc, value)
}

/// The type that a value spells.
#[cycle(reader)]
fn type_of(alloc: Global, value: &Value) -> Result<ArrowDataType, JsonError>
    ensures { Reads BadValue seen (type_in (view value.now)) result }
{
    match value {
        Value::String(name) => named(name.as_str()).ok_or(JsonError::BadValue),
        Value::Array(list) => match list.as_slice() {
            [kind, part] => of_two(alloc, kind, part),
            [kind, part, last] => of_three(alloc, kind, part, last),
            [kind, part, third, last] => of_four(alloc, kind, part, third, last),
            _ => Err(JsonError::BadValue),
        },
        _ => Err(JsonError::BadValue),
    }
}

/// The type that an array of these two items spells.
#[cycle(reader)]
#[tactic(auto, unfolding(crate::specs::TypeJson::of_two), using(crate::proofs::Seen::at))]
fn of_two(alloc: Global, kind: &Value, part: &Value) -> Result<ArrowDataType, JsonError>
    ensures { Reads BadValue seen (two_in (view kind.now) (view part.now)) result }
{
    let kind = kind.as_str().ok_or(JsonError::BadValue)?;
    if kind == "list" {
        let field = field_of(alloc, part)?;
        Ok(ArrowDataType::List(Boxed::new(alloc, field)?))
    } else if kind == "large_list" {
        let field = field_of(alloc, part)?;
        Ok(ArrowDataType::LargeList(Boxed::new(alloc, field)?))
    } else if kind == "struct" {
        let fields = fields_of(alloc, part)?;
        Ok(ArrowDataType::Struct(fields))
    } else {
        flat_two(kind, part).ok_or(JsonError::BadValue)
    }
}

/// The type with no type in it that an array of two items spells.
#[tactic(auto, unfolding(crate::specs::TypeJson::flat_two), using(crate::proofs::Seen::at))]
fn flat_two(kind: &str, part: &Value) -> Option<ArrowDataType>
    ensures { option_map seen result ≡ flat_two kind.now (view part.now) }
{
    if kind == "time32" {
        Some(ArrowDataType::Time32(unit_in(part)?))
    } else if kind == "time64" {
        Some(ArrowDataType::Time64(unit_in(part)?))
    } else if kind == "duration" {
        Some(ArrowDataType::Duration(unit_in(part)?))
    } else if kind == "interval" {
        Some(ArrowDataType::Interval(interval_in(part)?))
    } else if kind == "fixed_size_binary" {
        Some(ArrowDataType::FixedSizeBinary(whole_in(part)?))
    } else {
        None
    }
}

/// The type that an array of these three items spells.
#[cycle(reader)]
#[tactic(auto, unfolding(crate::specs::TypeJson::of_three), using(crate::proofs::Seen::at))]
fn of_three(
    alloc: Global,
    kind: &Value,
    part: &Value,
    last: &Value,
) -> Result<ArrowDataType, JsonError>
    ensures { Reads BadValue seen
        (three_in (view kind.now) (view part.now) (view last.now)) result }
{
    let kind = kind.as_str().ok_or(JsonError::BadValue)?;
    if kind == "fixed_size_list" {
        let field = field_of(alloc, part)?;
        let size = whole_in(last).ok_or(JsonError::BadValue)?;
        Ok(ArrowDataType::FixedSizeList(Boxed::new(alloc, field)?, size))
    } else if kind == "map" {
        let field = field_of(alloc, part)?;
        let is_sorted = last.as_bool().ok_or(JsonError::BadValue)?;
        Ok(ArrowDataType::Map(Boxed::new(alloc, field)?, is_sorted))
    } else if kind == "timestamp" {
        timestamp(alloc, part, last)
    } else if kind == "decimal" {
        decimal(part, last).ok_or(JsonError::BadValue)
    } else {
        Err(JsonError::BadValue)
    }
}

#[tactic(auto, unfolding(crate::specs::TypeJson::timestamp_from), using(crate::proofs::Seen::at))]
fn timestamp(alloc: Global, unit: &Value, zone: &Value) -> Result<ArrowDataType, JsonError>
    ensures { Reads BadValue seen (timestamp_from (view unit.now) (view zone.now)) result }
{
    let unit = unit_in(unit).ok_or(JsonError::BadValue)?;
    let zone = text_or_null(alloc, zone)?;
    Ok(ArrowDataType::Timestamp(unit, zone))
}

#[tactic(auto, unfolding(crate::specs::TypeJson::decimal_from), using(crate::proofs::Seen::at))]
fn decimal(precision: &Value, scale: &Value) -> Option<ArrowDataType>
    ensures { option_map seen result ≡ decimal_from (view precision.now) (view scale.now) }
{
    let precision = whole_in(precision)?;
    let scale = whole_in(scale)?;
    Some(ArrowDataType::Decimal(precision, scale))
}

/// The type that an array of these four items spells.
#[cycle(reader)]
#[tactic(auto, unfolding(crate::specs::TypeJson::of_four))]
fn of_four(
    alloc: Global,
    kind: &Value,
    part: &Value,
    third: &Value,
    last: &Value,
) -> Result<ArrowDataType, JsonError>
    ensures { Reads BadValue seen
        (four_in (view kind.now) (view part.now) (view third.now) (view last.now)) result }
{
    let kind = kind.as_str().ok_or(JsonError::BadValue)?;
    if kind == "union" {
        union(alloc, part, third, last)
    } else if kind == "dictionary" {
        dictionary(alloc, part, third, last)
    } else if kind == "extension" {
        extension(alloc, part, third, last)
    } else {
        Err(JsonError::BadValue)
    }
}

#[cycle(reader)]
#[tactic(auto, unfolding(crate::specs::TypeJson::union_from), using(crate::proofs::Seen::at))]
fn union(
    alloc: Global,
    mode: &Value,
    ids: &Value,
    fields: &Value,
) -> Result<ArrowDataType, JsonError>
    ensures { Reads BadValue seen
        (union_from (view mode.now) (view ids.now) (fields_in (view fields.now))) result }
{
    let mode = mode_in(mode).ok_or(JsonError::BadValue)?;
    let ids = ids_in(alloc, ids)?;
    let fields = fields_of(alloc, fields)?;
    Ok(union_of(alloc, fields, ids, mode)?)
}

#[tactic(auto, using(crate::proofs::Seen::at))]
fn union_of(alloc: Global, fields: Fields, ids: Option<Ids>, mode: UnionMode) -> Mem<ArrowDataType>
    ensures { IfOk result (λ t. seen t ≡ T.union (seen_fields fields) ids mode) }
{
    let union = UnionType { fields, ids, mode };
    Ok(ArrowDataType::Union(Boxed::new(alloc, union)?))
}

#[cycle(reader)]
#[tactic(auto, unfolding(crate::specs::TypeJson::dictionary_from), using(crate::proofs::Seen::at))]
fn dictionary(
    alloc: Global,
    key: &Value,
    dtype: &Value,
    ordered: &Value,
) -> Result<ArrowDataType, JsonError>
    ensures { Reads BadValue seen
        (dictionary_from (view key.now) (type_in (view dtype.now)) (view ordered.now)) result }
{
    let key = integer_in(key).ok_or(JsonError::BadValue)?;
    let values = type_of(alloc, dtype)?;
    let is_ordered = ordered.as_bool().ok_or(JsonError::BadValue)?;
    Ok(ArrowDataType::Dictionary(key, Boxed::new(alloc, values)?, is_ordered))
}

#[cycle(reader)]
#[tactic(auto, unfolding(crate::specs::TypeJson::extension_from), using(crate::proofs::Seen::at))]
fn extension(
    alloc: Global,
    name: &Value,
    dtype: &Value,
    metadata: &Value,
) -> Result<ArrowDataType, JsonError>
    ensures { Reads BadValue seen
        (extension_from (view name.now) (type_in (view dtype.now)) (view metadata.now)) result }
{
    let name = name.as_str().ok_or(JsonError::BadValue)?;
    let inner = type_of(alloc, dtype)?;
    let metadata = text_or_null(alloc, metadata)?;
    let name = PlSmallStr::try_from_str(alloc, name)?;
    let extension = ExtensionType {
        name,
        inner,
        metadata,
    };
    Ok(ArrowDataType::Extension(Boxed::new(alloc, extension)?))
}

/// The field that a value spells.
#[cycle(reader)]
fn field_of(alloc: Global, value: &Value) -> Result<Field, JsonError>
    ensures { Reads BadValue seen_field (field_in (view value.now)) result }
{
    match value {
        Value::Array(list) => match list.as_slice() {
            [name, dtype, nullable, metadata] => field_from(alloc, name, dtype, nullable, metadata),
            _ => Err(JsonError::BadValue),
        },
        _ => Err(JsonError::BadValue),
    }
}

#[cycle(reader)]
#[tactic(auto, unfolding(crate::specs::TypeJson::field_from))]
fn field_from(
    alloc: Global,
    name: &Value,
    dtype: &Value,
    nullable: &Value,
    metadata: &Value,
) -> Result<Field, JsonError>
    ensures { Reads BadValue seen_field
        (field_parts (view name.now) (view dtype.now) (view nullable.now) (view metadata.now))
        result }
{
    let name = name.as_str().ok_or(JsonError::BadValue)?;
    let dtype = type_of(alloc, dtype)?;
    let is_nullable = nullable.as_bool().ok_or(JsonError::BadValue)?;
    let metadata = metadata_in(alloc, metadata)?;
    let name = PlSmallStr::try_from_str(alloc, name)?;
    Ok(Field {
        name,
        dtype,
        is_nullable,
        metadata,
    })
}

/// The fields that an array spells.
#[cycle(reader)]
fn fields_of(alloc: Global, value: &Value) -> Result<Fields, JsonError>
    ensures { Reads BadValue seen_fields (fields_in (view value.now)) result }
{
    match value {
        Value::Array(list) => fields_list(alloc, list.as_slice()),
        _ => Err(JsonError::BadValue),
    }
}

#[cycle(reader)]
fn fields_list(alloc: Global, list: &[Value]) -> Result<Fields, JsonError>
    ensures { Reads BadValue seen_fields (fields_list (items_view list.now)) result }
{
    let mut fields = Fields::new(alloc);
    for item in list {
        fields.push(field_of(alloc, item)?)?;
    }
    Ok(fields)
}

/// The text that a value is, or none of null.
fn text_or_null(alloc: Global, value: &Value) -> Result<Option<PlSmallStr>, JsonError>
    ensures { Reads BadValue (λ o. o) (text_or_null (view value.now)) result }
{
    match value {
        Value::Null => Ok(None),
        Value::String(text) => Ok(Some(PlSmallStr::try_from_str(alloc, text.as_str())?)),
        _ => Err(JsonError::BadValue),
    }
}

/// The ids of a union that a value is, or none of null.
fn ids_in(alloc: Global, value: &Value) -> Result<Option<Ids>, JsonError>
    ensures { Reads BadValue (λ o. o) (ids_in (view value.now)) result }
{
    match value {
        Value::Null => Ok(None),
        Value::Array(list) => Ok(Some(ids_list(alloc, list.as_slice())?)),
        _ => Err(JsonError::BadValue),
    }
}

fn ids_list(alloc: Global, list: &[Value]) -> Result<Ids, JsonError>
    ensures { Reads BadValue Some (ids_list (items_view list.now)) result }
{
    let mut ids = Ids::new(alloc);
    for item in list {
        let Some(id) = int32_in(item) else {
            return Err(JsonError::BadValue);
        };
        ids.push(id)?;
    }
    Ok(ids)
}

/// The metadata that a value is, or none of null.
fn metadata_in(alloc: Global, value: &Value) -> Result<Option<SharedMetadata>, JsonError>
    ensures { Reads BadValue (λ o. o) (metadata_in (view value.now)) result }
{
    match value {
        Value::Null => Ok(None),
        Value::Object(members) => {
            let map = entries_in(alloc, members)?;
            Ok(Some(SharedMetadata::new(alloc, map)?))
        }
        _ => Err(JsonError::BadValue),
    }
}

fn entries_in(alloc: Global, members: &Map<String, Value>) -> Result<Metadata, JsonError>
    ensures { Reads BadValue (λ m. m.entries)
        (entries_in (members_view members.now.entries) []) result }
{
    let mut map = Metadata::new(alloc);
    for (key, member) in members.iter() {
        let text = member.as_str().ok_or(JsonError::BadValue)?;
        let key = PlSmallStr::try_from_str(alloc, key.as_str())?;
        let text = PlSmallStr::try_from_str(alloc, text)?;
        drop(map.insert(key, text)?);
    }
    Ok(map)
}
