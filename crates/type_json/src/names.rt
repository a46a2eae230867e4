//! The names in spellings of types.
ghost use Rattle.std.specs.Prelude.{◌≡◌, option_map};
ghost use Rattle.serde_json.specs.View.{view};
ghost use Rattle.arrow_types.specs.Seen.{seen};
ghost use Rattle.type_json.specs.TypeJson.{integer_named, view_named, text_named, bytes_named, plain_named, named, unit_in, interval_in, mode_in, integer_in};

use arrow_types::{ArrowDataType, IntegerType, IntervalUnit, TimeUnit, UnionMode};
use serde_json::Value;

#[tactic(auto, unfolding(crate::specs::TypeJson::integer_named))]
fn integer_named(name: &str) -> Option<IntegerType>
    ensures { result ≡ integer_named name.now }
{
    if name == "int8" {
        Some(IntegerType::Int8)
    } else if name == "int16" {
        Some(IntegerType::Int16)
    } else if name == "int32" {
        Some(IntegerType::Int32)
    } else if name == "int64" {
        Some(IntegerType::Int64)
    } else if name == "int128" {
        Some(IntegerType::Int128)
    } else if name == "uint8" {
        Some(IntegerType::UInt8)
    } else if name == "uint16" {
        Some(IntegerType::UInt16)
    } else if name == "uint32" {
        Some(IntegerType::UInt32)
    } else if name == "uint64" {
        Some(IntegerType::UInt64)
    } else {
        None
    }
}

#[tactic(auto, unfolding(crate::specs::TypeJson::view_named), using(crate::proofs::Seen::at))]
fn view_named(name: &str) -> Option<ArrowDataType>
    ensures { option_map seen result ≡ view_named name.now }
{
    if name == "binary_view" {
        Some(ArrowDataType::BinaryView)
    } else if name == "utf8_view" {
        Some(ArrowDataType::Utf8View)
    } else {
        None
    }
}

#[tactic(auto, unfolding(crate::specs::TypeJson::text_named), using(crate::proofs::Seen::at))]
fn text_named(name: &str) -> Option<ArrowDataType>
    ensures { option_map seen result ≡ text_named name.now }
{
    if name == "utf8" {
        Some(ArrowDataType::Utf8)
    } else if name == "large_utf8" {
        Some(ArrowDataType::LargeUtf8)
    } else {
        view_named(name)
    }
}

#[tactic(auto, unfolding(crate::specs::TypeJson::bytes_named), using(crate::proofs::Seen::at))]
fn bytes_named(name: &str) -> Option<ArrowDataType>
    ensures { option_map seen result ≡ bytes_named name.now }
{
    if name == "binary" {
        Some(ArrowDataType::Binary)
    } else if name == "large_binary" {
        Some(ArrowDataType::LargeBinary)
    } else {
        text_named(name)
    }
}

#[tactic(auto, unfolding(crate::specs::TypeJson::plain_named), using(crate::proofs::Seen::at))]
fn plain_named(name: &str) -> Option<ArrowDataType>
    ensures { option_map seen result ≡ plain_named name.now }
{
    if name == "null" {
        Some(ArrowDataType::Null)
    } else if name == "boolean" {
        Some(ArrowDataType::Boolean)
    } else if name == "date32" {
        Some(ArrowDataType::Date32)
    } else if name == "date64" {
        Some(ArrowDataType::Date64)
    } else {
        bytes_named(name)
    }
}

/// The type with no parts that a name spells.
#[tactic(auto, unfolding(crate::specs::TypeJson::named))]
pub(crate) fn named(name: &str) -> Option<ArrowDataType>
    ensures { option_map seen result ≡ named name.now }
{
    match integer_named(name) {
        Some(integer) => Some(ArrowDataType::from(integer)),
        None => plain_named(name),
    }
}

/// The unit of time that a value names.
#[tactic(auto, unfolding(crate::specs::TypeJson::unit_in))]
pub(crate) fn unit_in(value: &Value) -> Option<TimeUnit>
    ensures { result ≡ unit_in (view value.now) }
{
    let name = value.as_str()?;
    if name == "s" {
        Some(TimeUnit::Second)
    } else if name == "ms" {
        Some(TimeUnit::Millisecond)
    } else if name == "us" {
        Some(TimeUnit::Microsecond)
    } else if name == "ns" {
        Some(TimeUnit::Nanosecond)
    } else {
        None
    }
}

/// The numbers of an interval that a value names.
#[tactic(auto, unfolding(crate::specs::TypeJson::interval_in))]
pub(crate) fn interval_in(value: &Value) -> Option<IntervalUnit>
    ensures { result ≡ interval_in (view value.now) }
{
    let name = value.as_str()?;
    if name == "year_month" {
        Some(IntervalUnit::YearMonth)
    } else if name == "day_time" {
        Some(IntervalUnit::DayTime)
    } else if name == "month_day_nano" {
        Some(IntervalUnit::MonthDayNano)
    } else {
        None
    }
}

/// The way of a union's slots that a value names.
#[tactic(auto, unfolding(crate::specs::TypeJson::mode_in))]
pub(crate) fn mode_in(value: &Value) -> Option<UnionMode>
    ensures { result ≡ mode_in (view value.now) }
{
    let name = value.as_str()?;
    if name == "dense" {
        Some(UnionMode::Dense)
    } else if name == "sparse" {
        Some(UnionMode::Sparse)
    } else {
        None
    }
}

/// The type of integers that a value names.
#[tactic(auto, unfolding(crate::specs::TypeJson::integer_in))]
pub(crate) fn integer_in(value: &Value) -> Option<IntegerType>
    ensures { result ≡ integer_in (view value.now) }
{
    let name = value.as_str()?;
    integer_named(name)
}
