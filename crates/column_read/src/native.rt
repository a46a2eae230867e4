//! Numbers from JSON values, and the traits of the types that values and offsets have.
ghost use Rattle.std.specs.Prelude.{◌≡◌, option_map, Some, None, pos};
ghost use Rattle.std.specs.Int.{w8, w16, w32, w64, w128};
ghost use Rattle.serde_json.specs.View.{view};
ghost use Rattle.arrow_flat.specs.Natives.{signed, unsigned, days_ms, month_day_nano};
ghost use Rattle.arrow_types.specs.declared.datatype.PrimitiveType.TheVariants as primitive;
ghost use Rattle.type_json.specs.Reads.{Reads};
ghost use Rattle.type_json.specs.declared.error.JsonError.TheVariants.{BadValue};
ghost use Rattle.column_grammar.specs.Reads.{offset_bits};
ghost use Rattle.column_grammar.specs.Values.{one, signed_in, unsigned_in, number_in, int128_of};

use crate::value::{bytes_in, pair_in, triple_in};
use arrow_buffers::Offset;
use arrow_flat::{DaysMs, MonthDayNano, NativeType};
use serde_json::Value;
use std::alloc::Global;
use type_json::JsonError;

/// A value of fixed width that a JSON value may be.
pub trait ReadNative: NativeType {
    /// The value that a JSON value is. BadValue exactly where it is none of this type: a number in
    /// the range of the type, of 128 bits a text of bytes, of days and milliseconds, or months,
    /// days and nanoseconds, a list.
    fn read(alloc: Global, value: &Value) -> Result<Self, JsonError>
        ensures { Reads BadValue Self.parts (number_in Self.PRIMITIVE (view value.now)) result };
}

/// An offset that a JSON value may be.
pub trait ReadOffset: Offset {
    /// The offset that a value is, a number in the range of its type.
    fn read(value: &Value) -> Option<Self>
        ensures { option_map Self.number result
            ≡ signed_in (offset_bits Self.IS_LARGE) (view value.now) };
}

/// The number of 8 bits and a sign that a value is.
#[tactic(auto, unfolding(column_grammar::specs::Values::signed_in))]
pub(crate) fn int8_in(value: &Value) -> Option<i8>
    ensures number { result ≡ signed_in 7 (view value.now) }
    ensures parts { option_map (signed w8) result ≡ one (signed_in 7 (view value.now)) }
{
    i8::try_from(value.as_i64()?).ok()
}

/// The number of 16 bits and a sign that a value is.
#[tactic(auto, unfolding(column_grammar::specs::Values::signed_in))]
fn int16_in(value: &Value) -> Option<i16>
    ensures { option_map (signed w16) result ≡ one (signed_in 15 (view value.now)) }
{
    i16::try_from(value.as_i64()?).ok()
}

/// The number of 32 bits and a sign that a value is.
#[tactic(auto, unfolding(column_grammar::specs::Values::signed_in))]
fn int32_in(value: &Value) -> Option<i32>
    ensures number { result ≡ signed_in 31 (view value.now) }
    ensures parts { option_map (signed w32) result ≡ one (signed_in 31 (view value.now)) }
{
    i32::try_from(value.as_i64()?).ok()
}

/// The number of 64 bits and a sign that a value is.
#[tactic(auto, unfolding(column_grammar::specs::Values::signed_in))]
fn int64_in(value: &Value) -> Option<i64>
    ensures number { result ≡ signed_in 63 (view value.now) }
    ensures parts { option_map (signed w64) result ≡ one (signed_in 63 (view value.now)) }
{
    value.as_i64()
}

/// The number of 8 bits that a value is.
#[tactic(auto, unfolding(column_grammar::specs::Values::unsigned_in))]
fn uint8_in(value: &Value) -> Option<u8>
    ensures { option_map (unsigned 8) result ≡ one (unsigned_in 8 (view value.now)) }
{
    u8::try_from(value.as_u64()?).ok()
}

/// The number of 16 bits that a value is.
#[tactic(auto, unfolding(column_grammar::specs::Values::unsigned_in))]
fn uint16_in(value: &Value) -> Option<u16>
    ensures { option_map (unsigned 16) result ≡ one (unsigned_in 16 (view value.now)) }
{
    u16::try_from(value.as_u64()?).ok()
}

/// The number of 32 bits that a value is.
#[tactic(auto, unfolding(column_grammar::specs::Values::unsigned_in))]
pub(crate) fn uint32_in(value: &Value) -> Option<u32>
    ensures number { option_map pos result ≡ unsigned_in 32 (view value.now) }
    ensures parts { option_map (unsigned 32) result ≡ one (unsigned_in 32 (view value.now)) }
{
    u32::try_from(value.as_u64()?).ok()
}

/// The number of 64 bits that a value is.
#[tactic(auto, unfolding(column_grammar::specs::Values::unsigned_in))]
fn uint64_in(value: &Value) -> Option<u64>
    ensures { option_map (unsigned 64) result ≡ one (unsigned_in 64 (view value.now)) }
{
    value.as_u64()
}

/// The number of 128 bits and a sign that sixteen bytes are, the highest byte first.
fn int128_of(bytes: &[u8]) -> Option<i128>
    ensures { option_map (signed w128) result ≡ int128_of bytes.now }
{
    match <[u8; 16]>::try_from(bytes) {
        Ok(bytes) => Some(i128::from_be_bytes(bytes)),
        Err(_) => None,
    }
}

/// The days and milliseconds that a value is.
#[tactic(auto, unfolding(column_grammar::specs::Values::number_in))]
fn days_ms_in(value: &Value) -> Option<DaysMs>
    ensures { option_map days_ms result ≡ number_in primitive.DaysMs (view value.now) }
{
    let (days, milliseconds) = pair_in(value)?;
    let days = int32_in(days)?;
    let milliseconds = int32_in(milliseconds)?;
    Some(DaysMs(days, milliseconds))
}

/// The months, days and nanoseconds that a value is.
#[tactic(auto, unfolding(column_grammar::specs::Values::number_in))]
fn month_day_nano_in(value: &Value) -> Option<MonthDayNano>
    ensures { option_map month_day_nano result
        ≡ number_in primitive.MonthDayNano (view value.now) }
{
    let (months, days, nanoseconds) = triple_in(value)?;
    let months = int32_in(months)?;
    let days = int32_in(days)?;
    let nanoseconds = int64_in(nanoseconds)?;
    Some(MonthDayNano(months, days, nanoseconds))
}

impl ReadNative for i8 {
    #[tactic(auto, unfolding(column_grammar::specs::Values::number_in))]
    fn read(_alloc: Global, value: &Value) -> Result<i8, JsonError> {
        int8_in(value).ok_or(JsonError::BadValue)
    }
}

impl ReadNative for i16 {
    #[tactic(auto, unfolding(column_grammar::specs::Values::number_in))]
    fn read(_alloc: Global, value: &Value) -> Result<i16, JsonError> {
        int16_in(value).ok_or(JsonError::BadValue)
    }
}

impl ReadNative for i32 {
    #[tactic(auto, unfolding(column_grammar::specs::Values::number_in))]
    fn read(_alloc: Global, value: &Value) -> Result<i32, JsonError> {
        int32_in(value).ok_or(JsonError::BadValue)
    }
}

impl ReadNative for i64 {
    #[tactic(auto, unfolding(column_grammar::specs::Values::number_in))]
    fn read(_alloc: Global, value: &Value) -> Result<i64, JsonError> {
        int64_in(value).ok_or(JsonError::BadValue)
    }
}

impl ReadNative for u8 {
    #[tactic(auto, unfolding(column_grammar::specs::Values::number_in))]
    fn read(_alloc: Global, value: &Value) -> Result<u8, JsonError> {
        uint8_in(value).ok_or(JsonError::BadValue)
    }
}

impl ReadNative for u16 {
    #[tactic(auto, unfolding(column_grammar::specs::Values::number_in))]
    fn read(_alloc: Global, value: &Value) -> Result<u16, JsonError> {
        uint16_in(value).ok_or(JsonError::BadValue)
    }
}

impl ReadNative for u32 {
    #[tactic(auto, unfolding(column_grammar::specs::Values::number_in))]
    fn read(_alloc: Global, value: &Value) -> Result<u32, JsonError> {
        uint32_in(value).ok_or(JsonError::BadValue)
    }
}

impl ReadNative for u64 {
    #[tactic(auto, unfolding(column_grammar::specs::Values::number_in))]
    fn read(_alloc: Global, value: &Value) -> Result<u64, JsonError> {
        uint64_in(value).ok_or(JsonError::BadValue)
    }
}

impl ReadNative for i128 {
    #[tactic(auto, unfolding(column_grammar::specs::Values::number_in))]
    fn read(alloc: Global, value: &Value) -> Result<i128, JsonError> {
        let bytes = bytes_in(alloc, value)?;
        int128_of(bytes.as_slice()).ok_or(JsonError::BadValue)
    }
}

impl ReadNative for DaysMs {
    fn read(_alloc: Global, value: &Value) -> Result<DaysMs, JsonError> {
        days_ms_in(value).ok_or(JsonError::BadValue)
    }
}

impl ReadNative for MonthDayNano {
    fn read(_alloc: Global, value: &Value) -> Result<MonthDayNano, JsonError> {
        month_day_nano_in(value).ok_or(JsonError::BadValue)
    }
}

impl ReadOffset for i32 {
    fn read(value: &Value) -> Option<i32> {
        int32_in(value)
    }
}

impl ReadOffset for i64 {
    fn read(value: &Value) -> Option<i64> {
        int64_in(value)
    }
}
