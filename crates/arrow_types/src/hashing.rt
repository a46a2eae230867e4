ghost use Rattle.std.specs.Prelude.{◌≡◌, true, false, fold};
ghost use Rattle.std.specs.Hash as fed;
ghost use Rattle.std.specs.Hash.{on_Alike, same_Alike};
ghost use Rattle.arrow_types.specs.Seen.{seen, seen_field, seen_fields, seen_union, seen_extension};
ghost use Rattle.arrow_types.specs.TypeEq.{unit_number, interval_number, integer_number, mode_number};
ghost use Rattle.arrow_types.specs.TypeExact.{types_decide, fields_decide};
ghost use Rattle.arrow_types.specs.Types.{is_nested};
ghost use Rattle.arrow_types.specs.TypeWrites.{type_writes, parts_writes, field_writes, fields_writes};

use crate::datatype::{
    ArrowDataType, ExtensionType, Field, Ids, IntegerType, IntervalUnit, TimeUnit, UnionMode,
    UnionType,
};
use crate::variant::variant_number;
use std::hash::{Hash, Hasher};

/// The numbers of the variants `Union` and `Extension`, which precede their parts in a hash.
const UNION_NUMBER: u8 = 33;

const EXTENSION_NUMBER: u8 = 37;

#[cycle(hash)]
fn hash_type<H: Hasher>(t: &ArrowDataType, state: &mut H)
    ensures { state.new ≡ fold H.write state.old (type_writes (seen t.now)) }
{
    state.write_u8(variant_number(t));
    if t.is_nested() {
        hash_nested(t, state);
    } else {
        hash_plain(t, state);
    }
}

/// Hashes the parts of a nested type.
#[cycle(hash)]
fn hash_nested<H: Hasher>(t: &ArrowDataType, state: &mut H)
    ensures { is_nested (seen t.now) ≡ true
        → state.new ≡ fold H.write state.old (parts_writes (seen t.now)) }
{
    match t {
        ArrowDataType::List(field) | ArrowDataType::LargeList(field) => {
            hash_field(field.get(), state);
        }
        ArrowDataType::FixedSizeList(field, size) => {
            hash_field(field.get(), state);
            size.hash(state);
        }
        ArrowDataType::Struct(fields) => hash_fields(fields.as_slice(), state),
        ArrowDataType::Map(field, is_sorted) => {
            hash_field(field.get(), state);
            is_sorted.hash(state);
        }
        ArrowDataType::Union(union) => hash_union(union.get(), state),
        ArrowDataType::Dictionary(key, values, is_ordered) => {
            state.write_u8(integer_number(*key));
            hash_type(values.get(), state);
            is_ordered.hash(state);
        }
        ArrowDataType::Extension(extension) => hash_extension(extension.get(), state),
        _ => {}
    }
}

/// Hashes the parts of a type that isn't nested.
fn hash_plain<H: Hasher>(t: &ArrowDataType, state: &mut H)
    ensures { is_nested (seen t.now) ≡ false
        → state.new ≡ fold H.write state.old (parts_writes (seen t.now)) }
{
    match t {
        ArrowDataType::Timestamp(unit, zone) => {
            state.write_u8(unit_number(*unit));
            zone.hash(state);
        }
        ArrowDataType::Time32(unit) | ArrowDataType::Time64(unit) | ArrowDataType::Duration(unit) =>
            state.write_u8(unit_number(*unit)),
        ArrowDataType::Interval(interval) => state.write_u8(interval_number(*interval)),
        ArrowDataType::FixedSizeBinary(size) => size.hash(state),
        ArrowDataType::Decimal(precision, scale) | ArrowDataType::Decimal256(precision, scale) => {
            precision.hash(state);
            scale.hash(state);
        }
        _ => {}
    }
}

#[cycle(hash)]
fn hash_field<H: Hasher>(field: &Field, state: &mut H)
    ensures { state.new ≡ fold H.write state.old (field_writes (seen_field field.now)) }
{
    field.name.hash(state);
    hash_type(&field.dtype, state);
    field.is_nullable.hash(state);
    field.metadata.hash(state);
}

#[cycle(hash)]
#[tactic(auto, using(crate::proofs::Lists::count_seen))]
pub(crate) fn hash_fields<H: Hasher>(fields: &[Field], state: &mut H)
    ensures { state.new ≡ fold H.write state.old (fields_writes (seen_fields fields.now)) }
{
    state.write_usize(fields.len());
    for field in fields {
        hash_field(field, state);
    }
}

#[cycle(hash)]
fn hash_union<H: Hasher>(union: &UnionType, state: &mut H)
    ensures { state.new ≡ fold H.write state.old (parts_writes (seen_union union.now)) }
{
    hash_fields(union.fields.as_slice(), state);
    hash_ids(&union.ids, state);
    state.write_u8(mode_number(union.mode));
}

#[cycle(hash)]
fn hash_extension<H: Hasher>(extension: &ExtensionType, state: &mut H)
    ensures { state.new ≡ fold H.write state.old (parts_writes (seen_extension extension.now)) }
{
    extension.name.hash(state);
    hash_type(&extension.inner, state);
    extension.metadata.hash(state);
}

fn hash_ids<H: Hasher>(ids: &Option<Ids>, state: &mut H)
    ensures { state.new ≡ fold H.write state.old (fed.option (fed.slice fed.i32) ids.now) }
{
    match ids {
        None => state.write_isize(0),
        Some(ids) => {
            state.write_isize(1);
            ids.as_slice().hash(state);
        }
    }
}

fn unit_number(unit: TimeUnit) -> u8
    ensures { result ≡ unit_number unit }
{
    match unit {
        TimeUnit::Second => 0,
        TimeUnit::Millisecond => 1,
        TimeUnit::Microsecond => 2,
        TimeUnit::Nanosecond => 3,
    }
}

fn interval_number(interval: IntervalUnit) -> u8
    ensures { result ≡ interval_number interval }
{
    match interval {
        IntervalUnit::YearMonth => 0,
        IntervalUnit::DayTime => 1,
        IntervalUnit::MonthDayNano => 2,
    }
}

fn integer_number(integer: IntegerType) -> u8
    ensures { result ≡ integer_number integer }
{
    match integer {
        IntegerType::Int8 => 0,
        IntegerType::Int16 => 1,
        IntegerType::Int32 => 2,
        IntegerType::Int64 => 3,
        IntegerType::Int128 => 4,
        IntegerType::UInt8 => 5,
        IntegerType::UInt16 => 6,
        IntegerType::UInt32 => 7,
        IntegerType::UInt64 => 8,
    }
}

fn mode_number(mode: UnionMode) -> u8
    ensures { result ≡ mode_number mode }
{
    match mode {
        UnionMode::Dense => 0,
        UnionMode::Sparse => 1,
    }
}

impl Hash for ArrowDataType {
    ghost hash_input = { λ a. type_writes (seen a) };

    ghost respects_eq = { (on_Alike seen (same_Alike type_writes types_decide)).fed };

    fn hash<H: Hasher>(&self, state: &mut H) {
        hash_type(self, state);
    }
}

impl Hash for Field {
    ghost hash_input = { λ a. field_writes (seen_field a) };

    ghost respects_eq = { (on_Alike seen_field (same_Alike field_writes fields_decide)).fed };

    fn hash<H: Hasher>(&self, state: &mut H) {
        hash_field(self, state);
    }
}

impl Hash for UnionType {
    ghost hash_input = { λ a. type_writes (seen_union a) };

    ghost respects_eq = { (on_Alike seen_union (same_Alike type_writes types_decide)).fed };

    fn hash<H: Hasher>(&self, state: &mut H) {
        state.write_u8(UNION_NUMBER);
        hash_union(self, state);
    }
}

impl Hash for ExtensionType {
    ghost hash_input = { λ a. type_writes (seen_extension a) };

    ghost respects_eq = { (on_Alike seen_extension (same_Alike type_writes types_decide)).fed };

    fn hash<H: Hasher>(&self, state: &mut H) {
        state.write_u8(EXTENSION_NUMBER);
        hash_extension(self, state);
    }
}
