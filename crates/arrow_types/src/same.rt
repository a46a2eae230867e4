ghost use Rattle.std.specs.Prelude.{◌≡◌, ◌↔◌, IsTrue, true, false};
ghost use Rattle.std.specs.Cmp.{partial_equiv_from_equiv, on_equiv, decided};
ghost use Rattle.arrow_types.specs.Seen.{seen, seen_field, seen_union, seen_extension};
ghost use Rattle.arrow_types.specs.TypeEq.{type_eq, field_eq};
ghost use Rattle.arrow_types.specs.TypeExact.{types_decide, fields_decide};
ghost use Rattle.arrow_types.specs.Types.{is_nested, variant_number};

use crate::datatype::{ArrowDataType, ExtensionType, Field, Ids, UnionType};
use crate::metadata::SharedMetadata;
use crate::text::PlSmallStr;
use crate::variant::variant_number;

/// Whether two types are equal in all their parts.
#[cycle(same)]
pub fn is_same(a: &ArrowDataType, b: &ArrowDataType) -> bool
    ensures { IsTrue result ↔ (a.now ≡ b.now) }
{
    if variant_number(a) != variant_number(b) {
        return false;
    }
    if a.is_nested() {
        is_same_nested(a, b)
    } else {
        is_same_plain(a, b)
    }
}

/// Whether two types of one nested variant are equal in all their parts.
#[cycle(same)]
fn is_same_nested(a: &ArrowDataType, b: &ArrowDataType) -> bool
    ensures { is_nested (seen a.now) ≡ true → IsTrue result ↔ (a.now ≡ b.now) }
{
    match a {
        ArrowDataType::List(field) => match b {
            ArrowDataType::List(other_field) => is_same_field(field.get(), other_field.get()),
            _ => false,
        },
        ArrowDataType::LargeList(field) => match b {
            ArrowDataType::LargeList(other_field) => is_same_field(field.get(), other_field.get()),
            _ => false,
        },
        ArrowDataType::FixedSizeList(field, size) => match b {
            ArrowDataType::FixedSizeList(other_field, other_size) => *size == *other_size
                && is_same_field(field.get(), other_field.get()),
            _ => false,
        },
        ArrowDataType::Struct(fields) => match b {
            ArrowDataType::Struct(other_fields) => are_same_fields(
                fields.as_slice(),
                other_fields.as_slice(),
            ),
            _ => false,
        },
        ArrowDataType::Map(field, is_sorted) => match b {
            ArrowDataType::Map(other_field, other_is_sorted) => *is_sorted == *other_is_sorted
                && is_same_field(field.get(), other_field.get()),
            _ => false,
        },
        ArrowDataType::Union(union) => match b {
            ArrowDataType::Union(other_union) => is_same_union(union.get(), other_union.get()),
            _ => false,
        },
        ArrowDataType::Dictionary(key, values, is_ordered) => match b {
            ArrowDataType::Dictionary(other_key, other_values, other_is_ordered) => *key
                == *other_key
                && *is_ordered == *other_is_ordered
                && is_same(values.get(), other_values.get()),
            _ => false,
        },
        ArrowDataType::Extension(extension) => match b {
            ArrowDataType::Extension(other_extension) => is_same_extension(
                extension.get(),
                other_extension.get(),
            ),
            _ => false,
        },
        _ => false,
    }
}

/// Whether two types of one variant that isn't nested are equal in all their parts.
fn is_same_plain(a: &ArrowDataType, b: &ArrowDataType) -> bool
    ensures { is_nested (seen a.now) ≡ false
        → variant_number (seen a.now) ≡ variant_number (seen b.now)
        → IsTrue result ↔ (a.now ≡ b.now) }
{
    match a {
        ArrowDataType::Timestamp(unit, zone) => match b {
            ArrowDataType::Timestamp(other_unit, other_zone) => *unit == *other_unit
                && is_same_text(zone, other_zone),
            _ => false,
        },
        ArrowDataType::Time32(unit) => match b {
            ArrowDataType::Time32(other_unit) => *unit == *other_unit,
            _ => false,
        },
        ArrowDataType::Time64(unit) => match b {
            ArrowDataType::Time64(other_unit) => *unit == *other_unit,
            _ => false,
        },
        ArrowDataType::Duration(unit) => match b {
            ArrowDataType::Duration(other_unit) => *unit == *other_unit,
            _ => false,
        },
        ArrowDataType::Interval(interval) => match b {
            ArrowDataType::Interval(other_interval) => *interval == *other_interval,
            _ => false,
        },
        ArrowDataType::FixedSizeBinary(size) => match b {
            ArrowDataType::FixedSizeBinary(other_size) => *size == *other_size,
            _ => false,
        },
        ArrowDataType::Decimal(precision, scale) => match b {
            ArrowDataType::Decimal(other_precision, other_scale) => *precision == *other_precision
                && *scale == *other_scale,
            _ => false,
        },
        ArrowDataType::Decimal256(precision, scale) => match b {
            ArrowDataType::Decimal256(other_precision, other_scale) => *precision
                == *other_precision
                && *scale == *other_scale,
            _ => false,
        },
        _ => true,
    }
}

/// Whether two fields are equal beside their types.
fn is_same_label(a: &Field, b: &Field) -> bool
    ensures { IsTrue result
        ↔ ((a.now.name ≡ b.now.name)
        × (a.now.is_nullable ≡ b.now.is_nullable)
        × (a.now.metadata ≡ b.now.metadata)) }
{
    a.name == b.name && a.is_nullable == b.is_nullable && is_same_metadata(&a.metadata, &b.metadata)
}

/// Whether two fields are equal in all their parts.
#[cycle(same)]
pub fn is_same_field(a: &Field, b: &Field) -> bool
    ensures { IsTrue result ↔ (a.now ≡ b.now) }
{
    is_same_label(a, b) && is_same(&a.dtype, &b.dtype)
}

/// Whether two unions are equal in all their parts.
#[cycle(same)]
#[tactic(auto, using(crate::proofs::Told::unions_one))]
pub fn is_same_union(a: &UnionType, b: &UnionType) -> bool
    ensures { IsTrue result ↔ (a.now ≡ b.now) }
{
    a.mode == b.mode
        && is_same_ids(&a.ids, &b.ids)
        && are_same_fields(a.fields.as_slice(), b.fields.as_slice())
}

/// Whether two extensions are equal in all their parts.
#[cycle(same)]
pub fn is_same_extension(a: &ExtensionType, b: &ExtensionType) -> bool
    ensures { IsTrue result ↔ (a.now ≡ b.now) }
{
    a.name == b.name && is_same_text(&a.metadata, &b.metadata) && is_same(&a.inner, &b.inner)
}

/// Whether two lists of fields are equal in all their parts.
#[cycle(same)]
pub fn are_same_fields(a: &[Field], b: &[Field]) -> bool
    ensures { IsTrue result ↔ (a.now ≡ b.now) }
{
    if a.len() != b.len() {
        return false;
    }
    for i in 0..a.len() {
        if !is_same_field(&a[i], &b[i]) {
            return false;
        }
    }
    true
}

fn is_same_text(a: &Option<PlSmallStr>, b: &Option<PlSmallStr>) -> bool
    ensures { IsTrue result ↔ (a.now ≡ b.now) }
{
    match (a, b) {
        (None, None) => true,
        (Some(a), Some(b)) => *a == *b,
        _ => false,
    }
}

fn is_same_ids(a: &Option<Ids>, b: &Option<Ids>) -> bool
    ensures { IsTrue result ↔ (a.now ≡ b.now) }
{
    match (a, b) {
        (None, None) => true,
        (Some(a), Some(b)) => are_same_ids(a.as_slice(), b.as_slice()),
        _ => false,
    }
}

fn are_same_ids(a: &[i32], b: &[i32]) -> bool
    ensures { IsTrue result ↔ (a.now ≡ b.now) }
{
    *a == *b
}

fn is_same_metadata(a: &Option<SharedMetadata>, b: &Option<SharedMetadata>) -> bool
    ensures { IsTrue result ↔ (a.now ≡ b.now) }
{
    match (a, b) {
        (None, None) => true,
        (Some(a), Some(b)) => are_same_entries(a, b),
        _ => false,
    }
}

fn are_same_entries(a: &SharedMetadata, b: &SharedMetadata) -> bool
    ensures { IsTrue result ↔ (a.now ≡ b.now) }
{
    *a == *b
}

impl PartialEq for ArrowDataType {
    ghost eq = { λ a b. type_eq (seen a) (seen b) };

    ghost laws = { partial_equiv_from_equiv (on_equiv seen (decided type_eq types_decide)) };

    fn eq(&self, other: &ArrowDataType) -> bool {
        is_same(self, other)
    }
}

impl Eq for ArrowDataType {
    ghost laws = { on_equiv seen (decided type_eq types_decide) };
}

impl PartialEq for Field {
    ghost eq = { λ a b. field_eq (seen_field a) (seen_field b) };

    ghost laws = { partial_equiv_from_equiv
        (on_equiv seen_field (decided field_eq fields_decide)) };

    fn eq(&self, other: &Field) -> bool {
        is_same_field(self, other)
    }
}

impl Eq for Field {
    ghost laws = { on_equiv seen_field (decided field_eq fields_decide) };
}

impl PartialEq for UnionType {
    ghost eq = { λ a b. type_eq (seen_union a) (seen_union b) };

    ghost laws = { partial_equiv_from_equiv (on_equiv seen_union (decided type_eq types_decide)) };

    fn eq(&self, other: &UnionType) -> bool {
        is_same_union(self, other)
    }
}

impl Eq for UnionType {
    ghost laws = { on_equiv seen_union (decided type_eq types_decide) };
}

impl PartialEq for ExtensionType {
    ghost eq = { λ a b. type_eq (seen_extension a) (seen_extension b) };

    ghost laws = { partial_equiv_from_equiv
        (on_equiv seen_extension (decided type_eq types_decide)) };

    fn eq(&self, other: &ExtensionType) -> bool {
        is_same_extension(self, other)
    }
}

impl Eq for ExtensionType {
    ghost laws = { on_equiv seen_extension (decided type_eq types_decide) };
}
