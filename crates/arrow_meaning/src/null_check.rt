//! Whether a type has arrays of slots that say nothing: what it holds, and their counts.
ghost use Rattle.std.specs.Prelude.{◌≡◌, ◌↔◌, pos, IfErr, IfOk, IsTrue};
ghost use Rattle.arrow_types.specs.Carried.{AreCarried, AreIds, IsBelow, IsCarried, IsPair};
ghost use Rattle.std.specs.List.{AllByRecursion};
ghost use Rattle.arrow_meaning.specs.NullParts.{HasLegalFields};
ghost use Rattle.arrow_types.specs.Seen.{seen, seen_fields, seen_union};
ghost use Rattle.arrow_types.specs.Select.{first_number, last_place, select};
ghost use Rattle.arrow_layout.specs.NullLayout.{one_if_any};
ghost use Rattle.arrow_layout.specs.NullsFit.{AllNullsFit, NullsFit};
ghost use Rattle.arrow_meaning.specs.Refusals.{NullsRefused};
ghost use Rattle.arrow_meaning.specs.Storable.{AreStorable, IsStorable};

use arrow_types::{ArrowDataType, Field, Ids, PolarsError, PolarsResult, Reason, UnionType};

/// The greatest count of slots of a dense union, whose offsets are those of an `i32`.
const DENSE_LIMIT: usize = 1 << 31;

/// That `length` slots that say nothing have an array of the type. Refused as Unsupported, then as
/// ComputeError(NotCarried), then as ComputeError(LengthOverflow).
pub(crate) fn check_nulls(dtype: &ArrowDataType, length: usize) -> PolarsResult<()>
    ensures carried { IfOk result (λ done. IsCarried (seen dtype.now)) }
    ensures fits { IfOk result (λ done. NullsFit (seen dtype.now) length) }
    ensures refused { IfErr result (λ e. NullsRefused e (seen dtype.now) length) }
{
    if !is_storable(dtype) {
        return Err(PolarsError::Unsupported);
    }
    if !is_carried(dtype) {
        return Err(PolarsError::ComputeError(Reason::NotCarried));
    }
    if !nulls_fit(dtype, length) {
        return Err(PolarsError::ComputeError(Reason::LengthOverflow));
    }
    Ok(())
}

/// Whether columns can store what the type holds: no floating-point number, decimal of 256 bits or
/// unknown type.
#[cycle(storable)]
fn is_storable(dtype: &ArrowDataType) -> bool
    ensures { IsTrue result ↔ IsStorable (seen dtype.now) }
{
    match dtype {
        ArrowDataType::Float16 => false,
        ArrowDataType::Float32 => false,
        ArrowDataType::Float64 => false,
        ArrowDataType::Decimal256(_, _) => false,
        ArrowDataType::Unknown => false,
        ArrowDataType::List(field)
        | ArrowDataType::LargeList(field)
        | ArrowDataType::FixedSizeList(field, _)
        | ArrowDataType::Map(field, _) => is_storable(&field.get().dtype),
        ArrowDataType::Struct(fields) => are_storable(fields.as_slice()),
        ArrowDataType::Union(union) => are_storable(union.get().fields.as_slice()),
        ArrowDataType::Dictionary(_, values, _) => is_storable(values.get()),
        ArrowDataType::Extension(extension) => is_storable(&extension.get().inner),
        _ => true,
    }
}

/// Whether columns can store what each field holds.
#[cycle(storable)]
fn are_storable(fields: &[Field]) -> bool
    ensures { IsTrue result ↔ AreStorable (seen_fields fields.now) }
{
    for field in fields {
        if !is_storable(&field.dtype) {
            return false;
        }
    }
    true
}

/// Whether the type is carried: columns can store what it holds, each union in it has 1 to 127
/// fields and legal ids, each fixed-size binary a size that isn't 0, and each map entries of two
/// fields.
#[cycle(carried)]
fn is_carried(dtype: &ArrowDataType) -> bool
    ensures { IsTrue result ↔ IsCarried (seen dtype.now) }
{
    match dtype {
        ArrowDataType::FixedSizeBinary(size) => {
            prove!(*size <= usize::MAX);
            *size != 0
        }
        ArrowDataType::Decimal(precision, scale) => {
            prove!(*precision <= usize::MAX);
            prove!(*scale <= usize::MAX);
            true
        }
        ArrowDataType::List(field) | ArrowDataType::LargeList(field) => {
            is_carried(&field.get().dtype)
        }
        ArrowDataType::FixedSizeList(field, size) => {
            prove!(*size <= usize::MAX);
            is_carried(&field.get().dtype)
        }
        ArrowDataType::Map(field, _) => {
            let entries = &field.get().dtype;
            is_pair(entries) && is_carried(entries)
        }
        ArrowDataType::Struct(fields) => are_carried(fields.as_slice()),
        ArrowDataType::Union(union) => {
            let union = union.get();
            has_legal_fields(union) && are_carried(union.fields.as_slice())
        }
        ArrowDataType::Dictionary(_, values, _) => is_carried(values.get()),
        ArrowDataType::Extension(extension) => is_carried(&extension.get().inner),
        _ => is_storable(dtype),
    }
}

/// Whether the type of each field is carried.
#[cycle(carried)]
fn are_carried(fields: &[Field]) -> bool
    ensures { IsTrue result ↔ AreCarried (seen_fields fields.now) }
{
    for field in fields {
        if !is_carried(&field.dtype) {
            return false;
        }
    }
    true
}

/// Whether the type is a struct of two fields, with no extension around it.
fn is_pair(dtype: &ArrowDataType) -> bool
    ensures { IsTrue result ↔ IsPair (seen dtype.now) }
{
    match dtype {
        ArrowDataType::Struct(fields) => fields.len() == 2,
        _ => false,
    }
}

/// Whether a union has 1 to 127 fields, and no ids or one from 0 to 127 for each field.
fn has_legal_fields(union: &UnionType) -> bool
    ensures { IsTrue result ↔ HasLegalFields (seen_union union.now) }
{
    let fields = union.fields.len();
    if fields == 0 {
        return false;
    }
    if fields > 127 {
        return false;
    }
    are_ids(&union.ids, fields)
}

/// Whether there are no ids, or one from 0 to 127 for each of `fields` fields.
fn are_ids(ids: &Option<Ids>, fields: usize) -> bool
    ensures { IsTrue result ↔ AreIds ids.now fields }
{
    match ids {
        None => true,
        Some(ids) => ids.len() == fields && are_legal(ids.as_slice()),
    }
}

/// Whether each id is from 0 to 127.
fn are_legal(ids: &[i32]) -> bool
    ensures { IsTrue result ↔ AllByRecursion (IsBelow 128) ids.now }
{
    for id in ids {
        if !is_legal(*id) {
            return false;
        }
    }
    true
}

/// Whether the id is from 0 to 127.
fn is_legal(id: i32) -> bool
    ensures { IsTrue result ↔ IsBelow 128 id }
{
    match usize::try_from(id) {
        Ok(number) => number < 128,
        Err(_) => false,
    }
}

/// Whether `length` slots that say nothing fit: a usize holds the length of each fixed-size list's
/// child and the bytes of fixed-size values, and a dense union has at most 2^31 slots.
#[cycle(fit)]
fn nulls_fit(dtype: &ArrowDataType, length: usize) -> bool
    ensures { IsTrue result ↔ NullsFit (seen dtype.now) length }
{
    match dtype {
        ArrowDataType::FixedSizeBinary(size) => length.checked_mul(*size).is_some(),
        ArrowDataType::FixedSizeList(field, size) => match length.checked_mul(*size) {
            Some(items) => nulls_fit(&field.get().dtype, items),
            None => false,
        },
        ArrowDataType::Struct(fields) => all_nulls_fit(fields.as_slice(), length),
        ArrowDataType::Union(union) => union_nulls_fit(union.get(), length),
        ArrowDataType::Dictionary(_, values, _) => nulls_fit(values.get(), one_if_any(length)),
        ArrowDataType::Extension(extension) => nulls_fit(&extension.get().inner, length),
        _ => true,
    }
}

/// Whether `length` slots of each field fit.
#[cycle(fit)]
fn all_nulls_fit(fields: &[Field], length: usize) -> bool
    ensures { IsTrue result ↔ AllNullsFit (seen_fields fields.now) length }
{
    for field in fields {
        if !nulls_fit(&field.dtype, length) {
            return false;
        }
    }
    true
}

/// Whether `length` slots of the union fit.
#[cycle(fit)]
fn union_nulls_fit(union: &UnionType, length: usize) -> bool
    ensures { IsTrue result ↔ NullsFit (seen_union union.now) length }
{
    if union.mode.is_sparse() {
        return all_nulls_fit(union.fields.as_slice(), length);
    }
    if length > DENSE_LIMIT {
        return false;
    }
    match union.fields.get(first_position(&union.ids)) {
        Some(field) => nulls_fit(&field.dtype, length),
        None => true,
    }
}

/// One for some slots, and none for none: how many values the keys of nulls name.
pub(crate) fn one_if_any(length: usize) -> usize
    ensures { result ≡ one_if_any length }
{
    length.min(1)
}

/// The number of a union's slots that say nothing: the first id, and 0 without ids.
pub(crate) fn first_number(ids: &Option<Ids>) -> i32
    ensures { result ≡ pos (first_number ids.now) }
{
    match ids {
        None => 0,
        Some(ids) => match ids.as_slice().first() {
            None => 0,
            Some(id) => (*id).max(0),
        },
    }
}

/// The position of the field that this number selects.
pub(crate) fn first_position(ids: &Option<Ids>) -> usize
    ensures { result ≡ select ids.now (first_number ids.now) }
{
    match ids {
        None => 0,
        Some(list) => last_place(list.as_slice(), first_number(ids)),
    }
}

/// The last place of the number among the ids, 0 where it stands nowhere.
fn last_place(ids: &[i32], number: i32) -> usize
    ensures { result ≡ last_place 0 0 ids.now number }
{
    let mut found = 0;
    for (i, id) in ids.iter().enumerate() {
        if *id == number {
            found = i;
        }
    }
    found
}
