//! Which parts make a union: upstream's tests in their order, and two more on the slots that are
//! read.
ghost use Rattle.std.specs.Prelude.{◌≡◌, ◌↔◌, ◌^◌, ◌<◌, ◌≤◌, ℤ, pos, length as count, map, get_or, IfSome, IsTrue, MatchResult};
ghost use Rattle.std.specs.Option.{option_copied};
ghost use Rattle.std.specs.List.{AllByRecursion};
ghost use Rattle.arrow_types.specs.Carried.{IsBelow};
ghost use Rattle.arrow_types.specs.Seen.{seen, seen_fields, seen_union};
ghost use Rattle.arrow_types.specs.Select.{last_place, nat_of, number_limit, select};
ghost use Rattle.arrow_types.specs.declared.datatype.UnionMode.TheVariants.{Sparse};
ghost use Rattle.arrow_layout.specs.FitsHere.{AllWellFormed, HaveLengths};
ghost use Rattle.arrow_layout.specs.Forms.{fields_by, form_of, ids_by, mode_by};
ghost use Rattle.arrow_layout.specs.Layouts.{layouts, lengths_of};
ghost use Rattle.arrow_layout.specs.WellFormed.{type_limit};
ghost use Rattle.arrow_choice.specs.Unions.{AreOffsetsOf, AreTypeNumbers, AreUnionParts, HasAllIds, HasShape, HasSmallIds, HaveSlots, IsUnionType, NameSlots, Refused, union_field_count, given_parts};

use arrow_buffers::Buffer;
use arrow_flat::stored::is_stored_in;
use arrow_meaning::{ArrayRef, all_invariant, have_types};
use arrow_types::{
    ArrowDataType, Field, PhysicalType, PolarsError, PolarsResult, Reason, UnionType,
};

/// That the parts make a union; else the reason of the first test that fails.
pub(crate) fn check_parts(
    dtype: &ArrowDataType,
    types: &[i8],
    children: &[ArrayRef],
    offsets: &Option<Buffer<i32>>,
) -> PolarsResult<()>
    ensures { MatchResult result
        (λ done. AreUnionParts (given_parts dtype.now types.now offsets.now children.now))
        (λ e. Refused e (given_parts dtype.now types.now offsets.now children.now)) }
{
    if !is_stored_in(dtype, PhysicalType::Union) {
        return Err(PolarsError::ComputeError(Reason::WrongLogicalType));
    }
    let fields = declared_fields(dtype);
    if children.len() != fields.len() {
        return Err(PolarsError::ComputeError(Reason::FieldCount));
    }
    if fields.len() > 127 {
        return Err(PolarsError::ComputeError(Reason::TooManyFields));
    }
    if !have_types(fields, children) {
        return Err(PolarsError::ComputeError(Reason::ChildTypeDiffers));
    }
    if !has_all_offsets(offsets, types.len()) {
        return Err(PolarsError::ComputeError(Reason::OffsetsLength));
    }
    if !has_mode(dtype, offsets) {
        return Err(PolarsError::ComputeError(Reason::OffsetsMode));
    }
    check_slots(dtype, types, children, offsets)
}

/// The same of parts whose shape is that of a union.
fn check_slots(
    dtype: &ArrowDataType,
    types: &[i8],
    children: &[ArrayRef],
    offsets: &Option<Buffer<i32>>,
) -> PolarsResult<()>
    requires { HasShape (given_parts dtype.now types.now offsets.now children.now) }
    ensures { MatchResult result
        (λ done. AreUnionParts (given_parts dtype.now types.now offsets.now children.now))
        (λ e. Refused e (given_parts dtype.now types.now offsets.now children.now)) }
{
    if !has_all_ids(dtype, children.len()) {
        return Err(PolarsError::ComputeError(Reason::IdCount));
    }
    if !has_small_ids(dtype) {
        return Err(PolarsError::ComputeError(Reason::IdRange));
    }
    if !are_type_numbers(dtype, children.len(), types) {
        return Err(PolarsError::ComputeError(Reason::TypeRange));
    }
    if children.is_empty() {
        return Err(PolarsError::ComputeError(Reason::NotCarried));
    }
    if !name_slots_if(dtype, types, children, offsets) {
        return Err(PolarsError::ComputeError(Reason::DenseOffset));
    }
    if !have_slots(types.len(), children, offsets) {
        return Err(PolarsError::ComputeError(Reason::SparseLength));
    }
    Ok(())
}

/// What a type of unions declares, through extensions.
fn declared_union(dtype: &ArrowDataType) -> &UnionType
    requires { IsUnionType (seen dtype.now) }
    ensures { form_of (seen dtype.now) ≡ form_of (seen_union result.now) }
{
    match dtype.to_logical_type() {
        ArrowDataType::Union(union) => union.get(),
        _ => unreachable!(),
    }
}

/// The fields of a type of unions.
pub(crate) fn declared_fields(dtype: &ArrowDataType) -> &[Field]
    requires { IsUnionType (seen dtype.now) }
    ensures same { seen_fields result.now ≡ fields_by (form_of (seen dtype.now)) }
    ensures counts { count result.now ≡ union_field_count (seen dtype.now) }
{
    declared_union(dtype).fields.as_slice()
}

/// The ids of a type of unions, if it has any.
fn declared_ids(dtype: &ArrowDataType) -> Option<&[i32]>
    requires { IsUnionType (seen dtype.now) }
    ensures { option_copied result ≡ ids_by (form_of (seen dtype.now)) }
{
    match &declared_union(dtype).ids {
        Some(ids) => Some(ids.as_slice()),
        None => None,
    }
}

/// Whether a type of unions is sparse.
pub(crate) fn is_sparse(dtype: &ArrowDataType) -> bool
    requires { IsUnionType (seen dtype.now) }
    ensures { IsTrue result ↔ (mode_by (form_of (seen dtype.now)) ≡ Sparse) }
{
    declared_union(dtype).mode.is_sparse()
}

/// Whether there is an offset for each slot, if there are offsets.
fn has_all_offsets(offsets: &Option<Buffer<i32>>, slots: usize) -> bool
    ensures { IsTrue result ↔ IfSome offsets.now (λ os. count os ≡ slots) }
{
    match offsets {
        Some(offsets) => offsets.len() == slots,
        None => true,
    }
}

/// Whether there are offsets exactly where a type of unions is dense.
fn has_mode(dtype: &ArrowDataType, offsets: &Option<Buffer<i32>>) -> bool
    requires { IsUnionType (seen dtype.now) }
    ensures { IsTrue result ↔ AreOffsetsOf (mode_by (form_of (seen dtype.now))) offsets.now }
{
    match offsets {
        Some(_) => !is_sparse(dtype),
        None => is_sparse(dtype),
    }
}

/// Whether there is an id for each field, if there are ids.
fn has_all_ids(dtype: &ArrowDataType, fields: usize) -> bool
    requires union { IsUnionType (seen dtype.now) }
    requires fields { fields ≡ union_field_count (seen dtype.now) }
    ensures { IsTrue result ↔ HasAllIds (seen dtype.now) }
{
    match declared_ids(dtype) {
        Some(ids) => ids.len() == fields,
        None => true,
    }
}

/// Whether each id is from 0 to 127, if there are ids.
fn has_small_ids(dtype: &ArrowDataType) -> bool
    requires { IsUnionType (seen dtype.now) }
    ensures { IsTrue result ↔ HasSmallIds (seen dtype.now) }
{
    match declared_ids(dtype) {
        Some(ids) => are_below(ids, 128),
        None => true,
    }
}

/// Whether each number is at least 0 and below the limit.
fn are_below(numbers: &[i32], limit: usize) -> bool
    ensures { IsTrue result ↔ AllByRecursion (IsBelow limit) numbers.now }
{
    for number in numbers {
        if !is_below(*number, limit) {
            return false;
        }
    }
    true
}

/// Whether each type number may stand in a union of the type, which has this many fields.
fn are_type_numbers(dtype: &ArrowDataType, fields: usize, types: &[i8]) -> bool
    requires union { IsUnionType (seen dtype.now) }
    requires fields { fields ≡ union_field_count (seen dtype.now) }
    ensures { IsTrue result ↔ AreTypeNumbers (seen dtype.now) types.now }
{
    let limit = type_limit(dtype, fields);
    for number in types {
        if !is_below(i32::from(*number), limit) {
            return false;
        }
    }
    true
}

/// The number below which the type numbers are of a union of the type, which has this many fields.
fn type_limit(dtype: &ArrowDataType, fields: usize) -> usize
    requires union { IsUnionType (seen dtype.now) }
    requires fields { fields ≡ union_field_count (seen dtype.now) }
    ensures { result ≡ type_limit (seen dtype.now) }
{
    match declared_ids(dtype) {
        Some(_) => 128,
        None => fields,
    }
}

/// Whether each offset, if there are offsets, names a slot of the child that its slot selects.
fn name_slots_if(
    dtype: &ArrowDataType,
    types: &[i8],
    children: &[ArrayRef],
    offsets: &Option<Buffer<i32>>,
) -> bool
    requires union { IsUnionType (seen dtype.now) }
    requires counts { IfSome offsets.now (λ os. count os ≡ count types.now) }
    ensures { IsTrue result
        ↔ IfSome offsets.now (NameSlots (seen dtype.now) types.now (layouts children.now)) }
{
    match offsets {
        Some(offsets) => name_slots(dtype, types, children, offsets.as_slice()),
        None => true,
    }
}

/// Whether each offset names a slot of the child that its slot selects.
fn name_slots(dtype: &ArrowDataType, types: &[i8], children: &[ArrayRef], offsets: &[i32]) -> bool
    requires union { IsUnionType (seen dtype.now) }
    requires counts { count offsets.now ≡ count types.now }
    ensures { IsTrue result
        ↔ NameSlots (seen dtype.now) types.now (layouts children.now) offsets.now }
{
    for i in 0..offsets.len() {
        let field = selected_field(dtype, types, i);
        if !is_below_at(offsets, i, child_len(children, field)) {
            return false;
        }
    }
    true
}

/// Whether the number at a position is at least 0 and below the limit.
fn is_below_at(numbers: &[i32], i: usize, limit: usize) -> bool
    requires { i < count numbers.now }
    ensures below { IsTrue result ↔ IsBelow limit (get_or numbers.now i (pos 0)) }
    ensures small { IsTrue result → IsBelow (2 ^ 31) (get_or numbers.now i (pos 0)) }
{
    is_below(numbers[i], limit)
}

/// Whether each child has a slot for each of the union, if there are no offsets.
fn have_slots(slots: usize, children: &[ArrayRef], offsets: &Option<Buffer<i32>>) -> bool
    ensures { IsTrue result ↔ HaveSlots slots (layouts children.now) offsets.now }
{
    match offsets {
        Some(_) => true,
        None => are_long(children, slots),
    }
}

/// Whether each array has this many slots or more.
fn are_long(arrays: &[ArrayRef], slots: usize) -> bool
    ensures { IsTrue result ↔ HaveLengths (λ i. slots ≤ i) (layouts arrays.now) }
{
    for array in arrays {
        if array.len() < slots {
            return false;
        }
    }
    true
}

/// The count of slots of the child at a position, 0 where there is none.
fn child_len(children: &[ArrayRef], position: usize) -> usize
    ensures { result ≡ get_or (lengths_of (layouts children.now)) position 0 }
{
    match children.get(position) {
        Some(child) => child.len(),
        None => 0,
    }
}

/// Whether a number is at least 0 and below the limit.
fn is_below(number: i32, limit: usize) -> bool
    ensures below { IsTrue result ↔ IsBelow limit number }
    ensures small { IsTrue result → IsBelow (2 ^ 31) number }
{
    match usize::try_from(number) {
        Ok(number) => number < limit,
        Err(_) => false,
    }
}

/// A number as a position, 0 where it is negative.
pub(crate) fn position(number: i32) -> usize
    ensures { result ≡ nat_of number }
{
    match usize::try_from(number) {
        Ok(position) => position,
        Err(_) => 0,
    }
}

/// The position of the field that the type number of a slot selects.
pub(crate) fn selected_field(dtype: &ArrowDataType, types: &[i8], i: usize) -> usize
    requires union { IsUnionType (seen dtype.now) }
    requires within { i < count types.now }
    ensures { result
        ≡ select (ids_by (form_of (seen dtype.now))) (nat_of (get_or types.now i (pos 0))) }
{
    select_field(dtype, types[i])
}

/// The position of the field that a type number selects: with ids the last position at which the
/// number stands among them, and 0 where it stands nowhere; without ids the number itself.
fn select_field(dtype: &ArrowDataType, number: i8) -> usize
    requires { IsUnionType (seen dtype.now) }
    ensures { result ≡ select (ids_by (form_of (seen dtype.now))) (nat_of number) }
{
    let number = position(i32::from(number));
    match declared_ids(dtype) {
        Some(ids) => last_place(ids, number),
        None => number,
    }
}

/// The last position of the number among the ids, 0 where it stands nowhere.
fn last_place(ids: &[i32], number: usize) -> usize
    ensures { result ≡ last_place 0 0 ids.now (pos number) }
{
    let mut place = 0;
    for (i, id) in ids.iter().enumerate() {
        if is_number(*id, number) {
            place = i;
        }
    }
    place
}

/// Whether the id is the number.
fn is_number(id: i32, number: usize) -> bool
    ensures { IsTrue result ↔ (id ≡ pos number) }
{
    match usize::try_from(id) {
        Ok(id) => id == number,
        Err(_) => false,
    }
}

/// For proofs alone: what the parts keep.
pub(crate) fn invariant(types: &Buffer<i8>, children: &[ArrayRef])
    ensures few { count types.now < 2 ^ 64 }
    ensures children { AllWellFormed (layouts children.now) }
{
    types.len();
    all_invariant(children);
}
