//! The fields that the type numbers of unions select.
ghost use Rattle.std.specs.Prelude.{◌≡◌, ◌↔◌, ℕ, ◌<◌, pos, length as len, map, IfOk, IsTrue, Some};
ghost use Rattle.std.specs.List.{range_with_len};
ghost use Rattle.std.specs.Option.{option_copied};
ghost use Rattle.arrow_types.specs.Seen.{seen, seen_union};
ghost use Rattle.arrow_types.specs.Select.{last_place, nat_of, select};
ghost use Rattle.arrow_types.specs.Types.{physical_of};
ghost use Rattle.arrow_types.specs.declared.datatype.PhysicalType.TheVariants as physical;
ghost use Rattle.arrow_layout.specs.Forms.{form_of, ids_by};
ghost use Rattle.arrow_layout.specs.WellFormed.{positions};

use arrow_buffers::Buffer;
use arrow_types::{ArrowDataType, Mem, UnionType};
use std::alloc::Global;

/// The position of the field that each type number selects.
pub(crate) fn fields_of_types(
    alloc: Global,
    dtype: &ArrowDataType,
    types: &Buffer<i8>,
) -> Mem<Vec<usize>>
    requires { physical_of (seen dtype.now) ≡ Some physical.Union }
    ensures { IfOk result (λ v. v.items ≡ positions (seen dtype.now) types.now) }
{
    let numbers = types.as_slice();
    let table = field_table(alloc, declared_ids(dtype))?;
    let fields = looked_up(alloc, numbers, table.as_slice())?;
    Ok(fields)
}

/// The ids of a type of unions, if it has any.
fn declared_ids(dtype: &ArrowDataType) -> Option<&[i32]>
    ensures { option_copied result ≡ ids_by (form_of (seen dtype.now)) }
{
    match dtype.to_logical_type() {
        ArrowDataType::Union(union) => ids_of(union.get()),
        _ => None,
    }
}

/// The ids of a union, if it has any.
fn ids_of(union: &UnionType) -> Option<&[i32]>
    ensures { option_copied result ≡ ids_by (form_of (seen_union union.now)) }
{
    match &union.ids {
        Some(ids) => Some(ids.as_slice()),
        None => None,
    }
}

/// The position of the field that a number selects: with ids the last position at which the number
/// stands among them, and 0 where it stands nowhere; without ids the number itself.
fn selected_field(ids: Option<&[i32]>, number: usize) -> usize
    ensures { result ≡ select (option_copied ids.entry) number }
{
    match ids {
        Some(ids) => last_place(ids, number),
        None => number,
    }
}

/// The last position of the number among the ids, 0 where it stands nowhere.
fn last_place(ids: &[i32], number: usize) -> usize
    ensures { result ≡ last_place 0 0 ids.now (pos number) }
{
    let mut place = 0;
    for (i, id) in ids.iter().enumerate() {
        if is_number(*id, number) {
            place = i;
        }
    }
    place
}

/// Whether the id is the number.
fn is_number(id: i32, number: usize) -> bool
    ensures { IsTrue result ↔ (id ≡ pos number) }
{
    match usize::try_from(id) {
        Ok(id) => id == number,
        Err(_) => false,
    }
}

/// The position of the field that each number below 128 selects.
fn field_table(alloc: Global, ids: Option<&[i32]>) -> Mem<Vec<usize>>
    ensures { IfOk result (λ v.
        v.items ≡ map (select (option_copied ids.entry)) (range_with_len 0 128)) }
{
    let mut table = Vec::new(alloc);
    table.reserve(128)?;
    for number in 0..128 {
        table.push(selected_field(ids, number))?;
    }
    Ok(table)
}

/// What a table of 128 fields has at each type number, where a negative one counts as 0.
fn looked_up(alloc: Global, numbers: &[i8], table: &[usize]) -> Mem<Vec<usize>>
    requires { len table.now ≡ 128 }
    ensures { IfOk result (λ v. (select_field : ℕ → ℕ)
        → table.now ≡ map select_field (range_with_len 0 128)
        → v.items ≡ map select_field (map nat_of numbers.now)) }
{
    let mut fields = Vec::new(alloc);
    fields.reserve(numbers.len())?;
    for number in numbers {
        fields.push(table[small_position(number)])?;
    }
    Ok(fields)
}

/// A type number as a position, 0 where it is negative.
fn small_position(number: &i8) -> usize
    ensures same { result ≡ nat_of number.now }
    ensures small { result < 128 }
{
    match usize::try_from(*number) {
        Ok(position) => position,
        Err(_) => 0,
    }
}
