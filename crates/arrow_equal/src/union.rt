//! Where the value of each slot of a union stands.
ghost use Rattle.std.specs.Prelude.{◌≡◌, ◌↔◌, ◌+◌, ◌^◌, ◌<◌, pos, IfSome, IsTrue, Some, get_or, length as count, slice_get};
ghost use Rattle.std.specs.Option.{option_copied};
ghost use Rattle.arrow_choice.specs.Unions.{IsUnionType, NamesSlot, indices, slot_by};
ghost use Rattle.arrow_layout.specs.Forms.{form_of, ids_by};
ghost use Rattle.arrow_layout.specs.Layouts.{length_of};
ghost use Rattle.arrow_layout.specs.Paths.{children_of};
ghost use Rattle.arrow_meaning.specs.Nodes.{IsStoredAs};
ghost use Rattle.arrow_types.specs.Seen.{seen, seen_union};
ghost use Rattle.arrow_types.specs.Select.{last_place, nat_of, select};
ghost use Rattle.arrow_types.specs.declared.datatype.PhysicalType.TheVariants as physical;

use arrow_buffers::Buffer;
use arrow_meaning::{ArrayRef, Node};
use arrow_types::{ArrowDataType, UnionType};

/// The position of the child that a slot of a union selects, and the slot there.
pub(crate) fn index_of(array: &ArrayRef, i: usize) -> (usize, usize)
    requires within { i < length_of array.now }
    requires union { IsStoredAs physical.Union array.now }
    ensures index { slice_get (indices array.now) i ≡ Some result }
    ensures within { NamesSlot (children_of array.now) result }
{
    match array.node() {
        Node::Union {
            types,
            offsets,
            shift,
            ..
        } => {
            let field = selected_field(array.dtype(), types.as_slice(), i);
            (field, child_slot(offsets, *shift, i))
        }
        _ => unreachable!(),
    }
}

/// The slot of the child that a slot reads: at its offset, and without offsets at its own position,
/// from a shift on.
fn child_slot(offsets: &Option<Buffer<i32>>, shift: usize, i: usize) -> usize
    requires covered { IfSome offsets.now (λ os. i < count os) }
    requires small { i + shift < 2 ^ 64 }
    ensures { result ≡ slot_by offsets.now shift i }
{
    match offsets {
        Some(offsets) => position(offsets.as_slice()[i]),
        None => i + shift,
    }
}

/// The position of the field that the type number of a slot selects.
fn selected_field(dtype: &ArrowDataType, types: &[i8], i: usize) -> usize
    requires union { IsUnionType (seen dtype.now) }
    requires within { i < count types.now }
    ensures { result
        ≡ select (ids_by (form_of (seen dtype.now))) (nat_of (get_or types.now i (pos 0))) }
{
    select_field(dtype, types[i])
}

/// The position of the field that a type number selects: with ids the last position at which the
/// number stands among them, and 0 where it stands nowhere; without ids the number itself.
fn select_field(dtype: &ArrowDataType, number: i8) -> usize
    requires { IsUnionType (seen dtype.now) }
    ensures { result ≡ select (ids_by (form_of (seen dtype.now))) (nat_of number) }
{
    let number = position(i32::from(number));
    match declared_ids(dtype) {
        Some(ids) => last_place(ids, number),
        None => number,
    }
}

/// What a type of unions declares, through extensions.
fn declared_union(dtype: &ArrowDataType) -> &UnionType
    requires { IsUnionType (seen dtype.now) }
    ensures { form_of (seen dtype.now) ≡ form_of (seen_union result.now) }
{
    match dtype.to_logical_type() {
        ArrowDataType::Union(union) => union.get(),
        _ => unreachable!(),
    }
}

/// The ids of a type of unions, if it has any.
fn declared_ids(dtype: &ArrowDataType) -> Option<&[i32]>
    requires { IsUnionType (seen dtype.now) }
    ensures { option_copied result ≡ ids_by (form_of (seen dtype.now)) }
{
    match &declared_union(dtype).ids {
        Some(ids) => Some(ids.as_slice()),
        None => None,
    }
}

/// The last position of the number among the ids, 0 where it stands nowhere.
fn last_place(ids: &[i32], number: usize) -> usize
    ensures { result ≡ last_place 0 0 ids.now (pos number) }
{
    let mut place = 0;
    for (i, id) in ids.iter().enumerate() {
        if is_number(*id, number) {
            place = i;
        }
    }
    place
}

/// Whether the id is the number.
fn is_number(id: i32, number: usize) -> bool
    ensures { IsTrue result ↔ (id ≡ pos number) }
{
    match usize::try_from(id) {
        Ok(id) => id == number,
        Err(_) => false,
    }
}

/// A number as a position, 0 where it is negative.
fn position(number: i32) -> usize
    ensures { result ≡ nat_of number }
{
    match usize::try_from(number) {
        Ok(position) => position,
        Err(_) => 0,
    }
}
