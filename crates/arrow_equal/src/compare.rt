//! Arrays compared by their slots.
ghost use Rattle.std.specs.Prelude.{◌≡◌, ◌↔◌, ◌+◌, ◌<◌, ◌≤◌, IsTrue};
ghost use Rattle.arrow_flat.specs.Slots.{chosen, items, parts, slots_of};
ghost use Rattle.arrow_layout.specs.Denote.{denote};
ghost use Rattle.arrow_layout.specs.Layouts.{length_of};
ghost use Rattle.arrow_types.specs.Seen.{seen};
ghost use Rattle.arrow_equal.specs.Equal.{AreEqual};
ghost use Rattle.arrow_equal.specs.SlotAt.{slot_at};
ghost use Rattle.arrow_equal.specs.SlotParts.{AllHave, HasParts, IsNullArray, row_at, slot_of, slots_from};

use crate::kinds::{is_bool, is_bytes, is_null, is_number};
use crate::read::parts_at;
use crate::slot_parts::SlotParts;
use arrow_meaning::{ArrayRef, Node};
use arrow_types::ArrowDataType;

/// Whether two arrays have equal types and denote equal slots, whatever their layouts: masks
/// without nulls, what stands under nulls, offsets, keys with their values, shifts and views may
/// differ. Numbers are equal as they are stored. Takes no memory.
///
/// Each slot is compared once, and one of a dictionary's values for each key that names it. Two
/// null arrays, also as the items of lists, are compared by their lengths alone.
pub fn equal(lhs: &ArrayRef, rhs: &ArrayRef) -> bool
    ensures { IsTrue result ↔ AreEqual lhs.now rhs.now }
{
    same_type(lhs.dtype(), rhs.dtype()) && all_same(lhs, rhs)
}

/// Whether two arrays have equal slots.
fn all_same(lhs: &ArrayRef, rhs: &ArrayRef) -> bool
    ensures { IsTrue result ↔ (denote lhs.now ≡ denote rhs.now) }
{
    lhs.invariant();
    rhs.invariant();
    lhs.len() == rhs.len() && ranges_same(lhs, 0, rhs, 0, lhs.len())
}

/// Whether two types are equal in all their parts.
pub(crate) fn same_type(lhs: &ArrowDataType, rhs: &ArrowDataType) -> bool
    ensures { IsTrue result ↔ (seen lhs.now ≡ seen rhs.now) }
{
    *lhs == *rhs
}

/// Whether a slot of an array is a slot of another array, of any type. Numbers are equal as they
/// are stored, a null of a dictionary's key is its values' null, and the names of fields and of
/// types play no part. Takes no memory.
#[cycle(same)]
pub fn slots_same(lhs: &ArrayRef, i: usize, rhs: &ArrayRef, j: usize) -> bool
    requires within { i < length_of lhs.now }
    requires other_within { j < length_of rhs.now }
    ensures { IsTrue result ↔ (slot_at lhs.now i ≡ slot_at rhs.now j) }
{
    same_parts(parts_at(lhs, i), parts_at(rhs, j))
}

/// Whether two slots are equal.
#[cycle(same)]
pub(crate) fn same_parts(lhs: SlotParts<'_>, rhs: SlotParts<'_>) -> bool
    requires has { HasParts lhs }
    requires other_has { HasParts rhs }
    ensures { IsTrue result ↔ (slot_of lhs.entry ≡ slot_of rhs.entry) }
{
    match lhs {
        SlotParts::Null => is_null(rhs),
        SlotParts::Bool(bit) => is_bool(bit, rhs),
        SlotParts::Number(numbers) => is_number(numbers, rhs),
        SlotParts::Bytes(bytes) => is_bytes(bytes, rhs),
        SlotParts::Items(child, start, length) => is_items(child, start, length, rhs),
        SlotParts::Row(children, i) => is_row(children, i, rhs),
        SlotParts::Chosen(number, child, i) => is_chosen(number, child, i, rhs),
    }
}

/// Whether the slot is the list of these items.
#[cycle(same)]
fn is_items(child: &ArrayRef, start: usize, length: usize, other: SlotParts<'_>) -> bool
    requires has { start + length ≤ length_of child.now }
    requires other_has { HasParts other }
    ensures { IsTrue result ↔ (items (slots_of (slots_from child.now start length)) ≡ slot_of other.entry) }
{
    match other {
        SlotParts::Items(other_child, other_start, other_length) => {
            child.invariant();
            other_child.invariant();
            length == other_length && ranges_same(child, start, other_child, other_start, length)
        }
        _ => false,
    }
}

/// Whether the slot is the row of these parts.
#[cycle(same)]
fn is_row(children: &[ArrayRef], i: usize, other: SlotParts<'_>) -> bool
    requires has { AllHave i children.now }
    requires other_has { HasParts other }
    ensures { IsTrue result ↔ (parts (slots_of (row_at i children.now)) ≡ slot_of other.entry) }
{
    match other {
        SlotParts::Row(other_children, j) => rows_same(children, i, other_children, j),
        _ => false,
    }
}

/// Whether the slot has the type number and the value of a child's slot.
#[cycle(same)]
fn is_chosen(number: u8, child: &ArrayRef, i: usize, other: SlotParts<'_>) -> bool
    requires has { i < length_of child.now }
    requires other_has { HasParts other }
    ensures { IsTrue result ↔ (chosen number (slot_at child.now i) ≡ slot_of other.entry) }
{
    match other {
        SlotParts::Chosen(other_number, other_child, j) => {
            number == other_number && slots_same(child, i, other_child, j)
        }
        _ => false,
    }
}

/// Whether n slots of two arrays are equal, each from a position on.
#[cycle(same)]
fn ranges_same(
    lhs: &ArrayRef,
    start: usize,
    rhs: &ArrayRef,
    other_start: usize,
    length: usize,
) -> bool
    requires within { start + length ≤ length_of lhs.now }
    requires other_within { other_start + length ≤ length_of rhs.now }
    ensures { IsTrue result
        ↔ (slots_from lhs.now start length ≡ slots_from rhs.now other_start length) }
{
    lhs.invariant();
    rhs.invariant();
    if are_null_arrays(lhs, rhs) {
        return true;
    }
    let _slots = lhs.len();
    let _other_slots = rhs.len();
    for i in 0..length {
        if !slots_same(lhs, start + i, rhs, other_start + i) {
            return false;
        }
    }
    true
}

/// Whether two rows are equal, of the slot at one position of each child.
#[cycle(same)]
fn rows_same(lhs: &[ArrayRef], i: usize, rhs: &[ArrayRef], j: usize) -> bool
    requires within { AllHave i lhs.now }
    requires other_within { AllHave j rhs.now }
    ensures { IsTrue result ↔ (row_at i lhs.now ≡ row_at j rhs.now) }
{
    if lhs.len() != rhs.len() {
        return false;
    }
    for k in 0..lhs.len() {
        if !slots_same(&lhs[k], i, &rhs[k], j) {
            return false;
        }
    }
    true
}

/// Whether both arrays are of nulls alone.
fn are_null_arrays(lhs: &ArrayRef, rhs: &ArrayRef) -> bool
    ensures { IsTrue result → IsNullArray lhs.now × IsNullArray rhs.now }
{
    is_null_array(lhs) && is_null_array(rhs)
}

/// Whether the array is one of nulls alone.
fn is_null_array(array: &ArrayRef) -> bool
    ensures { IsTrue result → IsNullArray array.now }
{
    match array.node() {
        Node::Null { .. } => true,
        _ => false,
    }
}
