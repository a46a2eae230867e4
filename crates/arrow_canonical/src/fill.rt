//! Fillings: what a canonical array has in its children where it has no slot to show.
ghost use Rattle.std.specs.Prelude.{◌≡◌, ◌↔◌, ◌+◌, ◌*◌, ◌<◌, ◌≤◌, false, IfOk, IsTrue, Some, length as count};
ghost use Rattle.std.specs.Option.{option_copied};
ghost use Rattle.arrow_flat.specs.Primitives.{MaskHasLength};
ghost use Rattle.arrow_layout.specs.Layouts.{length_of, type_of};
ghost use Rattle.arrow_layout.specs.SlotsOf.{fill};
ghost use Rattle.arrow_types.specs.Seen.{seen};
ghost use Rattle.arrow_equal.specs.SlotAt.{slot_at};
ghost use Rattle.arrow_equal.specs.SlotParts.{IsNullArray};
ghost use Rattle.arrow_canonical.specs.Filled.{AreFilled, IsFilledAt, NullsAreFilled, OthersAreFilled};
ghost use Rattle.std.specs.Prelude.{get_or, nat_eq};

use arrow_buffers::Bitmap;
use arrow_equal::slots_same;
use arrow_meaning::{ArrayRef, Node, new_null_array};
use arrow_types::{ArrowDataType, Mem};
use std::alloc::{AllocError, Global};

/// Whether under each null of a mask the `size` slots of the child that belong to it are fillings.
/// No slot of a null array is walked.
pub(crate) fn nulls_are_filled(
    alloc: Global,
    validity: Option<&Bitmap>,
    child: &ArrayRef,
    size: usize,
    length: usize,
) -> Mem<bool>
    requires mask { MaskHasLength (option_copied validity) length }
    requires within { length * size ≤ length_of child.now }
    ensures { IfOk result (λ b. IsTrue b
        ↔ NullsAreFilled (option_copied validity.entry) size length child.now) }
{
    match validity {
        None => Ok(true),
        Some(bits) => unset_are_filled(alloc, bits, child, size),
    }
}

/// The same by the bits of a mask.
fn unset_are_filled(alloc: Global, bits: &Bitmap, child: &ArrayRef, size: usize) -> Mem<bool>
    requires { count bits.now.bits * size ≤ length_of child.now }
    ensures { let n = count bits.now.bits in
        IfOk result (λ b. IsTrue b ↔ NullsAreFilled (Some bits.now) size n child.now) }
{
    child.invariant();
    if is_null_array(child) {
        return Ok(true);
    }
    let filling = filling(alloc, child.dtype())?;
    let are_filled = unset_are_like(bits, child, &filling, size);
    drop(filling);
    Ok(are_filled)
}

/// The same, given an array whose first slot is the filling.
fn unset_are_like(bits: &Bitmap, child: &ArrayRef, filling: &ArrayRef, size: usize) -> bool
    requires within { count bits.now.bits * size ≤ length_of child.now }
    requires some { 0 < length_of filling.now }
    requires filling { slot_at filling.now 0 ≡ fill (type_of child.now) }
    ensures { let n = count bits.now.bits in
        IsTrue result ↔ NullsAreFilled (Some bits.now) size n child.now }
{
    for i in 0..bits.len() {
        if !is_set_or_like(bits, child, filling, size, i) {
            return false;
        }
    }
    true
}

/// Whether the bit is set, or the slots of the child that belong to it are like the filling.
fn is_set_or_like(
    bits: &Bitmap,
    child: &ArrayRef,
    filling: &ArrayRef,
    size: usize,
    i: usize,
) -> bool
    requires bit { i < count bits.now.bits }
    requires within { i * size + size ≤ length_of child.now }
    requires some { 0 < length_of filling.now }
    requires filling { slot_at filling.now 0 ≡ fill (type_of child.now) }
    ensures { IsTrue result ↔ (get_or bits.now.bits i false ≡ false
        → AreFilled child.now (i * size) size) }
{
    let _slots = child.len();
    bits.get_bit(i) || are_like(child, filling, i * size, size)
}

/// Whether n slots from a position on are like the filling.
fn are_like(child: &ArrayRef, filling: &ArrayRef, start: usize, length: usize) -> bool
    requires within { start + length ≤ length_of child.now }
    requires some { 0 < length_of filling.now }
    requires filling { slot_at filling.now 0 ≡ fill (type_of child.now) }
    ensures { IsTrue result ↔ AreFilled child.now start length }
{
    let _slots = child.len();
    for i in 0..length {
        if !is_like(child, filling, start + i) {
            return false;
        }
    }
    true
}

/// Whether the slot is like the filling.
fn is_like(child: &ArrayRef, filling: &ArrayRef, i: usize) -> bool
    requires within { i < length_of child.now }
    requires some { 0 < length_of filling.now }
    requires filling { slot_at filling.now 0 ≡ fill (type_of child.now) }
    ensures { IsTrue result ↔ IsFilledAt child.now i }
{
    slots_same(child, i, filling, 0)
}

/// Whether the child of field j of a sparse union is a filling at each slot that selects another
/// field. No slot of a null array is walked.
pub(crate) fn others_are_filled(
    alloc: Global,
    fields: &[usize],
    j: usize,
    child: &ArrayRef,
) -> Mem<bool>
    requires { count fields.now ≤ length_of child.now }
    ensures { IfOk result (λ b. IsTrue b ↔ OthersAreFilled fields.now j child.now) }
{
    child.invariant();
    if is_null_array(child) {
        return Ok(true);
    }
    let filling = filling(alloc, child.dtype())?;
    let are_filled = others_are_like(fields, j, child, &filling);
    drop(filling);
    Ok(are_filled)
}

/// The same, given an array whose first slot is the filling.
fn others_are_like(fields: &[usize], j: usize, child: &ArrayRef, filling: &ArrayRef) -> bool
    requires within { count fields.now ≤ length_of child.now }
    requires some { 0 < length_of filling.now }
    requires filling { slot_at filling.now 0 ≡ fill (type_of child.now) }
    ensures { IsTrue result ↔ OthersAreFilled fields.now j child.now }
{
    for i in 0..fields.len() {
        if !is_selected_or_like(fields, j, child, filling, i) {
            return false;
        }
    }
    true
}

/// Whether the slot selects field j, or the child's slot there is like the filling.
fn is_selected_or_like(
    fields: &[usize],
    j: usize,
    child: &ArrayRef,
    filling: &ArrayRef,
    i: usize,
) -> bool
    requires slot { i < count fields.now }
    requires within { i < length_of child.now }
    requires some { 0 < length_of filling.now }
    requires filling { slot_at filling.now 0 ≡ fill (type_of child.now) }
    ensures { IsTrue result ↔ (nat_eq (get_or fields.now i 0) j ≡ false
        → IsFilledAt child.now i) }
{
    fields[i] == j || is_like(child, filling, i)
}

/// Whether the array is one of nulls alone.
fn is_null_array(array: &ArrayRef) -> bool
    ensures { IsTrue result → IsNullArray array.now }
{
    match array.node() {
        Node::Null { .. } => true,
        _ => false,
    }
}

/// An array whose first slot is the filling of the type.
fn filling(alloc: Global, dtype: &ArrowDataType) -> Mem<ArrayRef>
    ensures some { IfOk result (λ a. 0 < length_of a) }
    ensures filling { IfOk result (λ a. slot_at a 0 ≡ fill (seen dtype.now)) }
{
    match new_null_array(alloc, dtype.try_clone(alloc)?, 1) {
        Ok(array) => Ok(array),
        Err(_) => Err(AllocError),
    }
}
