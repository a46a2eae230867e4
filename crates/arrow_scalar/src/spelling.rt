//! The bytes that spell a slot: a tag for its kind, and its parts.
ghost use Rattle.std.specs.Prelude.{◌≡◌, ◌+◌, ◌-◌, ◌^◌, ◌<◌, ◌≤◌, true, IfOk, OnOk, drop, length as count, map, min, take};
ghost use Rattle.arrow_flat.specs.Slots.{chosen, items, parts, slots_of};
ghost use Rattle.arrow_layout.specs.Denote.{denote};
ghost use Rattle.arrow_layout.specs.Layouts.{length_of};
ghost use Rattle.arrow_layout.specs.Masks.{valid_in};
ghost use Rattle.arrow_layout.specs.Spelling.{slot_bytes};
ghost use Rattle.arrow_scalar.specs.SlotParts.{AllHave};
ghost use Rattle.arrow_scalar.specs.Spellings.{slot_at, spellings};

use crate::slot_parts::{SlotParts, parts_of};
use crate::spelled_value::{push_binary, push_bool, push_numbers};
use crate::spelling_out::{ByteCount, SpellingOut};
use arrow_meaning::{ArrayRef, Node};
use arrow_types::Mem;
use std::alloc::Global;

/// The bytes that spell a slot: a tag for its kind and its parts, with one spelling for each slot
/// of a type and none that begins with another.
///
/// Refused for want of memory alone, also where no Vec can hold the spelling, whose length is
/// summed before anything is built.
pub fn slot_bytes(alloc: Global, array: &ArrayRef, i: usize) -> Mem<Vec<u8>>
    requires { i < length_of array.now }
    ensures { IfOk result (λ v. v.items ≡ slot_bytes (slot_at array.now i)) }
{
    let mut bytes = Vec::with_capacity(alloc, spelling_length(alloc, array, i)?)?;
    spell_slot(alloc, &mut bytes, array, i)?;
    Ok(bytes)
}

/// The count of the bytes that spell a slot, or the greatest `usize` where it passes that.
pub fn spelling_length(alloc: Global, array: &ArrayRef, i: usize) -> Mem<usize>
    requires { i < length_of array.now }
    ensures { IfOk result (λ n. n ≡ min (count (slot_bytes (slot_at array.now i))) (2 ^ 64 - 1)) }
{
    let mut counted = ByteCount::new();
    spell_slot(alloc, &mut counted, array, i)?;
    Ok(counted.get())
}

/// Appends the spelling of a slot.
#[cycle(spell)]
fn spell_slot<W: SpellingOut>(alloc: Global, out: &mut W, array: &ArrayRef, i: usize) -> Mem<()>
    requires { i < length_of array.now }
    ensures { OnOk result (W.Appended out.old (slot_bytes (slot_at array.now i)) out.new) }
{
    array.invariant();
    if array.is_valid(i) {
        spell_valid(alloc, out, array, i)
    } else {
        out.push_byte(0)
    }
}

/// Appends the spelling of a slot that isn't null.
#[cycle(spell)]
fn spell_valid<W: SpellingOut>(alloc: Global, out: &mut W, array: &ArrayRef, i: usize) -> Mem<()>
    requires within { i < length_of array.now }
    requires valid { valid_in array.now i ≡ true }
    ensures { OnOk result (W.Appended out.old (slot_bytes (slot_at array.now i)) out.new) }
{
    let parts = parts_of(alloc, array, i)?;
    match parts {
        SlotParts::Bool(bit) => push_bool(out, bit),
        SlotParts::Number(numbers) => push_numbers(out, numbers, i),
        SlotParts::Bytes(bytes) => push_binary(out, bytes),
        SlotParts::Items(child, start, length) => spell_items(alloc, out, child, start, length),
        SlotParts::Row(children) => spell_row(alloc, out, children, i),
        SlotParts::Named(child, position) => spell_slot(alloc, out, child, position),
        SlotParts::Chosen(number, child, position) => {
            spell_chosen(alloc, out, number, child, position)
        }
    }
}

/// Appends the spelling of a list: its count of items, and each of them.
#[cycle(spell)]
fn spell_items<W: SpellingOut>(
    alloc: Global,
    out: &mut W,
    child: &ArrayRef,
    start: usize,
    length: usize,
) -> Mem<()>
    requires { start + length ≤ length_of child.now }
    ensures { OnOk result (W.Appended out.old
        (slot_bytes (items (slots_of (take length (drop start (denote child.now)))))) out.new) }
{
    out.push_byte(4)?;
    out.push_length(length)?;
    if let Node::Null { .. } = child.node() {
        return out.push_zeros(length);
    }
    spell_each(alloc, out, child, start, length)
}

/// Appends the spellings of slots, one after the other.
#[cycle(spell)]
fn spell_each<W: SpellingOut>(
    alloc: Global,
    out: &mut W,
    array: &ArrayRef,
    start: usize,
    length: usize,
) -> Mem<()>
    requires { start + length ≤ length_of array.now }
    ensures { OnOk result (W.Appended out.old (spellings array.now start length) out.new) }
{
    let _slots = array.len();
    for i in 0..length {
        spell_slot(alloc, out, array, start + i)?;
    }
    Ok(())
}

/// Appends the spelling of a struct: that of the slot of each child.
#[cycle(spell)]
fn spell_row<W: SpellingOut>(alloc: Global, out: &mut W, children: &[ArrayRef], i: usize) -> Mem<()>
    requires { AllHave i children.now }
    ensures { OnOk result (W.Appended out.old
        (slot_bytes (parts (slots_of (map (λ l. slot_at l i) children.now)))) out.new) }
{
    out.push_byte(5)?;
    for child in children {
        spell_slot(alloc, out, child, i)?;
    }
    Ok(())
}

/// Appends the spelling of a union's slot: its type number, and the slot of the child.
#[cycle(spell)]
fn spell_chosen<W: SpellingOut>(
    alloc: Global,
    out: &mut W,
    number: u8,
    child: &ArrayRef,
    position: usize,
) -> Mem<()>
    requires { position < length_of child.now }
    ensures { OnOk result (W.Appended out.old
        (slot_bytes (chosen number (slot_at child.now position))) out.new) }
{
    out.push_byte(6)?;
    out.push_byte(number)?;
    spell_slot(alloc, out, child, position)
}
