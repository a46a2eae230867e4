//! Arrays by views to JSON values.
ghost use Rattle.std.specs.Prelude.{◌≡◌, ◌<◌, ◌≤◌, [], ◌∷◌, length as count, map, pos, IfOk};
ghost use Rattle.serde_json.specs.View.{view};
ghost use Rattle.arrow_flat.specs.Natives.{octets};
ghost use Rattle.arrow_flat.specs.Views.{view_length};
ghost use Rattle.arrow_meaning.specs.Nodes.{view_layout};
ghost use Rattle.column_grammar.specs.Values.{bytes_value, integer_value, list_value};
ghost use Rattle.column_grammar.specs.Writes.{view_value, data_value};

use crate::writer::{bytes_json, mask_json};
use arrow_buffers::Buffer;
use arrow_types::Mem;
use arrow_views::{BinaryViewArrayGeneric, View, ViewType};
use serde_json::{Value, json};
use std::alloc::Global;

/// The value of at most twelve bytes that a view holds, without the zeros behind it.
pub(crate) fn held(slot: &View) -> &[u8]
    requires { view_length slot.now ≤ 12 }
    ensures value { bytes_value (octets result.now) ≡ view_value slot.now }
    ensures few { count result.now ≤ 12 }
{
    let length = slot.length() as usize;
    let value = &slot.as_bytes()[4..4 + length];
    value
}

fn inline_json(alloc: Global, slot: &View) -> Mem<Value>
    requires { view_length slot.now ≤ 12 }
    ensures { IfOk result (λ v. view v ≡ view_value slot.now) }
{
    bytes_json(alloc, held(slot))
}

/// How long a value is, which buffer holds it, and where it begins there.
fn place_json(alloc: Global, length: u32, buffer: u32, offset: u32) -> Mem<Value>
    ensures { IfOk result (λ v. view v ≡ list_value (integer_value (pos length)
        ∷ integer_value (pos buffer)
        ∷ integer_value (pos offset)
        ∷ [])) }
{
    json!(in alloc; [length, buffer, offset])
}

/// The place of a value of more than twelve bytes.
fn long_json(alloc: Global, slot: &View) -> Mem<Value>
    requires { 12 < view_length slot.now }
    ensures { IfOk result (λ v. view v ≡ view_value slot.now) }
{
    place_json(alloc, slot.length(), slot.buffer(), slot.offset())
}

fn slot_json(alloc: Global, slot: &View) -> Mem<Value>
    ensures { IfOk result (λ v. view v ≡ view_value slot.now) }
{
    if slot.length() <= 12 {
        inline_json(alloc, slot)
    } else {
        long_json(alloc, slot)
    }
}

fn slots_json(alloc: Global, slots: &[View]) -> Mem<Value>
    ensures { IfOk result (λ v. view v ≡ list_value (map view_value slots.now)) }
{
    let mut list = Vec::with_capacity(alloc, slots.len())?;
    for slot in slots {
        list.push(slot_json(alloc, slot)?)?;
    }
    Ok(Value::Array(list))
}

fn buffers_json(alloc: Global, buffers: &[Buffer<u8>]) -> Mem<Value>
    ensures { IfOk result (λ v. view v ≡ list_value (map bytes_value (map octets buffers.now))) }
{
    let mut list = Vec::with_capacity(alloc, buffers.len())?;
    for buffer in buffers {
        list.push(bytes_json(alloc, buffer.as_slice())?)?;
    }
    Ok(Value::Array(list))
}

/// The data of views: `{"buffers":[hex..],"mask":M,"views":[w..]}`, each view as the hexadecimal
/// text of its value, or as `[length,buffer,offset]` where the value has more than twelve bytes.
pub fn view_json<T: ViewType>(alloc: Global, array: &BinaryViewArrayGeneric<T>) -> Mem<Value>
    ensures { IfOk result (λ v. view v ≡ data_value (view_layout array.now)) }
{
    json!(in alloc; {
        "buffers": buffers_json(alloc, array.data_buffers())?,
        "mask": mask_json(alloc, array.validity())?,
        "views": slots_json(alloc, array.views().as_slice())?,
    })
}
