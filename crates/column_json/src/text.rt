//! The data of columns as JSON text, token by token: no value of JSON is made.
ghost use Rattle.std.specs.Prelude.{◌≤◌, ◌<◌, [], ◌∷◌, length as count, map, pos, ◌≤ℤ◌, OnOk};
ghost use Rattle.std.specs.Option.{option_copied};
ghost use Rattle.arrow_flat.specs.Natives.{octets};
ghost use Rattle.arrow_flat.specs.Views.{view_length};
ghost use Rattle.arrow_meaning.specs.Nodes.{boolean_layout, primitive_layout, binary_layout, fixed_size_binary_layout, view_layout, primitive_node_layout};
ghost use Rattle.column_grammar.specs.Values.{bits_value, mask_value, bytes_value, integer_value, list_value, number_value};
ghost use Rattle.column_grammar.specs.Writes.{primitives_value, binaries_value, view_value, data_value};
ghost use Rattle.column_json.specs.Puts.{Puts};

use crate::native::JsonNative;
use crate::view::held;
use crate::writer::{bits_text, bytes_text};
use arrow_buffers::{Bitmap, Buffer, Offset, OffsetsBuffer};
use arrow_bytes::{FixedSizeBinaryArray, OffsetArray};
use arrow_flat::{BooleanArray, PrimitiveArray, ViewType};
use arrow_meaning::PrimitiveNode;
use arrow_types::Mem;
use arrow_views::{BinaryViewArrayGeneric, View};
use json::Writer;
use std::alloc::Global;

fn put_bits(alloc: Global, out: &mut Writer, bits: &Bitmap) -> Mem<()>
    ensures { OnOk result (Puts out.old out.new (bits_value bits.now)) }
{
    let text = bits_text(alloc, bits)?;
    out.string(text.as_str())
}

/// The bits of a mask, null where there is none.
pub(crate) fn put_mask(alloc: Global, out: &mut Writer, mask: Option<&Bitmap>) -> Mem<()>
    ensures { OnOk result (Puts out.old out.new (mask_value (option_copied mask.entry))) }
{
    match mask {
        None => out.null(),
        Some(mask) => put_bits(alloc, out, mask),
    }
}

/// At most sixteen bytes as hexadecimal text.
pub(crate) fn put_few(out: &mut Writer, bytes: &[u8]) -> Mem<()>
    requires { count bytes.now ≤ 16 }
    ensures { OnOk result (Puts out.old out.new (bytes_value (octets bytes.now))) }
{
    let mut digits = [0; 32];
    let digits = &mut digits[..2 * bytes.len()];
    if hex::encode_to_slice(bytes, digits).is_err() {
        unreachable!();
    }
    match str::from_utf8(digits) {
        Ok(text) => out.string(text),
        Err(_) => unreachable!(),
    }
}

/// Bytes as hexadecimal text.
fn put_bytes(alloc: Global, out: &mut Writer, bytes: &[u8]) -> Mem<()>
    ensures { OnOk result (Puts out.old out.new (bytes_value (octets bytes.now))) }
{
    let text = bytes_text(alloc, bytes)?;
    out.string(text.as_str())
}

fn put_offset<O: Offset>(out: &mut Writer, offset: O) -> Mem<()>
    requires { pos 0 ≤ℤ O.number offset }
    ensures { OnOk result (Puts out.old out.new (integer_value (O.number offset))) }
{
    out.u64(offset.to_usize() as u64)
}

/// Offsets as they stand.
pub(crate) fn put_offsets<O: Offset>(out: &mut Writer, offsets: &OffsetsBuffer<O>) -> Mem<()>
    ensures { OnOk result (Puts out.old out.new
        (list_value (map integer_value (map O.number offsets.now)))) }
{
    let items = offsets.as_slice();
    out.begin_array()?;
    for offset in items {
        put_offset(out, *offset)?;
    }
    out.end_array()
}

/// The data of an array of bits: `{"mask":M,"values":bits}`.
pub(crate) fn put_boolean(alloc: Global, out: &mut Writer, array: &BooleanArray) -> Mem<()>
    ensures { OnOk result (Puts out.old out.new (data_value (boolean_layout array.now))) }
{
    out.begin_object()?;
    out.key("mask")?;
    put_mask(alloc, out, array.validity())?;
    out.key("values")?;
    put_bits(alloc, out, array.values())?;
    out.end_object()
}

pub(crate) fn put_values<T: JsonNative>(out: &mut Writer, values: &[T]) -> Mem<()>
    ensures { OnOk result (Puts out.old out.new
        (list_value (map (number_value T.PRIMITIVE) (map T.parts values.now)))) }
{
    out.begin_array()?;
    for value in values {
        T::put(out, *value)?;
    }
    out.end_array()
}

fn put_numbers<T: JsonNative>(alloc: Global, out: &mut Writer, array: &PrimitiveArray<T>) -> Mem<()>
    ensures { OnOk result (Puts out.old out.new
        (primitives_value T.PRIMITIVE array.now.mask (map T.parts array.now.values))) }
{
    out.begin_object()?;
    out.key("mask")?;
    put_mask(alloc, out, array.validity())?;
    out.key("values")?;
    put_values(out, array.values().as_slice())?;
    out.end_object()
}

/// The data of a primitive array: `{"mask":M,"values":[v..]}`.
fn put_primitive<T: JsonNative>(
    alloc: Global,
    out: &mut Writer,
    array: &PrimitiveArray<T>,
) -> Mem<()>
    ensures { OnOk result (Puts out.old out.new (data_value (primitive_layout T.parts array.now))) }
{
    array.invariant();
    put_numbers(alloc, out, array)
}

/// The data of binary values or strings: `{"bytes":hex,"mask":M,"offsets":[n..]}`, with all bytes
/// and each offset as it stands.
pub(crate) fn put_binary<K: ViewType, O: Offset>(
    alloc: Global,
    out: &mut Writer,
    array: &OffsetArray<K, O>,
) -> Mem<()>
    ensures { OnOk result (Puts out.old out.new (data_value (binary_layout O.number array.now))) }
{
    out.begin_object()?;
    out.key("bytes")?;
    put_bytes(alloc, out, array.values().as_slice())?;
    out.key("mask")?;
    put_mask(alloc, out, array.validity())?;
    out.key("offsets")?;
    put_offsets(out, array.offsets())?;
    out.end_object()
}

/// The data of binary values of one size: `{"bytes":hex,"mask":M}`.
pub(crate) fn put_fixed_size_binary(
    alloc: Global,
    out: &mut Writer,
    array: &FixedSizeBinaryArray,
) -> Mem<()>
    ensures { OnOk result (Puts out.old out.new
        (data_value (fixed_size_binary_layout array.now))) }
{
    out.begin_object()?;
    out.key("bytes")?;
    put_bytes(alloc, out, array.values().as_slice())?;
    out.key("mask")?;
    put_mask(alloc, out, array.validity())?;
    out.end_object()
}

fn put_buffers(alloc: Global, out: &mut Writer, buffers: &[Buffer<u8>]) -> Mem<()>
    ensures { OnOk result (Puts out.old out.new
        (list_value (map bytes_value (map octets buffers.now)))) }
{
    out.begin_array()?;
    for buffer in buffers {
        put_bytes(alloc, out, buffer.as_slice())?;
    }
    out.end_array()
}

/// How long a value is, which buffer holds it, and where it begins there.
fn put_place(out: &mut Writer, length: u32, buffer: u32, offset: u32) -> Mem<()>
    ensures { OnOk result (Puts out.old out.new (list_value (integer_value (pos length)
        ∷ integer_value (pos buffer)
        ∷ integer_value (pos offset)
        ∷ []))) }
{
    out.begin_array()?;
    out.u64(u64::from(length))?;
    out.u64(u64::from(buffer))?;
    out.u64(u64::from(offset))?;
    out.end_array()
}

/// The place of a value of more than twelve bytes.
fn put_long(out: &mut Writer, slot: &View) -> Mem<()>
    requires { 12 < view_length slot.now }
    ensures { OnOk result (Puts out.old out.new (view_value slot.now)) }
{
    put_place(out, slot.length(), slot.buffer(), slot.offset())
}

fn put_inline(out: &mut Writer, slot: &View) -> Mem<()>
    requires { view_length slot.now ≤ 12 }
    ensures { OnOk result (Puts out.old out.new (view_value slot.now)) }
{
    put_few(out, held(slot))
}

fn put_slot(out: &mut Writer, slot: &View) -> Mem<()>
    ensures { OnOk result (Puts out.old out.new (view_value slot.now)) }
{
    if slot.length() <= 12 {
        put_inline(out, slot)
    } else {
        put_long(out, slot)
    }
}

fn put_slots(out: &mut Writer, slots: &[View]) -> Mem<()>
    ensures { OnOk result (Puts out.old out.new (list_value (map view_value slots.now))) }
{
    out.begin_array()?;
    for slot in slots {
        put_slot(out, slot)?;
    }
    out.end_array()
}

/// The data of views: `{"buffers":[hex..],"mask":M,"views":[w..]}`, each view as the hexadecimal
/// text of its value, or as `[length,buffer,offset]` where the value has more than twelve bytes.
pub(crate) fn put_view<T: ViewType>(
    alloc: Global,
    out: &mut Writer,
    array: &BinaryViewArrayGeneric<T>,
) -> Mem<()>
    ensures { OnOk result (Puts out.old out.new (data_value (view_layout array.now))) }
{
    out.begin_object()?;
    out.key("buffers")?;
    put_buffers(alloc, out, array.data_buffers())?;
    out.key("mask")?;
    put_mask(alloc, out, array.validity())?;
    out.key("views")?;
    put_slots(out, array.views().as_slice())?;
    out.end_object()
}

/// The data of an array of any native type.
pub(crate) fn put_numbers_node(alloc: Global, out: &mut Writer, node: &PrimitiveNode) -> Mem<()>
    ensures { OnOk result (Puts out.old out.new (data_value (primitive_node_layout node.now))) }
{
    match node {
        PrimitiveNode::Int8(array) => put_primitive(alloc, out, array),
        PrimitiveNode::Int16(array) => put_primitive(alloc, out, array),
        PrimitiveNode::Int32(array) => put_primitive(alloc, out, array),
        PrimitiveNode::Int64(array) => put_primitive(alloc, out, array),
        PrimitiveNode::Int128(array) => put_primitive(alloc, out, array),
        PrimitiveNode::UInt8(array) => put_primitive(alloc, out, array),
        PrimitiveNode::UInt16(array) => put_primitive(alloc, out, array),
        PrimitiveNode::UInt32(array) => put_primitive(alloc, out, array),
        PrimitiveNode::UInt64(array) => put_primitive(alloc, out, array),
        PrimitiveNode::DaysMs(array) => put_primitive(alloc, out, array),
        PrimitiveNode::MonthDayNano(array) => put_primitive(alloc, out, array),
    }
}
