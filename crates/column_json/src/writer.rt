//! Columns to JSON values and text.
ghost use Rattle.std.specs.Prelude.{◌≡◌, [], ◌∷◌, ◌++◌, map, pos, ◌≤ℤ◌, string_bytes, Some, IfOk, OnOk};
ghost use Rattle.serde_json.specs.View.{view};
ghost use Rattle.json.specs.Print.{print};
ghost use Rattle.hex.specs.Hex.{encode_lower};
ghost use Rattle.arrow_buffers.specs.Bits.{Bits};
ghost use Rattle.arrow_flat.specs.Natives.{octets};
ghost use Rattle.std.specs.Option.{option_copied};
ghost use Rattle.arrow_layout.specs.OfValues.{IsOfValues};
ghost use Rattle.arrow_meaning.specs.Nodes.{boolean_layout, primitive_layout, binary_layout, fixed_size_binary_layout, primitive_node_layout, layout_of};
ghost use Rattle.column_grammar.specs.Values.{bit_char, bits_value, mask_value, bytes_value, integer_value, list_value, number_value};
ghost use Rattle.column_grammar.specs.Writes.{primitives_value, binaries_value, data_value, column_value, column_text};
ghost use Rattle.column_json.specs.Puts.{column_start};

use crate::native::JsonNative;
use crate::nested::put_data;
use crate::view::view_json;
use arrow_buffers::{Bitmap, Offset, OffsetsBuffer};
use arrow_bytes::{FixedSizeBinaryArray, OffsetArray};
use arrow_flat::{BooleanArray, PrimitiveArray, ViewType};
use arrow_meaning::{ArrayRef, Node, PrimitiveNode};
use arrow_types::Mem;
use json::Writer;
use serde_json::{Value, json};
use std::alloc::Global;
use type_json::type_json;

/// The character of a bit.
fn bit_text(bit: bool) -> &'static str
    ensures { result.now ≡ bit_char bit ∷ [] }
{
    if bit { "1" } else { "0" }
}

/// Bits in slot order, as a text of `0` and `1`.
pub(crate) fn bits_text(alloc: Global, bits: &Bitmap) -> Mem<String>
    ensures { IfOk result (λ s. string_bytes s ≡ map bit_char bits.now.bits) }
{
    let mut text = String::with_capacity(alloc, bits.len())?;
    for bit in bits.iter() {
        text.push_str(bit_text(bit))?;
    }
    Ok(text)
}

fn bits_json(alloc: Global, bits: &Bitmap) -> Mem<Value>
    ensures { IfOk result (λ v. view v ≡ bits_value bits.now) }
{
    let text = bits_text(alloc, bits)?;
    Ok(Value::String(text))
}

/// The bits of a mask, null where there is none.
pub(crate) fn mask_json(alloc: Global, mask: Option<&Bitmap>) -> Mem<Value>
    ensures { IfOk result (λ v. view v ≡ mask_value (option_copied mask.entry)) }
{
    match mask {
        None => Ok(Value::Null),
        Some(mask) => bits_json(alloc, mask),
    }
}

/// Hexadecimal text in lower case, two digits a byte.
pub(crate) fn bytes_text(alloc: Global, bytes: &[u8]) -> Mem<String>
    ensures { IfOk result (λ s. string_bytes s ≡ encode_lower (octets bytes.now)) }
{
    hex::encode(alloc, bytes)
}

/// Bytes as hexadecimal text.
pub(crate) fn bytes_json(alloc: Global, bytes: &[u8]) -> Mem<Value>
    ensures { IfOk result (λ v. view v ≡ bytes_value (octets bytes.now)) }
{
    let text = bytes_text(alloc, bytes)?;
    Ok(Value::String(text))
}

/// The data of an array of bits: `{"mask":M,"values":bits}`.
pub fn boolean_json(alloc: Global, array: &BooleanArray) -> Mem<Value>
    ensures { IfOk result (λ v. view v ≡ data_value (boolean_layout array.now)) }
{
    json!(in alloc; {
        "mask": mask_json(alloc, array.validity())?,
        "values": bits_json(alloc, array.values())?,
    })
}

fn values_json<T: JsonNative>(alloc: Global, values: &[T]) -> Mem<Value>
    ensures { IfOk result (λ v. view v
        ≡ list_value (map (number_value T.PRIMITIVE) (map T.parts values.now))) }
{
    let mut list = Vec::with_capacity(alloc, values.len())?;
    for value in values {
        list.push(T::write(alloc, *value)?)?;
    }
    Ok(Value::Array(list))
}

fn numbers_json<T: JsonNative>(alloc: Global, array: &PrimitiveArray<T>) -> Mem<Value>
    ensures { IfOk result (λ v. view v
        ≡ primitives_value T.PRIMITIVE array.now.mask (map T.parts array.now.values)) }
{
    json!(in alloc; {
        "mask": mask_json(alloc, array.validity())?,
        "values": values_json(alloc, array.values().as_slice())?,
    })
}

/// The data of a primitive array: `{"mask":M,"values":[v..]}`.
pub fn primitive_json<T: JsonNative>(alloc: Global, array: &PrimitiveArray<T>) -> Mem<Value>
    ensures { IfOk result (λ v. view v ≡ data_value (primitive_layout T.parts array.now)) }
{
    array.invariant();
    numbers_json(alloc, array)
}

fn offset_json<O: Offset>(offset: O) -> Value
    requires { pos 0 ≤ℤ O.number offset }
    ensures { view result ≡ integer_value (O.number offset) }
{
    Value::from(offset.to_usize())
}

fn offsets_json<O: Offset>(alloc: Global, offsets: &OffsetsBuffer<O>) -> Mem<Value>
    ensures { IfOk result (λ v. view v
        ≡ list_value (map integer_value (map O.number offsets.now))) }
{
    let items = offsets.as_slice();
    let mut list = Vec::with_capacity(alloc, items.len())?;
    for offset in items {
        list.push(offset_json(*offset))?;
    }
    Ok(Value::Array(list))
}

fn pieces_json<O: Offset>(
    alloc: Global,
    offsets: &OffsetsBuffer<O>,
    bytes: &[u8],
    mask: Option<&Bitmap>,
) -> Mem<Value>
    ensures { IfOk result (λ v. view v
        ≡ binaries_value (option_copied mask.entry) (map O.number offsets.now) (octets bytes.now)) }
{
    json!(in alloc; {
        "bytes": bytes_json(alloc, bytes)?,
        "mask": mask_json(alloc, mask)?,
        "offsets": offsets_json(alloc, offsets)?,
    })
}

/// The data of binary values or strings: `{"bytes":hex,"mask":M,"offsets":[n..]}`, with all bytes
/// and each offset as it stands.
pub fn binary_json<K: ViewType, O: Offset>(alloc: Global, array: &OffsetArray<K, O>) -> Mem<Value>
    ensures { IfOk result (λ v. view v ≡ data_value (binary_layout O.number array.now)) }
{
    let bytes = array.values().as_slice();
    pieces_json(alloc, array.offsets(), bytes, array.validity())
}

/// The data of binary values of one size: `{"bytes":hex,"mask":M}`.
pub fn fixed_size_binary_json(alloc: Global, array: &FixedSizeBinaryArray) -> Mem<Value>
    ensures { IfOk result (λ v. view v ≡ data_value (fixed_size_binary_layout array.now)) }
{
    json!(in alloc; {
        "bytes": bytes_json(alloc, array.values().as_slice())?,
        "mask": mask_json(alloc, array.validity())?,
    })
}

/// The data of an array of any native type.
fn numbers_node_json(alloc: Global, node: &PrimitiveNode) -> Mem<Value>
    ensures { IfOk result (λ v. view v ≡ data_value (primitive_node_layout node.now)) }
{
    match node {
        PrimitiveNode::Int8(array) => primitive_json(alloc, array),
        PrimitiveNode::Int16(array) => primitive_json(alloc, array),
        PrimitiveNode::Int32(array) => primitive_json(alloc, array),
        PrimitiveNode::Int64(array) => primitive_json(alloc, array),
        PrimitiveNode::Int128(array) => primitive_json(alloc, array),
        PrimitiveNode::UInt8(array) => primitive_json(alloc, array),
        PrimitiveNode::UInt16(array) => primitive_json(alloc, array),
        PrimitiveNode::UInt32(array) => primitive_json(alloc, array),
        PrimitiveNode::UInt64(array) => primitive_json(alloc, array),
        PrimitiveNode::DaysMs(array) => primitive_json(alloc, array),
        PrimitiveNode::MonthDayNano(array) => primitive_json(alloc, array),
    }
}

fn data_json(alloc: Global, array: &ArrayRef) -> Mem<Value>
    requires { IsOfValues array.now }
    ensures { IfOk result (λ v. view v ≡ data_value array.now) }
{
    let node = array.node();
    node_json(alloc, node)
}

/// The data of an array of values.
fn node_json(alloc: Global, node: &Node) -> Mem<Value>
    requires { IsOfValues (layout_of node.now) }
    ensures { IfOk result (λ v. view v ≡ data_value (layout_of node.now)) }
{
    match node {
        Node::Boolean(array) => boolean_json(alloc, array),
        Node::Primitive(numbers) => numbers_node_json(alloc, numbers),
        Node::Binary(array) => binary_json(alloc, array),
        Node::LargeBinary(array) => binary_json(alloc, array),
        Node::Utf8(array) => binary_json(alloc, array),
        Node::LargeUtf8(array) => binary_json(alloc, array),
        Node::FixedSizeBinary(array) => fixed_size_binary_json(alloc, array),
        Node::BinaryView(array) => view_json(alloc, array),
        Node::Utf8View(array) => view_json(alloc, array),
        Node::Null { .. }
        | Node::List { .. }
        | Node::LargeList { .. }
        | Node::Map { .. }
        | Node::FixedSizeList { .. }
        | Node::Struct { .. }
        | Node::Union { .. }
        | Node::Dictionary { .. } => unreachable!(),
    }
}

/// A column of values as a JSON value: `{"data":D,"type":T}`.
pub fn column_json(alloc: Global, array: &ArrayRef) -> Mem<Value>
    requires { IsOfValues array.now }
    ensures { IfOk result (λ v. view v ≡ column_value array.now) }
{
    json!(in alloc; {
        "data": data_json(alloc, array)?,
        "type": type_json(alloc, array.dtype())?,
    })
}

/// The text of a column before that of its type: `{"data":D,"type":`.
fn put_start(alloc: Global, out: &mut Writer, array: &ArrayRef) -> Mem<()>
    ensures tokens { OnOk result (out.new.tokens
        ≡ out.old.tokens ++ column_start (data_value array.now)) }
    ensures before { OnOk result (out.new.before ≡ out.old.before) }
{
    out.begin_object()?;
    out.key("data")?;
    put_data(alloc, out, array)?;
    out.key("type")
}

/// The same as a string.
fn start_text(alloc: Global, array: &ArrayRef) -> Mem<String>
    ensures { IfOk result (λ s. string_bytes s ≡ print (column_start (data_value array.now))) }
{
    let mut out = Writer::new(Vec::new(alloc));
    put_start(alloc, &mut out, array)?;
    match String::from_utf8(out.into_inner()) {
        Ok(text) => Ok(text),
        Err(_) => unreachable!(),
    }
}

/// The compact JSON text of a column of any kind, and a line feed.
pub fn column_text(alloc: Global, array: &ArrayRef) -> Mem<String>
    ensures { IfOk result (λ s. string_bytes s ≡ column_text array.now) }
{
    let spelling = type_json(alloc, array.dtype())?.to_string(alloc)?;
    let mut text = start_text(alloc, array)?;
    text.push_str(spelling.as_str())?;
    text.push_str("}\n")?;
    Ok(text)
}
