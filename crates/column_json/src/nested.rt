//! The data of columns of every kind as JSON text: what stands before the children of an array, and
//! after them, and one recursion over the children.
ghost use Rattle.std.specs.Prelude.{◌≡◌, ◌∷◌, map, codes, OnOk};
ghost use Rattle.std.specs.Option.{option_copied};
ghost use Rattle.json.specs.Token.{end_array};
ghost use Rattle.type_json.specs.TypeJson.{whole_value};
ghost use Rattle.arrow_layout.specs.Denote.{validity_of};
ghost use Rattle.arrow_layout.specs.Layouts.{layouts};
ghost use Rattle.arrow_layout.specs.Paths.{children_of};
ghost use Rattle.arrow_meaning.specs.Nodes.{key_layout, layout_of, primitive_layout};
ghost use Rattle.column_grammar.specs.Values.{integer_value, list_value, mask_value, number_value};
ghost use Rattle.column_grammar.specs.Writes.{data_value, nulls_value, union_offsets_value};
ghost use Rattle.column_json.specs.Children.{child_start, children_start, each_tokens, head_tokens, keys_start, rows_value, tail_tokens, two_tokens};
ghost use Rattle.column_json.specs.Puts.{Grows, Puts};

use crate::native::JsonNative;
use crate::text::{
    put_binary, put_boolean, put_fixed_size_binary, put_mask, put_numbers_node, put_offsets,
    put_values, put_view,
};
use arrow_buffers::{Bitmap, Buffer, Offset, OffsetsBuffer};
use arrow_flat::PrimitiveArray;
use arrow_meaning::{ArrayRef, KeyNode, Node};
use arrow_types::Mem;
use json::Writer;
use std::alloc::Global;
use std::slice;

/// The children of a node, in order: that of a list kind or map, one for each field of a struct or
/// a union, and the values of a dictionary.
fn children(node: &Node) -> &[ArrayRef]
    ensures { layouts result.now ≡ children_of (layout_of node.now) }
{
    match node {
        Node::List { child, .. } => slice::from_ref(child),
        Node::LargeList { child, .. } => slice::from_ref(child),
        Node::Map { child, .. } => slice::from_ref(child),
        Node::FixedSizeList { child, .. } => slice::from_ref(child),
        Node::Dictionary { child, .. } => slice::from_ref(child),
        Node::Struct { children, .. } => children,
        Node::Union { children, .. } => children,
        _ => &[],
    }
}

fn put_length(out: &mut Writer, length: usize) -> Mem<()>
    ensures { OnOk result (Puts out.old out.new (whole_value length)) }
{
    out.u64(length as u64)
}

/// The data of a null array: `{"length":n}`.
fn put_null(out: &mut Writer, length: usize) -> Mem<()>
    ensures { OnOk result (Puts out.old out.new (nulls_value length)) }
{
    out.begin_object()?;
    out.key("length")?;
    put_length(out, length)?;
    out.end_object()
}

fn put_type(out: &mut Writer, number: &i8) -> Mem<()>
    ensures { OnOk result (Puts out.old out.new (integer_value number.now)) }
{
    out.i64(i64::from(*number))
}

/// The type numbers of a union.
fn put_types(out: &mut Writer, types: &[i8]) -> Mem<()>
    ensures { OnOk result (Puts out.old out.new (list_value (map integer_value types.now))) }
{
    out.begin_array()?;
    for number in types {
        put_type(out, number)?;
    }
    out.end_array()
}

fn put_place(out: &mut Writer, offset: &i32) -> Mem<()>
    ensures { OnOk result (Puts out.old out.new (integer_value offset.now)) }
{
    out.i64(i64::from(*offset))
}

fn put_places(out: &mut Writer, offsets: &[i32]) -> Mem<()>
    ensures { OnOk result (Puts out.old out.new (list_value (map integer_value offsets.now))) }
{
    out.begin_array()?;
    for offset in offsets {
        put_place(out, offset)?;
    }
    out.end_array()
}

/// The offsets of a union, null where it has none.
fn put_union_offsets(out: &mut Writer, offsets: &Option<Buffer<i32>>) -> Mem<()>
    ensures { OnOk result (Puts out.old out.new (union_offsets_value offsets.now)) }
{
    match offsets {
        None => out.null(),
        Some(offsets) => put_places(out, offsets.as_slice()),
    }
}

fn put_key_values<T: JsonNative>(out: &mut Writer, array: &PrimitiveArray<T>) -> Mem<()>
    ensures { OnOk result (Puts out.old out.new
        (list_value (map (number_value T.PRIMITIVE) (map T.parts array.now.values)))) }
{
    put_values(out, array.values().as_slice())
}

/// The keys of a dictionary, as values of their type.
fn put_keys<T: JsonNative>(out: &mut Writer, array: &PrimitiveArray<T>) -> Mem<()>
    ensures { OnOk result (Puts out.old out.new (rows_value (primitive_layout T.parts array.now))) }
{
    array.invariant();
    put_key_values(out, array)
}

/// The keys of a dictionary of any type that keys have.
fn put_key_node(out: &mut Writer, keys: &KeyNode) -> Mem<()>
    ensures { OnOk result (Puts out.old out.new (rows_value (key_layout keys.now))) }
{
    match keys {
        KeyNode::Int8(array) => put_keys(out, array),
        KeyNode::Int16(array) => put_keys(out, array),
        KeyNode::Int32(array) => put_keys(out, array),
        KeyNode::Int64(array) => put_keys(out, array),
        KeyNode::Int128(array) => put_keys(out, array),
        KeyNode::UInt8(array) => put_keys(out, array),
        KeyNode::UInt16(array) => put_keys(out, array),
        KeyNode::UInt32(array) => put_keys(out, array),
        KeyNode::UInt64(array) => put_keys(out, array),
    }
}

/// `{"child":`, before the child of a list kind or a map.
fn put_child_start(out: &mut Writer) -> Mem<()>
    ensures { OnOk result (Grows out.old out.new child_start) }
{
    out.begin_object()?;
    out.key("child")
}

/// `{"children":[`, before the children of a struct or a union.
fn put_children_start(out: &mut Writer) -> Mem<()>
    ensures { OnOk result (Grows out.old out.new children_start) }
{
    out.begin_object()?;
    out.key("children")?;
    out.begin_array()
}

/// `{"keys":[v..],"mask":M,"values":`, before the values of a dictionary.
fn put_keys_start(alloc: Global, out: &mut Writer, keys: &KeyNode) -> Mem<()>
    ensures { let l = key_layout keys.now in OnOk result (Grows out.old out.new
        (keys_start (rows_value l) (mask_value (validity_of l)))) }
{
    out.begin_object()?;
    out.key("keys")?;
    put_key_node(out, keys)?;
    out.key("mask")?;
    put_mask(alloc, out, keys.validity())?;
    out.key("values")
}

/// `,"mask":M,"offsets":[n..]}`, after the child of a list or a map.
fn put_list_end<O: Offset>(
    alloc: Global,
    out: &mut Writer,
    mask: Option<&Bitmap>,
    offsets: &OffsetsBuffer<O>,
) -> Mem<()>
    ensures { OnOk result (Grows out.old out.new (two_tokens
        (codes "mask") (mask_value (option_copied mask.entry))
        (codes "offsets") (list_value (map integer_value (map O.number offsets.now))))) }
{
    out.key("mask")?;
    put_mask(alloc, out, mask)?;
    out.key("offsets")?;
    put_offsets(out, offsets)?;
    out.end_object()
}

/// `,"length":n,"mask":M}`, after the child of fixed-size lists or the list of a struct's children.
fn put_length_end(alloc: Global, out: &mut Writer, length: usize, mask: Option<&Bitmap>) -> Mem<()>
    ensures { OnOk result (Grows out.old out.new (two_tokens
        (codes "length") (whole_value length)
        (codes "mask") (mask_value (option_copied mask.entry)))) }
{
    out.key("length")?;
    put_length(out, length)?;
    out.key("mask")?;
    put_mask(alloc, out, mask)?;
    out.end_object()
}

/// `],"length":n,"mask":M}`, after the children of a struct.
fn put_struct_end(alloc: Global, out: &mut Writer, length: usize, mask: Option<&Bitmap>) -> Mem<()>
    ensures { OnOk result (Grows out.old out.new (end_array ∷ two_tokens
        (codes "length") (whole_value length)
        (codes "mask") (mask_value (option_copied mask.entry)))) }
{
    out.end_array()?;
    put_length_end(alloc, out, length, mask)
}

/// `],"offsets":[n..] or null,"types":[n..]}`, after the children of a union.
fn put_union_end(out: &mut Writer, offsets: &Option<Buffer<i32>>, types: &[i8]) -> Mem<()>
    ensures { OnOk result (Grows out.old out.new (end_array ∷ two_tokens
        (codes "offsets") (union_offsets_value offsets.now)
        (codes "types") (list_value (map integer_value types.now)))) }
{
    out.end_array()?;
    out.key("offsets")?;
    put_union_offsets(out, offsets)?;
    out.key("types")?;
    put_types(out, types)?;
    out.end_object()
}

/// What is written before the children: all of it where there are none.
fn put_head(alloc: Global, out: &mut Writer, node: &Node) -> Mem<()>
    ensures { OnOk result (Grows out.old out.new (head_tokens (layout_of node.now))) }
{
    match node {
        Node::Null { length, .. } => put_null(out, *length),
        Node::Boolean(array) => put_boolean(alloc, out, array),
        Node::Primitive(numbers) => put_numbers_node(alloc, out, numbers),
        Node::Binary(array) => put_binary(alloc, out, array),
        Node::LargeBinary(array) => put_binary(alloc, out, array),
        Node::Utf8(array) => put_binary(alloc, out, array),
        Node::LargeUtf8(array) => put_binary(alloc, out, array),
        Node::FixedSizeBinary(array) => put_fixed_size_binary(alloc, out, array),
        Node::BinaryView(array) => put_view(alloc, out, array),
        Node::Utf8View(array) => put_view(alloc, out, array),
        Node::List { .. } => put_child_start(out),
        Node::LargeList { .. } => put_child_start(out),
        Node::Map { .. } => put_child_start(out),
        Node::FixedSizeList { .. } => put_child_start(out),
        Node::Struct { .. } => put_children_start(out),
        Node::Union { .. } => put_children_start(out),
        Node::Dictionary { keys, .. } => put_keys_start(alloc, out, keys),
    }
}

/// What is written after the children.
fn put_tail(alloc: Global, out: &mut Writer, node: &Node) -> Mem<()>
    ensures { OnOk result (Grows out.old out.new (tail_tokens (layout_of node.now))) }
{
    match node {
        Node::List {
            offsets,
            validity,
            ..
        } => put_list_end(alloc, out, validity.as_ref(), offsets),
        Node::LargeList {
            offsets,
            validity,
            ..
        } => put_list_end(alloc, out, validity.as_ref(), offsets),
        Node::Map {
            offsets,
            validity,
            ..
        } => put_list_end(alloc, out, validity.as_ref(), offsets),
        Node::FixedSizeList {
            length,
            validity,
            ..
        } => put_length_end(alloc, out, *length, validity.as_ref()),
        Node::Struct {
            length,
            validity,
            ..
        } => put_struct_end(alloc, out, *length, validity.as_ref()),
        Node::Union { types, offsets, .. } => put_union_end(out, offsets, types.as_slice()),
        Node::Dictionary { .. } => out.end_object(),
        Node::Null { .. }
        | Node::Boolean(_)
        | Node::Primitive(_)
        | Node::Binary(_)
        | Node::LargeBinary(_)
        | Node::Utf8(_)
        | Node::LargeUtf8(_)
        | Node::FixedSizeBinary(_)
        | Node::BinaryView(_)
        | Node::Utf8View(_) => Ok(()),
    }
}

/// The data of a column of any kind.
#[cycle(put_data)]
pub(crate) fn put_data(alloc: Global, out: &mut Writer, array: &ArrayRef) -> Mem<()>
    ensures { OnOk result (Puts out.old out.new (data_value array.now)) }
{
    let node = array.node();
    put_head(alloc, out, node)?;
    put_each(alloc, out, children(node))?;
    put_tail(alloc, out, node)
}

/// The data of each column.
#[cycle(put_data)]
fn put_each(alloc: Global, out: &mut Writer, arrays: &[ArrayRef]) -> Mem<()>
    ensures { OnOk result (Grows out.old out.new (each_tokens (map data_value arrays.now))) }
{
    for array in arrays {
        put_data(alloc, out, array)?;
    }
    Ok(())
}
