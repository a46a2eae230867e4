//! Columns of views: their parts from JSON values, and their arrays.
ghost use Rattle.std.specs.Prelude.{◌≡◌, ◌/◌, ◌<◌, ◌≤◌, map, length as count, option_and_then, Some};
ghost use Rattle.serde_json.specs.View.{view};
ghost use Rattle.hex.specs.Hex.{decode_of};
ghost use Rattle.arrow_types.specs.Seen.{seen};
ghost use Rattle.arrow_types.specs.TypeData.{TypeData};
ghost use Rattle.arrow_types.specs.Types.{physical_of};
ghost use Rattle.arrow_flat.specs.Natives.{octets};
ghost use Rattle.arrow_views.specs.ViewArrays.{physical_view};
ghost use Rattle.arrow_meaning.specs.Nodes.{view_layout};
ghost use Rattle.arrow_layout.specs.WellFormed.{WellFormed};
ghost use Rattle.type_json.specs.Reads.{Reads, Makes};
ghost use Rattle.type_json.specs.Values.{traverse};
ghost use Rattle.type_json.specs.declared.error.JsonError.TheVariants.{BadValue};
ghost use Rattle.column_grammar.specs.Values.{bytes_in, decoded, list_in};
ghost use Rattle.column_grammar.specs.Reads.{prefix_in, inline_of, long_in, view_in, views_in};
ghost use Rattle.column_read.specs.Parts.{four_of, views_layout};
ghost use Rattle.column_read.specs.declared.error.LayoutError.TheVariants.{BadLayout};

use crate::LayoutError;
use crate::native::uint32_in;
use crate::parts::ViewParts;
use crate::value::{bytes_in, items, mask_in, three_members, triple_in};
use arrow_buffers::Buffer;
use arrow_types::{ArrowDataType, PolarsError};
use arrow_views::{BinaryViewArrayGeneric, View, ViewType};
use serde_json::Value;
use std::alloc::Global;
use type_json::JsonError;

/// The view of the bytes of a text, two hexadecimal digits a byte, with room for them.
fn decoded_view(text: &[u8], bytes: &mut [u8]) -> Option<View>
    requires half { count bytes.old ≡ count text.now / 2 }
    requires few { count bytes.old ≤ 12 }
    ensures { result ≡ option_and_then inline_of (decoded (decode_of text.now)) }
{
    hex::decode_to_slice(text, bytes).ok()?;
    Some(View::new_inline(bytes))
}

/// The view of a text of at most twelve bytes.
fn inline_of(text: &[u8]) -> Option<View>
    ensures { result ≡ option_and_then inline_of (decoded (decode_of text.now)) }
{
    let mut bytes = [0; 12];
    let size = text.len() / 2;
    if size > 12 {
        return None;
    }
    decoded_view(text, &mut bytes[..size])
}

/// The view of a value of at most twelve bytes.
#[tactic(auto, unfolding(column_grammar::specs::Values::bytes_in))]
fn inline_in(value: &Value) -> Option<View>
    ensures { result ≡ option_and_then inline_of (bytes_in (view value.now)) }
{
    inline_of(value.as_str()?.as_bytes())
}

/// Four bytes as an array.
fn four(bytes: &[u8]) -> [u8; 4]
    requires { count bytes.now ≡ 4 }
    ensures { result ≡ octets bytes.now }
{
    match <[u8; 4]>::try_from(bytes) {
        Ok(four) => four,
        Err(_) => unreachable!(),
    }
}

/// The first four of `length` bytes from `offset` on, zeros where they aren't there.
fn first_four(bytes: &[u8], length: usize, offset: usize) -> [u8; 4]
    requires { 12 < length }
    ensures { result ≡ four_of (octets bytes.now) length offset }
{
    if length > bytes.len() || offset > bytes.len() - length {
        return [0; 4];
    }
    four(&bytes[offset..offset + 4])
}

/// The first four bytes of a range of a buffer, zeros where the range isn't there.
fn prefix_of(buffers: &[Buffer<u8>], length: u32, buffer: u32, offset: u32) -> [u8; 4]
    requires { 12 < length }
    ensures { result ≡ prefix_in (map octets buffers.now) length buffer offset }
{
    match buffers.get(buffer as usize) {
        Some(bytes) => first_four(bytes.as_slice(), length as usize, offset as usize),
        None => [0; 4],
    }
}

/// The view of a value of more than twelve bytes: of its length, the number of its buffer and its
/// offset.
fn long_in(buffers: &[Buffer<u8>], value: &Value) -> Option<View>
    ensures { result ≡ long_in (map octets buffers.now) (view value.now) }
{
    let (length, buffer, offset) = triple_in(value)?;
    let length = uint32_in(length)?;
    let buffer = uint32_in(buffer)?;
    let offset = uint32_in(offset)?;
    if length > 12 {
        let prefix = prefix_of(buffers, length, buffer, offset);
        Some(View::new_long(length, prefix, buffer, offset))
    } else {
        None
    }
}

/// The view that a value is: a text of at most twelve bytes, or a list of a length, a buffer and an
/// offset.
#[tactic(auto, unfolding(column_grammar::specs::Reads::view_in))]
fn view_in(buffers: &[Buffer<u8>], value: &Value) -> Option<View>
    ensures { result ≡ view_in (map octets buffers.now) (view value.now) }
{
    if value.is_string() {
        inline_in(value)
    } else {
        long_in(buffers, value)
    }
}

/// The views of a list of values.
fn view_list(alloc: Global, buffers: &[Buffer<u8>], list: &[Value]) -> Result<Vec<View>, JsonError>
    ensures { Reads BadValue (λ v. v.items)
        (traverse (view_in (map octets buffers.now)) (map view list.now)) result }
{
    let mut views = Vec::with_capacity(alloc, list.len())?;
    for item in list {
        let Some(view) = view_in(buffers, item) else {
            return Err(JsonError::BadValue);
        };
        views.push(view)?;
    }
    Ok(views)
}

/// The bytes of each buffer of a list of values.
fn buffer_list(alloc: Global, list: &[Value]) -> Result<Vec<Buffer<u8>>, JsonError>
    ensures { Reads BadValue (λ v. map octets v.items)
        (traverse bytes_in (map view list.now)) result }
{
    let mut buffers = Vec::new(alloc);
    for item in list {
        let bytes = bytes_in(alloc, item)?;
        buffers.push(Buffer::from_vec(alloc, bytes)?)?;
    }
    Ok(buffers)
}

/// The views that a value is: a list of them, their values in place or in these buffers.
#[tactic(auto, unfolding(column_grammar::specs::Values::list_in))]
fn view_items(alloc: Global, buffers: &[Buffer<u8>], value: &Value) -> Result<Vec<View>, JsonError>
    ensures { Reads BadValue (λ v. v.items)
        (list_in (view_in (map octets buffers.now)) (view value.now)) result }
{
    match items(value) {
        Some(list) => view_list(alloc, buffers, list),
        None => Err(JsonError::BadValue),
    }
}

/// The bytes of the buffers that a value is: a list of texts.
#[tactic(auto, unfolding(column_grammar::specs::Values::list_in))]
fn buffers_in(alloc: Global, value: &Value) -> Result<Vec<Buffer<u8>>, JsonError>
    ensures { Reads BadValue (λ v. map octets v.items)
        (list_in bytes_in (view value.now)) result }
{
    match items(value) {
        Some(list) => buffer_list(alloc, list),
        None => Err(JsonError::BadValue),
    }
}

/// Views under a mask, and their buffers, from their JSON value.
#[tactic(auto, unfolding(column_grammar::specs::Reads::views_in))]
pub(crate) fn views_in(alloc: Global, value: &Value) -> Result<ViewParts, JsonError>
    ensures { (t : TypeData)
        → Reads BadValue (views_layout t) (views_in t (view value.now)) result }
{
    let members = three_members(value, "buffers", "mask", "views");
    let (buffers, mask, views) = members.ok_or(JsonError::BadValue)?;
    let buffers = buffers_in(alloc, buffers)?;
    let validity = mask_in(alloc, mask)?;
    let views = view_items(alloc, &buffers, views)?;
    Ok(ViewParts {
        views,
        buffers,
        validity,
    })
}

/// The array of views of these parts. BadLayout exactly where they aren't well formed.
pub(crate) fn view_array<T: ViewType>(
    alloc: Global,
    dtype: ArrowDataType,
    parts: ViewParts,
) -> Result<BinaryViewArrayGeneric<T>, LayoutError>
    requires { physical_of (seen dtype) ≡ Some (physical_view T.IS_TEXT) }
    ensures { Makes BadLayout view_layout (views_layout (seen dtype) parts)
        (WellFormed (views_layout (seen dtype) parts)) result }
{
    let views = Buffer::from_vec(alloc, parts.views)?;
    match BinaryViewArrayGeneric::try_new_in(alloc, dtype, views, parts.buffers, parts.validity) {
        Ok(array) => Ok(array),
        Err(PolarsError::ComputeError(_)) => Err(LayoutError::BadLayout),
        Err(_) => Err(LayoutError::OutOfMemory),
    }
}
