//! The bytes of the value that a view stands for, and whether each value is UTF-8.
ghost use Rattle.std.specs.Prelude.{◌≡◌, ◌↔◌, ◌≤◌, ◌<◌, ℕ, List, true, IsUtf8, length as count, map, IsTrue, IfOk};
ghost use Rattle.std.specs.Str.{IsCharBoundary};
ghost use Rattle.arrow_flat.specs.Natives.{octets};
ghost use Rattle.arrow_flat.specs.Pieces.{AreTexts, AreTextsIf};
ghost use Rattle.arrow_flat.specs.Views.{IsView, view_bytes, view_length};
ghost use Rattle.arrow_views.specs.TextEnds.{AreEndsOf};
ghost use Rattle.arrow_views.specs.ViewArrays.{AreViews, values_in};

use crate::View;
use crate::text_ends::TextEnds;
use arrow_buffers::Buffer;
use arrow_types::Mem;
use std::alloc::Global;

/// The value that a view stands for: bytes of the view itself, or of its buffer.
pub(crate) fn value_of<'a>(view: &'a View, buffers: &'a [Buffer<u8>]) -> &'a [u8]
    requires { IsView (map octets buffers.now) view.now }
    ensures { octets result.now ≡ view_bytes (map octets buffers.now) view.now }
{
    if view.length() <= 12 {
        inline_value(view)
    } else {
        long_value(view, buffers)
    }
}

/// The value that a view holds.
fn inline_value(view: &View) -> &[u8]
    requires { view_length view.now ≤ 12 }
    ensures { (buffers : List (List ℕ)) → octets result.now ≡ view_bytes buffers view.now }
{
    let length = view.length() as usize;
    &view.as_bytes()[4..4 + length]
}

/// The value of more than twelve bytes, which stands in the buffer that the view names.
fn long_value<'a>(view: &View, buffers: &'a [Buffer<u8>]) -> &'a [u8]
    requires view { IsView (map octets buffers.now) view.now }
    requires long { 12 < view_length view.now }
    ensures { octets result.now ≡ view_bytes (map octets buffers.now) view.now }
{
    let bytes = buffers[view.buffer() as usize].as_slice();
    let start = view.offset() as usize;
    let end = start + view.length() as usize;
    &bytes[start..end]
}

/// Whether each value is UTF-8, where the values are strings. Takes no memory.
pub(crate) fn are_texts_if(is_text: bool, views: &[View], buffers: &[Buffer<u8>]) -> bool
    requires { AreViews (map octets buffers.now) views.now }
    ensures { IsTrue result ↔ (AreTextsIf is_text (values_in (map octets buffers.now) views.now)) }
{
    !is_text || are_texts(views, buffers)
}

/// Whether each value is UTF-8. Where the buffers are, each as a whole, only the ends of long
/// values are looked at; else each value is read by itself, so that bytes in many values are read
/// many times.
fn are_texts(views: &[View], buffers: &[Buffer<u8>]) -> bool
    requires { AreViews (map octets buffers.now) views.now }
    ensures { IsTrue result ↔ (AreTexts (values_in (map octets buffers.now) views.now)) }
{
    let whole = are_whole_texts(buffers);
    for view in views {
        if !is_text_view(view, buffers, whole) {
            return false;
        }
    }
    true
}

/// Whether each value is UTF-8, where the values are strings: looks at each byte of a buffer at
/// most twice, however many values it is in, and takes memory for a number a byte where a buffer
/// isn't UTF-8 as a whole.
pub(crate) fn are_texts_if_in(
    alloc: Global,
    is_text: bool,
    views: &[View],
    buffers: &[Buffer<u8>],
) -> Mem<bool>
    requires { AreViews (map octets buffers.now) views.now }
    ensures { IfOk result (λ r.
        IsTrue r ↔ (AreTextsIf is_text (values_in (map octets buffers.now) views.now))) }
{
    if !is_text {
        return Ok(true);
    }
    if are_whole_texts(buffers) {
        return Ok(are_texts(views, buffers));
    }
    let ends = ends_of(alloc, buffers)?;
    Ok(are_texts_by(views, buffers, ends.as_slice()))
}

/// The ends of the UTF-8 strings in each buffer.
fn ends_of(alloc: Global, buffers: &[Buffer<u8>]) -> Mem<Vec<TextEnds>>
    ensures { IfOk result (λ ends. AreEndsOf buffers.now ends.items) }
{
    let mut ends = Vec::with_capacity(alloc, buffers.len())?;
    for buffer in buffers {
        ends.push(TextEnds::from_bytes(alloc, buffer.as_slice())?)?;
    }
    Ok(ends)
}

/// Whether each value is UTF-8, by the ends of the strings in the buffers.
fn are_texts_by(views: &[View], buffers: &[Buffer<u8>], ends: &[TextEnds]) -> bool
    requires views { AreViews (map octets buffers.now) views.now }
    requires ends { AreEndsOf buffers.now ends.now }
    ensures { IsTrue result ↔ (AreTexts (values_in (map octets buffers.now) views.now)) }
{
    for view in views {
        if !is_text_by(view, buffers, ends) {
            return false;
        }
    }
    true
}

/// Whether the value of a view is UTF-8, by the ends of the strings in the buffers.
fn is_text_by(view: &View, buffers: &[Buffer<u8>], ends: &[TextEnds]) -> bool
    requires view { IsView (map octets buffers.now) view.now }
    requires ends { AreEndsOf buffers.now ends.now }
    ensures { IsTrue result ↔ (IsUtf8 (view_bytes (map octets buffers.now) view.now)) }
{
    if view.length() <= 12 {
        is_text(inline_value(view))
    } else {
        is_long_text(view, buffers, ends)
    }
}

/// The same of a value of more than twelve bytes.
fn is_long_text(view: &View, buffers: &[Buffer<u8>], ends: &[TextEnds]) -> bool
    requires view { IsView (map octets buffers.now) view.now }
    requires long { 12 < view_length view.now }
    requires ends { AreEndsOf buffers.now ends.now }
    ensures { IsTrue result ↔ (IsUtf8 (view_bytes (map octets buffers.now) view.now)) }
{
    let number = view.buffer() as usize;
    let bytes = buffers[number].as_slice();
    let start = view.offset() as usize;
    let end = start + view.length() as usize;
    ends[number].is_text(bytes, start, end)
}

/// Whether each buffer is UTF-8.
fn are_whole_texts(buffers: &[Buffer<u8>]) -> bool
    ensures { IsTrue result ↔ (AreTexts (map octets buffers.now)) }
{
    for buffer in buffers {
        if !is_text(buffer.as_slice()) {
            return false;
        }
    }
    true
}

/// Whether the bytes are UTF-8.
fn is_text(bytes: &[u8]) -> bool
    ensures { IsTrue result ↔ (IsUtf8 (octets bytes.now)) }
{
    std::str::from_utf8(bytes).is_ok()
}

/// Whether the value of a view is UTF-8, where the buffers are, if they are known to be.
fn is_text_view(view: &View, buffers: &[Buffer<u8>], whole: bool) -> bool
    requires view { IsView (map octets buffers.now) view.now }
    requires whole { whole ≡ true → AreTexts (map octets buffers.now) }
    ensures { IsTrue result ↔ (IsUtf8 (view_bytes (map octets buffers.now) view.now)) }
{
    if whole && view.length() > 12 {
        has_borders(view, buffers)
    } else {
        is_text(value_of(view, buffers))
    }
}

/// Whether the value of a view, which stands in a text, begins and ends between characters.
fn has_borders(view: &View, buffers: &[Buffer<u8>]) -> bool
    requires view { IsView (map octets buffers.now) view.now }
    requires long { 12 < view_length view.now }
    requires whole { AreTexts (map octets buffers.now) }
    ensures { IsTrue result ↔ (IsUtf8 (view_bytes (map octets buffers.now) view.now)) }
{
    let bytes = buffers[view.buffer() as usize].as_slice();
    let start = view.offset() as usize;
    let end = start + view.length() as usize;
    is_border(bytes, start) && is_border(bytes, end)
}

/// Whether no character of a text goes on past this place.
pub(crate) fn is_border(bytes: &[u8], at: usize) -> bool
    requires { at ≤ count bytes.now }
    ensures { IsTrue result ↔ (IsCharBoundary (octets bytes.now) at) }
{
    at == bytes.len() || bytes[at] < 128 || bytes[at] >= 192
}
