//! The bytes between offsets.
ghost use Rattle.std.specs.Prelude.{◌≡◌, ◌↔◌, ◌+◌, ◌-◌, ◌<◌, ◌≤◌, length as count, take, drop, slice_get, Some, IfSome, IsUtf8, IsTrue};
ghost use Rattle.arrow_flat.specs.Pieces.{AreTexts};
ghost use Rattle.arrow_flat.specs.Pieces.{AreTextsIf};
ghost use Rattle.arrow_bytes.specs.Binaries.{values_between, EndsWithin};

use arrow_buffers::{Offset, OffsetsBuffer};

/// The bytes of slot `i`.
pub(crate) fn piece<'a, O: Offset>(
    offsets: &OffsetsBuffer<O>,
    bytes: &'a [u8],
    i: usize,
) -> &'a [u8]
    requires slot { i + 1 < count offsets.now }
    requires within { EndsWithin O.number offsets.now bytes.now }
    ensures { slice_get (values_between O.number offsets.now bytes.now) i ≡ Some result.now }
{
    let (start, end) = offsets.start_end(i);
    between(bytes, start, end)
}

/// The bytes between two places.
fn between(bytes: &[u8], start: usize, end: usize) -> &[u8]
    requires { (start ≤ end) × (end ≤ count bytes.now) }
    ensures { result.now ≡ take (end - start) (drop start bytes.now) }
{
    &bytes[start..end]
}

/// Whether the bytes of each slot are UTF-8, where the values are strings.
pub(crate) fn are_texts_if<O: Offset>(
    is_text: bool,
    offsets: &OffsetsBuffer<O>,
    bytes: &[u8],
) -> bool
    requires { EndsWithin O.number offsets.now bytes.now }
    ensures { IsTrue result ↔ (AreTextsIf is_text (values_between O.number offsets.now bytes.now)) }
{
    !is_text || are_texts(offsets, bytes)
}

/// Whether the bytes of each slot are UTF-8.
///
/// In one pass over the bytes where those from the first offset to the last are one string, as
/// those of most arrays are; else slot by slot.
fn are_texts<O: Offset>(offsets: &OffsetsBuffer<O>, bytes: &[u8]) -> bool
    requires { EndsWithin O.number offsets.now bytes.now }
    ensures { IsTrue result ↔ (AreTexts (values_between O.number offsets.now bytes.now)) }
{
    are_parts_of_text(offsets, bytes) || are_texts_each(offsets, bytes)
}

/// Whether the bytes from the first offset to the last are UTF-8 with a border of characters at
/// each offset. Then those of each slot are.
fn are_parts_of_text<O: Offset>(offsets: &OffsetsBuffer<O>, bytes: &[u8]) -> bool
    requires { EndsWithin O.number offsets.now bytes.now }
    ensures { IsTrue result → AreTexts (values_between O.number offsets.now bytes.now) }
{
    let slots = offsets.len_proxy();
    let first = offsets.first().to_usize();
    let last = offsets.last().to_usize();
    let Ok(text) = std::str::from_utf8(between(bytes, first, last)) else {
        return false;
    };
    for i in 0..slots {
        let (_, end) = offsets.start_end(i);
        if !text.is_char_boundary(end - first) {
            return false;
        }
    }
    true
}

/// Whether the bytes of each slot are UTF-8, each tested alone.
fn are_texts_each<O: Offset>(offsets: &OffsetsBuffer<O>, bytes: &[u8]) -> bool
    requires { EndsWithin O.number offsets.now bytes.now }
    ensures { IsTrue result ↔ (AreTexts (values_between O.number offsets.now bytes.now)) }
{
    for i in 0..offsets.len_proxy() {
        if !is_text_at(offsets, bytes, i) {
            return false;
        }
    }
    true
}

/// Whether the bytes of slot `i` are UTF-8.
fn is_text_at<O: Offset>(offsets: &OffsetsBuffer<O>, bytes: &[u8], i: usize) -> bool
    requires slot { i + 1 < count offsets.now }
    requires within { EndsWithin O.number offsets.now bytes.now }
    ensures { let values = values_between O.number offsets.now bytes.now in
        IsTrue result ↔ (IfSome (slice_get values i) IsUtf8) }
{
    std::str::from_utf8(piece(offsets, bytes, i)).is_ok()
}
