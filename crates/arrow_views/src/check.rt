//! Whether a view stands for a value as it should: zeros stand behind a value that it holds;
//! another value is within its buffer, and begins with the bytes that the view tells.
ghost use Rattle.std.specs.Prelude.{◌≡◌, ◌↔◌, ◌≤◌, ◌<◌, ℕ, List, length as count, map, take, replicate, IsTrue};
ghost use Rattle.arrow_flat.specs.Natives.{octets};
ghost use Rattle.arrow_flat.specs.Views.{IsView, view_length};
ghost use Rattle.arrow_views.specs.ViewArrays.{AreViews};
ghost use Rattle.arrow_views.specs.ViewParts.{prefix_of};

use crate::View;
use arrow_buffers::Buffer;

/// Whether each view stands for a value in these buffers.
pub(crate) fn are_views(views: &[View], buffers: &[Buffer<u8>]) -> bool
    ensures { IsTrue result ↔ (AreViews (map octets buffers.now) views.now) }
{
    for view in views {
        if !is_view(view, buffers) {
            return false;
        }
    }
    true
}

/// Whether the view stands for a value in these buffers.
fn is_view(view: &View, buffers: &[Buffer<u8>]) -> bool
    ensures { IsTrue result ↔ (IsView (map octets buffers.now) view.now) }
{
    if view.length() <= 12 {
        is_padded(view)
    } else {
        is_within(view, buffers)
    }
}

/// Whether zeros stand behind the value that the view holds.
fn is_padded(view: &View) -> bool
    requires { view_length view.now ≤ 12 }
    ensures { (buffers : List (List ℕ)) → IsTrue result ↔ (IsView buffers view.now) }
{
    let length = view.length() as usize;
    are_zeros(&view.as_bytes()[4 + length..])
}

/// Whether each byte is 0.
fn are_zeros(bytes: &[u8]) -> bool
    ensures { IsTrue result ↔ (bytes.now ≡ replicate (count bytes.now) 0) }
{
    for byte in bytes {
        if *byte != 0 {
            return false;
        }
    }
    true
}

/// Whether the value is within the buffer that the view names, and begins with the view's bytes.
fn is_within(view: &View, buffers: &[Buffer<u8>]) -> bool
    requires { 12 < view_length view.now }
    ensures { IsTrue result ↔ (IsView (map octets buffers.now) view.now) }
{
    let number = view.buffer() as usize;
    if number >= buffers.len() {
        return false;
    }
    let bytes = buffers[number].as_slice();
    let start = view.offset() as usize;
    let end = start + view.length() as usize;
    end <= bytes.len() && begins_with_prefix(&bytes[start..end], view)
}

/// Whether a value begins with the view's bytes.
fn begins_with_prefix(value: &[u8], view: &View) -> bool
    requires { 12 < count value.now }
    ensures { IsTrue result ↔ (prefix_of view.now ≡ take 4 (octets value.now)) }
{
    view.as_bytes()[4..8] == value[..4]
}
