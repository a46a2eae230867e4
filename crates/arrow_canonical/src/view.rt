//! Canonical views: long values packed in slot order.
ghost use Rattle.std.specs.Prelude.{◌≡◌, ◌↔◌, ◌^◌, ◌<◌, [], IsTrue, get_or, length as count, map};
ghost use Rattle.arrow_flat.specs.Natives.{octets};
ghost use Rattle.arrow_flat.specs.Packs.{AreInOrder, view_limit};
ghost use Rattle.arrow_meaning.specs.Nodes.{view_layout};
ghost use Rattle.arrow_views.specs.ViewArrays.{AreViews};
ghost use Rattle.arrow_canonical.specs.OwnForm.{EndsAt, Follows, HasOwnForm, IsPlacedAt};

use crate::zeros::{ZeroValues, nulls_are_zero};
use arrow_buffers::Buffer;
use arrow_flat::ViewType;
use arrow_views::{BinaryViewArrayGeneric, View};

/// The most bytes of a value that its view holds itself.
const MOST_INLINE: usize = 12;

/// The most bytes of a buffer of the canonical form.
const MOST_BYTES: usize = 4_294_967_295;

/// Whether the long values are packed in slot order, and the views are zeros under nulls.
pub(crate) fn view_form<T: ViewType>(array: &BinaryViewArrayGeneric<T>) -> bool
    ensures { IsTrue result ↔ HasOwnForm (view_layout array.now) }
{
    array.invariant();
    nulls_are_zero(array) && are_in_order(array.views().as_slice(), array.data_buffers())
}

impl<T: ViewType> ZeroValues for BinaryViewArrayGeneric<T> {
    fn len(&self) -> usize {
        BinaryViewArrayGeneric::len(self)
    }

    fn is_valid(&self, i: usize) -> bool {
        BinaryViewArrayGeneric::is_valid(self, i)
    }

    fn is_zero(&self, i: usize) -> bool {
        self.invariant();
        self.views().as_slice()[i].length() == 0
    }
}

/// Whether the long views follow one another in their buffers, without a gap and in slot order.
fn are_in_order(views: &[View], buffers: &[Buffer<u8>]) -> bool
    requires { AreViews (map octets buffers.now) views.now }
    ensures { IsTrue result ↔ AreInOrder view_limit (map octets buffers.now) views.now }
{
    let mut buffer = 0;
    let mut end = 0;
    for i in 0..views.len() {
        let view = &views[i];
        let length = view.length() as usize;
        if length > MOST_INLINE {
            if !follows(view, buffers, buffer, end) {
                return false;
            }
            buffer = view.buffer() as usize;
            end = view.offset() as usize + length;
        }
    }
    ends_at(buffers, buffer, end)
}

/// Whether the bytes of a long view come next after the end of a buffer: there, if there is room,
/// and else at the start of the next buffer, where the buffer ends there.
fn follows(view: &View, buffers: &[Buffer<u8>], buffer: usize, end: usize) -> bool
    requires buffer { buffer < 2 ^ 32 }
    requires end { end < 2 ^ 34 }
    ensures { IsTrue result ↔ Follows (map octets buffers.now) buffer end view.now }
{
    let length = view.length() as usize;
    if end + length <= MOST_BYTES {
        is_at(view, buffer, end)
    } else {
        is_at(view, buffer + 1, 0) && buffer_len(buffers, buffer) == end
    }
}

/// Whether a long view names this place.
fn is_at(view: &View, buffer: usize, offset: usize) -> bool
    ensures { IsTrue result ↔ IsPlacedAt view.now (buffer, offset) }
{
    view.buffer() as usize == buffer && view.offset() as usize == offset
}

/// The length of a buffer, 0 where there is none.
fn buffer_len(buffers: &[Buffer<u8>], i: usize) -> usize
    ensures { result ≡ count (get_or (map octets buffers.now) i []) }
{
    match buffers.get(i) {
        Some(buffer) => buffer.len(),
        None => 0,
    }
}

/// Whether the bytes end in this buffer and at this end, and where they do not begin there is none.
fn ends_at(buffers: &[Buffer<u8>], buffer: usize, end: usize) -> bool
    requires { buffer < 2 ^ 32 }
    ensures { IsTrue result ↔ EndsAt (map octets buffers.now) buffer end }
{
    if end == 0 {
        return buffers.is_empty();
    }
    buffers.len() == buffer + 1 && buffer_len(buffers, buffer) == end
}
