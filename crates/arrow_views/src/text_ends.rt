//! Which ranges of a buffer are UTF-8, known from one walk over it.
ghost use Rattle.std.specs.Prelude.{◌≡◌, ◌↔◌, ◌-◌, ◌<◌, ◌≤◌, IsUtf8, IsTrue, length as count, take, drop, get_or, IfOk};
ghost use Rattle.arrow_flat.specs.Natives.{octets};
ghost use Rattle.arrow_views.specs.TextEnds.{IsTextLength, EndsAround, AreTextEnds};

use crate::text::is_border;
use arrow_types::Mem;
use std::alloc::Global;
use std::marker::Model;

/// Where the UTF-8 string ends that each position of a buffer stands in, seen as one end for each
/// position.
#[derive(Drop)]
pub(crate) struct TextEnds {
    ends: Vec<usize>,
}

impl Model for TextEnds {
    ghost use Rattle.std.specs.Prelude.{ℕ, List};

    ghost Value = { List ℕ };

    ghost view = { λ t. t.ends.items };
}

impl TextEnds {
    /// The ends in these bytes, each of which is looked at once.
    pub(crate) fn from_bytes(alloc: Global, bytes: &[u8]) -> Mem<TextEnds>
        ensures { IfOk result (λ t. AreTextEnds (octets bytes.now) t) }
    {
        Ok(TextEnds {
            ends: text_ends(alloc, bytes)?,
        })
    }

    /// Whether the bytes from `start` to `end` are UTF-8.
    pub(crate) fn is_text(&self, bytes: &[u8], start: usize, end: usize) -> bool
        requires ends { AreTextEnds (octets bytes.now) self.now }
        requires some { start < end }
        requires within { end ≤ count bytes.now }
        ensures { IsTrue result ↔ (IsUtf8 (take (end - start) (drop start (octets bytes.now)))) }
    {
        let text_end = self.end_at(start);
        if end > text_end {
            return false;
        }
        is_border(bytes, start) && (end == text_end || is_border(bytes, end))
    }

    /// The end at a position.
    fn end_at(&self, i: usize) -> usize
        requires { i < count self.now }
        ensures { result ≡ get_or self.now i 0 }
    {
        self.ends[i]
    }
}

/// For each position, the one past the last byte too, the end of the longest UTF-8 string that
/// begins there or before.
fn text_ends(alloc: Global, bytes: &[u8]) -> Mem<Vec<usize>>
    ensures { IfOk result (λ ends. AreTextEnds (octets bytes.now) ends.items) }
{
    let mut ends = Vec::with_capacity(alloc, bytes.len() + 1)?;
    while ends.len() <= bytes.len() {
        let start = ends.len();
        let end = start + text_length(&bytes[start..]);
        ends.resize(end + 1, end)?;
    }
    Ok(ends)
}

/// How many bytes, from the first on, are UTF-8.
fn text_length(bytes: &[u8]) -> usize
    ensures { IsTextLength (octets bytes.now) result }
{
    match std::str::from_utf8(bytes) {
        Ok(_) => bytes.len(),
        Err(error) => error.valid_up_to(),
    }
}
