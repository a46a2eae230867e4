//! A window over shared offsets.
ghost use Rattle.std.specs.Prelude.{◌≡◌, ◌+◌, ◌-◌, ◌<◌, ◌≤◌, pos, length as count, map, take, drop, slice_get, Some, IfOk};
ghost use Rattle.arrow_buffers.specs.Offsets.{AreOffsets, first_of, end_of};

use crate::{Buffer, Mem, Offset};
use std::alloc::Global;
use std::marker::Model;

/// Offsets that may be shared, seen as their list: where each slot begins, and where the last one
/// ends.
pub struct OffsetsBuffer<O: Offset> {
    pub(crate) items: Buffer<O>,
}

/// By hand: where a value may end there is one call to prove then, not the drop of each field.
impl<O: Offset> Drop for OffsetsBuffer<O> {
    fn drop(self) {
        let OffsetsBuffer { items: _ } = self;
    }
}

impl<O: Offset> Model for OffsetsBuffer<O> {
    ghost use Rattle.std.specs.Prelude.{List, map};
    ghost use Rattle.arrow_buffers.specs.Offsets.{AreOffsets};

    ghost Value = { List O };

    ghost view = { λ b. b.items };

    ghost invariant = { λ b. AreOffsets O.limit (map O.number b.items) };
}

impl<O: Offset> OffsetsBuffer<O> {
    /// The count of slots.
    pub fn len_proxy(&self) -> usize
        ensures slots { result + 1 ≡ count self.now }
        ensures sound { AreOffsets O.limit (map O.number self.now) }
    {
        self.items.len() - 1
    }

    /// The offsets in order.
    pub fn as_slice(&self) -> &[O]
        ensures value { result.now ≡ self.now }
        ensures sound { AreOffsets O.limit (map O.number self.now) }
    {
        self.items.as_slice()
    }

    /// Where the first slot begins.
    pub fn first(&self) -> O
        ensures value { slice_get self.now 0 ≡ Some result }
        ensures number { O.number result ≡ pos (first_of (map O.number self.now)) }
    {
        self.items.as_slice()[0]
    }

    /// Where the last slot ends.
    pub fn last(&self) -> O
        ensures value { slice_get self.now (count self.now - 1) ≡ Some result }
        ensures number { O.number result ≡ pos (end_of (map O.number self.now)) }
    {
        last_of(self.items.as_slice())
    }

    /// Where slot `i` begins and ends.
    pub fn start_end(&self, i: usize) -> (usize, usize)
        requires { i + 1 < count self.now }
        ensures start { slice_get (map O.number self.now) i ≡ Some (pos result.0) }
        ensures end { slice_get (map O.number self.now) (i + 1) ≡ Some (pos result.1) }

        // It lies within the slots.
        ensures ordered { result.0 ≤ result.1 }
        ensures from_first { first_of (map O.number self.now) ≤ result.0 }
        ensures to_end { result.1 ≤ end_of (map O.number self.now) }
    {
        slot_bounds(self.items.as_slice(), i)
    }

    /// The offsets of `len` slots from `start` on.
    pub(crate) fn window(&self, start: usize, len: usize) -> &[O]
        requires { start + len < count self.now }
        ensures value { result.now ≡ take (len + 1) (drop start self.now) }
        ensures sound { AreOffsets O.limit (map O.number result.now) }
    {
        &self.items.as_slice()[start..start + len + 1]
    }

    /// Keeps the window of `slots` slots from `offset` on.
    pub fn slice(&mut self, offset: usize, slots: usize)
        requires { offset + slots < count self.old }
        ensures { self.new ≡ take (slots + 1) (drop offset self.old) }
    {
        prove!(slots < self.items.len());
        self.items.slice(offset, slots + 1);
    }

    /// Another owner of the same offsets.
    pub fn try_clone(&self, alloc: Global) -> Mem<OffsetsBuffer<O>>
        ensures { IfOk result (λ b. b ≡ self.now) }
    {
        Ok(OffsetsBuffer {
            items: self.items.try_clone(alloc)?,
        })
    }
}

/// The last of some offsets.
pub(crate) fn last_of<O: Offset>(items: &[O]) -> O
    requires { AreOffsets O.limit (map O.number items.now) }
    ensures value { slice_get items.now (count items.now - 1) ≡ Some result }
    ensures number { O.number result ≡ pos (end_of (map O.number items.now)) }
{
    items[items.len() - 1]
}

/// Where slot `i` of some offsets begins and ends.
pub(crate) fn slot_bounds<O: Offset>(items: &[O], i: usize) -> (usize, usize)
    requires sound { AreOffsets O.limit (map O.number items.now) }
    requires within { i + 1 < count items.now }
    ensures start { slice_get (map O.number items.now) i ≡ Some (pos result.0) }
    ensures end { slice_get (map O.number items.now) (i + 1) ≡ Some (pos result.1) }
    ensures ordered { result.0 ≤ result.1 }
    ensures from_first { first_of (map O.number items.now) ≤ result.0 }
    ensures to_end { result.1 ≤ end_of (map O.number items.now) }
{
    (number_at(items, i), number_at(items, i + 1))
}

/// The number of the offset at `i`.
pub(crate) fn number_at<O: Offset>(items: &[O], i: usize) -> usize
    requires sound { AreOffsets O.limit (map O.number items.now) }
    requires within { i < count items.now }
    ensures value { slice_get (map O.number items.now) i ≡ Some (pos result) }
    ensures from_first { first_of (map O.number items.now) ≤ result }
    ensures to_end { result ≤ end_of (map O.number items.now) }
{
    items[i].to_usize()
}
