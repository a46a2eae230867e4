//! Offsets that grow.
ghost use Rattle.std.specs.Prelude.{◌≡◌, ◌+◌, ◌-◌, ◌<◌, ◌≤◌, ℤ, pos, ◌≤ℤ◌, false, length as count, [], ◌∷◌, ◌++◌, map, take, drop, replicate, sum, slice_get, Some, OnOk, OnErr, IfOk, IfErr, MatchResult, MatchOption};
ghost use Rattle.arrow_buffers.specs.Offsets.{AreOffsets, Ascend, falls, offsets_refusal, end_of, end_from, ends, moved, IsGrowthRefusal, to_nat, first_of};

use crate::offsets_buffer::{last_of, number_at, slot_bounds};
use crate::{Buffer, Mem, Offset, OffsetError, OffsetsBuffer};
use std::alloc::{AllocError, Global};
use std::marker::Model;

/// Offsets that grow at their end, seen as their list: where each slot begins, and where the last
/// one ends.
pub struct Offsets<O: Offset> {
    items: Vec<O>,
}

/// By hand: where a value may end there is one call to prove then, not the drop of each field.
impl<O: Offset> Drop for Offsets<O> {
    fn drop(self) {
        let Offsets { items: _ } = self;
    }
}

impl<O: Offset> Model for Offsets<O> {
    ghost use Rattle.std.specs.Prelude.{List, map};
    ghost use Rattle.arrow_buffers.specs.Offsets.{AreOffsets};

    ghost Value = { List O };

    ghost view = { λ b. b.items.items };

    ghost invariant = { λ b. AreOffsets O.limit (map O.number b.items.items) };
}

impl<O: Offset> Offsets<O> {
    /// The offsets of a vector; refused where there is none, where the first is negative, and where
    /// one is below the one before it, in this order.
    pub fn try_from_vec(items: Vec<O>) -> Result<Offsets<O>, OffsetError>
        ensures cases { MatchResult result
            (λ o. (o ≡ items.items) × AreOffsets O.limit (map O.number items.items))
            (λ e. offsets_refusal (map O.number items.items) ≡ Some e) }
    {
        let Some(first) = items.first() else {
            return Err(OffsetError::Empty);
        };
        if first.is_negative() {
            return Err(OffsetError::Negative);
        }
        if is_falling(items.as_slice()) {
            return Err(OffsetError::NotMonotone);
        }
        Ok(Offsets { items })
    }

    /// No slots: one offset, which is 0.
    pub fn new(alloc: Global) -> Mem<Offsets<O>>
        ensures { IfOk result (λ o. map O.number o ≡ pos 0 ∷ []) }
    {
        let mut items = Vec::new(alloc);
        items.push(offset_at(0))?;
        Ok(Offsets { items })
    }

    /// The count of slots.
    pub fn len_proxy(&self) -> usize
        ensures slots { result + 1 ≡ count self.now }
        ensures sound { AreOffsets O.limit (map O.number self.now) }
    {
        self.items.len() - 1
    }

    /// Where the last slot ends.
    pub fn last(&self) -> O
        ensures value { slice_get self.now (count self.now - 1) ≡ Some result }
        ensures number { O.number result ≡ pos (end_of (map O.number self.now)) }
    {
        last_of(self.items.as_slice())
    }

    /// Where slot `i` begins and ends.
    pub fn start_end(&self, i: usize) -> (usize, usize)
        requires { i + 1 < count self.now }
        ensures start { slice_get (map O.number self.now) i ≡ Some (pos result.0) }
        ensures end { slice_get (map O.number self.now) (i + 1) ≡ Some (pos result.1) }

        // It lies within the slots.
        ensures ordered { result.0 ≤ result.1 }
        ensures from_first { first_of (map O.number self.now) ≤ result.0 }
        ensures to_end { result.1 ≤ end_of (map O.number self.now) }
    {
        slot_bounds(self.items.as_slice(), i)
    }

    /// The offsets in order.
    pub fn as_slice(&self) -> &[O]
        ensures value { result.now ≡ self.now }
        ensures sound { AreOffsets O.limit (map O.number self.now) }
    {
        self.items.as_slice()
    }

    /// Keeps the first `slots` slots, or all where there are no more.
    pub fn truncate(&mut self, slots: usize)
        ensures { self.new ≡ take (slots + 1) self.old }
    {
        if slots < self.items.len() {
            self.items.truncate(slots + 1);
        }
    }

    /// Makes room for `n` more slots.
    pub fn reserve(&mut self, n: usize) -> Mem<()>
        ensures { self.new ≡ self.old }
    {
        self.items.reserve(n)
    }

    /// Gives room back that no slot needs.
    pub fn shrink_to_fit(&mut self)
        ensures { self.new ≡ self.old }
    {
        self.items.shrink_to_fit();
    }

    /// An equal copy, with memory of its own.
    pub fn try_clone(&self, alloc: Global) -> Mem<Offsets<O>>
        ensures { IfOk result (λ o. o ≡ self.now) }
    {
        Ok(Offsets {
            items: Vec::from_slice(alloc, self.items.as_slice())?,
        })
    }

    /// The same offsets, to be shared.
    pub fn freeze(self) -> Mem<OffsetsBuffer<O>>
        ensures { IfOk result (λ b. b ≡ self) }
    {
        let Offsets { items } = self;
        let alloc = *items.allocator();
        Ok(OffsetsBuffer {
            items: Buffer::from_vec(alloc, items)?,
        })
    }

    /// Appends a slot of this length.
    pub fn try_push(&mut self, length: usize) -> Result<(), OffsetError>
        ensures ok { OnOk result (map O.number self.new
            ≡ map O.number self.old ++ pos (end_of (map O.number self.old) + length) ∷ []) }
        ensures fits { OnOk result (end_of (map O.number self.old) + length < O.limit) }
        ensures refused { IfErr result
            (λ e. IsGrowthRefusal e O.limit (end_of (map O.number self.old) + length)) }
        ensures err { OnErr result (self.new ≡ self.old) }
    {
        let Some(next) = offset_past(last_of(self.items.as_slice()), length) else {
            return Err(OffsetError::Overflow);
        };
        self.items.push(next)?;
        Ok(())
    }

    /// Appends `n` slots of length 0.
    pub fn extend_constant(&mut self, n: usize) -> Mem<()>
        ensures ok { OnOk result (map O.number self.new
            ≡ map O.number self.old ++ replicate n (pos (end_of (map O.number self.old)))) }
        ensures err { OnErr result (self.new ≡ self.old) }
    {
        let Some(total) = self.items.len().checked_add(n) else {
            return Err(AllocError);
        };
        let last = last_of(self.items.as_slice());
        self.items.resize(total, last)?;
        Ok(())
    }

    /// Appends slots of these lengths.
    pub fn try_extend_from_lengths(&mut self, lengths: &[usize]) -> Result<(), OffsetError>
        ensures ok { OnOk result (map O.number self.new
            ≡ map O.number self.old ++ ends (end_of (map O.number self.old)) lengths.now) }
        ensures fits { OnOk result (end_of (map O.number self.old) + sum lengths.now < O.limit) }
        ensures refused { IfErr result
            (λ e. IsGrowthRefusal e O.limit (end_of (map O.number self.old) + sum lengths.now)) }
        ensures err { OnErr result (self.new ≡ self.old) }
    {
        let last = last_of(self.items.as_slice());
        let Some(_end) = end_past(last, lengths) else {
            return Err(OffsetError::Overflow);
        };
        push_ends(&mut self.items, last.to_usize(), lengths)?;
        Ok(())
    }

    /// Appends `len` slots of the lengths that those from `start` on have.
    pub fn try_extend_from_slice(
        &mut self,
        other: &OffsetsBuffer<O>,
        start: usize,
        len: usize,
    ) -> Result<(), OffsetError>
        requires { start + len < count other.now }
        ensures ok { OnOk result
            (let window = map O.number (take (len + 1) (drop start other.now)) in
            map O.number self.new ≡ map O.number self.old
            ++ moved (first_of window) (end_of (map O.number self.old)) (drop 1 window)) }
        ensures fits { OnOk result
            (let window = map O.number (take (len + 1) (drop start other.now)) in
            end_of (map O.number self.old) + (end_of window - first_of window) < O.limit) }
        ensures refused { IfErr result
            (λ e. let window = map O.number (take (len + 1) (drop start other.now)) in
            IsGrowthRefusal e O.limit
            (end_of (map O.number self.old) + (end_of window - first_of window))) }
        ensures err { OnErr result (self.new ≡ self.old) }
    {
        let window = other.window(start, len);
        let (first, end) = bounds_of(window);
        let last = last_of(self.items.as_slice());
        let Some(_end) = offset_past(last, end - first) else {
            return Err(OffsetError::Overflow);
        };
        push_moved(&mut self.items, first, last.to_usize(), &window[1..])?;
        Ok(())
    }
}

/// Where the first slot begins, and the last one ends.
fn bounds_of<O: Offset>(items: &[O]) -> (usize, usize)
    requires { AreOffsets O.limit (map O.number items.now) }
    ensures first { result.0 ≡ first_of (map O.number items.now) }
    ensures end { result.1 ≡ end_of (map O.number items.now) }
    ensures ordered { result.0 ≤ result.1 }
{
    (number_at(items, 0), last_of(items).to_usize())
}

/// Whether the first item is negative, or another one below the one before it.
fn is_falling<O: Offset>(items: &[O]) -> bool
    ensures value { result ≡ falls (pos 0) (map O.number items.now) }
    ensures ascend { result ≡ false → Ascend O.limit (pos 0) (map O.number items.now) }
{
    let mut least = 0;
    for item in items {
        let item = *item;
        if item.is_negative() {
            return true;
        }
        let number = item.to_usize();
        if number < least {
            return true;
        }
        least = number;
    }
    false
}

/// The offset of this number.
fn offset_at<O: Offset>(n: usize) -> O
    requires { n < O.limit }
    ensures { O.number result ≡ pos n }
{
    O::from_usize(n).unwrap()
}

/// The offset `length` past another one, if there is one.
fn offset_past<O: Offset>(last: O, length: usize) -> Option<O>
    requires { pos 0 ≤ℤ O.number last }
    ensures { MatchOption result (O.limit ≤ to_nat (O.number last) + length)
        (λ o. (O.number o ≡ pos (to_nat (O.number last) + length))
        × (to_nat (O.number last) + length < O.limit)) }
{
    O::from_usize(last.to_usize().checked_add(length)?)
}

/// Where slots of these lengths end after another offset, if there is such an offset.
fn end_past<O: Offset>(last: O, lengths: &[usize]) -> Option<O>
    requires { pos 0 ≤ℤ O.number last }
    ensures { MatchOption result (O.limit ≤ to_nat (O.number last) + sum lengths.now)
        (λ o. (O.number o ≡ pos (to_nat (O.number last) + sum lengths.now))
        × (to_nat (O.number last) + sum lengths.now < O.limit)) }
{
    let mut total = last.to_usize();
    for length in lengths {
        let Some(next) = total.checked_add(*length) else {
            return None;
        };
        total = next;
    }
    O::from_usize(total)
}

/// Appends where slots of these lengths end, of which the first begins at `start`.
fn push_ends<O: Offset>(items: &mut Vec<O>, start: usize, lengths: &[usize]) -> Mem<()>
    requires { start + sum lengths.now < O.limit }
    ensures ok { OnOk result
        (map O.number items.new.items ≡ map O.number items.old.items ++ ends start lengths.now) }
    ensures err { OnErr result (items.new.items ≡ items.old.items) }
{
    items.reserve(lengths.len())?;
    let mut end = start;
    for length in lengths {
        end += *length;
        items.push_reserved(offset_at(end));
    }
    Ok(())
}

/// Appends offsets that are as far from `end` as the others are from `first`.
fn push_moved<O: Offset>(items: &mut Vec<O>, first: usize, end: usize, others: &[O]) -> Mem<()>
    requires ascend { Ascend O.limit (pos first) (map O.number others.now) }
    requires fits { end + (end_from first (map O.number others.now) - first) < O.limit }
    ensures ok { OnOk result (map O.number items.new.items
        ≡ map O.number items.old.items ++ moved first end (map O.number others.now)) }
    ensures err { OnErr result (items.new.items ≡ items.old.items) }
{
    items.reserve(others.len())?;
    for other in others {
        let other = *other;
        items.push_reserved(offset_at(end + (other.to_usize() - first)));
    }
    Ok(())
}
