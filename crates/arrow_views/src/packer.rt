//! Packs values into views, and long ones into buffers of a limited length.
ghost use Rattle.std.specs.Prelude.{◌≡◌, ℕ, ◌+◌, ◌-◌, ◌^◌, ◌<◌, ◌≤◌, List, ◌++◌, [], cond, if◌then◌else◌, length as count, map, sum, take, slice_get, slice_set, Some, None, MatchResult, IfOk, OnOk};
ghost use Rattle.std.specs.List.{AllByRecursion};
ghost use Rattle.arrow_flat.specs.Natives.{octets};
ghost use Rattle.arrow_flat.specs.Packs.{view_limit, pack, packed_views};
ghost use Rattle.arrow_flat.specs.Views.{long, is_short, longs};
ghost use Rattle.arrow_views.specs.Packing.{last_of, packed_view, packed_more, packed_after, goes_on};

use crate::View;
use arrow_buffers::Buffer;
use arrow_types::Mem;
use std::alloc::Global;
use std::marker::Model;

/// Binary values that are read by position: what `pack_values` packs.
pub trait BinaryValues {
    ghost values: { Self → List (List ℕ) };

    /// The count of values.
    fn value_count(&self) -> usize
        ensures { result ≡ count (values self.now) };

    /// The value at a position.
    fn value_at(&self, i: usize) -> &[u8]
        requires { i < count (values self.now) }
        ensures { slice_get (values self.now) i ≡ Some (octets result.now) };
}

/// Packs the values of more than twelve bytes in order, seen as the limit and the buffers so far: a
/// buffer ends exactly where the next value would make it longer than the limit.
pub struct ViewPacker {
    alloc: Global,
    limit: u32,
    buffers: Vec<GrowingBuffer>,
    /// How many bytes the values that are still to come have together, as far as that is known.
    expected: usize,
}

/// By hand, so that each place where a value may end has one call to prove, and not the drop of
/// every field.
impl Drop for ViewPacker {
    fn drop(self) {
        let ViewPacker {
            alloc: _,
            limit: _,
            buffers: _,
            expected: _,
        } = self;
    }
}

impl Model for ViewPacker {
    ghost use Rattle.std.specs.Prelude.{◌≤◌, length};
    ghost use Rattle.std.specs.List.{AllByRecursion};
    ghost use Rattle.arrow_views.specs.Packing.{Packing};

    ghost Value = { Packing };

    ghost view = { λ p. record { limit = p.limit; buffers = p.buffers.items } };

    ghost invariant = { λ p. AllByRecursion (λ b. length b ≤ p.limit) p.buffers.items };
}

impl ViewPacker {
    /// A packer without values, whose buffers have at most `limit` bytes.
    pub fn new(alloc: Global, limit: u32) -> Mem<ViewPacker>
        ensures { IfOk result (λ p. p ≡ record { limit = limit; buffers = [] }) }
    {
        Ok(ViewPacker {
            alloc,
            limit,
            buffers: Vec::new(alloc),
            expected: 0,
        })
    }

    /// Expects values of more than twelve bytes that have `additional` bytes together: the next
    /// buffer gets room for them at once.
    pub fn expect(&mut self, additional: usize)
        ensures { self.new ≡ self.old }
    {
        self.expected = additional;
    }

    /// The count of buffers so far.
    pub fn buffer_count(&self) -> usize
        ensures { result ≡ count self.now.buffers }
    {
        self.buffers.len()
    }

    /// The view of one value more, which is packed where it has more than twelve bytes. Where
    /// memory runs out nothing is packed.
    pub fn push_value(&mut self, value: &[u8]) -> Mem<View>
        requires fits { count value.now ≤ self.old.limit }
        requires room { count self.old.buffers < u32.MAX }
        ensures { MatchResult result
            (λ view. (view ≡ packed_view self.old.limit self.old.buffers (octets value.now))
            × (self.new ≡ packed_after self.old (octets value.now)))
            (λ _. self.new ≡ self.old) }
    {
        if value.len() <= 12 {
            Ok(View::new_inline(value))
        } else {
            self.push(value)
        }
    }

    /// The same of a value of more than twelve bytes.
    pub fn push(&mut self, value: &[u8]) -> Mem<View>
        requires long { 12 < count value.now }
        requires fits { count value.now ≤ self.old.limit }
        requires room { count self.old.buffers < u32.MAX }
        ensures { MatchResult result
            (λ view. (view ≡ packed_view self.old.limit self.old.buffers (octets value.now))
            × (self.new ≡ packed_more self.old (octets value.now)))
            (λ _. self.new ≡ self.old) }
    {
        match end_for(&self.buffers, self.limit, value.len()) {
            Some(end) => {
                append(&mut self.buffers, value)?;
                self.expected = self.expected.saturating_sub(value.len());
                Ok(view_at(value, self.buffers.len() - 1, end))
            }
            None => {
                let buffer = GrowingBuffer::from_value(self.alloc, value, self.expected)?;
                self.buffers.push(buffer)?;
                self.expected = self.expected.saturating_sub(value.len());
                Ok(view_at(value, self.buffers.len() - 1, 0))
            }
        }
    }

    /// The buffers, of which none is copied.
    pub fn finish(self) -> Mem<Vec<Buffer<u8>>>
        ensures { IfOk result (λ bs. map octets bs.items ≡ self.buffers) }
    {
        let ViewPacker {
            alloc,
            limit: _,
            buffers: grown,
            expected: _,
        } = self;
        let mut buffers = Vec::new(alloc);
        for buffer in grown {
            buffers.push(buffer.finish(alloc)?)?;
        }
        Ok(buffers)
    }
}

/// The end of the last buffer, where a value of `length` bytes goes there; None where it begins a
/// buffer.
fn end_for(buffers: &[GrowingBuffer], limit: u32, length: usize) -> Option<usize>
    ensures { result
        ≡ cond (goes_on limit buffers.now length) (Some (count (last_of buffers.now))) None }
{
    let last = buffers.last()?;
    let end = last.len();
    if length <= limit as usize && end <= limit as usize - length {
        Some(end)
    } else {
        None
    }
}

/// Puts a value after the bytes of the last buffer.
fn append(buffers: &mut Vec<GrowingBuffer>, value: &[u8]) -> Mem<()>
    requires { 0 < count buffers.old.items }
    ensures { MatchResult result
        (λ _. buffers.new.items ≡ slice_set buffers.old.items (count buffers.old.items - 1)
        (last_of buffers.old.items ++ octets value.now))
        (λ _. buffers.new.items ≡ buffers.old.items) }
{
    let last = buffers.len() - 1;
    buffers[last].append(value)
}

/// The view of a value that stands in this buffer from `offset` on.
fn view_at(value: &[u8], buffer: usize, offset: usize) -> View
    requires long { 12 < count value.now }
    requires lengths { count value.now ≤ u32.MAX }
    requires buffers { buffer ≤ u32.MAX }
    requires offsets { offset ≤ u32.MAX }
    ensures { result ≡ long (count value.now) (take 4 (octets value.now)) buffer offset }
{
    View::new_long(
        value.len() as u32,
        [value[0], value[1], value[2], value[3]],
        buffer as u32,
        offset as u32,
    )
}

/// The view of each value in order, and the buffers of the values of more than twelve bytes: they
/// follow each other in their order, in buffers of at most 2^32 - 1 bytes each, where the next
/// begins as a value would make one longer.
///
/// The lengths are summed first, and the first buffer gets room for all at once: values that have
/// more bytes than there is memory are refused before one is copied.
pub fn pack_values<A: BinaryValues>(alloc: Global, values: &A) -> Mem<(Vec<View>, Vec<Buffer<u8>>)>
    requires fit { AllByRecursion (λ v. count v ≤ view_limit) (A.values values.now) }
    requires few { sum (map count (A.values values.now)) ≤ 2 ^ 62 }
    ensures views { IfOk result (λ p. p.0.items ≡ packed_views view_limit (A.values values.now)) }
    ensures buffers { IfOk result (λ p.
        map octets p.1.items ≡ pack view_limit (longs (A.values values.now))) }
{
    let mut packer = ViewPacker::new(alloc, u32::MAX)?;
    packer.expect(long_bytes(values));
    let views = push_values(alloc, &mut packer, values);
    let buffers = packer.finish();
    Ok((views?, buffers?))
}

/// The views of values that follow no other in a packer.
fn push_values<A: BinaryValues>(
    alloc: Global,
    packer: &mut ViewPacker,
    values: &A,
) -> Mem<Vec<View>>
    requires first { packer.old ≡ record { limit = view_limit; buffers = [] } }
    requires fit { AllByRecursion (λ v. count v ≤ view_limit) (A.values values.now) }
    requires few { sum (map count (A.values values.now)) ≤ 2 ^ 62 }
    ensures views { IfOk result (λ vs. vs.items ≡ packed_views view_limit (A.values values.now)) }
    ensures buffers { OnOk result
        (packer.new.buffers ≡ pack view_limit (longs (A.values values.now))) }
{
    let mut views = Vec::with_capacity(alloc, values.value_count())?;
    for i in 0..values.value_count() {
        let view = packer.push_value(values.value_at(i))?;
        views.push(view)?;
    }
    Ok(views)
}

/// How many bytes the values of more than twelve bytes have together.
fn long_bytes<A: BinaryValues>(values: &A) -> usize
    requires { sum (map count (A.values values.now)) ≤ 2 ^ 62 }
    ensures { result ≡ sum (map count (longs (A.values values.now))) }
{
    let mut total = 0;
    for i in 0..values.value_count() {
        total += long_length(values.value_at(i));
    }
    total
}

/// How many bytes a value adds to a buffer.
fn long_length(value: &[u8]) -> usize
    ensures { result ≡ (if is_short (octets value.now) then 0 else count value.now) }
{
    if value.len() <= 12 { 0 } else { value.len() }
}

/// A buffer that values are put into, seen as its bytes.
struct GrowingBuffer {
    bytes: Vec<u8>,
}

/// By hand, so that each place where a value may end has one call to prove, and not the drop of
/// every field.
impl Drop for GrowingBuffer {
    fn drop(self) {
        let GrowingBuffer { bytes: _ } = self;
    }
}

impl Model for GrowingBuffer {
    ghost use Rattle.std.specs.Prelude.{ℕ, List};
    ghost use Rattle.arrow_flat.specs.Natives.{octets};

    ghost Value = { List ℕ };

    ghost view = { λ b. octets b.bytes.items };
}

impl GrowingBuffer {
    /// A buffer of one value, with room for `room` bytes.
    fn from_value(alloc: Global, value: &[u8], room: usize) -> Mem<GrowingBuffer>
        ensures { IfOk result (λ b. b ≡ octets value.now) }
    {
        let mut bytes = Vec::with_capacity(alloc, room)?;
        bytes.extend_from_slice(value)?;
        Ok(GrowingBuffer { bytes })
    }

    /// The count of bytes.
    fn len(&self) -> usize
        ensures { result ≡ count self.now }
    {
        self.bytes.len()
    }

    /// Puts a value after the bytes. Where memory runs out they stay.
    fn append(&mut self, value: &[u8]) -> Mem<()>
        ensures { MatchResult result
            (λ _. self.new ≡ self.old ++ octets value.now)
            (λ _. self.new ≡ self.old) }
    {
        self.bytes.extend_from_slice(value)
    }

    /// The bytes as they are.
    fn finish(self, alloc: Global) -> Mem<Buffer<u8>>
        ensures { IfOk result (λ b. octets b ≡ self) }
    {
        let GrowingBuffer { bytes } = self;
        Buffer::from_vec(alloc, bytes)
    }
}
