//! Values of bytes that grow, one after another.
ghost use Rattle.std.specs.Prelude.{◌≡◌, ◌↔◌, ℕ, ◌+◌, ◌-◌, ◌<◌, ◌≤◌, length as count, [], ◌∷◌, ◌++◌, map, take, drop, slice_get, Some, IfOk, IfErr, OnOk, IsTrue};
ghost use Rattle.arrow_buffers.specs.Offsets.{AreOffsets, to_nat, end_of, IsGrowthRefusal};
ghost use Rattle.arrow_flat.specs.Natives.{AreBytes};
ghost use Rattle.arrow_flat.specs.Pieces.{pieces};
ghost use Rattle.arrow_push_bytes.specs.Strings.{total_of, IsOverflow, Appends};

use arrow_buffers::{Buffer, Offset, OffsetError, Offsets, OffsetsBuffer};
use arrow_flat::{Access, ByteString, TryClone};
use arrow_types::{Mem, PolarsError, PolarsResult, Reason};
use std::alloc::Global;
use std::marker::Model;

/// Values of bytes that grow at their end, seen as their list: offsets, and the bytes of all values
/// one after another.
pub struct ByteStrings<O: Offset> {
    offsets: Offsets<O>,
    bytes: Vec<u8>,
}

/// By hand: a place where a value may end then has one call to prove, and not the drop of each
/// field.
impl<O: Offset> Drop for ByteStrings<O> {
    fn drop(self) {
        let ByteStrings {
            offsets: _,
            bytes: _,
        } = self;
    }
}

impl<O: Offset> Model for ByteStrings<O> {
    ghost use Rattle.std.specs.Prelude.{ℕ, List, map};
    ghost use Rattle.arrow_buffers.specs.Offsets.{to_nat};
    ghost use Rattle.arrow_flat.specs.Pieces.{pieces};
    ghost use Rattle.arrow_push_bytes.specs.Strings.{AreStrings};

    ghost Value = { List (List ℕ) };

    ghost view = { λ b. pieces (map to_nat (map O.number b.offsets)) b.bytes.items };

    ghost invariant = { λ b.
        let offsets = map O.number b.offsets in
        let bytes = b.bytes.items in
        AreStrings offsets bytes (pieces (map to_nat offsets) bytes) };
}

impl<O: Offset> ByteStrings<O> {
    /// No strings, to grow in the given memory.
    pub fn new(alloc: Global) -> Mem<ByteStrings<O>>
        ensures { IfOk result (λ b. b ≡ []) }
    {
        Ok(ByteStrings {
            offsets: Offsets::new(alloc)?,
            bytes: Vec::new(alloc),
        })
    }

    /// The count of strings.
    pub fn len(&self) -> usize
        ensures { result ≡ count self.now }
    {
        self.offsets.len_proxy()
    }

    /// How many bytes the strings have together.
    pub fn total(&self) -> usize
        ensures value { result ≡ total_of self.now }
        ensures fits { total_of self.now < O.limit }
    {
        self.offsets.last().to_usize()
    }

    /// The string at a place.
    pub fn value(&self, i: usize) -> &[u8]
        requires { i < count self.now }
        ensures value { slice_get self.now i ≡ Some result.now }
        ensures bytes { AreBytes result.now }
    {
        let (start, end) = self.offsets.start_end(i);
        between(self.bytes.as_slice(), start, end)
    }

    /// The memory that the strings grow in.
    pub fn allocator(&self) -> Global {
        *self.bytes.allocator()
    }

    /// Appends a string. Refused as ComputeError LengthOverflow where the bytes together pass the
    /// greatest offset. A refused call leaves the strings as they were.
    pub fn try_push(&mut self, value: &[u8]) -> PolarsResult<()>
        ensures { Appends O.limit (value.now ∷ []) (total_of self.old + count value.now)
            self.old self.new result }
    {
        let before = self.offsets.len_proxy();
        if let Err(error) = self.offsets.try_push(value.len()) {
            return Err(growth_refusal(error));
        }
        if let Err(refused) = self.bytes.extend_from_slice(value) {
            self.offsets.truncate(before);
            return Err(refused.into());
        }
        Ok(())
    }

    /// Appends the strings of another, or none of them: refused as ComputeError LengthOverflow
    /// where the bytes of both together pass the greatest offset.
    pub fn try_extend(&mut self, other: &ByteStrings<O>) -> PolarsResult<()>
        ensures fits { total_of self.old < O.limit }
        ensures extended { Appends O.limit other.now (total_of self.old + total_of other.now)
            self.old self.new result }
    {
        let bytes = other.total();
        if !has_offset::<O>(self.total() + bytes) {
            return Err(PolarsError::ComputeError(Reason::LengthOverflow));
        }
        self.reserve_bytes(other.len(), bytes)?;
        let before = self.len();
        if let Err(error) = self.push_all(other) {
            self.truncate(before);
            return Err(error);
        }
        Ok(())
    }

    /// Appends the strings of another one by one. A refused call keeps those before the refused
    /// one.
    fn push_all(&mut self, other: &ByteStrings<O>) -> PolarsResult<()>
        requires fits { total_of self.old < O.limit }
        ensures front { take (count self.old) self.new ≡ self.old }
        ensures all { OnOk result (self.new ≡ self.old ++ other.now) }
        ensures within { OnOk result (total_of self.old + total_of other.now < O.limit) }
        ensures refused { IfErr result
            (λ e. IsOverflow O.limit (total_of self.old + total_of other.now) e) }
    {
        for i in 0..other.len() {
            self.try_push(other.value(i))?;
        }
        Ok(())
    }

    /// Keeps the first `len` strings, or all where there are no more. Takes no memory.
    pub fn truncate(&mut self, len: usize)
        ensures { self.new ≡ take len self.old }
    {
        self.offsets.truncate(len);
        let end = self.offsets.last().to_usize();
        self.bytes.truncate(end);
    }

    /// Makes room for `additional` strings more, of a byte each.
    pub fn reserve(&mut self, additional: usize) -> Mem<()>
        ensures { self.new ≡ self.old }
    {
        self.reserve_bytes(additional, additional)
    }

    /// Makes room for `additional` strings more, of `bytes` bytes together.
    pub fn reserve_bytes(&mut self, additional: usize, bytes: usize) -> Mem<()>
        ensures { self.new ≡ self.old }
    {
        self.offsets.reserve(additional)?;
        self.bytes.reserve(bytes)
    }

    /// Gives room back that no string needs.
    pub fn shrink_to_fit(&mut self)
        ensures { self.new ≡ self.old }
    {
        self.offsets.shrink_to_fit();
        self.bytes.shrink_to_fit();
    }

    /// The offsets and the bytes, to be shared. No string is left, where memory is short too.
    pub fn finish(&mut self) -> Mem<(OffsetsBuffer<O>, Buffer<u8>)>
        ensures value { IfOk result (λ p. pieces (map to_nat (map O.number p.0)) p.1 ≡ self.old) }
        ensures sound { IfOk result (λ p. AreOffsets O.limit (map O.number p.0)) }
        ensures slots { IfOk result (λ p. count p.0 ≡ count self.old + 1) }
        ensures end { IfOk result (λ p. end_of (map O.number p.0) ≡ count p.1) }
        ensures bytes { IfOk result (λ p. AreBytes p.1) }
        ensures empty { self.new ≡ [] }
    {
        match ByteStrings::new(self.allocator()) {
            Ok(fresh) => std::mem::replace(self, fresh).freeze(),
            Err(refused) => {
                self.truncate(0);
                Err(refused)
            }
        }
    }

    /// The offsets and the bytes, to be shared.
    fn freeze(self) -> Mem<(OffsetsBuffer<O>, Buffer<u8>)>
        ensures value { IfOk result (λ p. pieces (map to_nat (map O.number p.0)) p.1 ≡ self) }
        ensures sound { IfOk result (λ p. AreOffsets O.limit (map O.number p.0)) }
        ensures slots { IfOk result (λ p. count p.0 ≡ count self + 1) }
        ensures end { IfOk result (λ p. end_of (map O.number p.0) ≡ count p.1) }
        ensures bytes { IfOk result (λ p. AreBytes p.1) }
    {
        prove!(self.len() == self.offsets.len_proxy());
        let ByteStrings { offsets, bytes } = self;
        let alloc = *bytes.allocator();
        let offsets = offsets.freeze()?;
        Ok((offsets, Buffer::from_vec(alloc, bytes)?))
    }
}

/// Whether offsets reach `end`.
fn has_offset<O: Offset>(end: usize) -> bool
    ensures { IsTrue result ↔ (end < O.limit) }
{
    O::from_usize(end).is_some()
}

impl<O: Offset> TryClone for ByteStrings<O> {
    fn try_clone(&self, alloc: Global) -> Mem<ByteStrings<O>> {
        let mut bytes = Vec::new(alloc);
        bytes.extend_from_slice(self.bytes.as_slice())?;
        let offsets = self.offsets.try_clone(alloc)?;
        Ok(ByteStrings { offsets, bytes })
    }
}

impl<'a, O: Offset> Access<&'a [u8], ByteString> for &'a ByteStrings<O> {
    ghost use Rattle.std.specs.Prelude.{length};

    ghost seen = { λ x. x.now };

    ghost size = { λ s. length s.now };

    ghost items = { λ s. s.now };

    fn count(&self) -> usize {
        (*self).len()
    }

    fn item(&self, i: usize) -> &'a [u8] {
        (*self).value(i)
    }
}

/// The error of a push whose offset was refused.
fn growth_refusal(error: OffsetError) -> PolarsError
    ensures { (limit end : ℕ) → IsGrowthRefusal error limit end → IsOverflow limit end result }
{
    match error {
        OffsetError::Overflow => PolarsError::ComputeError(Reason::LengthOverflow),
        _ => PolarsError::OutOfMemory,
    }
}

/// The bytes between two places.
fn between(bytes: &[u8], start: usize, end: usize) -> &[u8]
    requires { (start ≤ end) × (end ≤ count bytes.now) }
    ensures value { result.now ≡ take (end - start) (drop start bytes.now) }
    ensures bytes { AreBytes result.now }
{
    &bytes[start..end]
}
