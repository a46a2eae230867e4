//! A window over shared bits.
ghost use Rattle.std.specs.Prelude.{◌≡◌, ◌+◌, ◌<◌, ◌≤◌, length as count, get_or, false, replicate, IfOk};
ghost use Rattle.std.specs.List.{count_by};
ghost use Rattle.arrow_buffers.specs.Bits.{Bits, plain, cut_bits, count_unset, needed_mask, byte_length, both, same};

use crate::bits::{bit_at, count_set};
use crate::{BitmapIter, Buffer, Mem, MutableBitmap};
use std::alloc::Global;
use std::marker::Model;

/// A window over shared bits, seen as the list of its bits and the count of bits before them in
/// their byte. Upstream's `Bitmap`.
pub struct Bitmap {
    pub(crate) bytes: Buffer<u8>,
    pub(crate) start: usize,
    pub(crate) slots: usize,
}

/// By hand: where a value may end there is one call to prove then, not the drop of each field.
impl Drop for Bitmap {
    fn drop(self) {
        let Bitmap {
            bytes: _,
            start: _,
            slots: _,
        } = self;
    }
}

impl Model for Bitmap {
    ghost use Rattle.std.specs.Prelude.{◌+◌, ◌*◌, ◌^◌, ◌<◌, ◌≤◌, length};
    ghost use Rattle.arrow_buffers.specs.Bits.{Bits, bits_code, bits_of, lead_of};

    ghost Value = { Bits };

    ghost coded = { bits_code };

    ghost view = { λ b. record {
      bits = bits_of b.bytes b.start b.slots;
      lead = lead_of b.start b.slots;
    } };

    ghost invariant = { λ b. (b.start + b.slots ≤ 8 * length b.bytes)
        × (b.start + b.slots < 2 ^ 64) };
}

impl Bitmap {
    /// The bits of a slice, with none before them.
    pub fn from_bools(alloc: Global, bits: &[bool]) -> Mem<Bitmap>
        ensures { IfOk result (λ b. b ≡ plain bits.now) }
    {
        let mut built = MutableBitmap::new(alloc);
        for bit in bits {
            built.push(*bit)?;
        }
        built.freeze()
    }

    /// `length` equal bits, with none before them.
    pub fn new_with_value(alloc: Global, value: bool, length: usize) -> Mem<Bitmap>
        ensures { IfOk result (λ b. b ≡ plain (replicate length value)) }
    {
        let mut built = MutableBitmap::new(alloc);
        built.extend_constant(length, value)?;
        built.freeze()
    }

    /// The count of bits.
    pub fn len(&self) -> usize
        ensures value { result ≡ count self.now.bits }
        ensures led { self.now.lead < 8 }
    {
        self.slots
    }

    /// The count of bits before the first one in its byte, 0 to 7, and 0 for no bits.
    pub fn lead(&self) -> usize
        ensures value { result ≡ self.now.lead }
        ensures bound { result < 8 }
        ensures none { count self.now.bits ≡ 0 → result ≡ 0 }
    {
        if self.slots == 0 { 0 } else { self.start % 8 }
    }

    /// How many bytes the bits stand in, with those before them in the first byte.
    pub fn byte_len(&self) -> usize
        ensures { result ≡ byte_length self.now }
    {
        if self.slots == 0 {
            return 0;
        }
        (self.start % 8 + self.slots).div_ceil(8)
    }

    /// The bit at `i`.
    pub fn get_bit(&self, i: usize) -> bool
        requires { i < count self.now.bits }
        ensures { result ≡ get_or self.now.bits i false }
    {
        bit_at(self.bytes.as_slice(), self.start + i)
    }

    /// The count of bits that are set, whole bytes at a time.
    pub fn set_bits(&self) -> usize
        ensures value { result ≡ count_by same self.now.bits }
        ensures fits { result ≤ count self.now.bits }
    {
        count_set(self.bytes.as_slice(), self.start, self.start + self.slots)
    }

    /// The count of bits that are unset, whole bytes at a time.
    pub fn unset_bits(&self) -> usize
        ensures { result ≡ count_unset self.now.bits }
    {
        self.slots - self.set_bits()
    }

    /// The bits as a mask of slots, or `None` where every bit is set: a mask without nulls is
    /// dropped.
    pub fn into_opt_validity(self) -> Option<Bitmap>
        ensures { result ≡ needed_mask self }
    {
        if self.unset_bits() == 0 {
            return None;
        }
        Some(self)
    }

    /// Gives the bits in order.
    pub fn iter(&self) -> BitmapIter<'_>
        ensures { result ≡ self.now.bits }
    {
        BitmapIter {
            bytes: self.bytes.as_slice(),
            front: self.start,
            back: self.start + self.slots,
        }
    }

    /// The bits that are set in both, with none before them.
    pub fn and(&self, alloc: Global, other: &Bitmap) -> Mem<Bitmap>
        requires { count self.now.bits ≡ count other.now.bits }
        ensures { IfOk result (λ b. b ≡ plain (both self.now.bits other.now.bits)) }
    {
        let mut built = MutableBitmap::new(alloc);
        for i in 0..self.len() {
            built.push(self.get_bit(i) & other.get_bit(i))?;
        }
        built.freeze()
    }

    /// Keeps the window of `length` bits from `offset` on.
    pub fn slice(&mut self, offset: usize, length: usize)
        requires { offset + length ≤ count self.old.bits }
        ensures { self.new ≡ cut_bits self.old offset length }
    {
        self.start += offset;
        self.slots = length;
    }

    /// Another owner of the same bits.
    pub fn try_clone(&self, alloc: Global) -> Mem<Bitmap>
        ensures { IfOk result (λ b. b ≡ self.now) }
    {
        Ok(Bitmap {
            bytes: self.bytes.try_clone(alloc)?,
            start: self.start,
            slots: self.slots,
        })
    }
}
