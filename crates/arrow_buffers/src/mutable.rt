//! Bits that grow.
ghost use Rattle.std.specs.Prelude.{◌≡◌, ◌+◌, ◌*◌, ◌<◌, ◌≤◌, ◌^◌, length as count, [], ◌∷◌, ◌++◌, take, drop, replicate, get_or, slice_set, false, IfOk, OnOk, OnErr};
ghost use Rattle.arrow_buffers.specs.Bits.{plain, bits_of};
ghost use Rattle.arrow_buffers.specs.Writes.{AppendsBits};

use crate::bits::{append_bits, append_equal, bit_at, write_bit};
use crate::{Bitmap, Buffer, Mem};
use std::alloc::{AllocError, Global};
use std::marker::Model;

/// Bits that grow at their end, seen as their list.
pub struct MutableBitmap {
    bytes: Vec<u8>,
    slots: usize,
}

/// By hand: where a value may end there is one call to prove then, not the drop of each field.
impl Drop for MutableBitmap {
    fn drop(self) {
        let MutableBitmap { bytes: _, slots: _ } = self;
    }
}

impl Model for MutableBitmap {
    ghost use Rattle.std.specs.Prelude.{◌*◌, ◌^◌, ◌<◌, ◌≤◌, Bool, List, length};
    ghost use Rattle.arrow_buffers.specs.Bits.{bits_of};

    ghost Value = { List Bool };

    ghost view = { λ b. bits_of b.bytes.items 0 b.slots };

    ghost invariant = { λ b. (b.slots ≤ 8 * length b.bytes.items) × (b.slots < 2 ^ 64) };
}

impl MutableBitmap {
    /// No bits, to grow in the given memory.
    pub fn new(alloc: Global) -> MutableBitmap
        ensures { result ≡ [] }
    {
        MutableBitmap {
            bytes: Vec::new(alloc),
            slots: 0,
        }
    }

    /// The count of bits.
    pub fn len(&self) -> usize
        ensures { result ≡ count self.now }
    {
        self.slots
    }

    /// The bit at `i`.
    pub fn get(&self, i: usize) -> bool
        requires { i < count self.now }
        ensures { result ≡ get_or self.now i false }
    {
        bit_at(self.bytes.as_slice(), i)
    }

    /// Writes the bit at `i`.
    pub fn set(&mut self, i: usize, bit: bool)
        requires { i < count self.old }
        ensures { self.new ≡ slice_set self.old i bit }
    {
        write_bit(&mut self.bytes, i, bit);
    }

    /// Appends one bit.
    pub fn push(&mut self, bit: bool) -> Mem<()>
        ensures ok { OnOk result (self.new ≡ self.old ++ bit ∷ []) }
        ensures err { OnErr result (self.new ≡ self.old) }
    {
        let Some(slots) = self.slots.checked_add(1) else {
            return Err(AllocError);
        };
        grow(&mut self.bytes, self.slots, bit)?;
        self.slots = slots;
        Ok(())
    }

    /// Appends `n` equal bits.
    pub fn extend_constant(&mut self, n: usize, bit: bool) -> Mem<()>
        ensures ok { OnOk result (self.new ≡ self.old ++ replicate n bit) }
        ensures err { OnErr result (self.new ≡ self.old) }
    {
        let Some(slots) = self.slots.checked_add(n) else {
            return Err(AllocError);
        };
        append_equal(&mut self.bytes, self.slots, n, bit)?;
        self.slots = slots;
        Ok(())
    }

    /// Appends `len` bits of a bitmap, those from `start` on.
    pub fn extend_from_range(&mut self, bits: &Bitmap, start: usize, len: usize) -> Mem<()>
        requires { start + len ≤ count bits.now.bits }
        ensures ok { OnOk result (self.new ≡ self.old ++ take len (drop start bits.now.bits)) }
        ensures err { OnErr result (self.new ≡ self.old) }
    {
        let Some(slots) = self.slots.checked_add(len) else {
            return Err(AllocError);
        };
        append_bits(
            &mut self.bytes,
            self.slots,
            bits.bytes.as_slice(),
            bits.start + start,
            len,
        )?;
        self.slots = slots;
        Ok(())
    }

    /// Keeps the first `len` bits, or all where there are no more.
    pub fn truncate(&mut self, len: usize)
        ensures { self.new ≡ take len self.old }
    {
        if len < self.slots {
            self.slots = len;
        }
    }

    /// Makes room for `n` more bits.
    pub fn reserve(&mut self, n: usize) -> Mem<()>
        ensures { self.new ≡ self.old }
    {
        let Some(slots) = self.slots.checked_add(n) else {
            return Err(AllocError);
        };
        let bytes = slots.div_ceil(8);
        self.bytes.reserve(bytes.saturating_sub(self.bytes.len()))
    }

    /// Gives room back that no bit needs.
    pub fn shrink_to_fit(&mut self)
        ensures { self.new ≡ self.old }
    {
        self.bytes.shrink_to_fit();
    }

    /// An equal copy, with bytes of its own.
    pub fn try_clone(&self, alloc: Global) -> Mem<MutableBitmap>
        ensures { IfOk result (λ b. b ≡ self.now) }
    {
        Ok(MutableBitmap {
            bytes: Vec::from_slice(alloc, self.bytes.as_slice())?,
            slots: self.slots,
        })
    }

    /// The bits as a bitmap, with no bits before them.
    pub fn freeze(self) -> Mem<Bitmap>
        ensures { IfOk result (λ b. b ≡ plain self) }
    {
        let MutableBitmap { bytes, slots } = self;
        let alloc = *bytes.allocator();
        Ok(Bitmap {
            bytes: Buffer::from_vec(alloc, bytes)?,
            start: 0,
            slots,
        })
    }
}

/// Makes room for a bit after the first `slots` ones.
fn make_room(bytes: &mut Vec<u8>, slots: usize) -> Mem<()>
    requires { slots ≤ 8 * count bytes.old.items }
    ensures ok { OnOk result ((bits_of bytes.new.items 0 slots ≡ bits_of bytes.old.items 0 slots)
        × (slots < 8 * count bytes.new.items)) }
    ensures err { OnErr result (bytes.new.items ≡ bytes.old.items) }
{
    if slots / 8 == bytes.len() {
        bytes.push(0)?;
    }
    Ok(())
}

/// Writes a bit after the first `slots` ones.
fn grow(bytes: &mut Vec<u8>, slots: usize, bit: bool) -> Mem<()>
    requires { slots ≤ 8 * count bytes.old.items }
    ensures ok { OnOk result (AppendsBits bytes.old.items bytes.new.items slots 1 (bit ∷ [])) }
    ensures err { OnErr result (bytes.new.items ≡ bytes.old.items) }
{
    make_room(bytes, slots)?;
    write_bit(bytes, slots, bit);
    Ok(())
}
