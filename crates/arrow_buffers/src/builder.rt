//! Bits that grow into a mask.
ghost use Rattle.std.specs.Prelude.{◌≡◌, ◌+◌, ◌<◌, ◌≤◌, length as count, [], ◌∷◌, ◌++◌, take, drop, replicate, get_or, false, IfOk, OnOk, OnErr};
ghost use Rattle.arrow_buffers.specs.Bits.{plain, needed_mask};

use crate::{Bitmap, Mem, MutableBitmap};
use std::alloc::Global;
use std::marker::Model;

/// Bits that grow at their end, seen as their list.
pub struct BitmapBuilder {
    bits: MutableBitmap,
}

/// By hand: where a value may end there is one call to prove then, not the drop of each field.
impl Drop for BitmapBuilder {
    fn drop(self) {
        let BitmapBuilder { bits: _ } = self;
    }
}

impl Model for BitmapBuilder {
    ghost use Rattle.std.specs.Prelude.{Bool, List};

    ghost Value = { List Bool };

    ghost view = { λ b. b.bits };
}

impl BitmapBuilder {
    /// No bits, to grow in the given memory.
    pub fn new(alloc: Global) -> BitmapBuilder
        ensures { result ≡ [] }
    {
        BitmapBuilder {
            bits: MutableBitmap::new(alloc),
        }
    }

    /// The count of bits.
    pub fn len(&self) -> usize
        ensures { result ≡ count self.now }
    {
        self.bits.len()
    }

    /// The bit at `i`.
    pub fn get(&self, i: usize) -> bool
        requires { i < count self.now }
        ensures { result ≡ get_or self.now i false }
    {
        self.bits.get(i)
    }

    /// Appends one bit.
    pub fn push(&mut self, bit: bool) -> Mem<()>
        ensures ok { OnOk result (self.new ≡ self.old ++ bit ∷ []) }
        ensures err { OnErr result (self.new ≡ self.old) }
    {
        self.bits.push(bit)
    }

    /// Appends `n` equal bits.
    pub fn extend_constant(&mut self, n: usize, bit: bool) -> Mem<()>
        ensures ok { OnOk result (self.new ≡ self.old ++ replicate n bit) }
        ensures err { OnErr result (self.new ≡ self.old) }
    {
        self.bits.extend_constant(n, bit)
    }

    /// Appends `len` bits of a bitmap, those from `start` on.
    pub fn extend_from_range(&mut self, bits: &Bitmap, start: usize, len: usize) -> Mem<()>
        requires { start + len ≤ count bits.now.bits }
        ensures ok { OnOk result (self.new ≡ self.old ++ take len (drop start bits.now.bits)) }
        ensures err { OnErr result (self.new ≡ self.old) }
    {
        self.bits.extend_from_range(bits, start, len)
    }

    /// Keeps the first `len` bits, or all where there are no more.
    pub fn truncate(&mut self, len: usize)
        ensures { self.new ≡ take len self.old }
    {
        self.bits.truncate(len);
    }

    /// Makes room for `n` more bits.
    pub fn reserve(&mut self, n: usize) -> Mem<()>
        ensures { self.new ≡ self.old }
    {
        self.bits.reserve(n)
    }

    /// An equal copy, with bytes of its own.
    pub fn try_clone(&self, alloc: Global) -> Mem<BitmapBuilder>
        ensures { IfOk result (λ b. b ≡ self.now) }
    {
        Ok(BitmapBuilder {
            bits: self.bits.try_clone(alloc)?,
        })
    }

    /// The bits as a bitmap, with no bits before them.
    pub fn freeze(self) -> Mem<Bitmap>
        ensures { IfOk result (λ b. b ≡ plain self) }
    {
        let BitmapBuilder { bits } = self;
        bits.freeze()
    }

    /// The bits as a mask, or `None` where every bit is set.
    pub fn into_opt_validity(self) -> Mem<Option<Bitmap>>
        ensures { IfOk result (λ mask. mask ≡ needed_mask (plain self)) }
    {
        Ok(self.freeze()?.into_opt_validity())
    }
}
