//! The bits of a bitmap, in order.
ghost use Rattle.std.specs.Prelude.{◌≡◌, ◌<◌, ◌≤◌, length as count, Some, IfSome};
ghost use Rattle.std.specs.Iterator.{YieldsFirst, YieldsLast, item_count, UpTo, at_most};
ghost use Rattle.std.specs.Iterator.SizeHint.{IsWithinCount};

use crate::bits::bit_at;
use std::iter::FusedIterator;
use std::marker::Model;

/// The bits of a bitmap, seen as the list of those that are left.
#[derive(Drop)]
pub struct BitmapIter<'a> {
    pub(crate) bytes: &'a [u8],
    pub(crate) front: usize,
    pub(crate) back: usize,
}

impl<'a> Model for BitmapIter<'a> {
    ghost use Rattle.std.specs.Prelude.{◌-◌, ◌*◌, ◌≤◌, Bool, List, length};
    ghost use Rattle.arrow_buffers.specs.Bits.{bits_of};

    ghost Value = { List Bool };

    ghost view = { λ it. bits_of it.bytes.now it.front (it.back - it.front) };

    ghost invariant = { λ it. (it.front ≤ it.back) × (it.back ≤ 8 * length it.bytes.now) };
}

impl<'a> Iterator for BitmapIter<'a> {
    type Item = bool;

    ghost next_gives = { YieldsFirst (λ rest. rest) };

    ghost remaining = { item_count (λ rest. rest) };

    fn next(&mut self) -> Option<bool> {
        if self.front == self.back {
            return None;
        }
        let bit = bit_at(self.bytes, self.front);
        self.front += 1;
        Some(bit)
    }

    fn size_hint(&self) -> (usize, Option<usize>)
        ensures lower { IsWithinCount result.0 (at_most (count self.now)) }
        ensures upper { IfSome result.1 (UpTo (at_most (count self.now))) }
        ensures exact { (result.0 ≡ count self.now) × (result.1 ≡ Some result.0) }
    {
        let len = self.len();
        (len, Some(len))
    }
}

impl<'a> DoubleEndedIterator for BitmapIter<'a> {
    ghost next_back_gives = { YieldsLast (λ rest. rest) };

    fn next_back(&mut self) -> Option<bool> {
        if self.front == self.back {
            return None;
        }
        self.back -= 1;
        Some(bit_at(self.bytes, self.back))
    }
}

impl<'a> ExactSizeIterator for BitmapIter<'a> {
    fn len(&self) -> usize {
        self.back - self.front
    }
}

impl<'a> FusedIterator for BitmapIter<'a> {}
