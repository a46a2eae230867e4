//! A window over shared items.
ghost use Rattle.std.specs.Prelude.{◌≡◌, ◌+◌, ◌<◌, ◌≤◌, length as count, take, drop, IfOk};
ghost use Rattle.std.specs.Slice.Iter.{iter_rest};

use crate::Mem;
use std::alloc::Global;
use std::marker::Model;
use std::rc::Rc;
use std::slice::Iter;

/// Items that may be shared, seen as the list of those in its window.
pub struct Buffer<T> {
    shared: Rc<Vec<T>>,
    start: usize,
    slots: usize,
}

/// By hand: where a value may end there is one call to prove then, not the drop of each field.
impl<T: Drop> Drop for Buffer<T> {
    fn drop(self) {
        let Buffer {
            shared: _,
            start: _,
            slots: _,
        } = self;
    }
}

impl<T> Model for Buffer<T> {
    ghost use Rattle.std.specs.Prelude.{◌+◌, ◌≤◌, List, length, take, drop};

    ghost Value = { List T };

    ghost view = { λ b. take b.slots (drop b.start b.shared.value.items) };

    ghost invariant = { λ b. b.start + b.slots ≤ length b.shared.value.items };
}

impl<T: Drop> Buffer<T> {
    /// The items of a vector, whose memory it takes over.
    pub fn from_vec(alloc: Global, items: Vec<T>) -> Mem<Buffer<T>>
        ensures { IfOk result (λ b. b ≡ items.items) }
    {
        let slots = items.len();
        Ok(Buffer {
            shared: Rc::new(alloc, items)?,
            start: 0,
            slots,
        })
    }

    /// The count of items.
    pub fn len(&self) -> usize
        ensures { result ≡ count self.now }
    {
        self.slots
    }

    /// The items in order.
    pub fn as_slice(&self) -> &[T]
        ensures { result.now ≡ self.now }
    {
        &self.shared.as_ref().as_slice()[self.start..self.start + self.slots]
    }

    /// Gives the items in order.
    pub fn iter(&self) -> Iter<'_, T>
        ensures { iter_rest result ≡ self.now }
    {
        self.as_slice().iter()
    }

    /// Keeps the window of `length` items from `offset` on.
    pub fn slice(&mut self, offset: usize, length: usize)
        requires { offset + length ≤ count self.old }
        ensures { self.new ≡ take length (drop offset self.old) }
    {
        self.start += offset;
        self.slots = length;
    }

    /// Another owner of the same items.
    pub fn try_clone(&self, _alloc: Global) -> Mem<Buffer<T>>
        ensures { IfOk result (λ b. b ≡ self.now) }
    {
        Ok(Buffer {
            shared: self.shared.clone()?,
            start: self.start,
            slots: self.slots,
        })
    }
}
