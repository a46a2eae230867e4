//! The iterator over items that are read by position: of each array, its slots and its values.
ghost use Rattle.std.specs.Prelude.{◌≡◌, length, Some, IfSome};
ghost use Rattle.std.specs.Iterator.{at_most, item_count, UpTo, YieldsFirstBy, YieldsLastBy};
ghost use Rattle.std.specs.Iterator.SizeHint.{IsWithinCount};

use crate::{Access, ArrayAccessor, NativeType, PrimitiveArray, Slots, TryClone, Values};
use arrow_types::Mem;
use std::alloc::Global;
use std::iter::FusedIterator;
use std::marker::{Model, PhantomData};

/// The items in order, from both ends, seen as the list of those that are left.
#[derive(Drop)]
pub struct AccessIter<A: Access<I, S>, I, S> {
    access: A,
    item: PhantomData<(I, S)>,
    front: usize,
    back: usize,
}

/// The slots of an array, `None` for a null.
pub type ArrayIter<A, I, S> = AccessIter<Slots<A>, Option<I>, Option<S>>;

/// The values of an array, those under nulls too. Upstream's `ArrayValuesIter`.
pub type ArrayValuesIter<A, I, S> = AccessIter<Values<A>, I, S>;

impl<A: Access<I, S>, I, S> Model for AccessIter<A, I, S> {
    ghost use Rattle.std.specs.Prelude.{◌≡◌, ◌-◌, ◌≤◌, List, length, take, drop};

    ghost Value = { List S };

    ghost view = { λ it. take (it.back - it.front) (drop it.front (A.items it.access)) };

    ghost invariant = { λ it. (it.front ≤ it.back) × (it.back ≤ A.size it.access)
        × (length (A.items it.access) ≡ A.size it.access) };
}

impl<I, S, A: Access<I, S>> AccessIter<A, I, S> {
    /// Each item, from both ends.
    pub fn over(access: A) -> AccessIter<A, I, S>
        ensures { result ≡ A.items access }
    {
        let back = access.count();
        AccessIter {
            access,
            item: PhantomData,
            front: 0,
            back,
        }
    }
}

impl<I, S, A: ArrayAccessor<I, S>> AccessIter<Slots<A>, Option<I>, Option<S>> {
    ghost use Rattle.arrow_flat.specs.Primitives.{masked_values};

    /// Each slot of the array, `None` for a null, from both ends.
    pub fn new(array: A) -> AccessIter<Slots<A>, Option<I>, Option<S>>
        ensures { result ≡ masked_values (A.mask array) (A.values array) }
    {
        AccessIter::over(Slots(array))
    }
}

impl<I, S, A: ArrayAccessor<I, S>> AccessIter<Values<A>, I, S> {
    /// Each value of the array, those under nulls too, from both ends.
    pub fn new(array: A) -> AccessIter<Values<A>, I, S>
        ensures { result ≡ A.values array }
    {
        AccessIter::over(Values(array))
    }
}

impl<I, S, A: Access<I, S>> Iterator for AccessIter<A, I, S> {
    type Item = I;

    ghost next_gives = { YieldsFirstBy A.seen (λ rest. rest) };

    ghost remaining = { item_count (λ rest. rest) };

    fn next(&mut self) -> Option<I> {
        if self.front == self.back {
            return None;
        }
        let item = self.access.item(self.front);
        self.front += 1;
        Some(item)
    }

    fn size_hint(&self) -> (usize, Option<usize>)
        ensures lower { IsWithinCount result.0 (at_most (length self.now)) }
        ensures upper { IfSome result.1 (UpTo (at_most (length self.now))) }
        ensures exact { (result.0 ≡ length self.now) × (result.1 ≡ Some result.0) }
    {
        let len = self.len();
        (len, Some(len))
    }
}

impl<I, S, A: Access<I, S>> DoubleEndedIterator for AccessIter<A, I, S> {
    ghost next_back_gives = { YieldsLastBy A.seen (λ rest. rest) };

    fn next_back(&mut self) -> Option<I> {
        if self.front == self.back {
            return None;
        }
        self.back -= 1;
        Some(self.access.item(self.back))
    }
}

impl<I, S, A: Access<I, S>> ExactSizeIterator for AccessIter<A, I, S> {
    fn len(&self) -> usize {
        self.back - self.front
    }
}

impl<I, S, A: Access<I, S>> FusedIterator for AccessIter<A, I, S> {}

/// The copy has the items that are left.
impl<I, S, A: Access<I, S> + TryClone> TryClone for AccessIter<A, I, S> {
    fn try_clone(&self, alloc: Global) -> Mem<AccessIter<A, I, S>> {
        let access = self.access.try_clone(alloc)?;
        Ok(AccessIter {
            access,
            item: PhantomData,
            front: self.front,
            back: self.back,
        })
    }
}
