//! The iterator over items that are made in memory.
ghost use Rattle.std.specs.Prelude.{◌≡◌, length, Some, IfSome};
ghost use Rattle.std.specs.Iterator.{at_most, item_count, UpTo};
ghost use Rattle.std.specs.Iterator.SizeHint.{IsWithinCount};

use crate::{MadeAccess, MadeSlots, MadeValues, MakingAccessor, TryClone};
use arrow_types::Mem;
use std::alloc::Global;
use std::iter::FusedIterator;
use std::marker::{Model, PhantomData};

/// The items in order, from both ends, each made when it is asked for, seen as the list of what is
/// left.
///
/// An item that can't be made is an `Err`, and its position is passed all the same.
#[derive(Drop)]
pub struct MadeIter<A: MadeAccess<I, S>, I, S> {
    access: A,
    item: PhantomData<(I, S)>,
    front: usize,
    back: usize,
}

/// The slots of an array whose values are made in memory, `None` for a null.
pub type MadeSlotsIter<A, I, E, S> = MadeIter<
    MadeSlots<A, I, E, S>,
    Result<Option<I>, E>,
    Option<S>,
>;

/// The values of an array that are made in memory, those under nulls too.
pub type MadeValuesIter<A, I, E, S> = MadeIter<MadeValues<A, I, E, S>, Result<I, E>, S>;

impl<A: MadeAccess<I, S>, I, S> Model for MadeIter<A, I, S> {
    ghost use Rattle.std.specs.Prelude.{◌≡◌, ◌-◌, ◌≤◌, List, length, take, drop};

    ghost Value = { List S };

    ghost view = { λ it. take (it.back - it.front) (drop it.front (A.items it.access)) };

    ghost invariant = { λ it. (it.front ≤ it.back) × (it.back ≤ A.size it.access)
        × (length (A.items it.access) ≡ A.size it.access) };
}

impl<I, S, A: MadeAccess<I, S>> MadeIter<A, I, S> {
    /// Each item, from both ends.
    pub fn over(access: A) -> MadeIter<A, I, S>
        ensures { result ≡ A.items access }
    {
        let back = access.count();
        MadeIter {
            access,
            item: PhantomData,
            front: 0,
            back,
        }
    }
}

impl<I, E, S, A: MakingAccessor<I, E, S>> MadeIter<
    MadeSlots<A, I, E, S>,
    Result<Option<I>, E>,
    Option<S>,
> {
    ghost use Rattle.std.specs.Prelude.{◌<◌, ℕ, true, IsTrue};
    ghost use Rattle.arrow_flat.specs.Primitives.{masked_values, valid_at};

    /// Each slot of the array, `None` for a null, from both ends. Each valid slot can be made.
    pub fn new(
        alloc: Global,
        array: A,
    ) -> MadeIter<MadeSlots<A, I, E, S>, Result<Option<I>, E>, Option<S>>
        requires { (i : ℕ) → i < length (A.values array) → valid_at (A.mask array) i ≡ true
            → IsTrue (A.can_make array i) }
        ensures { result ≡ masked_values (A.mask array) (A.values array) }
    {
        MadeIter::over(MadeSlots::new(alloc, array))
    }
}

impl<I, E, S, A: MakingAccessor<I, E, S>> MadeIter<MadeValues<A, I, E, S>, Result<I, E>, S> {
    ghost use Rattle.std.specs.Prelude.{◌<◌, ℕ, IsTrue};

    /// Each value of the array, those under nulls too, from both ends. Each can be made.
    pub fn new(alloc: Global, array: A) -> MadeIter<MadeValues<A, I, E, S>, Result<I, E>, S>
        requires { (i : ℕ) → i < length (A.values array) → IsTrue (A.can_make array i) }
        ensures { result ≡ A.values array }
    {
        MadeIter::over(MadeValues::new(alloc, array))
    }
}

impl<I, S, A: MadeAccess<I, S>> Iterator for MadeIter<A, I, S> {
    ghost use Rattle.arrow_flat.specs.Made.{YieldsFirstAs};

    type Item = I;

    ghost next_gives = { YieldsFirstAs A.stands (λ rest. rest) };

    ghost remaining = { item_count (λ rest. rest) };

    fn next(&mut self) -> Option<I> {
        if self.front == self.back {
            return None;
        }
        let item = self.access.item(self.front);
        self.front += 1;
        Some(item)
    }

    fn size_hint(&self) -> (usize, Option<usize>)
        ensures lower { IsWithinCount result.0 (at_most (length self.now)) }
        ensures upper { IfSome result.1 (UpTo (at_most (length self.now))) }
        ensures exact { (result.0 ≡ length self.now) × (result.1 ≡ Some result.0) }
    {
        let len = self.len();
        (len, Some(len))
    }
}

impl<I, S, A: MadeAccess<I, S>> DoubleEndedIterator for MadeIter<A, I, S> {
    ghost use Rattle.arrow_flat.specs.Made.{YieldsLastAs};

    ghost next_back_gives = { YieldsLastAs A.stands (λ rest. rest) };

    fn next_back(&mut self) -> Option<I> {
        if self.front == self.back {
            return None;
        }
        self.back -= 1;
        Some(self.access.item(self.back))
    }
}

impl<I, S, A: MadeAccess<I, S>> ExactSizeIterator for MadeIter<A, I, S> {
    fn len(&self) -> usize {
        self.back - self.front
    }
}

impl<I, S, A: MadeAccess<I, S>> FusedIterator for MadeIter<A, I, S> {}

/// The copy has what is left.
impl<I, E, S, A: MakingAccessor<I, E, S>> TryClone for MadeSlotsIter<A, I, E, S> {
    fn try_clone(&self, _alloc: Global) -> Mem<MadeSlotsIter<A, I, E, S>> {
        Ok(MadeIter {
            access: self.access.again(),
            item: PhantomData,
            front: self.front,
            back: self.back,
        })
    }
}

/// The copy has what is left.
impl<I, E, S, A: MakingAccessor<I, E, S>> TryClone for MadeValuesIter<A, I, E, S> {
    fn try_clone(&self, _alloc: Global) -> Mem<MadeValuesIter<A, I, E, S>> {
        Ok(MadeIter {
            access: self.access.again(),
            item: PhantomData,
            front: self.front,
            back: self.back,
        })
    }
}
