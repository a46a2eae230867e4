//! What iterators of arrays go over: what is read by position.
ghost use Rattle.std.specs.Prelude.{◌≡◌, ◌<◌, ℕ, List, length, slice_get, Some, None};
ghost use Rattle.std.specs.declared.option.Option.{Option};
ghost use Rattle.arrow_buffers.specs.Bits.{Bits};
ghost use Rattle.arrow_flat.specs.Primitives.{MaskHasLength, valid_at, masked_values};

use crate::TryClone;
use arrow_buffers::Buffer;
use arrow_types::Mem;
use std::alloc::Global;

/// What contracts see of a binary value or a string: its bytes, as a list.
pub type ByteString = Buffer<u8>;

/// Items that are read by position, as often as one likes. `I` is the item, and `S` what contracts
/// see of it.
pub trait Access<I, S>: Drop {
    ghost seen: { I → S };

    ghost size: { Self → ℕ };

    ghost items: { Self → List S };

    /// The count of items.
    fn count(&self) -> usize
        ensures count { result ≡ size self.now }
        ensures all { length (items self.now) ≡ size self.now };

    /// The item at a position.
    fn item(&self, i: usize) -> I
        requires { i < size self.now }
        ensures { slice_get (items self.now) i ≡ Some (seen result) };
}

/// A borrowed array: a value at each slot, under a mask. `I` is the value, and `S` what contracts
/// see of it.
///
/// It is met by `&'a PrimitiveArray<T>` and the like. Upstream's `ArrayAccessor`.
pub trait ArrayAccessor<I, S>: Copy {
    ghost seen: { I → S };

    ghost seen_slot: { Option I → Option S };

    ghost values: { Self → List S };

    ghost mask: { Self → Option Bits };

    /// The count of slots.
    fn len(self) -> usize
        ensures count { result ≡ length (values self) }
        ensures fits { MaskHasLength (mask self) (length (values self)) };

    /// Whether the slot isn't null.
    fn is_valid(self, i: usize) -> bool
        requires { i < length (values self) }
        ensures valid { result ≡ valid_at (mask self) i }
        ensures fits { MaskHasLength (mask self) (length (values self)) };

    /// The value at a slot, under a null too.
    fn value(self, i: usize) -> I
        requires { i < length (values self) }
        ensures { slice_get (values self) i ≡ Some (seen result) };

    /// The value at a slot, `None` where it is null.
    fn get(self, i: usize) -> Option<I>
        requires { i < length (values self) }
        ensures { slice_get (masked_values (mask self) (values self)) i ≡ Some (seen_slot result) }
    {
        if self.is_valid(i) {
            Some(self.value(i))
        } else {
            None
        }
    }

    ghost of_value: { (x : I) → seen_slot (Some x) ≡ Some (seen x) };

    ghost of_null: { seen_slot None ≡ None };
}

/// The values of an array, those under nulls too, as items.
#[derive(Drop)]
pub struct Values<A: Copy>(pub(crate) A);

impl<I, S, A: ArrayAccessor<I, S>> Access<I, S> for Values<A> {
    ghost seen = { A.seen };

    ghost size = { λ v. length (A.values v.0) };

    ghost items = { λ v. A.values v.0 };

    fn count(&self) -> usize {
        self.0.len()
    }

    fn item(&self, i: usize) -> I {
        self.0.value(i)
    }
}

/// The slots of an array, `None` for a null, as items.
#[derive(Drop)]
pub struct Slots<A: Copy>(pub(crate) A);

impl<I, S, A: ArrayAccessor<I, S>> Access<Option<I>, Option<S>> for Slots<A> {
    ghost seen = { A.seen_slot };

    ghost size = { λ s. length (A.values s.0) };

    ghost items = { λ s. masked_values (A.mask s.0) (A.values s.0) };

    fn count(&self) -> usize {
        self.0.len()
    }

    fn item(&self, i: usize) -> Option<I> {
        self.0.get(i)
    }
}

impl<A: Copy> TryClone for Values<A> {
    fn try_clone(&self, _alloc: Global) -> Mem<Values<A>> {
        Ok(Values(self.0))
    }
}

impl<A: Copy> TryClone for Slots<A> {
    fn try_clone(&self, _alloc: Global) -> Mem<Slots<A>> {
        Ok(Slots(self.0))
    }
}
