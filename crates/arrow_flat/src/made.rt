//! Arrays whose values are made in memory when they are read, as the lists of a list array.
ghost use Rattle.std.specs.Prelude.{◌≡◌, ◌<◌, ℕ, Bool, List, length, true, IsTrue};
ghost use Rattle.std.specs.declared.option.Option.{Option};
ghost use Rattle.arrow_buffers.specs.Bits.{Bits};
ghost use Rattle.arrow_flat.specs.Made.{MadeAt, StandsAt, StandsIfMade, StandsIfValid};
ghost use Rattle.arrow_flat.specs.Primitives.{MaskHasLength, valid_at, masked_values};

use std::alloc::Global;
use std::marker::PhantomData;

/// Items that are made by position, as often as one likes. `I` is the item, and `S` what it stands
/// for in contracts.
pub trait MadeAccess<I, S>: Drop {
    ghost stands: { I → S → Type 0 };

    ghost size: { Self → ℕ };

    ghost items: { Self → List S };

    /// The count of items.
    fn count(&self) -> usize
        ensures count { result ≡ size self.now }
        ensures all { length (items self.now) ≡ size self.now };

    /// The item at a position.
    fn item(&self, i: usize) -> I
        requires { i < size self.now }
        ensures { StandsAt stands (items self.now) i result };
}

/// A borrowed array whose values take memory to be read. `I` is the value, `E` why it can't be
/// made, and `S` what a value stands for in contracts.
///
/// It is met by `&'a ListArray<O>` and the like.
pub trait MakingAccessor<I, E, S>: Copy {
    ghost stands: { I → S → Type 0 };

    ghost values: { Self → List S };

    ghost mask: { Self → Option Bits };

    ghost can_make: { Self → ℕ → Bool };

    /// The count of slots.
    fn len(self) -> usize
        ensures count { result ≡ length (values self) }
        ensures fits { MaskHasLength (mask self) (length (values self)) };

    /// Whether the slot isn't null.
    fn is_valid(self, i: usize) -> bool
        requires { i < length (values self) }
        ensures valid { result ≡ valid_at (mask self) i }
        ensures fits { MaskHasLength (mask self) (length (values self)) };

    /// The value at a slot, under a null too where one can be made there.
    fn value(self, alloc: Global, i: usize) -> Result<I, E>
        requires slot { i < length (values self) }
        requires can { IsTrue (can_make self i) }
        ensures { MadeAt stands (values self) i result };

    /// The value at a slot, `None` where it is null.
    fn get(self, alloc: Global, i: usize) -> Result<Option<I>, E>
        requires slot { i < length (values self) }
        requires can { valid_at (mask self) i ≡ true → IsTrue (can_make self i) }
        ensures { MadeAt (StandsIfValid stands) (masked_values (mask self) (values self)) i result }
    {
        if self.is_valid(i) {
            Ok(Some(self.value(alloc, i)?))
        } else {
            Ok(None)
        }
    }
}

/// The values of an array, those under nulls too, as items that are made.
#[derive(Drop)]
pub struct MadeValues<A: MakingAccessor<I, E, S>, I, E, S> {
    array: A,
    item: PhantomData<(Result<I, E>, S)>,
    alloc: Global,
    ghost can: { (i : ℕ) → i < length (A.values array) → IsTrue (A.can_make array i) },
}

impl<I, E, S, A: MakingAccessor<I, E, S>> MadeValues<A, I, E, S> {
    /// The values of this array, each of which can be made.
    pub(crate) fn new(alloc: Global, array: A) -> MadeValues<A, I, E, S>
        requires { (i : ℕ) → i < length (A.values array) → IsTrue (A.can_make array i) }
        ensures { result.array ≡ array }
    {
        MadeValues {
            array,
            item: PhantomData,
            alloc,
        }
    }

    /// The same values again.
    pub(crate) fn again(&self) -> MadeValues<A, I, E, S>
        ensures { result.array ≡ self.now.array }
    {
        MadeValues::new(self.alloc, self.array)
    }
}

impl<I, E, S, A: MakingAccessor<I, E, S>> MadeAccess<Result<I, E>, S> for MadeValues<A, I, E, S> {
    ghost stands = { StandsIfMade A.stands };

    ghost size = { λ v. length (A.values v.array) };

    ghost items = { λ v. A.values v.array };

    fn count(&self) -> usize {
        self.array.len()
    }

    fn item(&self, i: usize) -> Result<I, E> {
        self.array.value(self.alloc, i)
    }
}

/// The slots of an array, `None` for a null, as items that are made.
#[derive(Drop)]
pub struct MadeSlots<A: MakingAccessor<I, E, S>, I, E, S> {
    array: A,
    item: PhantomData<(Result<I, E>, S)>,
    alloc: Global,
    ghost can: { (i : ℕ) → i < length (A.values array) → valid_at (A.mask array) i ≡ true
        → IsTrue (A.can_make array i) },
}

impl<I, E, S, A: MakingAccessor<I, E, S>> MadeSlots<A, I, E, S> {
    /// The slots of this array, of which each valid one can be made.
    pub(crate) fn new(alloc: Global, array: A) -> MadeSlots<A, I, E, S>
        requires { (i : ℕ) → i < length (A.values array) → valid_at (A.mask array) i ≡ true
            → IsTrue (A.can_make array i) }
        ensures { result.array ≡ array }
    {
        MadeSlots {
            array,
            item: PhantomData,
            alloc,
        }
    }

    /// The same slots again.
    pub(crate) fn again(&self) -> MadeSlots<A, I, E, S>
        ensures { result.array ≡ self.now.array }
    {
        MadeSlots::new(self.alloc, self.array)
    }
}

impl<I, E, S, A: MakingAccessor<I, E, S>> MadeAccess<Result<Option<I>, E>, Option<S>>
    for MadeSlots<A, I, E, S> {
    ghost stands = { StandsIfMade (StandsIfValid A.stands) };

    ghost size = { λ s. length (A.values s.array) };

    ghost items = { λ s. masked_values (A.mask s.array) (A.values s.array) };

    fn count(&self) -> usize {
        self.array.len()
    }

    fn item(&self, i: usize) -> Result<Option<I>, E> {
        self.array.get(self.alloc, i)
    }
}
