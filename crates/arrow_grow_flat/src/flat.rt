//! A growable of an array without children: a mask over its values.
ghost use Rattle.std.specs.Prelude.{◌≡◌, ◌⊎◌, ◌<◌, ◌+◌, ◌*◌, ◌≤◌, ◌^◌, ◌↔◌, map, replicate, true, false, length as count, IfOk, IfErr, IsTrue};
ghost use Rattle.arrow_types.specs.declared.error.MakeError.TheVariants as make;
ghost use Rattle.arrow_flat.specs.Slots.{null};
ghost use Rattle.arrow_layout.specs.Cut.{part};
ghost use Rattle.arrow_layout.specs.SlotsOf.{fill};
ghost use Rattle.arrow_layout.specs.Forms.{form_of};
ghost use Rattle.arrow_grow_flat.specs.Values.{IsValuesForm};
ghost use Rattle.arrow_grow_flat.specs.Grown.{AllOfType, Boxes, Grows, IsSound, IsWithin, any_nulls, copied, fresh, shared_type, source, source_count};

use crate::mask::{empty_mask, extend_mask, extend_unset, take_mask};
use crate::{Growable, GrowableValues};
use arrow_buffers::MutableBitmap;
use arrow_meaning::ArrayRef;
use arrow_types::{GrowError, MakeError, Mem};
use std::alloc::Global;
use std::marker::Model;

/// A growable of an array without children, seen as its type, its arrays and its list of slots.
pub struct FlatGrowable<V: GrowableValues> {
    alloc: Global,
    values: V,
    validity: Option<MutableBitmap>,
    failed: bool,
}

/// By hand: where a value may end there is one call to prove then, not the drop of each field.
impl<V: GrowableValues> Drop for FlatGrowable<V> {
    fn drop(self) {
        let FlatGrowable {
            alloc: _,
            values: _,
            validity: _,
            failed: _,
        } = self;
    }
}

impl<V: GrowableValues> Model for FlatGrowable<V> {
    ghost use Rattle.arrow_grow_flat.specs.Grown.{Grown, grown_code};
    ghost use Rattle.arrow_grow_flat.specs.Values.{grown_of, IsGrowable};

    ghost Value = { Grown };

    ghost coded = { grown_code };

    ghost view = { λ g. grown_of (V.seen g.values) g.validity g.failed };

    ghost invariant = { λ g. IsGrowable V.blank (V.seen g.values) g.validity g.failed };
}

impl<V: GrowableValues> FlatGrowable<V> {
    /// No slots yet, out of these arrays, which are shared. It takes nulls exactly where that is
    /// wanted or an array has nulls. Refused only when out of memory.
    pub fn new(
        alloc: Global,
        arrays: &[V::Array],
        use_validity: bool,
        capacity: usize,
    ) -> Result<FlatGrowable<V>, MakeError>
        requires some { 0 < count arrays.now }
        requires typed { let ls = map V.layout arrays.now in AllOfType (shared_type ls) ls }
        ensures ok { IfOk result (λ g. g ≡ fresh (map V.layout arrays.now) use_validity) }
        ensures refused { IfErr result (λ e. e ≡ make.OutOfMemory) }
    {
        let values = V::new(alloc, arrays, capacity)?;
        let takes_nulls = use_validity || any_array_nulls(&values);
        let validity = empty_mask(alloc, takes_nulls);
        values.invariant();
        Ok(FlatGrowable {
            alloc,
            values,
            validity,
            failed: false,
        })
    }

    /// For proofs alone: what the growable keeps.
    pub fn sound(&self)
        ensures sound { IsSound self.now }
        ensures form { IsValuesForm (form_of self.now.dtype) }
    {
        self.values.invariant();
    }

    /// Appends slots of an array; see `Growable::extend`.
    fn extend_slots(&mut self, index: usize, start: usize, len: usize) -> Result<(), GrowError>
        requires { IsWithin self.old index start len }
        ensures { Grows self.old (part start len (source self.old index)) self.new result }
    {
        self.failed = true;
        self.values.invariant();
        extend_mask(&mut self.validity, self.values.mask(index), start, len)?;
        self.values.extend(index, start, len)?;
        self.failed = false;
        Ok(())
    }

    /// Appends slots of an array `copies` times; see `Growable::extend_copies`.
    fn extend_each(
        &mut self,
        index: usize,
        start: usize,
        len: usize,
        copies: usize,
    ) -> Result<(), GrowError>
        requires { IsWithin self.old index start len }
        ensures { let slots = part start len (source self.old index) in
            Grows self.old (copied copies slots) self.new result }
    {
        self.sound();
        for _copy in 0..copies {
            self.extend_slots(index, start, len)?;
        }
        Ok(())
    }

    /// Appends nulls; see `Growable::extend_validity`.
    fn extend_nulls(&mut self, additional: usize) -> Result<(), GrowError>
        requires alive { self.old.failed ≡ false }
        requires nulls { self.old.takes_nulls ≡ true }
        ensures { Grows self.old (replicate additional null) self.new result }
    {
        self.failed = true;
        extend_unset(&mut self.validity, additional)?;
        self.values.extend_nulls(additional)?;
        self.failed = false;
        Ok(())
    }

    /// The array of the list, which is empty afterwards, with the same arrays to grow from. A
    /// refused call leaves the growable failed.
    pub fn to(&mut self) -> Mem<V::Array>
        requires { self.old.failed ≡ false }
        ensures { Boxes V.layout self.old self.new result }
    {
        self.failed = true;
        self.values.invariant();
        let validity = take_mask(self.alloc, &mut self.validity)?;
        let array = self.values.finish(self.alloc, validity)?;
        self.failed = false;
        Ok(array)
    }
}

impl<V: GrowableValues> Growable for FlatGrowable<V> {
    ghost seen = { λ g. g };

    fn invariant(&self) {
        self.sound();
    }

    fn array_count(&self) -> usize {
        self.values.invariant();
        self.values.array_count()
    }

    fn array_len(&self, index: usize) -> usize {
        self.values.invariant();
        self.values.array_len(index)
    }

    fn len(&self) -> usize {
        self.values.len()
    }

    fn takes_nulls(&self) -> bool {
        self.validity.is_some()
    }

    fn is_failed(&self) -> bool {
        self.failed
    }

    fn extend(&mut self, index: usize, start: usize, len: usize) -> Result<(), GrowError> {
        self.extend_slots(index, start, len)
    }

    /// Nothing is appended where `len` or `copies` is 0, and nothing is copied where a usize
    /// doesn't hold the count of slots.
    fn extend_copies(
        &mut self,
        index: usize,
        start: usize,
        len: usize,
        copies: usize,
    ) -> Result<(), GrowError> {
        self.sound();
        if len == 0 || copies == 0 {
            return Ok(());
        }
        if !has_count(self.len(), len, copies) {
            self.failed = true;
            return Err(GrowError::Overflow);
        }
        self.extend_each(index, start, len, copies)
    }

    fn extend_validity(&mut self, additional: usize) -> Result<(), GrowError> {
        self.sound();
        if additional == 0 {
            return Ok(());
        }
        self.extend_nulls(additional)
    }

    fn as_box(&mut self) -> Mem<ArrayRef> {
        let array = self.to()?;
        match V::boxed(self.alloc, array) {
            Ok(array) => Ok(array),
            Err(refused) => {
                self.failed = true;
                Err(refused)
            }
        }
    }
}

/// Whether a usize holds the count of slots with those that are copied.
fn has_count(slots: usize, len: usize, copies: usize) -> bool
    ensures { IsTrue result ↔ (slots + len * copies < 2 ^ 64) }
{
    match len.checked_mul(copies) {
        Some(more) => slots.checked_add(more).is_some(),
        None => false,
    }
}

/// Whether one of the arrays has nulls.
fn any_array_nulls<V: GrowableValues>(values: &V) -> bool
    ensures { result ≡ any_nulls (V.seen values.now).arrays }
{
    for index in 0..values.array_count() {
        if let Some(mask) = values.mask(index) {
            if mask.unset_bits() >= 1 {
                return true;
            }
        }
    }
    false
}
