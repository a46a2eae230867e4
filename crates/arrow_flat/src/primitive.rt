//! Arrays of fixed-width values under a mask.
ghost use Rattle.std.specs.Prelude.{◌≡◌, ◌+◌, ◌<◌, ◌≤◌, length as count, slice_get, not, Some, MatchResult, IfOk, refl};
ghost use Rattle.arrow_types.specs.Seen.{seen};
ghost use Rattle.arrow_types.specs.Types.{physical_of};
ghost use Rattle.arrow_types.specs.declared.datatype.PhysicalType.TheVariants as physical;
ghost use Rattle.arrow_flat.specs.Primitives.{MaskHasLength, IsLaidOut, IsSound};

use crate::native::{DaysMs, MonthDayNano, NativeType};
use crate::stored::is_stored_in;
use crate::validity::{clone_mask, is_valid, mask_fits, null_count, slice_mask};
use crate::{ArrayAccessor, ArrayIter, ArrayValuesIter, Splitable, TryClone, stored, validity};
use arrow_buffers::{Bitmap, Buffer};
use arrow_types::{ArrowDataType, Mem, PhysicalType, PolarsError, PolarsResult, Reason};
use std::alloc::Global;
use std::marker::Model;

/// An array of values of one width, seen as its type, its values and its mask.
///
/// The Arrow Columnar Format's fixed-size primitive layout.
pub struct PrimitiveArray<T: NativeType> {
    dtype: ArrowDataType,
    values: Buffer<T>,
    validity: Option<Bitmap>,
}

/// By hand: where a value may end there is one call to prove then, not the drop of each field.
impl<T: NativeType> Drop for PrimitiveArray<T> {
    fn drop(self) {
        let PrimitiveArray {
            dtype: _,
            values: _,
            validity: _,
        } = self;
    }
}

impl<T: NativeType> Model for PrimitiveArray<T> {
    ghost use Rattle.std.specs.Prelude.{length};
    ghost use Rattle.std.specs.Coded.{codes};
    ghost use Rattle.arrow_types.specs.contracts.datatype.ArrowDataType as data_type;
    ghost use Rattle.arrow_types.specs.declared.datatype.PhysicalType.TheVariants as physical;
    ghost use Rattle.arrow_flat.specs.Primitives.{Primitives, IsLaidOut};

    ghost Value = { Primitives T };

    ghost coded = { Prim.hlevel (codes, data_type.the_row.coded) };

    ghost view = { λ a. record { dtype = a.dtype; values = a.values; mask = a.validity } };

    ghost invariant = { λ a.
        IsLaidOut (physical.Primitive T.PRIMITIVE) a.dtype a.validity (length a.values) };
}

impl<T: NativeType> PrimitiveArray<T> {
    ghost use Rattle.std.specs.Option.{option_copied};
    ghost use Rattle.arrow_flat.specs.Primitives.{Primitives, slots, valid_at, unset_in};
    ghost use Rattle.arrow_flat.specs.Primitives.{cut, with_mask};
    ghost use Rattle.arrow_flat.specs.Refusals.{Refused};

    /// The array of these parts. Takes no memory.
    ///
    /// Refused as ComputeError(MaskLength) where a mask is there and hasn't one bit a value, then
    /// as ComputeError(WrongLogicalType) where the type isn't stored as T.
    pub fn try_new(
        dtype: ArrowDataType,
        values: Buffer<T>,
        validity: Option<Bitmap>,
    ) -> PolarsResult<PrimitiveArray<T>>
        ensures { MatchResult result
            (λ a. (a ≡ record { dtype = dtype; values = values; mask = validity })
            × IsLaidOut (physical.Primitive T.PRIMITIVE) dtype validity (count values))
            (λ e. Refused e (physical.Primitive T.PRIMITIVE) dtype validity (count values)) }
    {
        if !mask_fits(&validity, values.len()) {
            return Err(PolarsError::ComputeError(Reason::MaskLength));
        }
        if !is_stored_in(&dtype, PhysicalType::Primitive(T::PRIMITIVE)) {
            return Err(PolarsError::ComputeError(Reason::WrongLogicalType));
        }
        Ok(PrimitiveArray {
            dtype,
            values,
            validity,
        })
    }

    /// The array of parts that fit together: a mask has one bit a value, and the type is stored as
    /// T. Takes no memory.
    pub fn new(
        dtype: ArrowDataType,
        values: Buffer<T>,
        validity: Option<Bitmap>,
    ) -> PrimitiveArray<T>
        requires fits { MaskHasLength validity (count values) }
        requires stored { physical_of (seen dtype) ≡ Some (physical.Primitive T.PRIMITIVE) }
        ensures { result ≡ record { dtype = dtype; values = values; mask = validity } }
    {
        PrimitiveArray {
            dtype,
            values,
            validity,
        }
    }

    /// For proofs alone: what the array keeps.
    pub fn invariant(&self)
        ensures { IsSound T.PRIMITIVE self.now.dtype self.now.mask (count self.now.values) }
    {
        validity::invariant(&self.validity);
        stored::invariant(&self.dtype);
    }

    /// The whole type, extensions included.
    pub fn dtype(&self) -> &ArrowDataType
        ensures { result.now ≡ self.now.dtype }
    {
        &self.dtype
    }

    /// The count of slots.
    pub fn len(&self) -> usize
        ensures { result ≡ count self.now.values }
    {
        self.values.len()
    }

    /// The values at all slots, those under nulls too.
    pub fn values(&self) -> &Buffer<T>
        ensures { result.now ≡ self.now.values }
    {
        &self.values
    }

    /// The mask, where there is one: a set bit for each slot that isn't null.
    pub fn validity(&self) -> Option<&Bitmap>
        ensures { option_copied result ≡ self.now.mask }
    {
        self.validity.as_ref()
    }

    /// The value at a slot, under a null too.
    pub fn value(&self, i: usize) -> T
        requires { i < count self.now.values }
        ensures { slice_get self.now.values i ≡ Some result }
    {
        self.values.as_slice()[i]
    }

    /// Whether the slot isn't null.
    pub fn is_valid(&self, i: usize) -> bool
        requires { i < count self.now.values }
        ensures { result ≡ valid_at self.now.mask i }
    {
        is_valid(&self.validity, i)
    }

    /// Whether the slot is null.
    pub fn is_null(&self, i: usize) -> bool
        requires { i < count self.now.values }
        ensures { result ≡ not (valid_at self.now.mask i) }
    {
        !self.is_valid(i)
    }

    /// The count of nulls.
    pub fn null_count(&self) -> usize
        ensures { result ≡ unset_in self.now.mask }
    {
        null_count(&self.validity)
    }

    /// The value at a slot, `None` where it is null.
    pub fn get(&self, i: usize) -> Option<T>
        requires { i < count self.now.values }
        ensures { slice_get (slots self.now) i ≡ Some result }
    {
        ArrayAccessor::get(self, i)
    }

    /// Each slot in order, `None` for a null, from both ends.
    pub fn iter(&self) -> PrimitiveIter<'_, T>
        ensures { result ≡ slots self.now }
    {
        PrimitiveIter::new(self)
    }

    /// Each value in order, those under nulls too, from both ends.
    pub fn values_iter(&self) -> PrimitiveValuesIter<'_, T>
        ensures { result ≡ self.now.values }
    {
        PrimitiveValuesIter::new(self)
    }

    /// Keeps the `length` slots from `offset` on; a mask without nulls is dropped.
    ///
    /// Takes no memory; counts the mask's bits.
    pub fn slice(&mut self, offset: usize, length: usize)
        requires { offset + length ≤ count self.old.values }
        ensures { self.new ≡ cut self.old offset length }
    {
        slice_mask(&mut self.validity, offset, length);
        self.values.slice(offset, length);
    }

    /// A shared copy of the `length` slots from `offset` on.
    fn part(&self, alloc: Global, offset: usize, length: usize) -> Mem<PrimitiveArray<T>>
        requires { offset + length ≤ count self.now.values }
        ensures { IfOk result (λ a. a ≡ cut self.now offset length) }
    {
        let mut part = PrimitiveArray::try_clone(self, alloc)?;
        part.slice(offset, length);
        Ok(part)
    }

    /// Puts another mask, or none, in the mask's place.
    pub fn set_validity(&mut self, validity: Option<Bitmap>)
        requires { MaskHasLength validity (count self.old.values) }
        ensures { self.new ≡ with_mask validity self.old }
    {
        self.validity = validity;
    }

    /// A shared copy.
    pub fn try_clone(&self, alloc: Global) -> Mem<PrimitiveArray<T>>
        ensures { IfOk result (λ a. a ≡ self.now) }
    {
        Ok(PrimitiveArray {
            dtype: self.dtype.try_clone(alloc)?,
            values: self.values.try_clone(alloc)?,
            validity: clone_mask(alloc, &self.validity)?,
        })
    }
}

impl<'a, T: NativeType> ArrayAccessor<T, T> for &'a PrimitiveArray<T> {
    ghost seen = { λ x. x };

    ghost seen_slot = { λ o. o };

    ghost values = { λ a. a.now.values };

    ghost mask = { λ a. a.now.mask };

    fn len(self) -> usize {
        self.values.len()
    }

    fn is_valid(self, i: usize) -> bool {
        is_valid(&self.validity, i)
    }

    fn value(self, i: usize) -> T {
        PrimitiveArray::value(self, i)
    }

    ghost of_value = { λ x. refl };

    ghost of_null = { refl };
}

impl<T: NativeType> TryClone for PrimitiveArray<T> {
    fn try_clone(&self, alloc: Global) -> Mem<PrimitiveArray<T>> {
        PrimitiveArray::try_clone(self, alloc)
    }
}

impl<T: NativeType> Splitable for PrimitiveArray<T> {
    ghost use Rattle.std.specs.Prelude.{◌-◌, ◌≤◌, length};
    ghost use Rattle.arrow_flat.specs.Primitives.{cut};

    ghost HasBound = { λ a n. n ≤ length a.values };

    ghost front = { λ a n. cut a 0 n };

    ghost rest = { λ a n. cut a n (length a.values - n) };

    fn check_bound(&self, offset: usize) -> bool {
        offset <= self.len()
    }

    fn split_at(
        &self,
        alloc: Global,
        offset: usize,
    ) -> Mem<(PrimitiveArray<T>, PrimitiveArray<T>)> {
        let front = self.part(alloc, 0, offset)?;
        let rest = self.part(alloc, offset, self.len() - offset)?;
        Ok((front, rest))
    }
}

/// The slots of an array, `None` for a null.
pub type PrimitiveIter<'a, T> = ArrayIter<&'a PrimitiveArray<T>, T, T>;

/// The values of an array, those under nulls too.
pub type PrimitiveValuesIter<'a, T> = ArrayValuesIter<&'a PrimitiveArray<T>, T, T>;

/// An array of `i8`.
pub type Int8Array = PrimitiveArray<i8>;

/// An array of `i16`.
pub type Int16Array = PrimitiveArray<i16>;

/// An array of `i32`.
pub type Int32Array = PrimitiveArray<i32>;

/// An array of `i64`.
pub type Int64Array = PrimitiveArray<i64>;

/// An array of `i128`.
pub type Int128Array = PrimitiveArray<i128>;

/// An array of `u8`.
pub type UInt8Array = PrimitiveArray<u8>;

/// An array of `u16`.
pub type UInt16Array = PrimitiveArray<u16>;

/// An array of `u32`.
pub type UInt32Array = PrimitiveArray<u32>;

/// An array of `u64`.
pub type UInt64Array = PrimitiveArray<u64>;

/// An array of `DaysMs`.
pub type DaysMsArray = PrimitiveArray<DaysMs>;

/// An array of `MonthDayNano`.
pub type MonthDayNanoArray = PrimitiveArray<MonthDayNano>;

/// The indices of rows.
pub type IdxArr = UInt32Array;
