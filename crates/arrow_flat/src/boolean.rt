//! Arrays of single bits under a mask.
ghost use Rattle.std.specs.Prelude.{◌≡◌, ◌+◌, ◌<◌, ◌≤◌, length as count, slice_get, not, Some, MatchResult, IfOk, refl};
ghost use Rattle.arrow_types.specs.Seen.{seen};
ghost use Rattle.arrow_types.specs.Types.{physical_of};
ghost use Rattle.arrow_types.specs.declared.datatype.PhysicalType.TheVariants as physical;
ghost use Rattle.std.specs.Option.{option_copied};
ghost use Rattle.arrow_flat.specs.Primitives.{MaskHasLength, IsLaidOut, valid_at, unset_in};
ghost use Rattle.arrow_flat.specs.Booleans.{IsSound, slots, cut, with_mask};
ghost use Rattle.arrow_flat.specs.Refusals.{Refused};

use crate::stored::is_stored_in;
use crate::validity::{clone_mask, is_valid, mask_fits, null_count, slice_mask};
use crate::{ArrayAccessor, ArrayIter, Splitable, TryClone, stored, validity};
use arrow_buffers::{Bitmap, BitmapIter};
use arrow_types::{ArrowDataType, Mem, PhysicalType, PolarsError, PolarsResult, Reason};
use std::alloc::Global;
use std::marker::Model;

/// An array of bits, seen as its type, its values and its mask.
///
/// The Arrow Columnar Format's fixed-size primitive layout, of single bits.
pub struct BooleanArray {
    dtype: ArrowDataType,
    values: Bitmap,
    validity: Option<Bitmap>,
}

/// By hand: where a value may end there is one call to prove then, not the drop of each field.
impl Drop for BooleanArray {
    fn drop(self) {
        let BooleanArray {
            dtype: _,
            values: _,
            validity: _,
        } = self;
    }
}

impl Model for BooleanArray {
    ghost use Rattle.std.specs.Coded.{codes};
    ghost use Rattle.arrow_types.specs.contracts.datatype.ArrowDataType as data_type;
    ghost use Rattle.arrow_buffers.specs.Bits.{bits_code};
    ghost use Rattle.std.specs.Prelude.{length};
    ghost use Rattle.arrow_flat.specs.Booleans.{Booleans};
    ghost use Rattle.arrow_types.specs.declared.datatype.PhysicalType.TheVariants as physical;
    ghost use Rattle.arrow_flat.specs.Primitives.{IsLaidOut};

    ghost Value = { Booleans };

    ghost coded = { Prim.hlevel (codes, data_type.the_row.coded, bits_code) };

    ghost view = { λ a. record { dtype = a.dtype; values = a.values; mask = a.validity } };

    ghost invariant = { λ a. IsLaidOut physical.Boolean a.dtype a.validity (length a.values.bits) };
}

impl BooleanArray {
    /// The array of these parts. Takes no memory.
    ///
    /// Refused as ComputeError(MaskLength) where a mask is there and hasn't one bit a value, then
    /// as ComputeError(WrongLogicalType) where the type isn't stored as bits.
    pub fn try_new(
        dtype: ArrowDataType,
        values: Bitmap,
        validity: Option<Bitmap>,
    ) -> PolarsResult<BooleanArray>
        ensures { MatchResult result
            (λ a. (a ≡ record { dtype = dtype; values = values; mask = validity })
            × IsLaidOut physical.Boolean dtype validity (count values.bits))
            (λ e. Refused e physical.Boolean dtype validity (count values.bits)) }
    {
        if !mask_fits(&validity, values.len()) {
            return Err(PolarsError::ComputeError(Reason::MaskLength));
        }
        if !is_stored_in(&dtype, PhysicalType::Boolean) {
            return Err(PolarsError::ComputeError(Reason::WrongLogicalType));
        }
        Ok(BooleanArray {
            dtype,
            values,
            validity,
        })
    }

    /// The array of parts that fit together: a mask has one bit a value, and the type is stored as
    /// bits. Takes no memory.
    pub fn new(dtype: ArrowDataType, values: Bitmap, validity: Option<Bitmap>) -> BooleanArray
        requires fits { MaskHasLength validity (count values.bits) }
        requires stored { physical_of (seen dtype) ≡ Some physical.Boolean }
        ensures { result ≡ record { dtype = dtype; values = values; mask = validity } }
    {
        BooleanArray {
            dtype,
            values,
            validity,
        }
    }

    /// For proofs alone: what the array keeps.
    pub fn invariant(&self)
        ensures { IsSound self.now.dtype self.now.mask self.now.values }
    {
        validity::invariant(&self.validity);
        stored::invariant(&self.dtype);
        self.values.len();
    }

    /// The whole type, extensions included.
    pub fn dtype(&self) -> &ArrowDataType
        ensures { result.now ≡ self.now.dtype }
    {
        &self.dtype
    }

    /// The count of slots.
    pub fn len(&self) -> usize
        ensures { result ≡ count self.now.values.bits }
    {
        self.values.len()
    }

    /// The values at all slots, those under nulls too.
    pub fn values(&self) -> &Bitmap
        ensures { result.now ≡ self.now.values }
    {
        &self.values
    }

    /// The mask, where there is one: a set bit for each slot that isn't null.
    pub fn validity(&self) -> Option<&Bitmap>
        ensures { option_copied result ≡ self.now.mask }
    {
        self.validity.as_ref()
    }

    /// The value at a slot, under a null too.
    pub fn value(&self, i: usize) -> bool
        requires { i < count self.now.values.bits }
        ensures { slice_get self.now.values.bits i ≡ Some result }
    {
        self.values.get_bit(i)
    }

    /// Whether the slot isn't null.
    pub fn is_valid(&self, i: usize) -> bool
        requires { i < count self.now.values.bits }
        ensures { result ≡ valid_at self.now.mask i }
    {
        is_valid(&self.validity, i)
    }

    /// Whether the slot is null.
    pub fn is_null(&self, i: usize) -> bool
        requires { i < count self.now.values.bits }
        ensures { result ≡ not (valid_at self.now.mask i) }
    {
        !self.is_valid(i)
    }

    /// The count of nulls.
    pub fn null_count(&self) -> usize
        ensures { result ≡ unset_in self.now.mask }
    {
        null_count(&self.validity)
    }

    /// The value at a slot, `None` where it is null.
    pub fn get(&self, i: usize) -> Option<bool>
        requires { i < count self.now.values.bits }
        ensures { slice_get (slots self.now) i ≡ Some result }
    {
        ArrayAccessor::get(self, i)
    }

    /// Each slot in order, `None` for a null, from both ends.
    pub fn iter(&self) -> BooleanIter<'_>
        ensures { result ≡ slots self.now }
    {
        BooleanIter::new(self)
    }

    /// Each value in order, those under nulls too, from both ends.
    pub fn values_iter(&self) -> BitmapIter<'_>
        ensures { result ≡ self.now.values.bits }
    {
        self.values.iter()
    }

    /// Keeps the `length` slots from `offset` on; a mask without nulls is dropped.
    ///
    /// Takes no memory; counts the mask's bits.
    pub fn slice(&mut self, offset: usize, length: usize)
        requires { offset + length ≤ count self.old.values.bits }
        ensures { self.new ≡ cut self.old offset length }
    {
        slice_mask(&mut self.validity, offset, length);
        self.values.slice(offset, length);
    }

    /// A shared copy of the `length` slots from `offset` on.
    fn part(&self, alloc: Global, offset: usize, length: usize) -> Mem<BooleanArray>
        requires { offset + length ≤ count self.now.values.bits }
        ensures { IfOk result (λ a. a ≡ cut self.now offset length) }
    {
        let mut part = BooleanArray::try_clone(self, alloc)?;
        part.slice(offset, length);
        Ok(part)
    }

    /// Puts another mask, or none, in the mask's place.
    pub fn set_validity(&mut self, validity: Option<Bitmap>)
        requires { MaskHasLength validity (count self.old.values.bits) }
        ensures { self.new ≡ with_mask validity self.old }
    {
        self.validity = validity;
    }

    /// A shared copy.
    pub fn try_clone(&self, alloc: Global) -> Mem<BooleanArray>
        ensures { IfOk result (λ a. a ≡ self.now) }
    {
        Ok(BooleanArray {
            dtype: self.dtype.try_clone(alloc)?,
            values: self.values.try_clone(alloc)?,
            validity: clone_mask(alloc, &self.validity)?,
        })
    }
}

impl<'a> ArrayAccessor<bool, bool> for &'a BooleanArray {
    ghost seen = { λ x. x };

    ghost seen_slot = { λ o. o };

    ghost values = { λ a. a.now.values.bits };

    ghost mask = { λ a. a.now.mask };

    fn len(self) -> usize {
        self.values.len()
    }

    fn is_valid(self, i: usize) -> bool {
        is_valid(&self.validity, i)
    }

    fn value(self, i: usize) -> bool {
        BooleanArray::value(self, i)
    }

    ghost of_value = { λ x. refl };

    ghost of_null = { refl };
}

impl TryClone for BooleanArray {
    fn try_clone(&self, alloc: Global) -> Mem<BooleanArray> {
        BooleanArray::try_clone(self, alloc)
    }
}

impl Splitable for BooleanArray {
    ghost use Rattle.std.specs.Prelude.{◌-◌, ◌≤◌, length};
    ghost use Rattle.arrow_flat.specs.Booleans.{cut};

    ghost HasBound = { λ a n. n ≤ length a.values.bits };

    ghost front = { λ a n. cut a 0 n };

    ghost rest = { λ a n. cut a n (length a.values.bits - n) };

    fn check_bound(&self, offset: usize) -> bool {
        offset <= self.len()
    }

    fn split_at(&self, alloc: Global, offset: usize) -> Mem<(BooleanArray, BooleanArray)> {
        let front = self.part(alloc, 0, offset)?;
        let rest = self.part(alloc, offset, self.len() - offset)?;
        Ok((front, rest))
    }
}

/// The slots of an array, `None` for a null.
pub type BooleanIter<'a> = ArrayIter<&'a BooleanArray, bool, bool>;
