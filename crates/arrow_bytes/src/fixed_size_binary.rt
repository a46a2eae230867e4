//! Arrays of binary values of one size under a mask.
ghost use Rattle.std.specs.Prelude.{◌≡◌, ◌+◌, ◌*◌, ◌/◌, ◌%◌, ◌<◌, ◌≤◌, length as count, take, drop, slice_get, not, Some, MatchResult, IfOk};
ghost use Rattle.arrow_types.specs.Seen.{seen};
ghost use Rattle.std.specs.Option.{option_copied};
ghost use Rattle.arrow_flat.specs.Primitives.{MaskHasLength, valid_at, unset_in};
ghost use Rattle.arrow_bytes.specs.FixedSizeBinaries.{PartsFit, IsSound, Refused, declared_size, size_or_zero, slot_count, values_of, slots, cut, with_mask};

use arrow_buffers::{Bitmap, Buffer};
use arrow_flat::validity::{self, clone_mask, is_valid, mask_fits, null_count, slice_mask};
use arrow_flat::{ArrayAccessor, ArrayIter, ArrayValuesIter, ByteString, Splitable, TryClone};
use arrow_types::{ArrowDataType, Mem, PolarsError, PolarsResult, Reason};
use std::alloc::Global;
use std::marker::Model;

/// An array of binary values of one size, seen as its type, the size, its bytes and its mask.
///
/// The Arrow Columnar Format's fixed-size primitive layout, of binary values.
pub struct FixedSizeBinaryArray {
    dtype: ArrowDataType,
    size: usize,
    values: Buffer<u8>,
    validity: Option<Bitmap>,
}

/// By hand: a place where a value may end then has one call to prove, and not the drop of each
/// field.
impl Drop for FixedSizeBinaryArray {
    fn drop(self) {
        let FixedSizeBinaryArray {
            dtype: _,
            size: _,
            values: _,
            validity: _,
        } = self;
    }
}

impl Model for FixedSizeBinaryArray {
    ghost use Rattle.std.specs.Coded.{codes};
    ghost use Rattle.arrow_types.specs.contracts.datatype.ArrowDataType as data_type;
    ghost use Rattle.arrow_bytes.specs.FixedSizeBinaries.{FixedSizeBinaries, PartsFit};

    ghost Value = { FixedSizeBinaries };

    ghost coded = { Prim.hlevel (codes, data_type.the_row.coded) };

    ghost view = { λ a. record {
      dtype = a.dtype;
      size = a.size;
      values = a.values;
      mask = a.validity;
    } };

    ghost invariant = { λ a. PartsFit record {
      dtype = a.dtype;
      size = a.size;
      values = a.values;
      mask = a.validity;
    } };
}

impl FixedSizeBinaryArray {
    /// The array of these parts, whose type tells the size. Refused as ComputeError:
    /// WrongLogicalType where the type is another, then NotCarried where the size is 0, then
    /// NotMultiple where the size doesn't divide the count of bytes, then MaskLength where a mask
    /// is there and hasn't one bit a value.
    ///
    /// Takes no memory.
    pub fn try_new(
        dtype: ArrowDataType,
        values: Buffer<u8>,
        validity: Option<Bitmap>,
    ) -> PolarsResult<FixedSizeBinaryArray>
        ensures { MatchResult result
            (λ a. PartsFit a × (a ≡ record {
              dtype = dtype;
              size = a.size;
              values = values;
              mask = validity;
            }))
            (λ e. Refused e dtype validity (count values)) }
    {
        let Some(size) = FixedSizeBinaryArray::maybe_get_size(&dtype) else {
            return Err(PolarsError::ComputeError(Reason::WrongLogicalType));
        };
        if size == 0 {
            return Err(PolarsError::ComputeError(Reason::NotCarried));
        }
        if values.len() % size != 0 {
            return Err(PolarsError::ComputeError(Reason::NotMultiple));
        }
        if !mask_fits(&validity, values.len() / size) {
            return Err(PolarsError::ComputeError(Reason::MaskLength));
        }
        Ok(FixedSizeBinaryArray {
            dtype,
            size,
            values,
            validity,
        })
    }

    /// The array of parts that fit together: the type is one of values of one size that isn't 0,
    /// the size divides the count of bytes, and a mask has one bit a value.
    ///
    /// Takes no memory.
    pub fn new(
        dtype: ArrowDataType,
        values: Buffer<u8>,
        validity: Option<Bitmap>,
    ) -> FixedSizeBinaryArray
        requires positive { 0 < size_or_zero (seen dtype) }
        requires multiple { count values % size_or_zero (seen dtype) ≡ 0 }
        requires fits { MaskHasLength validity (count values / size_or_zero (seen dtype)) }
        ensures { result ≡ record {
          dtype = dtype;
          size = size_or_zero (seen dtype);
          values = values;
          mask = validity;
        } }
    {
        let Some(size) = FixedSizeBinaryArray::maybe_get_size(&dtype) else {
            unreachable!();
        };
        FixedSizeBinaryArray {
            dtype,
            size,
            values,
            validity,
        }
    }

    /// The size in bytes that a type of binary values of one size declares, through extensions;
    /// None for another type.
    #[tactic(auto, using(arrow_flat::proofs::TypeViews::seen_types))]
    pub fn maybe_get_size(dtype: &ArrowDataType) -> Option<usize>
        ensures { result ≡ declared_size (seen dtype.now) }
    {
        match dtype {
            ArrowDataType::FixedSizeBinary(size) => Some(*size),
            ArrowDataType::Extension(extension) => {
                FixedSizeBinaryArray::maybe_get_size(&extension.get().inner)
            }
            _ => None,
        }
    }

    /// For proofs alone: what the array keeps.
    pub fn invariant(&self)
        ensures { IsSound self.now }
    {
        validity::invariant(&self.validity);
        prove!(0 < self.size);
    }

    /// The whole type, extensions included.
    pub fn dtype(&self) -> &ArrowDataType
        ensures { result.now ≡ self.now.dtype }
    {
        &self.dtype
    }

    /// The count of bytes of a value.
    pub fn size(&self) -> usize
        ensures value { result ≡ self.now.size }
        ensures positive { 0 < result }
    {
        self.size
    }

    /// The count of slots.
    pub fn len(&self) -> usize
        ensures { result ≡ slot_count self.now }
    {
        self.values.len() / self.size
    }

    /// The bytes of all slots, those under nulls too.
    pub fn values(&self) -> &Buffer<u8>
        ensures { result.now ≡ self.now.values }
    {
        &self.values
    }

    /// The mask, where there is one: a set bit for each slot that isn't null.
    pub fn validity(&self) -> Option<&Bitmap>
        ensures { option_copied result ≡ self.now.mask }
    {
        self.validity.as_ref()
    }

    /// The value at a slot, under a null too.
    pub fn value(&self, i: usize) -> &[u8]
        requires { i < slot_count self.now }
        ensures { slice_get (values_of self.now) i ≡ Some result.now }
    {
        chunk(self.values.as_slice(), self.size, i)
    }

    /// Whether the slot isn't null.
    pub fn is_valid(&self, i: usize) -> bool
        requires { i < slot_count self.now }
        ensures { result ≡ valid_at self.now.mask i }
    {
        is_valid(&self.validity, i)
    }

    /// Whether the slot is null.
    pub fn is_null(&self, i: usize) -> bool
        requires { i < slot_count self.now }
        ensures { result ≡ not (valid_at self.now.mask i) }
    {
        !self.is_valid(i)
    }

    /// The count of nulls.
    pub fn null_count(&self) -> usize
        ensures { result ≡ unset_in self.now.mask }
    {
        null_count(&self.validity)
    }

    /// The value at a slot, `None` where it is null.
    pub fn get(&self, i: usize) -> Option<&[u8]>
        requires { i < slot_count self.now }
        ensures { slice_get (slots self.now) i ≡ Some (option_copied result) }
    {
        ArrayAccessor::get(self, i)
    }

    /// Each slot in order, `None` for a null, from both ends.
    pub fn iter(&self) -> ArrayIter<&FixedSizeBinaryArray, &[u8], ByteString>
        ensures { result ≡ slots self.now }
    {
        ArrayIter::new(self)
    }

    /// Each value in order, those under nulls too, from both ends.
    pub fn values_iter(&self) -> ArrayValuesIter<&FixedSizeBinaryArray, &[u8], ByteString>
        ensures { result ≡ values_of self.now }
    {
        ArrayValuesIter::new(self)
    }

    /// Keeps the `length` slots from `offset` on; a mask without nulls is dropped.
    ///
    /// Takes no memory; counts the mask's bits.
    pub fn slice(&mut self, offset: usize, length: usize)
        requires { offset + length ≤ slot_count self.old }
        ensures { self.new ≡ cut self.old offset length }
    {
        slice_mask(&mut self.validity, offset, length);
        slice_chunks(&mut self.values, self.size, offset, length);
    }

    /// Puts another mask, or none, in the mask's place.
    pub fn set_validity(&mut self, validity: Option<Bitmap>)
        requires { MaskHasLength validity (slot_count self.old) }
        ensures { self.new ≡ with_mask validity self.old }
    {
        self.validity = validity;
    }

    /// A shared copy.
    pub fn try_clone(&self, alloc: Global) -> Mem<FixedSizeBinaryArray>
        ensures { IfOk result (λ a. a ≡ self.now) }
    {
        Ok(FixedSizeBinaryArray {
            dtype: self.dtype.try_clone(alloc)?,
            size: self.size,
            values: self.values.try_clone(alloc)?,
            validity: clone_mask(alloc, &self.validity)?,
        })
    }
}

impl<'a> ArrayAccessor<&'a [u8], ByteString> for &'a FixedSizeBinaryArray {
    ghost use Rattle.std.specs.Prelude.{refl};

    ghost seen = { λ x. x.now };

    ghost seen_slot = { option_copied };

    ghost values = { λ a. values_of a.now };

    ghost mask = { λ a. a.now.mask };

    fn len(self) -> usize {
        self.values.len() / self.size
    }

    fn is_valid(self, i: usize) -> bool {
        is_valid(&self.validity, i)
    }

    fn value(self, i: usize) -> &'a [u8] {
        FixedSizeBinaryArray::value(self, i)
    }

    ghost of_value = { λ x. refl };

    ghost of_null = { refl };
}

impl TryClone for FixedSizeBinaryArray {
    fn try_clone(&self, alloc: Global) -> Mem<FixedSizeBinaryArray> {
        FixedSizeBinaryArray::try_clone(self, alloc)
    }
}

impl Splitable for FixedSizeBinaryArray {
    ghost use Rattle.std.specs.Prelude.{◌≤◌, ◌-◌};
    ghost use Rattle.arrow_bytes.specs.FixedSizeBinaries.{slot_count, cut};

    ghost HasBound = { λ a n. n ≤ slot_count a };

    ghost front = { λ a n. cut a 0 n };

    ghost rest = { λ a n. cut a n (slot_count a - n) };

    fn check_bound(&self, offset: usize) -> bool {
        offset <= self.len()
    }

    fn split_at(
        &self,
        alloc: Global,
        offset: usize,
    ) -> Mem<(FixedSizeBinaryArray, FixedSizeBinaryArray)> {
        let mut front = FixedSizeBinaryArray::try_clone(self, alloc)?;
        front.slice(0, offset);
        let mut rest = FixedSizeBinaryArray::try_clone(self, alloc)?;
        rest.slice(offset, self.len() - offset);
        Ok((front, rest))
    }
}

/// The `i`th piece of `size` bytes.
fn chunk(bytes: &[u8], size: usize, i: usize) -> &[u8]
    requires { i * size + size ≤ count bytes.now }
    ensures { result.now ≡ take size (drop (i * size) bytes.now) }
{
    let start = i * size;
    &bytes[start..start + size]
}

/// Keeps `length` pieces of `size` bytes from piece `offset` on.
fn slice_chunks(bytes: &mut Buffer<u8>, size: usize, offset: usize, length: usize)
    requires { offset * size + length * size ≤ count bytes.old }
    ensures { bytes.new ≡ take (length * size) (drop (offset * size) bytes.old) }
{
    prove!(bytes.len() >= offset * size + length * size);
    bytes.slice(offset * size, length * size);
}
