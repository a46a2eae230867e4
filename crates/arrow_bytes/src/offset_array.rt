//! Arrays of binary values or of strings, of any length, under a mask.
ghost use Rattle.std.specs.Prelude.{◌≡◌, ◌+◌, ◌<◌, ◌≤◌, pred, length as count, map, slice_get, not, Some, MatchResult, IfOk};
ghost use Rattle.arrow_buffers.specs.Offsets.{AreOffsets};
ghost use Rattle.arrow_types.specs.Seen.{seen};
ghost use Rattle.arrow_types.specs.Types.{physical_of};
ghost use Rattle.std.specs.Option.{option_copied};
ghost use Rattle.arrow_flat.specs.Primitives.{MaskHasLength, valid_at, unset_in};
ghost use Rattle.arrow_flat.specs.Pieces.{AreTextsIf};
ghost use Rattle.arrow_bytes.specs.Binaries.{Binaries, layout_in, slot_count, values_between, values_of, EndsWithin, PartsFit, IsSound, Refused, cut, with_mask};

use crate::piece::{are_texts_if, piece};
use crate::stored::is_stored_as;
use arrow_buffers::{Bitmap, Buffer, Offset, OffsetsBuffer};
use arrow_flat::validity::{self, clone_mask, is_valid, mask_fits, null_count, slice_mask};
use arrow_flat::{ArrayAccessor, ByteString, Splitable, TryClone, ViewBytes, ViewStr, ViewType};
use arrow_types::{ArrowDataType, Mem, PolarsError, PolarsResult, Reason};
use std::alloc::Global;
use std::marker::{Model, PhantomData};

/// An array of binary values or of strings, seen as its type, its offsets, the bytes of all slots
/// and its mask.
///
/// The Arrow Columnar Format's variable-size binary layout; `BinaryArray` and `Utf8Array` of
/// polars-arrow.
pub struct OffsetArray<K: ViewType, O: Offset> {
    dtype: ArrowDataType,
    offsets: OffsetsBuffer<O>,
    values: Buffer<u8>,
    validity: Option<Bitmap>,
    kind: PhantomData<K>,
}

/// An array of binary values.
pub type BinaryArray<O> = OffsetArray<ViewBytes, O>;

/// An array of strings, each of them UTF-8.
pub type Utf8Array<O> = OffsetArray<ViewStr, O>;

/// By hand: a place where a value may end then has one call to prove, and not the drop of each
/// field.
impl<K: ViewType, O: Offset> Drop for OffsetArray<K, O> {
    fn drop(self) {
        let OffsetArray {
            dtype: _,
            offsets: _,
            values: _,
            validity: _,
            kind: _,
        } = self;
    }
}

impl<K: ViewType, O: Offset> Model for OffsetArray<K, O> {
    ghost use Rattle.std.specs.Coded.{codes};
    ghost use Rattle.arrow_types.specs.contracts.datatype.ArrowDataType as data_type;
    ghost use Rattle.arrow_bytes.specs.Binaries.{Binaries, PartsFit};

    ghost Value = { Binaries O };

    ghost coded = { Prim.hlevel (codes, data_type.the_row.coded) };

    ghost view = { λ a. record {
      dtype = a.dtype;
      offsets = a.offsets;
      values = a.values;
      mask = a.validity;
    } };

    ghost invariant = { λ a. PartsFit K.IS_TEXT O.IS_LARGE O.number record {
      dtype = a.dtype;
      offsets = a.offsets;
      values = a.values;
      mask = a.validity;
    } };
}

impl<K: ViewType, O: Offset> OffsetArray<K, O> {
    /// The array of these parts. Takes no memory.
    ///
    /// Refused as ComputeError: OffsetPastValues where the last offset passes the count of bytes,
    /// then MaskLength where a mask is there and hasn't one bit a slot, then WrongLogicalType where
    /// the type isn't stored so, then NotUtf8 where the bytes of a string, a null or not, aren't
    /// UTF-8.
    pub fn try_new(
        dtype: ArrowDataType,
        offsets: OffsetsBuffer<O>,
        values: Buffer<u8>,
        validity: Option<Bitmap>,
    ) -> PolarsResult<OffsetArray<K, O>>
        ensures { let parts : Binaries O =
            record { dtype = dtype; offsets = offsets; values = values; mask = validity } in
            MatchResult result
            (λ a. (a ≡ parts) × PartsFit K.IS_TEXT O.IS_LARGE O.number parts)
            (λ e. Refused K.IS_TEXT O.IS_LARGE O.number e parts) }
    {
        if offsets.last().to_usize() > values.len() {
            return Err(PolarsError::ComputeError(Reason::OffsetPastValues));
        }
        if !mask_fits(&validity, offsets.len_proxy()) {
            return Err(PolarsError::ComputeError(Reason::MaskLength));
        }
        if !is_stored_as(&dtype, K::IS_TEXT, O::IS_LARGE) {
            return Err(PolarsError::ComputeError(Reason::WrongLogicalType));
        }
        if !are_texts_if(K::IS_TEXT, &offsets, values.as_slice()) {
            return Err(PolarsError::ComputeError(Reason::NotUtf8));
        }
        Ok(OffsetArray {
            dtype,
            offsets,
            values,
            validity,
            kind: PhantomData,
        })
    }

    /// The array of parts that fit together: the last offset is within the bytes, a mask has one
    /// bit a slot, the type is stored so, and the bytes of each string, a null or not, are UTF-8.
    ///
    /// Takes no memory, and looks at no byte.
    pub fn new(
        dtype: ArrowDataType,
        offsets: OffsetsBuffer<O>,
        values: Buffer<u8>,
        validity: Option<Bitmap>,
    ) -> OffsetArray<K, O>
        requires within { EndsWithin O.number offsets values }
        requires fits { MaskHasLength validity (pred (count offsets)) }
        requires stored { physical_of (seen dtype) ≡ Some (layout_in K.IS_TEXT O.IS_LARGE) }
        requires texts { AreTextsIf K.IS_TEXT (values_between O.number offsets values) }
        ensures { result ≡ record {
          dtype = dtype;
          offsets = offsets;
          values = values;
          mask = validity;
        } }
    {
        OffsetArray {
            dtype,
            offsets,
            values,
            validity,
            kind: PhantomData,
        }
    }

    /// For proofs alone: what the array keeps.
    pub fn invariant(&self)
        ensures sound { IsSound K.IS_TEXT O.IS_LARGE O.number self.now }
        ensures ascending { AreOffsets O.limit (map O.number self.now.offsets) }
    {
        validity::invariant(&self.validity);
        self.offsets.len_proxy();
    }

    /// The whole type, extensions included.
    pub fn dtype(&self) -> &ArrowDataType
        ensures { result.now ≡ self.now.dtype }
    {
        &self.dtype
    }

    /// The count of slots.
    pub fn len(&self) -> usize
        ensures { result ≡ slot_count self.now }
    {
        self.offsets.len_proxy()
    }

    /// Where each slot begins in the bytes, and where the last one ends.
    pub fn offsets(&self) -> &OffsetsBuffer<O>
        ensures { result.now ≡ self.now.offsets }
    {
        &self.offsets
    }

    /// The bytes of all slots, those under nulls too.
    pub fn values(&self) -> &Buffer<u8>
        ensures { result.now ≡ self.now.values }
    {
        &self.values
    }

    /// The mask, where there is one: a set bit for each slot that isn't null.
    pub fn validity(&self) -> Option<&Bitmap>
        ensures { option_copied result ≡ self.now.mask }
    {
        self.validity.as_ref()
    }

    /// The bytes at a slot, under a null too.
    pub fn value_bytes(&self, i: usize) -> &[u8]
        requires { i < slot_count self.now }
        ensures value { slice_get (values_of O.number self.now) i ≡ Some result.now }
        ensures texts { AreTextsIf K.IS_TEXT (values_of O.number self.now) }
    {
        piece(&self.offsets, self.values.as_slice(), i)
    }

    /// Whether the slot isn't null.
    pub fn is_valid(&self, i: usize) -> bool
        requires { i < slot_count self.now }
        ensures { result ≡ valid_at self.now.mask i }
    {
        is_valid(&self.validity, i)
    }

    /// Whether the slot is null.
    pub fn is_null(&self, i: usize) -> bool
        requires { i < slot_count self.now }
        ensures { result ≡ not (valid_at self.now.mask i) }
    {
        !self.is_valid(i)
    }

    /// The count of nulls.
    pub fn null_count(&self) -> usize
        ensures { result ≡ unset_in self.now.mask }
    {
        null_count(&self.validity)
    }

    /// Keeps the `length` slots from `offset` on; the bytes stay, and a mask without nulls is
    /// dropped.
    ///
    /// Takes no memory; counts the mask's bits.
    pub fn slice(&mut self, offset: usize, length: usize)
        requires { offset + length ≤ slot_count self.old }
        ensures { self.new ≡ cut self.old offset length }
    {
        prove!(offset <= self.offsets.len_proxy());
        slice_mask(&mut self.validity, offset, length);
        self.offsets.slice(offset, length);
    }

    /// Puts another mask, or none, in the mask's place.
    pub fn set_validity(&mut self, validity: Option<Bitmap>)
        requires { MaskHasLength validity (slot_count self.old) }
        ensures { self.new ≡ with_mask validity self.old }
    {
        self.validity = validity;
    }

    /// A shared copy.
    pub fn try_clone(&self, alloc: Global) -> Mem<OffsetArray<K, O>>
        ensures { IfOk result (λ a. a ≡ self.now) }
    {
        Ok(OffsetArray {
            dtype: self.dtype.try_clone(alloc)?,
            offsets: self.offsets.try_clone(alloc)?,
            values: self.values.try_clone(alloc)?,
            validity: clone_mask(alloc, &self.validity)?,
            kind: PhantomData,
        })
    }
}

impl<'a, K: ViewType, O: Offset> ArrayAccessor<&'a [u8], ByteString> for &'a OffsetArray<K, O> {
    ghost use Rattle.std.specs.Prelude.{refl};
    ghost use Rattle.std.specs.Option.{option_copied};
    ghost use Rattle.arrow_bytes.specs.Binaries.{values_of};

    ghost seen = { λ x. x.now };

    ghost seen_slot = { option_copied };

    ghost values = { λ a. values_of O.number a.now };

    ghost mask = { λ a. a.now.mask };

    fn len(self) -> usize {
        self.offsets.len_proxy()
    }

    fn is_valid(self, i: usize) -> bool {
        is_valid(&self.validity, i)
    }

    fn value(self, i: usize) -> &'a [u8] {
        self.value_bytes(i)
    }

    ghost of_value = { λ x. refl };

    ghost of_null = { refl };
}

impl<K: ViewType, O: Offset> TryClone for OffsetArray<K, O> {
    fn try_clone(&self, alloc: Global) -> Mem<OffsetArray<K, O>> {
        OffsetArray::try_clone(self, alloc)
    }
}

impl<K: ViewType, O: Offset> Splitable for OffsetArray<K, O> {
    ghost use Rattle.std.specs.Prelude.{◌≤◌, ◌-◌};
    ghost use Rattle.arrow_bytes.specs.Binaries.{slot_count, cut};

    ghost HasBound = { λ a n. n ≤ slot_count a };

    ghost front = { λ a n. cut a 0 n };

    ghost rest = { λ a n. cut a n (slot_count a - n) };

    fn check_bound(&self, offset: usize) -> bool {
        offset <= self.len()
    }

    fn split_at(
        &self,
        alloc: Global,
        offset: usize,
    ) -> Mem<(OffsetArray<K, O>, OffsetArray<K, O>)> {
        let mut front = OffsetArray::try_clone(self, alloc)?;
        front.slice(0, offset);
        let mut rest = OffsetArray::try_clone(self, alloc)?;
        rest.slice(offset, self.len() - offset);
        Ok((front, rest))
    }
}
