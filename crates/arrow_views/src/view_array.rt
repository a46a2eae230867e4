//! Arrays of binary values or of strings by views, under a mask.
ghost use Rattle.std.specs.Prelude.{◌≡◌, ◌+◌, ◌<◌, ◌≤◌, length as count, map, slice_get, not, Some, MatchResult, IfOk, IfErr, OnOk};
ghost use Rattle.arrow_types.specs.Seen.{seen};
ghost use Rattle.arrow_types.specs.Types.{physical_of};
ghost use Rattle.arrow_flat.specs.Natives.{octets};
ghost use Rattle.std.specs.Option.{option_copied};
ghost use Rattle.arrow_flat.specs.Primitives.{IsLaidOut, MaskHasLength, valid_at, unset_in};
ghost use Rattle.arrow_flat.specs.Pieces.{AreTextsIf};
ghost use Rattle.arrow_views.specs.ViewArrays.{IsViewArray, IsSound, Refused, RefusedIn, view_array, physical_view, AreViews, values_in, values_of, cut, with_mask};

use crate::check::are_views;
use crate::text::{are_texts_if, are_texts_if_in, value_of};
use crate::{View, ViewBytes, ViewStr, ViewType};
use arrow_buffers::{Bitmap, Buffer};
use arrow_flat::stored::is_stored_in;
use arrow_flat::validity::{clone_mask, is_valid, mask_fits, null_count, slice_mask};
use arrow_flat::{Splitable, TryClone, stored, validity};
use arrow_types::{ArrowDataType, Mem, PhysicalType, PolarsError, PolarsResult, Reason};
use std::alloc::Global;
use std::marker::{Model, PhantomData};

/// An array of binary values or of strings, seen as its type, the views of all slots, the buffers
/// of the long values and its mask.
///
/// The Arrow Columnar Format's variable-size binary view layout.
pub struct BinaryViewArrayGeneric<T: ViewType> {
    pub(crate) dtype: ArrowDataType,
    pub(crate) views: Buffer<View>,
    pub(crate) buffers: Vec<Buffer<u8>>,
    pub(crate) validity: Option<Bitmap>,
    kind: PhantomData<T>,
}

/// By hand, so that each place where a value may end has one call to prove, and not the drop of
/// every field.
impl<T: ViewType> Drop for BinaryViewArrayGeneric<T> {
    fn drop(self) {
        let BinaryViewArrayGeneric {
            dtype: _,
            views: _,
            buffers: _,
            validity: _,
            kind: _,
        } = self;
    }
}

/// An array of strings by views.
pub type Utf8ViewArray = BinaryViewArrayGeneric<ViewStr>;

/// An array of binary values by views.
pub type BinaryViewArray = BinaryViewArrayGeneric<ViewBytes>;

impl<T: ViewType> Model for BinaryViewArrayGeneric<T> {
    ghost use Rattle.std.specs.Prelude.{map};
    ghost use Rattle.std.specs.Coded.{codes};
    ghost use Rattle.arrow_types.specs.contracts.datatype.ArrowDataType as data_type;
    ghost use Rattle.arrow_flat.specs.Natives.{octets};
    ghost use Rattle.arrow_flat.specs.ViewCode.{view_code};
    ghost use Rattle.arrow_views.specs.ViewArrays.{ViewArray, IsViewArray};

    ghost Value = { ViewArray };

    ghost coded = { Prim.hlevel (codes, data_type.the_row.coded, view_code) };

    ghost view = { λ a. record {
      dtype = a.dtype;
      views = a.views;
      buffers = map octets a.buffers.items;
      mask = a.validity;
    } };

    ghost invariant = { λ a.
        IsViewArray T.IS_TEXT a.dtype a.validity a.views (map octets a.buffers.items) };
}

impl<T: ViewType> BinaryViewArrayGeneric<T> {
    /// The array of these parts. Refused as ComputeError: MaskLength where a mask is there and
    /// hasn't one bit a view, then WrongLogicalType where the type isn't stored so, then ViewRange
    /// where a view, of a null or not, has other bytes than zeros behind a value of at most twelve
    /// bytes, or else names no buffer, ends past its buffer or has another prefix than its value,
    /// then for texts NotUtf8 where the bytes of a slot, a null or not, aren't UTF-8.
    ///
    /// Takes no memory. Where a buffer isn't UTF-8 as a whole, the bytes of each string are read by
    /// themselves, so that views of the same bytes cost their lengths together: `try_new_in` reads
    /// each byte twice at most.
    pub fn try_new(
        dtype: ArrowDataType,
        views: Buffer<View>,
        buffers: Vec<Buffer<u8>>,
        validity: Option<Bitmap>,
    ) -> PolarsResult<BinaryViewArrayGeneric<T>>
        ensures { MatchResult result
            (λ a. (a ≡ view_array dtype views (map octets buffers.items) validity)
            × IsViewArray T.IS_TEXT dtype validity views (map octets buffers.items))
            (λ e. Refused e T.IS_TEXT dtype validity views (map octets buffers.items)) }
    {
        test_parts(&dtype, views.as_slice(), &buffers, &validity, T::IS_TEXT)?;
        Ok(BinaryViewArrayGeneric {
            dtype,
            views,
            buffers,
            validity,
            kind: PhantomData,
        })
    }

    /// The array of these parts, refused as `try_new` refuses them, and as OutOfMemory.
    ///
    /// Reads each byte of a buffer at most twice, however many views name it: the call for views
    /// that come from elsewhere. Takes memory for a number a byte of the buffers, for strings of
    /// which a buffer isn't UTF-8 as a whole.
    pub fn try_new_in(
        alloc: Global,
        dtype: ArrowDataType,
        views: Buffer<View>,
        buffers: Vec<Buffer<u8>>,
        validity: Option<Bitmap>,
    ) -> PolarsResult<BinaryViewArrayGeneric<T>>
        ensures { MatchResult result
            (λ a. (a ≡ view_array dtype views (map octets buffers.items) validity)
            × IsViewArray T.IS_TEXT dtype validity views (map octets buffers.items))
            (λ e. RefusedIn e T.IS_TEXT dtype validity views (map octets buffers.items)) }
    {
        test_parts_in(
            alloc,
            &dtype,
            views.as_slice(),
            &buffers,
            &validity,
            T::IS_TEXT,
        )?;
        Ok(BinaryViewArrayGeneric {
            dtype,
            views,
            buffers,
            validity,
            kind: PhantomData,
        })
    }

    /// The array of parts that fit together: a mask has one bit a view, the type is stored so, each
    /// view stands for a value in the buffers, and for texts the bytes of each slot, a null or not,
    /// are UTF-8.
    ///
    /// Takes no memory, and looks at no byte.
    pub fn new(
        dtype: ArrowDataType,
        views: Buffer<View>,
        buffers: Vec<Buffer<u8>>,
        validity: Option<Bitmap>,
    ) -> BinaryViewArrayGeneric<T>
        requires fits { MaskHasLength validity (count views) }
        requires stored { physical_of (seen dtype) ≡ Some (physical_view T.IS_TEXT) }
        requires placed { AreViews (map octets buffers.items) views }
        requires texts { AreTextsIf T.IS_TEXT (values_in (map octets buffers.items) views) }
        ensures { result ≡ view_array dtype views (map octets buffers.items) validity }
    {
        BinaryViewArrayGeneric {
            dtype,
            views,
            buffers,
            validity,
            kind: PhantomData,
        }
    }

    /// For proofs alone: what the array keeps.
    pub fn invariant(&self)
        ensures { IsSound T.IS_TEXT self.now.dtype self.now.mask self.now.views self.now.buffers }
    {
        validity::invariant(&self.validity);
        stored::invariant(&self.dtype);
    }

    /// The whole type, extensions included.
    pub fn dtype(&self) -> &ArrowDataType
        ensures { result.now ≡ self.now.dtype }
    {
        &self.dtype
    }

    /// The count of slots.
    pub fn len(&self) -> usize
        ensures { result ≡ count self.now.views }
    {
        self.views.len()
    }

    /// The views of all slots, those of nulls too.
    pub fn views(&self) -> &Buffer<View>
        ensures { result.now ≡ self.now.views }
    {
        &self.views
    }

    /// The buffers that hold the values of more than twelve bytes.
    pub fn data_buffers(&self) -> &[Buffer<u8>]
        ensures { map octets result.now ≡ self.now.buffers }
    {
        self.buffers.as_slice()
    }

    /// The mask, where there is one: a set bit for each slot that isn't null.
    pub fn validity(&self) -> Option<&Bitmap>
        ensures { option_copied result ≡ self.now.mask }
    {
        self.validity.as_ref()
    }

    /// The bytes of the value at a slot, under a null too.
    pub fn value_bytes(&self, i: usize) -> &[u8]
        requires { i < count self.now.views }
        ensures value { slice_get (values_of self.now) i ≡ Some (octets result.now) }
        ensures texts { AreTextsIf T.IS_TEXT (values_of self.now) }
    {
        value_of(&self.views.as_slice()[i], &self.buffers)
    }

    /// Whether the slot isn't null.
    pub fn is_valid(&self, i: usize) -> bool
        requires { i < count self.now.views }
        ensures { result ≡ valid_at self.now.mask i }
    {
        is_valid(&self.validity, i)
    }

    /// Whether the slot is null.
    pub fn is_null(&self, i: usize) -> bool
        requires { i < count self.now.views }
        ensures { result ≡ not (valid_at self.now.mask i) }
    {
        !self.is_valid(i)
    }

    /// The count of nulls.
    pub fn null_count(&self) -> usize
        ensures { result ≡ unset_in self.now.mask }
    {
        null_count(&self.validity)
    }

    /// Keeps the `length` slots from `offset` on; the buffers stay, and a mask without nulls is
    /// dropped.
    ///
    /// Takes no memory; counts the mask's bits.
    pub fn slice(&mut self, offset: usize, length: usize)
        requires { offset + length ≤ count self.old.views }
        ensures { self.new ≡ cut self.old offset length }
    {
        slice_mask(&mut self.validity, offset, length);
        self.views.slice(offset, length);
    }

    /// Puts another mask, or none, in the mask's place.
    pub fn set_validity(&mut self, validity: Option<Bitmap>)
        requires { MaskHasLength validity (count self.old.views) }
        ensures { self.new ≡ with_mask validity self.old }
    {
        self.validity = validity;
    }

    /// A shared copy.
    pub fn try_clone(&self, alloc: Global) -> Mem<BinaryViewArrayGeneric<T>>
        ensures { IfOk result (λ a. a ≡ self.now) }
    {
        Ok(BinaryViewArrayGeneric {
            dtype: self.dtype.try_clone(alloc)?,
            views: self.views.try_clone(alloc)?,
            buffers: clone_buffers(alloc, &self.buffers)?,
            validity: clone_mask(alloc, &self.validity)?,
            kind: PhantomData,
        })
    }

    /// A shared copy of the `length` slots from `offset` on.
    fn part(&self, alloc: Global, offset: usize, length: usize) -> Mem<BinaryViewArrayGeneric<T>>
        requires { offset + length ≤ count self.now.views }
        ensures { IfOk result (λ a. a ≡ cut self.now offset length) }
    {
        let mut part = BinaryViewArrayGeneric::try_clone(self, alloc)?;
        part.slice(offset, length);
        Ok(part)
    }
}

impl<T: ViewType> TryClone for BinaryViewArrayGeneric<T> {
    fn try_clone(&self, alloc: Global) -> Mem<BinaryViewArrayGeneric<T>> {
        BinaryViewArrayGeneric::try_clone(self, alloc)
    }
}

impl<T: ViewType> Splitable for BinaryViewArrayGeneric<T> {
    ghost use Rattle.std.specs.Prelude.{◌-◌, ◌≤◌, length};
    ghost use Rattle.arrow_views.specs.ViewArrays.{cut};

    ghost HasBound = { λ a n. n ≤ length a.views };

    ghost front = { λ a n. cut a 0 n };

    ghost rest = { λ a n. cut a n (length a.views - n) };

    fn check_bound(&self, offset: usize) -> bool {
        offset <= self.len()
    }

    fn split_at(
        &self,
        alloc: Global,
        offset: usize,
    ) -> Mem<(BinaryViewArrayGeneric<T>, BinaryViewArrayGeneric<T>)> {
        let front = self.part(alloc, 0, offset)?;
        let rest = self.part(alloc, offset, self.len() - offset)?;
        Ok((front, rest))
    }
}

/// Shared copies of the buffers.
fn clone_buffers(alloc: Global, buffers: &[Buffer<u8>]) -> Mem<Vec<Buffer<u8>>>
    ensures { IfOk result (λ bs. bs.items ≡ buffers.now) }
{
    let mut clones = Vec::new(alloc);
    for buffer in buffers {
        clones.push(buffer.try_clone(alloc)?)?;
    }
    Ok(clones)
}

/// Whether these parts make an array: else the first test that fails. Takes no memory.
fn test_parts(
    dtype: &ArrowDataType,
    views: &[View],
    buffers: &[Buffer<u8>],
    validity: &Option<Bitmap>,
    is_text: bool,
) -> PolarsResult<()>
    ensures { MatchResult result
        (λ _. IsViewArray is_text dtype.now validity.now views.now (map octets buffers.now))
        (λ e. Refused e is_text dtype.now validity.now views.now (map octets buffers.now)) }
{
    test_places(dtype, views, buffers, validity, is_text)?;
    if !are_texts_if(is_text, views, buffers) {
        return Err(PolarsError::ComputeError(Reason::NotUtf8));
    }
    Ok(())
}

/// The same with memory for the ends of the strings in the buffers.
fn test_parts_in(
    alloc: Global,
    dtype: &ArrowDataType,
    views: &[View],
    buffers: &[Buffer<u8>],
    validity: &Option<Bitmap>,
    is_text: bool,
) -> PolarsResult<()>
    ensures { MatchResult result
        (λ _. IsViewArray is_text dtype.now validity.now views.now (map octets buffers.now))
        (λ e. RefusedIn e is_text dtype.now validity.now views.now (map octets buffers.now)) }
{
    test_places(dtype, views, buffers, validity, is_text)?;
    if !are_texts_if_in(alloc, is_text, views, buffers)? {
        return Err(PolarsError::ComputeError(Reason::NotUtf8));
    }
    Ok(())
}

/// Whether the mask has one bit a view, the type is stored by views, and each view stands for a
/// value in the buffers: else the first test that fails.
fn test_places(
    dtype: &ArrowDataType,
    views: &[View],
    buffers: &[Buffer<u8>],
    validity: &Option<Bitmap>,
    is_text: bool,
) -> PolarsResult<()>
    ensures laid { OnOk result
        (IsLaidOut (physical_view is_text) dtype.now validity.now (count views.now)) }
    ensures placed { OnOk result (AreViews (map octets buffers.now) views.now) }
    ensures refused { IfErr result (λ e.
        Refused e is_text dtype.now validity.now views.now (map octets buffers.now)) }
{
    if !mask_fits(validity, views.len()) {
        return Err(PolarsError::ComputeError(Reason::MaskLength));
    }
    if !is_stored_in(dtype, layout_of(is_text)) {
        return Err(PolarsError::ComputeError(Reason::WrongLogicalType));
    }
    if !are_views(views, buffers) {
        return Err(PolarsError::ComputeError(Reason::ViewRange));
    }
    Ok(())
}

/// The layout of arrays of strings by views, or of binary values.
fn layout_of(is_text: bool) -> PhysicalType
    ensures { result ≡ physical_view is_text }
{
    if is_text {
        PhysicalType::Utf8View
    } else {
        PhysicalType::BinaryView
    }
}
